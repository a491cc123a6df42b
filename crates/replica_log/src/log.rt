//! The log.
ghost use Rattle.std.specs.Prelude.{◌≡◌, ℕ, ◌≤◌, ◌<◌, ◌+◌, ◌∷◌, [], ◌++◌, IfOk, IfSome, OnOk, OnErr, length, max, option_copied};
ghost use Rattle.std.specs.List.{AllByRecursion};
ghost use Rattle.replica_model.specs.Path.{end_point, last_term as model_last_term, term_at as model_term_at, entry_at as model_entry_at};
ghost use Rattle.replica_model.specs.Linked.{sha_link};
ghost use Rattle.replica_model.specs.Replica.{Replica, begin};
ghost use Rattle.replica_model.specs.Graft.{hash_at as model_hash_at, matches as model_matches};
ghost use Rattle.replica_log.specs.Window.{Fits, IsOrdered, base_index, last_index, last_point, last_term_of, term_of_point, hash_at, term_at, term_from, is_kept, entry_at, matches, configs_at, conf_at, conf_index_at, upto, first_window, window_at, pushed, promised_to, committed_to, dropped_below};
ghost use Rattle.replica_log.specs.Grafting.{point_at};
ghost use Rattle.replica_log.specs.Chain.{chained_at};
ghost use Rattle.replica_log.specs.Models.{StandsFor, OfEach, kept_by, IsSummedUp, AreConfigs};

use crate::chained::{Chained, chain_after, config_after};
use crate::configs::Configs;
use group_quorum::Config;
use replica_model::TOP;
use std::alloc::Global;
use std::collections::VecDeque;
use std::marker::Model;
use values::{Hash, LogEntry, Memory, Point};

/// A replica's log. Contracts see a window: its base and what sums up the path to it, the entries after the base, the
/// promised and the committed index. The base is at most the committed index, that at most the promised one, and that
/// at most the last one.
#[derive(Debug, Drop)]
pub struct Log {
    base: Point,
    base_term: u64,
    config: Config,
    conf_index: u64,
    kept: VecDeque<Chained>,
    promised: u64,
    committed: u64,
}

impl Model for Log {
    ghost use Rattle.replica_log.specs.Window.{Window};

    ghost Value = { Window };

    ghost use Rattle.replica_log.specs.Stored.{window_in, IsStored};

    ghost view = { window_in };

    ghost invariant = { IsStored };
}

impl Log {
    /// An empty log under its first configuration.
    pub fn first(alloc: Global, config: Config) -> Log
        ensures window { result ≡ first_window config }
        ensures model { (me : ℕ) (limit : ℕ) → StandsFor sha_link result (begin me config limit) }
    {
        Log {
            base: Point {
                index: 0,
                hash: Hash(hash_chain::first()),
            },
            base_term: 0,
            config,
            conf_index: 0,
            kept: VecDeque::new(alloc),
            promised: 0,
            committed: 0,
        }
    }

    /// The log of a path that is known by its summary alone: its end point, the term of its last entry, and its newest
    /// configuration with its index. All of it is promised and committed. At index 0 there is no entry, and so no term.
    pub fn at(alloc: Global, point: Point, last_term: u64, config: Config, conf_index: u64) -> Log
        requires conf_index { conf_index ≤ point.index }
        requires top { point.index ≤ TOP }
        ensures window { result ≡ window_at (record { point = point; term = term_of_point point last_term; conf = config; conf_index = conf_index }) }
        ensures model { (s : Replica)
            → IsSummedUp sha_link s (record { point = point; term = last_term; conf = config; conf_index = conf_index })
            → StandsFor sha_link result s }
    {
        Log {
            base: point,
            base_term: if point.index == 0 { 0 } else { last_term },
            config,
            conf_index,
            kept: VecDeque::new(alloc),
            promised: point.index,
            committed: point.index,
        }
    }

    /// Puts an entry at the end. After `Memory` nothing has changed.
    pub fn push(&mut self, entry: LogEntry) -> Result<(), Memory>
        requires room { last_index self.old < TOP }
        requires fits { Fits entry }
        ensures ok { OnOk result (self.new ≡ pushed self.old entry) }
        ensures err { OnErr result (self.new ≡ self.old) }
        ensures model { OnOk result (OfEach sha_link self.old (λ s.
            StandsFor sha_link self.new (record s { path = s.path ++ entry ∷ [] }))) }
    {
        let last = self.last_index();
        let next = Chained::new(
            &self.hash_of(last),
            last + 1,
            self.conf_index_of(last),
            entry,
        );
        self.kept.push_back(next)?;
        Ok(())
    }

    /// The point of the last entry; the base where none is kept.
    pub fn last(&self) -> Point
        ensures last { result ≡ last_point sha_link self.now }
        ensures ordered { IsOrdered self.now }
        ensures model { OfEach sha_link self.now (λ s. result ≡ end_point sha_link s.path) }
    {
        let index = self.last_index();
        Point {
            index,
            hash: self.hash_of(index),
        }
    }

    /// The term of the last entry, 0 where there is none.
    pub fn last_term(&self) -> u64
        ensures term { result ≡ last_term_of self.now }
        ensures zero { last_index self.now ≡ 0 → result ≡ 0 }
        ensures model { OfEach sha_link self.now (λ s. result ≡ model_last_term s.path) }
    {
        self.term_of(self.last_index())
    }

    /// The term of the entry at an index, 0 at index 0; `None` exactly outside base to last.
    pub fn term_at(&self, index: u64) -> Option<u64>
        ensures term { result ≡ term_at self.now index }
        ensures zero { index ≡ 0 → IfSome result (λ term. term ≡ 0) }
        ensures model { OfEach sha_link self.now (λ s. result ≡ kept_by s index (model_term_at s.path index)) }
    {
        if self.keeps(index) {
            Some(self.term_of(index))
        } else {
            None
        }
    }

    /// The point from which on entries are kept. Its own entry is not.
    pub fn base(&self) -> Point
        ensures base { result ≡ self.now.base.point }
        ensures ordered { IsOrdered self.now }
        ensures model { OfEach sha_link self.now (λ s. result.index ≡ s.base) }
    {
        self.base
    }

    /// The index up to which the log is promised.
    pub fn promised(&self) -> u64
        ensures promised { result ≡ self.now.promised }
        ensures ordered { IsOrdered self.now }
        ensures model { OfEach sha_link self.now (λ s. result ≡ s.promised) }
    {
        self.promised
    }

    /// The index up to which the log is committed.
    pub fn committed(&self) -> u64
        ensures committed { result ≡ self.now.committed }
        ensures ordered { IsOrdered self.now }
        ensures model { OfEach sha_link self.now (λ s. result ≡ s.committed) }
    {
        self.committed
    }

    /// The entry at an index; `None` exactly outside base + 1 to last.
    pub fn entry_at(&self, index: u64) -> Option<&LogEntry>
        ensures entry { option_copied result ≡ entry_at self.now index }
        ensures model { OfEach sha_link self.now (λ s. s.base < index → option_copied result ≡ model_entry_at s.path index) }
    {
        match self.chained_at(index) {
            Some(chained) => Some(&chained.entry),
            None => None,
        }
    }

    /// The hash of the path up to an index; `None` exactly outside base to last.
    pub fn hash_at(&self, index: u64) -> Option<Hash>
        ensures hash { result ≡ hash_at sha_link self.now index }
        ensures ordered { IsOrdered self.now }
        ensures model { OfEach sha_link self.now (λ s. result ≡ model_hash_at sha_link s index) }
    {
        if self.keeps(index) {
            Some(self.hash_of(index))
        } else {
            None
        }
    }

    /// Whether the hash at the point's index is the point's.
    pub fn matches(&self, point: Point) -> bool
        ensures matches { result ≡ matches sha_link self.now point }
        ensures ordered { IsOrdered self.now }
        ensures model { OfEach sha_link self.now (λ s. result ≡ model_matches sha_link s point) }
    {
        match self.hash_at(point.index) {
            Some(hash) => hash == point.hash,
            None => false,
        }
    }

    /// The configurations of the entries up to an index from base to last. They are the same up to each index between
    /// the newest one's and this one.
    pub fn configs_to(&self, index: u64) -> Configs
        requires base { base_index self.now ≤ index }
        requires last { index ≤ last_index self.now }
        ensures configs { result ≡ configs_at self.now index }
        ensures within { result.newest_index ≤ index }
        ensures stay { (i : ℕ) → base_index self.now ≤ i → result.newest_index ≤ i → i ≤ index → configs_at self.now i ≡ result }
        ensures model { OfEach sha_link self.now (λ s. AreConfigs s index result) }
    {
        let newest_index = self.conf_index_of(index);
        // Nearly always no configuration is kept above the base.
        if newest_index <= self.base.index {
            return Configs {
                newest: self.config,
                newest_index,
                older: self.config,
            };
        }
        Configs {
            newest: self.config_of(index),
            newest_index,
            older: self.config_of(newest_index - 1),
        }
    }

    /// Raises the promised index to this one. It never falls.
    pub fn promise_to(&mut self, index: u64)
        requires { index ≤ last_index self.old }
        ensures window { self.new ≡ promised_to self.old index }
        ensures model { OfEach sha_link self.old (λ s. StandsFor sha_link self.new (record s { promised = max s.promised index })) }
    {
        self.promised = self.promised.max(index);
    }

    /// Raises the committed index to this one. It never falls.
    pub fn commit_to(&mut self, index: u64)
        requires { index ≤ self.old.promised }
        ensures window { self.new ≡ committed_to self.old index }
        ensures model { OfEach sha_link self.old (λ s. StandsFor sha_link self.new (record s { committed = max s.committed index })) }
    {
        self.committed = self.committed.max(index);
    }

    /// Moves the base to this index where it is higher, and keeps no entry up to it. It takes constant time for each
    /// entry that goes.
    pub fn drop_below(&mut self, index: u64)
        requires { index ≤ self.old.committed }
        ensures window { self.new ≡ dropped_below sha_link self.old index }
        ensures model { OfEach sha_link self.old (λ s. StandsFor sha_link self.new (record s { base = max s.base index })) }
    {
        while self.base.index < index {
            self.advance();
        }
    }

    /// A copy of it.
    pub fn copy(&self) -> Result<Log, Memory>
        ensures { IfOk result (λ log. log ≡ self.now) }
    {
        let alloc = *self.kept.allocator();
        let mut kept = VecDeque::with_capacity(alloc, self.kept.len())?;
        for chained in self.kept.iter() {
            kept.push_back(chained.copy(alloc)?)?;
        }
        Ok(Log {
            base: self.base,
            base_term: self.base_term,
            config: self.config,
            conf_index: self.conf_index,
            kept,
            promised: self.promised,
            committed: self.committed,
        })
    }

    /// Replaces the entries after an index by these. After `Memory` nothing has changed.
    pub(crate) fn replace_after(&mut self, index: u64, entries: &[LogEntry]) -> Result<(), Memory>
        requires promised { self.old.promised ≤ index }
        requires last { index ≤ last_index self.old }
        requires room { index + length entries.now ≤ TOP }
        requires fit { AllByRecursion Fits entries.now }
        ensures ok { OnOk result (self.new ≡ record self.old { entries = upto self.old index ++ entries.now }) }
        ensures err { OnErr result (self.new ≡ self.old) }
    {
        let alloc = *self.kept.allocator();
        let stay = (index - self.base.index) as usize;
        let mut more = chain_after(
            alloc,
            &self.hash_of(index),
            index,
            self.conf_index_of(index),
            entries,
        )?;
        self.kept.reserve(more.len())?;
        self.kept.truncate(stay);
        self.kept.append(&mut more).unwrap();
        Ok(())
    }

    /// The entry at an index with what links it into the chain.
    pub(crate) fn chained_at(&self, index: u64) -> Option<&Chained>
        ensures { option_copied result ≡ chained_at sha_link self.now index }
    {
        if index <= self.base.index {
            return None;
        }
        self.kept.get((index - self.base.index - 1) as usize)
    }

    /// The hash of the path up to an index from base to last.
    pub(crate) fn hash_of(&self, index: u64) -> Hash
        requires base { base_index self.now ≤ index }
        requires last { index ≤ last_index self.now }
        ensures { result ≡ (point_at sha_link self.now index).hash }
    {
        match self.chained_at(index) {
            Some(chained) => chained.hash,
            None => self.base.hash,
        }
    }

    /// Moves the base by one entry.
    fn advance(&mut self)
        requires { base_index self.old < self.old.committed }
        ensures { self.new ≡ dropped_below sha_link self.old (base_index self.old + 1) }
    {
        if let Some(next) = self.kept.pop_front() {
            self.config = config_after(&self.config, &next.entry);
            self.conf_index = next.conf_index;
            self.base_term = next.entry.term;
            self.base = Point {
                index: self.base.index + 1,
                hash: next.hash,
            };
        }
    }

    fn last_index(&self) -> u64
        ensures last { result ≡ last_index self.now }
        ensures ordered { IsOrdered self.now }
    {
        self.base.index + self.kept.len() as u64
    }

    /// Whether an index is neither below the base nor above the last one.
    fn keeps(&self, index: u64) -> bool
        ensures kept { result ≡ is_kept self.now index }
        ensures ordered { IsOrdered self.now }
    {
        self.base.index <= index && index <= self.last_index()
    }

    fn term_of(&self, index: u64) -> u64
        requires base { base_index self.now ≤ index }
        requires last { index ≤ last_index self.now }
        ensures term { result ≡ term_from self.now.base.term (upto self.now index) }
        ensures zero { index ≡ 0 → result ≡ 0 }
    {
        match self.chained_at(index) {
            Some(chained) => chained.entry.term,
            None => self.base_term,
        }
    }

    /// The index of the newest configuration up to an index.
    fn conf_index_of(&self, index: u64) -> u64
        requires base { base_index self.now ≤ index }
        requires last { index ≤ last_index self.now }
        ensures index { result ≡ conf_index_at self.now index }
        ensures within { result ≤ index }
    {
        match self.chained_at(index) {
            Some(chained) => chained.conf_index,
            None => self.conf_index,
        }
    }

    /// The newest configuration up to an index.
    fn config_of(&self, index: u64) -> Config
        requires base { base_index self.now ≤ index }
        requires last { index ≤ last_index self.now }
        ensures { result ≡ conf_at self.now index }
    {
        match self.chained_at(self.conf_index_of(index)) {
            Some(chained) => config_after(&self.config, &chained.entry),
            None => self.config,
        }
    }
}
