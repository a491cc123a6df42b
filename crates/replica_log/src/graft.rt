//! Entries that another replica offers.
ghost use Rattle.std.specs.Prelude.{◌≡◌, ◌≤◌, ◌<◌, ◌+◌, IfOk, IfErr, OnErr, length};
ghost use Rattle.std.specs.List.{AllByRecursion};
ghost use Rattle.replica_model.specs.Linked.{sha_link};
ghost use Rattle.replica_model.specs.Graft.{differing};
ghost use Rattle.replica_log.specs.Window.{Fits, IsOrdered, hash_at};
ghost use Rattle.replica_log.specs.Grafting.{difference, graft_of, after_graft, kept_index, Joins, IsRefusal, KeepsPromised, Reaches};
ghost use Rattle.replica_log.specs.Models.{Answers};

use crate::chained::link;
use crate::log::Log;
use replica_model::TOP;
use values::{Hash, LogEntry, Memory, Point};

/// What comes of entries offered after a point.
#[derive(Clone, Copy, Debug, PartialEq, Eq)]
pub enum Graft {
    /// They stand in the log now.
    Grafted {
        /// The point of the last one.
        end: Point,
        /// The first index whose entry was replaced, with the hash there before and after.
        cut: Option<(u64, Hash, Hash)>,
    },
    /// They do not join the log: the point before them lies above it or differs above what is promised, or all of
    /// them lie below the base. Nothing has changed.
    Apart {
        /// The index up to which the log may be joined.
        hint: u64,
    },
    /// They differ from what is promised. Nothing has changed.
    Conflict {
        /// The first index that differs.
        index: u64,
        /// The hash there.
        kept: Hash,
        /// The hash that is offered.
        offered: Hash,
    },
}

impl Log {
    /// Takes the entries that follow a point, where they join this log. A promised entry is never replaced. Entries
    /// that stand already are compared, and not hashed again. After `Memory` nothing has changed.
    pub fn graft(&mut self, prev: Point, entries: &[LogEntry]) -> Result<Graft, Memory>
        requires top { prev.index + length entries.now ≤ TOP }
        requires fit { AllByRecursion Fits entries.now }
        ensures answer { IfOk result (λ g. g ≡ graft_of sha_link self.old prev entries.now) }
        ensures after { IfOk result (λ g. self.new ≡ after_graft self.old prev entries.now g) }
        ensures err { OnErr result (self.new ≡ self.old) }
        ensures promised { KeepsPromised self.old self.new }
        ensures reaches { IfOk result (Reaches self.new) }
        ensures model { IfOk result (Answers sha_link self.old prev entries.now self.new) }
    {
        let cut = match self.find_cut(prev, entries) {
            Ok(cut) => cut,
            Err(refusal) => return Ok(refusal),
        };
        let stay = self.kept_index(cut);
        let stand = entries.len().min((stay - prev.index) as usize);
        self.replace_after(stay, &entries[stand..])?;
        let index = prev.index + entries.len() as u64;
        let hash = self.hash_of(index);
        Ok(Graft::Grafted {
            end: Point { index, hash },
            cut,
        })
    }

    /// Where the offered entries are to be grafted: from the first difference on, or after the last entry. The error
    /// is what they come to instead.
    fn find_cut(
        &self,
        prev: Point,
        entries: &[LogEntry],
    ) -> Result<Option<(u64, Hash, Hash)>, Graft>
        requires top { prev.index + length entries.now ≤ TOP }
        requires fit { AllByRecursion Fits entries.now }
        ensures joins { IfOk result (Joins sha_link self.now prev entries.now) }
        ensures refused { IfErr result (IsRefusal sha_link self.now prev entries.now) }
        ensures ordered { IsOrdered self.now }
    {
        let last = self.last().index;
        if prev.index > last {
            return Err(Graft::Apart { hint: last });
        }
        let promised = self.promised();
        let end = prev.index + entries.len() as u64;
        if end < self.base().index {
            return Err(Graft::Apart { hint: promised });
        }
        match self.find_difference(prev, entries) {
            None => Ok(None),
            Some((index, kept, offered)) => {
                if index <= promised {
                    Err(Graft::Conflict {
                        index,
                        kept,
                        offered,
                    })
                } else if index == prev.index {
                    Err(Graft::Apart { hint: promised })
                } else {
                    Ok(Some((index, kept, offered)))
                }
            }
        }
    }

    /// The last index that stays.
    fn kept_index(&self, cut: Option<(u64, Hash, Hash)>) -> u64
        ensures { result ≡ kept_index self.now cut }
    {
        match cut {
            None => self.last().index,
            Some((index, ..)) => index.saturating_sub(1),
        }
    }

    /// Where the offered entries first differ: the index, the hash there and the offered one. The hashes are compared
    /// at the point before them and at each entry, wherever this log keeps one.
    fn find_difference(&self, prev: Point, entries: &[LogEntry]) -> Option<(u64, Hash, Hash)>
        requires top { prev.index + length entries.now ≤ TOP }
        requires fit { AllByRecursion Fits entries.now }
        ensures { result ≡ difference sha_link self.now prev entries.now }
    {
        let last = self.last().index;
        let mut offered = prev;
        let mut found = self.differing(offered);
        for entry in entries {
            if found.is_some() || offered.index >= last {
                break;
            }
            offered = self.next_offered(offered, entry);
            found = self.differing(offered);
        }
        found
    }

    /// The difference at an offered point, where this log keeps another hash.
    fn differing(&self, offered: Point) -> Option<(u64, Hash, Hash)>
        ensures { result ≡ differing (hash_at sha_link self.now offered.index) offered None }
    {
        match self.hash_at(offered.index) {
            Some(kept) if kept != offered.hash => Some((offered.index, kept, offered.hash)),
            _ => None,
        }
    }

    /// The point after an offered one that differs from nothing kept. Where the entry stands here already its hash is
    /// known.
    fn next_offered(&self, before: Point, entry: &LogEntry) -> Point
        requires same { differing (hash_at sha_link self.now before.index) before None ≡ None }
        requires top { before.index < TOP }
        requires fits { Fits entry.now }
        ensures { result ≡ record { index = before.index + 1; hash = sha_link before.hash (before.index + 1) entry.now } }
    {
        let index = before.index + 1;
        let hash = match self.chained_at(index) {
            Some(kept) if kept.entry == *entry => kept.hash,
            _ => link(&before.hash, index, entry),
        };
        Point { index, hash }
    }
}
