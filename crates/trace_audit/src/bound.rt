//! What the rollback bound needs: the configurations that were told, and who was rolled back.
ghost use Rattle.std.specs.Prelude.{◌≡◌, ℕ, ◌++◌, ◌∷◌, [], List, None, OnOk, OnErr};
ghost use Rattle.std.specs.List.{list_all};
ghost use Rattle.group_quorum.specs.Conf.{Conf};
ghost use Rattle.group_model.specs.Group.{bears};
ghost use Rattle.trace_audit.specs.declared.bound.Members.{Members as MembersTold};
ghost use Rattle.trace_audit.specs.Bounds.{StandsBound, bears_set, conf_told};

use std::alloc::Global;
use std::collections::BTreeSet;
use std::marker::Model;
use values::{Memory, ReplicaId};

/// The configurations that were told, and the replicas that were rolled back.
#[derive(Debug, Drop)]
pub(crate) struct Bound {
    alloc: Global,
    told: Vec<Members>,
    rolled: BTreeSet<ReplicaId>,
    /// The replica whose roll the last line told, where no roll before named it. A `refused` line takes it back.
    rolling: Option<ReplicaId>,
}

/// A configuration: its margin and its voters.
#[derive(Debug, Drop)]
struct Members {
    margin: u8,
    voters: Vec<ReplicaId>,
}

impl Model for Bound {
    ghost use Rattle.trace_audit.specs.Bounds.{KeptBound, confs_told};

    ghost Value = { KeptBound };

    ghost view = { λ b. record { confs = confs_told b.told.items; rolled = b.rolled; rolling = b.rolling } };
}

impl Bound {
    /// Nothing was told yet.
    pub(crate) fn new(alloc: Global) -> Bound
        ensures { StandsBound result [] [] [] }
    {
        Bound {
            alloc,
            told: Vec::new(alloc),
            rolled: BTreeSet::new(alloc),
            rolling: None,
        }
    }

    /// A configuration is told. One that the last told already is not kept again: all replicas tell of one change in turn.
    /// After `Memory` nothing has changed.
    pub(crate) fn members(&mut self, margin: u8, voters: &[ReplicaId]) -> Result<(), Memory>
        ensures ok { let conf : Conf = record { margin = margin; voters = voters.now } in
            (confs : List Conf) (rolled rolling : List ℕ) → StandsBound self.old confs rolled rolling
            → OnOk result (StandsBound self.new (conf ∷ confs) rolled rolling) }
        ensures err { OnErr result (self.new ≡ self.old) }
    {
        if let Some(last) = self.told.last()
            && last.margin == margin
            && last.voters.as_slice() == voters
        {
            return Ok(());
        }
        let voters = Vec::from_slice(self.alloc, voters)?;
        self.told.push(Members { margin, voters })?;
        Ok(())
    }

    /// A roll of the replica is told, after that of the last line, which stands. After `Memory` nothing has changed.
    pub(crate) fn roll(&mut self, replica: ReplicaId) -> Result<(), Memory>
        ensures ok { (confs : List Conf) (rolled rolling : List ℕ) → StandsBound self.old confs rolled rolling
            → OnOk result (StandsBound self.new confs (rolling ++ rolled) (replica ∷ [])) }
        ensures err { OnErr result (self.new ≡ self.old) }
    {
        let is_new = self.rolled.insert(replica)?;
        self.rolling = if is_new { Some(replica) } else { None };
        Ok(())
    }

    /// The roll that the last line told, if it did, was refused.
    pub(crate) fn refuse(&mut self)
        ensures { (confs : List Conf) (rolled rolling : List ℕ) → StandsBound self.old confs rolled rolling
            → StandsBound self.new confs rolled [] }
    {
        if let Some(replica) = self.rolling {
            self.rolled.remove(&replica);
        }
        self.rolling = None;
    }

    /// The roll that the last line told, if it did, stands.
    pub(crate) fn settle(&mut self)
        ensures { (confs : List Conf) (rolled rolling : List ℕ) → StandsBound self.old confs rolled rolling
            → StandsBound self.new confs (rolling ++ rolled) [] }
    {
        self.rolling = None;
    }

    /// Whether of the voters of each configuration at most twice its margin were rolled back, where the last line's roll stands.
    pub(crate) fn is_within(&self) -> bool
        ensures { (confs : List Conf) (rolled rolling : List ℕ) → StandsBound self.now confs rolled rolling
            → result ≡ list_all (bears (rolling ++ rolled)) confs }
    {
        all_bear(self.told.as_slice(), &self.rolled)
    }
}

/// Whether of the voters of each configuration at most twice its margin were rolled back.
fn all_bear(told: &[Members], rolled: &BTreeSet<ReplicaId>) -> bool
    ensures { result ≡ list_all (λ (m : MembersTold). bears_set rolled.now (conf_told m)) told.now }
{
    told.iter().all(|members| bears(members, rolled))
}

/// Whether at most twice the margin of the voters were rolled back.
fn bears(members: &Members, rolled: &BTreeSet<ReplicaId>) -> bool
    ensures { result ≡ bears_set rolled.now (conf_told members.now) }
{
    let back = members
        .voters
        .iter()
        .filter(|voter| rolled.contains(*voter));
    back.count() <= 2 * usize::from(members.margin)
}
