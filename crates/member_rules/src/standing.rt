//! What a change of the members looks at.
ghost use Rattle.std.specs.Prelude.{◌≡◌, ◌≤◌};
ghost use Rattle.group_quorum.specs.Voters.{IsId};

use crate::fault::MemberFault;
use crate::voters::{with_voter, without_voter};
use group_quorum::{Config, MAX_VOTERS};
use replica_log::Log;
use replica_model::{MAX_LEARNERS, TOP};
use values::ReplicaId;

/// The last and the committed index of a log, and its newest configuration with its index.
#[derive(Clone, Copy, Debug)]
pub struct Standing {
    pub last: u64,
    pub committed: u64,
    pub newest: Config,
    pub newest_index: u64,
}

impl Standing {
    ghost use Rattle.replica_model.specs.Linked.{sha_link};
    ghost use Rattle.replica_log.specs.Models.{OfEach};
    ghost use Rattle.member_rules.specs.Faults.{is_open, join_of, admit_of, remove_of, margin_of};
    ghost use Rattle.member_rules.specs.Standings.{standing_of, standing_in};
    ghost use Rattle.member_rules.specs.InRange.{IsStandingInRange};

    /// The standing of a log.
    pub fn of(log: &Log) -> Standing
        ensures window { result ≡ standing_of log.now }
        ensures model { OfEach sha_link log.now (λ s. result ≡ standing_in s) }
        ensures range { IsStandingInRange result }
    {
        let last = log.last().index;
        let configs = log.configs_to(last);
        Standing {
            last,
            committed: log.committed(),
            newest: configs.newest,
            newest_index: configs.newest_index,
        }
    }

    /// The faults of a join.
    pub fn join(&self, id: ReplicaId, linked: bool, learners: u32) -> Result<(), MemberFault>
        ensures { result ≡ join_of self.now id linked learners }
    {
        if self.newest.holds(id) {
            return Err(MemberFault::AlreadyVoter(id));
        }
        if !linked {
            return Err(MemberFault::NoLink(id));
        }
        if learners >= MAX_LEARNERS {
            return Err(MemberFault::TooMany(MAX_LEARNERS + 1));
        }
        Ok(())
    }

    /// The newest configuration with one voter more, or the fault.
    pub fn admit(&self, id: ReplicaId, mark: u64) -> Result<Config, MemberFault>
        requires { IsId id }
        ensures { result ≡ admit_of self.now id mark }
    {
        self.is_open()?;
        if self.newest.holds(id) {
            return Err(MemberFault::AlreadyVoter(id));
        }
        let count = self.newest.voters().len();
        if count >= MAX_VOTERS {
            return Err(MemberFault::TooMany(count as u32 + 1));
        }
        if mark == 0 || mark < self.committed {
            return Err(MemberFault::NotCaughtUp(mark, self.committed));
        }
        Ok(with_voter(&self.newest, id))
    }

    /// The newest configuration with one voter less, or the fault.
    pub fn remove(&self, id: ReplicaId) -> Result<Config, MemberFault>
        ensures { result ≡ remove_of self.now id }
    {
        self.is_open()?;
        if !self.newest.holds(id) {
            return Err(MemberFault::NotVoter(id));
        }
        without_voter(&self.newest, id)
    }

    /// The newest configuration under another margin, or the fault.
    pub fn set_margin(&self, margin: u8) -> Result<Config, MemberFault>
        requires { margin ≤ 15 }
        ensures { result ≡ margin_of self.now margin }
    {
        self.is_open()?;
        if self.newest.margin() == margin {
            return Err(MemberFault::SameMargin(margin));
        }
        let count = self.newest.voters().len() as u32;
        self.newest
            .with_margin(margin)
            .map_err(|_| MemberFault::TooFew(count))
    }

    /// Whether an entry can be pushed and no change is pending.
    fn is_open(&self) -> Result<(), MemberFault>
        ensures { result ≡ is_open self.now }
    {
        if self.last == TOP {
            return Err(MemberFault::LogFull(self.last));
        }
        if self.newest_index > self.committed {
            return Err(MemberFault::ChangePending(self.newest_index, self.committed));
        }
        Ok(())
    }
}
