//! Why a change of the members is refused.
ghost use Rattle.std.specs.Prelude.{◌≡◌};
ghost use Rattle.member_rules.specs.Refusals.{refusal_of};

use values::Refusal;

/// Why a change of the members is refused.
#[derive(Clone, Copy, Debug, PartialEq, Eq)]
pub enum MemberFault {
    /// The last index is the greatest there is.
    LogFull(u64),
    /// The newest configuration has this index, which is above the committed one.
    ChangePending(u64, u64),
    /// The id is a voter of the newest configuration.
    AlreadyVoter(u32),
    /// The id is no voter of it.
    NotVoter(u32),
    /// This many voters would be left, too few for the margin.
    TooFew(u32),
    /// There would be this many voters or learners.
    TooMany(u32),
    /// The learner has accepted the log up to this mark alone; the committed index is the other number.
    NotCaughtUp(u64, u64),
    /// There is no link to the id.
    NoLink(u32),
    /// The newest configuration has this margin.
    SameMargin(u8),
}

impl From<MemberFault> for Refusal {
    ghost from_gives = { λ fault refusal. refusal ≡ refusal_of fault };

    fn from(fault: MemberFault) -> Refusal {
        match fault {
            MemberFault::LogFull(last) => Refusal::LogFull(last),
            MemberFault::ChangePending(index, committed) => {
                Refusal::ChangePending(index, committed)
            }
            MemberFault::AlreadyVoter(id) => Refusal::AlreadyVoter(id),
            MemberFault::NotVoter(id) => Refusal::NotVoter(id),
            MemberFault::TooFew(count) => Refusal::TooFew(count),
            MemberFault::TooMany(count) => Refusal::TooMany(count),
            MemberFault::NotCaughtUp(mark, committed) => Refusal::NotCaughtUp(mark, committed),
            MemberFault::NoLink(id) => Refusal::NoLink(id),
            MemberFault::SameMargin(margin) => Refusal::SameMargin(margin),
        }
    }
}
