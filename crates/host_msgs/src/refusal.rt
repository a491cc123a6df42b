//! Refusals: a code and two numbers, of which those that it does not use are 0.

ghost use Rattle.std.specs.Prelude.{◌≡◌};
ghost use Rattle.host_msgs.specs.Refusals.{refusal_of, two_indices, small_refusal, one_number};
ghost use Rattle.host_msgs.specs.Items.{refused_in};

use crate::item::Item;
use crate::kinds::refusal as codes;
use fixed_fields::{end, u8_at, u64_at};
use group_quorum::MAX_MARGIN;
use values::{Refusal, TOP};

pub fn refused(content: &[u8]) -> Option<Item>
    ensures { result ≡ refused_in content.now }
{
    let (code, rest) = u8_at(content)?;
    let (first, rest) = u64_at(rest)?;
    let (second, rest) = u64_at(rest)?;
    end(rest)?;
    let refusal = refusal(code, first, second)?;
    Some(Item::Refused(refusal))
}

fn refusal(code: u8, first: u64, second: u64) -> Option<Refusal>
    ensures { result ≡ refusal_of code first second }
{
    if code == codes::CHANGE_PENDING || code == codes::NOT_CAUGHT_UP {
        return two_indices(code, first, second);
    }
    if second != 0 {
        return None;
    }
    one_number(code, first)
}

/// The refusals of two indices.
fn two_indices(code: u8, first: u64, second: u64) -> Option<Refusal>
    ensures { result ≡ two_indices code first second }
{
    if first > TOP || second > TOP {
        return None;
    }
    Some(match code {
        codes::CHANGE_PENDING => Refusal::ChangePending(first, second),
        _ => Refusal::NotCaughtUp(first, second),
    })
}

fn one_number(code: u8, number: u64) -> Option<Refusal>
    ensures { result ≡ one_number code number }
{
    match code {
        codes::LOG_FULL if number <= TOP => Some(Refusal::LogFull(number)),
        codes::BAD_PEER => Some(Refusal::BadPeer(number)),
        codes::SAME_MARGIN if number <= u64::from(MAX_MARGIN) => Some(Refusal::SameMargin(
            number as u8,
        )),
        _ if number <= u64::from(u32::MAX) => small_refusal(code, number as u32),
        _ => None,
    }
}

/// The refusals of one number of four bytes.
fn small_refusal(code: u8, number: u32) -> Option<Refusal>
    ensures { result ≡ small_refusal code number }
{
    match code {
        codes::NOT_LEADER => Some(Refusal::NotLeader(number)),
        codes::ALREADY_VOTER => Some(Refusal::AlreadyVoter(number)),
        codes::NOT_VOTER => Some(Refusal::NotVoter(number)),
        codes::TOO_FEW => Some(Refusal::TooFew(number)),
        codes::TOO_MANY => Some(Refusal::TooMany(number)),
        codes::NO_LINK => Some(Refusal::NoLink(number)),
        codes::NO_STATE => Some(Refusal::NoState(number)),
        codes::NOT_FOR_ME => Some(Refusal::NotForMe(number)),
        _ => None,
    }
}
