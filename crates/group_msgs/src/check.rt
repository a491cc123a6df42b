//! The rules of a message's fields, in the order in which they are tried.

ghost use Rattle.std.specs.Prelude.{◌≡◌, ◌<◌, ◌≤◌, ◌^◌, ◌*◌, ℕ, List, length};
ghost use Rattle.std.specs.Option.{option_or};
ghost use Rattle.std.specs.Result.{result_err};
ghost use Rattle.group_msgs.specs.Known.{Known};
ghost use Rattle.group_msgs.specs.Gathered.{seen, IsList};
ghost use Rattle.group_msgs.specs.Values.{ids_in};
ghost use Rattle.group_msgs.specs.Rules as rules;

use crate::fault::PeerFault;
use crate::gather::Member;
use crate::numbers::{kinds, members};
use crate::scalars::Scalars;
use crate::voters::{are_rising, are_voters_long, ids_in};
use client_msgs::is_canonical_request;
use group_quorum::MAX_MARGIN;
use values::{MAX_ENTRIES, MAX_PARTS, MOST_ROWS, ROWS_PER_PART, TOP};

/// The first rule that a message breaks: of its term, and then of the member's fields in rising number.
pub(crate) fn check_ranges(term: u64, member: &Member<'_>) -> Result<(), PeerFault>
    requires { member.now.listed.count < 2 ^ 63 }
    ensures { (listed : List Known) → IsList member.now.number member.now.listed listed → result_err result ≡ rules.range_fault term member.now.number (seen member.now.scalars) listed }
{
    at_most(1, TOP, term)?;
    let scalars = &member.scalars;
    match member.number {
        members::ASK_VOTE | members::REJECTED => {
            check_index(1, scalars)?;
            check_index(2, scalars)
        }
        members::VOTE => Ok(()),
        members::APPEND => check_append(member),
        members::ACCEPTED => {
            check_point(scalars)?;
            check_index(3, scalars)
        }
        members::PART => check_part(member),
        _ => check_point(scalars),
    }
}

fn check_append(append: &Member<'_>) -> Result<(), PeerFault>
    requires { append.now.listed.count < 2 ^ 63 }
    ensures { (entries : List Known) → IsList 4 append.now.listed entries → result_err result ≡ rules.append_fault (seen append.now.scalars) entries }
{
    let scalars = &append.scalars;
    check_point(scalars)?;
    at_most(3, TOP, scalars.u64_at(1) + append.listed.count as u64)?;
    append.listed.at_most(MAX_ENTRIES, 3)?;
    append.listed.checked?;
    check_index(4, scalars)?;
    check_index(5, scalars)
}

fn check_part(part: &Member<'_>) -> Result<(), PeerFault>
    ensures { (rows : List Known) → IsList 7 part.now.listed rows → result_err result ≡ rules.part_fault (seen part.now.scalars) rows }
{
    let scalars = &part.scalars;
    check_point(scalars)?;
    check_index(3, scalars)?;
    check_index(4, scalars)?;
    at_most(4, scalars.u64_at(1), scalars.u64_at(4))?;
    let margin = scalars.u32_at(5);
    at_most(5, u64::from(MAX_MARGIN), u64::from(margin))?;
    let voters = scalars.bytes_at(6);
    check_voters(voters)?;
    rule(are_enough(margin, voters), PeerFault::Range(5))?;
    from_1_to(7, MOST_ROWS, scalars.u32_at(7))?;
    rule(scalars.u32_at(8) < scalars.u32_at(9), PeerFault::Range(8))?;
    from_1_to(9, MAX_PARTS, scalars.u32_at(9))?;
    part.listed.at_most(u64::from(ROWS_PER_PART), 10)?;
    part.listed.checked
}

/// What the rules find of a member's list up to this message, where they found `so_far` of those before it.
pub(crate) fn check_next(
    so_far: Result<(), PeerFault>,
    member: u64,
    place: u64,
    item: &Scalars<'_>,
) -> Result<(), PeerFault>
    ensures { result_err result ≡ option_or (result_err so_far) (rules.item_fault member place (seen item.now)) }
{
    so_far?;
    match member {
        members::APPEND => check_entry(place, item),
        _ => check_row(item),
    }
}

fn check_entry(place: u64, entry: &Scalars<'_>) -> Result<(), PeerFault>
    ensures { result_err result ≡ rules.entry_fault place (seen entry.now) }
{
    check_index(1, entry)?;
    match entry.u32_at(2) {
        kinds::NOOP => Ok(()),
        kinds::ASK => check_ask(place, entry),
        kinds::MEMBERS => check_members(entry),
        _ => Err(PeerFault::Range(2)),
    }
}

fn check_ask(place: u64, ask: &Scalars<'_>) -> Result<(), PeerFault>
    ensures { result_err result ≡ rules.ask_fault place (seen ask.now) }
{
    check_size(3, 16, ask.bytes_at(3))?;
    rule(
        is_canonical_request(ask.bytes_at(5)),
        PeerFault::NotCanonical(place),
    )
}

fn check_members(members: &Scalars<'_>) -> Result<(), PeerFault>
    ensures { result_err result ≡ rules.members_fault (seen members.now) }
{
    let margin = members.u32_at(7);
    let voters = members.bytes_at(6);
    check_voters(voters)?;
    rule(
        margin <= u32::from(MAX_MARGIN) && are_enough(margin, voters),
        PeerFault::Range(7),
    )
}

fn check_row(row: &Scalars<'_>) -> Result<(), PeerFault>
    ensures { result_err result ≡ rules.row_fault (seen row.now) }
{
    check_size(1, 16, row.bytes_at(1))?;
    let secret = row.bytes_at(3);
    if secret.is_empty() {
        return Ok(());
    }
    rule(
        16 <= secret.len() && secret.len() <= 48,
        PeerFault::Size(3, secret.len() as u64),
    )?;
    check_size(4, 32, row.bytes_at(4))?;
    from_1_to(5, 255, row.u32_at(5))
}

fn check_point(scalars: &Scalars<'_>) -> Result<(), PeerFault>
    ensures { result_err result ≡ rules.point_fault (seen scalars.now) }
{
    check_index(1, scalars)?;
    check_size(2, 32, scalars.bytes_at(2))
}

fn check_voters(bytes: &[u8]) -> Result<(), PeerFault>
    ensures { result_err result ≡ rules.voters_fault bytes.now }
{
    rule(
        are_voters_long(bytes),
        PeerFault::Size(6, bytes.len() as u64),
    )?;
    rule(are_rising(ids_in(bytes).as_slice()), PeerFault::Range(6))
}

/// Whether the voters are enough for the margin.
fn are_enough(margin: u32, voters: &[u8]) -> bool
    ensures { result ≡ rules.are_enough margin (ids_in voters.now) }
{
    2 * u64::from(margin) + 1 <= (voters.len() / 4) as u64
}

fn check_index(field: u32, scalars: &Scalars<'_>) -> Result<(), PeerFault>
    requires { field < 10 }
    ensures { result_err result ≡ rules.index_rule field (seen scalars.now) }
{
    at_most(field, TOP, scalars.u64_at(field))
}

fn check_size(field: u32, size: usize, bytes: &[u8]) -> Result<(), PeerFault>
    ensures { result_err result ≡ rules.size_rule field size bytes.now }
{
    rule(
        bytes.len() == size,
        PeerFault::Size(field, bytes.len() as u64),
    )
}

fn at_most(field: u32, most: u64, n: u64) -> Result<(), PeerFault>
    ensures { result_err result ≡ rules.at_most field most n }
{
    rule(n <= most, PeerFault::Range(field))
}

fn from_1_to(field: u32, most: u32, n: u32) -> Result<(), PeerFault>
    ensures { result_err result ≡ rules.from_1_to field most n }
{
    rule(1 <= n && n <= most, PeerFault::Range(field))
}

fn rule(holds: bool, fault: PeerFault) -> Result<(), PeerFault>
    ensures { result_err result ≡ rules.rule holds fault }
{
    if holds { Ok(()) } else { Err(fault) }
}
