//! Reading peer messages.

ghost use Rattle.std.specs.Prelude.{◌≡◌, ◌<◌, ◌≤◌, ◌*◌, ◌^◌, ℕ, true, None, List, map, length, IfOk};
ghost use Rattle.proto_wire.specs.Fields.{Field};
ghost use Rattle.group_msgs.specs.Known.{known_of, u32_at, bytes_at};
ghost use Rattle.group_msgs.specs.Reading.{listed_in};
ghost use Rattle.group_msgs.specs.Gathered.{seen, IsOf};
ghost use Rattle.group_msgs.specs.Peer as peer;
ghost use Rattle.group_msgs.specs.Values as values;
ghost use Rattle.group_msgs.specs.Rules as rules;
ghost use Rattle.group_msgs.specs.Peer.{peer_of, ReadsPeer};
ghost use Rattle.group_msgs.specs.Ranges.{IsInRange};

use crate::check::check_ranges;
use crate::fault::PeerFault;
use crate::gather::{Member, gather};
use crate::numbers::{kinds, members};
use crate::scalars::Scalars;
use crate::voters::ids_in;
use group_quorum::MAX_VOTERS;
use std::alloc::Global;
use values::{
    Body, Bytes, ClientId, Entries, Hash, Ids, Kept, LogEntry, Memory, PeerMsg, Point, Row, Rows,
    TablePart,
};

/// The message that bytes stand for.
///
/// Fields may stand in any order. Of a number the last field counts, of the oneof the last member; the same
/// member twice in a row is read on into one value, and its lists gather in order. Unknown fields, and known
/// numbers of another wire type, count for nothing. `Wire` carries the first fault in the order of the bytes,
/// counted from their start. Without one, `Nothing` comes where no member stands, and else the first rule that
/// is broken: of the term, and then of the member's fields in rising number. `Memory` hides a message only, and none of these.
pub fn read_peer(alloc: Global, bytes: &[u8]) -> Result<PeerMsg, PeerFault>
    ensures exact { ReadsPeer result (peer_of bytes.now) }
    ensures in_range { IfOk result (λ msg. IsInRange msg) }
{
    let gathered = gather(alloc, bytes)?;
    if gathered.member.number == 0 {
        return Err(PeerFault::Nothing);
    }
    checked(alloc, gathered.term, &gathered.member)
}

/// The message of a term and of the member that stands last, or the first rule that is broken.
fn checked(alloc: Global, term: u64, member: &Member<'_>) -> Result<PeerMsg, PeerFault>
    requires few { member.now.listed.count < 2 ^ 63 }
    requires of { (fs : List Field) × IsOf member.now fs }
    ensures exact { (fs : List Field) → IsOf member.now fs → ReadsPeer result (peer.checked term member.now.number (known_of fs) (map known_of (listed_in member.now.number fs))) }
    ensures in_range { IfOk result (λ msg. IsInRange msg) }
{
    check_ranges(term, member)?;
    if member.listed.lost {
        return Err(PeerFault::Memory);
    }
    let msg = message(alloc, term, member)?;
    Ok(msg)
}

/// The message of a term and a member whose ranges were checked.
fn message(alloc: Global, term: u64, member: &Member<'_>) -> Result<PeerMsg, Memory>
    requires { rules.range_fault term member.now.number (seen member.now.scalars) (map seen member.now.listed.first.items) ≡ None }
    ensures { IfOk result (λ msg. msg ≡ values.message_of term member.now.number (seen member.now.scalars) (map seen member.now.listed.first.items)) }
{
    let scalars = &member.scalars;
    let listed = member.listed.first.as_slice();
    Ok(match member.number {
        members::ASK_VOTE => PeerMsg::AskVote {
            term,
            last_index: scalars.u64_at(1),
            last_term: scalars.u64_at(2),
        },
        members::VOTE => PeerMsg::Vote {
            term,
            granted: scalars.bool_at(1),
        },
        members::APPEND => PeerMsg::Append {
            term,
            prev: point(scalars),
            entries: entries(alloc, listed)?,
            promise: scalars.u64_at(4),
            commit: scalars.u64_at(5),
        },
        members::ACCEPTED => PeerMsg::Accepted {
            term,
            end: point(scalars),
            promised: scalars.u64_at(3),
        },
        members::REJECTED => PeerMsg::Rejected {
            term,
            asked: scalars.u64_at(1),
            hint: scalars.u64_at(2),
        },
        members::PART => PeerMsg::Part {
            term,
            part: part(alloc, scalars, listed)?,
        },
        _ => PeerMsg::PartTaken {
            term,
            point: point(scalars),
            next: scalars.u32_at(3),
        },
    })
}

fn part(alloc: Global, scalars: &Scalars<'_>, listed: &[Scalars<'_>]) -> Result<TablePart, Memory>
    requires { rules.part_fault (seen scalars.now) (map seen listed.now) ≡ None }
    ensures { IfOk result (λ part. part ≡ values.part_of (seen scalars.now) (map seen listed.now)) }
{
    Ok(TablePart {
        point: point(scalars),
        last_term: scalars.u64_at(3),
        conf_index: scalars.u64_at(4),
        margin: scalars.u32_at(5) as u8,
        voters: voters(alloc, scalars.bytes_at(6))?,
        limit: scalars.u32_at(7),
        part: scalars.u32_at(8),
        parts: scalars.u32_at(9),
        rows: rows(alloc, listed)?,
    })
}

fn entries(alloc: Global, listed: &[Scalars<'_>]) -> Result<Entries, Memory>
    requires { rules.entries_fault 0 (map seen listed.now) ≡ None }
    ensures { IfOk result (λ entries. entries ≡ map values.entry_of (map seen listed.now)) }
{
    let mut entries = Vec::with_capacity(alloc, listed.len())?;
    for scalars in listed {
        let entry = entry(alloc, scalars)?;
        entries.push(entry)?;
    }
    Ok(Entries::from(entries))
}

fn entry(alloc: Global, scalars: &Scalars<'_>) -> Result<LogEntry, Memory>
    requires { (place : ℕ) × (rules.entry_fault place (seen scalars.now) ≡ None) }
    ensures { IfOk result (λ entry. entry ≡ values.entry_of (seen scalars.now)) }
{
    Ok(LogEntry {
        term: scalars.u64_at(1),
        body: body(alloc, scalars)?,
    })
}

fn body(alloc: Global, scalars: &Scalars<'_>) -> Result<Body, Memory>
    requires { (place : ℕ) × (rules.kind_fault place (u32_at 2 (seen scalars.now)) (seen scalars.now) ≡ None) }
    ensures { IfOk result (λ body. body ≡ values.body_of (seen scalars.now)) }
{
    Ok(match scalars.u32_at(2) {
        kinds::NOOP => Body::Noop,
        kinds::ASK => Body::Ask {
            client: ClientId(array(scalars.bytes_at(3))),
            number: scalars.u64_at(4),
            request: Bytes::from_slice(alloc, scalars.bytes_at(5))?,
        },
        _ => Body::Members {
            margin: scalars.u32_at(7) as u8,
            voters: voters(alloc, scalars.bytes_at(6))?,
        },
    })
}

fn rows(alloc: Global, listed: &[Scalars<'_>]) -> Result<Rows, Memory>
    requires { rules.rows_fault (map seen listed.now) ≡ None }
    ensures { IfOk result (λ rows. rows ≡ map values.row_of (map seen listed.now)) }
{
    let mut rows = Vec::with_capacity(alloc, listed.len())?;
    for scalars in listed {
        let row = row(alloc, scalars)?;
        rows.push(row)?;
    }
    Ok(Rows::from(rows))
}

fn row(alloc: Global, scalars: &Scalars<'_>) -> Result<Row, Memory>
    requires { rules.row_fault (seen scalars.now) ≡ None }
    ensures { IfOk result (λ row. row ≡ values.row_of (seen scalars.now)) }
{
    Ok(Row {
        client: ClientId(array(scalars.bytes_at(1))),
        last: scalars.u64_at(2),
        kept: kept(alloc, scalars)?,
    })
}

fn kept(alloc: Global, scalars: &Scalars<'_>) -> Result<Option<Kept>, Memory>
    requires { rules.kept_fault (bytes_at 3 (seen scalars.now)) (seen scalars.now) ≡ None }
    ensures { IfOk result (λ kept. kept ≡ values.kept_with (bytes_at 3 (seen scalars.now)) (seen scalars.now)) }
{
    let secret = scalars.bytes_at(3);
    if secret.is_empty() {
        return Ok(None);
    }
    Ok(Some(Kept {
        secret: Bytes::from_slice(alloc, secret)?,
        pin: Hash(array(scalars.bytes_at(4))),
        left: scalars.u32_at(5),
        exposed: scalars.bool_at(6),
    }))
}

fn voters(alloc: Global, bytes: &[u8]) -> Result<Ids, Memory>
    requires few { length bytes.now ≤ 4 * MAX_VOTERS }
    requires rising { rules.rise_above 0 (values.ids_in bytes.now) ≡ true }
    ensures { IfOk result (λ ids. ids ≡ values.ids_in bytes.now) }
{
    let ids = Ids::from_slice(alloc, ids_in(bytes).as_slice())?;
    Ok(ids.unwrap())
}

/// The point of the fields 1 and 2.
fn point(scalars: &Scalars<'_>) -> Point
    requires { length (bytes_at 2 (seen scalars.now)) ≡ 32 }
    ensures { result ≡ values.point_of 1 2 (seen scalars.now) }
{
    Point {
        index: scalars.u64_at(1),
        hash: Hash(array(scalars.bytes_at(2))),
    }
}

/// The bytes as an array.
fn array<const N: usize>(bytes: &[u8]) -> [u8; N]
    requires { length bytes.now ≡ N }
    ensures { result ≡ bytes.now }
{
    let mut array = [0; N];
    array.copy_from_slice(&bytes[..N]);
    array
}
