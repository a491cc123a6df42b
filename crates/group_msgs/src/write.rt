//! Writing peer messages.

ghost use Rattle.std.specs.Prelude.{◌≡◌, ◌≤◌, ◌<◌, ◌^◌, ◌++◌, length, All, Ok, IfOk, OnOk};
ghost use Rattle.proto_wire.specs.Written.{block_field, varint_field};
ghost use Rattle.values.specs.Terms.{term_of};
ghost use Rattle.group_msgs.specs.Canonical as canonical;
ghost use Rattle.group_msgs.specs.Peer.{peer_of};
ghost use Rattle.group_msgs.specs.Ranges.{IsInRange, IsEntryInRange, IsHash, FitsBody, FitsRow, FitsPart, FitsPeer};

use crate::laws::messages_are_read_again;
use crate::numbers::{kinds, members};
use byteorder::{BigEndian, ByteOrder};
use group_quorum::MAX_VOTERS;
use proto_wire::FieldWriter;
use std::alloc::Global;
use values::{Body, Bytes, Kept, LogEntry, Memory, PeerMsg, Point, ROWS_PER_PART, Row, TablePart};

/// Room for the fields of a member beside its entries or rows.
const MEMBER_ROOM: usize = 96;
/// Room for a listed entry or row of most sizes.
const LISTED_ROOM: usize = 128;
/// Room for an entry or a row.
const ITEM_ROOM: usize = 192;

/// The canonical bytes of a message: rising field numbers, shortest varints, defaults left out. They are read again as
/// that message.
pub fn write_peer(alloc: Global, msg: &PeerMsg) -> Result<Bytes, Memory>
    requires { IsInRange msg.now }
    ensures canonical { IfOk result (λ bytes. bytes ≡ canonical.canonical_peer msg.now) }
    ensures again { IfOk result (λ bytes. peer_of bytes ≡ Ok msg.now) }
{
    messages_are_read_again();
    match peer_bytes(alloc, msg) {
        Ok(bytes) => Ok(Bytes::from(bytes)),
        Err(proto_wire::Memory) => Err(Memory),
    }
}

// What is written also says what the types of its parts say, since each part is read where it stands.
fn peer_bytes(alloc: Global, msg: &PeerMsg) -> Result<Vec<u8>, proto_wire::Memory>
    requires { IsInRange msg.now }
    ensures bytes { IfOk result (λ bytes. bytes.items ≡ canonical.canonical_peer msg.now) }
    ensures fits { OnOk result (FitsPeer msg.now) }
{
    let mut fields = FieldWriter::with_capacity(alloc, member_room(msg))?;
    put_member(alloc, &mut fields, msg)?;
    let member = fields.finish();
    let mut message = FieldWriter::with_capacity(alloc, member.len() + 32)?;
    message.varint(1, term_of(msg))?;
    message.message(member_number(msg) as u32, &member)?;
    Ok(message.finish())
}

/// Room for the fields of a member, so that one allocation mostly serves, and a short message takes a small block.
fn member_room(msg: &PeerMsg) -> usize {
    let listed = match msg {
        PeerMsg::Append { entries, .. } => entries.len(),
        PeerMsg::Part { part, .. } => part.rows.len(),
        _ => 0,
    };
    MEMBER_ROOM + LISTED_ROOM * listed.min(ROWS_PER_PART as usize)
}

fn term_of(msg: &PeerMsg) -> u64
    ensures { result ≡ term_of msg.now }
{
    match msg {
        PeerMsg::AskVote { term, .. }
        | PeerMsg::Vote { term, .. }
        | PeerMsg::Append { term, .. }
        | PeerMsg::Accepted { term, .. }
        | PeerMsg::Rejected { term, .. }
        | PeerMsg::Part { term, .. }
        | PeerMsg::PartTaken { term, .. } => *term,
    }
}

fn member_number(msg: &PeerMsg) -> u64
    ensures number { result ≡ canonical.member_number msg.now }
    ensures most { result ≤ 8 }
{
    match msg {
        PeerMsg::AskVote { .. } => members::ASK_VOTE,
        PeerMsg::Vote { .. } => members::VOTE,
        PeerMsg::Append { .. } => members::APPEND,
        PeerMsg::Accepted { .. } => members::ACCEPTED,
        PeerMsg::Rejected { .. } => members::REJECTED,
        PeerMsg::Part { .. } => members::PART,
        PeerMsg::PartTaken { .. } => members::PART_TAKEN,
    }
}

/// Writes the fields of the message's member.
fn put_member(
    alloc: Global,
    fields: &mut FieldWriter,
    msg: &PeerMsg,
) -> Result<(), proto_wire::Memory>
    requires { IsInRange msg.now }
    ensures fields { OnOk result (fields.new ≡ fields.old ++ canonical.member_fields msg.now) }
    ensures fits { OnOk result (FitsPeer msg.now) }
{
    match msg {
        PeerMsg::AskVote {
            last_index,
            last_term,
            ..
        } => put_indices(fields, *last_index, *last_term),
        PeerMsg::Vote { granted, .. } => fields.varint(1, u64::from(*granted)),
        PeerMsg::Append {
            prev,
            entries,
            promise,
            commit,
            ..
        } => put_append(alloc, fields, prev, entries.as_slice(), *promise, *commit),
        PeerMsg::Accepted { end, promised, .. } => put_marked(fields, end, *promised),
        PeerMsg::Rejected { asked, hint, .. } => put_indices(fields, *asked, *hint),
        PeerMsg::Part { part, .. } => put_part(alloc, fields, part),
        PeerMsg::PartTaken { point, next, .. } => put_marked(fields, point, u64::from(*next)),
    }
}

/// Writes two indices, or an index and a term, as the fields 1 and 2.
fn put_indices(fields: &mut FieldWriter, first: u64, second: u64) -> Result<(), proto_wire::Memory>
    ensures { OnOk result (fields.new ≡ fields.old ++ (varint_field 1 first ++ varint_field 2 second)) }
{
    fields.varint(1, first)?;
    fields.varint(2, second)
}

/// Writes a point, and a number behind it as field 3.
fn put_marked(fields: &mut FieldWriter, point: &Point, mark: u64) -> Result<(), proto_wire::Memory>
    ensures fields { OnOk result (fields.new ≡ fields.old ++ (canonical.point_fields point.now ++ varint_field 3 mark)) }
    ensures fits { OnOk result (IsHash point.now.hash) }
{
    put_point(fields, point)?;
    fields.varint(3, mark)
}

fn put_append(
    alloc: Global,
    fields: &mut FieldWriter,
    prev: &Point,
    entries: &[LogEntry],
    promise: u64,
    commit: u64,
) -> Result<(), proto_wire::Memory>
    requires { All IsEntryInRange entries.now }
    ensures fields { OnOk result (fields.new ≡ fields.old
        ++ (canonical.point_fields prev.now ++ canonical.entries_field entries.now ++ varint_field 4 promise ++ varint_field 5 commit)) }
    ensures point { OnOk result (IsHash prev.now.hash) }
    ensures entries { OnOk result (All (λ e. FitsBody e.body) entries.now) }
{
    put_point(fields, prev)?;
    put_entries(alloc, fields, entries)?;
    fields.varint(4, promise)?;
    fields.varint(5, commit)
}

fn put_part(
    alloc: Global,
    fields: &mut FieldWriter,
    part: &TablePart,
) -> Result<(), proto_wire::Memory>
    requires { length part.now.voters ≤ MAX_VOTERS }
    ensures fields { OnOk result (fields.new ≡ fields.old ++ canonical.part_fields part.now) }
    ensures fits { OnOk result (FitsPart part.now) }
{
    put_point(fields, &part.point)?;
    put_config(fields, part)?;
    put_counts(fields, part)?;
    put_rows(alloc, fields, part.rows.as_slice())
}

fn put_config(fields: &mut FieldWriter, part: &TablePart) -> Result<(), proto_wire::Memory>
    requires { length part.now.voters ≤ MAX_VOTERS }
    ensures { OnOk result (fields.new ≡ fields.old ++ canonical.config_fields part.now) }
{
    fields.varint(3, part.last_term)?;
    fields.varint(4, part.conf_index)?;
    fields.varint(5, u64::from(part.margin))?;
    put_voters(fields, part.voters.as_slice())
}

fn put_counts(fields: &mut FieldWriter, part: &TablePart) -> Result<(), proto_wire::Memory>
    ensures { OnOk result (fields.new ≡ fields.old ++ canonical.count_fields part.now) }
{
    fields.varint(7, u64::from(part.limit))?;
    fields.varint(8, u64::from(part.part))?;
    fields.varint(9, u64::from(part.parts))
}

fn put_entries(
    alloc: Global,
    fields: &mut FieldWriter,
    entries: &[LogEntry],
) -> Result<(), proto_wire::Memory>
    requires { All IsEntryInRange entries.now }
    ensures fields { OnOk result (fields.new ≡ fields.old ++ canonical.entries_field entries.now) }
    ensures fits { OnOk result (All (λ e. FitsBody e.body) entries.now) }
{
    for entry in entries {
        let mut item = FieldWriter::with_capacity(alloc, ITEM_ROOM)?;
        put_entry(&mut item, entry)?;
        fields.message(3, &item.finish())?;
    }
    Ok(())
}

fn put_entry(fields: &mut FieldWriter, entry: &LogEntry) -> Result<(), proto_wire::Memory>
    requires { IsEntryInRange entry.now }
    ensures fields { OnOk result (fields.new ≡ fields.old ++ canonical.entry_fields entry.now) }
    ensures fits { OnOk result (FitsBody entry.now.body) }
{
    fields.varint(1, entry.term)?;
    match &entry.body {
        Body::Noop => Ok(()),
        Body::Ask {
            client,
            number,
            request,
        } => {
            fields.varint(2, u64::from(kinds::ASK))?;
            fields.block(3, &client.0)?;
            fields.varint(4, *number)?;
            fields.block(5, request.as_slice())
        }
        Body::Members { margin, voters } => {
            fields.varint(2, u64::from(kinds::MEMBERS))?;
            put_voters(fields, voters.as_slice())?;
            fields.varint(7, u64::from(*margin))
        }
    }
}

fn put_rows(alloc: Global, fields: &mut FieldWriter, rows: &[Row]) -> Result<(), proto_wire::Memory>
    ensures fields { OnOk result (fields.new ≡ fields.old ++ canonical.rows_field rows.now) }
    ensures fits { OnOk result (All FitsRow rows.now) }
{
    for row in rows {
        let mut item = FieldWriter::with_capacity(alloc, ITEM_ROOM)?;
        put_row(&mut item, row)?;
        fields.message(10, &item.finish())?;
    }
    Ok(())
}

fn put_row(fields: &mut FieldWriter, row: &Row) -> Result<(), proto_wire::Memory>
    ensures fields { OnOk result (fields.new ≡ fields.old ++ canonical.row_fields row.now) }
    ensures fits { OnOk result (FitsRow row.now) }
{
    fields.block(1, &row.client.0)?;
    fields.varint(2, row.last)?;
    match &row.kept {
        Some(kept) => put_kept(fields, kept),
        None => Ok(()),
    }
}

fn put_kept(fields: &mut FieldWriter, kept: &Kept) -> Result<(), proto_wire::Memory>
    ensures fields { OnOk result (fields.new ≡ fields.old ++ canonical.kept_fields (Some kept.now)) }
    ensures fits { OnOk result (IsHash kept.now.pin) }
{
    fields.block(3, kept.secret.as_slice())?;
    fields.block(4, &kept.pin.0)?;
    fields.varint(5, u64::from(kept.left))?;
    fields.varint(6, u64::from(kept.exposed))
}

/// Writes a point as the fields 1 and 2.
fn put_point(fields: &mut FieldWriter, point: &Point) -> Result<(), proto_wire::Memory>
    ensures fields { OnOk result (fields.new ≡ fields.old ++ canonical.point_fields point.now) }
    ensures fits { OnOk result (IsHash point.now.hash) }
{
    fields.varint(1, point.index)?;
    fields.block(2, &point.hash.0)
}

/// Writes voters as field 6: four bytes each, the highest first.
fn put_voters(fields: &mut FieldWriter, voters: &[u32]) -> Result<(), proto_wire::Memory>
    requires { length voters.now ≤ MAX_VOTERS }
    ensures { OnOk result (fields.new ≡ fields.old ++ block_field 6 (canonical.id_bytes voters.now)) }
{
    let mut bytes = [0; 4 * MAX_VOTERS];
    let used = &mut bytes[..4 * voters.len()];
    BigEndian::write_u32_into(voters, used);
    fields.block(6, &bytes[..4 * voters.len()])
}
