//! Reading the fields of a message, one at a time.

ghost use Rattle.std.specs.Prelude.{◌≡◌, ◌≢◌, ℕ, ◌==◌, ◌||◌, if◌then◌else◌, Err, ◌<◌, ◌≤◌, ◌↔◌, ◌+◌, ◌*◌, ◌/◌, ◌%◌, ◌^◌, length, drop, slice_range, Ok, None, IfOk, IfSome};
ghost use Rattle.proto_wire.specs.Varint.{varint_at};
ghost use Rattle.proto_wire.specs.Fields.{payload_field, front, field_of};
ghost use Rattle.proto_wire.specs.Fields as fields;
ghost use Rattle.proto_wire.specs.declared.field.WireFault.TheVariants as faults;
ghost use Rattle.proto_wire.specs.Walk.{Reads, ReadsField, LeadsOn, IsWithin, IsSlice};

use crate::field::{Payload, WireFault, WireField};

/// The field whose tag stands at an offset, or `None` at the end of the bytes.
///
/// A fault carries the offset of the tag's first byte. It is the first one that holds: of the tag's varint
/// `Cut` or `LongVarint`, then `FieldZero`, then `GroupWire` or `BadWire`, then of the payload `Cut` or
/// `LongVarint`. A varint may be spelled longer than needed, within ten bytes.
// Inlined whole, so that a loop over fields needs no field in memory.
#[inline(always)]
pub fn next_field(bytes: &[u8], at: usize) -> Result<Option<WireField<'_>>, WireFault>
    requires { at ≤ length bytes.now }
    ensures end { (result ≡ Ok None) ↔ (at ≡ length bytes.now) }
    ensures exact { ReadsField result at bytes.now }
    // It is the first field of the sequence, whose others stand from `next` on.
    ensures walks { LeadsOn result at bytes.now }
    ensures within { IfOk result (λ o. IfSome o (λ f. (f.at ≡ at) × IsWithin f bytes.now)) }
    ensures slice { IfOk result (λ o. IfSome o (λ f. IsSlice f.payload (slice_range bytes.now f.content_at f.next))) }
{
    if at == bytes.len() {
        return Ok(None);
    }
    let field = field_at(bytes, at)?;
    Ok(Some(field))
}

/// The field whose tag stands at an offset.
#[inline(always)]
#[tactic(auto, unfolding(crate::specs::Fields::field_at))]
fn field_at(bytes: &[u8], at: usize) -> Result<WireField<'_>, WireFault>
    requires { at ≤ length bytes.now }
    ensures exact { Reads field_of result (fields.field_at at (drop at bytes.now)) }
    ensures within { IfOk result (λ f. (f.at ≡ at) × IsWithin f bytes.now) }
    ensures slice { IfOk result (λ f. IsSlice f.payload (slice_range bytes.now f.content_at f.next)) }
{
    let (tag, size) = varint(&bytes[at..], at)?;
    if tag / 8 == 0 {
        return Err(WireFault::FieldZero(at));
    }
    payload(bytes, at, at + size, tag)
}

/// The field of a tag that stands at an offset, with its payload from `start` on.
#[inline(always)]
#[tactic(auto, unfolding(crate::specs::Fields::payload_field))]
fn payload(bytes: &[u8], at: usize, start: usize, tag: u64) -> Result<WireField<'_>, WireFault>
    requires behind_tag { at < start }
    requires within { start ≤ length bytes.now }
    ensures exact { Reads field_of result (payload_field (tag / 8) (tag % 8) at start (drop start bytes.now)) }
    ensures within { IfOk result (λ f. (f.at ≡ at) × IsWithin f bytes.now) }
    ensures slice { IfOk result (λ f. IsSlice f.payload (slice_range bytes.now f.content_at f.next)) }
{
    let number = tag / 8;
    let rest = &bytes[start..];
    match tag % 8 {
        0 => {
            let (value, size) = varint(rest, at)?;
            Ok(placed(number, at, start, size, Payload::Varint(value)))
        }
        2 => {
            let (len, size) = varint(rest, at)?;
            let block = front(&rest[size..], at, len)?;
            Ok(placed(number, at, start + size, block.len(), Payload::Block(block)))
        }
        wire => {
            let size = fixed_size(wire, at)?;
            let content = front(rest, at, size)?;
            let payload = if size == 8 {
                Payload::Eight(content)
            } else {
                Payload::Four(content)
            };
            Ok(placed(number, at, start, content.len(), payload))
        }
    }
}

/// The size of a payload whose wire type says it. No known field has one.
#[inline(never)]
fn fixed_size(wire: u64, at: usize) -> Result<u64, WireFault>
    requires no_varint { wire ≢ 0 }
    requires no_block { wire ≢ 2 }
    ensures eight { wire ≡ 1 → result ≡ Ok 8 }
    ensures four { wire ≡ 5 → result ≡ Ok 4 }
    ensures fault { wire ≢ 1 → wire ≢ 5 → result ≡ Err (if wire == 3 || wire == 4 then faults.GroupWire at else faults.BadWire at) }
{
    match wire {
        1 => Ok(8),
        5 => Ok(4),
        3 | 4 => Err(WireFault::GroupWire(at)),
        _ => Err(WireFault::BadWire(at)),
    }
}

/// A field whose content takes so many bytes from an offset on.
fn placed(
    number: u64,
    at: usize,
    content_at: usize,
    size: usize,
    payload: Payload<'_>,
) -> WireField<'_>
    requires { content_at + size < 2 ^ 64 }
    ensures { result ≡ record { number = number; payload = payload.entry; at = at; content_at = content_at; next = content_at + size } }
{
    WireField {
        number,
        payload,
        at,
        content_at,
        next: content_at + size,
    }
}

/// The first bytes of a payload, or `Cut` where there are fewer.
fn front(bytes: &[u8], at: usize, len: u64) -> Result<&[u8], WireFault>
    ensures exact { Reads (λ x. x.now) result (front at len bytes.now) }
    ensures len { IfOk result (λ x. (length x.now ≡ len) × (len ≤ length bytes.now)) }
{
    if (bytes.len() as u64) < len {
        return Err(WireFault::Cut(at));
    }
    Ok(&bytes[..len as usize])
}

/// The number at the front of the bytes, and the size of its varint. That of nearly all tags, lengths and small
/// numbers is one byte.
#[inline]
fn varint(bytes: &[u8], at: usize) -> Result<(u64, usize), WireFault>
    ensures exact { result ≡ varint_at at bytes.now }
    ensures size { IfOk result (λ v. (0 < v.1) × (v.1 ≤ length bytes.now)) }
{
    match bytes.first() {
        Some(&byte) if byte < 128 => Ok((u64::from(byte), 1)),
        _ => long_varint(bytes, at),
    }
}

/// The same of a varint of any size, group by group.
#[inline(never)]
fn long_varint(bytes: &[u8], at: usize) -> Result<(u64, usize), WireFault>
    ensures exact { result ≡ varint_at at bytes.now }
    ensures size { IfOk result (λ v. (0 < v.1) × (v.1 ≤ length bytes.now)) }
{
    let mut value: u64 = 0;
    for (i, &byte) in bytes.iter().enumerate() {
        if i == 9 {
            // Nine bytes hold 63 bits, so the tenth is the last, and has one.
            if byte > 1 {
                return Err(WireFault::LongVarint(at));
            }
            return Ok((value + (u64::from(byte) << 63), 10));
        }
        value += u64::from(byte % 128) << (7 * i);
        if byte < 128 {
            return Ok((value, i + 1));
        }
    }
    Err(WireFault::Cut(at))
}
