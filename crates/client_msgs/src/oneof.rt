//! The member of a oneof that stands last in a message.
//!
//! Each member is an embedded message of scalars. A member that follows another one begins empty, and the
//! same member twice in a row is read on into one value.

ghost use Rattle.std.specs.Prelude.{◌≡◌, ◌≢◌, ℕ, ◌≤◌, ◌<◌, ◌+◌, ◌++◌, ◌==◌, if◌then◌else◌, ◌∷◌, [], List, length, drop, take, slice_range, IfOk, IfErr, Option, Some, None};
ghost use Rattle.proto_wire.specs.Fields.{Field, field_of, sequence_at};
ghost use Rattle.proto_wire.specs.Walk.{IsWithin, IsSlice};
ghost use Rattle.proto_wire.specs.Reading.{first_fault, member_fault};
ghost use Rattle.proto_wire.specs.Reading as reading;
ghost use Rattle.client_msgs.specs.Gathered.{Holds, IsLast};

use proto_wire::{Payload, WireFault, WireField, next_field};

/// A member, by the last of each field that some member has.
#[derive(Clone, Copy)]
pub(crate) struct Member<'a> {
    pub number: u64,
    pub block_1: &'a [u8],
    pub block_2: &'a [u8],
    pub varint_1: u64,
    pub varint_3: u64,
}

impl<'a> Member<'a> {
    fn empty(number: u64) -> Member<'a>
        ensures number { result.number ≡ number }
        ensures holds { Holds result [] }
    {
        Member {
            number,
            block_1: &[],
            block_2: &[],
            varint_1: 0,
            varint_3: 0,
        }
    }

    /// The member with one more field, which counts for nothing if no member has it.
    fn with(self, field: WireField<'a>) -> Member<'a>
        ensures number { result.number ≡ self.entry.number }
        ensures holds { (fs : List Field) → Holds self.entry fs → Holds result (fs ++ field_of field.entry ∷ []) }
    {
        match field.payload {
            Payload::Block(block) => self.with_block(field.number, block),
            Payload::Varint(value) => self.with_varint(field.number, value),
            Payload::Eight(_) | Payload::Four(_) => self,
        }
    }

    fn with_block(self, number: u64, block: &'a [u8]) -> Member<'a>
        ensures number { result.number ≡ self.entry.number }
        ensures block_1 { result.block_1.now ≡ (if number == 1 then block.now else self.entry.block_1.now) }
        ensures block_2 { result.block_2.now ≡ (if number == 2 then block.now else self.entry.block_2.now) }
        ensures varint_1 { result.varint_1 ≡ self.entry.varint_1 }
        ensures varint_3 { result.varint_3 ≡ self.entry.varint_3 }
    {
        match number {
            1 => Member {
                block_1: block,
                ..self
            },
            2 => Member {
                block_2: block,
                ..self
            },
            _ => self,
        }
    }

    fn with_varint(self, number: u64, value: u64) -> Member<'a>
        ensures number { result.number ≡ self.entry.number }
        ensures block_1 { result.block_1.now ≡ self.entry.block_1.now }
        ensures block_2 { result.block_2.now ≡ self.entry.block_2.now }
        ensures varint_1 { result.varint_1 ≡ (if number == 1 then value else self.entry.varint_1) }
        ensures varint_3 { result.varint_3 ≡ (if number == 3 then value else self.entry.varint_3) }
    {
        match number {
            1 => Member {
                varint_1: value,
                ..self
            },
            3 => Member {
                varint_3: value,
                ..self
            },
            _ => self,
        }
    }
}

/// Reads the fields from an offset to the end of the bytes on into a member.
fn read_on<'a>(start: Member<'a>, bytes: &'a [u8], from: usize) -> Result<Member<'a>, WireFault>
    requires { from ≤ length bytes.now }
    ensures whole { IfOk result (λ member. (member.number ≡ start.entry.number) × ((sequence_at from (drop from bytes.now)).fault ≡ None)) }
    ensures holds { IfOk result (λ member. (fs : List Field) → Holds start.entry fs → Holds member (fs ++ (sequence_at from (drop from bytes.now)).fields)) }
    ensures fault { IfErr result (λ e. (sequence_at from (drop from bytes.now)).fault ≡ Some e) }
{
    let mut member = start;
    let mut at = from;
    while let Some(field) = next_field(bytes, at)? {
        member = member.with(field);
        at = field.next;
    }
    Ok(member)
}

/// Whether a field is one of the members, which have the numbers from `low` to `high`.
fn is_member(field: &WireField<'_>, low: u64, high: u64) -> bool
    ensures { result ≡ reading.is_member low high (field_of field.now) }
{
    low <= field.number && field.number <= high && matches!(field.payload, Payload::Block(_))
}

/// What the member of a number begins with behind what stood last.
fn run_so_far<'a>(last: Option<Member<'a>>, number: u64) -> Member<'a>
    ensures number { result.number ≡ number }
    ensures holds { (before : Option (ℕ × List Field)) → IsLast last.entry before → Holds result (reading.run_so_far before number) }
{
    match last {
        Some(member) if member.number == number => member,
        _ => Member::empty(number),
    }
}

/// What stands last behind one more field of the bytes. A member is read where it stands.
fn after_field<'a>(
    last: Option<Member<'a>>,
    bytes: &'a [u8],
    field: WireField<'a>,
    low: u64,
    high: u64,
) -> Result<Option<Member<'a>>, WireFault>
    requires within { IsWithin field bytes.now }
    requires slice { IsSlice field.payload (slice_range bytes.now field.content_at field.next) }
    ensures last { IfOk result (λ now. (fs : List Field) → IsLast last.entry (reading.last_member low high fs) → IsLast now (reading.last_member low high (fs ++ field_of field.entry ∷ []))) }
    ensures whole { IfOk result (λ _. member_fault low high (field_of field.entry) ≡ None) }
    ensures fault { IfErr result (λ e. member_fault low high (field_of field.entry) ≡ Some e) }
{
    if !is_member(&field, low, high) {
        return Ok(last);
    }
    let start = run_so_far(last, field.number);
    let member = read_on(start, &bytes[..field.next], field.content_at)?;
    Ok(Some(member))
}

/// The member that stands last in a message whose members have the numbers from `low` to `high`.
pub(crate) fn last_member(
    bytes: &[u8],
    low: u64,
    high: u64,
) -> Result<Option<Member<'_>>, WireFault>
    ensures last { IfOk result (λ last. IsLast last (reading.last_member low high (sequence_at 0 bytes.now).fields)) }
    ensures whole { IfOk result (λ _. first_fault low high (sequence_at 0 bytes.now) ≡ None) }
    ensures fault { IfErr result (λ e. first_fault low high (sequence_at 0 bytes.now) ≡ Some e) }
{
    let mut last = None;
    let mut at = 0;
    while let Some(field) = next_field(bytes, at)? {
        last = after_field(last, bytes, field, low, high)?;
        at = field.next;
    }
    Ok(last)
}
