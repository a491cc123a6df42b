//! The member that stands last in a message, with what it lists.
//!
//! The whole message is walked through once, and each embedded message is read where it stands.

ghost use Rattle.std.specs.Prelude.{◌≡◌, ℕ, ◌≤◌, ◌<◌, ◌+◌, ◌^◌, ◌++◌, ◌∷◌, [], List, length, drop, slice_range, IfOk, IfErr, OnOk, Option, Some, None, unwrap_or};
ghost use Rattle.proto_wire.specs.Fields.{Field, field_of, sequence_at};
ghost use Rattle.proto_wire.specs.Walk.{IsWithin, IsSlice};
ghost use Rattle.proto_wire.specs.Reading.{u64_of, varint_under, first_fault_in, run_so_far};
ghost use Rattle.proto_wire.specs.Reading as wire;
ghost use Rattle.group_msgs.specs.Reading.{listed_fault, member_fault, wire_fault, member_of};
ghost use Rattle.group_msgs.specs.Reading as reading;
ghost use Rattle.group_msgs.specs.Gathered.{IsRun, IsLast};

use crate::listed::Listed;
use crate::numbers::members;
use crate::scalars::Scalars;
use proto_wire::{Payload, WireFault, WireField, next_field};
use std::alloc::Global;

/// A member of the oneof; number 0 where none stands yet.
#[derive(Drop)]
pub(crate) struct Member<'a> {
    pub number: u64,
    pub scalars: Scalars<'a>,
    pub listed: Listed<'a>,
}

/// A message: its term, and the member that stands last.
#[derive(Drop)]
pub(crate) struct Gathered<'a> {
    pub term: u64,
    pub member: Member<'a>,
}

impl<'a> Member<'a> {
    /// Begins a member of this number: empty behind another one, and else read on.
    fn begin(&mut self, number: u64)
        requires low { 2 ≤ number }
        requires high { number ≤ 8 }
        ensures number { self.new.number ≡ number }
        ensures run { (last : Option (ℕ × List Field)) → IsLast self.old last → IsRun self.new number (run_so_far last number) }
        ensures count { self.new.listed.count ≤ self.old.listed.count }
    {
        if self.number != number {
            self.number = number;
            self.scalars = Scalars::empty();
            self.listed.clear();
        }
    }

    /// Takes one more field of the bytes in. A listed message is read where it stands.
    fn take(&mut self, bytes: &'a [u8], field: WireField<'a>) -> Result<(), WireFault>
        requires count { self.old.listed.count < 2 ^ 63 }
        requires within { IsWithin field bytes.now }
        requires slice { IsSlice field.payload (slice_range bytes.now field.content_at field.next) }
        ensures run { OnOk result ((fs : List Field) → IsRun self.old self.old.number fs → IsRun self.new self.old.number (fs ++ field_of field.entry ∷ [])) }
        ensures number { self.new.number ≡ self.old.number }
        ensures count { self.new.listed.count ≤ self.old.listed.count + 1 }
        ensures whole { OnOk result (listed_fault self.old.number (field_of field.entry) ≡ None) }
        ensures fault { IfErr result (λ e. listed_fault self.old.number (field_of field.entry) ≡ Some e) }
    {
        self.scalars.take(field);
        if !is_listed(self.number, &field) {
            return Ok(());
        }
        self.listed
            .read(self.number, &bytes[..field.next], field.content_at)
    }

    /// Reads the fields from an offset to the end of the bytes on into the member.
    fn read_on(&mut self, bytes: &'a [u8], from: usize) -> Result<(), WireFault>
        requires from { from ≤ length bytes.now }
        requires count { self.old.listed.count ≤ from }
        ensures run { OnOk result ((fs : List Field) → IsRun self.old self.old.number fs → IsRun self.new self.old.number (fs ++ (sequence_at from (drop from bytes.now)).fields)) }
        ensures count { self.new.listed.count ≤ length bytes.now }
        ensures whole { OnOk result (first_fault_in (listed_fault self.old.number) (sequence_at from (drop from bytes.now)) ≡ None) }
        ensures fault { IfErr result (λ e. first_fault_in (listed_fault self.old.number) (sequence_at from (drop from bytes.now)) ≡ Some e) }
    {
        let mut at = from;
        while let Some(field) = next_field(bytes, at)? {
            self.take(bytes, field)?;
            at = field.next;
        }
        Ok(())
    }
}

impl<'a> Gathered<'a> {
    /// Takes one more field of the bytes in. A member is read where it stands.
    fn take(&mut self, bytes: &'a [u8], field: WireField<'a>) -> Result<(), WireFault>
        requires count { self.old.member.listed.count ≤ field.at }
        requires within { IsWithin field bytes.now }
        requires slice { IsSlice field.payload (slice_range bytes.now field.content_at field.next) }
        ensures term { OnOk result ((fs : List Field) → self.old.term ≡ u64_of 1 fs → self.new.term ≡ u64_of 1 (fs ++ field_of field.entry ∷ [])) }
        ensures last { OnOk result ((fs : List Field) → IsLast self.old.member (member_of fs) → IsLast self.new.member (member_of (fs ++ field_of field.entry ∷ []))) }
        ensures count { self.new.member.listed.count ≤ field.entry.next }
        ensures whole { OnOk result (member_fault (field_of field.entry) ≡ None) }
        ensures fault { IfErr result (λ e. member_fault (field_of field.entry) ≡ Some e) }
    {
        self.term = term_behind(self.term, &field);
        if !is_member(&field) {
            return Ok(());
        }
        self.member.begin(field.number);
        self.member.read_on(&bytes[..field.next], field.content_at)
    }
}

/// The term behind one more field.
fn term_behind(term: u64, field: &WireField<'_>) -> u64
    ensures { result ≡ unwrap_or (varint_under 1 (field_of field.now)) term }
{
    match field.payload {
        Payload::Varint(value) if field.number == 1 => value,
        _ => term,
    }
}

/// Whether a field is a member of the oneof.
fn is_member(field: &WireField<'_>) -> bool
    ensures { result ≡ wire.is_member 2 8 (field_of field.now) }
{
    members::ASK_VOTE <= field.number
        && field.number <= members::PART_TAKEN
        && matches!(field.payload, Payload::Block(_))
}

/// Whether a field of this member is one of the messages that it lists.
fn is_listed(member: u64, field: &WireField<'_>) -> bool
    ensures { result ≡ reading.is_listed member (field_of field.now) }
{
    let list = match member {
        members::APPEND => 3,
        members::PART => 10,
        _ => return false,
    };
    field.number == list && matches!(field.payload, Payload::Block(_))
}

/// The term of a message and the member that stands last in it, or the first fault in the order of the bytes.
pub(crate) fn gather(alloc: Global, bytes: &[u8]) -> Result<Gathered<'_>, WireFault>
    ensures count { IfOk result (λ gathered. gathered.member.listed.count < 2 ^ 63) }
    ensures term { IfOk result (λ gathered. gathered.term ≡ u64_of 1 (sequence_at 0 bytes.now).fields) }
    ensures last { IfOk result (λ gathered. IsLast gathered.member (member_of (sequence_at 0 bytes.now).fields)) }
    ensures whole { IfOk result (λ _. wire_fault (sequence_at 0 bytes.now) ≡ None) }
    ensures fault { IfErr result (λ e. wire_fault (sequence_at 0 bytes.now) ≡ Some e) }
{
    let mut gathered = Gathered {
        term: 0,
        member: Member {
            number: 0,
            scalars: Scalars::empty(),
            listed: Listed::new(alloc),
        },
    };
    let mut at = 0;
    while let Some(field) = next_field(bytes, at)? {
        gathered.take(bytes, field)?;
        at = field.next;
    }
    Ok(gathered)
}
