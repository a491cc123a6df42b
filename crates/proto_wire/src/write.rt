//! Writing the fields of a message.

ghost use Rattle.std.specs.Prelude.{◌≡◌, ◌≤◌, ◌+◌, ◌*◌, ◌++◌, [], IfOk, OnOk, OnErr, take, vec_len};
ghost use Rattle.proto_wire.specs.Varint.{varint};
ghost use Rattle.proto_wire.specs.Written.{tag, varint_field, block_field, message_field};

use crate::memory::Memory;
use std::alloc::Global;
use std::marker::Model;

/// The fields of a message that were written so far. Contracts see their bytes.
///
/// The caller writes the fields in the order that they are to stand in, which is that of their numbers.
#[derive(Debug, Drop)]
pub struct FieldWriter {
    bytes: Vec<u8>,
}

impl Model for FieldWriter {
    ghost use Rattle.std.specs.Prelude.{List, ℕ};

    ghost Value = { List ℕ };

    ghost view = { λ w. w.bytes.items };
}

impl FieldWriter {
    /// No field yet.
    pub fn new(alloc: Global) -> FieldWriter
        ensures { result ≡ [] }
    {
        FieldWriter {
            bytes: Vec::new(alloc),
        }
    }

    /// No field yet, with room for so many bytes.
    pub fn with_capacity(alloc: Global, room: usize) -> Result<FieldWriter, Memory>
        ensures { IfOk result (λ writer. writer ≡ []) }
    {
        let bytes = Vec::with_capacity(alloc, room)?;
        Ok(FieldWriter { bytes })
    }

    /// Writes a number, of wire type 0, and leaves out a 0. `Memory` leaves the bytes as they were.
    pub fn varint(&mut self, number: u32, value: u64) -> Result<(), Memory>
        requires from_1 { 1 ≤ number }
        requires to_1000 { number ≤ 1000 }
        ensures written { OnOk result (self.new ≡ self.old ++ varint_field number value) }
        ensures unchanged { OnErr result (self.new ≡ self.old) }
    {
        if value == 0 {
            return Ok(());
        }
        let before = self.bytes.len();
        let outcome = put_varint(&mut self.bytes, number, value);
        undo_on_err(&mut self.bytes, before, outcome)
    }

    /// Writes bytes, of wire type 2, and leaves out empty ones. `Memory` leaves the bytes as they were.
    pub fn block(&mut self, number: u32, bytes: &[u8]) -> Result<(), Memory>
        requires from_1 { 1 ≤ number }
        requires to_1000 { number ≤ 1000 }
        ensures written { OnOk result (self.new ≡ self.old ++ block_field number bytes.now) }
        ensures unchanged { OnErr result (self.new ≡ self.old) }
    {
        if bytes.is_empty() {
            return Ok(());
        }
        self.message(number, bytes)
    }

    /// Writes an embedded message, of wire type 2, even where its bytes are empty. `Memory` leaves the
    /// bytes as they were.
    pub fn message(&mut self, number: u32, bytes: &[u8]) -> Result<(), Memory>
        requires from_1 { 1 ≤ number }
        requires to_1000 { number ≤ 1000 }
        ensures written { OnOk result (self.new ≡ self.old ++ message_field number bytes.now) }
        ensures unchanged { OnErr result (self.new ≡ self.old) }
    {
        let before = self.bytes.len();
        let outcome = put_message(&mut self.bytes, number, bytes);
        undo_on_err(&mut self.bytes, before, outcome)
    }

    /// The bytes of all fields that were written.
    pub fn finish(self) -> Vec<u8>
        ensures { result.items ≡ self }
    {
        self.bytes
    }
}

// Takes back what a call wrote that did not come to its end.
fn undo_on_err(out: &mut Vec<u8>, before: usize, outcome: Result<(), Memory>) -> Result<(), Memory>
    ensures same { result ≡ outcome }
    ensures ok { OnOk result (out.new.items ≡ out.old.items) }
    ensures err { OnErr result (out.new.items ≡ take before out.old.items) }
{
    if outcome.is_err() {
        out.truncate(before);
    }
    outcome
}

fn put_varint(out: &mut Vec<u8>, number: u32, value: u64) -> Result<(), Memory>
    requires { number ≤ 1000 }
    ensures ok { OnOk result (out.new.items ≡ out.old.items ++ (tag number 0 ++ varint value)) }
    ensures err { OnErr result (take (vec_len out.old) out.new.items ≡ out.old.items) }
{
    push_varint(out, 8 * u64::from(number))?;
    push_varint(out, value)
}

fn put_message(out: &mut Vec<u8>, number: u32, bytes: &[u8]) -> Result<(), Memory>
    requires { number ≤ 1000 }
    ensures ok { OnOk result (out.new.items ≡ out.old.items ++ message_field number bytes.now) }
    ensures err { OnErr result (take (vec_len out.old) out.new.items ≡ out.old.items) }
{
    push_varint(out, 8 * u64::from(number) + 2)?;
    push_varint(out, bytes.len() as u64)?;
    out.extend_from_slice(bytes)?;
    Ok(())
}

// The shortest varint. After an `Err` a part of it may stand behind what stood there before.
fn push_varint(out: &mut Vec<u8>, value: u64) -> Result<(), Memory>
    ensures ok { OnOk result (out.new.items ≡ out.old.items ++ varint value) }
    ensures err { OnErr result (take (vec_len out.old) out.new.items ≡ out.old.items) }
{
    let mut rest = value;
    while rest >= 128 {
        out.push(128 + (rest % 128) as u8)?;
        rest /= 128;
    }
    out.push(rest as u8)?;
    Ok(())
}
