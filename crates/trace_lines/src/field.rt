//! The fields of a line as numbers and bytes.
ghost use Rattle.std.specs.Prelude.{◌≡◌, ◌≤◌, ◌<◌, ◌^◌, IfSome};
ghost use Rattle.record_cutting.specs.Lines.{record_of};
ghost use Rattle.trace_lines.specs.Fields as spec;
ghost use Rattle.trace_lines.specs.Meant.{GivesValue};

use crate::line::LineError;
use group_quorum::MAX_ID;
use schedule_text::{Unread, client_of, hex_of, is_hexadecimal, number_of};
use std::alloc::Global;
use values::{Bytes, ClientId, ReplicaId, TOP};

/// A number in a range, without a leading zero.
pub fn number(text: &[u8], low: u64, high: u64) -> Option<u64>
    ensures value { result ≡ spec.number_in low high text.now }
    ensures most { IfSome result (λ n. n ≤ high) }
{
    number_of(text, 0, low, high).ok()
}

/// A number of 32 bits at most.
pub fn small(text: &[u8], high: u32) -> Option<u32>
    ensures value { result ≡ spec.number_in 0 high text.now }
    ensures most { IfSome result (λ n. n ≤ high) }
{
    let number = number(text, 0, u64::from(high))?;
    Some(number as u32)
}

/// The id of a replica.
pub fn replica(text: &[u8]) -> Option<ReplicaId>
    ensures { result ≡ spec.replica_in text.now }
{
    let id = number(text, 1, u64::from(MAX_ID))?;
    Some(id as u32)
}

/// An index or a term.
pub fn index(text: &[u8]) -> Option<u64>
    ensures { result ≡ spec.index_in text.now }
{
    number(text, 0, TOP)
}

/// A number of 64 bits.
pub fn wide(text: &[u8]) -> Option<u64>
    ensures { result ≡ spec.wide_in text.now }
{
    number(text, 0, u64::MAX)
}

/// Whether no letter is a capital. It does not stop at one, so that many bytes are tested at once.
pub fn is_lower(text: &[u8]) -> bool
    ensures { result ≡ spec.is_lower text.now }
{
    let mut capital = false;
    for byte in text {
        capital |= byte.is_ascii_uppercase();
    }
    !capital
}

/// Whether all fields are so.
pub fn are_lower(fields: &[&[u8]]) -> bool
    ensures { result ≡ spec.are_lower (record_of fields.now) }
{
    fields.iter().all(|text| is_lower(text))
}

/// Whether a text is lower-case hexadecimal.
pub fn is_hex(text: &[u8]) -> bool
    ensures { result ≡ spec.is_hex text.now }
{
    is_lower(text) && is_hexadecimal(text)
}

/// Whether it is that of `size` bytes.
pub fn is_sized(text: &[u8], size: usize) -> bool
    requires { size < 2 ^ 32 }
    ensures { result ≡ spec.is_sized size text.now }
{
    text.len() == 2 * size && is_hex(text)
}

/// The bytes of lower-case hexadecimal.
pub fn hex(alloc: Global, text: &[u8]) -> Result<Bytes, LineError>
    ensures { GivesValue result (spec.hex_in text.now) }
{
    if !is_lower(text) {
        return Err(LineError::Grammar);
    }
    match hex_of(Vec::new(alloc), text, 0) {
        Ok(bytes) => Ok(bytes),
        Err(Unread::Memory) => Err(LineError::Memory),
        Err(Unread::Fault(_)) => Err(LineError::Grammar),
    }
}

/// The client of 32 digits of lower-case hexadecimal.
pub fn client(text: &[u8]) -> Option<ClientId>
    ensures { result ≡ spec.client_in text.now }
{
    if is_lower(text) {
        client_of(text, 0).ok()
    } else {
        None
    }
}
