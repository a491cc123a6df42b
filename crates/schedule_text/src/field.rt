//! The fields of a record, by their texts.
ghost use Rattle.std.specs.Prelude.{◌≡◌, ◌≤◌, IfOk};
ghost use Rattle.hex.specs.Hex.{decode_of};
ghost use Rattle.record_cutting.specs.Lines.{record_of};
ghost use Rattle.schedule_model.specs.Reading as spec;
ghost use Rattle.schedule_text.specs.Read.{Reads, client_from, sized_from};

use crate::fault::{RecordFault, Unread};
use crate::hexadecimal::{decode, decode_into, is_hexadecimal};
use crate::number::number_of;
use group_quorum::MAX_ID;
use std::alloc::{AllocError, Global};
use values::{Bytes, Cause, ClientId, Hash, MAX_REQUEST, ReplicaId};

/// Field `k` of a record, from 1. One that does not stand is empty.
pub fn field<'a>(fields: &[&'a [u8]], k: usize) -> &'a [u8]
    requires { 1 ≤ k }
    ensures { result.now ≡ spec.field (record_of fields.now) k }
{
    match fields.get(k - 1) {
        Some(text) => text,
        None => &[],
    }
}

/// A text at field `k` as the bytes of its hexadecimal, in either case. The bytes stand in `bytes`, whose room is
/// used again. `Memory` comes for hexadecimal alone.
pub fn hex_of(mut bytes: Vec<u8>, text: &[u8], k: usize) -> Result<Bytes, Unread>
    ensures { Reads result (spec.bytes_or_fault k (decode_of text.now)) }
{
    match decode(text, &mut bytes) {
        Ok(true) => Ok(Bytes::from(bytes)),
        Ok(false) => Err(Unread::Fault(RecordFault::new(Cause::Hex, k))),
        Err(AllocError) => Err(Unread::Memory),
    }
}

/// A text at field `k` as so many bytes: twice as many hexadecimal digits, in either case.
fn sized_of<const N: usize>(text: &[u8], k: usize) -> Result<[u8; N], RecordFault>
    ensures { result ≡ sized_from text.now k N }
{
    let mut bytes = [0; N];
    if text.len() % 2 == 0 && text.len() / 2 == N && decode_into(text, &mut bytes) {
        Ok(bytes)
    } else {
        Err(RecordFault::new(Cause::Hex, k))
    }
}

/// A text at field `k` as a client: 32 hexadecimal digits, in either case.
pub fn client_of(text: &[u8], k: usize) -> Result<ClientId, RecordFault>
    ensures { result ≡ client_from text.now k }
{
    let id = sized_of(text, k)?;
    Ok(ClientId(id))
}

/// Field `k` as a number in a range.
pub fn number_at(fields: &[&[u8]], k: usize, low: u64, high: u64) -> Result<u64, RecordFault>
    requires { 1 ≤ k }
    ensures value { result ≡ spec.number_at (record_of fields.now) k low high }
    ensures most { IfOk result (λ n. n ≤ high) }
{
    number_of(field(fields, k), k, low, high)
}

/// Field `k` as a number in a range of 32 bits.
pub fn small_at(fields: &[&[u8]], k: usize, low: u32, high: u32) -> Result<u32, RecordFault>
    requires { 1 ≤ k }
    ensures value { result ≡ spec.number_at (record_of fields.now) k low high }
    ensures most { IfOk result (λ n. n ≤ high) }
{
    let number = number_at(fields, k, u64::from(low), u64::from(high))?;
    Ok(number as u32)
}

/// Field `k` as the id of a replica.
pub fn replica_at(fields: &[&[u8]], k: usize) -> Result<ReplicaId, RecordFault>
    requires { 1 ≤ k }
    ensures { result ≡ spec.replica_at (record_of fields.now) k }
{
    small_at(fields, k, 1, MAX_ID)
}

/// Field `k` as a client: 32 hexadecimal digits.
pub fn client_at(fields: &[&[u8]], k: usize) -> Result<ClientId, RecordFault>
    requires { 1 ≤ k }
    ensures { result ≡ spec.client_at (record_of fields.now) k }
{
    client_of(field(fields, k), k)
}

/// Field `k` as a PIN: 64 hexadecimal digits.
pub fn pin_at(fields: &[&[u8]], k: usize) -> Result<Hash, RecordFault>
    requires { 1 ≤ k }
    ensures { result ≡ spec.pin_at (record_of fields.now) k }
{
    let pin = sized_of(field(fields, k), k)?;
    Ok(Hash(pin))
}

/// Field `k` as bytes. `Memory` comes for hexadecimal alone.
pub fn hex_at(alloc: Global, fields: &[&[u8]], k: usize) -> Result<Bytes, Unread>
    requires { 1 ≤ k }
    ensures { Reads result (spec.hex_at (record_of fields.now) k) }
{
    hex_of(Vec::new(alloc), field(fields, k), k)
}

/// Field `k` as request bytes, of which there may be `MAX_REQUEST`. For more of them no memory is taken.
pub fn request_at(alloc: Global, fields: &[&[u8]], k: usize) -> Result<Bytes, Unread>
    requires { 1 ≤ k }
    ensures { Reads result (spec.request_at (record_of fields.now) k) }
{
    let text = field(fields, k);
    let short = text.len() / 2 <= MAX_REQUEST;
    if short {
        return hex_of(Vec::new(alloc), text, k);
    }
    let cause = if is_hexadecimal(text) {
        Cause::Range
    } else {
        Cause::Hex
    };
    Err(Unread::Fault(RecordFault::new(cause, k)))
}
