//! Reading requests and responses.

ghost use Rattle.std.specs.Prelude.{◌≡◌, ℕ, ◌%◌, ◌^◌, List, length, IfOk};
ghost use Rattle.proto_wire.specs.Fields.{Field};
ghost use Rattle.client_msgs.specs.Reading.{request_of, request_from, sized, ReadsRequest, response_of, response_from, ReadsResponse};
ghost use Rattle.client_msgs.specs.Gathered.{Holds};
ghost use Rattle.values.specs.Sizes.{IsValid};

use crate::check::{check_pin, check_secret, check_tries};
use crate::fault::{RequestFault, ResponseFault};
use crate::oneof::{Member, last_member};
use std::alloc::Global;
use values::{Bytes, Hash, Request, Response};

/// The request that bytes stand for.
///
/// Fields may stand in any order. Of a number the last field counts, of the oneof the last member; the same
/// member twice in a row is read on into one value. Unknown fields, and known numbers of another wire type,
/// count for nothing. `Wire` carries the first fault in the order of the bytes, counted from their start;
/// without one, `Nothing` comes where no member stands, and `Size` where a size is out of range.
pub fn read_request(alloc: Global, bytes: &[u8]) -> Result<Request, RequestFault>
    ensures exact { ReadsRequest result (request_of bytes.now) }
    ensures valid { IfOk result (λ request. IsValid request) }
{
    match last_member(bytes, 2, 5) {
        Err(fault) => Err(RequestFault::Wire(fault)),
        Ok(None) => Err(RequestFault::Nothing),
        Ok(Some(member)) => request(alloc, member),
    }
}

fn request(alloc: Global, member: Member<'_>) -> Result<Request, RequestFault>
    ensures { (fs : List Field) → Holds member.entry fs → ReadsRequest result (sized (request_from member.entry.number fs)) }
{
    match member.number {
        2 => backup(
            alloc,
            member.block_1,
            member.block_2,
            low_32(member.varint_3),
        ),
        3 => restore(member.block_1),
        4 => Ok(Request::Delete),
        _ => expose(alloc, member.block_1),
    }
}

fn backup(alloc: Global, secret: &[u8], pin: &[u8], tries: u32) -> Result<Request, RequestFault>
    ensures { ReadsRequest result (sized (Request.Backup secret.now (record { 0 = pin.now }) tries)) }
{
    check_secret(secret)?;
    check_pin(pin)?;
    check_tries(tries)?;
    let secret = Bytes::from_slice(alloc, secret)?;
    Ok(Request::Backup {
        secret,
        pin: hash(pin),
        tries,
    })
}

fn restore(pin: &[u8]) -> Result<Request, RequestFault>
    ensures { ReadsRequest result (sized (Request.Restore (record { 0 = pin.now }))) }
{
    check_pin(pin)?;
    Ok(Request::Restore { pin: hash(pin) })
}

fn expose(alloc: Global, secret: &[u8]) -> Result<Request, RequestFault>
    ensures { ReadsRequest result (sized (Request.Expose secret.now)) }
{
    check_secret(secret)?;
    let secret = Bytes::from_slice(alloc, secret)?;
    Ok(Request::Expose { secret })
}

/// The response that bytes stand for, by the rules of `read_request`. Any status number is kept.
pub fn read_response(alloc: Global, bytes: &[u8]) -> Result<Response, ResponseFault>
    ensures { ReadsResponse result (response_of bytes.now) }
{
    match last_member(bytes, 1, 4) {
        Err(fault) => Err(ResponseFault::Wire(fault)),
        Ok(None) => Err(ResponseFault::Nothing),
        Ok(Some(member)) => response(alloc, member),
    }
}

fn response(alloc: Global, member: Member<'_>) -> Result<Response, ResponseFault>
    ensures { (fs : List Field) → Holds member.entry fs → ReadsResponse result (Ok (response_from member.entry.number fs)) }
{
    let status = low_32(member.varint_1);
    match member.number {
        1 => Ok(Response::Backup { status }),
        2 => {
            let secret = Bytes::from_slice(alloc, member.block_2)?;
            Ok(Response::Restore {
                status,
                secret,
                tries: low_32(member.varint_3),
            })
        }
        3 => Ok(Response::Delete),
        _ => Ok(Response::Expose { status }),
    }
}

/// The low 32 bits, which are what a number of 32 bits keeps of its varint.
fn low_32(value: u64) -> u32
    ensures { result ≡ value % 2 ^ 32 }
{
    (value % (1 << 32)) as u32
}

fn hash(bytes: &[u8]) -> Hash
    requires { length bytes.now ≡ 32 }
    ensures { result ≡ record { 0 = bytes.now } }
{
    let mut hash = [0; 32];
    hash.copy_from_slice(bytes);
    Hash(hash)
}
