//! Writing requests and responses.

ghost use Rattle.std.specs.Prelude.{◌≡◌, ◌++◌, ◌≤◌, IfOk, OnOk};
ghost use Rattle.proto_wire.specs.Written.{message_field};
ghost use Rattle.client_msgs.specs.Canonical.{canonical_request, request_number, request_fields, canonical_response, response_number, response_fields};
ghost use Rattle.values.specs.Sizes.{IsValid};

use proto_wire::FieldWriter;
use std::alloc::Global;
use values::{Bytes, Memory, Request, Response};

/// Room for the member of a request, and for a message of it, so that one allocation serves each.
const ROOM: usize = 96;

/// The canonical bytes of a request: rising numbers, shortest varints, defaults left out.
pub fn write_request(alloc: Global, request: &Request) -> Result<Bytes, Memory>
    requires { IsValid request.now }
    ensures { IfOk result (λ bytes. bytes ≡ canonical_request request.now) }
{
    match request_bytes(alloc, request) {
        Ok(bytes) => Ok(Bytes::from(bytes)),
        Err(proto_wire::Memory) => Err(Memory),
    }
}

/// The canonical bytes of a response: rising numbers, shortest varints, defaults left out.
pub fn write_response(alloc: Global, response: &Response) -> Result<Bytes, Memory>
    ensures { IfOk result (λ bytes. bytes ≡ canonical_response response.now) }
{
    match response_bytes(alloc, response) {
        Ok(bytes) => Ok(Bytes::from(bytes)),
        Err(proto_wire::Memory) => Err(Memory),
    }
}

fn request_bytes(alloc: Global, request: &Request) -> Result<Vec<u8>, proto_wire::Memory>
    ensures { IfOk result (λ bytes. bytes.items ≡ canonical_request request.now) }
{
    let mut member = FieldWriter::with_capacity(alloc, ROOM)?;
    let number = put_request(&mut member, request)?;
    in_message(alloc, number, member)
}

fn response_bytes(alloc: Global, response: &Response) -> Result<Vec<u8>, proto_wire::Memory>
    ensures { IfOk result (λ bytes. bytes.items ≡ canonical_response response.now) }
{
    let mut member = FieldWriter::with_capacity(alloc, ROOM)?;
    let number = put_response(&mut member, response)?;
    in_message(alloc, number, member)
}

/// A message whose one field is this member.
fn in_message(
    alloc: Global,
    number: u32,
    member: FieldWriter,
) -> Result<Vec<u8>, proto_wire::Memory>
    requires low { 1 ≤ number }
    requires high { number ≤ 1000 }
    ensures { IfOk result (λ bytes. bytes.items ≡ message_field number member) }
{
    let mut message = FieldWriter::with_capacity(alloc, ROOM)?;
    message.message(number, &member.finish())?;
    Ok(message.finish())
}

/// Writes the fields of the request's member, and answers its number.
fn put_request(member: &mut FieldWriter, request: &Request) -> Result<u32, proto_wire::Memory>
    ensures number { IfOk result (λ number. number ≡ request_number request.now) }
    ensures fields { OnOk result (member.new ≡ member.old ++ request_fields request.now) }
{
    match request {
        Request::Backup { secret, pin, tries } => {
            member.block(1, secret.as_slice())?;
            member.block(2, &pin.0)?;
            member.varint(3, u64::from(*tries))?;
            Ok(2)
        }
        Request::Restore { pin } => {
            member.block(1, &pin.0)?;
            Ok(3)
        }
        Request::Delete => Ok(4),
        Request::Expose { secret } => {
            member.block(1, secret.as_slice())?;
            Ok(5)
        }
    }
}

/// Writes the fields of the response's member, and answers its number.
fn put_response(member: &mut FieldWriter, response: &Response) -> Result<u32, proto_wire::Memory>
    ensures number { IfOk result (λ number. number ≡ response_number response.now) }
    ensures fields { OnOk result (member.new ≡ member.old ++ response_fields response.now) }
{
    match response {
        Response::Backup { status } => {
            member.varint(1, u64::from(*status))?;
            Ok(1)
        }
        Response::Restore {
            status,
            secret,
            tries,
        } => {
            member.varint(1, u64::from(*status))?;
            member.block(2, secret.as_slice())?;
            member.varint(3, u64::from(*tries))?;
            Ok(2)
        }
        Response::Delete => Ok(3),
        Response::Expose { status } => {
            member.varint(1, u64::from(*status))?;
            Ok(4)
        }
    }
}
