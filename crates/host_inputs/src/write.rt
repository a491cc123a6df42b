//! Writing what a host hands to an enclave.

ghost use Rattle.std.specs.Prelude.{◌≡◌, ◌<◌, ◌∷◌, length, IfOk};
ghost use Rattle.fixed_fields.specs.Written.{Puts};
ghost use Rattle.fixed_fields.specs.Fields.{number_bytes};
ghost use Rattle.std.specs.Int.{w8, w32};
ghost use Rattle.host_inputs.specs.Inputs.{begin_fields, learn_fields, client_fields, input_of, input_bytes, listed_in};

use crate::input::HostIn;
use crate::kinds;
use fixed_fields::Writer;
use std::alloc::{AllocError, Global};
use values::{Bytes, Memory};

/// Room for a kind and the fields in front of a frame or a request.
const ROOM: usize = 32;

/// The content that says an input, its ids in rising order. At most 255 ids may be listed.
pub fn write_host(alloc: Global, input: &HostIn<'_>) -> Result<Bytes, Memory>
    requires { length (listed_in (input_of input.now)) < 256 }
    ensures { IfOk result (λ bytes. bytes ≡ input_bytes (input_of input.now)) }
{
    let mut out = Writer::behind(Vec::with_capacity(alloc, room_for(input))?);
    push_input(&mut out, input)?;
    Ok(Bytes::from(out.finish()))
}

/// Room for the content of an input that lists no ids, and at least for a short one's.
fn room_for(input: &HostIn<'_>) -> usize {
    match input {
        HostIn::Peer { frame } => frame.len() + ROOM,
        HostIn::Client { request, .. } => request.len() + ROOM,
        _ => ROOM,
    }
}

fn push_input(out: &mut Writer, input: &HostIn<'_>) -> Result<(), AllocError>
    requires { length (listed_in (input_of input.now)) < 256 }
    ensures { Puts result out.old out.new (input_bytes (input_of input.now)) }
{
    match input {
        HostIn::Begin {
            id,
            margin,
            limit,
            voters,
        } => push_begin(out, *id, *margin, *limit, voters.as_slice()),
        HostIn::Learn { id, linked } => push_learn(out, *id, linked.as_slice()),
        HostIn::Tick => out.bytes(&[kinds::TICK]),
        HostIn::Peer { frame } => push_after(out, kinds::PEER, frame),
        HostIn::Client {
            client,
            number,
            request,
        } => push_client(out, &client.0, *number, request),
        HostIn::Join { id } => push_numbered(out, kinds::JOIN, *id),
        HostIn::Admit { id } => push_numbered(out, kinds::ADMIT, *id),
        HostIn::Remove { id } => push_numbered(out, kinds::REMOVE, *id),
        HostIn::Save => out.bytes(&[kinds::SAVE]),
        HostIn::Roll { k } => push_numbered(out, kinds::ROLL, *k),
        HostIn::Link { id } => push_numbered(out, kinds::LINK, *id),
        HostIn::Margin { margin } => push_margin(out, *margin),
    }
}

fn push_begin(
    out: &mut Writer,
    id: u32,
    margin: u8,
    limit: u32,
    voters: &[u32],
) -> Result<(), AllocError>
    requires { length voters.now < 256 }
    ensures { Puts result out.old out.new
        (1 ∷ begin_fields.spelled (id, (margin, (limit, voters.now)))) }
{
    out.bytes(&[kinds::BEGIN])?;
    out.u32(id)?;
    out.u8(margin)?;
    out.u32(limit)?;
    out.counted(voters)
}

fn push_learn(out: &mut Writer, id: u32, linked: &[u32]) -> Result<(), AllocError>
    requires { length linked.now < 256 }
    ensures { Puts result out.old out.new (2 ∷ learn_fields.spelled (id, linked.now)) }
{
    out.bytes(&[kinds::LEARN])?;
    out.u32(id)?;
    out.counted(linked)
}

fn push_client(
    out: &mut Writer,
    client: &[u8],
    number: u64,
    request: &[u8],
) -> Result<(), AllocError>
    ensures { Puts result out.old out.new
        (5 ∷ client_fields.spelled (client.now, (number, request.now))) }
{
    out.bytes(&[kinds::CLIENT])?;
    out.bytes(client)?;
    out.u64(number)?;
    out.bytes(request)
}

fn push_after(out: &mut Writer, kind: u8, bytes: &[u8]) -> Result<(), AllocError>
    ensures { Puts result out.old out.new (kind ∷ bytes.now) }
{
    out.bytes(&[kind])?;
    out.bytes(bytes)
}

fn push_numbered(out: &mut Writer, kind: u8, number: u32) -> Result<(), AllocError>
    ensures { Puts result out.old out.new (kind ∷ number_bytes w32 number) }
{
    out.bytes(&[kind])?;
    out.u32(number)
}

fn push_margin(out: &mut Writer, margin: u8) -> Result<(), AllocError>
    ensures { Puts result out.old out.new (12 ∷ number_bytes w8 margin) }
{
    out.bytes(&[kinds::MARGIN])?;
    out.u8(margin)
}
