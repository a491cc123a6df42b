//! One ask of a replica, and the batch that it leaves.
ghost use Rattle.std.specs.Prelude.{◌≡◌, ◌<◌, IfOk, IfSome, IsSome, Ok, length};
ghost use Rattle.byte_streams.specs.Causes.{HasCauseAt};
ghost use Rattle.host_inputs.specs.Checking.{IsSound};
ghost use Rattle.host_inputs.specs.Inputs.{FitsInput, input_of, listed_in};
ghost use Rattle.enclave_host.specs.Fields.{IsInput};
ghost use Rattle.enclave_host.specs.Words.{content_in, wording};
ghost use Rattle.group_world.specs.Plays.{Calls};

use crate::came::Unplayed;
use enclave_host::{Field, FieldFault};
use host_inputs::{HostIn, inputs_are_read_again, write_host};
use host_msgs::{BatchFault, FrameList, read_batch};
use std::alloc::Global;
use values::{Batch, Bytes, Memory, ReplicaId};

/// Most batches have room in so many bytes.
const ROOM: usize = 512;

/// The content that says an input in which nothing is wrong.
pub(crate) fn content_of(alloc: Global, input: &HostIn<'_>) -> Result<Bytes, Memory>
    requires fits { FitsInput (input_of input.now) }
    requires sound { IsSound (input_of input.now) }
    requires few { length (listed_in (input_of input.now)) < 256 }
    ensures { IfOk result (λ bytes. wording.content_of bytes ≡ Ok (content_in (input_of input.now))) }
{
    inputs_are_read_again();
    write_host(alloc, input)
}

/// Calls a replica that runs, and reads the batch that it leaves, with the frames of its messages. The batch is large, so it
/// goes from here on in a box.
pub(crate) fn call<F: Field>(
    alloc: Global,
    id: ReplicaId,
    input: &[u8],
    field: &mut F,
) -> Result<(Box<Batch>, FrameList), Unplayed>
    requires { IfSome (F.map field.old) (λ was. IsSome (was id) × IsInput input.now) }
    ensures calls { Calls (F.map field.old) (F.map field.new) (F.answers field.old) (F.answers field.new) id input.now result }
    ensures cause { HasCauseAt Unplayed.FieldFault (F.faults field.old) (F.faults field.new) result }
{
    let Ok(mut out) = Vec::with_capacity(alloc, ROOM) else {
        return Err(Unplayed::Memory);
    };
    match field.call(id, input, &mut out) {
        Ok(()) => {}
        Err(FieldFault::Memory) => return Err(Unplayed::Memory),
        Err(FieldFault::Failed) => return Err(Unplayed::FieldFault),
    }
    match read_batch(alloc, out.as_slice()) {
        Ok((_sender, batch, frames)) => match Box::new(alloc, batch) {
            Ok(batch) => Ok((batch, frames)),
            Err(_) => Err(Unplayed::Memory),
        },
        Err(BatchFault::Memory) => Err(Unplayed::Memory),
        Err(BatchFault::At(at)) => Err(Unplayed::Frame(at)),
    }
}
