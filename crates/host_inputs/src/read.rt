//! Reading what a host hands to an enclave.

ghost use Rattle.std.specs.Prelude.{◌≡◌, ◌≤◌, IfOk};
ghost use Rattle.host_inputs.specs.Inputs.{Input, Tick, Save, FitsInput, input_of, input_bytes};
ghost use Rattle.host_inputs.specs.Checking.{checked};
ghost use Rattle.host_inputs.specs.Sound.{IsSoundInput};
ghost use Rattle.host_inputs.specs.Reading.{ReadsHost, if_parts, parts_in, bare_in, client_in, margin_in, number_in, input_in, IsSaid};

use crate::fields::{client_fields, margin_field, number_field};
use crate::input::{HostFault, HostIn};
use crate::kinds;
use crate::lists::{begin, learn};
use fixed_fields::end;
use group_quorum::{ConfigFault, MAX_ID, MAX_MARGIN};
use std::alloc::Global;

/// The input that a content says, with its ids in rising order; an id that `linked` lists twice stands once.
///
/// The faults are tried in the order of [`HostFault`]. Inside `Setup`, for `Begin`: `TooFew(0)` where the margin is above
/// 15 or the limit is outside 1 to 20,000; the faults of `Config::new`; `BadId` where the replica is no voter. For
/// `Margin`, a margin above 15 is `TooFew(0)`. The ids inside a link frame are not tried.
pub fn read_host(alloc: Global, content: &[u8]) -> Result<HostIn<'_>, HostFault>
    // What is read is said so.
    ensures found { IfOk result (λ input. IsSaid content.now (input_of input)) }
    // What is said is read, or the first of its faults is told.
    ensures only { (listed : Input) → FitsInput listed → content.now ≡ input_bytes listed
        → ReadsHost result (checked listed) }
    // Which fault it is.
    ensures exact { ReadsHost result (input_in content.now) }
    // Its numbers are in range, and its ids rise.
    ensures sound { IfOk result (λ input. IsSoundInput (input_of input)) }
{
    read(alloc, content)
}

#[tactic(auto, unfolding(crate::specs::Reading::parts_in))]
fn read(alloc: Global, content: &[u8]) -> Result<HostIn<'_>, HostFault>
    ensures reads { ReadsHost result (input_in content.now) }
    ensures sound { IfOk result (λ input. IsSoundInput (input_of input)) }
{
    let Some((kind, rest)) = content.split_first() else {
        return Err(HostFault::Kind(0));
    };
    match *kind {
        kinds::BEGIN => begin(alloc, content.len(), rest),
        kinds::LEARN => learn(alloc, content.len(), rest),
        kinds::TICK..=kinds::MARGIN => other(*kind, content.len(), rest),
        _ => Err(HostFault::Kind(*kind)),
    }
}

/// An input that lists no ids, in a content of so many bytes.
#[tactic(auto, unfolding(crate::specs::Reading::parts_in))]
fn other(kind: u8, size: usize, rest: &[u8]) -> Result<HostIn<'_>, HostFault>
    requires low { 3 ≤ kind }
    requires high { kind ≤ 12 }
    ensures reads { ReadsHost result (if_parts size (parts_in kind rest.now)) }
    ensures sound { IfOk result (λ input. IsSoundInput (input_of input)) }
{
    match kind {
        kinds::TICK => tick(size, rest),
        kinds::PEER => Ok(HostIn::Peer { frame: rest }),
        kinds::CLIENT => client(size, rest),
        kinds::SAVE => save(size, rest),
        kinds::MARGIN => margin(size, rest),
        _ => numbered(kind, size, rest),
    }
}

fn tick(size: usize, rest: &[u8]) -> Result<HostIn<'_>, HostFault>
    ensures reads { ReadsHost result (if_parts size (bare_in Tick rest.now)) }
    ensures sound { IfOk result (λ input. IsSoundInput (input_of input)) }
{
    match end(rest) {
        Some(()) => Ok(HostIn::Tick),
        None => Err(HostFault::Length(size as u64)),
    }
}

fn save(size: usize, rest: &[u8]) -> Result<HostIn<'_>, HostFault>
    ensures reads { ReadsHost result (if_parts size (bare_in Save rest.now)) }
    ensures sound { IfOk result (λ input. IsSoundInput (input_of input)) }
{
    match end(rest) {
        Some(()) => Ok(HostIn::Save),
        None => Err(HostFault::Length(size as u64)),
    }
}

fn client(size: usize, rest: &[u8]) -> Result<HostIn<'_>, HostFault>
    ensures reads { ReadsHost result (if_parts size (client_in rest.now)) }
    ensures sound { IfOk result (λ input. IsSoundInput (input_of input)) }
{
    match client_fields(rest) {
        Some((client, number, request)) => Ok(HostIn::Client {
            client,
            number,
            request,
        }),
        None => Err(HostFault::Length(size as u64)),
    }
}

fn margin(size: usize, rest: &[u8]) -> Result<HostIn<'_>, HostFault>
    ensures reads { ReadsHost result (if_parts size (margin_in rest.now)) }
    ensures sound { IfOk result (λ input. IsSoundInput (input_of input)) }
{
    match margin_field(rest) {
        Some(margin) if margin > MAX_MARGIN => Err(HostFault::Setup(ConfigFault::TooFew(0))),
        Some(margin) => Ok(HostIn::Margin { margin }),
        None => Err(HostFault::Length(size as u64)),
    }
}

/// The inputs of one number of four bytes, which is an id but for a Roll.
fn numbered(kind: u8, size: usize, rest: &[u8]) -> Result<HostIn<'_>, HostFault>
    ensures reads { ReadsHost result (if_parts size (number_in kind rest.now)) }
    ensures sound { IfOk result (λ input. IsSoundInput (input_of input)) }
{
    let Some(number) = number_field(rest) else {
        return Err(HostFault::Length(size as u64));
    };
    if kind == kinds::ROLL {
        return Ok(HostIn::Roll { k: number });
    }
    if number == 0 || number > MAX_ID {
        return Err(HostFault::BadId(number));
    }
    Ok(match kind {
        kinds::JOIN => HostIn::Join { id: number },
        kinds::ADMIT => HostIn::Admit { id: number },
        kinds::REMOVE => HostIn::Remove { id: number },
        _ => HostIn::Link { id: number },
    })
}
