//! The inputs that list ids.

ghost use Rattle.std.specs.Prelude.{◌≡◌, ◌∷◌, IfOk};
ghost use Rattle.group_quorum.specs.Voters.{IsId, first_bad};
ghost use Rattle.values.specs.Rising.{Rising};
ghost use Rattle.host_inputs.specs.Inputs.{Begin, input_of};
ghost use Rattle.host_inputs.specs.Checking.{begin_fault, each_once, if_set_up};
ghost use Rattle.host_inputs.specs.Reading.{ReadsHost, if_parts, begin_in, learn_in};
ghost use Rattle.host_inputs.specs.Sound.{IsSoundInput};

use crate::fields::{begin_fields, learn_fields};
use crate::input::{HostFault, HostIn};
use group_quorum::{Config, ConfigFault, MAX_ID, MAX_MARGIN};
use std::alloc::Global;
use std::collections::BTreeSet;
use values::{Ids, MOST_ROWS, Memory, ReplicaId};

/// A Begin, in a content of so many bytes.
pub fn begin(alloc: Global, size: usize, rest: &[u8]) -> Result<HostIn<'_>, HostFault>
    ensures reads { ReadsHost result (if_parts size (begin_in rest.now)) }
    ensures sound { IfOk result (λ input. IsSoundInput (input_of input)) }
{
    let Some((id, margin, limit, voters)) = begin_fields(rest) else {
        return Err(HostFault::Length(size as u64));
    };
    let voters = voters.as_slice();
    if let Some(bad) = first_bad(id, voters) {
        return Err(HostFault::BadId(bad));
    }
    set_up(alloc, id, margin, limit, voters)
}

/// A Learn, in a content of so many bytes.
pub fn learn(alloc: Global, size: usize, rest: &[u8]) -> Result<HostIn<'_>, HostFault>
    ensures reads { ReadsHost result (if_parts size (learn_in rest.now)) }
    ensures sound { IfOk result (λ input. IsSoundInput (input_of input)) }
{
    let Some((id, linked)) = learn_fields(rest) else {
        return Err(HostFault::Length(size as u64));
    };
    if let Some(bad) = first_bad(id, linked.as_slice()) {
        return Err(HostFault::BadId(bad));
    }
    let linked = each_once(alloc, linked.as_slice())?;
    Ok(HostIn::Learn { id, linked })
}

/// A Begin whose ids are ids.
fn set_up<'a>(
    alloc: Global,
    id: ReplicaId,
    margin: u8,
    limit: u32,
    voters: &[u32],
) -> Result<HostIn<'a>, HostFault>
    requires { IsId id }
    ensures reads { ReadsHost result
        (if_set_up (begin_fault id margin limit voters.now) (Begin id margin limit voters.now)) }
    ensures sound { IfOk result (λ input. IsSoundInput (input_of input)) }
{
    if margin > MAX_MARGIN || limit == 0 || limit > MOST_ROWS {
        return Err(HostFault::Setup(ConfigFault::TooFew(0)));
    }
    let config = match Config::new(voters, margin) {
        Ok(config) => config,
        Err(fault) => return Err(HostFault::Setup(fault)),
    };
    if !voters.contains(&id) {
        return Err(HostFault::Setup(ConfigFault::BadId(id)));
    }
    let voters = rising_ids(alloc, config.voters())?;
    Ok(HostIn::Begin {
        id,
        margin,
        limit,
        voters,
    })
}

/// The ids in rising order, each once.
fn each_once(alloc: Global, listed: &[u32]) -> Result<Ids, Memory>
    ensures once { IfOk result (λ ids. ids ≡ each_once listed.now) }
    ensures rising { IfOk result (λ ids. Rising ids) }
{
    let mut set = BTreeSet::new(alloc);
    for id in listed {
        set.insert(*id)?;
    }
    let ids = keys(alloc, &set)?;
    rising_ids(alloc, ids.as_slice())
}

fn keys(alloc: Global, set: &BTreeSet<u32>) -> Result<Vec<u32>, Memory>
    ensures items { IfOk result (λ ids. ids.items ≡ set.now.keys) }
    ensures rising { IfOk result (λ ids. Rising ids.items) }
{
    let ids = set.iter().copied().collect::<Vec<u32>>(alloc)?;
    Ok(ids)
}

/// A copy of ids, which stand in strictly rising order.
fn rising_ids(alloc: Global, ids: &[u32]) -> Result<Ids, Memory>
    requires { Rising ids.now }
    ensures { IfOk result (λ found. found ≡ ids.now) }
{
    let found = Ids::from_slice(alloc, ids)?;
    Ok(found.unwrap())
}

/// The first of these that is no id of a replica.
fn first_bad(id: u32, others: &[u32]) -> Option<u32>
    ensures { result ≡ first_bad (id ∷ others.now) }
{
    if id == 0 || id > MAX_ID {
        return Some(id);
    }
    find_bad(others)
}

fn find_bad(ids: &[u32]) -> Option<u32>
    ensures { result ≡ first_bad ids.now }
{
    ids.iter().copied().find(|id| *id == 0 || *id > MAX_ID)
}
