//! How an enclave starts.
ghost use Rattle.std.specs.Prelude.{◌≡◌, ◌==◌, ℕ, true, not, filter, List, Ok, IfOk, All};
ghost use Rattle.group_quorum.specs.Voters.{is_in, IsId};
ghost use Rattle.attested_link.specs.Links.{is_linked};
ghost use Rattle.host_inputs.specs.Inputs.{input_of};
ghost use Rattle.host_inputs.specs.Sound.{IsBeginning, IsSoundInput};
ghost use Rattle.replica_core.specs.Standing as core;
ghost use Rattle.replica_model.specs.Replica as kept;
ghost use Rattle.group_model.specs.Enclave as model;
ghost use Rattle.enclave_host.specs.Words.{content_in};
ghost use Rattle.enclave_host.specs.Standing.{StandsFor};
ghost use Rattle.enclave_host.specs.Answers.{StartsBy};

use crate::enclave::{Enclave, EnclaveFault};
use crate::running::Running;
use attested_link::Links;
use group_quorum::Config;
use host_inputs::HostIn;
use replica_core::Replica;
use std::alloc::Global;
use values::{Memory, ReplicaId};

/// The enclave that an input starts.
pub(crate) fn begun(alloc: Global, input: &HostIn<'_>) -> Result<Enclave, EnclaveFault>
    requires { IsSoundInput (input_of input.now) }
    ensures { StartsBy result (Ok (content_in (input_of input.now))) }
{
    match input {
        HostIn::Begin {
            id,
            margin,
            limit,
            voters,
        } => Ok(voter(alloc, *id, *margin, *limit, voters.as_slice())?),
        HostIn::Learn { id, linked } => Ok(learner(alloc, *id, linked.as_slice())?),
        _ => Err(EnclaveFault::NotBegun),
    }
}

/// A voter of a new group, linked with the other voters.
#[tactic(auto, using(crate::proofs::Runs::not_spent, crate::proofs::Linked::id_in))]
fn voter(
    alloc: Global,
    id: ReplicaId,
    margin: u8,
    limit: u32,
    voters: &[ReplicaId],
) -> Result<Enclave, Memory>
    requires { IsBeginning id margin limit voters.now }
    ensures { IfOk result (λ enclave. StandsFor enclave (model.started (model.Begin id margin limit voters.now))) }
{
    let config = Config::new(voters, margin).unwrap();
    let others = others(alloc, id, voters)?;
    let links = linked_with(alloc, others.as_slice())?;
    first_state(alloc, Replica::begin(alloc, id, config, limit), links)
}

/// The voters but for this one.
fn others(alloc: Global, id: ReplicaId, voters: &[ReplicaId]) -> Result<Vec<ReplicaId>, Memory>
    ensures { IfOk result (λ others. others.items ≡ filter (λ v. not (v == id)) voters.now) }
{
    let others = voters
        .iter()
        .copied()
        .filter(|voter| *voter != id)
        .collect::<Vec<ReplicaId>>(alloc)?;
    Ok(others)
}

/// A replica that holds nothing, linked with these.
#[tactic(auto, using(crate::proofs::Runs::not_spent, crate::proofs::Linked::id_in))]
fn learner(alloc: Global, id: ReplicaId, linked: &[ReplicaId]) -> Result<Enclave, Memory>
    requires id { IsId id }
    requires linked { All IsId linked.now }
    ensures { IfOk result (λ enclave. StandsFor enclave (model.started (model.Learn id linked.now))) }
{
    let links = linked_with(alloc, linked)?;
    first_state(alloc, Replica::learner(alloc, id), links)
}

/// Links with these and nobody else.
fn linked_with(alloc: Global, ids: &[ReplicaId]) -> Result<Links, Memory>
    ensures { IfOk result (λ links. (v : ℕ) → is_linked links v ≡ is_in ids.now v) }
{
    let mut links = Links::new(alloc);
    for id in ids {
        links.add(*id)?;
    }
    Ok(links)
}

/// The enclave of a replica, which is also its state 0.
fn first_state(alloc: Global, replica: Replica, links: Links) -> Result<Enclave, Memory>
    requires runs { ¬ (core.IsSpent replica) }
    requires linked { (v : ℕ) → is_linked links v ≡ true → IsId v }
    ensures { (s : kept.Replica) (ids : List ℕ) → core.StandsFor replica s
        → ((v : ℕ) → is_linked links v ≡ is_in ids v)
        → IfOk result (λ enclave. StandsFor enclave (model.enclave_of s ids)) }
{
    let mut saved = Vec::with_capacity(alloc, 1)?;
    let first = replica.copy()?;
    saved.push(first)?;
    Ok(Enclave {
        state: Some(Running {
            alloc,
            replica,
            links,
            saved,
        }),
    })
}
