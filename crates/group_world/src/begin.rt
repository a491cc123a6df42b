//! How replicas start: the voters of a new group, and then learners.
ghost use Rattle.std.specs.Prelude.{ℕ, ◌≡◌, ◌≢◌, ◌≤◌, ◌<◌, ◌∷◌, [], List, true, false, Ok, IfOk, IfSome, None, OnOk, All, length, nat_lt};
ghost use Rattle.std.specs.List.{position_or_len};
ghost use Rattle.byte_streams.specs.Causes.{HasCauseAt};
ghost use Rattle.values.specs.Rising.{Rising};
ghost use Rattle.values.specs.declared.event.Event.TheVariants as event;
ghost use Rattle.values.specs.declared.limits.TheConstants.{MAX_REPLICAS, MOST_ROWS};
ghost use Rattle.group_quorum.specs.Voters.{IsId, is_in};
ghost use Rattle.group_quorum.specs.declared.TheConstants.{MAX_ID};
ghost use Rattle.host_inputs.specs.Sound.{IsBeginning};
ghost use Rattle.group_model.specs.Enclave as model;
ghost use Rattle.trace_model.specs.Session.{Hands, Starts as StartsBy};
ghost use Rattle.enclave_host.specs.Fields.{Gains, IsHelloFor};
ghost use Rattle.enclave_host.specs.Words.{wording};
ghost use Rattle.group_world.specs.Given.{Given, contents_in};
ghost use Rattle.group_world.specs.Plays.{Acts, ActsIn, Did};
ghost use Rattle.group_world.specs.Roster.{IsSetup};
ghost use Rattle.group_world.specs.Standing.{Runs};
ghost use Rattle.group_world.specs.Starts.{Enlists, LinksAll, Starts, StartsAll, TakesUp};

use crate::call::{call, content_of};
use crate::came::{Came, Unplayed};
use crate::told::Told;
use crate::world::World;
use enclave_host::{Field, FieldFault};
use group_quorum::Config;
use host_inputs::HostIn;
use std::alloc::Global;
use trace_text::GroupRefusal;
use values::{BeginIds, Bytes, Ids, Memory, ReplicaId};

/// The content that starts a voter.
fn begin_content(alloc: Global, id: ReplicaId, config: &Config, limit: u32) -> Result<Bytes, Memory>
    requires { IsBeginning id config.now.margin limit config.now.voters }
    ensures { IfOk result (λ bytes. wording.content_of bytes ≡ Ok (StartsBy (model.Begin id config.now.margin limit config.now.voters))) }
{
    let voters = Ids::from_slice(alloc, config.voters())?.unwrap();
    let hello = HostIn::Begin {
        id,
        margin: config.margin(),
        limit,
        voters,
    };
    content_of(alloc, &hello)
}

/// The content that starts a learner, linked with these.
fn learn_content(alloc: Global, id: ReplicaId, linked: &[ReplicaId]) -> Result<Bytes, Memory>
    requires own { IsId id }
    requires ids { All IsId linked.now }
    requires rising { Rising linked.now }
    requires few { length linked.now < 256 }
    ensures { IfOk result (λ bytes. wording.content_of bytes ≡ Ok (StartsBy (model.Learn id linked.now))) }
{
    let linked = Ids::from_slice(alloc, linked)?.unwrap();
    content_of(alloc, &HostIn::Learn { id, linked })
}

/// The content that links a replica with this one.
fn link_content(alloc: Global, id: ReplicaId) -> Result<Bytes, Memory>
    requires { IsId id }
    ensures { IfOk result (λ bytes. wording.content_of bytes ≡ Ok (Hands (model.Connect id))) }
{
    content_of(alloc, &HostIn::Link { id })
}

/// Starts an enclave by this content.
fn start_by<F: Field>(id: ReplicaId, hello: &[u8], field: &mut F) -> Result<(), Unplayed>
    requires { IfSome (F.map field.old) (λ was. (was id ≡ None) × IsHelloFor id hello.now) }
    ensures starts { Starts (F.map field.old) (F.map field.new) id hello.now result }
    ensures gives { Gains (F.answers field.old) (F.answers field.new) [] }
    ensures cause { HasCauseAt Unplayed.FieldFault (F.faults field.old) (F.faults field.new) result }
{
    match field.start(id, hello) {
        Ok(()) => Ok(()),
        Err(FieldFault::Memory) => Err(Unplayed::Memory),
        Err(FieldFault::Failed) => Err(Unplayed::FieldFault),
    }
}

/// Starts each voter, in rising order.
fn start_voters<F: Field>(
    alloc: Global,
    config: &Config,
    limit: u32,
    field: &mut F,
) -> Result<(), Unplayed>
    requires idle { Runs (F.map field.old) [] }
    requires limit { (1 ≤ limit) × (limit ≤ MOST_ROWS) }
    ensures starts { (given : List Given) × Gains (F.answers field.old) (F.answers field.new) (contents_in given)
        × StartsAll (F.map field.old) (F.map field.new) given config.now limit config.now.voters result }
    ensures runs { OnOk result (Runs (F.map field.new) config.now.voters) }
    ensures cause { HasCauseAt Unplayed.FieldFault (F.faults field.old) (F.faults field.new) result }
{
    for id in config.voters() {
        let Ok(hello) = begin_content(alloc, *id, config, limit) else {
            return Err(Unplayed::Memory);
        };
        start_by(*id, hello.as_slice(), field)?;
    }
    Ok(())
}

/// Links each of these replicas, which run, with this one. The batches that they leave are read and passed over.
fn link_all<F: Field>(
    alloc: Global,
    id: ReplicaId,
    running: &[ReplicaId],
    field: &mut F,
) -> Result<(), Unplayed>
    requires id { IsId id }
    requires runs { Runs (F.map field.old) (id ∷ running.now) }
    ensures links { (given : List Given) × Gains (F.answers field.old) (F.answers field.new) (contents_in given)
        × LinksAll (F.map field.old) (F.map field.new) given id running.now result }
    ensures runs { OnOk result (Runs (F.map field.new) (id ∷ running.now)) }
    ensures cause { HasCauseAt Unplayed.FieldFault (F.faults field.old) (F.faults field.new) result }
{
    let Ok(link) = link_content(alloc, id) else {
        return Err(Unplayed::Memory);
    };
    for other in running {
        call(alloc, *other, link.as_slice(), field)?;
    }
    Ok(())
}

/// The first place of an id above this one; the end where there is none.
fn place_of(ids: &[ReplicaId], id: ReplicaId) -> usize
    ensures { result ≡ position_or_len (λ other. nat_lt id other) ids.now }
{
    for (place, other) in ids.iter().enumerate() {
        if id < *other {
            return place;
        }
    }
    ids.len()
}

impl World {
    /// The group begins: its voters start, in rising order.
    pub(crate) fn begin<F: Field>(
        &mut self,
        alloc: Global,
        margin: u8,
        limit: u32,
        voters: &BeginIds,
        field: &mut F,
    ) -> Result<Came, Unplayed>
        requires new { self.old.begun ≡ false }
        requires setup { IsSetup margin limit voters.now }
        requires runs { Runs (F.map field.old) self.old.running.items }
        ensures does { Did (ActsIn (event.Begin margin limit voters.now)) self.old self.new (F.map field.old) (F.map field.new) (F.answers field.old) (F.answers field.new) result }
        ensures runs { OnOk result (Runs (F.map field.new) self.new.running.items) }
        ensures cause { HasCauseAt Unplayed.FieldFault (F.faults field.old) (F.faults field.new) result }
    {
        let config = Config::new(voters.as_slice(), margin).unwrap();
        start_voters(alloc, &config, limit, field)?;
        match self.take_up(alloc, &config) {
            Ok(()) => Ok(Came::Passed),
            Err(Memory) => Err(Unplayed::Memory),
        }
    }

    /// The voters of its first configuration run, and nobody else ever did.
    fn take_up(&mut self, alloc: Global, config: &Config) -> Result<(), Memory>
        ensures { OnOk result (TakesUp self.old self.new config.now) }
    {
        let voters = config.voters();
        let running = Vec::from_slice(alloc, voters)?;
        let started = Vec::from_slice(alloc, voters)?;
        let first = Told {
            margin: config.margin(),
            voters: Ids::from_slice(alloc, voters)?.unwrap(),
        };
        self.confs.push(first)?;
        self.running = running;
        self.started = started;
        self.begun = true;
        Ok(())
    }

    /// A learner starts, linked with every replica that runs, and each of them is linked with it. An id starts once,
    /// and 0 is no id of a replica.
    pub(crate) fn start<F: Field>(
        &mut self,
        alloc: Global,
        id: ReplicaId,
        field: &mut F,
    ) -> Result<Came, Unplayed>
        requires id { id ≤ MAX_ID }
        requires room { id ≢ 0 → is_in self.old.started.items id ≡ false → length self.old.started.items < MAX_REPLICAS }
        requires begun { self.old.begun ≡ true }
        requires runs { Runs (F.map field.old) self.old.running.items }
        ensures does { Did (Acts (event.Start id)) self.old self.new (F.map field.old) (F.map field.new) (F.answers field.old) (F.answers field.new) result }
        ensures runs { OnOk result (Runs (F.map field.new) self.new.running.items) }
        ensures cause { HasCauseAt Unplayed.FieldFault (F.faults field.old) (F.faults field.new) result }
    {
        if id == 0 {
            return Ok(Came::Passed);
        }
        if self.started.as_slice().contains(&id) {
            return Ok(Came::Refused(GroupRefusal::AlreadyStarted(id)));
        }
        let running = self.running.as_slice();
        let Ok(hello) = learn_content(alloc, id, running) else {
            return Err(Unplayed::Memory);
        };
        start_by(id, hello.as_slice(), field)?;
        link_all(alloc, id, running, field)?;
        match self.enlist(id) {
            Ok(()) => Ok(Came::Passed),
            Err(Memory) => Err(Unplayed::Memory),
        }
    }

    /// This id was started, and runs.
    fn enlist(&mut self, id: ReplicaId) -> Result<(), Memory>
        requires id { IsId id }
        requires new { is_in self.old.started.items id ≡ false }
        requires room { length self.old.started.items < MAX_REPLICAS }
        requires begun { self.old.begun ≡ true }
        ensures { OnOk result (Enlists self.old self.new id) }
    {
        self.started.push(id)?;
        let place = place_of(self.running.as_slice(), id);
        self.running.insert(place, id)?;
        Ok(())
    }
}
