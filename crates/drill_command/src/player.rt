//! A drill is played event by event over enclaves in memory.
ghost use Rattle.std.specs.Prelude.{◌≡◌, ◌++◌, ◌∷◌, [], false, List, IfOk, OnOk};
ghost use Rattle.schedule_model.specs.Written.{Written, On};
ghost use Rattle.trace_model.specs.Trace.{playing, played, settled};
ghost use Rattle.group_model.specs.Run.{empty_world};
ghost use Rattle.values.specs.declared.event.Event.{Event as Happening};
ghost use Rattle.group_world.specs.Meanings.{OfEnclaves, model_of};
ghost use Rattle.group_world.specs.Playable.{IsPlayable};
ghost use Rattle.drill_command.specs.Drilled.{AreNext, Goes, IsLive, IsNext, IsWhole, Model, Stands, Tells, to_play};

use crate::counts::Counts;
use crate::tally::Tally;
use group_world::{LocalField, World};
use sha2::{Digest, Sha256};
use std::alloc::Global;
use values::{Event, Hash, Memory};

/// A drill as far as it is played.
#[derive(Drop)]
pub(crate) struct Player {
    pub world: World,
    pub field: LocalField,
    pub counts: Counts,
    /// Has taken in the lines of all events so far.
    pub hasher: Sha256,
    /// Where the lines of each event stand in turn.
    pub lines: Vec<u8>,
}

impl Player {
    /// Nothing is played yet.
    pub fn new(alloc: Global) -> Player
        ensures stands { (whole : Written Model) (next : Model → Written Model) → whole ≡ next (playing empty_world) → Stands result whole next }
        ensures live { IsLive result }
        ensures begun { result.world.begun ≡ false }
    {
        Player {
            world: World::new(alloc),
            field: LocalField::new(alloc),
            counts: Counts::new(),
            hasher: Sha256::new(),
            lines: Vec::new(alloc),
        }
    }

    /// Plays one event, other than a settle.
    ///
    /// No event of a drill meets a limit, and this field neither fails nor answers by what is no batch: so want of memory is
    /// the one error that can come.
    fn play_event(&mut self, alloc: Global, event: &Event) -> Result<(), Memory>
        requires live { IsLive self.old }
        requires playable { IsPlayable self.old.world.begun event.now }
        ensures goes { OnOk result (Goes self.old self.new (λ p. played (model_of OfEnclaves) p event.now)) }
        ensures live { OnOk result (IsLive self.new) }
    {
        self.lines.clear();
        let played = self
            .world
            .event(alloc, event, &mut self.field, &mut self.lines);
        let Ok(happened) = played else {
            return Err(Memory);
        };
        self.hasher.update(self.lines.as_slice());
        self.counts.count(&happened);
        Ok(())
    }

    /// Delivers messages up to this number: each time the next one, as long as there is one.
    fn settle(&mut self, alloc: Global, most: u32) -> Result<(), Memory>
        requires { IsLive self.old }
        ensures goes { OnOk result (Goes self.old self.new (settled (model_of OfEnclaves) most)) }
        ensures live { OnOk result (IsLive self.new) }
    {
        for _ in 0..most {
            let Some(message) = self.world.next_message() else {
                return Ok(());
            };
            self.play_event(alloc, &Event::Deliver { message })?;
        }
        Ok(())
    }

    /// Plays what an event stands for.
    fn play(&mut self, alloc: Global, event: &Event) -> Result<(), Memory>
        requires live { IsLive self.old }
        requires next { IsNext self.old.world.begun event.now }
        ensures plays { OnOk result ((whole : Written Model) (rest : List Happening) → IsWhole whole → Stands self.old whole (to_play (event.now ∷ rest)) → Stands self.new whole (to_play rest)) }
        ensures live { OnOk result (IsLive self.new) }
    {
        match event {
            Event::Settle { most } => self.settle(alloc, *most),
            _ => self.play_event(alloc, event),
        }
    }

    /// Plays events, one after another.
    pub fn play_all(&mut self, alloc: Global, events: &[Event]) -> Result<(), Memory>
        requires live { IsLive self.old }
        requires next { AreNext self.old.world.begun events.now }
        ensures plays { OnOk result ((whole : Written Model) (rest : List Happening) → IsWhole whole → Stands self.old whole (to_play (events.now ++ rest)) → Stands self.new whole (to_play rest)) }
        ensures live { OnOk result (IsLive self.new) }
    {
        for event in events {
            self.play(alloc, event)?;
        }
        Ok(())
    }

    /// What all of it came to.
    pub fn close(self) -> Result<Tally, Memory>
        ensures { IfOk result (λ tally. (whole : Written Model) → Stands self whole (On []) → Tells tally whole) }
    {
        let mut lines = self.lines;
        let mut hasher = self.hasher;
        lines.clear();
        self.world.close(&mut lines)?;
        hasher.update(lines.as_slice());
        Ok(Tally {
            events: self.world.events(),
            messages: self.world.messages(),
            answers: self.world.answers(),
            stored: self.counts.stored,
            recovered: self.counts.recovered,
            wrongpin: self.counts.wrongpin,
            deleted: self.counts.deleted,
            halts: self.counts.halts,
            log: self.world.log(),
            within: self.world.is_within(),
            trace: Hash(hasher.finalize()),
        })
    }
}
