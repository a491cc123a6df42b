//! The turns by which the driver carries a want.
ghost use Rattle.std.specs.Prelude.{◌≡◌, ◌++◌, [], IfOk, OnOk, OnErr, Option, Some, None, option_map};
ghost use Rattle.values.specs.declared.event.Event.TheVariants as event;
ghost use Rattle.trace_model.specs.Driven as driven;
ghost use Rattle.trace_model.specs.Driven.{asks_target, drives, drives_settled, gave_up, seen_in, takes_turn, turns_end, wakes_target};
ghost use Rattle.trace_model.specs.Driver.{max_turns};
ghost use Rattle.client_driver.specs.Turns.{seen_of, turn_of};
ghost use Rattle.group_world.specs.Playable.{IsPlayable};
ghost use Rattle.drive_command.specs.Course.{Drives, field};
ghost use Rattle.drive_command.specs.Pieces.{PlaysOn, Writes};
ghost use Rattle.drive_command.specs.Standing.{IsLive, Stands};
ghost use Rattle.drive_command.specs.Turns.{hears_shown, newest_shown, sees_heard, sees_one, shown_by, turns};

use crate::player::DrivePlayer;
use client_driver::{MAX_TURNS, Seen, Turn};
use group_world::Halt;
use record_stream::Stop;
use schedule_text::{push_hex, push_number};
use std::alloc::Global;
use values::{Answer, ClientId, Event, Memory};

/// How many messages are delivered at most after each event of the driver's.
const SETTLED: u32 = 1024;

/// What an answer shows that ended no want.
fn seen_in(answer: &Answer) -> Seen
    ensures { seen_of result ≡ driven.seen_in answer.now }
{
    match answer {
        Answer::Outcome { .. } => Seen::Progress,
        Answer::NotLeader(leader) if *leader != 0 => Seen::Led(*leader),
        _ => Seen::Other,
    }
}

/// The line which says that the turns of this client's want ended without a report.
fn gaveup_line(alloc: Global, client: &ClientId) -> Result<Vec<u8>, Memory>
    ensures { IfOk result (λ line. line.items ≡ gave_up client.now) }
{
    let mut line = Vec::from_slice(alloc, b"gaveup")?;
    push_hex(&mut line, &client.0)?;
    line.push(b',')?;
    push_number(&mut line, u64::from(MAX_TURNS))?;
    line.push(b'\n')?;
    Ok(line)
}

impl DrivePlayer {
    /// Plays one event, which is no settle and no `again`.
    pub(crate) fn event(&mut self, event: &Event, lines: &mut Vec<u8>) -> Result<(), Stop<Halt>>
        requires live { IsLive self.old }
        requires playable { IsPlayable self.old.group.world.begun event.now }
        ensures writes { Writes (λ d. drives field d event.now) self.old self.new lines.old.items lines.new.items result }
        ensures live { OnOk result (IsLive self.new) }
        ensures records { self.new.group.records ≡ self.old.group.records }
    {
        self.group.play_event(event, lines)
    }

    /// Delivers messages up to this number.
    pub(crate) fn settle(&mut self, most: u32, lines: &mut Vec<u8>) -> Result<(), Stop<Halt>>
        requires live { IsLive self.old }
        ensures writes { Writes (λ d. drives field d (event.Settle most)) self.old self.new lines.old.items lines.new.items result }
        ensures live { OnOk result (IsLive self.new) }
        ensures records { self.new.group.records ≡ self.old.group.records }
    {
        self.group.settle(most, lines)
    }

    /// Plays one event, and then the deliveries that it leads to.
    fn event_settled(&mut self, event: &Event, lines: &mut Vec<u8>) -> Result<(), Stop<Halt>>
        requires live { IsLive self.old }
        requires playable { IsPlayable self.old.group.world.begun event.now }
        ensures writes { Writes (λ d. drives_settled field d event.now) self.old self.new lines.old.items lines.new.items result }
        ensures live { OnOk result (IsLive self.new) }
        ensures records { self.new.group.records ≡ self.old.group.records }
    {
        self.event(event, lines)?;
        self.settle(SETTLED, lines)
    }

    /// The timer of the turn's target runs out, where the driver wakes it.
    fn wake(&mut self, turn: Turn, lines: &mut Vec<u8>) -> Result<(), Stop<Halt>>
        requires live { IsLive self.old }
        ensures writes { Writes (wakes_target field (turn_of turn)) self.old self.new lines.old.items lines.new.items result }
        ensures live { OnOk result (IsLive self.new) }
        ensures records { self.new.group.records ≡ self.old.group.records }
    {
        if !turn.wake {
            return Ok(());
        }
        let tick = Event::Tick {
            replica: turn.target,
        };
        self.event_settled(&tick, lines)
    }

    /// The driver takes in what came of a turn.
    fn see(&mut self, seen: Seen)
        ensures plays { PlaysOn (sees_one (seen_of seen)) self.old [] self.new }
        ensures live { IsLive self.old → IsLive self.new }
        ensures records { self.new.group.records ≡ self.old.group.records }
    {
        self.driver.seen(seen, self.group.world.running());
    }

    /// The driver takes in an answer that was heard, which shows this where it brought no report.
    fn see_heard(&mut self, client: &ClientId, shown: Seen)
        ensures plays { PlaysOn (sees_heard client.now (seen_of shown)) self.old [] self.new }
        ensures live { IsLive self.old → IsLive self.new }
        ensures records { self.new.group.records ≡ self.old.group.records }
    {
        let reported = self.group.world.flight(client).is_none();
        self.see(if reported { Seen::Report } else { shown });
    }

    /// The client hears this answer, where there is one, and the driver takes in what came of the turn.
    fn hear(
        &mut self,
        client: &ClientId,
        newest: Option<(u64, Seen)>,
        lines: &mut Vec<u8>,
    ) -> Result<(), Stop<Halt>>
        requires live { IsLive self.old }
        ensures writes { Writes (hears_shown client.now (option_map shown_by newest)) self.old self.new lines.old.items lines.new.items result }
        ensures live { OnOk result (IsLive self.new) }
        ensures records { self.new.group.records ≡ self.old.group.records }
    {
        let Some((answer, shown)) = newest else {
            self.see(Seen::Silence);
            return Ok(());
        };
        let hear = Event::Hear {
            client: *client,
            answer,
        };
        self.event(&hear, lines)?;
        self.see_heard(client, shown);
        Ok(())
    }

    /// What the newest answer shows to what the client has in flight, among those after the first `past`.
    fn newest(&self, client: &ClientId, past: usize) -> Option<(u64, Seen)>
        ensures { (d : Drives) → Stands self.now d → option_map shown_by result ≡ newest_shown d client.now past }
    {
        let number = self.group.world.flight(client)?;
        let (answer, what) = self.group.world.newest_answer(client, number, past)?;
        Some((answer, seen_in(what)))
    }

    /// The client says its request, and hears the newest answer to it that came since.
    fn ask(&mut self, client: &ClientId, turn: Turn, lines: &mut Vec<u8>) -> Result<(), Stop<Halt>>
        requires live { IsLive self.old }
        ensures writes { Writes (asks_target field client.now (turn_of turn)) self.old self.new lines.old.items lines.new.items result }
        ensures live { OnOk result (IsLive self.new) }
        ensures records { self.new.group.records ≡ self.old.group.records }
    {
        let past = self.group.world.answer_count();
        let say = Event::Say {
            client: *client,
            replica: turn.target,
        };
        self.event_settled(&say, lines)?;
        let newest = self.newest(client, past);
        self.hear(client, newest, lines)
    }

    /// Takes one turn.
    fn take_turn(
        &mut self,
        client: &ClientId,
        turn: Turn,
        lines: &mut Vec<u8>,
    ) -> Result<(), Stop<Halt>>
        requires live { IsLive self.old }
        ensures writes { Writes (takes_turn field client.now (turn_of turn)) self.old self.new lines.old.items lines.new.items result }
        ensures live { OnOk result (IsLive self.new) }
        ensures records { self.new.group.records ≡ self.old.group.records }
    {
        self.wake(turn, lines)?;
        self.ask(client, turn, lines)
    }

    /// Says that the turns ended without a report, where they did.
    fn end_turns(&self, client: &ClientId, lines: &mut Vec<u8>) -> Result<(), Stop<Halt>>
        ensures { Writes (turns_end client.now) self.now self.now lines.old.items lines.new.items result }
    {
        if self.group.world.flight(client).is_some() {
            let line = gaveup_line(self.alloc, client)?;
            lines.extend_from_slice(line.as_slice())?;
        }
        Ok(())
    }

    /// Takes turns until the driver has none left: a report leaves none.
    pub(crate) fn take_turns(
        &mut self,
        client: &ClientId,
        lines: &mut Vec<u8>,
    ) -> Result<(), Stop<Halt>>
        requires live { IsLive self.old }
        ensures writes { Writes (turns max_turns client.now) self.old self.new lines.old.items lines.new.items result }
        ensures live { OnOk result (IsLive self.new) }
        ensures records { self.new.group.records ≡ self.old.group.records }
    {
        for _ in 0..MAX_TURNS {
            let Some(turn) = self.driver.next_turn() else {
                return self.end_turns(client, lines);
            };
            self.take_turn(client, turn, lines)?;
        }
        self.end_turns(client, lines)
    }
}
