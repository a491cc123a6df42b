//! The events of one client.
ghost use Rattle.std.specs.Prelude.{◌≡◌, ◌+◌, ◌<◌, ◌^◌, ◌%◌, ◌==◌, if◌then◌else◌, ◌++◌, ◌∷◌, [], OnOk};
ghost use Rattle.schedule_model.specs.Drill as spec;
ghost use Rattle.values.specs.declared.event.Event.TheVariants as event;

use crate::client::{client, first_want, wish};
use std::alloc::Global;
use values::{Event, Memory};

/// The client says its request to replica 1, and hears the answer of this number.
fn exchange(events: &mut Vec<Event>, number: u32, answer: u64) -> Result<(), Memory>
    ensures { OnOk result (events.new.items ≡ events.old.items ++ spec.exchange number answer) }
{
    let client = client(number);
    events.push(Event::Say { client, replica: 1 })?;
    events.push(Event::Settle { most: 24 })?;
    events.push(Event::Hear { client, answer })?;
    Ok(())
}

/// The client stores, and hears this answer and the next.
pub fn store(alloc: Global, events: &mut Vec<Event>, number: u32, answer: u64) -> Result<(), Memory>
    requires { answer < 2 ^ 62 }
    ensures { OnOk result (events.new.items ≡ events.old.items ++ spec.stores number answer) }
{
    let client = client(number);
    let want = first_want(alloc, number)?;
    events.push(Event::Want { client, want })?;
    exchange(events, number, answer)?;
    exchange(events, number, answer + 1)
}

/// The leader's next round, where the word says so.
fn round(events: &mut Vec<Event>, word: u32) -> Result<(), Memory>
    ensures { OnOk result (events.new.items ≡ events.old.items ++ (if word % 4 == 3 then event.Tick 1 ∷ event.Settle 8 ∷ [] else [])) }
{
    if word % 4 != 3 {
        return Ok(());
    }
    events.push(Event::Tick { replica: 1 })?;
    events.push(Event::Settle { most: 8 })?;
    Ok(())
}

/// The client wants what the word says, in the leader's next round where the word says so, and hears this answer.
pub fn go_on(events: &mut Vec<Event>, number: u32, answer: u64, word: u32) -> Result<(), Memory>
    ensures { OnOk result (events.new.items ≡ events.old.items ++ spec.wishes number answer word) }
{
    round(events, word)?;
    let client = client(number);
    let want = wish(number, word);
    events.push(Event::Want { client, want })?;
    exchange(events, number, answer)
}
