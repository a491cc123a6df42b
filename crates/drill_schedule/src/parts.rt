//! The events of a drill, part by part.
ghost use Rattle.std.specs.Prelude.{List, ◌≡◌, ◌≤◌, ◌<◌, ◌+◌, ◌-◌, ◌*◌, ◌++◌, ◌∷◌, [], replicate, OnOk};
ghost use Rattle.std.specs.Int.{w64, to_be_bytes};
ghost use Rattle.schedule_model.specs.Drill as spec;
ghost use Rattle.values.specs.declared.event.Event.{Event as Happening};
ghost use Rattle.values.specs.declared.event.Event.TheVariants as event;
ghost use Rattle.values.specs.declared.limits.TheConstants.{MOST_ROWS as ROWS};
ghost use Rattle.drill_schedule.specs.Parts.{Ahead, ahead, parts_of};

use crate::events::{go_on, store};
use rand_chacha::ChaCha8Rng;
use rand_core::SeedableRng;
use rand_core::utils::NextWord;
use std::alloc::Global;
use std::marker::Model;
use values::{BeginIds, Event, MOST_ROWS, Memory};

/// The key of the words: the seed, high byte first, and zeros.
fn key(seed: u64) -> [u8; 32]
    ensures { result ≡ to_be_bytes w64 seed ++ replicate 24 0 }
{
    let mut key = [0; 32];
    key[..8].copy_from_slice(&seed.to_be_bytes());
    key
}

/// Five voters begin, and the first of them leads.
fn begin(alloc: Global, events: &mut Vec<Event>) -> Result<(), Memory>
    ensures { OnOk result (events.new.items ≡ events.old.items ++ (event.Begin 1 ROWS (1 ∷ 2 ∷ 3 ∷ 4 ∷ 5 ∷ []) ∷ event.Tick 1 ∷ event.Settle 32 ∷ [])) }
{
    let voters = Vec::from_slice(alloc, &[1, 2, 3, 4, 5])?;
    events.push(Event::Begin {
        margin: 1,
        limit: MOST_ROWS,
        voters: BeginIds::from(voters),
    })?;
    events.push(Event::Tick { replica: 1 })?;
    events.push(Event::Settle { most: 32 })?;
    Ok(())
}

/// The parts of a drill, one after another: its beginning, then each client stores, and then each wants something more.
#[derive(Drop)]
pub struct Parts {
    // What the clauses name the words by. The code needs only the words.
    seed: u64,
    clients: u32,
    /// The number of the next part. From 1 on parts are those of clients, all that store before all that go on.
    next: u32,
    words: ChaCha8Rng,
}

impl Model for Parts {
    ghost use Rattle.std.specs.Prelude.{◌≡◌, ◌≤◌, ◌+◌, ◌-◌};
    ghost use Rattle.drill_schedule.specs.Parts.{Ahead, parts_of, words_from};

    ghost Value = { Ahead };

    ghost view = { λ p. record { seed = p.seed; clients = p.clients; next = p.next } };

    ghost invariant = { λ p. (p.words ≡ words_from p.seed (p.next - (p.clients + 1))) × (p.clients ≤ 2000) × (p.next ≤ parts_of p.clients) };
}

impl Parts {
    /// The parts of the drill of a seed and a number of clients.
    pub fn new(seed: u64, clients: u32) -> Parts
        requires { clients ≤ 2000 }
        ensures { result ≡ record { seed = seed; clients = clients; next = 0 } }
    {
        Parts {
            seed,
            clients,
            next: 0,
            words: ChaCha8Rng::from_seed(key(seed)),
        }
    }

    /// Appends the events of the next part.
    pub fn push_next(&mut self, alloc: Global, events: &mut Vec<Event>) -> Result<(), Memory>
        requires { self.old.next < parts_of self.old.clients }
        ensures part { OnOk result ((part : List Happening) × (events.new.items ≡ events.old.items ++ part) × (ahead self.old ≡ part ++ ahead self.new)) }
        ensures next { OnOk result (self.new ≡ record self.old { next = self.old.next + 1 }) }
    {
        let place = self.next;
        self.next += 1;
        if place == 0 {
            return begin(alloc, events);
        }
        if place <= self.clients {
            return store(alloc, events, place, u64::from(2 * place - 1));
        }
        let number = place - self.clients;
        let answer = u64::from(self.clients + place);
        go_on(events, number, answer, self.words.next_word())
    }
}
