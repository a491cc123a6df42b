//! The limits of a run that an event can pass.
ghost use Rattle.std.specs.Prelude.{◌≡◌, option_map};
ghost use Rattle.trace_text.specs.Refused.{quantity_of};
ghost use Rattle.group_world.specs.Plays.{passed_in};

use crate::world::World;
use trace_text::Quantity;
use values::{MAX_ANSWERS, MAX_CLIENTS, MAX_MESSAGES, MAX_STATES};

impl World {
    /// The first limit that has been passed, of messages, answers, saved states and clients in this order.
    pub(crate) fn passed(&self) -> Option<Quantity>
        ensures { option_map quantity_of result ≡ passed_in self.now }
    {
        if self.post.count() > MAX_MESSAGES {
            Some(Quantity::Messages)
        } else if self.answers.len() as u64 > MAX_ANSWERS {
            Some(Quantity::Answers)
        } else if self.saves.len() as u64 > MAX_STATES {
            Some(Quantity::States)
        } else if self.clients.len() as u64 > MAX_CLIENTS {
            Some(Quantity::Clients)
        } else {
            None
        }
    }
}
