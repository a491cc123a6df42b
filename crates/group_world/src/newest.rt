//! What a driver asks of a world beside its events.
ghost use Rattle.std.specs.Prelude.{◌≡◌, ◌+◌, ◌<◌, ◌≤◌, ◌^◌, length, option_map};
ghost use Rattle.std.specs.List.{enumerate_from};
ghost use Rattle.group_model.specs.Group.{Group};
ghost use Rattle.group_world.specs.Meanings.{Meaning, MessageOf, StateOf, SaysMessage};
ghost use Rattle.group_world.specs.Newest.{last_kept, newest_after};
ghost use Rattle.group_world.specs.Standing.{IsWorld};

use crate::answered::Answered;
use crate::world::World;
use values::{Answer, ClientId};

impl World {
    /// Whether the group has begun.
    pub fn has_begun(&self) -> bool
        ensures { result ≡ self.now.begun }
    {
        self.begun
    }

    /// How many answers there were.
    pub fn answer_count(&self) -> usize
        ensures { result ≡ length self.now.answers.items }
    {
        self.answers.len()
    }

    /// The newest answer to this number of the client among those after the first `past`, with the number of the answer.
    pub fn newest_answer(
        &self,
        client: &ClientId,
        number: u64,
        past: usize,
    ) -> Option<(u64, &Answer)>
        ensures { (m : Meaning) (g : Group (MessageOf m) (StateOf m)) → IsWorld (SaysMessage m) self.now g
            → option_map (λ found. (found.0, found.1.now)) result ≡ newest_after client.now number past g.answers }
    {
        let since = self.answers.as_slice().get(past..)?;
        newest_in(since, client, number, past as u64)
    }
}

/// The last of these answers that is one to this number of the client, where `past` come before them.
fn newest_in<'a>(
    answers: &'a [Answered],
    client: &ClientId,
    number: u64,
    past: u64,
) -> Option<(u64, &'a Answer)>
    requires { past + length answers.now < 2 ^ 63 }
    ensures { option_map (λ found. (found.0, found.1.now)) result ≡ last_kept client.now number (enumerate_from (past + 1) answers.now) }
{
    let mut newest = None;
    let mut at = past;
    for kept in answers {
        at += 1;
        if kept.client == *client && kept.number == number {
            newest = Some((at, &kept.answer));
        }
    }
    newest
}
