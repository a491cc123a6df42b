//! A whole drill.
ghost use Rattle.std.specs.Prelude.{◌≡◌, ◌≤◌, IfOk};
ghost use Rattle.sha2.specs.Sha256.{sha256};
ghost use Rattle.schedule_model.specs.Lines.{lines_text};
ghost use Rattle.schedule_model.specs.Written.{text_with};
ghost use Rattle.replica_model.specs.Linked.{sha_link};
ghost use Rattle.trace_model.specs.Claims.{drill_world};
ghost use Rattle.trace_model.specs.Summary.{drill_played, summary};
ghost use Rattle.trace_model.specs.Trace.{closing};
ghost use Rattle.drill_command.specs.Tallies.{Counts, tally_lines};

use crate::player::Player;
use crate::tally::Tally;
use drill_laws::{drill_is_played, nobody_learns};
use drill_schedule::Parts;
use std::alloc::Global;
use values::Memory;

/// Plays the drill of a seed and a number of clients over enclaves in memory, and tells what its run came to.
///
/// The one error is want of memory: a drill meets no limit of a run.
pub fn play_drill(alloc: Global, seed: u64, clients: u32) -> Result<Tally, Memory>
    requires least { 1 ≤ clients }
    requires most { clients ≤ 2000 }
    // Each number is that of the model's run,
    ensures counts { IfOk result (λ tally. Counts tally (drill_world sha_link seed clients)) }
    // and the hash that of its trace, closing lines included.
    ensures trace { IfOk result (λ tally. tally.trace.0 ≡ sha256 (text_with closing (drill_played sha_link seed clients))) }
    // So its lines are the summary.
    ensures summary { IfOk result (λ tally. lines_text (tally_lines seed clients tally) ≡ summary sha256 sha_link seed clients) }
{
    drill_is_played();
    nobody_learns();
    let mut parts = Parts::new(seed, clients);
    let mut player = Player::new(alloc);
    let mut events = Vec::new(alloc);
    for _ in 0..2 * clients + 1 {
        events.clear();
        parts.push_next(alloc, &mut events)?;
        player.play_all(alloc, events.as_slice())?;
    }
    player.close()
}
