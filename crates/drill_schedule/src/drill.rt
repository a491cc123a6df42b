//! All the events of a drill.
ghost use Rattle.std.specs.Prelude.{◌≡◌, ◌≤◌, IfOk};
ghost use Rattle.schedule_model.specs.Drill as spec;

use crate::parts::Parts;
use std::alloc::Global;
use values::{EventList, Memory};

/// The events of the drill of a seed and a number of clients.
pub fn drill_events(alloc: Global, seed: u64, clients: u32) -> Result<EventList, Memory>
    requires least { 1 ≤ clients }
    requires most { clients ≤ 2000 }
    ensures { IfOk result (λ events. events ≡ spec.drill_events seed clients) }
{
    let mut parts = Parts::new(seed, clients);
    let mut events = Vec::new(alloc);
    for _ in 0..2 * clients + 1 {
        parts.push_next(alloc, &mut events)?;
    }
    Ok(EventList::from(events))
}
