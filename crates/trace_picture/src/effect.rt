//! What an event does where it is not refused, and who acts in it.

use crate::messages::place_of;
use crate::parts::Message;
use values::{Event, ReplicaId};

/// What an event does to lanes and messages, where it is not refused.
#[derive(Clone, Copy, Debug, PartialEq, Eq)]
pub enum Effect {
    Nothing,
    Start(ReplicaId),
    /// The messages by their places.
    Deliver(usize),
    Lose(usize),
    Crash(ReplicaId),
    Roll(ReplicaId, u32),
}

/// The effect of an event.
pub(crate) fn effect_of(event: &Event, messages: &[Message]) -> Effect {
    match event {
        Event::Start { replica } => Effect::Start(*replica),
        Event::Crash { replica } => Effect::Crash(*replica),
        Event::Roll { replica, state } => Effect::Roll(*replica, *state),
        Event::Deliver { message } => match place_of(messages, *message) {
            Some(place) => Effect::Deliver(place),
            None => Effect::Nothing,
        },
        Event::Lose { message } => match place_of(messages, *message) {
            Some(place) => Effect::Lose(place),
            None => Effect::Nothing,
        },
        _ => Effect::Nothing,
    }
}

/// The replica that an event names as the one that acts.
pub(crate) fn actor_of(event: &Event) -> Option<ReplicaId> {
    match event {
        Event::Start { replica }
        | Event::Tick { replica }
        | Event::Crash { replica }
        | Event::Save { replica }
        | Event::Roll { replica, .. }
        | Event::Join { replica, .. }
        | Event::Admit { replica, .. }
        | Event::Remove { replica, .. }
        | Event::Ask { replica, .. }
        | Event::Say { replica, .. }
        | Event::Margin { replica, .. } => Some(*replica),
        _ => None,
    }
}

/// Which field of an event's record is a client.
pub(crate) fn client_place(event: &Event) -> Option<usize> {
    match event {
        Event::Ask { .. } => Some(2),
        Event::Want { .. } | Event::Say { .. } | Event::Hear { .. } | Event::Again { .. } => Some(
            1,
        ),
        _ => None,
    }
}
