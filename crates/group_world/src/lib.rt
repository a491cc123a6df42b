//! A whole group: its replicas run in a field, and events happen to it.
//!
//! A [`World`] keeps what events can ask for: who runs, what was sent and answered by number, the cores of clients. An
//! event is played by at most a few asks of the field, and appends its lines of the trace. What an event does is said by
//! the model (`group_model`), over whatever the field answers.
#![tactic(auto)]

mod answered;
mod begin;
mod call;
mod came;
mod clients;
mod closing;
mod deliver;
mod echo;
mod event;
mod halt;
mod happened;
mod hear;
mod keep;
mod limits;
mod lines;
mod local;
mod newest;
mod player;
mod post;
mod roll;
mod schedule;
mod settle;
mod tell;
#[cfg(test)]
mod tests;
mod told;
mod world;

pub use came::Unplayed;
pub use echo::EchoField;
pub use halt::{Halt, stop_for};
pub use happened::{Happened, NumberedAnswers};
pub use local::{LocalField, ScriptField};
pub use player::GroupPlayer;
pub use schedule::{Played, Which, play};
pub use world::World;
