//! A schedule of requests to one record table is played record by record.
#![tactic(auto)]

mod line;
mod player;
mod record;

pub use player::TablePlayer;
