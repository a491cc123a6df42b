//! A picture of a trace, as SVG: a lane for each replica, time downward, an arrow for each message.
//!
//! [`draw_source`] reads a trace from a source, line by line, and writes the picture of the events in a [`View`]. [`Reader`] makes the
//! model of a picture in one pass over the lines; what is drawn of it is the module `draw`, by the places that `grid` gives.
#![tactic(auto)]

mod draw;
mod effect;
mod fields;
mod gaveup;
mod grid;
mod lanes;
mod legend;
mod messages;
mod notes;
mod parts;
mod reader;
mod signs;
mod source;
mod svg;
#[cfg(test)]
mod tests;
mod view;

pub use source::{Drawn, draw_source};
pub use view::{MOST_EVENTS, USUAL_EVENTS, View, view_of};
