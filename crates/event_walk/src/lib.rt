//! The walk over the events of a run: what every event keeps, every run keeps.
//!
//! An event changes a world in one of a dozen ways (`specs/Cases`). A law over runs says of each of them that its fact
//! stands after it, and gets that the fact stands in every run (`proofs/Walk`, for the crates of laws above).
#![tactic(auto)]
