//! The walk over what is played: what every event keeps, all that is played of records keeps.
//!
//! A schedule's records are played one after another, a `settle` as the events that it stands for (`proofs/Played`); where
//! clients are driven, also the events of each turn (`proofs/Driven`). A law says that its fact stands where one event was
//! played, and gets that it stands where all were.
#![tactic(auto)]
