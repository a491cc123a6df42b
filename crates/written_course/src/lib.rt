//! The course of a player whose records are played by one step of `Written`, whatever that step is: definitions, and the
//! laws by which such a player shows what became of a record.
#![tactic(auto)]
