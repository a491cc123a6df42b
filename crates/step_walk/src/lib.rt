//! The walk through one step of a replica: what every rule of a replica keeps, every step keeps.
//!
//! A step applies one rule, by the replica's role and what it is told (`specs/Rules`). A law over steps says of each rule
//! that its fact stands after it, and gets that the fact stands after every step (`proofs/Walk`). What a rule itself may
//! come to is said once too (`proofs/Outcomes`), for the crates of laws above.
#![tactic(auto)]
