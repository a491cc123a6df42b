//! The record rules as values: a table is a limit and a finite map from clients to rows, and an ask makes another of it
//! and a reply. What holds of every list of asks, whatever keeps the rows.
#![tactic(auto)]

mod laws;
pub mod status;

pub use laws::{
    data_is_earned, fold_grows, guesses_end, numbers_rise, replies_stay, rows_follow_asks,
    rows_make_their_table, tables_are_bounded,
};
