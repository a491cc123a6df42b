//! The record table over any store of its rows: a tree whose nodes copies share, or a sorted list. It answers by the record
//! rules (`record_rules`).
#![tactic(auto)]

mod change;
mod growth;
mod hang;
mod insert;
mod node;
mod order;
mod pages;
mod rotate;
mod rules;
mod search;
mod sorted;
mod store;
mod table;
mod tree;
mod walk;
mod write;

pub use change::{Change, change_row};
pub use node::Node;
pub use record_rules::status;
pub use sorted::SortedRows;
pub use store::RowStore;
pub use table::{Table, TableOver};
pub use tree::TreeRows;

#[cfg(test)]
mod tests;
