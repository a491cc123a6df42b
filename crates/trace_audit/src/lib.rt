//! The auditor: it reads a trace line by line, without a replica, and says at which line the trace is none of a group that
//! keeps one log and one record table.
//!
//! [`Audit`] keeps a book of the entries that were committed, with the table that they make and the reply of each place. A
//! commit extends or repeats the book, an outcome is the reply at its place, and the closing lines tell the book's length and
//! whether the rollbacks were within the bound.
//!
//! [`audit_source`] reads a trace from a source in pieces, and tells how many lines it has, or which is refused and why.
#![tactic(auto)]

mod audit;
mod book;
mod bound;
mod closing;
mod same;
mod source;
#[cfg(test)]
mod tests;
mod told;

pub use audit::{Audit, AuditError, Why};
pub use source::{Audited, MAX_TRACE, audit_source};
