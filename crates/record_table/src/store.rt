//! Stores of rows.
ghost use Rattle.std.specs.Prelude.{◌≡◌, ◌<◌, ◌⊎◌, [], length, List, IsSome, IsNone, IfOk, OnOk, OnErr, option_copied, slice_get};
ghost use Rattle.values.specs.declared.limits.TheConstants.{MOST_ROWS};

use crate::change::Change;
use std::alloc::Global;
use values::{ClientId, Memory, Row};

/// A store of rows. Its content is a list of rows in strictly rising client order.
pub trait RowStore: Sized {
    ghost use Rattle.values.specs.declared.row.Row.{Row};
    ghost use Rattle.record_rules.specs.Table.{row_of, put_row, IsRising};
    ghost use Rattle.record_table.specs.Changes.{changed_row};

    /// The rows.
    ghost content: { Self → List Row };

    /// An empty store.
    fn empty(alloc: Global) -> Self
        ensures { content result ≡ [] };

    /// The client's row, or `None` exactly where it has none.
    fn find(&self, client: &ClientId) -> Option<&Row>
        ensures { option_copied result ≡ row_of (content self.now) client.now };

    /// The row at place n, from 0, or `None` exactly where n is at least the count.
    fn place(&self, n: u32) -> Option<&Row>
        ensures { option_copied result ≡ slice_get (content self.now) n };

    /// The number of rows.
    fn count(&self) -> u32
        ensures count { result ≡ length (content self.now) }
        ensures rising { IsRising (content self.now) };

    /// Puts the row in the place of its client's, or adds it at its place. After `Memory` nothing
    /// has changed.
    fn put(&mut self, row: Row) -> Result<(), Memory>
        requires { (length (content self.old) < MOST_ROWS) ⊎ IsSome (row_of (content self.old) row.client) }
        ensures ok { OnOk result (content self.new ≡ put_row (content self.old) row) }
        ensures err { OnErr result (content self.new ≡ content self.old) };

    /// Adds the row of a client that has none, at its place. After `Memory` nothing has changed.
    fn add(&mut self, row: Row) -> Result<(), Memory>
        requires few { length (content self.old) < MOST_ROWS }
        requires unknown { IsNone (row_of (content self.old) row.client) }
        ensures ok { OnOk result (content self.new ≡ put_row (content self.old) row) }
        ensures err { OnErr result (content self.new ≡ content self.old) };

    /// Gives the row of a known client this last number, and changes its record. A store that may
    /// write its rows in their places copies nothing for it. After `Memory` nothing has changed.
    fn change(&mut self, client: &ClientId, last: u64, change: Change) -> Result<(), Memory>
        requires { IsSome (row_of (content self.old) client.now) }
        ensures ok { let row = changed_row (content self.old) client.now last change in
            OnOk result (content self.new ≡ put_row (content self.old) row) }
        ensures err { OnErr result (content self.new ≡ content self.old) };

    /// A store of the same rows.
    fn copy(&self) -> Result<Self, Memory>
        ensures { IfOk result (λ store. content store ≡ content self.now) };
}
