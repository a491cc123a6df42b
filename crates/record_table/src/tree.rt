//! Rows in a balanced search tree.

use crate::change::{Change, keeping};
use crate::insert::insert;
use crate::node::{Link, Node, levels, shared, size};
use crate::order::number_of;
use crate::store::RowStore;
use crate::walk::{find, nth};
use crate::write::change_under;
use std::alloc::Global;
use std::marker::Model;
use std::rc::Rc;
use values::{ClientId, Memory, Row};

/// Rows in a search tree whose sides differ by one level at most. A copy holds the same nodes, so
/// it costs the same however many rows there are. A node that others hold too is never written.
/// Contracts see the root.
#[derive(Debug, Drop)]
pub struct TreeRows {
    alloc: Global,
    root: Link,
}

impl Model for TreeRows {
    ghost use Rattle.std.specs.Prelude.{Option};
    ghost use Rattle.std.specs.Coded.{codes};
    ghost use Rattle.record_table.specs.declared.node.Node.{Node as NodeValue};
    ghost use Rattle.record_table.specs.contracts.node.Node as node;

    ghost Value = { Option NodeValue };

    ghost coded = { Prim.hlevel (codes, node.the_row.coded) };

    ghost use Rattle.record_table.specs.Trees.{root_of, tree_under, IsTree};

    ghost view = { λ t. root_of t.root };

    ghost invariant = { λ t. IsTree (tree_under t.root) };
}

impl TreeRows {
    ghost use Rattle.std.specs.Prelude.{◌≡◌, ◌+◌, ◌/◌, ◌^◌, ◌≤◌, ◌==◌, length, is_none, option_copied};
    ghost use Rattle.record_table.specs.Trees.{tree_at, rows_of, levels_of, IsTree};

    /// The root of the tree, or `None` exactly where there is no row.
    pub fn root(&self) -> Option<&Node>
        ensures root { option_copied result ≡ self.now }
        ensures none { is_none (option_copied result) ≡ (length (rows_of (tree_at self.now)) == 0) }
        ensures tree { IsTree (tree_at self.now) }
    {
        match &self.root {
            Some(node) => Some(node),
            None => None,
        }
    }

    /// How many levels the tree has: those of its root, or 0 where there is none.
    pub fn height(&self) -> u32
        ensures levels { result ≡ levels_of (tree_at self.now) }
        ensures low { 2 ^ (result / 2) ≤ length (rows_of (tree_at self.now)) + 1 }
    {
        levels(&self.root)
    }
}

impl RowStore for TreeRows {
    ghost use Rattle.record_table.specs.Trees.{tree_at, rows_of};

    ghost content = { λ root. rows_of (tree_at root) };

    fn empty(alloc: Global) -> TreeRows {
        TreeRows { alloc, root: None }
    }

    fn find(&self, client: &ClientId) -> Option<&Row> {
        find(&self.root, client)
    }

    fn place(&self, n: u32) -> Option<&Row> {
        nth(&self.root, n)
    }

    fn count(&self) -> u32 {
        size(&self.root)
    }

    fn put(&mut self, row: Row) -> Result<(), Memory> {
        if find(&self.root, &row.client).is_none() {
            return self.add(row);
        }
        let number = number_of(&row.client);
        let (client, last) = (row.client, row.last);
        let mut change = keeping(row.kept);
        change_under(
            self.alloc,
            &mut self.root,
            &client,
            number,
            last,
            &mut change,
        )
    }

    fn add(&mut self, row: Row) -> Result<(), Memory> {
        let number = number_of(&row.client);
        let row = Rc::new(self.alloc, row)?;
        insert(self.alloc, &mut self.root, number, &row)
    }

    fn change(&mut self, client: &ClientId, last: u64, change: Change) -> Result<(), Memory> {
        let number = number_of(client);
        let mut change = change;
        change_under(
            self.alloc,
            &mut self.root,
            client,
            number,
            last,
            &mut change,
        )
    }

    fn copy(&self) -> Result<TreeRows, Memory> {
        Ok(TreeRows {
            alloc: self.alloc,
            root: shared(&self.root)?,
        })
    }
}
