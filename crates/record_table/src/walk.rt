//! Walks down a tree of rows.
ghost use Rattle.std.specs.Prelude.{◌≡◌, option_copied, slice_get};
ghost use Rattle.record_rules.specs.Table.{row_of, IsRising};
ghost use Rattle.record_table.specs.Trees.{tree_under, rows_of, IsBalanced};

use crate::node::{Link, Node, size};
use crate::order::number_of;
use values::{ClientId, Row};

/// The client's row, if there is one.
pub fn find<'a>(tree: &'a Link, client: &ClientId) -> Option<&'a Row>
    requires { IsRising (rows_of (tree_under tree.now)) }
    ensures { option_copied result ≡ row_of (rows_of (tree_under tree.now)) client.now }
{
    let number = number_of(client);
    let mut link = tree;
    while let Some(node) = link {
        let node: &Node = node;
        let other = number_of(&node.row.client);
        if number == other {
            return Some(&node.row);
        }
        link = if number < other {
            &node.left
        } else {
            &node.right
        };
    }
    None
}

/// The row at a place, from 0, if there are as many.
pub fn nth(tree: &Link, place: u32) -> Option<&Row>
    requires { IsBalanced (tree_under tree.now) }
    ensures { option_copied result ≡ slice_get (rows_of (tree_under tree.now)) place }
{
    let mut rest = place;
    let mut link = tree;
    while let Some(node) = link {
        let node: &Node = node;
        let before = size(&node.left);
        if rest == before {
            return Some(&node.row);
        }
        if rest < before {
            link = &node.left;
        } else {
            rest -= before + 1;
            link = &node.right;
        }
    }
    None
}
