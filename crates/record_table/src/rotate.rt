//! A node's side goes up, and the node's row goes down on the other side: in their places, so that it cannot fail.
ghost use Rattle.std.specs.Prelude.{◌≡◌, ◌<◌, ◌+◌, length};
ghost use Rattle.values.specs.declared.limits.TheConstants.{MOST_ROWS};
ghost use Rattle.record_table.specs.declared.node.Node.{out-Node};
ghost use Rattle.record_table.specs.Trees.{tree_of, tree_under, rows_of, IsBalanced};
ghost use Rattle.record_table.specs.Growths.{near_of, far_of, forked_at};

use crate::growth::Side;
use crate::node::{Link, Node, fork_levels, fork_size};
use std::mem;
use std::rc::Rc;
use values::Row;

/// A node's side takes the node's row and the node's other side, and leaves its own row and its own outer side there.
/// Then it is the node's other side.
#[inline(always)]
pub fn turn(side: Side, low: &mut Node, row: &mut Rc<Row>, other: &mut Link)
    requires low { IsBalanced (far_of side low.old) }
    requires other { IsBalanced (tree_under other.old) }
    requires few { length (rows_of (far_of side low.old)) + length (rows_of (tree_under other.old)) < MOST_ROWS }
    ensures low { tree_of low.new ≡ forked_at side (far_of side low.old) row.old.value (tree_under other.old) }
    ensures row { row.new.value ≡ (out-Node low.old).row.value }
    ensures other { tree_under other.new ≡ near_of side low.old }
{
    swap_near(side, low, other);
    mem::swap(&mut low.left, &mut low.right);
    low.size = fork_size(&low.left, &low.right);
    low.levels = fork_levels(&low.left, &low.right);
    mem::swap(&mut low.row, row);
}

/// Changes a node's side of this kind for another tree.
#[inline(always)]
fn swap_near(side: Side, node: &mut Node, other: &mut Link)
    ensures near { near_of side node.new ≡ tree_under other.old }
    ensures far { far_of side node.new ≡ far_of side node.old }
    ensures row { (out-Node node.new).row ≡ (out-Node node.old).row }
    ensures other { tree_under other.new ≡ near_of side node.old }
{
    match side {
        Side::Left => mem::swap(&mut node.left, other),
        Side::Right => mem::swap(&mut node.right, other),
    }
}
