//! The nodes of a tree of rows.
ghost use Rattle.std.specs.Prelude.{◌≡◌, ◌<◌, ◌+◌, max, IfOk, length};
ghost use Rattle.values.specs.declared.limits.TheConstants.{MOST_ROWS};
ghost use Rattle.record_table.specs.Trees.{tree_of, tree_under, rows_of, levels_of, size_of, IsBalanced, forked};
ghost use Rattle.record_table.specs.Trees.Tree.{Empty};

use std::alloc::Global;
use std::rc::Rc;
use values::{Memory, Row};

/// A node: a row, with the trees of the rows before it and behind it.
#[derive(Debug, Drop)]
pub struct Node {
    pub left: Option<Rc<Node>>,
    pub row: Rc<Row>,
    pub right: Option<Rc<Node>>,
    /// The number of rows of the tree below, with this one.
    pub size: u32,
    /// One more than the greater number of levels of the two trees, of which an absent one has 0.
    pub levels: u32,
}

/// A tree that may be absent.
pub type Link = Option<Rc<Node>>;

/// How many rows a tree has.
pub fn size(link: &Link) -> u32
    ensures { result ≡ size_of (tree_under link.now) }
{
    match link {
        Some(node) => node.size,
        None => 0,
    }
}

/// How many levels a tree has.
pub fn levels(link: &Link) -> u32
    ensures { result ≡ levels_of (tree_under link.now) }
{
    match link {
        Some(node) => node.levels,
        None => 0,
    }
}

/// The same tree, held once more.
pub fn shared(link: &Link) -> Result<Link, Memory>
    ensures { IfOk result (λ link_too. tree_under link_too ≡ tree_under link.now) }
{
    match link {
        Some(node) => Ok(Some(node.clone()?)),
        None => Ok(None),
    }
}

/// How many rows the tree of a row between two trees has.
pub fn fork_size(left: &Link, right: &Link) -> u32
    requires left { IsBalanced (tree_under left.now) }
    requires right { IsBalanced (tree_under right.now) }
    requires few { length (rows_of (tree_under left.now)) + length (rows_of (tree_under right.now)) < MOST_ROWS }
    ensures { result ≡ size_of (tree_under left.now) + size_of (tree_under right.now) + 1 }
{
    size(left) + size(right) + 1
}

/// How many levels the tree of a row between two trees has.
pub fn fork_levels(left: &Link, right: &Link) -> u32
    requires left { IsBalanced (tree_under left.now) }
    requires right { IsBalanced (tree_under right.now) }
    requires few { length (rows_of (tree_under left.now)) + length (rows_of (tree_under right.now)) < MOST_ROWS }
    ensures { result ≡ max (levels_of (tree_under left.now)) (levels_of (tree_under right.now)) + 1 }
{
    levels(left).max(levels(right)) + 1
}

/// The tree of a row alone.
pub fn alone(alloc: Global, row: &Rc<Row>) -> Result<Link, Memory>
    ensures { IfOk result (λ link. tree_under link ≡ forked Empty row.now.value Empty) }
{
    let node = Node {
        left: None,
        row: row.clone()?,
        right: None,
        size: 1,
        levels: 1,
    };
    Ok(Some(Rc::new(alloc, node)?))
}

/// A node of the same row and the same trees.
pub fn copied(node: &Node) -> Result<Node, Memory>
    ensures { IfOk result (λ copy. tree_of copy ≡ tree_of node.now) }
{
    Ok(Node {
        left: shared(&node.left)?,
        row: node.row.clone()?,
        right: shared(&node.right)?,
        size: node.size,
        levels: node.levels,
    })
}

/// Puts a copy of its own in the place of a node that others hold too. Each step of each way down calls it, and hardly ever
/// finds such a node.
#[inline(always)]
pub fn unshare(alloc: Global, node: &mut Rc<Node>) -> Result<(), Memory>
    ensures { tree_of node.new.value ≡ tree_of node.old.value }
{
    match Rc::get_mut(node) {
        Some(_own) => Ok(()),
        None => {
            *node = Rc::new(alloc, copied(node)?)?;
            Ok(())
        }
    }
}
