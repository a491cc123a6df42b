//! A row more in a tree, which stays balanced.
ghost use Rattle.std.specs.Prelude.{◌≡◌, ◌<◌, IfOk, OnOk, OnErr};
ghost use Rattle.values.specs.declared.limits.TheConstants.{MOST_ROWS};
ghost use Rattle.record_rules.specs.Clients.{client_cmp, IsNumberOf};
ghost use Rattle.record_table.specs.Trees.{tree_of, tree_under, size_of, levels_of, IsReady, IsPutIn};
ghost use Rattle.record_table.specs.Growths.{toward, forked_at, counted, IsPut};

use crate::growth::{Growth, Side};
use crate::hang::hang;
use crate::node::{Link, Node, alone, levels, unshare};
use crate::order::number_of;
use crate::rotate::turn;
use std::alloc::Global;
use std::mem;
use std::rc::Rc;
use values::{Memory, Row};

/// Puts the row of a client that the tree does not know into it. Nodes are written in their places, where nobody else holds
/// them, and else in copies. After `Memory` the tree is as before.
pub fn insert(alloc: Global, link: &mut Link, number: u128, row: &Rc<Row>) -> Result<(), Memory>
    requires number { IsNumberOf row.now.value.client number }
    requires ready { IsReady (tree_under link.old) row.now.value.client }
    ensures ok { OnOk result (IsPutIn (tree_under link.old) row.now.value (tree_under link.new)) }
    ensures err { OnErr result (tree_under link.new ≡ tree_under link.old) }
{
    match link {
        Some(rc) => {
            unshare(alloc, rc)?;
            let Some(node) = Rc::get_mut(rc) else {
                return Err(Memory);
            };
            put_in(alloc, node, number, row, None)?;
            Ok(())
        }
        None => {
            *link = alone(alloc, row)?;
            Ok(())
        }
    }
}

/// The same in the tree of a node. Every step that may fail comes before the first row is moved, so a rotation on the way
/// back up needs no memory. Where the tree is the higher side of the node above, that side is told.
#[cycle(put)]
fn put_in(
    alloc: Global,
    node: &mut Node,
    number: u128,
    row: &Rc<Row>,
    above: Option<Side>,
) -> Result<Growth, Memory>
    requires number { IsNumberOf row.now.value.client number }
    requires ready { IsReady (tree_of node.old) row.now.value.client }
    ensures ok { IfOk result (λ growth. IsPut above growth (tree_of node.old) row.now.value (tree_of node.new)) }
    ensures err { OnErr result (tree_of node.new ≡ tree_of node.old) }
{
    let (left, middle, right) = (&mut node.left, &mut node.row, &mut node.right);
    if number < number_of(&middle.client) {
        let growth = put_at(alloc, Side::Left, left, middle, right, number, row, above)?;
        count(node, growth);
        Ok(growth)
    } else {
        let growth = put_at(alloc, Side::Right, right, middle, left, number, row, above)?;
        count(node, growth);
        Ok(growth)
    }
}

/// The same at a row between two trees, where the new row goes to the one on this side.
#[cycle(put)]
#[inline(always)]
fn put_at(
    alloc: Global,
    side: Side,
    near: &mut Link,
    middle: &mut Rc<Row>,
    far: &mut Link,
    number: u128,
    row: &Rc<Row>,
    above: Option<Side>,
) -> Result<Growth, Memory>
    requires number { IsNumberOf row.now.value.client number }
    requires ready { IsReady (forked_at side (tree_under near.old) middle.old.value (tree_under far.old)) row.now.value.client }
    requires toward { client_cmp row.now.value.client middle.old.value.client ≡ toward side }
    ensures ok { IfOk result (λ growth. IsPut above growth (forked_at side (tree_under near.old) middle.old.value (tree_under far.old)) row.now.value
        (forked_at side (tree_under near.new) middle.new.value (tree_under far.new))) }
    ensures near { OnErr result (tree_under near.new ≡ tree_under near.old) }
    ensures middle { OnErr result (middle.new.value ≡ middle.old.value) }
    ensures far { OnErr result (tree_under far.new ≡ tree_under far.old) }
{
    let far_levels = levels(far);
    let Some(rc) = near else {
        return hang(alloc, side, near, middle, far, row, above);
    };
    unshare(alloc, rc)?;
    let Some(low) = Rc::get_mut(rc) else {
        return Err(Memory);
    };
    let higher = (far_levels < low.levels).then_some(side);
    match put_in(alloc, low, number, row, higher)? {
        Growth::Counted => Ok(Growth::Counted),
        Growth::Over => {
            turn(side, low, middle, far);
            mem::swap(near, far);
            Ok(Growth::Counted)
        }
        Growth::Grew => {
            if low.levels <= far_levels {
                return Ok(Growth::Counted);
            }
            match above {
                None => Ok(Growth::Grew),
                Some(higher) if higher == side => Ok(Growth::Over),
                Some(_) => {
                    turn(side, low, middle, far);
                    mem::swap(near, far);
                    Ok(Growth::Over)
                }
            }
        }
    }
}

/// Writes down what a row more has made of the tree of a node.
#[inline(always)]
fn count(node: &mut Node, growth: Growth)
    requires size { size_of (tree_of node.old) < MOST_ROWS }
    requires levels { levels_of (tree_of node.old) < MOST_ROWS }
    ensures { tree_of node.new ≡ counted growth (tree_of node.old) }
{
    match growth {
        Growth::Counted => node.size += 1,
        Growth::Grew => {
            node.size += 1;
            node.levels += 1;
        }
        Growth::Over => {}
    }
}
