//! A row of a tree that is changed: in its place, where nobody else holds the nodes on the way to
//! it, and else in copies of them.
ghost use Rattle.std.specs.Prelude.{◌≡◌, IsSome, IfOk, OnOk, OnErr};
ghost use Rattle.record_rules.specs.Clients.{IsNumberOf};
ghost use Rattle.record_table.specs.Changes.{changed_row, kept_after};
ghost use Rattle.record_rules.specs.Table.{row_of, IsRising};
ghost use Rattle.record_table.specs.Trees.{tree_of, tree_under, rows_of, IsBalanced, IsWrittenIn};

use crate::change::{Change, change_row};
use crate::node::{Link, Node, unshare};
use crate::order::number_of;
use std::alloc::Global;
use std::mem;
use std::rc::Rc;
use values::{ClientId, Memory, Row, TryCopy};

/// Changes the row of a known client. After `Memory` the tree has the rows that it had. The change is taken out of its place
/// at the row only, so that no step down the way moves it.
#[cycle(change)]
pub fn change_under(
    alloc: Global,
    link: &mut Link,
    client: &ClientId,
    number: u128,
    last: u64,
    change: &mut Change,
) -> Result<(), Memory>
    requires number { IsNumberOf client.now number }
    requires balanced { IsBalanced (tree_under link.old) }
    requires rising { IsRising (rows_of (tree_under link.old)) }
    requires known { IsSome (row_of (rows_of (tree_under link.old)) client.now) }
    ensures ok { let row = changed_row (rows_of (tree_under link.old)) client.now last change.old in
        OnOk result (IsWrittenIn (tree_under link.old) row (tree_under link.new)) }
    ensures err { OnErr result (tree_under link.new ≡ tree_under link.old) }
{
    let Some(node) = link else { unreachable!() };
    unshare(alloc, node)?;
    let Some(own) = Rc::get_mut(node) else {
        return Err(Memory);
    };
    change_in(alloc, own, client, number, last, change)
}

/// The same of a node and the trees below it.
#[cycle(change)]
fn change_in(
    alloc: Global,
    node: &mut Node,
    client: &ClientId,
    number: u128,
    last: u64,
    change: &mut Change,
) -> Result<(), Memory>
    requires number { IsNumberOf client.now number }
    requires balanced { IsBalanced (tree_of node.old) }
    requires rising { IsRising (rows_of (tree_of node.old)) }
    requires known { IsSome (row_of (rows_of (tree_of node.old)) client.now) }
    ensures ok { let row = changed_row (rows_of (tree_of node.old)) client.now last change.old in
        OnOk result (IsWrittenIn (tree_of node.old) row (tree_of node.new)) }
    ensures err { OnErr result (tree_of node.new ≡ tree_of node.old) }
{
    let other = number_of(&node.row.client);
    if number == other {
        return change_held(alloc, &mut node.row, last, change);
    }
    if number < other {
        change_under(alloc, &mut node.left, client, number, last, change)
    } else {
        change_under(alloc, &mut node.right, client, number, last, change)
    }
}

/// Changes a row, or puts a changed copy in the place of one that others hold too.
fn change_held(
    alloc: Global,
    row: &mut Rc<Row>,
    last: u64,
    change: &mut Change,
) -> Result<(), Memory>
    ensures ok { OnOk result (row.new.value ≡ record row.old.value { last = last; kept = kept_after change.old row.old.value.kept }) }
    ensures err { OnErr result (row.new.value ≡ row.old.value) }
{
    let change = mem::replace(change, Change::Stay);
    match Rc::get_mut(row) {
        Some(own) => {
            change_row(own, last, change);
            Ok(())
        }
        None => {
            let mut copy = row.copy(alloc)?;
            change_row(&mut copy, last, change);
            *row = Rc::new(alloc, copy)?;
            Ok(())
        }
    }
}
