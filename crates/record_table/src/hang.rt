//! A row more beside one that has no tree on that side.
ghost use Rattle.std.specs.Prelude.{◌≡◌, IfOk, OnErr};
ghost use Rattle.record_rules.specs.Clients.{client_cmp};
ghost use Rattle.record_table.specs.Trees.{tree_under, IsReady};
ghost use Rattle.record_table.specs.Trees.Tree.{Empty};
ghost use Rattle.record_table.specs.Growths.{toward, forked_at, IsPut};

use crate::growth::{Growth, Side};
use crate::node::{Link, alone};
use std::alloc::Global;
use std::rc::Rc;
use values::{Memory, Row};

/// Hangs the row in as the tree on this side of a row. After `Memory` all is as before.
pub fn hang(
    alloc: Global,
    side: Side,
    near: &mut Link,
    middle: &mut Rc<Row>,
    far: &mut Link,
    row: &Rc<Row>,
    above: Option<Side>,
) -> Result<Growth, Memory>
    requires ready { IsReady (forked_at side (tree_under near.old) middle.old.value (tree_under far.old)) row.now.value.client }
    requires toward { client_cmp row.now.value.client middle.old.value.client ≡ toward side }
    requires none { tree_under near.old ≡ Empty }
    ensures ok { IfOk result (λ growth. IsPut above growth (forked_at side (tree_under near.old) middle.old.value (tree_under far.old)) row.now.value
        (forked_at side (tree_under near.new) middle.new.value (tree_under far.new))) }
    ensures near { OnErr result (tree_under near.new ≡ tree_under near.old) }
    ensures middle { OnErr result (middle.new.value ≡ middle.old.value) }
    ensures far { OnErr result (tree_under far.new ≡ tree_under far.old) }
{
    if far.is_some() {
        *near = alone(alloc, row)?;
        return Ok(Growth::Counted);
    }
    match above {
        None => {
            *near = alone(alloc, row)?;
            Ok(Growth::Grew)
        }
        Some(higher) if higher == side => {
            *near = alone(alloc, row)?;
            Ok(Growth::Over)
        }
        Some(_) => {
            let upper = row.clone()?;
            *far = alone(alloc, middle)?;
            *middle = upper;
            Ok(Growth::Over)
        }
    }
}
