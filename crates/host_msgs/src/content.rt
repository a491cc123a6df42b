//! Items as they are written.

ghost use Rattle.std.specs.Prelude.{◌≡◌, List, ℕ, All, IfSome, OnOk};
ghost use Rattle.fixed_fields.specs.Written.{Puts};
ghost use Rattle.host_msgs.specs.Batches.{item_bytes};
ghost use Rattle.host_msgs.specs.Contents.{once, each};
ghost use Rattle.host_msgs.specs.Needs.{IsShort};

use fixed_fields::Writer;
use std::alloc::Global;
use values::Memory;

/// What the content of an item is written of.
pub trait Content {
    /// The bytes of the content.
    ghost content: { Self → List ℕ };

    /// Whether its numbers and lists are in their ranges.
    ghost fits: { Self → Type 0 };

    /// Whether it is one of the grammar. What is in its ranges is, by what its type says of it.
    ghost grammar: { Self → Type 0 };

    /// Writes the content. Bytes that four bytes cannot count are answered as memory that ran out: no batch of a replica
    /// has them.
    fn push(&self, alloc: Global, out: &mut Writer) -> Result<(), Memory>
        requires { fits self.now }
        ensures puts { Puts result out.old out.new (content self.now) }
        ensures grammar { OnOk result (grammar self.now) }
        ensures short { OnOk result (IsShort (content self.now)) };
}

/// Writes an item: its kind, its length and its content.
pub fn push_item<T: Content>(
    alloc: Global,
    out: &mut Writer,
    kind: u8,
    item: &T,
) -> Result<(), Memory>
    requires { T.fits item.now }
    ensures puts { Puts result out.old out.new (item_bytes kind (T.content item.now)) }
    ensures grammar { OnOk result (T.grammar item.now) }
    ensures short { OnOk result (IsShort (T.content item.now)) }
{
    out.u8(kind)?;
    let place = out.open()?;
    item.push(alloc, out)?;
    out.close(place);
    Ok(())
}

/// Writes items of one kind.
pub fn push_items<T: Content>(
    alloc: Global,
    out: &mut Writer,
    kind: u8,
    items: &[T],
) -> Result<(), Memory>
    requires { All T.fits items.now }
    ensures puts { Puts result out.old out.new (each kind T.content items.now) }
    ensures grammar { OnOk result (All T.grammar items.now) }
    ensures short { OnOk result (All (λ item. IsShort (T.content item)) items.now) }
{
    for item in items {
        push_item(alloc, out, kind, item)?;
    }
    Ok(())
}

/// Writes at most one item.
pub fn push_once<T: Content>(
    alloc: Global,
    out: &mut Writer,
    kind: u8,
    item: &Option<T>,
) -> Result<(), Memory>
    requires { IfSome item.now T.fits }
    ensures puts { Puts result out.old out.new (once kind T.content item.now) }
    ensures grammar { OnOk result (IfSome item.now T.grammar) }
{
    match item {
        Some(item) => push_item(alloc, out, kind, item),
        None => Ok(()),
    }
}
