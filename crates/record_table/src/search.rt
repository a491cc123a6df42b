//! The search of a number in a list of slots.
ghost use Rattle.std.specs.Prelude.{◌≡◌, ◌+◌, ◌<◌, ℕ, true, false, length, slice_index, All, IfOk, IfErr};
ghost use Rattle.std.specs.List.{concat};
ghost use Rattle.record_table.specs.Pages.{place_of, IsSpot};
ghost use Rattle.record_table.specs.Numbered.{numbers_in, IsSlotOf, IsBetween};

use crate::pages::{Pages, Spot};
use std::cmp::Ordering;

/// The slot of a number, or else the spot where such a slot would stand. `numbers` has the number
/// of each slot, and in the order of the list they rise.
pub fn search(order: &Pages, numbers: &[u128], number: u128) -> Result<usize, Spot>
    requires { All (λ slot. slot < length numbers.now) (concat order.now) }
    ensures found { IfOk result (IsSlotOf (concat order.now) numbers.now number) }
    ensures spot { IfErr result (IsSpot order.now) }
    ensures between { IfErr result (λ spot. IsBetween (numbers_in (concat order.now) numbers.now) number (place_of order.now spot)) }
{
    if order.count() == 0 {
        return Err(Spot { page: 0, offset: 0 });
    }
    let page = last_reached(
        order.count(),
        |at| numbers[order.first(at) as usize] <= number,
    );
    let slots = order.page(page);
    let offset = last_reached(slots.len(), |at| numbers[slots[at] as usize] <= number);
    let slot = slots[offset] as usize;
    match number.cmp(&numbers[slot]) {
        Ordering::Less => Err(Spot { page, offset }),
        Ordering::Equal => Ok(slot),
        Ordering::Greater => Err(Spot {
            page,
            offset: offset + 1,
        }),
    }
}

/// Where reaching ends among n places: the first place, or one that is reached, and the next one is
/// not, if there is one. It is found by halves.
fn last_reached<F: Fn(usize) -> bool>(n: usize, is_reached: F) -> usize
    requires some { 0 < n }
    requires callable { (at : ℕ) → at < n → F.pre is_reached at }
    ensures below { result < n }
    ensures reached { 0 < result → F.post is_reached result true }
    ensures next { result + 1 < n → F.post is_reached (result + 1) false }
{
    let mut base = 0;
    let mut size = n;
    while size > 1 {
        let half = size / 2;
        if is_reached(base + half) {
            base += half;
            size -= half;
        } else {
            size = half;
        }
    }
    base
}
