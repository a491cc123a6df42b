//! Short lists of numbers as they stand in bytes.

ghost use Rattle.std.specs.Prelude.{◌≡◌, ◌<◌, ℕ, List, length, Some, IfSome, IfNone};
ghost use Rattle.fixed_fields.specs.Fields.{Gives};
ghost use Rattle.fixed_fields.specs.Formats.{counted, numbers_in};

use crate::reading::{read_u32s, u8_at};
use std::marker::Model;

/// The greatest number of numbers that a byte counts.
pub const MAX_COUNT: usize = 255;

/// At most [`MAX_COUNT`] numbers. Contracts see the list of them.
#[derive(Drop)]
pub struct ShortList {
    numbers: [u32; MAX_COUNT],
    count: usize,
}

impl Model for ShortList {
    ghost use Rattle.std.specs.Prelude.{List, ℕ, ◌≤◌, take};

    ghost Value = { List ℕ };

    ghost view = { λ a. take a.count a.numbers };

    ghost invariant = { λ a. a.count ≤ 255 };
}

impl ShortList {
    /// The numbers.
    pub fn as_slice(&self) -> &[u32]
        ensures { result.now ≡ self.now }
    {
        &self.numbers[..self.count]
    }
}

/// The numbers of four bytes behind a byte that counts them, which are all of the bytes.
pub fn counted_u32s(bytes: &[u8]) -> Option<ShortList>
    ensures { Gives (λ numbers. numbers) result (counted.read bytes.now) }
{
    let (count, rest) = u8_at(bytes)?;
    let count = usize::from(count);
    if rest.len() != 4 * count {
        return None;
    }
    let mut numbers = [0; MAX_COUNT];
    read_u32s(rest, &mut numbers[..count]);
    Some(ShortList { numbers, count })
}

/// The numbers of four bytes that are all of the bytes, if they are at most [`MAX_COUNT`].
pub fn short_u32s(bytes: &[u8]) -> Option<ShortList>
    ensures found { IfSome result (λ numbers. numbers_in bytes.now ≡ Some numbers) }
    ensures none { IfNone result
        ((numbers : List ℕ) → numbers_in bytes.now ≡ Some numbers → 255 < length numbers) }
{
    let count = bytes.len() / 4;
    if bytes.len() != 4 * count || count > MAX_COUNT {
        return None;
    }
    let mut numbers = [0; MAX_COUNT];
    read_u32s(bytes, &mut numbers[..count]);
    Some(ShortList { numbers, count })
}
