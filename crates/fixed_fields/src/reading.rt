//! Reading the field at the front.

ghost use Rattle.std.specs.Prelude.{◌≡◌, ◌*◌, length, Some};
ghost use Rattle.std.specs.Int.{w8, w32, w64};
ghost use Rattle.fixed_fields.specs.Fields.{Gives, number_at, block_at};
ghost use Rattle.fixed_fields.specs.Formats.{nothing, numbers_in};

use byteorder::{BigEndian, ByteOrder};

/// A byte.
#[tactic(auto, unfolding(crate::specs::Fields::number_at))]
pub fn u8_at(bytes: &[u8]) -> Option<(u8, &[u8])>
    ensures { Gives (λ p. (p.0, p.1.now)) result (number_at w8 bytes.now) }
{
    let (front, rest) = bytes.split_first()?;
    Some((*front, rest))
}

/// A number of four bytes.
#[tactic(auto, unfolding(crate::specs::Fields::number_at))]
pub fn u32_at(bytes: &[u8]) -> Option<(u32, &[u8])>
    ensures { Gives (λ p. (p.0, p.1.now)) result (number_at w32 bytes.now) }
{
    if bytes.len() < 4 {
        return None;
    }
    let (front, rest) = bytes.split_at(4);
    Some((BigEndian::read_u32(front), rest))
}

/// A number of eight bytes.
#[tactic(auto, unfolding(crate::specs::Fields::number_at))]
pub fn u64_at(bytes: &[u8]) -> Option<(u64, &[u8])>
    ensures { Gives (λ p. (p.0, p.1.now)) result (number_at w64 bytes.now) }
{
    if bytes.len() < 8 {
        return None;
    }
    let (front, rest) = bytes.split_at(8);
    Some((BigEndian::read_u64(front), rest))
}

/// A block of `N` bytes.
#[tactic(auto, unfolding(crate::specs::Fields::block_at))]
pub fn array_at<const N: usize>(bytes: &[u8]) -> Option<([u8; N], &[u8])>
    ensures { Gives (λ p. (p.0, p.1.now)) result (block_at N bytes.now) }
{
    if bytes.len() < N {
        return None;
    }
    let (front, rest) = bytes.split_at(N);
    let mut block = [0; N];
    block.copy_from_slice(front);
    Some((block, rest))
}

/// A block of so many bytes.
#[tactic(auto, unfolding(crate::specs::Fields::block_at))]
pub fn block_at(bytes: &[u8], count: usize) -> Option<(&[u8], &[u8])>
    ensures { Gives (λ p. (p.0.now, p.1.now)) result (block_at count bytes.now) }
{
    if bytes.len() < count {
        return None;
    }
    Some(bytes.split_at(count))
}

/// Numbers of four bytes each, one behind the other, which are all of the bytes.
pub fn read_u32s(bytes: &[u8], numbers: &mut [u32])
    requires { length bytes.now ≡ 4 * length numbers.old }
    ensures { numbers_in bytes.now ≡ Some numbers.new }
{
    BigEndian::read_u32_into(bytes, numbers);
}

/// Whether no bytes are left.
pub fn end(bytes: &[u8]) -> Option<()>
    ensures { Gives (λ u. u) result (nothing.read bytes.now) }
{
    bytes.is_empty().then_some(())
}
