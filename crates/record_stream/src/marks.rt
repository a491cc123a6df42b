//! Bytes that may mean something, looked for 64 at a time.
ghost use Rattle.std.specs.Prelude.{◌≡◌, ◌<◌, ℕ, length, slice_index};
ghost use Rattle.std.specs.Int.{bit_at};
ghost use Rattle.record_stream.specs.Walk.{bit_of, may_mean};

use std::simd::prelude::*;

/// How many bytes are looked at together.
pub const WIDTH: usize = 64;

/// The bits of the bytes that may mean something, that of the first byte lowest. Moved up by 128 the bytes from 128
/// on come first, and those up to the comma after them, so that one comparison tells both from the others.
#[inline(always)]
fn marks_of(bytes: u8x64) -> u64
    ensures { (k : ℕ) → k < 64 → bit_at result k ≡ bit_of (may_mean (slice_index bytes k)) }
{
    (bytes + u8x64::splat(128))
        .simd_lt(u8x64::splat(128 + b',' + 1))
        .to_bitmask()
}

/// The bits of the first 64 of these bytes, or of all where they are fewer.
#[inline(always)]
pub fn marks(bytes: &[u8]) -> u64
    ensures each { (k : ℕ) → k < 64 → k < length bytes.now → bit_at result k ≡ bit_of (may_mean (slice_index bytes.now k)) }
    ensures within { (k : ℕ) → bit_at result k ≡ 1 → k < length bytes.now }
{
    if bytes.len() < WIDTH {
        return marks_of_last(bytes);
    }
    marks_of(u8x64::from_slice(bytes))
}

/// The bits of fewer than 64 bytes, which are the last ones of some text.
#[cold]
#[inline(never)]
fn marks_of_last(bytes: &[u8]) -> u64
    requires { length bytes.now < 64 }
    ensures each { (k : ℕ) → k < length bytes.now → bit_at result k ≡ bit_of (may_mean (slice_index bytes.now k)) }
    ensures within { (k : ℕ) → bit_at result k ≡ 1 → k < length bytes.now }
{
    let mut padded = [b'0'; WIDTH];
    padded[..bytes.len()].copy_from_slice(bytes);
    marks_of(u8x64::from_array(padded))
}
