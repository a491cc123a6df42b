//! Hexadecimal digits and their values, one by one and in vectors: sixteen digits are those of eight bytes.
ghost use Rattle.std.specs.Prelude.{◌≡◌, ◌&&◌};
ghost use Rattle.schedule_model.specs.Lines as spec;
ghost use Rattle.schedule_text.specs.Values.{ValuesOf, all_small, bytes_of, digit_or_16, halves_of};

use std::simd::prelude::*;

/// What a byte reads as that is no digit: more than the value of any.
pub const NO_DIGIT: u8 = 16;

/// The digits by their values.
const DIGITS: &[u8; 16] = b"0123456789abcdef";

/// The value of a digit, in either case.
pub fn digit_value(byte: u8) -> u8
    ensures { result ≡ digit_or_16 byte }
{
    let numeral = byte.wrapping_sub(b'0');
    let small = byte.wrapping_sub(b'a');
    let capital = byte.wrapping_sub(b'A');
    if numeral < 10 {
        numeral
    } else if small < 6 {
        small + 10
    } else if capital < 6 {
        capital + 10
    } else {
        NO_DIGIT
    }
}

/// The values of digits, in either case. A byte that is no digit reads as `NO_DIGIT` or more.
#[inline(always)]
pub fn digit_values(digits: u8x16) -> u8x16
    ensures { ValuesOf digits result }
{
    // The numerals become the ten largest bytes and then 0xf0 to 0xf9, the others less: these end at 16 or more.
    let raised = digits + u8x16::splat(0xff - b'9');
    let numerals = raised.saturating_sub(u8x16::splat(6)) - u8x16::splat(0xf0);
    // This bit makes capitals small. The smaller keeps the sum from wrapping.
    let small = (digits | u8x16::splat(0x20)) - u8x16::splat(b'a');
    let letters = small.simd_min(u8x16::splat(0xff - 10)) + u8x16::splat(10);
    numerals.simd_min(letters)
}

/// The larger value of each lane.
#[inline(always)]
pub fn larger(a: u8x16, b: u8x16) -> u8x16
    ensures { all_small result ≡ all_small a && all_small b }
{
    a.simd_max(b)
}

/// Whether all the values are those of digits.
#[inline(always)]
pub fn are_digits(values: u8x16) -> bool
    ensures { result ≡ all_small values }
{
    values.simd_lt(u8x16::splat(NO_DIGIT)).all()
}

/// The byte of each pair of values, the high four bits first.
#[inline(always)]
pub fn joined(values: u8x16) -> u8x8
    ensures { result ≡ bytes_of values }
{
    // The product moves the first value of a pair, its low byte, before the second, in its high byte.
    let pairs = u16x8::from_le_bytes(values) * u16x8::splat(0x1001);
    (pairs >> u16x8::splat(8)).cast()
}

/// The high and the low four bits of each byte.
#[inline(always)]
fn halves(bytes: u8x8) -> u8x16
    ensures { result ≡ halves_of bytes }
{
    let high = bytes >> u8x8::splat(4);
    let low = bytes & u8x8::splat(15);
    high.shuffle(low, [0, 8, 1, 9, 2, 10, 3, 11, 4, 12, 5, 13, 6, 14, 7, 15])
}

/// The digits of bytes, in lower case.
#[inline(always)]
pub fn digits(bytes: u8x8) -> u8x16
    ensures { result ≡ spec.hex bytes }
{
    u8x16::from_array(*DIGITS).swizzle_dyn(halves(bytes))
}
