//! Bytes as hexadecimal, read and written where they are to stay.
ghost use Rattle.std.specs.Prelude.{◌≡◌, ◌<◌, ◌≤◌, ◌++◌, ◌+◌, ◌*◌, ◌&&◌, nat_lt, true, false, is_ok, IsOk, IsErr, IfOk, OnOk, OnErr, length, vec_capacity};
ghost use Rattle.std.specs.List.{list_all};
ghost use Rattle.hex.specs.Hex.{decode_of, decode_pairs};
ghost use Rattle.schedule_model.specs.Lines as spec;
ghost use Rattle.schedule_text.specs.Decoded.{AreRead, Decodes, IsKept};
ghost use Rattle.schedule_text.specs.Values.{all_small, digit_or_16};

use crate::digit::{NO_DIGIT, are_digits, digit_value, digit_values, digits, joined, larger};
use std::alloc::AllocError;
use std::simd::prelude::*;

/// How many bytes are read or written at once.
const BLOCK: usize = 8;

/// Reads the block of `out` that begins at `at`, and gives the values of its digits.
#[inline(always)]
fn decode_block(text: &[u8], out: &mut [u8], at: usize) -> u8x16
    requires room { at + BLOCK ≤ length out.old }
    requires size { length text.now ≡ 2 * length out.old }
    ensures read { all_small result ≡ true → AreRead text.now out.new at (at + BLOCK) }
    ensures kept { IsKept out.old out.new at }
    ensures broken { all_small result ≡ false → IsErr (decode_pairs 0 text.now) }
{
    let values = digit_values(u8x16::from_slice(&text[2 * at..]));
    out[at..at + BLOCK].copy_from_slice(&joined(values).to_array());
    values
}

/// What `decode_into` does, digit by digit, for a text that is shorter than a block.
fn decode_each(text: &[u8], out: &mut [u8]) -> bool
    requires { length text.now ≡ 2 * length out.old }
    ensures { Decodes result out.new (decode_pairs 0 text.now) }
{
    let mut whole = true;
    for i in 0..out.len() {
        let high = digit_value(text[2 * i]);
        let low = digit_value(text[2 * i + 1]);
        whole &= high < NO_DIGIT;
        whole &= low < NO_DIGIT;
        out[i] = high % 16 * 16 + low % 16;
    }
    whole
}

/// Reads two digits into each byte of `out`, and answers whether the text has nothing but digits. It does not
/// stop at a byte that is none, so that many digits are read at once.
pub fn decode_into(text: &[u8], out: &mut [u8]) -> bool
    requires { length text.now ≡ 2 * length out.old }
    ensures { Decodes result out.new (decode_pairs 0 text.now) }
{
    if out.len() < BLOCK {
        return decode_each(text, out);
    }
    let last = out.len() - BLOCK;
    let mut largest = u8x16::splat(0);
    let mut at = 0;
    while at < last {
        largest = larger(largest, decode_block(text, out, at));
        at += BLOCK;
    }
    // The last block may begin in the one before.
    are_digits(larger(largest, decode_block(text, out, last)))
}

/// Whether all bytes are digits.
fn all_digits(text: &[u8]) -> bool
    ensures { result ≡ list_all (λ byte. nat_lt (digit_or_16 byte) 16) text.now }
{
    text.iter().all(|byte| digit_value(*byte) < NO_DIGIT)
}

/// Whether a text is hexadecimal, in either case: two digits for each byte.
pub fn is_hexadecimal(text: &[u8]) -> bool
    ensures { result ≡ is_ok (decode_of text.now) }
{
    text.len() % 2 == 0 && all_digits(text)
}

/// Reads the bytes of hexadecimal, in either case, into a vector that is used again, and answers whether the
/// text is hexadecimal. Room that is not there hides no text that is none.
pub fn decode(text: &[u8], bytes: &mut Vec<u8>) -> Result<bool, AllocError>
    ensures ok { IfOk result (λ whole. Decodes whole bytes.new.items (decode_of text.now)) }
    ensures err { OnErr result (IsOk (decode_of text.now)) }
{
    if text.len() % 2 != 0 {
        return Ok(false);
    }
    match bytes.resize(text.len() / 2, 0) {
        Ok(()) => Ok(decode_into(text, bytes.as_mut_slice())),
        Err(memory) if all_digits(text) => Err(memory),
        Err(_) => Ok(false),
    }
}

/// What `push_digits` does, for fewer bytes than a block has. Zeros fill it up, and their digits are left out.
fn push_short(line: &mut Vec<u8>, bytes: &[u8]) -> Result<(), AllocError>
    requires { length bytes.now < BLOCK }
    ensures ok { OnOk result (line.new.items ≡ line.old.items ++ spec.hex bytes.now) }
    ensures full { OnErr result (vec_capacity line.old < length line.old.items + 2 * length bytes.now) }
{
    let mut block = [0; BLOCK];
    block[..bytes.len()].copy_from_slice(bytes);
    let written = digits(u8x8::from_array(block));
    line.extend_from_slice(&written.as_array()[..2 * bytes.len()])
}

/// Appends bytes as lower-case hexadecimal. After want of memory the line is as before.
pub fn push_digits(line: &mut Vec<u8>, bytes: &[u8]) -> Result<(), AllocError>
    ensures ok { OnOk result (line.new.items ≡ line.old.items ++ spec.hex bytes.now) }
    ensures err { OnErr result (line.new.items ≡ line.old.items) }
{
    let (blocks, rest) = bytes.as_chunks::<BLOCK>();
    line.reserve(2 * bytes.len())?;
    for block in blocks {
        line.extend_from_slice(digits(u8x8::from_array(*block)).as_array())?;
    }
    push_short(line, rest)
}
