//! Numbers of a record.
ghost use Rattle.std.specs.Prelude.{◌≡◌, ◌≤◌, ◌^◌, true, false, length, MatchOption};
ghost use Rattle.std.specs.List.{list_all};
ghost use Rattle.std.specs.Char.{is_ascii_digit};
ghost use Rattle.schedule_model.specs.Reading as spec;

use crate::fault::RecordFault;
use values::Cause;

/// As many digits as have a value of 64 bits, whatever they are.
const SHORT: usize = 19;

/// Whether all bytes are decimal digits.
fn all_digits(text: &[u8]) -> bool
    ensures { result ≡ list_all is_ascii_digit text.now }
{
    text.iter().all(|b| b.is_ascii_digit())
}

/// The value of digits that cannot pass 64 bits, and none where a byte is no digit.
fn short_value(text: &[u8]) -> Option<u64>
    requires { length text.now ≤ SHORT }
    ensures { MatchOption result (list_all is_ascii_digit text.now ≡ false) (λ n. (list_all is_ascii_digit text.now ≡ true) × (n ≡ spec.value_of_digits text.now)) }
{
    let mut value = 0;
    for byte in text {
        let digit = u64::from(*byte).wrapping_sub(u64::from(b'0'));
        if 9 < digit {
            return None;
        }
        value = 10 * value + digit;
    }
    Some(value)
}

/// The value of digits, where it is a number of 64 bits.
fn long_value(digits: &[u8]) -> Option<u64>
    requires { list_all is_ascii_digit digits.now ≡ true }
    ensures { MatchOption result (2 ^ 64 ≤ spec.value_of_digits digits.now) (λ n. n ≡ spec.value_of_digits digits.now) }
{
    let mut value = 0u64;
    for digit in digits {
        value = value
            .checked_mul(10)?
            .checked_add(u64::from(*digit - b'0'))?;
    }
    Some(value)
}

/// A text at field `k` as a number of 64 bits: `0`, or digits without a leading zero.
fn number(text: &[u8], k: usize) -> Result<u64, RecordFault>
    ensures { result ≡ spec.number_of text.now k 0 spec.max_u64 }
{
    match text {
        [] | [b'0', _, ..] => Err(RecordFault::new(Cause::Number, k)),
        _ if text.len() <= SHORT => short_value(text).ok_or(RecordFault::new(Cause::Number, k)),
        _ if all_digits(text) => long_value(text).ok_or(RecordFault::new(Cause::Range, k)),
        _ => Err(RecordFault::new(Cause::Number, k)),
    }
}

/// A text at field `k` as a number in a range: `0`, or digits without a leading zero.
pub fn number_of(text: &[u8], k: usize, low: u64, high: u64) -> Result<u64, RecordFault>
    ensures { result ≡ spec.number_of text.now k low high }
{
    match number(text, k) {
        Ok(value) if low <= value && value <= high => Ok(value),
        Ok(_) => Err(RecordFault::new(Cause::Range, k)),
        Err(fault) => Err(fault),
    }
}
