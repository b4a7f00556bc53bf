//! This file finds the length of a run of bytes of one class (such as digits) at a text's start, and the value of digits.
ghost use Rattle.std.specs.Prelude.{◌≡◌, ◌≤◌, ◌<◌, ◌-◌, ◌++◌, true, not, length, take, codes, All, MatchOption, IfSome, IfNone};
ghost use Rattle.std.specs.List.{prefix_len};
ghost use Rattle.cyc_syntax.specs.Spelling as spec;

use crate::classes::{digit_value, is_hex_digit, is_name_byte};

/// Returns the number of letters, digits and `_` at the start of the bytes.
pub fn name_len(bytes: &[u8]) -> usize
    ensures len { result ≡ prefix_len spec.is_name_byte bytes.now }
    ensures within { result ≤ length bytes.now }
{
    bytes.iter().take_while(|b| is_name_byte(**b)).count()
}

/// Returns the number of decimal digits at the start of the bytes.
pub fn digits_len(bytes: &[u8]) -> usize
    ensures len { result ≡ prefix_len spec.is_digit bytes.now }
    ensures within { result ≤ length bytes.now }
{
    bytes.iter().take_while(|b| b.is_ascii_digit()).count()
}

/// Returns the number of hexadecimal digits at the start of the bytes.
pub fn hex_digits_len(bytes: &[u8]) -> usize
    ensures len { result ≡ prefix_len spec.is_hex_digit bytes.now }
    ensures within { result ≤ length bytes.now }
{
    bytes.iter().take_while(|b| is_hex_digit(**b)).count()
}

/// Returns the number of bytes before the first line feed, or of all bytes if there is none.
pub fn line_len(bytes: &[u8]) -> usize
    ensures len { result ≡ prefix_len (λ b. not (spec.is_line_feed b)) bytes.now }
    ensures within { result ≤ length bytes.now }
{
    bytes.iter().take_while(|b| **b != b'\n').count()
}

/// The largest number that a text may contain.
pub const MAX_NUMBER: u64 = 2147483647;

/// Returns the value of the digits in base 10 or 16, or `None` if it is above the limit. The computation stops at the first digit past the
/// limit.
pub fn number_value(base: u64, digits: &[u8]) -> Option<u32>
    requires positive { 0 < base }
    requires within { base ≤ 16 }
    requires digits { All (λ b. spec.is_hex_digit b ≡ true) digits.now }
    ensures { MatchOption result (MAX_NUMBER < spec.number_in base digits.now)
        (λ n. (n ≡ spec.number_in base digits.now) × (n ≤ MAX_NUMBER)) }
{
    let mut value = 0;
    for digit in digits {
        value = value * base + digit_value(*digit);
        if value > MAX_NUMBER {
            return None;
        }
    }
    Some(value as u32)
}

/// Returns the length of a block comment's text including its `*/`, or `None` if the comment is not closed.
pub fn closed_len(text: &[u8]) -> Option<usize>
    ensures within { IfSome result (λ n. (2 ≤ n) × (n ≤ length text.now)) }
    ensures closed { IfSome result (λ n. take n text.now ≡ take (n - 2) text.now ++ codes "*/") }
    ensures first { IfSome result (λ n. spec.HasNoClose (take (n - 2) text.now ++ codes "*")) }
    ensures open { IfNone result (spec.HasNoClose text.now) }
{
    let mut after_star = false;
    for (i, b) in text.iter().enumerate() {
        if after_star && *b == b'/' {
            return Some(i + 1);
        }
        after_star = *b == b'*';
    }
    None
}
