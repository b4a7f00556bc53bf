//! Decides which numbers fit the immediate field of an instruction.
ghost use Rattle.std.specs.Prelude.{◌≡◌};
ghost use Rattle.cyc_select.specs.inside.Numbers.{fits_signed, half_of, signed_half, negated_half, next_half, low_half, is_word, is_zero_word};
ghost use Rattle.cyc_select.specs.inside.Numbers.{is_plain_divisor, shift_amount, power_of};

use cyc_plain::Operand;
use cyc_words::{add, sub};

/// Returns true if a word equals its sign-extended lower half.
pub(crate) fn fits_signed(word: u32) -> bool
    ensures { result ≡ fits_signed word }
{
    word < 0x8000 || 0xffff_8000 <= word
}

/// Returns the 16-bit immediate that sign-extends to this word, if one exists.
fn half_of(word: u32) -> Option<u16>
    ensures { result ≡ half_of word }
{
    if fits_signed(word) {
        Some((word % 0x1_0000) as u16)
    } else {
        None
    }
}

/// Returns the sign-extended immediate for a constant operand, if one exists.
pub(crate) fn signed_half(operand: Operand) -> Option<u16>
    ensures { result ≡ signed_half operand }
{
    match operand {
        Operand::Slot { .. } => None,
        Operand::Word { word } => half_of(word),
    }
}

/// Returns the sign-extended immediate for the negation of a constant operand, if one exists.
pub(crate) fn negated_half(operand: Operand) -> Option<u16>
    ensures { result ≡ negated_half operand }
{
    match operand {
        Operand::Slot { .. } => None,
        Operand::Word { word } => half_of(sub(0, word)),
    }
}

/// Returns the sign-extended immediate for the successor of a constant operand, if one exists.
pub(crate) fn next_half(operand: Operand) -> Option<u16>
    ensures { result ≡ next_half operand }
{
    match operand {
        Operand::Slot { .. } => None,
        Operand::Word { word } => half_of(add(word, 1)),
    }
}

/// Returns the zero-extended immediate for a constant operand, if one exists.
pub(crate) fn low_half(operand: Operand) -> Option<u16>
    ensures { result ≡ low_half operand }
{
    match operand {
        Operand::Slot { .. } => None,
        Operand::Word { word } => {
            if word < 0x1_0000 {
                Some(word as u16)
            } else {
                None
            }
        }
    }
}

pub(crate) fn is_word(operand: Operand) -> bool
    ensures { result ≡ is_word operand }
{
    match operand {
        Operand::Slot { .. } => false,
        Operand::Word { .. } => true,
    }
}

/// Returns true if an operand is the word 0, which is in a register already.
pub(crate) fn is_zero_word(operand: Operand) -> bool
    ensures { result ≡ is_zero_word operand }
{
    match operand {
        Operand::Slot { .. } => false,
        Operand::Word { word } => word == 0,
    }
}

/// Returns true if an operand is a constant divisor by which the machine can divide every word.
pub(crate) fn is_plain_divisor(operand: Operand) -> bool
    ensures { result ≡ is_plain_divisor operand }
{
    match operand {
        Operand::Slot { .. } => false,
        Operand::Word { word } => word != 0 && word != u32::MAX,
    }
}

/// Returns the shift amount of a constant operand: its word modulo 32.
pub(crate) fn shift_amount(operand: Operand) -> Option<u8>
    ensures { result ≡ shift_amount operand }
{
    match operand {
        Operand::Slot { .. } => None,
        Operand::Word { word } => Some((word % 32) as u8),
    }
}

/// Returns the amount of the left shift that multiplies by an operand, if the operand is a constant power of two.
pub(crate) fn power_of(operand: Operand) -> Option<u8>
    ensures { result ≡ power_of operand }
{
    match operand {
        Operand::Slot { .. } => None,
        Operand::Word { word } => {
            let amount = word.trailing_zeros();
            if 1u64 << amount == u64::from(word) {
                Some(amount as u8)
            } else {
                None
            }
        }
    }
}
