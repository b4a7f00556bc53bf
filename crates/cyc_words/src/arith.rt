//! This file has the arithmetic on words of 32 bits; signed words are in two's complement.

ghost use Rattle.std.specs.Prelude.{◌≡◌, ◌≢◌};
ghost use Rattle.cyc_words.specs.Word.{add_of, sub_of, mul_of, shl_of, shr_of, sar_of, slt_of, sltu_of, div_of, rem_of};

/// Returns the sum of two words, wrapped to 32 bits.
pub fn add(a: u32, b: u32) -> u32
    ensures { result ≡ add_of a b }
{
    a.wrapping_add(b)
}

/// Returns the difference of two words, wrapped to 32 bits.
pub fn sub(a: u32, b: u32) -> u32
    ensures { result ≡ sub_of a b }
{
    a.wrapping_sub(b)
}

/// Returns the product of two words, wrapped to 32 bits.
pub fn mul(a: u32, b: u32) -> u32
    ensures { result ≡ mul_of a b }
{
    a.wrapping_mul(b)
}

/// Shifts `a` left by `count` modulo 32, shifting in zeros.
pub fn shl(a: u32, count: u32) -> u32
    ensures { result ≡ shl_of a count }
{
    a << (count % 32)
}

/// Shifts `a` right by `count` modulo 32, shifting in zeros.
pub fn shr(a: u32, count: u32) -> u32
    ensures { result ≡ shr_of a count }
{
    a >> (count % 32)
}

/// Shifts `a` right by `count` modulo 32 as a signed number, shifting in its sign.
#[tactic(auto, unfolding(crate::specs::Word::sar_of))]
pub fn sar(a: u32, count: u32) -> u32
    ensures { result ≡ sar_of a count }
{
    (a.cast_signed() >> (count % 32)).cast_unsigned()
}

/// Returns 1 if `a` is less than `b` as signed numbers, otherwise 0.
#[tactic(auto, unfolding(crate::specs::Word::slt_of))]
pub fn slt(a: u32, b: u32) -> u32
    ensures { result ≡ slt_of a b }
{
    u32::from(a.cast_signed() < b.cast_signed())
}

/// Returns 1 if `a` is less than `b` as unsigned numbers, otherwise 0.
pub fn sltu(a: u32, b: u32) -> u32
    ensures { result ≡ sltu_of a b }
{
    u32::from(a < b)
}

/// Returns the signed quotient, rounded toward zero. The quotient of -2147483648 and -1 wraps to -2147483648.
#[tactic(auto, unfolding(crate::specs::Word::div_of))]
pub fn div(a: u32, b: u32) -> u32
    requires { b ≢ 0 }
    ensures { result ≡ div_of a b }
{
    a.cast_signed()
        .wrapping_div(b.cast_signed())
        .cast_unsigned()
}

/// Returns the signed remainder, with the sign of the dividend. For -2147483648 and -1 the remainder is 0.
#[tactic(auto, unfolding(crate::specs::Word::rem_of))]
pub fn rem(a: u32, b: u32) -> u32
    requires { b ≢ 0 }
    ensures { result ≡ rem_of a b }
{
    a.cast_signed()
        .wrapping_rem(b.cast_signed())
        .cast_unsigned()
}
