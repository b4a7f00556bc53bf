//! The results that instructions compute from words.

ghost use Rattle.std.specs.Prelude.{◌≡◌, ◌<◌, ◌^◌};
ghost use Rattle.cyc_words.specs.Word.{sign_extended};
ghost use Rattle.cyc_words.specs.Bytes.{word_of};
ghost use Rattle.cyc_isa.specs.Effect.{immediate_result, load_upper_result, shift_result, arithmetic_result, high_result, low_result, branch_taken};
ghost use Rattle.cyc_isa.specs.Effect.{branch_zero_taken, branch_target, jump_target, return_address};

use cyc_isa::{ArithmeticOp, BranchOp, BranchZeroOp, ImmediateOp, MultiplyDivideOp, ShiftOp};
use cyc_words::{add, mul, sar, shl, shr, slt, sltu, sub};

/// Returns a 16-bit immediate or offset as a word, sign-extended.
#[inline]
#[tactic(auto, unfolding(cyc_words::specs::Word::sign_extended))]
pub fn sign_extend(half: u16) -> u32
    ensures { result ≡ sign_extended half }
{
    i32::from(half.cast_signed()).cast_unsigned()
}

/// Returns the address of the word that contains the byte at an address.
#[inline]
pub fn word_of(address: u32) -> u32
    ensures { result ≡ word_of address }
{
    address / 4 * 4
}

/// Returns the result of an operation on a register and an immediate.
#[inline]
pub fn immediate(op: ImmediateOp, a: u32, half: u16) -> u32
    ensures { result ≡ immediate_result op a half }
{
    match op {
        ImmediateOp::AddUnsigned => add(a, sign_extend(half)),
        ImmediateOp::SetLess => slt(a, sign_extend(half)),
        ImmediateOp::SetLessUnsigned => sltu(a, sign_extend(half)),
        ImmediateOp::And => a & u32::from(half),
        ImmediateOp::Or => a | u32::from(half),
        ImmediateOp::Xor => a ^ u32::from(half),
    }
}

/// Returns a word with an immediate in its upper half.
#[inline]
pub fn upper(half: u16) -> u32
    ensures { result ≡ load_upper_result half }
{
    u32::from(half) << 16
}

/// Returns the result of a shift by the low five bits of a count.
#[inline]
pub fn shift(op: ShiftOp, a: u32, count: u32) -> u32
    ensures { result ≡ shift_result op a count }
{
    match op {
        ShiftOp::Left => shl(a, count),
        ShiftOp::RightLogical => shr(a, count),
        ShiftOp::RightArithmetic => sar(a, count),
    }
}

/// Returns the result of an operation on two registers.
#[inline]
pub fn arithmetic(op: ArithmeticOp, a: u32, b: u32) -> u32
    ensures { result ≡ arithmetic_result op a b }
{
    match op {
        ArithmeticOp::AddUnsigned => add(a, b),
        ArithmeticOp::SubtractUnsigned => sub(a, b),
        ArithmeticOp::And => a & b,
        ArithmeticOp::Or => a | b,
        ArithmeticOp::Xor => a ^ b,
        ArithmeticOp::Nor => !(a | b),
        ArithmeticOp::SetLess => slt(a, b),
        ArithmeticOp::SetLessUnsigned => sltu(a, b),
    }
}

/// Returns the upper and the lower word of the signed product of two words.
#[inline]
pub fn product(a: u32, b: u32) -> (u32, u32)
    ensures high { result.0 ≡ high_result MultiplyDivideOp.Multiply a b }
    ensures low { result.1 ≡ low_result MultiplyDivideOp.Multiply a b }
{
    let bits = (i64::from(a.cast_signed()) * i64::from(b.cast_signed())).cast_unsigned();
    ((bits >> 32) as u32, (bits % 0x1_0000_0000) as u32)
}

/// Returns true if a branch on two registers is taken.
#[inline]
pub fn taken(op: BranchOp, a: u32, b: u32) -> bool
    ensures { result ≡ branch_taken op a b }
{
    match op {
        BranchOp::Equal => a == b,
        BranchOp::NotEqual => a != b,
    }
}

/// Returns true if a branch on the sign of a register is taken.
#[inline]
pub fn taken_by_sign(op: BranchZeroOp, a: u32) -> bool
    ensures { result ≡ branch_zero_taken op a }
{
    let a = a.cast_signed();
    match op {
        BranchZeroOp::LessOrEqual => a <= 0,
        BranchZeroOp::Greater => a > 0,
        BranchZeroOp::Less => a < 0,
        BranchZeroOp::GreaterOrEqual => a >= 0,
    }
}

/// Returns the target of a branch, from the branch's address and offset.
#[inline]
pub fn branch_goes_to(address: u32, offset: u16) -> u32
    ensures { result ≡ branch_target address offset }
{
    add(add(address, 4), mul(4, sign_extend(offset)))
}

/// Returns the target of a jump, from the jump's address and its index field.
#[inline]
pub fn jump_goes_to(address: u32, index: u32) -> u32
    requires { index < 2 ^ 26 }
    ensures { result ≡ jump_target address index }
{
    add(address, 4) / 0x1000_0000 * 0x1000_0000 + index * 4
}

/// Returns the return address of a call: the address after the call's delay slot.
#[inline]
pub fn link(address: u32) -> u32
    ensures { result ≡ return_address address }
{
    add(address, 8)
}
