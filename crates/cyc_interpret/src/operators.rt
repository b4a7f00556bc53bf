//! What the operators compute of values.
ghost use Rattle.std.specs.Prelude.{◌≡◌, false};
ghost use Rattle.cyc_types.specs.TypeView.{view_ty};
ghost use Rattle.cyc_meaning.specs.Values.{number_of_kind, is_kind, kind_of};
ghost use Rattle.cyc_meaning.specs.Operators.{truth, binary_word, has_no_result, is_zero, word_result, binary_result, truth_result, unary_result, unary_kind, truth_of, decides};
ghost use Rattle.cyc_interpret.specs.WorldView.{view_value, view_outcome};

use crate::value::{Outcome, Value};
use cyc_syntax::PointerKind;
use cyc_types::Ty;
use cyc_types::typed::{Kind, LogicalOperator, Operator, UnaryOperator};
use cyc_words::{add, div, mul, rem, sar, shl, slt, sub};

fn number_of_kind(kind: Kind) -> u32
    ensures { result ≡ number_of_kind kind }
{
    match kind {
        Kind::Int => 0,
        Kind::Nullable => 1,
        Kind::NonNull => 2,
        Kind::Fat => 3,
        Kind::Handle => 4,
        Kind::Key => 5,
        Kind::Char => 6,
    }
}

pub(crate) fn is_kind(a: Kind, b: Kind) -> bool
    ensures { result ≡ is_kind a b }
{
    number_of_kind(a) == number_of_kind(b)
}

pub(crate) fn kind_of(of_type: &Ty) -> Kind
    ensures { result ≡ kind_of (view_ty of_type.now) }
{
    match of_type {
        Ty::Int | Ty::Struct { .. } => Kind::Int,
        Ty::Char => Kind::Char,
        Ty::Pointer { kind, .. } => match kind {
            PointerKind::Nullable => Kind::Nullable,
            PointerKind::NonNull => Kind::NonNull,
            PointerKind::Fat => Kind::Fat,
        },
        Ty::Handle { .. } => Kind::Handle,
        Ty::Key { .. } => Kind::Key,
    }
}

pub(crate) fn truth(holds: bool) -> u32
    ensures { result ≡ truth holds }
{
    if holds { 1 } else { 0 }
}

fn binary_word(operator: Operator, a: u32, b: u32) -> u32
    requires { has_no_result operator b ≡ false }
    ensures { result ≡ binary_word operator a b }
{
    match operator {
        Operator::Or => a | b,
        Operator::Xor => a ^ b,
        Operator::And => a & b,
        Operator::Equal => truth(a == b),
        Operator::NotEqual => truth(!(a == b)),
        Operator::Less => slt(a, b),
        Operator::LessOrEqual => truth(a.cast_signed() <= b.cast_signed()),
        Operator::Greater => slt(b, a),
        Operator::GreaterOrEqual => truth(b.cast_signed() <= a.cast_signed()),
        Operator::ShiftLeft => shl(a, b),
        Operator::ShiftRight => sar(a, b),
        Operator::Add => add(a, b),
        Operator::Subtract => sub(a, b),
        Operator::Multiply => mul(a, b),
        Operator::Divide => div(a, b),
        Operator::Remainder => rem(a, b),
    }
}

fn has_no_result(operator: Operator, b: u32) -> bool
    ensures { result ≡ has_no_result operator b }
{
    match operator {
        Operator::Divide | Operator::Remainder => b == 0,
        _ => false,
    }
}

pub(crate) fn is_zero(value: Value) -> Option<bool>
    ensures { result ≡ is_zero (view_value value) }
{
    match value {
        Value::Int { word } => Some(word == 0),
        Value::Null => Some(true),
        Value::Thin { .. } | Value::Fat { .. } => Some(false),
        Value::Handle { .. } | Value::Key { .. } => None,
    }
}

pub(crate) fn binary_result(operator: Operator, left: Value, right: Value) -> Outcome
    ensures { view_outcome result ≡ binary_result operator (view_value left) (view_value right) }
{
    match (left, right) {
        (Value::Int { word: a }, Value::Int { word: b }) => {
            if has_no_result(operator, b) {
                Outcome::Raises { tag: 4 }
            } else {
                Outcome::Gives {
                    value: Value::Int {
                        word: binary_word(operator, a, b),
                    },
                }
            }
        }
        _ => Outcome::Misfits,
    }
}

pub(crate) fn truth_of(fails: Option<bool>) -> Outcome
    ensures { view_outcome result ≡ truth_of fails }
{
    match fails {
        Some(fails) => Outcome::Gives {
            value: Value::Int {
                word: truth(!fails),
            },
        },
        None => Outcome::Misfits,
    }
}

pub(crate) fn unary_result(operator: UnaryOperator, value: Value) -> Outcome
    ensures { view_outcome result ≡ unary_result operator (view_value value) }
{
    match (operator, value) {
        (UnaryOperator::Not, value) => truth_of_holds(is_zero(value)),
        (UnaryOperator::Negate, Value::Int { word }) => Outcome::Gives {
            value: Value::Int { word: sub(0, word) },
        },
        (UnaryOperator::Complement, Value::Int { word }) => Outcome::Gives {
            value: Value::Int { word: !word },
        },
        (UnaryOperator::Widen, Value::Int { word }) => Outcome::Gives {
            value: Value::Int { word },
        },
        (UnaryOperator::LowByte, Value::Int { word }) => Outcome::Gives {
            value: Value::Int { word: word % 256 },
        },
        _ => Outcome::Misfits,
    }
}

fn truth_of_holds(holds: Option<bool>) -> Outcome
    ensures { view_outcome result ≡ truth_result holds }
{
    match holds {
        Some(holds) => Outcome::Gives {
            value: Value::Int { word: truth(holds) },
        },
        None => Outcome::Misfits,
    }
}

pub(crate) fn unary_kind(operator: UnaryOperator) -> Kind
    ensures { result ≡ unary_kind operator }
{
    match operator {
        UnaryOperator::LowByte => Kind::Char,
        _ => Kind::Int,
    }
}

pub(crate) fn decides(operator: LogicalOperator, fails: bool) -> bool
    ensures { result ≡ decides operator fails }
{
    match operator {
        LogicalOperator::AndThen => fails,
        LogicalOperator::OrElse => !fails,
    }
}
