//! What the operators compute of pointers, and where a pointer leads.

ghost use Rattle.std.specs.Prelude.{◌≡◌};
ghost use Rattle.cyc_words.specs.Word.{add_of, sub_of};
ghost use Rattle.cyc_meaning.specs.Pointers.{moved, element_count, null_test, pointer_result, result_kind, takes_kind, followed};
ghost use Rattle.cyc_meaning.specs.Values.{is_thin};
ghost use Rattle.cyc_meaning.specs.Conversion.{conversion, thinned};
ghost use Rattle.cyc_interpret.specs.WorldView.{view_value, view_outcome, view_reach};

use crate::operators::{is_kind, truth};
use crate::value::{Outcome, Part, Reach, Value};
use cyc_types::typed::{Kind, PointerOperator};
use cyc_words::{add, sub};

/// A pointer whose index is moved forwards.
fn moved_by(value: Value, count: u32) -> Outcome
    ensures { view_outcome result ≡ moved (λ index. add_of index count) (view_value value) }
{
    match value {
        Value::Null => Outcome::Gives { value: Value::Null },
        Value::Fat { part } => Outcome::Gives {
            value: Value::Fat {
                part: Part {
                    object: part.object,
                    start: part.start,
                    count: part.count,
                    index: add(part.index, count),
                },
            },
        },
        _ => Outcome::Misfits,
    }
}

/// A pointer whose index is moved backwards.
fn moved_back_by(value: Value, count: u32) -> Outcome
    ensures { view_outcome result ≡ moved (λ index. sub_of index count) (view_value value) }
{
    match value {
        Value::Null => Outcome::Gives { value: Value::Null },
        Value::Fat { part } => Outcome::Gives {
            value: Value::Fat {
                part: Part {
                    object: part.object,
                    start: part.start,
                    count: part.count,
                    index: sub(part.index, count),
                },
            },
        },
        _ => Outcome::Misfits,
    }
}

/// The number of elements from the index on.
pub(crate) fn element_count(value: Value) -> Outcome
    ensures { view_outcome result ≡ element_count (view_value value) }
{
    match value {
        Value::Null => Outcome::Gives {
            value: Value::Int { word: 0 },
        },
        Value::Fat { part } => {
            let word = if part.index <= part.count {
                part.count - part.index
            } else {
                0
            };
            Outcome::Gives {
                value: Value::Int { word },
            }
        }
        _ => Outcome::Misfits,
    }
}

fn null_test(negated: bool, value: Value) -> Outcome
    ensures { view_outcome result ≡ null_test negated (view_value value) }
{
    match value {
        Value::Null => Outcome::Gives {
            value: Value::Int {
                word: truth(!negated),
            },
        },
        Value::Thin { .. } | Value::Fat { .. } => Outcome::Gives {
            value: Value::Int {
                word: truth(negated),
            },
        },
        _ => Outcome::Misfits,
    }
}

pub(crate) fn pointer_result(operator: PointerOperator, left: Value, right: Value) -> Outcome
    ensures { view_outcome result ≡ pointer_result operator (view_value left) (view_value right) }
{
    match operator {
        PointerOperator::AddFat => match right {
            Value::Int { word } => moved_by(left, word),
            _ => Outcome::Misfits,
        },
        PointerOperator::SubtractFat => match right {
            Value::Int { word } => moved_back_by(left, word),
            _ => Outcome::Misfits,
        },
        PointerOperator::ThinIsNull | PointerOperator::FatIsNull => match right {
            Value::Null => null_test(false, left),
            _ => Outcome::Misfits,
        },
        PointerOperator::ThinIsNotNull | PointerOperator::FatIsNotNull => match right {
            Value::Null => null_test(true, left),
            _ => Outcome::Misfits,
        },
        PointerOperator::NullIs => match left {
            Value::Null => null_test(false, right),
            _ => Outcome::Misfits,
        },
        PointerOperator::NullIsNot => match left {
            Value::Null => null_test(true, right),
            _ => Outcome::Misfits,
        },
        PointerOperator::EqualThin | PointerOperator::NotEqualThin => Outcome::Misfits,
    }
}

/// The kind of what an operator gives.
pub(crate) fn result_kind(operator: PointerOperator) -> Kind
    ensures { result ≡ result_kind operator }
{
    match operator {
        PointerOperator::AddFat | PointerOperator::SubtractFat => Kind::Fat,
        _ => Kind::Int,
    }
}

fn is_thin(kind: Kind) -> bool
    ensures { result ≡ is_thin kind }
{
    match kind {
        Kind::Nullable | Kind::NonNull => true,
        _ => false,
    }
}

/// Returns true if an operator takes a left operand of a kind.
pub(crate) fn takes_kind(operator: PointerOperator, kind: Kind) -> bool
    ensures { result ≡ takes_kind operator kind }
{
    match operator {
        PointerOperator::AddFat
        | PointerOperator::SubtractFat
        | PointerOperator::FatIsNull
        | PointerOperator::FatIsNotNull => { is_kind(kind, Kind::Fat) }
        _ => is_thin(kind),
    }
}

/// The cell that a pointer leads to.
pub(crate) fn followed(value: Value) -> Reach
    ensures { view_reach result ≡ followed (view_value value) }
{
    match value {
        Value::Null => Reach::Stops { tag: 1 },
        Value::Thin { object, offset } => Reach::At { object, offset },
        Value::Fat { part } => {
            if part.index < part.count {
                Reach::At {
                    object: part.object,
                    offset: part.start + part.index as usize,
                }
            } else {
                Reach::Stops { tag: 2 }
            }
        }
        _ => Reach::Nowhere,
    }
}

/// The cell that a fat pointer stands at.
fn thinned(part: Part) -> Outcome
    ensures { view_outcome result ≡ thinned part.object part.start part.count part.index }
{
    if part.index < part.count {
        Outcome::Gives {
            value: Value::Thin {
                object: part.object,
                offset: part.start + part.index as usize,
            },
        }
    } else {
        Outcome::Raises { tag: 2 }
    }
}

/// The value that a value becomes in a cell of a kind.
pub(crate) fn conversion(to: Kind, value: Value) -> Outcome
    ensures { view_outcome result ≡ conversion to (view_value value) }
{
    match to {
        Kind::Int => match value {
            Value::Int { word } => Outcome::Gives {
                value: Value::Int { word },
            },
            _ => Outcome::Misfits,
        },
        Kind::Char => match value {
            Value::Int { word } => Outcome::Gives {
                value: Value::Int { word: word % 256 },
            },
            _ => Outcome::Misfits,
        },
        Kind::Nullable => match value {
            Value::Null => Outcome::Gives { value: Value::Null },
            Value::Thin { object, offset } => Outcome::Gives {
                value: Value::Thin { object, offset },
            },
            Value::Fat { part } => thinned(part),
            _ => Outcome::Misfits,
        },
        Kind::NonNull => match value {
            Value::Null => Outcome::Raises { tag: 1 },
            Value::Thin { object, offset } => Outcome::Gives {
                value: Value::Thin { object, offset },
            },
            Value::Fat { part } => thinned(part),
            _ => Outcome::Misfits,
        },
        Kind::Fat => match value {
            Value::Null => Outcome::Gives { value: Value::Null },
            Value::Thin { object, offset } => Outcome::Gives {
                value: Value::Fat {
                    part: Part {
                        object,
                        start: offset,
                        count: 1,
                        index: 0,
                    },
                },
            },
            Value::Fat { part } => Outcome::Gives {
                value: Value::Fat { part },
            },
            _ => Outcome::Misfits,
        },
        Kind::Handle => match value {
            Value::Handle { region } => Outcome::Gives {
                value: Value::Handle { region },
            },
            _ => Outcome::Misfits,
        },
        Kind::Key => match value {
            Value::Key { region } => Outcome::Gives {
                value: Value::Key { region },
            },
            _ => Outcome::Misfits,
        },
    }
}
