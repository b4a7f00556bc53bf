//! Decides where the values of expressions are: constants, slots of locals, or temporaries.
ghost use Rattle.std.specs.Prelude.{◌≡◌, ◌+◌, ◌≤◌, IfOk, option_map, unwrap_or};
ghost use Rattle.cyc_types.specs.TypedTreeView.{view_dereference, view_expression, operations_of};
ghost use Rattle.cyc_types.specs.Types.{Value};
ghost use Rattle.cyc_types.specs.TypedTrees.{type_of_place};
ghost use Rattle.cyc_types.specs.TypeView.{view_ty, view_value_type};
ghost use Rattle.cyc_meaning.specs.Parts.{target_of, target_of_value};
ghost use Rattle.cyc_meaning.specs.Values.{is_thin, kind_of, words_of_kind, bytes_of_kind};
ghost use Rattle.cyc_lower_proof.specs.inside.ValueCode.{kind_after, reached_operand, span_in, span_of, is_in, index_of, masks, keeps_words};
ghost use Rattle.cyc_lower_proof.specs.inside.ValueCode.{converts_there, variable_bytes};
ghost use Rattle.cyc_lower_proof.specs.inside.ExpressionCode.{are_simple, is_simple, operand_of, pointer_of, value_slot};
ghost use Rattle.cyc_lower_proof.specs.inside.Lowering.{is_light_place, is_light, is_light_comparison, compares_light, is_guard};
ghost use Rattle.cyc_lower.specs.inside.Emission.{is_simple_chain, most_locals, takes_operand, view_starts};

use crate::locals::slot_of;
use crate::operators::failing_comparison;
use crate::starts::Starts;
use cyc_plain::Operand;
use cyc_sizes::words_of_kind;
use cyc_store::HEAP;
use cyc_syntax::PointerKind;
use cyc_types::Ty;
use cyc_types::typed::{
    Dereference, Expr, Kind, Lvalue, Operation, Operator, UnaryOperator, ValueType,
};
use std::alloc::AllocError;

/// The greatest slot index that the lowering of a function accepts.
pub(crate) const MOST_SLOTS: usize = 4_294_967_000;

/// Returns the operand of an expression that needs no code: a number, null, the heap's handle, a local, or an enclosing array's loop
/// counter. A char that is used as an int keeps its operand.
pub(crate) fn operand_of(starts: &Starts, value: &Expr) -> Option<Operand>
    ensures { result ≡ operand_of (view_starts starts.now) (view_expression value.now) }
{
    match value {
        Expr::Number { value } => Some(Operand::Word { word: *value }),
        Expr::NullPointer => Some(Operand::Word { word: 0 }),
        Expr::HeapRegion => Some(Operand::Word { word: HEAP }),
        Expr::Copy { source, .. } => match *source {
            Lvalue::Local { number, .. } => Some(Operand::Slot {
                number: slot_of(starts, number),
            }),
            Lvalue::Global { .. } => None,
        },
        Expr::Move { number, .. } | Expr::Peek { number, .. } => Some(Operand::Slot {
            number: slot_of(starts, *number),
        }),
        Expr::Counter { level, .. } => match starts.counters.get(*level) {
            Some(slot) => Some(Operand::Slot { number: *slot }),
            None => None,
        },
        Expr::Unary {
            operator: UnaryOperator::Widen,
            operand,
        } => operand_of(starts, operand),
        _ => None,
    }
}

/// Returns the slot for the value of an expression: the slot of the assigned local if the expression is an assignment, otherwise `free`.
pub(crate) fn value_slot(starts: &Starts, value: &Expr, free: usize) -> usize
    ensures { result ≡ value_slot (view_starts starts.now) (view_expression value.now) free }
{
    match value {
        Expr::Assign { target, .. } => match *target {
            Lvalue::Local { number, .. } => slot_of(starts, number),
            Lvalue::Global { .. } => free,
        },
        Expr::Unary {
            operator: UnaryOperator::Widen,
            operand,
        } => value_slot(starts, operand, free),
        _ => free,
    }
}

/// Returns true if no right operand of all these operators needs code.
fn are_simple(starts: &Starts, operations: &[Operation]) -> bool
    ensures { result ≡ are_simple (view_starts starts.now) (operations_of operations.now) }
{
    for operation in operations {
        let simple = match operation {
            Operation::Compute { operand, .. } => operand_of(starts, operand).is_some(),
            _ => false,
        };
        if !simple {
            return false;
        }
    }
    true
}

/// Returns true if a chain of these operators is simple (evaluated without side effects), provided that its first operand is.
fn is_simple_chain(starts: &Starts, rest: &[Operation]) -> bool
    ensures { result ≡ is_simple_chain (view_starts starts.now) (operations_of rest.now) }
{
    match rest.first() {
        Some(Operation::Compute { .. }) => are_simple(starts, rest),
        _ => false,
    }
}

/// Returns true if an expression is simple: its evaluation has no side effect. A simple expression needs no code, or consists of
/// operators on operands without code; the first operand of a chain may itself be simple.
pub(crate) fn is_simple(starts: &Starts, value: &Expr) -> bool
    ensures { result ≡ is_simple (view_starts starts.now) (view_expression value.now) }
{
    match value {
        Expr::Unary { operand, .. } => operand_of(starts, operand).is_some(),
        Expr::Binary { first, rest, .. } => is_simple(starts, first)
            && is_simple_chain(starts, rest),
        _ => operand_of(starts, value).is_some(),
    }
}

/// Returns true if a memory access is light: it accesses an element at an index without side effects, through a pointer that needs no code.
fn is_light_place(starts: &Starts, place: &Dereference) -> bool
    ensures { result ≡ is_light_place (view_starts starts.now) (view_dereference place.now) }
{
    match place {
        Dereference::Element { pointer, index, .. } => operand_of(starts, pointer).is_some()
            && is_simple(starts, index),
        Dereference::Target { .. } | Dereference::Member { .. } => false,
    }
}

/// Returns true if an expression is light: its evaluation has no side effects, or it loads an element at an index without side
/// effects through a pointer that needs no code.
fn is_light(starts: &Starts, value: &Expr) -> bool
    ensures { result ≡ is_light (view_starts starts.now) (view_expression value.now) }
{
    match value {
        Expr::Load { source } => is_light_place(starts, source),
        Expr::Unary {
            operator: UnaryOperator::Widen,
            operand,
        } => is_light(starts, operand),
        _ => is_simple(starts, value),
    }
}

/// Returns true if an operator compares two light expressions, which are simple enough to be emitted twice.
fn is_light_comparison(starts: &Starts, operator: Operator, left: &Expr, right: &Expr) -> bool
    ensures { result ≡ is_light_comparison (view_starts starts.now) operator (view_expression left.now) (view_expression right.now) }
{
    failing_comparison(operator).is_some() && is_light(starts, left) && is_light(starts, right)
}

/// Returns true if a chain is a comparison of light operands (simple enough to be emitted twice) that a branch can perform.
fn compares_light(starts: &Starts, first: &Expr, rest: &[Operation]) -> bool
    ensures { result ≡ compares_light (view_starts starts.now) (view_expression first.now) (operations_of rest.now) }
{
    if rest.len() != 1 {
        return false;
    }
    match rest.first() {
        Some(
            Operation::Compute {
                operator,
                operand,
                ..
            },
        ) => is_light_comparison(starts, *operator, first, operand),
        _ => false,
    }
}

/// Returns true if a condition is light enough to be emitted twice.
pub(crate) fn is_guard(starts: &Starts, condition: &Expr) -> bool
    ensures { result ≡ is_guard (view_starts starts.now) (view_expression condition.now) }
{
    match condition {
        Expr::Unary {
            operator: UnaryOperator::Not,
            operand,
        } => is_guard(starts, operand),
        Expr::Binary { first, rest, .. } => is_simple(starts, condition)
            || compares_light(starts, first, rest),
        _ => is_light(starts, condition),
    }
}

/// Returns the operand of a fat pointer while its index is evaluated. The pointer stays in its local if evaluating the index has no
/// side effect, since then no code in between can assign the local.
pub(crate) fn pointer_of(starts: &Starts, pointer: &Expr, index: &Expr) -> Option<Operand>
    ensures { result ≡ pointer_of (view_starts starts.now) (view_expression pointer.now) (view_expression index.now) }
{
    if is_simple(starts, index) {
        return operand_of(starts, pointer);
    }
    None
}

/// Returns the operand of the cell address that an access through a fat pointer has computed. If the pointer refers to a
/// struct, this address is the first word of the pointer.
pub(crate) fn reached_operand(span: Option<usize>, first: usize, slot: usize) -> Operand
    ensures { result ≡ reached_operand span first slot }
{
    match span {
        None => Operand::Slot { number: first },
        Some(_) => Operand::Slot { number: slot },
    }
}

/// Returns true if the first of these operators has a simple right operand, whose evaluation has no side effect.
pub(crate) fn takes_operand(starts: &Starts, operations: &[Operation]) -> bool
    ensures { result ≡ takes_operand (view_starts starts.now) (operations_of operations.now) }
{
    match operations.first() {
        Some(Operation::Compute { operand, .. }) => is_simple(starts, operand),
        _ => false,
    }
}

/// Returns true if a conversion keeps only the low byte of an int.
pub(crate) fn masks(from: Kind, to: Kind) -> bool
    ensures { result ≡ masks from to }
{
    match (from, to) {
        (Kind::Int, Kind::Char) => true,
        _ => false,
    }
}

/// Returns true if a conversion does not change the machine words of a value.
pub(crate) fn keeps_words(from: Kind, to: Kind) -> bool
    ensures { result ≡ keeps_words from to }
{
    words_of_kind(from) == words_of_kind(to) && !masks(from, to)
}

/// Returns true if a value may be moved to its destination before its conversion.
pub(crate) fn converts_there(from: Kind, to: Kind) -> bool
    ensures { result ≡ converts_there from to }
{
    match to {
        Kind::NonNull => false,
        Kind::Int | Kind::Char | Kind::Nullable | Kind::Fat | Kind::Handle | Kind::Key =>
            words_of_kind(from) == words_of_kind(to),
    }
}

/// Returns true if a value of this representation kind is a thin pointer (of one word).
pub(crate) fn is_thin(kind: Kind) -> bool
    ensures { result ≡ is_thin kind }
{
    match kind {
        Kind::Nullable | Kind::NonNull => true,
        Kind::Int | Kind::Char | Kind::Fat | Kind::Handle | Kind::Key => false,
    }
}

/// Returns the representation kind (int, char, pointer, ..) of a cell, which is memory for one value of this type. No cell has a struct
/// type.
pub(crate) fn kind_of(of_type: &Ty) -> Kind
    ensures { result ≡ kind_of (view_ty of_type.now) }
{
    match of_type {
        Ty::Int | Ty::Struct { .. } => Kind::Int,
        Ty::Char => Kind::Char,
        Ty::Pointer { kind, .. } => match kind {
            PointerKind::Nullable => Kind::Nullable,
            PointerKind::NonNull => Kind::NonNull,
            PointerKind::Fat => Kind::Fat,
        },
        Ty::Handle { .. } => Kind::Handle,
        Ty::Key { .. } => Kind::Key,
    }
}

/// Returns the number of bytes of a cell of this representation kind.
pub(crate) fn bytes_of_kind(kind: Kind) -> usize
    ensures bytes { result ≡ bytes_of_kind kind }
    ensures few { result ≤ 12 }
{
    match kind {
        Kind::Int | Kind::Nullable | Kind::NonNull | Kind::Handle | Kind::Key => 4,
        Kind::Char => 1,
        Kind::Fat => 12,
    }
}

/// Returns the number of bytes of a cell of a type, unless the type is a struct.
pub(crate) fn span_in(of_type: &Ty) -> Option<usize>
    ensures { result ≡ span_in (view_ty of_type.now) }
{
    match of_type {
        Ty::Int | Ty::Handle { .. } | Ty::Key { .. } => Some(4),
        Ty::Char => Some(1),
        Ty::Pointer { kind, .. } => match kind {
            PointerKind::Fat => Some(12),
            PointerKind::Nullable | PointerKind::NonNull => Some(4),
        },
        Ty::Struct { .. } => None,
    }
}

/// Returns the number of bytes of the cells to which a pointer of this type refers, unless they are structs.
fn span_after(of_type: &Ty) -> Option<usize>
    ensures { result ≡ option_map bytes_of_kind (target_of_value (Value (view_ty of_type.now))) }
{
    match of_type {
        Ty::Pointer { target, .. } => span_in(target),
        Ty::Int | Ty::Char | Ty::Handle { .. } | Ty::Key { .. } | Ty::Struct { .. } => None,
    }
}

/// Returns the representation kind (int, char, pointer, ..) of a variable of this type; for a struct, the kind of ints.
fn kind_in(of_type: &Ty) -> Kind
    ensures { result ≡ unwrap_or (target_of (view_ty of_type.now)) Kind.Int }
{
    match of_type {
        Ty::Int | Ty::Struct { .. } => Kind::Int,
        Ty::Char => Kind::Char,
        Ty::Pointer { kind, .. } => match kind {
            PointerKind::Nullable => Kind::Nullable,
            PointerKind::NonNull => Kind::NonNull,
            PointerKind::Fat => Kind::Fat,
        },
        Ty::Handle { .. } => Kind::Handle,
        Ty::Key { .. } => Kind::Key,
    }
}

/// Returns the representation kind (int, char, pointer, ..) of the variable that a value of this type points to.
pub(crate) fn kind_after(of_type: &Ty) -> Kind
    ensures { result ≡ kind_after (view_ty of_type.now) }
{
    match of_type {
        Ty::Pointer { target, .. } => kind_in(target),
        Ty::Int | Ty::Char | Ty::Handle { .. } | Ty::Key { .. } | Ty::Struct { .. } => Kind::Int,
    }
}

/// Returns the representation kind (int, char, pointer, ..) of the value to which a dereferenced pointer refers.
pub(crate) fn kind_at(place: &Dereference) -> Kind
    ensures { result ≡ kind_of (type_of_place (view_dereference place.now)) }
{
    match place {
        Dereference::Target { of_type, .. }
        | Dereference::Member { of_type, .. }
        | Dereference::Element { of_type, .. } => kind_of(of_type),
    }
}

/// Returns the number of bytes that precede a variable in its words: a char is the last byte of its word.
pub(crate) fn variable_bytes(kind: Kind) -> u32
    ensures { result ≡ variable_bytes kind }
{
    match kind {
        Kind::Char => 3,
        Kind::Int | Kind::Nullable | Kind::NonNull | Kind::Fat | Kind::Handle | Kind::Key => 0,
    }
}

/// Returns the number of bytes of the cell to which a dereferenced pointer refers, unless it is a struct.
fn span_at(place: &Dereference) -> Option<usize>
    ensures { result ≡ option_map bytes_of_kind (target_of_value (Value (type_of_place (view_dereference place.now)))) }
{
    match place {
        Dereference::Target { of_type, .. }
        | Dereference::Member { of_type, .. }
        | Dereference::Element { of_type, .. } => span_after(of_type),
    }
}

/// Returns the number of bytes of the cells to which a value of this type refers, if it is a pointer.
fn span_given(of_type: &ValueType) -> Option<usize>
    ensures { result ≡ option_map bytes_of_kind (target_of_value (view_value_type of_type.now)) }
{
    match of_type {
        ValueType::Void | ValueType::Null => None,
        ValueType::Value { of_type } => span_after(of_type),
    }
}

/// Returns the number of bytes of the cells that the value of an expression points to.
pub(crate) fn span_of(value: &Expr) -> Option<usize>
    ensures { result ≡ span_of (view_expression value.now) }
{
    match value {
        Expr::Copy { of_type, .. }
        | Expr::Move { of_type, .. }
        | Expr::Peek { of_type, .. }
        | Expr::AddressOf { of_type, .. }
        | Expr::AddressOfCell { of_type, .. }
        | Expr::Binary { of_type, .. }
        | Expr::New { of_type, .. } => span_after(of_type),
        Expr::Load { source } => span_at(source),
        Expr::Call { result, .. } | Expr::Assign { result, .. } | Expr::Store { result, .. } => {
            span_given(result)
        }
        Expr::Number { .. }
        | Expr::NullPointer
        | Expr::HeapRegion
        | Expr::Counter { .. }
        | Expr::NumberOfElements { .. }
        | Expr::FreeUnique { .. }
        | Expr::FreeKey { .. }
        | Expr::Unary { .. } => None,
    }
}

/// Returns the slot after a value of the given representation kind. Slot indices fit a machine word.
pub(crate) fn slot_after(slot: usize, kind: Kind) -> Result<usize, AllocError>
    ensures { IfOk result (λ following. (following ≡ slot + words_of_kind kind) × (following ≤ most_locals)) }
{
    if slot > MOST_SLOTS {
        return Err(AllocError);
    }
    Ok(slot + words_of_kind(kind))
}

/// Returns the operand of a fat pointer's third word, which is its index.
pub(crate) fn index_of(pointer: Operand) -> Result<Operand, AllocError>
    ensures { IfOk result (λ index. index ≡ index_of pointer) }
{
    match pointer {
        Operand::Slot { number } => {
            let following = slot_after(number, Kind::Fat)?;
            Ok(Operand::Slot {
                number: following - 1,
            })
        }
        Operand::Word { .. } => Ok(pointer),
    }
}

/// Returns true if the operand is this slot.
pub(crate) fn is_in(source: Operand, slot: usize) -> bool
    ensures { result ≡ is_in source slot }
{
    match source {
        Operand::Slot { number } => number == slot,
        Operand::Word { .. } => false,
    }
}
