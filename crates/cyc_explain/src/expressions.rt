//! This file explains faults in which an expression violates a requirement on its subexpressions.
use crate::types::find;
use cyc_check::value_type;
use cyc_explain_texts::messages::Message;
use cyc_explain_texts::names::{Sort, explain_struct_name, explain_unknown};
use cyc_explain_texts::teller::Teller;
use cyc_explain_texts::wanted::{Wanted, explain_content, explain_found, wanted_by};
use cyc_explain_texts::words::given;
use cyc_operands::{is_looking, span_inside, span_of};
use cyc_scope::{Meaning, Scope};
use cyc_syntax::{BinaryOperator, Expr, Ident, Operation, Postfix, PrefixOperator};
use cyc_types::Ty;
use cyc_types::typed::{Lvalue, ValueType};
use cyc_words::{Code, Span};

// ---- names and places

/// Explains the fault at a name that denotes no value, or at a variable whose value may not be read there.
pub(crate) fn explain_name(teller: &mut Teller, scope: &Scope<'_>, name: Ident) {
    match scope.meaning(name) {
        Meaning::Unknown => {
            explain_struct_name(teller, scope, name);
            explain_unknown(teller, scope, Sort::Value, name);
        }
        Meaning::Routine { .. } => teller.tell_name(Message::FunctionRead, name),
        Meaning::Variable {
            target: Lvalue::Global { .. },
            ..
        } => teller.tell_name(Message::GlobalStays, name),
        _ => {}
    }
}

/// Explains a name that is used as a key but does not denote a key.
pub(crate) fn explain_key(teller: &mut Teller, scope: &Scope<'_>, name: Ident) {
    explain_name(teller, scope, name);
    let of_type = match scope.meaning(name) {
        Meaning::Variable { of_type, .. } | Meaning::Fixed { of_type, .. } => of_type.share().ok(),
        _ => Some(Ty::Int),
    };
    if teller.find_type(of_type) && !given(&teller.notes.found).is_key() {
        teller.tell_name(Message::NoKey, name);
    }
}

/// Explains the fault that an expression is not an lvalue although an lvalue is required.
pub(crate) fn explain_place(teller: &mut Teller, scope: &Scope<'_>, expression: &Expr) {
    let span = span_of(expression);
    if teller.is_fault(Code::NotAPlace, span) {
        let mut message = message_on_value(expression);
        if let Some(name) = root_of(expression) {
            teller.notes.name = name.name.number;
            message = message_on_place(scope.meaning(name));
        } else if let Some(function) = called(expression) {
            teller.notes.name = function.name.number;
        }
        teller.tell(message, span);
    }
}

/// Returns the reason why an expression that accesses no variable is not an lvalue.
fn message_on_value(expression: &Expr) -> Message {
    match expression {
        Expr::Bracketed { inner, .. } => message_on_value(inner),
        Expr::Call { .. } => Message::ResultAssigned,
        Expr::Binary { .. } | Expr::Prefixed { .. } => Message::OperationAssigned,
        _ => Message::NoAddress,
    }
}

/// Returns the name of the function that an expression calls, if the expression is a call.
fn called(expression: &Expr) -> Option<Ident> {
    match expression {
        Expr::Bracketed { inner, .. } => called(inner),
        Expr::Call { function, .. } => Some(*function),
        _ => None,
    }
}

/// Returns the reason why a name with this meaning is not an lvalue.
fn message_on_place(meaning: Meaning<'_>) -> Message {
    match meaning {
        Meaning::Fixed { .. } => Message::HandleAssigned,
        Meaning::Counter { .. } => Message::CounterAssigned,
        _ => Message::FunctionAssigned,
    }
}

/// Returns the variable that an lvalue denotes, or from which the lvalue is reached through pointers and fields.
fn root_of(expression: &Expr) -> Option<Ident> {
    match expression {
        Expr::Variable { name } => Some(*name),
        Expr::Bracketed { inner, .. } => root_of(inner),
        Expr::Chained { base, .. } => root_of(base),
        Expr::Prefixed {
            operator: PrefixOperator::Dereference,
            operand,
            ..
        } => root_of(operand),
        _ => None,
    }
}

/// Explains the fault that the address of an lvalue is taken although this is not allowed.
pub(crate) fn explain_address(teller: &mut Teller, scope: &Scope<'_>, operand: &Expr) {
    let span = span_inside(operand);
    explain_place(teller, scope, operand);
    teller.tell(Message::KeyAddress, span);
    if let Some(name) = root_of(operand) {
        teller.notes.name = name.name.number;
        teller.tell(Message::AddressKept, span);
    }
}

/// Explains a fault in reading the target of a pointer at this source position.
pub(crate) fn explain_target(
    teller: &mut Teller,
    scope: &mut Scope<'_>,
    span: Span,
    pointer: &Expr,
) {
    if teller.is_at(span) && find(teller, scope, pointer, true) {
        explain_after(teller, scope, span, None);
    }
}

// ---- targets of pointers

/// Returns the target type of a pointer.
fn target_of(value: &Option<ValueType>) -> Option<&Ty> {
    match value {
        Some(
            ValueType::Value {
                of_type: Ty::Pointer { target, .. },
            },
        ) => Some(target),
        _ => None,
    }
}

/// Returns the type of the field with this name, if the type is a struct with such a field.
fn type_of_field(scope: &Scope<'_>, of_type: &Ty, name: Ident) -> Option<Ty> {
    if let Ty::Struct { number, regions } = of_type {
        for field in scope.fields(*number) {
            if field.name == name.name.number {
                return field.of_type.substituted(scope.alloc(), regions).ok();
            }
        }
    }
    None
}

/// Returns the type of a pointer's target, or of the target's field with this name.
fn type_after(scope: &Scope<'_>, pointer: &Option<ValueType>, field: Option<Ident>) -> Option<Ty> {
    let target = target_of(pointer)?;
    match field {
        Some(name) => type_of_field(scope, target, name),
        None => target.share().ok(),
    }
}

/// Continues from the pointer type found so far to the type of its target, or of a field of the target. Explains a fault in reading this
/// target or field.
fn explain_after(teller: &mut Teller, scope: &Scope<'_>, start: Span, field: Option<Ident>) {
    let following = type_after(scope, &teller.notes.found, field);
    if teller.find_type(following) {
        explain_content(teller, field, start);
    }
}

// ---- postfixes

/// Returns the field that a postfix operator names; an index names no field.
fn field_of(postfix: &Postfix) -> Option<Ident> {
    match postfix {
        Postfix::Field { name } => Some(*name),
        Postfix::Index { .. } => None,
    }
}

/// Explains violated requirements of the postfix operators (fields and indices) after an operand, in the order of the text.
pub(crate) fn explain_chain(
    teller: &mut Teller,
    scope: &mut Scope<'_>,
    base: &Expr,
    postfixes: &[Postfix],
) {
    let start = span_of(base);
    if is_in_chain(teller, start, postfixes) {
        find(teller, scope, base, true);
        for postfix in postfixes {
            if matches!(teller.notes.found, Some(_)) {
                explain_postfix(teller, scope, start, field_of(postfix));
            }
        }
    }
}

/// Returns true if the fault is at the beginning of an operand with postfix operators, or at the name of a field in one of these operators.
fn is_in_chain(teller: &Teller, start: Span, postfixes: &[Postfix]) -> bool {
    let mut is_here = teller.is_at(start);
    for postfix in postfixes {
        if let Some(name) = field_of(postfix) {
            is_here = is_here || teller.is_at(name.span);
        }
    }
    is_here
}

/// Explains a violated requirement of a postfix operator (a field or an index) on the pointer to its left and on the pointer's
/// target. The type of the target, or of its field, then becomes the type from which the next operator continues.
fn explain_postfix(teller: &mut Teller, scope: &Scope<'_>, start: Span, field: Option<Ident>) {
    match field {
        Some(name) => {
            explain_found(teller, scope, Wanted::Members, start);
            explain_field_name(teller, scope, name);
        }
        None => explain_found(teller, scope, Wanted::Fat, start),
    }
    explain_after(teller, scope, start, field);
}

/// Explains the use of a field that the pointer's struct does not have.
fn explain_field_name(teller: &mut Teller, scope: &Scope<'_>, name: Ident) {
    let number = match target_of(&teller.notes.found) {
        Some(Ty::Struct { number, .. }) => *number,
        _ => return,
    };
    explain_unknown(teller, scope, Sort::Field(number), name);
}

// ---- binary operators

/// Explains violated requirements of each operator in a chain of binary operators on the value to its left. The result of each
/// operator is an int, except that of a sum with a pointer.
pub(crate) fn explain_binary(
    teller: &mut Teller,
    scope: &mut Scope<'_>,
    first: &Expr,
    operations: &[Operation],
) {
    let span = span_of(first);
    let is_seen = matches!(operations.first(), Some(operation) if is_looking(operation.operator));
    if teller.is_at(span) && find(teller, scope, first, is_seen) {
        for operation in operations {
            explain_operation(teller, scope, span, operation);
        }
    }
}

/// Explains a violated requirement of an operation on its left operand, in a chain of binary operators that begins at this
/// source position. The result type of the operation then becomes the type of the next operation's left operand.
fn explain_operation(
    teller: &mut Teller,
    scope: &mut Scope<'_>,
    span: Span,
    operation: &Operation,
) {
    let operator = operation.operator;
    explain_found(teller, scope, wanted_by(operator).0, span);
    if matches!(operator, BinaryOperator::Equal | BinaryOperator::NotEqual) {
        teller.notes.wanted = value_type(scope, &operation.operand, true);
        explain_compared(teller, span);
    }
    if !matches!(operator, BinaryOperator::Add | BinaryOperator::Subtract) {
        teller.find_type(Some(Ty::Int));
    }
}

fn is_null(found: &Option<ValueType>) -> bool {
    matches!(found, Some(ValueType::Null))
}

/// Explains two values that cannot be compared, if the checker could find the types of both in spite of the fault.
fn explain_compared(teller: &mut Teller, span: Span) {
    if matches!(teller.notes.wanted, Some(_)) {
        let is_left = given(&teller.notes.found).is_pointer();
        let is_right = given(&teller.notes.wanted).is_pointer();
        let advice = if is_left && is_right {
            Message::FatCompared
        } else if is_left || is_right {
            Message::NullCompared
        } else if is_null(&teller.notes.found) || is_null(&teller.notes.wanted) {
            Message::ZeroWanted
        } else {
            Message::NoComparison
        };
        if teller.is_fault(Code::TypeMismatch, span) {
            teller.say(Message::NotCompared);
            teller.say(advice);
        }
    }
}
