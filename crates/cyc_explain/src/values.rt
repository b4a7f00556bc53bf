//! This file explains why a value may not be used in its role, such as assigned value or call argument.
use crate::calls::explain_call;
use crate::statements::{result_type, type_here};
use crate::types::find;
use cyc_check::place_type;
use cyc_explain_texts::conversions::explain_conversion;
use cyc_explain_texts::forms::Role;
use cyc_explain_texts::messages::Message;
use cyc_explain_texts::objects::{field_name, field_type};
use cyc_explain_texts::teller::Teller;
use cyc_explain_texts::wanted::explain_found;
use cyc_explain_texts::words::{Notes, given};
use cyc_operands::{Given, span_of};
use cyc_scope::Scope;
use cyc_syntax::{Declaration, Expr, Ident, Postfix, PrefixOperator};
use cyc_types::{Region, Ty};
use cyc_words::Span;

/// Returns the region that the type of a local with this initial value gets if the type omits the region.
fn left_out_of(value: Given<'_>) -> Region {
    match value {
        Given::Value(Ty::Pointer { region, .. }) => *region,
        _ => Region::Heap,
    }
}

/// Returns the type to which a value is converted, if the checker could find this type in spite of the fault.
fn type_wanted(scope: &mut Scope<'_>, role: &Role<'_>, found: Given<'_>) -> Option<Ty> {
    match role {
        Role::Operand(_) | Role::Argument(..) => None,
        Role::Assigned(target) => place_type(scope, target),
        Role::Local(_, written) => type_here(scope, written, left_out_of(found)),
        Role::Returned => result_type(scope),
        Role::Field(name, regions, number) => field_type(scope, *name, regions, *number),
    }
}

/// Explains why the value of an expression may not be used in the given role, such as assigned value or call argument.
pub(crate) fn explain_value(
    teller: &mut Teller,
    scope: &mut Scope<'_>,
    declarations: &[Declaration],
    expression: &Expr,
    role: &Role<'_>,
) {
    let span = span_of(expression);
    if role.is_asked() && teller.is_at(span) {
        if find(teller, scope, expression, role.is_looked_at()) {
            match role {
                Role::Operand(wanted) => explain_found(teller, scope, *wanted, span),
                Role::Argument(function, arguments, number) => {
                    let argument = Some((*number, span));
                    explain_call(teller, scope, declarations, *function, arguments, argument);
                }
                _ => explain_converted(teller, scope, role, span),
            }
        }
    }
}

/// Explains a fault in the conversion of the value at this source position to a type.
fn explain_converted(teller: &mut Teller, scope: &mut Scope<'_>, role: &Role<'_>, span: Span) {
    let wanted = type_wanted(scope, role, given(&teller.notes.found));
    if teller.want_type(wanted) {
        let lead = note_target(&mut teller.notes, scope, role);
        explain_conversion(teller, scope, span, lead);
    }
}

/// Returns the message that tells for which purpose a value is used, and records the names that the message contains.
fn note_target(notes: &mut Notes, scope: &Scope<'_>, role: &Role<'_>) -> Message {
    match role {
        Role::Local(name, _) => {
            notes.name = name.name.number;
            Message::LocalType
        }
        Role::Assigned(target) => note_assigned(notes, target),
        Role::Returned => Message::ResultType,
        Role::Field(name, _, number) => {
            notes.other = name.name.number;
            notes.name = field_name(scope, *name, *number);
            Message::FieldType
        }
        _ => Message::OtherType,
    }
}

/// Returns the message about a value assigned to this lvalue, and records the names that the message contains.
fn note_assigned(notes: &mut Notes, target: &Expr) -> Message {
    match target {
        Expr::Bracketed { inner, .. } => note_assigned(notes, inner),
        Expr::Variable { name } => note_name(notes, Some(*name), Message::VariableType),
        Expr::Chained { base, postfixes } => match postfixes.last() {
            Some(Postfix::Field { name }) => {
                note_name(notes, Some(*name), Message::FieldAssigned)
            }
            _ => note_name(notes, only_name(base, postfixes), Message::ElementAssigned),
        },
        Expr::Prefixed {
            operator: PrefixOperator::Dereference,
            operand,
            ..
        } => note_name(notes, only_name(operand, &[]), Message::TargetAssigned),
        _ => Message::OtherType,
    }
}

/// Returns the name of a variable with at most one postfix operator.
fn only_name(base: &Expr, postfixes: &[Postfix]) -> Option<Ident> {
    match base {
        Expr::Variable { name } if postfixes.len() < 2 => Some(*name),
        _ => None,
    }
}

/// Records, for the explanation, the name to which a message refers, and returns the message; if there is no
/// name, returns the empty message `Nothing`.
fn note_name(notes: &mut Notes, name: Option<Ident>, message: Message) -> Message {
    match name {
        Some(name) => {
            notes.name = name.name.number;
            message
        }
        None => Message::OtherType,
    }
}
