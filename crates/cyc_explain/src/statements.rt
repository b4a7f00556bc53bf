//! This file explains faults in which a declaration or statement violates a requirement on its expressions.
use crate::expressions::{explain_key, explain_name, explain_place};
use cyc_check::place_type;
use cyc_explain_texts::messages::Message;
use cyc_explain_texts::names::{Sort, explain_region, explain_unknown};
use cyc_explain_texts::teller::Teller;
use cyc_explain_texts::wanted::explain_content;
use cyc_explain_texts::written::explain_written;
use cyc_operands::span_of;
use cyc_operands::types::{is_unique, region_of as region_of_type};
use cyc_scope::{Meaning, Scope};
use cyc_syntax::{BaseType, Expr, Ident, WrittenType};
use cyc_types::formation::{region_of, type_written};
use cyc_types::typed::Lvalue;
use cyc_types::{Region, Ty};
use cyc_words::{Code, Span};

// ---- statements

/// Explains an exception that is not declared, or that is written with an int although its declaration has none, or without an int
/// although its declaration has one.
pub(crate) fn explain_exception(teller: &mut Teller, scope: &Scope<'_>, exception: Ident) {
    explain_unknown(teller, scope, Sort::Exception, exception);
    if let Some(known) = scope.exception(exception.name.number) {
        let message = if known.has_int {
            Message::IntWithout
        } else {
            Message::IntTooMany
        };
        teller.tell_name(message, exception);
    }
    teller.tell_name(Message::ClauseBefore, exception);
}

/// Returns the result type of the current function, if it has one.
pub(crate) fn result_type(scope: &Scope<'_>) -> Option<Ty> {
    match scope.result_type() {
        Some(of_type) => of_type.share().ok(),
        None => None,
    }
}

/// Explains a `return` without a value, or a `return` with a value in a function without a result.
pub(crate) fn explain_return(teller: &mut Teller, scope: &Scope<'_>, span: Span, has_value: bool) {
    if has_value {
        if matches!(scope.result_type(), None) {
            teller.tell(Message::ValueTooMany, span);
        }
    } else if teller.want_type(result_type(scope)) {
        teller.tell(Message::ValueMissing, span);
    }
}

/// Explains a swap of expressions that are not lvalues, or of lvalues of different types.
pub(crate) fn explain_swap(teller: &mut Teller, scope: &mut Scope<'_>, left: &Expr, right: &Expr) {
    explain_place(teller, scope, left);
    explain_place(teller, scope, right);
    let span = span_of(left);
    if teller.is_fault(Code::TypeMismatch, span) {
        let found = place_type(scope, left);
        if teller.find_type(found) {
            let wanted = place_type(scope, right);
            if teller.want_type(wanted) {
                explain_content(teller, None, span);
                teller.tell(Message::SwappedTypes, span);
            }
        }
    }
}

// ---- items

/// Returns the type that a type written in the program denotes, in which the region `left_out` replaces each omitted region.
pub(crate) fn type_here(scope: &Scope<'_>, written: &WrittenType, left_out: Region) -> Option<Ty> {
    let (structs, names) = (scope.structs(), scope.names());
    type_written(scope.alloc(), structs, names, left_out, written).ok()
}

/// Explains a fault in a type that is written in a function's body.
pub(crate) fn explain_written_here(teller: &mut Teller, scope: &Scope<'_>, written: &WrittenType) {
    explain_written(teller, written);
    if let BaseType::Struct { name, .. } = &written.base {
        explain_unknown(teller, scope, Sort::Struct, *name);
    }
}

/// Explains a fault in a declaration that opens a dynamic region by its key.
pub(crate) fn explain_opened(teller: &mut Teller, scope: &Scope<'_>, region: Ident, key: Ident) {
    teller.notes.other = key.name.number;
    teller.tell_name(Message::KeyOfAnother, region);
    explain_region(teller, region);
    explain_key(teller, scope, key);
}

/// Explains a fault in an alias; the type of an alias is the type of the variable whose object it shares, except for the region.
pub(crate) fn explain_alias(
    teller: &mut Teller,
    scope: &Scope<'_>,
    region: Ident,
    written: &WrittenType,
    source: Ident,
) {
    explain_written_here(teller, scope, written);
    match scope.meaning(source) {
        Meaning::Variable {
            target,
            of_type,
            ..
        } => {
            explain_lent_type(teller, scope, region, written, of_type);
            if let Lvalue::Global { .. } = target {
                teller.tell_name(Message::GlobalLent, source);
            }
            if !is_unique(of_type) && teller.find_type(of_type.share().ok()) {
                teller.tell_name(Message::LentNotUnique, source);
            }
        }
        _ => {
            explain_name(teller, scope, source);
            teller.tell_name(Message::LentNoPointer, source);
        }
    }
}

/// Returns the type of an alias with this region, for a source pointer of this type.
fn type_lent(of_type: &Ty, region: Region) -> Option<Ty> {
    match of_type.share() {
        Ok(Ty::Pointer { kind, target, .. }) => Some(Ty::Pointer {
            kind,
            target,
            region,
        }),
        _ => None,
    }
}

/// Explains a fault in the type of an alias of a unique pointer of this type.
fn explain_lent_type(
    teller: &mut Teller,
    scope: &Scope<'_>,
    region: Ident,
    written: &WrittenType,
    of_type: &Ty,
) {
    let span = written.span;
    if teller.is_fault(Code::TypeMismatch, span) {
        let own = region_of(scope.names(), region);
        if teller.want_type(type_lent(of_type, own)) {
            if teller.find_type(type_here(scope, written, region_of_type(of_type))) {
                teller.tell(Message::AliasType, span);
            }
        }
    }
}
