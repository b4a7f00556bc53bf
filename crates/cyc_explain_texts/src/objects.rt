//! Explains violated requirements on the values of a new struct.
use crate::lexicon::NO_NAME;
use crate::messages::Message;
use crate::names::{Sort, explain_unknown};
use crate::teller::Teller;
use crate::written::explain_arguments;
use cyc_scope::Scope;
use cyc_syntax::{Ident, Initial};
use cyc_types::Ty;
use cyc_types::formation::arguments_or;
use cyc_words::Code;
use std::mem::ManuallyDrop;

/// Explains a violated requirement on the initial value after `new`, except the requirements on its subexpressions.
pub fn explain_made(teller: &mut Teller, scope: &Scope<'_>, initial: &Initial) {
    if let Initial::Fields {
        name,
        regions,
        values,
    } = initial
    {
        explain_unknown(teller, scope, Sort::Struct, *name);
        explain_arguments(teller, regions);
        if teller.is_fault(Code::TypeMismatch, name.span) {
            explain_counts(teller, scope, *name, regions.len(), values.len());
        }
    }
}

/// Explains a new struct with a wrong number of region arguments or of values.
fn explain_counts(
    teller: &mut Teller,
    scope: &Scope<'_>,
    name: Ident,
    regions: usize,
    values: usize,
) {
    if let Some(count) = scope.structs().parameters(name.name.number) {
        let number = scope.structs().number(name.name.number);
        let wanted = scope.fields(number).len();
        teller.notes.name = name.name.number;
        if regions > 0 && regions != count {
            teller.say_count(Message::RegionCount, count, regions);
        } else if wanted != values {
            teller.say_count(Message::ValueCount, wanted, values);
            teller.say(Message::ValuesOf);
            teller
                .words
                .put_fields(&teller.notes.lexicon, scope.fields(number));
        }
    }
}

/// Returns the index of a field's name in the lexicon, from the name of the struct and the field's index.
pub fn field_name(scope: &Scope<'_>, name: Ident, number: usize) -> usize {
    match scope
        .fields(scope.structs().number(name.name.number))
        .get(number)
    {
        Some(field) => field.name,
        None => NO_NAME,
    }
}

/// Returns the type of a field, from the struct's name and region arguments and the field's index.
pub fn field_type(scope: &Scope<'_>, name: Ident, regions: &[Ident], number: usize) -> Option<Ty> {
    let of_struct = scope.structs().number(name.name.number);
    let count = scope.structs().parameters(name.name.number);
    match (count, scope.fields(of_struct).get(number)) {
        (Some(count), Some(field)) => {
            let alloc = scope.alloc();
            let arguments = ManuallyDrop::new(arguments_or(alloc, scope.names(), count, regions));
            match &*arguments {
                Ok(arguments) => field.of_type.substituted(alloc, arguments).ok(),
                Err(_) => None,
            }
        }
        _ => None,
    }
}
