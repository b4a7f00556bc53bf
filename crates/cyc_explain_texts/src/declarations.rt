//! Explains faults in signatures, and in the initial values of globals.
use crate::lexicon::NO_NAME;
use crate::messages::Message;
use crate::names::{explain_region, is_near};
use crate::teller::Teller;
use crate::written::explain_written;
use cyc_declarations::members;
use cyc_syntax::{
    BaseType, Constructor, Declaration, GlobalValue, Ident, Member, Parameters, WrittenType,
};
use cyc_words::{Code, Span};

/// Explains a fault in the signature of a declaration, or a missing `main`.
pub fn explain_declarations(teller: &mut Teller, declarations: &[Declaration]) {
    explain_no_main(teller, declarations);
    explain_names(teller, declarations, true);
    explain_names(teller, declarations, false);
    for declaration in declarations {
        teller.declared.clear();
        teller.notes.function = NO_NAME;
        explain_head(teller, declaration);
    }
}

/// Explains a missing `main`; if some function has a similar name, the message says so.
fn explain_no_main(teller: &mut Teller, declarations: &[Declaration]) {
    let mut message = Message::MainMissing;
    for declaration in declarations {
        if let Declaration::Function { name, .. } = declaration {
            if is_near(b"main", teller.notes.lexicon.text(name.name.number)) {
                teller.notes.name = name.name.number;
                message = Message::MainNear;
            }
        }
    }
    teller.tell(message, Span { line: 1, column: 1 });
}

/// Explains two structs with equal names, or two globals or functions with equal names.
fn explain_names(teller: &mut Teller, declarations: &[Declaration], is_struct: bool) {
    teller.declared.clear();
    for declaration in declarations {
        match declaration {
            Declaration::Struct { name, .. } if is_struct => teller.declare(*name),
            Declaration::Global { name, .. } | Declaration::Function { name, .. } if !is_struct => {
                teller.declare(*name);
                teller.tell_name(Message::InEachProgram, *name);
            }
            _ => {}
        }
    }
}

/// Explains a fault in the signature of a declaration.
fn explain_head(teller: &mut Teller, declaration: &Declaration) {
    match declaration {
        Declaration::Struct {
            regions,
            fields,
            ..
        } => explain_struct(teller, regions, fields),
        Declaration::Exceptions { constructors } => explain_constructors(teller, constructors),
        Declaration::Global {
            of_type,
            name,
            value,
        } => {
            explain_global(teller, *name, of_type, *value);
            teller.tell(Message::MainVariable, name.span);
        }
        Declaration::Function {
            result,
            name,
            parameters,
            ..
        } => explain_function(teller, *name, result, parameters),
    }
}

fn explain_constructors(teller: &mut Teller, constructors: &[Constructor]) {
    for constructor in constructors {
        teller.declare(constructor.name);
        teller.tell_name(Message::InEachProgram, constructor.name);
    }
}

/// Explains a fault in the region parameters or fields of a struct declaration, but not in the struct's name.
fn explain_struct(teller: &mut Teller, regions: &[Ident], fields: &[Member]) {
    for region in regions {
        teller.declare(*region);
    }
    teller.declared.clear();
    teller.unknown = Message::UnknownInStruct;
    for field in fields {
        if let BaseType::Key { .. } = &field.of_type.base {
            teller.tell(Message::KeyInField, field.of_type.span);
        }
    }
    explain_members(teller, fields);
}

/// Explains a fault in the types or names of struct fields.
fn explain_members(teller: &mut Teller, members: &[Member]) {
    for member in members {
        explain_written(teller, &member.of_type);
        teller.declare(member.name);
    }
}

// ---- functions

/// Explains a fault in a function's signature.
fn explain_function(
    teller: &mut Teller,
    name: Ident,
    returned: &Option<WrittenType>,
    parameters: &Parameters,
) {
    teller.tell(message_on_main(returned, parameters), name.span);
    teller.unknown = Message::UnknownInHead;
    if let Some(written) = returned {
        explain_written(teller, written);
    }
    teller.notes.function = name.name.number;
    explain_members(teller, members(parameters));
    explain_asked(teller, parameters);
}

/// Explains a fault in the region names of a function's effect and constraints.
fn explain_asked(teller: &mut Teller, parameters: &Parameters) {
    for constraint in &parameters.constraints {
        explain_constrained(teller, constraint.longer);
        explain_constrained(teller, constraint.shorter);
    }
    if let Some(effect) = &parameters.effect {
        for region in effect {
            explain_region(teller, *region);
            teller.tell_name(Message::NoEffect, *region);
        }
    }
}

/// Explains a fault in a region name of a constraint.
fn explain_constrained(teller: &mut Teller, region: Ident) {
    explain_region(teller, region);
    teller.tell_name(Message::NoConstraint, region);
}

/// Returns the message about a declaration of `main`, chosen by which of its features (parameters, effect, result type) the rules forbid.
fn message_on_main(returned: &Option<WrittenType>, parameters: &Parameters) -> Message {
    if !members(parameters).is_empty() {
        Message::MainParameters
    } else if matches!(parameters.effect, Some(_)) {
        Message::MainEffect
    } else if matches!(returned, None) {
        Message::MainVoid
    } else {
        Message::MainType
    }
}

// ---- globals

/// Returns the source position of a global's initial value and the message about its type.
fn initial(written: &WrittenType, value: Option<GlobalValue>) -> (Span, Message) {
    match value {
        None => (written.span, Message::FoundNoValue),
        Some(
            GlobalValue::Number { span, .. }
            | GlobalValue::Negative { span, .. }
            | GlobalValue::Character { span, .. },
        ) => (span, Message::FoundInt),
        Some(GlobalValue::Null { span }) => (span, Message::FoundNull),
    }
}

/// Explains a global whose type no global may have, or whose initial value does not have the global's type.
fn explain_global(
    teller: &mut Teller,
    name: Ident,
    written: &WrittenType,
    value: Option<GlobalValue>,
) {
    teller.unknown = match written.base {
        BaseType::Key { .. } => Message::KeyNoGlobal,
        BaseType::Handle { .. } => Message::HandleNoGlobal,
        _ => Message::UnknownInGlobal,
    };
    explain_written(teller, written);
    teller.tell(Message::GlobalType, written.span);
    let (span, found) = initial(written, value);
    if teller.is_fault(Code::TypeMismatch, span) || teller.is_fault(Code::NullForNonNull, span) {
        teller.notes.name = name.name.number;
        teller.say(Message::GlobalWanted);
        teller.words.put_written(&teller.notes.lexicon, written);
        teller.say(found);
    }
}
