//! Explains undeclared names, possibly with a similar declared name, and names that are declared twice.
use crate::lexicon::Lexicon;
use crate::messages::Message;
use crate::teller::Teller;
use cyc_scope::{Field, Meaning, Scope};
use cyc_syntax::{Ident, Name};
use cyc_words::Code;

/// The way in which a name is used, such as the name of a struct, of a value or of an exception.
#[derive(Clone, Copy)]
pub enum Sort {
    Value,
    Function,
    Struct,
    Exception,
    /// The name of a field of the struct with this index.
    Field(usize),
}

/// Returns true if a name that is used in this way (as a value, struct, exception, ..) is declared.
fn is_known(scope: &Scope<'_>, sort: Sort, name: Ident) -> bool {
    let number = name.name.number;
    match sort {
        Sort::Value | Sort::Function => !matches!(scope.meaning(name), Meaning::Unknown),
        Sort::Struct => matches!(scope.structs().parameters(number), Some(_)),
        Sort::Exception => matches!(scope.exception(number), Some(_)),
        Sort::Field(of_struct) => is_among(scope.fields(of_struct), number),
    }
}

fn is_among(fields: &[Field], name: usize) -> bool {
    for field in fields {
        if field.name == name {
            return true;
        }
    }
    false
}

/// Returns true if two texts of at least three bytes differ by one edit: a replaced, missing or additional byte, or two exchanged
/// neighbours.
pub fn is_near(a: &[u8], b: &[u8]) -> bool {
    let shortest = a.len().min(b.len());
    let mut from_start = 0usize;
    let mut from_end = 0usize;
    for i in 0..shortest {
        if from_start == i && a[i] == b[i] {
            from_start = i + 1;
        }
        if from_end == i && a[a.len() - 1 - i] == b[b.len() - 1 - i] {
            from_end = i + 1;
        }
    }
    let alike = from_start.saturating_add(from_end);
    let most = if a.len() == b.len() && shortest > 3 {
        2
    } else {
        1
    };
    shortest > 2 && alike.saturating_add(most) >= a.len().max(b.len())
}

/// Returns a declared name that may be used in the same way and has a similar text.
fn near(lexicon: &Lexicon, scope: &Scope<'_>, sort: Sort, name: Ident) -> Option<Ident> {
    let text = lexicon.text(name.name.number);
    for number in 0..lexicon.len() {
        let other = Ident {
            name: Name { number },
            span: name.span,
        };
        if other.name != name.name && is_near(text, lexicon.text(number)) {
            if is_known(scope, sort, other) {
                return Some(other);
            }
        }
    }
    None
}

/// Returns the message about an undeclared name that is used in this way (as a value, struct, exception, ..).
fn message_on_unknown(sort: Sort) -> Message {
    match sort {
        Sort::Value => Message::NoName,
        Sort::Function => Message::NoFunction,
        Sort::Struct => Message::NoStruct,
        Sort::Exception => Message::NoException,
        Sort::Field(_) => Message::NoField,
    }
}

/// Explains the use of an undeclared name.
pub fn explain_unknown(teller: &mut Teller, scope: &Scope<'_>, sort: Sort, name: Ident) {
    if teller.is_fault(Code::UnknownName, name.span) {
        teller.notes.name = name.name.number;
        if let Sort::Field(of_struct) = sort {
            teller.notes.other = teller.notes.lexicon.struct_name(of_struct);
        }
        teller.say(message_on_unknown(sort));
        match near(&teller.notes.lexicon, scope, sort, name) {
            Some(other) => {
                teller.notes.name = other.name.number;
                teller.say(Message::NearName);
            }
            None => say_known(teller, scope, sort, name),
        }
    }
}

/// Writes the names that could replace an undeclared name if the name resembles no declared name.
fn say_known(teller: &mut Teller, scope: &Scope<'_>, sort: Sort, name: Ident) {
    match sort {
        Sort::Value | Sort::Function => {
            let message = near_of_each(&teller.notes.lexicon, name);
            teller.say(message);
        }
        Sort::Field(of_struct) => {
            teller.say(Message::FieldsOf);
            teller
                .words
                .put_fields(&teller.notes.lexicon, scope.fields(of_struct));
        }
        Sort::Struct | Sort::Exception => {}
    }
}

/// Returns a message if the name resembles that of a built-in function, which the program need not mention elsewhere.
fn near_of_each(lexicon: &Lexicon, name: Ident) -> Message {
    let text = lexicon.text(name.name.number);
    if is_near(text, b"putchar") {
        Message::NearPutchar
    } else if is_near(text, b"getchar") {
        Message::NearGetchar
    } else {
        Message::Nothing
    }
}

/// Explains a struct's name that is used as a value.
pub fn explain_struct_name(teller: &mut Teller, scope: &Scope<'_>, name: Ident) {
    if is_known(scope, Sort::Struct, name) {
        teller.tell_name(Message::StructAsValue, name);
    }
}

/// Explains a region declaration whose name another region of the same function already has.
pub fn explain_region_twice(teller: &mut Teller, name: Ident) {
    if teller.is_fault(Code::DeclaredTwice, name.span) {
        explain_own_region(teller, name);
        if let Some(first) = teller.notes.homes.find_named(name.name.number) {
            teller.notes.place = first;
            teller.tell_name(Message::RegionFirstDeclared, name);
        }
        teller.tell_name(Message::RegionOfEach, name);
    }
}

/// Explains a region declaration whose name is the name of its function.
fn explain_own_region(teller: &mut Teller, name: Ident) {
    if teller.notes.function == name.name.number {
        teller.tell_name(Message::RegionOfFunction, name);
    }
}

/// Explains a region name that is not in scope, or that equals the current function's name.
pub fn explain_region(teller: &mut Teller, name: Ident) {
    teller.tell_name(teller.unknown, name);
    explain_own_region(teller, name);
}
