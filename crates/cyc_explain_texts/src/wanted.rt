//! A requirement on a single value, such as an operand, and the message about its violation.
use crate::conversions::explain_closed;
use crate::homes::{Home, Origin};
use crate::messages::Message;
use crate::teller::Teller;
use crate::words::{Notes, given};
use cyc_operands::Given;
use cyc_operands::types::is_struct;
use cyc_scope::Scope;
use cyc_syntax::{BinaryOperator, Ident, PointerKind, PrefixOperator};
use cyc_types::Ty;
use cyc_words::{Code, Span};

#[derive(Clone, Copy)]
pub enum Wanted {
    /// The value has no requirement of its own: either there is none, or the requirement also depends on other values or types.
    Nothing,
    /// The value must have a type, because it initialises an object made by `new`.
    Content,
    Int,
    /// The value is the operand of a unary minus.
    Negated,
    /// The value is a right operand of an addition.
    Added,
    /// The value is an operand of a subtraction, or of a comparison by order (such as `<`).
    Measured,
    /// The value is tested for zero or null.
    Tested,
    /// The value is compared for equality.
    Compared,
    /// The value is an operand that must be an int, or a fat pointer on which pointer arithmetic is performed.
    Moved,
    Pointer,
    Fat,
    /// The value must be a thin pointer to a struct, because a field of the struct is accessed.
    Members,
    /// The expression must be a unique pointer, because it is freed.
    Freed,
    Handle,
}

/// Returns true if a value is an int, or a char, which is used as an int.
fn is_number(given: Given<'_>) -> bool {
    given.is_int() || given.is_char()
}

fn is_fat(given: Given<'_>) -> bool {
    matches!(
        given,
        Given::Value(Ty::Pointer {
            kind: PointerKind::Fat,
            ..
        })
    )
}

fn has_members(given: Given<'_>) -> bool {
    match given {
        Given::Value(Ty::Pointer { kind, target, .. }) => {
            *kind != PointerKind::Fat && is_struct(target)
        }
        _ => false,
    }
}

impl Wanted {
    /// Returns the message about a value that violates this requirement.
    fn message(self) -> Message {
        match self {
            Wanted::Nothing => Message::Nothing,
            Wanted::Content => Message::NoContent,
            Wanted::Int | Wanted::Negated | Wanted::Added | Wanted::Measured => Message::NoInt,
            Wanted::Tested | Wanted::Compared => Message::NotTested,
            Wanted::Moved => Message::NotMoved,
            Wanted::Pointer => Message::NoPointer,
            Wanted::Fat => Message::NotFat,
            Wanted::Members => Message::NoMembers,
            Wanted::Freed => Message::NotFreed,
            Wanted::Handle => Message::NoHandleFound,
        }
    }

    /// Returns the advice about a value that violates this requirement, if there is any.
    fn advice(self, given: Given<'_>) -> Message {
        match (self, given) {
            (_, Given::Void) => Message::VoidUsed,
            (Wanted::Content, Given::Null) => Message::NullAsContent,
            (Wanted::Tested, Given::Null) => Message::NullTested,
            (Wanted::Handle, _) if given.is_key() => Message::OpenKey,
            _ if given.is_pointer() => self.advice_on_pointer(given),
            _ if is_number(given) => self.advice_on_number(),
            _ => Message::Nothing,
        }
    }

    fn advice_on_number(self) -> Message {
        match self {
            Wanted::Pointer => Message::NoStar,
            Wanted::Members => Message::NoArrow,
            Wanted::Fat => Message::NoElements,
            _ => Message::Nothing,
        }
    }

    fn advice_on_pointer(self, given: Given<'_>) -> Message {
        match self {
            Wanted::Fat => Message::ElementsOfFat,
            Wanted::Moved => Message::FatMoves,
            Wanted::Measured => Message::NoOrder,
            Wanted::Int => Message::TargetWanted,
            Wanted::Negated => Message::NoSign,
            Wanted::Added => Message::NoSum,
            Wanted::Members if is_fat(given) => Message::ElementFirst,
            _ => Message::Nothing,
        }
    }

    /// Returns true if an operator with this requirement only examines its operand, so that a unique pointer is not moved.
    pub fn is_looked_at(self) -> bool {
        matches!(
            self,
            Wanted::Tested | Wanted::Compared | Wanted::Pointer | Wanted::Fat | Wanted::Members
        )
    }

    /// Returns true if a value of the given type satisfies this requirement.
    fn allows(self, given: Given<'_>) -> bool {
        match self {
            Wanted::Nothing => true,
            Wanted::Content => given.is_value(),
            Wanted::Int | Wanted::Negated | Wanted::Added | Wanted::Measured => is_number(given),
            Wanted::Tested => is_number(given) || given.is_pointer(),
            Wanted::Compared => {
                is_number(given) || given.is_pointer() || matches!(given, Given::Null)
            }
            Wanted::Moved => is_number(given) || is_fat(given) && !given.is_unique(),
            Wanted::Pointer => given.is_pointer(),
            Wanted::Fat => is_fat(given),
            Wanted::Members => has_members(given),
            Wanted::Freed => !given.is_void(),
            Wanted::Handle => given.is_handle(),
        }
    }
}

/// Returns the requirement of a prefix operator on its operand.
pub fn wanted_of(operator: PrefixOperator) -> Wanted {
    match operator {
        PrefixOperator::Negate => Wanted::Negated,
        PrefixOperator::Complement => Wanted::Int,
        PrefixOperator::Not => Wanted::Tested,
        PrefixOperator::Dereference => Wanted::Pointer,
        PrefixOperator::AddressOf => Wanted::Nothing,
    }
}

/// Returns the requirements of an operator on its left and right operands.
pub fn wanted_by(operator: BinaryOperator) -> (Wanted, Wanted) {
    match operator {
        BinaryOperator::OrElse | BinaryOperator::AndThen => (Wanted::Tested, Wanted::Tested),
        BinaryOperator::Equal | BinaryOperator::NotEqual => (Wanted::Compared, Wanted::Compared),
        BinaryOperator::Add => (Wanted::Moved, Wanted::Added),
        BinaryOperator::Subtract => (Wanted::Moved, Wanted::Measured),
        BinaryOperator::Less
        | BinaryOperator::LessOrEqual
        | BinaryOperator::Greater
        | BinaryOperator::GreaterOrEqual => (Wanted::Measured, Wanted::Measured),
        _ => (Wanted::Int, Wanted::Int),
    }
}

/// Returns the message about a freed pointer that is not unique, or about a key that is stored in an object.
fn misused(teller: &Teller, wanted: Wanted) -> Message {
    match wanted {
        Wanted::Freed => {
            let region = given(&teller.notes.found).region();
            match teller.notes.homes.find(region) {
                Some(
                    Home {
                        origin: Origin::Alias,
                        ..
                    },
                ) => Message::FreedAlias,
                _ => Message::FreedNotUnique,
            }
        }
        _ => Message::KeyInObject,
    }
}

/// Explains a value at the given source position whose type violates a requirement, or whose region is not live.
pub fn explain_found(teller: &mut Teller, scope: &Scope<'_>, wanted: Wanted, span: Span) {
    let found = given(&teller.notes.found);
    if teller.is_fault(Code::TypeMismatch, span) && !wanted.allows(found) {
        let advice = wanted.advice(found);
        teller.notes.regions.0 = found.region();
        teller.say(wanted.message());
        teller.say(advice);
    }
    teller.tell(misused(teller, wanted), span);
    explain_closed(teller, scope, span);
}

/// Explains a memory cell that is read as a whole although it holds a struct or a unique pointer. If the cell is a field, `field` is the
/// field's name.
pub fn explain_content(teller: &mut Teller, field: Option<Ident>, span: Span) {
    let found = given(&teller.notes.found);
    let is_struct = matches!(found, Given::Value(Ty::Struct { .. }));
    let is_unique = found.is_unique() || found.is_key();
    if is_struct {
        teller.tell(Message::StructRead, span);
    }
    if is_unique {
        let message = message_on_unique(&mut teller.notes, field);
        teller.tell(message, span);
    }
}

/// Returns the message about a unique pointer that may not be read from its memory cell. If the cell is a
/// field, `field` is the field's name.
fn message_on_unique(notes: &mut Notes, field: Option<Ident>) -> Message {
    match field {
        Some(name) => {
            notes.name = name.name.number;
            Message::FieldStays
        }
        None => Message::UniqueStays,
    }
}
