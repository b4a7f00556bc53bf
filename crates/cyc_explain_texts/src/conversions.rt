//! Explains values that cannot be converted to a type, and regions that are not live or do not outlive each other.
use crate::homes::{Home, Homes, Origin};
use crate::lexicon::NO_NAME;
use crate::messages::Message;
use crate::teller::Teller;
use crate::words::{Notes, given};
use cyc_operands::{Given, convert};
use cyc_scope::{Scope, Settled};
use cyc_types::typed::ValueType;
use cyc_types::{Region, Ty};
use cyc_words::{Code, Span};

// ---- regions that are not live

/// Returns the source position of the last block end before the fault, among blocks that open the dynamic region with the given name.
fn last_end(teller: &Teller, name: usize) -> Option<Span> {
    let mut last = None;
    for ending in &teller.endings {
        if ending.name == name && teller.is_from(ending.span) {
            last = Some(ending.span);
        }
    }
    last
}

/// Writes the reason why a region is not live.
pub fn say_closed(teller: &mut Teller, region: Region) {
    teller.notes.regions.0 = region;
    match teller.notes.homes.find(region) {
        Some(
            Home {
                origin: Origin::Caller,
                name,
                ..
            },
        ) => {
            teller.say(Message::NotInEffect);
            teller.say(match name {
                Some(_) => Message::AddToEffect,
                None => Message::NameForEffect,
            });
        }
        Some(
            Home {
                origin: Origin::Dynamic,
                name: Some(name),
                span,
            },
        ) => {
            teller.notes.place = span;
            teller.say(Message::NotOpen);
            if let Some(end) = last_end(teller, name) {
                teller.notes.place = end;
                teller.say(Message::OpenBefore);
            }
            teller.say(Message::OpenAgain);
        }
        _ => teller.say(Message::NotLive),
    }
}

/// Explains a pointer or a handle at the given source position whose region is not live.
pub fn explain_closed(teller: &mut Teller, scope: &Scope<'_>, span: Span) {
    let region = given(&teller.notes.found).region();
    if teller.is_fault(Code::RegionNotLive, span) && !scope.is_live(region) {
        teller.say(Message::ClosedRegion);
        say_closed(teller, region);
    }
}

// ---- regions that do not outlive others

/// Returns the message that tells where a region comes from, such as a block or the caller. The result is `None` for a region
/// without a name or of unknown origin.
fn beginning_of(region: Region, home: Option<Home>) -> Option<Message> {
    match home {
        Some(home) => match home.origin {
            _ if matches!(home.name, None) => None,
            Origin::Caller => Some(Message::FromCaller),
            Origin::Block | Origin::Item | Origin::Alias => Some(Message::BeginsAt),
            Origin::Dynamic => Some(Message::DynamicAt),
        },
        None => match region {
            Region::Heap => Some(Message::HeapLives),
            Region::Unique => Some(Message::UniqueApart),
            Region::Variable(_) => None,
        },
    }
}

/// Writes, after the message `mark` that introduces it, where a region comes from. Returns true if it is known where the region comes from.
fn say_beginning(teller: &mut Teller, mark: Message, region: Region) -> bool {
    let home = teller.notes.homes.find(region);
    let beginning = beginning_of(region, home);
    if let Some(home) = home {
        teller.notes.place = home.span;
    }
    match beginning {
        Some(beginning) => {
            teller.notes.regions.0 = region;
            teller.say(mark);
            teller.say(beginning);
            true
        }
        None => false,
    }
}

/// Writes, on a separate line, that `region` does not outlive `other`, where each of these regions begins, and then the advice.
pub fn say_shorter(teller: &mut Teller, region: Region, other: Region) {
    teller.notes.regions = (region, other);
    teller.say(Message::NotOutlived);
    let is_begun = say_beginning(teller, Message::FirstBeginning, region);
    if region != other {
        let mark = if is_begun {
            Message::NextBeginning
        } else {
            Message::FirstBeginning
        };
        say_beginning(teller, mark, other);
    }
    teller.notes.regions = (region, other);
    if other == Region::Unique {
        teller.say(Message::MakeUnique);
    } else if region == Region::Unique {
        teller.say(Message::LendUnique);
    }
    if let Some(home) = teller.notes.homes.find(region) {
        let other_home = teller.notes.homes.find(other);
        let advice = match (
            advice_on_regions(home, other, other_home),
            teller.notes.lead,
        ) {
            (Message::CallerToHeap, Message::ResultType) => Message::CallerToResult,
            (advice, _) => advice,
        };
        teller.say(advice);
    }
}

/// Returns the advice about a region of the current function that does not outlive the region `other`.
fn advice_on_regions(home: Home, other: Region, other_home: Option<Home>) -> Message {
    match other {
        Region::Unique => Message::Nothing,
        Region::Heap => match home.origin {
            Origin::Caller => Message::CallerToHeap,
            Origin::Block => Message::LocalToHeap,
            Origin::Item | Origin::Alias | Origin::Dynamic => Message::RegionToHeap,
        },
        Region::Variable(_) => match other_home {
            Some(other) => advice_between(home, other),
            None => Message::Nothing,
        },
    }
}

/// Returns the advice about two regions of the current function, the first of which does not outlive the second.
fn advice_between(home: Home, other: Home) -> Message {
    match (home.origin, other.origin) {
        (_, Origin::Dynamic) => Message::DynamicEnds,
        (Origin::Caller, _) => match (home.name, other.name) {
            (Some(_), Some(_)) => Message::NamedByCaller,
            _ => Message::LeftOutByCaller,
        },
        (Origin::Block, _) => Message::LocalToRegion,
        (Origin::Item | Origin::Alias | Origin::Dynamic, _) => Message::RegionToRegion,
    }
}

// ---- conversions

/// Returns true if two types are equal when their regions are ignored.
fn has_shape(of_type: &Ty, wanted: &Ty) -> bool {
    match (of_type, wanted) {
        (Ty::Int, Ty::Int)
        | (Ty::Char, Ty::Char)
        | (Ty::Handle { .. }, Ty::Handle { .. })
        | (Ty::Key { .. }, Ty::Key { .. }) => true,
        (
            Ty::Pointer { kind, target, .. },
            Ty::Pointer {
                kind: wanted_kind,
                target: wanted_target,
                ..
            },
        ) => *kind == *wanted_kind && has_shape(target, wanted_target),
        (
            Ty::Struct { number, .. },
            Ty::Struct {
                number: wanted_number,
                ..
            },
        ) => *number == *wanted_number,
        _ => false,
    }
}

/// Returns a second message, after the one about the conversion, about a value whose type differs from the required type.
fn more_on(given: Given<'_>, wanted: &Ty) -> Message {
    match (given, wanted) {
        (Given::Void, _) => Message::VoidUsed,
        (Given::Value(Ty::Pointer { .. }), Ty::Int | Ty::Char) => Message::TargetWanted,
        (
            Given::Value(Ty::Pointer { target, .. }),
            Ty::Pointer {
                target: wanted_target,
                ..
            },
        ) => more_on_targets(target, wanted_target),
        (Given::Int | Given::Char | Given::Value(Ty::Int | Ty::Char), Ty::Pointer { .. }) => {
            Message::NullWanted
        }
        (Given::Null, Ty::Int | Ty::Char) => Message::ZeroWanted,
        _ => Message::Nothing,
    }
}

/// Returns a second message, after the first, about pointers with different target types. The pointer kinds (`*`, `@` or `?`) of the
/// outer pointer types do not matter, because only the targets cannot be converted.
fn more_on_targets(target: &Ty, wanted: &Ty) -> Message {
    match (target, wanted) {
        _ if has_shape(target, wanted) => Message::OtherRegions,
        (Ty::Int, Ty::Char) => Message::BytesWanted,
        (Ty::Char, Ty::Int) => Message::IntsWanted,
        (Ty::Int | Ty::Char, _) => Message::Nothing,
        (Ty::Pointer { target, .. }, _) if has_shape(target, wanted) => Message::OneTooFar,
        _ => Message::OtherTarget,
    }
}

/// Returns true if each region of a type has a name.
fn has_names(homes: &Homes, of_type: &Ty) -> bool {
    match of_type {
        Ty::Int | Ty::Char => true,
        Ty::Pointer { target, region, .. } => {
            is_named(homes, *region) && has_names(homes, target)
        }
        Ty::Struct { regions, .. } => are_named(homes, regions),
        Ty::Handle { region } | Ty::Key { region } => is_named(homes, *region),
    }
}

fn are_named(homes: &Homes, regions: &[Region]) -> bool {
    for region in regions {
        if !is_named(homes, *region) {
            return false;
        }
    }
    true
}

fn is_named(homes: &Homes, region: Region) -> bool {
    match (region, homes.find(region)) {
        (Region::Variable(_), Some(home)) => matches!(home.name, Some(_)),
        (Region::Variable(_), None) => false,
        _ => true,
    }
}

/// Returns the message with advice about a value whose type differs from the required type. The advice is chosen by the
/// messages that explain the difference: the first message `lead` and, if there is one, the second message `more`.
fn better(notes: &Notes, lead: Message, more: Message) -> Message {
    match more {
        Message::OtherRegions | Message::OtherTarget => better_on_regions(notes, lead, more),
        Message::BytesWanted if notes.is_new => Message::NewBytes,
        Message::TargetWanted if notes.is_new => better_on_made(lead),
        Message::NullWanted => better_on_null(notes, lead),
        _ => more,
    }
}

/// Returns the index of the struct that a pointer value points to.
fn struct_after(value: &Option<ValueType>) -> Option<usize> {
    match value {
        Some(
            ValueType::Value {
                of_type: Ty::Pointer { target, .. },
            },
        ) => struct_of(target),
        _ => None,
    }
}

/// Returns true if a newly made struct, with only the heap as region arguments, is used where a pointer to a struct is required.
/// Also returns true if the value for a field of a new struct points to a struct of the same name.
fn is_of_new(notes: &Notes, lead: Message) -> bool {
    match lead {
        Message::FieldType => struct_after(&notes.found).is_some_and(|number| notes
            .lexicon
            .struct_name(number)
            == notes.other),
        _ => notes.is_new && struct_after(&notes.wanted).is_some() && is_of_heap(&notes.found),
    }
}

/// Returns true if a pointer points to a struct whose region arguments are all the heap, as they are when the source omits them.
fn is_of_heap(value: &Option<ValueType>) -> bool {
    match value {
        Some(
            ValueType::Value {
                of_type: Ty::Pointer { target, .. },
            },
        ) => has_heap_alone(target),
        _ => false,
    }
}

fn has_heap_alone(of_type: &Ty) -> bool {
    match of_type {
        Ty::Struct { regions, .. } => are_heap(regions),
        _ => false,
    }
}

fn are_heap(regions: &[Region]) -> bool {
    for region in regions {
        if *region != Region::Heap {
            return false;
        }
    }
    true
}

/// Returns the index of the struct if the type is a struct type.
fn struct_of(of_type: &Ty) -> Option<usize> {
    match of_type {
        Ty::Struct { number, .. } => Some(*number),
        _ => None,
    }
}

/// Returns true if both types are pointer types, of any pointer kind (`*`, `@` or `?`), whose targets are equal when regions are ignored.
fn lead_alike(of_type: &Ty, wanted: &Ty) -> bool {
    match (of_type, wanted) {
        (
            Ty::Pointer { target, .. },
            Ty::Pointer {
                target: wanted_target,
                ..
            },
        ) => has_shape(target, wanted_target),
        _ => false,
    }
}

/// Returns true if the targets of the found and the required type are pointers that differ only in their pointer kinds (`*`, `@` or `?`).
fn is_of_other_mark(notes: &Notes) -> bool {
    match (&notes.found, &notes.wanted) {
        (
            Some(
                ValueType::Value {
                    of_type: Ty::Pointer { target, .. },
                },
            ),
            Some(
                ValueType::Value {
                    of_type: Ty::Pointer {
                        target: wanted_target,
                        ..
                    },
                },
            ),
        ) => lead_alike(target, wanted_target),
        _ => false,
    }
}

/// Returns the advice about pointer types whose targets, or whose regions inside the targets, differ.
fn better_on_regions(notes: &Notes, lead: Message, more: Message) -> Message {
    let is_written = match &notes.found {
        Some(ValueType::Value { of_type }) => has_names(&notes.homes, of_type),
        _ => false,
    };
    match (lead, more) {
        (Message::ArgumentType, Message::OtherRegions) => Message::RegionsOfParameter,
        (_, Message::OtherRegions) if is_of_new(notes, lead) => Message::RegionsOfNew,
        (_, Message::OtherTarget) if !is_written => Message::TargetNamed,
        _ if !is_written && notes.variable == NO_NAME => Message::TargetNamed,
        _ if !is_written => more,
        (Message::LocalType | Message::VariableType, Message::OtherRegions) => {
            Message::RegionsOfVariable
        }
        (Message::LocalType | Message::VariableType, _) if notes.is_new => Message::TargetOfNew,
        (Message::LocalType | Message::VariableType, _) => Message::TargetOfVariable,
        (Message::ArgumentType, _) if is_of_other_mark(notes) => Message::TargetOfParameter,
        (Message::ResultType, Message::OtherRegions) => Message::RegionsOfResult,
        (Message::ResultType, _) if is_of_other_mark(notes) => Message::TargetOfResult,
        _ => more,
    }
}

/// Returns the advice about an object made by `new` that is used as an int.
fn better_on_made(lead: Message) -> Message {
    match lead {
        Message::LocalType | Message::VariableType => Message::PointerMade,
        _ => Message::TargetWanted,
    }
}

/// Returns the advice about an int that is used as a pointer.
fn better_on_null(notes: &Notes, lead: Message) -> Message {
    match lead {
        Message::VariableType => Message::ThroughWanted,
        _ if notes.variable == NO_NAME => Message::NullWanted,
        _ => Message::AddressWanted,
    }
}

/// Returns the code of the typing rule that converting the found type to the required type violates, with a further message about these
/// types.
fn broken(notes: &Notes, scope: &Scope<'_>, span: Span) -> Option<(Code, Message)> {
    if let Some(ValueType::Value { of_type }) = &notes.wanted {
        let found = given(&notes.found);
        let mut settled = Settled::new();
        convert(&mut settled, scope, found, of_type, span);
        if let Some(fault) = settled.known {
            return Some((fault.code, more_on(found, of_type)));
        }
    }
    None
}

/// Explains a value whose type cannot be converted to the required type. The message `lead` tells for which purpose the value is used.
pub fn explain_conversion(teller: &mut Teller, scope: &Scope<'_>, span: Span, lead: Message) {
    if let Some((code, more)) = broken(&teller.notes, scope, span) {
        if teller.is_fault(code, span) {
            let more = better(&teller.notes, lead, more);
            teller.notes.lead = lead;
            if code == Code::NotOutlived {
                teller.say(Message::MayOutlive);
            }
            teller.say(lead);
            match code {
                Code::TypeMismatch => teller.say(more),
                Code::NotOutlived => {
                    let region = given(&teller.notes.found).region();
                    let other = given(&teller.notes.wanted).region();
                    say_shorter(teller, region, other);
                }
                _ => {}
            }
        }
    }
}
