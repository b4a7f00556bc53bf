//! Explains faults in types as written in the source.
use crate::messages::Message;
use crate::names::explain_region;
use crate::teller::Teller;
use cyc_syntax::{BaseType, Ident, PointerKind, WrittenType};
use cyc_words::Code;

/// Explains a struct type with a wrong number of region arguments.
fn explain_number(teller: &mut Teller, name: Ident, found: usize) {
    if let Some(count) = teller.notes.lexicon.region_count(name) {
        if found > 0 && found != count {
            teller.notes.name = name.name.number;
            teller.say_count(Message::RegionCount, count, found);
        }
    }
}

/// Explains why a type as written in the source is not allowed: no value can have it.
fn explain_shape(teller: &mut Teller, written: &WrittenType) {
    match &written.base {
        BaseType::Int | BaseType::Char | BaseType::Handle { .. } => {}
        BaseType::Key { .. } => {
            if !written.marks.is_empty() {
                teller.tell(Message::PointerToKey, written.span);
            }
        }
        BaseType::Struct { name, regions } => {
            explain_number(teller, *name, regions.len());
            if !matches!(written.marks.first(), Some(mark) if mark.kind != PointerKind::Fat) {
                teller.notes.name = name.name.number;
                teller.tell(Message::StructAlone, written.span);
            }
        }
    }
}

/// Explains a fault in the region arguments of a struct.
pub fn explain_arguments(teller: &mut Teller, regions: &[Ident]) {
    for region in regions {
        explain_region(teller, *region);
        teller.tell_name(Message::NoArgument, *region);
    }
}

/// Explains a fault in a region that a written type names before its pointer signs (`*`, `@` or `?`).
fn explain_base(teller: &mut Teller, base: &BaseType) {
    match base {
        BaseType::Int | BaseType::Char => {}
        BaseType::Struct { regions, .. } => explain_arguments(teller, regions),
        BaseType::Handle { region } => {
            explain_region(teller, *region);
            teller.tell_name(Message::NoHandle, *region);
        }
        BaseType::Key { region } => {
            explain_region(teller, *region);
            teller.tell_name(Message::AlwaysOpen, *region);
        }
    }
}

/// Explains a fault in a type as written in the source.
pub fn explain_written(teller: &mut Teller, written: &WrittenType) {
    explain_base(teller, &written.base);
    for mark in &written.marks {
        if let Some(region) = mark.region {
            explain_region(teller, region);
        }
    }
    if teller.is_fault(Code::TypeMismatch, written.span) {
        explain_shape(teller, written);
    }
}
