//! The writer of explanations of faults. The teller writes only once, at the fault; the values of placeholders in its messages are
//! recorded before.
use crate::explanation::Explanation;
use crate::homes::Homes;
use crate::lexicon::{Lexicon, NO_NAME};
use crate::messages::{Message, code_of};
use crate::words::{Notes, Words};
use cyc_syntax::{Ident, Tree};
use cyc_types::typed::ValueType;
use cyc_types::{Region, Ty};
use cyc_words::{Code, Fault, Span};
use std::alloc::Global;
use std::mem::replace;

/// The end of a block that opens the dynamic region with this name.
#[derive(Clone, Copy)]
pub struct Ending {
    pub name: usize,
    pub span: Span,
}

/// The lines of an explanation, and the values of its placeholders.
#[derive(Drop)]
pub struct Teller {
    pub alloc: Global,
    pub fault: Fault,
    pub notes: Notes,
    /// The message about a region name that is not in scope.
    pub unknown: Message,
    /// The source positions of the ends of the blocks that open a dynamic region.
    pub endings: Vec<Ending>,
    pub words: Words,
    /// The names declared so far in the current scope, used to find a second declaration.
    pub declared: Vec<Ident>,
    /// True if memory never ran out while the explanation was written, so that it is complete.
    pub is_whole: bool,
}

impl Teller {
    pub fn new(alloc: Global, tree: &Tree, fault: Fault) -> Teller {
        let region = Region::Heap;
        Teller {
            alloc,
            fault,
            notes: Notes {
                lexicon: Lexicon::of(alloc, tree),
                function: NO_NAME,
                homes: Homes::new(alloc),
                theirs: Homes::new(alloc),
                name: NO_NAME,
                other: NO_NAME,
                place: Span { line: 0, column: 0 },
                found: None,
                lead: Message::OtherType,
                variable: NO_NAME,
                is_new: false,
                wanted: None,
                regions: (region, region),
                their_regions: (region, region),
                counts: (0, 0),
            },
            unknown: Message::UnknownInHead,
            endings: Vec::new(alloc),
            declared: Vec::new(alloc),
            words: Words {
                bytes: Vec::new(alloc),
                stand_in: b"",
                room: usize::MAX,
                is_cut: false,
                place: None,
                is_whole: true,
            },
            is_whole: true,
        }
    }

    /// Returns the explanation that the `Teller` has written and removes it from the `Teller`. The result is
    /// `None` if nothing was written, or if memory ran out.
    pub fn take_words(&mut self) -> Option<Explanation> {
        let is_known = self.notes.lexicon.is_whole && self.notes.homes.is_whole;
        let is_said = self.words.is_whole && !self.words.bytes.is_empty();
        if self.is_whole && is_known && self.notes.theirs.is_whole && is_said {
            let empty = Vec::new(self.alloc);
            Some(Explanation {
                lines: replace(&mut self.words.bytes, empty),
                place: self.words.place,
            })
        } else {
            None
        }
    }

    // ---- the fault

    /// Returns true if the fault is at the given source position and is not explained yet.
    pub fn is_at(&self, span: Span) -> bool {
        self.fault.line == span.line
            && self.fault.column == span.column
            && self.words.bytes.is_empty()
    }

    /// Returns true if the fault has the given code, is at the given source position and is not explained yet.
    pub fn is_fault(&self, code: Code, span: Span) -> bool {
        self.fault.code == code && self.is_at(span)
    }

    /// Returns true if the fault is at the given source position or after it.
    pub fn is_from(&self, span: Span) -> bool {
        let fault = self.fault;
        span.line < fault.line || span.line == fault.line && span.column <= fault.column
    }

    // ---- declared names

    /// Records the end of a block that opens the dynamic region with the given name.
    pub fn note_opened(&mut self, name: Ident, end: Option<Span>) {
        if let Some(span) = end {
            let name = name.name.number;
            self.is_whole = self.endings.push(Ending { name, span }).is_ok() && self.is_whole;
        }
    }

    /// Records a declared name, and explains a second declaration of the name if that is the fault.
    pub fn declare(&mut self, name: Ident) {
        if self.is_fault(Code::DeclaredTwice, name.span) {
            if let Some(first) = first_of(&self.declared, name) {
                self.notes.place = first;
                self.tell_name(Message::FirstDeclared, name);
            }
        }
        if self.fault.code == Code::DeclaredTwice {
            self.is_whole = self.declared.push(name).is_ok() && self.is_whole;
        }
    }

    // ---- messages

    /// Writes a message if the fault of the text has the message's code and is at the given source position.
    pub fn tell(&mut self, message: Message, span: Span) {
        if self.is_fault(code_of(message), span) {
            self.say(message);
        }
    }

    /// Writes a message about a name if the fault of the text has the message's code and is at the name.
    pub fn tell_name(&mut self, message: Message, name: Ident) {
        if self.is_at(name.span) {
            self.notes.name = name.name.number;
            self.tell(message, name.span);
        }
    }

    /// Writes the text of a message, with the values of its placeholders.
    pub fn say(&mut self, message: Message) {
        self.words.say(&self.notes, message);
    }

    /// Writes a message that mentions two numbers: how many of something (such as arguments) are required, and how many were found.
    pub fn say_count(&mut self, message: Message, wanted: usize, found: usize) {
        self.notes.counts = (wanted, found);
        self.say(message);
    }

    // ---- types found and wanted

    /// Records the type of the value found. Returns true if the checker could find this type in spite of the fault.
    pub fn find_type(&mut self, of_type: Option<Ty>) -> bool {
        self.notes.found = value_of(of_type);
        self.notes.variable = NO_NAME;
        self.notes.is_new = false;
        matches!(self.notes.found, Some(_))
    }

    /// Records the required type. Returns true if the checker could find the required type in spite of the fault.
    pub fn want_type(&mut self, of_type: Option<Ty>) -> bool {
        self.notes.wanted = value_of(of_type);
        matches!(self.notes.wanted, Some(_))
    }
}

/// Returns a type as the type of a value, if the checker could find this type in spite of the fault.
fn value_of(of_type: Option<Ty>) -> Option<ValueType> {
    match of_type {
        Some(of_type) => Some(ValueType::Value { of_type }),
        None => None,
    }
}

/// Returns the source position of the first declared name that equals the given name.
fn first_of(declared: &[Ident], name: Ident) -> Option<Span> {
    for first in declared {
        if first.name == name.name {
            return Some(first.span);
        }
    }
    None
}
