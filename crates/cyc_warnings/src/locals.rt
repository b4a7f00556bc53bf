//! This file records the locals of a function and how each is used.
use crate::shapes::Shape;
use crate::warning::Warning;
use cyc_words::Span;
use std::alloc::Global;

/// The way in which an expression's value, or an lvalue, is used.
#[derive(Clone, Copy)]
pub(crate) enum Use {
    /// The value is used; using a unique pointer moves it.
    Value,
    /// The use only examines or dereferences a unique pointer, and so does not move it.
    Looked,
    /// The expression is a statement, so its value is dropped.
    Dropped,
    /// The lvalue is assigned; the flag tells if the value of the assignment is used.
    Assigned(bool),
    /// The lvalue is swapped, or its address is taken.
    Taken,
}

/// A local variable, with the facts about its uses in the text traversed so far.
#[derive(Clone, Copy)]
pub(crate) struct Local {
    pub(crate) span: Span,
    pub(crate) shape: Shape,
    /// True if the local is declared with its type and is not a parameter.
    pub(crate) is_ordinary: bool,
    /// True if the local receives a value that is not `NULL`.
    pub(crate) is_filled: bool,
    /// The number of places where the local may receive a value after its initial value.
    pub(crate) changes: usize,
    /// True if the local is swapped, or its address is taken.
    pub(crate) is_taken: bool,
    pub(crate) is_read: bool,
    /// True if some use takes the local's value or address, instead of only examining or dereferencing the value.
    pub(crate) is_moved: bool,
    /// The number of elements of the array that is the local's initial value.
    pub(crate) length: Option<u32>,
}

impl Local {
    /// Returns a local whose uses are not yet recorded.
    pub(crate) fn new(span: Span, shape: Shape) -> Local {
        Local {
            span,
            shape,
            is_ordinary: false,
            is_filled: false,
            changes: 0,
            is_taken: false,
            is_read: false,
            is_moved: false,
            length: None,
        }
    }

    /// Records that a local is used in the given way.
    pub(crate) fn note(&mut self, use_of: Use) {
        match use_of {
            Use::Value | Use::Dropped => {
                self.is_read = true;
                self.is_moved = true;
            }
            Use::Looked => self.is_read = true,
            Use::Assigned(is_used) => {
                self.changes = self.changes.saturating_add(1);
                self.is_read = self.is_read || is_used;
            }
            Use::Taken => {
                self.changes = self.changes.saturating_add(1);
                self.is_taken = true;
                self.is_read = true;
                self.is_moved = true;
            }
        }
    }

    /// Returns true if the local owns a unique object or a dynamic region that is never moved or freed.
    fn is_kept(&self) -> bool {
        (self.shape.is_unique() || self.shape.is_key()) && self.is_filled && !self.is_moved
    }

    /// Returns the warning about a local at the end of its scope, if any.
    pub(crate) fn fault(&self) -> Option<Warning> {
        if self.is_kept() {
            Some(if self.shape.is_key() {
                Warning::KeyNeverFreed
            } else {
                Warning::NeverGivenBack
            })
        } else if self.is_ordinary && !self.is_read {
            Some(Warning::NeverRead)
        } else {
            None
        }
    }
}

/// An array index past the last element of a local's initial value.
#[derive(Clone, Copy)]
pub(crate) struct Suspect {
    pub(crate) span: Span,
    pub(crate) local: usize,
}

/// A loop that does not change the locals on which its condition depends: those in this range of the list of watched locals.
#[derive(Clone, Copy)]
pub(crate) struct Idle {
    pub(crate) span: Span,
    pub(crate) first: usize,
    pub(crate) end: usize,
}

/// The locals of a function by their indices. The structure also has the array indices past the end of a local's initial
/// array, which are out of bounds unless the local is changed, and the loops whose conditions are unchanged unless a pointer changes them.
#[derive(Drop)]
pub(crate) struct Locals {
    pub(crate) all: Vec<Local>,
    pub(crate) suspects: Vec<Suspect>,
    /// The indices of the locals on which the conditions of loops depend.
    watched: Vec<usize>,
    pub(crate) idle: Vec<Idle>,
    /// True if all memory allocations of this list of locals have succeeded so far.
    pub(crate) is_whole: bool,
}

impl Locals {
    pub(crate) fn new(alloc: Global) -> Locals {
        Locals {
            all: Vec::new(alloc),
            suspects: Vec::new(alloc),
            watched: Vec::new(alloc),
            idle: Vec::new(alloc),
            is_whole: true,
        }
    }

    /// Adds a local, and returns its index.
    pub(crate) fn add(&mut self, local: Local) -> usize {
        let number = self.all.len();
        self.is_whole = self.all.push(local).is_ok() && self.is_whole;
        number
    }

    pub(crate) fn add_suspect(&mut self, local: usize, span: Span) {
        self.is_whole = self.suspects.push(Suspect { span, local }).is_ok() && self.is_whole;
    }

    /// Returns true if a local is changed anywhere in its function.
    pub(crate) fn is_changed(&self, number: usize) -> bool {
        match self.all.get(number) {
            Some(local) => local.changes > 0,
            None => true,
        }
    }

    // ---- the conditions of loops

    /// Returns the number of locals watched so far.
    pub(crate) fn watched(&self) -> usize {
        self.watched.len()
    }

    /// Watches a local on which a condition depends.
    pub(crate) fn watch(&mut self, number: usize) {
        self.is_whole = self.watched.push(number).is_ok() && self.is_whole;
    }

    pub(crate) fn add_idle(&mut self, idle: Idle) {
        self.is_whole = self.idle.push(idle).is_ok() && self.is_whole;
    }

    /// Returns the number of changes so far to the watched locals in a range.
    pub(crate) fn changes_in(&self, first: usize, end: usize) -> usize {
        let mut changes = 0_usize;
        for n in first..end {
            if let Some(number) = self.watched.get(n) {
                if let Some(local) = self.all.get(*number) {
                    changes = changes.saturating_add(local.changes);
                }
            }
        }
        changes
    }

    /// Returns true if a pointer to a watched local in this range may exist.
    pub(crate) fn is_any_taken(&self, first: usize, end: usize) -> bool {
        for n in first..end {
            if let Some(number) = self.watched.get(n) {
                if let Some(local) = self.all.get(*number) {
                    if local.is_taken {
                        return true;
                    }
                }
            }
        }
        false
    }

    /// Forgets all locals of a function.
    pub(crate) fn clear(&mut self) {
        self.all.clear();
        self.suspects.clear();
        self.watched.clear();
        self.idle.clear();
    }
}
