//! This file has the state of the traversal of a program: the meaning of names, the uses of locals, and the warnings found.
use crate::known::Known;
use crate::locals::{Local, Locals, Use};
use crate::shapes::{KEY, OTHER, Shape};
use crate::warning::{Findings, Found, Warning};
use cyc_syntax::{Block, Ident, Member, ParameterList, Parameters, Tree, WrittenType};
use cyc_words::Span;
use std::alloc::Global;

#[derive(Drop)]
pub(crate) struct Finder {
    alloc: Global,
    pub(crate) known: Known,
    pub(crate) locals: Locals,
    found: Findings,
    /// True if the result type of the function whose body is searched for warnings is `char`.
    pub(crate) gives_char: bool,
    /// The number of calls, assignments, allocations and deallocations in the expressions examined so far.
    pub(crate) effects: usize,
    /// The number of statements so far that may leave a loop: `return`, `break` and `throw`.
    pub(crate) exits: usize,
}

impl Finder {
    pub(crate) fn new(alloc: Global, tree: &Tree) -> Finder {
        Finder {
            alloc,
            known: Known::of(alloc, tree),
            locals: Locals::new(alloc),
            found: Findings::new(alloc),
            gives_char: false,
            effects: 0,
            exits: 0,
        }
    }

    /// Takes the findings.
    pub(crate) fn take_found(&mut self) -> Vec<Found> {
        if self.known.is_whole && self.locals.is_whole && self.found.is_whole {
            self.found.take(self.alloc)
        } else {
            Vec::new(self.alloc)
        }
    }

    pub(crate) fn warn(&mut self, span: Span, warning: Warning) {
        self.warn_after(span, warning, span);
    }

    /// Adds a warning at one source position whose text refers to the token at another source position.
    pub(crate) fn warn_after(&mut self, span: Span, warning: Warning, named: Span) {
        self.found.add(Found {
            span,
            warning,
            named,
        });
    }

    // ---- functions

    /// Traverses a function.
    pub(crate) fn look_over(
        &mut self,
        returned: &Option<WrittenType>,
        parameters: &Parameters,
        body: &Block,
    ) {
        self.gives_char = match self.known.shape_of_result(returned) {
            Some(shape) => shape.is_char(),
            None => false,
        };
        if let ParameterList::Listed { members } = &parameters.list {
            self.declare_parameters(members);
        }
        self.look_at_block(&body.items);
        self.end_function();
    }

    fn declare_parameters(&mut self, members: &[Member]) {
        for member in members {
            let shape = Shape::written(&member.of_type, self.known.unique);
            let mut local = Local::new(member.name.span, shape);
            local.is_filled = true;
            self.declare(member.name, local);
        }
    }

    /// Adds the warnings about a function's locals at the function's end, and removes the locals.
    fn end_function(&mut self) {
        for i in 0..self.locals.all.len() {
            if let Some(local) = self.locals.all.get(i) {
                if let Some(warning) = local.fault() {
                    let span = local.span;
                    self.warn(span, warning);
                }
            }
        }
        for i in 0..self.locals.suspects.len() {
            if let Some(suspect) = self.locals.suspects.get(i).copied() {
                if !self.locals.is_changed(suspect.local) {
                    self.warn(suspect.span, Warning::IndexOutside);
                }
            }
        }
        self.end_loops();
        self.locals.clear();
        self.known.unbind(0);
    }

    /// Adds the warnings about loops whose conditions do not change, at the end of their function.
    fn end_loops(&mut self) {
        for i in 0..self.locals.idle.len() {
            if let Some(idle) = self.locals.idle.get(i).copied() {
                if !self.locals.is_any_taken(idle.first, idle.end) {
                    self.warn(idle.span, Warning::UnchangedCondition);
                }
            }
        }
    }

    // ---- locals

    /// Declares a local.
    pub(crate) fn declare(&mut self, name: Ident, local: Local) {
        let number = self.locals.add(local);
        self.known.bind(name.name.number, number);
    }

    /// Declares a local that is a region handle.
    pub(crate) fn declare_handle(&mut self, name: Ident) {
        self.declare(name, Local::new(name.span, OTHER));
    }

    /// Declares a local that is the key of a new dynamic region.
    pub(crate) fn declare_key(&mut self, name: Ident) {
        let mut local = Local::new(name.span, KEY);
        local.is_filled = true;
        self.declare(name, local);
    }

    /// Returns true if a local with this name is in scope.
    pub(crate) fn is_local(&self, name: Ident) -> bool {
        self.locals
            .all
            .get(self.known.local(name.name.number))
            .is_some()
    }

    /// Records that the local with this name is used in the given way.
    pub(crate) fn note(&mut self, name: Ident, use_of: Use) {
        if let Some(local) = self.locals.all.get_mut(self.known.local(name.name.number)) {
            local.note(use_of);
        }
    }

    /// Records that the local with this name receives a value.
    pub(crate) fn fill(&mut self, name: Ident) {
        if let Some(local) = self.locals.all.get_mut(self.known.local(name.name.number)) {
            local.is_filled = true;
        }
    }
}
