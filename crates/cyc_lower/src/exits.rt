//! The exits of a statement: the handlers and regions that a statement must close before it leaves a loop
//! or a function, and the code that closes them.
ghost use Rattle.std.specs.Prelude.{◌≡◌, ◌+◌, ◌≤◌, [], ◌∷◌, ◌++◌, length, option_map};
ghost use Rattle.cyc_types.specs.TypedTreeView.{view_converted};
ghost use Rattle.cyc_lower_proof.specs.inside.ControlCode.{nothing_opened, outermost, with_handler, with_mark, inside_try, inside_region, leave_code};
ghost use Rattle.cyc_lower_proof.specs.inside.ControlCode.{break_target, continue_target};
ghost use Rattle.cyc_lower_proof.specs.inside.Lowering.{return_code};
ghost use Rattle.cyc_lower.specs.inside.Emission.{Appends, most_locals, exits_after, view_starts};

use crate::emitter::Emitter;
use crate::starts::Starts;
use cyc_lower_proof::{Exits, Opened};
use cyc_plain::Instruction;
use cyc_types::typed::{Converted, Item};
use std::alloc::AllocError;

/// Returns the record that says that no handler and no region is open.
pub(crate) fn nothing_opened() -> Opened
    ensures { result ≡ nothing_opened }
{
    Opened {
        handler: None,
        mark: None,
    }
}

/// Returns the slot of the outermost opened handler or region: the given slot if nothing was opened before.
fn outermost(opened: Option<usize>, slot: usize) -> Option<usize>
    ensures { result ≡ outermost opened slot }
{
    match opened {
        Some(first) => Some(first),
        None => Some(slot),
    }
}

/// Returns the record of opened handlers and regions, extended by a handler whose record begins at this slot.
fn with_handler(opened: Opened, slot: usize) -> Opened
    ensures { result ≡ with_handler opened slot }
{
    Opened {
        handler: outermost(opened.handler, slot),
        mark: opened.mark,
    }
}

/// Returns the record of opened handlers and regions, extended by a lexical region for which this slot holds the number
/// of regions open before.
fn with_mark(opened: Opened, slot: usize) -> Opened
    ensures { result ≡ with_mark opened slot }
{
    Opened {
        handler: opened.handler,
        mark: outermost(opened.mark, slot),
    }
}

/// Returns the exits (the handlers and regions to close) of a statement in the body of a `try`, whose handler record begins at this slot.
pub(crate) fn inside_try(exits: Exits, slot: usize) -> Exits
    ensures { result ≡ inside_try exits slot }
{
    Exits {
        head: exits.head,
        leaving: exits.leaving,
        in_loop: with_handler(exits.in_loop, slot),
        in_function: with_handler(exits.in_function, slot),
    }
}

/// Returns the exits (the handlers and regions to close) of a statement after a lexical region is opened; this slot holds the number of
/// regions open before.
fn inside_region(exits: Exits, slot: usize) -> Exits
    ensures { result ≡ inside_region exits slot }
{
    Exits {
        head: exits.head,
        leaving: exits.leaving,
        in_loop: with_mark(exits.in_loop, slot),
        in_function: with_mark(exits.in_function, slot),
    }
}

/// Returns the exits (the handlers and regions to close) of the statements that follow an element of a block; before this element,
/// the temporaries begin at this slot.
pub(crate) fn exits_after(item: &Item, exits: Exits, free: usize) -> Exits
    ensures { result ≡ exits_after item.now exits free }
{
    match item {
        Item::Region { .. } => inside_region(exits, free),
        Item::Execute { .. }
        | Item::Local { .. }
        | Item::Open { .. }
        | Item::Alias { .. }
        | Item::DynamicRegion { .. } => exits,
    }
}

impl Emitter {
    /// Emits the closing of opened handlers and regions: all handlers from the outermost on, and then all lexical regions.
    pub(crate) fn lower_leave(&mut self, opened: Opened) -> Result<(), AllocError>
        ensures { Appends result self.old self.new (leave_code opened) }
    {
        if let Some(first) = opened.handler {
            self.emit(Instruction::Leave { first })?;
        }
        match opened.mark {
            Some(mark) => self.close_lexical(mark),
            None => Ok(()),
        }
    }

    /// Emits the return from a function whose result is in a slot.
    pub(crate) fn lower_return(
        &mut self,
        starts: &Starts,
        value: &Option<Converted>,
        exits: Exits,
        free: usize,
    ) -> Result<(), AllocError>
        requires { free ≤ most_locals + length self.old.code.items }
        ensures { Appends result self.old self.new (return_code (view_starts starts.now) (option_map view_converted value.now)
            (length self.old.code.items) exits free) }
    {
        let from = match value {
            Some(value) => self.convert_to_slot(starts, value, free)?,
            None => free,
        };
        self.lower_leave(exits.in_function)?;
        self.emit(Instruction::Finish { value: from })
    }

    /// Emits a `break`: the closing of the handlers and regions opened in the loop, and the jump to the end of the loop.
    pub(crate) fn lower_break(&mut self, exits: Exits) -> Result<(), AllocError>
        ensures { Appends result self.old self.new (leave_code exits.in_loop ++ Instruction.Jump (break_target exits) ∷ []) }
    {
        self.lower_leave(exits.in_loop)?;
        self.emit(Instruction::Jump {
            target: exits.leaving,
        })
    }

    /// Emits a `continue`: the closing of the handlers and regions opened in the loop, and the jump to the condition at the beginning of
    /// the loop.
    pub(crate) fn lower_continue(&mut self, exits: Exits) -> Result<(), AllocError>
        ensures { Appends result self.old self.new (leave_code exits.in_loop ++ Instruction.Jump (continue_target exits) ∷ []) }
    {
        self.lower_leave(exits.in_loop)?;
        self.emit(Instruction::Jump { target: exits.head })
    }
}
