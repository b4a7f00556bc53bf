//! For a diagnostic, searches for the program point that brought a local into its state at a flow fault. The search traverses the
//! function again for that local only. No result of the check depends on the search.
use crate::cause_expressions::Walk;
use crate::cause_state::{Found, Known};
use cyc_types::typed::Function;
use cyc_words::{Fault, Span};

/// The effect of a program point on a local variable, as a diagnostic names it.
#[derive(Clone, Copy)]
pub enum Change {
    /// The program point uses the local's value, which leaves the local empty.
    Moved,
    /// The program point assigns the local. A catch clause cannot know if the assignment happened.
    Assigned,
    /// The program point lends the local until the end of the block.
    Locked,
    /// The program point peeks at the local (reads it without moving its value), and later operands are evaluated before the read value is
    /// used.
    Peeked,
}

/// A change of a local's flow state, and the source position at which the local's name occurs in the changing code.
#[derive(Clone, Copy)]
pub struct Cause {
    pub change: Change,
    pub span: Span,
}

/// Returns true if the fault's source position is in this function.
fn has_place(function: &Function, fault: Fault) -> bool {
    let (first, last) = (function.span, function.end);
    let is_after = (first.line, first.column) <= (fault.line, fault.column);
    is_after && (fault.line, fault.column) <= (last.line, last.column)
}

/// Returns the change that brought the local `number` into the state that the fault reports, in the function with the fault. A parameter
/// holds a value from the start.
pub(crate) fn find_cause(functions: &[Function], fault: Fault, number: usize) -> Option<Cause> {
    let function = functions.iter().find(|f| has_place(f, fault))?;
    let start = if number < function.parameters.len() {
        Known::Full
    } else {
        Known::Vacant(None)
    };
    match Walk::new(fault, number).check_items(&function.body, start) {
        Err(Found(cause)) => cause,
        Ok(_) => None,
    }
}
