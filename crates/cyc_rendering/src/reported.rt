//! A fault of a text with its explanations, except those that need an analysis of the violated rule.
use crate::empty_pointer::words_on_empty;
use crate::flow_cause::name_at;
use cyc_flow::Cause;
use cyc_syntax::{Declaration, Tree};
use cyc_words::{Code, Fault, Span};
use std::alloc::Global;

/// A fault of a text, with the explanations that tell more than its code.
#[derive(Drop)]
pub struct Refusal {
    pub fault: Fault,
    /// The lines that explain the violated rule. A hint in the last line replaces the hint for the fault's code.
    pub words: Option<Vec<u8>>,
    /// The source position that the lines of the explanation name, if they name one.
    pub place: Option<Span>,
    /// The source position where the empty or locked variable became empty or locked.
    pub cause: Option<Cause>,
}

impl Refusal {
    /// Returns a fault of names, types or regions, with the lines of its explanation and the source position that these lines name.
    pub fn explained(fault: Fault, words: Option<Vec<u8>>, place: Option<Span>) -> Refusal {
        Refusal {
            fault,
            words,
            place,
            cause: None,
        }
    }

    /// Returns a fault whose only explanation is the given lines.
    pub fn with_words(fault: Fault, words: Option<Vec<u8>>) -> Refusal {
        Refusal {
            fault,
            words,
            place: None,
            cause: None,
        }
    }

    /// Returns a fault of the flow rules, with the lines that explain it, or with how and where the variable became empty or locked.
    pub fn of_flow(fault: Fault, words: Option<Vec<u8>>, cause: Option<Cause>) -> Refusal {
        Refusal {
            fault,
            words,
            place: None,
            cause,
        }
    }
}

/// If the fault is that the end of a function with a result can be reached, returns the name of this function.
pub fn name_of_ended(alloc: Global, text: &[u8], tree: &Tree, fault: Fault) -> Option<Vec<u8>> {
    if fault.code != Code::MissingReturn {
        return None;
    }
    for declaration in &tree.declarations {
        if let Declaration::Function { name, body, .. } = declaration {
            if (body.end.line, body.end.column) == (fault.line, fault.column) {
                let name = name_at(text, name.span.line, name.span.column);
                return Vec::from_slice(alloc, name).ok();
            }
        }
    }
    None
}

/// Returns the advice on a pointer that never had a value, if a variable is empty or locked for a reason without a known position.
pub fn words_on_variable(
    alloc: Global,
    text: &[u8],
    fault: Fault,
    cause: Option<Cause>,
) -> Option<Vec<u8>> {
    match (fault.code, cause) {
        (Code::EmptyVariable, None) => words_on_empty(alloc, text, fault),
        _ => None,
    }
}
