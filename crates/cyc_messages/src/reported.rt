//! Combines a fault with all of its explanations.
use crate::refusal::words_for;
use cyc_explain::Explanation;
use cyc_rendering::{Refusal, cause_of, expected_at, name_of_ended, tree_of, words_on_variable};
use cyc_words::{Code, Fault};
use std::alloc::Global;

/// Returns a fault of names, types or regions with its explanation.
pub fn explained(fault: Fault, explanation: Option<Explanation>) -> Refusal {
    match explanation {
        Some(Explanation { lines, place }) => Refusal::explained(fault, Some(lines), place),
        None => Refusal::explained(fault, None, None),
    }
}

/// If the fault is that the end of a function with a result can be reached, returns the name of this function.
fn ended_in(alloc: Global, text: &[u8], fault: Fault) -> Option<Vec<u8>> {
    let tree = tree_of(alloc, text).ok()?;
    name_of_ended(alloc, text, &tree, fault)
}

/// Returns the fault of a text with all of its explanations.
pub fn refusal_of(alloc: Global, text: &[u8], fault: Fault) -> Refusal {
    match fault.code {
        Code::UnexpectedToken | Code::UnexpectedEnd => {
            Refusal::with_words(fault, expected_at(alloc, text, fault))
        }
        Code::MissingReturn => Refusal::of_flow(fault, ended_in(alloc, text, fault), None),
        Code::EmptyVariable | Code::LockedVariable | Code::LoopEmptiesVariable => {
            let cause = cause_of(alloc, text, fault);
            Refusal::of_flow(fault, words_on_variable(alloc, text, fault, cause), cause)
        }
        _ => explained(fault, words_for(alloc, text, fault)),
    }
}
