//! This file finds the warnings of a program.
use crate::finder::Finder;
use crate::hidden::find_hidden;
use crate::warning::{Found, Warning};
use cyc_syntax::{Declaration, Tree};
use std::alloc::Global;

/// Returns the warnings of an accepted program, ordered by their source positions: the first ones, at most one more than the largest
/// number that is shown. If memory runs out, no warnings are found.
pub fn find_warnings(alloc: Global, tree: &Tree, text: &[u8]) -> Vec<Found> {
    let mut finder = Finder::new(alloc, tree);
    for declaration in &tree.declarations {
        match declaration {
            Declaration::Function {
                result,
                parameters,
                body,
                ..
            } => finder.look_over(result, parameters, body),
            Declaration::Global {
                of_type,
                value: Some(value),
                ..
            } => finder.look_at_global(of_type, *value),
            _ => {}
        }
    }
    if let Some(span) = find_hidden(text) {
        finder.warn(span, Warning::HiddenCharacter);
    }
    finder.take_found()
}
