//! Replaces those functions of a program for which a replacement is given.
ghost use Rattle.std.specs.Prelude.{◌≡◌, IfOk, length};
ghost use Rattle.std.specs.Vec.Iter.{into_iter_items, into_iter_len};
ghost use Rattle.cyc_inline.specs.inside.Changes.{first_of, function_of, note_of, noted, others, replaced};

use crate::making::Made;
use crate::origin::Origin;
use cyc_plain::Function;
use std::alloc::{AllocError, Global};
use std::vec::IntoIter;

/// For a replaced function, the function before its replacement, and the source instructions from which the new instructions are made.
#[derive(Drop)]
pub struct Opened {
    /// The source function, before its replacement.
    pub given: Function,
    /// For each instruction of the replacement, the source instruction from which it is made.
    pub origins: Vec<Origin>,
}

/// A function of the program; if it was replaced, also the function before its replacement and the source instruction from which
/// each new instruction is made.
#[derive(Drop)]
pub(crate) struct Placed {
    pub(crate) function: Function,
    pub(crate) opened: Option<Opened>,
}

/// The functions of the program; for each replaced one, also the function before its replacement and the source instruction from which
/// each new instruction is made.
#[derive(Drop)]
pub(crate) struct Replaced {
    pub(crate) functions: Vec<Function>,
    pub(crate) opened: Vec<Option<Opened>>,
}

fn next_change(changes: &mut IntoIter<Option<Made>, Global>) -> Option<Made>
    requires { into_iter_len changes.old ≡ length (into_iter_items changes.old) }
    ensures value { result ≡ first_of (into_iter_items changes.old) }
    ensures rest { into_iter_items changes.new ≡ others (into_iter_items changes.old) }
    ensures count { into_iter_len changes.new ≡ length (into_iter_items changes.new) }
{
    match changes.next() {
        Some(change) => change,
        None => None,
    }
}

fn place(given: Function, change: Option<Made>) -> Placed
    ensures function { result.function ≡ function_of given change }
    ensures opened { result.opened ≡ note_of given change }
{
    match change {
        Some(made) => Placed {
            function: made.function,
            opened: Some(Opened {
                given,
                origins: made.origins,
            }),
        },
        None => Placed {
            function: given,
            opened: None,
        },
    }
}

/// Returns the functions; each function that has a replacement is replaced by it.
pub(crate) fn replace(
    alloc: Global,
    given: Vec<Function>,
    changes: Vec<Option<Made>>,
) -> Result<Replaced, AllocError>
    ensures functions { IfOk result (λ made. made.functions.items ≡ replaced given.items changes.items) }
    ensures opened { IfOk result (λ made. made.opened.items ≡ noted given.items changes.items) }
{
    let mut functions = Vec::with_capacity(alloc, given.len())?;
    let mut opened = Vec::with_capacity(alloc, given.len())?;
    let mut changes = changes.into_iter();
    for function in given {
        let change = next_change(&mut changes);
        let placed = place(function, change);
        functions.push(placed.function)?;
        opened.push(placed.opened)?;
    }
    Ok(Replaced { functions, opened })
}
