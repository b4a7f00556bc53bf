//! This file reports the needs of an accepted program before the program runs.
ghost use Rattle.std.specs.Prelude.{IfOk};
ghost use Rattle.cyc_words.specs.Decision.{Decides};
ghost use Rattle.cyc_types.specs.TypedTreeView.{view_program};
ghost use Rattle.cyc_front.specs.Front.{IsAcceptedText, IsRefusedText, HasFault};
ghost use Rattle.cyc_compiler.specs.Needs.{AreBounds};
ghost use Rattle.cyc_front.specs.inside.Phases.{HasTokens};

use crate::bounded::{Bounded, Bounds};
use cyc_bound::{bound_of_calls, loop_of_pages, loop_of_steps, pages_of, steps_of};
use cyc_front::{accept, run_phases};
use cyc_types::typed::TypedTree;
use cyc_words::Fault;
use std::alloc::{AllocError, Global};

/// Returns the bounds of what the runs of a program need, computed from its typed tree.
fn bounds_of(alloc: Global, tree: &TypedTree) -> Result<Bounds, AllocError>
    ensures { IfOk result (λ bounds. AreBounds (view_program tree.now) bounds) }
{
    let calls = bound_of_calls(alloc, tree)?;
    let pages = pages_of(alloc, tree)?;
    let steps = steps_of(alloc, tree)?;
    Ok(Bounds {
        calls,
        pages,
        steps,
    })
}

/// Returns the result of `bounds` with the text's tokens and its typed tree, from which the caller makes a report.
pub fn bounds_with_tokens(alloc: Global, text: &[u8]) -> Result<Bounded, Fault>
    // The results and faults of `bounds_with_tokens` are those of `bounds`.
    ensures decides { Decides (IsAcceptedText text.now) (λ p bounded. AreBounds p bounded.bounds) (IsRefusedText text.now) (HasFault text.now) result }
    // The returned tokens are those of the text.
    ensures tokens { IfOk result (λ bounded. HasTokens text.now bounded.tokens.items) }
{
    let phases = run_phases(alloc, text)?;
    let tree = &phases.program.tree;
    let bounds = bounds_of(alloc, tree)?;
    let loop_of_pages = loop_of_pages(alloc, tree)?;
    let loop_of_steps = loop_of_steps(alloc, tree)?;
    Ok(Bounded {
        tokens: phases.tokens,
        program: phases.program,
        bounds,
        loop_of_pages,
        loop_of_steps,
    })
}

/// Returns the bounds of what the runs of a text's program need.
///
/// The front end runs first, and its faults are returned. If the compiler itself runs out of memory, that is another error.
pub fn bounds(alloc: Global, text: &[u8]) -> Result<Bounds, Fault>
    // For every input, no state of the program's run has more active calls than the bound on calls states, none needs more pages than the
    // bound on pages states, and the run has ended after as many steps as the bound on steps states. The bound on calls is the length of
    // the longest chain of calls from `main`. If there is no bound on calls, then the reported cycle of calls is a cycle. The bounds on
    // pages and steps come from the costs of the functions. The law `bounded_images_end` says what the bounds mean for an image.
    ensures decides { Decides (IsAcceptedText text.now) AreBounds (IsRefusedText text.now) (HasFault text.now) result }
{
    let program = accept(alloc, text)?;
    let bounds = bounds_of(alloc, &program.tree)?;
    Ok(bounds)
}
