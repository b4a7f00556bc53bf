//! Checks that a program satisfies the flow rules.
ghost use Rattle.std.specs.Prelude.{◌≡◌, ℕ, List, map, None, Err, IfOk, IfSome};
ghost use Rattle.cyc_words.specs.Decision.{Decides};
ghost use Rattle.cyc_syntax.specs.Trees.{Declaration};
ghost use Rattle.cyc_types.specs.TypedTreeView.{view_function, view_program};
ghost use Rattle.cyc_types.specs.Rules.{settled, run};
ghost use Rattle.cyc_types.specs.typing.Programs.{IsTypedProgram};
ghost use Rattle.cyc_types.specs.flow.Programs.{start_of, end_demanded, rule_function, rule_functions, rule_program, IsAllowedProgram, IsStoppedProgram};
ghost use Rattle.cyc_soundness.specs.Sound.{IsSound};
ghost use Rattle.cyc_flow.specs.inside.Code.{view_state, Ends, Allows};

use crate::cause::{Cause, find_cause};
use crate::expressions::Tracked;
use crate::settled::Settled;
use crate::state::State;
use crate::statements::Walk;
use crate::stop::Stop;
use crate::table::Table;
use crate::touched::Touched;
use cyc_types::typed::Function;
use cyc_types::{Flowed, TypedTree};
use cyc_words::{Code, Fault};
use std::alloc::{AllocError, Global};

/// Checks that a typed tree satisfies the flow rules. Each variable holds a value when it is used. No variable is used or assigned while
/// its value is lent, or is peeked at (read early) and not yet used. At the end of a loop body, no local is emptier than at the loop's
/// head. A catch clause relies on no local that the body of its `try` may have emptied. No path through a function with a result reaches
/// the function's end.
///
/// Returns the first flow fault, in execution order. Any copy of a flow state may fail because the compiler itself runs out of memory.
pub fn flow(alloc: Global, tree: TypedTree) -> Result<Flowed, Fault>
    // A typed tree that `flow` accepts satisfies the flow rules and is returned. For a rejected tree, the rules have the returned fault.
    ensures decides { Decides (λ (_ : Unit {0}). IsAllowedProgram (view_program tree)) (λ _ v. v.tree ≡ tree) (IsStoppedProgram (view_program tree))
        (IsStoppedProgram (view_program tree)) result }
    // If the typing rules derive the tree from a text and `flow` accepts it, no step of any run reads freed memory or does
    // what the rules forbid, for any input.
    ensures sound { IfOk result (λ _. (texts : List (List ℕ)) (declarations : List Declaration)
        → IsTypedProgram texts declarations (view_program tree) → IsSound (view_program tree)) }
{
    check_functions(alloc, &tree.functions)?;
    Ok(Flowed { tree })
}

/// A flow fault and, if known, the source position at which its variable became empty or lent.
#[derive(Clone, Copy)]
pub struct Diagnosis {
    pub fault: Fault,
    pub cause: Option<Cause>,
}

/// Returns the first fault of a typed tree that `flow` rejects, for a diagnostic. Returns `None` if the tree satisfies the flow rules, or
/// if the compiler itself runs out of memory.
pub fn diagnose(alloc: Global, tree: &TypedTree) -> Option<Diagnosis>
    ensures { IfSome result (λ e. run (rule_program (view_program tree.now)) ≡ Err e.fault) }
{
    match check_functions(alloc, &tree.functions) {
        Err(Stop::Refused { fault, number }) => Some(Diagnosis {
            fault,
            cause: find_cause(&tree.functions, fault, number),
        }),
        _ => None,
    }
}

#[tactic(auto, using(std::proofs::lemmas::List::drop_more))]
fn check_functions(alloc: Global, functions: &[Function]) -> Result<(), Stop>
    ensures { Allows result (run (rule_functions (map view_function functions.now))) }
{
    for function in functions {
        check_function(alloc, function)?;
    }
    Ok(())
}

fn check_function(alloc: Global, function: &Function) -> Result<(), Stop>
    ensures { Allows result (run (rule_function (view_function function.now))) }
{
    let start = Tracked {
        state: start_of(alloc, function)?,
        touched: Touched::none(alloc),
    };
    let mut walk = Walk::new(alloc);
    let end = walk.check_items(None, &function.body, start)?;
    check_end(function, &end.state)
}

/// Returns the flow state at the start of a function: its parameters are full.
fn start_of(alloc: Global, function: &Function) -> Result<State, AllocError>
    ensures { IfOk result (λ s. view_state s ≡ start_of (view_function function.now)) }
{
    let parameters = function.parameters.len();
    let mut locals = Table::new(alloc, parameters + function.locals.len())?;
    locals.fill(parameters);
    Ok(State::Reached(locals))
}

/// Checks that control cannot reach the end of a function with a result.
fn check_end(function: &Function, state: &State) -> Result<(), Stop>
    ensures { Ends result (settled None (end_demanded (view_function function.now).result (view_function function.now).end (view_state state.now))) }
{
    if function.result.is_none() {
        return Ok(());
    }
    let mut settled = Settled::new();
    settled.demand(Code::MissingReturn, function.end, 0, !state.is_reached());
    settled.end()
}
