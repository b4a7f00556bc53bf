//! The front end of the compiler translates the bytes of a source text to a typed tree, or returns the text's fault.
ghost use Rattle.std.specs.Prelude.{◌≡◌, IfOk};
ghost use Rattle.cyc_words.specs.Decision.{Decides};
ghost use Rattle.cyc_types.specs.TypedTreeView.{view_program};
ghost use Rattle.cyc_soundness.specs.Sound.{IsSound};
ghost use Rattle.cyc_front.specs.Front.{IsAcceptedText, IsRefusedText, HasFault};
ghost use Rattle.cyc_front.specs.inside.Phases.{HasTokens, HasTree};

use cyc_check::check;
use cyc_flow::flow;
use cyc_lex::lex;
use cyc_parse::parse;
use cyc_syntax::{Token, Tree};
use cyc_types::Flowed;
use cyc_words::Fault;
use std::alloc::Global;

/// The results of the front end's phases for a source text that all phases accept.
#[derive(Drop)]
pub struct Phases {
    pub tokens: Vec<Token>,
    pub tree: Tree,
    pub program: Flowed,
}

/// Returns all results of the front end for a text: its tokens, their syntax tree, and the typed tree that satisfies the flow rules.
///
/// The first phase that rejects the text determines the fault. If memory runs out, the front end returns the memory fault.
pub fn run_phases(alloc: Global, text: &[u8]) -> Result<Phases, Fault>
    // If a text is accepted, the result is its typed program. A text is rejected only if the condition of the fault's code holds at the
    // fault's position.
    ensures decides { Decides (IsAcceptedText text.now) (λ p v. view_program v.program.tree ≡ p) (IsRefusedText text.now) (HasFault text.now) result }
    // If the text is accepted, the tokens in the result are those of the text, and the syntax tree is that of the tokens.
    ensures tokens { IfOk result (λ v. HasTokens text.now v.tokens.items) }
    ensures tree { IfOk result (λ v. HasTree text.now v.tokens.items v.tree) }
    // No step of any run of an accepted program accesses freed memory or goes wrong, for every input and without limits on memory or steps.
    ensures sound { IfOk result (λ v. IsSound (view_program v.program.tree)) }
{
    let tokens = lex(alloc, text)?;
    let tree = parse(alloc, &tokens, text)?;
    let typed = check(alloc, &tree)?;
    let program = flow(alloc, typed)?;
    Ok(Phases {
        tokens,
        tree,
        program,
    })
}

/// Returns the typed tree of a source text that all four phases accept.
///
/// The first phase that rejects the text determines the fault. If memory runs out, the front end returns the memory fault.
pub fn accept(alloc: Global, text: &[u8]) -> Result<Flowed, Fault>
    // If a text is accepted, the result is its typed program. A text is rejected only if the condition of the fault's code holds at the
    // fault's position.
    ensures decides { Decides (IsAcceptedText text.now) (λ p v. view_program v.tree ≡ p) (IsRefusedText text.now) (HasFault text.now) result }
    // No step of any run of an accepted program accesses freed memory or goes wrong, for every input and without limits on memory or steps.
    ensures sound { IfOk result (λ v. IsSound (view_program v.tree)) }
{
    let phases = run_phases(alloc, text)?;
    Ok(phases.program)
}
