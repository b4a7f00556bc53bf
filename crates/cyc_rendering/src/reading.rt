//! Computes the syntax tree of a text that has a fault of names, types, regions or flow.
ghost use Rattle.std.specs.Prelude.{◌≡◌, ◌⊎◌, IfOk, IfErr};
ghost use Rattle.cyc_words.specs.Fault.{memory_fault};
ghost use Rattle.cyc_front.specs.Front.{IsRefusedText};
ghost use Rattle.cyc_rendering.specs.inside.Reading.{HasTree};

use cyc_lex::lex;
use cyc_parse::parse;
use cyc_syntax::Tree;
use cyc_words::Fault;
use std::alloc::Global;

/// Returns the syntax tree of a text, or its fault if it has none.
pub fn tree_of(alloc: Global, text: &[u8]) -> Result<Tree, Fault>
    ensures tree { IfOk result (HasTree text.now) }
    ensures refused { IfErr result (λ f. (f ≡ memory_fault) ⊎ IsRefusedText text.now f) }
{
    let tokens = lex(alloc, text)?;
    parse(alloc, &tokens, text)
}
