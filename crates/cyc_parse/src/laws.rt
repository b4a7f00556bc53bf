//! Laws of the grammar. Each function in this file does nothing, and its contract states one law.
ghost use Rattle.std.specs.Prelude.{◌≡◌, List};
ghost use Rattle.cyc_syntax.specs.Symbols.{Symbol};
ghost use Rattle.cyc_syntax.specs.Trees.{Declaration};
ghost use Rattle.cyc_syntax.specs.Grammar.{HasTree, IsWithinLimits};
ghost use Rattle.cyc_parse.specs.inside.Parsing.{Refusal};
ghost use Rattle.cyc_parse.specs.Refusals.{IsRefused};

/// The grammar is unambiguous within the limits: a list of symbols has at most one tree that keeps the limits on nesting and list length.
pub fn one_tree()
    ensures { (symbols : List Symbol) (a b : List Declaration) → HasTree symbols a → IsWithinLimits a → HasTree symbols b → a ≡ b }
{}

/// If a text is rejected, it has no parse tree that keeps the limits on nesting and list length.
pub fn refused_has_no_tree()
    ensures { (symbols : List Symbol) (refusal : Refusal) (tree : List Declaration) → IsRefused symbols refusal → HasTree symbols tree
        → IsWithinLimits tree → ⊥ }
{}
