//! Laws of the grammar in `specs/`. Each function of this file does nothing; its contract states one law.
ghost use Rattle.std.specs.Prelude.{◌≡◌, List, length};
ghost use Rattle.cyc_syntax.specs.Symbols.{Symbol};
ghost use Rattle.cyc_syntax.specs.Trees.{Declaration};
ghost use Rattle.cyc_syntax.specs.Grammar.{HasTree};
ghost use Rattle.cyc_syntax.specs.inside.Weight.{tree_weight};

/// If a tree is a parse of a list of tokens, its weight (the number of tokens, computed from the tree) is the length of the list.
/// The weight of a program is the sum of the weights of its declarations. So the weights of all functions of a text add up to at
/// most the number of the text's tokens.
pub fn weight_is_length()
    ensures { (symbols : List Symbol) (tree : List Declaration) → HasTree symbols tree → tree_weight tree ≡ length symbols }
{}
