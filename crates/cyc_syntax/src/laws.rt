//! Laws of the definitions in `specs/`. Each function of this file does nothing; its contract states one law.
ghost use Rattle.std.specs.Prelude.{◌≡◌, ◌↔◌, ℕ, List, IsTrue, slice_get, Some};
ghost use Rattle.cyc_syntax.specs.Names.{is_among, with_text, distinct_texts, number_of, AreDistinct};
ghost use Rattle.cyc_syntax.specs.Tokens.{Token};
ghost use Rattle.cyc_syntax.specs.TokenRule.{HasTokens};

/// The token rule is deterministic: each text has at most one list of tokens.
pub fn one_token_list()
    ensures { (text : List ℕ) (a b : List Token) → HasTokens text a → HasTokens text b → a ≡ b }
{}

/// Two texts of a list of names are identified by equal indices exactly if the texts are equal.
pub fn one_number_each()
    ensures { (texts : List (List ℕ)) (a b : List ℕ) → IsTrue (is_among a texts) → IsTrue (is_among b texts)
        → (number_of texts a ≡ number_of texts b) ↔ (a ≡ b) }
{}

/// A text keeps its index when further texts are added to the list of names, and the index determines the text.
pub fn numbers_are_kept()
    ensures kept { (texts : List (List ℕ)) (a b : List ℕ) → IsTrue (is_among a texts)
        → number_of (with_text texts b) a ≡ number_of texts a }
    ensures gives_back { (texts : List (List ℕ)) (a : List ℕ) → IsTrue (is_among a texts)
        → slice_get texts (number_of texts a) ≡ Some a }
{}

/// In the list of interned texts, no text occurs twice.
pub fn texts_are_distinct()
    ensures { (texts : List (List ℕ)) → AreDistinct (distinct_texts texts) }
{}
