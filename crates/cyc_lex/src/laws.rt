//! Laws of the definitions in `specs/`. Each function of this file does nothing, and its contract states one law.
ghost use Rattle.std.specs.Prelude.{◌≡◌, ℕ, List};
ghost use Rattle.cyc_words.specs.declared.fault.Fault.{Fault};
ghost use Rattle.cyc_syntax.specs.Tokens.{Token};
ghost use Rattle.cyc_lex.specs.Refusals.{IsAccepted, IsRefused};

/// The definitions are deterministic: a text is accepted with at most one list of tokens, or rejected with at most one fault.
pub fn one_answer()
    ensures tokens { (text : List ℕ) (a b : List Token) → IsAccepted text a → IsAccepted text b → a ≡ b }
    ensures fault { (text : List ℕ) (f g : Fault) → IsRefused text f → IsRefused text g → f ≡ g }
    ensures not_both { (text : List ℕ) (tokens : List Token) (f : Fault) → IsAccepted text tokens → IsRefused text f → ⊥ }
{}
