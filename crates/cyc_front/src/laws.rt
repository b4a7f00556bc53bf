//! Laws of the definitions in `specs/`. Each function in this file has an empty body, and its contract states one law, which is proved
//! with the crate.

ghost use Rattle.std.specs.Prelude.{◌≡◌, ◌↔◌, IsTrue, List, ℕ};
ghost use Rattle.cyc_words.specs.declared.fault.Fault.{Fault};
ghost use Rattle.cyc_types.specs.declared.region.Region.{Region};
ghost use Rattle.cyc_types.specs.Outlives.{RegionContext, OutlivesIn};
ghost use Rattle.cyc_types.specs.Closure.{HasNoUnique, is_outliving};
ghost use Rattle.cyc_types.specs.TypedTrees.{Program};
ghost use Rattle.cyc_soundness.specs.Sound.{IsSound};
ghost use Rattle.cyc_front.specs.Front.{IsAcceptedText, IsRefusedText};

/// The front end is deterministic: a text is accepted with at most one typed program, and an accepted text has no fault.
pub fn accepted_or_refused()
    ensures one_program { (text : List ℕ) (p q : Program) → IsAcceptedText text p → IsAcceptedText text q → p ≡ q }
    ensures not_both { (text : List ℕ) (p : Program) (f : Fault) → IsAcceptedText text p → IsRefusedText text f → ⊥ }
{
    cyc_lex::laws::one_answer();
    cyc_parse::laws::one_tree();
    cyc_parse::laws::refused_has_no_tree();
    cyc_types::laws::one_typed_tree();
    cyc_types::laws::typed_or_refused();
    cyc_types::laws::allowed_or_stopped();
}

/// Soundness: no run of an accepted text's program accesses freed memory or goes wrong, after any number of steps and for every input.
pub fn accepted_programs_are_sound()
    ensures { (text : List ℕ) (p : Program) → IsAcceptedText text p → IsSound p }
{
    cyc_soundness::laws::typed_programs_are_sound();
}

/// The test of regions that the typing rules compute decides the outlives relation, if the unique region occurs in no constraint and is
/// not the region of an open scope.
pub fn outlives_is_decided()
    ensures { (c : RegionContext) (a b : Region) → HasNoUnique c → IsTrue (is_outliving c a b) ↔ OutlivesIn c a b }
{}
