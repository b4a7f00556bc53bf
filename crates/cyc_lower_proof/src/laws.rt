//! This file states laws of the definitions in `specs/`. Each function of this file does nothing, and its contract states one law, which
//! is proved with the crate.

ghost use Rattle.std.specs.Prelude.{◌≡◌, ℕ, ◌+◌, ◌<◌, ◌≤◌, List, ◌++◌, length, Some, slice_get};
ghost use Rattle.std.specs.List.{AllByRecursion};
ghost use Rattle.cyc_types.specs.Types.{Ty, words_of};
ghost use Rattle.cyc_types.specs.TypedTrees.{Program};
ghost use Rattle.cyc_types.specs.typing.WellTyped.{IsWellTypedProgram};
ghost use Rattle.cyc_meaning.specs.FrameCount.{words_of_all};
ghost use Rattle.cyc_lower_proof.specs.inside.Slots.{slot_in};
ghost use Rattle.cyc_lower_proof.specs.inside.Lowering.{lower_program};
ghost use Rattle.cyc_lower_proof.specs.inside.Lowered.{CanBeLowered, IsLowered};

/// The slots of locals are disjoint and in order; no slot is unused between locals, before the first temporary, or after the parameters.
/// If each local has one word, then a local's slot is its index.
pub fn slots_are_apart()
    ensures below { (types : List Ty) (number : ℕ) (t : Ty) → slice_get types number ≡ Some t → slot_in types number + words_of t ≤ words_of_all types }
    ensures apart { (types : List Ty) (number other : ℕ) (t u : Ty) → number < other → slice_get types number ≡ Some t → slice_get types other ≡ Some u
        → slot_in types number + words_of t ≤ slot_in types other }
    ensures all { (types : List Ty) → slot_in types (length types) ≡ words_of_all types }
    ensures following { (first types : List Ty) (number : ℕ) → slot_in (first ++ types) (length first + number) ≡ words_of_all first + slot_in types number }
    ensures one { (types : List Ty) (number : ℕ) → AllByRecursion (λ t. words_of t ≡ 1) types → number ≤ length types → slot_in types number ≡ number }
{}

/// The plain program of a well-typed program is well-formed and follows the source program.
pub fn lowered_programs_follow()
    ensures { (source : Program) → IsWellTypedProgram source → CanBeLowered source → IsLowered source (lower_program source) }
{}
