//! This file states laws of the definitions in `specs/`. Each function of this file does nothing, and its contract states one law, which
//! is proved with the crate.

ghost use Rattle.std.specs.Prelude.{ℕ, List};
ghost use Rattle.cyc_syntax.specs.Trees.{Declaration};
ghost use Rattle.cyc_types.specs.Types.{Ty, ValueType};
ghost use Rattle.cyc_types.specs.TypedTrees.{Program};
ghost use Rattle.cyc_types.specs.typing.Programs.{IsTypedProgram};
ghost use Rattle.cyc_types.specs.typing.Tests.{kind_of};
ghost use Rattle.cyc_types.specs.typing.WellTyped.{Context, Converts, IsWellTypedProgram};
ghost use Rattle.cyc_types.specs.flow.Programs.{IsAllowedProgram};
ghost use Rattle.cyc_meaning.specs.Values.{Value, Operand};
ghost use Rattle.cyc_meaning.specs.Conversion.{conversion};
ghost use Rattle.cyc_meaning.specs.State.{Entry};
ghost use Rattle.cyc_soundness.specs.inside.guard.Programs.{IsGuardedProgram};
ghost use Rattle.cyc_soundness.specs.inside.Lives.{RunTy, Lives, at, value_at};
ghost use Rattle.cyc_soundness.specs.inside.Worlds.{Typing, AgreesWith, HasType, IsResult, Fits, Grows, Stays};
ghost use Rattle.cyc_soundness.specs.inside.Frames.{InScope, Exits};
ghost use Rattle.cyc_soundness.specs.inside.Awaited.{Want};
ghost use Rattle.cyc_soundness.specs.inside.Stacks.{IsStack};
ghost use Rattle.cyc_soundness.specs.Sound.{IsSound};

/// If a well-typed tree satisfies the flow rules, then it is guarded: it also satisfies the flow rules in the form that
/// the proofs about runs use.
pub fn allowed_programs_are_guarded()
    ensures { (program : Program) → IsWellTypedProgram program → IsAllowedProgram program → IsGuardedProgram program }
{}

/// The facts about a heap state (regions and objects) only grow, and the well-typed parts of a run state stay well-typed. A value
/// keeps its type for ever; a control stack keeps its type as long as no resource (key or unique pointer) changes its owner.
pub fn typings_stay()
    ensures values { (g h : Typing) → Grows g h → (t : RunTy) (v : Value) → HasType g t v → HasType h t v }
    ensures stacks { (p : Program) (g h : Typing) → Stays g h → (x : Exits) (locals : List InScope) (want : Want) (stack : List Entry)
        → IsStack p g x locals want stack → IsStack p h x locals want stack }
{}

/// If the rules allow the conversion of a value, then the conversion yields a value of the target type, or raises an exception. Each
/// conversion is well-typed for all lifetimes of the regions that satisfy the outlives constraints.
pub fn conversions_fit()
    ensures { (g : Typing) (n : Lives) (c : Context) (s : ValueType) (t : Ty) (v : Operand) → AgreesWith c.regions n → Converts c s t
        → IsResult g (value_at n s) v → Fits g (at n t) (conversion (kind_of t) v.value) }
{}

/// If the typing rules derive a program that the flow rules accept, then no run of the program accesses freed memory or goes wrong.
pub fn typed_programs_are_sound()
    ensures { (texts : List (List ℕ)) (tree : List Declaration) (p : Program) → IsTypedProgram texts tree p → IsAllowedProgram p → IsSound p }
{}
