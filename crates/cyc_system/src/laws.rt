//! Laws of the definitions in `specs/` of this crate and of the lower crates. Each function is empty, and the function's contract is
//! the law, which is proved with the law's crate.

ghost use Rattle.std.specs.Prelude.{◌≡◌, ◌<◌, Bool, List, ℕ, Some, Result, Ok};
ghost use Rattle.std.specs.List.{AllByRecursion};
ghost use Rattle.cyc_elf.specs.Reading.{reading};
ghost use Rattle.cyc_store.specs.State.{StoreState, IsNew};
ghost use Rattle.cyc_machine_model.specs.Bounds.{Bounds, AreAllowed};
ghost use Rattle.cyc_types.specs.TypedTrees.{Program};
ghost use Rattle.cyc_compiler.specs.Compiled.{IsCompiledText};
ghost use Rattle.cyc_compiler.specs.FullPreservation.{IsImageOf, text_words};
ghost use Rattle.cyc_compiler.specs.Needs.{AreBounds};
ghost use Rattle.cyc_compiler.specs.BoundedRuns.{Covers, Suffices};
ghost use Rattle.cyc_compiler.specs.declared.bounded.Bounds as needs;
ghost use Rattle.cyc_emulator.specs.Engine.{Devices, Answers, AnswersAnew};
ghost use Rattle.cyc_system.specs.CompiledRuns.{RunsAs};
ghost use Rattle.cyc_system.specs.BoundedReports.{IsNotReportedFull, ReportsOwnEnd};
ghost use Rattle.cyc_emulator.specs.declared.report.Report.{Report};
ghost use Rattle.cyc_emulator.specs.declared.report.RunFault.{RunFault};

pub use cyc_compiler::laws::{
    accepted_programs_are_of_texts, asks_only_what_is_asked, bounded_images_end,
    compiled_images_are_small, compiled_images_keep_up, compiled_images_load,
    images_end_alike_over_every_store, images_print_alike, images_run_alike,
};
pub use cyc_front::laws::{accepted_or_refused, accepted_programs_are_sound};
pub use cyc_image::laws::note_limits_are_allowed;

/// The law of `compile` followed by `run`, or by `run_with` over any new store. For a compiled text, the output, the input read and the
/// result are those of its program's run within limits, for all limits, inputs and budgets. A budget of (n + 1) * T, T being the
/// image's code words, lets the run come as far as the program in n steps.
pub fn compiled_programs_run()
    ensures anew { (text : List ℕ) (p : Program) (file : List ℕ) → IsCompiledText text p → (is : IsImageOf p file)
        → (limits : Bounds) (input : List ℕ) → AreAllowed limits.pages limits.calls → AllByRecursion (λ b. b < 256) input
        → (grows : Bool) (budget : ℕ) (old new : Devices) (result : Result Report RunFault) → old.remaining ≡ Some input
        → AnswersAnew grows (reading file) limits budget old new result → RunsAs p limits input (text_words is.image) budget old new result }
    ensures over_a_store { (text : List ℕ) (p : Program) (file : List ℕ) → IsCompiledText text p → (is : IsImageOf p file)
        → (limits : Bounds) (input : List ℕ) → AreAllowed limits.pages limits.calls → AllByRecursion (λ b. b < 256) input
        → (grows : Bool) (store : StoreState) → IsNew limits.pages store → (budget : ℕ) (old new : Devices) (result : Result Report RunFault)
        → old.remaining ≡ Some input
        → Answers grows store (reading file) limits budget old new result → RunsAs p limits input (text_words is.image) budget old new result }
{}

/// The law of `compile` followed by `run` under limits that are at least the bounds of `bounds`. The report is never that the run is full.
/// If there is also a bound on steps, a budget of (steps + 1) * T instructions, T being the image's code words, makes the report one of an
/// end that the program itself causes: `main` returned, or an exception was not caught.
pub fn bounded_programs_run()
    ensures never_full { (text : List ℕ) (p : Program) (file : List ℕ) (bounds : needs.Bounds) → IsCompiledText text p → (is : IsImageOf p file) → AreBounds p bounds
        → (limits : Bounds) (input : List ℕ) → AreAllowed limits.pages limits.calls → AllByRecursion (λ b. b < 256) input → Covers bounds limits
        → (grows : Bool) (budget : ℕ) (old new : Devices) (report : Report) → old.remaining ≡ Some input
        → AnswersAnew grows (reading file) limits budget old new (Ok report) → IsNotReportedFull report.stop }
    ensures ends { (text : List ℕ) (p : Program) (file : List ℕ) (bounds : needs.Bounds) → IsCompiledText text p → (is : IsImageOf p file) → AreBounds p bounds
        → (limits : Bounds) (input : List ℕ) → AreAllowed limits.pages limits.calls → AllByRecursion (λ b. b < 256) input → Covers bounds limits
        → (grows : Bool) (budget : ℕ) (old new : Devices) (report : Report) → old.remaining ≡ Some input → Suffices bounds.steps (text_words is.image) budget
        → AnswersAnew grows (reading file) limits budget old new (Ok report) → ReportsOwnEnd report.stop }
{
    cyc_front::laws::accepted_programs_are_sound();
}
