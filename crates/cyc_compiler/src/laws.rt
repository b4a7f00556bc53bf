//! Laws of the definitions in `specs/`. Each function of this file is empty, and its contract states one law, which is proved with the
//! crate.

ghost use Rattle.std.specs.Prelude.{◌≡◌, ◌<◌, ◌≤◌, ◌+◌, ◌*◌, ◌++◌, length, List, [], ◌∷◌, ℕ, Some, Ok};
ghost use Rattle.std.specs.List.{AllByRecursion};
ghost use Rattle.cyc_elf.specs.Image.{ImageContents};
ghost use Rattle.cyc_elf.specs.Reading.{reading};
ghost use Rattle.cyc_store.specs.State.{StoreState, IsNew};
ghost use Rattle.cyc_machine_model.specs.Bounds.{Bounds, AreAllowed};
ghost use Rattle.cyc_machine_model.specs.Run.{World, Run, end_of, ending_of};
ghost use Rattle.cyc_machine_model.specs.WorldMachine.{seen_of as seen_in};
ghost use Rattle.cyc_machine_model.specs.declared.event.End.{End};
ghost use Rattle.cyc_machine_model.specs.Start.{start_world};
ghost use Rattle.cyc_words.specs.Seen.{showing};
ghost use Rattle.cyc_types.specs.TypedTrees.{Program};
ghost use Rattle.cyc_meaning.specs.Sizes.{size_per_weight, max_start_words};
ghost use Rattle.cyc_types.specs.Texts.{IsOfTextProgram};
ghost use Rattle.cyc_meaning.specs.SourceMachine.{seen_of};
ghost use Rattle.cyc_soundness.specs.Sound.{IsSound};
ghost use Rattle.cyc_front.specs.Front.{IsAcceptedText};
ghost use Rattle.cyc_compiler.specs.FullPreservation.{limited, DoesTheSame, IsAhead, AreAlike, PrintAlike, IsLoadable, IsImageOf, text_words};
ghost use Rattle.cyc_compiler.specs.Asking.{RunWithin, AsksAtTheEnd};
ghost use Rattle.cyc_compiler.specs.Needs.{AreBounds};
ghost use Rattle.cyc_compiler.specs.BoundedRuns.{Covers, Suffices, IsNotFull, HasOwnEnd};
ghost use Rattle.cyc_compiler.specs.declared.bounded.Bounds as needs;

/// The program of an accepted text has properties beyond the typing rules. In the program of an accepted text, structs have from 1 to 64
/// fields, and the indices of exceptions are 32-bit words. Each chain of pointer arithmetic is written separately.
pub fn accepted_programs_are_of_texts()
    ensures { (text : List ℕ) (p : Program) → IsAcceptedText text p → IsOfTextProgram p }
{}

/// The result of `compile` is read as an image, and the machine has memory for the image.
pub fn compiled_images_load()
    ensures { (p : Program) (file : List ℕ) → IsImageOf p file → (image : ImageContents) × (reading file ≡ Ok image) × IsLoadable image }
{}

/// The code of a compiled image has at most 100 machine words for each token of the source text, plus 7 for the start code.
pub fn compiled_images_are_small()
    ensures { (text : List ℕ) (p : Program) (file : List ℕ) → (a : IsAcceptedText text p) → (is : IsImageOf p file)
        → text_words is.image ≤ max_start_words + size_per_weight * length a.tokens }
{}

/// A compiled image keeps pace with its program: if the source text has t tokens, n steps of the program take at most (n + 1) * (7 + 100 *
/// t) instructions.
pub fn compiled_images_keep_up()
    ensures { (text : List ℕ) (p : Program) (file : List ℕ) → (a : IsAcceptedText text p) → (is : IsImageOf p file)
        → (limits : Bounds) (store : StoreState) (input : List ℕ) → AreAllowed limits.pages limits.calls → IsNew limits.pages store
        → AllByRecursion (λ b. b < 256) input
        → (n count : ℕ) (w : World) → (n + 1) * (max_start_words + size_per_weight * length a.tokens) ≤ count
        → Run count (start_world is.image limits store input) w → IsAhead (limited p limits input n) w }
{}

/// If an image does what a program means, each run of the machine shows the output and input of the program's limited run. No run of the
/// machine ends with a trap.
pub fn images_run_alike()
    ensures { (p : Program) (image : ImageContents) → DoesTheSame p image
        → (limits : Bounds) (store : StoreState) (input : List ℕ) → AreAllowed limits.pages limits.calls → IsNew limits.pages store
        → AllByRecursion (λ b. b < 256) input → AreAlike p image limits store input }
{}

/// Each run of the image prints what the program prints. Within (n + 1) * T instructions, T being the image's code words, the machine
/// has printed at least what the limited run prints in n steps. If the limited run has ended, then the machine has ended in the same
/// way, with equal output. The machine's output is always a prefix of the limited run's output, and if the machine has ended, then the
/// limited run has ended in the same way.
pub fn images_print_alike()
    ensures { (p : Program) (image : ImageContents) → DoesTheSame p image
        → (limits : Bounds) (store : StoreState) (input : List ℕ) → AreAllowed limits.pages limits.calls → IsNew limits.pages store
        → AllByRecursion (λ b. b < 256) input → PrintAlike p image limits store input }
{}

/// An image that does what a program means has one result over every store that satisfies the laws. Suppose a run over one store has ended;
/// then every run of the image over another heap store that satisfies the laws of heap stores ends in the same way within some number of
/// instructions, with the same output and remaining input. This law does not bound the number of these instructions by the length of the
/// run over the first heap store.
pub fn images_end_alike_over_every_store()
    ensures { (p : Program) (image : ImageContents) → DoesTheSame p image
        → (limits : Bounds) (one other : StoreState) (input : List ℕ) → AreAllowed limits.pages limits.calls → IsNew limits.pages one → IsNew limits.pages other
        → AllByRecursion (λ b. b < 256) input
        → (m : ℕ) (v : World) (end : End) → Run m (start_world image limits one input) v → end_of v ≡ Some end
        → (n : ℕ) × ((w : World) → Run n (start_world image limits other input) w
        → ((last : End) × (end_of w ≡ Some last) × (ending_of last ≡ ending_of end)) × (seen_in w ≡ seen_in v)) }
{}

/// If an image requests a byte after the end of its input for the first time, its program requests a byte after the end of the input.
/// With one more byte of input, the program reads this byte, and has printed exactly what the image has printed. Before an image
/// requests a byte, it cannot know that its input has ended.
pub fn asks_only_what_is_asked()
    ensures { (p : Program) (image : ImageContents) → DoesTheSame p image
        → (limits : Bounds) (store : StoreState) (input : List ℕ) (b : ℕ) → AreAllowed limits.pages limits.calls → IsNew limits.pages store
        → AllByRecursion (λ b. b < 256) input → b < 256
        → (count : ℕ) (w : World) → RunWithin count (start_world image limits store input) w → AsksAtTheEnd w
        → (k : ℕ) × (seen_of (limited p limits (input ++ b ∷ []) k) ≡ showing w.output []) }
{}

/// The bounds of a program hold for every run of its image. If the limits of a run are at least the bounds on calls and pages, the run is
/// never full. If there is also a bound on steps, then a run of (steps + 1) * T instructions has ended, T being the image's code words:
/// `main` has returned, or an exception was not caught.
pub fn bounded_images_end()
    ensures never_full { (p : Program) (image : ImageContents) (bounds : needs.Bounds) → DoesTheSame p image → AreBounds p bounds
        → (limits : Bounds) (store : StoreState) (input : List ℕ) → AreAllowed limits.pages limits.calls → IsNew limits.pages store
        → AllByRecursion (λ b. b < 256) input → Covers bounds limits
        → (count : ℕ) (w : World) → Run count (start_world image limits store input) w → IsNotFull w }
    ensures ends { (p : Program) (image : ImageContents) (bounds : needs.Bounds) → DoesTheSame p image → AreBounds p bounds → IsSound p
        → (limits : Bounds) (store : StoreState) (input : List ℕ) → AreAllowed limits.pages limits.calls → IsNew limits.pages store
        → AllByRecursion (λ b. b < 256) input → Covers bounds limits
        → (count : ℕ) (w : World) → Suffices bounds.steps (text_words image) count
        → Run count (start_world image limits store input) w → HasOwnEnd w }
{}
