//! Laws of the definitions in `specs/`. Each function of this file is empty, and the function's contract states one law, which is
//! proved with the crate. The lemmas that other proofs cite are in `proofs/`.

ghost use Rattle.std.specs.Prelude.{◌≡◌, ◌≢◌, ℕ, ◌+◌, ◌<◌, List, ◌++◌, length, Some};
ghost use Rattle.cyc_words.specs.Seen.{IsPrefix};
ghost use Rattle.cyc_store.specs.State.{word_at};
ghost use Rattle.cyc_machine_model.specs.declared.event.End.{End};
ghost use Rattle.cyc_machine_model.specs.Run.{World, Run, end_of};
ghost use Rattle.cyc_machine_model.specs.declared.event.Event.{Event};
ghost use Rattle.cyc_machine_model.specs.Shape.{SameShape, phase_after};
ghost use Rattle.cyc_machine_model.specs.Step.{Step};
ghost use Rattle.cyc_machine_model.specs.State.{Core, Memory, State, Place, InText, InGlobals, InStack, InStore, register, with_register, place_of};
ghost use Rattle.cyc_machine_model.specs.State.{loaded, stored};

/// The state of a run that has ended never changes.
pub fn ended_stays()
    ensures { (count : ℕ) (old new : World) (end : End) → end_of old ≡ Some end → Run count old new → new ≡ old }
{}

/// In a run of the machine, output only grows, and input is consumed from its front.
pub fn output_grows()
    ensures output { (count : ℕ) (old new : World) → Run count old new → IsPrefix old.output new.output }
    ensures input { (count : ℕ) (old new : World) → Run count old new → (read : List ℕ) × (old.input ≡ read ++ new.input) }
{}

/// Two consecutive runs compose to one run, and each run can be split in two.
pub fn runs_compose()
    ensures joined { (m n : ℕ) (u v w : World) → Run m u v → Run n v w → Run (m + n) u w }
    ensures split { (m n : ℕ) (u w : World) → Run (m + n) u w → (v : World) × Run m u v × Run n v w }
{}

/// No run changes the text (program code), how many words and registers the machine has, or how many pages its heap store has.
pub fn shape_stays()
    ensures { (count : ℕ) (old new : World) → Run count old new → SameShape old.machine new.machine }
{}

/// The event of a step determines the machine's phase (running, waiting or ended) after the step: only `Ended` ends a run.
pub fn events_tell_the_phase()
    ensures { (old new : State) (event : Event) → Step old event new → new.phase ≡ phase_after event }
{}

/// A read of a register yields the word last written to this register, except that register 0 always reads 0.
pub fn registers_hold()
    ensures zero { (core : Core) → register core 0 ≡ 0 }
    ensures same { (core : Core) (number value : ℕ) → number ≢ 0 → number < length core.registers → register (with_register core number value) number ≡ value }
    ensures other { (core : Core) (number other value : ℕ) → other ≢ number → register (with_register core number value) other ≡ register core other }
{}

/// A load from the data range, the stack or a live block reads the word last stored there.
pub fn memory_holds()
    ensures globals { (m : Memory) (number word : ℕ) → number < length m.globals → loaded (stored m (InGlobals number) word) (InGlobals number) ≡ word }
    ensures stack { (m : Memory) (number word : ℕ) → number < length m.stack → loaded (stored m (InStack number) word) (InStack number) ≡ word }
    ensures store { (m : Memory) (address word old : ℕ) → word_at m.store address ≡ Some old
        → loaded (stored m (InStore address) word) (InStore address) ≡ word }
    ensures other { (m : Memory) (place other : Place) (word : ℕ) → other ≢ place → loaded (stored m place word) other ≡ loaded m other }
    ensures places { (m : Memory) (place : Place) (word address : ℕ) → place_of (stored m place word) address ≡ place_of m address }
{}
