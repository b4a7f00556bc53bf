//! Laws of the definitions in `specs/`. Each function in this file does nothing, and its contract states one law, which is proved with the
//! crate. The lemmas that other proofs cite are in `proofs/`.

ghost use Rattle.std.specs.Prelude.{◌≡◌, ◌≢◌, ℕ, suc, ◌+◌, ◌<◌, ◌≤◌, List, ◌∷◌, ◌++◌, length, Some, true, false, drop};
ghost use Rattle.std.specs.List.{AllByRecursion};
ghost use Rattle.cyc_words.specs.Ending.{Full, Uncaught};
ghost use Rattle.cyc_words.specs.Seen.{IsPrefix};
ghost use Rattle.cyc_words.specs.Word.{signed};
ghost use Rattle.cyc_types.specs.TypedTrees.{Program};
ghost use Rattle.cyc_types.specs.typing.WellTyped.{IsWellTypedProgram};
ghost use Rattle.cyc_meaning.specs.State.{World, Environment, Entry, Focus, State, Throwing, Status, GoesOn, HasEnded, IsDead, output_of, input_of};
ghost use Rattle.cyc_meaning.specs.State.{status_of, depth};
ghost use Rattle.cyc_meaning.specs.State as state;
ghost use Rattle.cyc_meaning.specs.Step.{step};
ghost use Rattle.cyc_meaning.specs.inside.Effects.{printed_by, read_by, calls_after, Changes, DemandChanges, ChangesIn, StaysIn};
ghost use Rattle.cyc_meaning.specs.inside.Nesting.{Nests, is_access, IsUntried};
ghost use Rattle.cyc_meaning.specs.inside.Variables.{LivesIn, IsShut, waiting, IsLocal, HaveNames, AreDistinct, declared_by};
ghost use Rattle.cyc_meaning.specs.Run.{start, steps, run, is_within, limited_steps, limited_run};

/// The step is a function, so a program has one run for each input. Two states that a program reaches after equal numbers of steps are
/// equal. A run can be continued from any of its states.
pub fn run_is_a_function()
    ensures one { (program : Program) (input : List ℕ) (count : ℕ) (s t : State) → s ≡ run program input count → t ≡ run program input count
        → s ≡ t }
    ensures goes_on { (program : Program) (input : List ℕ) (m n : ℕ) → run program input (m + n) ≡ steps program n (run program input m) }
    ensures next { (program : Program) (input : List ℕ) (count : ℕ) → run program input (suc count) ≡ step program (run program input count) }
{}

/// A run that has ended, is dead or is wrong stays as it is; this holds for runs with limits and for runs without.
pub fn over_stays()
    ensures run { (program : Program) (count : ℕ) (s : State) → status_of s ≢ GoesOn → steps program count s ≡ s }
    ensures limited { (program : Program) (pages calls count : ℕ) (s : State) → status_of s ≢ GoesOn
        → limited_steps program pages calls count s ≡ s }
{}

/// Printed bytes stay printed, and input is read from its front, in runs with limits and in runs without.
pub fn output_grows()
    ensures output { (program : Program) (count : ℕ) (s : State) → IsPrefix (output_of s) (output_of (steps program count s)) }
    ensures input { (program : Program) (count : ℕ) (s : State)
        → (read : List ℕ) × (input_of s ≡ read ++ input_of (steps program count s)) }
    ensures limited_output { (program : Program) (pages calls count : ℕ) (s : State)
        → IsPrefix (output_of s) (output_of (limited_steps program pages calls count s)) }
    ensures limited_input { (program : Program) (pages calls count : ℕ) (s : State)
        → (read : List ℕ) × (input_of s ≡ read ++ input_of (limited_steps program pages calls count s)) }
{}

/// Only `putchar` prints, and it prints one byte; only `getchar` reads, and it reads one byte if any is left.
pub fn only_services_are_seen()
    ensures prints { (program : Program) (focus : Focus) (stack : List Entry) (e : Environment) (w : World)
        → output_of (step program (state.Running focus stack e w)) ≡ w.output ++ printed_by focus }
    ensures reads { (program : Program) (focus : Focus) (stack : List Entry) (e : Environment) (w : World)
        → input_of (step program (state.Running focus stack e w)) ≡ drop (read_by focus) w.input }
    ensures bytes { (program : Program) (input : List ℕ) (count : ℕ) → AllByRecursion (λ b. b < 256) (output_of (run program input count)) }
{}

/// A step makes at most one change: a region opened or closed, an object allocated or freed, a cell written, a byte printed or read.
pub fn one_change_at_most()
    ensures { (program : Program) (focus : Focus) (stack : List Entry) (e : Environment) (w : World)
        → ChangesIn w (printed_by focus) (read_by focus) (step program (state.Running focus stack e w)) }
{}

/// The depth is the number of active calls. At the start the depth is one. A call adds one, the end of a call subtracts one, and no other
/// step changes the depth.
pub fn calls_are_counted()
    ensures starts { (program : Program) (input : List ℕ) → status_of (start program input) ≡ GoesOn → depth (start program input) ≡ 1 }
    ensures steps { (program : Program) (focus : Focus) (stack : List Entry) (e : Environment) (w : World)
        → status_of (step program (state.Running focus stack e w)) ≡ GoesOn
        → depth (step program (state.Running focus stack e w)) ≡ calls_after focus stack }
{}

/// The limited run equals the unlimited run as long as all states are within the limits. At the first step that exceeds a limit, the
/// limited run ends with `Full`, with output and input as before that step. Every outcome of a limited run other than `Full` is an outcome
/// of the run without limits. A run without limits never ends with `Full`.
pub fn limited_run_agrees()
    ensures within { (program : Program) (pages calls count : ℕ) (input : List ℕ)
        → ((n : ℕ) → n ≤ count → is_within pages calls (run program input n) ≡ true)
        → limited_run program pages calls input count ≡ run program input count }
    ensures until { (program : Program) (pages calls count : ℕ) (input : List ℕ)
        → status_of (limited_run program pages calls input count) ≢ HasEnded Full
        → limited_run program pages calls input count ≡ run program input count }
    ensures alike { (program : Program) (pages calls count : ℕ) (input : List ℕ) (status : Status) → status ≢ HasEnded Full
        → status_of (limited_run program pages calls input count) ≡ status → status_of (run program input count) ≡ status }
    ensures full { (program : Program) (pages calls last count : ℕ) (input : List ℕ)
        → ((n : ℕ) → n ≤ last → is_within pages calls (run program input n) ≡ true)
        → is_within pages calls (run program input (suc last)) ≡ false → last < count
        → limited_run program pages calls input count ≡ state.Ended Full (output_of (run program input last)) (input_of (run program input last)) }
    ensures starts { (program : Program) (pages calls : ℕ) (input : List ℕ) → 1 ≤ pages → 1 ≤ calls
        → is_within pages calls (start program input) ≡ true }
    ensures unlimited { (program : Program) (input : List ℕ) (count : ℕ) → status_of (run program input count) ≢ HasEnded Full }
{}

/// No index of a region or an object is reused. A region keeps its sort, and stays closed once it is closed. An object keeps its owner and
/// the kinds of its cells, and stays freed once it is freed.
pub fn numbers_stay()
    ensures { (program : Program) (count : ℕ) (focus : Focus) (stack : List Entry) (e : Environment) (w : World)
        → StaysIn w (steps program count (state.Running focus stack e w)) }
{}

/// Regions of blocks and lexical regions nest. The regions still to be closed are open, and each was opened before the one nested in it.
/// Variables are allocated in the region of the innermost block, and no other lexical region is open. A step can be dead (use freed
/// memory) only if it accesses a cell, an object or a region by a value.
pub fn regions_nest()
    ensures nest { (program : Program) (input : List ℕ) (count : ℕ) → Nests (run program input count) }
    ensures dies { (program : Program) (input : List ℕ) (count : ℕ) (focus : Focus) (stack : List Entry) (e : Environment) (w : World)
        → run program input count ≡ state.Running focus stack e w → status_of (run program input (suc count)) ≡ IsDead
        → is_access focus stack ≡ true }
{}

/// In a well-typed program, each live object in a region of variables is a global or a local of an active call. No two locals of active
/// calls are one object, and no local is a global. If a local is declared again, its former object is in a block that was left.
pub fn variables_have_names()
    ensures named { (program : Program) (input : List ℕ) (count : ℕ) (focus : Focus) (stack : List Entry) (e : Environment) (w : World)
        → IsWellTypedProgram program
        → run program input count ≡ state.Running focus stack e w → HaveNames (length program.globals) (e.locals ∷ waiting stack) w.objects w.regions }
    ensures distinct { (program : Program) (input : List ℕ) (count : ℕ) (focus : Focus) (stack : List Entry) (e : Environment) (w : World)
        → IsWellTypedProgram program
        → run program input count ≡ state.Running focus stack e w → AreDistinct (e.locals ∷ waiting stack) }
    ensures apart { (program : Program) (input : List ℕ) (count : ℕ) (focus : Focus) (stack : List Entry) (e : Environment) (w : World)
        (call number object : ℕ) → IsWellTypedProgram program
        → run program input count ≡ state.Running focus stack e w → IsLocal (e.locals ∷ waiting stack) call number object → length program.globals ≤ object }
    ensures again { (program : Program) (input : List ℕ) (count : ℕ) (focus : Focus) (stack : List Entry) (e : Environment) (w : World)
        (number object region : ℕ) → IsWellTypedProgram program
        → run program input count ≡ state.Running focus stack e w → declared_by focus stack ≡ Some number → e.locals number ≡ Some object
        → LivesIn w.objects object region
        → IsShut w.regions region }
{}

/// An exception that no `try` encloses pops all control-stack entries, one per step, and then ends the run; nothing is printed or
/// read meanwhile.
pub fn uncaught_ends()
    ensures { (program : Program) (input : List ℕ) (count tag value : ℕ) (stack : List Entry) (e : Environment) (w : World)
        → run program input count ≡ state.Running (Throwing tag value) stack e w → IsUntried stack
        → run program input (count + suc (length stack)) ≡ state.Ended (Uncaught tag (signed value)) w.output w.input }
{}

/// The effect of each kind of step on the number of pages in use. Only opening and closing regions and allocating objects change
/// this number, by the pages of one region or of the size classes of unique blocks.
pub fn demand_is_counted()
    ensures { (w new : World) (printed : List ℕ) (count : ℕ) (change : Changes w printed count new) → DemandChanges change }
{}
