//! Laws of the definitions in `specs/`. Each function of this file is empty, and the function's contract states one law, which is
//! proved with the crate. The lemmas that other proofs cite are in `proofs/`.

ghost use Rattle.std.specs.Prelude.{◌≡◌, ◌≢◌, ◌⊎◌, ℕ, ◌+◌, ◌*◌, ◌<◌, ◌≤◌, List, length, ◌++◌, true, false, Some, None, slice_get, Contains};
ghost use Rattle.std.specs.List.{AllByRecursion};
ghost use Rattle.cyc_words.specs.Ending.{Ending, Full};
ghost use Rattle.cyc_words.specs.Seen.{IsPrefix};
ghost use Rattle.cyc_store.specs.State.{StoreState, word_at, IsNew};
ghost use Rattle.cyc_store.specs.State as stores;
ghost use Rattle.cyc_store.specs.Services as services;
ghost use Rattle.cyc_store.specs.Services.{Call, Refusal, refusal};
ghost use Rattle.cyc_plain.specs.inside.Requests.{destination_of};
ghost use Rattle.cyc_plain.specs.declared.instruction.Request.{Request};
ghost use Rattle.cyc_plain.specs.inside.Program.{Program, CodePlace, routine_at, places_of};
ghost use Rattle.cyc_plain.specs.declared.instruction.Instruction.{Instruction};
ghost use Rattle.cyc_plain.specs.declared.instruction.Instruction.TheVariants as instructions;
ghost use Rattle.cyc_words.specs.Simulation.{Run};
ghost use Rattle.cyc_words.specs.Distinct.{IsDistinct};
ghost use Rattle.cyc_words.specs.inside.Following.{Path};
ghost use Rattle.cyc_words.specs.Simulation as simulation;
ghost use Rattle.cyc_plain.specs.inside.State.{Words, Frame, Configuration, State, HoldsWords, put, copied, depth, output_of, input_of, place_of, status_of};
ghost use Rattle.cyc_plain.specs.inside.State as state;
ghost use Rattle.cyc_plain.specs.inside.Memory.{slots_base, slots_end, IsBelow, LieBelow, is_pinned, memory_at};
ghost use Rattle.cyc_plain.specs.declared.limits.TheConstants.{GLOBALS_BASE};
ghost use Rattle.cyc_store.specs.declared.range.TheConstants.{STORE_BASE};
ghost use Rattle.cyc_plain.specs.inside.Step.{Choice, IsServed, Step, advanced, asked, call_in, called, instruction_at, is_within, limit_at};
ghost use Rattle.cyc_plain.specs.inside.Step.{limit_of, limited_step, machine, performed, served_to, start, step};
ghost use Rattle.cyc_plain.specs.inside.Straight.{HasAt, AreStraight, executed_in, places_after};
ghost use Rattle.cyc_plain.specs.inside.Uniform.{AsksNoRoom, UniformStep};
ghost use Rattle.cyc_plain.specs.inside.WellFormed.{IsWellFormed, HasWords, DividesByZero, AsksForNoWord, AsksInVain, AsksForHandlers};

/// A run of a plain program that has ended stays in its state.
pub fn ended_stays()
    ensures { (program : Program) (pages calls count : ℕ) (old new : State) (ending : Ending) → status_of old ≡ simulation.Ended ending
        → Run (machine program pages calls) count old new → new ≡ old }
{}

/// In a run of a plain program, output only grows, and input is consumed from its front.
pub fn output_grows()
    ensures output { (program : Program) (pages calls count : ℕ) (old new : State) → Run (machine program pages calls) count old new
        → IsPrefix (output_of old) (output_of new) }
    ensures input { (program : Program) (pages calls count : ℕ) (old new : State) → Run (machine program pages calls) count old new
        → (read : List ℕ) × (input_of old ≡ read ++ input_of new) }
{}

/// From every state there is a step, with two exceptions. Either the instruction calls a function and the stack has no space for the
/// function's slots, or the instruction makes a request that the store serves. (For a request to the store, the step relation describes
/// the allowed results, and the store promises that one exists.)
pub fn steps_go_on()
    ensures free { (program : Program) (pages calls : ℕ) (old : State) → asked program old ≡ None → called program old ≡ None
        → (new : State) × Step program pages calls old new }
    ensures called { (program : Program) (pages calls : ℕ) (c : Configuration) (function base : ℕ) → called program (state.Running c) ≡ Some function
        → IsBelow program function base c.active.base → (new : State) × Step program pages calls (state.Running c) new }
    ensures refused { (program : Program) (pages calls : ℕ) (c : Configuration) (call : Call) (why : Refusal)
        → asked program (state.Running c) ≡ Some call → refusal c.store call ≡ Some why
        → (new : State) × Step program pages calls (state.Running c) new }
{}

/// Every state of a limited run is within the limits. A step to a state within the limits is the program's own step; any other step
/// ends the run with `Full`, and output and input are as before this step. For `Enter` the limit of calls is one less.
pub fn limits_are_kept()
    ensures starts { (program : Program) (pages calls base : ℕ) (store : StoreState) (input : List ℕ) → IsNew pages store → 1 ≤ pages → 1 ≤ calls
        → is_within pages calls (start program base store input) ≡ true }
    ensures stays { (program : Program) (pages calls count : ℕ) (old new : State) → is_within pages calls old ≡ true
        → Run (machine program pages calls) count old new → is_within pages calls new ≡ true }
    ensures within { (program : Program) (pages calls : ℕ) (choice : Choice) (old : State)
        → is_within pages (limit_at program old calls) (step program choice old) ≡ true
        → limited_step program pages calls choice old ≡ step program choice old }
    ensures full { (program : Program) (pages calls : ℕ) (choice : Choice) (old : State)
        → is_within pages (limit_at program old calls) (step program choice old) ≡ false
        → limited_step program pages calls choice old ≡ state.Ended Full (output_of old) (input_of old) }
{}

/// `Enter` continues without further effect if one more call is allowed; otherwise `Enter` ends the run, exactly when a call of the
/// function would.
pub fn room_is_asked()
    ensures room { (program : Program) (pages calls : ℕ) (c : Configuration) (function : ℕ) (new : State)
        → instruction_at program (place_of (state.Running c)) ≡ Some (instructions.Enter function)
        → is_within pages calls (state.Running c) ≡ true → depth (state.Running c) < calls
        → Step program pages calls (state.Running c) new → new ≡ state.Running (advanced c) }
    ensures full { (program : Program) (pages calls : ℕ) (c : Configuration) (function : ℕ) (new : State)
        → instruction_at program (place_of (state.Running c)) ≡ Some (instructions.Enter function)
        → calls ≤ depth (state.Running c) → Step program pages calls (state.Running c) new
        → new ≡ state.Ended Full c.output c.input }
    ensures called { (program : Program) (pages calls : ℕ) (choice other : Choice) (c : Configuration) (function arguments count result : ℕ)
        → is_within pages (limit_of (Some (instructions.Enter function)) calls) (performed program choice c (instructions.Enter function))
        ≡ is_within pages calls (performed program other c (instructions.Call function arguments count result)) }
{}

/// A program without `Enter` has the same steps as on the machine whose limit of calls is the same at each instruction.
pub fn room_is_not_asked()
    ensures uniform { (program : Program) (pages calls : ℕ) (old new : State) → AsksNoRoom program
        → Step program pages calls old new → UniformStep program pages calls old new }
    ensures own { (program : Program) (pages calls : ℕ) (old new : State) → AsksNoRoom program
        → UniformStep program pages calls old new → Step program pages calls old new }
{}

/// A request that the store does not refuse gets a handle, an address and memory contents that the store allows, and the run
/// continues with the result. If the store lacks memory for the request's result, the run ends.
pub fn calls_are_served()
    ensures served { (program : Program) (pages calls : ℕ) (c : Configuration) (request : Request) (new : State)
        → instruction_at program (place_of (state.Running c)) ≡ Some (instructions.Ask request)
        → refusal c.store (call_in c.active.slots request) ≡ None
        → ((choice : services.Choice) → IsServed c.store (call_in c.active.slots request) choice
        → is_within pages calls (state.Running (served_to choice c (destination_of request) (call_in c.active.slots request))) ≡ true)
        → Step program pages calls (state.Running c) new
        → (choice : services.Choice) × IsServed c.store (call_in c.active.slots request) choice
        × (new ≡ state.Running (served_to choice c (destination_of request) (call_in c.active.slots request))) }
    ensures full { (program : Program) (pages calls : ℕ) (c : Configuration) (request : Request) (new : State)
        → instruction_at program (place_of (state.Running c)) ≡ Some (instructions.Ask request)
        → refusal c.store (call_in c.active.slots request) ≡ Some services.Full → Step program pages calls (state.Running c) new
        → new ≡ state.Ended Full c.output c.input }
{}

/// A run of a well-formed program gets stuck only in four cases. A run gets stuck at a division by 0, or at an access to an address
/// without a word. A run gets stuck at a request that the store refuses for a reason other than lack of memory. A run may get stuck at an
/// instruction that closes a handler, throws, or returns from a function with handlers.
pub fn few_get_stuck()
    ensures { (program : Program) (pages calls count base : ℕ) (store : StoreState) (input : List ℕ) (old new : State) → IsWellFormed program
        → Run (machine program pages calls) count (start program base store input) old → status_of old ≡ simulation.Running
        → Step program pages calls old new → status_of new ≡ simulation.Failed
        → DividesByZero program old ⊎ (AsksForNoWord program old ⊎ (AsksInVain program old ⊎ AsksForHandlers program old)) }
{}

/// If all numbers of a program, its store and its input are machine words and bytes, every value in a run of the program is a machine word.
pub fn values_are_words()
    ensures { (program : Program) (pages calls count base : ℕ) (store : StoreState) (input : List ℕ) (new : State) → HasWords program
        → stores.AreWords store.memory → AllByRecursion (λ b. b < 256) input → Run (machine program pages calls) count (start program base store input) new
        → HoldsWords new }
{}

/// In each state of a run, each call's slots have lower addresses than its caller's, if the slots of `main` lie in the address
/// range of slots.
pub fn calls_lie_apart()
    ensures { (program : Program) (pages calls count base : ℕ) (store : StoreState) (input : List ℕ) (new : State)
        → IsBelow program program.main base slots_end → Run (machine program pages calls) count (start program base store input) new → LieBelow program new }
{}

/// Loads and stores access each word of memory at its address: globals, words of the store, and the slots of active and waiting calls
/// whose address is taken.
pub fn words_have_addresses()
    ensures global { (program : Program) (c : Configuration) (number : ℕ) → IsWellFormed program → number < length program.globals
        → memory_at program c (GLOBALS_BASE + 4 * number) ≡ Some (c.globals number) }
    ensures store { (program : Program) (c : Configuration) (address : ℕ) → STORE_BASE ≤ address → address < slots_base
        → memory_at program c address ≡ word_at c.store address }
    ensures active { (program : Program) (c : Configuration) (slot : ℕ) → IsWellFormed program → LieBelow program (state.Running c)
        → is_pinned (routine_at program c.active.function).code slot ≡ true
        → memory_at program c (c.active.base + 4 * slot) ≡ Some (c.active.slots slot) }
    ensures waiting { (program : Program) (c : Configuration) (k slot : ℕ) (f : Frame) → IsWellFormed program → LieBelow program (state.Running c)
        → slice_get c.frames k ≡ Some f → is_pinned (routine_at program f.caller.function).code slot ≡ true
        → memory_at program c (f.caller.base + 4 * slot) ≡ Some (f.caller.slots slot) }
{}

/// The list `places_of` of a program contains the code position of each instruction.
pub fn places_are_listed()
    ensures { (program : Program) (place : CodePlace) (i : Instruction) → instruction_at program place ≡ Some i
        → Contains (places_of program) place }
{}

/// Each run through straight-line code reaches the configuration that the code determines, whatever values the steps choose,
/// and executes no instruction twice.
pub fn straight_code_runs()
    ensures runs { (program : Program) (pages calls : ℕ) (choice : Choice) (is : List Instruction) (c : Configuration) (new : State) → AreStraight is
        → HasAt (routine_at program c.active.function).code c.active.next is → is_within pages calls (state.Running c) ≡ true
        → Path (machine program pages calls) (places_after c.active.function c.active.next (length is)) (state.Running c) new
        → new ≡ state.Running (executed_in program choice c is) }
    ensures distinct { (function index count : ℕ) → IsDistinct (places_after function index count) }
{}

/// A slot contains the word that was last written or copied to it.
pub fn slots_hold()
    ensures same { (words : Words) (number word : ℕ) → put words number word number ≡ word }
    ensures other { (words : Words) (number other word : ℕ) → other ≢ number → put words number word other ≡ words other }
    ensures inside { (from to : Words) (source count destination k : ℕ) → k < count
        → copied from source count to destination (destination + k) ≡ from (source + k) }
    ensures below { (from to : Words) (source count destination number : ℕ) → number < destination
        → copied from source count to destination number ≡ to number }
    ensures above { (from to : Words) (source count destination number : ℕ) → destination + count ≤ number
        → copied from source count to destination number ≡ to number }
{}
