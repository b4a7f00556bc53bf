//! Laws of the bounds. Each function in this file has an empty body, and its contract states one law, which is proved with the crate.

ghost use Rattle.std.specs.Prelude.{◌≡◌, ℕ, ◌<◌, ◌≤◌, Bool, List, nat_le};
ghost use Rattle.cyc_types.specs.TypedTrees.{Program};
ghost use Rattle.cyc_meaning.specs.State.{demand, depth};
ghost use Rattle.cyc_meaning.specs.Run.{run, is_within, limited_run};
ghost use Rattle.cyc_bound.specs.declared.costs.Measure.{Measure};
ghost use Rattle.cyc_bound.specs.declared.costs.Measure.TheVariants as measures;
ghost use Rattle.cyc_bound.specs.Bound.{IsAtMost, IsCycle};
ghost use Rattle.cyc_bound.specs.Costs.{too_many, IsRunCost};
ghost use Rattle.cyc_bound.specs.Pages.{most_pages, AreCounted};
ghost use Rattle.cyc_bound.specs.Steps.{IsOver};

/// In no state of any run are more calls active than the longest chain of calls from `main` has functions. If the call limit is at least
/// the length of the longest chain of calls from `main`, it is never exceeded. No run under such a limit ends with `Full` because of calls.
pub fn calls_stay_within()
    ensures depth { (program : Program) (bound : ℕ) (input : List ℕ) (count : ℕ) → IsAtMost program program.main bound
        → depth (run program input count) ≤ bound }
    ensures within { (program : Program) (bound pages calls : ℕ) (input : List ℕ) (count : ℕ) → IsAtMost program program.main bound → bound ≤ calls
        → is_within pages calls (run program input count) ≡ nat_le (demand (run program input count)) pages }
    ensures alike { (program : Program) (bound pages calls more : ℕ) (input : List ℕ) (count : ℕ) → IsAtMost program program.main bound
        → bound ≤ calls → bound ≤ more
        → limited_run program pages calls input count ≡ limited_run program pages more input count }
{}

/// If a cycle of calls is reachable from `main`, no number is a bound on the active calls.
pub fn cycles_have_no_bound()
    ensures { (program : Program) (functions : List ℕ) (bound : ℕ) → IsCycle program functions → IsAtMost program program.main bound → ⊥ }
{}

/// Each run has ended after as many steps as its cost states, if that cost is less than the greatest counted value. A run that has ended
/// does not change, so no run takes more steps.
pub fn steps_end()
    ensures { (program : Program) (cost : ℕ) (input : List ℕ) (count : ℕ) → IsRunCost program measures.Steps cost → cost < too_many → cost ≤ count
        → IsOver (run program input count) }
{}

/// No state of any run requests more pages than the program's costs state. If the page limit is at least the number that the costs state,
/// it is never exceeded. No run under such a limit ends with `Full` because of pages.
pub fn pages_stay_within()
    ensures demand { (program : Program) (gives_back : Bool) (cost : Measure → ℕ) (input : List ℕ) (count : ℕ) → AreCounted program gives_back cost
        → demand (run program input count) ≤ most_pages gives_back cost }
    ensures within { (program : Program) (gives_back : Bool) (cost : Measure → ℕ) (pages calls : ℕ) (input : List ℕ) (count : ℕ)
        → AreCounted program gives_back cost → most_pages gives_back cost ≤ pages
        → is_within pages calls (run program input count) ≡ nat_le (depth (run program input count)) calls }
    ensures alike { (program : Program) (gives_back : Bool) (cost : Measure → ℕ) (pages more calls : ℕ) (input : List ℕ) (count : ℕ)
        → AreCounted program gives_back cost → most_pages gives_back cost ≤ pages → most_pages gives_back cost ≤ more
        → limited_run program pages calls input count ≡ limited_run program more calls input count }
{}

/// The cost of a run is unique.
pub fn costs_are_one()
    ensures { (program : Program) (m : Measure) (cost other : ℕ) → IsRunCost program m cost → IsRunCost program m other → cost ≡ other }
{}
