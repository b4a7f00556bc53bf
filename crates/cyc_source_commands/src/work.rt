//! The commands on a source text, as functions of the text's bytes.
ghost use Rattle.std.specs.Prelude.{◌≡◌, ◌⊎◌, MatchResult};
ghost use Rattle.cyc_words.specs.Fault.{memory_fault};
ghost use Rattle.cyc_front.specs.Front.{HasFault};
ghost use Rattle.cyc_compiler.specs.Compiled.{HasFaultAtLast};
ghost use Rattle.cyc_source_commands.specs.inside.Work.{AnswersCheck, AnswersCompile, AnswersPlaced, AnswersLimits, limits_from};

use cyc_bound::{CallBound, PageBound};
use cyc_cli::GivenLimits;
use cyc_compiler::{Bounds, Compilation, Placed, bounds, compile_with_places, compile_with_tokens};
use cyc_front::{Phases, run_phases};
use cyc_words::Fault;
use std::alloc::{AllocError, Global};
use std::mem::ManuallyDrop;

/// An upper bound on the bytes of any list that the phases make from a source text.
const LARGEST: usize = 4194304;

/// Allocates a block larger than all later blocks, and frees it unused. The C library maps each block above a threshold separately and
/// requests it anew from the system. Freeing a block raises the threshold to the size of the largest block freed. With a higher
/// threshold, the lists of a phase reuse pages that earlier phases freed.
pub fn widen_heap(alloc: Global) {
    let _: Result<Vec<u8>, AllocError> = Vec::with_capacity(alloc, LARGEST);
}

/// Checks a source text: its tokens, its grammar, its types and its flow. Returns the results of the phases, which are never freed.
pub fn check(alloc: Global, text: &[u8]) -> Result<ManuallyDrop<Phases>, Fault>
    ensures answer { AnswersCheck text.now result }
    // A text with a fault is never accepted.
    ensures refuses { (fault : Fault) → HasFault text.now fault
        → MatchResult result (λ _. ⊥) (λ f. (f ≡ memory_fault) ⊎ (f ≡ fault)) }
{
    // The process exits after the phases of a check, so their results are not freed. Freeing the results, node by node, would take a sixth
    // of the check's time.
    Ok(ManuallyDrop::new(run_phases(alloc, text)?))
}

/// Compiles a source text to an image. If a limit on pages or a limit on calls is given, the image contains limits on both.
pub fn compile(alloc: Global, text: &[u8], limits: GivenLimits) -> Result<Compilation, Fault>
    ensures answer { AnswersCompile text.now limits result }
    // A text with a fault is never compiled.
    ensures refuses { (fault : Fault) → HasFaultAtLast text.now fault
        → MatchResult result (λ _. ⊥) (λ f. (f ≡ memory_fault) ⊎ (f ≡ fault)) }
{
    compile_with_tokens(alloc, text, limits.carried())
}

/// Compiles a source text to an image. For each machine word of the image's code, also returns where the word comes from: a source position,
/// the code that runs before `main`, or the code that raises a function's built-in exceptions.
pub fn compile_placed(alloc: Global, text: &[u8], limits: GivenLimits) -> Result<Placed, Fault>
    ensures answer { AnswersPlaced text.now limits result }
    // A text with a fault is never compiled.
    ensures refuses { (fault : Fault) → HasFaultAtLast text.now fault
        → MatchResult result (λ _. ⊥) (λ f. (f ≡ memory_fault) ⊎ (f ≡ fault)) }
{
    compile_with_places(alloc, text, limits.carried())
}

/// Returns the run limits that follow from a program's bounds, if both the calls and the pages have a bound.
fn limits_of(bounds: &Bounds) -> Option<GivenLimits>
    ensures { result ≡ limits_from bounds.now.calls bounds.now.pages }
{
    match (&bounds.calls, &bounds.pages) {
        (CallBound::Calls { count: calls }, PageBound::Pages { count: pages }) => {
            GivenLimits::for_needs(*pages, *calls as u64)
        }
        _ => None,
    }
}

/// Returns the run limits that follow from the bounds of a text's program, or nothing if the calls or the pages have no bound or a bound
/// that no limit reaches.
pub fn own_limits(alloc: Global, text: &[u8]) -> Result<Option<GivenLimits>, Fault>
    // An image that carries these limits carries allowed limits, which are at least the bounds of its program. So a run of the image under
    // the limits that it carries is never full, by the law `bounded_programs_run`.
    ensures { AnswersLimits text.now result }
{
    let needed = bounds(alloc, text)?;
    Ok(limits_of(&needed))
}
