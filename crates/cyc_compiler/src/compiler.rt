//! Compiles a text to an image.

ghost use Rattle.std.specs.Prelude.{◌≡◌, ◌*◌, ◌≤◌, None, IfOk, IfErr};
ghost use Rattle.cyc_words.specs.Decision.{Decides};
ghost use Rattle.cyc_words.specs.Fault.{memory_fault};
ghost use Rattle.cyc_syntax.specs.TokenRule.{max_tokens};
ghost use Rattle.cyc_types.specs.TypedTrees.{Program};
ghost use Rattle.cyc_types.specs.TypedTreeView.{view_program};
ghost use Rattle.cyc_types.specs.typing.WellTyped.{IsWellTypedProgram};
ghost use Rattle.cyc_types.specs.Weight.{program_weight};
ghost use Rattle.cyc_soundness.specs.Sound.{IsSound};
ghost use Rattle.cyc_meaning.specs.Sizes.{HasTooMany};
ghost use Rattle.cyc_meaning.specs.Sizes.{size_per_weight};
ghost use Rattle.cyc_lower_proof.specs.inside.Lowered.{CanBeLowered, IsAccepted};
ghost use Rattle.cyc_frame.specs.inside.Layout.{AreFrames};
ghost use Rattle.cyc_compiler.specs.inside.Chain.{IsProgramOf};
ghost use Rattle.cyc_front.specs.Front.{IsAcceptedText};
ghost use Rattle.cyc_front.specs.inside.Phases.{HasTokens};
ghost use Rattle.cyc_compiler.specs.FullPreservation.{IsImageOf};
ghost use Rattle.cyc_image.specs.Notes.{AreAllowedIfAny, Carries};
ghost use Rattle.cyc_compiler.specs.Compiled.{IsTooLarge, IsSmall, IsCompiledText, IsRefusedAtLast, HasFaultAtLast};

use crate::image::write_program;
use cyc_asm::assemble;
use cyc_frame::{Frames, layout};
use cyc_front::run_phases;
use cyc_inline::{inline, name_expressions};
use cyc_lower::lower;
use cyc_plain::Plain;
use cyc_propagation::simplify;
use cyc_select::select;
use cyc_sizes::weight_of;
use cyc_syntax::Token;
use cyc_types::Flowed;
use cyc_types::typed::TypedTree;
use cyc_warnings::{Found, find_warnings};
use cyc_words::Fault;
use std::alloc::Global;

/// Compiles a plain program with the frames of its functions. The bytes are an image of each source program that was lowered to the plain
/// program, if no run of the source program is dead or wrong. A dead run accesses a closed region or a freed object, and a wrong run
/// reaches a state without a rule of the semantics.
fn compile_plain(
    alloc: Global,
    plain: Plain,
    frames: Frames,
    note: Option<(u32, u32)>,
) -> Result<Vec<u8>, Fault>
    requires frames { AreFrames plain frames }
    requires allowed { AreAllowedIfAny note }
    ensures image { IfOk result (λ file. (p : Program) → IsSound p → IsProgramOf p plain → IsImageOf p file.items) }
    ensures note { IfOk result (λ file. Carries file.items note) }
    ensures refused { IfErr result (λ f. f ≡ memory_fault) }
{
    let code = select(alloc, &plain, &frames)?;
    // The plain program and its frames are dropped early, so that their memory can be used for the machine words and the file.
    drop(plain);
    drop(frames);
    let words = assemble(alloc, &code)?;
    let file = write_program(alloc, &words, code.globals(), note)?;
    Ok(file)
}

/// The largest number of machine words of code for each token that the program's spelling needs.
const SIZE_PER_WEIGHT: usize = 100;

/// Returns the largest number of machine words that the code of a program may have after inlining. If the program already has more
/// words, then nothing is inlined.
pub(crate) fn room_for(tree: &TypedTree) -> usize
    requires { program_weight (view_program tree.now) ≤ max_tokens }
    ensures { result ≡ size_per_weight * program_weight (view_program tree.now) }
{
    SIZE_PER_WEIGHT * weight_of(tree)
}

/// Returns the optimised plain program of a typed program: small functions are inlined, recomputed expressions have slots of their own,
/// and values that are determined at compile time are propagated. Every returned fault is a fault of the lowering.
fn lower_improved(alloc: Global, program: &Flowed) -> Result<Plain, Fault>
    requires well_typed { IsWellTypedProgram (view_program program.now.tree) }
    requires small { program_weight (view_program program.now.tree) ≤ max_tokens }
    requires can_be { CanBeLowered (view_program program.now.tree) }
    ensures { Decides (IsAccepted (view_program program.now.tree)) IsProgramOf (HasTooMany (view_program program.now.tree))
        (HasTooMany (view_program program.now.tree)) result }
{
    let plain = lower(alloc, program)?;
    let room = room_for(&program.tree);
    let inlined = inline(alloc, plain, room)?;
    let named = name_expressions(alloc, inlined.plain, room)?;
    let simplified = simplify(alloc, &named.plain)?;
    Ok(simplified)
}

/// Compiles a typed program to an image, and returns the bytes of its file.
pub(crate) fn build(
    alloc: Global,
    program: &Flowed,
    note: Option<(u32, u32)>,
) -> Result<Vec<u8>, Fault>
    requires well_typed { IsWellTypedProgram (view_program program.now.tree) }
    requires small { program_weight (view_program program.now.tree) ≤ max_tokens }
    requires can_be { CanBeLowered (view_program program.now.tree) }
    requires sound { IsSound (view_program program.now.tree) }
    requires allowed { AreAllowedIfAny note }
    ensures decides { Decides (IsSmall (view_program program.now.tree)) (λ p file. IsImageOf p file.items)
        (IsTooLarge (view_program program.now.tree)) (IsTooLarge (view_program program.now.tree)) result }
    ensures note { IfOk result (λ file. Carries file.items note) }
{
    let plain = lower_improved(alloc, program)?;
    let frames = layout(alloc, &plain)?;
    compile_plain(alloc, plain, frames, note)
}

/// The results for a compiled text: its tokens, the warnings, its typed tree, and the bytes of the image's file.
#[derive(Drop)]
pub struct Compilation {
    pub tokens: Vec<Token>,
    pub warnings: Vec<Found>,
    pub program: Flowed,
    pub image: Vec<u8>,
}

/// Compiles as `compile_with` does, and also returns the text's tokens and its warnings. The typed tree is also returned, so that a process
/// that exits next need not free the tree.
pub fn compile_with_tokens(
    alloc: Global,
    text: &[u8],
    note: Option<(u32, u32)>,
) -> Result<Compilation, Fault>
    requires { AreAllowedIfAny note }
    // The results and faults of `compile_with_tokens` are those of `compile_with`.
    ensures decides { Decides (IsCompiledText text.now) (λ p made. IsImageOf p made.image.items) (IsRefusedAtLast text.now) (HasFaultAtLast text.now) result }
    // The returned tokens are those of the text, and the returned typed tree is the program of the text.
    ensures tokens { IfOk result (λ made. HasTokens text.now made.tokens.items) }
    ensures program { IfOk result (λ made. IsAcceptedText text.now (view_program made.program.tree)) }
    // For every input and without limits, no step of any run of the program accesses a closed region or a freed object. Each step has a
    // rule of the semantics.
    ensures sound { IfOk result (λ _. (p : Program) → IsAcceptedText text.now p → IsSound p) }
    // The image contains the limits on pages and calls that `note` gives, or no limits if `note` gives none.
    ensures note { IfOk result (λ made. Carries made.image.items note) }
{
    let phases = run_phases(alloc, text)?;
    let warnings = find_warnings(alloc, &phases.tree, text);
    // The untyped tree is dropped early: its memory suffices for all later passes.
    drop(phases.tree);
    let image = build(alloc, &phases.program, note)?;
    Ok(Compilation {
        tokens: phases.tokens,
        warnings,
        program: phases.program,
        image,
    })
}

/// Compiles a text to an image with optional limits of its runs, on pages and calls, and returns the bytes of the image's file.
///
/// The front end runs first, and its faults are returned. An accepted program is rejected with `TooManyFunctions` at the name of the
/// 4,097th function. A program with at most 4,096 functions is rejected with `FrameTooLarge` at the name of the first function whose
/// frame may need more than 256 words. If the compiler itself runs out of memory, that is another error.
pub fn compile_with(alloc: Global, text: &[u8], note: Option<(u32, u32)>) -> Result<Vec<u8>, Fault>
    requires { AreAllowedIfAny note }
    // The result is an image that the machine can load and that does what the program of the text means. At every point of a run, the
    // machine's output and unread input are those of the program with limits on pages and calls after some number of steps. The
    // machine ends as the program ends, and the machine has no behaviour that the program lacks. Each returned fault is a fault of
    // the front end, or states that the program is too large.
    ensures decides { Decides (IsCompiledText text.now) (λ p file. IsImageOf p file.items) (IsRefusedAtLast text.now) (HasFaultAtLast text.now) result }
    // For every input and without limits, each step of every run of the program has a rule of the semantics. In particular, no step
    // accesses a cell of a closed region or of a freed object.
    ensures sound { IfOk result (λ _. (p : Program) → IsAcceptedText text.now p → IsSound p) }
    // The image contains the limits on pages and calls that `note` gives, or no limits if `note` gives none. These limits do not affect
    // the image's meaning: the user who runs the image sets the limits of the run.
    ensures note { IfOk result (λ file. Carries file.items note) }
{
    let made = compile_with_tokens(alloc, text, note)?;
    Ok(made.image)
}

/// Compiles a text to an image without limits, as `compile_with` does with `None`, and returns the bytes of its file.
pub fn compile(alloc: Global, text: &[u8]) -> Result<Vec<u8>, Fault>
    // The result is an image that the machine can load and that does what the program of the text means. At every point of a run, the
    // machine's output and unread input are those of the program with limits on pages and calls after some number of steps. The
    // machine ends as the program ends, and the machine has no behaviour that the program lacks. Each returned fault is a fault of
    // the front end, or states that the program is too large.
    ensures decides { Decides (IsCompiledText text.now) (λ p file. IsImageOf p file.items) (IsRefusedAtLast text.now) (HasFaultAtLast text.now) result }
    // For every input and without limits, each step of every run of the program has a rule of the semantics. In particular, no step
    // accesses a cell of a closed region or of a freed object.
    ensures sound { IfOk result (λ _. (p : Program) → IsAcceptedText text.now p → IsSound p) }
    // The image contains no limits of runs.
    ensures note { IfOk result (λ file. Carries file.items None) }
{
    compile_with(alloc, text, None)
}
