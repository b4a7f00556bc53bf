//! Lays out the stack frames of a program's functions.

ghost use Rattle.std.specs.Prelude.{◌≡◌, ◌+◌, ◌<◌, ◌≤◌, ◌⊎◌, true, length, map, IfOk};
ghost use Rattle.cyc_words.specs.Decision.{Decides};
ghost use Rattle.cyc_plain.specs.inside.Program.{routine_of};
ghost use Rattle.cyc_registers.specs.inside.Interference.{AreHomes};
ghost use Rattle.cyc_registers.specs.inside.Fills.{AreFillable};
ghost use Rattle.cyc_registers.specs.inside.Idle.{AreIdle};
ghost use Rattle.cyc_frame.specs.inside.Layout.{AllReturn, AreFirstFrames, AreFrames, HasSmallFrames, IsAccepted, IsFrame, IsTooLarge};
ghost use Rattle.cyc_frame.specs.inside.Layout.{first_too_large, loses, loses_any, opens, opens_any, returns, returns_any};

use crate::frame::Frame;
use crate::frames::Frames;
use cyc_plain::{Function, Instruction, LAYOUT_WORDS, MOST_FRAME_WORDS, Plain};
use cyc_registers::{MOST_SAVED, allocate};
use cyc_words::{Code, Fault, Span};
use std::alloc::{AllocError, Global};

/// Returns the source position of the name of the first function whose frame is too large.
fn first_too_large(functions: &[Function]) -> Option<Span>
    ensures { result ≡ first_too_large (map routine_of functions.now) }
{
    for function in functions {
        if function.frame_count > MOST_FRAME_WORDS {
            return Some(function.name);
        }
    }
    None
}

/// Returns true if an instruction overwrites the return address register: a call, or the opening of an exception handler.
fn loses(instruction: Instruction) -> bool
    ensures { result ≡ loses instruction }
{
    matches!(
        instruction,
        Instruction::Call { .. } | Instruction::Try { .. }
    )
}

/// Returns true if some instruction of the code overwrites the return address register.
fn loses_any(code: &[Instruction]) -> bool
    ensures { result ≡ loses_any code.now }
{
    for instruction in code {
        if loses(*instruction) {
            return true;
        }
    }
    false
}

/// Returns true if an instruction is a return, whose size includes machine words to save and restore registers.
fn returns(instruction: Instruction) -> bool
    ensures { result ≡ returns instruction }
{
    matches!(
        instruction,
        Instruction::Return { .. } | Instruction::Finish { .. }
    )
}

/// Returns true if some instruction of the code is a return.
fn returns_any(code: &[Instruction]) -> bool
    ensures { result ≡ returns_any code.now }
{
    for instruction in code {
        if returns(*instruction) {
            return true;
        }
    }
    false
}

/// Returns true if each function contains a return.
fn all_return(plain: &Plain) -> bool
    ensures { result ≡ true → AllReturn plain.now }
{
    let functions = plain.functions();
    for number in 0..functions.len() {
        if !returns_any(&plain.function(number).code) {
            return false;
        }
    }
    true
}

/// Returns true if an instruction opens an exception handler.
fn opens(instruction: Instruction) -> bool
    ensures { result ≡ opens instruction }
{
    matches!(instruction, Instruction::Try { .. })
}

/// Returns true if some instruction of the code opens an exception handler.
fn opens_any(code: &[Instruction]) -> bool
    ensures { result ≡ opens_any code.now }
{
    for instruction in code {
        if opens(*instruction) {
            return true;
        }
    }
    false
}

/// Returns the frame of a function that may save `most` registers. The return address comes first, then the saved registers, then the slots
/// in order.
fn frame_of(
    alloc: Global,
    plain: &Plain,
    function: &Function,
    most: usize,
) -> Result<Frame, AllocError>
    requires fits { function.now.slots + LAYOUT_WORDS ≤ function.now.frame_count }
    requires small { function.now.frame_count ≤ MOST_FRAME_WORDS }
    requires most { most ≤ MOST_SAVED }
    requires returns { 0 < most → returns_any function.now.code.items ≡ true }
    ensures frame { IfOk result (λ frame. IsFrame (routine_of function.now) frame) }
    ensures homes { IfOk result (λ frame. AreHomes plain.now (routine_of function.now) frame.saved frame.homes) }
    ensures saved { IfOk result (λ frame. frame.saved ≤ most) }
    ensures idle { IfOk result (λ frame. AreIdle plain.now (routine_of function.now) frame.homes frame.idle) }
    ensures fills { IfOk result (λ frame. AreFillable plain.now (routine_of function.now) frame.homes frame.fills) }
{
    let given = allocate(alloc, plain, function, most)?;
    Ok(Frame {
        return_address: 0,
        saves: loses_any(&function.code),
        first_saved: 1,
        saved: given.saved,
        first_slot: LAYOUT_WORDS,
        parameters: function.parameters,
        homes: given.homes,
        idle: given.idle,
        fills: given.fills,
    })
}

/// Returns the greater of `most` and the number of registers that a frame saves.
fn greatest(most: usize, frame: &Frame) -> usize
    ensures rises { most ≤ result }
    ensures covers { frame.now.saved ≤ result }
    ensures either { (result ≡ most) ⊎ (result ≡ frame.now.saved) }
{
    if most < frame.saved {
        frame.saved
    } else {
        most
    }
}

/// Makes each function that opens handlers save as many registers as any function does, since an exception leaves calls without restoring
/// registers.
fn raise(plain: &Plain, most: usize, frames: &mut Vec<Frame>)
    requires first { AreFirstFrames plain.now (length plain.now.functions) most frames.old.items }
    requires most { most ≤ MOST_SAVED }
    requires returns { 0 < most → AllReturn plain.now }
    ensures { AreFrames plain.now frames.new.items }
{
    for number in 0..frames.len() {
        if opens_any(&plain.function(number).code) {
            frames[number].saved = most;
        }
    }
}

fn frames_of(alloc: Global, plain: &Plain) -> Result<Vec<Frame>, AllocError>
    requires { HasSmallFrames plain.now }
    ensures { IfOk result (λ frames. AreFrames plain.now frames.items) }
{
    let functions = plain.functions();
    let may_save = if all_return(plain) { MOST_SAVED } else { 0 };
    let mut frames = Vec::with_capacity(alloc, functions.len())?;
    let mut most = 0;
    for number in 0..functions.len() {
        let frame = frame_of(alloc, plain, plain.function(number), may_save)?;
        most = greatest(most, &frame);
        frames.push(frame)?;
    }
    raise(plain, most, &mut frames);
    Ok(frames)
}

/// Returns the stack frame of each function of a program.
///
/// If some function's frame has more than `MOST_FRAME_WORDS` words, the error is `FrameTooLarge`, at the name of the first such function.
/// For any other program, `layout` returns frames, unless memory runs out.
pub fn layout(alloc: Global, plain: &Plain) -> Result<Frames, Fault>
    ensures { Decides (IsAccepted plain.now) AreFrames (IsTooLarge plain.now) (IsTooLarge plain.now) result }
{
    let functions = plain.functions();
    if let Some(place) = first_too_large(functions) {
        return Err(Fault::new(Code::FrameTooLarge, place.line, place.column));
    }
    let frames = frames_of(alloc, plain)?;
    Ok(Frames::new(frames))
}
