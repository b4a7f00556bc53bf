//! Counts the MIPS lines of each instruction, and assigns a line number to each line of the program.
ghost use Rattle.std.specs.Prelude.{◌≡◌, ◌+◌, ◌*◌, ◌<◌, ◌≤◌, length, map, sum_by, All, IfOk};
ghost use Rattle.cyc_plain.specs.inside.Program.{routine_of, routine_at, instruction_size, size};
ghost use Rattle.cyc_plain.specs.inside.WellFormed.{IsPlain, IsInRange};
ghost use Rattle.cyc_frame.specs.inside.Layout.{AreFrames, frame_at};
ghost use Rattle.cyc_registers.specs.declared.home.TheConstants.{MOST_BOTH, MOST_SAVED};
ghost use Rattle.cyc_select.specs.inside.Slots.{coming, arrival_count, way_count, saving_count};
ghost use Rattle.cyc_select.specs.inside.Operands.{reload_count, moves_count, operator_count};
ghost use Rattle.cyc_select.specs.inside.Passing.{spill_count, spills_count, pass_count, copies_count};
ghost use Rattle.cyc_select.specs.inside.Hoisting.{is_idle};
ghost use Rattle.cyc_select.specs.inside.Counts.{move_words_count, ending_count, body_count, after_count, count_of, code_count, function_line};
ghost use Rattle.cyc_select.specs.inside.Emission.{AreFew, AreNumbered, most_lines, instruction_lines, lines_in};

use crate::asking::ask_count;
use crate::constants::START_LINES;
use crate::globals::reach_count;
use crate::hoisting::branch_count;
use crate::memory::address_count;
use crate::operands::{
    arrival_count, give_count, hand_coming_count, is_kept, keep_coming_count, keep_count,
    load_count, move_count, operand_count, passed_from, reload_count, word_count,
};
use crate::operators::{Parts, is_tested, plan_count};
use crate::plan::{binary_plan, test_of, unary_plan};
use crate::tables::FunctionLines;
use cyc_frame::Frame;
use cyc_plain::{
    BinaryOperator, GREATEST_VALUE, Instruction, MOST_FRAME_WORDS, MOST_SIZE, Operand, Plain,
};
use cyc_registers::is_crossing;
use std::alloc::{AllocError, Global};

/// Returns the number of result words of a function.
pub(crate) fn results_of(plain: &Plain, function: usize) -> usize
    requires { function < length plain.now.functions }
    ensures { result ≡ (routine_at plain.now function).results }
{
    plain.function(function).results
}

/// Returns the code of a function.
pub(crate) fn code_of<'a>(plain: &'a Plain, function: usize) -> &'a [Instruction]
    requires { function < length plain.now.functions }
    ensures { result.now ≡ (routine_at plain.now function).code }
{
    &plain.function(function).code
}

fn known_frame(frames: &[Frame], function: usize) -> &Frame
    requires { function < length frames.now }
    ensures { result.now ≡ frame_at frames.now function }
{
    &frames[function]
}

/// Returns the frame of a function.
pub(crate) fn frame_in<'a>(plain: &Plain, frames: &'a [Frame], function: usize) -> &'a Frame
    requires fit { AreFrames plain.now frames.now }
    requires function { function < length plain.now.functions }
    ensures value { result.now ≡ frame_at frames.now function }
    ensures few { reload_count result.now ≤ MOST_BOTH }
    ensures saved { result.now.saved ≤ MOST_SAVED }
    ensures first_saved { result.now.first_saved ≤ MOST_FRAME_WORDS }
    ensures arrivals { arrival_count result.now ≤ MOST_SAVED }
{
    known_frame(frames, function)
}

fn operator_count(frame: &Frame, operator: BinaryOperator, parts: Parts) -> usize
    ensures { result ≡ operator_count frame.now operator parts.destination parts.left parts.right }
{
    if is_tested(operator, parts.right) {
        operand_count(frame, parts.left)
            + operand_count(frame, parts.right)
            + 6
            + keep_count(frame, parts.destination)
    } else {
        let plan = binary_plan(operator, parts.left, parts.right);
        plan_count(frame, plan, parts.destination)
    }
}

/// Returns the number of MIPS lines of a move that copies several words one by one.
#[tactic(auto, using(crate::proofs::emission::Counts::moves_next))]
fn moves_count(frame: &Frame, destination: usize, source: usize, count: usize) -> usize
    requires few { count ≤ GREATEST_VALUE }
    requires source { source + count ≤ MOST_FRAME_WORDS }
    requires target { destination + count ≤ MOST_FRAME_WORDS }
    ensures { result ≡ moves_count frame.now destination source count }
{
    let mut lines = 0;
    for word in 0..count {
        let from = Operand::Slot {
            number: source + word,
        };
        lines += move_count(frame, destination + word, from);
    }
    lines
}

/// Returns the number of MIPS lines of a move of several words.
fn move_words_count(frame: &Frame, destination: usize, source: usize, count: usize) -> usize
    requires few { count ≤ GREATEST_VALUE }
    requires source { source + count ≤ MOST_FRAME_WORDS }
    requires target { destination + count ≤ MOST_FRAME_WORDS }
    ensures { result ≡ move_words_count frame.now destination source count }
{
    if is_crossing(destination, source, count) {
        2 * count
    } else {
        moves_count(frame, destination, source, count)
    }
}

fn spill_count(caller: &Frame, callee: &Frame, source: usize, slot: usize) -> usize
    ensures value { result ≡ spill_count caller.now (coming callee.now) source slot }
    ensures few { result ≤ 1 }
{
    match passed_from(caller, callee, source, slot) {
        Some(_) => 0,
        None => { if is_kept(caller, source) { 0 } else { 1 } }
    }
}

/// Returns the number of MIPS lines before a call that store to memory the slots passed from memory.
#[tactic(auto, using(crate::proofs::emission::Counts::spills_next))]
pub(crate) fn spills_count(caller: &Frame, callee: &Frame, source: usize, count: usize) -> usize
    requires { source + count ≤ MOST_FRAME_WORDS }
    ensures value { result ≡ spills_count caller.now (coming callee.now) source 0 count }
    ensures few { result ≤ MOST_FRAME_WORDS }
{
    let mut lines = 0;
    for word in 0..count {
        lines += spill_count(caller, callee, source + word, word);
    }
    lines
}

fn pass_count(caller: &Frame, callee: &Frame, source: usize, slot: usize) -> usize
    ensures value { result ≡ pass_count caller.now (coming callee.now) source slot }
    ensures few { result ≤ 2 }
{
    match passed_from(caller, callee, source, slot) {
        Some(register) => hand_coming_count(callee, register, slot),
        None => keep_coming_count(callee, slot) + 1,
    }
}

/// Returns the number of MIPS lines of a call that pass the arguments to the callee's slots.
#[tactic(auto, using(crate::proofs::emission::Counts::copies_next))]
fn copies_count(caller: &Frame, callee: &Frame, source: usize, count: usize) -> usize
    requires { source + count ≤ MOST_FRAME_WORDS }
    ensures value { result ≡ copies_count caller.now (coming callee.now) source 0 count }
    ensures few { result ≤ 2 * MOST_FRAME_WORDS }
{
    let mut lines = 0;
    for word in 0..count {
        lines += pass_count(caller, callee, source + word, word);
    }
    lines
}

/// Returns the number of MIPS lines of a call from its first line to the jump to the callee.
fn call_count(caller: &Frame, callee: &Frame, arguments: usize, count: usize) -> usize
    requires { arguments + count ≤ MOST_FRAME_WORDS }
    ensures { result ≡ spills_count caller.now (coming callee.now) arguments 0 count + 5 + copies_count caller.now (coming callee.now) arguments 0 count }
{
    spills_count(caller, callee, arguments, count)
        + 5
        + copies_count(caller, callee, arguments, count)
}

/// Returns 1 if the function saves its return address, otherwise 0. Saving the address takes one line at the function's entry,
/// and loading it again takes one line at each return.
pub(crate) fn way_count(frame: &Frame) -> usize
    ensures value { result ≡ way_count frame.now }
    ensures few { result ≤ 1 }
{
    if frame.saves { 1 } else { 0 }
}

/// Returns the number of MIPS lines at a function's entry that save registers and load parameters into them.
pub(crate) fn saving_count(frame: &Frame) -> usize
    requires saved { frame.now.saved ≤ MOST_SAVED }
    requires arrivals { arrival_count frame.now ≤ MOST_SAVED }
    ensures value { result ≡ saving_count frame.now }
    ensures few { result ≤ 2 * MOST_SAVED + 1 }
{
    way_count(frame) + (frame.saved + arrival_count(frame))
}

/// Returns the number of MIPS lines of a return instruction.
fn return_count(plain: &Plain, frames: &[Frame], function: usize) -> usize
    requires fit { AreFrames plain.now frames.now }
    requires function { function < length plain.now.functions }
    requires few { AreFew plain.now }
    ensures { result ≡ way_count (frame_at frames.now function) + ending_count plain.now function +
        ((routine_at plain.now function).results + (frame_at frames.now function).saved + 2) }
{
    let frame = frame_in(plain, frames, function);
    let ending = if function == plain.main() { 4 } else { 0 };
    way_count(frame) + ending + (results_of(plain, function) + frame.saved + 2)
}

/// Returns the number of MIPS lines of an instruction, without those executed after a call returns.
fn body_count(plain: &Plain, frames: &[Frame], function: usize, instruction: Instruction) -> usize
    requires fit { AreFrames plain.now frames.now }
    requires function { function < length plain.now.functions }
    requires few { AreFew plain.now }
    requires in_range { IsInRange plain.now (routine_at plain.now function) instruction }
    requires small { instruction_size instruction ≤ MOST_SIZE }
    ensures { result ≡ body_count plain.now frames.now function instruction }
{
    let frame = frame_in(plain, frames, function);
    match instruction {
        Instruction::Move {
            destination,
            source,
        } => move_count(frame, destination, source),
        Instruction::Unary {
            operator,
            destination,
            operand,
        } => plan_count(frame, unary_plan(operator, operand), destination),
        Instruction::Binary {
            operator,
            destination,
            left,
            right,
        } => operator_count(
            frame,
            operator,
            Parts {
                destination,
                left,
                right,
            },
        ),
        Instruction::Jump { .. } => 1,
        Instruction::MoveWords {
            destination,
            source,
            count,
        } => move_words_count(frame, destination, source, count),
        Instruction::Load {
            destination,
            address,
            offset,
        } => address_count(frame, address, offset) + 1 + keep_count(frame, destination),
        Instruction::AddressOf { destination, .. } => 1 + keep_count(frame, destination),
        Instruction::Store {
            address,
            offset,
            source,
        } => address_count(frame, address, offset) + operand_count(frame, source) + 1,
        Instruction::LoadByte {
            destination,
            address,
            offset,
        } => address_count(frame, address, offset) + 1 + keep_count(frame, destination),
        Instruction::StoreByte {
            address,
            offset,
            source,
        } => address_count(frame, address, offset) + operand_count(frame, source) + 1,
        Instruction::Branch {
            comparison,
            left,
            right,
            target,
        } => branch_count(
            frame,
            code_of(plain, function),
            test_of(comparison, left, right),
            target,
        ),
        Instruction::Call {
            function: callee,
            arguments,
            count,
            ..
        } => call_count(frame, frame_in(plain, frames, callee), arguments, count),
        Instruction::Return { .. } => return_count(plain, frames, function),
        Instruction::ReadByte { destination } => 2 + give_count(frame, destination),
        Instruction::LoadGlobal {
            destination,
            global,
        } => reach_count(global) + 1 + keep_count(frame, destination),
        Instruction::WriteByte { source } => load_count(source) + 2,
        Instruction::StoreGlobal { global, source } => {
            operand_count(frame, source) + reach_count(global) + 1
        }
        Instruction::Ask { request } => ask_count(frame, request),
        Instruction::CountLexical { destination } => give_count(frame, destination),
        Instruction::Try { .. } => 8 + reload_count(frame),
        Instruction::Leave { .. } => 1,
        Instruction::Throw { tag, value } => load_count(tag) + load_count(value) + 7,
        Instruction::Finish { .. } => return_count(plain, frames, function),
        Instruction::Uncaught { tag, value } => word_count(tag) + load_count(value) + 2,
        Instruction::Enter { .. } => 3,
    }
}

/// Returns the number of MIPS lines that follow a call and are executed after it returns.
fn after_count(plain: &Plain, frames: &[Frame], function: usize, instruction: Instruction) -> usize
    requires fit { AreFrames plain.now frames.now }
    requires function { function < length plain.now.functions }
    requires few { AreFew plain.now }
    requires in_range { IsInRange plain.now (routine_at plain.now function) instruction }
    ensures { result ≡ after_count plain.now frames.now function instruction }
{
    let frame = frame_in(plain, frames, function);
    match instruction {
        Instruction::Call { function, .. } => { results_of(plain, function) + reload_count(frame) }
        _ => 0,
    }
}

/// Returns true if the instruction at `index` has no lines. Only an instruction that always continues with the next one may have no lines.
pub(crate) fn is_idle(frame: &Frame, index: usize, instruction: Instruction) -> bool
    ensures { result ≡ is_idle frame.now index instruction }
{
    match instruction {
        Instruction::Move { .. }
        | Instruction::MoveWords { .. }
        | Instruction::Unary { .. }
        | Instruction::Binary { .. }
        | Instruction::Jump { .. }
        | Instruction::Branch { .. } => frame.is_idle(index),
        _ => false,
    }
}

/// Returns the number of MIPS lines of the instruction at `index`, including those that follow a call.
fn count_of(
    plain: &Plain,
    frames: &[Frame],
    function: usize,
    index: usize,
    instruction: Instruction,
) -> usize
    requires fit { AreFrames plain.now frames.now }
    requires function { function < length plain.now.functions }
    requires few { AreFew plain.now }
    requires in_range { IsInRange plain.now (routine_at plain.now function) instruction }
    requires small { instruction_size instruction ≤ MOST_SIZE }
    ensures value { result ≡ count_of plain.now frames.now function index instruction }
    ensures few { result ≤ instruction_size instruction }
{
    let following = after_count(plain, frames, function, instruction);
    if is_idle(frame_in(plain, frames, function), index, instruction) {
        following
    } else {
        body_count(plain, frames, function, instruction) + following
    }
}

/// The line numbers in the labelled code at which a function's instructions begin, and the number of the
/// line after the function's last one.
#[derive(Drop)]
struct Counted {
    lines: Vec<usize>,
    following: usize,
}

/// Returns the line number in the labelled code at which each instruction of a function begins, if the first instruction
/// begins at line `here`.
fn instruction_lines(
    alloc: Global,
    plain: &Plain,
    frames: &[Frame],
    function: usize,
    first: usize,
    code: &[Instruction],
) -> Result<Counted, AllocError>
    requires fit { AreFrames plain.now frames.now }
    requires function { function < length plain.now.functions }
    requires few { AreFew plain.now }
    requires in_range { All (IsInRange plain.now (routine_at plain.now function)) code.now }
    requires small { sum_by instruction_size code.now ≤ MOST_SIZE }
    requires fits { first + sum_by instruction_size code.now ≤ most_lines + 2 * MOST_SAVED + 1 }
    ensures lines { IfOk result (λ counted. counted.lines.items ≡ instruction_lines plain.now frames.now function 0 first code.now) }
    ensures following { IfOk result (λ counted. counted.following ≡ first + code_count plain.now frames.now function 0 code.now) }
{
    let mut lines = Vec::with_capacity(alloc, code.len())?;
    let mut here = first;
    for index in 0..code.len() {
        lines.push(here)?;
        here += count_of(plain, frames, function, index, code[index]);
    }
    Ok(Counted {
        lines,
        following: here,
    })
}

/// Returns the line numbers of the instructions of a function that begins at line `here`, and the number of the line after the
/// function's last line.
fn function_lines(
    alloc: Global,
    plain: &Plain,
    frames: &[Frame],
    function: usize,
    here: usize,
) -> Result<Counted, AllocError>
    requires plain { IsPlain plain.now }
    requires fit { AreFrames plain.now frames.now }
    requires function { function < length plain.now.functions }
    requires here { here ≡ function_line plain.now frames.now function }
    ensures lines { IfOk result (λ counted. counted.lines.items ≡ lines_in plain.now frames.now function) }
    ensures following { IfOk result (λ counted. counted.following ≡ function_line plain.now frames.now (function + 1)) }
{
    let first = here + saving_count(frame_in(plain, frames, function));
    instruction_lines(
        alloc,
        plain,
        frames,
        function,
        first,
        code_of(plain, function),
    )
}

/// The line numbers in the labelled code at which functions and their instructions begin, and the number of the line after the last
/// function.
#[derive(Drop)]
pub(crate) struct Numbered {
    pub(crate) functions: Vec<FunctionLines>,
    pub(crate) following: usize,
}

/// Returns the line numbers in the labelled code at which functions and their instructions begin. Only
/// `number_lines` counts the lines of instructions.
pub(crate) fn number_lines(
    alloc: Global,
    plain: &Plain,
    frames: &[Frame],
) -> Result<Numbered, AllocError>
    requires { AreFrames plain.now frames.now }
    ensures lines { IfOk result (λ numbered. AreNumbered plain.now frames.now (length plain.now.functions) numbered.functions.items) }
    ensures following { IfOk result (λ numbered. numbered.following ≡ function_line plain.now frames.now (length plain.now.functions)) }
    ensures plain { IfOk result (λ _. IsPlain plain.now) }
{
    let count = plain.functions().len();
    let mut functions = Vec::with_capacity(alloc, count)?;
    let mut here = START_LINES;
    for function in 0..count {
        let counted = function_lines(alloc, plain, frames, function, here)?;
        functions.push(FunctionLines {
            first: here,
            lines: counted.lines,
        })?;
        here = counted.following;
    }
    Ok(Numbered {
        functions,
        following: here,
    })
}
