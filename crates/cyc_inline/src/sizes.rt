//! Upper bounds of code sizes, in words of machine code.
ghost use Rattle.std.specs.Prelude.{◌≡◌, ◌+◌, ◌≤◌, ◌⊎◌, IfSome, sum_by};
ghost use Rattle.cyc_plain.specs.declared.limits.TheConstants as limits;
ghost use Rattle.cyc_plain.specs.inside.Program.{instruction_size, operator_size, size};
ghost use Rattle.cyc_plain.specs.inside.Requests.{request_size};
ghost use Rattle.cyc_plain.specs.inside.WellFormed.{IsPlain};

use cyc_plain::{BinaryOperator, Instruction, MOST_SIZE, Plain, Request};

fn operator_size(operator: BinaryOperator) -> usize
    ensures { result ≡ operator_size operator }
{
    match operator {
        BinaryOperator::Divide | BinaryOperator::Remainder => 18,
        _ => 11,
    }
}

fn request_size(request: Request) -> usize
    ensures { result ≡ request_size request }
{
    match request {
        Request::OpenLexical { .. } => 8,
        Request::CloseTo { .. } => 5,
        Request::OpenDynamic { .. } => 5,
        Request::CloseDynamic { .. } => 5,
        Request::Allocate { .. } => 11,
        Request::Free { .. } => 5,
    }
}

/// Returns the size of an instruction in words of machine code, or `None` for an instruction that occurs in no well-formed program.
fn instruction_size(instruction: Instruction) -> Option<usize>
    ensures { IfSome result (λ it. it ≡ instruction_size instruction) }
{
    let size = match instruction {
        Instruction::Move { .. } | Instruction::LoadGlobal { .. } | Instruction::Enter { .. } => 6,
        Instruction::MoveWords { count, .. } => {
            if count > MOST_SIZE {
                return None;
            }
            2 + 6 * count
        }
        Instruction::Unary { .. } | Instruction::Uncaught { .. } => 7,
        Instruction::Binary { operator, .. } => operator_size(operator),
        Instruction::Jump { .. } => 2,
        Instruction::Branch { .. } => 11,
        Instruction::Call { count, .. } => {
            if count > MOST_SIZE {
                return None;
            }
            22 + 4 * count
        }
        Instruction::Return { .. } | Instruction::Finish { .. } => 36,
        Instruction::ReadByte { .. }
        | Instruction::WriteByte { .. }
        | Instruction::StoreGlobal { .. }
        | Instruction::Leave { .. } => 5,
        Instruction::AddressOf { .. } => 4,
        Instruction::Load { .. }
        | Instruction::Store { .. }
        | Instruction::LoadByte { .. }
        | Instruction::StoreByte { .. } => 10,
        Instruction::Ask { request } => request_size(request),
        Instruction::CountLexical { .. } => 3,
        Instruction::Try { .. } => 20,
        Instruction::Throw { .. } => 24,
    };
    Some(size)
}

/// Returns the size of a list of instructions in words of machine code, or `None` if it is more than `most`.
pub(crate) fn code_size(code: &[Instruction], most: usize) -> Option<usize>
    requires { most ≤ limits.MOST_SIZE }
    ensures size { IfSome result (λ it. it ≡ sum_by instruction_size code.now) }
    ensures small { IfSome result (λ it. it ≤ most) }
{
    let mut size = 0;
    for instruction in code {
        let more = instruction_size(*instruction)?;
        if more > most - size {
            return None;
        }
        size += more;
    }
    Some(size)
}

/// Returns the size of a program in words of machine code, or `None` if it is more than `most`.
fn program_size(plain: &Plain, most: usize) -> Option<usize>
    requires { most ≤ limits.MOST_SIZE }
    ensures size { IfSome result (λ it. it ≡ sum_by size plain.now.functions) }
    ensures small { IfSome result (λ it. it ≤ most) }
{
    let mut size = 0;
    for number in 0..plain.functions().len() {
        let more = code_size(&plain.function(number).code, most - size)?;
        size += more;
    }
    Some(size)
}

/// Returns the number of words of machine code by which a program may grow if its size limit is `room` words.
pub(crate) fn spare_of(plain: &Plain, room: usize) -> usize
    ensures { (result ≡ 0) ⊎ ((sum_by size plain.now.functions + result ≤ room) × (sum_by size plain.now.functions + result ≤ limits.MOST_SIZE)) }
{
    let most = if room < MOST_SIZE { room } else { MOST_SIZE };
    match program_size(plain, most) {
        Some(size) => most - size,
        None => 0,
    }
}
