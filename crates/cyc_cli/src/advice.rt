//! This file has the texts of faults for users: the fault in words, and the advice on it. The file also has the texts about invalid
//! images and about runs that ended by an exception. `docs/codes.txt` is the table of codes; a test of the suite compares the texts
//! in this file with that table.
use crate::arguments::MOST_STEPS;
use cyc_machine::constants::{MAX_CALLS, MAX_PAGES};
use cyc_words::Code;
use std::fmt;

/// Returns the description of the fault with this code.
pub fn meaning(code: Code) -> &'static str {
    match code {
        Code::UnknownByte => "unexpected character",
        Code::UnclosedComment => "unterminated comment",
        Code::NumberTooLarge => "integer constant too large: at most 2147483647",
        Code::TextTooLong => "source file too large: at most 1048576 bytes",
        Code::Memory => "out of memory",
        Code::TooManyTokens => "too many tokens: at most 60000",
        Code::UnexpectedToken => "unexpected token",
        Code::UnexpectedEnd => "unexpected end of file",
        Code::NestingTooDeep => "nesting too deep: at most 200 levels",
        Code::ListTooLong => "too many items in a list or a chain: at most 64",
        Code::UnknownName => "undeclared name",
        Code::DeclaredTwice => "name already declared",
        Code::TypeMismatch => "type mismatch",
        Code::NullForNonNull => "NULL for a pointer that is never null",
        Code::RegionNotLive => "region not live",
        Code::NotOutlived => "pointer may outlive its region",
        Code::EffectNotCovered => "call may use a region that is not live",
        Code::UniqueShared => "unique pointer copied",
        Code::NotAPlace => "expected an lvalue",
        Code::RegionOrKeyMisused => "region or key misused",
        Code::BadMain => "`main` is missing, or is not `int main()`",
        Code::OutsideLoop => "`break` or `continue` outside a loop",
        Code::EmptyVariable => "variable may be uninitialized",
        Code::LockedVariable => "variable in use",
        Code::LoopEmptiesVariable => "loop may leave a variable uninitialized",
        Code::MissingReturn => "function may end without returning a value",
        Code::TooManyFunctions => "too many functions: at most 4096",
        Code::FrameTooLarge => "stack frame too large: at most 256 words",
    }
}

/// Returns the advice on the fault with this code.
pub(crate) fn hint(code: Code) -> &'static str {
    match code {
        Code::UnknownByte => "delete the character",
        Code::UnclosedComment => "close it with */",
        Code::NumberTooLarge => "an int has 32 bits: compute the number from smaller ones",
        Code::TextTooLong => "make it shorter: a program is one source file",
        Code::Memory => "close other programs, or compile a smaller source file",
        Code::TooManyTokens => "make it shorter: a program is one source file",
        Code::UnexpectedToken => "look before it for a missing semicolon, parenthesis or brace",
        Code::UnexpectedEnd =>
            "close each parenthesis and brace, and end each statement with a semicolon",
        Code::NestingTooDeep =>
            "move an inner part to a function, or store its value in a variable",
        Code::ListTooLong => "split it, and store the value of one part in a variable",
        Code::UnknownName => "declare it before its use, in this block or an outer one: int x = 0;",
        Code::DeclaredTwice => "rename one of the two, or delete the type to assign to the first",
        Code::TypeMismatch => "use a value of the expected type",
        Code::NullForNonNull =>
            "declare it with * or ?, which may be NULL, or give it an object: new 5",
        Code::RegionNotLive => "use it in the block of its region, or open its key first",
        Code::NotOutlived => "use a region that lives as long, or declare the constraint `a > `b",
        Code::EffectNotCovered =>
            "open the region's key around the call, or add the region to the effect",
        Code::UniqueShared => "swap it into a variable with :=: first",
        Code::NotAPlace => "assign to a variable, *p, p->f or p[i]",
        Code::RegionOrKeyMisused => "see the rules of regions and keys: cyclone explain 29",
        Code::BadMain => "write int main() { .. }",
        Code::OutsideLoop => "delete it, or use return",
        Code::EmptyVariable => "give it a value where it is declared, or on every path to here",
        Code::LockedVariable => "move this after the block that opens or lends it",
        Code::LoopEmptiesVariable => "give the variable a new value before the body ends",
        Code::MissingReturn => "end it with return e; on every path: conditions are not evaluated",
        Code::TooManyFunctions => "merge some functions",
        Code::FrameTooLarge => "move some of its variables or expressions to another function",
    }
}

/// Returns the description of an image's fault with this number.
pub fn image_fault(number: u32) -> &'static str {
    match number {
        1 => "not an image: the file is truncated",
        2 => "not an image: not a 32-bit big-endian ELF file",
        3 => "not an image: not an executable for MIPS",
        4 => "not an image: invalid segment",
        5 => "not an image: it needs a dynamic loader",
        6 => "not an image: the entry point is in no segment",
        _ => "a segment of the image lies outside the machine's memory",
    }
}

/// The reason why a run ended before its program did, with the limit that the run reached. `Display` writes the reason in words.
#[derive(Clone, Copy)]
pub enum Ending {
    /// No catch clause caught the exception that this number identifies.
    Uncaught(u32),
    /// The run required more calls active at once than this limit allows.
    Calls(u32),
    /// The run required more pages of the store than this limit allows.
    Pages(u32),
    /// The machine refused to execute the instruction at this address, so the run ended.
    Trap(u32),
    /// The run required more instructions than its instruction budget.
    Spent(u64),
}

impl fmt::Display for Ending {
    fn fmt<W: fmt::Write>(&self, f: &mut fmt::Formatter<W>) -> fmt::Result {
        match *self {
            Ending::Uncaught(number) if number > BUILT_IN => {
                let place = number - BUILT_IN;
                write!(
                    f,
                    "uncaught exception {number}: number {place} of those that the program declares"
                )
            }
            Ending::Uncaught(number) => f.write_str(built_in(number)),
            Ending::Calls(calls) => {
                write!(
                    f,
                    "more than {calls} nested calls: --calls N allows up to {MAX_CALLS}"
                )
            }
            Ending::Pages(pages) => {
                write!(
                    f,
                    "more memory than {pages} pages: --pages N allows up to {MAX_PAGES}"
                )
            }
            Ending::Trap(address) => {
                write!(f, "the machine refused the instruction at {address:08x}")
            }
            Ending::Spent(budget) => {
                write!(
                    f,
                    "more than {budget} instructions: --steps N allows up to {MOST_STEPS}"
                )
            }
        }
    }
}

/// The number of built-in exceptions.
const BUILT_IN: u32 = 4;

/// Returns the description of the built-in exception with this number.
fn built_in(number: u32) -> &'static str {
    match number {
        1 => "uncaught exception Null_Exception: a null pointer was dereferenced",
        2 => "uncaught exception Array_bounds: index out of bounds",
        3 =>
            "uncaught exception Array_size: an array has fewer than 0 elements, or more than 1,000 words",
        4 => "uncaught exception Div_zero: division by zero",
        _ => "uncaught exception 0, which no program has",
    }
}
