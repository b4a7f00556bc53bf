//! This file finds the fault codes by their numbers, for the command line.
ghost use Rattle.std.specs.Prelude.{◌≡◌, IfSome};
ghost use Rattle.std.specs.Str.Parse.{digits_value};
ghost use Rattle.cyc_words.specs.Fault.{number_of};

use crate::advice::meaning;
use crate::number;
use cyc_words::Code;
use std::alloc::{AllocError, Global};

/// All fault codes, in the order of their numbers.
const CODES: [Code; 28] = [
    Code::UnknownByte,
    Code::UnclosedComment,
    Code::NumberTooLarge,
    Code::TextTooLong,
    Code::Memory,
    Code::TooManyTokens,
    Code::UnexpectedToken,
    Code::UnexpectedEnd,
    Code::NestingTooDeep,
    Code::ListTooLong,
    Code::UnknownName,
    Code::DeclaredTwice,
    Code::TypeMismatch,
    Code::NullForNonNull,
    Code::RegionNotLive,
    Code::NotOutlived,
    Code::EffectNotCovered,
    Code::UniqueShared,
    Code::NotAPlace,
    Code::RegionOrKeyMisused,
    Code::BadMain,
    Code::OutsideLoop,
    Code::EmptyVariable,
    Code::LockedVariable,
    Code::LoopEmptiesVariable,
    Code::MissingReturn,
    Code::TooManyFunctions,
    Code::FrameTooLarge,
];

/// The highest number of a fault code.
const HIGHEST: u64 = 51;

/// Returns the fault code whose number a text writes in decimal, if there is one.
pub(crate) fn code_written(text: &str) -> Option<Code>
    ensures { IfSome result (λ code. number_of code ≡ digits_value 10 text.now) }
{
    let number = number::within(text, 1, HIGHEST)?;
    for code in CODES {
        if u64::from(code.number()) == number {
            return Some(code);
        }
    }
    None
}

/// Returns all fault codes and their meanings, one on each line, after a line that asks the user for a code.
pub(crate) fn list_of_codes(alloc: Global) -> Result<String, AllocError> {
    let mut list = String::from_str(alloc, "explain takes the number of a code, one of these:")?;
    for code in CODES {
        write!(list, "\n  {:>2}  {}", code.number(), meaning(code))?;
    }
    Ok(list)
}
