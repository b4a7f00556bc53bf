//! Why a source text was refused, and where.

ghost use Rattle.std.specs.Prelude.{◌≡◌, ℕ};
ghost use Rattle.cyc_words.specs.Fault.{number_of, memory_fault};

use std::alloc::{AllocError, AllocFailed};

/// Why a text was refused. Each variant says where its place points.
///
/// The codes and their numbers are this project's own choice. 1 to 4 come from reading tokens, 10 to 13 from the
/// grammar, 20 to 31 from the typing rules, 40 to 43 from the flow rules, 50 and 51 from the limits of the
/// emitted program. 5, want of memory, may come from any of them.
#[derive(Clone, Copy, Debug, PartialEq, Eq)]
pub enum Code {
    /// No token, space or comment begins with this byte. Place: the byte.
    UnknownByte = 1,
    /// A comment is not closed before the text ends. Place: the comment's first byte.
    UnclosedComment = 2,
    /// A number is above 2147483647. Place: the number's first byte.
    NumberTooLarge = 3,
    /// The text is longer than 1,048,576 bytes. Place: 1:1.
    TextTooLong = 4,
    /// An allocation was refused. Place: 0:0, which is no place of the text.
    Memory = 5,
    /// The text has more than 60,000 tokens. Place: the first token too many.
    TooManyTokens = 6,
    /// The tokens up to this one begin no program. Place: the token.
    UnexpectedToken = 10,
    /// The text ends where its tokens are not yet a program. Place: just past the last byte.
    UnexpectedEnd = 11,
    /// More than 200 open brackets, prefix operators, initial values and statements stand round a token. Place: the
    /// token.
    NestingTooDeep = 12,
    /// A list has more than 64 items, a chain at one level more than 64 operators, or a type more than 64 marks.
    /// Place: the first token of the one too many.
    ListTooLong = 13,
    /// A name is used that nothing declares. Place: the name.
    UnknownName = 20,
    /// A name is declared a second time in one scope, or a function is named `H` or `U`, which are regions already.
    /// Place: the second declaration's name, or the function's.
    DeclaredTwice = 21,
    /// Two types differ that have to agree, or a type is not well formed. Place: the first token of the
    /// expression or type, unless the rule that is broken names another.
    TypeMismatch = 22,
    /// NULL stands where a pointer is never null (`@`). Place: as for 22.
    NullForNonNull = 23,
    /// A region is used that is not live there. Place: the first token of the pointer, region handle or operand.
    RegionNotLive = 24,
    /// A pointer is converted to a region that its own does not outlive, or a callee's constraint does not hold.
    /// Place: the first token of the expression converted, or for a constraint the callee's name.
    NotOutlived = 25,
    /// The caller may not touch a region that the callee's effect names. Place: the callee's name.
    EffectNotCovered = 26,
    /// A unique value is read in a place that others share, or `&` is taken of a place that has one or into a
    /// unique object. Place: the first token of the place that is read or taken.
    UniqueShared = 27,
    /// An expression stands where a place (an lvalue) is needed. Place: the first token of the expression.
    NotAPlace = 28,
    /// A region or a key is used in a way that its kind does not allow. Place: the region name, the key or the
    /// expression.
    RegionOrKeyMisused = 29,
    /// `main` is missing, or is neither `int main()` nor `int main(void)`. Place: 1:1, or the name `main`.
    BadMain = 30,
    /// `break` or `continue` stands outside a loop. Place: the keyword.
    OutsideLoop = 31,
    /// A variable is used that may be empty: it was never given a value, or its unique value was consumed. Place:
    /// the name.
    EmptyVariable = 40,
    /// A variable is used or assigned while it is locked, or while an expression that peeks at it is evaluated.
    /// Place: the name.
    LockedVariable = 41,
    /// A loop's body leaves a variable less full than at its head. Place: `while` or `for`.
    LoopEmptiesVariable = 42,
    /// A path through a function with a result reaches its end. Place: the function's last `}`.
    MissingReturn = 43,
    /// The program has more than 4,096 functions. Place: the name of the first function too many.
    TooManyFunctions = 50,
    /// A function's frame needs more than 256 words. Place: the function's name.
    FrameTooLarge = 51,
}

impl Code {
    /// The number that stands for the code in the program's last line.
    pub fn number(self) -> u32
        ensures { result ≡ number_of self }
    {
        self as u32
    }
}

/// A refusal: its code, and the place in the text, in lines and in columns of bytes, both from 1.
#[derive(Clone, Copy, Debug, PartialEq, Eq)]
pub struct Fault {
    pub code: Code,
    pub line: u32,
    pub column: u32,
}

impl Fault {
    /// A refusal at a place of the text.
    pub fn new(code: Code, line: u32, column: u32) -> Fault
        ensures code { result.code ≡ code }
        ensures line { result.line ≡ line }
        ensures column { result.column ≡ column }
    {
        Fault { code, line, column }
    }

    /// Want of memory, which has no place: it stands at 0:0.
    pub fn memory() -> Fault
        ensures code { result.code ≡ Code.Memory }
        ensures line { result.line ≡ 0 }
        ensures column { result.column ≡ 0 }
    {
        Fault::new(Code::Memory, 0, 0)
    }
}

impl From<AllocError> for Fault {
    ghost from_gives = { λ _ f. f ≡ memory_fault };

    fn from(_e: AllocError) -> Fault {
        Fault::memory()
    }
}

impl<T: Drop> From<AllocFailed<T>> for Fault {
    ghost from_gives = { λ _ f. f ≡ memory_fault };

    fn from(_e: AllocFailed<T>) -> Fault {
        Fault::memory()
    }
}
