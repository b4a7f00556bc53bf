//! This file has the kinds of warnings, their texts, and the list of the warnings found in a program.
use cyc_words::Span;
use std::alloc::Global;
use std::mem::replace;

/// A kind of warning.
#[derive(Clone, Copy)]
pub enum Warning {
    /// Two minus signs that look like a decrement, as in `--x`.
    DoubleMinus,
    /// A minus sign before a negated operand, as in `n--1`.
    AddedMinus,
    /// An assignment as a condition, as in `if (x = 4)`.
    ConditionAssigns,
    /// A shift count outside the width of an int, as in `x << 33`.
    ShiftCount,
    /// A char compared with a constant that no char equals, as in `c != -1`.
    CharCompared,
    /// A constant that does not fit a char, as in `char c = 300;`.
    CharConstant,
    /// An `if` with an empty body, as in `if (x);`.
    EmptyIf,
    /// A loop with an empty body, as in `while (x);`.
    EmptyWhile,
    /// A statement without effect, as in `x == 2;`.
    NoEffect,
    /// A chain of comparisons, as in `1 < x < 3`.
    OrderChain,
    /// A constant operand of a logical operator, as in `x == 3 || 4`.
    ConstantOperand,
    /// A comparison as an operand of a bitwise operator, which binds less tightly, as in `f & 1 == 0`.
    ComparedFirst,
    /// A division by zero, as in `x / 0`.
    DivisionByZero,
    /// An array that is too large, as in `new {for i < 2000 : 0}`.
    ArraySize,
    /// An index past the end of an array, as in `a[3]` if `a` has three elements.
    IndexOutside,
    /// A statement after a `return`.
    Unreachable,
    /// A local that is never read.
    NeverRead,
    /// A local that is a unique pointer and is never freed or moved.
    NeverGivenBack,
    /// The first character in the text that is invisible or changes the writing direction.
    HiddenCharacter,
    /// A comparison of an expression with itself, as in `x == x`.
    SelfCompared,
    /// An assignment of a variable to itself, as in `x = x`.
    SelfAssigned,
    /// A negated operand of a comparison, as in `!x == 3`.
    NotCompared,
    /// A sum as a shift count, as in `a << 1 + b`.
    ShiftOfSum,
    /// Two comparisons that exclude each other, as in `x == 3 && x == 4`.
    NeverBoth,
    /// Two comparisons of which one always holds, as in `x != 3 || x != 4`.
    AlwaysOne,
    /// An `else` after two `if`s, as in `if (a) if (b) x = 1; else x = 2;`.
    DanglingElse,
    /// A statement that is indented as if it belonged to the `if` or loop before it.
    MisleadingIndent,
    /// A local with the name of another local that is in scope.
    HidesLocal,
    /// A condition that an earlier `if` of the same chain of `else if` has tested.
    SameCondition,
    /// A local that is the key of a dynamic region and is never freed or moved.
    KeyNeverFreed,
    /// A loop in which nothing changes the condition, as in `while (n > 0) putchar(n);`.
    UnchangedCondition,
}

/// Returns the text of the warning, in which `%` stands for the token to which the warning refers.
pub fn text_of(warning: Warning) -> &'static str {
    match warning {
        Warning::DoubleMinus => "`--` is two minus signs and changes nothing: write i = i - 1",
        Warning::AddedMinus => "`--` is two minus signs, so this adds: write one to subtract",
        Warning::ConditionAssigns =>
            "the condition assigns: write == to compare, or put parentheses around the assignment",
        Warning::ShiftCount => "this shift count is not in 0 to 31: it is taken modulo 32",
        Warning::CharCompared =>
            "this comparison of a char (0 to 255) is always the same: keep the result of getchar() in an int",
        Warning::CharConstant =>
            "this constant does not fit a char (0 to 255), which keeps its low byte: declare an int",
        Warning::EmptyIf => "empty body of `if`: delete the `;` after the condition",
        Warning::EmptyWhile =>
            "empty body of `while`, which ends at once or never: delete the `;` after the condition",
        Warning::NoEffect => "this value is not used: write = to assign",
        Warning::OrderChain => "comparisons do not chain: write a < b && b < c",
        Warning::ConstantOperand =>
            "this constant is always true: write x == 3 || x == 4 to compare with both",
        Warning::ComparedFirst =>
            "a comparison binds tighter than `&`, `^` and `|`: write (f & 1) == 0",
        Warning::DivisionByZero => "division by zero: this throws Div_zero",
        Warning::ArraySize => "this array size is not in 0 to 1,000 words: it throws Array_size",
        Warning::IndexOutside => "index out of bounds: this throws Array_bounds",
        Warning::Unreachable => "unreachable code after `%`",
        Warning::NeverRead => "`%` is never read",
        Warning::NeverGivenBack => "`%` is never freed: free it by ufree, or pass it on",
        Warning::HiddenCharacter =>
            "this character is invisible or turns the direction of text: what you see may not be what is compiled",
        Warning::SelfCompared =>
            "both sides of this comparison are the same: compare with another value",
        Warning::SelfAssigned =>
            "this assigns a value to itself: assign another value, or delete it",
        Warning::NotCompared => "`!` negates only the operand after it: write !(x == 3), or x != 3",
        Warning::ShiftOfSum =>
            "a sum binds tighter than a shift: write (a << 1) + b, or a << (1 + b)",
        Warning::NeverBoth =>
            "these two comparisons are never both true: write || if one of them is enough",
        Warning::AlwaysOne =>
            "one of these two comparisons is always true: write && if both must be true",
        Warning::DanglingElse =>
            "the `else` belongs to this `if`, not to the outer one: put { } around the branch of the outer `if`",
        Warning::MisleadingIndent =>
            "this does not belong to the `%` above it: put braces around the body, or indent this less",
        Warning::HidesLocal => "`%` hides another local of this name: rename one of them",
        Warning::SameCondition =>
            "this condition is the same as one before it, so the branch is never taken: write another condition",
        Warning::KeyNeverFreed =>
            "`%` is never freed, nor is its region: free it by free_ukey, or pass it on",
        Warning::UnchangedCondition =>
            "nothing in this loop changes its condition: it ends at once or never",
    }
}

/// A warning, its source position, and the source position of the token to which it refers.
#[derive(Clone, Copy)]
pub struct Found {
    pub span: Span,
    pub warning: Warning,
    pub named: Span,
}

/// The largest number of warnings that are shown for a text. To find the line of each warning, the text is read from its beginning, so
/// an unlimited number of warnings would take quadratic time.
pub const MOST_WARNINGS: usize = 20;

/// Returns true if the first source position is before the second.
fn is_before(first: Span, second: Span) -> bool {
    first.line < second.line || first.line == second.line && first.column < second.column
}

/// The warnings of a text, ordered by their source positions: the first ones, at most one more than the largest number that is shown.
#[derive(Drop)]
pub(crate) struct Findings {
    all: Vec<Found>,
    /// True if all memory allocations of this list of warnings have succeeded so far.
    pub(crate) is_whole: bool,
}

impl Findings {
    pub(crate) fn new(alloc: Global) -> Findings {
        Findings {
            all: Vec::new(alloc),
            is_whole: true,
        }
    }

    /// Returns true if the list of warnings is full and all of its warnings are before this source position.
    fn is_past(&self, span: Span) -> bool {
        match self.all.get(MOST_WARNINGS) {
            Some(last) => !is_before(span, last.span),
            None => false,
        }
    }

    pub(crate) fn add(&mut self, found: Found) {
        if !self.is_past(found.span) {
            self.is_whole = self.all.push(found).is_ok() && self.is_whole;
            self.put_in_order();
            self.all.truncate(MOST_WARNINGS + 1);
        }
    }

    /// Moves the warning that was added last to its index in the list, which is ordered by source position.
    fn put_in_order(&mut self) {
        for i in (1..self.all.len()).rev() {
            if !is_before(self.all[i].span, self.all[i - 1].span) {
                return;
            }
            self.all.swap(i - 1, i);
        }
    }

    /// Takes the findings.
    pub(crate) fn take(&mut self, alloc: Global) -> Vec<Found> {
        replace(&mut self.all, Vec::new(alloc))
    }
}
