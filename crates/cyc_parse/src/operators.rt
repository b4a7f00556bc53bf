//! Operators and their levels, and the parser of chains of binary operators, the tightest level first.
#![tactic(auto, unfolding(crate::specs::inside::Parsing::bind, crate::specs::inside::Parsing::choose, crate::specs::inside::Parsing::if_sees, crate::specs::inside::Parsing::if_starts, crate::specs::inside::Parsing::if_is, crate::specs::inside::Parsing::refuse_item, crate::specs::inside::Expressions::nested), using(crate::proofs::Levels::levels))]

ghost use Rattle.std.specs.Prelude.{◌≡◌, ◌<◌, ◌≤◌, ◌-◌, ◌&&◌, suc, ℕ, nat_eq, nat_lt, nat_le, option_map, Some, None, if◌then◌else◌, Ok, IfSome, IfNone};
ghost use Rattle.cyc_syntax.specs.inside.TreeView.{place_of_span, view_expression, operations_of};
ghost use Rattle.cyc_parse.specs.inside.Boxes.{view_boxed};
ghost use Rattle.cyc_parse.specs.inside.Code.{Gives};
ghost use Rattle.cyc_parse.specs.inside.Parsing.{next, advance};
ghost use Rattle.cyc_parse.specs.inside.Steps.{level_within, level_at, following, is_continued, operand, climb_from, one_level};
ghost use Rattle.cyc_syntax.specs.Trees.{NoOperations};
ghost use Rattle.cyc_parse.specs.inside.Expressions.{prefix_operator, binary_operator, binary_of, nested, of_level, operator_at, no_more_operations};
ghost use Rattle.cyc_parse.specs.inside.Expressions.{operations, climb, unary, binary};

use crate::cursor::Parser;
use crate::growth::append;
use crate::stop::{Reason, Stop};
use crate::symbol::Terminal;
use crate::types::MAX_ITEMS;
use cyc_syntax::{BinaryOperator, Expr, Ident, Operation, PrefixOperator, Sign};
use cyc_words::Span;

/// The number of levels of binary operators; the last level is the loosest.
pub(crate) const LEVELS: u32 = 10;

impl<'a> Parser<'a> {
    /// Returns the expression made of a first operand and the operators of one level after it.
    fn joined(&self, first: Box<Expr>, rest: Vec<Operation>) -> Result<Box<Expr>, Stop>
        ensures { Gives view_boxed result (Ok (binary_of (view_boxed first) (operations_of rest.items), self.now)) self.now }
    {
        if rest.is_empty() {
            return Ok(first);
        }
        self.node(Expr::Binary { first, rest })
    }

    /// Returns the next symbol's binary operator, if its level is the next one above `below`.
    fn operator(&self, below: u32) -> Option<BinaryOperator>
        ensures { result ≡ operator_at (suc below) (next self.now) }
    {
        let Some(Terminal::Mark(sign)) = self.next() else {
            return None;
        };
        if u64::from(level_of(sign)) != u64::from(below) + 1 {
            return None;
        }
        binary_operator(sign)
    }

    /// Returns the level of the next symbol, if it is a binary operator whose level is above `below` and at most `most`.
    fn next_level(&self, below: u32, most: u32) -> Option<u32>
        ensures value { result ≡ level_at below most (next self.now) }
        ensures within { IfSome result (λ k. (below < k) × (k ≤ most)) }
    {
        let Some(Terminal::Mark(sign)) = self.next() else {
            return None;
        };
        level_between(sign, below, most)
    }

    /// Returns true if an operand continues after its first symbol: by arguments, a postfix, or an operator up to the level `below`.
    fn is_continued(&self, below: u32) -> bool
        ensures { result ≡ is_continued below (following self.now) }
    {
        let Some(Terminal::Mark(sign)) = self.second() else {
            return false;
        };
        sign == Sign::LeftParen
            || sign == Sign::LeftBracket
            || sign == Sign::Arrow
            || level_between(sign, 0, below).is_some()
    }

    /// Takes an operand of the precedence level above `below` if it is a single number or name. Most operands are single
    /// numbers or names, and need no box.
    fn take_lone_operand(&mut self, below: u32) -> Option<Expr>
        requires { below < 10 }
        ensures taken { IfSome result (λ e. (room : ℕ) → operand room (nested room) below self.old ≡ Ok (view_expression e, self.new)) }
        ensures left { IfNone result (self.new ≡ self.old) }
    {
        if self.is_continued(below) {
            return None;
        }
        match self.next() {
            Some(Terminal::Number(value)) => {
                let span = self.take_next();
                Some(Expr::Number { span, value })
            }
            Some(Terminal::Identifier(name)) => {
                let span = self.take_next();
                Some(Expr::Variable {
                    name: Ident { name, span },
                })
            }
            _ => None,
        }
    }

    /// Parses an operand for the operators of the level above `below`.
    #[cycle(expression)]
    fn parse_operand(&mut self, room: u32, below: u32) -> Result<Expr, Stop>
        requires { below < 10 }
        ensures { Gives view_expression result (operand room (nested room) below self.old) self.new }
    {
        if let Some(operand) = self.take_lone_operand(below) {
            return Ok(operand);
        }
        let first = self.parse_unary_here(room)?;
        let operand = self.climb(room, below, first)?;
        Ok(Box::into_inner(operand))
    }

    /// Reads the next symbol, if it is a binary operator of the level above `below`.
    #[tactic(auto, unfolding(crate::specs::inside::Parsing::take), using(crate::proofs::Levels::operator_comes))]
    fn take_operator(&mut self, below: u32) -> Option<(BinaryOperator, Span)>
        ensures seen { option_map (λ taken. taken.0) result ≡ operator_at (suc below) (next self.old) }
        ensures taken { IfSome result (λ taken. advance self.old ≡ Ok (place_of_span taken.1, self.new)) }
        ensures left { IfNone result (self.new ≡ self.old) }
    {
        let operator = self.operator(below)?;
        let span = self.take_next();
        Some((operator, span))
    }

    fn end_operations(&mut self, below: u32) -> Result<(), Stop>
        ensures { Gives (λ _. NoOperations) result (no_more_operations (suc below) self.old) self.new }
    {
        match self.operator(below) {
            Some(_) => Err(Stop::Refused(Reason::TooLong)),
            None => Ok(()),
        }
    }

    #[cycle(expression)]
    fn parse_operations(&mut self, room: u32, below: u32) -> Result<Vec<Operation>, Stop>
        requires { below < 10 }
        ensures { Gives (λ v. operations_of v.items) result (operations (operand room (nested room) below) (suc below) 64 self.old) self.new }
    {
        let mut operations = Vec::with_capacity(self.alloc(), 1)?;
        for _ in 0..MAX_ITEMS {
            let Some((operator, span)) = self.take_operator(below) else {
                return Ok(operations);
            };
            let operand = self.parse_operand(room, below)?;
            let operation = Operation {
                operator,
                span,
                operand,
            };
            append(&mut operations, operation)?;
        }
        self.end_operations(below)?;
        Ok(operations)
    }

    /// Extends a first operand by the operators of all precedence levels up to the given one, with their right operands.
    #[cycle(expression)]
    pub(crate) fn climb(
        &mut self,
        room: u32,
        level: u32,
        first: Box<Expr>,
    ) -> Result<Box<Expr>, Stop>
        requires { level ≤ 10 }
        ensures { Gives view_boxed result (climb (unary room (nested room)) level (view_boxed first) self.old) self.new }
    {
        self.climb_above(room, 0, level, first)
    }

    /// Extends an operand by the operators of the precedence levels above `below`, up to the level `most`. Levels to
    /// which the next operator does not belong are skipped.
    #[cycle(expression)]
    fn climb_above(
        &mut self,
        room: u32,
        below: u32,
        most: u32,
        first: Box<Expr>,
    ) -> Result<Box<Expr>, Stop>
        requires { most ≤ 10 }
        ensures { Gives view_boxed result (climb_from (unary room (nested room)) below (most - below) (view_boxed first) self.old) self.new }
    {
        let Some(level) = self.next_level(below, most) else {
            return Ok(first);
        };
        self.climb_level(room, level - 1, most, first)
    }

    /// Extends an operand by the operators of the level above `below`, and then of the levels above that one.
    #[cycle(expression)]
    fn climb_level(
        &mut self,
        room: u32,
        below: u32,
        most: u32,
        first: Box<Expr>,
    ) -> Result<Box<Expr>, Stop>
        requires { (below < most) × (most ≤ 10) }
        ensures { Gives view_boxed result (one_level room (nested room) below most (view_boxed first) self.old) self.new }
    {
        let rest = self.parse_operations(room, below)?;
        let first = self.joined(first, rest)?;
        self.climb_above(room, below + 1, most, first)
    }

    #[cycle(expression)]
    pub(crate) fn parse_binary_here(&mut self, room: u32) -> Result<Box<Expr>, Stop>
        ensures { Gives view_boxed result (binary room (nested room) self.old) self.new }
    {
        let first = self.parse_unary_here(room)?;
        self.climb(room, LEVELS, first)
    }
}

/// Returns the prefix operator that a sign (punctuation token) denotes before an operand.
pub(crate) fn prefix_operator(sign: Sign) -> Option<PrefixOperator>
    ensures { result ≡ prefix_operator sign }
{
    match sign {
        Sign::Minus => Some(PrefixOperator::Negate),
        Sign::Not => Some(PrefixOperator::Not),
        Sign::Tilde => Some(PrefixOperator::Complement),
        Sign::Star => Some(PrefixOperator::Dereference),
        Sign::And => Some(PrefixOperator::AddressOf),
        _ => None,
    }
}

/// Returns the binary operator that a sign (punctuation token) denotes between two operands.
fn binary_operator(sign: Sign) -> Option<BinaryOperator>
    ensures { result ≡ binary_operator sign }
{
    match sign {
        Sign::OrOr => Some(BinaryOperator::OrElse),
        Sign::AndAnd => Some(BinaryOperator::AndThen),
        Sign::Or => Some(BinaryOperator::Or),
        Sign::Xor => Some(BinaryOperator::Xor),
        Sign::And => Some(BinaryOperator::And),
        Sign::Equal => Some(BinaryOperator::Equal),
        Sign::NotEqual => Some(BinaryOperator::NotEqual),
        Sign::Less => Some(BinaryOperator::Less),
        Sign::LessOrEqual => Some(BinaryOperator::LessOrEqual),
        Sign::Greater => Some(BinaryOperator::Greater),
        Sign::GreaterOrEqual => Some(BinaryOperator::GreaterOrEqual),
        Sign::ShiftLeft => Some(BinaryOperator::ShiftLeft),
        Sign::ShiftRight => Some(BinaryOperator::ShiftRight),
        Sign::Plus => Some(BinaryOperator::Add),
        Sign::Minus => Some(BinaryOperator::Subtract),
        Sign::Star => Some(BinaryOperator::Multiply),
        Sign::Slash => Some(BinaryOperator::Divide),
        Sign::Percent => Some(BinaryOperator::Remainder),
        _ => None,
    }
}

/// Returns the level of the binary operator that a sign (punctuation token) denotes, counted from the tightest; 0 if it denotes none.
fn level_of(sign: Sign) -> u32
    ensures within { (below most : ℕ) → level_within below most (binary_operator sign)
        ≡ (if nat_lt below result && nat_le result most then Some result else None) }
    ensures one { (below : ℕ) → of_level (suc below) (binary_operator sign) ≡ (if nat_eq result (suc below) then binary_operator sign else None) }
{
    match sign {
        Sign::Star | Sign::Slash | Sign::Percent => 1,
        Sign::Plus | Sign::Minus => 2,
        Sign::ShiftLeft | Sign::ShiftRight => 3,
        Sign::Less | Sign::LessOrEqual | Sign::Greater | Sign::GreaterOrEqual => 4,
        Sign::Equal | Sign::NotEqual => 5,
        Sign::And => 6,
        Sign::Xor => 7,
        Sign::Or => 8,
        Sign::AndAnd => 9,
        Sign::OrOr => 10,
        _ => 0,
    }
}

/// Returns the level of the binary operator that a sign (punctuation token) denotes, if the level is above `below` and at most `most`.
fn level_between(sign: Sign, below: u32, most: u32) -> Option<u32>
    ensures value { result ≡ level_within below most (binary_operator sign) }
    ensures within { IfSome result (λ k. (below < k) × (k ≤ most)) }
{
    let level = level_of(sign);
    if below < level && level <= most {
        Some(level)
    } else {
        None
    }
}
