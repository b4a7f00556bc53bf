//! The parser of expressions: their first symbols, and their nesting levels. `room` is the number of nesting levels left below the level
//! at which a function reads.
#![tactic(auto, unfolding(crate::specs::inside::Parsing::bind, crate::specs::inside::Parsing::choose, crate::specs::inside::Parsing::if_sees, crate::specs::inside::Parsing::if_starts, crate::specs::inside::Parsing::if_is, crate::specs::inside::Parsing::refuse_item, crate::specs::inside::Expressions::nested), using(crate::proofs::Levels::levels))]

ghost use Rattle.std.specs.Prelude.{◌≡◌, Ok};
ghost use Rattle.cyc_syntax.specs.inside.TreeView.{view_expression};
ghost use Rattle.cyc_parse.specs.inside.Boxes.{view_boxed};
ghost use Rattle.cyc_parse.specs.inside.Code.{Gives};
ghost use Rattle.cyc_parse.specs.inside.Parsing.{next, starts};
ghost use Rattle.cyc_parse.specs.inside.Expressions.{nested, begins_by_word, begins_by_sign, begins_expression, assignment, expression};

use crate::cursor::{Parser, refusal};
use crate::operators::prefix_operator;
use crate::stop::{Reason, Stop};
use crate::symbol::Terminal;
use cyc_syntax::{Expr, Keyword, Sign};

impl<'a> Parser<'a> {
    pub(crate) fn begins_expression(&self) -> bool
        ensures { result ≡ starts begins_expression (next self.now) }
    {
        match self.next() {
            Some(Terminal::Identifier(_) | Terminal::Number(_) | Terminal::Character(_)) => true,
            Some(Terminal::Word(word)) => begins_by_word(word),
            Some(Terminal::Mark(sign)) => begins_by_sign(sign),
            _ => false,
        }
    }

    // ---- the parsers one level deeper

    #[cycle(expression)]
    pub(crate) fn parse_unary(&mut self, room: u32) -> Result<Box<Expr>, Stop>
        ensures { Gives view_boxed result ((nested room).unary self.old) self.new }
    {
        if room == 0 {
            return Err(refusal(self.begins_expression(), Reason::TooDeep));
        }
        self.parse_unary_here(room - 1)
    }

    #[cycle(expression)]
    pub(crate) fn parse_binary(&mut self, room: u32) -> Result<Box<Expr>, Stop>
        ensures { Gives view_boxed result ((nested room).binary self.old) self.new }
    {
        if room == 0 {
            return Err(refusal(self.begins_expression(), Reason::TooDeep));
        }
        self.parse_binary_here(room - 1)
    }

    #[cycle(expression)]
    pub(crate) fn parse_expression(&mut self, room: u32) -> Result<Box<Expr>, Stop>
        ensures { Gives view_boxed result ((nested room).expression self.old) self.new }
    {
        if room == 0 {
            return Err(refusal(self.begins_expression(), Reason::TooDeep));
        }
        self.parse_expression_here(room - 1)
    }

    #[cycle(expression)]
    pub(crate) fn parse_group(&mut self, room: u32) -> Result<Box<Expr>, Stop>
        ensures { Gives view_boxed result ((nested room).group self.old) self.new }
    {
        if room == 0 {
            return Err(refusal(self.sees(Sign::LeftParen), Reason::TooDeep));
        }
        self.parse_group_here(room - 1)
    }

    // ---- assignments

    #[cycle(expression)]
    pub(crate) fn parse_assignment(
        &mut self,
        room: u32,
        target: Box<Expr>,
    ) -> Result<Box<Expr>, Stop>
        ensures { Gives view_boxed result (assignment room (nested room) (view_boxed target) self.old) self.new }
    {
        let Some(_) = self.take_if(Sign::Assign) else {
            return Ok(target);
        };
        let value = self.parse_expression(room)?;
        self.node(Expr::Assign { target, value })
    }

    #[cycle(expression)]
    pub(crate) fn parse_expression_here(&mut self, room: u32) -> Result<Box<Expr>, Stop>
        ensures { Gives view_boxed result (expression room (nested room) self.old) self.new }
    {
        let target = self.parse_binary_here(room)?;
        self.parse_assignment(room, target)
    }

    // If an error occurs, the compiled code drops each value that the parsing function holds. The parsed expression is in a box, so one
    // call drops it.

    /// Puts an expression into a box.
    pub(crate) fn node(&self, value: Expr) -> Result<Box<Expr>, Stop>
        ensures { Gives view_boxed result (Ok (view_expression value, self.now)) self.now }
    {
        Ok(Box::new(self.alloc(), value)?)
    }
}

fn begins_by_word(word: Keyword) -> bool
    ensures { result ≡ begins_by_word word }
{
    match word {
        Keyword::Null
        | Keyword::HeapRegion
        | Keyword::UniqueRegion
        | Keyword::NumberOfElements
        | Keyword::Char
        | Keyword::FreeUnique
        | Keyword::FreeKey
        | Keyword::New
        | Keyword::RegionNew => true,
        _ => false,
    }
}

fn begins_by_sign(sign: Sign) -> bool
    ensures { result ≡ begins_by_sign sign }
{
    match sign {
        Sign::LeftParen => true,
        _ => prefix_operator(sign).is_some(),
    }
}
