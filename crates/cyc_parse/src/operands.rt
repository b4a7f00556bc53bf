//! The parser of operands, with their prefixes and postfixes.
#![tactic(auto, unfolding(crate::specs::inside::Parsing::bind, crate::specs::inside::Parsing::choose, crate::specs::inside::Parsing::if_sees, crate::specs::inside::Parsing::if_starts, crate::specs::inside::Parsing::if_is, crate::specs::inside::Parsing::refuse_item, crate::specs::inside::Expressions::nested), using(crate::proofs::Levels::levels))]

ghost use Rattle.std.specs.Prelude.{◌≡◌, suc, true, ◌||◌, ℕ, map, option_map, is_some, Ok};
ghost use Rattle.cyc_syntax.specs.declared.tokens.Sign.TheVariants as signs;
ghost use Rattle.cyc_syntax.specs.inside.TreeView.{place_of_span, view_name, view_expression, expressions_of, postfixes_of, then_postfix};
ghost use Rattle.cyc_parse.specs.inside.Boxes.{view_boxed};
ghost use Rattle.cyc_parse.specs.inside.Code.{Gives};
ghost use Rattle.cyc_parse.specs.inside.Parsing.{next, sees, separated};
ghost use Rattle.cyc_parse.specs.inside.Steps.{one_postfix, one_field, prefixed, created, created_in, freed_key, bracketed, lone, end_of_group};
ghost use Rattle.cyc_parse.specs.inside.Steps.{end_of_bracketed, end_of_call, end_of_index, with_chain, is_plain};
ghost use Rattle.cyc_syntax.specs.Trees.{NoPostfixes, Call};
ghost use Rattle.cyc_parse.specs.inside.Expressions.{chained, nested, begins_expression, group, arguments, from_name, primary, no_more_postfixes};
ghost use Rattle.cyc_parse.specs.inside.Expressions.{postfixes, with_postfixes, prefixed_by, unary};

use crate::cursor::{Parser, refusal};
use crate::growth::append;
use crate::operators::prefix_operator;
use crate::stop::{Reason, Stop};
use crate::symbol::Terminal;
use crate::types::MAX_ITEMS;
use cyc_syntax::{Expr, Ident, Keyword, Postfix, PrefixOperator, Sign};
use cyc_words::Span;

impl<'a> Parser<'a> {
    /// Returns the expression made of an operand and the postfixes after it.
    fn chained(&self, base: Box<Expr>, postfixes: Vec<Postfix>) -> Result<Box<Expr>, Stop>
        ensures { Gives view_boxed result (Ok (chained (view_boxed base) (postfixes_of postfixes.items), self.now)) self.now }
    {
        if postfixes.is_empty() {
            return Ok(base);
        }
        self.node(Expr::Chained { base, postfixes })
    }

    // ---- operands without postfixes

    /// Reads the closing parenthesis after an expression.
    fn end_group(&mut self, room: u32, inner: Box<Expr>) -> Result<Box<Expr>, Stop>
        ensures { Gives view_boxed result (end_of_group room (view_boxed inner) self.old) self.new }
    {
        self.take_sign_inside(room, Sign::RightParen)?;
        Ok(inner)
    }

    /// Parses an expression in parentheses.
    #[cycle(expression)]
    pub(crate) fn parse_group_here(&mut self, room: u32) -> Result<Box<Expr>, Stop>
        ensures { Gives view_boxed result (group room (nested room) self.old) self.new }
    {
        self.take_sign(Sign::LeftParen)?;
        let inner = self.parse_expression(room)?;
        self.end_group(room, inner)
    }

    #[cycle(expression)]
    fn parse_argument_list(&mut self, room: u32) -> Result<Vec<Expr>, Stop>
        ensures { Gives (λ v. map view_expression v.items) result (separated room begins_expression (nested room).expression self.old) self.new }
    {
        let mut arguments = Vec::new(self.alloc());
        for _ in 0..MAX_ITEMS {
            let argument = self.parse_expression(room)?;
            append(&mut arguments, Box::into_inner(argument))?;
            if !self.sees(Sign::Comma) {
                return Ok(arguments);
            }
            self.take_sign_inside(room, Sign::Comma)?;
        }
        Err(refusal(self.begins_expression(), Reason::TooLong))
    }

    /// Parses the arguments of a call, up to the closing parenthesis.
    #[cycle(expression)]
    fn parse_arguments(&mut self, room: u32) -> Result<Vec<Expr>, Stop>
        ensures { Gives (λ v. expressions_of v.items) result (arguments room (nested room) self.old) self.new }
    {
        if self.sees(Sign::RightParen) {
            return Ok(Vec::new(self.alloc()));
        }
        let arguments = self.parse_argument_list(room)?;
        Ok(arguments)
    }

    /// Reads the closing parenthesis after the arguments of a call.
    fn end_call(&mut self, room: u32, name: Ident, arguments: Vec<Expr>) -> Result<Box<Expr>, Stop>
        ensures { Gives view_boxed result (end_of_call room (view_name name) (expressions_of arguments.items) self.old) self.new }
    {
        self.take_sign_inside(room, Sign::RightParen)?;
        self.node(call(name, arguments))
    }

    /// Parses an expression that begins with the given name: a call or a variable.
    #[cycle(expression)]
    pub(crate) fn parse_from_name(&mut self, room: u32, name: Ident) -> Result<Box<Expr>, Stop>
        ensures { Gives view_boxed result (from_name room (nested room) (view_name name) self.old) self.new }
    {
        let Some(_) = self.take_if(Sign::LeftParen) else {
            return self.node(Expr::Variable { name });
        };
        let arguments = self.parse_arguments(room)?;
        self.end_call(room, name, arguments)
    }

    /// Parses `free_ukey(..)`.
    fn parse_freed_key(&mut self, room: u32) -> Result<Box<Expr>, Stop>
        requires { is_some (next self.old) ≡ true }
        ensures { Gives view_boxed result (freed_key room self.old) self.new }
    {
        let span = self.take_next();
        self.take_sign(Sign::LeftParen)?;
        let key = self.take_identifier_inside(room)?;
        self.take_sign_inside(room, Sign::RightParen)?;
        self.node(Expr::FreeKey { span, key })
    }

    /// Reads the closing parenthesis after an expression, and builds the parenthesized node.
    fn end_bracketed(&mut self, room: u32, span: Span, inner: Box<Expr>) -> Result<Box<Expr>, Stop>
        ensures { Gives view_boxed result (end_of_bracketed room (place_of_span span) (view_boxed inner) self.old) self.new }
    {
        self.take_sign_inside(room, Sign::RightParen)?;
        self.node(Expr::Bracketed { span, inner })
    }

    /// Parses an expression in parentheses, and builds the parenthesized node.
    #[cycle(expression)]
    fn parse_bracketed(&mut self, room: u32) -> Result<Box<Expr>, Stop>
        requires { is_some (next self.old) ≡ true }
        ensures { Gives view_boxed result (bracketed room (nested room) self.old) self.new }
    {
        let span = self.take_next();
        let inner = self.parse_expression(room)?;
        self.end_bracketed(room, span, inner)
    }

    /// Parses an operand that has no inner expression and is neither a call nor a variable.
    fn parse_lone(&mut self, room: u32) -> Result<Box<Expr>, Stop>
        ensures { Gives view_boxed result (lone room self.old) self.new }
    {
        match self.next() {
            Some(Terminal::Number(value)) => {
                let span = self.take_next();
                self.node(Expr::Number { span, value })
            }
            Some(Terminal::Character(value)) => {
                let span = self.take_next();
                self.node(Expr::Character { span, value })
            }
            Some(Terminal::Word(Keyword::Null)) => {
                let span = self.take_next();
                self.node(Expr::Null { span })
            }
            Some(Terminal::Word(Keyword::HeapRegion)) => {
                let span = self.take_next();
                self.node(Expr::HeapRegion { span })
            }
            Some(Terminal::Word(Keyword::UniqueRegion)) => {
                let span = self.take_next();
                self.node(Expr::UniqueRegion { span })
            }
            Some(Terminal::Word(Keyword::FreeKey)) => self.parse_freed_key(room),
            _ => Err(Stop::Refused(Reason::Unexpected)),
        }
    }

    #[cycle(expression)]
    #[tactic(auto, unfolding(crate::specs::inside::Expressions::primary, crate::specs::inside::Parsing::choose, crate::specs::inside::Parsing::bind))]
    fn parse_primary(&mut self, room: u32) -> Result<Box<Expr>, Stop>
        ensures { Gives view_boxed result (primary room (nested room) self.old) self.new }
    {
        match self.next() {
            Some(Terminal::Identifier(name)) => {
                let span = self.take_next();
                self.parse_from_name(room, Ident { name, span })
            }
            Some(Terminal::Word(Keyword::NumberOfElements)) => {
                let span = self.take_next();
                let pointer = self.parse_group_here(room)?;
                self.node(Expr::NumberOfElements { span, pointer })
            }
            Some(Terminal::Word(Keyword::Char)) => {
                let span = self.take_next();
                let value = self.parse_group_here(room)?;
                self.node(Expr::LowByteOf { span, value })
            }
            Some(Terminal::Word(Keyword::FreeUnique)) => {
                let span = self.take_next();
                let pointer = self.parse_group_here(room)?;
                self.node(Expr::FreeUnique { span, pointer })
            }
            Some(Terminal::Mark(Sign::LeftParen)) => self.parse_bracketed(room),
            _ => self.parse_lone(room),
        }
    }

    // ---- postfixes

    /// Reads the closing bracket after an index.
    fn end_index(&mut self, room: u32, index: Box<Expr>) -> Result<Option<Postfix>, Stop>
        ensures { Gives (option_map then_postfix) result (end_of_index room (view_boxed index) self.old) self.new }
    {
        self.take_sign_inside(room, Sign::RightBracket)?;
        Ok(Some(Postfix::Index {
            index: Box::into_inner(index),
        }))
    }

    /// Parses `->` and a field's name, if `->` comes next.
    fn parse_field_postfix(&mut self) -> Result<Option<Postfix>, Stop>
        ensures { (room : ℕ) → Gives (option_map then_postfix) result (one_field (suc room) self.old) self.new }
    {
        let Some(_) = self.take_if(Sign::Arrow) else {
            return Ok(None);
        };
        let name = self.take_identifier()?;
        Ok(Some(Postfix::Field { name }))
    }

    /// Parses one postfix, if one comes next: `[..]`, or `->` and a field's name.
    #[cycle(expression)]
    fn parse_postfix(&mut self, room: u32) -> Result<Option<Postfix>, Stop>
        ensures { Gives (option_map then_postfix) result (one_postfix room (nested room) self.old) self.new }
    {
        let Some(_) = self.take_if(Sign::LeftBracket) else {
            return self.parse_field_postfix();
        };
        let index = self.parse_expression(room)?;
        self.end_index(room, index)
    }

    pub(crate) fn begins_postfix(&self) -> bool
        ensures { result ≡ sees signs.LeftBracket self.now || sees signs.Arrow self.now }
    {
        self.sees(Sign::LeftBracket) || self.sees(Sign::Arrow)
    }

    fn end_postfixes(&mut self) -> Result<(), Stop>
        ensures { Gives (λ _. NoPostfixes) result (no_more_postfixes self.old) self.new }
    {
        if self.begins_postfix() {
            return Err(Stop::Refused(Reason::TooLong));
        }
        Ok(())
    }

    #[cycle(expression)]
    fn parse_postfixes(&mut self, room: u32) -> Result<Vec<Postfix>, Stop>
        ensures { Gives (λ v. postfixes_of v.items) result (postfixes room (nested room) 64 self.old) self.new }
    {
        let mut postfixes = Vec::new(self.alloc());
        for _ in 0..MAX_ITEMS {
            let Some(postfix) = self.parse_postfix(room)? else {
                return Ok(postfixes);
            };
            append(&mut postfixes, postfix)?;
        }
        self.end_postfixes()?;
        Ok(postfixes)
    }

    /// Extends an operand by its postfixes.
    #[cycle(expression)]
    pub(crate) fn parse_rest_of_operand(
        &mut self,
        room: u32,
        base: Box<Expr>,
    ) -> Result<Box<Expr>, Stop>
        ensures { Gives view_boxed result (with_chain room (nested room) (view_boxed base) self.old) self.new }
    {
        if !self.begins_postfix() {
            return Ok(base);
        }
        let postfixes = self.parse_postfixes(room)?;
        self.chained(base, postfixes)
    }

    /// Parses an operand with its postfixes.
    #[cycle(expression)]
    fn parse_with_postfixes(&mut self, room: u32) -> Result<Box<Expr>, Stop>
        ensures { Gives view_boxed result (with_postfixes room (nested room) (primary room (nested room)) self.old) self.new }
    {
        let base = self.parse_primary(room)?;
        self.parse_rest_of_operand(room, base)
    }

    // ---- prefixes

    #[cycle(expression)]
    fn parse_prefixed(&mut self, room: u32, operator: PrefixOperator) -> Result<Box<Expr>, Stop>
        requires { is_some (next self.old) ≡ true }
        ensures { Gives view_boxed result (prefixed (nested room) operator self.old) self.new }
    {
        let span = self.take_next();
        let operand = self.parse_unary(room)?;
        self.node(Expr::Prefixed {
            span,
            operator,
            operand,
        })
    }

    /// Parses `new` and its operand.
    #[cycle(expression)]
    fn parse_new(&mut self, room: u32) -> Result<Box<Expr>, Stop>
        requires { is_some (next self.old) ≡ true }
        ensures { Gives view_boxed result (created (nested room) self.old) self.new }
    {
        let span = self.take_next();
        let value = self.parse_initial(room)?;
        self.node(Expr::New { span, value })
    }

    /// Parses `rnew(..)` and its operand.
    #[cycle(expression)]
    fn parse_region_new(&mut self, room: u32) -> Result<Box<Expr>, Stop>
        requires { is_some (next self.old) ≡ true }
        ensures { Gives view_boxed result (created_in (nested room) self.old) self.new }
    {
        let span = self.take_next();
        let region = self.parse_group(room)?;
        let value = self.parse_initial(room)?;
        self.node(Expr::RegionNew {
            span,
            region,
            value,
        })
    }

    /// Parses an operand, given the prefix operator that its first sign (punctuation token) denotes, if any.
    #[cycle(expression)]
    fn parse_prefixed_by(
        &mut self,
        room: u32,
        operator: Option<PrefixOperator>,
    ) -> Result<Box<Expr>, Stop>
        requires { is_some (next self.old) ≡ true }
        ensures { Gives view_boxed result (prefixed_by room (nested room) operator self.old) self.new }
    {
        match operator {
            Some(operator) => self.parse_prefixed(room, operator),
            None => self.parse_with_postfixes(room),
        }
    }

    /// Returns true if the next operand is a single number or name, followed by neither arguments nor a postfix.
    fn is_plain(&self) -> bool
        ensures { result ≡ is_plain self.now }
    {
        let Some(Terminal::Number(_) | Terminal::Identifier(_)) = self.next() else {
            return false;
        };
        match self.second() {
            Some(Terminal::Mark(sign)) => {
                sign != Sign::LeftParen && sign != Sign::LeftBracket && sign != Sign::Arrow
            }
            _ => true,
        }
    }

    /// Parses an operand that is a single number or name, as most operands are.
    fn parse_plain_operand(&mut self) -> Result<Box<Expr>, Stop>
        requires { is_plain self.old ≡ true }
        ensures { (room : ℕ) → Gives view_boxed result (unary room (nested room) self.old) self.new }
    {
        match self.next() {
            Some(Terminal::Number(value)) => {
                let span = self.take_next();
                self.node(Expr::Number { span, value })
            }
            Some(Terminal::Identifier(name)) => {
                let span = self.take_next();
                self.node(Expr::Variable {
                    name: Ident { name, span },
                })
            }
            _ => unreachable!(),
        }
    }

    /// Parses an operand with its prefixes and postfixes.
    #[cycle(expression)]
    pub(crate) fn parse_unary_here(&mut self, room: u32) -> Result<Box<Expr>, Stop>
        ensures { Gives view_boxed result (unary room (nested room) self.old) self.new }
    {
        if self.is_plain() {
            return self.parse_plain_operand();
        }
        self.parse_long_operand(room)
    }

    /// Parses an operand of any form, with its prefix operators and its postfixes.
    #[cycle(expression)]
    #[tactic(auto, unfolding(crate::specs::inside::Expressions::unary, crate::specs::inside::Parsing::choose, crate::specs::inside::Parsing::bind))]
    fn parse_long_operand(&mut self, room: u32) -> Result<Box<Expr>, Stop>
        ensures { Gives view_boxed result (unary room (nested room) self.old) self.new }
    {
        match self.next() {
            Some(Terminal::Mark(sign)) => self.parse_prefixed_by(room, prefix_operator(sign)),
            Some(Terminal::Word(Keyword::New)) => self.parse_new(room),
            Some(Terminal::Word(Keyword::RegionNew)) => self.parse_region_new(room),
            _ => self.parse_with_postfixes(room),
        }
    }
}

fn call(function: Ident, arguments: Vec<Expr>) -> Expr
    ensures { view_expression result ≡ Call (view_name function) (expressions_of arguments.items) }
{
    Expr::Call {
        function,
        arguments,
    }
}
