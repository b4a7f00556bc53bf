//! The parser of statements. `room` is the number of nesting levels left below the level at which a function reads.
#![tactic(auto, unfolding(crate::specs::inside::Parsing::bind, crate::specs::inside::Parsing::choose, crate::specs::inside::Parsing::if_sees, crate::specs::inside::Parsing::if_starts, crate::specs::inside::Parsing::refuse_item, crate::specs::inside::Expressions::nested, crate::specs::inside::Statements::nested_statements), using(crate::proofs::StatementLevels::nested_statement, crate::proofs::StatementLevels::nested_items))]

ghost use Rattle.std.specs.Prelude.{◌≡◌, ℕ, suc, true, option_map, is_some, Ok, IfSome, IfNone};
ghost use Rattle.cyc_syntax.specs.declared.tokens.Keyword.TheVariants as words;
ghost use Rattle.cyc_syntax.specs.inside.TreeView.{place_of_span, view_name, view_expression, view_initial, view_statement, view_block};
ghost use Rattle.cyc_syntax.specs.Trees as trees;
ghost use Rattle.cyc_parse.specs.inside.Boxes.{view_boxed, view_boxed_statement};
ghost use Rattle.cyc_parse.specs.inside.Code.{Gives};
ghost use Rattle.cyc_parse.specs.inside.Parsing.{next, starts, inside, sign, word};
ghost use Rattle.cyc_parse.specs.inside.Statements.{begins_statement, is_else, is_unary, ends_in_new, ends_in_name, end_of_swap, nested_statements};
ghost use Rattle.cyc_parse.specs.inside.Statements.{expression_from, swap, following, else_part, return_value, thrown, if_statement, while_statement};
ghost use Rattle.cyc_parse.specs.inside.Statements.{throw_statement, statement};
ghost use Rattle.cyc_parse.specs.inside.StatementSteps.{statement_from, conditional, plain_statement, after_symbol, return_statement};
ghost use Rattle.cyc_parse.specs.inside.StatementSteps.{named_statement, block_statement, expression_statement};

use crate::cursor::{Parser, refusal};
use crate::operators::LEVELS;
use crate::stop::{Reason, Stop};
use crate::symbol::Terminal;
use cyc_syntax::{Block, Expr, Ident, Initial, Keyword, Name, Sign, Stmt};
use cyc_words::Span;

impl<'a> Parser<'a> {
    pub(crate) fn begins_statement(&self) -> bool
        ensures { result ≡ starts begins_statement (next self.now) }
    {
        match self.next() {
            Some(Terminal::Mark(Sign::LeftBrace | Sign::Semicolon)) => true,
            Some(
                Terminal::Word(
                    Keyword::If
                    | Keyword::While
                    | Keyword::Return
                    | Keyword::Break
                    | Keyword::Continue
                    | Keyword::Throw
                    | Keyword::Try,
                ),
            ) => true,
            _ => self.begins_expression(),
        }
    }

    // ---- the parsers one level deeper

    #[cycle(statement)]
    pub(crate) fn parse_statement(&mut self, room: u32) -> Result<Box<Stmt>, Stop>
        ensures { Gives view_boxed_statement result ((nested_statements room).statement self.old) self.new }
    {
        if room == 0 {
            return Err(refusal(self.begins_statement(), Reason::TooDeep));
        }
        let statement = self.parse_statement_here(room - 1)?;
        Ok(Box::new(self.alloc(), statement)?)
    }

    /// Reads the given sign (punctuation token), which stands one nesting level deeper than the current level.
    pub(crate) fn take_sign_deeper(&mut self, room: u32, wanted: Sign) -> Result<Span, Stop>
        ensures { Gives place_of_span result (sign (inside room) wanted self.old) self.new }
    {
        self.take_sign_inside(inside(room), wanted)
    }

    // ---- statements that begin with expressions

    /// Reads the end of a swap statement. If `<` comes next, it may begin region arguments, and then the symbol
    /// after the `<` is unexpected.
    fn end_swap(&mut self, right: &Expr) -> Result<Span, Stop>
        ensures { (room : ℕ) → Gives place_of_span result (end_of_swap (suc room) (view_expression right.now) self.old) self.new }
    {
        if self.sees(Sign::Semicolon) {
            return self.take_sign(Sign::Semicolon);
        }
        if self.sees(Sign::Less) && ends_in_new(right) {
            self.advance()?;
        }
        Err(Stop::Refused(Reason::Unexpected))
    }

    fn parse_swap(&mut self, room: u32, left: Box<Expr>) -> Result<Stmt, Stop>
        ensures { Gives view_statement result (swap room (nested_statements room) (view_boxed left) self.old) self.new }
    {
        self.take_sign(Sign::Swap)?;
        let right = self.parse_unary_here(room)?;
        self.end_swap(&right)?;
        Ok(Stmt::Swap {
            left: Box::into_inner(left),
            right: Box::into_inner(right),
        })
    }

    /// Parses what follows the first expression of a statement: the rest of a swap, or the semicolon of an expression statement.
    fn parse_rest_of_statement(&mut self, room: u32, value: Box<Expr>) -> Result<Stmt, Stop>
        ensures { Gives view_statement result (following room (nested_statements room) (view_boxed value) self.old) self.new }
    {
        if self.sees(Sign::Swap) && is_unary(&value) {
            return self.parse_swap(room, value);
        }
        self.take_sign(Sign::Semicolon)?;
        Ok(Stmt::Expression {
            value: Box::into_inner(value),
        })
    }

    /// Parses an expression that begins with the given name.
    fn parse_expression_from(&mut self, room: u32, name: Ident) -> Result<Box<Expr>, Stop>
        ensures { Gives view_boxed result (expression_from room (nested_statements room) (view_name name) self.old) self.new }
    {
        let base = self.parse_from_name(room, name)?;
        let operand = self.parse_rest_of_operand(room, base)?;
        let target = self.climb(room, LEVELS, operand)?;
        self.parse_assignment(room, target)
    }

    /// Parses a statement that begins with an expression whose first symbol is the given name.
    fn parse_statement_from(&mut self, room: u32, name: Ident) -> Result<Stmt, Stop>
        ensures { Gives view_statement result (statement_from room (nested_statements room) (view_name name) self.old) self.new }
    {
        let value = self.parse_expression_from(room, name)?;
        self.parse_rest_of_statement(room, value)
    }

    fn parse_expression_statement(&mut self, room: u32) -> Result<Stmt, Stop>
        ensures { Gives view_statement result (expression_statement room (nested_statements room) self.old) self.new }
    {
        let value = self.parse_expression_here(room)?;
        self.parse_rest_of_statement(room, value)
    }

    /// Parses a statement after a name: the name is a label if a colon follows, otherwise it begins an expression.
    #[cycle(statement)]
    fn parse_named_statement(&mut self, room: u32, name: Name) -> Result<Stmt, Stop>
        requires { is_some (next self.old) ≡ true }
        ensures { Gives view_statement result (named_statement room (nested_statements room) name.number self.old) self.new }
    {
        let span = self.take_next();
        let name = Ident { name, span };
        let Some(_) = self.take_if(Sign::Colon) else {
            return self.parse_statement_from(room, name);
        };
        let block = self.parse_block(room)?;
        Ok(labelled(name, block))
    }

    // ---- statements that begin with keywords and signs

    #[cycle(statement)]
    fn parse_block_statement(&mut self, room: u32) -> Result<Stmt, Stop>
        ensures { Gives view_statement result (block_statement room (nested_statements room) self.old) self.new }
    {
        Ok(block(self.parse_block(room)?))
    }

    /// Reads `else`, if it comes next.
    #[tactic(auto, unfolding(crate::specs::inside::Parsing::take))]
    fn take_else(&mut self) -> Option<Span>
        ensures seen { starts is_else (next self.old) ≡ is_some result }
        ensures taken { IfSome result (λ span. (room : ℕ) → word (suc room) words.Else self.old ≡ Ok (place_of_span span, self.new)) }
        ensures left { IfNone result (self.new ≡ self.old) }
    {
        let Some(Terminal::Word(Keyword::Else)) = self.next() else {
            return None;
        };
        Some(self.take_next())
    }

    #[cycle(statement)]
    fn parse_else_part(
        &mut self,
        room: u32,
        span: Span,
        condition: Box<Expr>,
        then: Box<Stmt>,
    ) -> Result<Stmt, Stop>
        ensures { Gives view_statement result (else_part room (nested_statements room) (place_of_span span) (view_boxed condition)
            (view_statement then.value) self.old) self.new }
    {
        let Some(_) = self.take_else() else {
            return Ok(conditional(span, condition, then, None));
        };
        let otherwise = self.parse_statement(room)?;
        Ok(conditional(span, condition, then, Some(otherwise)))
    }

    /// Parses an `if` statement.
    #[cycle(statement)]
    fn parse_if(&mut self, room: u32) -> Result<Stmt, Stop>
        requires { is_some (next self.old) ≡ true }
        ensures { Gives view_statement result (after_symbol (if_statement room (nested_statements room)) self.old) self.new }
    {
        let span = self.take_next();
        let condition = self.parse_group_here(room)?;
        let then = self.parse_statement(room)?;
        self.parse_else_part(room, span, condition, then)
    }

    /// Parses a `while` statement.
    #[cycle(statement)]
    fn parse_while(&mut self, room: u32) -> Result<Stmt, Stop>
        requires { is_some (next self.old) ≡ true }
        ensures { Gives view_statement result (after_symbol (while_statement room (nested_statements room)) self.old) self.new }
    {
        let span = self.take_next();
        let condition = self.parse_group_here(room)?;
        let body = self.parse_statement(room)?;
        Ok(Stmt::While {
            span,
            condition: Box::into_inner(condition),
            body,
        })
    }

    fn parse_return_value(&mut self, room: u32) -> Result<Option<Box<Expr>>, Stop>
        ensures { Gives (option_map view_boxed) result (return_value room (nested_statements room) self.old) self.new }
    {
        if self.sees(Sign::Semicolon) {
            return Ok(None);
        }
        Ok(Some(self.parse_expression_here(room)?))
    }

    /// Parses the rest of a `return` statement, after the keyword.
    fn parse_return(&mut self, room: u32, span: Span) -> Result<Stmt, Stop>
        ensures { Gives view_statement result (return_statement room (nested_statements room) (place_of_span span) self.old) self.new }
    {
        let value = self.parse_return_value(room)?;
        self.take_sign(Sign::Semicolon)?;
        Ok(Stmt::Return {
            span,
            value: unboxed(value),
        })
    }

    /// Parses the value of a thrown exception, in parentheses.
    fn parse_thrown(&mut self, room: u32) -> Result<Option<Box<Expr>>, Stop>
        ensures { Gives (option_map view_boxed) result (thrown room (nested_statements room) self.old) self.new }
    {
        if !self.sees(Sign::LeftParen) {
            return Ok(None);
        }
        Ok(Some(self.parse_group(room)?))
    }

    /// Parses a `throw` statement.
    fn parse_throw(&mut self, room: u32) -> Result<Stmt, Stop>
        requires { is_some (next self.old) ≡ true }
        ensures { Gives view_statement result (after_symbol (throw_statement room (nested_statements room)) self.old) self.new }
    {
        let span = self.take_next();
        self.take_word(Keyword::New)?;
        let exception = self.take_identifier_inside(room)?;
        let value = self.parse_thrown(room)?;
        self.take_sign(Sign::Semicolon)?;
        Ok(Stmt::Throw {
            span,
            exception,
            value: unboxed(value),
        })
    }

    /// Parses a statement that contains no other statements.
    fn parse_plain_statement(&mut self, room: u32) -> Result<Stmt, Stop>
        ensures { Gives view_statement result (plain_statement room (nested_statements room) self.old) self.new }
    {
        match self.next() {
            Some(Terminal::Mark(Sign::Semicolon)) => {
                let span = self.take_next();
                Ok(Stmt::Empty { span })
            }
            Some(Terminal::Word(Keyword::Return)) => {
                let span = self.take_next();
                self.parse_return(room, span)
            }
            Some(Terminal::Word(Keyword::Break)) => {
                let span = self.take_next();
                self.take_sign(Sign::Semicolon)?;
                Ok(Stmt::Break { span })
            }
            Some(Terminal::Word(Keyword::Continue)) => {
                let span = self.take_next();
                self.take_sign(Sign::Semicolon)?;
                Ok(Stmt::Continue { span })
            }
            Some(Terminal::Word(Keyword::Throw)) => self.parse_throw(room),
            _ => self.parse_expression_statement(room),
        }
    }

    #[cycle(statement)]
    #[tactic(auto, unfolding(crate::specs::inside::Statements::statement, crate::specs::inside::Parsing::choose, crate::specs::inside::Parsing::bind))]
    pub(crate) fn parse_statement_here(&mut self, room: u32) -> Result<Stmt, Stop>
        ensures { Gives view_statement result (statement room (nested_statements room) self.old) self.new }
    {
        match self.next() {
            Some(Terminal::Identifier(name)) => self.parse_named_statement(room, name),
            Some(Terminal::Mark(Sign::LeftBrace)) => self.parse_block_statement(room),
            Some(Terminal::Word(Keyword::If)) => self.parse_if(room),
            Some(Terminal::Word(Keyword::While)) => self.parse_while(room),
            Some(Terminal::Word(Keyword::Try)) => self.parse_try(room),
            _ => self.parse_plain_statement(room),
        }
    }
}

/// Returns the number of nesting levels that are left inside one more pair of brackets.
pub(crate) fn inside(room: u32) -> u32
    ensures { result ≡ inside room }
{
    room.saturating_sub(1)
}

/// Returns true if an expression is an operand with its prefixes and postfixes; both operands of a swap must be such expressions.
fn is_unary(value: &Expr) -> bool
    ensures { result ≡ is_unary (view_expression value.now) }
{
    !matches!(value, Expr::Binary { .. } | Expr::Assign { .. })
}

/// Returns true if an expression ends in `new` and a name, so that `<` may follow it with region arguments.
#[cycle(ends_in_new)]
fn ends_in_new(value: &Expr) -> bool
    ensures { result ≡ ends_in_new (view_expression value.now) }
{
    match value {
        Expr::Prefixed { operand, .. } => ends_in_new(operand),
        Expr::New { value, .. } | Expr::RegionNew { value, .. } => ends_in_name(value),
        _ => false,
    }
}

#[cycle(ends_in_new)]
fn ends_in_name(initial: &Initial) -> bool
    ensures { result ≡ ends_in_name (view_initial initial.now) }
{
    match initial {
        Initial::Plain { value } => matches!(value, Expr::Variable { .. }) || ends_in_new(value),
        _ => false,
    }
}

pub(crate) fn unboxed(value: Option<Box<Expr>>) -> Option<Expr>
    ensures { option_map view_expression result ≡ option_map view_boxed value }
{
    match value {
        Some(value) => Some(Box::into_inner(value)),
        None => None,
    }
}

fn block(block: Block) -> Stmt
    ensures { view_statement result ≡ trees.Block (view_block block) }
{
    Stmt::Block { block }
}

fn conditional(
    span: Span,
    condition: Box<Expr>,
    then: Box<Stmt>,
    otherwise: Option<Box<Stmt>>,
) -> Stmt
    ensures { view_statement result ≡ conditional (place_of_span span) (view_boxed condition) (view_boxed_statement then)
        (option_map view_boxed_statement otherwise) }
{
    Stmt::If {
        span,
        condition: Box::into_inner(condition),
        then,
        otherwise,
    }
}

fn labelled(label: Ident, block: Block) -> Stmt
    ensures { view_statement result ≡ trees.Labelled (view_name label) (view_block block) }
{
    Stmt::Labelled { label, block }
}
