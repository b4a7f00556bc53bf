//! The parser of `try` statements with their catch clauses.
#![tactic(auto, unfolding(crate::specs::inside::Parsing::bind, crate::specs::inside::Parsing::choose, crate::specs::inside::Parsing::if_sees, crate::specs::inside::Parsing::if_starts, crate::specs::inside::Parsing::refuse_item, crate::specs::inside::Expressions::nested, crate::specs::inside::Statements::nested_statements), using(crate::proofs::StatementLevels::nested_statement, crate::proofs::StatementLevels::nested_items))]

ghost use Rattle.std.specs.Prelude.{◌≡◌, true, length, option_map, is_some};
ghost use Rattle.cyc_syntax.specs.inside.TreeView.{place_of_span, view_name, view_statement, clauses_of, default_of};
ghost use Rattle.cyc_syntax.specs.Trees as trees;
ghost use Rattle.cyc_parse.specs.inside.Code.{Gives};
ghost use Rattle.cyc_parse.specs.inside.Parsing.{next, starts};
ghost use Rattle.cyc_parse.specs.inside.Statements.{is_case, is_default, begins_clause, nested_statements, body, caught, clauses_in, clauses, try_statement};
ghost use Rattle.cyc_parse.specs.inside.StatementSteps.{view_clause_head, clause_head, one_clause, then_clause, default_clause, end_of_try, after_symbol};

use crate::cursor::Parser;
use crate::growth::append;
use crate::statements::inside;
use crate::stop::{Reason, Stop};
use crate::symbol::Terminal;
use cyc_syntax::{Clause, Ident, Item, Keyword, Sign, Stmt};
use cyc_words::Span;

/// The clauses of a `catch`, and the declarations and statements of its default clause, if the `catch` has a default clause.
#[derive(Drop)]
struct Handlers {
    clauses: Vec<Clause>,
    default: Option<Vec<Item>>,
}

impl<'a> Parser<'a> {
    fn begins_case(&self) -> bool
        ensures { result ≡ starts is_case (next self.now) }
    {
        matches!(self.next(), Some(Terminal::Word(Keyword::Case)))
    }

    fn begins_default(&self) -> bool
        ensures { result ≡ starts is_default (next self.now) }
    {
        matches!(self.next(), Some(Terminal::Word(Keyword::Default)))
    }

    fn begins_clause(&self) -> bool
        ensures { result ≡ starts begins_clause (next self.now) }
    {
        matches!(
            self.next(),
            Some(Terminal::Word(Keyword::Case | Keyword::Default))
        )
    }

    /// Parses the variable of a catch clause, in parentheses.
    fn parse_caught(&mut self, room: u32) -> Result<Option<Ident>, Stop>
        ensures { Gives (option_map view_name) result (caught room (nested_statements room) self.old) self.new }
    {
        if !self.sees(Sign::LeftParen) {
            return Ok(None);
        }
        self.take_sign_inside(room, Sign::LeftParen)?;
        let variable = self.take_identifier_inside(inside(room))?;
        self.take_sign_deeper(room, Sign::RightParen)?;
        Ok(Some(variable))
    }

    /// Parses the start of a catch clause up to its colon, if a clause comes next: its exception, and its variable if it has one.
    fn parse_clause_head(&mut self, room: u32) -> Result<Option<(Ident, Option<Ident>)>, Stop>
        ensures { Gives (option_map view_clause_head) result (clause_head room (nested_statements room) self.old) self.new }
    {
        if !self.begins_case() {
            return Ok(None);
        }
        self.take_word_inside(room, Keyword::Case)?;
        self.take_sign_inside(room, Sign::And)?;
        let exception = self.take_identifier_inside(room)?;
        let variable = self.parse_caught(room)?;
        self.take_sign_inside(room, Sign::Colon)?;
        Ok(Some((exception, variable)))
    }

    /// Parses a catch clause `case &exception(variable): ..`, if one comes next.
    #[cycle(statement)]
    fn parse_clause(&mut self, room: u32) -> Result<Option<Clause>, Stop>
        ensures { Gives (option_map then_clause) result (one_clause room (nested_statements room) self.old) self.new }
    {
        let Some((exception, variable)) = self.parse_clause_head(room)? else {
            return Ok(None);
        };
        let items = self.parse_items(room)?;
        Ok(Some(Clause {
            exception,
            variable,
            items,
        }))
    }

    /// Parses the declarations and statements of the catch clause `default: ..`, if it comes next.
    #[cycle(statement)]
    fn parse_default_clause(&mut self, room: u32) -> Result<Option<Vec<Item>>, Stop>
        ensures { Gives default_of result (default_clause room (nested_statements room) self.old) self.new }
    {
        if !self.begins_default() {
            return Ok(None);
        }
        self.take_word_inside(room, Keyword::Default)?;
        self.take_sign_inside(room, Sign::Colon)?;
        Ok(Some(self.parse_items(room)?))
    }

    #[cycle(statement)]
    fn parse_handlers(&mut self, room: u32) -> Result<Handlers, Stop>
        ensures { Gives (λ h. clauses_of h.clauses.items (default_of h.default)) result
            (clauses_in room (nested_statements room) (length self.old) self.old) self.new }
    {
        let mut clauses = Vec::new(self.alloc());
        let most = self.len();
        for _ in 0..most {
            let Some(clause) = self.parse_clause(room)? else {
                let default = self.parse_default_clause(room)?;
                return Ok(Handlers { clauses, default });
            };
            append(&mut clauses, clause)?;
        }
        Ok(Handlers {
            clauses,
            default: None,
        })
    }

    /// Parses the catch clauses after `catch`, at least one.
    #[cycle(statement)]
    fn parse_clauses(&mut self, room: u32) -> Result<Handlers, Stop>
        ensures { Gives (λ h. clauses_of h.clauses.items (default_of h.default)) result (clauses room (nested_statements room) self.old) self.new }
    {
        if !self.begins_clause() {
            return Err(Stop::Refused(Reason::Unexpected));
        }
        self.parse_handlers(room)
    }

    /// Reads the closing brace after the catch clauses of a `try`.
    fn end_try(
        &mut self,
        room: u32,
        span: Span,
        body: Box<Stmt>,
        handlers: Handlers,
    ) -> Result<Stmt, Stop>
        ensures { Gives view_statement result (end_of_try room (nested_statements room) (place_of_span span) (view_statement body.value)
            (clauses_of handlers.clauses.items (default_of handlers.default)) self.old) self.new }
    {
        self.take_sign_inside(room, Sign::RightBrace)?;
        Ok(guarded(span, body, handlers))
    }

    /// Parses a `try` statement.
    #[cycle(statement)]
    pub(crate) fn parse_try(&mut self, room: u32) -> Result<Stmt, Stop>
        requires { is_some (next self.old) ≡ true }
        ensures { Gives view_statement result (after_symbol (try_statement room (nested_statements room)) self.old) self.new }
    {
        let span = self.take_next();
        let body = self.parse_statement(room)?;
        self.take_word(Keyword::Catch)?;
        self.take_sign(Sign::LeftBrace)?;
        let handlers = self.parse_clauses(room)?;
        self.end_try(room, span, body, handlers)
    }
}

fn guarded(span: Span, body: Box<Stmt>, handlers: Handlers) -> Stmt
    ensures { view_statement result ≡ trees.Try (place_of_span span) (view_statement body.value)
        (clauses_of handlers.clauses.items (default_of handlers.default)) }
{
    Stmt::Try {
        span,
        body,
        clauses: handlers.clauses,
        default: handlers.default,
    }
}
