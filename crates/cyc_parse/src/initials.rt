//! The parser of the initial value of a new object, which follows `new` or `rnew`.
#![tactic(auto, unfolding(crate::specs::inside::Parsing::bind, crate::specs::inside::Parsing::choose, crate::specs::inside::Parsing::if_sees, crate::specs::inside::Parsing::if_starts, crate::specs::inside::Parsing::if_is, crate::specs::inside::Parsing::refuse_item, crate::specs::inside::Expressions::nested), using(crate::proofs::Levels::levels))]

ghost use Rattle.std.specs.Prelude.{◌≡◌, map, Ok};
ghost use Rattle.cyc_syntax.specs.inside.TreeView.{place_of_span, view_name, view_initial, expressions_of};
ghost use Rattle.cyc_parse.specs.inside.Boxes.{view_boxed, view_boxed_initial};
ghost use Rattle.cyc_parse.specs.inside.Code.{Gives};
ghost use Rattle.cyc_parse.specs.inside.Parsing.{next, starts};
ghost use Rattle.cyc_parse.specs.inside.Steps.{end_of_fields, end_of_array};
ghost use Rattle.cyc_syntax.specs.Trees.{Plain, Fields};
ghost use Rattle.cyc_parse.specs.inside.Expressions.{nested, begins_initial, values, fields, initial_from_name, array, initial};

use crate::cursor::{Parser, refusal};
use crate::growth::append;
use crate::stop::{Reason, Stop};
use crate::symbol::Terminal;
use cyc_syntax::{Expr, Ident, Initial, Keyword, Sign};
use cyc_words::Span;

impl<'a> Parser<'a> {
    fn begins_initial(&self) -> bool
        ensures { result ≡ starts begins_initial (next self.now) }
    {
        match self.next() {
            Some(Terminal::Mark(Sign::LeftBrace)) => true,
            _ => self.begins_expression(),
        }
    }

    #[cycle(expression)]
    pub(crate) fn parse_initial(&mut self, room: u32) -> Result<Box<Initial>, Stop>
        ensures { Gives view_boxed_initial result ((nested room).initial self.old) self.new }
    {
        if room == 0 {
            return Err(refusal(self.begins_initial(), Reason::TooDeep));
        }
        self.parse_initial_here(room - 1)
    }

    fn plain(&self, value: Box<Expr>) -> Result<Box<Initial>, Stop>
        ensures { Gives view_boxed_initial result (Ok (Plain (view_boxed value), self.now)) self.now }
    {
        self.initial_node(Initial::Plain {
            value: Box::into_inner(value),
        })
    }

    fn initial_node(&self, value: Initial) -> Result<Box<Initial>, Stop>
        ensures { Gives view_boxed_initial result (Ok (view_initial value, self.now)) self.now }
    {
        Ok(Box::new(self.alloc(), value)?)
    }

    /// Parses the values of a struct's fields, at least one.
    #[cycle(expression)]
    fn parse_values(&mut self, room: u32) -> Result<Vec<Expr>, Stop>
        ensures { Gives (λ v. expressions_of v.items) result (values room (nested room) self.old) self.new }
    {
        let first = self.parse_expression(room)?;
        let mut values = Vec::new(self.alloc());
        append(&mut values, Box::into_inner(first))?;
        let most = self.len();
        for _ in 0..most {
            if !self.sees(Sign::Comma) {
                return Ok(values);
            }
            self.take_sign_inside(room, Sign::Comma)?;
            let value = self.parse_expression(room)?;
            append(&mut values, Box::into_inner(value))?;
        }
        Ok(values)
    }

    /// Reads the closing brace after the values of a struct's fields.
    fn end_values(
        &mut self,
        room: u32,
        name: Ident,
        regions: Vec<Ident>,
        values: Vec<Expr>,
    ) -> Result<Box<Initial>, Stop>
        ensures { Gives view_boxed_initial result (end_of_fields room (view_name name) (map view_name regions.items) (expressions_of values.items)
            self.old) self.new }
    {
        self.take_sign_inside(room, Sign::RightBrace)?;
        self.initial_node(struct_fields(name, regions, values))
    }

    #[cycle(expression)]
    fn parse_fields(
        &mut self,
        room: u32,
        name: Ident,
        regions: Vec<Ident>,
    ) -> Result<Box<Initial>, Stop>
        ensures { Gives view_boxed_initial result (fields room (nested room) (view_name name) (map view_name regions.items) self.old) self.new }
    {
        self.take_sign(Sign::LeftBrace)?;
        let values = self.parse_values(room)?;
        self.end_values(room, name, regions, values)
    }

    /// Parses an initial value that begins with a name: a struct's fields, with or without region arguments, or an expression.
    #[cycle(expression)]
    fn parse_initial_from_name(&mut self, room: u32, name: Ident) -> Result<Box<Initial>, Stop>
        ensures { Gives view_boxed_initial result (initial_from_name room (nested room) (view_name name) self.old) self.new }
    {
        if self.sees(Sign::LeftBrace) {
            return self.parse_fields(room, name, Vec::new(self.alloc()));
        }
        if self.opens_regions() {
            let regions = self.parse_region_list()?;
            return self.parse_fields(room, name, regions);
        }
        let base = self.parse_from_name(room, name)?;
        let value = self.parse_rest_of_operand(room, base)?;
        self.plain(value)
    }

    /// Reads the closing brace after an array's element.
    fn end_array(
        &mut self,
        room: u32,
        span: Span,
        variable: Ident,
        length: Box<Expr>,
        element: Box<Expr>,
    ) -> Result<Box<Initial>, Stop>
        ensures { Gives view_boxed_initial result (end_of_array room (place_of_span span) (view_name variable) (view_boxed length)
            (view_boxed element) self.old) self.new }
    {
        self.take_sign_inside(room, Sign::RightBrace)?;
        self.initial_node(Initial::Array {
            span,
            variable,
            length: Box::into_inner(length),
            element: Box::into_inner(element),
        })
    }

    /// Parses `{for variable < length : element}`.
    #[cycle(expression)]
    fn parse_array(&mut self, room: u32) -> Result<Box<Initial>, Stop>
        ensures { Gives view_boxed_initial result (array room (nested room) self.old) self.new }
    {
        self.take_sign(Sign::LeftBrace)?;
        let span = self.take_word_inside(room, Keyword::For)?;
        let variable = self.take_identifier_inside(room)?;
        self.take_sign_inside(room, Sign::Less)?;
        let length = self.parse_binary(room)?;
        self.take_sign_inside(room, Sign::Colon)?;
        let element = self.parse_expression(room)?;
        self.end_array(room, span, variable, length, element)
    }

    #[cycle(expression)]
    #[tactic(auto, unfolding(crate::specs::inside::Expressions::initial, crate::specs::inside::Parsing::choose, crate::specs::inside::Parsing::bind))]
    fn parse_initial_here(&mut self, room: u32) -> Result<Box<Initial>, Stop>
        ensures { Gives view_boxed_initial result (initial room (nested room) self.old) self.new }
    {
        match self.next() {
            Some(Terminal::Identifier(name)) => {
                let span = self.take_next();
                self.parse_initial_from_name(room, Ident { name, span })
            }
            Some(Terminal::Mark(Sign::LeftBrace)) => self.parse_array(room),
            _ => {
                let value = self.parse_unary_here(room)?;
                self.plain(value)
            }
        }
    }
}

fn struct_fields(name: Ident, regions: Vec<Ident>, values: Vec<Expr>) -> Initial
    ensures { view_initial result ≡ Fields (view_name name) (map view_name regions.items) (expressions_of values.items) }
{
    Initial::Fields {
        name,
        regions,
        values,
    }
}
