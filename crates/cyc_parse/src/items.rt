//! The parser of blocks, and of the declarations and statements in them.
#![tactic(auto, unfolding(crate::specs::inside::Parsing::bind, crate::specs::inside::Parsing::choose, crate::specs::inside::Parsing::if_sees, crate::specs::inside::Parsing::if_starts, crate::specs::inside::Parsing::refuse_item, crate::specs::inside::Expressions::nested, crate::specs::inside::Statements::nested_statements), using(crate::proofs::StatementLevels::nested_statement, crate::proofs::StatementLevels::nested_items))]

ghost use Rattle.std.specs.Prelude.{◌≡◌, option_map};
ghost use Rattle.cyc_syntax.specs.inside.TreeView.{place_of_span, view_name, view_item, view_block, items_of};
ghost use Rattle.cyc_parse.specs.inside.Boxes.{view_boxed};
ghost use Rattle.cyc_parse.specs.inside.Code.{Gives};
ghost use Rattle.cyc_parse.specs.inside.Parsing.{next, starts};
ghost use Rattle.cyc_parse.specs.inside.Types.{region_of};
ghost use Rattle.cyc_parse.specs.inside.Statements.{begins_item, nested_statements, body, local_value, local, opened_key, region, alias, new_key};
ghost use Rattle.cyc_parse.specs.inside.Statements.{dynamic_region, item, items};
ghost use Rattle.cyc_parse.specs.inside.StatementSteps.{end_of_block, let_item};

use crate::cursor::Parser;
use crate::growth::append;
use crate::statements::{inside, unboxed};
use crate::stop::{Reason, Stop};
use crate::symbol::Terminal;
use cyc_syntax::{Block, Expr, Ident, Item, Keyword, Sign};
use cyc_words::Span;

impl<'a> Parser<'a> {
    fn begins_item(&self) -> bool
        ensures { result ≡ starts begins_item (next self.now) }
    {
        match self.next() {
            Some(
                Terminal::Word(
                    Keyword::Int
                    | Keyword::Char
                    | Keyword::Struct
                    | Keyword::RegionType
                    | Keyword::KeyType
                    | Keyword::Region
                    | Keyword::Let,
                ),
            ) => true,
            _ => self.begins_statement(),
        }
    }

    /// Parses the declarations and statements of a block.
    #[cycle(statement)]
    pub(crate) fn parse_items(&mut self, room: u32) -> Result<Vec<Item>, Stop>
        ensures { Gives (λ v. items_of v.items) result ((nested_statements room).items self.old) self.new }
    {
        if room > 0 {
            return self.parse_items_here(room - 1);
        }
        if self.begins_item() {
            return Err(Stop::Refused(Reason::TooDeep));
        }
        Ok(Vec::new(self.alloc()))
    }

    // ---- blocks

    /// Reads the closing brace after the declarations and statements of a block.
    fn end_block(&mut self, room: u32, span: Span, items: Vec<Item>) -> Result<Block, Stop>
        ensures { Gives view_block result (end_of_block room (nested_statements room) (place_of_span span) (items_of items.items) self.old) self.new }
    {
        let end = self.take_sign_inside(room, Sign::RightBrace)?;
        Ok(Block { span, items, end })
    }

    /// Parses a block: declarations and statements in braces.
    #[cycle(statement)]
    pub(crate) fn parse_block(&mut self, room: u32) -> Result<Block, Stop>
        ensures { Gives view_block result (body room (nested_statements room) self.old) self.new }
    {
        let span = self.take_sign(Sign::LeftBrace)?;
        let items = self.parse_items(room)?;
        self.end_block(room, span, items)
    }

    // ---- items

    fn parse_local_value(&mut self, room: u32) -> Result<Option<Box<Expr>>, Stop>
        ensures { Gives (option_map view_boxed) result (local_value room (nested_statements room) self.old) self.new }
    {
        let Some(_) = self.take_if(Sign::Assign) else {
            return Ok(None);
        };
        Ok(Some(self.parse_expression(room)?))
    }

    fn parse_local(&mut self, room: u32) -> Result<Item, Stop>
        ensures { Gives view_item result (local room (nested_statements room) self.old) self.new }
    {
        let of_type = self.parse_type()?;
        let name = self.take_identifier()?;
        let value = self.parse_local_value(room)?;
        self.take_sign(Sign::Semicolon)?;
        Ok(Item::Local {
            of_type,
            name,
            value: unboxed(value),
        })
    }

    /// Parses `= open(key)`.
    fn parse_opened_key(&mut self, room: u32) -> Result<Option<Ident>, Stop>
        ensures { Gives (option_map view_name) result (opened_key room (nested_statements room) self.old) self.new }
    {
        let Some(_) = self.take_if(Sign::Assign) else {
            return Ok(None);
        };
        self.take_word_inside(room, Keyword::Open)?;
        self.take_sign_inside(room, Sign::LeftParen)?;
        let key = self.take_identifier_inside(inside(room))?;
        self.take_sign_deeper(room, Sign::RightParen)?;
        Ok(Some(key))
    }

    fn parse_region(&mut self, room: u32) -> Result<Item, Stop>
        ensures { Gives view_item result (region room (nested_statements room) self.old) self.new }
    {
        self.take_word(Keyword::Region)?;
        let region = self.parse_region_of()?;
        let handle = self.take_identifier()?;
        let key = self.parse_opened_key(room)?;
        self.take_sign(Sign::Semicolon)?;
        Ok(Item::Region {
            region,
            handle,
            key,
        })
    }

    /// Parses an alias declaration, after `let`.
    fn parse_alias(&mut self, room: u32) -> Result<Item, Stop>
        ensures { Gives view_item result (alias room (nested_statements room) self.old) self.new }
    {
        self.take_word(Keyword::Alias)?;
        let region = self.parse_region_of()?;
        let of_type = self.parse_type()?;
        let name = self.take_identifier()?;
        self.take_sign(Sign::Assign)?;
        let source = self.take_identifier_inside(room)?;
        self.take_sign(Sign::Semicolon)?;
        Ok(Item::Alias {
            region,
            of_type,
            name,
            source,
        })
    }

    /// Parses the region of a type, in angle brackets.
    fn parse_region_inside(&mut self, room: u32) -> Result<Ident, Stop>
        ensures { Gives view_name result (region_of room self.old) self.new }
    {
        self.take_sign_inside(room, Sign::Less)?;
        let region = self.take_region_name_inside(room)?;
        self.take_sign_inside(room, Sign::Greater)?;
        Ok(region)
    }

    /// Parses `= new_ukey();`.
    fn parse_new_key(&mut self, room: u32) -> Result<(), Stop>
        ensures { Gives (λ _. tt) result (new_key room (nested_statements room) self.old) self.new }
    {
        self.take_sign(Sign::Assign)?;
        self.take_word_inside(room, Keyword::NewKey)?;
        self.take_sign_inside(room, Sign::LeftParen)?;
        self.take_sign_deeper(room, Sign::RightParen)?;
        self.take_sign(Sign::Semicolon)?;
        Ok(())
    }

    /// Parses the declaration of a dynamic region and its key, after `let`.
    fn parse_dynamic_region(&mut self, room: u32) -> Result<Item, Stop>
        ensures { Gives view_item result (dynamic_region room (nested_statements room) self.old) self.new }
    {
        self.take_word(Keyword::NewDynamicRegion)?;
        self.take_sign(Sign::LeftBrace)?;
        let region = self.parse_region_inside(room)?;
        let key = self.take_identifier_inside(room)?;
        self.take_sign_inside(room, Sign::RightBrace)?;
        self.parse_new_key(room)?;
        Ok(Item::DynamicRegion { region, key })
    }

    /// Parses a block item after `let`: an alias declaration or the declaration of a dynamic region.
    fn parse_let_item(&mut self, room: u32) -> Result<Item, Stop>
        ensures { Gives view_item result (let_item room (nested_statements room) self.old) self.new }
    {
        match self.next() {
            Some(Terminal::Word(Keyword::Alias)) => self.parse_alias(room),
            Some(Terminal::Word(Keyword::NewDynamicRegion)) => self.parse_dynamic_region(room),
            _ => Err(Stop::Refused(Reason::Unexpected)),
        }
    }

    #[cycle(statement)]
    #[tactic(auto, unfolding(crate::specs::inside::Statements::item, crate::specs::inside::Parsing::choose, crate::specs::inside::Parsing::bind))]
    fn parse_item(&mut self, room: u32) -> Result<Item, Stop>
        ensures { Gives view_item result (item room (nested_statements room) self.old) self.new }
    {
        match self.next() {
            Some(
                Terminal::Word(
                    Keyword::Int | Keyword::Struct | Keyword::RegionType | Keyword::KeyType,
                ),
            ) => self.parse_local(room),
            Some(Terminal::Word(Keyword::Char)) if !self.opens_low_byte() => self.parse_local(room),
            Some(Terminal::Word(Keyword::Region)) => self.parse_region(room),
            Some(Terminal::Word(Keyword::Let)) => {
                self.take_next();
                self.parse_let_item(room)
            }
            _ => {
                let statement = self.parse_statement_here(room)?;
                Ok(Item::Statement { statement })
            }
        }
    }

    #[cycle(statement)]
    fn parse_items_here(&mut self, room: u32) -> Result<Vec<Item>, Stop>
        ensures { Gives (λ v. items_of v.items) result (items room (nested_statements room) self.old) self.new }
    {
        let mut items = Vec::new(self.alloc());
        let most = self.len();
        for _ in 0..most {
            if !self.begins_item() {
                return Ok(items);
            }
            let item = self.parse_item(room)?;
            append(&mut items, item)?;
        }
        Ok(items)
    }
}
