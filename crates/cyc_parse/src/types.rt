//! The parser of types.
ghost use Rattle.std.specs.Prelude.{◌≡◌, ℕ, suc, map, option_map, []};
ghost use Rattle.cyc_syntax.specs.inside.TreeView.{place_of_span, view_name, view_pointer, view_base, view_type};
ghost use Rattle.cyc_parse.specs.inside.Code.{Gives};
ghost use Rattle.cyc_parse.specs.inside.Parsing.{next, starts, begins_region, regions, region_list};
ghost use Rattle.cyc_parse.specs.inside.Steps.{one_pointer};
ghost use Rattle.cyc_parse.specs.inside.Types.{begins_type, mark_at, optional_region, region_of, no_more_pointers, pointers_of, with_pointers};
ghost use Rattle.cyc_parse.specs.inside.Types.{optional_regions, written_type};

use crate::cursor::{Parser, refusal};
use crate::growth::append;
use crate::stop::{Reason, Stop};
use crate::symbol::Terminal;
use cyc_syntax::{BaseType, Ident, Keyword, Pointer, PointerKind, Sign, WrittenType};
use cyc_words::Span;

/// The maximal number of elements of a list, such as the arguments of a call.
pub(crate) const MAX_ITEMS: u32 = 64;

impl<'a> Parser<'a> {
    pub(crate) fn begins_region(&self) -> bool
        ensures { result ≡ starts begins_region (next self.now) }
    {
        matches!(self.next(), Some(Terminal::RegionName(_)))
    }

    pub(crate) fn begins_type(&self) -> bool
        ensures { result ≡ starts begins_type (next self.now) }
    {
        matches!(
            self.next(),
            Some(Terminal::Word(
                Keyword::Int
                    | Keyword::Char
                    | Keyword::Struct
                    | Keyword::RegionType
                    | Keyword::KeyType
            ))
        )
    }

    /// Parses region names separated by commas.
    pub(crate) fn parse_regions(&mut self) -> Result<Vec<Ident>, Stop>
        ensures { (room : ℕ) → Gives (λ v. map view_name v.items) result (regions (suc room) self.old) self.new }
    {
        let mut regions = Vec::new(self.alloc());
        for _ in 0..MAX_ITEMS {
            let region = self.take_region_name()?;
            append(&mut regions, region)?;
            let Some(_) = self.take_if(Sign::Comma) else {
                return Ok(regions);
            };
        }
        Err(refusal(self.begins_region(), Reason::TooLong))
    }

    /// Parses region arguments in angle brackets.
    pub(crate) fn parse_region_list(&mut self) -> Result<Vec<Ident>, Stop>
        ensures { (room : ℕ) → Gives (λ v. map view_name v.items) result (region_list (suc room) self.old) self.new }
    {
        self.take_sign(Sign::Less)?;
        let regions = self.parse_regions()?;
        self.take_sign(Sign::Greater)?;
        Ok(regions)
    }

    #[tactic(auto, unfolding(crate::specs::inside::Types::optional_regions, crate::specs::inside::Parsing::if_sees))]
    pub(crate) fn parse_optional_regions(&mut self) -> Result<Vec<Ident>, Stop>
        ensures { (room : ℕ) → Gives (λ v. map view_name v.items) result (optional_regions (suc room) self.old) self.new }
    {
        if self.sees(Sign::Less) {
            self.parse_region_list()
        } else {
            Ok(Vec::new(self.alloc()))
        }
    }

    /// Parses the region of a handle's or a key's type, in angle brackets.
    pub(crate) fn parse_region_of(&mut self) -> Result<Ident, Stop>
        ensures { (room : ℕ) → Gives view_name result (region_of (suc room) self.old) self.new }
    {
        self.take_sign(Sign::Less)?;
        let region = self.take_region_name()?;
        self.take_sign(Sign::Greater)?;
        Ok(region)
    }

    fn parse_optional_region(&mut self) -> Result<Option<Ident>, Stop>
        ensures { (room : ℕ) → Gives (option_map view_name) result (optional_region (suc room) self.old) self.new }
    {
        if !self.begins_region() {
            return Ok(None);
        }
        Ok(Some(self.take_region_name()?))
    }

    /// Returns the kind of pointer that the next symbol denotes, if it is a pointer mark such as `*`.
    fn mark(&self) -> Option<PointerKind>
        ensures { result ≡ mark_at (next self.now) }
    {
        match self.next() {
            Some(Terminal::Mark(Sign::Star)) => Some(PointerKind::Nullable),
            Some(Terminal::Mark(Sign::At)) => Some(PointerKind::NonNull),
            Some(Terminal::Mark(Sign::Question)) => Some(PointerKind::Fat),
            _ => None,
        }
    }

    fn parse_pointer(&mut self) -> Result<Option<Pointer>, Stop>
        ensures { (room : ℕ) → Gives (option_map view_pointer) result (one_pointer (suc room) self.old) self.new }
    {
        let Some(kind) = self.mark() else {
            return Ok(None);
        };
        self.advance()?;
        let region = self.parse_optional_region()?;
        Ok(Some(Pointer { kind, region }))
    }

    fn end_pointers(&mut self) -> Result<(), Stop>
        ensures { Gives (λ _. []) result (no_more_pointers self.old) self.new }
    {
        match self.mark() {
            Some(_) => Err(Stop::Refused(Reason::TooLong)),
            None => Ok(()),
        }
    }

    /// Parses the pointer marks of a type, such as `*` and `?`.
    fn parse_pointers(&mut self) -> Result<Vec<Pointer>, Stop>
        ensures { (room : ℕ) → Gives (λ v. map view_pointer v.items) result (pointers_of (suc room) 64 self.old) self.new }
    {
        let mut pointers = Vec::new(self.alloc());
        for _ in 0..MAX_ITEMS {
            let Some(pointer) = self.parse_pointer()? else {
                return Ok(pointers);
            };
            append(&mut pointers, pointer)?;
        }
        self.end_pointers()?;
        Ok(pointers)
    }

    pub(crate) fn parse_rest_of_type(
        &mut self,
        span: Span,
        base: BaseType,
    ) -> Result<WrittenType, Stop>
        ensures { (room : ℕ) → Gives view_type result (with_pointers (suc room) (place_of_span span) (view_base base) self.old) self.new }
    {
        let marks = self.parse_pointers()?;
        Ok(WrittenType { span, base, marks })
    }

    #[tactic(auto, unfolding(crate::specs::inside::Types::written_type, crate::specs::inside::Parsing::choose, crate::specs::inside::Parsing::bind))]
    pub(crate) fn parse_type(&mut self) -> Result<WrittenType, Stop>
        ensures { (room : ℕ) → Gives view_type result (written_type (suc room) self.old) self.new }
    {
        match self.next() {
            Some(Terminal::Word(Keyword::Int)) => {
                let span = self.take_next();
                self.parse_rest_of_type(span, BaseType::Int)
            }
            Some(Terminal::Word(Keyword::Char)) => {
                let span = self.take_next();
                self.parse_rest_of_type(span, BaseType::Char)
            }
            Some(Terminal::Word(Keyword::Struct)) => {
                let span = self.take_next();
                let name = self.take_identifier()?;
                let regions = self.parse_optional_regions()?;
                self.parse_rest_of_type(span, BaseType::Struct { name, regions })
            }
            Some(Terminal::Word(Keyword::RegionType)) => {
                let span = self.take_next();
                let region = self.parse_region_of()?;
                self.parse_rest_of_type(span, BaseType::Handle { region })
            }
            Some(Terminal::Word(Keyword::KeyType)) => {
                let span = self.take_next();
                let region = self.parse_region_of()?;
                self.parse_rest_of_type(span, BaseType::Key { region })
            }
            _ => Err(Stop::Refused(Reason::Unexpected)),
        }
    }
}
