//! The cursor holds the symbols left to parse; this file contains it and the parsers of one symbol.
#![tactic(auto, unfolding(crate::specs::inside::Parsing::take))]

ghost use Rattle.std.specs.Prelude.{◌≡◌, ℕ, suc, true, length, map, option_map, is_some, IfSome, IfNone, Ok, if◌then◌else◌};
ghost use Rattle.cyc_parse.specs.declared.stop.Reason.TheVariants as reasons;
ghost use Rattle.cyc_parse.specs.declared.stop.Stop.TheVariants.{Refused};
ghost use Rattle.cyc_syntax.specs.inside.TreeView.{place_of_span, view_name};
ghost use Rattle.cyc_parse.specs.inside.Code.{Gives, view_terminal, view_symbol, accepted};
ghost use Rattle.cyc_parse.specs.Faults.{place_at};
ghost use Rattle.cyc_parse.specs.inside.Declarations.{number_value};
ghost use Rattle.cyc_parse.specs.inside.Steps.{following};
ghost use Rattle.cyc_parse.specs.inside.Parsing.{next, sees, opens_regions, opens_low_byte, advance, take, sign, word, identifier, region_name};

use crate::stop::{Reason, Stop};
use crate::symbol::{Symbol, Terminal};
use cyc_syntax::{Ident, Keyword, Sign};
use cyc_words::Span;
use std::alloc::Global;
use std::marker::Model;

/// A recursive-descent parser. Contracts see a `Parser` as the list of the symbols left.
#[derive(Drop)]
pub(crate) struct Parser<'a> {
    alloc: Global,
    left: &'a [Symbol],
}

impl<'a> Model for Parser<'a> {
    ghost use Rattle.std.specs.Prelude.{List, map};
    ghost use Rattle.cyc_syntax.specs.Symbols.{Symbol};
    ghost use Rattle.cyc_parse.specs.inside.Code.{view_symbol};

    ghost Value = { List Symbol };

    ghost view = { λ p. map view_symbol p.left.now };
}

impl<'a> Parser<'a> {
    pub(crate) fn new(alloc: Global, symbols: &'a [Symbol]) -> Parser<'a>
        ensures { result ≡ map view_symbol symbols.now }
    {
        Parser {
            alloc,
            left: symbols,
        }
    }

    /// Returns the source position of the next symbol, or the end of the text if no symbol is left.
    pub(crate) fn place(&self, end: Span) -> Span
        ensures { place_of_span result ≡ place_at (place_of_span end) self.now }
    {
        match self.left {
            [first, ..] => first.span,
            [] => end,
        }
    }

    pub(crate) fn next(&self) -> Option<Terminal>
        ensures { option_map view_terminal result ≡ next self.now }
    {
        match self.left {
            [first, ..] => Some(first.terminal),
            [] => None,
        }
    }

    /// Returns the symbol after the next one.
    pub(crate) fn second(&self) -> Option<Terminal>
        ensures { option_map view_terminal result ≡ next (following self.now) }
    {
        match self.left {
            [_, second, ..] => Some(second.terminal),
            _ => None,
        }
    }

    pub(crate) fn sees(&self, sign: Sign) -> bool
        ensures { result ≡ sees sign self.now }
    {
        match self.next() {
            Some(Terminal::Mark(other)) => other == sign,
            _ => false,
        }
    }

    /// Returns true if region arguments begin at the next symbol, with `<` and a region.
    pub(crate) fn opens_regions(&self) -> bool
        ensures { result ≡ opens_regions self.now }
    {
        match self.left {
            [first, second, ..] => {
                matches!(first.terminal, Terminal::Mark(Sign::Less))
                    && matches!(second.terminal, Terminal::RegionName(_))
            }
            _ => false,
        }
    }

    /// Returns true if `char` and a parenthesis come next, which begin a conversion to a low byte. In a declaration, `char` is followed by
    /// a pointer mark or a name.
    pub(crate) fn opens_low_byte(&self) -> bool
        ensures { result ≡ opens_low_byte self.now }
    {
        match self.left {
            [first, second, ..] => {
                matches!(first.terminal, Terminal::Word(Keyword::Char))
                    && matches!(second.terminal, Terminal::Mark(Sign::LeftParen))
            }
            _ => false,
        }
    }

    pub(crate) fn advance(&mut self) -> Result<Span, Stop>
        ensures { Gives place_of_span result (advance self.old) self.new }
    {
        match self.left {
            [first, rest @ ..] => {
                self.left = rest;
                Ok(first.span)
            }
            [] => Err(Stop::Refused(Reason::Unexpected)),
        }
    }

    /// Reads the next symbol, of any kind; at least one symbol must be left.
    pub(crate) fn take_next(&mut self) -> Span
        requires { is_some (next self.old) ≡ true }
        ensures { advance self.old ≡ Ok (place_of_span result, self.new) }
    {
        match self.left {
            [first, rest @ ..] => {
                self.left = rest;
                first.span
            }
            [] => unreachable!(),
        }
    }

    /// Reads the next symbol, of any kind, unless it is nested too deep.
    fn accept(&mut self, room: u32) -> Result<Span, Stop>
        ensures { Gives place_of_span result (accepted room self.old) self.new }
    {
        if room == 0 && !self.left.is_empty() {
            return Err(Stop::Refused(Reason::TooDeep));
        }
        self.advance()
    }

    // ---- a symbol at the present level of nesting, which is never too deep

    pub(crate) fn take_sign(&mut self, wanted: Sign) -> Result<Span, Stop>
        ensures { (room : ℕ) → Gives place_of_span result (sign (suc room) wanted self.old) self.new }
    {
        if !self.sees(wanted) {
            return Err(Stop::Refused(Reason::Unexpected));
        }
        self.advance()
    }

    /// Reads the given sign (punctuation token), if it comes next.
    pub(crate) fn take_if(&mut self, wanted: Sign) -> Option<Span>
        ensures seen { sees wanted self.old ≡ is_some result }
        ensures taken { IfSome result (λ span. (room : ℕ) → sign (suc room) wanted self.old ≡ Ok (place_of_span span, self.new)) }
        ensures left { IfNone result (self.new ≡ self.old) }
    {
        if !self.sees(wanted) {
            return None;
        }
        Some(self.take_next())
    }

    pub(crate) fn take_word(&mut self, wanted: Keyword) -> Result<Span, Stop>
        ensures { (room : ℕ) → Gives place_of_span result (word (suc room) wanted self.old) self.new }
    {
        match self.next() {
            Some(Terminal::Word(word)) if word == wanted => self.advance(),
            _ => Err(Stop::Refused(Reason::Unexpected)),
        }
    }

    pub(crate) fn take_identifier(&mut self) -> Result<Ident, Stop>
        ensures { (room : ℕ) → Gives view_name result (identifier (suc room) self.old) self.new }
    {
        let Some(Terminal::Identifier(name)) = self.next() else {
            return Err(Stop::Refused(Reason::Unexpected));
        };
        let span = self.take_next();
        Ok(Ident { name, span })
    }

    pub(crate) fn take_region_name(&mut self) -> Result<Ident, Stop>
        ensures { (room : ℕ) → Gives view_name result (region_name (suc room) self.old) self.new }
    {
        let Some(Terminal::RegionName(name)) = self.next() else {
            return Err(Stop::Refused(Reason::Unexpected));
        };
        let span = self.take_next();
        Ok(Ident { name, span })
    }

    pub(crate) fn take_number(&mut self) -> Result<u32, Stop>
        ensures { (room : ℕ) → Gives (λ n. n) result (take (suc room) number_value (λ n p. n) self.old) self.new }
    {
        let Some(Terminal::Number(value)) = self.next() else {
            return Err(Stop::Refused(Reason::Unexpected));
        };
        self.take_next();
        Ok(value)
    }

    // ---- a symbol at an inner level: `room` counts the levels of nesting that are left at the symbol

    pub(crate) fn take_sign_inside(&mut self, room: u32, wanted: Sign) -> Result<Span, Stop>
        ensures { Gives place_of_span result (sign room wanted self.old) self.new }
    {
        if !self.sees(wanted) {
            return Err(Stop::Refused(Reason::Unexpected));
        }
        self.accept(room)
    }

    pub(crate) fn take_word_inside(&mut self, room: u32, wanted: Keyword) -> Result<Span, Stop>
        ensures { Gives place_of_span result (word room wanted self.old) self.new }
    {
        match self.next() {
            Some(Terminal::Word(word)) if word == wanted => self.accept(room),
            _ => Err(Stop::Refused(Reason::Unexpected)),
        }
    }

    pub(crate) fn take_identifier_inside(&mut self, room: u32) -> Result<Ident, Stop>
        ensures { Gives view_name result (identifier room self.old) self.new }
    {
        let Some(Terminal::Identifier(name)) = self.next() else {
            return Err(Stop::Refused(Reason::Unexpected));
        };
        let span = self.accept(room)?;
        Ok(Ident { name, span })
    }

    pub(crate) fn take_region_name_inside(&mut self, room: u32) -> Result<Ident, Stop>
        ensures { Gives view_name result (region_name room self.old) self.new }
    {
        let Some(Terminal::RegionName(name)) = self.next() else {
            return Err(Stop::Refused(Reason::Unexpected));
        };
        let span = self.accept(room)?;
        Ok(Ident { name, span })
    }

    pub(crate) fn alloc(&self) -> Global {
        self.alloc
    }

    /// Returns the number of symbols left to parse.
    pub(crate) fn len(&self) -> usize
        ensures { result ≡ length self.now }
    {
        self.left.len()
    }
}

/// Returns the rejection for the given reason if a list element begins at the next symbol; otherwise the symbol is rejected as unexpected.
pub(crate) fn refusal(begins: bool, why: Reason) -> Stop
    ensures { result ≡ Refused (if begins then why else reasons.Unexpected) }
{
    Stop::Refused(if begins { why } else { Reason::Unexpected })
}
