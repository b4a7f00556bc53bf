//! Decides where the formatter writes a space between two tokens of a line.
use crate::breaks::BreakKind;
use crate::frames::FrameKind;
use crate::layout::{At, Layout};
use crate::roles::{Role, are_apart, is_called, is_region, is_sign, is_word};
use cyc_syntax::{Keyword, Sign};

impl<'t> Layout<'t> {
    /// Returns the gap before the token with this index, which is within a statement.
    pub(crate) fn space_before(&self, number: usize) -> BreakKind {
        if self.touches(number) && !self.is_apart_from_last(number) {
            BreakKind::Nothing
        } else {
            BreakKind::Space
        }
    }

    /// Returns true if a token and the token before it must be separated by a space.
    fn is_apart_from_last(&self, number: usize) -> bool {
        let Some(last) = number.checked_sub(1) else {
            return false;
        };
        match (self.tokens.get(last), self.tokens.get(number)) {
            (Some(token), Some(next)) => are_apart(self.text, *token, *next),
            _ => false,
        }
    }

    /// Returns true if the formatter writes no space between the token with this index and the token before it.
    fn touches(&self, number: usize) -> bool {
        match self.role {
            Role::Open | Role::Prefix | Role::Mark | Role::Arrow | Role::OpenRegions => true,
            _ => self.is_joined(number),
        }
    }

    /// Returns true if the kind of a token says that no space precedes it.
    fn is_joined(&self, number: usize) -> bool {
        let kind = self.kind(number);
        let Some(cyc_syntax::TokenKind::Sign(sign)) = kind else {
            return false;
        };
        let last = self.kind_before(number, 1);
        match sign {
            Sign::Comma | Sign::Semicolon | Sign::Arrow => true,
            Sign::RightParen | Sign::RightBracket => true,
            Sign::RightBrace => self.frames.ends_with(FrameKind::Values),
            Sign::LeftBracket => self.is_operand,
            Sign::LeftParen => {
                self.is_operand || self.role == Role::CloseRegions || is_called(last)
            }
            Sign::LeftBrace => {
                self.brace(number) == FrameKind::Values
                    && (self.is_named() || is_word(last, Keyword::NewDynamicRegion))
            }
            Sign::Less => self.opens_regions(number) && !is_word(last, Keyword::Alias),
            Sign::Greater => self.frames.ends_with(FrameKind::Regions),
            Sign::Colon => !self.frames.is_within(),
            _ => false,
        }
    }

    /// Returns true if a `<` begins a list of regions.
    pub(crate) fn opens_regions(&self, number: usize) -> bool {
        is_sign(self.kind(number), Sign::Less) && is_region(self.kind(number.saturating_add(1)))
    }

    /// Returns true if the last token is a name, or ends the list of regions after a name.
    fn is_named(&self) -> bool {
        self.role == Role::Name || self.role == Role::CloseRegions
    }

    /// Returns the kind of the construct that an opening brace opens.
    pub(crate) fn brace(&self, number: usize) -> FrameKind {
        let last = self.kind_before(number, 1);
        if self.frames.is_within() {
            FrameKind::Values
        } else if self.at != At::Within {
            FrameKind::Block
        } else if is_word(last, Keyword::Catch) {
            FrameKind::Clauses
        } else if is_word(last, Keyword::Exn) {
            FrameKind::Exceptions
        } else if self.statement.is_struct && self.is_named() {
            FrameKind::Fields
        } else if self.is_named()
            || self.is_handle
            || is_word(last, Keyword::New)
            || is_word(last, Keyword::NewDynamicRegion)
        {
            FrameKind::Values
        } else {
            FrameKind::Block
        }
    }
}
