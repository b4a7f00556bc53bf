//! Lays out a text: before each token, the formatter decides between a line end, a space and nothing.
use crate::breaks::Break;
use crate::frames::Frames;
use crate::gap::Gap;
use crate::roles::Role;
use crate::sheet::Sheet;
use cyc_syntax::{Token, TokenKind};
use std::alloc::Global;

/// The position of the next token relative to statements.
#[derive(Clone, Copy, Debug, PartialEq, Eq)]
pub(crate) enum At {
    /// The next token begins a statement, a declaration, a field or a catch clause, or is at the end of braces
    /// around statements, fields or catch clauses.
    Statement,
    /// The next token is after a condition, before the statement that the condition controls.
    Nested,
    /// The next token is within a statement.
    Within,
}

/// The formatter's state of the current statement.
#[derive(Clone, Copy)]
pub(crate) struct Statement {
    /// The indentation level of the statement's first line.
    pub(crate) level: usize,
    /// True if the statement so far consists of `struct`, a name and regions.
    pub(crate) is_struct: bool,
    /// True if the statement began with `case` or `default`.
    pub(crate) is_case: bool,
    /// True if the statement consists of a single call.
    pub(crate) is_call: bool,
    /// True if the statement contains a body in braces with several lines, and continues after the closing brace.
    pub(crate) is_large: bool,
}

#[derive(Drop)]
pub(crate) struct Layout<'t> {
    pub(crate) text: &'t [u8],
    pub(crate) tokens: &'t [Token],
    pub(crate) sheet: Sheet,
    pub(crate) frames: Frames,
    pub(crate) gap: Gap,
    pub(crate) at: At,
    pub(crate) role: Role,
    pub(crate) statement: Statement,
    /// True if the last token of the statement so far is the last token of an operand, such as a name, a number or a closing parenthesis.
    pub(crate) is_operand: bool,
    /// True if the last token of the statement so far closes the region handle of an `rnew`.
    pub(crate) is_handle: bool,
    /// True if the statement is inside a pair of braces that is written on one line.
    pub(crate) is_one_line: bool,
    /// True if an empty line must precede the next statement.
    pub(crate) is_apart: bool,
}

impl<'t> Layout<'t> {
    fn new(alloc: Global, text: &'t [u8], tokens: &'t [Token]) -> Layout<'t> {
        Layout {
            text,
            tokens,
            sheet: Sheet::new(alloc),
            frames: Frames::new(alloc),
            gap: Gap::new(alloc),
            at: At::Statement,
            role: Role::End,
            statement: Statement {
                level: 0,
                is_struct: false,
                is_case: false,
                is_call: false,
                is_large: false,
            },
            is_operand: false,
            is_handle: false,
            is_one_line: false,
            is_apart: false,
        }
    }

    /// Returns the kind of the token with this index.
    pub(crate) fn kind(&self, number: usize) -> Option<TokenKind> {
        self.tokens.get(number).map(|token| token.kind)
    }

    /// Returns the kind of the token that is `distance` tokens before the one with this index.
    pub(crate) fn kind_before(&self, number: usize, distance: usize) -> Option<TokenKind> {
        self.kind(number.checked_sub(distance)?)
    }

    /// Reads the gap before the token with this index.
    fn read_gap(&mut self, number: usize) {
        let (text, tokens) = (self.text, self.tokens);
        let end = match tokens.get(number) {
            Some(token) => token.start,
            None => text.len(),
        };
        let mut start = 0;
        let mut column: usize = 0;
        if let Some(last) = number.checked_sub(1) {
            if let Some(token) = tokens.get(last) {
                start = token.end;
                let length = token.end.saturating_sub(token.start);
                column = (token.span.column as usize).saturating_sub(1);
                column = column.saturating_add(length);
            }
        }
        self.gap.read(text, start, end, column);
    }

    /// Writes the token with this index and the gap before it.
    fn lay(&mut self, number: usize, token: Token) {
        self.read_gap(number);
        self.resolve(number);
        let found = self.break_before(number);
        self.begin_at(&found);
        self.put_gap(&found, Some(token.kind));
        let text = self.text;
        self.sheet
            .put(text.get(token.start..token.end).unwrap_or(&[]));
        self.note(number, token);
    }

    /// Sets the indentation level of the statement that begins after a gap, if one does.
    fn begin_at(&mut self, found: &Break) {
        match self.at {
            At::Statement => self.statement.level = found.level,
            At::Nested if found.ends_line() => self.statement.level = found.level,
            At::Nested => {
                if let Some(frame) = self.frames.last() {
                    self.statement.level = frame.outside;
                }
            }
            At::Within => {}
        }
    }

    /// Writes the comments after the last token, and ends the last line.
    fn finish(mut self) -> Option<Vec<u8>> {
        let count = self.tokens.len();
        self.read_gap(count);
        self.is_apart = false;
        self.put_gap(&Break::line(0), None);
        if !self.sheet.is_empty() {
            self.sheet.end_line(0, false);
        }
        let Layout {
            sheet,
            frames,
            gap,
            ..
        } = self;
        if frames.is_whole && gap.is_whole {
            sheet.finish()
        } else {
            None
        }
    }
}

/// Returns the layout of a text with these tokens, or `None` if memory runs out.
pub(crate) fn lay_out(alloc: Global, text: &[u8], tokens: &[Token]) -> Option<Vec<u8>> {
    let mut layout = Layout::new(alloc, text, tokens);
    for (number, token) in tokens.iter().enumerate() {
        layout.lay(number, *token);
    }
    layout.finish()
}
