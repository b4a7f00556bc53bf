//! Decides where the lines of the formatted text end.
use crate::frames::{Frame, FrameKind};
use crate::layout::{At, Layout};
use crate::roles::{
    Role, is_case, is_closing, is_name, is_opening, is_operator, is_region, is_sign, is_starter,
    is_word,
};
use cyc_syntax::{Keyword, Sign, TokenKind};

/// The formatter puts no further call statement on a line that already has at least this many bytes.
const WIDE: usize = 80;

/// The kind of the gap between two tokens, apart from comments: nothing, a space or a line end.
#[derive(Clone, Copy, Debug, PartialEq, Eq)]
pub(crate) enum BreakKind {
    Nothing,
    Space,
    Line,
}

/// The gap that the formatter writes between two tokens.
#[derive(Clone, Copy)]
pub(crate) struct Break {
    pub(crate) kind: BreakKind,
    /// The indentation level of the code on the next line, even if a comment begins that line.
    pub(crate) level: usize,
    /// The indentation level of comments on lines of their own.
    pub(crate) comment_level: usize,
}

impl Break {
    fn new(kind: BreakKind, level: usize) -> Break {
        Break {
            kind,
            level,
            comment_level: level,
        }
    }

    /// Returns a gap that ends the line, with the indentation level of the next line.
    pub(crate) fn line(level: usize) -> Break {
        Break::new(BreakKind::Line, level)
    }

    fn space(level: usize) -> Break {
        Break::new(BreakKind::Space, level)
    }

    pub(crate) fn ends_line(&self) -> bool {
        self.kind == BreakKind::Line
    }
}

impl<'t> Layout<'t> {
    // ---- constructs that the next token closes

    /// Closes the open constructs, such as a list of regions, conditions or a catch clause, that the token with this index shows to be
    /// complete.
    pub(crate) fn resolve(&mut self, number: usize) {
        let kind = self.kind(number);
        if self.frames.ends_with(FrameKind::Regions)
            && !(is_region(kind) || is_sign(kind, Sign::Comma) || is_sign(kind, Sign::Greater))
        {
            self.frames.pop();
        }
        self.recover(number, kind);
        if self.at != At::Statement {
            return;
        }
        let kept = match kind {
            Some(TokenKind::Keyword(Keyword::Else)) => Some(FrameKind::If),
            Some(TokenKind::Keyword(Keyword::Catch)) => Some(FrameKind::Try),
            _ => None,
        };
        self.frames.close_heads(kept);
        if self.frames.ends_with(FrameKind::Clause)
            && (is_case(kind) || is_sign(kind, Sign::RightBrace))
        {
            self.frames.pop();
        }
    }

    /// Ends a statement whose end is missing in the text, so that the statements after it still begin on lines of their own.
    fn recover(&mut self, number: usize, kind: Option<TokenKind>) {
        if is_starter(kind) && self.frames.is_within() {
            self.frames.close_within();
            self.end_statement();
        }
        if self.at != At::Within {
            return;
        }
        if is_sign(kind, Sign::RightBrace) {
            self.frames.close_brackets();
            if !self.frames.ends_with(FrameKind::Values) {
                self.end_statement();
            }
        } else if !self.frames.is_within() && self.misses_end(number, kind) {
            self.end_statement();
        }
    }

    fn end_statement(&mut self) {
        self.at = At::Statement;
        self.role = Role::End;
    }

    /// Returns true if the text has a line end between two operands, which shows that a semicolon is missing.
    fn misses_end(&self, number: usize, kind: Option<TokenKind>) -> bool {
        let is_begun = matches!(
            kind,
            Some(TokenKind::Identifier | TokenKind::Number(_) | TokenKind::Keyword(_))
        );
        let is_type = is_word(self.kind_before(number, 2), Keyword::Struct);
        is_begun && self.gap.has_line_end && self.is_operand && !self.is_handle && !is_type
    }

    // ---- the gap before a token

    /// Returns the gap before the token with this index.
    pub(crate) fn break_before(&mut self, number: usize) -> Break {
        match self.at {
            At::Statement => self.break_before_statement(number),
            At::Nested => self.break_before_nested(number),
            At::Within => {
                let level = self.statement.level.saturating_add(2);
                if self.gap.has_line_end && self.may_end_line(number) {
                    Break::line(level)
                } else {
                    Break::new(self.space_before(number), level)
                }
            }
        }
    }

    /// Returns the gap between a condition and the statement that the condition controls.
    fn break_before_nested(&mut self, number: usize) -> Break {
        let kind = self.kind(number);
        let (level, is_else) = match self.frames.last() {
            Some(frame) => (frame.outside, frame.kind == FrameKind::Else),
            None => (0, false),
        };
        if is_sign(kind, Sign::LeftBrace) || is_else && is_word(kind, Keyword::If) {
            return Break::space(level);
        }
        let inside = level.saturating_add(1);
        if is_sign(kind, Sign::Semicolon) {
            return Break::new(BreakKind::Nothing, inside);
        }
        if self.gap.has_line_end {
            self.frames.break_last();
            return Break::line(inside);
        }
        Break::space(inside)
    }

    /// Returns the gap before a statement, or before the closing brace of a construct that contains statements, fields or catch clauses.
    fn break_before_statement(&mut self, number: usize) -> Break {
        let kind = self.kind(number);
        let Some(frame) = self.frames.last() else {
            return self.break_after_statement(number, 0);
        };
        match kind {
            Some(TokenKind::Sign(Sign::RightBrace)) => self.break_before_end(&frame),
            Some(TokenKind::Keyword(Keyword::Else)) if frame.kind == FrameKind::If => {
                self.break_before_else(number, &frame)
            }
            Some(TokenKind::Keyword(Keyword::Catch)) if frame.kind == FrameKind::Try => {
                if is_sign(self.kind_before(number, 1), Sign::RightBrace) {
                    Break::space(frame.outside)
                } else {
                    Break::line(frame.outside)
                }
            }
            _ if frame.is_one_line => Break::space(frame.inside()),
            _ => self.break_after_statement(number, frame.inside()),
        }
    }

    /// Returns the gap before the closing brace of a construct that contains statements, fields or catch clauses.
    fn break_before_end(&self, frame: &Frame) -> Break {
        let kind = if frame.is_one_line {
            BreakKind::Space
        } else if self.role == Role::OpenBody && self.gap.comments.is_empty() {
            BreakKind::Nothing
        } else {
            BreakKind::Line
        };
        Break {
            kind,
            level: frame.outside,
            comment_level: frame.inside(),
        }
    }

    /// Returns the gap before an `else`. An `else` stays on the line of its `if` if the author put it there, unless another `if` or a block
    /// follows.
    fn break_before_else(&self, number: usize, frame: &Frame) -> Break {
        let is_after_block = is_sign(self.kind_before(number, 1), Sign::RightBrace);
        let next = self.kind(number.saturating_add(1));
        let is_long = is_word(next, Keyword::If) || is_sign(next, Sign::LeftBrace);
        let is_apart = self.gap.has_line_end || frame.is_broken || is_long;
        if is_after_block || !is_apart {
            Break::space(frame.outside)
        } else {
            Break::line(frame.outside)
        }
    }

    /// Returns the gap between two statements. A call statement may stay on the line of the call statement before it.
    fn break_after_statement(&self, number: usize, level: usize) -> Break {
        if self.statement.is_call
            && !self.gap.has_line_end
            && self.gap.comments.is_empty()
            && self.sheet.column < WIDE
            && self.is_call(number)
        {
            Break::space(level)
        } else {
            Break::line(level)
        }
    }

    /// Returns true if the statement that begins with the token with this index is only a call.
    pub(crate) fn is_call(&self, number: usize) -> bool {
        let open = number.saturating_add(1);
        if !is_name(self.kind(number)) || !is_sign(self.kind(open), Sign::LeftParen) {
            return false;
        }
        let mut depth: usize = 0;
        for next in open..self.tokens.len() {
            let kind = self.kind(next);
            if is_sign(kind, Sign::Semicolon) || is_starter(kind) {
                return false;
            } else if is_opening(kind) {
                depth = depth.saturating_add(1);
            } else if is_closing(kind) {
                depth = depth.saturating_sub(1);
            }
            if depth == 0 {
                return is_sign(self.kind(next.saturating_add(1)), Sign::Semicolon);
            }
        }
        false
    }

    /// Returns true if a line may end within a statement before the token with this index: after a comma, beside an operator, or after an
    /// opening bracket.
    fn may_end_line(&self, number: usize) -> bool {
        let kind = self.kind(number);
        match self.role {
            _ if self.is_one_line => false,
            Role::Comma | Role::Binary | Role::Colon => true,
            Role::Open | Role::Effect => !is_closing(kind),
            _ if is_sign(kind, Sign::Colon) => self.frames.is_within(),
            _ => self.is_operand && is_operator(kind),
        }
    }

    // ---- comments

    /// Writes the comments in the gap before a token, and the spaces between them.
    pub(crate) fn put_gap(&mut self, found: &Break, next: Option<TokenKind>) {
        let text = self.text;
        let is_statement = self.at == At::Statement;
        let mut is_apart = self.is_apart;
        self.is_apart = false;
        let mut may_be_apart = !matches!(self.role, Role::OpenBody | Role::Label);
        let mut is_own_line = false;
        let mut is_line_comment = false;
        for n in 0..self.gap.comments.len() {
            let Some(comment) = self.gap.comments.get(n).copied() else {
                return;
            };
            is_own_line = comment.lines > 0 || self.sheet.is_empty();
            if is_own_line {
                let lines = comment.lines > 1 && may_be_apart;
                self.sheet.end_line(found.comment_level, is_apart || lines);
                is_apart = false;
            } else if n == 0 && (found.ends_line() || comment.is_line) {
                self.sheet.put_spaces(comment.blanks.max(1).min(60));
            } else {
                self.sheet.put(b" ");
            }
            self.sheet.put_comment(text, comment);
            is_line_comment = comment.is_line;
            may_be_apart = true;
        }
        let Some(next) = next else {
            return;
        };
        let kind = Some(next);
        let is_end = is_sign(kind, Sign::RightBrace)
            || is_word(kind, Keyword::Else)
            || is_word(kind, Keyword::Catch);
        let lines = self.gap.lines > 1 && is_statement && may_be_apart && !is_end;
        if self.ends_line(found, is_own_line, is_line_comment) {
            self.sheet.end_line(found.level, is_apart || lines);
        } else if found.kind != BreakKind::Nothing || !self.gap.comments.is_empty() {
            self.sheet.put(b" ");
        }
    }

    /// Returns true if a line ends just before the next token, after the last comment in the gap.
    fn ends_line(&self, found: &Break, is_own_line: bool, is_line_comment: bool) -> bool {
        if is_line_comment {
            return true;
        }
        if !is_own_line {
            return found.ends_line();
        }
        !found.ends_line() || self.gap.lines > 0
    }
}
