//! Records the effect of a token on the layout of the tokens after it.
use crate::frames::{Frame, FrameKind};
use crate::layout::{At, Layout};
use crate::roles::{Role, is_case, is_operand, is_region, is_sign, is_word};
use cyc_syntax::{Keyword, Sign, Token, TokenKind};

/// The formatter's state before a token.
#[derive(Clone, Copy)]
struct Before {
    number: usize,
    role: Role,
    is_operand: bool,
    /// The construct that the token opens, provided that the token is a brace.
    brace: FrameKind,
    last: Option<TokenKind>,
}

impl<'t> Layout<'t> {
    /// Records the effect of the token with this index on the layout of the tokens after it.
    pub(crate) fn note(&mut self, number: usize, token: Token) {
        let before = Before {
            number,
            role: self.role,
            is_operand: self.is_operand,
            brace: self.brace(number),
            last: self.kind_before(number, 1),
        };
        self.note_statement(number, Some(token.kind));
        self.at = At::Within;
        self.role = Role::Other;
        self.is_operand = is_operand(token.kind);
        self.is_handle = false;
        match token.kind {
            TokenKind::Identifier => self.role = Role::Name,
            TokenKind::Keyword(word) => self.note_word(word),
            TokenKind::Sign(sign) => self.note_sign(sign, &before, token),
            TokenKind::RegionName | TokenKind::Number(_) | TokenKind::Character(_) => {}
        }
    }

    /// Records the effect of a token on its statement, which may begin with this token.
    fn note_statement(&mut self, number: usize, kind: Option<TokenKind>) {
        if self.at != At::Within {
            if !is_sign(kind, Sign::RightBrace) {
                self.statement.is_struct = is_word(kind, Keyword::Struct);
                self.statement.is_case = is_case(kind);
                self.statement.is_call = self.is_call(number);
                self.statement.is_large = false;
            }
            return;
        }
        let is_head = matches!(
            kind,
            Some(
                TokenKind::Identifier
                    | TokenKind::RegionName
                    | TokenKind::Sign(
                        Sign::Less
                            | Sign::Greater
                            | Sign::Comma
                            | Sign::LeftBrace
                            | Sign::RightBrace
                    )
            )
        );
        self.statement.is_struct = self.statement.is_struct && is_head;
    }

    fn note_word(&mut self, word: Keyword) {
        match word {
            Keyword::Else => {
                self.close_head(FrameKind::If);
                self.open_head(FrameKind::Else);
            }
            Keyword::Try => self.open_head(FrameKind::Try),
            Keyword::Catch => self.close_head(FrameKind::Try),
            _ => {}
        }
    }

    /// Opens a condition that controls a statement.
    fn open_head(&mut self, kind: FrameKind) {
        self.frames.push(Frame::new(kind, self.statement.level));
        self.at = At::Nested;
        self.is_operand = false;
    }

    /// Closes the condition of an `if` or `while`. The statement that the condition controls is indented as the
    /// statement in which the condition was opened.
    fn close_head(&mut self, kind: FrameKind) {
        if self.frames.ends_with(kind) {
            if let Some(frame) = self.frames.pop() {
                self.statement.level = frame.outside;
            }
        }
    }

    fn note_sign(&mut self, sign: Sign, before: &Before, token: Token) {
        match sign {
            Sign::LeftParen => self.open_parenthesis(before.last),
            Sign::RightParen => self.close_parenthesis(),
            Sign::LeftBracket => self.open(FrameKind::Bracket, Role::Open),
            Sign::RightBracket => {
                self.frames.close_bracket();
                self.is_operand = true;
            }
            Sign::LeftBrace => self.open_brace(before, token),
            Sign::RightBrace => self.close_brace(),
            Sign::Semicolon => self.note_semicolon(before.number),
            Sign::Colon => self.note_colon(),
            Sign::Comma => self.role = Role::Comma,
            Sign::Arrow => self.role = Role::Arrow,
            Sign::Less if self.opens_regions(before.number) => {
                self.open(FrameKind::Regions, Role::OpenRegions);
            }
            Sign::Greater if self.frames.ends_with(FrameKind::Regions) => {
                self.frames.pop();
                self.role = Role::CloseRegions;
            }
            _ => self.role = self.role_of(sign, before),
        }
    }

    /// Returns the role of a token that is an operator or a pointer sign: the text around it decides between the two.
    fn role_of(&self, sign: Sign, before: &Before) -> Role {
        match sign {
            Sign::At | Sign::Question => Role::Mark,
            Sign::Star if self.is_after_type(before) => Role::Mark,
            Sign::Tilde | Sign::Not => Role::Prefix,
            Sign::Star | Sign::And | Sign::Minus | Sign::Plus if !before.is_operand => Role::Prefix,
            _ => Role::Binary,
        }
    }

    /// Returns true if the tokens before a token form a type.
    fn is_after_type(&self, before: &Before) -> bool {
        match before.role {
            Role::CloseRegions | Role::Mark => true,
            Role::Name => is_word(self.kind_before(before.number, 2), Keyword::Struct),
            _ => {
                is_region(before.last)
                    || is_word(before.last, Keyword::Int)
                    || is_word(before.last, Keyword::Char)
                    || is_word(before.last, Keyword::Void)
            }
        }
    }

    fn open(&mut self, kind: FrameKind, role: Role) {
        self.frames.push(Frame::new(kind, self.statement.level));
        self.role = role;
    }

    fn open_parenthesis(&mut self, last: Option<TokenKind>) {
        let kind = match last {
            Some(TokenKind::Keyword(Keyword::If)) => FrameKind::IfHead,
            Some(TokenKind::Keyword(Keyword::While)) => FrameKind::WhileHead,
            Some(TokenKind::Keyword(Keyword::RegionNew)) => FrameKind::Handle,
            _ => FrameKind::Parenthesis,
        };
        self.open(kind, Role::Open);
    }

    fn close_parenthesis(&mut self) {
        self.is_operand = true;
        match self.frames.close_parenthesis() {
            Some(frame) if frame.kind == FrameKind::IfHead => self.open_head(FrameKind::If),
            Some(frame) if frame.kind == FrameKind::WhileHead => self.open_head(FrameKind::While),
            Some(frame) => self.is_handle = frame.kind == FrameKind::Handle,
            None => {}
        }
    }

    fn open_brace(&mut self, before: &Before, token: Token) {
        let mut frame = Frame::new(before.brace, self.statement.level);
        if self.stands_on_one_line(before, token) {
            frame.is_one_line = true;
            self.is_one_line = true;
        }
        self.frames.push(frame);
        if before.brace == FrameKind::Values {
            self.role = Role::Open;
        } else {
            self.role = Role::OpenBody;
            self.at = At::Statement;
            self.statement.is_call = false;
        }
    }

    /// Returns true if the braces that this token opens are on one line: a list of exceptions, or one catch clause with one statement.
    fn stands_on_one_line(&self, before: &Before, token: Token) -> bool {
        if !matches!(before.brace, FrameKind::Exceptions | FrameKind::Clauses) {
            return false;
        }
        let (mut ends, mut cases) = (0_usize, 0_usize);
        for number in before.number.saturating_add(1)..self.tokens.len() {
            let Some(next) = self.tokens.get(number).copied() else {
                return false;
            };
            let kind = Some(next.kind);
            if next.span.line != token.span.line || is_sign(kind, Sign::LeftBrace) {
                return false;
            }
            if is_sign(kind, Sign::RightBrace) {
                return before.brace == FrameKind::Exceptions || ends < 2 && cases < 2;
            }
            ends = ends.saturating_add(usize::from(is_sign(kind, Sign::Semicolon)));
            cases = cases.saturating_add(usize::from(is_case(kind)));
        }
        false
    }

    fn close_brace(&mut self) {
        let Some(frame) = self.frames.close_braces() else {
            self.at = At::Statement;
            self.role = Role::End;
            self.statement.level = 0;
            return;
        };
        if frame.kind == FrameKind::Values {
            self.is_operand = true;
            return;
        }
        self.is_one_line = self.is_one_line && !frame.is_one_line;
        self.statement.level = frame.outside;
        self.statement.is_call = false;
        self.role = Role::End;
        if matches!(frame.kind, FrameKind::Fields | FrameKind::Exceptions) {
            self.statement.is_large = !frame.is_one_line;
        } else {
            self.at = At::Statement;
            self.is_apart = self.frames.is_empty();
        }
    }

    fn note_semicolon(&mut self, number: usize) {
        let next = self.kind(number.saturating_add(1));
        if self.frames.is_parenthesis() && is_sign(next, Sign::LeftBrace) {
            self.role = Role::Effect;
            return;
        }
        self.frames.close_within();
        self.at = At::Statement;
        self.role = Role::End;
        self.is_apart = self.statement.is_large && self.frames.is_empty();
        self.statement.is_large = false;
    }

    fn note_colon(&mut self) {
        if self.frames.is_within() {
            self.role = Role::Colon;
            return;
        }
        self.role = Role::Label;
        if self.statement.is_case {
            let mut frame = Frame::new(FrameKind::Clause, self.statement.level);
            frame.is_one_line = self.is_one_line;
            self.frames.push(frame);
            self.at = At::Statement;
            self.statement.is_case = false;
            self.statement.is_call = false;
        }
    }
}
