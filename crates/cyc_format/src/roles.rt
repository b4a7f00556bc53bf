//! The role of a token, such as operator, pointer sign or opening bracket, which determines the gap before the next token.
use cyc_syntax::{Keyword, Sign, Token, TokenKind};

/// The role (such as operator, pointer sign or opening bracket) of the last token in its statement or construct.
#[derive(Clone, Copy, Debug, PartialEq, Eq)]
pub(crate) enum Role {
    /// The token opened a bracket, or braces around values.
    Open,
    /// The token opened the body of a block or struct.
    OpenBody,
    /// A prefix operator.
    Prefix,
    /// The token is the sign of a pointer type.
    Mark,
    /// The token is an operator between two operands.
    Binary,
    Comma,
    /// The token is the semicolon before a function's effect (its list of regions).
    Effect,
    /// The token is the colon after a label or a `case`.
    Label,
    /// The token is a colon that follows neither a label nor a `case`.
    Colon,
    Arrow,
    /// The token opened a list of regions.
    OpenRegions,
    CloseRegions,
    /// The token ended a statement or a declaration.
    End,
    Name,
    Other,
}

pub(crate) fn is_sign(kind: Option<TokenKind>, sign: Sign) -> bool {
    kind == Some(TokenKind::Sign(sign))
}

pub(crate) fn is_word(kind: Option<TokenKind>, word: Keyword) -> bool {
    kind == Some(TokenKind::Keyword(word))
}

pub(crate) fn is_name(kind: Option<TokenKind>) -> bool {
    kind == Some(TokenKind::Identifier)
}

pub(crate) fn is_region(kind: Option<TokenKind>) -> bool {
    kind == Some(TokenKind::RegionName)
}

/// Returns true if the token closes a parenthesis, a bracket or braces.
pub(crate) fn is_closing(kind: Option<TokenKind>) -> bool {
    matches!(
        kind,
        Some(TokenKind::Sign(Sign::RightParen | Sign::RightBracket | Sign::RightBrace))
    )
}

/// Returns true if the token opens a parenthesis, a bracket or braces.
pub(crate) fn is_opening(kind: Option<TokenKind>) -> bool {
    matches!(
        kind,
        Some(TokenKind::Sign(Sign::LeftParen | Sign::LeftBracket | Sign::LeftBrace))
    )
}

/// Returns true if the token begins a catch clause: `case` or `default`.
pub(crate) fn is_case(kind: Option<TokenKind>) -> bool {
    is_word(kind, Keyword::Case) || is_word(kind, Keyword::Default)
}

/// Returns true if the token occurs only at the beginning of a statement, a declaration in a block or a catch clause.
pub(crate) fn is_starter(kind: Option<TokenKind>) -> bool {
    matches!(
        kind,
        Some(TokenKind::Keyword(
            Keyword::If
                | Keyword::While
                | Keyword::Return
                | Keyword::Else
                | Keyword::Break
                | Keyword::Continue
                | Keyword::Throw
                | Keyword::Try
                | Keyword::Let
                | Keyword::Region
                | Keyword::Case
                | Keyword::Default
                | Keyword::Catch
        ))
    )
}

/// Returns true if no space is written between the token and an opening bracket that follows it.
pub(crate) fn is_called(kind: Option<TokenKind>) -> bool {
    matches!(
        kind,
        Some(TokenKind::Keyword(
            Keyword::NumberOfElements
                | Keyword::FreeUnique
                | Keyword::FreeKey
                | Keyword::Open
                | Keyword::NewKey
                | Keyword::Char
                | Keyword::Int
                | Keyword::RegionNew
        ))
    )
}

/// Returns true if the token may stand between two operands.
pub(crate) fn is_operator(kind: Option<TokenKind>) -> bool {
    match kind {
        Some(TokenKind::Sign(sign)) => !matches!(
            sign,
            Sign::Arrow
                | Sign::Tilde
                | Sign::Not
                | Sign::LeftParen
                | Sign::RightParen
                | Sign::LeftBracket
                | Sign::RightBracket
                | Sign::LeftBrace
                | Sign::RightBrace
                | Sign::Comma
                | Sign::Semicolon
                | Sign::Colon
                | Sign::At
                | Sign::Question
        ),
        _ => false,
    }
}

/// Returns true if the token is an operand by itself.
pub(crate) fn is_operand(kind: TokenKind) -> bool {
    matches!(
        kind,
        TokenKind::Identifier
            | TokenKind::Number(_)
            | TokenKind::Character(_)
            | TokenKind::Keyword(Keyword::Null | Keyword::HeapRegion | Keyword::UniqueRegion)
    )
}

fn is_name_byte(byte: u8) -> bool {
    byte.is_ascii_alphanumeric() || byte == b'_'
}

/// Returns true if two adjacent bytes would be read as one token or as the beginning of a comment, or would look like one.
fn are_one(last: u8, first: u8) -> bool {
    is_name_byte(last) && is_name_byte(first)
        || matches!(
            [last, first],
            [b'&', b'&']
                | [b'|', b'|']
                | [b'=', b'=']
                | [b'!', b'=']
                | [b'<', b'=']
                | [b'>', b'=']
                | [b'<', b'<']
                | [b'>', b'>']
                | [b'-', b'>']
                | [b':', b'=']
                | [b'/', b'/']
                | [b'/', b'*']
                | [b'-', b'-']
                | [b'+', b'+']
        )
}

/// Returns true if two adjacent tokens must be separated by a space, whatever their roles (operator, pointer sign and so on) are.
pub(crate) fn are_apart(text: &[u8], token: Token, next: Token) -> bool {
    let bytes = text.get(token.start..token.end).unwrap_or(&[]);
    match (bytes.last(), text.get(next.start)) {
        (Some(last), Some(first)) => are_one(*last, *first),
        _ => false,
    }
}
