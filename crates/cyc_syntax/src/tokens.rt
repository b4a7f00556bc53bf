//! Tokens, with the source position of each in its text.

use cyc_words::Span;

/// A token. A token does not store its text: the bytes `start..end` of the source text spell it.
#[derive(Clone, Copy, Debug)]
pub struct Token {
    pub kind: TokenKind,
    pub span: Span,
    pub start: usize,
    pub end: usize,
}

/// The kind of a token. The bytes of the token spell an identifier or a region name. The bytes of a region name begin with a
/// backquote. A number and a character constant contain their value.
#[derive(Clone, Copy, Debug, PartialEq, Eq)]
pub enum TokenKind {
    Identifier,
    RegionName,
    Number(u32),
    Character(u8),
    Keyword(Keyword),
    Sign(Sign),
}

/// The reserved words.
#[derive(Clone, Copy, Debug, PartialEq, Eq)]
pub enum Keyword {
    Int,
    Char,
    Void,
    Struct,
    Datatype,
    Exn,
    Region,
    /// `region_t`
    RegionType,
    /// `uregion_key_t`
    KeyType,
    Open,
    Let,
    Alias,
    NewDynamicRegion,
    /// `new_ukey`
    NewKey,
    New,
    /// `rnew`
    RegionNew,
    For,
    If,
    Else,
    While,
    Break,
    Continue,
    Return,
    Throw,
    Try,
    Catch,
    Case,
    Default,
    Null,
    /// `numelts`
    NumberOfElements,
    /// `ufree`
    FreeUnique,
    /// `free_ukey`
    FreeKey,
    /// `unique_region`
    UniqueRegion,
    /// `heap_region`
    HeapRegion,
}

/// The tokens that are operators, brackets or separators.
#[derive(Clone, Copy, Debug, PartialEq, Eq)]
pub enum Sign {
    /// `:=:`
    Swap,
    /// `&&`
    AndAnd,
    /// `||`
    OrOr,
    /// `==`
    Equal,
    /// `!=`
    NotEqual,
    /// `<=`
    LessOrEqual,
    /// `>=`
    GreaterOrEqual,
    /// `<<`
    ShiftLeft,
    /// `>>`
    ShiftRight,
    /// `->`
    Arrow,
    Plus,
    Minus,
    Star,
    Slash,
    Percent,
    And,
    Or,
    Xor,
    Tilde,
    Not,
    Less,
    Greater,
    Assign,
    LeftParen,
    RightParen,
    LeftBracket,
    RightBracket,
    LeftBrace,
    RightBrace,
    Comma,
    Semicolon,
    Colon,
    At,
    Question,
}
