//! This file has the spellings of keywords and punctuation tokens.
ghost use Rattle.std.specs.Prelude.{◌≡◌, ◌≢◌, ◌≤◌, List, ℕ, ◌++◌, length, drop, IfNone, IfSome};
ghost use Rattle.cyc_syntax.specs.declared.tokens.Keyword.{Keyword};
ghost use Rattle.cyc_syntax.specs.declared.tokens.Sign.{Sign};
ghost use Rattle.cyc_syntax.specs.Spelling as spec;
ghost use Rattle.cyc_lex.specs.inside.Beginnings as beginnings;

use cyc_syntax::{Keyword, Sign};

fn keyword_text(keyword: Keyword) -> &'static [u8]
    ensures { result.now ≡ spec.keyword_text keyword }
{
    match keyword {
        Keyword::Int => b"int",
        Keyword::Char => b"char",
        Keyword::Void => b"void",
        Keyword::Struct => b"struct",
        Keyword::Datatype => b"datatype",
        Keyword::Exn => b"exn",
        Keyword::Region => b"region",
        Keyword::RegionType => b"region_t",
        Keyword::KeyType => b"uregion_key_t",
        Keyword::Open => b"open",
        Keyword::Let => b"let",
        Keyword::Alias => b"alias",
        Keyword::NewDynamicRegion => b"NewDynamicRegion",
        Keyword::NewKey => b"new_ukey",
        Keyword::New => b"new",
        Keyword::RegionNew => b"rnew",
        Keyword::For => b"for",
        Keyword::If => b"if",
        Keyword::Else => b"else",
        Keyword::While => b"while",
        Keyword::Break => b"break",
        Keyword::Continue => b"continue",
        Keyword::Return => b"return",
        Keyword::Throw => b"throw",
        Keyword::Try => b"try",
        Keyword::Catch => b"catch",
        Keyword::Case => b"case",
        Keyword::Default => b"default",
        Keyword::Null => b"NULL",
        Keyword::NumberOfElements => b"numelts",
        Keyword::FreeUnique => b"ufree",
        Keyword::FreeKey => b"free_ukey",
        Keyword::UniqueRegion => b"unique_region",
        Keyword::HeapRegion => b"heap_region",
    }
}

/// Returns the only keyword that may have this first byte, this middle byte and this length.
fn likely_keyword(first: u8, middle: u8, len: usize) -> Option<Keyword>
    ensures { result ≡ beginnings.likely_keyword first middle len }
{
    match first {
        _ if len < 2 => None,
        b'a' => Some(Keyword::Alias),
        b'b' => Some(Keyword::Break),
        b'c' => match (len, middle) {
            (4, b'a') => Some(Keyword::Char),
            (4, _) => Some(Keyword::Case),
            (5, _) => Some(Keyword::Catch),
            _ => Some(Keyword::Continue),
        },
        b'd' => match len {
            7 => Some(Keyword::Default),
            _ => Some(Keyword::Datatype),
        },
        b'e' => match len {
            3 => Some(Keyword::Exn),
            _ => Some(Keyword::Else),
        },
        b'f' => match len {
            3 => Some(Keyword::For),
            _ => Some(Keyword::FreeKey),
        },
        b'h' => Some(Keyword::HeapRegion),
        b'i' => match len {
            2 => Some(Keyword::If),
            _ => Some(Keyword::Int),
        },
        b'l' => Some(Keyword::Let),
        b'n' => match len {
            3 => Some(Keyword::New),
            7 => Some(Keyword::NumberOfElements),
            _ => Some(Keyword::NewKey),
        },
        b'o' => Some(Keyword::Open),
        b'r' => match (len, middle) {
            (4, _) => Some(Keyword::RegionNew),
            (6, b'i') => Some(Keyword::Region),
            (6, _) => Some(Keyword::Return),
            _ => Some(Keyword::RegionType),
        },
        b's' => Some(Keyword::Struct),
        b't' => match len {
            3 => Some(Keyword::Try),
            _ => Some(Keyword::Throw),
        },
        b'u' => match (len, middle) {
            (5, _) => Some(Keyword::FreeUnique),
            (_, b'n') => Some(Keyword::KeyType),
            _ => Some(Keyword::UniqueRegion),
        },
        b'v' => Some(Keyword::Void),
        b'w' => Some(Keyword::While),
        b'N' => match len {
            4 => Some(Keyword::Null),
            _ => Some(Keyword::NewDynamicRegion),
        },
        _ => None,
    }
}

/// Returns the keyword that the bytes spell, if any.
pub fn keyword(bytes: &[u8]) -> Option<Keyword>
    ensures none { IfNone result ((k : Keyword) → bytes.now ≢ spec.keyword_text k) }
    ensures spelled { IfSome result (λ k. bytes.now ≡ spec.keyword_text k) }
{
    if bytes.is_empty() {
        return None;
    }
    match likely_keyword(bytes[0], bytes[bytes.len() / 2], bytes.len()) {
        Some(keyword) if keyword_text(keyword) == bytes => Some(keyword),
        _ => None,
    }
}

/// Returns the longest punctuation token with which the text begins, and the token's length.
pub fn sign(text: &[u8]) -> Option<(Sign, usize)>
    ensures none { IfNone result ((s : Sign) (rest : List ℕ) → text.now ≢ spec.sign_text s ++ rest) }
    ensures len { IfSome result (λ found. found.1 ≡ length (spec.sign_text found.0)) }
    ensures begins { IfSome result (λ found. text.now ≡ spec.sign_text found.0 ++ drop found.1 text.now) }
    ensures longest { IfSome result (λ found. (other : Sign) (rest : List ℕ) → text.now ≡ spec.sign_text other ++ rest
        → length (spec.sign_text other) ≤ found.1) }
{
    match text {
        [b':', b'=', b':', ..] => Some((Sign::Swap, 3)),
        [b'&', b'&', ..] => Some((Sign::AndAnd, 2)),
        [b'|', b'|', ..] => Some((Sign::OrOr, 2)),
        [b'=', b'=', ..] => Some((Sign::Equal, 2)),
        [b'!', b'=', ..] => Some((Sign::NotEqual, 2)),
        [b'<', b'=', ..] => Some((Sign::LessOrEqual, 2)),
        [b'>', b'=', ..] => Some((Sign::GreaterOrEqual, 2)),
        [b'<', b'<', ..] => Some((Sign::ShiftLeft, 2)),
        [b'>', b'>', ..] => Some((Sign::ShiftRight, 2)),
        [b'-', b'>', ..] => Some((Sign::Arrow, 2)),
        [b'+', ..] => Some((Sign::Plus, 1)),
        [b'-', ..] => Some((Sign::Minus, 1)),
        [b'*', ..] => Some((Sign::Star, 1)),
        [b'/', ..] => Some((Sign::Slash, 1)),
        [b'%', ..] => Some((Sign::Percent, 1)),
        [b'&', ..] => Some((Sign::And, 1)),
        [b'|', ..] => Some((Sign::Or, 1)),
        [b'^', ..] => Some((Sign::Xor, 1)),
        [b'~', ..] => Some((Sign::Tilde, 1)),
        [b'!', ..] => Some((Sign::Not, 1)),
        [b'<', ..] => Some((Sign::Less, 1)),
        [b'>', ..] => Some((Sign::Greater, 1)),
        [b'=', ..] => Some((Sign::Assign, 1)),
        [b'(', ..] => Some((Sign::LeftParen, 1)),
        [b')', ..] => Some((Sign::RightParen, 1)),
        [b'[', ..] => Some((Sign::LeftBracket, 1)),
        [b']', ..] => Some((Sign::RightBracket, 1)),
        [b'{', ..] => Some((Sign::LeftBrace, 1)),
        [b'}', ..] => Some((Sign::RightBrace, 1)),
        [b',', ..] => Some((Sign::Comma, 1)),
        [b';', ..] => Some((Sign::Semicolon, 1)),
        [b':', ..] => Some((Sign::Colon, 1)),
        [b'@', ..] => Some((Sign::At, 1)),
        [b'?', ..] => Some((Sign::Question, 1)),
        _ => None,
    }
}
