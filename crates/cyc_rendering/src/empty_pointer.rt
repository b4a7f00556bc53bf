//! The advice on a pointer that is declared without a value and used before it receives one.
use cyc_lex::lex;
use cyc_syntax::{Keyword, Sign, Token, TokenKind};
use cyc_words::Fault;
use std::alloc::{AllocError, Global};
use std::mem::ManuallyDrop;

/// The type of the object to which a pointer points: int, char or a struct. The advice on pointers
/// that are declared without a value distinguishes only these types.
#[derive(Clone, Copy)]
enum Target<'t> {
    Int,
    Char,
    /// A struct type with this name.
    Struct(&'t Token),
}

/// The object that the advice suggests for a pointer that is declared without a value.
#[derive(Clone, Copy)]
struct Object<'t> {
    target: Target<'t>,
    is_array: bool,
    is_unique: bool,
    /// True if the pointer may be null: its type has a pointer sign that allows NULL.
    may_lack: bool,
}

fn spelled<'a>(text: &'a [u8], token: &Token) -> &'a [u8] {
    text.get(token.start..token.end).unwrap_or(&[])
}

/// Returns true if a token ends a statement or a declaration.
fn ends_statement(token: &Token) -> bool {
    matches!(
        token.kind,
        TokenKind::Sign(Sign::Semicolon | Sign::RightBrace)
    )
}

/// Returns true if a declaration may begin directly after a token.
fn ends_item(token: &Token) -> bool {
    ends_statement(token) || matches!(token.kind, TokenKind::Sign(Sign::LeftBrace | Sign::Colon))
}

/// Returns the tokens of a statement or a declaration up to the token with the index `last`.
fn item_up_to(tokens: &[Token], last: usize) -> &[Token] {
    let mut start = last;
    for _ in 0..last {
        let before = start.saturating_sub(1);
        match tokens.get(before) {
            Some(token) if !ends_item(token) => start = before,
            _ => break,
        }
    }
    tokens.get(start..=last).unwrap_or(&[])
}

/// Returns the type at the beginning of a list of tokens, as the type of the object that a pointer points to, and the tokens after
/// this type.
fn target_of<'t>(tokens: &'t [Token]) -> Option<(Target<'t>, &'t [Token])> {
    match tokens {
        [first, rest @ ..] if first.kind == TokenKind::Keyword(Keyword::Int) => {
            Some((Target::Int, rest))
        }
        [first, rest @ ..] if first.kind == TokenKind::Keyword(Keyword::Char) => {
            Some((Target::Char, rest))
        }
        [first, name, rest @ ..] if first.kind == TokenKind::Keyword(Keyword::Struct) => {
            Some((Target::Struct(name), rest))
        }
        _ => None,
    }
}

/// Returns true if a pointer sign with this region name declares a unique pointer. Returns `None` if the region is not the heap or the
/// unique region.
fn is_unique(text: &[u8], region: Option<&Token>) -> Option<bool> {
    match region {
        None => Some(false),
        Some(region) => match spelled(text, region) {
            b"`H" => Some(false),
            b"`U" => Some(true),
            _ => None,
        },
    }
}

/// Returns a description of the object to which a local should refer, if these tokens declare the local as a pointer with one pointer sign.
fn object_of<'t>(text: &[u8], tokens: &'t [Token]) -> Option<Object<'t>> {
    let (target, rest) = target_of(tokens)?;
    let (mark, region) = match rest {
        [mark, _] => (mark, None),
        [mark, region, _] => (mark, Some(region)),
        _ => return None,
    };
    let (is_array, may_lack) = match mark.kind {
        TokenKind::Sign(Sign::Star) => (false, true),
        TokenKind::Sign(Sign::At) => (false, false),
        TokenKind::Sign(Sign::Question) => (true, true),
        _ => return None,
    };
    let is_struct = matches!(target, Target::Struct(_));
    if is_array && is_struct {
        return None;
    }
    Some(Object {
        target,
        is_array,
        is_unique: is_unique(text, region)?,
        may_lack,
    })
}

/// A declaration of a variable without a value, with a flag that is true if the variable is used to compute its own first value.
#[derive(Clone, Copy)]
struct Declared<'t> {
    tokens: &'t [Token],
    is_built: bool,
}

/// Returns the declaration without a value of the variable that is used at the token with index `place`; if several precede it, the
/// last. Returns `None` if a statement in between assigns the variable.
fn declaration_before<'t>(text: &[u8], tokens: &'t [Token], place: usize) -> Option<Declared<'t>> {
    let name = match tokens.get(place) {
        Some(token) => spelled(text, token),
        None => return None,
    };
    let (mut at, mut is_before, mut is_built) = (place, false, false);
    for _ in 0..place {
        let following = tokens.get(at);
        at = at.saturating_sub(1);
        if let (Some(token), Some(following)) = (tokens.get(at), following) {
            is_before = is_before || ends_statement(token);
            if spelled(text, token) == name {
                match following.kind {
                    TokenKind::Sign(Sign::Assign) if is_before => return None,
                    TokenKind::Sign(Sign::Assign) => is_built = true,
                    TokenKind::Sign(Sign::Semicolon) => {
                        let tokens = item_up_to(tokens, at);
                        if target_of(tokens).is_some() {
                            return Some(Declared { tokens, is_built });
                        }
                    }
                    _ => {}
                }
            }
        }
    }
    None
}

/// Returns the source bytes from the first token to the last one, if they are on one line.
fn line_of<'a>(text: &'a [u8], tokens: &[Token]) -> Option<&'a [u8]> {
    match (tokens.first(), tokens.last()) {
        (Some(first), Some(last)) if first.span.line == last.span.line => {
            text.get(first.start..last.end)
        }
        _ => None,
    }
}

/// Returns the advice on a pointer that is declared without a value and used to compute its own first value, as when extending a list.
fn words_on_built(alloc: Global, declared: &[u8]) -> Result<Vec<u8>, AllocError> {
    let mut words = Vec::new(alloc);
    words.extend_from_slice(b"hint: give it a value where it is declared: ")?;
    words.extend_from_slice(declared)?;
    words.extend_from_slice(b" = NULL;")?;
    Ok(words)
}

/// Returns the advice on a pointer that is declared without a value, with the object that it should refer to.
fn words_on_object(
    alloc: Global,
    text: &[u8],
    declared: &[u8],
    object: Object<'_>,
) -> Result<Vec<u8>, AllocError> {
    let mut words = Vec::new(alloc);
    words.extend_from_slice(b"hint: give it an object where it is declared: ")?;
    words.extend_from_slice(declared)?;
    words.extend_from_slice(if object.is_unique {
        b" = rnew(unique_region) ".as_slice()
    } else {
        b" = new ".as_slice()
    })?;
    match (object.target, object.is_array) {
        (Target::Int, false) => words.extend_from_slice(b"0;")?,
        (Target::Char, false) => words.extend_from_slice(b"char(0);")?,
        (Target::Int, true) => words.extend_from_slice(b"{for i < 10 : 0};")?,
        (Target::Char, true) => words.extend_from_slice(b"{for i < 10 : char(0)};")?,
        (Target::Struct(name), _) => {
            words.extend_from_slice(spelled(text, name))?;
            words.extend_from_slice(b"{..};")?;
        }
    }
    Ok(words)
}

/// Returns the advice, as a hint line, on the pointer used at a fault, if it is declared without a value and not assigned before.
/// Returns `None` if memory runs out.
pub fn words_on_empty(alloc: Global, text: &[u8], fault: Fault) -> Option<Vec<u8>> {
    let tokens = ManuallyDrop::new(lex(alloc, text).ok()?);
    let place = tokens.iter().position(|token| (token.span.line, token.span.column)
        == (fault.line, fault.column))?;
    let declared = declaration_before(text, &tokens, place)?;
    let object = object_of(text, declared.tokens)?;
    let written = line_of(text, declared.tokens)?;
    if object.may_lack && declared.is_built {
        words_on_built(alloc, written).ok()
    } else {
        words_on_object(alloc, text, written, object).ok()
    }
}
