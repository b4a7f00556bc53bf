//! Finds where the declarations of a text begin, from the text's bytes, even if the text has no tokens or no syntax tree.
//!
//! A declaration begins with one of certain keywords, outside of all brackets and after a semicolon or a brace. A line that looks like
//! the signature of a struct or a function also begins a declaration, so that an unclosed bracket does not extend past its declaration.
use cyc_cli::is_in_name;
use std::alloc::{AllocError, Global};

/// The first and last byte offsets of a declaration in its text.
#[derive(Clone, Copy)]
pub struct Extent {
    pub start: usize,
    pub end: usize,
}

/// Returns the length of the text up to and including the first occurrence of two bytes in sequence, or the length of the whole text.
fn after_pair(text: &[u8], first: u8, second: u8) -> usize {
    let mut last = 0u8;
    for (n, byte) in text.iter().enumerate() {
        if last == first && *byte == second {
            return n.saturating_add(1);
        }
        last = *byte;
    }
    text.len()
}

/// Returns the beginning of the text up to its first line feed.
fn rest_of_line(text: &[u8]) -> &[u8] {
    match text.iter().position(|byte| *byte == b'\n') {
        Some(end) => &text[..end],
        None => text,
    }
}

/// Returns the length of a comment, a character constant or a string that begins a text, or 0. A string must end on its line.
pub fn quoted_length(text: &[u8]) -> usize {
    match text {
        [b'/', b'*', rest @ ..] => after_pair(rest, b'*', b'/').saturating_add(2),
        [b'/', b'/', ..] => rest_of_line(text).len(),
        [b'\'', b'\\', _, b'\'', ..] => 4,
        [b'\'', _, b'\'', ..] => 3,
        [b'"', rest @ ..] => match rest_of_line(rest).iter().position(|byte| *byte == b'"') {
            Some(end) => end.saturating_add(2),
            None => 0,
        },
        _ => 0,
    }
}

/// The keywords with which a declaration can begin.
const FIRST_WORDS: &str = "int~char~void~struct~datatype~region_t~uregion_key_t";

/// Returns true if a text begins with a keyword that can begin a declaration.
fn begins_declaration(text: &[u8]) -> bool {
    let word = match text.iter().position(|byte| !is_in_name(*byte)) {
        Some(end) => &text[..end],
        None => text,
    };
    for first in FIRST_WORDS.split('~') {
        if word == first.as_bytes() {
            return true;
        }
    }
    false
}

/// Returns true if a line looks like the first line of a struct, a list of exceptions or a function.
fn is_head(line: &[u8]) -> bool {
    let Some(end) = line.iter().position(|byte| !is_in_name(*byte)) else {
        return line == b"datatype".as_slice();
    };
    let (word, rest) = line.split_at(end);
    let stop = rest
        .iter()
        .position(|byte| matches!(*byte, b'(' | b'{' | b';' | b'=' | b','));
    let (between, ends_with) = match stop {
        Some(stop) => (&rest[..stop], rest[stop]),
        None => (rest, b' '),
    };
    let has_name = between
        .trim_ascii_end()
        .last()
        .is_some_and(|byte| is_in_name(*byte));
    match word {
        b"datatype" => true,
        b"struct" => matches!(ends_with, b'(' | b'{'),
        b"int" | b"char" | b"void" => ends_with == b'(' && has_name,
        _ => false,
    }
}

/// The nesting depths of braces and of other brackets, and a flag that is true if the last token ends a declaration.
#[derive(Clone, Copy)]
struct Depth {
    braces: usize,
    others: usize,
    is_ended: bool,
}

/// Returns the nesting depths of brackets after one more byte, which is not a blank.
fn following_byte(depth: Depth, byte: u8) -> Depth {
    let Depth { braces, others, .. } = depth;
    let (braces, others) = match byte {
        b'{' => (braces.saturating_add(1), 0),
        b'}' => (braces.saturating_sub(1), 0),
        b'(' | b'[' => (braces, others.saturating_add(1)),
        b')' | b']' => (braces, others.saturating_sub(1)),
        _ => (braces, others),
    };
    Depth {
        braces,
        others,
        is_ended: matches!(byte, b';' | b'}') && braces == 0 && others == 0,
    }
}

/// Returns how many declarations begin before the last function signature whose body has not begun, updated by one more byte of the text.
fn heads_after(heads: usize, starts: usize, depth: Depth, byte: u8) -> usize {
    match byte {
        b'(' if depth.braces == 0 => starts,
        b'{' => usize::MAX,
        _ => heads,
    }
}

/// Returns the byte offsets at which the declarations of a text begin, in ascending order.
pub fn starts_of(alloc: Global, text: &[u8]) -> Result<Vec<usize>, AllocError> {
    let mut starts = Vec::new(alloc);
    let mut depth = Depth {
        braces: 0,
        others: 0,
        is_ended: true,
    };
    let (mut last, mut skipped, mut heads) = (b'\n', 0usize, usize::MAX);
    for (n, byte) in text.iter().enumerate() {
        let rest = text.get(n..).unwrap_or(&[]);
        if skipped == 0 {
            skipped = quoted_length(rest);
        }
        let is_word = !is_in_name(last) && begins_declaration(rest);
        if skipped > 0 {
            skipped -= 1;
        } else if is_word && (depth.is_ended || last == b'\n' && is_head(rest_of_line(rest))) {
            starts.push(n)?;
            depth = Depth {
                braces: 0,
                others: 0,
                is_ended: false,
            };
        } else if !byte.is_ascii_whitespace() {
            if *byte == b'{' && depth.is_ended {
                // Text between a function signature and its body declares parameters in the old style of C, so no declaration of
                // the program begins there.
                starts.truncate(heads);
            }
            heads = heads_after(heads, starts.len(), depth, *byte);
            depth = following_byte(depth, *byte);
        }
        last = *byte;
    }
    Ok(starts)
}

/// Returns the byte range of the declaration that contains a byte offset, in a text of this length whose declarations begin at `starts`.
pub fn extent_of(starts: &[usize], length: usize, place: usize) -> Extent {
    let mut extent = Extent {
        start: 0,
        end: length,
    };
    for start in starts {
        if *start <= place {
            extent.start = *start;
        } else if *start < extent.end {
            extent.end = *start;
        }
    }
    extent
}
