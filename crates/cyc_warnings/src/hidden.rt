//! This file finds characters that are invisible or change the direction of the surrounding text. In an accepted text these characters can
//! occur only in comments. The syntax tree does not contain comments, so this file searches the bytes of the text.
use cyc_words::Span;

/// Returns true if three bytes are, or begin, a hidden character in UTF-8. Hidden characters are control characters beyond ASCII;
/// hidden characters are also bidirectional marks, embeddings and isolates; zero-width spaces and joiners; line
/// separators; the byte-order mark; and tags.
fn is_hidden(bytes: [u8; 3]) -> bool {
    matches!(
        bytes,
        [0xc2, 0x80..=0x9f, _]
            | [0xd8, 0x9c, _]
            | [0xe2, 0x80, 0x8b..=0x8f | 0xa8..=0xae]
            | [0xe2, 0x81, 0xa0..=0xaf]
            | [0xef, 0xbb, 0xbf]
            | [0xf3, 0xa0, 0x80 | 0x81]
    )
}

/// Returns the byte at an index of a text, or 0 past the text's end.
fn byte_at(text: &[u8], place: usize) -> u8 {
    match text.get(place) {
        Some(byte) => *byte,
        None => 0,
    }
}

/// Returns true if a text has a byte beyond ASCII; most texts have none.
fn has_other_than_ascii(text: &[u8]) -> bool {
    let mut all = 0_u8;
    for byte in text {
        all |= *byte;
    }
    !all.is_ascii()
}

/// Returns the source position of the first hidden character of a text.
pub(crate) fn find_hidden(text: &[u8]) -> Option<Span> {
    if !has_other_than_ascii(text) {
        return None;
    }
    let (mut line, mut column) = (1_u32, 1_u32);
    for (n, byte) in text.iter().enumerate() {
        if !byte.is_ascii() {
            let next = n.saturating_add(1);
            let bytes = [
                *byte,
                byte_at(text, next),
                byte_at(text, next.saturating_add(1)),
            ];
            if is_hidden(bytes) {
                return Some(Span { line, column });
            }
        }
        if *byte == b'\n' {
            line = line.saturating_add(1);
            column = 1;
        } else {
            column = column.saturating_add(1);
        }
    }
    None
}
