//! Packs a text into words of four bytes, as constants for a program that prints the text.
use cyc_host::{Answer, Output};
use std::alloc::{AllocError, Global};
use std::io::Write;
use std::{fmt, io};

/// The number of bytes in a word, and the number of words that one call of a library function prints.
const BYTES: usize = 4;

const WORDS: usize = 8;

/// Returns the byte that the escape sequence at the start of a text denotes, and the rest of the text after it.
/// Returns `None` if the sequence is not valid.
fn escaped(letters: &[u8]) -> Option<(u8, &[u8])> {
    match letters {
        [b'n', rest @ ..] => Some((b'\n', rest)),
        [b't', rest @ ..] => Some((b'\t', rest)),
        [b'r', rest @ ..] => Some((b'\r', rest)),
        [b'0', rest @ ..] => Some((0, rest)),
        [b'x', high, low, rest @ ..] => {
            let byte = digit_of(*high)?
                .checked_mul(16)?
                .checked_add(digit_of(*low)?)?;
            Some((byte, rest))
        }
        [byte @ (b'\\' | b'"' | b'\''), rest @ ..] => Some((*byte, rest)),
        _ => None,
    }
}

/// Returns the value of a hexadecimal digit.
fn digit_of(letter: u8) -> Option<u8> {
    match letter {
        b'0'..=b'9' => Some(letter - b'0'),
        b'a'..=b'f' => Some(letter - b'a' + 10),
        b'A'..=b'F' => Some(letter - b'A' + 10),
        _ => None,
    }
}

/// Returns the bytes of a text with escape sequences, or `None` if one of them is not valid.
fn bytes_of(alloc: Global, text: &[u8]) -> Result<Option<Vec<u8>>, AllocError> {
    let mut bytes = Vec::new(alloc);
    let mut rest = text;
    for _ in 0..text.len() {
        match rest {
            [] => {}
            [b'\\', letters @ ..] => {
                let Some((byte, after)) = escaped(letters) else {
                    return Ok(None);
                };
                bytes.push(byte)?;
                rest = after;
            }
            [byte, after @ ..] => {
                bytes.push(*byte)?;
                rest = after;
            }
        }
    }
    Ok(Some(bytes))
}

/// Writes a word of at most four bytes, the first one highest, as a constant in a program: a number in a text has no more than 31 bits.
#[derive(Drop)]
struct Word<'a>(&'a [u8]);

impl fmt::Display for Word<'_> {
    fn fmt<W: fmt::Write>(&self, f: &mut fmt::Formatter<W>) -> fmt::Result {
        let mut bytes = [0; BYTES];
        for place in 0..BYTES {
            bytes[place] = self.0.get(place).copied().unwrap_or(0);
        }
        let word = u32::from_be_bytes(bytes);
        match i32::from_be_bytes(bytes) {
            i32::MIN => f.write_str("-2147483647 - 1"),
            number if number < 0 => write!(f, "{number}"),
            _ => write!(f, "0x{word:08x}"),
        }
    }
}

/// Bytes that are written as words of four bytes each, as constants of a program, with a separator between the words.
#[derive(Drop)]
struct Words<'a> {
    bytes: &'a [u8],
    between: &'static str,
}

impl fmt::Display for Words<'_> {
    fn fmt<W: fmt::Write>(&self, f: &mut fmt::Formatter<W>) -> fmt::Result {
        let mut is_first = true;
        for bytes in self.bytes.chunks(BYTES) {
            if !is_first {
                f.write_str(self.between)?;
            }
            is_first = false;
            write!(f, "{}", Word(bytes))?;
        }
        Ok(())
    }
}

/// Writes bytes in a comment, with escape sequences, so that no byte ends the comment.
#[derive(Drop)]
struct Commented<'a>(&'a [u8]);

impl fmt::Display for Commented<'_> {
    fn fmt<W: fmt::Write>(&self, f: &mut fmt::Formatter<W>) -> fmt::Result {
        let mut before = b' ';
        for byte in self.0 {
            match byte {
                b'\n' => f.write_str("\\n")?,
                b'\t' => f.write_str("\\t")?,
                b'\r' => f.write_str("\\r")?,
                b'\\' => f.write_str("\\\\")?,
                b'/' if before == b'*' => f.write_str("\\x2f")?,
                b' '..=b'~' => f.write_char(char::from(*byte))?,
                _ => write!(f, "\\x{byte:02x}")?,
            }
            before = *byte;
        }
        Ok(())
    }
}

/// Writes the words of a text and the calls that print it, with the text beside them as comments.
#[derive(Drop)]
struct Packed<'a>(&'a [u8]);

impl fmt::Display for Packed<'_> {
    fn fmt<W: fmt::Write>(&self, f: &mut fmt::Formatter<W>) -> fmt::Result {
        let words = Words {
            bytes: self.0,
            between: " ",
        };
        write!(f, "{words}\n")?;
        for bytes in self.0.chunks(BYTES * WORDS) {
            let words = Words {
                bytes,
                between: ", ",
            };
            let count = bytes.len().div_ceil(BYTES);
            write!(f, "say_{count}({words}); /* {} */\n", Commented(bytes))?;
        }
        Ok(())
    }
}

/// Prints a text packed into words of four bytes, as constants for a program that prints the text.
fn print_packed(rt: &HostRuntime, bytes: &[u8]) -> io::Result<()> {
    let mut output = Output::new(rt);
    write!(output, "{}", Packed(bytes))?;
    output.flush()
}

/// `pack TEXT`.
pub fn pack_text(rt: &HostRuntime, text: &str) -> Result<Answer, Answer> {
    match bytes_of(rt.alloc(), text.as_bytes()) {
        Ok(Some(bytes)) => match print_packed(rt, &bytes) {
            Ok(()) => Ok(Answer::Done),
            Err(_) => Err(Answer::WriteFault),
        },
        Ok(None) => {
            let _ = rt.eprintln(
                "cyclone: a backslash in the text begins one of \\n \\t \\r \\0 \\\\ \\\" \\' and \\x with two hexadecimal digits",
            );
            Err(Answer::Usage)
        }
        Err(_) => Err(Answer::NoMemory),
    }
}
