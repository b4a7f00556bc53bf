//! This file shows a line of a text with a mark under one source position.
ghost use Rattle.std.specs.Prelude.{◌≡◌, Some, slice_get, option_map, ◌≤◌, ◌<◌, ◌+◌, flat_map};
ghost use Rattle.std.specs.Fmt.{WritesOnOk};
ghost use Rattle.std.specs.Str.{chars};
ghost use Rattle.cyc_cli.specs.inside.Excerpt.{IsExcerpt, bytes_before, dots, escaped_byte, excerpt_text, is_hidden, line_char, name_text};
ghost use Rattle.cyc_cli.specs.inside.Excerpt.{shown_byte, shown_bytes, shown_char, blank_byte, blank_bytes, blank_char, line_at, lines_of};

use std::{fmt, str};

// Returns line n, counted from 0, of the text split at its line feeds.
fn piece(text: &[u8], n: usize) -> Option<&[u8]>
    ensures { option_map (λ s. s.now) result ≡ slice_get (lines_of text.now) n }
{
    text.split(|byte| *byte == b'\n').nth(n)
}

/// Returns line `line` of the text, counted from 1, without its line feed; returns an empty line if there is no such line.
pub(crate) fn line_at(text: &[u8], line: u32) -> &[u8]
    ensures { result.now ≡ line_at text.now line }
{
    match piece(text, line.saturating_sub(1) as usize) {
        Some(found) => found,
        None => &[],
    }
}

fn write_escaped<W: fmt::Write>(byte: u8, f: &mut fmt::Formatter<W>) -> fmt::Result
    ensures { WritesOnOk W.write_str_gives f.old result (escaped_byte byte) f.new }
{
    write!(f, "\\x{byte:02x}")
}

fn write_byte<W: fmt::Write>(byte: u8, f: &mut fmt::Formatter<W>) -> fmt::Result
    ensures { WritesOnOk W.write_str_gives f.old result (shown_byte byte) f.new }
{
    match byte {
        b'\t' => f.write_str("\t"),
        b'\r' => f.write_str(" "),
        b' '..=b'~' => f.write_char(char::from(byte)),
        _ => write_escaped(byte, f),
    }
}

fn write_blank<W: fmt::Write>(byte: u8, f: &mut fmt::Formatter<W>) -> fmt::Result
    ensures { WritesOnOk W.write_str_gives f.old result (blank_byte byte) f.new }
{
    match byte {
        b'\t' => f.write_str("\t"),
        b' '..=b'~' | b'\r' => f.write_str(" "),
        _ => f.write_str("    "),
    }
}

fn write_bytes<W: fmt::Write>(bytes: &[u8], f: &mut fmt::Formatter<W>) -> fmt::Result
    ensures { WritesOnOk W.write_str_gives f.old result (flat_map shown_byte bytes.now) f.new }
{
    for byte in bytes {
        write_byte(*byte, f)?;
    }
    Ok(())
}

fn write_blank_bytes<W: fmt::Write>(bytes: &[u8], f: &mut fmt::Formatter<W>) -> fmt::Result
    ensures { WritesOnOk W.write_str_gives f.old result (flat_map blank_byte bytes.now) f.new }
{
    for byte in bytes {
        write_blank(*byte, f)?;
    }
    Ok(())
}

/// Returns true if the character with this code point, beyond ASCII, is invisible, ends a line or changes the writing direction. The hidden
/// characters are control characters, bidirectional marks and isolates, zero-width spaces and joiners, line separators, and tags.
fn is_hidden(code: u32) -> bool
    ensures { result ≡ is_hidden code }
{
    matches!(
        code,
        0x80..=0x9f
            | 0x61c
            | 0x200b..=0x200f
            | 0x2028..=0x202e
            | 0x2060..=0x206f
            | 0xfeff
            | 0xe0000..=0xe007f
    )
}

fn write_char<W: fmt::Write>(c: char, f: &mut fmt::Formatter<W>) -> fmt::Result
    ensures { WritesOnOk W.write_str_gives f.old result (shown_char c) f.new }
{
    let code = u32::from(c);
    if code < 0x80 {
        write_byte(code as u8, f)
    } else if is_hidden(code) {
        write_bytes(c.encode_utf8(&mut [0; 4]).as_bytes(), f)
    } else {
        f.write_char(c)
    }
}

fn write_line_char<W: fmt::Write>(c: char, f: &mut fmt::Formatter<W>) -> fmt::Result
    ensures { WritesOnOk W.write_str_gives f.old result (line_char c) f.new }
{
    if c == '\n' {
        f.write_str("\n")
    } else {
        write_char(c, f)
    }
}

fn write_blank_char<W: fmt::Write>(c: char, f: &mut fmt::Formatter<W>) -> fmt::Result
    ensures { WritesOnOk W.write_str_gives f.old result (blank_char c) f.new }
{
    let code = u32::from(c);
    if code < 0x80 {
        write_blank(code as u8, f)
    } else if is_hidden(code) {
        write_blank_bytes(c.encode_utf8(&mut [0; 4]).as_bytes(), f)
    } else {
        f.write_str(" ")
    }
}

fn write_text<W: fmt::Write>(text: &str, f: &mut fmt::Formatter<W>) -> fmt::Result
    ensures { WritesOnOk W.write_str_gives f.old result (flat_map shown_char (chars text.now)) f.new }
{
    for c in text.chars() {
        write_char(c, f)?;
    }
    Ok(())
}

fn write_lines<W: fmt::Write>(text: &str, f: &mut fmt::Formatter<W>) -> fmt::Result
    ensures { WritesOnOk W.write_str_gives f.old result (flat_map line_char (chars text.now)) f.new }
{
    for c in text.chars() {
        write_line_char(c, f)?;
    }
    Ok(())
}

fn write_blank_text<W: fmt::Write>(text: &str, f: &mut fmt::Formatter<W>) -> fmt::Result
    ensures { WritesOnOk W.write_str_gives f.old result (flat_map blank_char (chars text.now)) f.new }
{
    for c in text.chars() {
        write_blank_char(c, f)?;
    }
    Ok(())
}

/// A piece of text for display. UTF-8 is unchanged, except that characters that are invisible, control a terminal or change the
/// writing direction are shown by their code numbers. Bytes that are not UTF-8 are shown as numbers.
#[derive(Drop)]
pub struct Shown<'a>(pub &'a [u8]);

impl fmt::Display for Shown<'_> {
    ghost output = { λ s. Some (shown_bytes s.0.now) };

    fn fmt<W: fmt::Write>(&self, f: &mut fmt::Formatter<W>) -> fmt::Result {
        match str::from_utf8(self.0) {
            Ok(text) => write_text(text, f),
            Err(_) => write_bytes(self.0, f),
        }
    }
}

/// Lines of text for display: the characters of each line are displayed as `Shown` displays them.
#[derive(Drop)]
pub struct Lines<'a>(pub &'a str);

impl fmt::Display for Lines<'_> {
    ghost output = { λ s. Some (flat_map line_char (chars s.0.now)) };

    fn fmt<W: fmt::Write>(&self, f: &mut fmt::Formatter<W>) -> fmt::Result {
        write_lines(self.0, f)
    }
}

/// The largest number of bytes of a file's name that are shown.
const MOST_NAME: usize = 512;

/// The name of a file for display: a name longer than `MOST_NAME` bytes is shown as dots and the last bytes of the name.
#[derive(Drop)]
pub struct FileName<'a>(pub &'a [u8]);

impl fmt::Display for FileName<'_> {
    ghost output = { λ s. Some (name_text s.0.now) };

    fn fmt<W: fmt::Write>(&self, f: &mut fmt::Formatter<W>) -> fmt::Result {
        let left_out = self.0.len().saturating_sub(MOST_NAME);
        write!(f, "{}{}", dots(left_out), Shown(&self.0[left_out..]))
    }
}

#[derive(Drop)]
struct Blank<'a>(&'a [u8]);

impl fmt::Display for Blank<'_> {
    ghost output = { λ s. Some (blank_bytes s.0.now) };

    fn fmt<W: fmt::Write>(&self, f: &mut fmt::Formatter<W>) -> fmt::Result {
        match str::from_utf8(self.0) {
            Ok(text) => write_blank_text(text, f),
            Err(_) => write_blank_bytes(self.0, f),
        }
    }
}

/// The part of one line of a text around a source position. `Display` writes two lines: this part, and a mark under the position.
#[derive(Drop)]
pub struct Excerpt<'a> {
    /// Dots, if bytes at the beginning of the line are omitted.
    pub lead: &'static str,
    /// The shown bytes of the line before the source position.
    pub before: &'a [u8],
    /// The shown bytes of the line from the source position on.
    pub after: &'a [u8],
    /// Dots, if bytes at the end of the line are omitted.
    pub trail: &'static str,
}

const MOST_SHOWN: usize = 72;

fn dots(left_out: usize) -> &'static str
    ensures { result.now ≡ dots left_out }
{
    if left_out == 0 { "" } else { "..." }
}

/// Returns the index of the first byte that is shown around the byte index `place`, in a line of `len` bytes.
fn window_start(len: usize, place: usize) -> usize
    requires { place ≤ len }
    ensures before { result ≤ place }
    ensures reaches { place ≤ result + MOST_SHOWN }
    ensures full { MOST_SHOWN < len → result + MOST_SHOWN ≤ len }
    ensures whole { len ≤ MOST_SHOWN → result ≡ 0 }
{
    if len <= MOST_SHOWN {
        0
    } else {
        place.saturating_sub(MOST_SHOWN / 2).min(len - MOST_SHOWN)
    }
}

/// Returns the excerpt around a position of a text. A column past the end of its line is treated as the end of the line, and a line past
/// the last line is empty.
pub fn excerpt_at(text: &[u8], line: u32, column: u32) -> Excerpt<'_>
    ensures { IsExcerpt (line_at text.now line) (bytes_before (line_at text.now line) column) result }
{
    let whole = line_at(text, line);
    let place = whole.len().min(column.saturating_sub(1) as usize);
    let start = window_start(whole.len(), place);
    let end = start + MOST_SHOWN.min(whole.len() - start);
    Excerpt {
        lead: dots(start),
        before: &whole[start..place],
        after: &whole[place..end],
        trail: dots(whole.len() - end),
    }
}

impl fmt::Display for Excerpt<'_> {
    ghost output = { λ e. Some (excerpt_text e) };

    fn fmt<W: fmt::Write>(&self, f: &mut fmt::Formatter<W>) -> fmt::Result {
        let (lead, trail) = (self.lead, self.trail);
        write!(
            f,
            "    {lead}{}{}{trail}\n",
            Shown(self.before),
            Shown(self.after)
        )?;
        write!(f, "    {}{}^\n", Blank(lead.as_bytes()), Blank(self.before))
    }
}
