//! This file writes faults and warnings as JSON, one object on each line.
ghost use Rattle.std.specs.Prelude.{◌≡◌, Some, option_map};
ghost use Rattle.std.specs.Fmt.{WritesOnOk};
ghost use Rattle.cyc_cli.specs.inside.Json.{code_text, control_char, edit_or_null, entry_text, list_text, quoted, quoted_or_null, range_members};
ghost use Rattle.cyc_cli.specs.inside.Json.{related_text, string_char, string_text, truth_text};

use std::fmt;

// ---- strings

fn write_control<W: fmt::Write>(byte: u8, f: &mut fmt::Formatter<W>) -> fmt::Result
    ensures { WritesOnOk W.write_str_gives f.old result (control_char byte) f.new }
{
    write!(f, "\\u00{byte:02x}")
}

fn write_char<W: fmt::Write>(c: char, f: &mut fmt::Formatter<W>) -> fmt::Result
    ensures { WritesOnOk W.write_str_gives f.old result (string_char c) f.new }
{
    let code = u32::from(c);
    match c {
        '"' => f.write_str("\\\""),
        '\\' => f.write_str("\\\\"),
        _ if code < 0x20 => write_control(code as u8, f),
        _ => f.write_char(c),
    }
}

fn write_text<W: fmt::Write>(text: &str, f: &mut fmt::Formatter<W>) -> fmt::Result
    ensures { WritesOnOk W.write_str_gives f.old result (string_text text.now) f.new }
{
    for c in text.chars() {
        write_char(c, f)?;
    }
    Ok(())
}

/// The characters of a JSON string.
#[derive(Drop)]
struct Characters<'a>(&'a str);

impl fmt::Display for Characters<'_> {
    ghost output = { λ s. Some (string_text s.0.now) };

    fn fmt<W: fmt::Write>(&self, f: &mut fmt::Formatter<W>) -> fmt::Result {
        write_text(self.0, f)
    }
}

/// A JSON string with its quotes.
#[derive(Drop)]
pub struct Quoted<'a>(pub &'a str);

impl fmt::Display for Quoted<'_> {
    ghost output = { λ s. Some (quoted s.0.now) };

    fn fmt<W: fmt::Write>(&self, f: &mut fmt::Formatter<W>) -> fmt::Result {
        write!(f, "\"{}\"", Characters(self.0))
    }
}

/// A JSON string with its quotes, or `null`.
#[derive(Drop)]
struct QuotedOrNull<'a>(Option<&'a str>);

impl fmt::Display for QuotedOrNull<'_> {
    ghost output = { λ s. Some (quoted_or_null (option_map (λ t. t.now) s.0)) };

    fn fmt<W: fmt::Write>(&self, f: &mut fmt::Formatter<W>) -> fmt::Result {
        match self.0 {
            Some(text) => write!(f, "{}", Quoted(text)),
            None => f.write_str("null"),
        }
    }
}

/// Returns the JSON text of a truth value.
fn truth_of(is_so: bool) -> &'static str
    ensures { result.now ≡ truth_text is_so }
{
    if is_so { "true" } else { "false" }
}

// ---- members of an object

/// A range of a text, in lines and in columns of bytes, counted from 1; the end of the range is after its last byte.
#[derive(Clone, Copy)]
pub struct Range {
    pub line: u32,
    pub column: u32,
    pub end_line: u32,
    pub end_column: u32,
}

impl fmt::Display for Range {
    ghost output = { λ r. Some (range_members r) };

    fn fmt<W: fmt::Write>(&self, f: &mut fmt::Formatter<W>) -> fmt::Result {
        write!(
            f,
            "\"line\":{},\"column\":{},\"endLine\":{},\"endColumn\":{}",
            self.line, self.column, self.end_line, self.end_column
        )
    }
}

/// The JSON object for the replacement of a range of the text.
#[derive(Drop)]
pub struct Edit<'a> {
    pub range: Range,
    pub text: &'a str,
}

/// The JSON object for an edit that repairs the fault, or `null` if there is none.
#[derive(Drop)]
struct EditOrNull<'a>(&'a Option<Edit<'a>>);

impl fmt::Display for EditOrNull<'_> {
    ghost output = { λ e. Some (edit_or_null e.0.now) };

    fn fmt<W: fmt::Write>(&self, f: &mut fmt::Formatter<W>) -> fmt::Result {
        match self.0 {
            Some(edit) => write!(f, "{{{},\"text\":{}}}", edit.range, Quoted(edit.text)),
            None => f.write_str("null"),
        }
    }
}

/// A source position related to a fault, other than the fault's own position, and the message about it.
#[derive(Drop)]
pub struct Related<'a> {
    pub range: Range,
    pub message: &'a str,
}

impl fmt::Display for Related<'_> {
    ghost output = { λ r. Some (related_text r) };

    fn fmt<W: fmt::Write>(&self, f: &mut fmt::Formatter<W>) -> fmt::Result {
        write!(f, "{{{},\"message\":{}}}", self.range, Quoted(self.message))
    }
}

/// A JSON array with the source position related to a fault as its only element, or an empty array if there is no related position.
#[derive(Drop)]
struct RelatedList<'a>(&'a Option<Related<'a>>);

impl fmt::Display for RelatedList<'_> {
    ghost output = { λ l. Some (list_text l.0.now) };

    fn fmt<W: fmt::Write>(&self, f: &mut fmt::Formatter<W>) -> fmt::Result {
        match self.0 {
            Some(related) => write!(f, "[{related}]"),
            None => f.write_str("[]"),
        }
    }
}

/// The number of a fault code as JSON, or `null`.
#[derive(Drop)]
struct CodeOrNull(Option<u32>);

impl fmt::Display for CodeOrNull {
    ghost output = { λ c. Some (code_text c.0) };

    fn fmt<W: fmt::Write>(&self, f: &mut fmt::Formatter<W>) -> fmt::Result {
        match self.0 {
            Some(code) => write!(f, "{code}"),
            None => f.write_str("null"),
        }
    }
}

/// A fault or a warning. `Display` writes it as a JSON object on one line.
#[derive(Drop)]
pub struct Entry<'a> {
    /// The kind of a reported JSON object: `refusal` (a fault) or `warning`.
    pub kind: &'a str,
    /// The name of the rule that the text violates or, for a warning, the name of the warning.
    pub rule: &'a str,
    /// The number of the fault's code, if the reported object is a fault and not a warning.
    pub code: Option<u32>,
    /// True for the first fault of the text, which is the fault that is proved correct.
    pub is_first: bool,
    /// The name of the source file that has the fault or warning.
    pub file: &'a str,
    pub range: Range,
    /// The description of the fault or warning, on one line.
    pub message: &'a str,
    /// An optional longer text about the fault or warning, of one or more lines.
    pub detail: Option<&'a str>,
    /// The advice on the fault or warning.
    pub hint: Option<&'a str>,
    pub edit: Option<Edit<'a>>,
    pub related: Option<Related<'a>>,
}

impl fmt::Display for Entry<'_> {
    ghost output = { λ e. Some (entry_text e) };

    fn fmt<W: fmt::Write>(&self, f: &mut fmt::Formatter<W>) -> fmt::Result {
        write!(
            f,
            "{{\"kind\":{},\"rule\":{},\"code\":{},\"first\":{},\"file\":{},{},\"message\":{},\"detail\":{},\"hint\":{},\"edit\":{},\"related\":{}}}",
            Quoted(self.kind),
            Quoted(self.rule),
            CodeOrNull(self.code),
            truth_of(self.is_first),
            Quoted(self.file),
            self.range,
            Quoted(self.message),
            QuotedOrNull(self.detail),
            QuotedOrNull(self.hint),
            EditOrNull(&self.edit),
            RelatedList(&self.related)
        )
    }
}
