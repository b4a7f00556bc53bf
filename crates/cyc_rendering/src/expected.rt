//! Finds the tokens that could replace an unexpected token, or follow at the premature end of a text.
//!
//! The expected tokens are found by trial: the text up to the fault is parsed again with each possible token on a line after it.
//! A token is expected if the parser does not reject the text at this token. If the text before the declaration with the fault is
//! a complete program, only that declaration is parsed.
use crate::declarations::{extent_of, starts_of};
use crate::reading::tree_of;
use cyc_words::{Code, Fault};
use std::alloc::{AllocError, Global};
use std::mem::ManuallyDrop;

/// The greatest number of expected tokens that a message names.
const MOST: usize = 3;

/// The first token of a construct of the grammar, and the name of the construct in messages.
type Candidate = (&'static str, &'static str);

/// A group of grammatical constructs that can begin at the same points of a text, in the order in which messages list them.
#[derive(Clone, Copy)]
struct Group {
    /// A token that the grammar allows wherever any of this group's grammatical constructs can begin, and nowhere where a construct of a
    /// different group can begin; empty if no token has this property.
    token: &'static str,
    candidates: &'static [Candidate],
}

/// The groups of grammatical constructs, in the order in which they are tried. A construct with which another one of the groups can begin
/// is not named separately; for example, a name is not named if an expression is possible.
const GROUPS: &[Group] = &[
    Group {
        token: "/",
        candidates: &[
            (")", "`)`"),
            ("]", "`]`"),
            (",", "`,`"),
            (";", "`;`"),
            ("/", "an operator"),
            ("{", "`{`"),
            ("}", "`}`"),
            (":", "`:`"),
        ],
    },
    Group {
        token: "while",
        candidates: &[("while", "a statement"), ("struct", "a type"), ("}", "`}`")],
    },
    Group {
        token: "!",
        candidates: &[
            ("!", "an expression"),
            (")", "`)`"),
            (";", "`;`"),
            ("{", "`{`"),
            ("`r", "a region"),
        ],
    },
    Group {
        token: "datatype",
        candidates: &[("datatype", "a declaration")],
    },
    Group {
        token: "struct",
        candidates: &[
            ("struct", "a type"),
            (")", "`)`"),
            (";", "`;`"),
            ("}", "`}`"),
            (":", "`:`"),
        ],
    },
    Group {
        token: "x",
        candidates: &[
            ("x", "a name"),
            ("{", "`{`"),
            ("}", "`}`"),
            ("(", "`(`"),
            ("`r", "a region"),
            ("<", "`<`"),
        ],
    },
    Group {
        token: "",
        candidates: &[
            (")", "`)`"),
            (",", "`,`"),
            (";", "`;`"),
            ("=", "`=`"),
            ("{", "`{`"),
            ("}", "`}`"),
            ("(", "`(`"),
            (":", "`:`"),
            ("`r", "a region"),
            ("<", "`<`"),
            (">", "`>`"),
        ],
    },
    Group {
        token: "",
        candidates: &[
            ("0", "a constant"),
            ("int", "`int`"),
            ("case", "`case`"),
            ("default", "`default`"),
            ("&", "`&`"),
            ("new", "`new`"),
            ("catch", "`catch`"),
            ("for", "`for`"),
            ("exn", "`exn`"),
            ("alias", "`alias`"),
            ("NewDynamicRegion", "`NewDynamicRegion`"),
            ("open", "`open`"),
            ("new_ukey", "`new_ukey`"),
        ],
    },
];

/// Returns the bytes of a text before a position.
pub fn text_before(text: &[u8], line: u32, column: u32) -> &[u8] {
    let mut start = 0_usize;
    for (n, part) in text.split(|byte| *byte == b'\n').enumerate() {
        if n as u64 + 1 == u64::from(line) {
            let end = start.saturating_add(column.saturating_sub(1) as usize);
            return &text[..end.min(text.len())];
        }
        start = start.saturating_add(part.len()).saturating_add(1);
    }
    text
}

/// Returns the last part of the text up to the fault, which is parsed for each token that is tried. The text
/// before this part is a complete program, or empty.
fn part_before<'a>(alloc: Global, before: &'a [u8]) -> Result<&'a [u8], AllocError> {
    let starts = starts_of(alloc, before)?;
    let start = extent_of(&starts, before.len(), before.len()).start;
    let apart = &before[..start.min(before.len())];
    if apart.trim_ascii().is_empty() {
        return Ok(&before[apart.len()..]);
    }
    match tree_of(alloc, apart) {
        Ok(tree) => {
            let _ = ManuallyDrop::new(tree);
            Ok(&before[apart.len()..])
        }
        Err(_) => Ok(before),
    }
}

/// A text that is parsed repeatedly, each time with a different token on a line after it.
#[derive(Drop)]
struct Trial {
    alloc: Global,
    text: Vec<u8>,
    /// The length of the text without the token that is tried at its end.
    length: usize,
    /// The line of the token that is tried.
    line: u32,
}

impl Trial {
    fn new(alloc: Global, before: &[u8]) -> Result<Trial, AllocError> {
        let mut text = Vec::from_slice(alloc, part_before(alloc, before)?)?;
        // A line feed is added after the text. The text may end within a comment, which the line feed ends.
        text.push(b'\n')?;
        let mut line = 1_u32;
        for byte in &text {
            if *byte == b'\n' {
                line = line.saturating_add(1);
            }
        }
        let length = text.len();
        Ok(Trial {
            alloc,
            text,
            length,
            line,
        })
    }

    /// Returns true if the parser does not reject the text at this token when the token follows the text.
    fn goes_on(&mut self, token: &str) -> Result<bool, AllocError> {
        self.text.truncate(self.length);
        self.text.extend_from_slice(token.as_bytes())?;
        match tree_of(self.alloc, &self.text) {
            Ok(tree) => {
                let _ = ManuallyDrop::new(tree);
                Ok(true)
            }
            Err(fault) => Ok(
                fault.code != Code::Memory
                    && (fault.line > self.line || fault.line == self.line && fault.column > 1),
            ),
        }
    }

    /// Returns the names of the constructs of a group that can begin at the end of the text.
    fn names_of(&mut self, group: &Group) -> Result<Vec<&'static str>, AllocError> {
        let mut names = Vec::new(self.alloc);
        if !group.token.is_empty() && !self.goes_on(group.token)? {
            return Ok(names);
        }
        for (token, name) in group.candidates {
            if names.len() < MOST && self.goes_on(token)? {
                names.push(*name)?;
            }
        }
        Ok(names)
    }
}

/// Returns the names of the constructs that can begin at the fault of a text.
fn names_at(alloc: Global, text: &[u8], fault: Fault) -> Result<Vec<&'static str>, AllocError> {
    let mut trial = Trial::new(alloc, text_before(text, fault.line, fault.column))?;
    for group in GROUPS {
        let names = trial.names_of(group)?;
        if !names.is_empty() {
            return Ok(names);
        }
    }
    Ok(Vec::new(alloc))
}

/// Returns the names of the expected constructs as one line.
fn line_of(alloc: Global, names: &[&'static str]) -> Result<Vec<u8>, AllocError> {
    let mut line = Vec::new(alloc);
    let mut left = names.len();
    for name in names {
        let lead = match left {
            1 => " or ",
            _ => ", ",
        };
        let lead = if left == names.len() {
            "expected "
        } else {
            lead
        };
        line.extend_from_slice(lead.as_bytes())?;
        line.extend_from_slice(name.as_bytes())?;
        left = left.saturating_sub(1);
    }
    Ok(line)
}

/// Returns a line with the names of the constructs that can begin at a fault, if the fault is an unexpected token or end. Returns `None`
/// if memory runs out.
pub fn expected_at(alloc: Global, text: &[u8], fault: Fault) -> Option<Vec<u8>> {
    if !matches!(fault.code, Code::UnexpectedToken | Code::UnexpectedEnd) {
        return None;
    }
    let names = names_at(alloc, text, fault).ok()?;
    if names.is_empty() {
        return None;
    }
    line_of(alloc, names.as_slice()).ok()
}
