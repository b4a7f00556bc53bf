//! This file finds the file names among the words of a command line. Several file names may follow the commands `check`, `bound` and
//! `format`, and several may follow the option `--with`.
use std::alloc::{AllocError, Global};

/// Returns true if the command with this name accepts several files.
fn takes_several(name: &str) -> bool {
    matches!(name, "check" | "bound" | "format")
}

/// The index of the first word that may be a file name, after the program's name and the command's.
const FIRST: usize = 2;

/// The kind of the next word of a command line, as the words before it determine it.
#[derive(Clone, Copy)]
enum Next {
    /// The next word is an option or a file name.
    Any,
    /// The next word is the value of the option before it.
    OfOption,
    /// The next word is a file name of `--with`, unless it is an option.
    OfWith,
    /// The next word is a file name, like each word after `--`.
    File,
}

/// Returns true if a word is a file name, and neither an option nor the value of one.
fn is_file(word: &str, next: Next) -> bool {
    match next {
        Next::Any => word == "-" || !word.starts_with('-'),
        Next::OfOption | Next::OfWith => false,
        Next::File => true,
    }
}

/// Returns the kind of the word after a word of the command line.
fn next_after(word: &str, next: Next) -> Next {
    match next {
        Next::File => Next::File,
        Next::OfOption => Next::Any,
        Next::OfWith if !word.starts_with('-') => Next::OfWith,
        _ => match word {
            "--" => Next::File,
            "-o" => Next::OfOption,
            "--with" => Next::OfWith,
            _ => Next::Any,
        },
    }
}

/// Returns the file names that follow `--with`.
pub fn libraries_in(alloc: Global, words: &[String]) -> Result<Vec<&str>, AllocError> {
    let mut names = Vec::new(alloc);
    let mut next = Next::Any;
    for word in words.iter().skip(FIRST) {
        let word = word.as_str();
        match (next, word.strip_prefix("--with=")) {
            (Next::Any | Next::OfWith, Some(name)) => names.push(name)?,
            (Next::OfWith, None) if !word.starts_with('-') => names.push(word)?,
            _ => {}
        }
        next = next_after(word, next);
    }
    Ok(names)
}

/// Returns the number of file names on a command line whose command accepts several files.
pub fn count_of_files(words: &[String]) -> usize {
    match words.get(1) {
        Some(name) if takes_several(name.as_str()) => {}
        _ => return 0,
    }
    let mut count: usize = 0;
    let mut next = Next::Any;
    for word in words.iter().skip(FIRST) {
        if is_file(word.as_str(), next) {
            count = count.saturating_add(1);
        }
        next = next_after(word.as_str(), next);
    }
    count
}

/// The words of a command line without its file names, the file names, and the index at which one of them can be inserted among the words.
#[derive(Drop)]
pub struct Line {
    pub words: Vec<String>,
    pub files: Vec<String>,
    pub place: usize,
}

impl Line {
    /// Separates the file names of a command line from its other words.
    pub fn of(alloc: Global, words: Vec<String>) -> Result<Line, AllocError> {
        let mut line = Line {
            words: Vec::new(alloc),
            files: Vec::new(alloc),
            place: FIRST,
        };
        let mut next = Next::Any;
        for (place, word) in words.into_iter().enumerate() {
            let is_named = place >= FIRST && is_file(word.as_str(), next);
            if place >= FIRST {
                next = next_after(word.as_str(), next);
            }
            if is_named {
                line.files.push(word)?;
            } else {
                line.words.push(word)?;
            }
        }
        // A word that begins like an option is a file name only after `--`, which ends the options. The option `--with` takes
        // words up to the next option.
        if let Next::File = next {
            line.place = line.words.len();
        }
        Ok(line)
    }
}
