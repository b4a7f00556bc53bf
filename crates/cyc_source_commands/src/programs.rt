//! Reads the text of a program: the text of its file, followed by the library declarations that it needs.
use crate::library::{Clash, Joined, Library, Shelf, spelled};
use crate::telling::{Source, tell_refusal, tell_words};
use cyc_cli::{FileName, Shown};
use cyc_host::{Answer, read_text};
use cyc_lex::lex;
use cyc_rendering::tree_of;
use cyc_syntax::Token;
use cyc_words::{Code, Fault, Span};
use std::alloc::Global;
use std::mem::ManuallyDrop;

/// Returns the tokens of a text that satisfies the grammar.
fn tokens_of(alloc: Global, text: &[u8]) -> Result<Vec<Token>, Fault> {
    let tokens = lex(alloc, text)?;
    let _ = ManuallyDrop::new(tree_of(alloc, text)?);
    Ok(tokens)
}

/// Reads a library from a file. A fault in the library's grammar is reported with the library's own name.
fn read_library<'a>(rt: &HostRuntime, name: &'a str, is_json: bool) -> Result<Library<'a>, Answer> {
    let text = read_text(rt, name)?;
    match tokens_of(rt.alloc(), &text) {
        Ok(tokens) => Ok(Library { name, text, tokens }),
        Err(fault) => {
            let source = Source {
                name,
                text: &text,
                parts: &[],
                is_json,
            };
            Err(tell_refusal(rt, source, fault))
        }
    }
}

/// Returns the name at a token of a library.
fn name_at<'s>(shelf: &'s Shelf<'_>, library: usize, token: usize) -> &'s [u8] {
    match shelf.libraries().get(library) {
        Some(library) => match library.tokens.get(token) {
            Some(token) => spelled(&library.text, token),
            None => &[],
        },
        None => &[],
    }
}

/// Returns the file name of a library.
fn file_of<'s>(shelf: &'s Shelf<'_>, library: usize) -> &'s str {
    match shelf.libraries().get(library) {
        Some(library) => library.name,
        None => "",
    }
}

/// Reports that the program declares a name, at source position `own`, that a needed library declaration uses for the
/// library's declaration of that name.
fn tell_taken(rt: &HostRuntime, source: Source<'_>, own: Span, words: String) -> Answer {
    let fault = Fault {
        code: Code::DeclaredTwice,
        line: own.line,
        column: own.column,
    };
    match Vec::from_slice(rt.alloc(), words.as_bytes()) {
        Ok(words) => tell_words(rt, source, fault, words),
        Err(_) => Answer::NoMemory,
    }
}

/// Reports why a program cannot be joined with libraries.
fn tell_clash(rt: &HostRuntime, source: Source<'_>, shelf: &Shelf<'_>, clash: Clash) -> Answer {
    match clash {
        Clash::Memory => Answer::NoMemory,
        Clash::Twice {
            first,
            second,
            token,
        } => {
            let _ = eprintln!(rt;
                "cyclone: {} is declared in {} and in {}: leave one of them out",
                Shown(name_at(shelf, second, token)),
                FileName(file_of(shelf, first).as_bytes()),
                FileName(file_of(shelf, second).as_bytes())
            );
            Answer::Usage
        }
        Clash::Taken {
            own,
            declared_in,
            library,
            token,
            by,
        } => {
            let words = format!(in rt.alloc();
                "{} is declared in {} too, and {} needs that one: rename yours",
                Shown(name_at(shelf, library, token)),
                FileName(file_of(shelf, declared_in).as_bytes()),
                Shown(name_at(shelf, library, by))
            );
            match words {
                Ok(words) => tell_taken(rt, source, own, words),
                Err(_) => Answer::NoMemory,
            }
        }
    }
}

/// Reads the libraries from their files.
fn read_libraries<'a>(
    rt: &HostRuntime,
    names: &[&'a str],
    is_json: bool,
) -> Result<Vec<Library<'a>>, Answer> {
    let mut libraries = Vec::new(rt.alloc());
    for name in names {
        let library = read_library(rt, *name, is_json)?;
        if libraries.push(library).is_err() {
            return Err(Answer::NoMemory);
        }
    }
    Ok(libraries)
}

/// Joins a program with the library declarations that it needs.
fn join<'a>(
    rt: &HostRuntime,
    name: &str,
    text: Vec<u8>,
    shelf: &mut Shelf<'a>,
    is_json: bool,
) -> Result<Joined<'a>, Answer> {
    // If the program's text violates the grammar, the text is returned without libraries, so the fault is reported for the text as it is.
    let Ok(tokens) = tokens_of(rt.alloc(), &text) else {
        return Ok(Joined::alone(rt.alloc(), text));
    };
    let found = match shelf.split() {
        Ok(()) => shelf.reach(&text, &tokens),
        Err(clash) => Err(clash),
    };
    if let Err(clash) = found {
        let source = Source {
            name,
            text: &text,
            parts: &[],
            is_json,
        };
        return Err(tell_clash(rt, source, shelf, clash));
    }
    match shelf.join(text) {
        Ok(joined) => Ok(joined),
        Err(_) => Err(Answer::NoMemory),
    }
}

/// Returns the text of the program in a file, joined with the declarations that it needs of the given libraries.
pub(crate) fn read_program<'a>(
    rt: &HostRuntime,
    name: &str,
    libraries: &[&'a str],
    is_json: bool,
) -> Result<Joined<'a>, Answer> {
    let text = read_text(rt, name)?;
    if libraries.is_empty() {
        return Ok(Joined::alone(rt.alloc(), text));
    }
    let libraries = read_libraries(rt, libraries, is_json)?;
    match Shelf::new(rt.alloc(), libraries) {
        Ok(mut shelf) => join(rt, name, text, &mut shelf, is_json),
        Err(_) => Err(Answer::NoMemory),
    }
}
