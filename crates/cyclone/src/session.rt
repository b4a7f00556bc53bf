//! Performs the request on the command line, using files and the standard streams.
use crate::exec::exec_file;
use crate::line::{Line, count_of_files, libraries_in};
use crate::pack::pack_text;
use crate::page::describe_code;
use clap::error::ErrorKind;
use cyc_cli::{FileName, Lines, Request, read_request};
use cyc_host::{
    Answer, Output, STACK, explanation, is_enough_stack, say, stack_limit, within_bounds,
};
use cyc_image_commands::{Allowance, Manner, describe_file, list_file, run_file};
use cyc_source_commands::{Outputs, bound_file, check_file, compile_file, format_file, print_name};
use std::env::{Env, FillError};
use std::io::Write;
use std::{env, io};

/// Performs a request with these libraries and returns the answer. If `is_one` is true, the request is for one of several files.
fn carry_out(rt: &HostRuntime, request: &Request<'_>, libraries: &[&str], is_one: bool) -> Answer {
    let result = match request {
        Request::Check { source, is_json } => check_file(rt, source, libraries, *is_json),
        Request::Compile {
            source,
            image,
            limits,
            auto,
            places,
            emit,
            is_json,
        } => {
            let outputs = Outputs {
                image,
                places: *places,
                emit: *emit,
            };
            compile_file(rt, source, libraries, outputs, *limits, *auto, *is_json)
        }
        Request::Run {
            file,
            is_source,
            store,
            limits,
            caps,
            budget,
            report,
            peaks,
            places,
        } => {
            let manner = Manner {
                store: *store,
                counting: *peaks,
            };
            let allowed = Allowance {
                limits: *limits,
                caps: *caps,
                budget: *budget,
                manner,
            };
            if *is_source {
                exec_file(rt, file, libraries, allowed, *report)
            } else {
                run_file(rt, file, allowed, *report, *places)
            }
        }
        Request::Disassemble {
            image,
            most,
            places,
        } => list_file(rt, image, *most, *places),
        Request::Explain { code } => describe_code(rt, *code),
        Request::Describe { image, places } => describe_file(rt, image, *places),
        Request::Bound { source } if is_one => bound_one(rt, source, libraries),
        Request::Bound { source } => bound_file(rt, source, libraries),
        Request::Format {
            output: Some(_),
            ..
        } if is_one => refuse_output(rt),
        Request::Format {
            source,
            output,
            is_check,
        } => format_file(rt, source, *output, *is_check),
        Request::Pack { text } => pack_text(rt, text),
    };
    match result {
        Ok(answer) | Err(answer) => answer,
    }
}

/// Prints the bounds of what the runs of one of several programs need, below the program's name.
fn bound_one(rt: &HostRuntime, source: &str, libraries: &[&str]) -> Result<Answer, Answer> {
    print_name(rt, source)?;
    bound_file(rt, source, libraries)
}

/// Reports that several programs cannot be written to one output file.
fn refuse_output(rt: &HostRuntime) -> Result<Answer, Answer> {
    let _ = rt.eprintln("cyclone: -o takes one file: leave it out, or format them one by one");
    Err(Answer::Usage)
}

/// Writes help or the version to the standard output.
fn print_help(rt: &HostRuntime, help: &clap::Error) -> io::Result<()> {
    let mut output = Output::new(rt);
    write!(output, "{help}")?;
    output.flush()
}

/// Handles a command line without a valid request. Returns the answer to a wrong command line, or `None` if help or the version was
/// requested and written.
fn print_usage(rt: &HostRuntime, error: &clap::Error) -> Option<Answer> {
    match error.kind() {
        ErrorKind::DisplayHelp | ErrorKind::DisplayVersion => match print_help(rt, error) {
            Ok(()) => None,
            Err(_) => Some(Answer::WriteFault),
        },
        kind => {
            // The message about the mistake contains words of the command line, which may contain any characters.
            let text = within_bounds(error);
            say(rt, Lines(text.as_str()));
            Some(match kind {
                ErrorKind::OutOfMemory => Answer::NoMemory,
                _ => Answer::Usage,
            })
        }
    }
}

/// The most bytes of a word that are examined; no file name is longer.
const MOST_WORD: usize = 4096;

/// Reports that a word of the command line is not valid UTF-8, and how to use its file: std opens files only by text, the shell by any
/// bytes.
fn report_word(rt: &HostRuntime) {
    let mut word = [0; MOST_WORD];
    for place in 0..usize::MAX {
        match rt.arg(place, &mut word) {
            Ok(length) if str::from_utf8(&word[..length]).is_err() => {
                let _ = eprintln!(rt;
                    "cyclone: the name {} is not UTF-8: open its file by the shell, as in cyclone check /dev/fd/3 3< FILE",
                    FileName(&word[..length])
                );
                return;
            }
            Err(FillError::NotPresent) => return,
            Ok(_) | Err(FillError::TooLong) => {}
        }
    }
}

/// Returns the words of the command line.
fn read_words(rt: &HostRuntime) -> Result<Vec<String>, Answer> {
    let words = match env::args(rt) {
        Ok(words) => words,
        Err(error) if error.kind() == io::ErrorKind::OutOfMemory => return Err(Answer::NoMemory),
        Err(_) => {
            report_word(rt);
            return Err(Answer::Usage);
        }
    };
    match words.collect(rt.alloc()) {
        Ok(words) => Ok(words),
        Err(_) => Err(Answer::NoMemory),
    }
}

/// Performs the request in the words of a command line and returns the answer. Messages for human readers are written to standard error.
fn answer_words(rt: &HostRuntime, words: &[String], is_one: bool) -> Option<Answer> {
    match read_request(rt.alloc(), words) {
        Ok(request) => Some(match libraries_in(rt.alloc(), words) {
            Ok(libraries) => carry_out(rt, &request, &libraries, is_one),
            Err(_) => Answer::NoMemory,
        }),
        Err(error) => print_usage(rt, &error),
    }
}

/// Performs a command for each of several files, as if each file were the only one. Returns the first answer other than `done`.
/// If the command line is wrong or asks for help, the remaining files are not handled.
fn answer_each(rt: &HostRuntime, line: Line) -> Option<Answer> {
    let Line {
        mut words,
        files,
        place,
    } = line;
    let mut answer = Answer::Done;
    for file in files {
        let place = place.min(words.len());
        if words.insert(place, file).is_err() {
            return Some(Answer::NoMemory);
        }
        let found = answer_words(rt, words.as_slice(), true)?;
        if place < words.len() {
            words.remove(place);
        }
        match (answer, found) {
            (_, Answer::Usage) => return Some(found),
            (Answer::Done, _) => answer = found,
            _ => {}
        }
    }
    Some(answer)
}

/// Performs the requests on the command line and returns the answer.
fn answer_line(rt: &HostRuntime, words: Vec<String>) -> Option<Answer> {
    if count_of_files(words.as_slice()) < 2 {
        return answer_words(rt, words.as_slice(), false);
    }
    match Line::of(rt.alloc(), words) {
        Ok(line) => answer_each(rt, line),
        Err(_) => Some(Answer::NoMemory),
    }
}

/// Rejects a call stack of the process that is too small, since some text or image would crash the program on it.
fn ask_for_stack(rt: &HostRuntime) -> Result<(), Answer> {
    let limit = stack_limit(rt);
    if is_enough_stack(limit) {
        return Ok(());
    }
    let (wanted, given) = (STACK / 1024, limit / 1024);
    let _ = eprintln!(rt;
        "cyclone: a stack of {wanted} KB is wanted, and {given} KB are allowed: ulimit -s {wanted} allows it"
    );
    Err(Answer::NoMemory)
}

/// Performs the request on the command line, if the stack is large enough. Returns the program's answer, or `None` if help or the version
/// was requested and printed.
pub fn serve(rt: &HostRuntime) -> Option<Answer> {
    match ask_for_stack(rt) {
        Ok(()) => serve_words(rt),
        Err(answer) => Some(answer),
    }
}

/// Performs the request on the command line in a stack frame of its own, so that the check for a call stack that is too
/// small runs without this frame.
#[inline(never)]
fn serve_words(rt: &HostRuntime) -> Option<Answer> {
    let answer = match read_words(rt) {
        Ok(words) => answer_line(rt, words)?,
        Err(answer) => answer,
    };
    if let Some(text) = explanation(&answer) {
        let _ = eprintln!(rt; "cyclone: {text}");
    }
    Some(answer)
}
