//! Reports the findings (faults or warnings) about a program: as messages to the user on standard error, or as JSON
//! objects on standard output.
ghost use Rattle.std.specs.Prelude.{◌≡◌, ◌⊎◌};
ghost use Rattle.cyc_host.specs.inside.Answer.{answer_of_fault};
ghost use Rattle.cyc_host.specs.declared.answer.Answer.TheVariants.{WriteFault};

use crate::homes::{object_by_homes, words_by_homes};
use cyc_host::{Answer, Output, say};
use cyc_messages::{
    Message, Refusal, Warnings, line_of_refusal, line_of_warning, refusal_of, refusals_after,
};
use cyc_places::Part;
use cyc_warnings::{Found, MOST_WARNINGS};
use cyc_words::Fault;
use std::alloc::AllocError;
use std::fmt::Display;
use std::io;
use std::io::Write;

/// A source file, and the way in which findings (faults or warnings) about it are reported.
#[derive(Clone, Copy)]
pub(crate) struct Source<'a> {
    pub(crate) name: &'a str,
    pub(crate) text: &'a [u8],
    /// The stretches of lines of the joined text that come from other files.
    pub(crate) parts: &'a [Part<'a>],
    /// If true, findings (faults or warnings) are printed as JSON objects on standard output; if false, as messages to the
    /// user on standard error.
    pub(crate) is_json: bool,
}

/// Returns a message about a source file, in which each source position names the file that contains it.
fn words_of<D: Display + Drop>(
    rt: &HostRuntime,
    source: Source<'_>,
    words: D,
) -> Result<String, AllocError> {
    let said = format!(in rt.alloc(); "{words}")?;
    words_by_homes(rt.alloc(), said.as_str(), source.name, source.parts)
}

/// Writes a message about a source file to the user. If memory runs out, no message is written.
pub(crate) fn say_of<D: Display + Drop>(rt: &HostRuntime, source: Source<'_>, words: D) {
    if source.parts.is_empty() {
        say(rt, words);
    } else if let Ok(said) = words_of(rt, source, words) {
        say(rt, said);
    }
}

/// Prints a message about a source file on standard output.
pub(crate) fn print_of<D: Display + Drop>(
    rt: &HostRuntime,
    source: Source<'_>,
    words: D,
) -> io::Result<()> {
    let mut output = Output::new(rt);
    if source.parts.is_empty() {
        write!(output, "{words}")?;
    } else {
        output.write_all(words_of(rt, source, words)?.as_bytes())?;
    }
    output.flush()
}

/// Prints a JSON object about a source file; each source position names the file that contains it.
fn print_object(
    rt: &HostRuntime,
    output: &mut Output<'_>,
    source: Source<'_>,
    object: String,
) -> io::Result<()> {
    if source.parts.is_empty() {
        return output.write_all(object.as_bytes());
    }
    let object = object_by_homes(rt.alloc(), object.as_str(), source.name, source.parts)?;
    output.write_all(object.as_bytes())
}

/// Reports to the user the faults after a program's first fault, as if the first one were repaired.
fn report_after(rt: &HostRuntime, source: Source<'_>, first: Fault) {
    let Source { name, text, .. } = source;
    let refusals = refusals_after(rt.alloc(), text, first);
    if !refusals.is_empty() {
        let _ = rt.eprintln("further, if that is mended:");
    }
    for refusal in &refusals {
        let message = Message {
            name,
            text,
            refusal,
        };
        say_of(rt, source, message);
    }
}

/// Returns the answer for a rejected program, and prints the message for the user on standard error.
pub(crate) fn report_refusal(rt: &HostRuntime, source: Source<'_>, fault: Fault) -> Answer
    // The text of the message does not affect the answer.
    ensures { result ≡ answer_of_fault fault }
{
    let answer = Answer::from(fault);
    if let Answer::Refused(fault) = answer {
        let Source { name, text, .. } = source;
        let refusal = refusal_of(rt.alloc(), text, fault);
        let message = Message {
            name,
            text,
            refusal: &refusal,
        };
        say_of(rt, source, message);
        report_after(rt, source, fault);
    }
    answer
}

/// Reports to the user the warnings about an accepted program.
fn report_warnings(rt: &HostRuntime, source: Source<'_>, found: &[Found]) {
    let Source { name, text, .. } = source;
    let warnings = Warnings { name, text, found };
    if source.parts.is_empty() {
        let _ = rt.eprint(warnings);
    } else if let Ok(said) = words_of(rt, source, warnings) {
        let _ = rt.eprint(said);
    }
}

/// Prints a fault as a JSON object on a line.
fn print_refusal(
    rt: &HostRuntime,
    output: &mut Output<'_>,
    source: Source<'_>,
    refusal: &Refusal,
    is_first: bool,
) -> io::Result<()> {
    let Source { name, text, .. } = source;
    let message = Message {
        name,
        text,
        refusal,
    };
    let line = line_of_refusal(rt.alloc(), &message, is_first)?;
    print_object(rt, output, source, line)
}

/// Prints all faults of a program as JSON objects; the first fault comes first.
fn print_all(rt: &HostRuntime, source: Source<'_>, first: Fault) -> io::Result<()> {
    let mut output = Output::new(rt);
    let refusal = refusal_of(rt.alloc(), source.text, first);
    print_refusal(rt, &mut output, source, &refusal, true)?;
    let refusals = refusals_after(rt.alloc(), source.text, first);
    for refusal in &refusals {
        print_refusal(rt, &mut output, source, refusal, false)?;
    }
    output.flush()
}

/// Returns the answer after JSON objects were printed. An object may be missing only if memory ran out.
fn answer_printed(answer: Answer, printed: io::Result<()>) -> Answer
    ensures { (result ≡ answer) ⊎ (result ≡ WriteFault) }
{
    match printed {
        Err(error) if error.kind() != io::ErrorKind::OutOfMemory => Answer::WriteFault,
        _ => answer,
    }
}

/// Returns the answer for a rejected program, and prints its faults as JSON objects on standard output.
fn print_refusals(rt: &HostRuntime, source: Source<'_>, fault: Fault) -> Answer
    ensures { (result ≡ answer_of_fault fault) ⊎ (result ≡ WriteFault) }
{
    let answer = Answer::from(fault);
    match answer {
        Answer::Refused(fault) => answer_printed(answer, print_all(rt, source, fault)),
        _ => answer,
    }
}

/// Prints the warnings about an accepted program as JSON objects, at most as many as are shown to a user.
fn print_warnings(rt: &HostRuntime, source: Source<'_>, found: &[Found]) -> io::Result<()> {
    let mut output = Output::new(rt);
    for found in found.iter().take(MOST_WARNINGS) {
        let line = line_of_warning(rt.alloc(), source.name, source.text, found)?;
        print_object(rt, &mut output, source, line)?;
    }
    output.flush()
}

/// Reports why a program is rejected, and returns the answer for the fault.
pub(crate) fn tell_refusal(rt: &HostRuntime, source: Source<'_>, fault: Fault) -> Answer
    ensures { (result ≡ answer_of_fault fault) ⊎ (result ≡ WriteFault) }
{
    if source.is_json {
        print_refusals(rt, source, fault)
    } else {
        report_refusal(rt, source, fault)
    }
}

/// Prints one reason for a rejection as a JSON object.
fn print_one(rt: &HostRuntime, source: Source<'_>, refusal: &Refusal) -> io::Result<()> {
    let mut output = Output::new(rt);
    print_refusal(rt, &mut output, source, refusal, true)?;
    output.flush()
}

/// Reports a rejection with the given message, and returns the answer for the fault.
pub(crate) fn tell_words(
    rt: &HostRuntime,
    source: Source<'_>,
    fault: Fault,
    words: Vec<u8>,
) -> Answer {
    let Source { name, text, .. } = source;
    let refusal = Refusal::explained(fault, Some(words), None);
    let answer = Answer::Refused(fault);
    if source.is_json {
        return answer_printed(answer, print_one(rt, source, &refusal));
    }
    let message = Message {
        name,
        text,
        refusal: &refusal,
    };
    say(rt, message);
    answer
}

/// Reports the warnings about an accepted program. Returns an error if the warnings could not be written.
pub(crate) fn tell_warnings(
    rt: &HostRuntime,
    source: Source<'_>,
    found: &[Found],
) -> Result<(), Answer> {
    if !source.is_json {
        report_warnings(rt, source, found);
        return Ok(());
    }
    match answer_printed(Answer::Done, print_warnings(rt, source, found)) {
        Answer::Done => Ok(()),
        answer => Err(answer),
    }
}
