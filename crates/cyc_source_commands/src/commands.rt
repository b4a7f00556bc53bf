//! The commands that take a source file; they use files and the standard streams.
use crate::bounds::{Needs, Remedies, words_by};
use crate::formatting::format_text;
use crate::programs::read_program;
use crate::telling::{Source, print_of, report_refusal, say_of, tell_refusal, tell_warnings};
use crate::work::{check, compile, compile_placed, own_limits, widen_heap};
use cyc_cli::{FileName, GivenLimits};
use cyc_compiler::{Placed, bounds_with_tokens};
use cyc_format::format;
use cyc_host::{
    Answer, Output, Screen, is_one_file, name_of_file, read_text, will_be_one_file, write_file,
};
use cyc_places::PlacesText;
use cyc_warnings::find_warnings;
use cyc_words::Fault;
use std::io;
use std::io::Write;
use std::mem::ManuallyDrop;

/// Runs the command `check SOURCE`, including the library declarations that the program needs.
pub fn check_file(
    rt: &HostRuntime,
    source: &str,
    libraries: &[&str],
    is_json: bool,
) -> Result<Answer, Answer> {
    let program = read_program(rt, source, libraries, is_json)?;
    let source = Source {
        name: source,
        text: &program.text,
        parts: &program.parts,
        is_json,
    };
    widen_heap(rt.alloc());
    match check(rt.alloc(), source.text) {
        Ok(phases) => {
            let found = find_warnings(rt.alloc(), &phases.tree, source.text);
            tell_warnings(rt, source, found.as_slice())?;
            Ok(Answer::Done)
        }
        Err(fault) => Err(tell_refusal(rt, source, fault)),
    }
}

/// Rejects an image file that is the same as the source file, because the image would replace the source.
fn refuse_one_file(rt: &HostRuntime, source: &str, image: &str) -> Result<(), Answer> {
    if !is_one_file(rt, source, image) {
        return Ok(());
    }
    let _ = eprintln!(rt;
        "cyclone: {} is the file of the program itself, and its image would take its place: give -o another name",
        FileName(image.as_bytes())
    );
    Err(Answer::Usage)
}

/// An output file that a compilation writes in addition to the image: its path, its description for the user, and the option that names it.
#[derive(Clone, Copy)]
struct Beside<'a> {
    what: &'static str,
    option: &'static str,
    path: &'a str,
}

/// Rejects an output file if it is the same file as the source file, the image file or the file of source
/// positions, because it would replace that file.
fn refuse_beside(
    rt: &HostRuntime,
    beside: Beside<'_>,
    source: &str,
    image: &str,
    places: Option<&str>,
) -> Result<(), Answer> {
    let Beside { what, option, path } = beside;
    let is_places = match places {
        Some(places) => places == path || will_be_one_file(rt, places, path),
        None => false,
    };
    let of = if path == image || will_be_one_file(rt, image, path) {
        "image"
    } else if is_places {
        "places"
    } else if is_one_file(rt, source, path) {
        "program"
    } else {
        return Ok(());
    };
    let _ = eprintln!(rt;
        "cyclone: {} is the file of the {of} itself, and the {what} would take its place: give {option} another name",
        FileName(path.as_bytes())
    );
    Err(Answer::Usage)
}

/// The output files of a compilation.
#[derive(Clone, Copy)]
pub struct Outputs<'a> {
    pub image: &'a str,
    /// The file that receives the source positions of the image's code, if one is named.
    pub places: Option<&'a str>,
    /// The file that receives the complete text that is compiled, if one is named.
    pub emit: Option<&'a str>,
}

/// Rejects a file that is named in two roles: as the source file or a library, and as an output file.
fn refuse_files(rt: &HostRuntime, source: &str, outputs: Outputs<'_>) -> Result<(), Answer> {
    let Outputs {
        image,
        places,
        emit,
    } = outputs;
    refuse_one_file(rt, source, image)?;
    if let Some(path) = places {
        let beside = Beside {
            what: "places",
            option: "--places",
            path,
        };
        refuse_beside(rt, beside, source, image, None)?;
    }
    if let Some(path) = emit {
        let beside = Beside {
            what: "text",
            option: "--emit",
            path,
        };
        refuse_beside(rt, beside, source, image, places)?;
    }
    Ok(())
}

/// Reports what a program that lacks a bound needs: calls, pages and steps.
fn tell_needs(rt: &HostRuntime, source: Source<'_>) -> Answer {
    match bounds_with_tokens(rt.alloc(), source.text) {
        Ok(bounded) => {
            let needs = Needs {
                name: source.name,
                text: source.text,
                bounded: &bounded,
                words: None,
            };
            let _ = eprintln!(rt;
                "cyclone: --limits auto wants a bound on calls and one on pages, of which no image may carry more than 4096 and 65536:"
            );
            say_of(rt, source, needs);
            Answer::Usage
        }
        Err(fault) => tell_refusal(rt, source, fault),
    }
}

/// Returns the run limits that follow from a program's own bounds, or reports why the program has no bounds.
fn limits_or_needs(rt: &HostRuntime, source: Source<'_>) -> Result<GivenLimits, Answer> {
    match own_limits(rt.alloc(), source.text) {
        Ok(Some(limits)) => Ok(limits),
        Ok(None) => Err(tell_needs(rt, source)),
        Err(fault) => Err(tell_refusal(rt, source, fault)),
    }
}

/// Runs the command `compile SOURCE -o IMAGE`, including the library declarations that the program needs. The output files are opened
/// only if there is an image to write.
pub fn compile_file(
    rt: &HostRuntime,
    source: &str,
    libraries: &[&str],
    outputs: Outputs<'_>,
    limits: GivenLimits,
    auto: bool,
    is_json: bool,
) -> Result<Answer, Answer> {
    refuse_files(rt, name_of_file(rt, source), outputs)?;
    for library in libraries {
        refuse_files(rt, library, outputs)?;
    }
    let program = read_program(rt, source, libraries, is_json)?;
    let source = Source {
        name: source,
        text: &program.text,
        parts: &program.parts,
        is_json,
    };
    widen_heap(rt.alloc());
    let limits = if auto {
        limits_or_needs(rt, source)?
    } else {
        limits
    };
    compile_text(rt, source, outputs, limits)?;
    match outputs.emit {
        Some(path) => Ok(write_file(rt, path, source.text)),
        None => Ok(Answer::Done),
    }
}

/// Writes the image of a program, and the file of source positions if it is requested.
fn compile_text(
    rt: &HostRuntime,
    source: Source<'_>,
    outputs: Outputs<'_>,
    limits: GivenLimits,
) -> Result<(), Answer> {
    if let Some(path) = outputs.places {
        return compile_with_file(rt, source, outputs.image, limits, path);
    }
    match compile(rt.alloc(), source.text, limits) {
        Ok(made) => {
            // The process exits after the command, so the results are not freed, as in `check`.
            let made = ManuallyDrop::new(made);
            tell_warnings(rt, source, made.warnings.as_slice())?;
            write_whole(rt, outputs.image, made.image.as_slice())
        }
        Err(fault) => Err(tell_refusal(rt, source, fault)),
    }
}

/// Writes all bytes to a file. The error is the answer that reports the failed write.
fn write_whole(rt: &HostRuntime, path: &str, bytes: &[u8]) -> Result<(), Answer> {
    match write_file(rt, path, bytes) {
        Answer::Done => Ok(()),
        answer => Err(answer),
    }
}

/// A program's image, together with the text of its file of source positions.
#[derive(Drop)]
pub struct Made {
    compiled: ManuallyDrop<Placed>,
    places: String,
}

impl Made {
    /// The bytes of the image.
    pub fn image(&self) -> &[u8] {
        self.compiled.compilation.image.as_slice()
    }

    /// Returns the bytes of the file of source positions, which maps the image's code to positions in the program.
    pub fn places(&self) -> &[u8] {
        self.places.as_bytes()
    }
}

/// Compiles a program together with its source positions, and reports the findings (faults or warnings).
fn make_placed(rt: &HostRuntime, source: Source<'_>, limits: GivenLimits) -> Result<Made, Answer> {
    match compile_placed(rt.alloc(), source.text, limits) {
        Ok(compiled) => {
            let compiled = ManuallyDrop::new(compiled);
            let made = &compiled.compilation;
            tell_warnings(rt, source, made.warnings.as_slice())?;
            let places = PlacesText {
                name: source.name,
                parts: source.parts,
                text: source.text,
                tokens: made.tokens.as_slice(),
                image: made.image.as_slice(),
                places: &compiled.places,
            };
            match format!(in rt.alloc(); "{places}") {
                Ok(places) => Ok(Made { compiled, places }),
                Err(_) => Err(Answer::NoMemory),
            }
        }
        Err(fault) => Err(tell_refusal(rt, source, fault)),
    }
}

/// Compiles a program with the option `--places FILE`; the file of source positions is written after the image.
fn compile_with_file(
    rt: &HostRuntime,
    source: Source<'_>,
    image: &str,
    limits: GivenLimits,
    path: &str,
) -> Result<(), Answer> {
    let made = make_placed(rt, source, limits)?;
    write_whole(rt, image, made.image())?;
    write_whole(rt, path, made.places())
}

/// Performs the first half of the command `exec SOURCE`: compiles the program to an image, which will run with the given limits.
pub fn make_file(
    rt: &HostRuntime,
    source: &str,
    libraries: &[&str],
    limits: GivenLimits,
) -> Result<Made, Answer> {
    let program = read_program(rt, source, libraries, false)?;
    let source = Source {
        name: source,
        text: &program.text,
        parts: &program.parts,
        is_json: false,
    };
    widen_heap(rt.alloc());
    make_placed(rt, source, limits)
}

/// Prints the name of a file, above the text about the file.
pub fn print_name(rt: &HostRuntime, source: &str) -> Result<(), Answer> {
    let mut output = Output::new(rt);
    let printed = write!(output, "{}:\n", FileName(source.as_bytes()));
    match printed.and_then(|_| output.flush()) {
        Ok(()) => Ok(()),
        Err(_) => Err(Answer::WriteFault),
    }
}

/// Runs the command `bound SOURCE`, including the library declarations that the program needs.
pub fn bound_file(rt: &HostRuntime, source: &str, libraries: &[&str]) -> Result<Answer, Answer> {
    let program = read_program(rt, source, libraries, false)?;
    let source = Source {
        name: source,
        text: &program.text,
        parts: &program.parts,
        is_json: false,
    };
    widen_heap(rt.alloc());
    match bounds_with_tokens(rt.alloc(), source.text) {
        Ok(bounded) => {
            let needs = Needs {
                name: source.name,
                text: source.text,
                bounded: &bounded,
                words: words_by(rt.alloc(), source.text, &bounded.bounds),
            };
            let remedies = Remedies(&needs);
            if remedies.has_any() {
                say_of(rt, source, remedies);
            }
            match print_of(rt, source, needs) {
                Ok(()) => Ok(Answer::Done),
                Err(_) => Err(Answer::WriteFault),
            }
        }
        Err(fault) => Err(report_refusal(rt, source, fault)),
    }
}

/// Formats a program and prints the result.
fn print_formatted(rt: &HostRuntime, text: &[u8]) -> Result<Answer, Fault> {
    let Ok(mut screen) = Screen::new(rt.alloc(), Output::new(rt), false) else {
        return Ok(Answer::NoMemory);
    };
    format_text(rt.alloc(), text, &mut screen)
}

/// Formats a program and writes the result to a file, which may be the source file.
fn write_formatted(rt: &HostRuntime, text: &[u8], path: &str) -> Result<Answer, Fault> {
    let laid = format(rt.alloc(), text)?;
    Ok(write_file(rt, path, laid.as_slice()))
}

/// Reports if a program is formatted in the standard style.
fn compare_formatted(rt: &HostRuntime, source: &str, text: &[u8]) -> Result<Answer, Fault> {
    let laid = format(rt.alloc(), text)?;
    if laid.as_slice() == text {
        return Ok(Answer::Done);
    }
    let name = FileName(source.as_bytes());
    let _ = eprintln!(rt;
        "cyclone: {name} is not in the one style: cyclone format {name} -o {name} writes it so"
    );
    Ok(Answer::Unformatted)
}

/// Rejects an output file, because `--check` writes no file.
fn refuse_output(rt: &HostRuntime, output: Option<&str>) -> Result<(), Answer> {
    if output.is_none() {
        return Ok(());
    }
    let _ = rt.eprintln("cyclone: --check writes nothing: leave out -o");
    Err(Answer::Usage)
}

/// Runs the command `format SOURCE`. With `is_check`, the command only reports if the file is formatted.
pub fn format_file(
    rt: &HostRuntime,
    source: &str,
    output: Option<&str>,
    is_check: bool,
) -> Result<Answer, Answer> {
    if is_check {
        refuse_output(rt, output)?;
    }
    let text = read_text(rt, source)?;
    let text = text.as_slice();
    let formatted = match output {
        Some(path) => write_formatted(rt, text, path),
        None if is_check => compare_formatted(rt, source, text),
        None => print_formatted(rt, text),
    };
    match formatted {
        Ok(answer) => Ok(answer),
        Err(fault) => {
            let source = Source {
                name: source,
                text,
                parts: &[],
                is_json: false,
            };
            Err(report_refusal(rt, source, fault))
        }
    }
}
