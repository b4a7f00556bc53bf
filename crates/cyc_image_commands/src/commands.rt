//! The commands that take an image; they read and write files and the standard streams.
use crate::annotated::Annotated;
use crate::report::RunReport;
use crate::whereabouts::Whereabouts;
use crate::work::{
    Manner, describe_image, limits_of_run, list_annotated, list_image, list_part, run_image,
};
use cyc_cli::{FileName, GivenLimits};
use cyc_emulator::{Report, follow};
use cyc_host::{
    Answer, Input, Keyboard, Output, Screen, ending, name_of_file, read_image, read_places,
    will_be_one_file, write_file,
};
use cyc_machine::Limits;
use cyc_places::{Functions, Table, Unread, sum_of, table_in};
use std::io;
use std::io::{IsTerminal, Write};

/// Returns the contents of an image's file of source positions. A checksum in the file must show that the file was made for this image.
fn read_table(rt: &HostRuntime, path: &str, image: &[u8]) -> Result<Table, Answer> {
    let file = read_places(rt, path)?;
    match table_in(rt.alloc(), file.as_slice()) {
        Ok(table) if table.sum == sum_of(image) => Ok(table),
        Err(Unread::Memory) => Err(Answer::NoMemory),
        Ok(_) | Err(Unread::Malformed) => {
            let _ = eprintln!(rt;
                "cyclone: {} is not this image's file of places: write it anew by cyclone compile",
                FileName(path.as_bytes())
            );
            Err(Answer::ReadFault)
        }
    }
}

/// Reports the source position at which a run of this image stopped, if the run stopped before the program ended. The run is replayed if
/// its input was recorded.
fn report_place(rt: &HostRuntime, table: &Table, image: &[u8], input: Option<&[u8]>, run: Ran) {
    match run.answer {
        Answer::Uncaught(_, _) | Answer::Full | Answer::Trapped(_) | Answer::Spent => {}
        _ => return,
    }
    let Some(input) = input else {
        let _ = rt.eprintln("cyclone: what the run read is too much to follow it once more");
        return;
    };
    let followed = follow(
        rt.alloc(),
        image,
        table.stretches.as_slice(),
        run.limits,
        run.report.count,
        input,
    );
    if let Ok(Some(trail)) = followed {
        let _ = rt.eprint(Whereabouts {
            table,
            answer: run.answer,
            report: run.report,
            trail: &trail,
        });
    }
}

/// A run that has stopped, with its limits, its answer and its report of the resources used.
#[derive(Clone, Copy)]
struct Ran {
    limits: Limits,
    answer: Answer,
    report: Report,
}

/// The limits, the instruction budget and the options of a run.
#[derive(Clone, Copy)]
pub struct Allowance {
    pub limits: GivenLimits,
    pub caps: GivenLimits,
    pub budget: u64,
    pub manner: Manner,
}

/// Runs an image on the standard streams, and tells the user why the run stopped before the program ended. Returns the answer to the
/// run command and the report. If source positions are known, the message names the position where the run stopped.
fn run_on_streams(
    rt: &HostRuntime,
    image: &[u8],
    allowed: Allowance,
    table: Option<&Table>,
) -> Result<(Answer, Option<Report>), Answer> {
    let limits = limits_of_run(rt.alloc(), image, allowed.limits, allowed.caps)?;
    let by_lines = rt.stdout().is_terminal();
    let Ok(mut screen) = Screen::new(rt.alloc(), Output::new(rt), by_lines) else {
        return Err(Answer::NoMemory);
    };
    let input = Input::new(rt);
    let may_wait = input.may_wait();
    let Ok(mut keyboard) = Keyboard::new(rt.alloc(), input, may_wait) else {
        return Err(Answer::NoMemory);
    };
    if table.is_some() {
        keyboard.keep(rt.alloc());
    }
    let (answer, report) = run_image(
        rt.alloc(),
        image,
        limits,
        allowed.budget,
        allowed.manner,
        &mut keyboard,
        &mut screen,
    );
    // On a terminal, the message that tells how the run ended begins on a line of its own.
    if screen.is_within_line() && rt.stderr().is_terminal() {
        let _ = rt.eprintln("");
    }
    if let (Some(table), Some(report)) = (table, report) {
        let run = Ran {
            limits,
            answer,
            report,
        };
        report_place(rt, table, image, keyboard.kept(), run);
    }
    if let Some(ending) = ending(&answer, report, limits, allowed.budget) {
        let _ = eprintln!(rt; "cyclone: {ending}");
    }
    Ok((answer, report))
}

/// The number of bytes at the beginning of a file that are examined to find out if the file is text.
const MOST_LOOKED_AT: usize = 64;

/// Returns true if a file begins with text characters, as an image never does.
fn begins_like_text(file: &[u8]) -> bool {
    let first = file.get(..MOST_LOOKED_AT).unwrap_or(file);
    let mut is_text = !first.is_empty();
    for byte in first {
        is_text = is_text && matches!(byte, b'\t' | b'\n' | b'\r' | b' '..=b'~' | 0x80..=0xff);
    }
    is_text
}

/// Runs the image in a file; the user may also name a file of source positions.
fn run_named(
    rt: &HostRuntime,
    image: &str,
    allowed: Allowance,
    places: Option<&str>,
) -> Result<(Answer, Option<Report>), Answer> {
    let bytes = read_image(rt, image)?;
    let bytes = bytes.as_slice();
    let table = match places {
        Some(path) => Some(read_table(rt, path, bytes)?),
        None => None,
    };
    let outcome = run_on_streams(rt, bytes, allowed, table.as_ref());
    if let Err(Answer::BadImage(_)) = outcome {
        if begins_like_text(bytes) {
            let name = FileName(image.as_bytes());
            let _ = eprintln!(rt;
                "cyclone: {name} begins like a text and not like an image: cyclone exec {name} compiles and runs it"
            );
        }
    }
    outcome
}

/// Runs an image in memory, with the bytes of its file of source positions.
pub fn run_made(
    rt: &HostRuntime,
    image: &[u8],
    places: &[u8],
    allowed: Allowance,
) -> Result<(Answer, Option<Report>), Answer> {
    match table_in(rt.alloc(), places) {
        Ok(table) => run_on_streams(rt, image, allowed, Some(&table)),
        Err(_) => Err(Answer::NoMemory),
    }
}

/// Writes the report of a run to the report file. If the report file is written without a failure, the answer to the
/// command does not change.
fn write_report(
    rt: &HostRuntime,
    path: &str,
    answer: Answer,
    report: Option<Report>,
) -> Result<Answer, Answer> {
    let Ok(text) = (RunReport { answer, report }).text(rt.alloc()) else {
        return Err(Answer::NoMemory);
    };
    match write_file(rt, path, text.as_bytes()) {
        Answer::Done => Ok(answer),
        fault => Err(fault),
    }
}

/// Writes the report about the outcome of a run to the report file, if the user names one. If the report file is written without a
/// failure, the answer to the command does not change.
pub fn write_outcome(
    rt: &HostRuntime,
    report: Option<&str>,
    outcome: Result<(Answer, Option<Report>), Answer>,
) -> Result<Answer, Answer> {
    let (answer, figures) = match outcome {
        Ok(ended) => ended,
        Err(answer) => (answer, None),
    };
    match report {
        Some(path) => write_report(rt, path, answer, figures),
        None => Ok(answer),
    }
}

/// Rejects a report file that is the same as a file that the run reads, because writing the report would
/// replace it. `of` describes the file that is read.
pub fn refuse_report(rt: &HostRuntime, report: &str, read: &str, of: &str) -> Result<(), Answer> {
    if !will_be_one_file(rt, name_of_file(rt, read), report) {
        return Ok(());
    }
    let _ = eprintln!(rt;
        "cyclone: {} is the file of the {of} itself, and the report would take its place: give --report another name",
        FileName(report.as_bytes())
    );
    Err(Answer::Usage)
}

/// Rejects a report file that is the same as the image's file or the file of source positions.
fn refuse_reports(
    rt: &HostRuntime,
    report: &str,
    image: &str,
    places: Option<&str>,
) -> Result<(), Answer> {
    refuse_report(rt, report, image, "image")?;
    if let Some(path) = places {
        refuse_report(rt, report, path, "places")?;
    }
    refuse_report(rt, report, "/dev/stdin", "input")
}

/// Runs the command `run IMAGE` on the standard input. If the user names a report file, it is written however the run ends, even if no
/// run took place.
pub fn run_file(
    rt: &HostRuntime,
    image: &str,
    allowed: Allowance,
    report: Option<&str>,
    places: Option<&str>,
) -> Result<Answer, Answer> {
    if let Some(path) = report {
        refuse_reports(rt, path, image, places)?;
    }
    write_outcome(rt, report, run_named(rt, image, allowed, places))
}

/// Lists an image, with the functions and source lines from its file of source positions.
fn list_placed(
    rt: &HostRuntime,
    image: &[u8],
    most: Option<u32>,
    table: &Table,
    screen: Screen<Output<'_>>,
) -> Result<Answer, Answer> {
    match Annotated::new(rt, screen, table, most.unwrap_or(u32::MAX)) {
        Ok(listing) => Ok(list_annotated(rt.alloc(), image, listing)),
        Err(_) => Err(Answer::NoMemory),
    }
}

/// Runs the command `disasm IMAGE`. If a number is given, at most that number of lines is printed. If a file of source positions, made for
/// this image, is given, the functions and source lines of the program appear beside the instructions.
pub fn list_file(
    rt: &HostRuntime,
    image: &str,
    most: Option<u32>,
    places: Option<&str>,
) -> Result<Answer, Answer> {
    let image = read_image(rt, image)?;
    let Ok(mut screen) = Screen::new(rt.alloc(), Output::new(rt), false) else {
        return Err(Answer::NoMemory);
    };
    if let Some(path) = places {
        let table = read_table(rt, path, image.as_slice())?;
        return list_placed(rt, image.as_slice(), most, &table, screen);
    }
    Ok(match most {
        Some(most) => list_part(rt.alloc(), image.as_slice(), most, screen),
        None => list_image(rt.alloc(), image.as_slice(), &mut screen),
    })
}

/// Prints the functions of an image.
fn print_functions(rt: &HostRuntime, table: &Table) -> io::Result<()> {
    let mut output = Output::new(rt);
    write!(output, "{}", Functions(table))?;
    output.flush()
}

/// Runs the command `info IMAGE`. If a file of source positions is given, which must have been made for the image, the description is
/// followed by the program's functions.
pub fn describe_file(
    rt: &HostRuntime,
    image: &str,
    places: Option<&str>,
) -> Result<Answer, Answer> {
    let image = read_image(rt, image)?;
    let table = match places {
        Some(path) => Some(read_table(rt, path, image.as_slice())?),
        None => None,
    };
    let Ok(mut screen) = Screen::new(rt.alloc(), Output::new(rt), false) else {
        return Err(Answer::NoMemory);
    };
    let answer = describe_image(rt.alloc(), image.as_slice(), &mut screen);
    if let (Some(table), Answer::Done) = (&table, answer) {
        return match print_functions(rt, table) {
            Ok(()) => Ok(answer),
            Err(_) => Err(Answer::WriteFault),
        };
    }
    Ok(answer)
}
