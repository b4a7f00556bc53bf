//! This file parses the command line into a request.
ghost use Rattle.std.specs.Prelude.{◌≡◌, ◌≤◌, Some, IfOk, IfSome, codes, map, string_bytes};
ghost use Rattle.std.specs.Str.Parse.{digits_value};
ghost use Rattle.clap.specs.Words.{app_of, first_value, found_of};
ghost use Rattle.cyc_cli.specs.inside.Request.{AreLimitsOf, IsCodeOf, IsNumberIfGiven, IsNumberOf, IsAskedOf, IsRequestOf, IsWithinBudget, AreCapsOf};
ghost use Rattle.cyc_cli.specs.inside.Request.{IsAutoOf, IsFlagOf, IsStoreOf, run_name};

use crate::codes::{code_written, list_of_codes};
use crate::commands::{command_named, program};
use crate::limits::GivenLimits;
use crate::number;
use clap::error::ErrorKind;
use clap::{ArgMatches, Command, Error};
use cyc_machine::constants::{MAX_CALLS, MAX_PAGES, MIN_CALLS, MIN_PAGES};
use cyc_words::Code;
use std::alloc::Global;

/// The heap store (allocator of regions and unique blocks) that a run uses.
#[derive(Clone, Copy)]
pub enum StoreKind {
    /// A heap store on a pool of pages, all of which are allocated at the start.
    Pages,
    /// A heap store on an array of machine words, which grows by a page when one more page is needed.
    Plain,
}

/// The request that the words of a command line make.
#[derive(Clone, Copy)]
pub enum Request<'a> {
    /// `check SOURCE`: reports the faults and warnings of the program in the file `source`, as JSON or as text.
    Check {
        source: &'a str,
        is_json: bool,
    },
    /// `compile SOURCE -o IMAGE`: compiles the program in the file `source` to the file `image`, which carries the limits or, if `auto` is
    /// true, the program's own bounds. If `places` names a file, the source positions from which the image's machine words originate are
    /// written to it. If `emit` names a file, the text that is compiled is written to it.
    Compile {
        source: &'a str,
        image: &'a str,
        limits: GivenLimits,
        auto: bool,
        places: Option<&'a str>,
        emit: Option<&'a str>,
        is_json: bool,
    },
    /// `run IMAGE`, or `exec SOURCE` if `is_source` is true: runs the image in the file `file`, or the image compiled from the program in
    /// `file`, over a store of the kind `store`. The limits on pages and calls are those of `limits` or, if one is missing there, the
    /// image's, but none is above `caps`; the run takes at most `budget` instructions. A report of the run is written to the file
    /// `report`, if one is named; if `peaks` is true, the report has the largest numbers of active calls and of used pages. If a file
    /// `places` is named, the command tells where in the program the run ended.
    Run {
        file: &'a str,
        is_source: bool,
        store: StoreKind,
        limits: GivenLimits,
        caps: GivenLimits,
        budget: u64,
        report: Option<&'a str>,
        peaks: bool,
        places: Option<&'a str>,
    },
    /// `disasm IMAGE`: lists the instructions of an image, but at most `most` instructions if `most` has a number. If a file `places` is
    /// named, the functions and lines of the program are listed beside the instructions.
    Disassemble {
        image: &'a str,
        most: Option<u32>,
        places: Option<&'a str>,
    },
    /// `explain CODE`: explains the faults with this code.
    Explain {
        code: Code,
    },
    /// `info IMAGE`: describes an image, and lists its functions by the file `places`, if one is named.
    Describe {
        image: &'a str,
        places: Option<&'a str>,
    },
    /// `bound SOURCE`: reports the bounds of what the program in the file `source` needs, for every input.
    Bound {
        source: &'a str,
    },
    /// `format SOURCE`: formats the program in the file `source`, and writes it to the file `output`, or prints it if no file is given. If
    /// `is_check` is true, the command only tells if the program is already formatted.
    Format {
        source: &'a str,
        output: Option<&'a str>,
        is_check: bool,
    },
    /// `pack TEXT`: prints the 32-bit words that encode a text.
    Pack {
        text: &'a str,
    },
}

/// The greatest instruction budget that a command line may give for a run.
pub const MOST_STEPS: u64 = 1_000_000_000_000;

/// Returns the words of the command line that are to be parsed. The function replaces help on the command `help` by the help of
/// `help` itself, since clap would take the word that requests help as a command's name.
fn words_read(words: &[String]) -> &[String] {
    match words {
        [_, name, asked] if name.as_str() == "help" && matches!(asked.as_str(), "-h" | "--help") =>
            { &words[..2] }
        _ => words,
    }
}

/// Returns the number that is written in the text of an option.
fn number_in<'a>(
    alloc: Global,
    command: &mut Command<'a>,
    option: &str,
    text: &str,
    low: u64,
    high: u64,
) -> Result<u64, Error>
    ensures range { IfOk result (λ n. (low ≤ n) × (n ≤ high)) }
    ensures value { IfOk result (λ n. n ≡ digits_value 10 text.now) }
{
    match number::within(text, low, high) {
        Some(number) => Ok(number),
        None => {
            let message = format!(in alloc;
                "--{option} takes a number from {low} to {high}, not {text:?}"
            )?;
            Err(command.error(ErrorKind::ValueValidation, message.as_str())?)
        }
    }
}

/// Returns the number given for an option, or the option's default.
fn number_of<'a>(
    alloc: Global,
    command: &mut Command<'a>,
    matches: &ArgMatches<'a>,
    option: &str,
    low: u64,
    high: u64,
) -> Result<u64, Error>
    ensures range { IfOk result (λ n. (low ≤ n) × (n ≤ high)) }
    ensures value { IfOk result (λ n. IfSome (first_value (found_of matches.now) option.now)
        (λ text. n ≡ digits_value 10 text)) }
{
    let text = matches.get_str(option).unwrap_or("");
    number_in(alloc, command, option, text, low, high)
}

/// Returns the number given for an option, if the option is present.
fn number_if_given<'a>(
    alloc: Global,
    command: &mut Command<'a>,
    matches: &ArgMatches<'a>,
    option: &str,
    low: u32,
    high: u32,
) -> Result<Option<u32>, Error>
    ensures range { IfOk result (λ given. IfSome given (λ n. (low ≤ n) × (n ≤ high))) }
    ensures value { IfOk result (λ given. IsNumberIfGiven (first_value (found_of matches.now) option.now) given) }
{
    match matches.get_str(option) {
        Some(text) => {
            let number = number_in(
                alloc,
                command,
                option,
                text,
                u64::from(low),
                u64::from(high),
            )?;
            Ok(Some(number as u32))
        }
        None => Ok(None),
    }
}

/// Returns a file or a text that the command line names. The command-line parser requires each file, so the name exists.
fn file_of<'a>(
    command: &mut Command<'a>,
    matches: &ArgMatches<'a>,
    id: &str,
) -> Result<&'a str, Error>
    ensures { IfOk result (λ path. first_value (found_of matches.now) id.now ≡ Some path.now) }
{
    match matches.get_str(id) {
        Some(path) => Ok(path),
        None => Err(command.error(ErrorKind::MissingRequiredArgument, "a file is missing")?),
    }
}

/// Returns true if an option without a value is given.
fn is_given<'a>(matches: &ArgMatches<'a>, option: &str) -> bool
    ensures { IsFlagOf (first_value (found_of matches.now) option.now) result }
{
    match matches.get_str(option) {
        Some("true") => true,
        _ => false,
    }
}

/// Returns the limits on pages and calls that the command line gives.
fn limits_of<'a>(
    alloc: Global,
    command: &mut Command<'a>,
    matches: &ArgMatches<'a>,
) -> Result<GivenLimits, Error>
    ensures { IfOk result (λ limits. AreLimitsOf (first_value (found_of matches.now)) limits) }
{
    let pages = number_if_given(alloc, command, matches, "pages", MIN_PAGES, MAX_PAGES)?;
    let calls = number_if_given(alloc, command, matches, "calls", MIN_CALLS, MAX_CALLS)?;
    Ok(GivenLimits { pages, calls })
}

/// Returns the caps (upper bounds) on the limits of pages and calls that the command line gives.
fn caps_of<'a>(
    alloc: Global,
    command: &mut Command<'a>,
    matches: &ArgMatches<'a>,
) -> Result<GivenLimits, Error>
    ensures { IfOk result (λ caps. AreCapsOf (first_value (found_of matches.now)) caps) }
{
    let pages = number_if_given(
        alloc,
        command,
        matches,
        "at-most-pages",
        MIN_PAGES,
        MAX_PAGES,
    )?;
    let calls = number_if_given(
        alloc,
        command,
        matches,
        "at-most-calls",
        MIN_CALLS,
        MAX_CALLS,
    )?;
    Ok(GivenLimits { pages, calls })
}

/// Returns true if the image should contain the limits computed from the program itself: in this case no limit may be given by number.
fn take_auto<'a>(
    command: &mut Command<'a>,
    matches: &ArgMatches<'a>,
    limits: GivenLimits,
) -> Result<bool, Error>
    ensures { IfOk result (IsAutoOf (first_value (found_of matches.now) (codes "limits")) limits) }
{
    match matches.get_str("limits") {
        None => Ok(false),
        Some("auto") if limits.pages.is_none() && limits.calls.is_none() => Ok(true),
        Some("auto") => {
            let message =
                "--limits auto takes both limits from the program: leave out --pages and --calls";
            Err(command.error(ErrorKind::ArgumentConflict, message)?)
        }
        Some(_) => Err(command.error(ErrorKind::ValueValidation, "--limits takes the word auto")?),
    }
}

fn compile_request<'a>(
    alloc: Global,
    command: &mut Command<'a>,
    matches: &ArgMatches<'a>,
) -> Result<Request<'a>, Error>
    ensures { IfOk result (IsRequestOf (codes "compile") (first_value (found_of matches.now))) }
{
    let source = file_of(command, matches, "source")?;
    let image = file_of(command, matches, "image")?;
    let limits = limits_of(alloc, command, matches)?;
    let auto = take_auto(command, matches, limits)?;
    Ok(Request::Compile {
        source,
        image,
        limits,
        auto,
        places: matches.get_str("places"),
        emit: matches.get_str("emit"),
        is_json: is_given(matches, "json"),
    })
}

/// Returns the instruction budget (the greatest number of instructions of a run) that the command line gives.
fn budget_of<'a>(
    alloc: Global,
    command: &mut Command<'a>,
    matches: &ArgMatches<'a>,
) -> Result<u64, Error>
    ensures value { IfOk result
        (λ budget. IsNumberOf (first_value (found_of matches.now)) (codes "steps") budget) }
    ensures range { IfOk result (λ budget. (1 ≤ budget) × (budget ≤ MOST_STEPS)) }
{
    number_of(alloc, command, matches, "steps", 1, MOST_STEPS)
}

/// Returns the kind of store of a run: the pool of pages, unless the command line names the other kind.
fn store_of<'a>(command: &mut Command<'a>, matches: &ArgMatches<'a>) -> Result<StoreKind, Error>
    ensures { IfOk result (IsStoreOf (first_value (found_of matches.now) (codes "store"))) }
{
    match matches.get_str("store") {
        None | Some("pages") => Ok(StoreKind::Pages),
        Some("plain") if is_given(matches, "peaks") => {
            let message = "--peaks counts the pages of the pool: leave out --store plain";
            Err(command.error(ErrorKind::ArgumentConflict, message)?)
        }
        Some("plain") => Ok(StoreKind::Plain),
        Some(_) => {
            let message = "--store takes the word plain or the word pages";
            Err(command.error(ErrorKind::ValueValidation, message)?)
        }
    }
}

fn run_request<'a>(
    alloc: Global,
    command: &mut Command<'a>,
    matches: &ArgMatches<'a>,
    is_source: bool,
) -> Result<Request<'a>, Error>
    ensures { IfOk result (IsRequestOf (run_name is_source) (first_value (found_of matches.now))) }
{
    let file = file_of(command, matches, "file")?;
    let store = store_of(command, matches)?;
    let limits = limits_of(alloc, command, matches)?;
    let caps = caps_of(alloc, command, matches)?;
    let budget = budget_of(alloc, command, matches)?;
    let report = matches.get_str("report");
    let peaks = is_given(matches, "peaks");
    let places = matches.get_str("places");
    if peaks && report.is_none() {
        let message = "--peaks wants --report FILE";
        return Err(command.error(ErrorKind::MissingRequiredArgument, message)?);
    }
    Ok(Request::Run {
        file,
        is_source,
        store,
        limits,
        caps,
        budget,
        report,
        peaks,
        places,
    })
}

/// Returns the fault code whose number the command line gives, if there is one.
fn code_given(matches: &ArgMatches<'_>) -> Option<Code>
    ensures { IfSome result (IsCodeOf (first_value (found_of matches.now) (codes "code"))) }
{
    match matches.get_str("code") {
        Some(text) => code_written(text),
        None => None,
    }
}

/// Returns the fault code whose number the command line gives; the error lists all codes.
fn code_of<'a>(
    alloc: Global,
    command: &mut Command<'a>,
    matches: &ArgMatches<'a>,
) -> Result<Code, Error>
    ensures { IfOk result (IsCodeOf (first_value (found_of matches.now) (codes "code"))) }
{
    match code_given(matches) {
        Some(code) => Ok(code),
        None => {
            let list = list_of_codes(alloc)?;
            Err(command.error(ErrorKind::ValueValidation, list.as_str())?)
        }
    }
}

/// Returns the request that the words after the name of a command make.
fn request_of<'a>(
    alloc: Global,
    command: &mut Command<'a>,
    name: &str,
    matches: &ArgMatches<'a>,
) -> Result<Request<'a>, Error>
    ensures { IfOk result (IsRequestOf name.now (first_value (found_of matches.now))) }
{
    match name {
        "check" => {
            let source = file_of(command, matches, "source")?;
            Ok(Request::Check {
                source,
                is_json: is_given(matches, "json"),
            })
        }
        "compile" => compile_request(alloc, command, matches),
        "run" => run_request(alloc, command, matches, false),
        "exec" => run_request(alloc, command, matches, true),
        "disasm" => {
            let image = file_of(command, matches, "image")?;
            let most = number_if_given(alloc, command, matches, "at-most", 1, u32::MAX)?;
            Ok(Request::Disassemble {
                image,
                most,
                places: matches.get_str("places"),
            })
        }
        "explain" => {
            let code = code_of(alloc, command, matches)?;
            Ok(Request::Explain { code })
        }
        "info" => {
            let image = file_of(command, matches, "image")?;
            Ok(Request::Describe {
                image,
                places: matches.get_str("places"),
            })
        }
        "bound" => {
            let source = file_of(command, matches, "source")?;
            Ok(Request::Bound { source })
        }
        "format" => {
            let source = file_of(command, matches, "source")?;
            Ok(Request::Format {
                source,
                output: matches.get_str("output"),
                is_check: is_given(matches, "check"),
            })
        }
        "pack" => {
            let text = file_of(command, matches, "text")?;
            Ok(Request::Pack { text })
        }
        // The command-line parser accepts only the commands that the cases before this one handle.
        _ => Err(command.error(ErrorKind::InvalidSubcommand, "there is no such command")?),
    }
}

/// Returns the request that the words make to the program with these commands and options.
fn request_in<'a>(
    alloc: Global,
    program: &mut Command<'a>,
    words: &'a [String],
) -> Result<Request<'a>, Error>
    ensures asked { IfOk result (IsAskedOf (app_of program.old) (map string_bytes words.now)) }
    ensures budget { IfOk result IsWithinBudget }
{
    let matches = program.try_get_matches_from_mut(words)?;
    let Some((name, matches)) = matches.subcommand() else {
        return Err(program.error(ErrorKind::MissingSubcommand, "a command is missing")?);
    };
    let mut command = command_named(alloc, name)?;
    request_of(alloc, &mut command, name, matches)
}

/// Returns the request of a command line, whose first word is the program's name. The error states a mistake in the words of the
/// command line, or is the text of the requested help.
pub fn read_request<'a>(alloc: Global, words: &'a [String]) -> Result<Request<'a>, Error>
    ensures { IfOk result IsWithinBudget }
{
    let mut program = program(alloc)?;
    request_in(alloc, &mut program, words_read(words))
}
