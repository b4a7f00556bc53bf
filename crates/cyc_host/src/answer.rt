//! This file defines the outcome (answer) of a command of the program: its exit status, and its last line on standard error.
ghost use Rattle.std.specs.Prelude.{◌≡◌, Some};
ghost use Rattle.cyc_host.specs.inside.Answer.{last_line, status_of, cause_words, ending_of};

use cyc_cli::{Ending, image_fault};
use cyc_elf::ElfFault;
use cyc_emulator::{Limit, Report, RunFault, Stop};
use cyc_machine::{Cause, End, Limits, LoadFault};
use cyc_words::{Code, Fault};
use std::fmt;

/// The outcome of a command of the program. `Display` writes the last line on standard error.
#[derive(Clone, Copy)]
pub enum Answer {
    /// The command succeeded: the text was checked or compiled, or the image's instructions were listed.
    Done,
    /// The run ended with this value.
    Returned(i32),
    /// The text was rejected with this fault.
    Refused(Fault),
    /// The file is not an image that can be run or whose instructions can be listed; the number identifies the reason.
    BadImage(u32),
    /// The run ended with an uncaught exception, given by the number that identifies the exception and by its int.
    Uncaught(u32, i32),
    /// The run ended because the store had no free pages, or because the stack had no space for another call.
    Full,
    /// The machine refused an instruction for this cause.
    Trapped(Cause),
    /// The run was stopped because its instruction budget was used up.
    Spent,
    /// A file or the standard input could not be read.
    ReadFault,
    /// A file or the standard output could not be written.
    WriteFault,
    /// The command ran out of memory.
    NoMemory,
    /// The command line is invalid.
    Usage,
    /// The text is not formatted in the one style that the formatter prints.
    Unformatted,
}

/// The number of the fault for an image outside the machine's memory; this number follows those of ELF faults.
const OUTSIDE: u32 = 8;

/// Returns the wording of the last line on standard error for the cause of a trap.
pub fn cause_words(cause: Cause) -> &'static str
    ensures { result.now ≡ cause_words cause }
{
    match cause {
        Cause::ReservedInstruction => "reserved instruction",
        Cause::Unpredictable => "unpredictable",
        Cause::Misaligned => "misaligned",
        Cause::NoSuchAddress => "no such address",
        Cause::DeadCell => "dead cell",
        Cause::WriteToText => "write to text",
        Cause::Break => "break",
        Cause::BadService => "bad service",
    }
}

impl Answer {
    /// Returns the exit status for the outcome (answer) of a command.
    pub fn status(&self) -> u8
        ensures { result ≡ status_of self.now }
    {
        match *self {
            Answer::Done => 0,
            Answer::Returned(value) => value.to_be_bytes()[3],
            Answer::Refused(_) => 2,
            Answer::BadImage(_) => 3,
            Answer::Uncaught(_, _) => 4,
            Answer::Full => 5,
            Answer::Trapped(_) => 6,
            Answer::Spent => 7,
            Answer::ReadFault | Answer::WriteFault | Answer::NoMemory => 8,
            Answer::Usage => 9,
            Answer::Unformatted => 1,
        }
    }
}

impl fmt::Display for Answer {
    ghost output = { λ a. Some (last_line a) };

    fn fmt<W: fmt::Write>(&self, f: &mut fmt::Formatter<W>) -> fmt::Result {
        match *self {
            Answer::Done => f.write_str("done"),
            Answer::Returned(value) => write!(f, "returned {value}"),
            Answer::Refused(fault) => {
                let (code, line, column) = (fault.code.number(), fault.line, fault.column);
                write!(f, "fault {code} at {line}:{column}")
            }
            Answer::BadImage(number) => write!(f, "image fault {number}"),
            Answer::Uncaught(exception, value) => write!(f, "uncaught {exception} {value}"),
            Answer::Full => f.write_str("full"),
            Answer::Trapped(cause) => write!(f, "trap {}", cause_words(cause)),
            Answer::Spent => f.write_str("budget spent"),
            Answer::ReadFault => f.write_str("read fault"),
            Answer::WriteFault => f.write_str("write fault"),
            Answer::NoMemory => f.write_str("no memory"),
            Answer::Usage => f.write_str("usage"),
            Answer::Unformatted => f.write_str("not formatted"),
        }
    }
}

impl From<Fault> for Answer {
    ghost use Rattle.cyc_host.specs.inside.Answer.{answer_of_fault};

    ghost from_gives = { λ fault answer. answer ≡ answer_of_fault fault };

    fn from(fault: Fault) -> Answer {
        if fault.code == Code::Memory {
            Answer::NoMemory
        } else {
            Answer::Refused(fault)
        }
    }
}

impl From<Stop> for Answer {
    ghost use Rattle.cyc_host.specs.inside.Answer.{answer_of_stop};

    ghost from_gives = { λ stop answer. answer ≡ answer_of_stop stop };

    fn from(stop: Stop) -> Answer {
        match stop {
            Stop::End(End::Returned(value)) => Answer::Returned(value),
            Stop::End(End::Uncaught(exception, value)) => Answer::Uncaught(exception, value),
            Stop::End(End::Full) => Answer::Full,
            Stop::End(End::Trap(cause)) => Answer::Trapped(cause),
            Stop::Spent => Answer::Spent,
        }
    }
}

impl From<RunFault> for Answer {
    ghost use Rattle.cyc_host.specs.inside.Answer.{answer_of_run_fault};

    ghost from_gives = { λ fault answer. answer ≡ answer_of_run_fault fault };

    fn from(fault: RunFault) -> Answer {
        match fault {
            RunFault::Elf(ElfFault::Memory) => Answer::NoMemory,
            RunFault::Elf(fault) => Answer::BadImage(fault.number()),
            RunFault::Load(LoadFault::Outside) => Answer::BadImage(OUTSIDE),
            RunFault::Load(LoadFault::Memory) | RunFault::Memory => Answer::NoMemory,
            RunFault::Read => Answer::ReadFault,
            RunFault::Write => Answer::WriteFault,
        }
    }
}

/// Returns the reason why a run with these limits and this budget ended before its program did. The reason is computed from the run's
/// outcome (answer) and its report.
pub fn ending(
    answer: &Answer,
    report: Option<Report>,
    limits: Limits,
    budget: u64,
) -> Option<Ending>
    ensures { result ≡ ending_of answer.now report limits budget }
{
    let report = report?;
    match *answer {
        Answer::Uncaught(number, _) => Some(Ending::Uncaught(number)),
        Answer::Full => match report.limit? {
            Limit::Calls => Some(Ending::Calls(limits.calls())),
            Limit::Pages => Some(Ending::Pages(limits.pages())),
        },
        Answer::Trapped(_) => Some(Ending::Trap(report.counter)),
        Answer::Spent => Some(Ending::Spent(budget)),
        _ => None,
    }
}

/// Returns a further explanation for the user of a command's outcome (answer), in addition to the outcome's last
/// line and the messages printed earlier.
pub fn explanation(answer: &Answer) -> Option<&'static str> {
    match *answer {
        Answer::BadImage(number) => Some(image_fault(number)),
        Answer::NoMemory => Some("out of memory"),
        _ => None,
    }
}
