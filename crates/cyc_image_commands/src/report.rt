//! The text of `run --report`: the way in which a run ended and the numbers of resources used, as one JSON object on a line.
ghost use Rattle.std.specs.Prelude.{◌≡◌, IfOk, None, Some, option_map, string_bytes};
ghost use Rattle.std.specs.Fmt.{WritesOnOk};
ghost use Rattle.cyc_host.specs.inside.Answer.{cause_words};
ghost use Rattle.cyc_image_commands.specs.inside.Report.{amount_fields, cause_in, end_fields, end_words, exception_in, fault_in, figure_fields};
ghost use Rattle.cyc_image_commands.specs.inside.Report.{limit_words, place_fields, report_text, value_in};

use cyc_emulator::{Limit, Peaks, Report};
use cyc_host::{Answer, cause_words};
use std::alloc::{AllocError, Global};
use std::fmt;

/// A number written as JSON; a missing number is `null`.
#[derive(Drop)]
struct Number(Option<u32>);

impl fmt::Display for Number {
    ghost use Rattle.cyc_image_commands.specs.inside.Report.{number_or_null};

    ghost output = { λ n. Some (number_or_null n.0) };

    fn fmt<W: fmt::Write>(&self, f: &mut fmt::Formatter<W>) -> fmt::Result {
        match self.0 {
            Some(number) => write!(f, "{number}"),
            None => f.write_str("null"),
        }
    }
}

/// An int written as JSON; a missing int is `null`.
#[derive(Drop)]
struct Int(Option<i32>);

impl fmt::Display for Int {
    ghost use Rattle.cyc_image_commands.specs.inside.Report.{int_or_null};

    ghost output = { λ n. Some (int_or_null n.0) };

    fn fmt<W: fmt::Write>(&self, f: &mut fmt::Formatter<W>) -> fmt::Result {
        match self.0 {
            Some(number) => write!(f, "{number}"),
            None => f.write_str("null"),
        }
    }
}

/// A text that is written as a JSON string in quotes, or as `null` if there is no text. None of the texts
/// in a report contains a character that JSON escapes.
#[derive(Drop)]
struct Words(Option<&'static str>);

impl fmt::Display for Words {
    ghost use Rattle.cyc_image_commands.specs.inside.Report.{words_or_null};

    ghost output = { λ w. Some (words_or_null (option_map (λ text. text.now) w.0)) };

    fn fmt<W: fmt::Write>(&self, f: &mut fmt::Formatter<W>) -> fmt::Result {
        match self.0 {
            Some(words) => write!(f, "\"{words}\""),
            None => f.write_str("null"),
        }
    }
}

/// Returns the way in which a run ended, as the first words of the last line that the run prints.
fn end_words(answer: Answer) -> &'static str
    ensures { result.now ≡ end_words answer }
{
    match answer {
        Answer::Done => "done",
        Answer::Returned(_) => "returned",
        Answer::Refused(_) => "fault",
        Answer::BadImage(_) => "image fault",
        Answer::Uncaught(_, _) => "uncaught",
        Answer::Full => "full",
        Answer::Trapped(_) => "trap",
        Answer::Spent => "budget spent",
        Answer::ReadFault => "read fault",
        Answer::WriteFault => "write fault",
        Answer::NoMemory => "no memory",
        Answer::Usage => "usage",
        Answer::Unformatted => "not formatted",
    }
}

/// Returns the value that `main` returned, or the int that the uncaught exception carries, if the run ended in this way.
fn value_in(answer: Answer) -> Option<i32>
    ensures { result ≡ value_in answer }
{
    match answer {
        Answer::Returned(value) | Answer::Uncaught(_, value) => Some(value),
        _ => None,
    }
}

/// Returns the index of the uncaught exception, if one ended the run.
fn exception_in(answer: Answer) -> Option<u32>
    ensures { result ≡ exception_in answer }
{
    match answer {
        Answer::Uncaught(number, _) => Some(number),
        _ => None,
    }
}

/// Returns the reason why the machine refused an instruction, if that ended the run.
fn cause_in(answer: Answer) -> Option<&'static str>
    ensures { option_map (λ text. text.now) result ≡ cause_in answer }
{
    match answer {
        Answer::Trapped(cause) => Some(cause_words(cause)),
        _ => None,
    }
}

/// Returns the number of the rule about image files that the image violates, if any.
fn fault_in(answer: Answer) -> Option<u32>
    ensures { result ≡ fault_in answer }
{
    match answer {
        Answer::BadImage(number) => Some(number),
        _ => None,
    }
}

/// Returns the name of the limit (such as that on pages) whose exhaustion ended the run, if any.
fn limit_words(limit: Option<Limit>) -> Option<&'static str>
    ensures { option_map (λ text. text.now) result ≡ limit_words limit }
{
    match limit {
        Some(Limit::Calls) => Some("calls"),
        Some(Limit::Pages) => Some("pages"),
        None => None,
    }
}

fn write_end<W: fmt::Write>(answer: Answer, f: &mut fmt::Formatter<W>) -> fmt::Result
    ensures { WritesOnOk W.write_str_gives f.old result (end_fields answer) f.new }
{
    write!(
        f,
        "{{\"end\":\"{}\",\"value\":{},\"exception\":{},\"cause\":{},\"image_fault\":{},",
        end_words(answer),
        Int(value_in(answer)),
        Number(exception_in(answer)),
        Words(cause_in(answer)),
        Number(fault_in(answer))
    )
}

fn write_place<W: fmt::Write>(report: Report, f: &mut fmt::Formatter<W>) -> fmt::Result
    ensures { WritesOnOk W.write_str_gives f.old result (place_fields report) f.new }
{
    write!(
        f,
        "\"limit\":{},\"instructions\":{},\"counter\":{},",
        Words(limit_words(report.limit)),
        report.count,
        report.counter
    )
}

/// Returns the maximal number of simultaneously active calls, if it was counted.
fn most_calls(peaks: Option<Peaks>) -> Option<u32>
    ensures { result ≡ option_map (λ (p : Peaks). p.calls) peaks }
{
    match peaks {
        Some(peaks) => Some(peaks.calls),
        None => None,
    }
}

/// Returns the maximal number of pages in use at once, if it was counted.
fn most_pages(peaks: Option<Peaks>) -> Option<u32>
    ensures { result ≡ option_map (λ (p : Peaks). p.pages) peaks }
{
    match peaks {
        Some(peaks) => Some(peaks.pages),
        None => None,
    }
}

fn write_amounts<W: fmt::Write>(report: Report, f: &mut fmt::Formatter<W>) -> fmt::Result
    ensures { WritesOnOk W.write_str_gives f.old result (amount_fields report) f.new }
{
    write!(
        f,
        "\"most_calls\":{},\"most_pages\":{},\"read\":{},\"written\":{}}}\n",
        Number(most_calls(report.peaks)),
        Number(most_pages(report.peaks)),
        report.read,
        report.written
    )
}

fn write_figures<W: fmt::Write>(report: Option<Report>, f: &mut fmt::Formatter<W>) -> fmt::Result
    ensures { WritesOnOk W.write_str_gives f.old result (figure_fields report) f.new }
{
    match report {
        Some(report) => {
            write_place(report, f)?;
            write_amounts(report, f)
        }
        None => f.write_str(
            "\"limit\":null,\"instructions\":null,\"counter\":null,\"most_calls\":null,\"most_pages\":null,\"read\":null,\"written\":null}\n",
        ),
    }
}

/// The outcome of a run, with its report if the run was executed until it stopped. `Display` writes the outcome as a JSON object
/// and a line feed.
#[derive(Drop)]
pub struct RunReport {
    pub answer: Answer,
    pub report: Option<Report>,
}

impl RunReport {
    /// Returns the JSON object of the report as the bytes of a file.
    pub fn text(&self, alloc: Global) -> Result<String, AllocError>
        ensures { IfOk result (λ text. string_bytes text ≡ report_text self.now.answer self.now.report) }
    {
        self.to_string(alloc)
    }
}

impl fmt::Display for RunReport {
    ghost output = { λ r. Some (report_text r.answer r.report) };

    fn fmt<W: fmt::Write>(&self, f: &mut fmt::Formatter<W>) -> fmt::Result {
        write_end(self.answer, f)?;
        write_figures(self.report, f)
    }
}
