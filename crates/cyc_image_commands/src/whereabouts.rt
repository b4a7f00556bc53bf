//! The source position at which a run stopped before its program ended, and the source positions of the calls active at that point.
use cyc_cli::FileName;
use cyc_emulator::{Limit, MOST_REPORTED, Report, Trail};
use cyc_host::Answer;
use cyc_image::{Site, Source, stretch_at};
use cyc_places::Table;
use cyc_words::Span;
use std::fmt;

/// The built-in exceptions, in the order of their indices.
const BUILT_IN: [&str; 4] = ["Null_Exception", "Array_bounds", "Array_size", "Div_zero"];

/// The source position at which a run stopped. `Display` writes a line for the stop and one for each active call, innermost first.
#[derive(Drop)]
pub struct Whereabouts<'a> {
    pub table: &'a Table,
    pub answer: Answer,
    pub report: Report,
    pub trail: &'a Trail,
}

/// Returns the words that describe why a run stopped.
fn said_of(answer: Answer, report: Report) -> &'static str {
    match answer {
        Answer::Uncaught(_, _) => "thrown here",
        Answer::Full => match report.limit {
            Some(Limit::Calls) => "no room for this call",
            Some(Limit::Pages) | None => "no pages for what is wanted here",
        },
        Answer::Trapped(_) => "the machine refused an instruction here",
        _ => "the last instruction that was allowed led here",
    }
}

impl Whereabouts<'_> {
    /// Returns the source position of the instruction at an address, and the position of the call that was inlined there, if any. Returns
    /// `None` if the instruction has no source position.
    fn place_of(&self, address: u32) -> Option<(Site, Option<Site>)> {
        let stretch = stretch_at(&self.table.stretches, address)?;
        match stretch.source {
            Source::Part { function, span } | Source::PassOn { function, span } => {
                Some((Site { function, span }, stretch.site))
            }
            Source::Start | Source::Raise { .. } => None,
        }
    }

    /// Writes the source position with which a line of the printed call stack begins.
    fn write_place<W: fmt::Write>(&self, span: Span, f: &mut fmt::Formatter<W>) -> fmt::Result {
        let (file, line) = self.table.home_of(span.line);
        write!(f, "{}:{line}:{}: ", FileName(file), span.column)
    }

    /// Writes the name of the function with which a line of the printed call stack ends.
    fn write_function<W: fmt::Write>(
        &self,
        function: usize,
        f: &mut fmt::Formatter<W>,
    ) -> fmt::Result {
        match self.table.functions.get(function) {
            Some(named) => write!(f, ", in {named}\n"),
            None => f.write_str(", in ?\n"),
        }
    }

    /// Writes the name of an exception, with its int if the exception has one.
    fn write_exception<W: fmt::Write>(
        &self,
        number: u32,
        value: i32,
        f: &mut fmt::Formatter<W>,
    ) -> fmt::Result {
        let place = (number as usize).saturating_sub(1);
        if let Some(name) = BUILT_IN.get(place) {
            return write!(f, "{name} ");
        }
        match self
            .table
            .exceptions
            .get(place.saturating_sub(BUILT_IN.len()))
        {
            Some(named) if named.has_int => write!(f, "{named}({value}) "),
            Some(named) => write!(f, "{named} "),
            None => Ok(()),
        }
    }

    /// Writes the line about the source position at which the run stopped.
    fn write_stop<W: fmt::Write>(&self, f: &mut fmt::Formatter<W>) -> fmt::Result {
        let Some((place, site)) = self.place_of(self.trail.address) else {
            return Ok(());
        };
        self.write_place(place.span, f)?;
        if let Answer::Uncaught(number, value) = self.answer {
            self.write_exception(number, value, f)?;
        }
        f.write_str(said_of(self.answer, self.report))?;
        self.write_function(place.function, f)?;
        match site {
            Some(site) => self.write_call(site, f),
            None => Ok(()),
        }
    }

    /// Writes the line about an active call of the call stack.
    fn write_call<W: fmt::Write>(&self, call: Site, f: &mut fmt::Formatter<W>) -> fmt::Result {
        self.write_place(call.span, f)?;
        f.write_str("called here")?;
        self.write_function(call.function, f)
    }
}

impl Whereabouts<'_> {
    /// Returns the number of active calls that are written. If the run stopped in an inlined call, that call takes one of the lines.
    fn reported_count(&self) -> usize {
        let count = self.trail.calls.len();
        match self.place_of(self.trail.address) {
            Some((_, Some(_))) => count.min(MOST_REPORTED - 1),
            _ => count,
        }
    }
}

impl fmt::Display for Whereabouts<'_> {
    fn fmt<W: fmt::Write>(&self, f: &mut fmt::Formatter<W>) -> fmt::Result {
        self.write_stop(f)?;
        let reported = self.reported_count();
        for address in self.trail.calls.iter().take(reported) {
            // A function that contains calls is never inlined, so the source position of a call lies in the code of
            // the function that is active.
            if let Some((call, _)) = self.place_of(*address) {
                self.write_call(call, f)?;
            }
        }
        let left = self.trail.calls.len().saturating_sub(reported);
        // At most one of the calls that the machine recorded is omitted from the printed call stack.
        match self.trail.others.saturating_add(left.min(1) as u32) {
            0 => Ok(()),
            others => write!(f, "    .. and {others} more calls\n"),
        }
    }
}
