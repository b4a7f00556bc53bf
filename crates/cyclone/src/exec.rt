//! The command `exec`: compiles a program in memory and runs it.
use cyc_host::Answer;
use cyc_image_commands::{Allowance, refuse_report, run_made, write_outcome};
use cyc_source_commands::make_file;

/// Runs `exec SOURCE`, with the library declarations that the program uses, on the standard input. If a file for the report is given,
/// the report is written, however the run ends.
pub fn exec_file(
    rt: &HostRuntime,
    source: &str,
    libraries: &[&str],
    allowed: Allowance,
    report: Option<&str>,
) -> Result<Answer, Answer> {
    if let Some(path) = report {
        refuse_report(rt, path, source, "program")?;
        for library in libraries {
            refuse_report(rt, path, library, "library")?;
        }
        refuse_report(rt, path, "/dev/stdin", "input")?;
    }
    let outcome = match make_file(rt, source, libraries, allowed.limits) {
        Ok(made) => run_made(rt, made.image(), made.places(), allowed),
        Err(answer) => Err(answer),
    };
    write_outcome(rt, report, outcome)
}
