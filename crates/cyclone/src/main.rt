//! The program `cyclone` checks a program, compiles one to an image, and runs, disassembles or describes an image.
#![tactic(auto)]

mod exec;
mod line;
mod pack;
mod page;
mod session;

use std::process::ExitCode;

fn main(rt: HostRuntime) -> ExitCode {
    match session::serve(&rt) {
        Some(answer) => {
            let _ = rt.eprintln(answer);
            ExitCode::from(answer.status())
        }
        None => ExitCode::SUCCESS,
    }
}
