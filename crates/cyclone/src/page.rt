//! Prints the page that describes a fault code.
ghost use Rattle.cyc_host.specs.inside.Console.{screen_held, screen_is_stuck, screen_written};
ghost use Rattle.cyclone.specs.inside.Page.{AnswersPage, EndsPage};

use cyc_cli::page;
use cyc_host::{Answer, Output, Screen, finish_for};
use cyc_words::{ByteOut, Code};
use std::io::Write;

/// Prints the page of a fault code to a device.
fn print_to<W: ByteOut>(code: Code, writer: &mut W) -> Answer
    ensures { AnswersPage code (W.written writer.old) (W.written writer.new) result }
{
    match writer.put_all(page(code).as_bytes()) {
        Ok(()) => Answer::Done,
        Err(_) => Answer::WriteFault,
    }
}

/// Prints the page of a fault code to the writer of the screen.
pub fn print_page<W: Write + Drop>(code: Code, screen: &mut Screen<W>) -> Answer
    ensures { EndsPage code (screen_written W.contents screen.old) (screen_written W.contents screen.new)
        (screen_held screen.new) (screen_is_stuck screen.new) result }
{
    let answer = print_to(code, screen);
    finish_for(screen, answer)
}

/// Runs the command `explain CODE`, which prints the page of a fault code.
pub fn describe_code(rt: &HostRuntime, code: Code) -> Result<Answer, Answer> {
    let Ok(mut screen) = Screen::new(rt.alloc(), Output::new(rt), false) else {
        return Err(Answer::NoMemory);
    };
    Ok(print_page(code, &mut screen))
}
