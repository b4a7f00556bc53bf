//! Formats a program and writes the result to a device.
ghost use Rattle.cyc_host.specs.inside.Console.{screen_held, screen_is_stuck, screen_written};
ghost use Rattle.cyc_source_commands.specs.inside.Formatting.{AnswersFormat, EndsFormat};

use cyc_format::format;
use cyc_host::{Answer, Screen, finish_for};
use cyc_words::{ByteOut, Fault};
use std::alloc::Global;
use std::io::Write;

/// Formats a source text and writes the result to a device.
fn format_to<W: ByteOut>(alloc: Global, text: &[u8], writer: &mut W) -> Result<Answer, Fault>
    ensures { AnswersFormat text.now (W.written writer.old) (W.written writer.new) result }
{
    let laid = format(alloc, text)?;
    match writer.put_all(laid.as_slice()) {
        Ok(()) => Ok(Answer::Done),
        Err(_) => Ok(Answer::WriteFault),
    }
}

/// Formats a source text and writes the result to the screen's writer.
pub fn format_text<W: Write + Drop>(
    alloc: Global,
    text: &[u8],
    screen: &mut Screen<W>,
) -> Result<Answer, Fault>
    ensures { EndsFormat text.now (screen_written W.contents screen.old) (screen_written W.contents screen.new)
        (screen_held screen.new) (screen_is_stuck screen.new) result }
{
    let answer = format_to(alloc, text, screen)?;
    Ok(finish_for(screen, answer))
}
