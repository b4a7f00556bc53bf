//! The commands on an image, which work on byte arrays, an input device and an output device.
ghost use Rattle.std.specs.Prelude.{◌≡◌, is_some, IfOk, IfErr};
ghost use Rattle.cyc_elf.specs.Reading.{reading};
ghost use Rattle.cyc_emulator.specs.Engine.{AnswersAnew};
ghost use Rattle.cyc_host.specs.inside.Console.{keyboard_remaining, screen_held, screen_written, screen_is_stuck};
ghost use Rattle.cyc_image_commands.specs.inside.Work.{AnswersInfo, AnswersListing, AnswersNoImage, AnswersRun, AreLimitsFor, EndsInfo, EndsListing};
ghost use Rattle.cyc_image_commands.specs.inside.Work.{EndsRun, counts_peaks, grows_in};

use crate::annotated::Annotated;
use crate::info::Description;
use cyc_cli::{GivenLimits, StoreKind};
use cyc_elf::read_outline;
use cyc_emulator::{Report, RunFault, disassemble, run, run_counting, run_plain};
use cyc_host::{Answer, Keyboard, Screen, finish_for};
use cyc_image::note_of;
use cyc_machine::Limits;
use cyc_words::{ByteIn, ByteOut, Failed};
use std::alloc::Global;
use std::io::{Read, Write};

/// Returns the limits of a run of an image: each limit is the user's, else the image's, else the default, but never above its cap. If
/// the bytes are not an image, the answer is that of running them.
pub fn limits_of_run(
    alloc: Global,
    image: &[u8],
    given: GivenLimits,
    caps: GivenLimits,
) -> Result<Limits, Answer>
    ensures limits { IfOk result (λ limits. AreLimitsFor image.now given caps limits) }
    ensures answer { IfErr result (AnswersNoImage image.now) }
{
    match note_of(alloc, image) {
        Ok(note) => Ok(given.of_run(caps, note)),
        Err(fault) => Err(Answer::from(RunFault::from(fault))),
    }
}

/// The options of a run: the heap implementation, and a flag that tells if the maximal numbers of calls and pages are counted.
#[derive(Clone, Copy)]
pub struct Manner {
    pub store: StoreKind,
    /// True if the run counts the maximal numbers of active calls and used pages. Only the heap implementation as a pool
    /// of pages supports the count of these maxima.
    pub counting: bool,
}

/// Runs an image with the given input device, output device and options.
fn run_as<R: ByteIn, W: ByteOut>(
    alloc: Global,
    image: &[u8],
    limits: Limits,
    budget: u64,
    manner: Manner,
    reader: &mut R,
    writer: &mut W,
) -> Result<Report, RunFault>
    ensures runs { AnswersAnew (grows_in manner) (reading image.now) limits budget
        (record { remaining = R.remaining reader.old; written = W.written writer.old })
        (record { remaining = R.remaining reader.new; written = W.written writer.new }) result }
    ensures peaks { IfOk result (λ report. is_some report.peaks ≡ counts_peaks manner) }
{
    match manner.store {
        StoreKind::Plain => run_plain(alloc, image, limits, budget, reader, writer),
        StoreKind::Pages if manner.counting => {
            run_counting(alloc, image, limits, budget, reader, writer)
        }
        StoreKind::Pages => run(alloc, image, limits, budget, reader, writer),
    }
}

/// Runs an image with the given input device, output device and options. Returns the answer to the run
/// command and the report of the resources used.
fn run_between<R: ByteIn, W: ByteOut>(
    alloc: Global,
    image: &[u8],
    limits: Limits,
    budget: u64,
    manner: Manner,
    reader: &mut R,
    writer: &mut W,
) -> (Answer, Option<Report>)
    ensures { AnswersRun image.now limits budget manner
        (record { remaining = R.remaining reader.old; written = W.written writer.old })
        (record { remaining = R.remaining reader.new; written = W.written writer.new }) result.0 result.1 }
{
    match run_as(alloc, image, limits, budget, manner, reader, writer) {
        Ok(report) => (Answer::from(report.stop), Some(report)),
        Err(fault) => (Answer::from(fault), None),
    }
}

/// Runs an image with the given options on the keyboard's reader and the screen's writer.
pub fn run_image<R: Read + Drop, W: Write + Drop>(
    alloc: Global,
    image: &[u8],
    limits: Limits,
    budget: u64,
    manner: Manner,
    keyboard: &mut Keyboard<R>,
    screen: &mut Screen<W>,
) -> (Answer, Option<Report>)
    ensures { EndsRun image.now limits budget manner
        (record { remaining = keyboard_remaining R.remaining keyboard.old; written = screen_written W.contents screen.old })
        (record { remaining = keyboard_remaining R.remaining keyboard.new; written = screen_written W.contents screen.new })
        (screen_held screen.new) (screen_is_stuck screen.new) result.0 result.1 }
{
    let (answer, report) = run_between(alloc, image, limits, budget, manner, keyboard, screen);
    (finish_for(screen, answer), report)
}

/// Lists the instructions of an image to an output device.
fn list_to<W: ByteOut>(alloc: Global, image: &[u8], writer: &mut W) -> Answer
    ensures { AnswersListing image.now (W.written writer.old) (W.written writer.new) result }
{
    match disassemble(alloc, image, writer) {
        Ok(()) => Answer::Done,
        Err(fault) => Answer::from(fault),
    }
}

/// Lists the instructions of an image to the screen's writer.
pub fn list_image<W: Write + Drop>(alloc: Global, image: &[u8], screen: &mut Screen<W>) -> Answer
    ensures { EndsListing image.now (screen_written W.contents screen.old) (screen_written W.contents screen.new)
        (screen_held screen.new) (screen_is_stuck screen.new) result }
{
    let answer = list_to(alloc, image, screen);
    finish_for(screen, answer)
}

/// An output device that accepts at most `left` lines, and fails after them.
#[derive(Drop)]
struct FirstLines<W: ByteOut + Drop> {
    writer: W,
    left: u32,
    has_failed: bool,
}

impl<W: ByteOut + Drop> ByteOut for FirstLines<W> {
    ghost written = { λ s. W.written s.writer };

    ghost failed = { λ s. s.has_failed };

    fn put(&mut self, byte: u8) -> Result<(), Failed> {
        if self.has_failed || self.left == 0 || self.writer.put(byte).is_err() {
            self.has_failed = true;
            return Err(Failed);
        }
        if byte == b'\n' {
            self.left -= 1;
        }
        Ok(())
    }
}

/// Returns the answer to a command that lists instructions. A write failure counts as success if the device failed
/// because it accepts no more lines.
fn answer_with(answer: Answer, left: u32) -> Answer {
    match answer {
        Answer::WriteFault if left == 0 => Answer::Done,
        answer => answer,
    }
}

/// Lists the instructions of an image to an output device that adds source positions to them.
pub fn list_annotated<W: Write + Drop>(
    alloc: Global,
    image: &[u8],
    mut listing: Annotated<'_, Screen<W>>,
) -> Answer {
    let answer = list_to(alloc, image, &mut listing);
    let answer = answer_with(answer, listing.left);
    finish_for(&mut listing.writer, answer)
}

/// Lists at most `most` instructions of an image, from the first on, to the screen's writer.
pub fn list_part<W: Write + Drop>(
    alloc: Global,
    image: &[u8],
    most: u32,
    screen: Screen<W>,
) -> Answer {
    let mut part = FirstLines {
        writer: screen,
        left: most,
        has_failed: false,
    };
    let answer = list_to(alloc, image, &mut part);
    let answer = answer_with(answer, part.left);
    finish_for(&mut part.writer, answer)
}

/// Writes the description of an image to a device. The description needs only the headers of the image.
#[tactic(auto, using(crate::proofs::Describing::no_memory, crate::proofs::Describing::all_reported, crate::proofs::Describing::describes_refusal))]
fn describe_to<W: ByteOut>(alloc: Global, image: &[u8], writer: &mut W) -> Answer
    ensures { AnswersInfo image.now (W.written writer.old) (W.written writer.new) result }
{
    let outline = match read_outline(alloc, image) {
        Ok(outline) => outline,
        Err(fault) => return Answer::from(RunFault::from(fault)),
    };
    let Ok(text) = Description(&outline).to_string(alloc) else {
        return Answer::NoMemory;
    };
    match writer.put_all(text.as_bytes()) {
        Ok(()) => Answer::Done,
        Err(_) => Answer::WriteFault,
    }
}

/// Writes the description of an image to the screen's writer.
pub fn describe_image<W: Write + Drop>(
    alloc: Global,
    image: &[u8],
    screen: &mut Screen<W>,
) -> Answer
    ensures { EndsInfo image.now (screen_written W.contents screen.old) (screen_written W.contents screen.new)
        (screen_held screen.new) (screen_is_stuck screen.new) result }
{
    let answer = describe_to(alloc, image, screen);
    finish_for(screen, answer)
}
