//! Lists the functions of an image, according to its file of places (the file that maps code addresses to source positions).
use crate::reading::Table;
use cyc_image::Stretch;
use std::fmt;

/// The number of bytes of one word of an image's text.
const WORD: u32 = 4;

/// The beginning of a function in an image's text: the function's index and the address of its first word.
#[derive(Clone, Copy)]
struct Begun {
    number: usize,
    address: u32,
}

/// Returns true if code made for the function with index `number` continues the code of the function `begun`.
fn goes_on(begun: Option<Begun>, number: Option<usize>) -> bool {
    match (begun, number) {
        (Some(begun), Some(number)) => begun.number == number,
        (None, None) => true,
        _ => false,
    }
}

/// Returns a function's index together with the address at which the function begins; `None` if no function has its code at this address.
fn begun_at(number: Option<usize>, address: u32) -> Option<Begun> {
    match number {
        Some(number) => Some(Begun { number, address }),
        None => None,
    }
}

/// Returns the function index after `number`, or the index `before` if that is greater.
fn after(before: usize, number: usize) -> usize {
    before.max(number.saturating_add(1))
}

/// The functions of an image. `Display` writes a line for each function, in the order of the text: the name, the address and the number
/// of words.
#[derive(Drop)]
pub struct Functions<'a>(pub &'a Table);

impl Functions<'_> {
    /// Writes the line of a function whose words end before the address `end`.
    fn write_line<W: fmt::Write>(
        &self,
        begun: Begun,
        end: u32,
        f: &mut fmt::Formatter<W>,
    ) -> fmt::Result {
        let Some(named) = self.0.functions.get(begun.number) else {
            return Ok(());
        };
        let words = end.saturating_sub(begun.address) / WORD;
        let address = begun.address;
        write!(f, "function {named} at {address:08x}, {words} words\n")
    }

    /// Writes the lines of a range of functions that have no words because their code is inlined at each call.
    fn write_empty<W: fmt::Write>(
        &self,
        from: usize,
        to: usize,
        address: u32,
        f: &mut fmt::Formatter<W>,
    ) -> fmt::Result {
        for number in from..to.min(self.0.functions.len()) {
            self.write_line(Begun { number, address }, address, f)?;
        }
        Ok(())
    }

    /// Writes the lines of all functions: those that begin in one of the given ranges of machine words, each made for one
    /// source construct, and those without words.
    fn write_all<W: fmt::Write>(
        &self,
        stretches: &[Stretch],
        f: &mut fmt::Formatter<W>,
    ) -> fmt::Result {
        let mut begun: Option<Begun> = None;
        // All functions with indices below `next` are already written, or have begun.
        let mut next: usize = 0;
        for stretch in stretches {
            let number = stretch.frame_function();
            if goes_on(begun, number) {
                continue;
            }
            if let Some(last) = begun {
                self.write_line(last, stretch.address, f)?;
            }
            begun = begun_at(number, stretch.address);
            if let Some(new) = begun {
                self.write_empty(next, new.number, new.address, f)?;
                next = after(next, new.number);
            }
        }
        if let Some(last) = begun {
            self.write_line(last, self.0.end, f)?;
        }
        self.write_empty(next, self.0.functions.len(), self.0.end, f)
    }
}

impl fmt::Display for Functions<'_> {
    fn fmt<W: fmt::Write>(&self, f: &mut fmt::Formatter<W>) -> fmt::Result {
        self.write_all(self.0.stretches.as_slice(), f)
    }
}
