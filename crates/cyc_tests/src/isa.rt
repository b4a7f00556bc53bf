//! This file tests instructions at addresses outside the text range, which no listing contains. Instructions that a listing can contain are
//! tested by `tests/worked/listings.txt`.

use crate::expect::{expect, expect_number};
use cyc_isa::{decode, encode, write_text};
use cyc_words::Writer;
use std::alloc::Global;
use std::process::Abort;

/// A line for each test case: an address, the instruction word at this address, and the text of the instruction. The target of
/// each branch or jump in these test cases is in the 256 MB of the delay slot, or wraps around.
const VECTORS: &str = "\
fffffffc 143f8000 bne $1, $31, 0xfffe0000
9ffffffc 08100000 j 0xa0400000
fffffffc 0c100000 jal 0x00400000
";

/// Returns the number that a text of hexadecimal digits denotes.
fn hexadecimal(text: &str) -> Option<u32> {
    u32::from_str_radix(text, 16).ok()
}

/// Asserts that the instruction word of a row is displayed as the row's text, and that this text is encoded as the word.
fn expect_vector<A: Abort>(rt: &A, alloc: Global, row: &str) -> Option<()> {
    let (address, rest) = row.split_once(' ')?;
    let (word, text) = rest.split_once(' ')?;
    let word = hexadecimal(word)?;
    let instr = decode(word)?;
    expect_number(rt, encode(instr), word, row);
    let mut bytes = Vec::new(alloc);
    write_text(instr, hexadecimal(address)?, &mut Writer::new(&mut bytes)).ok()?;
    expect(rt, bytes.as_slice() == text.as_bytes(), row);
    Some(())
}

#[test]
fn vectors_have_their_words_and_texts(rt: HostRuntime) {
    for row in VECTORS.lines() {
        let read = expect_vector(&rt, rt.alloc(), row);
        expect(&rt, read.is_some(), row);
    }
}
