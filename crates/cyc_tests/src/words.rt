//! This file tests input and output devices that fail; a user of a failing device sees only that a run ends.

use crate::devices::FailsOnce;
use crate::expect::expect;
use cyc_words::{ByteIn, ByteOut, Reader, Writer};
use std::process::Abort;

/// Asserts that a device supplies this byte next, or the end of its input.
fn expect_byte<A: Abort, I: ByteIn>(rt: &A, input: &mut I, want: Option<u8>) {
    match input.next() {
        Ok(byte) => expect(rt, byte == want, "the next byte"),
        Err(_) => expect(rt, false, "a byte"),
    }
}

/// The reader and the writer inside the tested devices would succeed again after their failure, but the devices do not call them again.
#[test]
fn a_failure_stays(rt: HostRuntime) {
    let mut input = Reader::new(FailsOnce::new(2));
    for _ in 0..2 {
        expect_byte(&rt, &mut input, Some(b'x'));
    }
    for _ in 0..2 {
        expect(&rt, input.next().is_err(), "a reader that failed");
    }
    let mut inner = FailsOnce::new(1);
    let mut output = Writer::new(&mut inner);
    expect(&rt, output.put(b'x').is_ok(), "the first byte");
    for _ in 0..2 {
        expect(&rt, output.put(b'x').is_err(), "a writer that failed");
    }
    expect(
        &rt,
        output.put_all(b"xx").is_err(),
        "bytes for a writer that failed",
    );
    expect(&rt, inner.taken == 1, "the bytes that were taken");
}
