//! This file has assertions about a row of a test table. An assertion with a message makes type checking some seconds slower, so each
//! form of assertion is defined only in this module.

use std::process::Abort;

/// Asserts that a condition holds for a row of a test table.
pub fn expect<A: Abort>(rt: &A, holds: bool, row: &str) {
    assert!(rt; holds, "{row}");
}

/// Asserts that a number of a row of a test table is the expected one.
pub fn expect_number<A: Abort>(rt: &A, got: u32, want: u32, row: &str) {
    assert_eq!(rt; got, want, "{row}");
}

/// Asserts that a text of a row of a test table is the expected one.
pub fn expect_text<A: Abort>(rt: &A, got: &str, want: &str, row: &str) {
    assert_eq!(rt; got, want, "{row}");
}
