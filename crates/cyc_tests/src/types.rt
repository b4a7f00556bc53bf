//! This file tests which region outlives which, against tables written by hand, while scopes open and close.

use crate::expect::{expect, expect_text};
use cyc_types::{Kind, Outlives, Region};
use std::alloc::Global;
use std::process::Abort;

const A: Region = Region::Variable(0);

const B: Region = Region::Variable(1);

const C: Region = Region::Variable(2);

const D: Region = Region::Variable(3);

/// Asserts for each of six regions which of these six regions it outlives. The six regions are, in this order, the heap, the
/// unique region, A, B, C and D.
fn expect_table<R: Abort>(rt: &R, alloc: Global, outlives: &Outlives, want: &str) -> Option<()> {
    let regions = [Region::Heap, Region::Unique, A, B, C, D];
    let mut got = String::new(alloc);
    for a in &regions {
        for b in &regions {
            let mark = if outlives.outlives(*a, *b) { '1' } else { '0' };
            got.push(mark).ok()?;
        }
        got.push(' ').ok()?;
    }
    expect_text(rt, &got, want, "regions");
    Some(())
}

/// Tests the outlives relation while a dynamic region, B, a lexical region, C, and an alias block, D, are opened one inside the other.
fn expect_scopes<R: Abort>(rt: &R, alloc: Global) -> Option<()> {
    let mut outlives = Outlives::new(alloc, &[], &[A, Region::Unique]).ok()?;
    outlives.open_scope(B, Kind::Dynamic).ok()?;
    outlives.open_scope(C, Kind::Lexical).ok()?;
    outlives.open_scope(D, Kind::Alias).ok()?;
    expect_table(
        rt,
        alloc,
        &outlives,
        "101111 010000 001010 000110 000010 000001 ",
    )?;
    outlives.close_scope();
    outlives.close_scope();
    expect_table(
        rt,
        alloc,
        &outlives,
        "101111 010000 001000 000100 000010 000001 ",
    )
}

/// Tests the outlives relation for two written constraints: A outlives B, and B outlives C.
fn expect_written<R: Abort>(rt: &R, alloc: Global) -> Option<()> {
    let written = Outlives::new(alloc, &[(A, B), (B, C)], &[]).ok()?;
    expect_table(
        rt,
        alloc,
        &written,
        "101111 010000 001110 000110 000010 000001 ",
    )
}

#[test]
fn scopes_within_scopes(rt: HostRuntime) {
    let made = expect_scopes(&rt, rt.alloc());
    expect(&rt, made.is_some(), "the scopes");
    let made = expect_written(&rt, rt.alloc());
    expect(&rt, made.is_some(), "the constraints");
}
