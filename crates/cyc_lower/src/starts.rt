//! The slots of locals, the words of globals and the code positions that the lowering of a function needs.
ghost use Rattle.std.specs.Prelude.{◌^◌, ◌+◌, ◌≤◌};

use cyc_types::typed::StructType;
use std::alloc::Global;

/// A function's lowering data: the slots of the locals, the slot after the locals, the structs, and the position after which the blocks
/// that raise exceptions come. The lowering data also contain the slots of the loop counters that fill enclosing arrays, outermost
/// first, and the indices of the first words of the globals. The lowering data of a function also contain the offset after a handler
/// record at which a `try` stores the number of open lexical regions.
#[derive(Clone, Copy)]
pub(crate) struct Starts<'a> {
    pub(crate) locals: &'a [usize],
    pub(crate) tag_slot: usize,
    pub(crate) structs: &'a [StructType],
    pub(crate) raises: usize,
    pub(crate) counters: &'a [usize],
    pub(crate) globals: &'a [usize],
    pub(crate) scopes: Option<usize>,
    pub(crate) alloc: Global,
    pub(crate) ghost low: { raises ≤ 2 ^ 63 + 8 },
}
