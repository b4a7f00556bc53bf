//! Inlines small functions that call no function.
ghost use Rattle.std.specs.Prelude.{◌≡◌, ◌+◌, ◌<◌, ◌≤◌, ◌⊎◌, IfOk, length, max, sum_by};
ghost use Rattle.cyc_plain.specs.declared.limits.TheConstants as limits;
ghost use Rattle.cyc_plain.specs.inside.Program.{size};
ghost use Rattle.cyc_plain.specs.inside.WellFormed.{IsPlain};
ghost use Rattle.cyc_inline.specs.inside.Changes.{AreBegun, AreReported, IsChange, IsWork, left_of, notes_of};
ghost use Rattle.cyc_inline.specs.inside.Inlined.{IsInlined};

use crate::emptying::empty;
use crate::leaf::leafs_of;
use crate::making::{Made, make, make_duplicates};
use crate::naming::Search;
use crate::replacing::{Opened, replace};
use crate::sizes::spare_of;
use cyc_plain::Plain;
use std::alloc::{AllocError, Global};

/// The result of inlining: the new program, and the source instructions from which the code of its functions is made.
#[derive(Drop)]
pub struct Inlined {
    /// The inlined program, which behaves as the source program.
    pub plain: Plain,
    /// For each replaced function, the source function and the source instructions from which the new code is made.
    pub opened: Vec<Option<Opened>>,
}

/// The change made to the functions of a program: inlining of calls, or duplication of instructions.
#[derive(Clone, Copy)]
pub(crate) enum Work<'a> {
    /// Calls of leaf functions are inlined. `leafs` gives, for each function, the number of its instructions placed at an
    /// inlined call, or 0 if it may not be inlined.
    Calls { leafs: &'a [usize] },
    /// Duplicate instructions.
    Duplicates,
}

fn has_any(leafs: &[usize]) -> bool {
    for line in leafs {
        if *line > 0 {
            return true;
        }
    }
    false
}

/// Returns the index of the first function whose code may be changed by inlining or duplication, or
/// the number of functions if there is none.
fn first_of(search: &mut Search, plain: &Plain, work: Work) -> Result<usize, AllocError> {
    match work {
        Work::Calls { leafs } => {
            if has_any(leafs) {
                Ok(0)
            } else {
                Ok(plain.functions().len())
            }
        }
        Work::Duplicates => search.first_needing(plain),
    }
}

/// Returns the number of words of machine code by which a program may grow, if the functions from `first` on may be replaced.
fn spare_for(plain: &Plain, first: usize, room: usize) -> usize
    ensures { (result ≡ 0) ⊎ ((sum_by size plain.now.functions + result ≤ room) × (sum_by size plain.now.functions + result ≤ limits.MOST_SIZE)) }
{
    if first < plain.functions().len() {
        spare_of(plain, room)
    } else {
        0
    }
}

/// Returns the number of words of machine code by which the functions after a replaced function may together grow.
fn left_of(change: &Option<Made>, spare: usize) -> usize
    ensures { result ≡ left_of change.now spare }
{
    match change {
        Some(made) => made.spare,
        None => spare,
    }
}

/// Returns the replacement of the function with index `number`, if there is one. Functions before the first function to be
/// changed have no replacement.
fn change_of(
    alloc: Global,
    search: &mut Search,
    plain: &Plain,
    work: Work,
    first: usize,
    number: usize,
    spare: usize,
) -> Result<Option<Made>, AllocError>
    requires plain { IsPlain plain.now }
    requires work { IsWork plain.now work }
    requires number { number < length plain.now.functions }
    ensures { IfOk result (IsChange plain.now number spare) }
{
    if number < first {
        return Ok(None);
    }
    match work {
        Work::Calls { leafs } => make(alloc, plain, leafs, number, spare),
        Work::Duplicates => make_duplicates(alloc, search, plain, number, spare),
    }
}

/// Returns, for each function of a program, its replacement if it has one.
fn changes_of(
    alloc: Global,
    plain: &Plain,
    work: Work,
    room: usize,
) -> Result<Vec<Option<Made>>, AllocError>
    requires { IsWork plain.now work }
    ensures as_many { IfOk result (λ changes. length changes.items ≡ length plain.now.functions) }
    ensures made { IfOk result (λ changes. AreBegun plain.now room changes.items 0) }
{
    let count = plain.functions().len();
    let mut changes = Vec::with_capacity(alloc, count)?;
    let mut search = Search::new(alloc);
    let first = first_of(&mut search, plain, work)?;
    let mut spare = spare_for(plain, first, room);
    for number in 0..count {
        let change = change_of(alloc, &mut search, plain, work, first, number, spare)?;
        spare = left_of(&change, spare);
        changes.push(change)?;
    }
    Ok(changes)
}

/// Returns the program in which calls are inlined or instructions are duplicated, as requested.
pub(crate) fn remake(
    alloc: Global,
    plain: Plain,
    work: Work,
    room: usize,
) -> Result<Inlined, AllocError>
    requires { IsWork plain work }
    ensures inlined { IfOk result (λ made. IsInlined plain made.plain) }
    ensures size { IfOk result (λ made. sum_by size made.plain.functions ≤ max (sum_by size plain.functions) room) }
    ensures reported { IfOk result (λ made. AreReported plain made.plain (notes_of made.opened.items)) }
{
    let changes = changes_of(alloc, &plain, work, room)?;
    let parts = plain.into_parts();
    let replaced = replace(alloc, parts.functions, changes)?;
    Ok(Inlined {
        plain: Plain::new(replaced.functions, parts.globals, parts.main),
        opened: replaced.opened,
    })
}

/// Returns the program with calls of small leaf functions inlined; functions that are then never called are reduced to a return. The
/// new program's size is at most `room` words, or at most the size of the given program.
pub fn inline(alloc: Global, plain: Plain, room: usize) -> Result<Inlined, AllocError>
    ensures inlined { IfOk result (λ made. IsInlined plain made.plain) }
    ensures size { IfOk result (λ made. sum_by size made.plain.functions ≤ max (sum_by size plain.functions) room) }
    ensures reported { IfOk result (λ made. AreReported plain made.plain (notes_of made.opened.items)) }
{
    let leafs = leafs_of(alloc, &plain)?;
    let work = Work::Calls { leafs: &leafs };
    let inlined = remake(alloc, plain, work, room)?;
    let emptied = empty(alloc, inlined)?;
    Ok(emptied)
}
