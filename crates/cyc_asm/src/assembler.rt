//! Assembles labelled code into words.

ghost use Rattle.std.specs.Prelude.{◌≡◌, length, All, IfOk, IfErr};
ghost use Rattle.cyc_words.specs.Fault.{memory_fault};
ghost use Rattle.cyc_select.specs.inside.Labelled.{Fits, IsFormedLine};
ghost use Rattle.cyc_asm.specs.inside.Layout.{addresses_of};
ghost use Rattle.cyc_asm.specs.inside.Text.{IsTextOf};
ghost use Rattle.cyc_asm.specs.inside.Slots.{AreNamed};
ghost use Rattle.cyc_asm.specs.inside.Order.{arranged};
ghost use Rattle.cyc_asm.specs.inside.Words.{words_in_order};
ghost use Rattle.cyc_asm.specs.inside.Machine.{Runs};

use crate::{emission, layout, order, slots};
use cyc_select::{Code, Line};
use cyc_words::Fault;
use std::alloc::{AllocError, Global};

/// Returns the words of these lines, in their order.
fn words_in_order(alloc: Global, lines: &[Line], named: &[bool]) -> Result<Vec<u32>, AllocError>
    requires formed { All (IsFormedLine (length lines.now)) lines.now }
    requires fits { Fits lines.now }
    requires named { AreNamed lines.now (length lines.now) named.now }
    ensures { IfOk result (λ words. words.items ≡ words_in_order lines.now) }
{
    let most = layout::most_of_each(alloc, lines)?;
    let positions = layout::position_of_each(alloc, lines, named, &most)?;
    emission::words_of_all(alloc, lines, named, &most, &positions)
}

fn words_of(alloc: Global, lines: &[Line]) -> Result<Vec<u32>, AllocError>
    requires formed { All (IsFormedLine (length lines.now)) lines.now }
    requires fits { Fits lines.now }
    ensures { IfOk result (λ words. words.items ≡ words_in_order (arranged lines.now)) }
{
    let named = slots::named_of_each(alloc, lines)?;
    let arranged = order::arranged(alloc, lines, &named)?;
    words_in_order(alloc, &arranged, &named)
}

/// Returns the words of labelled code, from the start of the machine's text range on.
///
/// The only error that `assemble` returns is lack of memory.
pub fn assemble(alloc: Global, code: &Code) -> Result<Vec<u32>, Fault>
    // The returned words represent the labelled code. The instruction of each reachable line occurs once, and each label is its line's
    // address. Each delay slot contains one of the three instructions before its branch or jump, or is empty. The text contains nothing
    // but the words of the code's lines.
    ensures means { IfOk result (λ words. IsTextOf code.now (addresses_of code.now) words.items) }
    // The MIPS machine that runs these words behaves as the labelled machine does.
    ensures runs { IfOk result (λ words. Runs code.now (addresses_of code.now) words.items) }
    ensures refused { IfErr result (λ e. e ≡ memory_fault) }
{
    Ok(words_of(alloc, code.lines())?)
}
