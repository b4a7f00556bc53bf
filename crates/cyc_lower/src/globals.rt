//! Lowers globals. Each global has as many machine words as its type, and the globals follow each other in the order of their indices.
ghost use Rattle.std.specs.Prelude.{◌≡◌, ◌≤◌, ◌++◌, map, IfOk};
ghost use Rattle.cyc_types.specs.TypedTreeView.{view_constant, view_global};
ghost use Rattle.cyc_meaning.specs.FrameCount.{words_of_all};
ghost use Rattle.cyc_plain.specs.declared.limits.TheConstants.{MOST_GLOBALS};
ghost use Rattle.cyc_lower_proof.specs.inside.Slots.{global_of, global_types, starts_from};
ghost use Rattle.cyc_lower_proof.specs.inside.ValueCode.{global_code, load_word, store_word, word_by_word};
ghost use Rattle.cyc_lower_proof.specs.inside.Lowering.{initial_word, lower_global, lower_globals};
ghost use Rattle.cyc_lower.specs.inside.Emission.{Appends, view_starts};

use crate::emitter::Emitter;
use crate::operands::MOST_SLOTS;
use crate::starts::Starts;
use cyc_plain::{Instruction, Operand};
use cyc_sizes::words_of;
use cyc_types::typed::{self, Constant};
use std::alloc::{AllocError, Global};

/// Returns the index, among the words of all globals, of the first word of the given global.
pub(crate) fn global_of(starts: &Starts, number: usize) -> usize
    ensures { result ≡ global_of (view_starts starts.now) number }
{
    match starts.globals.get(number) {
        Some(first) => *first,
        None => 0,
    }
}

/// Returns, for each global, the index of its first word among the words of all globals.
pub(crate) fn starts_of_globals(
    alloc: Global,
    globals: &[typed::Global],
) -> Result<Vec<usize>, AllocError>
    requires { words_of_all (global_types (map view_global globals.now)) ≤ MOST_GLOBALS }
    ensures { IfOk result (λ starts. starts.items ≡ starts_from 0 (global_types (map view_global globals.now))) }
{
    let mut starts = Vec::new(alloc);
    let mut first = 0;
    for global in globals {
        starts.push(first)?;
        first += words_of(&global.of_type);
    }
    Ok(starts)
}

/// Returns the first word of the initial value of a global.
fn initial_word(value: Constant) -> u32
    ensures { result ≡ initial_word (view_constant value) }
{
    match value {
        Constant::Word { value } => value,
        Constant::Null => 0,
    }
}

/// Appends the initial words of a global: a number or null, followed by zeros.
fn add_global(words: &mut Vec<u32>, global: &typed::Global) -> Result<(), AllocError>
    ensures { IfOk result (λ _. words.new.items ≡ words.old.items ++ lower_global (view_global global.now)) }
{
    words.push(initial_word(global.value))?;
    let mut left = words_of(&global.of_type);
    while left > 1 {
        words.push(0)?;
        left -= 1;
    }
    Ok(())
}

/// Returns the initial words of all globals.
pub(crate) fn words_of_globals(
    alloc: Global,
    globals: &[typed::Global],
) -> Result<Vec<u32>, AllocError>
    ensures { IfOk result (λ words. words.items ≡ lower_globals (map view_global globals.now)) }
{
    let mut words = Vec::new(alloc);
    for global in globals {
        add_global(&mut words, global)?;
    }
    Ok(words)
}

impl Emitter {
    /// Emits the load of words of a global into slots. The indices of the loaded words and of the slots fit a machine word.
    pub(crate) fn load_global(
        &mut self,
        words: usize,
        first: usize,
        slot: usize,
    ) -> Result<(), AllocError>
        ensures { Appends result self.old self.new (word_by_word load_word words first slot) }
    {
        if words > MOST_SLOTS || first > MOST_SLOTS || slot > MOST_SLOTS {
            return Err(AllocError);
        }
        for index in 0..words {
            self.emit(Instruction::LoadGlobal {
                destination: slot + index,
                global: first + index,
            })?;
        }
        Ok(())
    }

    /// Emits the instructions that store the words of consecutive slots in the consecutive words of a global.
    fn save_words(&mut self, words: usize, first: usize, slot: usize) -> Result<(), AllocError>
        ensures { Appends result self.old self.new (word_by_word store_word words first slot) }
    {
        if words > MOST_SLOTS || first > MOST_SLOTS || slot > MOST_SLOTS {
            return Err(AllocError);
        }
        for index in 0..words {
            self.emit(Instruction::StoreGlobal {
                global: first + index,
                source: Operand::Slot {
                    number: slot + index,
                },
            })?;
        }
        Ok(())
    }

    /// Emits the store of a value in a global. A constant has one word, since every value with more words is in slots.
    pub(crate) fn store_global(
        &mut self,
        words: usize,
        first: usize,
        source: Operand,
    ) -> Result<(), AllocError>
        ensures { Appends result self.old self.new (global_code words first source) }
    {
        match source {
            Operand::Slot { number } => self.save_words(words, first, number),
            Operand::Word { .. } => self.emit(Instruction::StoreGlobal {
                global: first,
                source,
            }),
        }
    }
}
