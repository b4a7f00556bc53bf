//! Emitted code, with the source instruction from which each emitted instruction is made.
ghost use Rattle.std.specs.Prelude.{◌≡◌, ◌+◌, ◌<◌, ◌^◌, [], ◌∷◌, replicate};
ghost use Rattle.cyc_inline.specs.inside.Emission.{AddsCode, AddsOrigins};
ghost use Rattle.cyc_inline.specs.inside.Opened.{passing};

use crate::origin::Origin;
use cyc_plain::{Instruction, Operand};
use std::alloc::{AllocError, Global};

/// The code of a function emitted so far, with the source instruction from which each instruction is made.
#[derive(Drop)]
pub(crate) struct Emission {
    pub(crate) code: Vec<Instruction>,
    pub(crate) origins: Vec<Origin>,
}

impl Emission {
    pub(crate) fn new(alloc: Global) -> Emission
        ensures code { result.code.items ≡ [] }
        ensures origins { result.origins.items ≡ [] }
    {
        Emission {
            code: Vec::new(alloc),
            origins: Vec::new(alloc),
        }
    }

    /// Appends one instruction.
    pub(crate) fn push(
        &mut self,
        instruction: Instruction,
        origin: Origin,
    ) -> Result<(), AllocError>
        ensures code { AddsCode result self.old self.new (instruction ∷ []) }
        ensures origins { AddsOrigins result self.old self.new (origin ∷ []) }
    {
        self.code.push(instruction)?;
        self.origins.push(origin)?;
        Ok(())
    }

    /// Appends moves of `count` words from consecutive source slots to consecutive destination slots, one by one.
    pub(crate) fn push_passing(
        &mut self,
        destination: usize,
        source: usize,
        count: usize,
        origin: Origin,
    ) -> Result<(), AllocError>
        requires destination { destination + count < 2 ^ 64 }
        requires source { source + count < 2 ^ 64 }
        ensures code { AddsCode result self.old self.new (passing destination source count) }
        ensures origins { AddsOrigins result self.old self.new (replicate count origin) }
    {
        for word in 0..count {
            let source = Operand::Slot {
                number: source + word,
            };
            self.push(
                Instruction::Move {
                    destination: destination + word,
                    source,
                },
                origin,
            )?;
        }
        Ok(())
    }
}
