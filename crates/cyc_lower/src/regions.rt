//! Emits the code of regions. A region handle is one machine word. For each lexical region, a slot
//! contains the number of regions open before, with which the region is closed.
ghost use Rattle.std.specs.Prelude.{◌≡◌, ◌+◌, ◌≤◌, IfOk, length};
ghost use Rattle.cyc_lower_proof.specs.inside.ControlCode.{after_record, closed_code, closing_code, dynamic_code, kept_code, named_code, opened_code};
ghost use Rattle.cyc_lower_proof.specs.inside.ControlCode.{restored_code};
ghost use Rattle.cyc_lower.specs.inside.Emission.{Appends, Gives, most_locals, view_starts};

use crate::emitter::Emitter;
use crate::locals::slot_of;
use crate::operands::slot_after;
use crate::operators::move_of;
use crate::starts::Starts;
use cyc_plain::{Instruction, Operand, RECORD_WORDS, Request};
use cyc_types::typed::Kind;
use std::alloc::AllocError;

impl Emitter {
    /// Emits the move of a value from an operand to a declared local.
    pub(crate) fn name_local(
        &mut self,
        starts: &Starts,
        words: usize,
        number: usize,
        source: Operand,
    ) -> Result<(), AllocError>
        ensures { Appends result self.old self.new (named_code (view_starts starts.now) words number source) }
    {
        self.emit(move_of(words, slot_of(starts, number), source))
    }

    /// Emits the opening of a lexical region, whose handle becomes the value of a local. The number of regions open before is moved to
    /// the slot `free`, which keeps it until the region is closed.
    pub(crate) fn open_lexical(
        &mut self,
        starts: &Starts,
        number: usize,
        free: usize,
    ) -> Result<(), AllocError>
        ensures { Appends result self.old self.new (opened_code (view_starts starts.now) number free) }
    {
        let following = slot_after(free, Kind::Handle)?;
        let mark = slot_after(following, Kind::Handle)?;
        let open = Instruction::Ask {
            request: Request::OpenLexical {
                destination: following,
            },
        };
        let keep = Instruction::Move {
            destination: free,
            source: Operand::Slot { number: mark },
        };
        self.emit_both(open, keep)?;
        self.name_local(starts, 1, number, Operand::Slot { number: following })
    }

    /// Emits the closing of the newest lexical regions until only as many are open as the slot `mark` says.
    pub(crate) fn close_lexical(&mut self, mark: usize) -> Result<(), AllocError>
        ensures { Appends result self.old self.new (closed_code mark) }
    {
        self.emit(Instruction::Ask {
            request: Request::CloseTo {
                mark: Operand::Slot { number: mark },
            },
        })
    }

    /// Emits the beginning of a `try`. The handler record of the `try` is in the slots from `free` on, followed by the number of open
    /// lexical regions if the program has any. Returns the slot after the handler record and, if it is stored, the number of open
    /// lexical regions.
    pub(crate) fn begin_try(&mut self, starts: &Starts, free: usize) -> Result<usize, AllocError>
        requires { free ≤ most_locals }
        ensures { Gives (after_record (view_starts starts.now) free) result self.old self.new (kept_code (view_starts starts.now) free) }
    {
        let following = free + RECORD_WORDS;
        if starts.scopes.is_none() {
            return Ok(following);
        }
        self.emit(Instruction::CountLexical {
            destination: following,
        })?;
        Ok(following + 1)
    }

    /// Emits the closing of the lexical regions that were opened in a `try`, for an exception that reaches the handler of the `try`.
    pub(crate) fn restore_scopes(&mut self, starts: &Starts, free: usize) -> Result<(), AllocError>
        requires { free ≤ most_locals }
        ensures { Appends result self.old self.new (restored_code (view_starts starts.now) free) }
    {
        match starts.scopes {
            Some(_) => self.close_lexical(free + RECORD_WORDS),
            None => Ok(()),
        }
    }

    /// Emits the creation of a dynamic region, whose key becomes the value of a local.
    pub(crate) fn open_dynamic(
        &mut self,
        starts: &Starts,
        number: usize,
        free: usize,
    ) -> Result<(), AllocError>
        ensures { Appends result self.old self.new (dynamic_code (view_starts starts.now) number free) }
    {
        self.emit(Instruction::Ask {
            request: Request::OpenDynamic { destination: free },
        })?;
        self.name_local(starts, 1, number, Operand::Slot { number: free })
    }

    /// Emits the closing of the dynamic region that a key opens.
    pub(crate) fn close_dynamic(&mut self, handle: Operand) -> Result<(), AllocError>
        ensures { Appends result self.old self.new (closing_code handle) }
    {
        self.emit(Instruction::Ask {
            request: Request::CloseDynamic { handle },
        })
    }
}
