//! This file states laws of the definitions in `specs/`. Each function of this file is empty, and its contract states one law, which
//! is proved with the crate.

ghost use Rattle.std.specs.Prelude.{◌↔◌, ℕ};
ghost use Rattle.cyc_elf.specs.Note.{AreLimits};
ghost use Rattle.cyc_machine_model.specs.Bounds.{AreAllowed};

/// The limits on pages and calls in an image have the same ranges as the limits of every run.
pub fn note_limits_are_allowed()
    ensures { (limits : ℕ × ℕ) → AreLimits limits ↔ AreAllowed limits.0 limits.1 }
{}
