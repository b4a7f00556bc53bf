//! Laws of the definitions in `specs/`. Each function in this file has an empty body, and its contract states one law, which is proved
//! with the crate.

ghost use Rattle.cyc_resuming.specs.Rows.{RowsJoin, RowsEnd, RowsSpend};

/// Calls one after another are one call: their instructions, and the bytes that they read and print, are those of a single one that leads
/// from where the first began to where the last ended.
pub fn rows_join()
    ensures { RowsJoin }
{}

/// A run that is continued in any number of calls is the whole run. If the run ends, then what the calls read, printed and counted is an
/// answer of `run_with` for the whole input; and so it is if the last call used up its budget, for a budget of all their instructions.
pub fn rows_are_runs()
    ensures ended { RowsEnd }
    ensures spent { RowsSpend }
{}
