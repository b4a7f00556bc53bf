//! Tables that store indices of declarations; each table is indexed by the numbers that identify names.
ghost use Rattle.std.specs.Prelude.{◌≡◌, ℕ, ◌<◌, length, get_or, None, OnOk, IfErr};
ghost use Rattle.cyc_scope.specs.declared.stop.Stop.TheVariants.{Memory};

use crate::stop::Stop;

/// Grows the table until it has an entry for the name with number `name`.
pub(crate) fn grow(table: &mut Vec<Option<usize>>, name: usize) -> Result<(), Stop>
    ensures same { (x : ℕ) → get_or table.new.items x None ≡ get_or table.old.items x None }
    ensures memory { IfErr result (λ e. e ≡ Memory) }
    ensures long { OnOk result (name < length table.new.items) }
{
    if name < table.len() {
        return Ok(());
    }
    let Some(length) = name.checked_add(1) else {
        return Err(Stop::Memory);
    };
    table.resize(length, None)?;
    Ok(())
}

ghost use Rattle.std.specs.Prelude.{suc, IfOk};

/// Returns the number plus one, or fails on overflow.
pub(crate) fn after(number: usize) -> Result<usize, Stop>
    ensures next { IfOk result (λ n. n ≡ suc number) }
    ensures memory { IfErr result (λ e. e ≡ Memory) }
{
    match number.checked_add(1) {
        Some(next) => Ok(next),
        None => Err(Stop::Memory),
    }
}
