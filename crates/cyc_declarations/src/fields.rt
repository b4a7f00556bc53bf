//! The fields of structs: their names and types.
ghost use Rattle.std.specs.Prelude.{◌≡◌, map, IfOk};
ghost use Rattle.cyc_syntax.specs.inside.TreeView.{view_name, view_member};
ghost use Rattle.cyc_types.specs.typing.DeclarationRules.{parameter_names, fields_written};
ghost use Rattle.cyc_scope.specs.inside.Entries.{view_field};

use crate::structs::declare_parameters;
use cyc_scope::Field;
use cyc_syntax::{Ident, Member};
use cyc_types::formation::type_written;
use cyc_types::{Known, Region, RegionNames};
use std::alloc::{AllocError, Global};

/// Returns the fields of a struct, from the names of its region parameters.
fn fields_written(
    alloc: Global,
    known: &Known,
    names: &RegionNames,
    fields: &[Member],
) -> Result<Vec<Field>, AllocError>
    ensures { IfOk result (λ fs. map view_field fs.items ≡ fields_written known.now names.now (map view_member fields.now)) }
{
    let mut all = Vec::with_capacity(alloc, fields.len())?;
    for field in fields {
        let of_type = type_written(alloc, known.structs(), names, Region::Heap, &field.of_type)?;
        all.push(Field {
            name: field.name.name.number,
            of_type,
        })?;
    }
    Ok(all)
}

/// Returns the fields of a struct, from its region parameters and its field declarations.
pub(crate) fn fields_of(
    alloc: Global,
    known: &Known,
    names: &mut RegionNames,
    parameters: &[Ident],
    fields: &[Member],
) -> Result<Vec<Field>, AllocError>
    ensures { IfOk result (λ fs. map view_field fs.items
        ≡ fields_written known.now (parameter_names (map view_name parameters.now) 0 known.now.regions) (map view_member fields.now)) }
{
    known.reset(names)?;
    declare_parameters(names, parameters)?;
    fields_written(alloc, known, names, fields)
}
