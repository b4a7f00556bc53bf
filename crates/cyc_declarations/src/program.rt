//! A typed program, which consists of its declarations and the bodies of its functions.
ghost use Rattle.std.specs.Prelude.{◌≡◌, ◌++◌, List, map, IfOk, OnOk};
ghost use Rattle.cyc_syntax.specs.inside.TreeView.{view_declaration, view_constructor};
ghost use Rattle.cyc_types.specs.TypeView.{view_ty};
ghost use Rattle.cyc_types.specs.TypedTrees.{Function};
ghost use Rattle.cyc_types.specs.TypedTreeView as typed_view;
ghost use Rattle.cyc_types.specs.typing.Scopes.{Field as FieldValue, Exception};
ghost use Rattle.cyc_types.specs.typing.DeclarationRules.{structs_of, fields_of, exceptions_of};
ghost use Rattle.cyc_types.specs.typing.Programs.{function_number, struct_types};
ghost use Rattle.cyc_scope.specs.inside.Entries.{view_field};
ghost use Rattle.cyc_declarations.specs.inside.Declaring.{exceptions_made};
ghost use Rattle.cyc_declarations.specs.inside.Parts.{program_with, program_made};

use crate::fields::fields_of;
use crate::globals::globals_of;
use cyc_scope::Field;
use cyc_syntax::{Constructor, Declaration};
use cyc_types::{Known, RegionNames, Ty, TypedTree, typed};
use std::alloc::{AllocError, Global};

/// Returns the index of the function with the given name.
fn function_number(name: usize, declarations: &[Declaration]) -> usize
    ensures { result ≡ function_number name (map view_declaration declarations.now) }
{
    let mut number = 0;
    for declaration in declarations {
        if let Declaration::Function { name: declared, .. } = declaration {
            if declared.name.number == name {
                return number;
            }
            number += 1;
        }
    }
    number
}

/// Returns the types of a struct's fields.
fn types_of(alloc: Global, fields: &[Field]) -> Result<Vec<Ty>, AllocError>
    ensures { IfOk result (λ v. map view_ty v.items ≡ map (λ (f : FieldValue). f.of_type) (map view_field fields.now)) }
{
    let mut all = Vec::with_capacity(alloc, fields.len())?;
    for field in fields {
        all.push(field.of_type.share()?)?;
    }
    Ok(all)
}

/// Returns the structs of a program.
fn struct_types(
    alloc: Global,
    known: &Known,
    declarations: &[Declaration],
) -> Result<Vec<typed::StructType>, AllocError>
    ensures { IfOk result (λ v. map typed_view.view_struct v.items
        ≡ struct_types (structs_of (map view_declaration declarations.now)) (fields_of known.now (map view_declaration declarations.now))) }
{
    let mut all = Vec::new(alloc);
    let mut names = RegionNames::new(alloc);
    for declaration in declarations {
        if let Declaration::Struct {
            regions,
            fields,
            ..
        } = declaration
        {
            let fields = fields_of(alloc, known, &mut names, regions, fields)?;
            all.push(typed::StructType {
                parameters: regions.len(),
                fields: types_of(alloc, &fields)?,
            })?;
        }
    }
    Ok(all)
}

/// Appends to the list, for each declared exception, a flag that is true if the exception carries an int.
fn add_exceptions(all: &mut Vec<bool>, constructors: &[Constructor]) -> Result<(), AllocError>
    ensures { OnOk result (all.new.items ≡ all.old.items ++ map (λ (e : Exception). e.has_int) (exceptions_made (map view_constructor constructors.now))) }
{
    for constructor in constructors {
        all.push(constructor.has_int)?;
    }
    Ok(())
}

/// Returns, for each exception of a program, a flag that is true if the exception carries an int.
fn exceptions_of(alloc: Global, declarations: &[Declaration]) -> Result<Vec<bool>, AllocError>
    ensures { IfOk result (λ v. v.items ≡ map (λ (e : Exception). e.has_int) (exceptions_of (map view_declaration declarations.now))) }
{
    let mut all = Vec::new(alloc);
    for declaration in declarations {
        if let Declaration::Exceptions { constructors } = declaration {
            add_exceptions(&mut all, constructors)?;
        }
    }
    Ok(all)
}

/// The parts of a typed program other than its functions: the structs, exceptions and globals, and the index of `main`.
#[derive(Drop)]
pub struct Parts {
    structs: Vec<typed::StructType>,
    exceptions: Vec<bool>,
    globals: Vec<typed::Global>,
    main: usize,
}

/// Returns the parts of a program other than the bodies of its functions, from its declarations. The
/// names of the built-in regions, of the structs and of `main` are found in `known`.
pub fn parts_of(
    alloc: Global,
    known: &Known,
    declarations: &[Declaration],
) -> Result<Parts, AllocError>
    ensures { IfOk result (λ parts. (fs : List Function) → program_with parts fs ≡ program_made known.now (map view_declaration declarations.now) fs) }
{
    Ok(Parts {
        structs: struct_types(alloc, known, declarations)?,
        exceptions: exceptions_of(alloc, declarations)?,
        globals: globals_of(alloc, known, declarations)?,
        main: function_number(known.main(), declarations),
    })
}

impl Parts {
    ghost use Rattle.std.specs.Prelude.{◌≡◌, map};
    ghost use Rattle.cyc_types.specs.TypedTreeView.{view_function, view_program};
    ghost use Rattle.cyc_declarations.specs.inside.Parts.{program_with};

    /// Returns the typed program that consists of the given functions and the given other parts (structs, exceptions, globals, `main`).
    pub fn with_functions(self, functions: Vec<typed::Function>) -> TypedTree
        ensures { view_program result ≡ program_with self (map view_function functions.items) }
    {
        TypedTree {
            structs: self.structs,
            exceptions: self.exceptions,
            globals: self.globals,
            functions,
            main: self.main,
        }
    }
}
