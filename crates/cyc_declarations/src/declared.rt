//! Collects the declarations of a program.
ghost use Rattle.std.specs.Prelude.{◌≡◌, suc, map, replicate, IfOk, OnOk, IfErr};
ghost use Rattle.cyc_syntax.specs.inside.TreeView.{view_declaration, view_constructor};
ghost use Rattle.cyc_types.specs.Types.{Int};
ghost use Rattle.cyc_types.specs.inside.SignatureView.{view_signature};
ghost use Rattle.cyc_types.specs.typing.Scopes.{signature_of_ints};
ghost use Rattle.cyc_scope.specs.declared.stop.Stop.TheVariants.{Memory};
ghost use Rattle.cyc_declarations.specs.inside.Declaring.{program_before, first_state, with_exceptions, after_declarations};

use crate::fields::fields_of;
use crate::signatures::signature_of;
use crate::tree::number_of;
use cyc_scope::{Program, Stop};
use cyc_syntax::{Constructor, Declaration, Ident, Member, Names, Parameters, WrittenType};
use cyc_types::formation::type_written;
use cyc_types::typed::Callee;
use cyc_types::{Known, Region, RegionNames, Signature, Ty};
use smallvec::SmallVec;
use std::alloc::{AllocError, Global};

/// The declarations of a program that have been added so far.
#[derive(Drop)]
struct Declared {
    program: Program,
    /// The index that the next declared global gets.
    globals: usize,
    functions: usize,
    /// The region names that are in scope in the current declaration.
    regions: RegionNames,
}

/// Returns the signature of a built-in function with `count` int parameters and an int result.
fn signature_of_ints(alloc: Global, count: usize) -> Result<Signature, AllocError>
    ensures { IfOk result (λ s. view_signature s ≡ signature_of_ints (replicate count Int)) }
{
    let mut parameters = Vec::with_capacity(alloc, count)?;
    for _ in 0..count {
        parameters.push(Ty::Int)?;
    }
    Ok(Signature {
        variables: 0,
        parameters,
        result: Some(Ty::Int),
        effect: SmallVec::new(alloc),
        constraints: SmallVec::new(alloc),
    })
}

/// Returns the built-in declarations of a program, from the names of its built-in regions and structs and the number
/// that identifies the name `main`.
fn program_before(alloc: Global, names: &Names, known: Known) -> Result<Program, Stop>
    ensures program { IfOk result (λ p. p ≡ program_before names.now known) }
    ensures memory { IfErr result (λ e. e ≡ Memory) }
{
    let mut program = Program::new(alloc, known);
    program.add_exception(number_of(names, b"Null_Exception"), false)?;
    program.add_exception(number_of(names, b"Array_bounds"), false)?;
    program.add_exception(number_of(names, b"Array_size"), false)?;
    program.add_exception(number_of(names, b"Div_zero"), false)?;
    let putchar = signature_of_ints(alloc, 1)?;
    program.declare_function(number_of(names, b"putchar"), Callee::Putchar, putchar)?;
    let getchar = signature_of_ints(alloc, 0)?;
    program.declare_function(number_of(names, b"getchar"), Callee::Getchar, getchar)?;
    Ok(program)
}

/// Returns the given number plus one, or fails on overflow.
fn next(number: usize) -> Result<usize, Stop>
    ensures next { IfOk result (λ n. n ≡ suc number) }
    ensures memory { IfErr result (λ e. e ≡ Memory) }
{
    match number.checked_add(1) {
        Some(next) => Ok(next),
        None => Err(Stop::Memory),
    }
}

fn add_constructors(program: &mut Program, constructors: &[Constructor]) -> Result<(), Stop>
    ensures program { OnOk result (program.new ≡ with_exceptions (map view_constructor constructors.now) program.old) }
    ensures memory { IfErr result (λ e. e ≡ Memory) }
{
    for constructor in constructors {
        program.add_exception(constructor.name.name.number, constructor.has_int)?;
    }
    Ok(())
}

impl Declared {
    ghost use Rattle.std.specs.Prelude.{◌≡◌, map, option_map, OnOk, IfErr};
    ghost use Rattle.cyc_syntax.specs.inside.TreeView.{view_name, view_type, view_member, view_parameters, view_declaration};
    ghost use Rattle.cyc_scope.specs.declared.stop.Stop.TheVariants.{Memory};
    ghost use Rattle.cyc_declarations.specs.inside.Declaring.{state_of, with_struct, with_global, with_function, after_declaration};

    fn declare_struct(
        &mut self,
        alloc: Global,
        parameters: &[Ident],
        fields: &[Member],
    ) -> Result<(), Stop>
        ensures declared { OnOk result (state_of self.new ≡ with_struct (map view_name parameters.now) (map view_member fields.now) (state_of self.old)) }
        ensures memory { IfErr result (λ e. e ≡ Memory) }
    {
        let fields = fields_of(
            alloc,
            self.program.known(),
            &mut self.regions,
            parameters,
            fields,
        )?;
        self.program.add_fields(fields)
    }

    fn declare_global(
        &mut self,
        alloc: Global,
        name: Ident,
        written: &WrittenType,
    ) -> Result<(), Stop>
        ensures declared { OnOk result (state_of self.new ≡ with_global (view_type written.now) (view_name name) (state_of self.old)) }
        ensures memory { IfErr result (λ e. e ≡ Memory) }
    {
        let known = self.program.known();
        let of_type = type_written(
            alloc,
            known.structs(),
            known.regions(),
            Region::Heap,
            written,
        )?;
        let number = self.globals;
        self.globals = next(number)?;
        self.program
            .declare_global(name.name.number, number, of_type)
    }

    fn declare_function(
        &mut self,
        alloc: Global,
        returned: &Option<WrittenType>,
        name: Ident,
        parameters: &Parameters,
    ) -> Result<(), Stop>
        ensures declared { OnOk result (state_of self.new ≡ with_function (option_map view_type returned.now) (view_name name)
            (view_parameters parameters.now) (state_of self.old)) }
        ensures memory { IfErr result (λ e. e ≡ Memory) }
    {
        let signature = signature_of(
            alloc,
            self.program.known(),
            &mut self.regions,
            returned,
            parameters,
        )?;
        let number = self.functions;
        self.functions = next(number)?;
        self.program
            .declare_function(name.name.number, Callee::Function { number }, signature)
    }

    /// Adds one declaration to the declarations added so far.
    fn declare(&mut self, alloc: Global, declaration: &Declaration) -> Result<(), Stop>
        ensures declared { OnOk result (state_of self.new ≡ after_declaration (view_declaration declaration.now) (state_of self.old)) }
        ensures memory { IfErr result (λ e. e ≡ Memory) }
    {
        match declaration {
            Declaration::Struct {
                regions,
                fields,
                ..
            } => self.declare_struct(alloc, regions, fields),
            Declaration::Exceptions { constructors } => {
                add_constructors(&mut self.program, constructors)
            }
            Declaration::Global { of_type, name, .. } => {
                self.declare_global(alloc, *name, of_type)
            }
            Declaration::Function {
                result,
                name,
                parameters,
                ..
            } => self.declare_function(alloc, result, *name, parameters),
        }
    }
}

/// Returns all declarations of a program, including the built-in ones. The built-in declarations are computed from the names of built-in
/// regions, the names of structs and the number that identifies the name `main`.
pub(crate) fn program_declared(
    alloc: Global,
    names: &Names,
    known: Known,
    declarations: &[Declaration],
) -> Result<Program, Stop>
    ensures program { IfOk result (λ p. p ≡ after_declarations (map view_declaration declarations.now) (first_state names.now known)) }
    ensures memory { IfErr result (λ e. e ≡ Memory) }
{
    let mut declared = Declared {
        program: program_before(alloc, names, known)?,
        globals: 0,
        functions: 0,
        regions: RegionNames::new(alloc),
    };
    for declaration in declarations {
        declared.declare(alloc, declaration)?;
    }
    Ok(declared.program)
}
