//! All declarations of a program: the check that they are well-formed, and the table of declarations that results.
ghost use Rattle.std.specs.Prelude.{◌≡◌, map, IfOk};
ghost use Rattle.cyc_syntax.specs.Names.{number_of};
ghost use Rattle.cyc_syntax.specs.inside.TreeView.{view_declaration};
ghost use Rattle.cyc_types.specs.Rules.{run};
ghost use Rattle.cyc_types.specs.typing.DeclarationRules.{declares, rule_declarations};
ghost use Rattle.cyc_types.specs.typing.Programs.{known_of, before_all};
ghost use Rattle.cyc_scope.specs.inside.Code.{Gives};
ghost use Rattle.cyc_declarations.specs.inside.DeclarationRules.{rule_main, collected_program};

use crate::declared::program_declared;
use crate::distinct::check_constructors;
use crate::functions::check_function;
use crate::globals::check_global;
use crate::structs::{Inside, check_struct};
use cyc_scope::{Program, Settled, Stop};
use cyc_syntax::{Declaration, Names, Tree};
use cyc_types::{Known, NameSet, RegionNames};
use cyc_words::{Code, Span};
use std::alloc::{AllocError, Global};
use std::marker::Model;

/// Returns the index of a name in the program's list of names, from the name's text. A text that is not a name of the program
/// gets the index after all names.
pub(crate) fn number_of(names: &Names, text: &[u8]) -> usize
    ensures { result ≡ number_of names.now text.now }
{
    match names.find(text) {
        Some(name) => name.number,
        None => names.len(),
    }
}

/// The names that are declared before the current declaration, for each name space (such as structs and exceptions).
#[derive(Drop)]
struct Before {
    structs: NameSet,
    exceptions: NameSet,
    /// The names of the functions and globals declared before the current declaration.
    names: NameSet,
}

impl Model for Before {
    ghost use Rattle.cyc_types.specs.typing.DeclarationRules.{Before as BeforeValue};

    ghost Value = { BeforeValue };

    ghost view = { λ b. record { structs = b.structs; exceptions = b.exceptions; names = b.names } };
}

impl Before {
    ghost use Rattle.std.specs.Prelude.{◌≡◌, IfOk, OnOk};
    ghost use Rattle.cyc_syntax.specs.inside.TreeView.{view_declaration};
    ghost use Rattle.cyc_types.specs.Rules.{run};
    ghost use Rattle.cyc_types.specs.typing.DeclarationRules.{rule_declaration, after_head};
    ghost use Rattle.cyc_types.specs.typing.Programs.{before_all};
    ghost use Rattle.cyc_scope.specs.inside.Code.{Gives};

    /// Returns the names of the built-in declarations of a program.
    fn new(alloc: Global, names: &Names) -> Result<Before, AllocError>
        ensures { IfOk result (λ b. b ≡ before_all names.now) }
    {
        let mut exceptions = NameSet::new(alloc);
        exceptions.add(number_of(names, b"Div_zero"))?;
        exceptions.add(number_of(names, b"Array_size"))?;
        exceptions.add(number_of(names, b"Array_bounds"))?;
        exceptions.add(number_of(names, b"Null_Exception"))?;
        let mut declared = NameSet::new(alloc);
        declared.add(number_of(names, b"getchar"))?;
        declared.add(number_of(names, b"putchar"))?;
        Ok(Before {
            structs: NameSet::new(alloc),
            exceptions,
            names: declared,
        })
    }

    /// Checks that a declaration is well-formed and its names are new, and adds these names to the names declared so far.
    fn check_head(
        &mut self,
        alloc: Global,
        known: &Known,
        inside: &mut Inside,
        declaration: &Declaration,
    ) -> Result<(), Stop>
        ensures gives { Gives (λ _. tt) result (run (rule_declaration known.now self.old (view_declaration declaration.now))) }
        ensures before { OnOk result (self.new ≡ after_head self.old (view_declaration declaration.now)) }
    {
        match declaration {
            Declaration::Struct {
                name,
                regions,
                fields,
            } => check_struct(known, &mut self.structs, inside, *name, regions, fields),
            Declaration::Exceptions { constructors } => {
                check_constructors(&mut self.exceptions, constructors)
            }
            Declaration::Global {
                of_type,
                name,
                value,
            } => check_global(alloc, known, &mut self.names, of_type, *name, *value),
            Declaration::Function {
                result,
                name,
                parameters,
                ..
            } => check_function(
                alloc,
                known,
                &mut self.names,
                inside,
                result,
                *name,
                parameters,
            ),
        }
    }
}

/// Checks that all declarations of a program are well-formed.
fn check_declarations(
    alloc: Global,
    names: &Names,
    known: &Known,
    declarations: &[Declaration],
) -> Result<(), Stop>
    ensures { Gives (λ _. tt) result (run (rule_declarations known.now (before_all names.now) (map view_declaration declarations.now))) }
{
    let mut before = Before::new(alloc, names)?;
    let mut inside = Inside {
        members: NameSet::new(alloc),
        regions: RegionNames::new(alloc),
    };
    for declaration in declarations {
        before.check_head(alloc, known, &mut inside, declaration)?;
    }
    Ok(())
}

/// Returns the names that are known in the whole text of a program: the built-in regions, the structs and `main`.
fn known_of(alloc: Global, names: &Names, declarations: &[Declaration]) -> Result<Known, AllocError>
    ensures { IfOk result (λ k. k ≡ known_of names.now (map view_declaration declarations.now)) }
{
    let heap = number_of(names, b"H");
    let unique = number_of(names, b"U");
    let main = number_of(names, b"main");
    Known::new(alloc, heap, unique, main, declarations)
}

/// Returns true if a function or a global with this name is declared.
fn declares(name: usize, declarations: &[Declaration]) -> bool
    ensures { result ≡ declares name (map view_declaration declarations.now) }
{
    for declaration in declarations {
        match declaration {
            Declaration::Global { name: declared, .. }
            | Declaration::Function { name: declared, .. } => {
                if declared.name.number == name {
                    return true;
                }
            }
            _ => {}
        }
    }
    false
}

/// Checks that the function `main` is declared; the number given identifies the name `main`. The fault of a missing `main` has no position
/// in the text.
fn check_main(main: usize, declarations: &[Declaration]) -> Result<(), Stop>
    ensures { Gives (λ _. tt) result (run (rule_main main (map view_declaration declarations.now))) }
{
    let mut settled = Settled::new();
    let start = Span { line: 1, column: 1 };
    settled.demand(Code::BadMain, start, declares(main, declarations));
    settled.end()
}

/// Returns the declarations of a program if they are well-formed and include `main`; otherwise returns the first fault.
pub fn collect(alloc: Global, tree: &Tree) -> Result<Program, Stop>
    ensures { Gives (λ p. p) result (collected_program tree.now.names (map view_declaration tree.now.declarations.items)) }
{
    let declarations = tree.declarations.as_slice();
    let known = known_of(alloc, &tree.names, declarations)?;
    let main = known.main();
    check_declarations(alloc, &tree.names, &known, declarations)?;
    check_main(main, declarations)?;
    program_declared(alloc, &tree.names, known, declarations)
}
