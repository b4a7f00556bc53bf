//! The declarations of a program; a declaration is found by its name in constant time.

use crate::declared::{Declared, Entity};
use crate::exceptions::{Exceptions, Thrown};
use crate::meaning::Meaning;
use crate::routine::Routine;
use crate::stop::Stop;
use cyc_types::typed::Callee;
use cyc_types::{Known, Signature, Ty};
use std::alloc::Global;
use std::marker::Model;

/// A field of a struct. In the type of a field, region variable i stands for the struct's i-th region parameter.
#[derive(Drop)]
pub struct Field {
    pub name: usize,
    pub of_type: Ty,
}

/// The declarations of a program, as the bodies of its functions see them.
#[derive(Drop)]
pub struct Program {
    known: Known,
    /// The fields of each struct, in the order of the structs' indices.
    fields: Vec<Vec<Field>>,
    exceptions: Exceptions,
    /// The functions and globals of the program.
    declared: Declared,
}

impl Model for Program {
    ghost use Rattle.std.specs.Prelude.{map};
    ghost use Rattle.std.specs.Coded.{codes};
    ghost use Rattle.cyc_types.specs.typing.Programs.{Program as ProgramValue};
    ghost use Rattle.cyc_scope.specs.inside.Codes.{ty_code};

    ghost Value = { ProgramValue };

    ghost coded = { Prim.hlevel (codes, ty_code) };

    ghost use Rattle.cyc_scope.specs.inside.Entries.{view_fields};

    ghost view = { λ p. record { known = p.known; fields = map view_fields p.fields.items; exceptions = p.exceptions; declared = p.declared } };
}

impl Program {
    ghost use Rattle.std.specs.Prelude.{◌≡◌, [], ◌∷◌, ◌++◌, map, slice_get, unwrap_or, option_map, IsTrue, OnOk, IfErr, IfSome};
    ghost use Rattle.cyc_types.specs.declared.region.Region.TheVariants as regions;
    ghost use Rattle.cyc_types.specs.TypedTrees as typed;
    ghost use Rattle.cyc_types.specs.TypeView.{view_ty};
    ghost use Rattle.cyc_types.specs.inside.SignatureView.{view_signature};
    ghost use Rattle.cyc_types.specs.typing.Scopes as scopes;
    ghost use Rattle.cyc_types.specs.typing.Statements.{exception_among, exception_number};
    ghost use Rattle.cyc_scope.specs.declared.stop.Stop.TheVariants.{Memory};
    ghost use Rattle.cyc_scope.specs.inside.Meanings.{view_meaning};
    ghost use Rattle.cyc_scope.specs.inside.Entries.{view_field, view_fields};
    ghost use Rattle.cyc_scope.specs.inside.Plain.{IsPlainRoutine};

    /// Returns a program with the given built-in and struct names and no declarations yet.
    pub fn new(alloc: Global, known: Known) -> Program
        ensures { result ≡ record { known = known; fields = []; exceptions = []; declared = [] } }
    {
        Program {
            known,
            fields: Vec::new(alloc),
            exceptions: Exceptions::new(alloc),
            declared: Declared::new(alloc),
        }
    }

    /// Returns the names that are known everywhere in the program's text, such as those of structs.
    pub fn known(&self) -> &Known
        ensures { result.now ≡ self.now.known }
    {
        &self.known
    }

    /// Returns the fields of the struct with the given index, or an empty list if the struct does not exist.
    pub fn fields(&self, number: usize) -> &[Field]
        ensures { map view_field result.now ≡ unwrap_or (slice_get self.now.fields number) [] }
    {
        match self.fields.get(number) {
            Some(fields) => fields,
            None => &[],
        }
    }

    /// Returns the exception with the given name.
    pub fn exception(&self, name: usize) -> Option<Thrown>
        ensures has_int { exception_among self.now.exceptions name ≡ option_map (λ t. t.has_int) result }
        ensures number { IfSome result (λ t. t.number ≡ exception_number self.now.exceptions name) }
    {
        self.exceptions.find(name)
    }

    /// Returns the meaning of a name that denotes no local.
    pub fn meaning(&self, name: usize) -> Meaning<'_>
        ensures { view_meaning result ≡ scopes.meaning_in self.now.declared name }
    {
        self.declared.meaning(name)
    }

    /// Returns true if a name that no local has denotes a function with a plain signature (each region of its parameters occurs only once).
    pub(crate) fn is_plain(&self, name: usize) -> bool
        ensures { IsTrue result → IsPlainRoutine (scopes.meaning_in self.now.declared name) }
    {
        self.declared.is_plain(name)
    }

    /// Adds the fields of the next struct.
    pub fn add_fields(&mut self, fields: Vec<Field>) -> Result<(), Stop>
        ensures added { OnOk result (self.new ≡ record self.old { fields = self.old.fields ++ view_fields fields ∷ [] }) }
        ensures memory { IfErr result (λ e. e ≡ Memory) }
    {
        self.fields.push(fields)?;
        Ok(())
    }

    /// Declares an exception of the program after the exceptions declared so far.
    pub fn add_exception(&mut self, name: usize, has_int: bool) -> Result<(), Stop>
        ensures added { OnOk result (self.new ≡ record self.old { exceptions = self.old.exceptions ++ record { name = name; has_int = has_int } ∷ [] }) }
        ensures memory { IfErr result (λ e. e ≡ Memory) }
    {
        self.exceptions.declare(name, has_int)
    }

    /// Declares the global with the given index; the heap region contains the global.
    pub fn declare_global(&mut self, name: usize, number: usize, of_type: Ty) -> Result<(), Stop>
        ensures declared { OnOk result (self.new ≡ record self.old { declared = self.old.declared ++ record { name = name; meaning = scopes.Variable (typed.Global number) (view_ty of_type) regions.Heap } ∷ [] }) }
        ensures memory { IfErr result (λ e. e ≡ Memory) }
    {
        self.declared
            .declare(name, Entity::Global { number, of_type })
    }

    /// Declares a function of the program with its index and its signature.
    pub fn declare_function(
        &mut self,
        name: usize,
        callee: Callee,
        signature: Signature,
    ) -> Result<(), Stop>
        ensures declared { OnOk result (self.new ≡ record self.old { declared = self.old.declared ++ record { name = name; meaning = scopes.Routine callee (view_signature signature) } ∷ [] }) }
        ensures memory { IfErr result (λ e. e ≡ Memory) }
    {
        self.declared.declare(
            name,
            Entity::Function {
                callee,
                routine: Routine::new(signature),
            },
        )
    }
}
