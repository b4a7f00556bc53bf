//! The scope of a function's body, and the tables of names that are reused for the check of each function.
ghost use Rattle.std.specs.Prelude.{◌≡◌, [], ◌∷◌, map, option_map, IfOk, OnOk, IfErr};
ghost use Rattle.cyc_syntax.specs.inside.TreeView.{view_name, view_member};
ghost use Rattle.cyc_types.specs.TypeView.{view_ty};
ghost use Rattle.cyc_types.specs.inside.SignatureView.{view_signature};
ghost use Rattle.cyc_types.specs.typing.Programs.{parameter_locals, body_regions};
ghost use Rattle.cyc_scope.specs.declared.stop.Stop.TheVariants.{Memory};
ghost use Rattle.cyc_scope.specs.inside.Marks.{Descends};
ghost use Rattle.cyc_scope.specs.inside.Bodies.{body_with};

use crate::locals::{Local, Locals, Sort};
use crate::program::Program;
use crate::regions::Regions;
use crate::scope::Scope;
use crate::stop::Stop;
use crate::table::after;
use cyc_syntax::{Ident, Member};
use cyc_types::{Kind, NameSet, Region, RegionNames, Signature, Ty};
use std::alloc::Global;

/// The tables of the names that a function declares. The tables have an entry for each name of the source text, so they are
/// reused for the check of the next function.
#[derive(Drop)]
pub struct Tables {
    /// The region names in scope at the start of a function's body, except the name of the region that the body itself opens.
    pub names: RegionNames,
    taken: NameSet,
    locals: Locals,
}

impl Tables {
    /// Returns empty tables, which contain no names and no locals.
    pub fn new(alloc: Global) -> Tables
        ensures { result.names ≡ [] }
    {
        Tables {
            names: RegionNames::new(alloc),
            taken: NameSet::new(alloc),
            locals: Locals::new(alloc),
        }
    }
}

/// Declares the parameters of a function as locals. The parameters are numbered from 0 and are stored in the function's own region.
#[tactic(auto, using(crate::proofs::EntryLemmas::parameters_end))]
fn declare_parameters(locals: &mut Locals, members: &[Member], types: &[Ty]) -> Result<(), Stop>
    requires { Descends 0 locals.old }
    ensures declared { OnOk result (locals.new ≡ parameter_locals (map view_member members.now) (map view_ty types.now) 0 locals.old) }
    ensures ordered { OnOk result (Descends 0 locals.new) }
    ensures memory { IfErr result (λ e. e ≡ Memory) }
{
    for number in 0..members.len() {
        let Some(of_type) = types.get(number) else {
            return Ok(());
        };
        locals.declare(Local {
            name: members[number].name.name.number,
            number,
            of_type: of_type.share()?,
            region: 0,
            sort: Sort::Ordinary,
        })?;
    }
    Ok(())
}

/// Returns the region context of a function's body: the function's own region opens while the regions of its effect are live.
fn regions_of(alloc: Global, signature: &Signature) -> Result<Regions, Stop>
    ensures regions { IfOk result (λ o. o ≡ body_regions (view_signature signature.now)) }
    ensures memory { IfErr result (λ e. e ≡ Memory) }
{
    let mut regions = Regions::new(alloc, &signature.constraints, &signature.effect)?;
    regions.open_scope(Region::Variable(0), Kind::Block)?;
    Ok(regions)
}

fn shared(of_type: &Option<Ty>) -> Result<Option<Ty>, Stop>
    ensures same { IfOk result (λ t. option_map view_ty t ≡ option_map view_ty of_type.now) }
    ensures memory { IfErr result (λ e. e ≡ Memory) }
{
    match of_type {
        Some(of_type) => Ok(Some(of_type.share()?)),
        None => Ok(None),
    }
}

impl<'a> Scope<'a> {
    /// Returns the scope of a function's body, from the function's signature, name and parameters. The tables contain the region
    /// names that the parameters declare.
    pub fn of_body(
        alloc: Global,
        program: &'a Program,
        tables: Tables,
        signature: &Signature,
        own: Ident,
        members: &[Member],
    ) -> Result<Scope<'a>, Stop>
        ensures body { IfOk result (λ s. s ≡ body_with program.now (view_signature signature.now) (view_name own) tables.names (map view_member members.now)) }
        ensures memory { IfErr result (λ e. e ≡ Memory) }
    {
        let Tables {
            mut names,
            mut taken,
            mut locals,
        } = tables;
        names.declare(own.name.number, Region::Variable(0))?;
        taken.clear();
        names.add_to(&mut taken)?;
        locals.close(0);
        declare_parameters(&mut locals, members, &signature.parameters)?;
        Ok(Scope {
            alloc,
            program,
            result: shared(&signature.result)?,
            names,
            taken,
            regions: regions_of(alloc, signature)?,
            locals,
            next_local: members.len(),
            next_region: after(signature.variables)?,
            region: 0,
            in_loop: false,
            counters: 0,
        })
    }

    /// Returns the scope's tables, for reuse by the check of the next function.
    pub fn into_tables(self) -> Tables {
        let Scope {
            names,
            taken,
            locals,
            ..
        } = self;
        Tables {
            names,
            taken,
            locals,
        }
    }
}
