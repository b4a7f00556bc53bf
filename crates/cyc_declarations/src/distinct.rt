//! Checks that names differ from each other and from the names declared before.
ghost use Rattle.std.specs.Prelude.{◌≡◌, ◌∷◌, not, map, OnOk};
ghost use Rattle.cyc_words.specs.declared.fault.Code.TheVariants as codes;
ghost use Rattle.cyc_syntax.specs.inside.TreeView.{place_of_span, view_name, view_constructor};
ghost use Rattle.cyc_types.specs.Rules.{demand, demands, noted, run};
ghost use Rattle.cyc_types.specs.typing.DeclarationRules.{is_among, distinct_demanded, rule_new, constructor_names, with_all};
ghost use Rattle.cyc_scope.specs.inside.Code.{Gives};

use cyc_scope::{Settled, Stop};
use cyc_syntax::{Constructor, Ident};
use cyc_types::NameSet;
use cyc_words::Code;
use std::alloc::AllocError;

/// Requires that a name is not yet declared, that is, not in the set `known`, and adds the name to this set.
fn demand_new(settled: &mut Settled, known: &mut NameSet, name: Ident) -> Result<(), AllocError>
    ensures settled { OnOk result (settled.new.known ≡ noted settled.old.known
        (demand codes.DeclaredTwice (place_of_span name.span) (not (is_among name.name.number known.old)))) }
    ensures known { OnOk result (known.new ≡ name.name.number ∷ known.old) }
{
    settled.demand(Code::DeclaredTwice, name.span, !known.has(name.name.number));
    known.add(name.name.number)
}

/// Checks that a name is not yet declared, and adds the name to the declared names.
pub(crate) fn check_new(known: &mut NameSet, name: Ident) -> Result<(), Stop>
    ensures gives { Gives (λ _. tt) result (run (rule_new known.old (view_name name))) }
    ensures known { OnOk result (known.new ≡ name.name.number ∷ known.old) }
{
    let mut settled = Settled::new();
    demand_new(&mut settled, known, name)?;
    settled.end()
}

/// Checks that the names in a list differ from each other and from the names declared before, and adds them to the declared names.
pub(crate) fn check_distinct(known: &mut NameSet, names: &[Ident]) -> Result<(), Stop>
    ensures gives { Gives (λ _. tt) result (run (demands (distinct_demanded known.old (map view_name names.now)))) }
    ensures known { OnOk result (known.new ≡ with_all (map view_name names.now) known.old) }
{
    let mut settled = Settled::new();
    for name in names {
        demand_new(&mut settled, known, *name)?;
    }
    settled.end()
}

/// Checks that the names of exceptions are not yet declared, and adds them to the declared names.
pub(crate) fn check_constructors(
    known: &mut NameSet,
    constructors: &[Constructor],
) -> Result<(), Stop>
    ensures gives { Gives (λ _. tt) result (run (demands (distinct_demanded known.old (constructor_names (map view_constructor constructors.now))))) }
    ensures known { OnOk result (known.new ≡ with_all (constructor_names (map view_constructor constructors.now)) known.old) }
{
    let mut settled = Settled::new();
    for constructor in constructors {
        demand_new(&mut settled, known, constructor.name)?;
    }
    settled.end()
}
