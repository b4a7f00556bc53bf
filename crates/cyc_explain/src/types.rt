//! This file finds the type of an expression, as the checker computes it.
use cyc_check::value_type;
use cyc_explain_texts::lexicon::NO_NAME;
use cyc_explain_texts::teller::Teller;
use cyc_scope::Scope;
use cyc_syntax::Expr;

/// Computes the type of an expression and records it for the explanation. Returns true if the checker could find the type of the expression
/// in spite of the fault. `is_looked_at` tells if the expression's value is only examined (a read that moves no unique pointer) or used.
pub(crate) fn find(
    teller: &mut Teller,
    scope: &mut Scope<'_>,
    value: &Expr,
    is_looked_at: bool,
) -> bool {
    teller.notes.found = value_type(scope, value, is_looked_at);
    teller.notes.variable = variable_of(value);
    teller.notes.is_new = matches!(value, Expr::New { .. } | Expr::RegionNew { .. });
    matches!(teller.notes.found, Some(_))
}

/// Returns the index, in the lexicon, of the name of the variable that an expression denotes; `NO_NAME` if the expression is
/// not a variable.
fn variable_of(value: &Expr) -> usize {
    match value {
        Expr::Variable { name } => name.name.number,
        _ => NO_NAME,
    }
}
