//! The meaning of names in expressions: the value that a name reads, the lvalue that it denotes, and the key that is freed.
ghost use Rattle.std.specs.Prelude.{◌≡◌, [], ◌∷◌, None, Ok};
ghost use Rattle.cyc_syntax.specs.inside.TreeView.{place_of_span, view_name};
ghost use Rattle.cyc_words.specs.declared.fault.Code.TheVariants as codes;
ghost use Rattle.cyc_types.specs.TypeView.{view_ty};
ghost use Rattle.cyc_types.specs.TypedTrees as nodes;
ghost use Rattle.cyc_types.specs.TypedTreeView.{view_lvalue};
ghost use Rattle.cyc_types.specs.Rules.{demand, settled, run};
ghost use Rattle.cyc_types.specs.typing.Scopes.{meaning_of};
ghost use Rattle.cyc_types.specs.typing.Tests.{is_key};
ghost use Rattle.cyc_types.specs.typing.Expressions.{is_readable, variable_read, variable_looked, read, looked, place_meant, key_freed};
ghost use Rattle.cyc_scope.specs.inside.Code.{Ends, Gives};
ghost use Rattle.cyc_scope.specs.inside.Meanings.{view_meaning};
ghost use Rattle.cyc_operands.specs.inside.Operands.{view_boxed, view_found};

use crate::places::variable_found;
use cyc_operands::types::{is_key, is_moved, is_unique};
use cyc_operands::{Found, boxed};
use cyc_scope::{Meaning, Scope, Settled, Stop, refused};
use cyc_syntax::Ident;
use cyc_types::typed::Lvalue;
use cyc_types::{Ty, typed};
use cyc_words::{Code, Span};
use std::alloc::Global;

/// Returns true if a variable may be read; a global that holds a unique pointer may not.
fn is_readable(target: Lvalue, of_type: &Ty) -> bool
    ensures { result ≡ is_readable (view_lvalue target) (view_ty of_type.now) }
{
    match target {
        Lvalue::Local { .. } => true,
        Lvalue::Global { .. } => !is_unique(of_type),
    }
}

/// Checks that a variable may be read; `span` is the source position of its name.
fn readable(target: Lvalue, of_type: &Ty, span: Span) -> Result<(), Stop>
    ensures { Ends result (settled None (demand codes.UniqueShared (place_of_span span) (is_readable (view_lvalue target) (view_ty of_type.now)) ∷ [])) }
{
    let mut settled = Settled::new();
    settled.demand(Code::UniqueShared, span, is_readable(target, of_type));
    settled.end()
}

#[inline(never)]
fn copied(alloc: Global, source: Lvalue, of_type: &Ty) -> Result<Box<typed::Expr>, Stop>
    ensures { Gives view_boxed result (Ok (nodes.Copy (view_lvalue source) (view_ty of_type.now))) }
{
    let of_type = of_type.share()?;
    boxed(alloc, typed::Expr::Copy { source, of_type })
}

#[inline(never)]
fn moved(alloc: Global, span: Span, number: usize, of_type: &Ty) -> Result<Box<typed::Expr>, Stop>
    ensures { Gives view_boxed result (Ok (nodes.Move (place_of_span span) number (view_ty of_type.now))) }
{
    let of_type = of_type.share()?;
    boxed(
        alloc,
        typed::Expr::Move {
            span,
            number,
            of_type,
        },
    )
}

#[inline(never)]
fn peeked(alloc: Global, span: Span, number: usize, of_type: &Ty) -> Result<Box<typed::Expr>, Stop>
    ensures { Gives view_boxed result (Ok (nodes.Peek (place_of_span span) number (view_ty of_type.now))) }
{
    let of_type = of_type.share()?;
    boxed(
        alloc,
        typed::Expr::Peek {
            span,
            number,
            of_type,
        },
    )
}

/// Returns the expression that reads a variable. Reading a local that is a unique pointer or a key leaves the local empty.
fn variable_read(alloc: Global, target: Lvalue, of_type: &Ty) -> Result<Box<typed::Expr>, Stop>
    ensures { Gives view_boxed result (Ok (variable_read (view_lvalue target) (view_ty of_type.now))) }
{
    match target {
        Lvalue::Local { span, number } => {
            if is_moved(of_type) {
                moved(alloc, span, number, of_type)
            } else {
                copied(alloc, target, of_type)
            }
        }
        Lvalue::Global { .. } => copied(alloc, target, of_type),
    }
}

/// Returns the expression that reads a variable without moving its value: a unique pointer stays in the variable.
fn variable_looked(alloc: Global, target: Lvalue, of_type: &Ty) -> Result<Box<typed::Expr>, Stop>
    ensures { Gives view_boxed result (Ok (variable_looked (view_lvalue target) (view_ty of_type.now))) }
{
    match target {
        Lvalue::Local { span, number } => {
            if is_unique(of_type) {
                peeked(alloc, span, number, of_type)
            } else {
                variable_read(alloc, target, of_type)
            }
        }
        Lvalue::Global { .. } => copied(alloc, target, of_type),
    }
}

#[inline(never)]
fn counter(alloc: Global, level: usize) -> Result<Box<typed::Expr>, Stop>
    ensures { Gives view_boxed result (Ok (nodes.Counter level)) }
{
    boxed(alloc, typed::Expr::Counter { level })
}

/// Returns the expression that reads the value that a name denotes, given the name's meaning (such
/// as a variable); `span` is the name's source position.
fn read_meant(alloc: Global, meaning: Meaning<'_>, span: Span) -> Result<Box<typed::Expr>, Stop>
    ensures { Gives view_boxed result (run (read (view_meaning meaning.entry) (place_of_span span))) }
{
    match meaning {
        Meaning::Unknown => Err(refused(Code::UnknownName, span)),
        Meaning::Variable {
            target,
            of_type,
            ..
        } => {
            readable(target, of_type, span)?;
            variable_read(alloc, target, of_type)
        }
        Meaning::Fixed { target, of_type } => copied(alloc, target, of_type),
        Meaning::Counter { level } => counter(alloc, level),
        Meaning::Routine { .. } => Err(refused(Code::TypeMismatch, span)),
    }
}

/// Returns the expression that reads the value that a name denotes.
pub fn read(scope: &Scope<'_>, name: Ident) -> Result<Box<typed::Expr>, Stop>
    ensures { Gives view_boxed result (run (read (meaning_of scope.now (view_name name)) (place_of_span name.span))) }
{
    read_meant(scope.alloc(), scope.meaning(name), name.span)
}

/// Returns the expression that reads the value that a name denotes without moving it out of its variable.
pub fn looked(scope: &Scope<'_>, name: Ident) -> Result<Box<typed::Expr>, Stop>
    ensures { Gives view_boxed result (run (looked (meaning_of scope.now (view_name name)) (place_of_span name.span))) }
{
    let meaning = scope.meaning(name);
    match meaning {
        Meaning::Variable {
            target,
            of_type,
            ..
        } => {
            readable(target, of_type, name.span)?;
            variable_looked(scope.alloc(), target, of_type)
        }
        Meaning::Unknown
        | Meaning::Fixed { .. }
        | Meaning::Counter { .. }
        | Meaning::Routine { .. } => read_meant(scope.alloc(), meaning, name.span),
    }
}

/// Returns the lvalue that a name denotes, in an expression that begins at source position `span`.
pub fn place_meant(scope: &Scope<'_>, name: Ident, span: Span) -> Result<Box<Found>, Stop>
    ensures { Gives view_found result (run (place_meant (meaning_of scope.now (view_name name)) (place_of_span name.span) (place_of_span span))) }
{
    match scope.meaning(name) {
        Meaning::Unknown => Err(refused(Code::UnknownName, name.span)),
        Meaning::Variable {
            target,
            of_type,
            home,
        } => variable_found(scope.alloc(), target, of_type, home),
        Meaning::Fixed { .. } | Meaning::Counter { .. } | Meaning::Routine { .. } => {
            Err(refused(Code::NotAPlace, span))
        }
    }
}

/// Checks that a variable is a key; `span` is the source position of the variable's name.
fn key_wanted(of_type: &Ty, span: Span) -> Result<(), Stop>
    ensures { Ends result (settled None (demand codes.RegionOrKeyMisused (place_of_span span) (is_key (view_ty of_type.now)) ∷ [])) }
{
    let mut settled = Settled::new();
    settled.demand(Code::RegionOrKeyMisused, span, is_key(of_type));
    settled.end()
}

#[inline(never)]
fn free_key(
    alloc: Global,
    span: Span,
    number: usize,
    of_type: &Ty,
) -> Result<Box<typed::Expr>, Stop>
    ensures { Gives view_boxed result (Ok (nodes.FreeKey (nodes.Move (place_of_span span) number (view_ty of_type.now)))) }
{
    let key = moved(alloc, span, number, of_type)?;
    boxed(alloc, typed::Expr::FreeKey { key })
}

/// Returns the expression that frees the key that a name denotes.
pub fn key_freed(scope: &Scope<'_>, name: Ident) -> Result<Box<typed::Expr>, Stop>
    ensures { Gives view_boxed result (run (key_freed (meaning_of scope.now (view_name name)) (place_of_span name.span))) }
{
    match scope.meaning(name) {
        Meaning::Unknown => Err(refused(Code::UnknownName, name.span)),
        Meaning::Variable {
            target: Lvalue::Local { span, number },
            of_type,
            ..
        } => {
            key_wanted(of_type, name.span)?;
            free_key(scope.alloc(), span, number, of_type)
        }
        Meaning::Variable { .. } | Meaning::Fixed { .. } | Meaning::Counter { .. } => {
            Err(refused(Code::RegionOrKeyMisused, name.span))
        }
        Meaning::Routine { .. } => Err(refused(Code::TypeMismatch, name.span)),
    }
}
