//! Checks statements, the declarations in blocks and the clauses of a `catch` by traversing them.
ghost use Rattle.std.specs.Prelude.{◌≡◌, [], ◌∷◌, Ok, OnOk, IfOk};
ghost use Rattle.cyc_syntax.specs.inside.TreeView.{view_name, view_statement, view_item, items_of, clauses_of};
ghost use Rattle.cyc_syntax.specs.Trees.{NoClauses};
ghost use Rattle.cyc_types.specs.TypedTrees as nodes;
ghost use Rattle.cyc_types.specs.TypedTreeView as typed_view;
ghost use Rattle.cyc_types.specs.Rules.{and_then, demands, run};
ghost use Rattle.cyc_types.specs.typing.Scopes.{in_block, in_labelled, in_body, following};
ghost use Rattle.cyc_types.specs.typing.Statements.{new_name_demanded, following_item, rule_statement, rule_items, rule_item, rule_clauses};
ghost use Rattle.cyc_scope.specs.inside.Code.{Gives};
ghost use Rattle.cyc_check.specs.inside.Walks.{IsAfterItems, following_block, after_labelled, after_clauses, view_clause};
ghost use Rattle.cyc_statements.specs.inside.Nodes.{view_boxed_statement};

use crate::simple_statements::{
    check_condition, check_evaluation, check_local, check_return, check_swap, check_throw,
};
use cyc_scope::{Scope, Stop};
use cyc_statements::forms::{caught, leaves_loop};
use cyc_statements::items::{
    declare_alias, declare_caught, declare_dynamic, is_region_new, open_dynamic, open_lexical,
};
use cyc_statements::nodes::{block_of, choice, empty, execution, repetition, try_of};
use cyc_syntax::{Clause, Ident, Item, Stmt};
use cyc_types::{NameSet, typed};

#[cycle(statement)]
pub(crate) fn check_statement(
    scope: &mut Scope<'_>,
    statement: &Stmt,
) -> Result<Box<typed::Stmt>, Stop>
    ensures gives { Gives view_boxed_statement result (run (rule_statement scope.old (view_statement statement.now))) }
    ensures following { OnOk result (scope.new ≡ following scope.old (view_statement statement.now)) }
{
    match statement {
        Stmt::Block { block } => check_block(scope, &block.items),
        Stmt::Labelled { label, block } => check_labelled(scope, &block.items, *label),
        Stmt::Empty { .. } => empty(scope.alloc()),
        Stmt::Expression { value } => check_evaluation(scope, value),
        Stmt::Swap { left, right } => check_swap(scope, left, right),
        Stmt::If {
            span,
            condition,
            then,
            otherwise: None,
        } => {
            let condition = check_condition(scope, condition)?;
            let then = check_statement(scope, then)?;
            let otherwise = empty(scope.alloc())?;
            choice(scope.alloc(), *span, condition, then, otherwise)
        }
        Stmt::If {
            span,
            condition,
            then,
            otherwise: Some(otherwise),
        } => {
            let condition = check_condition(scope, condition)?;
            let then = check_statement(scope, then)?;
            let otherwise = check_statement(scope, otherwise)?;
            choice(scope.alloc(), *span, condition, then, otherwise)
        }
        Stmt::While {
            span,
            condition,
            body,
        } => {
            let condition = check_condition(scope, condition)?;
            let body = check_body(scope, body)?;
            repetition(scope.alloc(), *span, condition, body)
        }
        Stmt::Return { span, value } => check_return(scope, *span, value),
        Stmt::Break { span } => leaves_loop(scope, *span, typed::Stmt::Break),
        Stmt::Continue { span } => leaves_loop(scope, *span, typed::Stmt::Continue),
        Stmt::Throw {
            span,
            exception,
            value,
        } => check_throw(scope, *span, *exception, value),
        Stmt::Try {
            span,
            body,
            clauses,
            default,
        } => {
            let body = check_statement(scope, body)?;
            let clauses = check_clauses(scope, clauses)?;
            match default {
                None => try_of(scope.alloc(), *span, body, clauses, None),
                Some(items) => {
                    let default = check_default(scope, items)?;
                    try_of(scope.alloc(), *span, body, clauses, Some(default))
                }
            }
        }
    }
}

/// Checks the body of a loop.
#[cycle(statement)]
fn check_body(scope: &mut Scope<'_>, statement: &Stmt) -> Result<Box<typed::Stmt>, Stop>
    ensures gives { Gives view_boxed_statement result (run (rule_statement (in_body scope.old) (view_statement statement.now))) }
    ensures following { OnOk result (scope.new ≡ following scope.old (view_statement statement.now)) }
{
    let mark = scope.mark();
    scope.enter_loop();
    let body = check_statement(scope, statement)?;
    scope.leave(mark);
    Ok(body)
}

/// Checks a block with these declarations and statements.
#[cycle(statement)]
fn check_block(scope: &mut Scope<'_>, items: &[Item]) -> Result<Box<typed::Stmt>, Stop>
    ensures gives { Gives view_boxed_statement result (and_then (run (rule_items (in_block scope.old) (items_of items.now)))
        (λ js. Ok (nodes.Block scope.old.next_region js))) }
    ensures following { OnOk result (scope.new ≡ following_block scope.old (items_of items.now)) }
{
    let mark = scope.mark();
    let region = scope.next_region();
    scope.enter_block()?;
    let items = check_items(scope, items)?;
    scope.leave(mark);
    block_of(scope.alloc(), region, items)
}

/// Checks a labelled block with these declarations and statements.
#[cycle(statement)]
fn check_labelled(
    scope: &mut Scope<'_>,
    items: &[Item],
    label: Ident,
) -> Result<Box<typed::Stmt>, Stop>
    ensures gives { Gives view_boxed_statement result (and_then (run (demands (new_name_demanded scope.old (view_name label) ∷ [])))
        (λ u. and_then (run (rule_items (in_labelled (view_name label) scope.old) (items_of items.now)))
        (λ js. Ok (nodes.Block scope.old.next_region js)))) }
    ensures following { OnOk result (scope.new ≡ after_labelled scope.old (view_name label) (items_of items.now)) }
{
    is_region_new(scope, label)?;
    let mark = scope.mark();
    let region = scope.next_region();
    scope.enter_labelled(label)?;
    let items = check_items(scope, items)?;
    scope.leave(mark);
    block_of(scope.alloc(), region, items)
}

/// Checks the declarations and statements of a block. The names that they declare stay in scope afterwards.
#[cycle(statement)]
pub(crate) fn check_items(scope: &mut Scope<'_>, items: &[Item]) -> Result<Vec<typed::Item>, Stop>
    ensures gives { Gives (λ v. typed_view.items_of v.items) result (run (rule_items scope.old (items_of items.now))) }
    ensures inside { OnOk result (IsAfterItems scope.old (items_of items.now) scope.new) }
{
    let mut all = Vec::with_capacity(scope.alloc(), items.len())?;
    for item in items {
        let item = check_item(scope, item)?;
        all.push(item)?;
    }
    Ok(all)
}

#[cycle(statement)]
fn check_item(scope: &mut Scope<'_>, item: &Item) -> Result<typed::Item, Stop>
    ensures gives { Gives typed_view.view_item result (run (rule_item scope.old (view_item item.now))) }
    ensures following { IfOk result (λ j. scope.new ≡ following_item scope.old (view_item item.now) (typed_view.view_item j)) }
{
    match item {
        Item::Statement { statement } => {
            let statement = check_statement(scope, statement)?;
            Ok(execution(statement))
        }
        Item::Local {
            of_type,
            name,
            value,
        } => check_local(scope, of_type, *name, value),
        Item::Region {
            region,
            handle,
            key: None,
        } => open_lexical(scope, *region, *handle),
        Item::Region {
            region,
            handle,
            key: Some(key),
        } => open_dynamic(scope, *region, *handle, *key),
        Item::Alias {
            region,
            of_type,
            name,
            source,
        } => declare_alias(scope, *region, of_type, *name, *source),
        Item::DynamicRegion { region, key } => declare_dynamic(scope, *region, *key),
    }
}

/// Checks the clauses of a `catch`, without a default clause.
#[cycle(statement)]
fn check_clauses(scope: &mut Scope<'_>, clauses: &[Clause]) -> Result<Vec<typed::Clause>, Stop>
    ensures gives { Gives (λ v. typed_view.clauses_of v.items nodes.NoClauses) result (run (rule_clauses scope.old [] (clauses_of clauses.now NoClauses))) }
    ensures following { OnOk result (scope.new ≡ after_clauses scope.old (clauses_of clauses.now NoClauses)) }
{
    let mut before = NameSet::new(scope.alloc());
    let mut all = Vec::new(scope.alloc());
    for clause in clauses {
        let clause = check_clause(scope, clause, &mut before)?;
        all.push(clause)?;
    }
    Ok(all)
}

/// Checks a catch clause after those that catch the exceptions with these names, and adds the name of its own exception to them.
#[cycle(statement)]
fn check_clause(
    scope: &mut Scope<'_>,
    clause: &Clause,
    before: &mut NameSet,
) -> Result<typed::Clause, Stop>
    ensures gives { Gives view_clause result (run (rule_clauses scope.old before.old (clauses_of (clause.now ∷ []) NoClauses))) }
    ensures following { OnOk result (scope.new ≡ after_clauses scope.old (clauses_of (clause.now ∷ []) NoClauses)) }
    ensures before { OnOk result (before.new ≡ clause.now.exception.name.number ∷ before.old) }
{
    let tag = caught(scope, before, clause.exception, clause.variable)?;
    before.add(clause.exception.name.number)?;
    let mark = scope.mark();
    let region = scope.next_region();
    scope.enter_block()?;
    let number = declare_caught(scope, clause.variable)?;
    let items = check_items(scope, &clause.items)?;
    scope.leave(mark);
    Ok(typed::Clause {
        tag,
        number,
        region,
        items,
    })
}

/// Checks the declarations and statements of the default clause of a `catch`.
#[cycle(statement)]
fn check_default(scope: &mut Scope<'_>, items: &[Item]) -> Result<typed::Body, Stop>
    ensures gives { Gives (λ b. nodes.Default b.region (typed_view.items_of b.items.items)) result
        (and_then (run (rule_items (in_block scope.old) (items_of items.now))) (λ js. Ok (nodes.Default scope.old.next_region js))) }
    ensures following { OnOk result (scope.new ≡ following_block scope.old (items_of items.now)) }
{
    let mark = scope.mark();
    let region = scope.next_region();
    scope.enter_block()?;
    let items = check_items(scope, items)?;
    scope.leave(mark);
    Ok(typed::Body { region, items })
}
