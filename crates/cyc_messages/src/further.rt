//! Finds the faults of names, types, regions and flow that remain in a text once its first fault is repaired.
//!
//! A function body with a fault is replaced by one that only throws an exception, and the remaining program is checked. A body that
//! only throws an exception is valid in any function. Each reported fault is a fault of the program, and no fault in one body follows
//! from a fault in another. A function body that passed the type check is also replaced while the bodies after it are checked. Each
//! function body is checked once, and once more before the flow check. All function bodies share the signatures, so after a fault in a
//! signature, other than that of `main`, no further fault is reported. The one fault of a signature after which further faults are
//! reported is a missing or invalid `main`, since a valid `main` replaces it.
//!
//! If a text has no tokens or no syntax tree, the crate `cyc_rendering` reports the faults after the first one.

use crate::reported::explained;
use cyc_check::check;
use cyc_explain::explain;
use cyc_lex::lex;
use cyc_rendering::{MOST_FURTHER, Refusal, is_between, tell_flow, tell_readings, tree_of};
use cyc_syntax::{
    BaseType, Block, Declaration, Ident, Item, Name, ParameterList, Parameters, Stmt, Token, Tree,
    WrittenType,
};
use cyc_words::{Code, Fault, Span};
use std::alloc::{AllocError, Global};
use std::mem::{ManuallyDrop, replace};

/// The factor of a bound on how many tokens of function signatures are read again: each further type fault requires reading all
/// signatures. The bound on the tokens read again is this factor times the number of tokens of the text, plus `MOST_MORE`.
const MOST_TIMES: usize = 4;

const MOST_MORE: usize = 4000;

/// Returns the source position of a fault.
fn span_of(fault: Fault) -> Span {
    Span {
        line: fault.line,
        column: fault.column,
    }
}

// ---- the number of faults to search for

/// Returns the number of tokens before a source position.
fn count_before(tokens: &[Token], place: Span) -> usize {
    tokens.partition_point(|token| {
        (token.span.line, token.span.column) < (place.line, place.column)
    })
}

/// Returns the number of tokens of a text that are outside function bodies.
fn count_of_declarations(tokens: &[Token], declarations: &[Declaration]) -> usize {
    let mut count = tokens.len();
    for declaration in declarations {
        if let Declaration::Function { body, .. } = declaration {
            let start = count_before(tokens, body.span);
            let inside = count_before(tokens, body.end).saturating_sub(start);
            count = count.saturating_sub(inside);
        }
    }
    count
}

/// Returns the largest number of further type faults that the compiler tries to find after the first fault.
fn most_by_types(alloc: Global, text: &[u8], declarations: &[Declaration]) -> Result<usize, Fault> {
    let tokens = ManuallyDrop::new(lex(alloc, text)?);
    let heads = count_of_declarations(&tokens, declarations);
    let most = tokens
        .len()
        .saturating_mul(MOST_TIMES)
        .saturating_add(MOST_MORE);
    Ok((most / heads.max(1)).min(MOST_FURTHER))
}

// ---- replaced bodies

/// The body that was removed from a function, and the index of the function's declaration.
#[derive(Drop)]
struct Aside {
    declaration: usize,
    items: Vec<Item>,
}

/// A syntax tree in which some function bodies are replaced.
#[derive(Drop)]
struct Mended {
    alloc: Global,
    tree: Tree,
    /// The exception that is thrown by the function bodies that replace faulty or already checked ones.
    exception: Name,
    /// The index of the first declaration that is still to be checked.
    next: usize,
    /// The removed function bodies that passed the type check.
    aside: Vec<Aside>,
}

/// Returns the index of the declaration whose body contains a fault.
fn body_at(declarations: &[Declaration], fault: Fault) -> Option<usize> {
    for (n, declaration) in declarations.iter().enumerate() {
        if let Declaration::Function { body, .. } = declaration {
            if is_between(body.span, fault, body.end) {
                return Some(n);
            }
        }
    }
    None
}

/// Returns the index of the function whose name is at the source position of a fault.
fn function_named_at(declarations: &[Declaration], fault: Fault) -> Option<usize> {
    for (n, declaration) in declarations.iter().enumerate() {
        if let Declaration::Function { name, .. } = declaration {
            if is_between(name.span, fault, name.span) {
                return Some(n);
            }
        }
    }
    None
}

impl Mended {
    fn new(alloc: Global, tree: Tree) -> Result<Mended, AllocError> {
        let mut tree = tree;
        let exception = tree.names.intern(b"Div_zero")?;
        Ok(Mended {
            alloc,
            tree,
            exception,
            next: 0,
            aside: Vec::new(alloc),
        })
    }

    /// Returns the statements that replace the body of a function. The replacing statements throw an exception, so no path reaches the
    /// end of the body, and no result is needed.
    fn thrown(&self, span: Span) -> Result<Vec<Item>, AllocError> {
        let mut items = Vec::new(self.alloc);
        items.push(Item::Statement {
            statement: Stmt::Throw {
                span,
                exception: Ident {
                    name: self.exception,
                    span,
                },
                value: None,
            },
        })?;
        Ok(items)
    }

    /// Replaces the declarations and statements of a function's body, if the declaration has a body, and returns the old ones.
    fn swap_body(&mut self, declaration: usize, items: Vec<Item>) -> Option<Vec<Item>> {
        match self.tree.declarations.get_mut(declaration) {
            Some(Declaration::Function { body, .. }) => Some(replace(&mut body.items, items)),
            _ => None,
        }
    }

    /// Replaces the function body in which the checker found a fault. Also replaces the bodies of earlier functions that are not
    /// replaced yet, and stores these earlier bodies for `put_back`.
    fn leave_out(&mut self, refused: usize, span: Span) -> Result<(), AllocError> {
        for declaration in self.next..refused {
            let items = self.thrown(span)?;
            if let Some(items) = self.swap_body(declaration, items) {
                self.aside.push(Aside { declaration, items })?;
            }
        }
        let items = self.thrown(span)?;
        let _ = ManuallyDrop::new(self.swap_body(refused, items));
        self.next = refused.saturating_add(1);
        Ok(())
    }

    /// Puts the fault-free function bodies that `leave_out` replaced and stored back into the tree.
    fn put_back(&mut self) {
        let aside = replace(&mut self.aside, Vec::new(self.alloc));
        for Aside { declaration, items } in aside {
            let _ = ManuallyDrop::new(self.swap_body(declaration, items));
        }
    }

    /// Returns an artificial function `main` at a source position.
    fn main_at(&mut self, span: Span) -> Result<Declaration, AllocError> {
        Ok(Declaration::Function {
            result: Some(WrittenType {
                span,
                base: BaseType::Int,
                marks: Vec::new(self.alloc),
            }),
            name: Ident {
                name: self.tree.names.intern(b"main")?,
                span,
            },
            parameters: Parameters {
                list: ParameterList::Void,
                effect: None,
                constraints: Vec::new(self.alloc),
            },
            body: Block {
                span,
                items: self.thrown(span)?,
                end: span,
            },
        })
    }

    /// Adds a missing `main`, or replaces an invalid one. Returns true if `main` was added or replaced.
    fn put_main(&mut self, fault: Fault) -> Result<bool, AllocError> {
        let main = self.main_at(span_of(fault))?;
        if (fault.line, fault.column) == (1, 1) {
            self.tree.declarations.push(main)?;
            return Ok(true);
        }
        match function_named_at(&self.tree.declarations, fault) {
            Some(n) => match self.tree.declarations.get_mut(n) {
                Some(declaration) => {
                    let _ = ManuallyDrop::new(replace(declaration, main));
                    Ok(true)
                }
                None => Ok(false),
            },
            None => Ok(false),
        }
    }

    /// Changes the syntax tree into that of a program without the given fault. Returns true if the tree could be changed in this way.
    fn mend(&mut self, fault: Fault) -> Result<bool, AllocError> {
        if fault.code == Code::BadMain {
            return self.put_main(fault);
        }
        match body_at(&self.tree.declarations, fault) {
            Some(refused) => {
                self.leave_out(refused, span_of(fault))?;
                Ok(true)
            }
            None => Ok(false),
        }
    }
}

/// Reports the faults of names, types and regions in a syntax tree, one body after another, and then its flow faults.
fn tell_types(
    alloc: Global,
    text: &[u8],
    tree: Tree,
    first: Fault,
    reported: &mut Vec<Refusal>,
) -> Result<(), Fault> {
    let most = most_by_types(alloc, text, &tree.declarations)?;
    let mut mended = ManuallyDrop::new(Mended::new(alloc, tree)?);
    let mut fault = first;
    for _ in 0..=most {
        // Once the maximum number of faults is reported, the checker is not run again to find a further fault.
        if reported.len() >= most || !mended.mend(fault)? {
            return Ok(());
        }
        match check(alloc, &mended.tree) {
            Ok(typed) => {
                let _ = ManuallyDrop::new(typed);
                mended.put_back();
                let typed = check(alloc, &mended.tree)?;
                return tell_flow(alloc, text, &mended.tree, typed, first, reported);
            }
            Err(found) => {
                if found.code == Code::Memory {
                    return Ok(());
                }
                let words = explain(alloc, &mended.tree, found);
                reported.push(explained(found, words))?;
                fault = found;
            }
        }
    }
    Ok(())
}

// ---- all faults of a text

/// Reports the faults after the first one in a text that has a syntax tree.
fn tell_bodies(
    alloc: Global,
    text: &[u8],
    first: Fault,
    reported: &mut Vec<Refusal>,
) -> Result<(), Fault> {
    let tree = tree_of(alloc, text)?;
    match first.code {
        Code::EmptyVariable
        | Code::LockedVariable
        | Code::LoopEmptiesVariable
        | Code::MissingReturn => {
            let tree = ManuallyDrop::new(tree);
            let typed = check(alloc, &tree)?;
            tell_flow(alloc, text, &tree, typed, first, reported)
        }
        _ => tell_types(alloc, text, tree, first, reported),
    }
}

/// Returns at most twenty faults of a text after the given first one. The order of these faults is that in which the compiler would
/// report them if the user repaired each in turn. If the compiler runs out of memory, the list of faults ends early.
pub fn refusals_after(alloc: Global, text: &[u8], first: Fault) -> Vec<Refusal> {
    let mut reported = Vec::new(alloc);
    match first.code {
        Code::TextTooLong
        | Code::Memory
        | Code::TooManyTokens
        | Code::TooManyFunctions
        | Code::FrameTooLarge => {}
        Code::UnknownByte
        | Code::UnclosedComment
        | Code::NumberTooLarge
        | Code::UnexpectedToken
        | Code::UnexpectedEnd
        | Code::NestingTooDeep
        | Code::ListTooLong => {
            let _ = tell_readings(alloc, text, first, &mut reported);
        }
        _ => {
            let _ = tell_bodies(alloc, text, first, &mut reported);
        }
    }
    reported
}
