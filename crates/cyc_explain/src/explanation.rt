//! This file computes the explanation of a fault in a rejected program.
use crate::bodies::explain_body;
use cyc_explain_texts::Explanation;
use cyc_explain_texts::declarations::explain_declarations;
use cyc_explain_texts::teller::Teller;
use cyc_syntax::Tree;
use cyc_words::Fault;
use std::alloc::Global;
use std::mem::ManuallyDrop;

/// Returns the explanation of the fault with which `check` rejects a tree, if there is one.
pub fn explain(alloc: Global, tree: &Tree, fault: Fault) -> Option<Explanation> {
    let mut teller = ManuallyDrop::new(Teller::new(alloc, tree, fault));
    explain_declarations(&mut teller, &tree.declarations);
    for declaration in &tree.declarations {
        explain_body(&mut teller, tree, declaration);
    }
    teller.take_words()
}
