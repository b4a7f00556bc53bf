//! The meanings of names in a program, such as a variable or a function.

use cyc_types::typed::{Callee, Lvalue};
use cyc_types::{Region, Signature, Ty};

/// The meaning of a name at a source position where it is used.
#[derive(Clone, Copy)]
pub enum Meaning<'a> {
    Unknown,
    /// The name denotes a variable that may be assigned; `home` is the region in which the variable is stored.
    Variable {
        target: Lvalue,
        of_type: &'a Ty,
        home: Region,
    },
    /// The name denotes the handle declared by a `region` declaration, which may not be assigned.
    Fixed {
        target: Lvalue,
        of_type: &'a Ty,
    },
    /// The name denotes the loop counter of an array `for`, identified by the number of enclosing `for`s; a loop counter may not
    /// be assigned.
    Counter {
        level: usize,
    },
    Routine {
        callee: Callee,
        signature: &'a Signature,
    },
}
