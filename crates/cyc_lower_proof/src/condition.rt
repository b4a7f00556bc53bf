//! This file defines a condition in the form in which a branch tests it.
use cyc_plain::{Comparison, Operand};

/// A condition, which fails exactly if the comparison `failing` of two operands holds.
#[derive(Clone, Copy)]
pub struct Condition {
    pub failing: Comparison,
    pub left: Operand,
    pub right: Operand,
}
