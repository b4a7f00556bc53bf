//! This file finds warnings in expressions and their subexpressions.
use crate::comparisons::is_loose_count;
use crate::constants::{constant_of, is_more_than, is_past_width};
use crate::finder::Finder;
use crate::locals::{Local, Use};
use crate::places::{is_next, leading_minus, minus_of, span_of};
use crate::sameness::are_same;
use crate::shapes::{CHAR, INT, Shape};
use crate::warning::Warning;
use cyc_syntax::{
    BinaryOperator, Expr, GlobalValue, Ident, Initial, Operation, Postfix, PrefixOperator,
    WrittenType,
};
use cyc_words::Span;

/// The largest value of type char.
pub(crate) const LARGEST_CHAR: u32 = 255;

// ---- kinds of expressions

pub(crate) fn is_null(expression: &Expr) -> bool {
    match expression {
        Expr::Null { .. } => true,
        Expr::Bracketed { inner, .. } => is_null(inner),
        _ => false,
    }
}

/// Returns the variable that an expression denotes, possibly in parentheses.
fn named(expression: &Expr) -> Option<Ident> {
    match expression {
        Expr::Variable { name } => Some(*name),
        Expr::Bracketed { inner, .. } => named(inner),
        _ => None,
    }
}

/// Returns true if an expression has no effect apart from those of its parts. Dereferences and divisions may throw, so they do not count;
/// an expression that begins with two minus signs has a separate warning.
pub(crate) fn is_bare(expression: &Expr) -> bool {
    match expression {
        Expr::Number { .. }
        | Expr::Character { .. }
        | Expr::Null { .. }
        | Expr::HeapRegion { .. }
        | Expr::Variable { .. }
        | Expr::NumberOfElements { .. }
        | Expr::LowByteOf { .. } => true,
        Expr::Bracketed { inner, .. } => is_bare(inner),
        Expr::Prefixed {
            span,
            operator,
            operand,
        } => match operator {
            PrefixOperator::Negate => !is_double(*span, operand),
            PrefixOperator::Dereference => false,
            _ => true,
        },
        Expr::Binary { rest, .. } => !is_quotient(rest),
        _ => false,
    }
}

/// Returns true if an expression computes a value that is its only purpose, even if a part of the expression has an effect.
pub(crate) fn is_lost(expression: &Expr) -> bool {
    match expression {
        Expr::Bracketed { inner, .. } => is_lost(inner),
        Expr::Prefixed { .. } | Expr::NumberOfElements { .. } | Expr::LowByteOf { .. } => true,
        Expr::Binary { rest, .. } => match rest.last() {
            Some(operation) => !is_logical(operation.operator),
            None => false,
        },
        _ => false,
    }
}

fn is_quotient(operations: &[Operation]) -> bool {
    match operations.last() {
        Some(operation) => matches!(
            operation.operator,
            BinaryOperator::Divide | BinaryOperator::Remainder
        ),
        None => false,
    }
}

/// Returns true if the operand of a minus sign begins with another minus sign directly after the first.
pub(crate) fn is_double(span: Span, operand: &Expr) -> bool {
    match minus_of(operand) {
        Some(second) => is_next(span, second),
        None => false,
    }
}

fn is_order(operator: BinaryOperator) -> bool {
    matches!(
        operator,
        BinaryOperator::Less
            | BinaryOperator::LessOrEqual
            | BinaryOperator::Greater
            | BinaryOperator::GreaterOrEqual
    )
}

fn is_comparison(operator: BinaryOperator) -> bool {
    matches!(operator, BinaryOperator::Equal | BinaryOperator::NotEqual) || is_order(operator)
}

/// Returns true if an expression is a comparison that is not in parentheses.
fn is_compared(expression: &Expr) -> bool {
    match expression {
        Expr::Binary { rest, .. } => match rest.last() {
            Some(operation) => is_comparison(operation.operator),
            None => false,
        },
        _ => false,
    }
}

/// Returns true if an expression has the form of a truth value, 0 or 1.
pub(crate) fn is_truth(expression: &Expr) -> bool {
    match expression {
        Expr::Bracketed { inner, .. } => is_truth(inner),
        Expr::Prefixed {
            operator: PrefixOperator::Not,
            ..
        } => true,
        Expr::Binary { rest, .. } => match rest.last() {
            Some(operation) => is_comparison(operation.operator) || is_logical(operation.operator),
            None => false,
        },
        _ => false,
    }
}

fn is_logical(operator: BinaryOperator) -> bool {
    matches!(operator, BinaryOperator::AndThen | BinaryOperator::OrElse)
}

fn is_bits(operator: BinaryOperator) -> bool {
    matches!(
        operator,
        BinaryOperator::And | BinaryOperator::Or | BinaryOperator::Xor
    )
}

/// Returns how a binary operator uses its operands: whether it only examines a unique pointer, or uses its value.
fn use_by(operator: BinaryOperator) -> Use {
    match operator {
        BinaryOperator::OrElse
        | BinaryOperator::AndThen
        | BinaryOperator::Equal
        | BinaryOperator::NotEqual => Use::Looked,
        _ => Use::Value,
    }
}

/// Returns how the first operator in a chain of operators of one precedence level uses the first operand: by value, or by only examining
/// it.
fn use_in(operations: &[Operation]) -> Use {
    match operations.first() {
        Some(operation) => use_by(operation.operator),
        None => Use::Value,
    }
}

/// Returns how an assignment uses the lvalue that is assigned, given whether the value of the assignment itself is used.
fn use_of_target(use_of: Use) -> Use {
    Use::Assigned(!matches!(use_of, Use::Dropped))
}

/// Returns how a prefix operator uses its operand: it takes its value, only examines it, or takes its address.
fn use_of_prefix(operator: PrefixOperator) -> Use {
    match operator {
        PrefixOperator::Dereference | PrefixOperator::Not => Use::Looked,
        PrefixOperator::AddressOf => Use::Taken,
        _ => Use::Value,
    }
}

/// Returns the source position of a bitwise operator of whose operands one is a comparison without parentheses and another is not a truth
/// value.
fn loose_bits(first: &Expr, rest: &[Operation]) -> Option<Span> {
    let mut place = None;
    let mut is_other = !is_truth(first);
    let mut is_first = is_compared(first);
    for operation in rest {
        if is_first || is_compared(&operation.operand) {
            place = Some(operation.span);
        }
        is_first = false;
        is_other = is_other || !is_truth(&operation.operand);
    }
    if is_other { place } else { None }
}

/// Returns the number of elements of a type that fit in 1,000 words: four chars take one word, a fat pointer takes three. If the element
/// type could not be determined, the number for chars is returned.
fn most_elements(element: Option<Shape>) -> u32 {
    match element {
        Some(shape) if shape.is_fat => 333,
        Some(shape) if !shape.is_char() => 1000,
        _ => 4000,
    }
}

/// Returns the type of the result of a chain of binary operators: for a sum, the type of its first operand, and int for other operators.
fn shape_of_result(first: Option<Shape>, rest: &[Operation]) -> Option<Shape> {
    match rest.last() {
        Some(operation) if is_sum(operation.operator) => match first {
            Some(shape) if shape.marks > 0 => first,
            Some(_) => Some(INT),
            None => None,
        },
        _ => Some(INT),
    }
}

fn is_sum(operator: BinaryOperator) -> bool {
    matches!(operator, BinaryOperator::Add | BinaryOperator::Subtract)
}

/// Returns true if an expression has no subexpressions, as most operands do; such an expression is examined without a further function
/// call.
fn is_leaf(expression: &Expr) -> bool {
    matches!(
        expression,
        Expr::Variable { .. } | Expr::Number { .. } | Expr::Character { .. } | Expr::Null { .. }
    )
}

impl Finder {
    // ---- types

    /// Returns the type of an expression, if the declarations of its names determine it.
    fn shape_of(&self, expression: &Expr) -> Option<Shape> {
        match expression {
            Expr::Variable { name } => {
                match self.locals.all.get(self.known.local(name.name.number)) {
                    Some(local) => Some(local.shape),
                    None => self.known.global(name.name.number),
                }
            }
            Expr::Call { function, .. } => self.known.result(function.name.number),
            Expr::Bracketed { inner, .. } => self.shape_of(inner),
            Expr::Assign { target, .. } => self.shape_of(target),
            Expr::Chained { base, postfixes } => self.shape_after(self.shape_of(base), postfixes),
            Expr::Prefixed {
                operator: PrefixOperator::Dereference,
                operand,
                ..
            } => match self.shape_of(operand) {
                Some(shape) => shape.target(),
                None => None,
            },
            Expr::Prefixed {
                operator: PrefixOperator::AddressOf,
                ..
            } => None,
            Expr::Prefixed { .. } => Some(INT),
            Expr::Binary { first, rest } => shape_of_result(self.shape_of(first), rest),
            Expr::Number { .. } | Expr::Character { .. } | Expr::NumberOfElements { .. } => Some(
                INT,
            ),
            Expr::LowByteOf { .. } => Some(CHAR),
            _ => None,
        }
    }

    /// Returns the type of an operand with these postfix operators, given the type of the operand before them.
    fn shape_after(&self, base: Option<Shape>, postfixes: &[Postfix]) -> Option<Shape> {
        let mut shape = base;
        for postfix in postfixes {
            if let Some(pointer) = shape {
                shape = match postfix {
                    Postfix::Index { .. } => pointer.target(),
                    Postfix::Field { name } => match pointer.struct_after() {
                        Some(owner) => self.known.field(owner, name.name.number),
                        None => None,
                    },
                };
            }
        }
        shape
    }

    /// Returns true if the value of an expression is a unique pointer.
    pub(crate) fn is_unique(&self, expression: &Expr) -> bool {
        match expression {
            Expr::Bracketed { inner, .. } => self.is_unique(inner),
            Expr::RegionNew { region, .. } => matches!(**region, Expr::UniqueRegion { .. }),
            Expr::Call { .. } | Expr::Variable { .. } => match self.shape_of(expression) {
                Some(shape) => shape.is_unique(),
                None => false,
            },
            _ => false,
        }
    }

    // ---- parts of expressions

    /// Records a use of the local that an expression without subexpressions denotes, if it denotes one.
    fn note_leaf(&mut self, expression: &Expr, use_of: Use) {
        if let Expr::Variable { name } = expression {
            self.note(*name, use_of);
        }
    }

    /// Searches an expression and its subexpressions for warnings, and records how they use locals.
    #[cycle(expressions)]
    pub(crate) fn look_at(&mut self, expression: &Expr, use_of: Use) {
        match expression {
            Expr::Variable { name } => self.note(*name, use_of),
            Expr::Number { .. }
            | Expr::Character { .. }
            | Expr::Null { .. }
            | Expr::HeapRegion { .. }
            | Expr::UniqueRegion { .. } => {}
            Expr::Bracketed { inner, .. } => self.look_at(inner, use_of),
            Expr::NumberOfElements { pointer, .. } => self.look_at(pointer, Use::Looked),
            Expr::LowByteOf { value, .. } => self.look_at(value, Use::Value),
            Expr::Chained { base, postfixes } => {
                self.look_at_first(base, postfixes);
                if is_leaf(base) {
                    self.note_leaf(base, Use::Looked);
                } else {
                    self.look_at(base, Use::Looked);
                }
                for postfix in postfixes {
                    if let Postfix::Index { index } = postfix {
                        self.look_at(index, Use::Value);
                    }
                }
            }
            Expr::Prefixed {
                span,
                operator,
                operand,
            } => {
                self.look_at_sign(*span, *operator, operand);
                self.look_at(operand, use_of_prefix(*operator));
            }
            Expr::Binary { first, rest } => {
                self.look_at_operators(first, rest);
                if is_leaf(first) {
                    self.note_leaf(first, use_in(rest));
                } else {
                    self.look_at(first, use_in(rest));
                }
                for operation in rest {
                    let use_of = use_by(operation.operator);
                    if is_leaf(&operation.operand) {
                        self.note_leaf(&operation.operand, use_of);
                    } else {
                        self.look_at(&operation.operand, use_of);
                    }
                }
            }
            Expr::Call {
                function,
                arguments,
            } => {
                self.look_at_call(*function, arguments);
                for argument in arguments {
                    if is_leaf(argument) {
                        self.note_leaf(argument, Use::Value);
                    } else {
                        self.look_at(argument, Use::Value);
                    }
                }
            }
            Expr::FreeUnique { pointer, .. } => {
                self.count_effect();
                self.look_at(pointer, Use::Value);
            }
            Expr::FreeKey { key, .. } => {
                self.count_effect();
                self.note(*key, Use::Value);
            }
            Expr::New { value, .. } => self.look_at_initial(value),
            Expr::RegionNew { region, value, .. } => {
                self.look_at(region, Use::Value);
                self.look_at_initial(value);
            }
            Expr::Assign { target, value } => {
                self.look_at_assigned(target, value);
                if is_leaf(target) {
                    self.note_leaf(target, use_of_target(use_of));
                } else {
                    self.look_at(target, use_of_target(use_of));
                }
                self.look_at(value, Use::Value);
            }
        }
    }

    /// Searches the initial value of an object allocated by `new` or `rnew` for warnings.
    #[cycle(expressions)]
    fn look_at_initial(&mut self, initial: &Initial) {
        self.count_effect();
        match initial {
            Initial::Plain { value } => self.look_at(value, Use::Value),
            Initial::Fields { name, values, .. } => {
                self.look_at_fields(*name, values);
                for value in values {
                    self.look_at(value, Use::Value);
                }
            }
            Initial::Array {
                span,
                variable,
                length,
                element,
            } => {
                self.look_at(length, Use::Value);
                let depth = self.known.depth();
                self.declare(*variable, Local::new(variable.span, INT));
                if is_more_than(length, most_elements(self.shape_of(element))) {
                    self.warn(*span, Warning::ArraySize);
                }
                self.look_at(element, Use::Value);
                self.known.unbind(depth);
            }
        }
    }

    /// Counts one more call, assignment, allocation or deallocation, that is, one more effect.
    fn count_effect(&mut self) {
        self.effects = self.effects.saturating_add(1);
    }

    /// Warns if a value that is converted to a char is a constant that does not fit in a byte.
    pub(crate) fn look_at_byte(&mut self, value: &Expr) {
        if is_more_than(value, LARGEST_CHAR) {
            self.warn(span_of(value), Warning::CharConstant);
        }
    }

    /// Searches the initial value of a global for warnings.
    pub(crate) fn look_at_global(&mut self, of_type: &WrittenType, value: GlobalValue) {
        if Shape::written(of_type, self.known.unique).is_char() {
            match value {
                GlobalValue::Number { span, value } if value > LARGEST_CHAR => {
                    self.warn(span, Warning::CharConstant);
                }
                GlobalValue::Negative { span, value } if value > 0 => {
                    self.warn(span, Warning::CharConstant);
                }
                _ => {}
            }
        }
    }

    fn look_at_call(&mut self, function: Ident, arguments: &[Expr]) {
        self.count_effect();
        for (n, argument) in arguments.iter().enumerate() {
            if self.known.takes_char(function.name.number, n) {
                self.look_at_byte(argument);
            }
        }
    }

    fn look_at_fields(&mut self, owner: Ident, values: &[Expr]) {
        for (n, value) in values.iter().enumerate() {
            if self.known.keeps_char(owner.name.number, n) {
                self.look_at_byte(value);
            }
        }
    }

    fn look_at_assigned(&mut self, target: &Expr, value: &Expr) {
        self.count_effect();
        if is_more_than(value, LARGEST_CHAR) && self.is_char(target) {
            self.warn(span_of(value), Warning::CharConstant);
        }
        if are_same(target, value) {
            self.warn(span_of(target), Warning::SelfAssigned);
        }
        if let Some(name) = named(target) {
            if !is_null(value) {
                self.fill(name);
            }
        }
    }

    // ---- operands and their postfixes

    fn look_at_sign(&mut self, span: Span, operator: PrefixOperator, operand: &Expr) {
        if operator == PrefixOperator::Negate && is_double(span, operand) {
            self.warn(span, Warning::DoubleMinus);
        }
    }

    /// Checks the first postfix operator of a local for an index past the end of its array, if the operator is an index and the array's
    /// length may be known.
    fn look_at_first(&mut self, base: &Expr, postfixes: &[Postfix]) {
        if let Expr::Variable { name } = base {
            if let Some(Postfix::Index { index }) = postfixes.first() {
                let number = self.known.local(name.name.number);
                if let Some(
                    Local {
                        length: Some(length),
                        ..
                    },
                ) = self.locals.all.get(number)
                {
                    let length = *length;
                    self.look_at_number(number, length, index);
                }
            }
        }
    }

    /// Checks an array index against the number of elements, `length`, of the array with which the local with index `local` was declared.
    fn look_at_number(&mut self, local: usize, length: u32, index: &Expr) {
        if let Some(value) = constant_of(index) {
            if value >= length {
                self.locals.add_suspect(local, span_of(index));
            }
        }
    }

    // ---- binary operators

    /// Searches the operators of one precedence level, with their operands, for warnings.
    fn look_at_operators(&mut self, first: &Expr, rest: &[Operation]) {
        let mut left = Some(first);
        let mut is_ordered = false;
        for operation in rest {
            if is_ordered && is_order(operation.operator) {
                self.warn(operation.span, Warning::OrderChain);
            }
            self.look_at_operation(left, operation);
            is_ordered = is_order(operation.operator);
            left = None;
        }
        self.look_at_bits(first, rest);
        self.look_at_pairs(first, rest);
    }

    fn look_at_bits(&mut self, first: &Expr, rest: &[Operation]) {
        if let Some(operation) = rest.first() {
            if is_bits(operation.operator) {
                if let Some(span) = loose_bits(first, rest) {
                    self.warn(span, Warning::ComparedFirst);
                }
            }
        }
    }

    /// Searches a binary operator and its right operand for warnings. If the operator is the first of consecutive
    /// operators of one precedence level, warnings may also depend on its left operand.
    fn look_at_operation(&mut self, left: Option<&Expr>, operation: &Operation) {
        let (span, operand) = (operation.span, &operation.operand);
        match operation.operator {
            BinaryOperator::ShiftLeft | BinaryOperator::ShiftRight => {
                if is_past_width(operand) {
                    self.warn(span, Warning::ShiftCount);
                } else if is_loose_count(operand) {
                    self.warn(span, Warning::ShiftOfSum);
                }
            }
            BinaryOperator::Divide | BinaryOperator::Remainder => {
                if constant_of(operand) == Some(0) {
                    self.warn(span, Warning::DivisionByZero);
                }
            }
            BinaryOperator::Subtract => {
                if is_added(span, operand) {
                    self.warn(span, Warning::AddedMinus);
                }
            }
            BinaryOperator::OrElse | BinaryOperator::AndThen => self.look_at_truths(left, operand),
            operator if is_comparison(operator) => {
                if let Some(left) = left {
                    self.look_at_comparison(span, left, operand);
                }
            }
            _ => {}
        }
    }

    pub(crate) fn is_char(&self, expression: &Expr) -> bool {
        match self.shape_of(expression) {
            Some(shape) => shape.is_char(),
            None => false,
        }
    }
}

/// Returns true if a minus sign at this source position is directly followed by the minus sign with which its operand begins.
fn is_added(span: Span, operand: &Expr) -> bool {
    match leading_minus(operand) {
        Some(second) => is_next(span, second),
        None => false,
    }
}
