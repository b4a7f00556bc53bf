//! Traverses expressions to find a local's change for a diagnostic, and records the effects on that local.
use crate::cause::{Cause, Change};
use crate::cause_state::{Found, Known};
use cyc_types::typed::{Converted, Dereference, Expr, Initial, Lvalue, Operation, Placement};
use cyc_words::{Fault, Span};

/// The enclosing loop: the source position of the loop's keyword, and the local's state at the loop's head.
#[derive(Clone, Copy)]
pub(crate) struct Around {
    pub(crate) span: Span,
    pub(crate) head: Known,
}

#[derive(Drop)]
pub(crate) struct Walk {
    pub(crate) fault: Fault,
    /// The index of the local whose change is sought.
    pub(crate) number: usize,
    /// The peek of the local (a read without a move) whose value is not yet used, if any.
    pub(crate) waiting: Option<Cause>,
    /// The effect that the body of the innermost enclosing `try` has on the local: a move of its value, an assignment or another change.
    pub(crate) touched: Option<Cause>,
    /// True if a declaration or statement has locked the local (lent it until the end of a block) since the
    /// start of the enclosing loop's body.
    pub(crate) is_locked: bool,
    pub(crate) around: Option<Around>,
    /// The meet (the emptiest) of the local's states at the `break` statements that leave the enclosing loop.
    pub(crate) breaks: Known,
}

fn is_at(span: Span, fault: Fault) -> bool {
    span.line == fault.line && span.column == fault.column
}

/// Returns the local from which the dereferenced pointer is peeked (read without a move), and the source position of that peek.
pub(crate) fn peek_after(place: &Dereference) -> Option<(usize, Span)> {
    match place {
        Dereference::Target { pointer, .. } => peek_of(pointer),
        Dereference::Member { pointer, .. } => peek_of(pointer),
        Dereference::Element { pointer, .. } => peek_of(pointer),
    }
}

fn peek_of(operand: &Expr) -> Option<(usize, Span)> {
    match operand {
        Expr::Peek { span, number, .. } => Some((*number, *span)),
        _ => None,
    }
}

impl Walk {
    pub(crate) fn new(fault: Fault, number: usize) -> Walk {
        Walk {
            fault,
            number,
            waiting: None,
            touched: None,
            is_locked: false,
            around: None,
            breaks: Known::Unreached,
        }
    }

    // ---- effects on the local

    /// Visits a use of the local whose name is at this source position. If this is the position of the fault, the search for the
    /// fault's cause ends with this use.
    fn name(&self, span: Span, number: usize, known: Known) -> Result<(), Found> {
        if number == self.number && is_at(span, self.fault) {
            return Err(Found(known.cause().or(self.waiting)));
        }
        Ok(())
    }

    pub(crate) fn name_variable(&self, variable: Lvalue, known: Known) -> Result<(), Found> {
        match variable {
            Lvalue::Local { span, number } => self.name(span, number, known),
            Lvalue::Global { .. } => Ok(()),
        }
    }

    /// Records an effect of a `try` body on the local: the first move, or else the first change.
    fn touch(&mut self, cause: Cause) {
        let is_said = match self.touched {
            None => true,
            Some(before) => {
                !matches!(before.change, Change::Moved) && matches!(cause.change, Change::Moved)
            }
        };
        if is_said {
            self.touched = Some(cause);
        }
    }

    fn move_out(&mut self, span: Span, number: usize, known: Known) -> Result<Known, Found> {
        self.name(span, number, known)?;
        if number != self.number {
            return Ok(known);
        }
        let cause = Cause {
            change: Change::Moved,
            span,
        };
        self.touch(cause);
        Ok(known.set(Known::Vacant(Some(cause))))
    }

    fn assign(&mut self, variable: Lvalue, known: Known) -> Result<Known, Found> {
        self.name_variable(variable, known)?;
        match variable {
            Lvalue::Local { span, number } if number == self.number => {
                self.touch(Cause {
                    change: Change::Assigned,
                    span,
                });
                Ok(known.set(Known::Full))
            }
            _ => Ok(known),
        }
    }

    /// Visits a declaration or statement that declares one local and locks another one (lends it until the end of the block).
    /// The name of the locked local is at this source position.
    pub(crate) fn lock(
        &mut self,
        number: usize,
        span: Span,
        locked: usize,
        known: Known,
    ) -> Result<Known, Found> {
        self.name(span, locked, known)?;
        if locked != self.number {
            return Ok(self.declare(number, known));
        }
        let cause = Cause {
            change: Change::Locked,
            span,
        };
        self.touch(cause);
        self.is_locked = true;
        Ok(known.set(Known::Locked(cause)))
    }

    /// Visits the declaration of a local with an initial value.
    pub(crate) fn declare(&self, number: usize, known: Known) -> Known {
        if number == self.number {
            known.set(Known::Full)
        } else {
            known
        }
    }

    /// If the operand is a peek of the local (a read without a move), records that the read value is not yet used. Returns the
    /// peek that was recorded before.
    pub(crate) fn wait(&mut self, peeked: Option<(usize, Span)>) -> Option<Cause> {
        let before = self.waiting;
        match peeked {
            Some((number, span)) if number == self.number => {
                self.waiting = Some(Cause {
                    change: Change::Peeked,
                    span,
                });
            }
            _ => {}
        }
        before
    }

    /// Visits the end of a loop's body, where control returns to the loop's head. The position of the loop's keyword may be that of the
    /// fault.
    pub(crate) fn go_back(&self, span: Span, head: Known, end: Known) -> Result<(), Found> {
        if is_at(span, self.fault) && end.is_emptier(head) {
            return Err(Found(end.cause()));
        }
        Ok(())
    }

    // ---- expressions

    #[cycle(expression)]
    pub(crate) fn evaluate(&mut self, value: &Expr, known: Known) -> Result<Known, Found> {
        match value {
            Expr::Number { .. } | Expr::NullPointer | Expr::HeapRegion | Expr::Counter { .. } => {
                Ok(known)
            }
            Expr::Copy { source, .. } => {
                self.name_variable(*source, known)?;
                Ok(known)
            }
            Expr::Move { span, number, .. } => self.move_out(*span, *number, known),
            Expr::Peek { span, number, .. } => {
                self.name(*span, *number, known)?;
                Ok(known)
            }
            Expr::Load { source } => self.find(source, known),
            Expr::AddressOf { place, .. } => {
                self.name_variable(*place, known)?;
                Ok(known)
            }
            Expr::AddressOfCell { place, .. } => self.find(place, known),
            Expr::NumberOfElements { pointer } => self.evaluate(pointer, known),
            Expr::FreeUnique { pointer } => self.evaluate(pointer, known),
            Expr::FreeKey { key } => self.evaluate(key, known),
            Expr::Call { arguments, .. } => self.pass(arguments, known),
            Expr::Unary { operand, .. } => self.evaluate(operand, known),
            Expr::Binary { first, rest, .. } => {
                let following = self.evaluate(first, known)?;
                self.apply_operations(peek_of(first), rest, following)
            }
            Expr::Assign { target, value, .. } => {
                let following = self.evaluate(&value.value, known)?;
                self.assign(*target, following)
            }
            Expr::Store { target, value, .. } => {
                let found = self.find(target, known)?;
                let before = self.wait(peek_after(target));
                let following = self.evaluate(&value.value, found)?;
                self.waiting = before;
                Ok(following)
            }
            Expr::New {
                placement,
                initial,
                ..
            } => {
                let placed = self.place(placement, known)?;
                self.initialise(initial, placed)
            }
        }
    }

    #[cycle(expression)]
    pub(crate) fn find(&mut self, place: &Dereference, known: Known) -> Result<Known, Found> {
        match place {
            Dereference::Target { pointer, .. } => self.evaluate(pointer, known),
            Dereference::Member { pointer, .. } => self.evaluate(pointer, known),
            Dereference::Element { pointer, index, .. } => {
                let found = self.evaluate(pointer, known)?;
                let before = self.wait(peek_of(pointer));
                let following = self.evaluate(index, found)?;
                self.waiting = before;
                Ok(following)
            }
        }
    }

    #[cycle(expression)]
    fn place(&mut self, placement: &Placement, known: Known) -> Result<Known, Found> {
        match placement {
            Placement::ByHandle { handle } => self.evaluate(handle, known),
            Placement::OnHeap | Placement::AsUnique => Ok(known),
        }
    }

    #[cycle(expression)]
    fn initialise(&mut self, initial: &Initial, known: Known) -> Result<Known, Found> {
        match initial {
            Initial::Plain { value, .. } => self.evaluate(value, known),
            Initial::Fields { values } => self.pass(values, known),
            Initial::Array {
                span,
                length,
                element,
                ..
            } => {
                let head = self.evaluate(length, known)?;
                let end = self.evaluate(element, head)?;
                self.go_back(*span, head, end)?;
                Ok(head)
            }
        }
    }

    #[cycle(expression)]
    fn pass(&mut self, arguments: &[Converted], known: Known) -> Result<Known, Found> {
        let mut following = known;
        for argument in arguments {
            following = self.evaluate(&argument.value, following)?;
        }
        Ok(following)
    }

    #[cycle(expression)]
    fn apply_operations(
        &mut self,
        left: Option<(usize, Span)>,
        operations: &[Operation],
        known: Known,
    ) -> Result<Known, Found> {
        let mut following = known;
        for operation in operations {
            following = self.apply_operation(left, operation, following)?;
        }
        Ok(following)
    }

    #[cycle(expression)]
    fn apply_operation(
        &mut self,
        left: Option<(usize, Span)>,
        operation: &Operation,
        known: Known,
    ) -> Result<Known, Found> {
        match operation {
            Operation::Compute { operand, .. } | Operation::Pointer { operand, .. } => {
                self.evaluate(operand, known)
            }
            Operation::Test { operand, .. } => Ok(known.meet(self.evaluate(operand, known)?)),
            Operation::PointerPeek { operand, .. } => {
                let before = self.wait(left);
                let following = self.evaluate(operand, known)?;
                self.waiting = before;
                Ok(following)
            }
        }
    }
}
