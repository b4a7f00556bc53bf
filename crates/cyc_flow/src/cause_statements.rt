//! Traverses statements to find a local's change for a diagnostic.
use crate::cause_expressions::{Around, Walk, peek_after};
use crate::cause_state::{Found, Known};
use cyc_types::typed::{Clause, Converted, Expr, Item, Side, Stmt};
use cyc_words::Span;

fn peeked_side(side: &Side) -> Option<(usize, Span)> {
    match side {
        Side::Variable { .. } => None,
        Side::Cell { place } => peek_after(place),
    }
}

impl Walk {
    fn find_side(&mut self, side: &Side, known: Known) -> Result<Known, Found> {
        match side {
            Side::Variable { .. } => Ok(known),
            Side::Cell { place } => self.find(place, known),
        }
    }

    fn name_side(&self, side: &Side, known: Known) -> Result<(), Found> {
        match side {
            Side::Variable { place, .. } => self.name_variable(*place, known),
            Side::Cell { .. } => Ok(()),
        }
    }

    fn swap(&mut self, left: &Side, right: &Side, known: Known) -> Result<Known, Found> {
        let found = self.find_side(left, known)?;
        let before = self.wait(peeked_side(left));
        let following = self.find_side(right, found)?;
        self.name_side(left, following)?;
        self.name_side(right, following)?;
        self.waiting = before;
        Ok(following)
    }

    fn convert(&mut self, value: &Option<Converted>, known: Known) -> Result<Known, Found> {
        match value {
            None => Ok(known),
            Some(converted) => self.evaluate(&converted.value, known),
        }
    }

    /// Visits the declaration of a local, with or without a value.
    fn declare_local(
        &mut self,
        number: usize,
        value: &Option<Converted>,
        known: Known,
    ) -> Result<Known, Found> {
        let following = self.convert(value, known)?;
        if number == self.number && value.is_none() {
            return Ok(following.set(Known::Vacant(None)));
        }
        Ok(self.declare(number, following))
    }

    fn leave(&mut self, known: Known) {
        let at_exit = known.unlocked(self.is_locked);
        self.breaks = self.breaks.meet(at_exit);
    }

    fn go_on(&self, known: Known) -> Result<(), Found> {
        match self.around {
            None => Ok(()),
            Some(around) => {
                self.go_back(around.span, around.head, known.unlocked(self.is_locked))
            }
        }
    }

    #[cycle(statement)]
    fn check_statement(&mut self, statement: &Stmt, known: Known) -> Result<Known, Found> {
        match statement {
            Stmt::Block { items, .. } => self.check_block(items, known),
            Stmt::Empty => Ok(known),
            Stmt::Evaluate { value, .. } => self.evaluate(value, known),
            Stmt::Swap { left, right, .. } => self.swap(left, right, known),
            Stmt::If {
                condition,
                then,
                otherwise,
                ..
            } => {
                let inside = self.evaluate(condition, known)?;
                let following = self.check_statement(then, inside)?;
                let after_other = self.check_statement(otherwise, inside)?;
                Ok(following.meet(after_other))
            }
            Stmt::While {
                span,
                condition,
                body,
            } => self.check_loop(body, condition, *span, known),
            Stmt::Return { value, .. } => {
                self.convert(value, known)?;
                Ok(Known::Unreached)
            }
            Stmt::Break => {
                self.leave(known);
                Ok(Known::Unreached)
            }
            Stmt::Continue => {
                self.go_on(known)?;
                Ok(Known::Unreached)
            }
            Stmt::Throw { value, .. } => {
                if let Some(value) = value {
                    self.evaluate(value, known)?;
                }
                Ok(Known::Unreached)
            }
            Stmt::Try {
                body,
                clauses,
                default,
                ..
            } => {
                let (start, following) = self.check_body(body, known)?;
                let following = self.check_clauses(start, clauses, following)?;
                match default {
                    None => Ok(following),
                    Some(body) => Ok(following.meet(self.check_block(&body.items, start)?)),
                }
            }
        }
    }

    /// Visits the body of a `try`. Returns the local's state at the start of the catch clauses, and its state after the body.
    #[cycle(statement)]
    fn check_body(&mut self, body: &Stmt, known: Known) -> Result<(Known, Known), Found> {
        let before = self.touched;
        self.touched = None;
        let following = self.check_statement(body, known)?;
        let start = match (known, self.touched) {
            (Known::Full, Some(cause)) => Known::Vacant(Some(cause)),
            _ => known,
        };
        if before.is_some() {
            self.touched = before;
        }
        Ok((start, following))
    }

    #[cycle(statement)]
    fn check_clauses(
        &mut self,
        start: Known,
        clauses: &[Clause],
        following: Known,
    ) -> Result<Known, Found> {
        let mut met = following;
        for clause in clauses {
            let caught = match clause.number {
                None => start,
                Some(number) => self.declare(number, start),
            };
            met = met.meet(self.check_block(&clause.items, caught)?);
        }
        Ok(met)
    }

    #[cycle(statement)]
    fn check_loop(
        &mut self,
        body: &Stmt,
        condition: &Expr,
        span: Span,
        head: Known,
    ) -> Result<Known, Found> {
        let exit = self.evaluate(condition, head)?;
        let outer = (self.around, self.breaks, self.is_locked);
        self.around = Some(Around { span, head });
        self.breaks = Known::Unreached;
        self.is_locked = false;
        let end = self.check_statement(body, exit)?;
        self.go_back(span, head, end)?;
        let following = exit.meet(self.breaks);
        (self.around, self.breaks, self.is_locked) = outer;
        Ok(following)
    }

    #[cycle(statement)]
    fn check_block(&mut self, items: &[Item], known: Known) -> Result<Known, Found> {
        let was_locked = self.is_locked;
        let end = self.check_items(items, known)?;
        let is_here = self.is_locked && !was_locked;
        self.is_locked = was_locked;
        Ok(end.unlocked(is_here))
    }

    #[cycle(statement)]
    pub(crate) fn check_items(&mut self, items: &[Item], known: Known) -> Result<Known, Found> {
        let mut following = known;
        for item in items {
            following = self.check_item(item, following)?;
        }
        Ok(following)
    }

    #[cycle(statement)]
    fn check_item(&mut self, item: &Item, known: Known) -> Result<Known, Found> {
        match item {
            Item::Execute { statement } => self.check_statement(statement, known),
            Item::Local { number, value, .. } => self.declare_local(*number, value, known),
            Item::Region { number, .. } | Item::DynamicRegion { number, .. } => {
                Ok(self.declare(*number, known))
            }
            Item::Open {
                number,
                span,
                key,
                ..
            } => self.lock(*number, *span, *key, known),
            Item::Alias {
                number,
                span,
                source,
                ..
            } => self.lock(*number, *span, *source, known),
        }
    }
}
