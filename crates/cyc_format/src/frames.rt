//! The open constructs at a position of a text: brackets, braces around statements, fields or catch clauses,
//! and conditions whose statement has not begun.
use std::alloc::Global;

/// An open construct.
#[derive(Clone, Copy, Debug, PartialEq, Eq)]
pub(crate) enum FrameKind {
    Parenthesis,
    /// The condition of an `if`, whose statement has not begun.
    IfHead,
    /// The condition of a `while`, whose statement has not begun.
    WhileHead,
    /// The region handle of an `rnew`.
    Handle,
    Bracket,
    /// A list of regions between `<` and `>`.
    Regions,
    /// The braces around values, regions or a key.
    Values,
    /// The braces of a block.
    Block,
    /// The braces of a struct.
    Fields,
    /// The braces of a list of exceptions.
    Exceptions,
    /// The braces around the clauses of a `catch`.
    Clauses,
    /// The statements of a catch clause, after its `case`.
    Clause,
    If,
    Else,
    While,
    Try,
}

/// An open construct, and the indentation levels of its lines.
#[derive(Clone, Copy)]
pub(crate) struct Frame {
    pub(crate) kind: FrameKind,
    /// The indentation level of the statement in which the construct was opened.
    pub(crate) outside: usize,
    /// True if the whole construct, up to its closing bracket or brace, is on the line on which it was opened.
    pub(crate) is_one_line: bool,
    /// True if the statement that the construct controls is on a line of its own.
    pub(crate) is_broken: bool,
}

impl FrameKind {
    pub(crate) fn is_parenthesis(self) -> bool {
        matches!(
            self,
            FrameKind::Parenthesis | FrameKind::IfHead | FrameKind::WhileHead | FrameKind::Handle
        )
    }

    /// Returns true if a construct of this kind (such as brackets or parentheses) is part of a statement.
    pub(crate) fn is_within(self) -> bool {
        self.is_parenthesis()
            || matches!(
                self,
                FrameKind::Bracket | FrameKind::Regions | FrameKind::Values
            )
    }

    /// Returns true if a construct of this kind is a condition that controls a statement.
    pub(crate) fn is_head(self) -> bool {
        matches!(
            self,
            FrameKind::If | FrameKind::Else | FrameKind::While | FrameKind::Try
        )
    }

    /// Returns true if a construct of this kind contains statements, fields or catch clauses.
    pub(crate) fn is_body(self) -> bool {
        matches!(
            self,
            FrameKind::Block | FrameKind::Fields | FrameKind::Exceptions | FrameKind::Clauses
        )
    }

    /// Returns true if a construct of this kind is closed by `}`.
    pub(crate) fn is_braced(self) -> bool {
        self.is_body() || self == FrameKind::Values
    }
}

impl Frame {
    pub(crate) fn new(kind: FrameKind, outside: usize) -> Frame {
        Frame {
            kind,
            outside,
            is_one_line: false,
            is_broken: false,
        }
    }

    /// Returns the indentation level of the lines in the construct.
    pub(crate) fn inside(&self) -> usize {
        self.outside.saturating_add(1)
    }
}

/// All open constructs, innermost last.
#[derive(Drop)]
pub(crate) struct Frames {
    all: Vec<Frame>,
    /// True if memory has not run out, so that the list of open constructs is complete.
    pub(crate) is_whole: bool,
}

impl Frames {
    pub(crate) fn new(alloc: Global) -> Frames {
        Frames {
            all: Vec::new(alloc),
            is_whole: true,
        }
    }

    pub(crate) fn push(&mut self, frame: Frame) {
        self.is_whole = self.all.push(frame).is_ok() && self.is_whole;
    }

    pub(crate) fn pop(&mut self) -> Option<Frame> {
        self.all.pop()
    }

    pub(crate) fn last(&self) -> Option<Frame> {
        self.all.last().copied()
    }

    pub(crate) fn is_empty(&self) -> bool {
        self.all.is_empty()
    }

    /// Returns true if the innermost open construct is of this kind.
    pub(crate) fn ends_with(&self, kind: FrameKind) -> bool {
        match self.last() {
            Some(frame) => frame.kind == kind,
            None => false,
        }
    }

    /// Returns true if the innermost open construct is part of a statement, as brackets or parentheses are.
    pub(crate) fn is_within(&self) -> bool {
        match self.last() {
            Some(frame) => frame.kind.is_within(),
            None => false,
        }
    }

    /// Returns true if the innermost open construct is a parenthesis.
    pub(crate) fn is_parenthesis(&self) -> bool {
        match self.last() {
            Some(frame) => frame.kind.is_parenthesis(),
            None => false,
        }
    }

    /// Records that the statement of the innermost construct is on a line of its own.
    pub(crate) fn break_last(&mut self) {
        if let Some(frame) = self.all.last_mut() {
            frame.is_broken = true;
        }
    }

    /// Closes the innermost open conditions of `if` or `while`, up to the first open construct that is no condition or has the kind `kept`.
    pub(crate) fn close_heads(&mut self, kept: Option<FrameKind>) {
        for _ in 0..self.all.len() {
            match self.last() {
                Some(frame) if frame.kind.is_head() && Some(frame.kind) != kept => {
                    self.all.pop();
                }
                _ => return,
            }
        }
    }

    /// Closes the open constructs that are parts of a statement, such as brackets and parentheses.
    pub(crate) fn close_within(&mut self) {
        for _ in 0..self.all.len() {
            if !self.is_within() {
                return;
            }
            self.all.pop();
        }
    }

    /// Closes the open constructs that are parts of a statement, up to braces around values.
    pub(crate) fn close_brackets(&mut self) {
        for _ in 0..self.all.len() {
            if !self.is_within() || self.ends_with(FrameKind::Values) {
                return;
            }
            self.all.pop();
        }
    }

    /// Closes the innermost open parenthesis and all constructs opened in it, but no open brace, and returns the record of this
    /// parenthesis.
    pub(crate) fn close_parenthesis(&mut self) -> Option<Frame> {
        for _ in 0..self.all.len() {
            match self.last() {
                Some(frame) if frame.kind.is_parenthesis() => return self.all.pop(),
                Some(frame) if !frame.kind.is_braced() => {
                    self.all.pop();
                }
                _ => return None,
            }
        }
        None
    }

    /// Closes a bracket and everything opened in it, but no open brace.
    pub(crate) fn close_bracket(&mut self) {
        for _ in 0..self.all.len() {
            match self.last() {
                Some(frame) if frame.kind == FrameKind::Bracket => {
                    self.all.pop();
                    return;
                }
                Some(frame) if !frame.kind.is_braced() => {
                    self.all.pop();
                }
                _ => return,
            }
        }
    }

    /// Closes the innermost open braces and all constructs opened in them, and returns the record of the construct that these braces form.
    pub(crate) fn close_braces(&mut self) -> Option<Frame> {
        for _ in 0..self.all.len() {
            match self.all.pop() {
                Some(frame) if frame.kind.is_braced() => return Some(frame),
                _ => {}
            }
        }
        None
    }
}
