//! This file defines the shape of a type: the base, pointer signs and region, which are all that warnings depend on.
use cyc_syntax::{BaseType, PointerKind, WrittenType};

/// The base of a type: the type as it is written before its pointer signs (`*`, `@` and `?`).
#[derive(Clone, Copy)]
pub(crate) enum Base {
    Int,
    Char,
    /// A struct, given by the number that identifies its name.
    Struct(usize),
    /// The key of a dynamic region.
    Key,
    /// A region handle.
    Other,
}

/// The region that is written at the last pointer sign of a type.
#[derive(Clone, Copy)]
pub(crate) enum Home {
    Unique,
    /// No region is written, so the region may be that of the initial value.
    LeftOut,
    Other,
}

/// The shape of a type: its base, the number of its pointer signs, and the kind (`*`, `@` or `?`) and the region of the last pointer sign.
#[derive(Clone, Copy)]
pub(crate) struct Shape {
    pub(crate) base: Base,
    pub(crate) marks: usize,
    pub(crate) is_fat: bool,
    pub(crate) home: Home,
}

/// The shape of the type `int`.
pub(crate) const INT: Shape = Shape {
    base: Base::Int,
    marks: 0,
    is_fat: false,
    home: Home::Other,
};

pub(crate) const CHAR: Shape = Shape {
    base: Base::Char,
    marks: 0,
    is_fat: false,
    home: Home::Other,
};

/// The shape of the type of the key of a dynamic region.
pub(crate) const KEY: Shape = Shape {
    base: Base::Key,
    marks: 0,
    is_fat: false,
    home: Home::Other,
};

/// The shape of the type of a region handle.
pub(crate) const OTHER: Shape = Shape {
    base: Base::Other,
    marks: 0,
    is_fat: false,
    home: Home::Other,
};

impl Shape {
    /// Returns the shape of a written type, given the number that identifies the name of the region of unique pointers.
    pub(crate) fn written(written: &WrittenType, unique: usize) -> Shape {
        let base = match &written.base {
            BaseType::Int => Base::Int,
            BaseType::Char => Base::Char,
            BaseType::Struct { name, .. } => Base::Struct(name.name.number),
            BaseType::Key { .. } => Base::Key,
            BaseType::Handle { .. } => Base::Other,
        };
        let marks = written.marks.len();
        let mut shape = Shape {
            base,
            marks,
            is_fat: false,
            home: Home::Other,
        };
        if let Some(mark) = written.marks.last() {
            shape.is_fat = mark.kind == PointerKind::Fat;
            shape.home = match mark.region {
                Some(region) if region.name.number == unique => Home::Unique,
                Some(_) => Home::Other,
                None => Home::LeftOut,
            };
        }
        shape
    }

    pub(crate) fn is_char(self) -> bool {
        self.marks == 0 && matches!(self.base, Base::Char)
    }

    pub(crate) fn is_key(self) -> bool {
        self.marks == 0 && matches!(self.base, Base::Key)
    }

    pub(crate) fn is_unique(self) -> bool {
        matches!(self.home, Home::Unique)
    }

    /// Returns the shape of a pointer's target; the kind of the target's own pointer sign is unknown.
    pub(crate) fn target(self) -> Option<Shape> {
        if self.marks == 0 {
            return None;
        }
        Some(Shape {
            base: self.base,
            marks: self.marks - 1,
            is_fat: false,
            home: Home::Other,
        })
    }

    /// Returns the number that identifies the name of the struct to which a pointer points.
    pub(crate) fn struct_after(self) -> Option<usize> {
        match self.base {
            Base::Struct(name) if self.marks == 1 => Some(name),
            _ => None,
        }
    }
}
