//! This file has the meaning of names: the declarations of a program and the locals in scope, each found in constant time.
use crate::shapes::Shape;
use cyc_syntax::{Declaration, Member, ParameterList, Tree, WrittenType};
use std::alloc::Global;

/// The value that stands for the absence of a name, a local or a field.
const NONE: usize = usize::MAX;

/// The meaning of a name that does not denote a local.
#[derive(Clone, Copy)]
struct Entry {
    global: Option<Shape>,
    /// The type of the result of the function with this name.
    result: Option<Shape>,
    /// The index of the first field of the struct with this name.
    fields: usize,
    /// The index of the first parameter of the function with this name.
    parameters: usize,
}

const NOTHING: Entry = Entry {
    global: None,
    result: None,
    fields: NONE,
    parameters: NONE,
};

/// A field, with the name of its struct.
#[derive(Clone, Copy)]
struct Field {
    owner: usize,
    name: usize,
    shape: Shape,
}

/// The binding of a name to a local, with the local that this name denoted before the binding.
#[derive(Clone, Copy)]
struct Binding {
    name: usize,
    hidden: usize,
}

/// The meanings of all names at the point that the traversal of the program has reached.
#[derive(Drop)]
pub(crate) struct Known {
    /// The meanings of names, indexed by the number that identifies a name.
    entries: Vec<Entry>,
    /// For each name, the index of the local variable that it denotes now; the list is indexed by the number that identifies a name.
    locals: Vec<usize>,
    /// The fields of all structs; the fields of one struct are adjacent.
    fields: Vec<Field>,
    /// For each parameter, true if the parameter is a char; the parameters of one function are adjacent.
    parameters: Vec<bool>,
    /// The names of the locals in scope, the newest name last.
    bindings: Vec<Binding>,
    /// The number that identifies the name of the region of unique pointers.
    pub(crate) unique: usize,
    /// True if all memory allocations of this table of names have succeeded so far.
    pub(crate) is_whole: bool,
}

impl Known {
    pub(crate) fn of(alloc: Global, tree: &Tree) -> Known {
        let mut known = Known {
            entries: Vec::new(alloc),
            locals: Vec::new(alloc),
            fields: Vec::new(alloc),
            parameters: Vec::new(alloc),
            bindings: Vec::new(alloc),
            unique: NONE,
            is_whole: true,
        };
        known.is_whole = known.entries.resize(tree.names.len(), NOTHING).is_ok()
            && known.locals.resize(tree.names.len(), NONE).is_ok();
        if let Some(name) = tree.names.find(b"U") {
            known.unique = name.number;
        }
        for declaration in &tree.declarations {
            known.add(declaration);
        }
        known
    }

    fn add(&mut self, declaration: &Declaration) {
        match declaration {
            Declaration::Struct { name, fields, .. } => self.add_fields(name.name.number, fields),
            Declaration::Global { of_type, name, .. } => {
                let shape = Shape::written(of_type, self.unique);
                if let Some(entry) = self.entries.get_mut(name.name.number) {
                    entry.global = Some(shape);
                }
            }
            Declaration::Function {
                result,
                name,
                parameters,
                ..
            } => {
                let shape = self.shape_of_result(result);
                let start = self.parameters.len();
                if let Some(entry) = self.entries.get_mut(name.name.number) {
                    entry.result = shape;
                    entry.parameters = start;
                }
                if let ParameterList::Listed { members } = &parameters.list {
                    self.add_parameters(members);
                }
            }
            Declaration::Exceptions { .. } => {}
        }
    }

    /// Returns the type of a function's result, if it has one.
    pub(crate) fn shape_of_result(&self, returned: &Option<WrittenType>) -> Option<Shape> {
        match returned {
            Some(written) => Some(Shape::written(written, self.unique)),
            None => None,
        }
    }

    fn add_parameters(&mut self, members: &[Member]) {
        for member in members {
            let is_char = Shape::written(&member.of_type, self.unique).is_char();
            self.is_whole = self.parameters.push(is_char).is_ok() && self.is_whole;
        }
    }

    fn add_fields(&mut self, owner: usize, members: &[Member]) {
        let start = self.fields.len();
        if let Some(entry) = self.entries.get_mut(owner) {
            entry.fields = start;
        }
        for member in members {
            let field = Field {
                owner,
                name: member.name.name.number,
                shape: Shape::written(&member.of_type, self.unique),
            };
            self.is_whole = self.fields.push(field).is_ok() && self.is_whole;
        }
    }

    // ---- locals

    /// Returns the number of names of locals in scope.
    pub(crate) fn depth(&self) -> usize {
        self.bindings.len()
    }

    /// Binds a name to the local with index `number`.
    pub(crate) fn bind(&mut self, name: usize, number: usize) {
        if let Some(local) = self.locals.get_mut(name) {
            let hidden = *local;
            *local = number;
            self.is_whole = self.bindings.push(Binding { name, hidden }).is_ok() && self.is_whole;
        }
    }

    /// Unbinds all names of locals except the `depth` oldest ones.
    pub(crate) fn unbind(&mut self, depth: usize) {
        for _ in depth..self.bindings.len() {
            if let Some(binding) = self.bindings.pop() {
                if let Some(local) = self.locals.get_mut(binding.name) {
                    *local = binding.hidden;
                }
            }
        }
    }

    // ---- meanings of names

    /// Returns the index of the local with this name, or `NONE`.
    pub(crate) fn local(&self, name: usize) -> usize {
        match self.locals.get(name) {
            Some(number) => *number,
            None => NONE,
        }
    }

    /// Returns the type of the global with this name.
    pub(crate) fn global(&self, name: usize) -> Option<Shape> {
        match self.entries.get(name) {
            Some(entry) => entry.global,
            None => None,
        }
    }

    /// Returns the result type of the function with this name.
    pub(crate) fn result(&self, name: usize) -> Option<Shape> {
        match self.entries.get(name) {
            Some(entry) => entry.result,
            None => None,
        }
    }

    /// Returns true if the parameter with index `number` of a function is a char.
    pub(crate) fn takes_char(&self, function: usize, number: usize) -> bool {
        let start = match self.entries.get(function) {
            Some(entry) => entry.parameters,
            None => NONE,
        };
        match self.parameters.get(start.saturating_add(number)) {
            Some(is_char) => *is_char,
            None => false,
        }
    }

    /// Returns true if the field with index `number` of a struct is a char.
    pub(crate) fn keeps_char(&self, owner: usize, number: usize) -> bool {
        let start = match self.entries.get(owner) {
            Some(entry) => entry.fields,
            None => NONE,
        };
        match self.fields.get(start.saturating_add(number)) {
            Some(field) => field.owner == owner && field.shape.is_char(),
            None => false,
        }
    }

    /// Returns the type of a field of a struct, given the names of both.
    pub(crate) fn field(&self, owner: usize, name: usize) -> Option<Shape> {
        let start = match self.entries.get(owner) {
            Some(entry) => entry.fields,
            None => NONE,
        };
        if let Some(fields) = self.fields.get(start..) {
            for field in fields {
                if field.owner != owner {
                    return None;
                }
                if field.name == name {
                    return Some(field.shape);
                }
            }
        }
        None
    }
}
