//! The names and structs of a program, stored apart from its syntax tree. A struct that refers to a tree would make every function that
//! receives it more expensive to prove.
use cyc_syntax::{Declaration, Ident, Name, Names, Tree};
use std::alloc::Global;

/// The value that stands for the absence of a name where the index of a name is expected.
pub const NO_NAME: usize = usize::MAX;

/// The byte offsets of the beginning and end of a name's text within the buffer that contains the texts of all names.
#[derive(Clone, Copy)]
struct Entry {
    start: usize,
    end: usize,
}

/// A struct of the program: the index of its name in the lexicon, and its number of region parameters.
#[derive(Clone, Copy)]
struct Known {
    name: usize,
    regions: usize,
}

#[derive(Drop)]
pub struct Lexicon {
    bytes: Vec<u8>,
    entries: Vec<Entry>,
    structs: Vec<Known>,
    /// True if memory never ran out while the lexicon was built, so that it lacks no name or struct.
    pub is_whole: bool,
}

impl Lexicon {
    pub fn of(alloc: Global, tree: &Tree) -> Lexicon {
        let mut lexicon = Lexicon {
            bytes: Vec::new(alloc),
            entries: Vec::new(alloc),
            structs: Vec::new(alloc),
            is_whole: true,
        };
        lexicon.add_names(&tree.names);
        for declaration in &tree.declarations {
            if let Declaration::Struct { name, regions, .. } = declaration {
                lexicon.add_struct(name.name.number, regions.len());
            }
        }
        lexicon
    }

    fn add_names(&mut self, names: &Names) {
        for number in 0..names.len() {
            let start = self.bytes.len();
            let text = names.text(Name { number });
            let is_added = self.bytes.extend_from_slice(text).is_ok();
            let end = self.bytes.len();
            let is_listed = self.entries.push(Entry { start, end }).is_ok();
            self.is_whole = self.is_whole && is_added && is_listed;
        }
    }

    fn add_struct(&mut self, name: usize, regions: usize) {
        let is_added = self.structs.push(Known { name, regions }).is_ok();
        self.is_whole = self.is_whole && is_added;
    }

    /// Returns the number of names in the lexicon.
    pub fn len(&self) -> usize {
        self.entries.len()
    }

    /// Returns the text of a name; the text of `NO_NAME` is empty.
    pub fn text(&self, number: usize) -> &[u8] {
        match self.entries.get(number) {
            Some(entry) => match self.bytes.get(entry.start..entry.end) {
                Some(text) => text,
                None => &[],
            },
            None => &[],
        }
    }

    /// Returns the index of a struct's name in the lexicon, from the struct's own index.
    pub fn struct_name(&self, number: usize) -> usize {
        match self.structs.get(number) {
            Some(known) => known.name,
            None => NO_NAME,
        }
    }

    /// Returns the number of region parameters of the struct with the given name.
    pub fn region_count(&self, name: Ident) -> Option<usize> {
        for known in &self.structs {
            if known.name == name.name.number {
                return Some(known.regions);
            }
        }
        None
    }
}
