//! For each region of a function, the construct from which it comes, and its name.
use cyc_syntax::{BaseType, Ident, Member, WrittenType};
use cyc_types::{Region, RegionNames};
use cyc_words::Span;
use std::alloc::Global;

/// The kind of construct (the caller, a block, a declaration, ..) from which a region comes.
#[derive(Clone, Copy)]
pub enum Origin {
    /// The caller of the function provides the region.
    Caller,
    /// A block, possibly the function's body, opens the region.
    Block,
    /// A `region` declaration in a block opens the region.
    Item,
    /// An alias declaration introduces the region.
    Alias,
    /// The region is dynamic: a declaration in a block creates it, or the caller provides it.
    Dynamic,
}

/// The construct from which a region comes, the region's name, if it has one, and the source position of its declaration or of its block.
#[derive(Clone, Copy)]
pub struct Home {
    pub name: Option<usize>,
    pub span: Span,
    pub origin: Origin,
}

/// For each region of a function that is declared before the fault, the construct that introduces this region. The list is in the
/// order of the regions' indices.
#[derive(Drop)]
pub struct Homes {
    pub all: Vec<Home>,
    /// True if memory never ran out while the list was built, so that it lacks no region.
    pub is_whole: bool,
}

impl Homes {
    pub fn new(alloc: Global) -> Homes {
        Homes {
            all: Vec::new(alloc),
            is_whole: true,
        }
    }

    /// Returns where a region comes from, or `None` for the heap and the unique region.
    pub fn find(&self, region: Region) -> Option<Home> {
        match region {
            Region::Variable(number) => self.all.get(number).copied(),
            Region::Heap | Region::Unique => None,
        }
    }

    /// Returns the source position of the region with the given name, except the function's own region.
    pub fn find_named(&self, name: usize) -> Option<Span> {
        let mut found = None;
        for i in 1..self.all.len() {
            if self.all[i].name == Some(name) {
                found = Some(self.all[i].span);
            }
        }
        found
    }

    /// Records where the region with the next index comes from.
    pub fn add(&mut self, name: Option<Ident>, span: Span, origin: Origin) {
        let name = match name {
            Some(name) => Some(name.name.number),
            None => None,
        };
        let is_added = self.all.push(Home { name, span, origin }).is_ok();
        self.is_whole = is_added && self.is_whole;
    }

    // ---- the signature

    /// Records where a function's regions come from: its own region, and those that its parameters name or omit.
    pub fn add_parameters(&mut self, names: &RegionNames, own: Ident, members: &[Member]) {
        self.add(Some(own), own.span, Origin::Block);
        for member in members {
            self.add_base(names, &member.of_type.base);
            self.add_marks(names, &member.of_type);
        }
    }

    /// Records the regions that a pointer type names before its pointer signs (`*`, `@` or `?`), in its base type.
    fn add_base(&mut self, names: &RegionNames, base: &BaseType) {
        match base {
            BaseType::Int | BaseType::Char => {}
            BaseType::Struct { regions, .. } => {
                for region in regions {
                    self.add_named(names, *region);
                }
            }
            BaseType::Handle { region } => self.add_named(names, *region),
            BaseType::Key { region } => {
                self.add_named(names, *region);
                self.set_key(*region);
            }
        }
    }

    fn add_marks(&mut self, names: &RegionNames, written: &WrittenType) {
        for mark in &written.marks {
            match mark.region {
                Some(region) => self.add_named(names, region),
                None => self.add(None, written.span, Origin::Caller),
            }
        }
    }

    /// Records where the region with the given name comes from, unless the name is predefined or its region is already recorded.
    fn add_named(&mut self, names: &RegionNames, name: Ident) {
        let number = name.name.number;
        let is_fixed = matches!(names.find(number), Some(Region::Heap | Region::Unique));
        if !is_fixed && matches!(self.find_named(number), None) {
            self.add(Some(name), name.span, Origin::Caller);
        }
    }

    /// Records that a parameter is the key of the named region.
    fn set_key(&mut self, name: Ident) {
        for i in 1..self.all.len() {
            if self.all[i].name == Some(name.name.number) {
                self.all[i] = Home {
                    name: Some(name.name.number),
                    span: name.span,
                    origin: Origin::Dynamic,
                };
            }
        }
    }
}
