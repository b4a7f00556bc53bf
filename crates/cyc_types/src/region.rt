//! The regions that occur in types.

/// A region: the heap, the unique region, or a region variable. A region variable is numbered within its function (within its struct, in
/// the type of a field). Region variables share one numbering, whether declared, omitted, or created by the function, a block or a label.
#[derive(Clone, Copy, Debug, PartialEq, Eq, Default)]
pub enum Region {
    /// `` `H ``
    #[default]
    Heap,
    /// `` `U ``
    Unique,
    Variable(usize),
}

impl Region {
    ghost use Rattle.std.specs.Prelude.{◌≡◌};
    ghost use Rattle.cyc_types.specs.Types.{substituted_region};

    /// Replaces a region variable by the region at its number in `map`. A region variable past the end of `map` stays, as do the heap and
    /// the unique region.
    pub fn substituted(self, map: &[Region]) -> Region
        ensures { result ≡ substituted_region map.now self }
    {
        match self {
            Region::Variable(number) => map.get(number).copied().unwrap_or(self),
            Region::Heap | Region::Unique => self,
        }
    }
}
