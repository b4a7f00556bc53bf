//! Scopes of regions.
ghost use Rattle.std.specs.Prelude.{◌≡◌};
ghost use Rattle.cyc_types.specs.Outlives.{is_outlived_by_live};

use crate::Region;

/// The kind of construct that opens a region for the rest of a block.
#[derive(Clone, Copy, Debug, PartialEq, Eq)]
pub enum Kind {
    /// A block; its region contains the block's variables.
    Block,
    /// A `region` declaration that creates the lexical region that it opens.
    Lexical,
    /// A `region` declaration that opens a dynamic region by its key.
    Dynamic,
    /// A `let alias` declaration, which opens the alias region.
    Alias,
}

/// An open scope.
#[derive(Clone, Copy, Debug, PartialEq, Eq)]
pub struct Scope {
    pub region: Region,
    pub kind: Kind,
}

/// Returns true if the regions that are live when a scope of this kind opens outlive the scope's region.
pub(crate) fn is_outlived_by_live(kind: Kind) -> bool
    ensures { result ≡ is_outlived_by_live kind }
{
    match kind {
        Kind::Block | Kind::Lexical => true,
        Kind::Dynamic | Kind::Alias => false,
    }
}
