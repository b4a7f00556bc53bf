//! A program under way.

use crate::entry::{Entry, Environment, Phase};
use crate::world::World;
use std::alloc::Global;

/// The state of a program.
#[derive(Drop)]
pub struct Machine<'a> {
    pub(crate) phase: Phase<'a>,
    /// The newest entry is the last.
    pub(crate) stack: Vec<Entry<'a>>,
    pub(crate) environment: Environment,
    pub(crate) world: World,
    pub(crate) alloc: Global,
}
