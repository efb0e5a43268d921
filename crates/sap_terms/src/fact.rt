//! Facts, and what a run shows.
use crate::{Copied, Items, Mem, Name, TermList};
use std::alloc::Global;

/// A fact. A persistent one is never used up; a linear one is used up by the first step that takes it.
#[derive(Drop)]
pub struct Fact {
    pub name: Name,
    pub persistent: bool,
    pub args: TermList,
}

impl Copied for Fact {
    fn copy(&self, alloc: Global) -> Result<Fact, Mem> {
        Ok(Fact {
            name: self.name.copy(alloc)?,
            persistent: self.persistent,
            args: self.args.copy(alloc)?,
        })
    }
}

/// Facts, in order.
pub type FactList = Items<Fact>;

/// What a run shows: a list of facts for each time.
pub type Trace = Items<FactList>;
