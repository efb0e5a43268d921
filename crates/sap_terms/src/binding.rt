//! Bindings of variables to terms.
use crate::{Copied, Items, Mem, Term, Var};
use std::alloc::Global;

/// A variable with the term that stands for it.
#[derive(Drop)]
pub struct Binding {
    pub var: Var,
    pub term: Term,
}

impl Copied for Binding {
    fn copy(&self, alloc: Global) -> Result<Binding, Mem> {
        Ok(Binding {
            var: self.var.copy(alloc)?,
            term: self.term.copy(alloc)?,
        })
    }
}

/// A substitution, as a list.
pub type Bindings = Items<Binding>;
