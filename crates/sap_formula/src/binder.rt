//! What a quantifier binds.
use sap_terms::{Copied, HasName, Items, Mem, Name, Var};
use std::alloc::Global;

/// A variable that a quantifier binds.
#[derive(Drop)]
pub enum Binder {
    /// It ranges over messages.
    Message(Var),
    /// It ranges over the times of the trace; written `#i`.
    Time(Name),
}

/// The variables of a quantifier, in order.
pub type Binders = Items<Binder>;

impl HasName for Binder {
    ghost use Rattle.sap_formula.specs.Checked.{binder_name};

    ghost name_of = { binder_name };

    fn name(&self) -> &Name {
        match self {
            Binder::Message(v) => &v.name,
            Binder::Time(n) => n,
        }
    }
}

impl Copied for Binder {
    fn copy(&self, alloc: Global) -> Result<Binder, Mem> {
        match self {
            Binder::Message(var) => Ok(Binder::Message(var.copy(alloc)?)),
            Binder::Time(name) => Ok(Binder::Time(name.copy(alloc)?)),
        }
    }
}
