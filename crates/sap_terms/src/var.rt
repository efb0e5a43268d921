//! Variables and their sorts.
ghost use Rattle.std.specs.Prelude.{◌≡◌, ◌↔◌, IsTrue};

use crate::{Copied, HasName, Items, Mem, Name};
use std::alloc::Global;

/// What may stand for a variable: any message, a fresh name, or a public name.
#[derive(Clone, Copy, PartialEq, Eq)]
pub enum Sort {
    Msg,
    Fresh,
    Pub,
}

/// A variable: `x`, `~x` or `$x`.
#[derive(Drop)]
pub struct Var {
    pub name: Name,
    pub sort: Sort,
}

impl Sort {
    fn is(self, other: Sort) -> bool
        ensures { IsTrue result ↔ (self ≡ other) }
    {
        self == other
    }
}

impl Var {
    /// Whether the two have the same name and sort.
    pub fn same(&self, other: &Var) -> bool
        ensures { IsTrue result ↔ (self.now ≡ other.now) }
    {
        self.name.same(&other.name) && self.sort.is(other.sort)
    }
}

impl HasName for Var {
    ghost name_of = { λ v. v.name };

    fn name(&self) -> &Name {
        &self.name
    }
}

impl Copied for Var {
    fn copy(&self, alloc: Global) -> Result<Var, Mem> {
        Ok(Var {
            name: self.name.copy(alloc)?,
            sort: self.sort,
        })
    }
}

/// Variables, in order.
pub type Vars = Items<Var>;
