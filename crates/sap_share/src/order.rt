// Names in the order in which they are expected to be bound.
ghost use Rattle.std.specs.Prelude.{◌≡◌, IsTrue, IfOk, Some, length, position, slice_get};
ghost use Rattle.std.specs.Str.{bytes_eq};

use sap_terms::{Copied, Mem, Name, NameSet};
use std::alloc::Global;
use std::cell::Cell;
use std::marker::Model;
use std::rc::Rc;

/// Names, each once, in the order in which variables are expected to be bound, which contracts see as the list of them.
/// Copies share the names, so a copy takes no memory.
#[derive(Drop)]
pub struct Order {
    names: Rc<NameSet>,
}

impl Model for Order {
    ghost use Rattle.std.specs.Prelude.{ℕ, List};

    ghost Value = { List (List ℕ) };

    ghost view = { λ a. a.names.value };
}

impl Copied for Order {
    fn copy(&self, _alloc: Global) -> Result<Order, Mem> {
        let names = self.names.clone()?;
        Ok(Order { names })
    }
}

impl Order {
    /// The order in which the names of a set came.
    pub fn of(alloc: Global, names: NameSet) -> Result<Order, Mem>
        ensures { IfOk result (λ o. o ≡ names) }
    {
        let names = Rc::new(alloc, names)?;
        Ok(Order { names })
    }

    /// How many names there are.
    pub fn len(&self) -> u64
        ensures { result ≡ length self.now }
    {
        self.names.len()
    }

    /// Whether the name stands at the index, from 0.
    pub(crate) fn has_at(&self, k: u64, name: &Name) -> bool
        ensures { IsTrue result → slice_get self.now k ≡ Some name.now }
    {
        match self.names.as_slice().get(k as usize) {
            Some(n) => n.same(name),
            None => false,
        }
    }

    // Whether the name stands at the index, and so nowhere else.
    fn is_first_at(&self, k: u64, name: &Name) -> bool
        ensures { IsTrue result → position (bytes_eq name.now) self.now ≡ Some k }
    {
        let _once = self.names.as_slice();
        self.has_at(k, name)
    }

    /// The index of the name, from 0; None where it isn't among these. The index that the cell holds is tried first, by
    /// one comparison, and the cell holds the one behind that of the name then. Where another name stands there, it takes
    /// time in the logarithm of how many there are.
    pub(crate) fn index_of(&self, next: &Cell<u64>, name: &Name) -> Option<u64>
        ensures { result ≡ position (bytes_eq name.now) self.now }
    {
        let expected = next.get();
        if self.is_first_at(expected, name) {
            next.set(expected.saturating_add(1));
            return Some(expected);
        }
        let found = self.names.index_of(name)?;
        next.set(found.saturating_add(1));
        Some(found)
    }
}
