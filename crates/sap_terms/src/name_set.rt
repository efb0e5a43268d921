//! Sets of names.
ghost use Rattle.std.specs.Prelude.{◌≡◌, ◌||◌, ℕ, List, [], not, length, position, slice_get, Some, IfOk, OnOk, OnErr};
ghost use Rattle.std.specs.List.{IsDistinct, list_any, position_or_len};
ghost use Rattle.std.specs.Str.{bytes_eq};
ghost use Rattle.sap_terms.specs.NameSet.{with_name};

use crate::{Copied, HasName, Mem, Name, Named};
use std::alloc::Global;
use std::marker::Model;

impl HasName for Name {
    ghost name_of = { λ n. n };

    fn name(&self) -> &Name {
        self
    }
}

/// Names, each once, in the order in which they came, which contracts see as the list of them. A call takes time in the
/// logarithm of their number, times the length of what two names have in common.
#[derive(Drop)]
pub struct NameSet {
    names: Named<Name>,
}

impl Model for NameSet {
    ghost use Rattle.std.specs.Prelude.{ℕ, List};

    ghost Value = { List (List ℕ) };

    ghost view = { λ a. a.names };

    ghost use Rattle.std.specs.List.{IsDistinct};
    ghost use Rattle.std.specs.Str.{bytes_eq};

    ghost invariant = { λ a. IsDistinct bytes_eq a.names };
}

impl NameSet {
    /// The empty set. It takes no memory.
    pub fn new(alloc: Global) -> NameSet
        ensures { result ≡ [] }
    {
        NameSet {
            names: Named::new(alloc),
        }
    }

    /// How many names it has.
    pub fn len(&self) -> u64
        ensures { result ≡ length self.now }
    {
        self.names.len()
    }

    /// Whether it has the name.
    pub fn contains(&self, name: &Name) -> bool
        ensures { result ≡ list_any (bytes_eq name.now) self.now }
    {
        self.names.index_of(name).is_some()
    }

    /// How many names came before this one; None where it hasn't come.
    pub fn index_of(&self, name: &Name) -> Option<u64>
        ensures { result ≡ position (bytes_eq name.now) self.now }
    {
        self.names.index_of(name)
    }

    /// The names, in the order in which they came, of which no two are the same.
    pub fn as_slice(&self) -> &[Name]
        ensures names { result.now ≡ self.now }
        ensures once { IsDistinct bytes_eq self.now }
    {
        self.names.as_slice()
    }

    /// Adds a copy of the name, last, unless it is there: its place, and whether it was new. Refused, the set is as it was.
    pub fn insert(&mut self, name: &Name) -> Result<(u64, bool), Mem>
        ensures place { IfOk result (λ r. r.0 ≡ position_or_len (bytes_eq name.now) self.old) }
        ensures new { IfOk result (λ r. r.1 ≡ not (list_any (bytes_eq name.now) self.old)) }
        ensures ok { OnOk result (self.new ≡ with_name self.old name.now) }
        ensures there { IfOk result (λ r. slice_get self.new r.0 ≡ Some name.now) }
        ensures more { OnOk result ((n : List ℕ) → list_any (bytes_eq n) self.new ≡ (bytes_eq name.now n || list_any (bytes_eq n) self.old)) }
        ensures err { OnErr result (self.new ≡ self.old) }
    {
        let last = self.names.len();
        let copy = name.copy(self.names.allocator())?;
        match self.names.push_new(copy)? {
            Some(place) => return Ok((place, false)),
            None => {}
        }
        Ok((last, true))
    }
}
