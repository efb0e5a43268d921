//! A map from terms to terms.
ghost use Rattle.std.specs.Prelude.{◌≡◌, Some, None, OnOk, OnErr, option_map};
ghost use Rattle.std.specs.Option.{option_copied};
ghost use Rattle.sap_terms.specs.View.{tree};
ghost use Rattle.sap_term_map.specs.Values.{value_at, with_at};

use indexmap::IndexMap;
use sap_terms::{Mem, Term};
use std::alloc::Global;

/// A term at each key, where there is one. A look-up takes time in the size of the key on average, however many keys there
/// are.
#[derive(Drop)]
pub struct TermMap {
    terms: IndexMap<Term, Term>,
}

impl TermMap {
    /// The empty map. It takes no memory.
    pub fn new(alloc: Global) -> TermMap
        ensures { value_at result ≡ λ _. None }
    {
        TermMap {
            terms: IndexMap::new(alloc),
        }
    }

    /// The term at the key.
    pub fn get(&self, key: &Term) -> Option<&Term>
        ensures { option_map tree (option_copied result) ≡ value_at self.now (tree key.now) }
    {
        self.terms.get(key)
    }

    /// Puts the term at the key, in place of what was there. Refused, the map has what it had.
    pub fn put(&mut self, key: Term, value: Term) -> Result<(), Mem>
        ensures ok { OnOk result (value_at self.new ≡ with_at (value_at self.old) (tree key) (Some (tree value))) }
        ensures err { OnErr result (value_at self.new ≡ value_at self.old) }
    {
        self.terms.insert(key, value)?;
        Ok(())
    }

    /// Takes the term at the key away.
    pub fn remove(&mut self, key: &Term)
        ensures { value_at self.new ≡ with_at (value_at self.old) (tree key.now) None }
    {
        self.terms.swap_remove(key);
    }
}
