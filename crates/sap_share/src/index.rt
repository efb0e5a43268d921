// The numbers of what is bound first, by name.
ghost use Rattle.std.specs.Prelude.{◌≡◌, ◌++◌, ◌∷◌, [], length, OnOk, OnErr, List};
ghost use Rattle.sap_share.specs.code.Found.{number_of_name, Tells, IsIndexOf};
ghost use Rattle.sap_share.specs.declared.env.Bound.{Bound as BoundOf};

use crate::env::Bound;
use sap_terms::{Copied, Mem, Name, NameMap};
use std::alloc::Global;

/// The numbers of the first so many that are bound, by name.
#[derive(Drop)]
pub(crate) struct Index {
    pub numbers: NameMap<u64>,
    pub count: u64,
}

impl Index {
    // The index of none. It takes no memory.
    pub(crate) fn new(alloc: Global) -> Index
        ensures { (es : List BoundOf) → IsIndexOf result es }
    {
        Index {
            numbers: NameMap::new(alloc),
            count: 0,
        }
    }

    // The number of the first that is bound to the name, in time in proportion to the logarithm of how many are indexed, and
    // to how many aren't.
    pub(crate) fn number_of(&self, bound: &[Bound], name: &Name) -> Option<u64>
        requires { IsIndexOf self.now bound.now }
        ensures { result ≡ number_of_name bound.now name.now }
    {
        match self.numbers.get(name) {
            Some(id) => Some(*id),
            None => first_number(&bound[self.count as usize..], name),
        }
    }

    // Indexes all that is bound.
    pub(crate) fn extend(&mut self, alloc: Global, bound: &[Bound]) -> Result<(), Mem>
        requires { IsIndexOf self.old bound.now }
        ensures { IsIndexOf self.new bound.now }
    {
        while (self.count as usize) < bound.len() {
            add(alloc, &mut self.numbers, &bound[self.count as usize])?;
            self.count += 1;
        }
        Ok(())
    }
}

// The number of the first that is bound to the name, by looking at each.
fn first_number(bound: &[Bound], name: &Name) -> Option<u64>
    ensures { result ≡ number_of_name bound.now name.now }
{
    for e in bound {
        if e.var.name.same(name) {
            return Some(e.id);
        }
    }
    None
}

// Adds the name, where it isn't there.
fn add(alloc: Global, numbers: &mut NameMap<u64>, e: &Bound) -> Result<(), Mem>
    ensures ok { OnOk result ((es : List BoundOf) → Tells numbers.old es → Tells numbers.new (es ++ e.now ∷ [])) }
    ensures err { (es : List BoundOf) → OnErr result (Tells numbers.old es → Tells numbers.new es) }
{
    if numbers.contains_key(&e.var.name) {
        return Ok(());
    }
    let name = e.var.name.copy(alloc)?;
    numbers.insert(name, e.id)?;
    Ok(())
}
