//! Lists whose items are found by their names.
ghost use Rattle.std.specs.Prelude.{◌≡◌, ℕ, ◌<◌, ◌-◌, ◌↔◌, List, [], ◌∷◌, ◌++◌, length, take, Some, IsTrue, IfOk, OnOk, OnErr, is_some, if◌then◌else◌, slice_get};
ghost use Rattle.std.specs.Option.{option_copied, unwrap_or};
ghost use Rattle.sap_terms.specs.Named.{first_named};
ghost use Rattle.sap_terms.specs.NameMap.{value_at};
ghost use Rattle.sap_terms.specs.code.Places.{index_of};

use crate::{Copied, Items, Mem, Name, NameMap};
use std::alloc::Global;
use std::marker::Model;

/// What has a name.
pub trait HasName: Sized {
    ghost name_of: { Self → List ℕ };

    /// Its name.
    fn name(&self) -> &Name
        ensures { result.now ≡ name_of self.now };
}

/// A list, which contracts see as the list of its items. The first item of a name is found without a pass over them: a
/// look-up takes time in the logarithm of their number, times the length of what two names have in common.
#[derive(Drop)]
pub struct Named<T: HasName> {
    items: Items<T>,
    places: NameMap<u64>,
}

impl<T: HasName> Model for Named<T> {
    ghost use Rattle.std.specs.Prelude.{◌≡◌, ℕ, List};
    ghost use Rattle.sap_terms.specs.NameMap.{value_at};
    ghost use Rattle.sap_terms.specs.code.Places.{index_of};

    ghost Value = { List T };

    ghost view = { λ a. a.items };

    ghost invariant = { λ a. (n : List ℕ) → value_at a.places n ≡ index_of T.name_of a.items n };
}

impl<T: HasName> Named<T> {
    /// The empty list. It takes no memory.
    pub fn new(alloc: Global) -> Named<T>
        ensures { result ≡ [] }
    {
        Named {
            items: Items::new(alloc),
            places: NameMap::new(alloc),
        }
    }

    /// The number of items.
    pub fn len(&self) -> u64
        ensures { result ≡ length self.now }
    {
        self.items.len()
    }

    /// The item at index k, from 0.
    pub fn get(&self, k: u64) -> Option<&T>
        ensures { option_copied result ≡ slice_get self.now k }
    {
        self.items.get(k)
    }

    // The item at an index that the list has, from 0.
    pub(crate) fn at(&self, k: u64) -> &T
        requires { k < length self.now }
        ensures { slice_get self.now k ≡ Some result.now }
    {
        self.items.at(k)
    }

    /// The first item of this name.
    pub fn named(&self, name: &Name) -> Option<&T>
        ensures { option_copied result ≡ first_named T.name_of self.now name.now }
    {
        let place = self.places.get(name)?;
        self.items.get(*place)
    }

    // The index of the first item of this name, from 0.
    pub(crate) fn index_of(&self, name: &Name) -> Option<u64>
        ensures { result ≡ index_of T.name_of self.now name.now }
    {
        self.places.get(name).copied()
    }

    /// The items side by side.
    pub fn as_slice(&self) -> &[T]
        ensures { result.now ≡ self.now }
    {
        self.items.as_slice()
    }

    /// Where the list's memory comes from.
    pub fn allocator(&self) -> Global {
        self.items.allocator()
    }
}

// Whether the name has this place.
fn is_placed(places: &NameMap<u64>, name: &Name, place: u64) -> bool
    ensures { IsTrue result ↔ (value_at places.now name.now ≡ Some place) }
{
    match places.get(name) {
        Some(first) => *first == place,
        None => false,
    }
}

impl<T: HasName + Drop> Named<T> {
    /// Puts the item last. Refused, the item is dropped, and the list is as it was.
    pub fn push(&mut self, item: T) -> Result<(), Mem>
        ensures ok { OnOk result (self.new ≡ self.old ++ item ∷ []) }
        ensures err { OnErr result (self.new ≡ self.old) }
    {
        self.push_found(item)?;
        Ok(())
    }

    // Puts the item last: the index of the first item of its name. Refused, the item is dropped, and the list is as it was.
    fn push_found(&mut self, item: T) -> Result<u64, Mem>
        ensures first { IfOk result (λ k. k
            ≡ unwrap_or (index_of T.name_of self.old (T.name_of item)) (length self.old)) }
        ensures ok { OnOk result (self.new ≡ self.old ++ item ∷ []) }
        ensures err { OnErr result (self.new ≡ self.old) }
    {
        let name = match item.name().copy(self.items.allocator()) {
            Ok(name) => name,
            Err(e) => {
                drop(item);
                return Err(e);
            }
        };
        let last = self.items.len();
        match self.items.push(item) {
            Ok(()) => {}
            Err(e) => {
                drop(name);
                return Err(e);
            }
        }
        match self.places.keep(name, last) {
            Ok(first) => Ok(first),
            Err(e) => {
                self.items.cut(last);
                Err(e)
            }
        }
    }

    // Puts the item last unless one has its name: the index of the first that has it, None where the item was put. Refused, the
    // item is dropped, and the list is as it was.
    pub(crate) fn push_new(&mut self, item: T) -> Result<Option<u64>, Mem>
        ensures first { IfOk result (λ o. o ≡ index_of T.name_of self.old (T.name_of item)) }
        ensures ok { IfOk result (λ o. self.new
            ≡ (if is_some o then self.old else self.old ++ item ∷ [])) }
        ensures err { OnErr result (self.new ≡ self.old) }
    {
        let last = self.items.len();
        let first = self.push_found(item)?;
        if first == last {
            return Ok(None);
        }
        self.items.cut(last);
        Ok(Some(first))
    }

    /// Leaves the first `len` items. It takes time in the number of the others.
    pub fn cut(&mut self, len: u64)
        ensures { self.new ≡ take len self.old }
    {
        while self.items.len() > len {
            self.pop();
        }
    }

    // Drops the last item, if there is one.
    fn pop(&mut self)
        ensures { self.new ≡ take (length self.old - 1) self.old }
    {
        if let Some(item) = self.items.pop() {
            let place = self.items.len();
            if is_placed(&self.places, item.name(), place) {
                self.places.remove(item.name());
            }
        }
    }
}

impl<T: HasName + Copied + Drop> Named<T> {
    // Puts copies of the items last.
    fn push_copies(&mut self, alloc: Global, items: &[T]) -> Result<(), Mem>
        ensures { OnOk result (self.new ≡ self.old ++ items.now) }
    {
        for x in items {
            match x.copy(alloc) {
                Ok(item) => self.push(item)?,
                Err(e) => return Err(e),
            }
        }
        Ok(())
    }
}

impl<T: HasName + Copied + Drop> Copied for Named<T> {
    fn copy(&self, alloc: Global) -> Result<Named<T>, Mem> {
        let mut copied = Named::new(alloc);
        copied.push_copies(alloc, self.items.as_slice())?;
        Ok(copied)
    }
}
