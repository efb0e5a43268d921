//! Maps from names.
ghost use Rattle.std.specs.Prelude.{◌≡◌, ◌∷◌, ◌++◌, [], None, Some, IfOk, OnOk, OnErr, is_some};
ghost use Rattle.std.specs.Option.{option_copied, unwrap_or};
ghost use Rattle.sap_terms.specs.NameMap.{Puts, items_at, value_at};

use crate::{Copied, Items, Mem, Name};
use std::alloc::Global;
use std::collections::BTreeMap;
use std::marker::Model;

/// A value for each of some names, which contracts see as these pairs. The names are held in an order, which contracts don't
/// speak of, so a call takes time in the logarithm of their number, times the length of what two names have in common at
/// most, whatever names they are.
#[derive(Drop)]
pub struct NameMap<T> {
    pairs: BTreeMap<Name, T>,
}

impl<T> Model for NameMap<T> {
    ghost use Rattle.std.specs.Prelude.{ℕ, List};

    ghost Value = { List (List ℕ × T) };

    ghost view = { λ a. a.pairs.entries };
}

impl<T> NameMap<T> {
    /// The map of no names. It takes no memory.
    pub fn new(alloc: Global) -> NameMap<T>
        ensures { result ≡ [] }
    {
        NameMap {
            pairs: BTreeMap::new(alloc),
        }
    }

    /// The value of the name; None where it has none.
    #[tactic(auto, using(crate::proofs::PlainLaws::Maps::map_laws))]
    pub fn get(&self, name: &Name) -> Option<&T>
        ensures { option_copied result ≡ value_at self.now name.now }
    {
        self.pairs.get(name)
    }

    /// Whether the name has a value.
    #[tactic(auto, using(crate::proofs::PlainLaws::Maps::map_laws))]
    pub fn contains_key(&self, name: &Name) -> bool
        ensures { result ≡ is_some (value_at self.now name.now) }
    {
        self.pairs.contains_key(name)
    }
}

impl<T: Drop> NameMap<T> {
    /// Gives the name this value, in place of one that it has. Refused, the map is as it was.
    #[tactic(auto, using(crate::proofs::PlainLaws::Maps::map_laws))]
    pub fn insert(&mut self, name: Name, value: T) -> Result<(), Mem>
        ensures ok { OnOk result (Puts self.old self.new name (Some value)) }
        ensures err { OnErr result (self.new ≡ self.old) }
    {
        self.pairs.insert(name, value)?;
        Ok(())
    }

    /// Takes the name's value out, if it has one.
    #[tactic(auto, using(crate::proofs::PlainLaws::Maps::map_laws))]
    pub fn remove(&mut self, name: &Name)
        ensures { Puts self.old self.new name.now None }
    {
        self.pairs.remove(name);
    }
}

impl NameMap<u64> {
    // Gives the name this number unless it has one: the number that it has then. One search does both. Refused, the map is as
    // it was.
    #[tactic(auto, using(crate::proofs::PlainLaws::Maps::map_laws))]
    pub(crate) fn keep(&mut self, name: Name, number: u64) -> Result<u64, Mem>
        ensures number { IfOk result (λ k. k ≡ unwrap_or (value_at self.old name) number) }
        ensures ok { IfOk result (λ k. Puts self.old self.new name (Some k)) }
        ensures err { OnErr result (self.new ≡ self.old) }
    {
        let kept = self.pairs.entry(name)?.or_insert(number);
        Ok(*kept)
    }
}

// Gives the name a list of this item alone.
#[tactic(auto, using(crate::proofs::PlainLaws::Maps::map_laws))]
fn start<T: Drop>(
    alloc: Global,
    pairs: &mut BTreeMap<Name, Items<T>>,
    name: &Name,
    item: T,
) -> Result<(), Mem>
    ensures ok { OnOk result (Puts pairs.old.entries pairs.new.entries name.now (Some (item ∷ []))) }
    ensures err { OnErr result (pairs.new.entries ≡ pairs.old.entries) }
{
    match name.copy(alloc) {
        Ok(copy) => {
            let mut items = Items::new(alloc);
            match items.push(item) {
                Ok(()) => {
                    pairs.insert(copy, items)?;
                    Ok(())
                }
                Err(e) => {
                    drop(copy);
                    Err(e)
                }
            }
        }
        Err(e) => {
            drop(item);
            Err(e)
        }
    }
}

// Puts the item last in the name's list.
fn put_last<T: Drop>(
    alloc: Global,
    pairs: &mut BTreeMap<Name, Items<T>>,
    name: &Name,
    item: T,
) -> Result<(), Mem>
    ensures ok { OnOk result (Puts pairs.old.entries pairs.new.entries name.now (Some (items_at pairs.old.entries name.now ++ item ∷ []))) }
    ensures err { OnErr result (pairs.new.entries ≡ pairs.old.entries) }
{
    match pairs.get_mut(name) {
        Some(items) => items.push(item),
        None => start(alloc, pairs, name, item),
    }
}

impl<T: Drop> NameMap<Items<T>> {
    /// Puts the item last in the name's list, which is made where it has none. Refused, the item is dropped, and the map is
    /// as it was.
    pub fn push(&mut self, alloc: Global, name: &Name, item: T) -> Result<(), Mem>
        ensures ok { OnOk result (Puts self.old self.new name.now (Some (items_at self.old name.now ++ item ∷ []))) }
        ensures err { OnErr result (self.new ≡ self.old) }
    {
        put_last(alloc, &mut self.pairs, name, item)
    }
}
