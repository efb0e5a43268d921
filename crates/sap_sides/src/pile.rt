// Facts by their numbers, whose arguments are numbers of shared terms.
ghost use Rattle.std.specs.Prelude.{◌≡◌, ◌-◌, ◌≤◌, ◌++◌, ◌∷◌, [], ℕ, List, length, map, IfOk, OnOk, OnErr, MatchOption, Some, vec_capacity, vec_len};
ghost use Rattle.std.specs.Option.{option_copied};
ghost use Rattle.sap_facts.specs.Cited.{cited_at, left_of, AreTaken};
ghost use Rattle.sap_facts.specs.Missing.{IsFirstMissing};
ghost use Rattle.sap_sides.specs.SharedFacts.{fact_seen, slots_seen, AreFactsBelow, AreSlotsBelow};
ghost use Rattle.sap_sides.specs.code.Slots.{held_at, held_each, cleared, cleared_each};
ghost use Rattle.sap_terms.specs.Piles.{adds};
ghost use Rattle.sap_terms.specs.Tree.{Tree};

use crate::SharedFact;
use sap_facts::{HasFacts, first_missing};
use sap_share::Table;
use sap_terms::{Copied, Mem, Numbers};
use std::alloc::Global;
use std::marker::Model;

/// Facts that were put on one after another and have numbers from 0, in order. A number is never given again. A linear fact
/// stays until it is taken, a persistent one for good. Contracts see the slots.
#[derive(Drop)]
pub struct SharedPile {
    slots: Vec<Option<SharedFact>>,
}

impl Model for SharedPile {
    ghost use Rattle.std.specs.Prelude.{List, Option};
    ghost use Rattle.std.specs.Coded.{codes};
    ghost use Rattle.sap_sides.specs.declared.shared_fact.SharedFact.{SharedFact as Held};

    ghost Value = { List (Option Held) };

    ghost coded = { Prim.hlevel codes };

    ghost view = { λ a. a.slots.items };
}

// A pile, and the table of its numbers.
#[derive(Drop)]
struct Seen<'a> {
    table: &'a Table,
    pile: &'a SharedPile,
}

impl<'a> HasFacts for Seen<'a> {
    ghost facts_of = { λ s. slots_seen s.table.now.trees s.pile.now };

    fn persistence(&self, k: u64) -> Option<bool> {
        match self.pile.get(k) {
            Some(f) => Some(f.persistent),
            None => None,
        }
    }
}

// Empties the slot of a linear fact.
fn clear(slots: &mut Vec<Option<SharedFact>>, k: u64)
    ensures items { slots.new.items ≡ cleared slots.old.items k }
    ensures spare { vec_capacity slots.new - vec_len slots.new ≡ vec_capacity slots.old - vec_len slots.old }
{
    let linear = match slots.get(k as usize) {
        Some(Some(f)) => !f.persistent,
        Some(None) => false,
        None => false,
    };
    if linear {
        drop(slots[k as usize].take());
    }
}

// Empties those of these numbers, one after another.
fn clear_each(slots: &mut Vec<Option<SharedFact>>, numbers: &Numbers)
    ensures items { slots.new.items ≡ cleared_each slots.old.items numbers.now }
    ensures spare { vec_capacity slots.new - vec_len slots.new ≡ vec_capacity slots.old - vec_len slots.old }
{
    for k in numbers.as_slice() {
        clear(slots, *k);
    }
}

// Adds facts for which memory was found.
fn add_each(slots: &mut Vec<Option<SharedFact>>, added: Vec<SharedFact>)
    requires { length added.items ≤ vec_capacity slots.old - vec_len slots.old }
    ensures { slots.new.items ≡ slots.old.items ++ map (λ f. Some f) added.items }
{
    for f in added {
        match slots.push(Some(f)) {
            Ok(_) => {}
            Err(_) => unreachable!(),
        }
    }
}

impl SharedPile {
    /// The pile without facts. It takes no memory.
    pub fn new(alloc: Global) -> SharedPile
        ensures { result ≡ [] }
    {
        SharedPile {
            slots: Vec::new(alloc),
        }
    }

    // The fact of this number; None where no fact has it, or it was taken.
    fn get(&self, k: u64) -> Option<&SharedFact>
        ensures { option_copied result ≡ held_at self.now k }
    {
        match self.slots.get(k as usize) {
            Some(slot) => slot.as_ref(),
            None => None,
        }
    }

    // Puts a copy of the fact of this number last, if it stands.
    fn push_held(&self, alloc: Global, k: u64, out: &mut Vec<SharedFact>) -> Result<(), Mem>
        ensures { OnOk result (out.new.items ≡ out.old.items ++ held_each self.now (k ∷ [])) }
    {
        match self.get(k) {
            Some(f) => match f.copy(alloc) {
                Ok(copy) => Ok(out.push(copy)?),
                Err(e) => Err(e),
            },
            None => Ok(()),
        }
    }

    // Copies of the facts with these numbers that stand.
    fn held(&self, alloc: Global, numbers: &Numbers) -> Result<Vec<SharedFact>, Mem>
        ensures { IfOk result (λ v. v.items ≡ held_each self.now numbers.now) }
    {
        let mut out = Vec::new(alloc);
        for i in 0..numbers.len() {
            self.push_held(alloc, *numbers.at(i), &mut out)?;
        }
        Ok(out)
    }

    /// Copies of the facts with these numbers that stand, in order, in time and memory of their arguments' count.
    pub fn cited(&self, alloc: Global, numbers: &Numbers) -> Result<Vec<SharedFact>, Mem>
        ensures facts { IfOk result (λ v. (ts : List Tree) → map (fact_seen ts) v.items ≡ cited_at (slots_seen ts self.now) numbers.now) }
        ensures below { IfOk result (λ v. (n : ℕ) → AreSlotsBelow n self.now → AreFactsBelow n v.items) }
    {
        let facts = self.held(alloc, numbers)?;
        Ok(facts)
    }

    /// The index, from 1, of the first number of which no fact is left once those before it were taken; None where all can be
    /// taken in this order.
    pub fn first_missing(
        &self,
        alloc: Global,
        table: &Table,
        numbers: &Numbers,
    ) -> Result<Option<u64>, Mem>
        ensures { IfOk result (λ r. MatchOption r (AreTaken (slots_seen table.now.trees self.now) numbers.now) (IsFirstMissing (slots_seen table.now.trees self.now) numbers.now)) }
    {
        first_missing(alloc, &Seen { table, pile: self }, numbers)
    }

    /// Takes the facts with these numbers, one after another, and then adds others. Refused, nothing changes.
    pub fn exchange(&mut self, numbers: &Numbers, added: Vec<SharedFact>) -> Result<(), Mem>
        ensures ok { OnOk result ((ts : List Tree) → slots_seen ts self.new ≡ adds (left_of (slots_seen ts self.old) numbers.now) (map (fact_seen ts) added.items)) }
        ensures below { OnOk result ((n : ℕ) → AreSlotsBelow n self.old → AreFactsBelow n added.items → AreSlotsBelow n self.new) }
        ensures err { OnErr result (self.new ≡ self.old) }
    {
        self.slots.reserve(added.len())?;
        clear_each(&mut self.slots, numbers);
        add_each(&mut self.slots, added);
        Ok(())
    }
}
