//! Piles: facts with numbers, that come and go.
ghost use Rattle.std.specs.Prelude.{◌≡◌, ◌+◌, ◌<◌, ◌≤◌, [], ◌∷◌, ◌++◌, length, IsOk, IfOk, OnOk, OnErr, Some};
ghost use Rattle.std.specs.Option.{option_copied};
ghost use Rattle.sap_facts.specs.Facts.{fact_at, if_linear, slots_without};

use sap_terms::{Fact, Mem};
use std::alloc::Global;
use std::marker::Model;

/// Facts that were put on one after another and have numbers from 0, in order. A number is never given again.
/// A linear fact stays until it is taken, a persistent one for good.
#[derive(Drop)]
pub struct Pile {
    slots: Vec<Option<Fact>>,
}

impl Model for Pile {
    ghost use Rattle.std.specs.Prelude.{◌-◌, vec_len, vec_capacity};
    ghost use Rattle.sap_facts.specs.Facts.{Facts, facts_code};

    ghost Value = { Facts };

    ghost coded = { facts_code };

    ghost view = { λ a. record {
      slots = a.slots.items;
      spare = vec_capacity a.slots - vec_len a.slots;
    } };
}

impl Pile {
    /// The pile without facts. It takes no memory.
    pub fn new(alloc: Global) -> Pile
        ensures slots { result.slots ≡ [] }
        ensures spare { result.spare ≡ 0 }
    {
        Pile {
            slots: Vec::new(alloc),
        }
    }

    /// Puts a fact on, and gives its number. A refused fact is dropped.
    pub fn add(&mut self, f: Fact) -> Result<u64, Mem>
        ensures number { IfOk result (λ k. k ≡ length self.old.slots) }
        ensures ok { OnOk result (self.new.slots ≡ self.old.slots ++ Some f ∷ []) }
        ensures err { OnErr result (self.new.slots ≡ self.old.slots) }

        // A fact for which memory was found before is not refused, and uses up memory for one fact at most.
        ensures succeeds { 0 < self.old.spare → IsOk result }
        ensures spare { self.old.spare ≤ self.new.spare + 1 }
    {
        let number = self.count();
        self.slots.push(Some(f))?;
        Ok(number)
    }

    /// Finds memory for n more facts.
    pub fn reserve(&mut self, n: u64) -> Result<(), Mem>
        ensures slots { self.new.slots ≡ self.old.slots }
        ensures ok { OnOk result (n ≤ self.new.spare) }
        ensures spare { self.old.spare ≤ self.new.spare }
        ensures succeeds { n ≤ self.old.spare → IsOk result }
    {
        self.slots.reserve(n as usize)?;
        Ok(())
    }

    /// The fact of this number; None where no fact has it, or it was taken.
    pub fn get(&self, k: u64) -> Option<&Fact>
        ensures { option_copied result ≡ fact_at self.now.slots k }
    {
        match self.slots.get(k as usize) {
            Some(slot) => slot.as_ref(),
            None => None,
        }
    }

    /// Takes the linear fact of this number; None where `get` gives None, and where the fact is persistent, which stays.
    pub fn take(&mut self, k: u64) -> Option<Fact>
        ensures fact { result ≡ if_linear (fact_at self.old.slots k) }
        ensures slots { self.new.slots ≡ slots_without self.old.slots k }
        ensures spare { self.new.spare ≡ self.old.spare }
    {
        let persistent = match self.get(k) {
            Some(f) => f.persistent,
            None => true,
        };
        if persistent {
            return None;
        }
        self.slots[k as usize].take()
    }

    /// The number that the next fact gets.
    pub fn count(&self) -> u64
        ensures { result ≡ length self.now.slots }
    {
        self.slots.len() as u64
    }
}
