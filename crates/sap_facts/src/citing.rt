// Facts that are cited by their numbers, each taken before the next is looked for.
ghost use Rattle.std.specs.Prelude.{◌≡◌, ◌<◌, ◌≤◌, ◌+◌, ◌∷◌, ◌++◌, [], ℕ, true, false, nat_eq, Some, None, length, IfOk, OnOk, OnErr, MatchOption, option_map};
ghost use Rattle.indexmap.specs.IndexSet.{contains};
ghost use Rattle.sap_terms.specs.Piles.{adds, Pile as Slots};
ghost use Rattle.sap_facts.specs.Cited.{left_of, AreTaken};
ghost use Rattle.sap_facts.specs.Facts.{fact_at};
ghost use Rattle.sap_facts.specs.Missing.{IsFirstMissing};
ghost use Rattle.sap_facts.specs.code.Left.{unless, IsCited};

use crate::Pile;
use indexmap::IndexSet;
use sap_terms::{Fact, FactList, Mem, Numbers};
use std::alloc::Global;

/// What has facts by their numbers.
pub trait HasFacts: Sized {
    ghost facts_of: { Self → Slots };

    /// Whether the fact of this number is persistent; None where no fact has the number, or it was taken.
    fn persistence(&self, k: u64) -> Option<bool>
        ensures { result ≡ option_map (λ f. f.persistent) (fact_at (facts_of self.now) k) };
}

// Whether the fact of this number is left, where those in the set were used up. It is used up now, if it is linear.
fn cite<F: HasFacts>(facts: &F, gone: &mut IndexSet<u64>, k: u64) -> Result<bool, Mem>
    ensures cited { IfOk result (λ b. b ≡ true → IsCited (F.facts_of facts.now) (contains nat_eq gone.old) (contains nat_eq gone.new) k) }
    ensures gone { IfOk result (λ b. b ≡ false → unless (contains nat_eq gone.old k) (fact_at (F.facts_of facts.now) k) ≡ None) }
{
    if gone.contains(&k) {
        return Ok(false);
    }
    let Some(persistent) = facts.persistence(k) else {
        return Ok(false);
    };
    if !persistent {
        gone.insert(k)?;
    }
    Ok(true)
}

// The first that is missing, where those in the set, which holds none at first, were used up.
fn first_missing_of<F: HasFacts>(
    facts: &F,
    numbers: &Numbers,
    gone: &mut IndexSet<u64>,
) -> Result<Option<u64>, Mem>
    requires { (j : ℕ) → contains nat_eq gone.old j ≡ false }
    ensures { IfOk result (λ r. MatchOption r (AreTaken (F.facts_of facts.now) numbers.now) (IsFirstMissing (F.facts_of facts.now) numbers.now)) }
{
    for (at, k) in numbers.as_slice().iter().enumerate() {
        if !cite(facts, gone, *k)? {
            return Ok(Some(at as u64 + 1));
        }
    }
    Ok(None)
}

/// The index, from 1, of the first number of which no fact is left once those before it were taken; None where all can be
/// taken in this order.
pub fn first_missing<F: HasFacts>(
    alloc: Global,
    facts: &F,
    numbers: &Numbers,
) -> Result<Option<u64>, Mem>
    ensures { IfOk result (λ r. MatchOption r (AreTaken (F.facts_of facts.now) numbers.now) (IsFirstMissing (F.facts_of facts.now) numbers.now)) }
{
    let mut gone = IndexSet::new(alloc);
    first_missing_of(facts, numbers, &mut gone)
}

// Takes the facts with these numbers, one after another.
fn take_each(facts: &mut Pile, numbers: &Numbers)
    ensures slots { facts.new.slots ≡ left_of facts.old.slots numbers.now }
    ensures spare { facts.new.spare ≡ facts.old.spare }
{
    for k in numbers.as_slice() {
        facts.take(*k);
    }
}

// Adds a fact for which memory was found.
fn add_one(facts: &mut Pile, f: Fact)
    requires { 0 < facts.old.spare }
    ensures slots { facts.new.slots ≡ facts.old.slots ++ Some f ∷ [] }
    ensures spare { facts.old.spare ≤ facts.new.spare + 1 }
{
    match facts.add(f) {
        Ok(_) => {}
        Err(_) => unreachable!(),
    }
}

// Adds facts for which memory was found.
fn add_each(facts: &mut Pile, added: FactList)
    requires { length added ≤ facts.old.spare }
    ensures { facts.new.slots ≡ adds facts.old.slots added }
{
    for f in added.into_vec() {
        add_one(facts, f);
    }
}

impl HasFacts for Pile {
    ghost facts_of = { λ p. p.slots };

    fn persistence(&self, k: u64) -> Option<bool> {
        match self.get(k) {
            Some(f) => Some(f.persistent),
            None => None,
        }
    }
}

impl Pile {
    /// The index, from 1, of the first number of which no fact is left once those before it were taken; None where all can be
    /// taken in this order.
    pub fn first_missing(&self, alloc: Global, numbers: &Numbers) -> Result<Option<u64>, Mem>
        ensures { IfOk result (λ r. MatchOption r (AreTaken self.now.slots numbers.now) (IsFirstMissing self.now.slots numbers.now)) }
    {
        first_missing(alloc, self, numbers)
    }

    /// Takes the facts with these numbers, one after another, and then adds others. Refused, nothing changes.
    pub fn exchange(&mut self, numbers: &Numbers, added: FactList) -> Result<(), Mem>
        ensures ok { OnOk result (self.new.slots ≡ adds (left_of self.old.slots numbers.now) added) }
        ensures err { OnErr result (self.new.slots ≡ self.old.slots) }
    {
        match self.reserve(added.len()) {
            Err(_) => Err(Mem),
            Ok(()) => {
                take_each(self, numbers);
                add_each(self, added);
                Ok(())
            }
        }
    }
}
