//! Facts exchanged for others.
ghost use Rattle.std.specs.Prelude.{◌≡◌, ◌≤◌, length, map, IfOk, OnOk, OnErr};
ghost use Rattle.sap_terms.specs.Piles.{adds};
ghost use Rattle.sap_facts.specs.Cited.{left_of};
ghost use Rattle.sap_sides.specs.SharedFacts.{fact_seen, AreFactsBelow};

use crate::pile::SharedPile;
use sap_sides::{SharedFact, Sides};
use sap_terms::{FactList, Mem, Numbers};

// Takes the facts with these numbers, adds what a rule adds, and gives what it shows, if memory is found.
pub(crate) fn carry_out(
    facts: &mut SharedPile,
    numbers: &Numbers,
    fired: Sides,
) -> Result<FactList, Mem>
    requires { AreFactsBelow (length facts.old.trees) fired.right.items }
    ensures ok { OnOk result (facts.new.slots ≡ adds (left_of facts.old.slots numbers.now) (map (fact_seen facts.old.trees) fired.right.items)) }
    ensures err { OnErr result (facts.new.slots ≡ facts.old.slots) }
    ensures sig { facts.new.sig ≡ facts.old.sig }
    ensures trees { facts.new.trees ≡ facts.old.trees }
    ensures acts { IfOk result (λ acts. acts ≡ fired.acts) }
{
    let Sides { acts, right } = fired;
    match exchange(facts, numbers, right) {
        Err(_) => {
            drop(acts);
            Err(Mem)
        }
        Ok(()) => Ok(acts),
    }
}

// Takes the facts with these numbers and adds others, if memory is found for them.
fn exchange(facts: &mut SharedPile, numbers: &Numbers, added: Vec<SharedFact>) -> Result<(), Mem>
    requires below { AreFactsBelow (length facts.old.trees) added.items }
    ensures ok { OnOk result (facts.new.slots ≡ adds (left_of facts.old.slots numbers.now) (map (fact_seen facts.old.trees) added.items)) }
    ensures err { OnErr result (facts.new.slots ≡ facts.old.slots) }
    ensures sig { facts.new.sig ≡ facts.old.sig }
    ensures trees { facts.new.trees ≡ facts.old.trees }
{
    facts.reserve(added.len() as u64)?;
    take_each(facts, numbers);
    add_each(facts, added);
    Ok(())
}

// Takes the facts with these numbers, one after another.
fn take_each(facts: &mut SharedPile, numbers: &Numbers)
    ensures sig { facts.new.sig ≡ facts.old.sig }
    ensures trees { facts.new.trees ≡ facts.old.trees }
    ensures slots { facts.new.slots ≡ left_of facts.old.slots numbers.now }
    ensures spare { facts.new.spare ≡ facts.old.spare }
{
    for k in numbers.as_slice() {
        facts.remove(*k);
    }
}

// Adds facts for which memory was found.
fn add_each(facts: &mut SharedPile, added: Vec<SharedFact>)
    requires room { length added.items ≤ facts.old.spare }
    requires below { AreFactsBelow (length facts.old.trees) added.items }
    ensures sig { facts.new.sig ≡ facts.old.sig }
    ensures trees { facts.new.trees ≡ facts.old.trees }
    ensures slots { facts.new.slots ≡ adds facts.old.slots (map (fact_seen facts.old.trees) added.items) }
{
    for f in added {
        facts.add(f);
    }
}
