// Linear facts with one argument, which has a number.
ghost use Rattle.std.specs.Prelude.{◌≡◌, ℕ, List, [], ◌∷◌, false, IfOk, MatchOption};
ghost use Rattle.sap_sides.specs.SharedFacts.{fact_seen};
ghost use Rattle.sap_sides.specs.declared.shared_fact.SharedFact.{SharedFact as TheFact};
ghost use Rattle.sap_steps.specs.code.Piled.{single_of};
ghost use Rattle.sap_terms.specs.AdversaryFacts.{linear};
ghost use Rattle.sap_terms.specs.Tree.{Tree};

use sap_sides::SharedFact;
use sap_terms::{Mem, Name, Numbers};
use std::alloc::Global;

// The linear fact of this name whose one argument has this number.
pub(crate) fn single_shared(alloc: Global, name: &[u8], number: u64) -> Result<SharedFact, Mem>
    ensures { IfOk result (λ f. f ≡ single_of name.now number) }
{
    let name = Name::from_bytes(alloc, name)?;
    let mut args = Numbers::new(alloc);
    args.push(number)?;
    Ok(SharedFact {
        name,
        persistent: false,
        args,
    })
}

// The number of the argument of a linear fact of this name with one argument; None for another fact.
pub(crate) fn argument(f: &SharedFact, name: &[u8]) -> Option<u64>
    ensures { MatchOption result ((ts : List Tree) (t : Tree) → ¬ (fact_seen ts f.now ≡ linear name.now (t ∷ []))) (λ n. f.now ≡ single_of name.now n) }
{
    if f.persistent || f.args.len() != 1 || !f.name.is(name) {
        return None;
    }
    Some(*f.args.at(0))
}
