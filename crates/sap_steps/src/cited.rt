// The facts that a line cites, built anew.
ghost use Rattle.std.specs.Prelude.{◌≡◌, ◌∷◌, ◌++◌, [], IfOk, OnOk};
ghost use Rattle.sap_facts.specs.Cited.{cited_at};

use crate::pile::SharedPile;
use sap_terms::{FactList, Mem, Numbers};
use std::alloc::Global;

// Those with these numbers, in order.
pub(crate) fn cited_facts(
    alloc: Global,
    facts: &SharedPile,
    numbers: &Numbers,
) -> Result<FactList, Mem>
    ensures { IfOk result (λ fs. fs ≡ cited_at facts.now.slots numbers.now) }
{
    let mut fs = FactList::new(alloc);
    for k in numbers.as_slice() {
        push_cited(&mut fs, alloc, facts, *k)?;
    }
    Ok(fs)
}

// Puts the fact of this number last, if it stands.
fn push_cited(fs: &mut FactList, alloc: Global, facts: &SharedPile, k: u64) -> Result<(), Mem>
    ensures { OnOk result (fs.new ≡ fs.old ++ cited_at facts.now.slots (k ∷ [])) }
{
    if let Some(f) = facts.fact(alloc, k)? {
        fs.push(f)?;
    }
    Ok(())
}
