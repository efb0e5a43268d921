// The silent rules, found by the names of the facts that they take.
ghost use Rattle.std.specs.Prelude.{IfOk, OnOk, length};
ghost use Rattle.sap_gen.specs.code.Takers.{AreTakers, Notes};

use sap_rule::{Rule, RuleList};
use sap_silent::is_silent;
use sap_terms::{Copied, Mem, NameMap};
use std::alloc::Global;

// Notes the rule at this index by the name of what it takes, if it is silent.
fn note(alloc: Global, r: &Rule, k: u64, takers: &mut NameMap<u64>) -> Result<(), Mem>
    ensures { OnOk result (Notes takers.old takers.new r.now k) }
{
    if !is_silent(&r.name) {
        return Ok(());
    }
    match r.left.get(0) {
        Some(f) => takers.insert(f.name.copy(alloc)?, k),
        None => Ok(()),
    }
}

// The indexes of the silent rules, by the names of what they take.
pub(crate) fn takers_of(alloc: Global, rules: &RuleList) -> Result<NameMap<u64>, Mem>
    ensures { IfOk result (λ takers. AreTakers rules.now (length rules.now) takers) }
{
    let mut takers = NameMap::new(alloc);
    for k in 0..rules.len() {
        note(alloc, rules.at(k), k, &mut takers)?;
    }
    Ok(takers)
}
