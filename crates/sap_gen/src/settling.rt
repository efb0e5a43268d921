// The right sides of rules, with each fact that a silent rule takes replaced by what that rule adds.
ghost use Rattle.std.specs.Prelude.{◌≡◌, ◌++◌, ◌<◌, IfOk, OnOk, length, slice_get, Some};
ghost use Rattle.sap_process.specs.Proc.{Proc};
ghost use Rattle.sap_gen.specs.code.Walks.{CanWalk, IsLookedAt, IsToldRight, IsSettlingOf, ahead_of};

use sap_rule::RuleList;
use sap_terms::{Copied, Fact, FactList, Mem, NameMap};
use std::alloc::Global;

// These facts, with each that one of the takers takes replaced by what that rule adds, at its
// position, until none is left. It takes time in proportion to the facts that are looked at.
pub(crate) fn settled_facts(
    alloc: Global,
    rules: &RuleList,
    takers: &NameMap<u64>,
    facts: &FactList,
) -> Result<FactList, Mem>
    requires { (p : Proc) × CanWalk rules.now takers.now facts.now p }
    ensures { IfOk result (λ settled. IsSettlingOf rules.now takers.now facts.now settled) }
{
    let mut settled = FactList::new(alloc);
    let mut ahead: Vec<&Fact> = Vec::new(alloc);
    put_ahead(facts, &mut ahead)?;
    while let Some(f) = ahead.pop() {
        look_at(alloc, rules, takers, f, &mut ahead, &mut settled)?;
    }
    Ok(settled)
}

// Puts what the fact's taker adds ahead, or a copy of the fact last where it has none.
fn look_at<'t>(
    alloc: Global,
    rules: &'t RuleList,
    takers: &NameMap<u64>,
    f: &'t Fact,
    ahead: &mut Vec<&'t Fact>,
    settled: &mut FactList,
) -> Result<(), Mem>
    requires { (p : Proc) × IsToldRight p rules.now takers.now f.now }
    ensures { OnOk result (IsLookedAt rules.now takers.now f.now (ahead_of ahead.old.items)
        (ahead_of ahead.new.items) settled.old settled.new) }
{
    match takers.get(&f.name) {
        Some(k) => put_ahead(&rules.at(*k).right, ahead),
        None => settled.push(f.copy(alloc)?),
    }
}

// Puts the facts ahead of the others, the first of them last.
fn put_ahead<'t>(facts: &'t FactList, ahead: &mut Vec<&'t Fact>) -> Result<(), Mem>
    ensures { OnOk result (ahead_of ahead.new.items ≡ facts.now ++ ahead_of ahead.old.items) }
{
    for k in (0..facts.len()).rev() {
        ahead.push(facts.at(k))?;
    }
    Ok(())
}
