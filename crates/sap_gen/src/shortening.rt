// The short rules of a process, from its rules.
ghost use Rattle.std.specs.Prelude.{◌≡◌, IfOk, OnOk};
ghost use Rattle.sap_process.specs.Proc.{Proc};
ghost use Rattle.sap_gen.specs.Short.{AreShort};
ghost use Rattle.sap_gen.specs.code.Shorter.{HasShortRules, IsAddedRule, IsSettledRule};
ghost use Rattle.sap_gen.specs.code.Takers.{NamesTell};
ghost use Rattle.sap_gen.specs.code.Walks.{CanWalk};

use crate::settling::settled_facts;
use crate::takers::takers_of;
use sap_rule::{Rule, RuleList, Theory};
use sap_silent::{is_silent, replace_rules};
use sap_terms::{Copied, Mem, NameMap};
use std::alloc::Global;

// The rules that aren't silent, in order, each with its right side settled.
fn short_rules(alloc: Global, rules: &RuleList) -> Result<RuleList, Mem>
    requires { (p : Proc) × NamesTell p rules.now }
    ensures { IfOk result (λ short.
        (p : Proc) → NamesTell p rules.now → AreShort p rules.now short) }
{
    let takers = takers_of(alloc, rules)?;
    let mut short = RuleList::new(alloc);
    for k in 0..rules.len() {
        add_short(alloc, rules, &takers, rules.at(k), &mut short)?;
    }
    Ok(short)
}

// Puts the rule last with its right side settled, unless it is silent.
fn add_short(
    alloc: Global,
    rules: &RuleList,
    takers: &NameMap<u64>,
    r: &Rule,
    short: &mut RuleList,
) -> Result<(), Mem>
    requires { (p : Proc) × CanWalk rules.now takers.now r.now.right p }
    ensures { OnOk result (IsAddedRule rules.now takers.now r.now short.old short.new) }
{
    if is_silent(&r.name) {
        return Ok(());
    }
    short.push(short_rule(alloc, rules, takers, r)?)
}

// The rule with its right side settled.
fn short_rule(alloc: Global, rules: &RuleList, takers: &NameMap<u64>, r: &Rule) -> Result<Rule, Mem>
    requires { (p : Proc) × CanWalk rules.now takers.now r.now.right p }
    ensures { IfOk result (λ s. IsSettledRule rules.now takers.now r.now s) }
{
    let right = settled_facts(alloc, rules, takers, &r.right)?;
    let name = r.name.copy(alloc)?;
    let left = r.left.copy(alloc)?;
    let acts = r.acts.copy(alloc)?;
    Ok(Rule {
        name,
        left,
        acts,
        right,
    })
}

/// The theory with short rules in place of its rules.
pub(crate) fn with_short_rules(alloc: Global, mut t: Theory) -> Result<Theory, Mem>
    requires { (p : Proc) × NamesTell p t.rules }
    ensures { IfOk result (λ s. HasShortRules t s) }
{
    let rules = short_rules(alloc, &t.rules)?;
    drop(replace_rules(&mut t, rules));
    Ok(t)
}
