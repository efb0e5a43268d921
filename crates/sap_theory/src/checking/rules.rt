//! Checks rules.
ghost use Rattle.std.specs.Prelude.{◌≡◌, ◌↔◌, ℕ, All, IfOk, OnOk, IsErrOf, IsTrue};
ghost use Rattle.sap_rule.specs.WellMade.{IsRuleOver};
ghost use Rattle.sap_theory.specs.TheoryCauses.{IsFirstWrong, IsLinear, IsPlainRule};
ghost use Rattle.sap_theory.specs.code.Judged.{IsWrong};
ghost use Rattle.sap_theory.specs.declared.fault.TheoryFault.{TheoryFault};
ghost use Rattle.sap_theory.specs.declared.fault.TheoryFault.TheVariants.{Mem as OutOfMemory, BadFunction as IsBadFunction, BadRule as IsBadRule};

use crate::fault::TheoryFault;
use sap_rule::{Rule, RuleList, is_rule_over, is_well_shaped};
use sap_terms::{Copied, Fact, FactList, Mem, Signature};
use std::alloc::Global;

// Refuses a rule with a symbol that isn't held with its arity.
fn check_over(alloc: Global, sig: &Signature, rule: &Rule) -> Result<(), TheoryFault>
    ensures sound { OnOk result (IsRuleOver sig.now rule.now) }
    ensures refused { (e : TheoryFault) → IsErrOf result e → (e ≡ OutOfMemory → ⊥)
        → IsWrong (IsRuleOver sig.now) IsBadFunction rule.now e }
{
    if is_rule_over(sig, rule) {
        return Ok(());
    }
    Err(TheoryFault::BadFunction {
        name: rule.name.copy(alloc)?,
    })
}

/// Refuses the first rule with a symbol that isn't held with its arity.
pub(crate) fn check_symbols(
    alloc: Global,
    sig: &Signature,
    rules: &RuleList,
) -> Result<(), TheoryFault>
    ensures sound { OnOk result (All (IsRuleOver sig.now) rules.now) }
    ensures refused { (e : TheoryFault) → IsErrOf result e → (e ≡ OutOfMemory → ⊥)
        → IsFirstWrong (IsRuleOver sig.now) IsBadFunction rules.now e }
{
    for rule in rules.as_slice() {
        check_over(alloc, sig, rule)?;
    }
    Ok(())
}

// Whether none of the facts is persistent.
fn are_linear(facts: &FactList) -> bool
    ensures { IsTrue result ↔ All IsLinear facts.now }
{
    facts.as_slice().iter().all(|f| is_linear(f))
}

fn is_linear(fact: &Fact) -> bool
    ensures { IsTrue result ↔ IsLinear fact.now }
{
    !fact.persistent
}

// Whether each fact of the rule stands where it may, and no name of a variable stands with two sorts.
fn is_plain_rule(alloc: Global, rule: &Rule) -> Result<bool, Mem>
    ensures { IfOk result (λ b. IsTrue b ↔ IsPlainRule rule.now) }
{
    if !are_linear(&rule.acts) {
        return Ok(false);
    }
    is_well_shaped(alloc, rule)
}

// Refuses a rule that isn't so.
fn check_shape(alloc: Global, rule: &Rule) -> Result<(), TheoryFault>
    ensures sound { OnOk result (IsPlainRule rule.now) }
    ensures refused { (e : TheoryFault) → IsErrOf result e → (e ≡ OutOfMemory → ⊥)
        → IsWrong IsPlainRule IsBadRule rule.now e }
{
    if is_plain_rule(alloc, rule)? {
        return Ok(());
    }
    Err(TheoryFault::BadRule {
        name: rule.name.copy(alloc)?,
    })
}

/// Refuses the first rule in which a fact stands where it mustn't, a fact that is shown is persistent, or a name of a variable
/// has two sorts.
pub(crate) fn check_shapes(alloc: Global, rules: &RuleList) -> Result<(), TheoryFault>
    ensures sound { OnOk result (All IsPlainRule rules.now) }
    ensures refused { (e : TheoryFault) → IsErrOf result e → (e ≡ OutOfMemory → ⊥)
        → IsFirstWrong IsPlainRule IsBadRule rules.now e }
{
    for rule in rules.as_slice() {
        check_shape(alloc, rule)?;
    }
    Ok(())
}
