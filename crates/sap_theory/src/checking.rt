//! Checks what the items of a theory say, one cause after another.
ghost use Rattle.std.specs.Prelude.{◌≡◌, ℕ, false, List, IfOk, OnOk, IsErrOf};
ghost use Rattle.sap_statements.specs.Stated.{AreFaultless, restrictions_of, lemmas_of};
ghost use Rattle.sap_theory.specs.TheoryCauses.{IsRefused, AreAccepted};
ghost use Rattle.sap_theory.specs.code.Judged.{IsFirstUnchecked};
ghost use Rattle.sap_theory.specs.declared.fault.TheoryFault.{TheoryFault};
ghost use Rattle.sap_theory.specs.declared.fault.TheoryFault.TheVariants.{Mem as OutOfMemory};

mod names;
mod rules;

use crate::checking::names::{check_clash, check_names};
use crate::checking::rules::{check_shapes, check_symbols};
use crate::fault::TheoryFault;
use sap_rule::RuleList;
use sap_statements::{Checked, Statement, check_statements};
use sap_terms::{Items, Name, Signature};
use std::alloc::Global;

/// The restrictions and lemmas with the sorts of binders, where no cause refuses them or the rules; else the first that does.
pub(crate) fn check(
    alloc: Global,
    sig: &Signature,
    clash: &Option<Name>,
    rules: &RuleList,
    statements: &Items<Statement>,
) -> Result<Checked, TheoryFault>
    ensures accepted { IfOk result (λ c. AreAccepted sig.now clash.now rules.now statements.now) }
    ensures restrictions { IfOk result (λ c. c.restrictions ≡ restrictions_of statements.now) }
    ensures lemmas { IfOk result (λ c. c.lemmas ≡ lemmas_of statements.now) }
    ensures refused { (e : TheoryFault) → IsErrOf result e → (e ≡ OutOfMemory → ⊥)
        → IsRefused sig.now clash.now rules.now statements.now e }
{
    check_names(alloc, rules, statements)?;
    check_clash(alloc, clash)?;
    check_symbols(alloc, sig, rules)?;
    check_shapes(alloc, rules)?;
    check_formulas(alloc, sig, statements)
}

// The restrictions and lemmas with the sorts of binders, where no formula has a fault; names of facts are free.
fn check_formulas(
    alloc: Global,
    sig: &Signature,
    statements: &Items<Statement>,
) -> Result<Checked, TheoryFault>
    ensures accepted { OnOk result (AreFaultless sig.now false statements.now) }
    ensures restrictions { IfOk result (λ c. c.restrictions ≡ restrictions_of statements.now) }
    ensures lemmas { IfOk result (λ c. c.lemmas ≡ lemmas_of statements.now) }
    ensures refused { (e : TheoryFault) → IsErrOf result e → (e ≡ OutOfMemory → ⊥)
        → IsFirstUnchecked sig.now statements.now e }
{
    Ok(check_statements(alloc, sig, statements, false)?)
}
