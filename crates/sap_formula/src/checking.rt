//! The check of formulas.
ghost use Rattle.std.specs.Prelude.{◌≡◌, ℕ, List, [], IfOk, IsErrOf};
ghost use Rattle.sap_formula.specs.Faults.{HasNoFault, IsFirstFault, told};
ghost use Rattle.sap_formula.specs.Laws.{Allowed};
ghost use Rattle.sap_formula.specs.Parts.{form_parts};
ghost use Rattle.sap_formula.specs.Sorted.{with_sorts};
ghost use Rattle.sap_formula.specs.code.Tests.{first_fault, in_order};
ghost use Rattle.sap_formula.specs.declared.fault.FormulaFlaw.{FormulaFlaw};
ghost use Rattle.sap_formula.specs.View.{form};
ghost use Rattle.sap_formula.specs.Checked.{IsChecked};

use crate::Formula;
use crate::fault::{FormulaFault, FormulaFlaw};
use crate::remaking::{How, remade};
use crate::scope::Scope;
use crate::search::{Aim, in_form};
use sap_terms::{Copied, Mem, Name, Signature};
use std::alloc::Global;

/// The formula with each message variable carrying its binder's sort, where it has no fault; else the fault that counts.
/// One kind of fault is sought from left to right in all of the formula, then the next kind; reserved names of facts only
/// where `reserved` says so. It recurses as deep as the formula and its terms.
pub fn check(
    alloc: Global,
    sig: &Signature,
    f: &Formula,
    reserved: bool,
) -> Result<Formula, FormulaFault>
    ensures sorted { IfOk result (λ r. form r ≡ with_sorts [] (form f.now)) }
    ensures sound { IfOk result (λ r. HasNoFault sig.now reserved (form f.now)) }
    ensures checked { IfOk result (λ r. IsChecked sig.now (Allowed reserved) [] (form r)) }
    ensures refused { (w : FormulaFlaw) (n : List ℕ) → IsErrOf result (told w n) → IsFirstFault sig.now reserved (form f.now) w n }
{
    match fault_that_counts(alloc, sig, reserved, f)? {
        Some((which, name)) => Err(fault(which, name)),
        None => Ok(sorted(alloc, f)?),
    }
}

// The formula with the sorts of binders.
#[tactic(auto, using(crate::proofs::Remakes::remade_laws))]
fn sorted(alloc: Global, f: &Formula) -> Result<Formula, Mem>
    ensures { IfOk result (λ r. form r ≡ with_sorts [] (form f.now)) }
{
    let outside = Scope::Outside;
    Ok(Box::into_inner(remade(alloc, How::Sorted, &outside, f)?))
}

// The first of all five, in the order in which they count.
fn fault_that_counts(
    alloc: Global,
    sig: &Signature,
    reserved: bool,
    f: &Formula,
) -> Result<Option<(FormulaFlaw, Name)>, Mem>
    ensures { IfOk result (λ o. o ≡ first_fault sig.now reserved in_order (form_parts [] (form f.now))) }
{
    let flaws = [
        FormulaFlaw::BadFunction,
        FormulaFlaw::Destructor,
        FormulaFlaw::Reserved,
        FormulaFlaw::UnboundVar,
        FormulaFlaw::Unguarded,
    ];
    first_fault(alloc, sig, reserved, f, &flaws)
}

// The first of the faults that a part has, with the name of the first part that has it.
fn first_fault(
    alloc: Global,
    sig: &Signature,
    reserved: bool,
    f: &Formula,
    flaws: &[FormulaFlaw],
) -> Result<Option<(FormulaFlaw, Name)>, Mem>
    ensures { IfOk result (λ o. o ≡ first_fault sig.now reserved flaws.now (form_parts [] (form f.now))) }
{
    for which in flaws {
        let aim = Aim {
            sig,
            reserved,
            which: *which,
        };
        if let Some(name) = in_form(alloc, &aim, &Scope::Outside, f)? {
            return Ok(Some((*which, name.copy(alloc)?)));
        }
    }
    Ok(None)
}

fn fault(which: FormulaFlaw, name: Name) -> FormulaFault
    ensures { result ≡ told which name }
{
    match which {
        FormulaFlaw::BadFunction => FormulaFault::BadFunction { f: name },
        FormulaFlaw::Destructor => FormulaFault::Destructor { f: name },
        FormulaFlaw::Reserved => FormulaFault::Reserved { fact: name },
        FormulaFlaw::UnboundVar => FormulaFault::UnboundVar { var: name },
        FormulaFlaw::Unguarded => FormulaFault::Unguarded { var: name },
    }
}
