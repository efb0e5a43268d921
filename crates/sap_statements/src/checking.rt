//! Checks the formulas of restrictions and lemmas.
ghost use Rattle.std.specs.Prelude.{◌≡◌, ◌++◌, ℕ, List, [], ◌∷◌, IfOk, OnOk, IsErrOf};
ghost use Rattle.sap_formula.specs.Faults.{HasNoFault};
ghost use Rattle.sap_formula.specs.Sorted.{with_sorts};
ghost use Rattle.sap_formula.specs.View.{form};
ghost use Rattle.sap_formula.specs.declared.fault.FormulaFault.{FormulaFault};
ghost use Rattle.sap_formula.specs.declared.fault.FormulaFault.TheVariants.{Mem as FormulaMemory};
ghost use Rattle.sap_statements.specs.Statements.{formula_of, name_of};
ghost use Rattle.sap_statements.specs.Stated.{AreFaultless, IsFirstFaulty, restrictions_of, lemmas_of};
ghost use Rattle.sap_statements.specs.code.Judged.{IsFaultOf};
ghost use Rattle.sap_statements.specs.declared.checking.Unchecked.{Unchecked};
ghost use Rattle.sap_statements.specs.declared.checking.Unchecked.TheVariants.{Mem as OutOfMemory, Formula as IsFormula};

use crate::statement::Statement;
use sap_formula::{Formula, FormulaFault, Lemma, LemmaList, Restriction, RestrictionList, check};
use sap_terms::{Copied, Items, Mem, Name, Signature, boxed};
use std::alloc::Global;

/// Restrictions and lemmas whose formulas have no fault, each variable with the sort of its binder.
#[derive(Drop)]
pub struct Checked {
    pub restrictions: RestrictionList,
    pub lemmas: LemmaList,
}

/// Why restrictions and lemmas are refused.
#[derive(Drop)]
pub enum Unchecked {
    /// Want of memory.
    Mem,
    /// The first of them, by its name, whose formula has a fault, and the fault that counts; never want of memory.
    Formula { name: Name, fault: FormulaFault },
}

impl From<Mem> for Unchecked {
    ghost use Rattle.std.specs.Prelude.{◌≡◌};
    ghost use Rattle.sap_statements.specs.declared.checking.Unchecked.TheVariants.{Mem as OutOfMemory};

    ghost from_gives = { λ _ e. e ≡ OutOfMemory };

    fn from(_e: Mem) -> Unchecked {
        Unchecked::Mem
    }
}

// The fault of a restriction or lemma of this name.
fn refusal(alloc: Global, name: &Name, fault: FormulaFault) -> Unchecked
    ensures { (result ≡ OutOfMemory → ⊥)
        → (result ≡ IsFormula name.now fault) × (fault ≡ FormulaMemory → ⊥) }
{
    if let FormulaFault::Mem = fault {
        return Unchecked::Mem;
    }
    match name.copy(alloc) {
        Ok(name) => Unchecked::Formula { name, fault },
        Err(_) => Unchecked::Mem,
    }
}

// The formula of a restriction or lemma, with the sorts of its binders.
fn sorted(
    alloc: Global,
    sig: &Signature,
    statement: &Statement,
    reserved: bool,
) -> Result<Box<Formula>, Unchecked>
    ensures sorted { IfOk result (λ r. form r.value ≡ with_sorts [] (formula_of statement.now)) }
    ensures sound { OnOk result (HasNoFault sig.now reserved (formula_of statement.now)) }
    ensures refused { (e : Unchecked) → IsErrOf result e → (e ≡ OutOfMemory → ⊥)
        → IsFaultOf sig.now reserved statement.now e }
{
    match check(alloc, sig, statement.formula(), reserved) {
        Ok(f) => Ok(boxed(alloc, f)?),
        Err(fault) => Err(refusal(alloc, statement.name(), fault)),
    }
}

// Puts a restriction last, its formula replaced by this one.
fn push_restriction(
    alloc: Global,
    restrictions: &mut RestrictionList,
    restriction: &Restriction,
    formula: Box<Formula>,
) -> Result<(), Mem>
    ensures { OnOk result (restrictions.new ≡ restrictions.old
        ++ record { name = restriction.now.name; formula = form formula.value } ∷ []) }
{
    let name = restriction.name.copy(alloc)?;
    restrictions.push(Restriction {
        name,
        formula: Box::into_inner(formula),
    })
}

// Puts a lemma last, its formula replaced by this one.
fn push_lemma(
    alloc: Global,
    lemmas: &mut LemmaList,
    lemma: &Lemma,
    formula: Box<Formula>,
) -> Result<(), Mem>
    ensures { OnOk result (lemmas.new ≡ lemmas.old ++ record {
      name = lemma.now.name;
      attributes = lemma.now.attributes;
      mode = lemma.now.mode;
      formula = form formula.value;
    } ∷ []) }
{
    let name = lemma.name.copy(alloc)?;
    let attributes = lemma.attributes.copy(alloc)?;
    lemmas.push(Lemma {
        name,
        attributes,
        mode: lemma.mode,
        formula: Box::into_inner(formula),
    })
}

// Puts a restriction or lemma last among its kind, with this formula.
fn push(
    alloc: Global,
    checked: &mut Checked,
    statement: &Statement,
    formula: Box<Formula>,
) -> Result<(), Mem>
    requires { form formula.value ≡ with_sorts [] (formula_of statement.now) }
    ensures restrictions { OnOk result (checked.new.restrictions ≡ checked.old.restrictions
        ++ restrictions_of (statement.now ∷ [])) }
    ensures lemmas { OnOk result (checked.new.lemmas ≡ checked.old.lemmas
        ++ lemmas_of (statement.now ∷ [])) }
{
    match statement {
        Statement::Restriction(r) => {
            push_restriction(alloc, &mut checked.restrictions, r, formula)
        }
        Statement::Lemma(l) => push_lemma(alloc, &mut checked.lemmas, l, formula),
    }
}

// Puts a restriction or lemma last among its kind, where its formula has no fault, with the sorts of binders.
fn check_statement(
    alloc: Global,
    sig: &Signature,
    checked: &mut Checked,
    statement: &Statement,
    reserved: bool,
) -> Result<(), Unchecked>
    ensures sound { OnOk result (HasNoFault sig.now reserved (formula_of statement.now)) }
    ensures restrictions { OnOk result (checked.new.restrictions ≡ checked.old.restrictions
        ++ restrictions_of (statement.now ∷ [])) }
    ensures lemmas { OnOk result (checked.new.lemmas ≡ checked.old.lemmas
        ++ lemmas_of (statement.now ∷ [])) }
    ensures refused { (e : Unchecked) → IsErrOf result e → (e ≡ OutOfMemory → ⊥)
        → IsFaultOf sig.now reserved statement.now e }
{
    let formula = sorted(alloc, sig, statement, reserved)?;
    Ok(push(alloc, checked, statement, formula)?)
}

/// The restrictions and the lemmas among these, in order, each variable with the sort of its binder; or the first of them whose
/// formula has a fault. A reserved name of a fact is a fault where `reserved` says so. It recurses as deep as the formulas.
pub fn check_statements(
    alloc: Global,
    sig: &Signature,
    statements: &Items<Statement>,
    reserved: bool,
) -> Result<Checked, Unchecked>
    ensures faultless { OnOk result (AreFaultless sig.now reserved statements.now) }
    ensures restrictions { IfOk result (λ c. c.restrictions ≡ restrictions_of statements.now) }
    ensures lemmas { IfOk result (λ c. c.lemmas ≡ lemmas_of statements.now) }
    ensures refused { (x : List ℕ) (f : FormulaFault) → IsErrOf result (IsFormula x f)
        → IsFirstFaulty sig.now reserved statements.now x f }
{
    let mut checked = Checked {
        restrictions: RestrictionList::new(alloc),
        lemmas: LemmaList::new(alloc),
    };
    for statement in statements.as_slice() {
        check_statement(alloc, sig, &mut checked, statement, reserved)?;
    }
    Ok(checked)
}
