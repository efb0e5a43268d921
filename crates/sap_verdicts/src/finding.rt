//! What is found of a file's formulas on a trace.
ghost use Rattle.std.specs.Prelude.{◌≡◌, ◌∷◌, ◌++◌, [], IfOk, OnOk, map};
ghost use Rattle.sap_formula.specs.Form.{LemmaForm, RestrictionForm};
ghost use Rattle.sap_formula.specs.Laws.{IsClosed};
ghost use Rattle.sap_formula.specs.Truth.{EachIn, IsTrueOn};
ghost use Rattle.sap_formula.specs.View.{form};
ghost use Rattle.sap_judge.specs.Reasons.{Is, IsReason};
ghost use Rattle.sap_judge.specs.Verdict.{IsVerdict};
ghost use Rattle.sap_search.specs.View.{chosen_value};
ghost use Rattle.sap_terms.specs.Message.{IsMessageTrace};
ghost use Rattle.sap_terms.specs.Signature.{Sig};
ghost use Rattle.sap_verdicts.specs.Findings.{AreFound, IsFound, IsReasonFor, all_stated, stated_lemma, stated_restriction};
ghost use Rattle.sap_verdicts.specs.View.{found};
ghost use Rattle.sap_verdicts.specs.code.Finding.{AddsFound, silent};

use crate::statement::Statement;
use sap_formula::{Formula, Lemma, LemmaList, Restriction, RestrictionList};
use sap_judge::{ReadyTrace, Verdict};
use sap_search::Chosen;
use sap_terms::{Items, Mem, Name};
use std::alloc::Global;

/// What is found of a formula of a file on a trace: its name and what it is, its verdict, and the choices of the reason for it.
#[derive(Drop)]
pub struct Finding<'a> {
    pub name: &'a Name,
    pub what: Statement,
    pub verdict: Verdict,
    pub reason: Vec<Chosen<'a>>,
}

/// The verdict of each restriction and then of each lemma on the trace, with the reason for it. No reason is looked for of a formula that
/// costs too much, and of one whose reason has no choices whatever the trace is, as of an `All` that holds; each other one is judged once
/// more. Want of memory is the only error.
pub fn find_verdicts<'a>(
    alloc: Global,
    trace: &'a ReadyTrace<'_>,
    restrictions: &'a RestrictionList,
    lemmas: &'a LemmaList,
) -> Result<Items<Finding<'a>>, Mem>
    ensures { (g : Sig) → IsMessageTrace g trace.now
        → EachIn (λ (r : RestrictionForm). IsClosed g r.formula) restrictions.now
        → EachIn (λ (l : LemmaForm). IsClosed g l.formula) lemmas.now
        → IfOk result (λ ys. AreFound g trace.now (all_stated restrictions.now lemmas.now) (map found ys)) }
{
    let mut out = Items::new(alloc);
    find_restrictions(alloc, trace, restrictions, &mut out)?;
    find_lemmas(alloc, trace, lemmas, &mut out)?;
    Ok(out)
}

// What is found of restrictions comes last.
fn find_restrictions<'a>(
    alloc: Global,
    trace: &'a ReadyTrace<'_>,
    restrictions: &'a RestrictionList,
    out: &mut Items<Finding<'a>>,
) -> Result<(), Mem>
    ensures { (g : Sig) → IsMessageTrace g trace.now → EachIn (λ (r : RestrictionForm). IsClosed g r.formula) restrictions.now
        → OnOk result (AddsFound g trace.now (map stated_restriction restrictions.now) (map found out.old) (map found out.new)) }
{
    for k in 0..restrictions.len() {
        find_restriction(alloc, trace, restrictions.at(k), out)?;
    }
    Ok(())
}

// What is found of lemmas comes last.
fn find_lemmas<'a>(
    alloc: Global,
    trace: &'a ReadyTrace<'_>,
    lemmas: &'a LemmaList,
    out: &mut Items<Finding<'a>>,
) -> Result<(), Mem>
    ensures { (g : Sig) → IsMessageTrace g trace.now → EachIn (λ (l : LemmaForm). IsClosed g l.formula) lemmas.now
        → OnOk result (AddsFound g trace.now (map stated_lemma lemmas.now) (map found out.old) (map found out.new)) }
{
    for k in 0..lemmas.len() {
        find_lemma(alloc, trace, lemmas.at(k), out)?;
    }
    Ok(())
}

// What is found of a restriction comes last.
fn find_restriction<'a>(
    alloc: Global,
    trace: &'a ReadyTrace<'_>,
    r: &'a Restriction,
    out: &mut Items<Finding<'a>>,
) -> Result<(), Mem>
    ensures { (g : Sig) → IsMessageTrace g trace.now → IsClosed g r.now.formula
        → OnOk result (AddsFound g trace.now (stated_restriction r.now ∷ []) (map found out.old) (map found out.new)) }
{
    find(
        alloc,
        trace,
        &r.name,
        Statement::Restriction,
        &r.formula,
        out,
    )
}

// What is found of a lemma comes last.
fn find_lemma<'a>(
    alloc: Global,
    trace: &'a ReadyTrace<'_>,
    l: &'a Lemma,
    out: &mut Items<Finding<'a>>,
) -> Result<(), Mem>
    ensures { (g : Sig) → IsMessageTrace g trace.now → IsClosed g l.now.formula
        → OnOk result (AddsFound g trace.now (stated_lemma l.now ∷ []) (map found out.old) (map found out.new)) }
{
    find(
        alloc,
        trace,
        &l.name,
        Statement::Lemma(l.mode),
        &l.formula,
        out,
    )
}

// What is found of a formula comes last.
fn find<'a>(
    alloc: Global,
    trace: &'a ReadyTrace<'_>,
    name: &'a Name,
    what: Statement,
    f: &'a Formula,
    out: &mut Items<Finding<'a>>,
) -> Result<(), Mem>
    ensures { (g : Sig) → IsMessageTrace g trace.now → IsClosed g (form f.now)
        → OnOk result (AddsFound g trace.now (record { name = name.now; what = what; formula = form f.now } ∷ []) (map found out.old) (map found out.new)) }
{
    let verdict = trace.judge(alloc, f)?;
    let reason = reason_for(alloc, trace, f, verdict)?;
    out.push(Finding {
        name,
        what,
        verdict,
        reason,
    })
}

// The choices of the reason for a verdict.
fn reason_for<'a>(
    alloc: Global,
    trace: &'a ReadyTrace<'_>,
    f: &'a Formula,
    verdict: Verdict,
) -> Result<Vec<Chosen<'a>>, Mem>
    ensures { (g : Sig) → IsMessageTrace g trace.now → IsClosed g (form f.now) → IsVerdict g (form f.now) trace.now verdict
        → IfOk result (λ cs. IsReasonFor g (form f.now) trace.now verdict (map chosen_value cs.items)) }
{
    match verdict {
        Verdict::Holds => asked(alloc, trace, f, true),
        Verdict::Fails => asked(alloc, trace, f, false),
        Verdict::TooCostly { .. } => Ok(Vec::new(alloc)),
    }
}

// Whether the reason for this truth value has no choices, whatever the trace is: then nothing has to be looked for.
fn is_silent(f: &Formula, value: bool) -> bool
    ensures { result ≡ silent (form f.now) value }
{
    match f {
        Formula::Not(g) => is_silent(g, !value),
        Formula::And(_, _) | Formula::Or(_, _) | Formula::Imp(_, _) => false,
        Formula::All(_, _) => value,
        Formula::Ex(_, _) => !value,
        Formula::True
        | Formula::False
        | Formula::Action(_, _)
        | Formula::Equal(_, _)
        | Formula::Same(_, _)
        | Formula::Less(_, _)
        | Formula::Iff(_, _) => true,
    }
}

// The choices of the reason for the truth value that the formula has.
fn asked<'a>(
    alloc: Global,
    trace: &'a ReadyTrace<'_>,
    f: &'a Formula,
    value: bool,
) -> Result<Vec<Chosen<'a>>, Mem>
    ensures { (g : Sig) → IsMessageTrace g trace.now → IsClosed g (form f.now) → Is value (IsTrueOn g (form f.now) trace.now)
        → IfOk result (λ cs. IsReason g (form f.now) trace.now value (map chosen_value cs.items)) }
{
    if is_silent(f, value) {
        return Ok(Vec::new(alloc));
    }
    match trace.reason(alloc, f, value) {
        Ok(Some(choices)) => Ok(choices),
        Ok(None) => Ok(Vec::new(alloc)),
        Err(e) => Err(e),
    }
}
