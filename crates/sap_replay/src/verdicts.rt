//! What is said of restrictions and lemmas on a trace.

ghost use Rattle.std.specs.Prelude.{◌≡◌, ◌++◌, IfOk, OnOk};
ghost use Rattle.sap_formula.specs.Form.{LemmaForm, RestrictionForm};
ghost use Rattle.sap_formula.specs.Laws.{IsClosed};
ghost use Rattle.sap_formula.specs.Truth.{EachIn};
ghost use Rattle.sap_formula.specs.View.{form};
ghost use Rattle.sap_terms.specs.Message.{IsMessageTrace};
ghost use Rattle.sap_terms.specs.Signature.{Sig};
ghost use Rattle.sap_replay.specs.Verdicts.{AreVerdicts, all_judged, judged_lemmas, judged_restrictions, verdict_text, verdict_line};
ghost use Rattle.sap_replay.specs.code.Verdicts.{Adds, IsLineFor};

use sap_formula::{Formula, Lemma, LemmaList, Restriction, RestrictionList};
use sap_judge::{ReadyTrace, Verdict};
use sap_terms::{Mem, Name, Trace};
use sap_text::Text;
use std::alloc::Global;

/// A line for each restriction, and then for each lemma: whether it is true on the trace, unless that costs too much to say.
/// The trace is made ready once for all of them.
pub fn verdicts(
    alloc: Global,
    restrictions: &RestrictionList,
    lemmas: &LemmaList,
    trace: &Trace,
) -> Result<Text, Mem>
    ensures { (g : Sig) → IsMessageTrace g trace.now
        → EachIn (λ (r : RestrictionForm). IsClosed g r.formula) restrictions.now
        → EachIn (λ (l : LemmaForm). IsClosed g l.formula) lemmas.now
        → IfOk result (λ text. AreVerdicts g trace.now (all_judged restrictions.now lemmas.now) text) }
{
    let ready = ReadyTrace::of(alloc, trace)?;
    verdicts_on(alloc, restrictions, lemmas, &ready)
}

/// The same on a trace made ready.
fn verdicts_on(
    alloc: Global,
    restrictions: &RestrictionList,
    lemmas: &LemmaList,
    trace: &ReadyTrace<'_>,
) -> Result<Text, Mem>
    ensures { (g : Sig) → IsMessageTrace g trace.now
        → EachIn (λ (r : RestrictionForm). IsClosed g r.formula) restrictions.now
        → EachIn (λ (l : LemmaForm). IsClosed g l.formula) lemmas.now
        → IfOk result (λ text. AreVerdicts g trace.now (all_judged restrictions.now lemmas.now) text) }
{
    let mut text = Text::new(alloc);
    push_restrictions(&mut text, alloc, restrictions, trace)?;
    push_lemmas(&mut text, alloc, lemmas, trace)?;
    Ok(text)
}

/// Puts last the lines of restrictions.
fn push_restrictions(
    text: &mut Text,
    alloc: Global,
    restrictions: &RestrictionList,
    trace: &ReadyTrace<'_>,
) -> Result<(), Mem>
    ensures { (g : Sig) → IsMessageTrace g trace.now
        → EachIn (λ (r : RestrictionForm). IsClosed g r.formula) restrictions.now
        → OnOk result (Adds (AreVerdicts g trace.now (judged_restrictions restrictions.now)) text.old text.new) }
{
    for k in 0..restrictions.len() {
        push_restriction(text, alloc, restrictions.at(k), trace)?;
    }
    Ok(())
}

/// Puts last the line of a restriction.
fn push_restriction(
    text: &mut Text,
    alloc: Global,
    r: &Restriction,
    trace: &ReadyTrace<'_>,
) -> Result<(), Mem>
    ensures { (g : Sig) → IsMessageTrace g trace.now → IsClosed g r.now.formula
        → OnOk result (Adds (IsLineFor g trace.now r.now.name r.now.formula) text.old text.new) }
{
    push_line(text, alloc, &r.name, &r.formula, trace)
}

/// Puts last the lines of lemmas.
fn push_lemmas(
    text: &mut Text,
    alloc: Global,
    lemmas: &LemmaList,
    trace: &ReadyTrace<'_>,
) -> Result<(), Mem>
    ensures { (g : Sig) → IsMessageTrace g trace.now
        → EachIn (λ (l : LemmaForm). IsClosed g l.formula) lemmas.now
        → OnOk result (Adds (AreVerdicts g trace.now (judged_lemmas lemmas.now)) text.old text.new) }
{
    for k in 0..lemmas.len() {
        push_lemma(text, alloc, lemmas.at(k), trace)?;
    }
    Ok(())
}

/// Puts last the line of a lemma.
fn push_lemma(text: &mut Text, alloc: Global, l: &Lemma, trace: &ReadyTrace<'_>) -> Result<(), Mem>
    ensures { (g : Sig) → IsMessageTrace g trace.now → IsClosed g l.now.formula
        → OnOk result (Adds (IsLineFor g trace.now l.now.name l.now.formula) text.old text.new) }
{
    push_line(text, alloc, &l.name, &l.formula, trace)
}

/// Puts last the line of a formula under its name.
fn push_line(
    text: &mut Text,
    alloc: Global,
    name: &Name,
    formula: &Formula,
    trace: &ReadyTrace<'_>,
) -> Result<(), Mem>
    ensures { (g : Sig) → IsMessageTrace g trace.now → IsClosed g (form formula.now)
        → OnOk result (Adds (IsLineFor g trace.now name.now (form formula.now)) text.old text.new) }
{
    let verdict = trace.judge(alloc, formula)?;
    push_verdict(text, name, verdict)
}

/// Puts last the line of a verdict.
fn push_verdict(text: &mut Text, name: &Name, verdict: Verdict) -> Result<(), Mem>
    ensures { OnOk result (text.new ≡ text.old ++ verdict_line name.now verdict) }
{
    text.push_bytes(name.as_bytes())?;
    text.push_bytes(b": ")?;
    text.push_bytes(word_of(verdict))?;
    text.push_bytes(b"\n")
}

/// The word of a verdict.
fn word_of(verdict: Verdict) -> &'static [u8]
    ensures { result.now ≡ verdict_text verdict }
{
    match verdict {
        Verdict::Holds => b"holds",
        Verdict::Fails => b"fails",
        Verdict::TooCostly { .. } => b"too costly",
    }
}
