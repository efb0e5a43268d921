//! The rows of a run that reasons name.
ghost use Rattle.std.specs.Prelude.{◌≡◌, ◌++◌, IfOk, OnOk, codes, map};
ghost use Rattle.sap_search.specs.View.{chosen_value};
ghost use Rattle.sap_verdicts.specs.VerdictText.{choice_marks, found_marks, verdict_marks};
ghost use Rattle.sap_verdicts.specs.View.{found};

use crate::finding::Finding;
use crate::verdict_text::number_of;
use sap_formula::Binder;
use sap_match::Value;
use sap_search::Chosen;
use sap_terms::{Items, Mem, Name};
use sap_text::Text;
use std::alloc::Global;

/// A mark for each time that a reason tells, by the number of the line that shows it: the name of the formula and the variable. Formula
/// by formula, and of each choice by choice.
pub fn verdict_marks(
    alloc: Global,
    lines: &[u64],
    findings: &[Finding<'_>],
) -> Result<Items<(u64, Text)>, Mem>
    ensures { IfOk result (λ ms. ms ≡ verdict_marks lines.now (map found findings.now)) }
{
    let mut out = Items::new(alloc);
    for k in 0..findings.len() {
        push_found(alloc, lines, &findings[k], &mut out)?;
    }
    Ok(out)
}

// Those of a formula come last.
fn push_found(
    alloc: Global,
    lines: &[u64],
    y: &Finding<'_>,
    out: &mut Items<(u64, Text)>,
) -> Result<(), Mem>
    ensures { OnOk result (out.new ≡ out.old ++ found_marks lines.now (found y.now)) }
{
    let choices = y.reason.as_slice();
    for k in 0..choices.len() {
        push_mark(alloc, lines, y.name, &choices[k], out)?;
    }
    Ok(())
}

// That of a choice comes last, if it is one of a time.
fn push_mark(
    alloc: Global,
    lines: &[u64],
    name: &Name,
    c: &Chosen<'_>,
    out: &mut Items<(u64, Text)>,
) -> Result<(), Mem>
    ensures { OnOk result (out.new ≡ out.old ++ choice_marks lines.now name.now (chosen_value c.now).binder (chosen_value c.now).value) }
{
    match (c.binder, c.value) {
        (Binder::Time(n), Value::Time(k)) => {
            out.push((number_of(lines, k), label(alloc, name, n)?))
        }
        _ => Ok(()),
    }
}

// The name of the formula and the variable.
fn label(alloc: Global, name: &Name, variable: &Name) -> Result<Text, Mem>
    ensures { IfOk result (λ t. t ≡ name.now ++ (codes " #" ++ variable.now)) }
{
    let mut text = Text::new(alloc);
    text.push_bytes(name.as_bytes())?;
    text.push_bytes(b" #")?;
    text.push_bytes(variable.as_bytes())?;
    Ok(text)
}
