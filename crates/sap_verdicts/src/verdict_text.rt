//! The line of a verdict.
ghost use Rattle.std.specs.Prelude.{◌≡◌, ◌∷◌, ◌++◌, [], IfOk, OnOk, codes, drop, map, slice_get};
ghost use Rattle.sap_search.specs.View.{chosen_value};
ghost use Rattle.sap_verdicts.specs.VerdictText.{choice_text, conclusion, decided, kind_text, more_choices, number_or_none, reason_text, verdict_line, verdict_lines, verdict_words, verdicts_text};
ghost use Rattle.sap_verdicts.specs.View.{found};

use crate::finding::Finding;
use crate::standing::{Standing, standing_of};
use crate::statement::Statement;
use sap_called::{Names, push_term};
use sap_formula::{Binder, Mode};
use sap_grammar::push_variable;
use sap_judge::Verdict;
use sap_match::Value;
use sap_search::Chosen;
use sap_terms::{Items, Mem};
use sap_text::Text;
use std::alloc::Global;

// What the formula is.
fn kind_text(s: Statement) -> &'static [u8]
    ensures { result.now ≡ kind_text s }
{
    match s {
        Statement::Restriction => b" (restriction)",
        Statement::Lemma(Mode::AllTraces) => b" (all-traces)",
        Statement::Lemma(Mode::ExistsTrace) => b" (exists-trace)",
    }
}

// What decides a lemma that is false, or true.
fn false_text(c: Standing) -> &'static [u8]
    ensures { result.now ≡ decided (codes "so it is false") c }
{
    match c {
        Standing::Counts => b", so it is false",
        Standing::Excluded => b", but this run doesn't count",
        Standing::Undecided => b", if this run counts",
    }
}

fn true_text(c: Standing) -> &'static [u8]
    ensures { result.now ≡ decided (codes "so it is true") c }
{
    match c {
        Standing::Counts => b", so it is true",
        Standing::Excluded => b", but this run doesn't count",
        Standing::Undecided => b", if this run counts",
    }
}

// What the verdict says of the file.
fn conclusion(s: Statement, v: Verdict, c: Standing) -> &'static [u8]
    ensures { result.now ≡ conclusion s v c }
{
    match (s, v) {
        (_, Verdict::TooCostly { .. }) => b"",
        (Statement::Restriction, Verdict::Holds) => b"",
        (Statement::Restriction, Verdict::Fails) => b", so this run doesn't count",
        (Statement::Lemma(Mode::AllTraces), Verdict::Holds) => b" on this run",
        (Statement::Lemma(Mode::AllTraces), Verdict::Fails) => false_text(c),
        (Statement::Lemma(Mode::ExistsTrace), Verdict::Holds) => true_text(c),
        (Statement::Lemma(Mode::ExistsTrace), Verdict::Fails) => b" on this run",
    }
}

// The verdict, with the cost where that is too high.
fn push_words(text: &mut Text, v: Verdict) -> Result<(), Mem>
    ensures { OnOk result (text.new ≡ text.old ++ verdict_words v) }
{
    match v {
        Verdict::Holds => text.push_bytes(b"holds"),
        Verdict::Fails => text.push_bytes(b"fails"),
        Verdict::TooCostly { cost } => {
            text.push_bytes(b"too costly: ")?;
            text.push_number(cost)?;
            text.push_bytes(b", the most is 10000000")
        }
    }
}

// The number of the line that shows the time.
pub(crate) fn number_of(lines: &[u64], k: u64) -> u64
    ensures { result ≡ number_or_none (slice_get lines.now k) }
{
    match lines.get(k as usize) {
        Some(n) => *n,
        None => 0,
    }
}

// A variable and what it stands for.
fn push_choice(text: &mut Text, names: &Names, lines: &[u64], c: &Chosen<'_>) -> Result<(), Mem>
    ensures { OnOk result (text.new ≡ text.old ++ choice_text names.now lines.now (chosen_value c.now).binder (chosen_value c.now).value) }
{
    match (c.binder, c.value) {
        (Binder::Message(v), Value::Term(t)) => {
            push_variable(text, v)?;
            text.push_bytes(b" = ")?;
            push_term(text, names, t)
        }
        (Binder::Time(n), Value::Time(k)) => {
            text.push_bytes(b"#")?;
            text.push_bytes(n.as_bytes())?;
            text.push_bytes(b" = line ")?;
            text.push_number(number_of(lines, k))
        }
        _ => Ok(()),
    }
}

// The reason, where choices are told.
fn push_reason(
    text: &mut Text,
    names: &Names,
    lines: &[u64],
    reason: &[Chosen<'_>],
) -> Result<(), Mem>
    ensures { OnOk result (text.new ≡ text.old ++ reason_text names.now lines.now (map chosen_value reason.now)) }
{
    if reason.len() == 0 {
        return Ok(());
    }
    text.push_bytes(b" -- ")?;
    push_choice(text, names, lines, &reason[0])?;
    push_more(text, names, lines, reason)
}

// All choices but the first, each behind a comma.
#[tactic(auto, using(crate::proofs::Choices::choice_laws))]
fn push_more(
    text: &mut Text,
    names: &Names,
    lines: &[u64],
    reason: &[Chosen<'_>],
) -> Result<(), Mem>
    ensures { OnOk result (text.new ≡ text.old ++ more_choices names.now lines.now (map chosen_value (drop 1 reason.now))) }
{
    for k in 1..reason.len() {
        push_next(text, names, lines, &reason[k])?;
    }
    Ok(())
}

// A choice behind a comma.
fn push_next(text: &mut Text, names: &Names, lines: &[u64], c: &Chosen<'_>) -> Result<(), Mem>
    ensures { OnOk result (text.new ≡ text.old ++ (codes ", " ++ choice_text names.now lines.now (chosen_value c.now).binder (chosen_value c.now).value)) }
{
    text.push_bytes(b", ")?;
    push_choice(text, names, lines, c)
}

// Puts last the line of a formula.
fn push_line(
    text: &mut Text,
    names: &Names,
    lines: &[u64],
    standing: Standing,
    y: &Finding<'_>,
) -> Result<(), Mem>
    ensures { OnOk result (text.new ≡ text.old ++ verdict_line names.now lines.now standing (found y.now)) }
{
    text.push_bytes(y.name.as_bytes())?;
    text.push_bytes(kind_text(y.what))?;
    text.push_bytes(b": ")?;
    push_words(text, y.verdict)?;
    text.push_bytes(conclusion(y.what, y.verdict, standing))?;
    push_reason(text, names, lines, y.reason.as_slice())
}

// The same with its line feed.
fn push_whole(
    text: &mut Text,
    names: &Names,
    lines: &[u64],
    standing: Standing,
    y: &Finding<'_>,
) -> Result<(), Mem>
    ensures { OnOk result (text.new ≡ text.old ++ (verdict_line names.now lines.now standing (found y.now) ++ codes "\n")) }
{
    push_line(text, names, lines, standing, y)?;
    text.push_bytes(b"\n")
}

/// Puts last the lines of these findings: what each formula is, its verdict, what that says of the file, and why. Times are told by
/// the numbers of these lines, the first time by the first.
pub fn push_verdicts(
    text: &mut Text,
    names: &Names,
    lines: &[u64],
    findings: &[Finding<'_>],
) -> Result<(), Mem>
    ensures { OnOk result (text.new ≡ text.old ++ verdicts_text names.now lines.now (map found findings.now)) }
{
    let standing = standing_of(findings);
    for k in 0..findings.len() {
        push_whole(text, names, lines, standing, &findings[k])?;
    }
    Ok(())
}

/// The same lines one by one, without line feeds.
pub fn verdict_lines(
    alloc: Global,
    names: &Names,
    lines: &[u64],
    findings: &[Finding<'_>],
) -> Result<Items<Text>, Mem>
    ensures { IfOk result (λ ts. ts ≡ verdict_lines names.now lines.now (map found findings.now)) }
{
    let standing = standing_of(findings);
    let mut out = Items::new(alloc);
    for k in 0..findings.len() {
        push_line_of(alloc, names, lines, standing, &findings[k], &mut out)?;
    }
    Ok(out)
}

// Puts the line last of these.
fn push_line_of(
    alloc: Global,
    names: &Names,
    lines: &[u64],
    standing: Standing,
    y: &Finding<'_>,
    out: &mut Items<Text>,
) -> Result<(), Mem>
    ensures { OnOk result (out.new ≡ out.old ++ verdict_line names.now lines.now standing (found y.now) ∷ []) }
{
    let mut text = Text::new(alloc);
    push_line(&mut text, names, lines, standing, y)?;
    out.push(text)
}
