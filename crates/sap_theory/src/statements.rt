//! Restrictions and lemmas as text.
ghost use Rattle.std.specs.Prelude.{◌≡◌, ◌++◌, OnOk, codes};
ghost use Rattle.sap_formula.specs.View.{form};
ghost use Rattle.sap_grammar.specs.Pieces.{joined};
ghost use Rattle.sap_theory.specs.StatementText.{quoted, restriction_text, restrictions_text, attributes_text, mode_text, lemma_text, lemmas_text};

use sap_formula::{Formula, Lemma, LemmaList, Mode, Restriction, RestrictionList};
use sap_formula_text::push_formula;
use sap_grammar::push_separator;
use sap_terms::{Mem, NameList};
use sap_text::Text;
use std::alloc::Global;

// The line of a formula.
fn push_quoted(text: &mut Text, alloc: Global, f: &Formula) -> Result<(), Mem>
    ensures { OnOk result (text.new ≡ text.old ++ quoted (form f.now)) }
{
    text.push_bytes(b"  \"")?;
    push_formula(text, alloc, 0, f)?;
    text.push_bytes(b"\"\n")
}

pub(crate) fn push_restrictions(
    text: &mut Text,
    alloc: Global,
    restrictions: &RestrictionList,
) -> Result<(), Mem>
    ensures { OnOk result (text.new ≡ text.old ++ restrictions_text restrictions.now) }
{
    for restriction in restrictions.as_slice() {
        push_restriction(text, alloc, restriction)?;
    }
    Ok(())
}

fn push_restriction(text: &mut Text, alloc: Global, restriction: &Restriction) -> Result<(), Mem>
    ensures { OnOk result (text.new ≡ text.old ++ restriction_text restriction.now) }
{
    text.push_bytes(b"\nrestriction ")?;
    text.push_bytes(restriction.name.as_bytes())?;
    text.push_bytes(b":\n")?;
    push_quoted(text, alloc, &restriction.formula)?;
    Ok(())
}

pub(crate) fn push_lemmas(text: &mut Text, alloc: Global, lemmas: &LemmaList) -> Result<(), Mem>
    ensures { OnOk result (text.new ≡ text.old ++ lemmas_text lemmas.now) }
{
    for lemma in lemmas.as_slice() {
        push_lemma(text, alloc, lemma)?;
    }
    Ok(())
}

fn push_lemma(text: &mut Text, alloc: Global, lemma: &Lemma) -> Result<(), Mem>
    ensures { OnOk result (text.new ≡ text.old ++ lemma_text lemma.now) }
{
    text.push_bytes(b"\nlemma ")?;
    text.push_bytes(lemma.name.as_bytes())?;
    push_attributes(text, &lemma.attributes)?;
    text.push_bytes(b":\n  ")?;
    push_mode(text, lemma.mode)?;
    text.push_bytes(b"\n")?;
    push_quoted(text, alloc, &lemma.formula)?;
    Ok(())
}

fn push_attributes(text: &mut Text, attributes: &NameList) -> Result<(), Mem>
    ensures { OnOk result (text.new ≡ text.old ++ attributes_text attributes.now) }
{
    if attributes.len() == 0 {
        return Ok(());
    }
    text.push_bytes(b" [")?;
    push_names(text, attributes)?;
    text.push_bytes(b"]")
}

fn push_names(text: &mut Text, names: &NameList) -> Result<(), Mem>
    ensures { OnOk result (text.new ≡ text.old ++ joined (codes ", ") names.now) }
{
    let names = names.as_slice();
    for k in 0..names.len() {
        push_separator(text, k as u64, b", ")?;
        text.push_bytes(names[k].as_bytes())?;
    }
    Ok(())
}

fn push_mode(text: &mut Text, mode: Mode) -> Result<(), Mem>
    ensures { OnOk result (text.new ≡ text.old ++ mode_text mode) }
{
    match mode {
        Mode::AllTraces => text.push_bytes(b"all-traces"),
        Mode::ExistsTrace => text.push_bytes(b"exists-trace"),
    }
}
