//! Facts as text.
ghost use Rattle.std.specs.Prelude.{◌≡◌, ◌++◌, OnOk};
ghost use Rattle.sap_grammar.specs.FactText.{fact_text, fact_list, facts_text, arrow_text};

use crate::pieces::push_separator;
use crate::term_text::push_terms;
use sap_terms::{Fact, FactList, Mem};
use sap_text::Text;

/// Its name and its arguments, behind `!` where it is persistent. It recurses as deep as the terms that it is given.
pub fn push_fact(text: &mut Text, fact: &Fact) -> Result<(), Mem>
    ensures { OnOk result (text.new ≡ text.old ++ fact_text fact.now) }
{
    if fact.persistent {
        text.push_byte(b'!')?;
    }
    text.push_bytes(fact.name.as_bytes())?;
    text.push_byte(b'(')?;
    push_terms(text, &fact.args)?;
    text.push_byte(b')')
}

fn push_each_fact(text: &mut Text, facts: &FactList) -> Result<(), Mem>
    ensures { OnOk result (text.new ≡ text.old ++ fact_list facts.now) }
{
    let facts = facts.as_slice();
    for k in 0..facts.len() {
        push_separator(text, k as u64, b", ")?;
        push_fact(text, &facts[k])?;
    }
    Ok(())
}

/// One side of a rule. It recurses as deep as the terms that it is given.
pub fn push_facts(text: &mut Text, facts: &FactList) -> Result<(), Mem>
    ensures { OnOk result (text.new ≡ text.old ++ facts_text facts.now) }
{
    if facts.len() == 0 {
        return text.push_bytes(b"[ ]");
    }
    text.push_bytes(b"[ ")?;
    push_each_fact(text, facts)?;
    text.push_bytes(b" ]")
}

/// The arrow between the sides, with the acts in it.
pub fn push_arrow(text: &mut Text, acts: &FactList) -> Result<(), Mem>
    ensures { OnOk result (text.new ≡ text.old ++ arrow_text acts.now) }
{
    if acts.len() == 0 {
        return text.push_bytes(b" --> ");
    }
    text.push_bytes(b" --[ ")?;
    push_each_fact(text, acts)?;
    text.push_bytes(b" ]-> ")
}
