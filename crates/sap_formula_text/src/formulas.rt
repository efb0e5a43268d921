//! Formulas as text, with brackets where they are needed.
ghost use Rattle.std.specs.Prelude.{◌≡◌, ◌++◌, map, IfOk, OnOk, codes};
ghost use Rattle.sap_terms.specs.View.{tree};
ghost use Rattle.sap_formula.specs.View.{form};
ghost use Rattle.sap_grammar.specs.TermText.{tree_text};
ghost use Rattle.sap_grammar.specs.FactText.{fact_text};
ghost use Rattle.sap_formula_text.specs.code.Chains.{chained, behind_text};
ghost use Rattle.sap_formula_text.specs.FormulaText.{strength, binder_text, binders_text, places_text, formula_text};

use sap_formula::{Binder, Binders, Formula};
use sap_grammar::{push_fact, push_variable, push_whole_term};
use sap_terms::{Fact, Mem, Name, Term};
use sap_text::Text;
use std::alloc::Global;

fn strength(f: &Formula) -> u64
    ensures { result ≡ strength (form f.now) }
{
    match f {
        Formula::True | Formula::False | Formula::Action(_, _) => 6,
        Formula::Equal(_, _) | Formula::Same(_, _) | Formula::Less(_, _) | Formula::Not(_) => 5,
        Formula::And(_, _) => 4,
        Formula::Or(_, _) => 3,
        Formula::Imp(_, _) => 2,
        Formula::Iff(_, _) => 1,
        Formula::All(_, _) | Formula::Ex(_, _) => 0,
    }
}

fn push_binder(text: &mut Text, binder: &Binder) -> Result<(), Mem>
    ensures { OnOk result (text.new ≡ text.old ++ binder_text binder.now) }
{
    match binder {
        Binder::Message(v) => push_variable(text, v),
        Binder::Time(i) => push_place(text, i),
    }
}

fn push_binders(text: &mut Text, binders: &Binders) -> Result<(), Mem>
    ensures { OnOk result (text.new ≡ text.old ++ binders_text binders.now) }
{
    for binder in binders.as_slice() {
        text.push_bytes(b" ")?;
        push_binder(text, binder)?;
    }
    Ok(())
}

fn push_place(text: &mut Text, i: &Name) -> Result<(), Mem>
    ensures { OnOk result (text.new ≡ text.old ++ (codes "#" ++ i.now)) }
{
    text.push_bytes(b"#")?;
    text.push_bytes(i.as_bytes())
}

fn push_action(text: &mut Text, fact: &Fact, i: &Name) -> Result<(), Mem>
    ensures { OnOk result (text.new ≡ text.old ++ (fact_text fact.now ++ (codes "@" ++ i.now))) }
{
    push_fact(text, fact)?;
    text.push_bytes(b"@")?;
    text.push_bytes(i.as_bytes())
}

fn push_equation(text: &mut Text, s: &Term, t: &Term) -> Result<(), Mem>
    ensures { OnOk result (text.new ≡ text.old ++ (tree_text (tree s.now) ++ (codes " = " ++ tree_text (tree t.now)))) }
{
    push_whole_term(text, s)?;
    text.push_bytes(b" = ")?;
    push_whole_term(text, t)
}

fn push_places(text: &mut Text, i: &Name, sign: &[u8], j: &Name) -> Result<(), Mem>
    ensures { OnOk result (text.new ≡ text.old ++ places_text i.now sign.now j.now) }
{
    push_place(text, i)?;
    text.push_bytes(sign)?;
    push_place(text, j)
}

// The first formula of a chain, and those behind it, the last of them first.
fn chain(alloc: Global, f: &Formula) -> Result<(&Formula, Vec<&Formula>), Mem>
    ensures { IfOk result (λ p. form f.now ≡ chained (form p.0.now) (map (λ g. form g.now) p.1.items)) }
{
    let mut first = f;
    let mut behind: Vec<&Formula> = Vec::new(alloc);
    while let Formula::And(left, right) = first {
        behind.push(right)?;
        first = left;
    }
    Ok((first, behind))
}

/// A formula in a place that asks for so much strength. It recurses as deep as the formula, but not along a chain of `&`,
/// leftmost first, of which it keeps a list.
#[cycle(push_formula)]
pub fn push_formula(text: &mut Text, alloc: Global, asked: u64, f: &Formula) -> Result<(), Mem>
    ensures { OnOk result (text.new ≡ text.old ++ formula_text asked (form f.now)) }
{
    if strength(f) >= asked {
        return push_open(text, alloc, f);
    }
    text.push_bytes(b"(")?;
    push_open(text, alloc, f)?;
    text.push_bytes(b")")
}

// A formula in a place that asks for no strength.
#[cycle(push_formula)]
fn push_open(text: &mut Text, alloc: Global, f: &Formula) -> Result<(), Mem>
    ensures { OnOk result (text.new ≡ text.old ++ formula_text 0 (form f.now)) }
{
    match f {
        Formula::True => text.push_bytes(b"T"),
        Formula::False => text.push_bytes(b"F"),
        Formula::Action(fact, i) => push_action(text, fact, i),
        Formula::Equal(s, t) => push_equation(text, s, t),
        Formula::Same(i, j) => push_places(text, i, b" = ", j),
        Formula::Less(i, j) => push_places(text, i, b" < ", j),
        Formula::Not(f) => push_not(text, alloc, f),
        Formula::And(f, g) => push_both(text, alloc, f, g),
        Formula::Or(f, g) => push_two(text, alloc, (3, 4), f, b" | ", g),
        Formula::Imp(f, g) => push_two(text, alloc, (3, 2), f, b" ==> ", g),
        Formula::Iff(f, g) => push_two(text, alloc, (2, 2), f, b" <=> ", g),
        Formula::All(binders, f) => push_quantified(text, alloc, b"All", binders, f),
        Formula::Ex(binders, f) => push_quantified(text, alloc, b"Ex", binders, f),
    }
}

#[cycle(push_formula)]
fn push_not(text: &mut Text, alloc: Global, f: &Formula) -> Result<(), Mem>
    ensures { OnOk result (text.new ≡ text.old ++ (codes "not " ++ formula_text 6 (form f.now))) }
{
    text.push_bytes(b"not ")?;
    push_formula(text, alloc, 6, f)
}

// `f & g`
#[cycle(push_formula)]
fn push_both(text: &mut Text, alloc: Global, f: &Formula, g: &Formula) -> Result<(), Mem>
    ensures { OnOk result (text.new ≡ text.old ++ (formula_text 4 (form f.now) ++ (codes " & " ++ formula_text 5 (form g.now)))) }
{
    push_chain(text, alloc, f)?;
    text.push_bytes(b" & ")?;
    push_formula(text, alloc, 5, g)
}

// What stands in front of an `&`, one formula of the chain after another.
#[cycle(push_formula)]
fn push_chain(text: &mut Text, alloc: Global, f: &Formula) -> Result<(), Mem>
    ensures { OnOk result (text.new ≡ text.old ++ formula_text 4 (form f.now)) }
{
    let (first, behind) = chain(alloc, f)?;
    push_formula(text, alloc, 4, first)?;
    push_behind(text, alloc, behind.as_slice())
}

// Formulas behind the first of a chain, the last of them first.
#[cycle(push_formula)]
fn push_behind(text: &mut Text, alloc: Global, behind: &[&Formula]) -> Result<(), Mem>
    ensures { OnOk result (text.new ≡ text.old ++ behind_text (map (λ g. form g.now) behind.now)) }
{
    let mut left = behind.len();
    while left > 0 {
        left -= 1;
        text.push_bytes(b" & ")?;
        push_formula(text, alloc, 5, behind[left])?;
    }
    Ok(())
}

// Two formulas with a sign between them, and what their places ask for.
#[cycle(push_formula)]
fn push_two(
    text: &mut Text,
    alloc: Global,
    asked: (u64, u64),
    f: &Formula,
    sign: &[u8],
    g: &Formula,
) -> Result<(), Mem>
    ensures { OnOk result (text.new ≡ text.old ++ (formula_text asked.0 (form f.now) ++ (sign.now ++ formula_text asked.1 (form g.now)))) }
{
    push_formula(text, alloc, asked.0, f)?;
    text.push_bytes(sign)?;
    push_formula(text, alloc, asked.1, g)
}

#[cycle(push_formula)]
fn push_quantified(
    text: &mut Text,
    alloc: Global,
    word: &[u8],
    binders: &Binders,
    f: &Formula,
) -> Result<(), Mem>
    ensures { OnOk result (text.new ≡ text.old ++ (word.now ++ (binders_text binders.now ++ (codes ". " ++ formula_text 0 (form f.now))))) }
{
    text.push_bytes(word)?;
    push_binders(text, binders)?;
    text.push_bytes(b". ")?;
    push_formula(text, alloc, 0, f)
}
