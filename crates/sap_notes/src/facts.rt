//! The facts that formulas speak of, and those that a process shows.
ghost use Rattle.std.specs.Prelude.{◌≡◌, ◌++◌, ◌∷◌, [], IfOk, OnOk, map};
ghost use Rattle.std.specs.List.{flat_map};
ghost use Rattle.sap_formula.specs.View.{form};
ghost use Rattle.sap_process.specs.Proc.{proc};
ghost use Rattle.sap_statements.specs.Statements.{formula_of};
ghost use Rattle.sap_notes.specs.Facts.{all_shown, by_arity, fact_key, formula_facts, process_shown};
ghost use Rattle.sap_notes.specs.code.Gathered.{gathered};

use sap_formula::Formula;
use sap_process::Process;
use sap_statements::Statement;
use sap_terms::{Fact, FactList, Items, Mem, Name, NameSet};
use sap_text::Text;
use std::alloc::Global;

// A name and a number of arguments.
fn by_arity(alloc: Global, name: &[u8], count: u64) -> Result<Name, Mem>
    ensures { IfOk result (λ n. n ≡ by_arity name.now count) }
{
    let mut text = Text::new(alloc);
    text.push_bytes(name)?;
    text.push_byte(b'/')?;
    text.push_number(count)?;
    Name::from_bytes(alloc, text.as_bytes())
}

/// A fact by its name and how many arguments it has.
pub(crate) fn key_of(alloc: Global, fact: &Fact) -> Result<Name, Mem>
    ensures { IfOk result (λ n. n ≡ fact_key fact.now) }
{
    by_arity(alloc, fact.name.as_bytes(), fact.args.len())
}

// Adds the fact.
fn add_fact(alloc: Global, names: &mut NameSet, fact: &Fact) -> Result<(), Mem>
    ensures { OnOk result (names.new ≡ gathered names.old (fact_key fact.now ∷ [])) }
{
    let key = key_of(alloc, fact)?;
    names.insert(&key)?;
    Ok(())
}

// Adds these facts.
#[tactic(auto, using(crate::proofs::Gathered::gathered_laws))]
fn add_facts(alloc: Global, names: &mut NameSet, facts: &FactList) -> Result<(), Mem>
    ensures { OnOk result (names.new ≡ gathered names.old (map fact_key facts.now)) }
{
    for fact in facts.as_slice() {
        add_fact(alloc, names, fact)?;
    }
    Ok(())
}

// Adds what the places of the process show. It recurses as deep as the process.
#[tactic(auto, using(crate::proofs::Gathered::gathered_laws))]
fn add_shown(alloc: Global, names: &mut NameSet, p: &Process) -> Result<(), Mem>
    ensures { OnOk result (names.new ≡ gathered names.old (process_shown (proc p.now))) }
{
    match p {
        Process::Nil => Ok(()),
        Process::Event(fact, q) => {
            add_fact(alloc, names, fact)?;
            add_shown(alloc, names, q)
        }
        Process::Embedded(_, acts, _, q) => {
            add_facts(alloc, names, acts)?;
            add_shown(alloc, names, q)
        }
        Process::Par(q, r) | Process::If(_, _, q, r) | Process::Lookup(_, _, q, r) => {
            add_shown(alloc, names, q)?;
            add_shown(alloc, names, r)
        }
        Process::Rep(q)
        | Process::New(_, q)
        | Process::Out(_, q)
        | Process::Send(_, _, q)
        | Process::In(_, q)
        | Process::Recv(_, _, q)
        | Process::Insert(_, _, q)
        | Process::Delete(_, q)
        | Process::Lock(_, _, q)
        | Process::Unlock(_, _, q) => add_shown(alloc, names, q),
    }
}

/// What is shown where the process runs: what its places show, and what the adversary knows. It takes time in proportion to the process,
/// where each fact is looked for by its order, and recurses as deep. Want of memory is the only error.
pub(crate) fn shown_by(alloc: Global, p: &Process) -> Result<NameSet, Mem>
    ensures { IfOk result (λ names. names ≡ gathered [] (all_shown (proc p.now))) }
{
    let mut names = NameSet::new(alloc);
    let known = by_arity(alloc, b"K", 1)?;
    names.insert(&known)?;
    add_shown(alloc, &mut names, p)?;
    Ok(names)
}

// Adds the facts of the formula. It recurses as deep as the formula.
#[tactic(auto, using(crate::proofs::Gathered::gathered_laws))]
fn add_formula_facts(alloc: Global, names: &mut NameSet, formula: &Formula) -> Result<(), Mem>
    ensures { OnOk result (names.new ≡ gathered names.old (formula_facts (form formula.now))) }
{
    match formula {
        Formula::True
        | Formula::False
        | Formula::Same(_, _)
        | Formula::Less(_, _)
        | Formula::Equal(_, _) => Ok(()),
        Formula::Action(fact, _) => add_fact(alloc, names, fact),
        Formula::Not(f) | Formula::All(_, f) | Formula::Ex(_, f) => {
            add_formula_facts(alloc, names, f)
        }
        Formula::And(f, g) | Formula::Or(f, g) | Formula::Imp(f, g) | Formula::Iff(f, g) => {
            add_formula_facts(alloc, names, f)?;
            add_formula_facts(alloc, names, g)
        }
    }
}

/// The facts of the formulas of these restrictions and lemmas. It takes time in proportion to these, where each fact is looked for by its
/// order, and recurses as deep. Want of memory is the only error.
#[tactic(auto, using(crate::proofs::Gathered::gathered_laws))]
pub(crate) fn facts_of(alloc: Global, statements: &Items<Statement>) -> Result<NameSet, Mem>
    ensures { IfOk result (λ names. names ≡ gathered [] (flat_map formula_facts (map formula_of statements.now))) }
{
    let mut names = NameSet::new(alloc);
    for statement in statements.as_slice() {
        add_formula_facts(alloc, &mut names, statement.formula())?;
    }
    Ok(names)
}
