//! The symbols in the terms of a file.
ghost use Rattle.std.specs.Prelude.{◌≡◌, ◌++◌, [], IfOk, OnOk, map};
ghost use Rattle.std.specs.List.{flat_map};
ghost use Rattle.sap_terms.specs.Tree.{trees_of};
ghost use Rattle.sap_terms.specs.View.{tree};
ghost use Rattle.sap_formula.specs.View.{form};
ghost use Rattle.sap_macro.specs.Sources.{definition_of, definitions, doing, written};
ghost use Rattle.sap_statements.specs.Statements.{formula_of};
ghost use Rattle.sap_notes.specs.Symbols.{action_symbols, definition_symbols, fact_symbols, facts_symbols, formula_symbols, process_symbols, term_symbols, terms_symbols};
ghost use Rattle.sap_notes.specs.code.Gathered.{gathered};

use sap_formula::Formula;
use sap_macro::{Definition, DefinitionList, Doing, Source};
use sap_statements::Statement;
use sap_terms::{Fact, FactList, Items, Mem, NameSet, Term, TermList};
use std::alloc::Global;

// Adds the symbols of the term. It recurses as deep as the term.
#[cycle(terms)]
fn add_term(names: &mut NameSet, t: &Term) -> Result<(), Mem>
    ensures { OnOk result (names.new ≡ gathered names.old (term_symbols (tree t.now))) }
{
    match t {
        Term::App(f, ts) => {
            names.insert(f)?;
            add_terms(names, ts)
        }
        _ => Ok(()),
    }
}

// Adds those of these terms.
#[cycle(terms)]
#[tactic(auto, using(crate::proofs::Gathered::gathered_laws))]
fn add_terms(names: &mut NameSet, ts: &TermList) -> Result<(), Mem>
    ensures { OnOk result (names.new ≡ gathered names.old (terms_symbols (trees_of ts.now))) }
{
    for k in 0..ts.len() {
        add_term(names, ts.at(k))?;
    }
    Ok(())
}

// Adds those of both terms.
#[tactic(auto, using(crate::proofs::Gathered::gathered_laws))]
fn add_both(names: &mut NameSet, t: &Term, u: &Term) -> Result<(), Mem>
    ensures { OnOk result (names.new ≡ gathered names.old (term_symbols (tree t.now) ++ term_symbols (tree u.now))) }
{
    add_term(names, t)?;
    add_term(names, u)
}

// Adds those of the fact's terms.
fn add_fact(names: &mut NameSet, fact: &Fact) -> Result<(), Mem>
    ensures { OnOk result (names.new ≡ gathered names.old (fact_symbols fact.now)) }
{
    add_terms(names, &fact.args)
}

// Adds those of the facts' terms.
#[tactic(auto, using(crate::proofs::Gathered::gathered_laws))]
fn add_facts(names: &mut NameSet, facts: &FactList) -> Result<(), Mem>
    ensures { OnOk result (names.new ≡ gathered names.old (facts_symbols facts.now)) }
{
    for fact in facts.as_slice() {
        add_fact(names, fact)?;
    }
    Ok(())
}

// Adds those of the three sides of a rule.
#[tactic(auto, using(crate::proofs::Gathered::gathered_laws))]
fn add_rule(
    names: &mut NameSet,
    left: &FactList,
    acts: &FactList,
    right: &FactList,
) -> Result<(), Mem>
    ensures { OnOk result (names.new ≡ gathered names.old (facts_symbols left.now ++ (facts_symbols acts.now ++ facts_symbols right.now))) }
{
    add_facts(names, left)?;
    add_facts(names, acts)?;
    add_facts(names, right)
}

// Adds those of what is done.
fn add_doing(names: &mut NameSet, d: &Doing) -> Result<(), Mem>
    ensures { OnOk result (names.new ≡ gathered names.old (action_symbols (doing d.now))) }
{
    match d {
        Doing::New(_) => Ok(()),
        Doing::Out(t) => add_term(names, t),
        Doing::Send(t, u) => add_both(names, t, u),
        Doing::In(t) => add_term(names, t),
        Doing::Recv(t, u) => add_both(names, t, u),
        Doing::Event(f) => add_fact(names, f),
        Doing::Insert(t, u) => add_both(names, t, u),
        Doing::Delete(t) => add_term(names, t),
        Doing::Lock(t) => add_term(names, t),
        Doing::Unlock(t) => add_term(names, t),
        Doing::Embedded(l, e, r) => add_rule(names, l, e, r),
    }
}

// Adds those of the process. It recurses as deep as the process.
#[tactic(auto, using(crate::proofs::Gathered::gathered_laws))]
fn add_process(names: &mut NameSet, source: &Source) -> Result<(), Mem>
    ensures { OnOk result (names.new ≡ gathered names.old (process_symbols (written source.now))) }
{
    match source {
        Source::Nil(_) => Ok(()),
        Source::Call(_, _, ts) => add_terms(names, ts),
        Source::Par(_, p, q) => {
            add_process(names, p)?;
            add_process(names, q)
        }
        Source::Rep(_, p) => add_process(names, p),
        Source::Act(_, d, p) => {
            add_doing(names, d)?;
            add_process(names, p)
        }
        Source::If(_, t, u, p, q) => {
            add_both(names, t, u)?;
            add_process(names, p)?;
            add_process(names, q)
        }
        Source::Lookup(_, t, _, p, q) => {
            add_term(names, t)?;
            add_process(names, p)?;
            add_process(names, q)
        }
    }
}

// Adds those of the formula. It recurses as deep as the formula.
#[tactic(auto, using(crate::proofs::Gathered::gathered_laws))]
fn add_formula(names: &mut NameSet, formula: &Formula) -> Result<(), Mem>
    ensures { OnOk result (names.new ≡ gathered names.old (formula_symbols (form formula.now))) }
{
    match formula {
        Formula::True | Formula::False | Formula::Same(_, _) | Formula::Less(_, _) => Ok(()),
        Formula::Action(fact, _) => add_fact(names, fact),
        Formula::Equal(t, u) => add_both(names, t, u),
        Formula::Not(f) | Formula::All(_, f) | Formula::Ex(_, f) => add_formula(names, f),
        Formula::And(f, g) | Formula::Or(f, g) | Formula::Imp(f, g) | Formula::Iff(f, g) => {
            add_formula(names, f)?;
            add_formula(names, g)
        }
    }
}

// Adds those of the definition's body.
fn add_definition(names: &mut NameSet, d: &Definition) -> Result<(), Mem>
    ensures { OnOk result (names.new ≡ gathered names.old (definition_symbols (definition_of d.now))) }
{
    add_process(names, &d.body)
}

// Adds those of the definitions' bodies.
#[tactic(auto, using(crate::proofs::Gathered::gathered_laws))]
fn add_bodies(names: &mut NameSet, defs: &DefinitionList) -> Result<(), Mem>
    ensures { OnOk result (names.new ≡ gathered names.old (flat_map definition_symbols (definitions defs.now))) }
{
    for d in defs.as_slice() {
        add_definition(names, d)?;
    }
    Ok(())
}

// Adds those of the formulas of restrictions and lemmas.
#[tactic(auto, using(crate::proofs::Gathered::gathered_laws))]
fn add_statements(names: &mut NameSet, statements: &Items<Statement>) -> Result<(), Mem>
    ensures { OnOk result (names.new ≡ gathered names.old (flat_map formula_symbols (map formula_of statements.now))) }
{
    for statement in statements.as_slice() {
        add_formula(names, statement.formula())?;
    }
    Ok(())
}

/// The symbols in the terms of these definitions, this process, and these restrictions and lemmas. It takes time in proportion to what is
/// written, where each symbol is looked for by its order, and recurses as deep as that. Want of memory is the only error.
#[tactic(auto, using(crate::proofs::Gathered::gathered_laws))]
pub(crate) fn symbols_of(
    alloc: Global,
    defs: &DefinitionList,
    main: &Source,
    statements: &Items<Statement>,
) -> Result<NameSet, Mem>
    ensures { IfOk result (λ names. names ≡ gathered [] (flat_map definition_symbols (definitions defs.now)
        ++ (process_symbols (written main.now) ++ flat_map formula_symbols (map formula_of statements.now)))) }
{
    let mut names = NameSet::new(alloc);
    add_bodies(&mut names, defs)?;
    add_process(&mut names, main)?;
    add_statements(&mut names, statements)?;
    Ok(names)
}
