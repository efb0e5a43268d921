//! The names of the variables that a formula guards.
ghost use Rattle.std.specs.Prelude.{◌≡◌, ℕ, List, IfOk, OnOk};
ghost use Rattle.std.specs.List.{list_any};
ghost use Rattle.std.specs.Str.{bytes_eq};
ghost use Rattle.sap_formula.specs.code.Tests.{Adds, stands, stands_in, stands_in_any};
ghost use Rattle.sap_formula.specs.View.{form};
ghost use Rattle.sap_terms.specs.Tree.{trees_of};
ghost use Rattle.sap_terms.specs.View.{tree};

use crate::Formula;
use sap_terms::{Mem, Name, NameSet, Term, TermList};
use std::alloc::Global;

// Adds the name.
fn note(names: &mut NameSet, name: &Name) -> Result<(), Mem>
    ensures { OnOk result (Adds (λ n. bytes_eq name.now n) names.old names.new) }
{
    names.insert(name)?;
    Ok(())
}

// Adds those of the variables in the term.
#[cycle(note_term)]
fn note_term(names: &mut NameSet, t: &Term) -> Result<(), Mem>
    ensures { OnOk result (Adds (λ n. stands_in n (tree t.now)) names.old names.new) }
{
    match t {
        Term::Var(v) => note(names, &v.name),
        Term::App(_, ts) => note_terms(names, ts),
        _ => Ok(()),
    }
}

#[cycle(note_term)]
#[tactic(auto, using(crate::proofs::Firsts::list_laws))]
fn note_terms(names: &mut NameSet, ts: &TermList) -> Result<(), Mem>
    ensures { OnOk result (Adds (λ n. stands_in_any n (trees_of ts.now)) names.old names.new) }
{
    for k in 0..ts.len() {
        note_term(names, ts.at(k))?;
    }
    Ok(())
}

// Adds those of the variables in action atoms among the conjuncts.
fn note_guards(names: &mut NameSet, f: &Formula) -> Result<(), Mem>
    ensures { OnOk result (Adds (λ n. stands n (form f.now)) names.old names.new) }
{
    match f {
        Formula::And(f, g) => {
            note_guards(names, g)?;
            note_guards(names, f)
        }
        Formula::Action(f, i) => {
            note_terms(names, &f.args)?;
            note(names, i)
        }
        _ => Ok(()),
    }
}

// The names of the variables in action atoms among the conjuncts.
pub(crate) fn guard_names(alloc: Global, f: &Formula) -> Result<NameSet, Mem>
    ensures { IfOk result (λ names. (n : List ℕ) → list_any (bytes_eq n) names ≡ stands n (form f.now)) }
{
    let mut names = NameSet::new(alloc);
    note_guards(&mut names, f)?;
    Ok(names)
}
