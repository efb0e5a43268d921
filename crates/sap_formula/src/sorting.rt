//! Terms and atoms with the sorts of binders.
ghost use Rattle.std.specs.Prelude.{◌≡◌, IfOk, map};
ghost use Rattle.sap_formula.specs.code.Scoped.{binders};
ghost use Rattle.sap_formula.specs.Sorted.{by_binder, sorted_as};
ghost use Rattle.sap_formula.specs.Form.{action, equal};
ghost use Rattle.sap_formula.specs.View.{form};
ghost use Rattle.sap_terms.specs.Choice.{instance};
ghost use Rattle.sap_terms.specs.Modulo.{instance_fact};
ghost use Rattle.sap_terms.specs.View.{tree};
ghost use Rattle.sap_formula.specs.Checked.{find_binder};

use crate::remaking::both;
use crate::scope::{Scope, find_binder};
use crate::{Binder, Formula};
use sap_terms::{Copied, Fact, Mem, Name, Sort, Term, TermList, Var, boxed};
use std::alloc::Global;

// The sort that the variable gets.
fn sort_of(scope: &Scope<'_>, v: &Var) -> Sort
    ensures { result ≡ (sorted_as (find_binder (binders scope.now) v.now.name) v.now).sort }
{
    match find_binder(scope, &v.name) {
        Some(Binder::Message(b)) => b.sort,
        _ => v.sort,
    }
}

fn sorted_var(alloc: Global, scope: &Scope<'_>, v: &Var) -> Result<Term, Mem>
    ensures { IfOk result (λ r. tree r ≡ by_binder (binders scope.now) v.now) }
{
    let sort = sort_of(scope, v);
    let name = v.name.copy(alloc)?;
    Ok(Term::Var(Var { name, sort }))
}

#[cycle(sorted_term)]
#[tactic(auto, using(crate::proofs::Firsts::sort_laws))]
fn sorted_term(alloc: Global, scope: &Scope<'_>, t: &Term) -> Result<Term, Mem>
    ensures { IfOk result (λ r. tree r ≡ instance (by_binder (binders scope.now)) (tree t.now)) }
{
    match t {
        Term::Var(v) => sorted_var(alloc, scope, v),
        Term::App(f, ts) => {
            let parts = both(f.copy(alloc), sorted_terms(alloc, scope, ts))?;
            Ok(Term::App(parts.0, parts.1))
        }
        _ => t.copy(alloc),
    }
}

#[cycle(sorted_term)]
fn sorted_terms(alloc: Global, scope: &Scope<'_>, ts: &TermList) -> Result<TermList, Mem>
    ensures { IfOk result (λ us. us ≡ map (instance (by_binder (binders scope.now))) ts.now) }
{
    let mut out = TermList::new(alloc);
    for k in 0..ts.len() {
        out.push(sorted_term(alloc, scope, ts.at(k))?)?;
    }
    Ok(out)
}

pub(crate) fn sorted_action(
    alloc: Global,
    scope: &Scope<'_>,
    f: &Fact,
    i: &Name,
) -> Result<Box<Formula>, Mem>
    ensures { IfOk result (λ r. form r.value ≡ action (instance_fact (by_binder (binders scope.now)) f.now) i.now) }
{
    let names = both(f.name.copy(alloc), i.copy(alloc))?;
    let args = sorted_terms(alloc, scope, &f.args)?;
    let fact = Fact {
        name: names.0,
        persistent: f.persistent,
        args,
    };
    boxed(alloc, Formula::Action(fact, names.1))
}

pub(crate) fn sorted_equal(
    alloc: Global,
    scope: &Scope<'_>,
    s: &Term,
    t: &Term,
) -> Result<Box<Formula>, Mem>
    ensures { IfOk result (λ r. form r.value ≡ equal (instance (by_binder (binders scope.now)) (tree s.now)) (instance (by_binder (binders scope.now)) (tree t.now))) }
{
    let two = both(sorted_term(alloc, scope, s), sorted_term(alloc, scope, t))?;
    boxed(alloc, Formula::Equal(two.0, two.1))
}
