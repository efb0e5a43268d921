//! The binding of the variables that stand in terms: the first occurrence of each name that isn't in scope.
ghost use Rattle.std.specs.Prelude.{◌≡◌, ◌++◌, OnOk};
ghost use Rattle.sap_terms.specs.Tree.{trees_of};
ghost use Rattle.sap_terms.specs.Variables.{tree_vars, trees_vars, facts_vars};
ghost use Rattle.sap_terms.specs.View.{tree};
ghost use Rattle.sap_process.specs.code.Binders.{with_new};

use crate::scope::Scope;
use sap_terms::{FactList, Mem, Term, TermList};
use std::alloc::Global;

// Binds those of the term.
#[cycle(bind)]
#[tactic(auto, using(crate::proofs::NewVars::new_laws))]
pub(crate) fn bind_term(alloc: Global, scope: &mut Scope, t: &Term) -> Result<(), Mem>
    ensures { OnOk result (scope.new ≡ with_new scope.old (tree_vars (tree t.now))) }
{
    match t {
        Term::Var(v) => scope.push_new(alloc, v),
        Term::App(_, ts) => bind_terms(alloc, scope, ts),
        _ => Ok(()),
    }
}

// Those of these terms, one term after another.
#[cycle(bind)]
#[tactic(auto, using(crate::proofs::NewVars::new_laws))]
fn bind_terms(alloc: Global, scope: &mut Scope, ts: &TermList) -> Result<(), Mem>
    ensures { OnOk result (scope.new ≡ with_new scope.old (trees_vars (trees_of ts.now))) }
{
    for k in 0..ts.len() {
        bind_term(alloc, scope, ts.at(k))?;
    }
    Ok(())
}

// Those of the facts, one fact after another.
#[tactic(auto, using(crate::proofs::NewVars::new_laws))]
pub(crate) fn bind_facts(alloc: Global, scope: &mut Scope, fs: &FactList) -> Result<(), Mem>
    ensures { OnOk result (scope.new ≡ with_new scope.old (facts_vars fs.now)) }
{
    for f in fs.as_slice() {
        bind_terms(alloc, scope, &f.args)?;
    }
    Ok(())
}

// Those of two lists of facts.
#[tactic(auto, using(crate::proofs::NewVars::new_facts))]
pub(crate) fn bind_both(
    alloc: Global,
    scope: &mut Scope,
    fs: &FactList,
    hs: &FactList,
) -> Result<(), Mem>
    ensures { OnOk result (scope.new ≡ with_new scope.old (facts_vars (fs.now ++ hs.now))) }
{
    bind_facts(alloc, scope, fs)?;
    bind_facts(alloc, scope, hs)
}

// Those of the three sides of a rule.
#[tactic(auto, using(crate::proofs::NewVars::new_facts))]
pub(crate) fn bind_rule(
    alloc: Global,
    scope: &mut Scope,
    l: &FactList,
    e: &FactList,
    r: &FactList,
) -> Result<(), Mem>
    ensures { OnOk result (scope.new ≡ with_new scope.old (facts_vars (l.now ++ (e.now ++ r.now)))) }
{
    bind_facts(alloc, scope, l)?;
    bind_both(alloc, scope, e, r)
}
