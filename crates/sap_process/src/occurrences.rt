//! Tests of each variable that stands at the head of a process.
ghost use Rattle.std.specs.Prelude.{◌≡◌, ◌++◌};
ghost use Rattle.std.specs.List.{list_any};
ghost use Rattle.sap_terms.specs.Tree.{trees_of};
ghost use Rattle.sap_terms.specs.Variables.{tree_vars, trees_vars, facts_vars};
ghost use Rattle.sap_terms.specs.View.{tree};
ghost use Rattle.sap_process.specs.Heads.{terms_vars, head_terms};
ghost use Rattle.sap_process.specs.Proc.{proc};
ghost use Rattle.sap_process.specs.code.Places.{used_terms};
ghost use Rattle.sap_process.specs.code.Tests.{is_reserved_var, has_other_sort, var_flawed};

use crate::scope::Scope;
use crate::{Flaw, Process};
use sap_terms::{FactList, Sort, Term, TermList, Var};

// Whether a variable in the terms at the head has the flaw, where these are in scope.
#[tactic(auto, using(crate::proofs::VarLists::head_laws))]
pub(crate) fn any_at_head(which: Flaw, scope: &Scope, p: &Process) -> bool
    ensures { result ≡ list_any (var_flawed which scope.now) (terms_vars (head_terms (proc p.now))) }
{
    match p {
        Process::Nil | Process::Par(_, _) | Process::Rep(_) | Process::New(_, _) => false,
        Process::Out(t, _)
        | Process::In(t, _)
        | Process::Delete(t, _)
        | Process::Lookup(t, _, _, _)
        | Process::Lock(t, _, _)
        | Process::Unlock(t, _, _) => any_in_term(which, scope, t),
        Process::Send(t, u, _)
        | Process::Recv(t, u, _)
        | Process::If(t, u, _, _)
        | Process::Insert(t, u, _) => any_in_both(which, scope, t, u),
        Process::Event(f, _) => any_in_terms(which, scope, &f.args),
        Process::Embedded(l, e, r, _) => any_in_rule(which, scope, l, e, r),
    }
}

// Whether one has it in the terms that are evaluated before anything is bound.
#[tactic(auto, using(crate::proofs::VarLists::head_laws))]
pub(crate) fn any_used(which: Flaw, scope: &Scope, p: &Process) -> bool
    ensures { result ≡ list_any (var_flawed which scope.now) (terms_vars (used_terms (proc p.now))) }
{
    match p {
        Process::Out(t, _)
        | Process::Recv(t, _, _)
        | Process::Delete(t, _)
        | Process::Lookup(t, _, _, _)
        | Process::Lock(t, _, _)
        | Process::Unlock(t, _, _) => any_in_term(which, scope, t),
        Process::Send(t, u, _) | Process::If(t, u, _, _) | Process::Insert(t, u, _) => {
            any_in_both(which, scope, t, u)
        }
        Process::Event(f, _) => any_in_terms(which, scope, &f.args),
        Process::Nil
        | Process::Par(_, _)
        | Process::Rep(_)
        | Process::New(_, _)
        | Process::In(_, _)
        | Process::Embedded(_, _, _, _) => false,
    }
}

#[cycle(any)]
#[tactic(auto, using(crate::proofs::VarLists::any_vars))]
fn any_in_term(which: Flaw, scope: &Scope, t: &Term) -> bool
    ensures { result ≡ list_any (var_flawed which scope.now) (tree_vars (tree t.now)) }
{
    match t {
        Term::Var(v) => is_flawed(which, scope, v),
        Term::App(_, ts) => any_in_terms(which, scope, ts),
        _ => false,
    }
}

#[cycle(any)]
#[tactic(auto, using(crate::proofs::VarLists::any_vars))]
fn any_in_terms(which: Flaw, scope: &Scope, ts: &TermList) -> bool
    ensures { result ≡ list_any (var_flawed which scope.now) (trees_vars (trees_of ts.now)) }
{
    for k in 0..ts.len() {
        if any_in_term(which, scope, ts.at(k)) {
            return true;
        }
    }
    false
}

#[tactic(auto, using(crate::proofs::VarLists::any_laws))]
fn any_in_both(which: Flaw, scope: &Scope, t: &Term, u: &Term) -> bool
    ensures { result ≡ list_any (var_flawed which scope.now) (tree_vars (tree t.now) ++ tree_vars (tree u.now)) }
{
    any_in_term(which, scope, t) || any_in_term(which, scope, u)
}

#[tactic(auto, using(crate::proofs::VarLists::any_vars))]
fn any_in_facts(which: Flaw, scope: &Scope, fs: &FactList) -> bool
    ensures { result ≡ list_any (var_flawed which scope.now) (facts_vars fs.now) }
{
    for f in fs.as_slice() {
        if any_in_terms(which, scope, &f.args) {
            return true;
        }
    }
    false
}

#[tactic(auto, using(crate::proofs::VarLists::any_rule))]
fn any_in_rule(which: Flaw, scope: &Scope, l: &FactList, e: &FactList, r: &FactList) -> bool
    ensures { result ≡ list_any (var_flawed which scope.now) (facts_vars (l.now ++ (e.now ++ r.now))) }
{
    any_in_facts(which, scope, l) || any_in_facts(which, scope, e) || any_in_facts(which, scope, r)
}

// Whether the variable has the flaw.
fn is_flawed(which: Flaw, scope: &Scope, v: &Var) -> bool
    ensures { result ≡ var_flawed which scope.now v.now }
{
    match which {
        Flaw::ReservedVar => is_reserved_var(v),
        Flaw::Unbound => !scope.knows(&v.name),
        Flaw::SortClash => has_other_sort(scope, v),
        _ => false,
    }
}

pub(crate) fn is_reserved_var(v: &Var) -> bool
    ensures { result ≡ is_reserved_var v.now }
{
    v.name.as_bytes().starts_with(b"sapic_")
}

fn has_other_sort(scope: &Scope, v: &Var) -> bool
    ensures { result ≡ has_other_sort scope.now v.now }
{
    if v.sort == Sort::Msg {
        return false;
    }
    match scope.sort_of(&v.name) {
        Some(s) => s != v.sort,
        None => false,
    }
}
