//! Tests of what stands at the head of a process.
ghost use Rattle.std.specs.Prelude.{◌≡◌, ◌++◌, not, ◌||◌};
ghost use Rattle.std.specs.List.{list_any};
ghost use Rattle.std.specs.Option.{option_copied};
ghost use Rattle.sap_terms.specs.Tree.{trees_of};
ghost use Rattle.sap_process.specs.Heads.{head_terms, head_vars, binder, listed, facts_terms, patterns, stored_facts, shown_facts};
ghost use Rattle.sap_process.specs.Proc.{proc};
ghost use Rattle.sap_terms.specs.TermTests.{is_over, are_over, has_destructor, any_has_destructor, has_arity};
ghost use Rattle.sap_process.specs.code.Tests.{binds_constant, is_reserved_var, is_reserved_fact};
ghost use Rattle.sap_terms.specs.Signature.{arity_of};

use crate::occurrences::{any_at_head, is_reserved_var};
use crate::scope::Scope;
use crate::{Flaw, Process};
use sap_terms::{FactList, Name, Signature, Sort, Var, is_reserved};

// The variable that `new` or `lookup` binds.
pub(crate) fn binder(p: &Process) -> Option<&Var>
    ensures { option_copied result ≡ binder (proc p.now) }
{
    match p {
        Process::New(x, _) | Process::Lookup(_, x, _, _) => Some(x),
        _ => None,
    }
}

// Whether a term at the head applies a symbol badly, or a constant is bound.
pub(crate) fn is_bad_head(sig: &Signature, p: &Process) -> bool
    ensures { result ≡ (not (are_over sig.now (trees_of (head_terms (proc p.now))))
        || binds_constant sig.now (proc p.now)) }
{
    !is_head_over(sig, p) || binds_constant(sig, p)
}

fn binds_constant(sig: &Signature, p: &Process) -> bool
    ensures { result ≡ binds_constant sig.now (proc p.now) }
{
    match p {
        Process::New(x, _) => x.sort == Sort::Msg && is_held_constant(sig, &x.name),
        Process::Lookup(_, x, _, _) => is_held_constant(sig, &x.name),
        _ => false,
    }
}

fn is_held_constant(sig: &Signature, name: &Name) -> bool
    ensures { result ≡ has_arity (arity_of sig.now name.now) 0 }
{
    match sig.arity(name) {
        Some(n) => n == 0,
        None => false,
    }
}

// Whether each symbol of the terms at the head is held with its arity.
#[tactic(auto, using(crate::proofs::TermTests::over_lists))]
fn is_head_over(sig: &Signature, p: &Process) -> bool
    ensures { result ≡ are_over sig.now (trees_of (head_terms (proc p.now))) }
{
    match p {
        Process::Nil | Process::Par(_, _) | Process::Rep(_) | Process::New(_, _) => true,
        Process::Out(t, _)
        | Process::In(t, _)
        | Process::Delete(t, _)
        | Process::Lookup(t, _, _, _)
        | Process::Lock(t, _, _)
        | Process::Unlock(t, _, _) => sig.is_over(t),
        Process::Send(t, u, _)
        | Process::Recv(t, u, _)
        | Process::If(t, u, _, _)
        | Process::Insert(t, u, _) => sig.is_over(t) && sig.is_over(u),
        Process::Event(f, _) => sig.are_over(&f.args),
        Process::Embedded(l, e, r, _) => {
            are_facts_over(sig, l) && are_facts_over(sig, e) && are_facts_over(sig, r)
        }
    }
}

#[tactic(auto, using(crate::proofs::TermTests::over_lists))]
fn are_facts_over(sig: &Signature, fs: &FactList) -> bool
    ensures { result ≡ are_over sig.now (trees_of (facts_terms fs.now)) }
{
    for f in fs.as_slice() {
        if !sig.are_over(&f.args) {
            return false;
        }
    }
    true
}

// Whether a variable at the head has a reserved name.
#[tactic(auto, using(crate::proofs::VarLists::any_laws))]
pub(crate) fn has_reserved_var(scope: &Scope, p: &Process) -> bool
    ensures { result ≡ list_any is_reserved_var (head_vars (proc p.now)) }
{
    binds_reserved_var(p) || any_at_head(Flaw::ReservedVar, scope, p)
}

fn binds_reserved_var(p: &Process) -> bool
    ensures { result ≡ list_any is_reserved_var (listed (binder (proc p.now))) }
{
    match binder(p) {
        Some(x) => is_reserved_var(x),
        None => false,
    }
}

// Whether a fact at the head has a reserved name.
pub(crate) fn has_reserved_fact(p: &Process) -> bool
    ensures { result ≡ list_any is_reserved_fact (stored_facts (proc p.now) ++ shown_facts (proc p.now)) }
{
    match p {
        Process::Event(f, _) => is_reserved(&f.name),
        Process::Embedded(l, e, r, _) => {
            any_is_reserved(l) || any_is_reserved(r) || any_is_reserved(e)
        }
        _ => false,
    }
}

fn any_is_reserved(fs: &FactList) -> bool
    ensures { result ≡ list_any is_reserved_fact fs.now }
{
    fs.as_slice().iter().any(|f| is_reserved(&f.name))
}

// Whether a pattern has a destructor.
#[tactic(auto, using(crate::proofs::TermTests::destructor_lists))]
pub(crate) fn has_pattern_destructor(sig: &Signature, p: &Process) -> bool
    ensures { result ≡ any_has_destructor sig.now (trees_of (patterns (proc p.now))) }
{
    match p {
        Process::In(t, _) | Process::Recv(_, t, _) => sig.has_destructor(t),
        Process::Embedded(l, _, _, _) => any_fact_has_destructor(sig, l),
        _ => false,
    }
}

#[tactic(auto, using(crate::proofs::TermTests::destructor_lists))]
fn any_fact_has_destructor(sig: &Signature, fs: &FactList) -> bool
    ensures { result ≡ any_has_destructor sig.now (trees_of (facts_terms fs.now)) }
{
    for f in fs.as_slice() {
        if sig.any_has_destructor(&f.args) {
            return true;
        }
    }
    false
}
