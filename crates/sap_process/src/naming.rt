//! What the head of a process binds, and tests of its names against those in scope.
ghost use Rattle.std.specs.Prelude.{◌≡◌, [], ◌∷◌, ◌++◌, IfOk, OnOk};
ghost use Rattle.sap_terms.specs.Variables.{facts_vars};
ghost use Rattle.sap_process.specs.Action.{embedded};
ghost use Rattle.sap_process.specs.Proc.{proc};
ghost use Rattle.sap_process.specs.Flaws.{unbound, unbound_at, scope_at};
ghost use Rattle.sap_process.specs.Sites.{message_var};
ghost use Rattle.sap_process.specs.code.Binders.{with_new};
ghost use Rattle.sap_process.specs.code.Tests.{has_items, rebinds, tested_at};

use crate::binding::{bind_both, bind_facts, bind_rule, bind_term};
use crate::heads::binder;
use crate::occurrences::any_used;
use crate::scope::Scope;
use crate::{Flaw, Process};
use sap_terms::{Copied, FactList, MOST_SCOPE_NAMES, Mem, Sort, Var};
use std::alloc::Global;

// A copy of the variable, of this sort.
pub(crate) fn with_sort(alloc: Global, x: &Var, sort: Sort) -> Result<Var, Mem>
    ensures { IfOk result (λ y. y ≡ record { name = x.now.name; sort = sort }) }
{
    Ok(Var {
        name: x.name.copy(alloc)?,
        sort,
    })
}

// Binds what the head of the process binds for what follows; the binder of `lookup` isn't in scope in its second branch.
pub(crate) fn bind(alloc: Global, scope: &mut Scope, p: &Process) -> Result<(), Mem>
    ensures { OnOk result (scope.new ≡ scope_at scope.old (proc p.now)) }
{
    match p {
        Process::New(x, _) => scope.push(with_sort(alloc, x, Sort::Fresh)?),
        Process::In(t, _) | Process::Recv(_, t, _) => bind_term(alloc, scope, t),
        Process::Embedded(l, e, r, _) => bind_rule(alloc, scope, l, e, r),
        _ => Ok(()),
    }
}

// Puts what a lookup binds into scope.
pub(crate) fn bind_message(alloc: Global, scope: &mut Scope, x: &Var) -> Result<(), Mem>
    ensures { OnOk result (scope.new ≡ scope.old ++ message_var x.now ∷ []) }
{
    scope.push(with_sort(alloc, x, Sort::Msg)?)
}

// What is tested of a place before its head binds: whether a fact there clashes with an earlier one, whether a name is used that
// nothing in scope binds, whether the binder names what is in scope already, and whether more is in scope than may be.
#[derive(Clone, Copy)]
pub(crate) struct Tested {
    pub(crate) clash: bool,
    pub(crate) unbound: bool,
    pub(crate) rebound: bool,
    pub(crate) full: bool,
}

// Tests the place and binds what its head binds, so that this is bound once a place.
pub(crate) fn test(
    alloc: Global,
    scope: &mut Scope,
    locks: u64,
    clash: bool,
    p: &Process,
) -> Result<Tested, Mem>
    ensures tested { IfOk result (λ t. t ≡ tested_at clash scope.old locks (proc p.now)) }
    ensures bound { OnOk result (scope.new ≡ scope_at scope.old (proc p.now)) }
{
    let full = scope.len().saturating_add(locks) > MOST_SCOPE_NAMES;
    let rebound = is_rebound(scope, p);
    let unbound = bind_using(alloc, scope, p)?;
    Ok(Tested {
        clash,
        unbound,
        rebound,
        full,
    })
}

// Binds what the head of the process binds; whether a name is used that nothing in scope binds.
#[tactic(auto, using(crate::proofs::VarLists::unbound_laws))]
fn bind_using(alloc: Global, scope: &mut Scope, p: &Process) -> Result<bool, Mem>
    ensures found { IfOk result (λ b. b ≡ has_items (unbound scope.old (proc p.now))) }
    ensures bound { OnOk result (scope.new ≡ scope_at scope.old (proc p.now)) }
{
    match p {
        Process::Embedded(l, e, r, _) => bind_rule_using(alloc, scope, l, e, r),
        _ => {
            let found = any_used(Flaw::Unbound, scope, p);
            bind(alloc, scope, p)?;
            Ok(found)
        }
    }
}

// The same of an embedded rule, which binds what it takes and what is first written `$x`.
#[tactic(auto, using(crate::proofs::NewVars::unbound_rule))]
fn bind_rule_using(
    alloc: Global,
    scope: &mut Scope,
    l: &FactList,
    e: &FactList,
    r: &FactList,
) -> Result<bool, Mem>
    ensures found { IfOk result (λ b. b ≡ has_items (unbound_at scope.old (embedded l.now e.now r.now))) }
    ensures bound { OnOk result (scope.new ≡ with_new scope.old (facts_vars (l.now ++ (e.now ++ r.now)))) }
{
    bind_facts(alloc, scope, l)?;
    let taken = scope.len();
    bind_both(alloc, scope, e, r)?;
    Ok(scope.has_unsigned_from(taken))
}

// Whether the binder names what is in scope already.
fn is_rebound(scope: &Scope, p: &Process) -> bool
    ensures { result ≡ rebinds scope.now (proc p.now) }
{
    match binder(p) {
        Some(x) => scope.knows(&x.name),
        None => false,
    }
}
