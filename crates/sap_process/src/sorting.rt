//! Processes with the sorts of binders.
ghost use Rattle.std.specs.Prelude.{◌≡◌, ◌∷◌, [], ◌++◌, IfOk, OnOk};
ghost use Rattle.sap_terms.specs.Tree.{variable};
ghost use Rattle.sap_terms.specs.View.{tree};
ghost use Rattle.sap_process.specs.Flaws.{scope_at};
ghost use Rattle.sap_process.specs.code.Headed.{headed, forked};
ghost use Rattle.sap_process.specs.Proc.{proc, lookup};
ghost use Rattle.sap_process.specs.Sites.{fresh_var, message_var};
ghost use Rattle.sap_process.specs.Sorted.{by_binder, with_sorts};

use crate::joining::both;
use crate::naming::{bind, bind_message, with_sort};
use crate::replacing::{Replacing, ended, looking_up, over, over_both};
use crate::scope::Scope;
use crate::{Children, Process};
use sap_terms::{Copied, Mem, Sort, Term, Var};
use std::alloc::Global;

impl Replacing for Scope {
    ghost choice = { by_binder };

    ghost bound = { λ scope. fresh_var };

    fn at(&self, alloc: Global, x: &Var) -> Result<Term, Mem> {
        let v = sorted_var(alloc, self, x)?;
        Ok(Term::Var(v))
    }

    fn bound(&self, alloc: Global, x: &Var) -> Result<Var, Mem> {
        with_sort(alloc, x, Sort::Fresh)
    }
}

// The process with the sorts of binders, where these are in scope, which stay so.
#[cycle(sorted)]
pub(crate) fn sorted(alloc: Global, scope: &mut Scope, p: &Process) -> Result<Box<Process>, Mem>
    ensures made { IfOk result (λ q. proc q.value ≡ with_sorts scope.old (proc p.now)) }
    ensures same { OnOk result (scope.new ≡ scope.old) }
{
    match p {
        Process::Lookup(t, x, q, r) => sorted_lookup(alloc, scope, t, x, q, r),
        _ => match p.children() {
            Children::Nothing => ended(alloc),
            Children::One(q) => sorted_over(alloc, scope, p, q),
            Children::Two(q, r) => sorted_both(alloc, scope, p, q, r),
        },
    }
}

// The head of the process, with what it binds in scope, over what follows it.
#[cycle(sorted)]
fn sorted_over(
    alloc: Global,
    scope: &mut Scope,
    p: &Process,
    q: &Process,
) -> Result<Box<Process>, Mem>
    ensures made { IfOk result (λ made. proc made.value
        ≡ headed (by_binder (scope_at scope.old (proc p.now))) fresh_var (proc p.now)
        (with_sorts (scope_at scope.old (proc p.now)) (proc q.now))) }
    ensures same { OnOk result (scope.new ≡ scope.old) }
{
    let before = scope.len();
    bind(alloc, scope, p)?;
    let below = sorted(alloc, scope, q)?;
    let made = over(alloc, &*scope, p, below);
    scope.cut(before);
    made
}

// A head that two processes follow and that binds nothing, over these.
#[cycle(sorted)]
fn sorted_both(
    alloc: Global,
    scope: &mut Scope,
    p: &Process,
    q: &Process,
    r: &Process,
) -> Result<Box<Process>, Mem>
    ensures made { IfOk result (λ made. proc made.value ≡ forked (by_binder scope.old) (proc p.now)
        (with_sorts scope.old (proc q.now)) (with_sorts scope.old (proc r.now))) }
    ensures same { OnOk result (scope.new ≡ scope.old) }
{
    let (first, second) = both(sorted(alloc, scope, q), sorted(alloc, scope, r))?;
    over_both(alloc, &*scope, p, first, second)
}

#[cycle(sorted)]
fn sorted_lookup(
    alloc: Global,
    scope: &mut Scope,
    t: &Term,
    x: &Var,
    p: &Process,
    q: &Process,
) -> Result<Box<Process>, Mem>
    ensures made { IfOk result (λ made. proc made.value
        ≡ with_sorts scope.old (lookup (tree t.now) x.now (proc p.now) (proc q.now))) }
    ensures same { OnOk result (scope.new ≡ scope.old) }
{
    let below = both(sorted_with(alloc, scope, x, p), sorted(alloc, scope, q));
    let (x, (first, second)) = both(with_sort(alloc, x, Sort::Msg), below)?;
    looking_up(alloc, &*scope, t, x, first, second)
}

// The first branch of `lookup`, with its binder in scope.
#[cycle(sorted)]
fn sorted_with(alloc: Global, scope: &mut Scope, x: &Var, p: &Process) -> Result<Box<Process>, Mem>
    ensures made { IfOk result (λ q. proc q.value
        ≡ with_sorts (scope.old ++ message_var x.now ∷ []) (proc p.now)) }
    ensures same { OnOk result (scope.new ≡ scope.old) }
{
    let before = scope.len();
    bind_message(alloc, scope, x)?;
    let made = sorted(alloc, scope, p);
    scope.cut(before);
    made
}

// The variable with the sort of its binder.
fn sorted_var(alloc: Global, scope: &Scope, v: &Var) -> Result<Var, Mem>
    ensures { IfOk result (λ w. variable w ≡ by_binder scope.now v.now) }
{
    match scope.sort_of(&v.name) {
        Some(sort) => with_sort(alloc, v, sort),
        None => v.copy(alloc),
    }
}
