//! The search for the flaw that counts.
ghost use Rattle.std.specs.Prelude.{◌≡◌, ◌+◌, List, [], ◌∷◌, ◌++◌, IfOk, OnOk};
ghost use Rattle.sap_terms.specs.Path.{IsDigit};
ghost use Rattle.sap_terms.specs.declared.var.Var.{Var};
ghost use Rattle.sap_process.specs.Proc.{proc};
ghost use Rattle.sap_process.specs.Flaws.{scope_at};
ghost use Rattle.sap_process.specs.code.Places.{head_locks, site, sites_below};
ghost use Rattle.sap_process.specs.code.Searches.{searched};
ghost use Rattle.sap_process.specs.Sites.{sites_in, sites_from, message_var};
ghost use Rattle.sap_process.specs.code.Tests.{free_of, is_told};
ghost use Rattle.sap_process.specs.code.Walks.{first_flaw, found_at, unmet};

use crate::found::Found;
use crate::heads::{has_pattern_destructor, has_reserved_fact, has_reserved_var, is_bad_head};
use crate::naming::{Tested, bind_message, test};
use crate::occurrences::any_at_head;
use crate::scope::Scope;
use crate::{Children, Flaw, Process};
use sap_terms::{Mem, Path, Signature, Var, Vars};
use std::alloc::Global;

// Where a walk in preorder stands: the path of the place, what is in scope there, and what was found before.
#[derive(Drop)]
struct Walk {
    trail: Path,
    scope: Scope,
    found: Found,
}

// The first of the flaws that a place has, with the path of the first place that has it, where these variables are in scope at the
// root. One walk tests each place for the flaws that would count before the one found so far.
pub(crate) fn first_flaw(
    alloc: Global,
    sig: &Signature,
    scope: &Vars,
    p: &Process,
    flaws: &[Flaw],
) -> Result<Option<(Flaw, Path)>, Mem>
    ensures { IfOk result (λ o. o ≡ first_flaw sig.now flaws.now (sites_in scope.now (proc p.now))) }
{
    let mut walk = at_the_root(alloc, flaws)?;
    walk.scope.push_all(alloc, scope)?;
    search(alloc, sig, &mut walk, 0, p)?;
    walk.found.answer(alloc, flaws)
}

// A walk that has met no place, where nothing is in scope.
fn at_the_root(alloc: Global, flaws: &[Flaw]) -> Result<Box<Walk>, Mem>
    ensures { IfOk result (λ w. w.value ≡ record { trail = []; scope = []; found = unmet flaws.now }) }
{
    let found = Found::nothing(alloc, flaws)?;
    Ok(Box::new(
        alloc,
        Walk {
            trail: Path::new(alloc),
            scope: Scope::new(alloc),
            found,
        },
    )?)
}

// Meets the places from this one on.
#[cycle(search)]
fn search(
    alloc: Global,
    sig: &Signature,
    walk: &mut Walk,
    locks: u64,
    p: &Process,
) -> Result<(), Mem>
    ensures { OnOk result (walk.new ≡ searched sig.now walk.old
        (sites_from walk.old.trail walk.old.scope locks (proc p.now))) }
{
    let above = walk.scope.len();
    meet(alloc, sig, walk, locks, p)?;
    let found = search_below(alloc, sig, walk, locks, p);
    walk.scope.cut(above);
    found
}

// Meets the places below this one, where what its head binds is in scope.
#[cycle(search)]
fn search_below(
    alloc: Global,
    sig: &Signature,
    walk: &mut Walk,
    locks: u64,
    p: &Process,
) -> Result<(), Mem>
    ensures { (scope : List Var) → walk.old.scope ≡ scope_at scope (proc p.now)
        → OnOk result (walk.new ≡ searched sig.now walk.old
        (sites_below walk.old.trail scope locks (proc p.now))) }
{
    match p {
        Process::Lookup(_, x, q, r) => search_branches(alloc, sig, walk, x, locks, q, r),
        _ => match p.children() {
            Children::Nothing => Ok(()),
            Children::One(q) => search_next(alloc, sig, walk, p, locks, q),
            Children::Two(q, r) => search_both(alloc, sig, walk, locks, q, r),
        },
    }
}

// Meets the places of the two children.
#[cycle(search)]
fn search_both(
    alloc: Global,
    sig: &Signature,
    walk: &mut Walk,
    locks: u64,
    q: &Process,
    r: &Process,
) -> Result<(), Mem>
    ensures { OnOk result (walk.new ≡ searched sig.now walk.old
        (sites_from (walk.old.trail ++ 1 ∷ []) walk.old.scope locks (proc q.now)
        ++ sites_from (walk.old.trail ++ 2 ∷ []) walk.old.scope locks (proc r.now))) }
{
    search_child(alloc, sig, walk, 1, locks, q)?;
    search_child(alloc, sig, walk, 2, locks, r)
}

// Meets the places of the two branches of `lookup`, the first with its binder.
#[cycle(search)]
fn search_branches(
    alloc: Global,
    sig: &Signature,
    walk: &mut Walk,
    x: &Var,
    locks: u64,
    q: &Process,
    r: &Process,
) -> Result<(), Mem>
    ensures { OnOk result (walk.new ≡ searched sig.now walk.old
        (sites_from (walk.old.trail ++ 1 ∷ []) (walk.old.scope ++ message_var x.now ∷ []) locks (proc q.now)
        ++ sites_from (walk.old.trail ++ 2 ∷ []) walk.old.scope locks (proc r.now))) }
{
    search_with(alloc, sig, walk, x, locks, q)?;
    search_child(alloc, sig, walk, 2, locks, r)
}

// Meets the places of the only child, below the locks that the head of its parent sets.
#[cycle(search)]
fn search_next(
    alloc: Global,
    sig: &Signature,
    walk: &mut Walk,
    p: &Process,
    locks: u64,
    q: &Process,
) -> Result<(), Mem>
    ensures { OnOk result (walk.new ≡ searched sig.now walk.old
        (sites_from (walk.old.trail ++ 1 ∷ []) walk.old.scope
        (locks + head_locks (proc p.now)) (proc q.now))) }
{
    let locks = locks_below(p, locks)?;
    search_child(alloc, sig, walk, 1, locks, q)
}

// Meets the places of the first branch of `lookup`, with its binder.
#[cycle(search)]
fn search_with(
    alloc: Global,
    sig: &Signature,
    walk: &mut Walk,
    x: &Var,
    locks: u64,
    q: &Process,
) -> Result<(), Mem>
    ensures { OnOk result (walk.new ≡ searched sig.now walk.old
        (sites_from (walk.old.trail ++ 1 ∷ []) (walk.old.scope ++ message_var x.now ∷ []) locks (proc q.now))) }
{
    let outside = walk.scope.len();
    bind_message(alloc, &mut walk.scope, x)?;
    let found = search_child(alloc, sig, walk, 1, locks, q);
    walk.scope.cut(outside);
    found
}

// Meets the places of the child of this digit.
#[cycle(search)]
fn search_child(
    alloc: Global,
    sig: &Signature,
    walk: &mut Walk,
    digit: u8,
    locks: u64,
    q: &Process,
) -> Result<(), Mem>
    requires { IsDigit digit }
    ensures { OnOk result (walk.new ≡ searched sig.now walk.old
        (sites_from (walk.old.trail ++ digit ∷ []) walk.old.scope locks (proc q.now))) }
{
    walk.trail.push(digit)?;
    let found = search(alloc, sig, walk, locks, q);
    walk.trail.pop();
    found
}

// Meets the place itself, and leaves in scope what its head binds.
fn meet(alloc: Global, sig: &Signature, walk: &mut Walk, locks: u64, p: &Process) -> Result<(), Mem>
    ensures { OnOk result (walk.new ≡ record walk.old {
      scope = scope_at walk.old.scope (proc p.now);
      found = found_at sig.now walk.old.found
          (site walk.old.trail walk.old.scope locks (proc p.now));
    }) }
{
    let clash = walk.found.seen.note(alloc, p)?;
    let tested = test(alloc, &mut walk.scope, locks, clash, p)?;
    let free = free_of(sig, tested, &walk.scope, walk.found.sought.as_slice(), p);
    walk.found.settle(alloc, free, &walk.trail)
}

// How many of these flaws stand before the first that the place has, by what was tested, where what its head binds is in scope.
fn free_of(sig: &Signature, tested: Tested, scope: &Scope, flaws: &[Flaw], p: &Process) -> u64
    ensures { result ≡ free_of sig.now tested scope.now (proc p.now) flaws.now }
{
    for k in 0..flaws.len() {
        if is_told(sig, tested, scope, p, flaws[k]) {
            return k as u64;
        }
    }
    flaws.len() as u64
}

// Whether the place has the flaw.
fn is_told(sig: &Signature, tested: Tested, scope: &Scope, p: &Process, which: Flaw) -> bool
    ensures { result ≡ is_told sig.now tested scope.now (proc p.now) which }
{
    match which {
        Flaw::BadFunction => is_bad_head(sig, p),
        Flaw::ReservedVar => has_reserved_var(scope, p),
        Flaw::ReservedFact => has_reserved_fact(p),
        Flaw::FactClash => tested.clash,
        Flaw::PatternDestructor => has_pattern_destructor(sig, p),
        Flaw::Unbound => tested.unbound,
        Flaw::Rebound => tested.rebound,
        Flaw::SortClash => any_at_head(Flaw::SortClash, scope, p),
        Flaw::ScopeFull => tested.full,
    }
}

// The locks above what follows. No memory holds a process with more locks than a number counts.
fn locks_below(p: &Process, locks: u64) -> Result<u64, Mem>
    ensures { IfOk result (λ k. k ≡ locks + head_locks (proc p.now)) }
{
    match p {
        Process::Lock(_, _, _) => match locks.checked_add(1) {
            Some(k) => Ok(k),
            None => Err(Mem),
        },
        _ => Ok(locks),
    }
}
