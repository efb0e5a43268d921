//! The list of places.
ghost use Rattle.std.specs.Prelude.{◌≡◌, ◌++◌, ◌∷◌, [], map, IfOk, OnOk};
ghost use Rattle.sap_terms.specs.Path.{IsDigit};
ghost use Rattle.sap_process.specs.Proc.{proc};
ghost use Rattle.sap_place.specs.PlaceLists.{places_of, place_of};
ghost use Rattle.sap_process.specs.Sites.{message_var};
ghost use Rattle.sap_process.specs.Scopes.{spot, spots_from};
ghost use Rattle.sap_place.specs.code.Below.{head_locks, head_scope, spots_below};

use crate::place::{Place, PlaceList, form_at};
use crate::scoping::{with_head, with_locks, with_var};
use sap_process::{Children, Process};
use sap_terms::{Copied, Mem, Numbers, Path, Sort, Var, Vars};
use std::alloc::Global;

/// The places of an annotated process in preorder. Each holds a copy of its scope. It recurses as deep as the process and its
/// terms.
pub fn places(alloc: Global, p: &Process) -> Result<PlaceList, Mem>
    ensures { IfOk result (λ ps. ps ≡ places_of (proc p.now)) }
{
    let mut trail = Path::new(alloc);
    let scope = Vars::new(alloc);
    let locks = Numbers::new(alloc);
    let mut out = PlaceList::new(alloc);
    walk(p, alloc, &mut trail, &scope, &locks, &mut out)?;
    Ok(out)
}

// Puts last the places from this one on.
#[cycle(walk)]
fn walk(
    p: &Process,
    alloc: Global,
    trail: &mut Path,
    scope: &Vars,
    locks: &Numbers,
    out: &mut PlaceList,
) -> Result<(), Mem>
    ensures list { OnOk result (out.new ≡ out.old ++ map place_of (spots_from trail.old scope.now locks.now (proc p.now))) }
    ensures same { OnOk result (trail.new ≡ trail.old) }
{
    out.push(place_at(alloc, trail, scope, locks, p)?)?;
    walk_below(p, alloc, trail, scope, locks, out)
}

// Puts last the places below this one.
#[cycle(walk)]
fn walk_below(
    p: &Process,
    alloc: Global,
    trail: &mut Path,
    scope: &Vars,
    locks: &Numbers,
    out: &mut PlaceList,
) -> Result<(), Mem>
    ensures list { OnOk result (out.new ≡ out.old ++ map place_of (spots_below trail.old scope.now locks.now (proc p.now))) }
    ensures same { OnOk result (trail.new ≡ trail.old) }
{
    match p {
        Process::Lookup(_, x, q, r) => walk_branches(q, r, alloc, trail, scope, x, locks, out),
        _ => match p.children() {
            Children::Nothing => Ok(()),
            Children::One(q) => walk_next(p, q, alloc, trail, scope, locks, out),
            Children::Two(q, r) => walk_both(q, r, alloc, trail, scope, locks, out),
        },
    }
}

// Puts last the places of the two children.
#[cycle(walk)]
fn walk_both(
    q: &Process,
    r: &Process,
    alloc: Global,
    trail: &mut Path,
    scope: &Vars,
    locks: &Numbers,
    out: &mut PlaceList,
) -> Result<(), Mem>
    ensures list { OnOk result (out.new ≡ out.old ++ map place_of (spots_from (trail.old ++ 1 ∷ []) scope.now locks.now (proc q.now)
        ++ spots_from (trail.old ++ 2 ∷ []) scope.now locks.now (proc r.now))) }
    ensures same { OnOk result (trail.new ≡ trail.old) }
{
    walk_child(q, alloc, trail, 1, scope, locks, out)?;
    walk_child(r, alloc, trail, 2, scope, locks, out)
}

// Puts last the places of the two branches of `lookup`, the first with its binder.
#[cycle(walk)]
fn walk_branches(
    q: &Process,
    r: &Process,
    alloc: Global,
    trail: &mut Path,
    scope: &Vars,
    x: &Var,
    locks: &Numbers,
    out: &mut PlaceList,
) -> Result<(), Mem>
    ensures list { OnOk result (out.new ≡ out.old
        ++ map place_of (spots_from (trail.old ++ 1 ∷ []) (scope.now ++ message_var x.now ∷ []) locks.now (proc q.now)
        ++ spots_from (trail.old ++ 2 ∷ []) scope.now locks.now (proc r.now))) }
    ensures same { OnOk result (trail.new ≡ trail.old) }
{
    let inner = with_var(alloc, scope, x, Sort::Msg)?;
    walk_child(q, alloc, trail, 1, &inner, locks, out)?;
    walk_child(r, alloc, trail, 2, scope, locks, out)
}

// Puts last the places of the only child, below the head of its parent.
#[cycle(walk)]
fn walk_next(
    p: &Process,
    q: &Process,
    alloc: Global,
    trail: &mut Path,
    scope: &Vars,
    locks: &Numbers,
    out: &mut PlaceList,
) -> Result<(), Mem>
    ensures list { OnOk result (out.new ≡ out.old
        ++ map place_of (spots_from (trail.old ++ 1 ∷ []) (head_scope scope.now (proc p.now)) (head_locks locks.now (proc p.now)) (proc q.now))) }
    ensures same { OnOk result (trail.new ≡ trail.old) }
{
    let inner = with_head(alloc, scope, p)?;
    let held = with_locks(alloc, locks, p)?;
    walk_child(q, alloc, trail, 1, &inner, &held, out)
}

// Puts last the places of the child of this digit.
#[cycle(walk)]
fn walk_child(
    q: &Process,
    alloc: Global,
    trail: &mut Path,
    digit: u8,
    scope: &Vars,
    locks: &Numbers,
    out: &mut PlaceList,
) -> Result<(), Mem>
    requires { IsDigit digit }
    ensures list { OnOk result (out.new ≡ out.old ++ map place_of (spots_from (trail.old ++ digit ∷ []) scope.now locks.now (proc q.now))) }
    ensures same { OnOk result (trail.new ≡ trail.old) }
{
    trail.push(digit)?;
    walk(q, alloc, trail, scope, locks, out)?;
    trail.pop();
    Ok(())
}

fn place_at(
    alloc: Global,
    trail: &Path,
    scope: &Vars,
    locks: &Numbers,
    p: &Process,
) -> Result<Place, Mem>
    ensures { IfOk result (λ s. s ≡ place_of (spot trail.now scope.now locks.now (proc p.now))) }
{
    let path = trail.copy(alloc)?;
    let scope = scope.copy(alloc)?;
    let open_locks = locks.copy(alloc)?;
    Ok(Place {
        path,
        form: form_at(p),
        scope,
        open_locks,
    })
}
