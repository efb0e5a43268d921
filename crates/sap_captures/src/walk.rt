//! The walk through the process of a file, which sets the flags of the words from which nodes of its places stem.
ghost use Rattle.std.specs.Prelude.{◌≡◌, ◌+◌, ◌∷◌, ◌++◌, [], ℕ, List, length, OnOk};
ghost use Rattle.sap_terms.specs.Path.{IsDigit};
ghost use Rattle.sap_terms.specs.declared.var.Var.{Var};
ghost use Rattle.sap_process.specs.Flaws.{scope_at};
ghost use Rattle.sap_process.specs.Places.{place, places_below};
ghost use Rattle.sap_process.specs.Proc.{proc};
ghost use Rattle.sap_process.specs.Sites.{above_of, message_var, scope_below, sites_from};
ghost use Rattle.sap_captures.specs.code.Marks.{IsDesk};
ghost use Rattle.sap_captures.specs.code.Walked.{IsMet, IsWalked};

use crate::binding::Binding;
use crate::desk::{Desk, note_place};
use crate::flags::Flags;
use crate::head::{bind_message, meet_head};
use crate::kind::Kind;
use sap_process::{Children, Process};
use sap_terms::{Mem, Path, Var};
use std::alloc::Global;

/// Where a walk in preorder stands: the path of the place, what is in scope there, and the flags that are set.
#[derive(Drop)]
pub(crate) struct Walk {
    pub(crate) trail: Path,
    pub(crate) binding: Binding,
    pub(crate) flags: Flags,
}

// Meets the place itself, and leaves in scope what its head binds.
fn meet(alloc: Global, desk: &Desk<'_>, kind: Kind, walk: &mut Walk, p: &Process) -> Result<(), Mem>
    requires desk { IsDesk desk.now }
    requires room { length walk.old.flags ≡ length desk.now.tokens.now + 1 }
    ensures same { OnOk result (length walk.new.flags ≡ length walk.old.flags) }
    ensures met { (locks : ℕ) → OnOk result (IsMet desk.now kind walk.old (place walk.old.trail
        (above_of walk.old.binding.scope locks) (proc p.now)) walk.new) }
{
    meet_head(alloc, kind, p, &mut walk.binding)?;
    note_place(
        alloc,
        desk,
        &walk.trail,
        kind,
        &walk.binding.nodes,
        &mut walk.flags,
    )
}

/// Meets the places from this one on.
#[cycle(walk)]
pub(crate) fn walk_from(
    alloc: Global,
    desk: &Desk<'_>,
    kind: Kind,
    walk: &mut Walk,
    p: &Process,
) -> Result<(), Mem>
    requires desk { IsDesk desk.now }
    requires room { length walk.old.flags ≡ length desk.now.tokens.now + 1 }
    ensures same { OnOk result (length walk.new.flags ≡ length walk.old.flags) }
    ensures walked { (locks : ℕ) → OnOk result (IsWalked desk.now kind walk.old
        (sites_from walk.old.trail walk.old.binding.scope locks (proc p.now)) walk.new) }
{
    let above = walk.binding.scope.len();
    meet(alloc, desk, kind, walk, p)?;
    let met = walk_below(alloc, desk, kind, walk, p);
    walk.binding.scope.cut(above);
    met
}

// Meets the places below this one, where what its head binds is in scope.
#[cycle(walk)]
fn walk_below(
    alloc: Global,
    desk: &Desk<'_>,
    kind: Kind,
    walk: &mut Walk,
    p: &Process,
) -> Result<(), Mem>
    requires desk { IsDesk desk.now }
    requires room { length walk.old.flags ≡ length desk.now.tokens.now + 1 }
    ensures same { OnOk result (length walk.new.flags ≡ length walk.old.flags) }
    ensures walked { (scope : List Var) (locks : ℕ) → walk.old.binding.scope ≡ scope_at scope (proc p.now)
        → OnOk result (IsWalked desk.now kind walk.old
        (places_below scope_below walk.old.trail (above_of scope locks) (proc p.now)) walk.new) }
{
    match p {
        Process::Lookup(_, x, q, r) => walk_branches(alloc, desk, kind, walk, x, q, r),
        _ => match p.children() {
            Children::Nothing => Ok(()),
            Children::One(q) => walk_child(alloc, desk, kind, walk, 1, q),
            Children::Two(q, r) => walk_both(alloc, desk, kind, walk, q, r),
        },
    }
}

// Meets the places of the two children.
#[cycle(walk)]
fn walk_both(
    alloc: Global,
    desk: &Desk<'_>,
    kind: Kind,
    walk: &mut Walk,
    q: &Process,
    r: &Process,
) -> Result<(), Mem>
    requires desk { IsDesk desk.now }
    requires room { length walk.old.flags ≡ length desk.now.tokens.now + 1 }
    ensures same { OnOk result (length walk.new.flags ≡ length walk.old.flags) }
    ensures walked { (locks : ℕ) → OnOk result (IsWalked desk.now kind walk.old
        (sites_from (walk.old.trail ++ 1 ∷ []) walk.old.binding.scope locks (proc q.now)
        ++ sites_from (walk.old.trail ++ 2 ∷ []) walk.old.binding.scope locks (proc r.now)) walk.new) }
{
    walk_child(alloc, desk, kind, walk, 1, q)?;
    walk_child(alloc, desk, kind, walk, 2, r)
}

// Meets the places of the two branches of `lookup`, the first with its binder.
#[cycle(walk)]
fn walk_branches(
    alloc: Global,
    desk: &Desk<'_>,
    kind: Kind,
    walk: &mut Walk,
    x: &Var,
    q: &Process,
    r: &Process,
) -> Result<(), Mem>
    requires desk { IsDesk desk.now }
    requires room { length walk.old.flags ≡ length desk.now.tokens.now + 1 }
    ensures same { OnOk result (length walk.new.flags ≡ length walk.old.flags) }
    ensures walked { (locks : ℕ) → OnOk result (IsWalked desk.now kind walk.old
        (sites_from (walk.old.trail ++ 1 ∷ []) (walk.old.binding.scope ++ message_var x.now ∷ []) locks (proc q.now)
        ++ sites_from (walk.old.trail ++ 2 ∷ []) walk.old.binding.scope locks (proc r.now)) walk.new) }
{
    walk_with(alloc, desk, kind, walk, x, q)?;
    walk_child(alloc, desk, kind, walk, 2, r)
}

// Meets the places of the first branch of `lookup`, with its binder.
#[cycle(walk)]
fn walk_with(
    alloc: Global,
    desk: &Desk<'_>,
    kind: Kind,
    walk: &mut Walk,
    x: &Var,
    q: &Process,
) -> Result<(), Mem>
    requires desk { IsDesk desk.now }
    requires room { length walk.old.flags ≡ length desk.now.tokens.now + 1 }
    ensures same { OnOk result (length walk.new.flags ≡ length walk.old.flags) }
    ensures walked { (locks : ℕ) → OnOk result (IsWalked desk.now kind walk.old
        (sites_from (walk.old.trail ++ 1 ∷ []) (walk.old.binding.scope ++ message_var x.now ∷ []) locks (proc q.now)) walk.new) }
{
    let outside = walk.binding.scope.len();
    bind_message(alloc, x, &mut walk.binding.scope)?;
    let met = walk_child(alloc, desk, kind, walk, 1, q);
    walk.binding.scope.cut(outside);
    met
}

// Meets the places of the child of this digit.
#[cycle(walk)]
fn walk_child(
    alloc: Global,
    desk: &Desk<'_>,
    kind: Kind,
    walk: &mut Walk,
    digit: u8,
    q: &Process,
) -> Result<(), Mem>
    requires desk { IsDesk desk.now }
    requires room { length walk.old.flags ≡ length desk.now.tokens.now + 1 }
    requires digit { IsDigit digit }
    ensures same { OnOk result (length walk.new.flags ≡ length walk.old.flags) }
    ensures walked { (locks : ℕ) → OnOk result (IsWalked desk.now kind walk.old
        (sites_from (walk.old.trail ++ digit ∷ []) walk.old.binding.scope locks (proc q.now)) walk.new) }
{
    walk.trail.push(digit)?;
    let met = walk_from(alloc, desk, kind, walk, q);
    walk.trail.pop();
    met
}
