//! The node that binds a name which is in scope at a place.
ghost use Rattle.std.specs.Prelude.{◌≡◌, ◌+◌, ◌-◌, ◌<◌, ◌^◌, ◌∷◌, ◌++◌, ℕ, [], Some, IfOk, length, min, option_map, slice_get};
ghost use Rattle.sap_process.specs.Places.{child};
ghost use Rattle.sap_process.specs.Proc.{proc};
ghost use Rattle.sap_terms.specs.Variables.{is_known};
ghost use Rattle.sap_process.specs.Sites.{Site, sites_in, var_names};
ghost use Rattle.sap_other_nodes.specs.OtherBinders.{IsBinderTold};
ghost use Rattle.sap_other_nodes.specs.code.Binders.{IsAlong, IsBinderFound, IsBoundHere, name_at, process_down};

use crate::seek::{Seek, Wanted, in_binding, in_head};
use sap_process::{Children, Process, ScopeBelow, places_are_by_path};
use sap_terms::{Mem, Name, Path, Var, Vars};
use std::alloc::Global;

/// A node of the head of a place on the way along a path.
#[derive(Clone, Copy)]
pub struct OtherNode {
    /// How many digits of the path lead to the place.
    pub depth: u64,
    /// The node of its head, counted from 0, and from the greatest u64 on that.
    pub node: u64,
}

/// What binds a name.
#[derive(Clone, Copy)]
pub enum Binder {
    /// A variable that is in scope at the root.
    Outer,
    /// A node on the way.
    On(OtherNode),
}

// The child of this digit, if there is one.
fn child(p: &Process, digit: u8) -> Option<&Process>
    ensures { option_map (λ q. proc q.now) result ≡ child (proc p.now) digit }
{
    match p.children() {
        Children::Nothing => None,
        Children::One(q) => { if digit == 1 { Some(q) } else { None } }
        Children::Two(q, r) => match digit {
            1 => Some(q),
            2 => Some(r),
            _ => None,
        },
    }
}

// The process to which these digits lead. It recurses as deep as they go.
fn process_down<'a>(p: &'a Process, digits: &[u8]) -> Option<&'a Process>
    ensures { option_map (λ q. proc q.now) result ≡ process_down (Some (proc p.now)) digits.now }
{
    match digits.split_first() {
        None => Some(p),
        Some((digit, rest)) => match child(p, *digit) {
            None => None,
            Some(q) => process_down(q, rest),
        },
    }
}

// The name of node number `node` of the head, if it is a variable.
fn name_at(alloc: Global, p: &Process, node: u64) -> Result<Option<Name>, Mem>
    requires { node < 2 ^ 64 - 1 }
    ensures { IfOk result (λ o. o ≡ name_at (proc p.now) node) }
{
    let mut seek = Seek {
        at: 0,
        found: false,
        name: None,
    };
    in_head(alloc, Wanted::Number(node), p, &mut seek)?;
    Ok(seek.name)
}

// Which node of the head binds the name for its child of this digit; so many digits lead to its place.
fn bound_here(
    alloc: Global,
    p: &Process,
    digit: u8,
    depth: u64,
    name: &Name,
) -> Result<Option<OtherNode>, Mem>
    ensures { IfOk result (λ o. IsBoundHere (proc p.now) digit name.now depth o) }
{
    let seek = in_binding(alloc, p, digit, name)?;
    if seek.found {
        Ok(Some(OtherNode {
            depth,
            node: seek.at,
        }))
    } else {
        Ok(None)
    }
}

// Through this head to its first child alone.
fn at_end(alloc: Global, p: &Process, depth: u64, name: &Name) -> Result<Option<OtherNode>, Mem>
    ensures { IfOk result (λ o. IsAlong (proc p.now) (1 ∷ []) name.now depth o) }
{
    bound_here(alloc, p, 1, depth, name)
}

// Along these digits and through the head to which they lead: the first head that binds the name. It recurses as deep as they go.
#[cycle(way)]
fn along(
    alloc: Global,
    p: &Process,
    digits: &[u8],
    depth: u64,
    name: &Name,
) -> Result<Option<OtherNode>, Mem>
    requires short { depth + length digits.now < 2 ^ 64 }
    ensures { IfOk result (λ o. IsAlong (proc p.now) (digits.now ++ 1 ∷ []) name.now depth o) }
{
    match digits.split_first() {
        None => at_end(alloc, p, depth, name),
        Some((digit, rest)) => along_from(alloc, p, *digit, rest, depth, name),
    }
}

// The same, where the first digit is this.
#[cycle(way)]
fn along_from(
    alloc: Global,
    p: &Process,
    digit: u8,
    rest: &[u8],
    depth: u64,
    name: &Name,
) -> Result<Option<OtherNode>, Mem>
    requires short { depth + length rest.now + 1 < 2 ^ 64 }
    ensures { IfOk result (λ o. IsAlong (proc p.now) (digit ∷ (rest.now ++ 1 ∷ [])) name.now depth o) }
{
    match bound_here(alloc, p, digit, depth, name)? {
        Some(found) => Ok(Some(found)),
        None => match child(p, digit) {
            None => Ok(None),
            Some(q) => along(alloc, q, rest, depth + 1, name),
        },
    }
}

// Whether one of these has the name. It recurses as deep as they are many.
fn is_among(vars: &[Var], name: &Name) -> bool
    ensures { result ≡ is_known (var_names vars.now) name.now }
{
    match vars.split_first() {
        None => false,
        Some((v, rest)) => v.name.same(name) || is_among(rest, name),
    }
}

// What binds this name, where these are in scope at the root.
fn binder_of(
    alloc: Global,
    outer: &Vars,
    whole: &Process,
    path: &Path,
    name: &Name,
) -> Result<Option<Binder>, Mem>
    ensures { IfOk result (λ o. IsBinderFound outer.now (proc whole.now) path.now name.now o) }
{
    if is_among(outer.as_slice(), name) {
        return Ok(Some(Binder::Outer));
    }
    match along(alloc, whole, path.as_slice(), 0, name)? {
        Some(found) => Ok(Some(Binder::On(found))),
        None => Ok(None),
    }
}

/// What binds the name that a node of the head at this path has, by its number, which from the greatest u64 on is that, where the outer variables are in scope at the root of the
/// process: one of these, or else the first head on the way that binds it, by its first node of this name. `None` where the node is no
/// variable, or nothing binds it. It takes time in proportion to the heads on the way, and recurses as deep as the path and their terms.
/// Want of memory is the only error.
pub fn binder_of_node(
    alloc: Global,
    outer: &Vars,
    whole: &Process,
    path: &Path,
    node: u64,
) -> Result<Option<Binder>, Mem>
    ensures { IfOk result (λ o. (k j : ℕ) (s : Site) → slice_get (sites_in outer.now (proc whole.now)) k ≡ Some s → s.path ≡ path.now
        → node ≡ min j (2 ^ 64 - 1) → IsBinderTold outer.now (proc whole.now) s j o) }
{
    places_are_by_path::<ScopeBelow>();
    // No head that is in memory has a node of the greatest number.
    if node == u64::MAX {
        return Err(Mem);
    }
    let Some(p) = process_down(whole, path.as_slice()) else {
        return Ok(None);
    };
    match name_at(alloc, p, node)? {
        None => Ok(None),
        Some(name) => binder_of(alloc, outer, whole, path, &name),
    }
}
