//! The place at a path, and of which place and node a flaw that it has speaks.
ghost use Rattle.std.specs.Prelude.{◌≡◌, ℕ, List, Some, IfOk, OnOk, option_map, slice_get, take, ◌∷◌};
ghost use Rattle.sap_process.specs.Places.{child};
ghost use Rattle.sap_process.specs.Proc.{proc};
ghost use Rattle.sap_process.specs.Sites.{Site, sites_in};
ghost use Rattle.sap_nodes.specs.SpokenOf.{IsSpoken};
ghost use Rattle.sap_nodes.specs.code.Sites.{ComesDown};

use crate::full::bind;
use crate::trail::{Trail, at_start};
use crate::{Spoken, flaw_node};
use sap_process::{Children, Flaw, Process, ScopeBelow, places_are_by_path};
use sap_terms::{Copied, MOST_SCOPE_NAMES, Mem, Path, Signature, Var, Vars};
use std::alloc::Global;

// The child of this digit, if there is one.
fn child(p: &Process, digit: u8) -> Option<&Process>
    ensures { option_map (λ q. proc q.now) result ≡ child (proc p.now) digit }
{
    match p.children() {
        Children::Nothing => None,
        Children::One(q) => { if digit == 1 { Some(q) } else { None } }
        Children::Two(q, r) => match digit {
            1 => Some(q),
            2 => Some(r),
            _ => None,
        },
    }
}

// Down along these digits, where these are known: what is known there, and the process. It recurses as deep as the digits go.
#[cycle(down)]
fn down<'a>(
    alloc: Global,
    p: &'a Process,
    digits: &[u8],
    trail: &mut Trail,
) -> Result<Option<&'a Process>, Mem>
    ensures { IfOk result (λ o. ComesDown trail.old.known (proc p.now) digits.now trail.new.known
        (option_map (λ q. proc q.now) o)) }
{
    match digits.split_first() {
        None => Ok(Some(p)),
        Some((digit, rest)) => below(alloc, p, *digit, rest, trail),
    }
}

// The same, where the first digit is this.
#[cycle(down)]
fn below<'a>(
    alloc: Global,
    p: &'a Process,
    digit: u8,
    rest: &[u8],
    trail: &mut Trail,
) -> Result<Option<&'a Process>, Mem>
    ensures { IfOk result (λ o. ComesDown trail.old.known (proc p.now) (digit ∷ rest.now) trail.new.known
        (option_map (λ q. proc q.now) o)) }
{
    bind(alloc, MOST_SCOPE_NAMES, p, digit, trail)?;
    match child(p, digit) {
        None => Ok(None),
        Some(q) => down(alloc, q, rest, trail),
    }
}

// Copies of these.
fn copies(alloc: Global, vars: &[Var]) -> Result<Vars, Mem>
    ensures { IfOk result (λ vs. vs ≡ vars.now) }
{
    let mut copies = Vars::new(alloc);
    for v in vars {
        copies.push(v.copy(alloc)?)?;
    }
    Ok(copies)
}

/// The place and the node of which the flaw speaks that the place at this path has, as `flaw_node` tells it, where the outer variables are
/// in scope at the root of the process; what is in scope at the place is found on the way there, in time in proportion to the heads
/// above it, where names are looked up by a tree. `None` where there is no such place. Want of memory is the only error.
pub fn node_at(
    alloc: Global,
    sig: &Signature,
    outer: &Vars,
    whole: &Process,
    path: &Path,
    which: Flaw,
) -> Result<Option<Spoken>, Mem>
    ensures { IfOk result (λ o. (k : ℕ) (s : Site) → slice_get (sites_in outer.now (proc whole.now)) k ≡ Some s → s.path ≡ path.now
        → IsSpoken sig.now outer.now (proc whole.now) (take k (sites_in outer.now (proc whole.now))) s which o) }
{
    places_are_by_path::<ScopeBelow>();
    let mut trail = at_start(alloc, outer)?;
    match down(alloc, whole, path.as_slice(), &mut trail)? {
        None => Ok(None),
        Some(p) => {
            let scope = copies(alloc, trail.known.as_slice())?;
            flaw_node(alloc, sig, outer, whole, path, &scope, p, which)
        }
    }
}
