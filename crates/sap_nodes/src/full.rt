//! With which name or lock more are in scope than may be.
ghost use Rattle.std.specs.Prelude.{◌≡◌, ◌<◌, ◌≤◌, ℕ, ◌+◌, ◌-◌, ◌^◌, List, [], ◌∷◌, ◌++◌, length, IfOk, OnOk, min};
ghost use Rattle.sap_terms.specs.Tree.{node_count};
ghost use Rattle.sap_terms.specs.View.{tree};
ghost use Rattle.sap_process.specs.Proc.{proc};
ghost use Rattle.sap_process.specs.Sites.{above_of};
ghost use Rattle.sap_nodes.specs.FullScope.{IsFillingTold};
ghost use Rattle.sap_nodes.specs.code.Full.{from_node, binder_met, head_bound, is_lock, is_past, fill_along};
ghost use Rattle.sap_nodes.specs.code.Searches.{most};

use crate::Part;
use crate::finding::{Search, visit};
use crate::trail::{How, Trail, at_start, in_rule, in_term};
use sap_process::{Children, Process};
use sap_terms::{Copied, MOST_SCOPE_NAMES, Mem, Path, Sort, Term, Var, Vars};
use std::alloc::Global;

/// The place and the node of which a flaw speaks.
#[derive(Clone, Copy)]
pub struct Spoken {
    /// How many digits of the path lead to the place: all of them, or, of a full scope, those to the place above that binds or locks.
    pub depth: u64,
    /// The node of its head, counted from 0, and from the greatest u64 on that; none where it is its lock.
    pub node: Option<u64>,
}

/// Where, on the way along this path, names and locks become more than may be in scope, where these are in scope at the root: the
/// place whose head binds the name or sets the lock, and the node that binds it. There is none where they don't, or where these are
/// too many already. Want of memory is the only error. It takes time in proportion to the heads on the way, where names are looked up
/// by a tree, and recurses as deep as the path and the terms.
pub fn full_node(
    alloc: Global,
    scope: &Vars,
    p: &Process,
    path: &Path,
) -> Result<Option<Spoken>, Mem>
    ensures { IfOk result (λ o. IsFillingTold (above_of scope.now 0) (proc p.now) path.now o) }
{
    if scope.len() > MOST_SCOPE_NAMES {
        return Ok(None);
    }
    let mut trail = at_start(alloc, scope)?;
    along(alloc, p, path.as_slice(), 0, 0, &mut trail)
}

// Along these digits, where these are known and so many locks set.
#[cycle(way)]
fn along(
    alloc: Global,
    p: &Process,
    digits: &[u8],
    locks: u64,
    depth: u64,
    trail: &mut Trail,
) -> Result<Option<Spoken>, Mem>
    requires room { length trail.old.known + locks ≤ MOST_SCOPE_NAMES }
    requires short { depth + length digits.now < 2 ^ 64 }
    ensures { IfOk result (λ o. o ≡ fill_along trail.old.known locks depth digits.now (proc p.now)) }
{
    match digits.split_first() {
        None => Ok(None),
        Some((digit, rest)) => below(alloc, p, *digit, rest, locks, depth, trail),
    }
}

// The same, where the first digit is this.
#[cycle(way)]
fn below(
    alloc: Global,
    p: &Process,
    digit: u8,
    rest: &[u8],
    locks: u64,
    depth: u64,
    trail: &mut Trail,
) -> Result<Option<Spoken>, Mem>
    requires room { length trail.old.known + locks ≤ MOST_SCOPE_NAMES }
    requires short { depth + length rest.now + 1 < 2 ^ 64 }
    ensures { IfOk result (λ o. o ≡ fill_along trail.old.known locks depth (digit ∷ rest.now) (proc p.now)) }
{
    let room = MOST_SCOPE_NAMES - locks;
    let lock = is_lock(p);
    bind(alloc, room, p, digit, trail)?;
    if trail.search.found {
        return Ok(Some(Spoken {
            depth,
            node: Some(trail.search.at),
        }));
    }
    if is_past(lock, trail.known.len(), room) {
        return Ok(Some(Spoken { depth, node: None }));
    }
    let locks = if lock { locks + 1 } else { locks };
    match p.children() {
        Children::Nothing => Ok(None),
        Children::One(q) => {
            if digit == 1 {
                along(alloc, q, rest, locks, depth + 1, trail)
            } else {
                Ok(None)
            }
        }
        Children::Two(q, r) => {
            let child = if digit == 1 { q } else { r };
            along(alloc, child, rest, locks, depth + 1, trail)
        }
    }
}

fn is_lock(p: &Process) -> bool
    ensures { result ≡ is_lock (proc p.now) }
{
    match p {
        Process::Lock(_, _, _) => true,
        _ => false,
    }
}

// Whether so many are too many, with the lock or without.
fn is_past(lock: bool, known: u64, room: u64) -> bool
    ensures { result ≡ is_past lock known room }
{
    if lock { known >= room } else { known > room }
}

// What the head binds for its child of this digit is known, and the name is looked for that finds so many known.
pub(crate) fn bind(
    alloc: Global,
    room: u64,
    p: &Process,
    digit: u8,
    trail: &mut Trail,
) -> Result<(), Mem>
    ensures { OnOk result (trail.new ≡ head_bound room trail.old.known (proc p.now) digit) }
{
    trail.search = Search {
        at: 0,
        found: false,
    };
    match p {
        Process::New(x, _) => bind_one(alloc, room, x, Sort::Fresh, trail),
        Process::In(t, _) => in_term(alloc, How::Last(room), Part::Pattern, t, trail),
        Process::Recv(t, u, _) => {
            trail.search.at = t.nodes();
            in_term(alloc, How::Last(room), Part::Pattern, u, trail)
        }
        Process::Embedded(l, e, r, _) => {
            in_rule(alloc, How::Last(room), How::Last(room), l, e, r, trail)
        }
        Process::Lookup(t, x, _, _) => {
            if digit == 1 {
                trail.search.at = t.nodes();
                bind_one(alloc, room, x, Sort::Msg, trail)
            } else {
                Ok(())
            }
        }
        _ => Ok(()),
    }
}

// A binder is met, which is looked for where so many are known.
fn bind_one(alloc: Global, room: u64, x: &Var, sort: Sort, trail: &mut Trail) -> Result<(), Mem>
    ensures { OnOk result (trail.new ≡ binder_met room trail.old (record { name = x.now.name; sort = sort })) }
{
    let is = trail.known.len() == room;
    let name = x.name.copy(alloc)?;
    trail.known.push(Var { name, sort })?;
    visit(&mut trail.search, is);
    Ok(())
}
