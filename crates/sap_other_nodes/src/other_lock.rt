//! The lock that is held over a parallel or a replication.
ghost use Rattle.std.specs.Prelude.{◌≡◌, ◌<◌, ◌+◌, ◌^◌, ℕ, [], MatchOption, IfOk, OnOk, IfSome, ◌∷◌, Some, None, option_map, cond, length, min};
ghost use Rattle.sap_terms.specs.View.{tree};
ghost use Rattle.sap_process.specs.Places.{child};
ghost use Rattle.sap_process.specs.Proc.{proc, node_count};
ghost use Rattle.sap_held.specs.Held.{IsLastOpen, dropped, found, opens};
ghost use Rattle.sap_locks.specs.Annotation.{is_forking};
ghost use Rattle.sap_locks.specs.Ways.{lock_count};
ghost use Rattle.sap_other_nodes.specs.OtherLocks.{IsLockOver};
ghost use Rattle.sap_other_nodes.specs.code.LockWalks.{beside, came, depth_from, ends, head_locks, is_number, lesser, lock_over, low, open_below, over_at};

use sap_held::{Held, last_of, set_open};
use sap_locks::lock_places_are_by_path;
use sap_process::{Children, Process};
use sap_terms::{Copied, Mem, Path, Term};
use std::alloc::Global;

// The locks above a place, the outermost first, and how many stand before it in preorder.
#[derive(Drop)]
struct Locks {
    held: Vec<Held>,
    count: u32,
}

/// Where the lock is set that is held over the parallel or the replication at this path: of the locks that are open there the first that
/// an unlock below ends. The answer is how many digits of the path lead to it. `None` where the path leads to no such place, or no
/// unlock below ends one of them. It takes time in proportion to the process, but that each unlock below is compared with the locks
/// above it, and recurses as deep as the process and its terms. Want of memory is the only error.
pub fn open_lock(alloc: Global, p: &Process, path: &Path) -> Result<Option<u64>, Mem>
    requires { node_count (proc p.now) < 2 ^ 32 }
    ensures { IfOk result (λ o. MatchOption o ((d : ℕ) → ¬ IsLockOver (proc p.now) path.now d)
        (λ d. IsLockOver (proc p.now) path.now d)) }
{
    lock_places_are_by_path();
    lock_over(alloc, p, path.as_slice())
}

fn lock_over(alloc: Global, p: &Process, digits: &[u8]) -> Result<Option<u64>, Mem>
    requires { lock_count (proc p.now) < 2 ^ 32 }
    ensures { IfOk result (λ o. o ≡ lock_over (proc p.now) digits.now) }
{
    match number_over(alloc, p, digits)? {
        None => Ok(None),
        Some(number) => Ok(depth_from(p, digits, number, 0, 0)),
    }
}

// Of the locks before the place at the end of these digits the first that is ended below it, by number.
fn number_over(alloc: Global, p: &Process, digits: &[u8]) -> Result<Option<u32>, Mem>
    requires { lock_count (proc p.now) < 2 ^ 32 }
    ensures { IfOk result (λ o. o ≡ over_at (came [] 0 (Some (proc p.now)) digits.now)) }
{
    let mut locks = Locks {
        held: Vec::new(alloc),
        count: 0,
    };
    match down(alloc, p, digits, &mut locks)? {
        None => Ok(None),
        Some(q) => {
            if is_forking(q) {
                let bound = locks.count;
                ends(q, alloc, bound, &mut locks)
            } else {
                Ok(None)
            }
        }
    }
}

// More than one thread goes on from here.
fn is_forking(p: &Process) -> bool
    ensures { result ≡ is_forking (proc p.now) }
{
    match p {
        Process::Par(_, _) | Process::Rep(_) => true,
        _ => false,
    }
}

// Down along these digits: the process at their end, and the locks above it.
#[cycle(down)]
fn down<'a>(
    alloc: Global,
    p: &'a Process,
    digits: &[u8],
    locks: &mut Locks,
) -> Result<Option<&'a Process>, Mem>
    requires { locks.now.count + lock_count (proc p.now) < 2 ^ 32 }
    ensures place { IfOk result (λ o. came (opens locks.old.held.items) locks.old.count (Some (proc p.now)) digits.now
        ≡ option_map (λ q. (opens locks.new.held.items, locks.new.count, proc q.now)) o) }
    ensures small { IfOk result (λ o. IfSome o (λ q. locks.new.count + lock_count (proc q.now) < 2 ^ 32)) }
{
    match digits.split_first() {
        None => Ok(Some(p)),
        Some((digit, rest)) => below(alloc, p, *digit, rest, locks),
    }
}

// The same, where the first digit is this.
#[cycle(down)]
fn below<'a>(
    alloc: Global,
    p: &'a Process,
    digit: u8,
    rest: &[u8],
    locks: &mut Locks,
) -> Result<Option<&'a Process>, Mem>
    requires { locks.now.count + lock_count (proc p.now) < 2 ^ 32 }
    ensures place { IfOk result (λ o. came (opens locks.old.held.items) locks.old.count (Some (proc p.now)) (digit ∷ rest.now)
        ≡ option_map (λ q. (opens locks.new.held.items, locks.new.count, proc q.now)) o) }
    ensures small { IfOk result (λ o. IfSome o (λ q. locks.new.count + lock_count (proc q.now) < 2 ^ 32)) }
{
    meet(alloc, p, locks)?;
    locks.count += beside(p, digit);
    match child(p, digit) {
        None => Ok(None),
        Some(q) => down(alloc, q, rest, locks),
    }
}

// The head is passed: its lock is held from now on, or the lock is ended that its unlock ends.
fn meet(alloc: Global, p: &Process, locks: &mut Locks) -> Result<(), Mem>
    requires { locks.now.count + head_locks (proc p.now) < 2 ^ 32 }
    ensures held { OnOk result (opens locks.new.held.items ≡ open_below (opens locks.old.held.items) locks.old.count (proc p.now)) }
    ensures count { OnOk result (locks.new.count ≡ locks.old.count + head_locks (proc p.now)) }
{
    match p {
        Process::Lock(t, _, _) => hold(alloc, t, locks),
        Process::Unlock(t, _, _) => {
            end(locks, t);
            Ok(())
        }
        _ => Ok(()),
    }
}

// One lock more is held.
fn hold(alloc: Global, t: &Term, locks: &mut Locks) -> Result<(), Mem>
    requires { locks.now.count + 1 < 2 ^ 32 }
    ensures held { OnOk result (opens locks.new.held.items ≡ (locks.old.count + 1, tree t.now) ∷ opens locks.old.held.items) }
    ensures count { OnOk result (locks.new.count ≡ locks.old.count + 1) }
{
    let term = t.copy(alloc)?;
    locks.held.push(Held {
        label: locks.count + 1,
        term,
        is_open: true,
    })?;
    locks.count += 1;
    Ok(())
}

// The last open lock of the term is ended, if there is one.
fn end(locks: &mut Locks, t: &Term)
    ensures held { opens locks.new.held.items ≡ dropped (tree t.now) (opens locks.old.held.items) }
    ensures count { locks.new.count ≡ locks.old.count }
{
    if let Some(k) = last_of(locks.held.as_slice(), t).index {
        set_open(&mut locks.held, k, false);
    }
}

// How many locks stand in front of the child of this digit.
fn beside(p: &Process, digit: u8) -> u32
    requires { lock_count (proc p.now) < 2 ^ 32 }
    ensures { result ≡ beside (proc p.now) digit }
{
    match p.children() {
        Children::Nothing | Children::One(_) => 0,
        Children::Two(q, _) => { if digit == 2 { lock_count(q) } else { 0 } }
    }
}

// How many locks a process has.
fn lock_count(p: &Process) -> u32
    requires { lock_count (proc p.now) < 2 ^ 32 }
    ensures { result ≡ lock_count (proc p.now) }
{
    match p {
        Process::Lock(_, _, q) => lock_count(q) + 1,
        _ => match p.children() {
            Children::Nothing => 0,
            Children::One(q) => lock_count(q),
            Children::Two(q, r) => lock_count(q) + lock_count(r),
        },
    }
}

// The child of this digit, if there is one.
pub(crate) fn child(p: &Process, digit: u8) -> Option<&Process>
    ensures { option_map (λ q. proc q.now) result ≡ child (proc p.now) digit }
{
    match p.children() {
        Children::Nothing => None,
        Children::One(q) => { if digit == 1 { Some(q) } else { None } }
        Children::Two(q, r) => match digit {
            1 => Some(q),
            2 => Some(r),
            _ => None,
        },
    }
}

// Of the first so many locks the first that is that of an unlock from this place on.
#[cycle(ends)]
fn ends(p: &Process, alloc: Global, bound: u32, locks: &mut Locks) -> Result<Option<u32>, Mem>
    requires { locks.now.count + lock_count (proc p.now) < 2 ^ 32 }
    ensures first { IfOk result (λ o. o ≡ ends bound (opens locks.old.held.items) locks.old.count (proc p.now)) }
    ensures same { OnOk result (locks.new.held.items ≡ locks.old.held.items) }
    ensures count { OnOk result (locks.new.count ≡ locks.old.count + lock_count (proc p.now)) }
{
    match p {
        Process::Lock(t, _, q) => ends_locked(q, alloc, bound, locks, t),
        Process::Unlock(t, _, q) => {
            let last = last_of(locks.held.as_slice(), t);
            let own = low(bound, last.index, last.label);
            let below = ends_unlocked(q, alloc, bound, locks, t, last.index)?;
            Ok(lesser(own, below))
        }
        _ => match p.children() {
            Children::Nothing => Ok(None),
            Children::One(q) => ends(q, alloc, bound, locks),
            Children::Two(q, r) => {
                let first = ends(q, alloc, bound, locks)?;
                let second = ends(r, alloc, bound, locks)?;
                Ok(lesser(first, second))
            }
        },
    }
}

// Below a lock of the term.
#[cycle(ends)]
fn ends_locked(
    q: &Process,
    alloc: Global,
    bound: u32,
    locks: &mut Locks,
    t: &Term,
) -> Result<Option<u32>, Mem>
    requires { locks.now.count + 1 + lock_count (proc q.now) < 2 ^ 32 }
    ensures first { IfOk result (λ o. o
        ≡ ends bound ((locks.old.count + 1, tree t.now) ∷ opens locks.old.held.items) (locks.old.count + 1) (proc q.now)) }
    ensures same { OnOk result (locks.new.held.items ≡ locks.old.held.items) }
    ensures count { OnOk result (locks.new.count ≡ locks.old.count + 1 + lock_count (proc q.now)) }
{
    let term = t.copy(alloc)?;
    locks.held.push(Held {
        label: locks.count + 1,
        term,
        is_open: true,
    })?;
    locks.count += 1;
    let found = ends(q, alloc, bound, locks)?;
    drop(locks.held.pop());
    Ok(found)
}

// Below an unlock of the term, which ends this lock, if there is one.
#[cycle(ends)]
fn ends_unlocked(
    q: &Process,
    alloc: Global,
    bound: u32,
    locks: &mut Locks,
    t: &Term,
    last: Option<u64>,
) -> Result<Option<u32>, Mem>
    requires small { locks.now.count + lock_count (proc q.now) < 2 ^ 32 }
    requires last { IsLastOpen (tree t.now) locks.now.held.items last }
    ensures first { IfOk result (λ o. o
        ≡ ends bound (dropped (tree t.now) (opens locks.old.held.items)) locks.old.count (proc q.now)) }
    ensures same { OnOk result (locks.new.held.items ≡ locks.old.held.items) }
    ensures count { OnOk result (locks.new.count ≡ locks.old.count + lock_count (proc q.now)) }
{
    match last {
        None => ends(q, alloc, bound, locks),
        Some(k) => {
            set_open(&mut locks.held, k, false);
            let found = ends(q, alloc, bound, locks)?;
            set_open(&mut locks.held, k, true);
            Ok(found)
        }
    }
}

// The label of the lock that an unlock ends, where it is one of the first so many.
fn low(bound: u32, index: Option<u64>, label: u32) -> Option<u32>
    ensures none { index ≡ None → result ≡ None }
    ensures some { (k : ℕ) → index ≡ Some k → result ≡ low bound (Some label) }
{
    match index {
        None => None,
        Some(_) => { if label <= bound { Some(label) } else { None } }
    }
}

fn lesser(a: Option<u32>, b: Option<u32>) -> Option<u32>
    ensures { result ≡ lesser a b }
{
    match (a, b) {
        (None, b) => b,
        (Some(a), None) => Some(a),
        (Some(a), Some(b)) => Some(a.min(b)),
    }
}

// How many digits, after so many, lead from the process on to the lock of this number, where so many locks stand before it.
#[cycle(depth)]
fn depth_from(p: &Process, digits: &[u8], number: u32, before: u32, depth: u64) -> Option<u64>
    requires locks { before + lock_count (proc p.now) < 2 ^ 32 }
    requires short { depth + length digits.now < 2 ^ 64 }
    ensures { result ≡ depth_from number before depth (Some (proc p.now)) digits.now }
{
    match digits.split_first() {
        None => None,
        Some((digit, rest)) => {
            if is_number(p, number, before) {
                return Some(depth);
            }
            depth_below(p, *digit, rest, number, before, depth + 1)
        }
    }
}

// The same from the child of this digit on.
#[cycle(depth)]
fn depth_below(
    p: &Process,
    digit: u8,
    rest: &[u8],
    number: u32,
    before: u32,
    depth: u64,
) -> Option<u64>
    requires locks { before + lock_count (proc p.now) < 2 ^ 32 }
    requires short { depth + length rest.now < 2 ^ 64 }
    ensures { result ≡ depth_from number (before + head_locks (proc p.now) + beside (proc p.now) digit) depth
        (child (proc p.now) digit) rest.now }
{
    match child(p, digit) {
        None => None,
        Some(q) => {
            let before = before + head_locks(p) + beside(p, digit);
            depth_from(q, rest, number, before, depth)
        }
    }
}

fn head_locks(p: &Process) -> u32
    ensures { result ≡ head_locks (proc p.now) }
{
    match p {
        Process::Lock(_, _, _) => 1,
        _ => 0,
    }
}

// Whether the head is the lock of this number, where so many stand before it.
fn is_number(p: &Process, number: u32, before: u32) -> bool
    requires { before + lock_count (proc p.now) < 2 ^ 32 }
    ensures { result ≡ is_number number before (proc p.now) }
{
    match p {
        Process::Lock(_, _, _) => before + 1 == number,
        _ => false,
    }
}
