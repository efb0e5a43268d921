//! The search for the first place that can't be annotated.
ghost use Rattle.std.specs.Prelude.{◌≡◌, ◌<◌, ◌+◌, ◌^◌, ◌++◌, ◌∷◌, [], Some, None, cond, nat_eq, OnOk, IfOk};
ghost use Rattle.sap_terms.specs.Path.{IsDigit};
ghost use Rattle.sap_process.specs.Proc.{proc};
ghost use Rattle.sap_locks.specs.Annotation.{over, without};
ghost use Rattle.sap_locks.specs.code.Labels.{first_flaw_from, lowest, lesser, is_at_most, own_label, or_else};
ghost use Rattle.sap_locks.specs.code.Seen.{flaw_seen};
ghost use Rattle.sap_locks.specs.Ways.{lock_count};

use sap_process::Process;
use sap_terms::{Copied, Mem, Path};
use std::alloc::Global;

// A place that can't be annotated: a parallel or a replication, or else an unlock.
#[derive(Drop)]
pub(crate) struct Found {
    pub(crate) is_over: bool,
    pub(crate) path: Path,
}

// What was seen of the places from one on: the lowest label of an unlock there, how many locks stand up to their end, and
// the first that can't be annotated.
#[derive(Drop)]
pub(crate) struct Seen {
    pub(crate) lowest: Option<u32>,
    pub(crate) after: u32,
    pub(crate) found: Option<Found>,
}

// Searches the places from this one on, where so many locks stand before it.
#[cycle(search)]
pub(crate) fn search(p: &Process, alloc: Global, trail: &mut Path, before: u32) -> Result<Seen, Mem>
    requires { before + lock_count (proc p.now) < 2 ^ 32 }
    ensures lowest { IfOk result (λ s. s.lowest ≡ lowest (proc p.now)) }
    ensures after { IfOk result (λ s. s.after ≡ before + lock_count (proc p.now)) }
    ensures found { IfOk result (λ s. flaw_seen s.found ≡ first_flaw_from trail.old before (proc p.now)) }
    ensures same { OnOk result (trail.new ≡ trail.old) }
{
    match p {
        Process::Nil => Ok(Seen {
            lowest: None,
            after: before,
            found: None,
        }),
        Process::Par(q, r) => {
            let a = search_both(q, r, alloc, trail, before)?;
            forked(alloc, trail, before, a)
        }
        Process::Rep(q) => {
            let a = search_child(q, alloc, trail, 1, before)?;
            forked(alloc, trail, before, a)
        }
        Process::If(_, _, q, r) | Process::Lookup(_, _, q, r) => {
            search_both(q, r, alloc, trail, before)
        }
        Process::Lock(_, _, q) => search_child(q, alloc, trail, 1, before + 1),
        Process::Unlock(_, n, q) => {
            let a = search_child(q, alloc, trail, 1, before)?;
            unlocked(alloc, trail, *n, a)
        }
        Process::New(_, q)
        | Process::Out(_, q)
        | Process::Send(_, _, q)
        | Process::In(_, q)
        | Process::Recv(_, _, q)
        | Process::Event(_, q)
        | Process::Insert(_, _, q)
        | Process::Delete(_, q)
        | Process::Embedded(_, _, _, q) => search_child(q, alloc, trail, 1, before),
    }
}

#[cycle(search)]
fn search_both(
    q: &Process,
    r: &Process,
    alloc: Global,
    trail: &mut Path,
    before: u32,
) -> Result<Seen, Mem>
    requires { before + (lock_count (proc q.now) + lock_count (proc r.now)) < 2 ^ 32 }
    ensures lowest { IfOk result (λ s. s.lowest ≡ lesser (lowest (proc q.now)) (lowest (proc r.now))) }
    ensures after { IfOk result (λ s. s.after ≡ before + (lock_count (proc q.now) + lock_count (proc r.now))) }
    ensures found { IfOk result (λ s. flaw_seen s.found
        ≡ or_else (first_flaw_from (trail.old ++ 1 ∷ []) before (proc q.now))
        (first_flaw_from (trail.old ++ 2 ∷ []) (before + lock_count (proc q.now)) (proc r.now))) }
    ensures same { OnOk result (trail.new ≡ trail.old) }
{
    let a = search_child(q, alloc, trail, 1, before)?;
    match search_child(r, alloc, trail, 2, a.after) {
        Err(mem) => {
            drop(a);
            Err(mem)
        }
        Ok(b) => Ok(joined(a, b)),
    }
}

#[cycle(search)]
fn search_child(
    q: &Process,
    alloc: Global,
    trail: &mut Path,
    digit: u8,
    before: u32,
) -> Result<Seen, Mem>
    requires digit { IsDigit digit }
    requires small { before + lock_count (proc q.now) < 2 ^ 32 }
    ensures lowest { IfOk result (λ s. s.lowest ≡ lowest (proc q.now)) }
    ensures after { IfOk result (λ s. s.after ≡ before + lock_count (proc q.now)) }
    ensures found { IfOk result (λ s. flaw_seen s.found ≡ first_flaw_from (trail.old ++ digit ∷ []) before (proc q.now)) }
    ensures same { OnOk result (trail.new ≡ trail.old) }
{
    trail.push(digit)?;
    let seen = search(q, alloc, trail, before)?;
    trail.pop();
    Ok(seen)
}

// What was seen of two parts.
fn joined(a: Seen, b: Seen) -> Seen
    ensures lowest { result.lowest ≡ lesser a.lowest b.lowest }
    ensures after { result.after ≡ b.after }
    ensures found { flaw_seen result.found ≡ or_else (flaw_seen a.found) (flaw_seen b.found) }
{
    Seen {
        lowest: lesser(a.lowest, b.lowest),
        after: b.after,
        found: a.found.or(b.found),
    }
}

fn lesser(a: Option<u32>, b: Option<u32>) -> Option<u32>
    ensures { result ≡ lesser a b }
{
    match (a, b) {
        (None, b) => b,
        (Some(a), None) => Some(a),
        (Some(a), Some(b)) => Some(a.min(b)),
    }
}

// With the flaw of a parallel or a replication, below which this was seen.
fn forked(alloc: Global, trail: &Path, before: u32, seen: Seen) -> Result<Seen, Mem>
    ensures lowest { IfOk result (λ s. s.lowest ≡ seen.lowest) }
    ensures after { IfOk result (λ s. s.after ≡ seen.after) }
    ensures found { IfOk result (λ s. flaw_seen s.found
        ≡ or_else (cond (is_at_most seen.lowest before) (Some (over, trail.now)) None) (flaw_seen seen.found)) }
{
    if !is_at_most(seen.lowest, before) {
        return Ok(seen);
    }
    let Seen {
        lowest,
        after,
        found,
    } = seen;
    drop(found);
    let path = trail.copy(alloc)?;
    Ok(Seen {
        lowest,
        after,
        found: Some(Found {
            is_over: true,
            path,
        }),
    })
}

fn is_at_most(lowest: Option<u32>, k: u32) -> bool
    ensures { result ≡ is_at_most lowest k }
{
    match lowest {
        None => false,
        Some(l) => l <= k,
    }
}

// With the label of an unlock, and its flaw where it has none.
fn unlocked(alloc: Global, trail: &Path, label: u32, seen: Seen) -> Result<Seen, Mem>
    ensures lowest { IfOk result (λ s. s.lowest ≡ lesser (own_label label) seen.lowest) }
    ensures after { IfOk result (λ s. s.after ≡ seen.after) }
    ensures found { IfOk result (λ s. flaw_seen s.found
        ≡ or_else (cond (nat_eq label 0) (Some (without, trail.now)) None) (flaw_seen seen.found)) }
{
    let Seen {
        lowest,
        after,
        found,
    } = seen;
    if label == 0 {
        drop(found);
        let path = trail.copy(alloc)?;
        return Ok(Seen {
            lowest,
            after,
            found: Some(Found {
                is_over: false,
                path,
            }),
        });
    }
    Ok(Seen {
        lowest: lesser(Some(label), lowest),
        after,
        found,
    })
}
