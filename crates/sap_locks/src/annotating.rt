//! Annotation.
ghost use Rattle.std.specs.Prelude.{◌≡◌, ◌<◌, ◌^◌, ℕ, List, [], IfOk, OnOk, IsErrOf, option_map, cond};
ghost use Rattle.sap_process.specs.Proc.{proc, node_count};
ghost use Rattle.sap_locks.specs.Annotation.{IsAnnotation, IsFirstLockFlaw, without, over};
ghost use Rattle.sap_locks.specs.code.Labels.{labelled, first_flaw};
ghost use Rattle.sap_locks.specs.code.Seen.{flaw_seen, told};
ghost use Rattle.sap_locks.specs.Ways.{lock_count};
ghost use Rattle.sap_locks.specs.declared.fault.LockFault.TheVariants.{UnlockWithoutLock, LockOverParallel};

use crate::fault::LockFault;
use crate::labelling::{Locks, label};
use crate::searching::{Found, search};
use sap_process::Process;
use sap_terms::{Mem, Path, boxed};
use std::alloc::Global;

/// The process with labels: locks are numbered from 1 as they come in preorder, and each unlock gets the number of the lock
/// that it ends, which of the locks on the way to it that have its term and aren't ended yet is the last one. Else the first
/// place in preorder that can't be annotated: an unlock that ends nothing, or a parallel or a replication below which an unlock
/// would end a lock that stands above it. A refusal doesn't give the process back.
///
/// It takes time in proportion to the process, but that each unlock is compared with the locks above it, and recurses as deep as
/// the process and its terms.
pub fn annotate(alloc: Global, p: Process) -> Result<Process, LockFault>
    requires { node_count (proc p) < 2 ^ 32 }
    ensures annotated { IfOk result (λ q. IsAnnotation (proc p) (proc q)) }
    ensures without_lock { (path : List ℕ) → IsErrOf result (UnlockWithoutLock path) → IsFirstLockFlaw (proc p) without path }
    ensures over_parallel { (path : List ℕ) → IsErrOf result (LockOverParallel path) → IsFirstLockFlaw (proc p) over path }
{
    let whole = boxed(alloc, p)?;
    Ok(Box::into_inner(annotate_boxed(alloc, whole)?))
}

/// The same, in a box.
pub fn annotate_boxed(alloc: Global, p: Box<Process>) -> Result<Box<Process>, LockFault>
    requires { node_count (proc p.value) < 2 ^ 32 }
    ensures annotated { IfOk result (λ q. IsAnnotation (proc p.value) (proc q.value)) }
    ensures without_lock { (path : List ℕ) → IsErrOf result (UnlockWithoutLock path) → IsFirstLockFlaw (proc p.value) without path }
    ensures over_parallel { (path : List ℕ) → IsErrOf result (LockOverParallel path) → IsFirstLockFlaw (proc p.value) over path }
{
    let mut p = p;
    match annotate_in_place(alloc, &mut p) {
        Ok(()) => Ok(p),
        Err(fault) => Err(fault),
    }
}

fn annotate_in_place(alloc: Global, p: &mut Process) -> Result<(), LockFault>
    requires { node_count (proc p.now) < 2 ^ 32 }
    ensures annotated { OnOk result (IsAnnotation (proc p.old) (proc p.new)) }
    ensures without_lock { (path : List ℕ) → IsErrOf result (UnlockWithoutLock path) → IsFirstLockFlaw (proc p.old) without path }
    ensures over_parallel { (path : List ℕ) → IsErrOf result (LockOverParallel path) → IsFirstLockFlaw (proc p.old) over path }
{
    set_labels(alloc, p)?;
    match fault_in(alloc, p)? {
        None => Ok(()),
        Some(fault) => Err(fault),
    }
}

fn set_labels(alloc: Global, p: &mut Process) -> Result<(), Mem>
    requires { node_count (proc p.now) < 2 ^ 32 }
    ensures { OnOk result (proc p.new ≡ labelled (proc p.old)) }
{
    let mut locks = Locks {
        held: Vec::new(alloc),
        count: 0,
    };
    label(p, alloc, &mut locks)
}

// The fault of the first place that can't be annotated, of a labelled process.
fn fault_in(alloc: Global, p: &Process) -> Result<Option<LockFault>, Mem>
    requires { lock_count (proc p.now) < 2 ^ 32 }
    ensures { IfOk result (λ o. o ≡ option_map told (first_flaw (proc p.now))) }
{
    let mut trail = Path::new(alloc);
    let seen = search(p, alloc, &mut trail, 0)?;
    Ok(told_of(seen.found))
}

fn told_of(found: Option<Found>) -> Option<LockFault>
    ensures { result ≡ option_map told (flaw_seen found) }
{
    match found {
        None => None,
        Some(f) => Some(told(f.is_over, f.path)),
    }
}

fn told(is_over: bool, path: Path) -> LockFault
    ensures { result ≡ told (cond is_over over without, path) }
{
    if is_over {
        return LockFault::LockOverParallel { path };
    }
    LockFault::UnlockWithoutLock { path }
}
