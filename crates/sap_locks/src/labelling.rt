//! Labels of locks, set in place.
ghost use Rattle.std.specs.Prelude.{◌≡◌, ◌<◌, ◌+◌, ◌^◌, OnOk, ◌∷◌};
ghost use Rattle.sap_terms.specs.View.{tree};
ghost use Rattle.sap_process.specs.Proc.{proc};
ghost use Rattle.sap_held.specs.Held.{IsLastOpen, dropped, opens};
ghost use Rattle.sap_locks.specs.code.Labels.{labelled_from};
ghost use Rattle.sap_locks.specs.Ways.{lock_count};

use sap_held::{Held, last_of, set_open};
use sap_process::Process;
use sap_terms::{Copied, Mem, Term};
use std::alloc::Global;

// The locks above a place, the outermost first, and how many stand before it in preorder.
#[derive(Drop)]
pub(crate) struct Locks {
    pub(crate) held: Vec<Held>,
    pub(crate) count: u32,
}

// Sets the labels from this place on.
#[cycle(label)]
pub(crate) fn label(p: &mut Process, alloc: Global, locks: &mut Locks) -> Result<(), Mem>
    requires { locks.now.count + lock_count (proc p.now) < 2 ^ 32 }
    ensures made { OnOk result (proc p.new ≡ labelled_from (opens locks.old.held.items) locks.old.count (proc p.old)) }
    ensures same { OnOk result (locks.new.held.items ≡ locks.old.held.items) }
    ensures count { OnOk result (locks.new.count ≡ locks.old.count + lock_count (proc p.old)) }
{
    match p {
        Process::Nil => Ok(()),
        Process::Par(q, r) => label_both(q, r, alloc, locks),
        Process::If(_, _, q, r) => label_both(q, r, alloc, locks),
        Process::Lookup(_, _, q, r) => label_both(q, r, alloc, locks),
        Process::Rep(q) => label_child(q, alloc, locks),
        Process::New(_, q) => label_child(q, alloc, locks),
        Process::Out(_, q) => label_child(q, alloc, locks),
        Process::Send(_, _, q) => label_child(q, alloc, locks),
        Process::In(_, q) => label_child(q, alloc, locks),
        Process::Recv(_, _, q) => label_child(q, alloc, locks),
        Process::Event(_, q) => label_child(q, alloc, locks),
        Process::Insert(_, _, q) => label_child(q, alloc, locks),
        Process::Delete(_, q) => label_child(q, alloc, locks),
        Process::Embedded(_, _, _, q) => label_child(q, alloc, locks),
        Process::Lock(t, n, q) => {
            *n = locks.count + 1;
            label_locked(q, alloc, locks, t)
        }
        Process::Unlock(t, n, q) => {
            let last = last_of(locks.held.as_slice(), t);
            *n = last.label;
            label_unlocked(q, alloc, locks, t, last.index)
        }
    }
}

// Sets the labels of the child.
#[cycle(label)]
fn label_child(q: &mut Box<Process>, alloc: Global, locks: &mut Locks) -> Result<(), Mem>
    requires { locks.now.count + lock_count (proc q.now.value) < 2 ^ 32 }
    ensures made { OnOk result (proc q.new.value ≡ labelled_from (opens locks.old.held.items) locks.old.count (proc q.old.value)) }
    ensures same { OnOk result (locks.new.held.items ≡ locks.old.held.items) }
    ensures count { OnOk result (locks.new.count ≡ locks.old.count + lock_count (proc q.old.value)) }
{
    label(q, alloc, locks)
}

// Sets the labels of the two children.
#[cycle(label)]
fn label_both(
    q: &mut Box<Process>,
    r: &mut Box<Process>,
    alloc: Global,
    locks: &mut Locks,
) -> Result<(), Mem>
    requires { locks.now.count + (lock_count (proc q.now.value) + lock_count (proc r.now.value)) < 2 ^ 32 }
    ensures first { OnOk result (proc q.new.value ≡ labelled_from (opens locks.old.held.items) locks.old.count (proc q.old.value)) }
    ensures second { OnOk result (proc r.new.value
        ≡ labelled_from (opens locks.old.held.items) (locks.old.count + lock_count (proc q.old.value)) (proc r.old.value)) }
    ensures same { OnOk result (locks.new.held.items ≡ locks.old.held.items) }
    ensures count { OnOk result (locks.new.count ≡ locks.old.count + (lock_count (proc q.old.value) + lock_count (proc r.old.value))) }
{
    label(q, alloc, locks)?;
    label(r, alloc, locks)
}

// Sets the labels below a lock of the term.
#[cycle(label)]
fn label_locked(q: &mut Box<Process>, alloc: Global, locks: &mut Locks, t: &Term) -> Result<(), Mem>
    requires { locks.now.count + 1 + lock_count (proc q.now.value) < 2 ^ 32 }
    ensures made { OnOk result (proc q.new.value ≡ labelled_from ((locks.old.count + 1, tree t.now) ∷ opens locks.old.held.items) (locks.old.count + 1) (proc q.old.value)) }
    ensures same { OnOk result (locks.new.held.items ≡ locks.old.held.items) }
    ensures count { OnOk result (locks.new.count ≡ locks.old.count + 1 + lock_count (proc q.old.value)) }
{
    let term = t.copy(alloc)?;
    locks.held.push(Held {
        label: locks.count + 1,
        term,
        is_open: true,
    })?;
    locks.count += 1;
    label(q, alloc, locks)?;
    drop(locks.held.pop());
    Ok(())
}

// Sets the labels below an unlock of the term, which ends this lock, if there is one.
#[cycle(label)]
fn label_unlocked(
    q: &mut Box<Process>,
    alloc: Global,
    locks: &mut Locks,
    t: &Term,
    last: Option<u64>,
) -> Result<(), Mem>
    requires small { locks.now.count + lock_count (proc q.now.value) < 2 ^ 32 }
    requires last { IsLastOpen (tree t.now) locks.now.held.items last }
    ensures made { OnOk result (proc q.new.value ≡ labelled_from (dropped (tree t.now) (opens locks.old.held.items)) locks.old.count (proc q.old.value)) }
    ensures same { OnOk result (locks.new.held.items ≡ locks.old.held.items) }
    ensures count { OnOk result (locks.new.count ≡ locks.old.count + lock_count (proc q.old.value)) }
{
    match last {
        None => label(q, alloc, locks),
        Some(k) => {
            set_open(&mut locks.held, k, false);
            label(q, alloc, locks)?;
            set_open(&mut locks.held, k, true);
            Ok(())
        }
    }
}
