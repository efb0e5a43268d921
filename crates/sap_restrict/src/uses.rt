//! Which forms of process a process has.
ghost use Rattle.std.specs.Prelude.{◌≡◌, ◌||◌};
ghost use Rattle.sap_process.specs.Proc.{proc};
ghost use Rattle.sap_restrict.specs.Needed.{has, is_test, is_lookup, is_lock, is_input};

use sap_process::{Children, Process};

/// The forms of which restrictions speak, each with whether it occurs.
#[derive(Clone, Copy)]
pub(crate) struct Uses {
    pub(crate) test: bool,
    pub(crate) lookup: bool,
    pub(crate) lock: bool,
    pub(crate) input: bool,
}

/// None of them.
const NONE: Uses = Uses {
    test: false,
    lookup: false,
    lock: false,
    input: false,
};

/// Those that the process has. It recurses as deep as the process.
pub(crate) fn uses_of(p: &Process) -> Uses
    ensures test { result.test ≡ has is_test (proc p.now) }
    ensures lookup { result.lookup ≡ has is_lookup (proc p.now) }
    ensures lock { result.lock ≡ has is_lock (proc p.now) }
    ensures input { result.input ≡ has is_input (proc p.now) }
{
    let below = match p.children() {
        Children::Nothing => NONE,
        Children::One(q) => uses_of(q),
        Children::Two(q, r) => joined(uses_of(q), uses_of(r)),
    };
    with_head(p, below)
}

/// These, and what stands at the head of the process.
fn with_head(p: &Process, uses: Uses) -> Uses
    ensures test { result.test ≡ (is_test (proc p.now) || uses.test) }
    ensures lookup { result.lookup ≡ (is_lookup (proc p.now) || uses.lookup) }
    ensures lock { result.lock ≡ (is_lock (proc p.now) || uses.lock) }
    ensures input { result.input ≡ (is_input (proc p.now) || uses.input) }
{
    match p {
        Process::If(_, _, _, _) => Uses { test: true, ..uses },
        Process::Lookup(_, _, _, _) => Uses {
            lookup: true,
            ..uses
        },
        Process::Lock(_, _, _) => Uses { lock: true, ..uses },
        Process::In(_, _) | Process::Recv(_, _, _) | Process::Send(_, _, _) => Uses {
            input: true,
            ..uses
        },
        _ => uses,
    }
}

/// Those of one or the other.
fn joined(one: Uses, other: Uses) -> Uses
    ensures test { result.test ≡ (one.test || other.test) }
    ensures lookup { result.lookup ≡ (one.lookup || other.lookup) }
    ensures lock { result.lock ≡ (one.lock || other.lock) }
    ensures input { result.input ≡ (one.input || other.input) }
{
    Uses {
        test: one.test || other.test,
        lookup: one.lookup || other.lookup,
        lock: one.lock || other.lock,
        input: one.input || other.input,
    }
}
