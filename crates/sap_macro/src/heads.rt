//! Heads of processes as they are written, with what stands for their names put in, over what follows them.
ghost use Rattle.std.specs.Prelude.{◌≡◌, false, IfOk};
ghost use Rattle.sap_process.specs.Action.{event};
ghost use Rattle.sap_process.specs.Instance.{action_instance};
ghost use Rattle.sap_process.specs.Proc.{proc, nil, act};
ghost use Rattle.sap_macro.specs.Expansion.{binding};
ghost use Rattle.sap_macro.specs.Sources.{doing, written};
ghost use Rattle.sap_macro.specs.UpToNames.{fact};
ghost use Rattle.sap_macro.specs.code.Heads.{headed, forked};
ghost use Rattle.sap_macro.specs.code.Standings.{choice_of, name_of};

use crate::source::{Doing, Source};
use crate::standing::{Standing, bound_in};
use sap_process::{
    Deed, Process, Transfer, creating, embedding, ended, looking_up, over_term, over_terms,
    repeated, showing, side_by_side, testing,
};
use sap_terms::{Copied, Fact, Mem, Name, TermList, boxed};
use std::alloc::Global;

/// The event of this name with these arguments, and `0`.
pub(crate) fn told(alloc: Global, name: &Name, args: &TermList) -> Result<Box<Process>, Mem>
    ensures { IfOk result (λ p. proc p.value ≡ act (event (fact name.now false args.now)) nil) }
{
    let next = ended(alloc)?;
    let args = args.copy(alloc)?;
    let name = name.copy(alloc)?;
    let f = Fact {
        name,
        persistent: false,
        args,
    };
    boxed(alloc, Process::Event(f, next))
}

// The process that does this and goes on as that one.
fn acting(
    alloc: Global,
    s: &Standing,
    first: &Doing,
    next: Box<Process>,
) -> Result<Box<Process>, Mem>
    ensures { IfOk result (λ p. proc p.value
        ≡ act (binding (name_of s.now) (action_instance (choice_of s.now) (doing first.now))) (proc next.value)) }
{
    match first {
        Doing::New(x) => creating(alloc, s, x, next),
        Doing::Out(t) => over_term(alloc, s, Deed::Out, t, next),
        Doing::Send(t, u) => over_terms(alloc, s, Transfer::Send, t, u, next),
        Doing::In(t) => over_term(alloc, s, Deed::In, t, next),
        Doing::Recv(t, u) => over_terms(alloc, s, Transfer::Recv, t, u, next),
        Doing::Event(f) => showing(alloc, s, f, next),
        Doing::Insert(t, u) => over_terms(alloc, s, Transfer::Insert, t, u, next),
        Doing::Delete(t) => over_term(alloc, s, Deed::Delete, t, next),
        Doing::Lock(t) => over_term(alloc, s, Deed::Lock(0), t, next),
        Doing::Unlock(t) => over_term(alloc, s, Deed::Unlock(0), t, next),
        Doing::Embedded(l, e, r) => embedding(alloc, s, l, e, r, next),
    }
}

/// The head of what has one process below, over this one.
pub(crate) fn over_one(
    alloc: Global,
    s: &Standing,
    form: &Source,
    next: Box<Process>,
) -> Result<Box<Process>, Mem>
    ensures { IfOk result (λ p. proc p.value ≡ headed s.now (written form.now) (proc next.value)) }
{
    match form {
        Source::Act(_, first, _) => acting(alloc, s, first, next),
        Source::Rep(_, _) => repeated(alloc, next),
        _ => Ok(next),
    }
}

/// The head of what has two below, over these.
pub(crate) fn over_two(
    alloc: Global,
    s: &Standing,
    form: &Source,
    left: Box<Process>,
    right: Box<Process>,
) -> Result<Box<Process>, Mem>
    ensures { IfOk result (λ p. proc p.value
        ≡ forked s.now (written form.now) (proc left.value) (proc right.value)) }
{
    match form {
        Source::Par(_, _, _) => side_by_side(alloc, left, right),
        Source::If(_, t, u, _, _) => testing(alloc, s, t, u, left, right),
        Source::Lookup(_, t, x, _, _) => looking_up(
            alloc,
            s,
            t,
            bound_in(alloc, s, x)?,
            left,
            right,
        ),
        _ => Ok(left),
    }
}
