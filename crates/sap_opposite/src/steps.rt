//! The lines of a run of rules to which those of a run of the process are opposite, by what is written alone.
ghost use Rattle.std.specs.Option.{unwrap_or};
ghost use Rattle.std.specs.Prelude.{◌≡◌, IfOk, cond, slice_get};
ghost use Rattle.sap_opposite.specs.Steps.{ends_wait, has_own, is_know, numbers_where, opposite_steps as steps_of, starts_or_waits};
ghost use Rattle.sap_opposite.specs.code.Kinds.{is_of, step_at};

use sap_runs::{PStep, PSteps, RStep, RSteps};
use sap_terms::{Mem, Name, Numbers};
use std::alloc::Global;

// Lines of rules that are counted: those with a line of their own, and those by which the adversary gives an entry.
#[derive(Clone, Copy)]
enum Kind {
    Own,
    Given,
}

// Whether no line of the process is written for a rule of this name.
fn starts_or_waits(name: &Name) -> bool
    ensures { result ≡ starts_or_waits name.now }
{
    let bytes = name.as_bytes();
    name.is(b"Init")
        || bytes.starts_with(b"RepStart_")
        || bytes.starts_with(b"OutMsg_")
        || bytes.starts_with(b"OutAck_")
}

// Whether one is written for this line of rules that is no `know`.
fn has_own(step: &RStep) -> bool
    ensures { result ≡ has_own step.now }
{
    match step {
        RStep::Fresh(_) | RStep::Learn(_) | RStep::Know(_) => false,
        RStep::Own(_) | RStep::Public(_) | RStep::Apply(_, _) => true,
        RStep::Rule(name, _, _) => !starts_or_waits(name),
    }
}

// Whether the line is of this kind.
fn is_of(kind: Kind, step: &RStep) -> bool
    ensures { result ≡ is_of kind step.now }
{
    match (kind, step) {
        (Kind::Own, step) => has_own(step),
        (Kind::Given, RStep::Know(_)) => true,
        (Kind::Given, _) => false,
    }
}

// The numbers of those of these lines that are of this kind.
fn numbers_where(alloc: Global, kind: Kind, run: &RSteps) -> Result<Numbers, Mem>
    ensures { IfOk result (λ ns. ns ≡ numbers_where (is_of kind) 1 run.now) }
{
    let mut numbers = Numbers::new(alloc);
    for (at, step) in run.as_slice().iter().enumerate() {
        if is_of(kind, step) {
            numbers.push(at as u64 + 1)?;
        }
    }
    Ok(numbers)
}

// Whether the line of the process is a `know`.
fn is_know(step: &PStep) -> bool
    ensures { result ≡ is_know step.now }
{
    match step {
        PStep::Know(_) => true,
        _ => false,
    }
}

// Whether behind it what was given isn't waiting any more.
fn ends_wait(step: &PStep) -> bool
    ensures { result ≡ ends_wait step.now }
{
    match step {
        PStep::Know(_) | PStep::In(_, _) | PStep::Send(_, _) => true,
        _ => false,
    }
}

// The number at index k, 0 where there is none.
fn number_at(numbers: &Numbers, k: u64) -> u64
    ensures { result ≡ unwrap_or (slice_get numbers.now k) 0 }
{
    match numbers.get(k) {
        Some(n) => *n,
        None => 0,
    }
}

// The one of these numbers to which the line is opposite, where so many of the lines before it are no `know`, and behind so many of them
// what was given wasn't waiting any more.
fn step_at(own: &Numbers, given: &Numbers, moved: u64, ended: u64, step: &PStep) -> u64
    ensures { result ≡ step_at own.now given.now moved ended step.now }
{
    if is_know(step) {
        return number_at(given, ended);
    }
    number_at(own, moved)
}

// 1 where it is so.
fn one_where(it: bool) -> u64
    ensures { result ≡ cond it 1 0 }
{
    if it { 1 } else { 0 }
}

/// For each of these lines of a process the number of the line of rules that it is opposite to, from 1, where the lines of rules are
/// converted to these: for a `know` of the one that gave its entry. It is counted from what is written alone, in one pass through both.
/// Want of memory is the only error.
pub fn opposite_steps(alloc: Global, run: &RSteps, lines: &PSteps) -> Result<Numbers, Mem>
    ensures { IfOk result (λ ns. ns ≡ steps_of run.now lines.now) }
{
    let own = numbers_where(alloc, Kind::Own, run)?;
    let given = numbers_where(alloc, Kind::Given, run)?;
    let mut steps = Numbers::with_room(alloc, lines.len())?;
    let mut moved = 0;
    let mut ended = 0;
    for step in lines.as_slice() {
        steps.push(step_at(&own, &given, moved, ended, step))?;
        moved += one_where(!is_know(step));
        ended += one_where(ends_wait(step));
    }
    Ok(steps)
}
