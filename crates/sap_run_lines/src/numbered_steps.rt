//! The steps with a first word and numbers alone behind it.
ghost use Rattle.std.specs.Prelude.{◌≡◌};
ghost use Rattle.sap_run_lines.specs.NumberedSteps.{process_one, process_two, rule_one};
ghost use Rattle.sap_run_lines.specs.code.StepTaking.{later_one};

use crate::take_steps::is;
use sap_runs::{PStep, RStep};

/// The step of a process with this word and this number behind it.
pub fn process_one(word: &[u8], t: u64) -> Option<PStep>
    ensures { result ≡ process_one word.now t }
{
    if is(word, b"nil") {
        Some(PStep::Nil(t))
    } else if is(word, b"par") {
        Some(PStep::Par(t))
    } else if is(word, b"rep") {
        Some(PStep::Rep(t))
    } else if is(word, b"out") {
        Some(PStep::Out(t))
    } else if is(word, b"then") {
        Some(PStep::Then(t))
    } else if is(word, b"else") {
        Some(PStep::Else(t))
    } else if is(word, b"event") {
        Some(PStep::Event(t))
    } else {
        later_one(word, t)
    }
}

// The step with such a word, where it is one of the last seven.
fn later_one(word: &[u8], t: u64) -> Option<PStep>
    ensures { result ≡ later_one word.now t }
{
    if is(word, b"insert") {
        Some(PStep::Insert(t))
    } else if is(word, b"delete") {
        Some(PStep::Delete(t))
    } else if is(word, b"found") {
        Some(PStep::Found(t))
    } else if is(word, b"missing") {
        Some(PStep::Missing(t))
    } else if is(word, b"lock") {
        Some(PStep::Lock(t))
    } else if is(word, b"unlock") {
        Some(PStep::Unlock(t))
    } else if is(word, b"know") {
        Some(PStep::Know(t))
    } else {
        None
    }
}

/// The step of a process with this word and these two numbers behind it.
pub fn process_two(word: &[u8], a: u64, b: u64) -> Option<PStep>
    ensures { result ≡ process_two word.now a b }
{
    if is(word, b"send") {
        Some(PStep::Send(a, b))
    } else if is(word, b"in") {
        Some(PStep::In(a, b))
    } else if is(word, b"sync") {
        Some(PStep::Sync(a, b))
    } else {
        None
    }
}

/// The step of rules with this word and this number behind it.
pub fn rule_one(word: &[u8], f: u64) -> Option<RStep>
    ensures { result ≡ rule_one word.now f }
{
    if is(word, b"learn") {
        Some(RStep::Learn(f))
    } else if is(word, b"own") {
        Some(RStep::Own(f))
    } else if is(word, b"know") {
        Some(RStep::Know(f))
    } else {
        None
    }
}
