//! The numbers of steps are of 64 bits. What stands here does nothing when it runs: it shows what the types say.
ghost use Rattle.std.specs.Prelude.{map};
ghost use Rattle.sap_run_lines.specs.RunTerms.{IsNumber};
ghost use Rattle.sap_run_lines.specs.LineWords.{number};
ghost use Rattle.sap_run_lines.specs.StepLines.{process_words, rule_words};
ghost use Rattle.sap_run_texts.specs.Writable.{AreNumbered};

use sap_runs::{PStep, RStep};
use sap_terms::Numbers;

fn fits(n: u64)
    ensures { IsNumber n }
{}

fn two_fit(first: u64, second: u64)
    ensures first { IsNumber first }
    ensures second { IsNumber second }
{}

fn items_fit(numbers: &[u64])
    ensures { AreNumbered (map number numbers.now) }
{}

fn all_fit(numbers: &Numbers)
    ensures { AreNumbered (map number numbers.now) }
{
    items_fit(numbers.as_slice());
}

/// The numbers that the step's words write are of 64 bits; the terms of its bindings aren't looked at.
pub(crate) fn process_numbers_fit(step: &PStep)
    ensures { AreNumbered (process_words step.now) }
{
    match step {
        PStep::Nil(t) => fits(*t),
        PStep::Par(t) => fits(*t),
        PStep::Rep(t) => fits(*t),
        PStep::New(t, n) => two_fit(*t, *n),
        PStep::Out(t) => fits(*t),
        PStep::Send(t, k) => two_fit(*t, *k),
        PStep::In(t, k) => two_fit(*t, *k),
        PStep::Sync(s, r) => two_fit(*s, *r),
        PStep::Then(t) => fits(*t),
        PStep::Else(t) => fits(*t),
        PStep::Event(t) => fits(*t),
        PStep::Insert(t) => fits(*t),
        PStep::Delete(t) => fits(*t),
        PStep::Found(t) => fits(*t),
        PStep::Missing(t) => fits(*t),
        PStep::Lock(t) => fits(*t),
        PStep::Unlock(t) => fits(*t),
        PStep::Embedded(t, facts, _) => thread_fits(*t, facts),
        PStep::Name(n) => fits(*n),
        PStep::Public(_) => (),
        PStep::Apply(_, entries) => all_fit(entries),
        PStep::Know(k) => fits(*k),
    }
}

fn thread_fits(thread: u64, facts: &Numbers)
    ensures thread { IsNumber thread }
    ensures facts { AreNumbered (map number facts.now) }
{
    all_fit(facts);
}

/// The numbers that the step's words write are of 64 bits; the terms of its bindings aren't looked at.
pub(crate) fn rule_numbers_fit(step: &RStep)
    ensures { AreNumbered (rule_words step.now) }
{
    match step {
        RStep::Fresh(n) => fits(*n),
        RStep::Learn(f) => fits(*f),
        RStep::Own(f) => fits(*f),
        RStep::Public(_) => (),
        RStep::Apply(_, entries) => all_fit(entries),
        RStep::Know(k) => fits(*k),
        RStep::Rule(_, facts, _) => all_fit(facts),
    }
}
