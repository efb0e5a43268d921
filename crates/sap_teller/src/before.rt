//! What is kept of a line before it is done.
ghost use Rattle.std.specs.Prelude.{◌≡◌, length, IfOk};
ghost use Rattle.sap_calc.specs.Running.{configuration};
ghost use Rattle.sap_facts.specs.Cited.{cited_at};
ghost use Rattle.sap_teller.specs.code.Heads.{cited_of, form_at, form_of, head_of, sender_of, IsBefore, IsHead, IsKept, IsStored};

use sap_calc::Config;
use sap_lines::Form;
use sap_runs::PStep;
use sap_terms::{FactList, Mem, Term, boxed};
use std::alloc::Global;

/// What is kept of a line before it is done: how many threads, entries and facts there are, what stands at the heads of its threads,
/// what its key has, and the facts that it cites.
#[derive(Drop)]
pub(crate) struct Before {
    pub threads: u64,
    pub entries: u64,
    pub facts: u64,
    pub head: Option<Box<Form>>,
    pub sender: Option<Box<Form>>,
    pub stored: Option<Term>,
    pub cited: FactList,
}

// The thread whose head tells what the line does.
fn head_of(step: &PStep) -> Option<u64>
    ensures { result ≡ head_of step.now }
{
    match step {
        PStep::New(t, _) | PStep::In(t, _) | PStep::Sync(_, t) | PStep::Send(t, _) => Some(*t),
        PStep::Embedded(t, _, _) => Some(*t),
        PStep::Out(t)
        | PStep::Event(t)
        | PStep::Then(t)
        | PStep::Else(t)
        | PStep::Insert(t)
        | PStep::Delete(t)
        | PStep::Found(t)
        | PStep::Missing(t)
        | PStep::Lock(t)
        | PStep::Unlock(t) => Some(*t),
        _ => None,
    }
}

// What stands at the head of the thread whose head tells what the line does.
fn head_at(alloc: Global, config: &Config, step: &PStep) -> Result<Option<Box<Form>>, Mem>
    ensures { IfOk result (IsHead (configuration config.now) (head_of step.now)) }
{
    match head_of(step) {
        Some(t) => config.head(alloc, t),
        None => Ok(None),
    }
}

// What stands at the head of the thread that sends to it.
fn sender_at(alloc: Global, config: &Config, step: &PStep) -> Result<Option<Box<Form>>, Mem>
    ensures { IfOk result (IsHead (configuration config.now) (sender_of step.now)) }
{
    match step {
        PStep::Sync(s, _) => config.head(alloc, *s),
        _ => Ok(None),
    }
}

// What the line's key has, if it looks.
fn stored_at(alloc: Global, config: &mut Config, step: &PStep) -> Result<Option<Term>, Mem>
    ensures ok { IfOk result (IsStored config.old step.now) }
    ensures kept { config.new ≡ config.old }
{
    match step {
        PStep::Found(t) => config.stored(alloc, *t),
        _ => Ok(None),
    }
}

// The facts that the line cites.
fn cited_by(alloc: Global, config: &Config, step: &PStep) -> Result<FactList, Mem>
    ensures { IfOk result (λ fs. fs ≡ cited_at config.now.facts (cited_of step.now)) }
{
    match step {
        PStep::Embedded(_, numbers, _) => config.cited(alloc, numbers),
        _ => Ok(FactList::new(alloc)),
    }
}

// All that is kept, where its parts are found.
fn kept_of(
    alloc: Global,
    config: &Config,
    facts: u64,
    stored: Option<Term>,
    head: Option<Box<Form>>,
    sender: Option<Box<Form>>,
    cited: FactList,
) -> Result<Box<Before>, Mem>
    ensures { IfOk result (λ b. IsKept config.now facts cited stored head sender b.value) }
{
    boxed(
        alloc,
        Before {
            threads: config.thread_count(),
            entries: config.entry_count(),
            facts,
            head,
            sender,
            stored,
            cited,
        },
    )
}

/// What is kept of a line, where so many facts ever were. Nothing changes.
pub(crate) fn kept_before(
    alloc: Global,
    config: &mut Config,
    facts: u64,
    step: &PStep,
) -> Result<Box<Before>, Mem>
    requires { facts ≡ length config.old.facts }
    ensures ok { IfOk result (λ b. IsBefore config.old step.now b.value) }
    ensures kept { config.new ≡ config.old }
{
    let head = head_at(alloc, config, step)?;
    let sender = sender_at(alloc, config, step)?;
    let cited = cited_by(alloc, config, step)?;
    let stored = stored_at(alloc, config, step)?;
    kept_of(alloc, config, facts, stored, head, sender, cited)
}

/// What stands at a head that was kept.
pub(crate) fn lent(head: &Option<Box<Form>>) -> Option<&Form>
    ensures { form_of result ≡ form_at head.now }
{
    match head {
        Some(form) => Some(form),
        None => None,
    }
}
