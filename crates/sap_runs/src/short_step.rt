//! Written steps of short runs of processes.
use crate::PStep;
use sap_terms::{Copied, Items, Mem, Term};
use std::alloc::Global;

/// A written step of a short run, in which what the adversary gives is named by its term and the lines by which it came to know
/// it are left out. Threads are named by their numbers, as in a step of a process.
#[derive(Drop)]
pub enum SStep {
    /// A step as a run of a process has it. It is none that writes down a public name or applies a symbol, nor one that takes, is
    /// sent to, or shows an entry.
    Act(PStep),
    /// A thread takes what this term is.
    In(u64, Term),
    /// A thread sends on its channel, which the adversary knows.
    Send(u64),
    /// The adversary shows that it knows what this term is.
    Know(Term),
}

/// Steps of a short run, in order.
pub type SSteps = Items<SStep>;

impl Copied for SStep {
    fn copy(&self, alloc: Global) -> Result<SStep, Mem> {
        match self {
            SStep::Act(step) => Ok(SStep::Act(step.copy(alloc)?)),
            SStep::In(t, term) => Ok(SStep::In(*t, term.copy(alloc)?)),
            SStep::Send(t) => Ok(SStep::Send(*t)),
            SStep::Know(term) => Ok(SStep::Know(term.copy(alloc)?)),
        }
    }
}
