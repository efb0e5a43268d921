//! Written steps of processes.
use crate::copies::copies;
use sap_terms::{Bindings, Copied, Items, Mem, Name, Numbers};
use std::alloc::Global;

/// A written step of a process. Threads, knowledge entries and numbered facts are named by their numbers, each counted
/// from 0 in order of coming; fresh names by theirs.
#[derive(Drop)]
pub enum PStep {
    /// A thread that is nothing ends.
    Nil(u64),
    /// A thread becomes two.
    Par(u64),
    /// A replication gives one more thread.
    Rep(u64),
    /// A thread makes the fresh name with this number.
    New(u64, u64),
    /// A thread puts a term on the public channel.
    Out(u64),
    /// A thread sends on the channel that this entry is.
    Send(u64, u64),
    /// A thread takes this entry.
    In(u64, u64),
    /// The first thread sends to the second.
    Sync(u64, u64),
    /// A thread goes on where its terms are equal.
    Then(u64),
    /// A thread goes on where its terms aren't.
    Else(u64),
    /// A thread shows its event.
    Event(u64),
    /// A thread stores a value.
    Insert(u64),
    /// A thread clears a key.
    Delete(u64),
    /// A thread's key is set.
    Found(u64),
    /// A thread's key isn't set.
    Missing(u64),
    /// A thread takes a lock.
    Lock(u64),
    /// A thread gives a lock back.
    Unlock(u64),
    /// A thread's rule is used on the facts with these numbers, its open variables standing for these terms.
    Embedded(u64, Numbers, Bindings),
    /// The adversary makes the fresh name with this number.
    Name(u64),
    /// The adversary writes down a public name.
    Public(Name),
    /// The adversary applies a symbol to these entries.
    Apply(Name, Numbers),
    /// The adversary shows that it knows this entry.
    Know(u64),
}

/// Steps of a process, in order.
pub type PSteps = Items<PStep>;

impl Copied for PStep {
    fn copy(&self, alloc: Global) -> Result<PStep, Mem> {
        match self {
            PStep::Nil(t) => Ok(PStep::Nil(*t)),
            PStep::Par(t) => Ok(PStep::Par(*t)),
            PStep::Rep(t) => Ok(PStep::Rep(*t)),
            PStep::New(t, n) => Ok(PStep::New(*t, *n)),
            PStep::Out(t) => Ok(PStep::Out(*t)),
            PStep::Send(t, k) => Ok(PStep::Send(*t, *k)),
            PStep::In(t, k) => Ok(PStep::In(*t, *k)),
            PStep::Sync(s, r) => Ok(PStep::Sync(*s, *r)),
            PStep::Then(t) => Ok(PStep::Then(*t)),
            PStep::Else(t) => Ok(PStep::Else(*t)),
            PStep::Event(t) => Ok(PStep::Event(*t)),
            PStep::Insert(t) => Ok(PStep::Insert(*t)),
            PStep::Delete(t) => Ok(PStep::Delete(*t)),
            PStep::Found(t) => Ok(PStep::Found(*t)),
            PStep::Missing(t) => Ok(PStep::Missing(*t)),
            PStep::Lock(t) => Ok(PStep::Lock(*t)),
            PStep::Unlock(t) => Ok(PStep::Unlock(*t)),
            PStep::Embedded(t, facts, bindings) => {
                let (facts, bindings) = copies(alloc, facts, bindings)?;
                Ok(PStep::Embedded(*t, facts, bindings))
            }
            PStep::Name(n) => Ok(PStep::Name(*n)),
            PStep::Public(name) => Ok(PStep::Public(name.copy(alloc)?)),
            PStep::Apply(symbol, entries) => {
                let (symbol, entries) = copies(alloc, symbol, entries)?;
                Ok(PStep::Apply(symbol, entries))
            }
            PStep::Know(k) => Ok(PStep::Know(*k)),
        }
    }
}
