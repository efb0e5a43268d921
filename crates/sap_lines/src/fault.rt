//! Why a line of a process run is refused.
ghost use Rattle.std.specs.Prelude.{◌≡◌};
ghost use Rattle.sap_lines.specs.declared.fault.PFault.TheVariants.{Mem as OutOfMemory};

use sap_terms::{Mem, Name};

/// Why a step of a process is refused. A line's tests come in the order of its step, and the first that fails is answered.
#[derive(Drop)]
pub enum PFault {
    /// Want of memory.
    Mem,
    /// No running thread has the number.
    NoThread { t: u64 },
    /// The thread's process isn't of the form that the line asks of it.
    WrongForm { t: u64 },
    /// The first number that isn't an entry.
    NoEntry { k: u64 },
    /// A process or the adversary made the name before.
    UsedName { n: u64 },
    /// The symbol isn't held, or it is private.
    NotPublic { f: Name },
    /// So many entries are not the symbol's arity.
    Arity { f: Name },
    /// The line cites too few facts, or too many, for the left side of the embedded rule.
    FactCount,
    /// At this index of the line's numbers, from 1, stands the first that is no live fact's, or a linear fact's that was
    /// cited before.
    FactMissing { place: u64 },
    /// The bindings aren't of the variables that the left side leaves open, in order, each to a ground normal term of its
    /// sort.
    BadBinding,
    /// No substitution turns the pattern into the entry, into what is sent, or into the cited facts.
    NoMatch,
    /// A normal form passes the limit on nodes.
    TermLarge,
    /// The terms, or the channels, differ.
    Unequal,
    /// The terms are equal.
    Equal,
    /// The term is held.
    Held,
    /// The store has nothing at the key.
    Unset,
    /// The store has a value at the key.
    Set,
}

impl From<Mem> for PFault {
    ghost from_gives = { λ _ e. e ≡ OutOfMemory };

    fn from(_e: Mem) -> PFault {
        PFault::Mem
    }
}
