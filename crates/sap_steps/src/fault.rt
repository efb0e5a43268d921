//! Why a line of a rule run is refused.
ghost use Rattle.std.specs.Prelude.{◌≡◌};
ghost use Rattle.sap_steps.specs.declared.fault.RFault.TheVariants.{Mem as OutOfMemory};
ghost use Rattle.sap_steps.specs.code.Firing.{limited_fault};

use sap_deduce::Deny;
use sap_rewrite::Cut;
use sap_terms::{Mem, Name};

/// Why a step of rules is refused. A line's tests come in the order of its step, and the first that fails is answered.
#[derive(Drop)]
pub enum RFault {
    /// Want of memory.
    Mem,
    /// No rule has the name.
    NoRule,
    /// The line cites too few facts, or too many, for the rule's left side.
    FactCount,
    /// At this index of the line's numbers, from 1, stands the first that is no live fact's, or a linear fact's that was
    /// cited before.
    FactMissing { place: u64 },
    /// The bindings aren't of the rule's open variables, in order, each to a ground normal term of its sort.
    BadBinding,
    /// No substitution turns the left side into the cited facts.
    NoMatch,
    /// A normal form passes the limit on nodes.
    TermLarge,
    /// Where a destructor stands in the left side, a cited fact holds another normal form.
    Unequal,
    /// The name was made before.
    UsedName { n: u64 },
    /// The number isn't that of a live fact of the kind that the step takes.
    WrongFact { f: u64 },
    /// The first number that isn't an entry.
    NoEntry { k: u64 },
    /// The symbol isn't held, or it is private.
    NotPublic { f: Name },
    /// So many entries are not the symbol's arity.
    Arity { f: Name },
}

impl From<Mem> for RFault {
    ghost from_gives = { λ _ e. e ≡ OutOfMemory };

    fn from(_e: Mem) -> RFault {
        RFault::Mem
    }
}

impl From<Cut> for RFault {
    ghost from_gives = { λ c e. e ≡ limited_fault c };

    fn from(c: Cut) -> RFault {
        match c {
            Cut::Mem => RFault::Mem,
            Cut::Large => RFault::TermLarge,
        }
    }
}

impl From<Deny> for RFault {
    ghost use Rattle.sap_steps.specs.code.Denied.{denied_fault};

    ghost from_gives = { λ d e. e ≡ denied_fault d };

    fn from(d: Deny) -> RFault {
        match d {
            Deny::Mem => RFault::Mem,
            Deny::NotPublic { f } => RFault::NotPublic { f },
            Deny::Arity { f } => RFault::Arity { f },
            Deny::NoEntry { k } => RFault::NoEntry { k },
            Deny::TermLarge => RFault::TermLarge,
        }
    }
}
