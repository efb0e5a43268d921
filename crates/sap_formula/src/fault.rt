//! What can be wrong in a formula.
ghost use Rattle.std.specs.Prelude.{◌≡◌};
ghost use Rattle.sap_formula.specs.declared.fault.FormulaFault.TheVariants.{Mem as OutOfMemory};

use sap_terms::{Mem, Name};

/// What can be wrong in a formula, in the order in which faults count: the first that stands anywhere is told, at its
/// first part in reading order.
#[derive(Clone, Copy)]
pub enum FormulaFlaw {
    /// A symbol that isn't held or has another arity.
    BadFunction,
    /// A destructor in a term.
    Destructor,
    /// A reserved fact name other than `K`.
    Reserved,
    /// A variable without a binder of its name and kind, or with a sign that isn't its binder's sort.
    UnboundVar,
    /// A variable of a quantifier that has no guard.
    Unguarded,
}

/// Why a formula is refused.
#[derive(Drop)]
pub enum FormulaFault {
    /// Want of memory.
    Mem,
    /// This symbol isn't held or has another arity.
    BadFunction { f: Name },
    /// This destructor stands in a term.
    Destructor { f: Name },
    /// A fact has this reserved name.
    Reserved { fact: Name },
    /// An occurrence of this variable isn't bound.
    UnboundVar { var: Name },
    /// A quantifier binds this variable, and nothing guards it.
    Unguarded { var: Name },
}

impl From<Mem> for FormulaFault {
    ghost from_gives = { λ _ e. e ≡ OutOfMemory };

    fn from(_e: Mem) -> FormulaFault {
        FormulaFault::Mem
    }
}
