//! What can be wrong with a process.
ghost use Rattle.std.specs.Prelude.{◌≡◌};
ghost use Rattle.sap_process.specs.declared.flaw.Ill.TheVariants.{Mem as OutOfMemory};

use sap_terms::{Mem, Path};

/// What can be wrong at a place of a process, in the order in which flaws count: the first that holds anywhere is told, at
/// its first place in preorder.
#[derive(Clone, Copy, PartialEq, Eq)]
pub enum Flaw {
    /// A term applies a symbol that isn't held, or not with its arity; or `new` binds a plain identifier, or `lookup` a name,
    /// that is a held symbol of arity 0.
    BadFunction,
    /// A variable's name begins with `sapic_`.
    ReservedVar,
    /// A fact that is shown, taken or added has one of the names that rules use themselves.
    ReservedFact,
    /// A fact that an embedded rule takes or adds has the name of an earlier such fact, but another arity or persistence;
    /// or a fact that is shown has that of an earlier such fact, but another arity.
    FactClash,
    /// A pattern, of an input or of an embedded left side, holds a destructor.
    PatternDestructor,
    /// What is evaluated here has a variable that isn't in scope.
    Unbound,
    /// The binder `new` or `lookup` names what is in scope already.
    Rebound,
    /// A variable is signed otherwise than where it was bound.
    SortClash,
    /// More than `MOST_SCOPE_NAMES` names are in scope, one more for each lock that is set above, whether it was unlocked or not.
    ScopeFull,
}

/// Why a process isn't well-formed.
#[derive(Drop)]
pub enum Ill {
    /// Want of memory.
    Mem,
    /// The flaw that counts, and the path of its first place.
    At { which: Flaw, path: Path },
}

impl From<Mem> for Ill {
    ghost from_gives = { λ _ e. e ≡ OutOfMemory };

    fn from(_e: Mem) -> Ill {
        Ill::Mem
    }
}
