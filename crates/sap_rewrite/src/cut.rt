//! Why a normal form within a limit is not given.
ghost use Rattle.std.specs.Prelude.{◌≡◌};
ghost use Rattle.sap_rewrite.specs.declared.cut.Cut.TheVariants.{Mem as OutOfMemory};

use sap_terms::Mem;

/// Why a normal form under a limit isn't given.
#[derive(Clone, Copy, Debug, PartialEq, Eq)]
pub enum Cut {
    /// Want of memory.
    Mem,
    /// The normal form has more nodes than the limit; at a whole term, that of some subterm, itself included.
    Large,
}

impl From<Mem> for Cut {
    ghost from_gives = { λ _ e. e ≡ OutOfMemory };

    fn from(_e: Mem) -> Cut {
        Cut::Mem
    }
}
