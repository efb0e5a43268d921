//! Why a short run is not filled.
ghost use Rattle.std.specs.Prelude.{◌≡◌};
ghost use Rattle.sap_intruder.specs.declared.fill_at.FillAt.TheVariants.{Mem as OutOfMemory};

use crate::FillFault;
use sap_terms::Mem;

/// Why a short run isn't filled.
#[derive(Drop)]
pub enum FillAt {
    /// Want of memory.
    Mem,
    /// The step with this number, from 1, is the first that is refused, for this cause, which isn't want of memory.
    Step { step: u64, fault: FillFault },
}

impl From<Mem> for FillAt {
    ghost from_gives = { λ _ e. e ≡ OutOfMemory };

    fn from(_e: Mem) -> FillAt {
        FillAt::Mem
    }
}
