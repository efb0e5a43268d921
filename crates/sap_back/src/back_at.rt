//! Why a run of rules is not converted.
ghost use Rattle.std.specs.Prelude.{◌≡◌};
ghost use Rattle.sap_back.specs.declared.back_at.BackAt.TheVariants.{Mem as OutOfMemory};

use sap_restrict::Which;
use sap_steps::RFault;
use sap_terms::Mem;

/// Why a run of rules isn't converted.
#[derive(Drop)]
pub enum BackAt {
    /// Want of memory.
    Mem,
    /// The step with this number, from 1, is the first that is refused, for this cause, which isn't want of memory, and no
    /// step before it makes a restriction false.
    Step { step: u64, fault: RFault },
    /// The step with this number, from 1, is the first that makes a restriction false, which is this one, and neither it nor
    /// a step before it is refused.
    Broken { step: u64, which: Which },
}

impl From<Mem> for BackAt {
    ghost from_gives = { λ _ e. e ≡ OutOfMemory };

    fn from(_e: Mem) -> BackAt {
        BackAt::Mem
    }
}
