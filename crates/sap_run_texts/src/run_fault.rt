//! Why a text is no run.
ghost use Rattle.std.specs.Prelude.{◌≡◌};

use sap_terms::Mem;

/// Why a text is no run. Lines are counted from 1, the head's being the first.
#[derive(Clone, Copy)]
pub enum RunFault {
    /// Want of memory.
    Mem,
    /// The first line isn't the head of a run of the kind that is asked for.
    BadHead,
    /// This line is the first that is no step's, and few enough stand before it.
    BadLine { line: u64 },
    /// Bytes follow as many steps as a run may have.
    TooManySteps,
}

impl From<Mem> for RunFault {
    ghost use Rattle.sap_run_texts.specs.declared.run_fault.RunFault.TheVariants as fault;

    ghost from_gives = { λ _ e. e ≡ fault.Mem };

    fn from(_: Mem) -> RunFault {
        RunFault::Mem
    }
}
