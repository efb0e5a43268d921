//! The first line of a run of a process that is refused.
ghost use Rattle.std.specs.Prelude.{◌≡◌, ℕ};
ghost use Rattle.sap_lines.specs.declared.at.At.TheVariants.{Mem as NoMemory, Step as StepOf};
ghost use Rattle.sap_lines.specs.declared.fault.PFault.{PFault as Fault};
ghost use Rattle.sap_lines.specs.declared.fault.PFault.TheVariants.{Mem as OutOfMemory};

use crate::PFault;
use sap_terms::Mem;

/// Why a run of a process isn't converted, told or drawn.
#[derive(Drop)]
pub enum At {
    /// Want of memory.
    Mem,
    /// The step with this number, from 1, is the first illegal one, for this cause, which isn't want of memory.
    Step { step: u64, fault: PFault },
}

impl From<Mem> for At {
    ghost from_gives = { λ _ e. e ≡ NoMemory };

    fn from(_e: Mem) -> At {
        At::Mem
    }
}

/// The cause at the step with this number.
pub fn at_line(number: u64, fault: PFault) -> At
    ensures { (n : ℕ) (e : Fault) → result ≡ StepOf n e → (n ≡ number) × (e ≡ fault) × ¬ (e ≡ OutOfMemory) }
{
    match fault {
        PFault::Mem => At::Mem,
        other => At::Step {
            step: number,
            fault: other,
        },
    }
}
