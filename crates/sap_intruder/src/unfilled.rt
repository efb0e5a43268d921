// Why a step of a short run is not filled.
ghost use Rattle.std.specs.Prelude.{◌≡◌, IfErr, OnOk};
ghost use Rattle.sap_intruder.specs.code.Filled.{IsBlamed, IsNoEntry};
ghost use Rattle.sap_intruder.specs.declared.unfilled.Unfilled.TheVariants.{Mem as OutOfMemory};

use crate::FillFault;
use sap_lines::PFault;
use sap_terms::Mem;

// Want of memory, or why the step is refused.
#[derive(Drop)]
pub(crate) enum Unfilled {
    Mem,
    Fault(FillFault),
}

impl From<Mem> for Unfilled {
    ghost from_gives = { λ _ e. e ≡ OutOfMemory };

    fn from(_e: Mem) -> Unfilled {
        Unfilled::Mem
    }
}

// A step that isn't filled since the line that it stands for is refused.
pub(crate) fn blamed(fault: PFault) -> Unfilled
    ensures { IsBlamed fault result }
{
    match fault {
        PFault::Mem => Unfilled::Mem,
        other => Unfilled::Fault(FillFault::Process(other)),
    }
}

// What a line tells of its thread that would give it an entry which isn't there: nothing, where it is refused for that entry.
pub(crate) fn told_of_thread(fault: PFault) -> Result<(), Unfilled>
    ensures entry { OnOk result (IsNoEntry fault) }
    ensures other { IfErr result (λ u. IsBlamed fault u × (¬ IsNoEntry fault)) }
{
    match fault {
        PFault::NoEntry { .. } => Ok(()),
        other => Err(blamed(other)),
    }
}
