//! Runs read from a whole text.
ghost use Rattle.sap_run_texts.specs.RunTexts.{IsProcessRunText, IsRuleRunText, IsRunRead, IsTold};

use crate::{Kinds, Run, RunFault, RunReader};
use sap_runs::{PSteps, RSteps};
use std::alloc::Global;

#[tactic(auto, using(crate::proofs::Begun::told_of))]
fn read_whole(alloc: Global, kinds: Kinds, bytes: &[u8]) -> Result<Run, RunFault>
    ensures { IsTold (IsRunRead kinds bytes.now) result }
{
    let mut reader = RunReader::new(alloc, kinds);
    match reader.feed(bytes) {
        Ok(()) => reader.finish(),
        Err(mem) => Err(RunFault::from(mem)),
    }
}

/// The steps of a run of a process, from its text. Of several faults the one of the first line is answered.
pub fn read_prun(alloc: Global, bytes: &[u8]) -> Result<PSteps, RunFault>
    ensures { IsTold (IsProcessRunText bytes.now) result }
{
    match read_whole(alloc, Kinds::Process, bytes) {
        Ok(Run::Process(steps)) => Ok(steps),
        // It doesn't come: a run of rules has another head.
        Ok(Run::Rules(_)) => Err(RunFault::BadHead),
        Err(fault) => Err(fault),
    }
}

/// The steps of a run of rules, from its text. Of several faults the one of the first line is answered.
pub fn read_rrun(alloc: Global, bytes: &[u8]) -> Result<RSteps, RunFault>
    ensures { IsTold (IsRuleRunText bytes.now) result }
{
    match read_whole(alloc, Kinds::Rules, bytes) {
        Ok(Run::Rules(steps)) => Ok(steps),
        // It doesn't come: a run of a process has another head.
        Ok(Run::Process(_)) => Err(RunFault::BadHead),
        Err(fault) => Err(fault),
    }
}
