//! Lines of process runs, read.
ghost use Rattle.std.specs.Prelude.{◌≡◌, IfOk};
ghost use Rattle.sap_run_lines.specs.StepLines.{IsProcessStepLine, IsLineRead};
ghost use Rattle.sap_run_lines.specs.code.StepTaking.{process_line_of};

use crate::take::identifier_at;
use crate::take_steps::process_named;
use sap_runs::PStep;
use sap_terms::Mem;
use std::alloc::Global;

#[tactic(auto, unfolding(crate::specs::code::Taking::after))]
fn process_line(alloc: Global, bytes: &[u8]) -> Result<Option<PStep>, Mem>
    ensures { IfOk result (λ o. o ≡ process_line_of bytes.now) }
{
    match identifier_at(bytes) {
        None => Ok(None),
        Some((word, rest)) => process_named(alloc, word, rest),
    }
}

/// The step of a process whose line, without its line feed, these bytes are; `None` exactly where they are no step's. The work
/// is linear in the bytes; it recurses a few calls for each node of a term.
pub fn read_process_line(alloc: Global, bytes: &[u8]) -> Result<Option<PStep>, Mem>
    ensures { IfOk result (IsLineRead IsProcessStepLine bytes.now) }
{
    process_line(alloc, bytes)
}
