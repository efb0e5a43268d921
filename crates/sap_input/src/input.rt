//! The line of a process that takes an entry.
ghost use Rattle.std.specs.Prelude.{◌≡◌, ◌++◌, ◌∷◌, [], OnOk};

use sap_runs::{PStep, PSteps};
use sap_terms::Mem;

/// Puts the line last by which thread t takes the entry with this number, and no other: an entry that was pending and is taken is
/// told by this line alone. Want of memory is the only error.
pub fn push_input(t: u64, entry: u64, lines: &mut PSteps) -> Result<(), Mem>
    ensures { OnOk result (lines.new ≡ lines.old ++ PStep.In t entry ∷ []) }
{
    lines.push(PStep::In(t, entry))
}
