// Names that are given, and the line of a process by which a thread takes a lock.
ghost use Rattle.std.specs.Prelude.{OnOk, IfOk};
ghost use Rattle.sap_runs.specs.declared.process_step.PStep.TheVariants.{Lock as LockLine};
ghost use Rattle.sap_forward.specs.code.Steps.{GivesName, WritesAny};

use crate::desk::Desk;
use sap_runs::{RStep, RSteps};
use sap_terms::Mem;
use std::alloc::Global;

impl Desk {
    // Gives the least name that is left, to a lock or a tag.
    pub(crate) fn give_name(&mut self) -> Result<u64, Mem>
        ensures { IfOk result (GivesName self.old self.new) }
    {
        let name = self.names.free_from(self.next)?;
        self.next = name.checked_add(1).ok_or(Mem)?;
        Ok(name)
    }

    /// What is written where a thread takes a lock.
    pub(crate) fn lock(&mut self, alloc: Global, t: u64, lines: &mut RSteps) -> Result<(), Mem>
        ensures { OnOk result (WritesAny self.old self.new (LockLine t) lines.old lines.new) }
    {
        let name = self.give_name()?;
        self.go_with(alloc, t, RStep::Fresh(name), b"Lock_", 1, lines)
    }
}
