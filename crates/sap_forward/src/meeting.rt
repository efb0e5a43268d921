// The line of a process by which two threads meet.
ghost use Rattle.std.specs.Prelude.{◌≡◌, ◌++◌, ◌+◌, ◌<◌, ◌^◌, OnOk};
ghost use Rattle.sap_runs.specs.declared.process_step.PStep.TheVariants.{Sync as SyncLine};
ghost use Rattle.sap_forward.specs.code.Steps as spec;
ghost use Rattle.sap_forward.specs.code.Steps.{Meets, WritesAny};

use crate::desk::Desk;
use crate::seats::Seat;
use sap_rule_lines::{later, push_rule_on_two};
use sap_runs::{RStep, RSteps};
use sap_terms::Mem;
use std::alloc::Global;

// Puts last the lines by which two threads meet under this tag, where so many facts have come.
fn meeting_lines(
    alloc: Global,
    tag: u64,
    from: &Seat,
    to: &Seat,
    count: u64,
    lines: &mut RSteps,
) -> Result<(), Mem>
    requires { count + 3 < 2 ^ 64 }
    ensures { OnOk result (lines.new ≡ lines.old ++ spec.meeting_lines tag from.now to.now count) }
{
    lines.push(RStep::Fresh(tag))?;
    push_rule_on_two(alloc, b"OutMsg_", &from.path, from.number, count, lines)?;
    push_rule_on_two(alloc, b"InMsg_", &to.path, to.number, count + 1, lines)?;
    push_rule_on_two(alloc, b"OutAck_", &from.path, count + 2, count + 3, lines)
}

impl Desk {
    // Two threads that have seats meet under this tag.
    fn meet(
        &mut self,
        alloc: Global,
        from: u64,
        to: u64,
        tag: u64,
        lines: &mut RSteps,
    ) -> Result<(), Mem>
        ensures { OnOk result (Meets self.old self.new from to tag lines.old lines.new) }
    {
        let Some((sender, place)) = self.at(from) else {
            return Ok(());
        };
        let Some((receiver, other)) = self.at(to) else {
            return Ok(());
        };
        later(self.count, 3)?;
        meeting_lines(alloc, tag, sender, receiver, self.count, lines)?;
        let next = place.first;
        let there = other.first;
        self.go(to, 1, there, 4)?;
        self.go(from, 1, next, 0)
    }

    /// What is written where the first thread sends to the second.
    pub(crate) fn sync(
        &mut self,
        alloc: Global,
        from: u64,
        to: u64,
        lines: &mut RSteps,
    ) -> Result<(), Mem>
        ensures { OnOk result (WritesAny self.old self.new (SyncLine from to) lines.old lines.new) }
    {
        let tag = self.give_name()?;
        self.meet(alloc, from, to, tag, lines)
    }
}
