// Lines of a process by which threads end and come.
ghost use Rattle.std.specs.Prelude.{OnOk};
ghost use Rattle.sap_runs.specs.declared.process_step.PStep.TheVariants.{Rep as RepLine};
ghost use Rattle.sap_forward.specs.code.Steps.{Ends, Splits, Copies, StartsCopying, WritesAny};

use crate::desk::Desk;
use sap_place::path_below;
use sap_rule_lines::push_rule_on_one;
use sap_runs::RSteps;
use sap_terms::Mem;
use std::alloc::Global;

impl Desk {
    /// The thread ends.
    pub(crate) fn end(&mut self, alloc: Global, t: u64, lines: &mut RSteps) -> Result<(), Mem>
        ensures { OnOk result (Ends self.old self.new t lines.old lines.new) }
    {
        let Some((seat, _)) = self.at(t) else {
            return Ok(());
        };
        push_rule_on_one(alloc, b"Nil_", &seat.path, seat.number, lines)?;
        self.seats.leave(t);
        Ok(())
    }

    /// It becomes two.
    pub(crate) fn split(&mut self, alloc: Global, t: u64, lines: &mut RSteps) -> Result<(), Mem>
        ensures { OnOk result (Splits self.old self.new t lines.old lines.new) }
    {
        let Some((seat, place)) = self.at(t) else {
            return Ok(());
        };
        let next = place.first;
        let other = place.second;
        push_rule_on_one(alloc, b"Par_", &seat.path, seat.number, lines)?;
        let path = path_below(alloc, &seat.path, 2)?;
        self.go(t, 1, next, 0)?;
        self.join(path, other)
    }

    // A replication that has started gives one more thread.
    fn copy(&mut self, alloc: Global, t: u64, lines: &mut RSteps) -> Result<(), Mem>
        ensures { OnOk result (Copies self.old self.new t lines.old lines.new) }
    {
        let Some((seat, place)) = self.at(t) else {
            return Ok(());
        };
        let next = place.first;
        push_rule_on_one(alloc, b"RepCopy_", &seat.path, seat.number, lines)?;
        let path = path_below(alloc, &seat.path, 1)?;
        self.join(path, next)
    }

    // It starts, and gives the first.
    fn first_copy(&mut self, alloc: Global, t: u64, lines: &mut RSteps) -> Result<(), Mem>
        ensures { OnOk result (StartsCopying self.old self.new t lines.old lines.new) }
    {
        let Some((seat, _)) = self.at(t) else {
            return Ok(());
        };
        push_rule_on_one(alloc, b"RepStart_", &seat.path, seat.number, lines)?;
        self.start_copying(t)?;
        self.copy(alloc, t, lines)
    }

    /// What is written where a replication gives one more thread.
    pub(crate) fn rep(&mut self, alloc: Global, t: u64, lines: &mut RSteps) -> Result<(), Mem>
        ensures { OnOk result (WritesAny self.old self.new (RepLine t) lines.old lines.new) }
    {
        let Some((seat, _)) = self.at(t) else {
            return Ok(());
        };
        if seat.copying {
            self.copy(alloc, t, lines)
        } else {
            self.first_copy(alloc, t, lines)
        }
    }
}
