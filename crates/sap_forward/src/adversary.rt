// Lines of a process by which the adversary makes terms and shows what it knows.
ghost use Rattle.std.specs.Prelude.{OnOk};
ghost use Rattle.sap_runs.specs.declared.process_step.PStep.TheVariants.{Name as NameLine, Public as PublicLine, Apply as ApplyLine, Know as KnowLine};
ghost use Rattle.sap_forward.specs.code.Steps.{WritesAny};

use crate::desk::Desk;
use sap_rule_lines::later;
use sap_runs::{RStep, RSteps};
use sap_terms::{Copied, Mem, Name, Numbers};
use std::alloc::Global;

impl Desk {
    /// What is written where the adversary makes this name.
    pub(crate) fn name(&mut self, n: u64, lines: &mut RSteps) -> Result<(), Mem>
        ensures { OnOk result (WritesAny self.old self.new (NameLine n) lines.old lines.new) }
    {
        let fact = self.count;
        lines.push(RStep::Fresh(n))?;
        lines.push(RStep::Own(fact))?;
        let count = later(fact, 1)?;
        self.count = count;
        Ok(())
    }

    /// What is written where it writes down a public name.
    pub(crate) fn public(&mut self, alloc: Global, a: &Name, lines: &mut RSteps) -> Result<(), Mem>
        ensures { OnOk result (WritesAny self.old self.new (PublicLine a.now) lines.old lines.new) }
    {
        lines.push(RStep::Public(a.copy(alloc)?))
    }

    /// What is written where it applies a symbol to these entries.
    pub(crate) fn apply(
        &mut self,
        alloc: Global,
        f: &Name,
        entries: &Numbers,
        lines: &mut RSteps,
    ) -> Result<(), Mem>
        ensures { OnOk result (WritesAny self.old self.new (ApplyLine f.now entries.now) lines.old lines.new) }
    {
        let symbol = f.copy(alloc)?;
        lines.push(RStep::Apply(symbol, entries.copy(alloc)?))
    }

    /// What is written where it shows this entry.
    pub(crate) fn know(&mut self, k: u64, lines: &mut RSteps) -> Result<(), Mem>
        ensures { OnOk result (WritesAny self.old self.new (KnowLine k) lines.old lines.new) }
    {
        lines.push(RStep::Know(k))?;
        self.count = self.count.checked_add(1).ok_or(Mem)?;
        Ok(())
    }
}
