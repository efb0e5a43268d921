// The lines of the adversary.
ghost use Rattle.std.specs.Prelude.{◌≡◌, ◌++◌, ◌∷◌, [], List, OnOk};
ghost use Rattle.sap_runs.specs.declared.process_step.PStep.{PStep as Line};
ghost use Rattle.sap_process_lines.specs.Tables.{enters, with_known};
ghost use Rattle.sap_process_lines.specs.Told.{GivesTold, told_apply, told_know, told_learn, told_own};

use crate::cited::{number_at, numbers_cited};
use crate::desk::Desk;
use sap_runs::{PStep, PSteps};
use sap_terms::{Copied, Mem, Name, Numbers};
use std::alloc::Global;

impl Desk {
    // The adversary learns what a fact put out: none, since the process lets it know at once.
    pub(crate) fn learn(&mut self, k: u64) -> Result<(), Mem>
        ensures { (lines : List Line) → OnOk result (GivesTold (told_learn self.old k) self.new lines lines) }
    {
        match number_at(&self.facts, k) {
            Some(e) => {
                self.entries.push(e)?;
                Ok(())
            }
            None => Ok(()),
        }
    }

    // The adversary takes a fresh name.
    pub(crate) fn own(&mut self, k: u64, lines: &mut PSteps) -> Result<(), Mem>
        ensures { OnOk result (GivesTold (told_own self.old k) self.new lines.old lines.new) }
    {
        match number_at(&self.facts, k) {
            Some(n) => {
                lines.push(PStep::Name(n))?;
                self.both_know()
            }
            None => Ok(()),
        }
    }

    // The adversary writes down a public name.
    pub(crate) fn public(&mut self, alloc: Global, a: &Name, lines: &mut PSteps) -> Result<(), Mem>
        ensures lines { OnOk result (lines.new ≡ lines.old ++ PStep.Public a.now ∷ []) }
        ensures tables { OnOk result (self.new ≡ with_known (enters self.old self.old.known)) }
    {
        lines.push(PStep::Public(a.copy(alloc)?))?;
        self.both_know()
    }

    // The adversary applies a symbol to entries.
    pub(crate) fn apply(
        &mut self,
        alloc: Global,
        f: &Name,
        entries: &Numbers,
        lines: &mut PSteps,
    ) -> Result<(), Mem>
        ensures { OnOk result (GivesTold (told_apply self.old f.now entries.now) self.new lines.old lines.new) }
    {
        match numbers_cited(alloc, &self.entries, entries.as_slice())? {
            Some(numbers) => match f.copy(alloc) {
                Err(mem) => {
                    drop(numbers);
                    Err(mem)
                }
                Ok(f) => {
                    lines.push(PStep::Apply(f, numbers))?;
                    self.both_know()
                }
            },
            None => Ok(()),
        }
    }

    // The adversary shows an entry: what was pending is written, and this is pending from now on.
    pub(crate) fn know(&mut self, k: u64, lines: &mut PSteps) -> Result<(), Mem>
        ensures { OnOk result (GivesTold (told_know self.old k) self.new lines.old lines.new) }
    {
        match number_at(&self.entries, k) {
            Some(e) => {
                self.settle(lines)?;
                self.pending = Some(e);
                self.comes(0)
            }
            None => Ok(()),
        }
    }
}
