// A short run that is being filled: the lines so far, and what is kept beside them.
ghost use Rattle.std.specs.Prelude.{◌≡◌, ◌≤◌, IfOk, IfErr, IfSome, IfNone, OnOk};
ghost use Rattle.sap_terms.specs.Message.{IsMessage};
ghost use Rattle.sap_terms.specs.Tree.{node_count};
ghost use Rattle.sap_terms.specs.View.{tree};
ghost use Rattle.sap_terms.specs.declared.limits.TheConstants.{MOST_TERM_NODES as MostTermNodes};
ghost use Rattle.sap_terms.specs.declared.var.Sort.TheVariants.{Msg};
ghost use Rattle.sap_process.specs.Configuration.{CanGive};
ghost use Rattle.sap_lines.specs.declared.fault.PFault.TheVariants.{Mem as OutOfMemory};
ghost use Rattle.sap_calc.specs.Running.{configuration, IsDenied};
ghost use Rattle.sap_intruder.specs.code.Filled.{AreCarriedOut, AreLeading, HasEntered, IsBlamedFor, IsFollowed, IsLooselyTied, IsPossible, IsTied, IsWritten, OrMem};
ghost use Rattle.sap_intruder.specs.FilledRuns.{line_step};

use crate::unfilled::{Unfilled, blamed};
use sap_calc::Config;
use sap_deduce::deducing_is_transitive;
use sap_derive::{Line, LineList, Search};
use sap_lines::PFault;
use sap_rewrite::normal_forms_are_unique;
use sap_runs::{PStep, PSteps};
use sap_terms::{Copied, Mem, Term};
use std::alloc::Global;

// Where the process stands; the search behind the same entries, and how many these are; and the lines so far.
#[derive(Drop)]
pub(crate) struct Filling {
    pub(crate) config: Config,
    pub(crate) search: Search,
    pub(crate) count: u64,
    pub(crate) lines: PSteps,
}

// The line of a process that a line of a derivation is.
fn step_of(alloc: Global, line: &Line) -> Result<PStep, Mem>
    ensures { IfOk result (λ s. s ≡ line_step line.now) }
{
    match line {
        Line::Public(a) => Ok(PStep::Public(a.copy(alloc)?)),
        Line::Apply(f, entries) => {
            let symbol = f.copy(alloc)?;
            Ok(PStep::Apply(symbol, entries.copy(alloc)?))
        }
    }
}

impl Filling {
    // Does a line, and puts it last.
    fn write(&mut self, alloc: Global, step: PStep) -> Result<(), PFault>
        ensures ok { OnOk result (IsWritten self.old self.new step) }
        ensures refused { IfErr result (IsDenied self.old.config step) }
    {
        match self.config.step(alloc, &step) {
            Err(fault) => Err(fault),
            Ok(_) => Ok(self.lines.push(step)?),
        }
    }

    // Enters into the search what a line gave.
    fn enter_new(&mut self, alloc: Global) -> Result<(), Mem>
        requires { IsLooselyTied self.old }
        ensures tied { OnOk result (IsTied self.new) }
        ensures config { self.new.config ≡ self.old.config }
        ensures lines { self.new.lines ≡ self.old.lines }
    {
        self.config.each_entry_came();
        if let Some(t) = self.config.entry(self.count) {
            let count = self.count.checked_add(1).ok_or(Mem)?;
            self.search.enter(alloc, t)?;
            self.count = count;
        }
        Ok(())
    }

    // Does a line, puts it last, and enters what it gave.
    pub(crate) fn follow(&mut self, alloc: Global, step: PStep) -> Result<(), Unfilled>
        requires { IsTied self.old }
        ensures ok { OnOk result (IsFollowed self.old self.new step) }
        ensures refused { IfErr result (OrMem (IsBlamedFor self.old step)) }
    {
        match self.write(alloc, step) {
            Err(fault) => Err(blamed(fault)),
            Ok(()) => Ok(self.enter_new(alloc)?),
        }
    }

    // Does a line of a derivation. It is possible, so want of memory alone refuses it.
    fn write_line(&mut self, alloc: Global, line: &Line) -> Result<(), PFault>
        requires { IsPossible self.old line.now }
        ensures ok { OnOk result (IsWritten self.old self.new (line_step line.now)) }
        ensures refused { IfErr result (λ e. e ≡ OutOfMemory) }
    {
        normal_forms_are_unique();
        let step = step_of(alloc, line)?;
        self.write(alloc, step)
    }

    // Does each line of a derivation, whose terms the search has already.
    fn carry_each(&mut self, alloc: Global, lines: &LineList) -> Result<(), PFault>
        requires { AreLeading self.old lines.now }
        ensures ok { OnOk result (AreCarriedOut self.old self.new lines.now) }
        ensures refused { IfErr result (λ e. e ≡ OutOfMemory) }
    {
        normal_forms_are_unique();
        for k in 0..lines.len() {
            self.write_line(alloc, lines.at(k))?;
        }
        Ok(())
    }

    // Does the lines of a derivation.
    fn carry_out(&mut self, alloc: Global, lines: &LineList) -> Result<(), Mem>
        requires { AreLeading self.old lines.now }
        ensures { OnOk result (AreCarriedOut self.old self.new lines.now) }
    {
        match self.carry_each(alloc, lines) {
            Err(_) => Err(Mem),
            Ok(()) => Ok(()),
        }
    }

    // The number of the entry that the term is, behind lines that lead to it; None where the adversary can't give it.
    pub(crate) fn find(&mut self, alloc: Global, goal: &Term) -> Result<Option<u64>, Mem>
        requires tied { IsTied self.old }
        requires message { IsMessage self.old.config.sig Msg (tree goal.now) }
        requires within { node_count (tree goal.now) ≤ MostTermNodes }
        ensures some { IfOk result (λ o. IfSome o (HasEntered self.old self.new (tree goal.now))) }
        ensures none { IfOk result (λ o. IfNone o
            (¬ CanGive self.old.config.sig (configuration self.old.config) (tree goal.now))) }
    {
        deducing_is_transitive();
        self.config.each_entry_came();
        let Some(found) = self.search.find(alloc, goal)? else {
            return Ok(None);
        };
        self.carry_out(alloc, &found.lines)?;
        self.count = self.count.checked_add(found.lines.len()).ok_or(Mem)?;
        self.config.each_entry_came();
        Ok(Some(found.entry))
    }
}
