//! The tables of a conversion, and the lines of the process that are written by them.
ghost use Rattle.std.specs.Prelude.{◌≡◌, ◌++◌, ◌∷◌, [], None, OnOk};
ghost use Rattle.sap_process_lines.specs.Tables.{come, enters, first_process_tables, waiting, with_known};
ghost use Rattle.sap_process_lines.specs.Pending.{pending_lines};
ghost use Rattle.sap_process_lines.specs.Told.{GivesTold, told};

use sap_runs::{PStep, PSteps, RStep};
use sap_terms::Mem;
use std::alloc::Global;
use std::marker::Model;

/// What the facts and the entries of the rules are on the side of the process.
#[derive(Drop)]
pub struct Desk {
    pub(crate) facts: Vec<u64>,
    pub(crate) entries: Vec<u64>,
    pub(crate) pending: Option<u64>,
    pub(crate) threads: u64,
    pub(crate) known: u64,
    pub(crate) piled: u64,
}

impl Model for Desk {
    ghost use Rattle.sap_process_lines.specs.Tables.{ProcessTables};

    ghost Value = { ProcessTables };

    ghost view = { λ a. record {
      facts = a.facts.items;
      entries = a.entries.items;
      pending = a.pending;
      threads = a.threads;
      known = a.known;
      piled = a.piled;
    } };
}

impl Desk {
    /// The desk before the first line. It takes no memory.
    pub fn new(alloc: Global) -> Desk
        ensures { result ≡ first_process_tables }
    {
        Desk {
            facts: Vec::new(alloc),
            entries: Vec::new(alloc),
            pending: None,
            threads: 1,
            known: 0,
            piled: 0,
        }
    }

    /// Writes the lines that the tables tell for a line of rules which shows facts or none, behind which so many facts have come.
    /// After want of memory nothing is said of the desk and of the lines.
    pub fn tell(
        &mut self,
        alloc: Global,
        line: &RStep,
        shows: bool,
        count: u64,
        lines: &mut PSteps,
    ) -> Result<(), Mem>
        ensures { OnOk result (GivesTold (told self.old line.now shows count) self.new lines.old lines.new) }
    {
        match line {
            RStep::Fresh(n) => self.comes(*n),
            RStep::Learn(k) => self.learn(*k),
            RStep::Own(k) => self.own(*k, lines),
            RStep::Public(a) => self.public(alloc, a, lines),
            RStep::Apply(f, entries) => self.apply(alloc, f, entries, lines),
            RStep::Know(k) => self.know(*k, lines),
            RStep::Rule(name, facts, b) => self.rule(alloc, name, facts, b, shows, count, lines),
        }
    }

    /// Writes what is pending, behind the last line.
    pub fn finish(&self, lines: &mut PSteps) -> Result<(), Mem>
        ensures { OnOk result (lines.new ≡ lines.old ++ pending_lines self.now.pending) }
    {
        match self.pending {
            None => Ok(()),
            Some(e) => lines.push(PStep::Know(e)),
        }
    }

    // Writes what is pending, so that nothing is.
    pub(crate) fn settle(&mut self, lines: &mut PSteps) -> Result<(), Mem>
        ensures lines { OnOk result (lines.new ≡ lines.old ++ pending_lines self.old.pending) }
        ensures tables { OnOk result (self.new ≡ waiting self.old None) }
    {
        self.finish(lines)?;
        self.pending = None;
        Ok(())
    }

    // Lets a fact with this number come.
    pub(crate) fn comes(&mut self, n: u64) -> Result<(), Mem>
        ensures { OnOk result (self.new ≡ come self.old (n ∷ [])) }
    {
        self.facts.push(n)?;
        Ok(())
    }

    // Lets two facts with these numbers come.
    pub(crate) fn two_come(&mut self, n: u64, m: u64) -> Result<(), Mem>
        ensures { OnOk result (self.new ≡ come self.old (n ∷ m ∷ [])) }
    {
        self.facts.push(n)?;
        self.facts.push(m)?;
        Ok(())
    }

    // Lets one more entry of the process come.
    pub(crate) fn one_more_known(&mut self) -> Result<(), Mem>
        ensures { OnOk result (self.new ≡ with_known self.old) }
    {
        self.known = self.known.checked_add(1).ok_or(Mem)?;
        Ok(())
    }

    // Lets an entry come on both sides.
    pub(crate) fn both_know(&mut self) -> Result<(), Mem>
        ensures { OnOk result (self.new ≡ with_known (enters self.old self.old.known)) }
    {
        self.entries.push(self.known)?;
        self.one_more_known()
    }

    // Writes a line, and lets the fact of thread t come.
    pub(crate) fn goes(&mut self, step: PStep, t: u64, lines: &mut PSteps) -> Result<(), Mem>
        ensures lines { OnOk result (lines.new ≡ lines.old ++ step ∷ []) }
        ensures tables { OnOk result (self.new ≡ come self.old (t ∷ [])) }
    {
        lines.push(step)?;
        self.comes(t)
    }
}
