// What a conversion keeps between the lines of a process, and the lines of rules that it writes.
ghost use Rattle.std.specs.Prelude.{[], ◌∷◌, Some, IfOk, OnOk};
ghost use Rattle.sap_process.specs.Proc.{proc};
ghost use Rattle.sap_translate.specs.relation.Agents.{running};
ghost use Rattle.sap_translate.specs.relation.Envs.{no_env};
ghost use Rattle.sap_forward.specs.Answered.{first_rule_tables};
ghost use Rattle.sap_rule_lines.specs.Least.{names_drawn};
ghost use Rattle.sap_forward.specs.code.Desk.{Keeps, WritesRules};
ghost use Rattle.sap_forward.specs.code.Steps.{WritesPlain};

use crate::seats::Seats;
use sap_lines::{Places, places_of};
use sap_process::Process;
use sap_rule_lines::{Names, names_of};
use sap_runs::{PStep, PSteps, RStep, RSteps};
use sap_terms::{Mem, Numbers, Term};
use std::alloc::Global;

/// What a conversion keeps: the places of the process at the start, where each thread stands among them, the numbers of the
/// facts of the process in the state of rules, how many facts have come there, up to which name locks and tags were given
/// theirs, and the names that the run draws.
#[derive(Drop)]
pub struct Desk {
    pub(crate) places: Places,
    pub(crate) seats: Seats,
    pub(crate) facts: Numbers,
    pub(crate) count: u64,
    pub(crate) next: u64,
    pub(crate) names: Names,
}

impl Desk {
    /// What is kept once the rules have started, for a run of these lines. Want of memory is the only error.
    pub(crate) fn start(alloc: Global, p: &Process, run: &PSteps) -> Result<Desk, Mem>
        ensures { IfOk result (Keeps (proc p.now) (names_drawn run.now) (Some (running [] no_env (proc p.now)) ∷ []) first_rule_tables) }
    {
        let names = names_of(alloc, run)?;
        let (places, root) = places_of(alloc, p)?;
        let seats = Seats::first(alloc, root)?;
        Ok(Desk {
            places,
            seats,
            facts: Numbers::new(alloc),
            count: 1,
            next: 0,
            names,
        })
    }

    /// Puts last the lines of rules that are written for a line of the process, which was possible; `found` is the value that a
    /// line `found` binds. Want of memory is the only error, and so are counts beyond the greatest u64.
    pub(crate) fn write(
        &mut self,
        alloc: Global,
        step: &PStep,
        found: Option<Term>,
        lines: &mut RSteps,
    ) -> Result<(), Mem>
        ensures { OnOk result (WritesRules self.old self.new step.now found lines.old lines.new) }
    {
        match step {
            PStep::Found(t) => self.bind(alloc, *t, found, lines),
            _ => self.write_plain(alloc, step, lines),
        }
    }

    // That for a line that isn't `found`.
    fn write_plain(&mut self, alloc: Global, step: &PStep, lines: &mut RSteps) -> Result<(), Mem>
        ensures { OnOk result (WritesPlain self.old self.new step.now lines.old lines.new) }
    {
        match step {
            PStep::Nil(t) => self.end(alloc, *t, lines),
            PStep::Par(t) => self.split(alloc, *t, lines),
            PStep::Rep(t) => self.rep(alloc, *t, lines),
            PStep::New(t, n) => self.go_with(alloc, *t, RStep::Fresh(*n), b"New_", 1, lines),
            PStep::Out(t) => self.output(alloc, *t, lines),
            PStep::Send(t, k) => self.send(alloc, *t, *k, lines),
            PStep::In(t, k) => self.input(alloc, *t, *k, lines),
            PStep::Sync(from, to) => self.sync(alloc, *from, *to, lines),
            PStep::Then(t) => self.go_on(alloc, *t, b"Then_", 0, lines),
            PStep::Else(t) => self.go_aside(alloc, *t, b"Else_", lines),
            PStep::Event(t) => self.go_on(alloc, *t, b"Event_", 0, lines),
            PStep::Insert(t) => self.go_on(alloc, *t, b"Insert_", 0, lines),
            PStep::Delete(t) => self.go_on(alloc, *t, b"Delete_", 0, lines),
            PStep::Found(_) => Ok(()),
            PStep::Missing(t) => self.go_aside(alloc, *t, b"Missing_", lines),
            PStep::Lock(t) => self.lock(alloc, *t, lines),
            PStep::Unlock(t) => self.go_on(alloc, *t, b"Unlock_", 0, lines),
            PStep::Embedded(t, facts, b) => self.embed(alloc, *t, facts, b, lines),
            PStep::Name(n) => self.name(*n, lines),
            PStep::Public(a) => self.public(alloc, a, lines),
            PStep::Apply(f, entries) => self.apply(alloc, f, entries, lines),
            PStep::Know(k) => self.know(*k, lines),
        }
    }
}
