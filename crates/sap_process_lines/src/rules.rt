// The lines of rules of the process.
ghost use Rattle.std.specs.Prelude.{◌≡◌, ◌++◌, ◌∷◌, [], None, OnOk};
ghost use Rattle.sap_process_lines.specs.Tables.{come, waiting, with_known, with_pile, with_thread};
ghost use Rattle.sap_process_lines.specs.Pending.{pending_lines};
ghost use Rattle.sap_process_lines.specs.Told.{GivesTold, left_if, lines_if, told_at, told_embedded, told_in, told_meeting, told_new, told_rule, told_send};

use crate::cited::{behind_first, count_up, number_cited, numbers_cited};
use crate::desk::Desk;
use crate::kind::{Kind, kind_of};
use sap_input::push_input;
use sap_runs::{PStep, PSteps};
use sap_terms::{Bindings, Copied, Mem, Name, Numbers};
use std::alloc::Global;

impl Desk {
    // Writes the lines for the rule of this name, used on these facts.
    pub(crate) fn rule(
        &mut self,
        alloc: Global,
        name: &Name,
        facts: &Numbers,
        b: &Bindings,
        shows: bool,
        count: u64,
        lines: &mut PSteps,
    ) -> Result<(), Mem>
        ensures { OnOk result (GivesTold (told_rule self.old name.now facts.now b.now shows count) self.new lines.old lines.new) }
    {
        if name.is(b"Init") {
            return self.comes(0);
        }
        let Some(kind) = kind_of(name) else {
            return Ok(());
        };
        let Some(t) = number_cited(&self.facts, facts, 0) else {
            return Ok(());
        };
        self.thread(alloc, kind, t, facts, b, shows, count, lines)
    }

    // Writes the lines for a rule of this kind, used on the fact of thread t first.
    fn thread(
        &mut self,
        alloc: Global,
        kind: Kind,
        t: u64,
        facts: &Numbers,
        b: &Bindings,
        shows: bool,
        count: u64,
        lines: &mut PSteps,
    ) -> Result<(), Mem>
        ensures { OnOk result (GivesTold (told_at self.old kind t facts.now b.now shows count) self.new lines.old lines.new) }
    {
        match kind {
            Kind::Nil => lines.push(PStep::Nil(t)),
            Kind::Par => self.par(t, lines),
            Kind::RepStart => self.comes(t),
            Kind::RepCopy => self.copy(t, lines),
            Kind::New => self.make(t, facts, lines),
            Kind::Out => self.output(t, lines),
            Kind::OutAdv => self.send(t, lines),
            Kind::OutMsg => self.two_come(t, t),
            Kind::OutAck => self.comes(t),
            Kind::In => self.input(t, lines),
            Kind::InMsg => self.meet(t, facts, lines),
            Kind::Event => self.event(t, lines),
            Kind::Insert => self.goes(PStep::Insert(t), t, lines),
            Kind::Delete => self.goes(PStep::Delete(t), t, lines),
            Kind::Lock => self.goes(PStep::Lock(t), t, lines),
            Kind::Unlock => self.goes(PStep::Unlock(t), t, lines),
            Kind::Then => self.goes(PStep::Then(t), t, lines),
            Kind::Else => self.goes(PStep::Else(t), t, lines),
            Kind::Found => self.goes(PStep::Found(t), t, lines),
            Kind::Missing => self.goes(PStep::Missing(t), t, lines),
            Kind::Embedded => self.embedded(alloc, t, facts, b, shows, count, lines),
        }
    }

    // A thread becomes two.
    fn par(&mut self, t: u64, lines: &mut PSteps) -> Result<(), Mem>
        ensures lines { OnOk result (lines.new ≡ lines.old ++ PStep.Par t ∷ []) }
        ensures tables { OnOk result (self.new ≡ with_thread (come self.old (t ∷ self.old.threads ∷ []))) }
    {
        lines.push(PStep::Par(t))?;
        self.two_come(t, self.threads)?;
        self.threads = self.threads.checked_add(1).ok_or(Mem)?;
        Ok(())
    }

    // A replication gives one more thread.
    fn copy(&mut self, t: u64, lines: &mut PSteps) -> Result<(), Mem>
        ensures lines { OnOk result (lines.new ≡ lines.old ++ PStep.Rep t ∷ []) }
        ensures tables { OnOk result (self.new ≡ with_thread (come self.old (self.old.threads ∷ []))) }
    {
        self.goes(PStep::Rep(t), self.threads, lines)?;
        self.threads = self.threads.checked_add(1).ok_or(Mem)?;
        Ok(())
    }

    // A thread makes the name of the fact that is cited second.
    fn make(&mut self, t: u64, facts: &Numbers, lines: &mut PSteps) -> Result<(), Mem>
        ensures { OnOk result (GivesTold (told_new self.old t facts.now) self.new lines.old lines.new) }
    {
        match number_cited(&self.facts, facts, 1) {
            Some(n) => self.goes(PStep::New(t, n), t, lines),
            None => Ok(()),
        }
    }

    // A thread puts out a term, which is an entry of the process from now on.
    fn output(&mut self, t: u64, lines: &mut PSteps) -> Result<(), Mem>
        ensures lines { OnOk result (lines.new ≡ lines.old ++ PStep.Out t ∷ []) }
        ensures tables { OnOk result (self.new ≡ with_known (come self.old (self.old.known ∷ t ∷ []))) }
    {
        lines.push(PStep::Out(t))?;
        self.two_come(self.known, t)?;
        self.one_more_known()
    }

    // A thread sends on what is pending.
    fn send(&mut self, t: u64, lines: &mut PSteps) -> Result<(), Mem>
        ensures { OnOk result (GivesTold (told_send self.old t) self.new lines.old lines.new) }
    {
        match self.pending {
            Some(e) => {
                lines.push(PStep::Send(t, e))?;
                self.pending = None;
                self.two_come(self.known, t)?;
                self.one_more_known()
            }
            None => Ok(()),
        }
    }

    // A thread takes what is pending.
    fn input(&mut self, t: u64, lines: &mut PSteps) -> Result<(), Mem>
        ensures { OnOk result (GivesTold (told_in self.old t) self.new lines.old lines.new) }
    {
        match self.pending {
            Some(e) => {
                push_input(t, e, lines)?;
                self.pending = None;
                self.comes(t)
            }
            None => Ok(()),
        }
    }

    // The thread of the message that is cited second sends to thread t.
    fn meet(&mut self, t: u64, facts: &Numbers, lines: &mut PSteps) -> Result<(), Mem>
        ensures { OnOk result (GivesTold (told_meeting self.old t facts.now) self.new lines.old lines.new) }
    {
        match number_cited(&self.facts, facts, 1) {
            Some(sender) => {
                lines.push(PStep::Sync(sender, t))?;
                self.two_come(sender, t)
            }
            None => Ok(()),
        }
    }

    // A thread shows its event, before which what is pending is written.
    fn event(&mut self, t: u64, lines: &mut PSteps) -> Result<(), Mem>
        ensures lines { OnOk result (lines.new ≡ lines.old ++ (pending_lines self.old.pending ++ PStep.Event t ∷ [])) }
        ensures tables { OnOk result (self.new ≡ waiting (come self.old (t ∷ [])) None) }
    {
        self.settle(lines)?;
        self.goes(PStep::Event(t), t, lines)
    }

    // Lets so many facts of the process come behind the fact of thread t.
    fn pile(&mut self, t: u64, many: u64) -> Result<(), Mem>
        ensures { OnOk result (self.new ≡ with_pile self.old t many) }
    {
        let next = self.piled.checked_add(many).ok_or(Mem)?;
        self.facts.push(t)?;
        count_up(&mut self.facts, self.piled, next)?;
        self.piled = next;
        Ok(())
    }

    // Writes what is pending, where facts are shown.
    fn settle_if(&mut self, shows: bool, lines: &mut PSteps) -> Result<(), Mem>
        ensures lines { OnOk result (lines.new ≡ lines.old ++ lines_if shows self.old.pending) }
        ensures tables { OnOk result (self.new ≡ waiting self.old (left_if shows self.old.pending)) }
    {
        if shows {
            return self.settle(lines);
        }
        Ok(())
    }

    // Writes a line, before which what is pending is written, where facts are shown.
    fn settled(&mut self, step: PStep, shows: bool, lines: &mut PSteps) -> Result<(), Mem>
        ensures lines { OnOk result (lines.new ≡ lines.old ++ (lines_if shows self.old.pending ++ step ∷ [])) }
        ensures tables { OnOk result (self.new ≡ waiting self.old (left_if shows self.old.pending)) }
    {
        match self.settle_if(shows, lines) {
            Err(mem) => {
                drop(step);
                Err(mem)
            }
            Ok(()) => lines.push(step),
        }
    }

    // A rule of the process is used on the facts that are cited behind the first.
    fn embedded(
        &mut self,
        alloc: Global,
        t: u64,
        facts: &Numbers,
        b: &Bindings,
        shows: bool,
        count: u64,
        lines: &mut PSteps,
    ) -> Result<(), Mem>
        ensures { OnOk result (GivesTold (told_embedded self.old t facts.now b.now shows count) self.new lines.old lines.new) }
    {
        let many = count
            .saturating_sub(self.facts.len() as u64)
            .saturating_sub(1);
        match numbers_cited(alloc, &self.facts, behind_first(facts.as_slice()))? {
            None => Ok(()),
            Some(numbers) => match b.copy(alloc) {
                Err(mem) => {
                    drop(numbers);
                    Err(mem)
                }
                Ok(b) => {
                    self.settled(PStep::Embedded(t, numbers, b), shows, lines)?;
                    self.pile(t, many)
                }
            },
        }
    }
}
