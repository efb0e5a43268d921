// One call over all lines.
ghost use Rattle.std.specs.Prelude.{◌≡◌, IfOk, IfErr, OnErr};
ghost use Rattle.sap_calc.specs.Running.{IsDone, IsDenied};

use crate::Config;
use crate::head_line::HeadLine;
use sap_lines::PFault;
use sap_runs::PStep;
use sap_terms::FactList;
use std::alloc::Global;

impl Config {
    /// Does one line and gives its label, an empty list for a silent one. Refused, nothing changes; the fault is want of memory,
    /// or the first test of the line that fails. A line that names a thread is first tested for `NoThread` and `WrongForm`; what
    /// follows, in order, where it is evaluated that a normal form has more than 256 nodes being `TermLarge`:
    ///
    /// - `New`, `Name`: `UsedName`. `Know`: `NoEntry`. `Apply`: `NotPublic`, `Arity`, `NoEntry`, `TermLarge`.
    /// - `Out`, `Event`, `Insert`, `Delete`, `Unlock`: `TermLarge`. `Lock`: `TermLarge`, `Held`.
    /// - `Send`: `NoEntry`, `TermLarge`, `Unequal`. `In` without a channel: `NoEntry`, `NoMatch`; with one: `NoEntry`,
    ///   `TermLarge`, `NoMatch`, `Unequal`.
    /// - `Sync`: `NoThread` and `WrongForm` of the sender, then of the receiver, `TermLarge`, `NoMatch`, `Unequal`.
    /// - `Then`: `TermLarge`, `Unequal`. `Else`: `TermLarge`, `Equal`. `Found`: `TermLarge`, `Unset`. `Missing`: `TermLarge`,
    ///   `Set`.
    /// - `Embedded`: `FactCount`, `FactMissing`, `BadBinding`, `NoMatch`, `TermLarge`.
    ///
    /// Numbers count from 0. The notion is the step of the calculus SAPIC, cut so that each choice is written.
    ///
    /// Its time goes with the terms of the process and of the line, not with those of the entries, the store and the facts, whose
    /// terms are numbers. It recurses as deep as the terms of the process and of the line.
    pub fn step(&mut self, alloc: Global, s: &PStep) -> Result<FactList, PFault>
        ensures ok { IfOk result (IsDone self.old self.new s.now) }
        ensures refused { IfErr result (IsDenied self.old s.now) }
        ensures err { OnErr result (self.new ≡ self.old) }
    {
        match s {
            PStep::Nil(t) => self.nil(alloc, *t),
            PStep::Par(t) => self.par(alloc, *t),
            PStep::Rep(t) => self.rep(alloc, *t),
            PStep::New(t, n) => self.new(alloc, *t, *n),
            PStep::Out(t) => self.output(alloc, *t),
            PStep::Send(t, k) => self.send(alloc, *t, *k),
            PStep::In(t, k) => self.input(alloc, *t, *k),
            PStep::Sync(from, to) => self.sync(alloc, *from, *to),
            PStep::Then(t) => self.head_line(alloc, *t, HeadLine::Agree),
            PStep::Else(t) => self.head_line(alloc, *t, HeadLine::Differ),
            PStep::Event(t) => self.event(alloc, *t),
            PStep::Insert(t) => self.head_line(alloc, *t, HeadLine::Store),
            PStep::Delete(t) => self.head_line(alloc, *t, HeadLine::Clear),
            PStep::Found(t) => self.found(alloc, *t),
            PStep::Missing(t) => self.head_line(alloc, *t, HeadLine::Miss),
            PStep::Lock(t) => self.head_line(alloc, *t, HeadLine::Hold),
            PStep::Unlock(t) => self.head_line(alloc, *t, HeadLine::Release),
            PStep::Embedded(t, facts, b) => self.embedded(alloc, *t, facts, b),
            PStep::Name(n) => self.name(alloc, *n),
            PStep::Public(a) => self.public(alloc, a),
            PStep::Apply(f, entries) => self.apply(alloc, f, entries),
            PStep::Know(k) => self.know(alloc, *k),
        }
    }
}
