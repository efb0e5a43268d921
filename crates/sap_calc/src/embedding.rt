// Threads that use their embedded rules on facts.
ghost use Rattle.std.specs.Prelude.{◌≡◌, IfOk, IfErr, OnErr};
ghost use Rattle.sap_runs.specs.declared.process_step.PStep.TheVariants.{Embedded as EmbeddedLine};
ghost use Rattle.sap_calc.specs.Running.{IsDone, IsDenied};

use crate::Config;
use crate::citing::cited;
use crate::thread::{Thread, set, thread_at};
use sap_heads::used;
use sap_lines::{PFault, sorts_are_one};
use sap_sides::Sides;
use sap_terms::{Bindings, FactList, Numbers};
use std::alloc::Global;

impl Config {
    // Lets a thread use its embedded rule on the facts with these numbers, its open variables standing for these terms. Refused,
    // nothing changes.
    pub(crate) fn embedded(
        &mut self,
        alloc: Global,
        t: u64,
        numbers: &Numbers,
        b: &Bindings,
    ) -> Result<FactList, PFault>
        ensures ok { IfOk result (IsDone self.old self.new (EmbeddedLine t numbers.now b.now)) }
        ensures refused { IfErr result (IsDenied self.old (EmbeddedLine t numbers.now b.now)) }
        ensures err { OnErr result (self.new ≡ self.old) }
    {
        sorts_are_one();
        let Some(th) = thread_at(&self.threads, t) else {
            return Err(PFault::NoThread { t });
        };
        let place = self.places.at(th.place);
        let Some((l, e, r)) = place.form.rule() else {
            return Err(PFault::WrongForm { t });
        };
        if numbers.len() != l.len() {
            return Err(PFault::FactCount);
        }
        let next = place.first;
        match cited(alloc, &self.table, &self.facts, numbers) {
            Err(fault) => Err(fault),
            Ok(facts) => match used(
                alloc,
                &mut self.table,
                &th.env,
                facts.as_slice(),
                l,
                e,
                r,
                b,
            ) {
                Err(fault) => Err(fault),
                Ok((env, sides)) => {
                    let Sides { acts, right } = sides;
                    match self.facts.exchange(numbers, right) {
                        Err(_) => Err(PFault::Mem),
                        Ok(()) => {
                            set(&mut self.threads, t, Thread { place: next, env });
                            Ok(acts)
                        }
                    }
                }
            },
        }
    }
}
