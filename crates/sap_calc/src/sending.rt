// Threads that send on a channel, and that show a fact.
ghost use Rattle.std.specs.Prelude.{◌≡◌, IfOk, IfErr, OnErr};
ghost use Rattle.sap_runs.specs.declared.process_step.PStep.TheVariants.{Send as SendLine, Event as EventLine};
ghost use Rattle.sap_calc.specs.Running.{IsDone, IsDenied};

use crate::Config;
use crate::entry::{entry_number, send, shown_number};
use crate::thread::{go_on, thread_at};
use sap_heads::{shown_form, values};
use sap_lines::PFault;
use sap_rewrite::normal_forms_are_unique;
use sap_terms::FactList;
use std::alloc::Global;

impl Config {
    /// Lets a thread show its fact. Refused, nothing changes.
    pub(crate) fn event(&mut self, alloc: Global, t: u64) -> Result<FactList, PFault>
        ensures ok { IfOk result (IsDone self.old self.new (EventLine t)) }
        ensures refused { IfErr result (IsDenied self.old (EventLine t)) }
        ensures err { OnErr result (self.new ≡ self.old) }
    {
        self.table.each_is_ground();
        let Some(th) = thread_at(&self.threads, t) else {
            return Err(PFault::NoThread { t });
        };
        let place = self.places.at(th.place);
        let Some(f) = place.form.event() else {
            return Err(PFault::WrongForm { t });
        };
        let next = place.first;
        match shown_form(alloc, &mut self.table, &th.env, f) {
            Err(fault) => Err(fault),
            Ok(label) => {
                go_on(&mut self.threads, t, next);
                Ok(label)
            }
        }
    }

    /// Lets a thread send to the adversary on the channel that entry k is. Refused, nothing changes.
    pub(crate) fn send(&mut self, alloc: Global, t: u64, k: u64) -> Result<FactList, PFault>
        ensures ok { IfOk result (IsDone self.old self.new (SendLine t k)) }
        ensures refused { IfErr result (IsDenied self.old (SendLine t k)) }
        ensures err { OnErr result (self.new ≡ self.old) }
    {
        normal_forms_are_unique();
        let Some(th) = thread_at(&self.threads, t) else {
            return Err(PFault::NoThread { t });
        };
        let place = self.places.at(th.place);
        let Some((m, n)) = place.form.sending() else {
            return Err(PFault::WrongForm { t });
        };
        let next = place.first;
        let Some(e) = entry_number(&self.table, &self.knowledge, k) else {
            return Err(PFault::NoEntry { k });
        };
        self.table.each_is_ground();
        match values(alloc, &mut self.table, &th.env, m, n) {
            Err(fault) => Err(fault),
            Ok((i, j)) => {
                self.table.each_has_one_number();
                if i != e {
                    return Err(PFault::Unequal);
                }
                match shown_number(alloc, &self.table, e) {
                    Err(_) => Err(PFault::Mem),
                    Ok(label) => match send(&self.table, &mut self.knowledge, j) {
                        Err(_) => {
                            drop(label);
                            Err(PFault::Mem)
                        }
                        Ok(()) => {
                            go_on(&mut self.threads, t, next);
                            Ok(label)
                        }
                    },
                }
            }
        }
    }
}
