// Threads that make names.
ghost use Rattle.std.specs.Prelude.{◌≡◌, IfOk, IfErr, OnErr};
ghost use Rattle.sap_runs.specs.declared.process_step.PStep.TheVariants.{New as NewLine};
ghost use Rattle.sap_calc.specs.Running.{IsDone, IsDenied};

use crate::Config;
use crate::thread::{Thread, set, thread_at};
use sap_heads::{name_value, with_bound};
use sap_lines::PFault;
use sap_sides::{find_room, is_among, put_last};
use sap_terms::FactList;
use std::alloc::Global;

impl Config {
    /// Lets a thread make a fresh name. Refused, nothing changes.
    pub(crate) fn new(&mut self, alloc: Global, t: u64, n: u64) -> Result<FactList, PFault>
        ensures ok { IfOk result (IsDone self.old self.new (NewLine t n)) }
        ensures refused { IfErr result (IsDenied self.old (NewLine t n)) }
        ensures err { OnErr result (self.new ≡ self.old) }
    {
        let Some(th) = thread_at(&self.threads, t) else {
            return Err(PFault::NoThread { t });
        };
        let place = self.places.at(th.place);
        let Some(x) = place.form.creation() else {
            return Err(PFault::WrongForm { t });
        };
        if is_among(&self.made, n) {
            return Err(PFault::UsedName { n });
        }
        if is_among(&self.own, n) {
            return Err(PFault::UsedName { n });
        }
        let next = place.first;
        match find_room(&mut self.made) {
            Err(_) => Err(PFault::Mem),
            Ok(()) => match name_value(alloc, &mut self.table, n) {
                Err(_) => Err(PFault::Mem),
                Ok(k) => match with_bound(alloc, &self.table, &th.env, x, k) {
                    Err(_) => Err(PFault::Mem),
                    Ok(env) => {
                        set(&mut self.threads, t, Thread { place: next, env });
                        put_last(&mut self.made, n);
                        Ok(FactList::new(alloc))
                    }
                },
            },
        }
    }
}
