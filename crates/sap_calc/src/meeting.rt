// Two threads that meet on a channel.
ghost use Rattle.std.specs.Prelude.{◌≡◌, IfOk, IfErr, OnErr};
ghost use Rattle.sap_runs.specs.declared.process_step.PStep.TheVariants.{Sync as SyncLine};
ghost use Rattle.sap_calc.specs.Running.{IsDone, IsDenied};

use crate::Config;
use crate::thread::{Thread, go_on, set, thread_at};
use sap_heads::met;
use sap_lines::{PFault, sorts_are_one};
use sap_terms::FactList;
use std::alloc::Global;

impl Config {
    /// Lets a thread send to another on a channel. Refused, nothing changes.
    pub(crate) fn sync(&mut self, alloc: Global, s: u64, t: u64) -> Result<FactList, PFault>
        ensures ok { IfOk result (IsDone self.old self.new (SyncLine s t)) }
        ensures refused { IfErr result (IsDenied self.old (SyncLine s t)) }
        ensures err { OnErr result (self.new ≡ self.old) }
    {
        sorts_are_one();
        self.table.each_is_ground();
        let Some(sender) = thread_at(&self.threads, s) else {
            return Err(PFault::NoThread { t: s });
        };
        let from = self.places.at(sender.place);
        let Some((m, n)) = from.form.sending() else {
            return Err(PFault::WrongForm { t: s });
        };
        let Some(th) = thread_at(&self.threads, t) else {
            return Err(PFault::NoThread { t });
        };
        let place = self.places.at(th.place);
        let Some((l, p)) = place.form.receiving() else {
            return Err(PFault::WrongForm { t });
        };
        let behind = from.first;
        let next = place.first;
        match met(alloc, &mut self.table, &sender.env, m, n, &th.env, l, p) {
            Err(fault) => Err(fault),
            Ok(env) => {
                go_on(&mut self.threads, s, behind);
                set(&mut self.threads, t, Thread { place: next, env });
                Ok(FactList::new(alloc))
            }
        }
    }
}
