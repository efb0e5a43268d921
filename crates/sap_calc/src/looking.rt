// Threads that look into the store.
ghost use Rattle.std.specs.Prelude.{◌≡◌, IfOk, IfErr, OnErr, MatchOption};
ghost use Rattle.sap_terms.specs.View.{tree};
ghost use Rattle.sap_runs.specs.declared.process_step.PStep.TheVariants.{Found as FoundLine};
ghost use Rattle.sap_calc.specs.Running.{IsDone, IsDenied, WouldFind, FindsNothing};

use crate::Config;
use crate::stored::value_at;
use crate::thread::{Thread, set, thread_at};
use sap_heads::{value, value_unless_large, with_bound};
use sap_lines::PFault;
use sap_terms::{FactList, Mem, Term};
use std::alloc::Global;

impl Config {
    /// Lets a thread go on with the value that its key has. Refused, nothing changes.
    pub(crate) fn found(&mut self, alloc: Global, t: u64) -> Result<FactList, PFault>
        ensures ok { IfOk result (IsDone self.old self.new (FoundLine t)) }
        ensures refused { IfErr result (IsDenied self.old (FoundLine t)) }
        ensures err { OnErr result (self.new ≡ self.old) }
    {
        self.table.each_is_ground();
        let Some(th) = thread_at(&self.threads, t) else {
            return Err(PFault::NoThread { t });
        };
        let place = self.places.at(th.place);
        let Some((m, x)) = place.form.lookup() else {
            return Err(PFault::WrongForm { t });
        };
        let next = place.first;
        match value(alloc, &mut self.table, &th.env, m) {
            Err(fault) => Err(fault),
            Ok(k) => {
                self.table.each_has_one_number();
                match value_at(&self.store, k) {
                    None => Err(PFault::Unset),
                    Some(v) => match with_bound(alloc, &self.table, &th.env, x, v) {
                        Err(_) => Err(PFault::Mem),
                        Ok(env) => {
                            set(&mut self.threads, t, Thread { place: next, env });
                            Ok(FactList::new(alloc))
                        }
                    },
                }
            }
        }
    }

    /// The value that the line `found` of a thread would bind; None where that line would be refused for another cause than
    /// want of memory. Nothing changes.
    pub fn stored(&mut self, alloc: Global, t: u64) -> Result<Option<Term>, Mem>
        ensures ok { IfOk result (λ o. MatchOption o (FindsNothing self.old t) (λ v. WouldFind self.old t (tree v))) }
        ensures kept { self.new ≡ self.old }
    {
        self.table.each_is_ground();
        let Some(th) = thread_at(&self.threads, t) else {
            return Ok(None);
        };
        let place = self.places.at(th.place);
        let Some((m, _)) = place.form.lookup() else {
            return Ok(None);
        };
        let Some(k) = value_unless_large(alloc, &mut self.table, &th.env, m)? else {
            return Ok(None);
        };
        self.table.each_has_one_number();
        let Some(v) = value_at(&self.store, k) else {
            return Ok(None);
        };
        let found = self.table.tree(alloc, v)?;
        Ok(Some(found))
    }
}
