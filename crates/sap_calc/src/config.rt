//! Where a run of a process stands, and each line done on it.
ghost use Rattle.std.specs.Prelude.{◌≡◌, [], IfOk, IfErr, OnErr};
ghost use Rattle.sap_deduce.specs.Entries.{AreNumbered};
ghost use Rattle.sap_process.specs.Configuration.{initial};
ghost use Rattle.sap_process.specs.Proc.{proc};
ghost use Rattle.sap_process.specs.Ready.{IsReady};
ghost use Rattle.sap_runs.specs.declared.process_step.PStep.TheVariants.{Nil as NilLine, Par as ParLine, Rep as RepLine, Out as OutLine};
ghost use Rattle.sap_calc.specs.Running.{configuration, IsDone, IsDenied};

use crate::entry::send;
use crate::thread::{Threads, add, copy_at, end, first_thread, go_on, thread_at};
use indexmap::{IndexMap, IndexSet};
use sap_deduce::Knowledge;
use sap_heads::value;
use sap_lines::{PFault, Places, places_of};
use sap_process::{Process, instances_of_processes};
use sap_share::Table;
use sap_sides::SharedPile;
use sap_terms::{FactList, Mem, Signature};
use std::alloc::Global;
use std::marker::Model;

/// Where a run of a process stands. Its threads are at places of the process at the start, and what their variables, the
/// store and the locks have are numbers of normal forms, so no process is ever copied or written anew.
#[derive(Drop)]
pub struct Config {
    pub(crate) places: Places,
    pub(crate) table: Table,
    pub(crate) threads: Threads,
    pub(crate) store: IndexMap<u64, Option<u64>>,
    pub(crate) held: IndexMap<u64, bool>,
    pub(crate) facts: SharedPile,
    pub(crate) made: IndexSet<u64>,
    pub(crate) own: IndexSet<u64>,
    pub(crate) knowledge: Knowledge,
}

impl Model for Config {
    ghost use Rattle.std.specs.Coded.{Coded, codes};
    ghost use Rattle.sap_terms.specs.Codes.{tree_code};
    ghost use Rattle.sap_lines.specs.ProcCode.{Head, proc_code};
    ghost use Rattle.sap_calc.specs.Running.{Running};

    ghost Value = { Running };

    ghost coded = { let head : Coded Head = Prim.hlevel (codes, tree_code) in let process = proc_code head in Prim.hlevel (codes, tree_code, process) };

    ghost use Rattle.sap_calc.specs.code.Parts.{AreTied, seen};

    ghost view = { λ a. seen (record {
      table = a.table;
      places = a.places;
      threads = a.threads.items;
      store = a.store.entries;
      held = a.held.entries;
      facts = a.facts;
      made = a.made.keys;
      own = a.own.keys;
      known = a.knowledge;
    }) };

    ghost invariant = { λ a. AreTied (record {
      table = a.table;
      places = a.places;
      threads = a.threads.items;
      store = a.store.entries;
      held = a.held.entries;
      facts = a.facts;
      made = a.made.keys;
      own = a.own.keys;
      known = a.knowledge;
    }) };
}

// A table without terms, and what the adversary knows at the start, which is nothing.
fn nothing_known(alloc: Global, sig: &Signature) -> Result<(Table, Knowledge), Mem>
    ensures table { IfOk result (λ r. (r.0.sig ≡ sig.now) × (r.0.trees ≡ [])) }
    ensures empty { IfOk result (λ r. (r.1.sig ≡ sig.now) × (r.1.entries ≡ [])) }
    ensures numbered { IfOk result (λ r. AreNumbered r.0 r.1) }
{
    match Table::new(alloc, sig) {
        Err(mem) => Err(mem),
        Ok(table) => match Knowledge::new(alloc, sig) {
            Err(mem) => {
                drop(table);
                Err(mem)
            }
            Ok(knowledge) => Ok((table, knowledge)),
        },
    }
}

impl Config {
    /// A configuration in which the process runs as thread 0, and nothing else is there. The process is read once; it is not
    /// kept. It recurses as deep as the process and its terms.
    pub fn start(alloc: Global, sig: &Signature, p: &Process) -> Result<Config, Mem>
        requires { IsReady sig.now (proc p.now) }
        ensures sig { IfOk result (λ c. c.sig ≡ sig.now) }
        ensures known { IfOk result (λ c. c.known ≡ []) }
        ensures configuration { IfOk result (λ c. configuration c ≡ initial (proc p.now)) }
    {
        instances_of_processes();
        match places_of(alloc, p) {
            Err(mem) => Err(mem),
            Ok((places, root)) => match first_thread(alloc, root) {
                Err(mem) => {
                    drop(places);
                    Err(mem)
                }
                Ok(threads) => match nothing_known(alloc, sig) {
                    Err(mem) => {
                        drop((places, threads));
                        Err(mem)
                    }
                    Ok((table, knowledge)) => Ok(Config {
                        places,
                        table,
                        threads,
                        store: IndexMap::new(alloc),
                        held: IndexMap::new(alloc),
                        facts: SharedPile::new(alloc),
                        made: IndexSet::new(alloc),
                        own: IndexSet::new(alloc),
                        knowledge,
                    }),
                },
            },
        }
    }

    /// Lets a thread end that is nothing. Refused, nothing changes.
    pub(crate) fn nil(&mut self, alloc: Global, t: u64) -> Result<FactList, PFault>
        ensures ok { IfOk result (IsDone self.old self.new (NilLine t)) }
        ensures refused { IfErr result (IsDenied self.old (NilLine t)) }
        ensures err { OnErr result (self.new ≡ self.old) }
    {
        let Some(th) = thread_at(&self.threads, t) else {
            return Err(PFault::NoThread { t });
        };
        if !self.places.at(th.place).form.is_nil() {
            return Err(PFault::WrongForm { t });
        }
        end(&mut self.threads, t);
        Ok(FactList::new(alloc))
    }

    /// Lets a thread go on as the left part of its parallel, beside the right part. Refused, nothing changes.
    pub(crate) fn par(&mut self, alloc: Global, t: u64) -> Result<FactList, PFault>
        ensures ok { IfOk result (IsDone self.old self.new (ParLine t)) }
        ensures refused { IfErr result (IsDenied self.old (ParLine t)) }
        ensures err { OnErr result (self.new ≡ self.old) }
    {
        let Some(th) = thread_at(&self.threads, t) else {
            return Err(PFault::NoThread { t });
        };
        let place = self.places.at(th.place);
        if !place.form.is_par() {
            return Err(PFault::WrongForm { t });
        }
        let next = place.first;
        match copy_at(alloc, th, place.second) {
            Err(_) => Err(PFault::Mem),
            Ok(other) => match add(&mut self.threads, other) {
                Err(_) => Err(PFault::Mem),
                Ok(()) => {
                    go_on(&mut self.threads, t, next);
                    Ok(FactList::new(alloc))
                }
            },
        }
    }

    /// Lets a replication give one more thread. Refused, nothing changes.
    pub(crate) fn rep(&mut self, alloc: Global, t: u64) -> Result<FactList, PFault>
        ensures ok { IfOk result (IsDone self.old self.new (RepLine t)) }
        ensures refused { IfErr result (IsDenied self.old (RepLine t)) }
        ensures err { OnErr result (self.new ≡ self.old) }
    {
        let Some(th) = thread_at(&self.threads, t) else {
            return Err(PFault::NoThread { t });
        };
        let place = self.places.at(th.place);
        if !place.form.is_rep() {
            return Err(PFault::WrongForm { t });
        }
        let copy = copy_at(alloc, th, place.first)?;
        add(&mut self.threads, copy)?;
        Ok(FactList::new(alloc))
    }

    /// Lets a thread send a message to the adversary. Refused, nothing changes.
    pub(crate) fn output(&mut self, alloc: Global, t: u64) -> Result<FactList, PFault>
        ensures ok { IfOk result (IsDone self.old self.new (OutLine t)) }
        ensures refused { IfErr result (IsDenied self.old (OutLine t)) }
        ensures err { OnErr result (self.new ≡ self.old) }
    {
        self.table.each_is_ground();
        let Some(th) = thread_at(&self.threads, t) else {
            return Err(PFault::NoThread { t });
        };
        let place = self.places.at(th.place);
        let Some(m) = place.form.output() else {
            return Err(PFault::WrongForm { t });
        };
        let next = place.first;
        match value(alloc, &mut self.table, &th.env, m) {
            Err(fault) => Err(fault),
            Ok(k) => match send(&self.table, &mut self.knowledge, k) {
                Err(_) => Err(PFault::Mem),
                Ok(()) => {
                    go_on(&mut self.threads, t, next);
                    Ok(FactList::new(alloc))
                }
            },
        }
    }
}
