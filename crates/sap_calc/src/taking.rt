// Threads that take what fits their patterns.
ghost use Rattle.std.specs.Prelude.{◌≡◌, ◌<◌, [], ◌∷◌, length, IfOk, IfErr, OnErr, MatchOption, ⊤};
ghost use Rattle.sap_terms.specs.AdversaryFacts.{k_fact};
ghost use Rattle.sap_terms.specs.Destructors.{HasDestructor};
ghost use Rattle.sap_terms.specs.Equations.{equations};
ghost use Rattle.sap_terms.specs.Variables.{tree_vars};
ghost use Rattle.sap_terms.specs.View.{tree};
ghost use Rattle.sap_rewrite.specs.Match.{HaveOneSort};
ghost use Rattle.sap_runs.specs.declared.process_step.PStep.TheVariants.{In as InLine};
ghost use Rattle.sap_share.specs.Env.{AreSmallForms};
ghost use Rattle.sap_share.specs.Shared.{tree_at, Keeps};
ghost use Rattle.sap_heads.specs.Taken.{IsTaken, IsUntaken, IsReceived, IsUnreceived};
ghost use Rattle.sap_heads.specs.Values.{CanEvaluate, IsSmallNumber};
ghost use Rattle.sap_lines.specs.declared.fault.PFault.TheVariants.{Mem as OutOfMemory};
ghost use Rattle.sap_calc.specs.Running.{IsDone, IsDenied};

use crate::Config;
use crate::entry::{entry_number, shown_number};
use crate::thread::{Thread, set, thread_at};
use sap_heads::{fitted, received};
use sap_lines::{PFault, sorts_are_one};
use sap_share::{Env, Table};
use sap_terms::{FactList, MOST_TERM_NODES, Term};
use std::alloc::Global;

// What is bound where what is taken fits; on a channel, where there is one.
fn taken(
    alloc: Global,
    table: &mut Table,
    env: &Env,
    channel: Option<&Term>,
    n: &Term,
    e: u64,
) -> Result<Env, PFault>
    requires number { IsSmallNumber table.old e }
    requires env { AreSmallForms (equations table.old.sig) MOST_TERM_NODES table.old.trees env.now }
    requires can { MatchOption channel ⊤ (λ m. CanEvaluate table.old env.now (tree m.now)) }
    requires sorts { HaveOneSort (tree_vars (tree n.now)) }
    requires plain { HasDestructor table.old.sig (tree n.now) → ⊥ }
    ensures ok { IfOk result (λ r. MatchOption channel.entry (IsTaken table.new env.now (tree n.now) (tree_at table.new.trees e) r) (λ m. IsReceived table.new env.now (tree m.now) (tree n.now) (tree_at table.new.trees e) r)) }
    ensures refused { IfErr result (λ f. MatchOption channel.entry (IsUntaken table.new env.now (tree n.now) (tree_at table.new.trees e) f) (λ m. IsUnreceived table.new env.now (tree m.now) (tree n.now) (tree_at table.new.trees e) f)) }
    ensures keeps { Keeps table.old table.new }
{
    match channel {
        None => fitted(alloc, table, env, n, e),
        Some(m) => received(alloc, table, env, m, n, e),
    }
}

// What is bound, and beside it what a line shows that gives this term.
fn labelled(alloc: Global, table: &Table, e: u64, env: Env) -> Result<(Env, FactList), PFault>
    requires { e < length table.now.trees }
    ensures bound { IfOk result (λ r. r.0 ≡ env) }
    ensures label { IfOk result (λ r. r.1 ≡ k_fact (tree_at table.now.trees e) ∷ []) }
    ensures refused { IfErr result (λ f. f ≡ OutOfMemory) }
{
    match shown_number(alloc, table, e) {
        Err(_) => Err(PFault::Mem),
        Ok(label) => Ok((env, label)),
    }
}

impl Config {
    /// Lets a thread take entry k, which fits its pattern; on a channel, a pair of the channel and of what fits. Refused,
    /// nothing changes.
    pub(crate) fn input(&mut self, alloc: Global, t: u64, k: u64) -> Result<FactList, PFault>
        ensures ok { IfOk result (IsDone self.old self.new (InLine t k)) }
        ensures refused { IfErr result (IsDenied self.old (InLine t k)) }
        ensures err { OnErr result (self.new ≡ self.old) }
    {
        sorts_are_one();
        let Some(th) = thread_at(&self.threads, t) else {
            return Err(PFault::NoThread { t });
        };
        let place = self.places.at(th.place);
        let Some((channel, n)) = place.form.taking() else {
            return Err(PFault::WrongForm { t });
        };
        let next = place.first;
        let Some(e) = entry_number(&self.table, &self.knowledge, k) else {
            return Err(PFault::NoEntry { k });
        };
        self.table.each_is_ground();
        match taken(alloc, &mut self.table, &th.env, channel, n, e) {
            Err(fault) => Err(fault),
            Ok(env) => match labelled(alloc, &self.table, e, env) {
                Err(fault) => Err(fault),
                Ok((env, label)) => {
                    set(&mut self.threads, t, Thread { place: next, env });
                    Ok(label)
                }
            },
        }
    }
}
