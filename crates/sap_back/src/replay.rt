//! Runs of rules replayed line by line, as long as the restrictions are true.
ghost use Rattle.std.specs.Prelude.{◌≡◌, [], All, IfOk, IfErr, ⊤};
ghost use Rattle.sap_process.specs.Proc.{proc};
ghost use Rattle.sap_restrict.specs.Stands.{HasOneReserved, KeepsTrace};
ghost use Rattle.sap_restrict.specs.View.{machine};
ghost use Rattle.sap_rule.specs.RuleSteps.{empty_state};
ghost use Rattle.sap_rule.specs.WellMade.{IsWellMade};
ghost use Rattle.sap_steps.specs.Lines.{IsLine, HasFewNodes};
ghost use Rattle.sap_terms.specs.Message.{AreMessageFacts};
ghost use Rattle.sap_templates.specs.Templates.{rules_of};
ghost use Rattle.sap_back.specs.code.Replayed.{IsKept, IsStopped, IsTakenUp, IsUnkept, ShowOneReserved, stop_at};

use crate::BackAt;
use sap_formula::{LemmaList, RestrictionList};
use sap_read::File;
use sap_restrict::{Admit, Guard};
use sap_rule::Theory;
use sap_runs::RStep;
use sap_steps::{RFault, RuleState};
use sap_templates::generate;
use sap_terms::{Copied, FactList, Mem};
use std::alloc::Global;

/// Where a run of rules stands, and what is kept of its full trace, which counts.
#[derive(Drop)]
pub(crate) struct Replay {
    pub(crate) state: RuleState,
    pub(crate) guard: Guard,
}

impl Replay {
    /// Where each run of the rules of the file's process starts.
    pub(crate) fn start(alloc: Global, f: &File) -> Result<Replay, Mem>
        requires { All (IsWellMade f.now.signature) (rules_of (proc f.now.process)) }
        ensures sig { IfOk result (λ r. r.state.sig ≡ f.now.signature) }
        ensures rules { IfOk result (λ r. r.state.rules ≡ rules_of (proc f.now.process)) }
        ensures at { IfOk result (λ r. r.state.at ≡ empty_state) }
        ensures guard { IfOk result (λ r. KeepsTrace (machine r.guard) []) }
    {
        let state = started(alloc, f)?;
        Ok(Replay {
            state,
            guard: Guard::new(alloc),
        })
    }

    /// Takes up the line, which has this number, and gives what it shows. Else it says why not.
    pub(crate) fn take_up(
        &mut self,
        alloc: Global,
        line: &RStep,
        number: u64,
    ) -> Result<FactList, BackAt>
        requires { ShowOneReserved self.old.state.sig self.old.state.rules }
        ensures ok { IfOk result (IsTakenUp self.old.state self.new.state (machine self.old.guard) (machine self.new.guard) line.now) }
        ensures err { IfErr result (IsStopped self.old.state (machine self.old.guard) line.now number) }
    {
        match self.state.step(alloc, line) {
            Ok(acts) => admitted(&mut self.guard, acts, number),
            Err(fault) => Err(stop(number, fault)),
        }
    }
}

/// Where each run of the rules of the file's process starts, in memory of its own.
pub(crate) fn begun(alloc: Global, f: &File) -> Result<Box<Replay>, Mem>
    requires { All (IsWellMade f.now.signature) (rules_of (proc f.now.process)) }
    ensures sig { IfOk result (λ r. r.value.state.sig ≡ f.now.signature) }
    ensures rules { IfOk result (λ r. r.value.state.rules ≡ rules_of (proc f.now.process)) }
    ensures at { IfOk result (λ r. r.value.state.at ≡ empty_state) }
    ensures guard { IfOk result (λ r. KeepsTrace (machine r.value.guard) []) }
{
    Ok(Box::new(alloc, Replay::start(alloc, f)?)?)
}

// Where each run of the rules of the file's process starts.
fn started(alloc: Global, f: &File) -> Result<RuleState, Mem>
    requires { All (IsWellMade f.now.signature) (rules_of (proc f.now.process)) }
    ensures sig { IfOk result (λ s. s.sig ≡ f.now.signature) }
    ensures rules { IfOk result (λ s. s.rules ≡ rules_of (proc f.now.process)) }
    ensures at { IfOk result (λ s. s.at ≡ empty_state) }
{
    let theory = bare_theory(alloc, f)?;
    RuleState::start(alloc, &theory)
}

// The rules of the file's process, with no restrictions and no lemmas.
fn bare_theory(alloc: Global, f: &File) -> Result<Theory, Mem>
    ensures sig { IfOk result (λ t. t.signature ≡ f.now.signature) }
    ensures rules { IfOk result (λ t. t.rules ≡ rules_of (proc f.now.process)) }
{
    let name = f.name.copy(alloc)?;
    let signature = f.signature.copy(alloc)?;
    Ok(Theory {
        name,
        signature,
        rules: generate(alloc, &f.signature, &f.process)?,
        restrictions: RestrictionList::new(alloc),
        lemmas: LemmaList::new(alloc),
    })
}

// What the line with this number shows, if the guard keeps it.
fn admitted(guard: &mut Guard, acts: FactList, number: u64) -> Result<FactList, BackAt>
    requires { HasOneReserved acts }
    ensures ok { IfOk result (λ shown. IsKept acts shown (machine guard.old) (machine guard.new)) }
    ensures err { IfErr result (IsUnkept acts (machine guard.old) number) }
{
    match guard.admit(&acts) {
        Ok(Admit::Kept) => Ok(acts),
        Ok(Admit::Broken { which }) => Err(BackAt::Broken {
            step: number,
            which,
        }),
        Err(_) => Err(BackAt::Mem),
    }
}

// Why the line with this number is refused.
fn stop(number: u64, fault: RFault) -> BackAt
    ensures { result ≡ stop_at number fault }
{
    match fault {
        RFault::Mem => BackAt::Mem,
        fault => BackAt::Step {
            step: number,
            fault,
        },
    }
}
