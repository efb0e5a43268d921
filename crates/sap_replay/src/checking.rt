//! Runs of the rules of a theory: what the theory says of them, or the line that refuses them.

ghost use Rattle.std.specs.Prelude.{◌≡◌, ℕ, List, Ok, IfOk, IfErr, IsErrOf, OnOk};
ghost use Rattle.sap_run_texts.specs.declared.run.Kinds.TheVariants as kinds;
ghost use Rattle.sap_run_texts.specs.declared.run.Run.{Run as AnyRun};
ghost use Rattle.sap_run_texts.specs.declared.run.Run.TheVariants as runs;
ghost use Rattle.sap_answer.specs.declared.refusal.Refusal.TheVariants as refusals;
ghost use Rattle.sap_rule.specs.RuleSteps.{empty_state};
ghost use Rattle.sap_replay.specs.Replays.{IsCheckedText, IsCheckable};
ghost use Rattle.sap_outside.specs.RunPieces.{IsRunAnswer};
ghost use Rattle.sap_replay.specs.RunRefusals.{IsIllegalOfTheory, IsLineOf, IsRunRefusal};
ghost use Rattle.sap_replay.specs.code.Checked.{Advances, IsLegalTrace, IsRefusedAt, IsStopFor, IsStopped};
ghost use Rattle.sap_replay.specs.code.Refused.{IsCheckLine};

use crate::verdicts::verdicts;
use sap_outside::RunRefusal;
use sap_refusals::{Refusal, no_run_line, rule_line, told};
use sap_rule::Theory;
use sap_run_texts::Run;
use sap_runs::{RStep, RSteps};
use sap_steps::{RFault, RuleState};
use sap_terms::{Mem, Trace};
use sap_text::Text;
use std::alloc::Global;

/// Why a run of a theory's rules has no full trace.
#[derive(Drop)]
pub enum Stop {
    /// Want of memory.
    Mem,
    /// The step with this number, from 1, is the first that is refused, for this cause.
    Step { step: u64, fault: RFault },
}

impl From<Mem> for Stop {
    ghost use Rattle.sap_replay.specs.declared.checking.Stop.TheVariants.{Mem as OutOfMemory};

    ghost from_gives = { λ _ e. e ≡ OutOfMemory };

    fn from(_e: Mem) -> Stop {
        Stop::Mem
    }
}

/// What the theory says of what bytes are read as, or the line that refuses them.
pub fn checked(
    alloc: Global,
    theory: &Theory,
    answer: &Result<Run, RunRefusal>,
) -> Result<Text, Refusal>
    requires checkable { IsCheckable theory.now }
    requires of_rules { (z : List ℕ) × IsRunAnswer kinds.Rules z answer.now }
    ensures given { (z : List ℕ) → IsRunAnswer kinds.Rules z answer.now
        → IfOk result (λ text. (r : AnyRun) × IsRunAnswer kinds.Rules z (Ok r) × IsCheckedText theory.now r text) }
    ensures refused { (z line : List ℕ) → IsRunAnswer kinds.Rules z answer.now
        → IsErrOf result (refusals.Told line) → IsRunRefusal kinds.Rules (IsIllegalOfTheory theory.now) z line }
{
    match answer {
        Ok(run) => text_of_any(alloc, theory, run),
        Err(refusal) => Err(told(no_run_line(alloc, *refusal))),
    }
}

/// What the theory says of a run, which is one of rules.
fn text_of_any(alloc: Global, theory: &Theory, run: &Run) -> Result<Text, Refusal>
    requires checkable { IsCheckable theory.now }
    requires of_rules { (z : List ℕ) × IsRunAnswer kinds.Rules z (Ok run.now) }
    ensures given { IfOk result (λ text. IsCheckedText theory.now run.now text) }
    ensures refused { (line : List ℕ) → IsErrOf result (refusals.Told line)
        → IsLineOf (IsIllegalOfTheory theory.now run.now) line }
{
    match run {
        Run::Rules(steps) => text_of_run(alloc, theory, steps),
        Run::Process(_) => unreachable!(),
    }
}

/// What the theory says of a run of its rules.
fn text_of_run(alloc: Global, theory: &Theory, steps: &RSteps) -> Result<Text, Refusal>
    requires { IsCheckable theory.now }
    ensures given { IfOk result (λ text. IsCheckedText theory.now (runs.Rules steps.now) text) }
    ensures refused { (line : List ℕ) → IsErrOf result (refusals.Told line)
        → IsLineOf (IsIllegalOfTheory theory.now (runs.Rules steps.now)) line }
{
    let full = full_of(alloc, theory, steps)?;
    let text = verdicts(alloc, &theory.restrictions, &theory.lemmas, &full)?;
    Ok(text)
}

/// The full trace of a run of the theory's rules, or the line that refuses it.
fn full_of(alloc: Global, theory: &Theory, steps: &RSteps) -> Result<Trace, Refusal>
    requires { IsCheckable theory.now }
    ensures full { IfOk result (IsLegalTrace theory.now steps.now) }
    ensures refused { (line : List ℕ) → IsErrOf result (refusals.Told line)
        → IsLineOf (IsIllegalOfTheory theory.now (runs.Rules steps.now)) line }
{
    match replayed(alloc, theory, steps) {
        Ok(full) => Ok(full),
        Err(stop) => Err(told(line_of(alloc, &stop))),
    }
}

/// The line that refuses a run. Want of memory refuses none, and so has no line.
fn line_of(alloc: Global, stop: &Stop) -> Result<Text, Mem>
    ensures { IfOk result (λ line. IsCheckLine stop.now line) }
{
    match stop {
        Stop::Mem => Err(Mem),
        Stop::Step { step, fault } => rule_line(alloc, *step, fault),
    }
}

/// The full trace of a run of the theory's rules, on which the restrictions aren't looked at.
fn replayed(alloc: Global, theory: &Theory, steps: &RSteps) -> Result<Trace, Stop>
    requires { IsCheckable theory.now }
    ensures full { IfOk result (IsLegalTrace theory.now steps.now) }
    ensures stopped { IfErr result (IsStopped theory.now steps.now) }
{
    let mut state = begun(alloc, theory)?;
    let mut full = Trace::new(alloc);
    for k in 0..steps.len() {
        match advance(alloc, &mut state, &mut full, k, steps.at(k)) {
            Ok(()) => {}
            Err(stop) => return Err(stop),
        }
    }
    Ok(full)
}

/// Where each run of the theory's rules starts.
fn begun(alloc: Global, theory: &Theory) -> Result<Box<RuleState>, Mem>
    requires { IsCheckable theory.now }
    ensures sig { IfOk result (λ s. s.value.sig ≡ theory.now.signature) }
    ensures rules { IfOk result (λ s. s.value.rules ≡ theory.now.rules) }
    ensures at { IfOk result (λ s. s.value.at ≡ empty_state) }
{
    Ok(Box::new(alloc, RuleState::start(alloc, theory)?)?)
}

/// Takes the step with this index, from 0, and puts last what it shows.
fn advance(
    alloc: Global,
    state: &mut RuleState,
    full: &mut Trace,
    k: u64,
    step: &RStep,
) -> Result<(), Stop>
    ensures ok { OnOk result (Advances state.old step.now full.old state.new full.new) }
    ensures sig { state.new.sig ≡ state.old.sig }
    ensures rules { state.new.rules ≡ state.old.rules }
    ensures refused { IfErr result (IsRefusedAt state.old k step.now) }
{
    match state.step(alloc, step) {
        Ok(acts) => Ok(full.push(acts)?),
        Err(fault) => Err(stopped_at(k, fault)),
    }
}

/// Stops at the step with this index, from 0, unless memory was wanting.
fn stopped_at(k: u64, fault: RFault) -> Stop
    ensures { IsStopFor k fault result }
{
    match fault {
        RFault::Mem => Stop::Mem,
        fault => Stop::Step {
            step: k.saturating_add(1),
            fault,
        },
    }
}
