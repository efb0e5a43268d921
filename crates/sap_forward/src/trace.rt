//! What a run of a process shows.
ghost use Rattle.std.specs.Prelude.{◌≡◌, ◌++◌, [], IfOk, OnOk, Err, ℕ};
ghost use Rattle.sap_calc.specs.Replays.{AreDone};
ghost use Rattle.sap_process.specs.Configuration.{initial};
ghost use Rattle.sap_terms.specs.Trace.{shown};
ghost use Rattle.sap_process.specs.Proc.{proc};
ghost use Rattle.sap_calc.specs.Running.{configuration, IsDone, IsDeniedAt};
ghost use Rattle.sap_forward.specs.Converted.{IsShownByLines};
ghost use Rattle.sap_forward.specs.code.Taken.{AreDoneUntil, IsShown};
ghost use Rattle.sap_lines.specs.declared.fault.PFault.{PFault as Fault};
ghost use Rattle.sap_lines.specs.declared.at.At.TheVariants.{Step as StepOf};
ghost use Rattle.sap_lines.specs.FirstRefused.{IsFirstRefusedOfProcess};
ghost use Rattle.sap_read.specs.Files.{IsRunnable, told_by};

use sap_calc::{Config, replays_are_legal};
use sap_lines::{At, at_line};
use sap_locks::annotations_are_ready;
use sap_read::File;
use sap_runs::{PStep, PSteps};
use sap_terms::{FactList, Mem, Trace};
use std::alloc::Global;

// Does one line of the process, the one with this number from 1, and gives its label.
pub(crate) fn follow(
    alloc: Global,
    config: &mut Config,
    step: &PStep,
    number: u64,
) -> Result<FactList, At>
    ensures ok { IfOk result (IsDone config.old config.new step.now) }
    ensures refused { (n : ℕ) (fault : Fault) → result ≡ Err (StepOf n fault)
        → IsDeniedAt config.old step.now number n fault }
{
    match config.step(alloc, step) {
        Ok(label) => Ok(label),
        Err(fault) => Err(at_line(number, fault)),
    }
}

// Puts a label last, unless it is empty.
fn show(trace: &mut Trace, label: FactList) -> Result<(), Mem>
    ensures { OnOk result (trace.new ≡ trace.old ++ shown label) }
{
    if label.len() > 0 {
        trace.push(label)?;
    }
    Ok(())
}

// Does one line and puts its label last, unless it is empty.
fn show_line(
    alloc: Global,
    config: &mut Config,
    trace: &mut Trace,
    step: &PStep,
    number: u64,
) -> Result<(), At>
    ensures ok { OnOk result (IsShown config.old config.new step.now trace.old trace.new) }
    ensures refused { (n : ℕ) (fault : Fault) → result ≡ Err (StepOf n fault)
        → IsDeniedAt config.old step.now number n fault }
{
    let label = follow(alloc, config, step, number)?;
    Ok(show(trace, label)?)
}

// Does all lines, and puts their labels last that aren't empty.
fn show_each(alloc: Global, config: &mut Config, trace: &mut Trace, run: &PSteps) -> Result<(), At>
    requires { trace.old ≡ [] }
    ensures ok { OnOk result (AreDone config.old run.now config.new trace.new) }
    ensures refused { (n : ℕ) (fault : Fault) → result ≡ Err (StepOf n fault)
        → AreDoneUntil config.old run.now n fault }
{
    for k in 0..run.len() {
        show_line(alloc, config, trace, run.at(k), k + 1)?;
    }
    Ok(())
}

// Where the file's process runs, and nothing else is there.
pub(crate) fn started(alloc: Global, f: &File) -> Result<Box<Config>, Mem>
    requires { IsRunnable (told_by f.now) }
    ensures sig { IfOk result (λ c. c.value.sig ≡ f.now.signature) }
    ensures known { IfOk result (λ c. c.value.known ≡ []) }
    ensures configuration { IfOk result (λ c. configuration c.value ≡ initial (proc f.now.process)) }
{
    annotations_are_ready();
    Ok(Box::new(alloc, Config::start(alloc, &f.signature, &f.process)?)?)
}

/// What a run of the file's process shows: its labels that aren't empty, in order. `Step` names the first illegal line.
/// It recurses as deep as the file's process and the terms of file and run.
pub fn process_trace(alloc: Global, f: &File, run: &PSteps) -> Result<Trace, At>
    requires { IsRunnable (told_by f.now) }
    ensures ok { IfOk result (λ tr. IsShownByLines f.now.signature (proc f.now.process) run.now tr) }
    ensures refused { (step : ℕ) (fault : Fault) → result ≡ Err (StepOf step fault)
        → IsFirstRefusedOfProcess f.now.signature (proc f.now.process) run.now step fault }
{
    replays_are_legal();
    let mut config = started(alloc, f)?;
    let mut trace = Trace::new(alloc);
    show_each(alloc, &mut config, &mut trace, run)?;
    Ok(trace)
}
