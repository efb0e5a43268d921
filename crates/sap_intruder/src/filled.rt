//! Short runs, filled.
ghost use Rattle.std.specs.Prelude.{◌≡◌, All, Err, IfOk, OnOk, ℕ, []};
ghost use Rattle.sap_process.specs.Proc.{proc};
ghost use Rattle.sap_read.specs.Files.{IsRunnable, told_by};
ghost use Rattle.sap_runs.specs.Short.{IsShortStep};
ghost use Rattle.sap_terms.specs.Signature.{HoldsBuiltins};
ghost use Rattle.sap_intruder.specs.FilledRuns.{IsFilled};
ghost use Rattle.sap_intruder.specs.OneAnswer.{IsFirstRefusedOfShort};
ghost use Rattle.sap_intruder.specs.code.Filled.{IsFilledOn, IsFilledTo, IsRefusedAs, IsTied};
ghost use Rattle.sap_intruder.specs.declared.fill_at.FillAt.TheVariants.{Step as StepOf};
ghost use Rattle.sap_intruder.specs.declared.fill_fault.FillFault.{FillFault as Fault};

use crate::filling::Filling;
use crate::laws::filled_runs_are_legal;
use crate::unfilled::Unfilled;
use crate::{FillAt, FillFault};
use sap_calc::Config;
use sap_derive::Search;
use sap_locks::annotations_are_ready;
use sap_read::File;
use sap_runs::{PSteps, SStep, SSteps};
use sap_terms::Mem;
use std::alloc::Global;
use std::mem;

// Where the file's process runs, and nothing is filled yet.
fn started(alloc: Global, f: &File) -> Result<Box<Filling>, Mem>
    requires { IsRunnable (told_by f.now) }
    ensures { IfOk result (λ a. IsFilledTo f.now.signature (proc f.now.process) [] a.value) }
{
    annotations_are_ready();
    let search = Search::new(alloc, &f.signature)?;
    match Config::start(alloc, &f.signature, &f.process) {
        Err(_) => {
            drop(search);
            Err(Mem)
        }
        Ok(config) => Ok(Box::new(
            alloc,
            Filling {
                config,
                search,
                count: 0,
                lines: PSteps::new(alloc),
            },
        )?),
    }
}

// Fills the step with this number, from 1.
fn fill_step(
    alloc: Global,
    f: &File,
    filling: &mut Filling,
    s: &SStep,
    number: u64,
) -> Result<(), FillAt>
    requires tied { IsTied filling.old }
    requires sig { filling.old.config.sig ≡ f.now.signature }
    requires builtins { HoldsBuiltins f.now.signature }
    requires stands { IsShortStep s.now }
    ensures ok { OnOk result (IsFilledOn filling.old filling.new s.now) }
    ensures refused { (n : ℕ) (fault : Fault) → result ≡ Err (StepOf n fault)
        → IsRefusedAs filling.old s.now number n fault }
{
    match filling.step(alloc, &f.signature, s) {
        Ok(()) => Ok(()),
        Err(Unfilled::Mem) => Err(FillAt::Mem),
        Err(Unfilled::Fault(fault)) => Err(FillAt::Step {
            step: number,
            fault,
        }),
    }
}

// Fills each step in turn.
fn fill_each(alloc: Global, f: &File, filling: &mut Filling, run: &SSteps) -> Result<(), FillAt>
    requires begun { IsFilledTo f.now.signature (proc f.now.process) [] filling.old }
    requires builtins { HoldsBuiltins f.now.signature }
    requires stands { All IsShortStep run.now }
    ensures ok { OnOk result (IsFilledTo f.now.signature (proc f.now.process) run.now filling.new) }
    ensures refused { (n : ℕ) (fault : Fault) → result ≡ Err (StepOf n fault)
        → IsFirstRefusedOfShort f.now.signature (proc f.now.process) run.now n fault }
{
    filled_runs_are_legal();
    for k in 0..run.len() {
        fill_step(alloc, f, filling, run.at(k), k + 1)?;
    }
    Ok(())
}

/// A run of the file's process that this short run stands for: before each step that takes, is sent, or shows what the adversary
/// gives, there are lines by which it comes to know that, where it doesn't know it yet. `Step` names the first step that no such
/// lines make legal within the limit on terms, for the first of its tests that fails:
///
/// - a step that is a line as it stands: those of the line, in their order;
/// - `In`: whether the thread runs, and takes something; whether the term is over the signature (`BadTerm`); whether the adversary
///   can give its normal form (`NotDeduced`); what else is tested of the line that takes it;
/// - `Send`: whether the thread runs, and sends on a channel; whether channel and message are within the limit; whether the
///   adversary can give the channel;
/// - `Know`: whether the term is over the signature, and whether the adversary can give its normal form.
///
/// Steps count from 1, entries and threads from 0. The file's own restrictions refuse no step. What was found once is kept over
/// the run. It recurses as deep as the file's process and the terms of file and run.
pub fn fill(alloc: Global, f: &File, run: &SSteps) -> Result<PSteps, FillAt>
    requires runnable { IsRunnable (told_by f.now) }
    requires stands { All IsShortStep run.now }
    ensures filled { IfOk result (IsFilled f.now.signature (proc f.now.process) run.now) }
    ensures refused { (step : ℕ) (fault : Fault) → result ≡ Err (StepOf step fault)
        → IsFirstRefusedOfShort f.now.signature (proc f.now.process) run.now step fault }
{
    let mut filling = started(alloc, f)?;
    fill_each(alloc, f, &mut filling, run)?;
    Ok(mem::replace(&mut filling.lines, PSteps::new(alloc)))
}
