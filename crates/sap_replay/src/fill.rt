//! Short runs of a file: the run that one stands for, or the line that refuses it.

ghost use Rattle.std.specs.Prelude.{◌≤◌, ℕ, List, length, All, IfOk, IsErrOf};
ghost use Rattle.sap_outside.specs.RunPieces.{most_run_bytes};
ghost use Rattle.sap_read.specs.Files.{IsRunnable, told_by};
ghost use Rattle.sap_answer.specs.declared.refusal.Refusal.TheVariants as refusals;
ghost use Rattle.sap_runs.specs.Short.{IsShortStep};
ghost use Rattle.sap_replay.specs.ShortRuns.{IsShortRefusedWith, IsFilledOf, IsTextFilling};
ghost use Rattle.sap_replay.specs.code.Filled.{IsFillLine, IsFirstRefusedWith};
ghost use Rattle.sap_replay.specs.RunRefusals.{IsLineOf};

use sap_intruder::{FillAt, fill};
use sap_outside::{MOST_RUN_BYTES, RunRefusal};
use sap_read::File;
use sap_refusals::{Refusal, fill_line, no_run_line, short_line, told};
use sap_run_texts::{one_short_run, print_prun, read_srun};
use sap_runs::SSteps;
use sap_terms::Mem;
use sap_text::Text;
use std::alloc::Global;

/// The text of the run that the bytes stand for as a short run of the file, or the line that refuses them.
pub fn filled(alloc: Global, file: &File, bytes: &[u8]) -> Result<Text, Refusal>
    requires { IsRunnable (told_by file.now) }
    ensures given { IfOk result (IsFilledOf (told_by file.now) bytes.now) }
    ensures refused { (line : List ℕ) → IsErrOf result (refusals.Told line)
        → IsLineOf (IsShortRefusedWith (told_by file.now) bytes.now) line }
{
    if bytes.len() as u64 > MOST_RUN_BYTES {
        Err(told(no_run_line(alloc, RunRefusal::TooLong)))
    } else {
        read(alloc, file, bytes)
    }
}

/// The text of the run that bytes stand for which aren't too many, or the line that refuses them.
fn read(alloc: Global, file: &File, bytes: &[u8]) -> Result<Text, Refusal>
    requires runnable { IsRunnable (told_by file.now) }
    requires short { length bytes.now ≤ most_run_bytes }
    ensures given { IfOk result (IsFilledOf (told_by file.now) bytes.now) }
    ensures refused { (line : List ℕ) → IsErrOf result (refusals.Told line)
        → IsLineOf (IsShortRefusedWith (told_by file.now) bytes.now) line }
{
    one_short_run();
    match read_srun(alloc, bytes) {
        Ok(run) => text_of_short(alloc, file, &run),
        Err(fault) => Err(told(short_line(alloc, fault))),
    }
}

/// The text of the run that a short run of the file stands for, or the line that refuses a step of it.
fn text_of_short(alloc: Global, file: &File, run: &SSteps) -> Result<Text, Refusal>
    requires runnable { IsRunnable (told_by file.now) }
    requires stands { All IsShortStep run.now }
    ensures given { IfOk result (IsTextFilling (told_by file.now) run.now) }
    ensures refused { (line : List ℕ) → IsErrOf result (refusals.Told line)
        → IsLineOf (IsFirstRefusedWith (told_by file.now) run.now) line }
{
    match fill(alloc, file, run) {
        Ok(lines) => Ok(print_prun(alloc, &lines)?),
        Err(at) => Err(told(line_at(alloc, &at))),
    }
}

/// The line that refuses a short run. Want of memory refuses none, and so has no line.
fn line_at(alloc: Global, at: &FillAt) -> Result<Text, Mem>
    ensures { IfOk result (λ line. IsFillLine at.now line) }
{
    match at {
        FillAt::Mem => Err(Mem),
        FillAt::Step { step, fault } => fill_line(alloc, *step, fault),
    }
}
