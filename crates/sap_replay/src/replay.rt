//! Runs of a file: what is written of them, or the line that refuses them.

ghost use Rattle.std.specs.Prelude.{ℕ, List, Ok, IfOk, IsErrOf};
ghost use Rattle.sap_back.specs.Converted.{IsConvertedToProcess};
ghost use Rattle.sap_read.specs.Files.{IsRunnable, told_by};
ghost use Rattle.sap_run_texts.specs.declared.run.Run.{Run as AnyRun};
ghost use Rattle.sap_run_texts.specs.declared.run.Run.TheVariants as runs;
ghost use Rattle.sap_answer.specs.declared.refusal.Refusal.TheVariants as refusals;
ghost use Rattle.sap_replay.specs.Tasks.{kinds_of, Writes};
ghost use Rattle.sap_replay.specs.Replays.{IsConvertedText, IsJudgedText, IsSeen};
ghost use Rattle.sap_outside.specs.RunPieces.{IsRunAnswer};
ghost use Rattle.sap_replay.specs.RunRefusals.{IsIllegal, IsLineOf, IsRunRefusal};
ghost use Rattle.sap_replay.specs.code.Refused.{IsAtLine, IsBackAtLine};

use crate::laws::{closed_files, seen_traces_are_messages};
use crate::task::Task;
use crate::telling::{drawn_run, told_run};
use crate::verdicts::verdicts;
use sap_back::{BackAt, rule_trace, to_process};
use sap_formula::hide;
use sap_forward::{At, process_trace, to_rules};
use sap_outside::RunRefusal;
use sap_read::File;
use sap_refusals::{Refusal, broken_line, no_run_line, process_line, rule_line, told};
use sap_run_texts::{Run, print_prun, print_rrun};
use sap_runs::{PSteps, RSteps};
use sap_terms::{Mem, Trace};
use sap_text::Text;
use std::alloc::Global;

/// What the task writes of what bytes are read as, of the file of these bytes, or the line that refuses them.
pub fn replayed(
    alloc: Global,
    task: Task,
    file: &File,
    bytes: &[u8],
    answer: &Result<Run, RunRefusal>,
) -> Result<Text, Refusal>
    requires { IsRunnable (told_by file.now) }
    ensures given { (z : List ℕ) → IsRunAnswer (kinds_of task) z answer.now
        → IfOk result (λ text. (r : AnyRun) × IsRunAnswer (kinds_of task) z (Ok r) × Writes task bytes.now (told_by file.now) r text) }
    ensures refused { (z line : List ℕ) → IsRunAnswer (kinds_of task) z answer.now
        → IsErrOf result (refusals.Told line) → IsRunRefusal (kinds_of task) (IsIllegal (told_by file.now)) z line }
{
    match answer {
        Ok(run) => text_of_run(alloc, task, file, bytes, run),
        Err(refusal) => Err(told(no_run_line(alloc, *refusal))),
    }
}

/// What the task writes of a run.
fn text_of_run(
    alloc: Global,
    task: Task,
    file: &File,
    bytes: &[u8],
    run: &Run,
) -> Result<Text, Refusal>
    requires { IsRunnable (told_by file.now) }
    ensures given { IfOk result (λ text. Writes task bytes.now (told_by file.now) run.now text) }
    ensures refused { (line : List ℕ) → IsErrOf result (refusals.Told line)
        → IsLineOf (IsIllegal (told_by file.now) run.now) line }
{
    match task {
        Task::ToRules => converted(alloc, file, run),
        Task::ToProcess => converted(alloc, file, run),
        Task::Judge => judged(alloc, file, run),
        Task::Tell => told_run(alloc, file, bytes, run),
        Task::Chart => drawn_run(alloc, file, bytes, run),
    }
}

/// The text of the run opposite.
fn converted(alloc: Global, file: &File, run: &Run) -> Result<Text, Refusal>
    requires { IsRunnable (told_by file.now) }
    ensures given { IfOk result (λ text. IsConvertedText (told_by file.now) run.now text) }
    ensures refused { (line : List ℕ) → IsErrOf result (refusals.Told line)
        → IsLineOf (IsIllegal (told_by file.now) run.now) line }
{
    match run {
        Run::Process(steps) => text_of_rules(alloc, file, steps),
        Run::Rules(steps) => text_of_process(alloc, file, steps),
    }
}

/// The text of the run of rules opposite to a run of the process.
fn text_of_rules(alloc: Global, file: &File, steps: &PSteps) -> Result<Text, Refusal>
    requires { IsRunnable (told_by file.now) }
    ensures given { IfOk result (λ text. IsConvertedText (told_by file.now) (runs.Process steps.now) text) }
    ensures refused { (line : List ℕ) → IsErrOf result (refusals.Told line)
        → IsLineOf (IsIllegal (told_by file.now) (runs.Process steps.now)) line }
{
    match to_rules(alloc, file, steps) {
        Ok(lines) => Ok(print_rrun(alloc, &lines)?),
        Err(at) => Err(told(line_at(alloc, &at))),
    }
}

/// The text of the run of the process opposite to a run of rules.
fn text_of_process(alloc: Global, file: &File, steps: &RSteps) -> Result<Text, Refusal>
    requires { IsRunnable (told_by file.now) }
    ensures given { IfOk result (λ text. IsConvertedText (told_by file.now) (runs.Rules steps.now) text) }
    ensures refused { (line : List ℕ) → IsErrOf result (refusals.Told line)
        → IsLineOf (IsIllegal (told_by file.now) (runs.Rules steps.now)) line }
{
    let lines = process_of(alloc, file, steps)?;
    Ok(print_prun(alloc, &lines)?)
}

/// The run of the process opposite to a run of rules.
pub fn process_of(alloc: Global, file: &File, steps: &RSteps) -> Result<PSteps, Refusal>
    requires { IsRunnable (told_by file.now) }
    ensures given { IfOk result (λ lines. IsConvertedToProcess (told_by file.now).signature (told_by file.now).process steps.now lines) }
    ensures refused { (line : List ℕ) → IsErrOf result (refusals.Told line)
        → IsLineOf (IsIllegal (told_by file.now) (runs.Rules steps.now)) line }
{
    match to_process(alloc, file, steps) {
        Ok(lines) => Ok(lines),
        Err(at) => Err(told(line_back_at(alloc, &at))),
    }
}

/// What the file says of what a run shows.
fn judged(alloc: Global, file: &File, run: &Run) -> Result<Text, Refusal>
    requires { IsRunnable (told_by file.now) }
    ensures given { IfOk result (λ text. IsJudgedText (told_by file.now) run.now text) }
    ensures refused { (line : List ℕ) → IsErrOf result (refusals.Told line)
        → IsLineOf (IsIllegal (told_by file.now) run.now) line }
{
    seen_traces_are_messages();
    closed_files();
    let trace = seen_of(alloc, file, run)?;
    let text = verdicts(alloc, &file.restrictions, &file.lemmas, &trace)?;
    Ok(text)
}

/// The visible trace of a run.
fn seen_of(alloc: Global, file: &File, run: &Run) -> Result<Trace, Refusal>
    requires { IsRunnable (told_by file.now) }
    ensures seen { IfOk result (λ tr. IsSeen (told_by file.now) run.now tr) }
    ensures refused { (line : List ℕ) → IsErrOf result (refusals.Told line)
        → IsLineOf (IsIllegal (told_by file.now) run.now) line }
{
    match run {
        Run::Process(steps) => seen_of_process(alloc, file, steps),
        Run::Rules(steps) => seen_of_rules(alloc, file, steps),
    }
}

/// What a run of the process shows.
fn seen_of_process(alloc: Global, file: &File, steps: &PSteps) -> Result<Trace, Refusal>
    requires { IsRunnable (told_by file.now) }
    ensures seen { IfOk result (λ tr. IsSeen (told_by file.now) (runs.Process steps.now) tr) }
    ensures refused { (line : List ℕ) → IsErrOf result (refusals.Told line)
        → IsLineOf (IsIllegal (told_by file.now) (runs.Process steps.now)) line }
{
    match process_trace(alloc, file, steps) {
        Ok(trace) => Ok(trace),
        Err(at) => Err(told(line_at(alloc, &at))),
    }
}

/// What is seen of a run of rules.
fn seen_of_rules(alloc: Global, file: &File, steps: &RSteps) -> Result<Trace, Refusal>
    requires { IsRunnable (told_by file.now) }
    ensures seen { IfOk result (λ tr. IsSeen (told_by file.now) (runs.Rules steps.now) tr) }
    ensures refused { (line : List ℕ) → IsErrOf result (refusals.Told line)
        → IsLineOf (IsIllegal (told_by file.now) (runs.Rules steps.now)) line }
{
    match rule_trace(alloc, file, steps) {
        Ok(full) => Ok(hide(alloc, &full)?),
        Err(at) => Err(told(line_back_at(alloc, &at))),
    }
}

/// The line that refuses a run of a process. Want of memory refuses none, and so has no line.
pub(crate) fn line_at(alloc: Global, at: &At) -> Result<Text, Mem>
    ensures { IfOk result (λ line. IsAtLine at.now line) }
{
    match at {
        At::Mem => Err(Mem),
        At::Step { step, fault } => process_line(alloc, *step, fault),
    }
}

/// The line that refuses a run of rules. Want of memory refuses none, and so has no line.
fn line_back_at(alloc: Global, at: &BackAt) -> Result<Text, Mem>
    ensures { IfOk result (λ line. IsBackAtLine at.now line) }
{
    match at {
        BackAt::Mem => Err(Mem),
        BackAt::Step { step, fault } => rule_line(alloc, *step, fault),
        BackAt::Broken { step, which } => broken_line(alloc, *step, *which),
    }
}
