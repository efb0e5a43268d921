//! Runs as JSON: a run is read and written as JSON, and JSON as a run; or the line that refuses it.

ghost use Rattle.std.specs.Prelude.{◌≡◌, ◌≤◌, ℕ, List, length, IfOk, IsErrOf};
ghost use Rattle.sap_run_texts.specs.declared.run.Kinds.TheVariants as kinds;
ghost use Rattle.sap_json.specs.Written.{json_text};
ghost use Rattle.sap_outside.specs.RunPieces.{most_run_bytes, IsRunAnswer};
ghost use Rattle.sap_answer.specs.declared.refusal.Refusal.TheVariants as refusals;
ghost use Rattle.sap_replay.specs.JsonRuns.{IsJsonOf, IsJsonRefusedWith, IsRunOfJson, run_text};
ghost use Rattle.sap_replay.specs.RunRefusals.{IsNeverIllegal, IsLineOf, IsRunRefusal};

use sap_json::{read_json, write_json};
use sap_outside::{MOST_RUN_BYTES, RunRefusal};
use sap_refusals::{Refusal, json_line, no_run_line, told};
use sap_run_texts::{Run, print_prun, print_rrun};
use sap_terms::Mem;
use sap_text::Text;
use std::alloc::Global;

/// What bytes are read as, as JSON, or the line that refuses them.
pub fn json_of(alloc: Global, answer: &Result<Run, RunRefusal>) -> Result<Text, Refusal>
    ensures given { (z : List ℕ) → IsRunAnswer kinds.Either z answer.now
        → IfOk result (λ text. IsJsonOf z text) }
    ensures refused { (z line : List ℕ) → IsRunAnswer kinds.Either z answer.now
        → IsErrOf result (refusals.Told line) → IsRunRefusal kinds.Either IsNeverIllegal z line }
{
    match answer {
        Ok(run) => json_of_run(alloc, run),
        Err(refusal) => Err(told(no_run_line(alloc, *refusal))),
    }
}

/// A run as JSON; no line refuses it.
fn json_of_run(alloc: Global, run: &Run) -> Result<Text, Refusal>
    ensures given { IfOk result (λ text. text ≡ json_text run.now) }
    ensures refused { (line : List ℕ) → IsErrOf result (refusals.Told line) → ⊥ }
{
    Ok(write_json(alloc, run)?)
}

/// The text of the run that the bytes are, or the line that refuses them.
pub fn run_of_json(alloc: Global, bytes: &[u8]) -> Result<Text, Refusal>
    ensures given { IfOk result (λ text. IsRunOfJson bytes.now text) }
    ensures refused { (line : List ℕ) → IsErrOf result (refusals.Told line)
        → IsLineOf (IsJsonRefusedWith bytes.now) line }
{
    if bytes.len() as u64 > MOST_RUN_BYTES {
        Err(told(no_run_line(alloc, RunRefusal::TooLong)))
    } else {
        read(alloc, bytes)
    }
}

/// The text of the run that bytes are which aren't too many, or the line that refuses them.
fn read(alloc: Global, bytes: &[u8]) -> Result<Text, Refusal>
    requires { length bytes.now ≤ most_run_bytes }
    ensures given { IfOk result (λ text. IsRunOfJson bytes.now text) }
    ensures refused { (line : List ℕ) → IsErrOf result (refusals.Told line)
        → IsLineOf (IsJsonRefusedWith bytes.now) line }
{
    match read_json(alloc, bytes) {
        Ok(run) => printed(alloc, &run),
        Err(fault) => Err(told(json_line(alloc, fault))),
    }
}

/// The text of a run; no line refuses it.
fn printed(alloc: Global, run: &Run) -> Result<Text, Refusal>
    ensures given { IfOk result (λ text. text ≡ run_text run.now) }
    ensures refused { (line : List ℕ) → IsErrOf result (refusals.Told line) → ⊥ }
{
    Ok(text_of(alloc, run)?)
}

/// The text of a run.
fn text_of(alloc: Global, run: &Run) -> Result<Text, Mem>
    ensures { IfOk result (λ text. text ≡ run_text run.now) }
{
    match run {
        Run::Process(steps) => print_prun(alloc, steps),
        Run::Rules(steps) => print_rrun(alloc, steps),
    }
}
