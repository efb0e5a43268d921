//! Runs, read from JSON.
ghost use Rattle.std.specs.Prelude.{◌≡◌, ◌↔◌, ◌&&◌, ℕ, codes, List, IsTrue, IfOk, map, option_map};
ghost use Rattle.std.specs.Str.{bytes_eq};
ghost use Rattle.serde_json.specs.Errors.{IsMemory};
ghost use Rattle.serde_json.specs.View.{view, members_view};
ghost use Rattle.sap_run_texts.specs.RunTexts.{process_head, rule_head};
ghost use Rattle.sap_run_lines.specs.WholeWords.{IsReadAs};
ghost use Rattle.sap_json.specs.RunValues.{run_object, IsValueOf, IsJsonRead, IsTold};
ghost use Rattle.sap_json.specs.code.Reading.{members_in, run_in};

use crate::JsonFault;
use crate::listed::read_steps;
use crate::step_of::is;
use crate::values::{list, text};
use sap_run_texts::{MOST_PROCESS_STEPS, MOST_RULE_STEPS, Run};
use sap_terms::Mem;
use serde_json::{Category, Error, Map, Value};
use std::alloc::Global;

fn is_out_of_memory(error: &Error) -> bool
    ensures { IsTrue result ↔ IsMemory error.now }
{
    match error.classify() {
        Category::Memory => true,
        _ => false,
    }
}

// The value that the bytes are, in a box, as it is large.
fn parsed(alloc: Global, bytes: &[u8]) -> Result<Option<Box<Value>>, Mem>
    ensures { IfOk result (λ o. IsReadAs (λ d z. IsValueOf z d) bytes.now
        (option_map (λ v. view v.value) o)) }
{
    match Value::from_slice(alloc, bytes) {
        Ok(value) => Ok(Some(Box::new(alloc, value)?)),
        Err(error) => if is_out_of_memory(&error) {
            Err(Mem)
        } else {
            Ok(None)
        },
    }
}

// Whether they are `kind` and `steps`.
fn are_keys(first: &[u8], last: &[u8]) -> bool
    ensures { result
        ≡ (bytes_eq first.now (codes "kind") && bytes_eq last.now (codes "steps")) }
{
    is(first, b"kind") && is(last, b"steps")
}

// What stands under `kind` and under `steps`, where nothing else does.
fn members(map: &Map<String, Value>) -> Option<(&Value, &Value)>
    ensures { option_map (λ p. (view p.0.now, view p.1.now)) result
        ≡ members_in (members_view map.now.entries) }
{
    if map.len() != 2 {
        return None;
    }
    let (kind_key, kind) = map.first_key_value()?;
    let (steps_key, steps) = map.last_key_value()?;
    if are_keys(kind_key.as_bytes(), steps_key.as_bytes()) {
        Some((kind, steps))
    } else {
        None
    }
}

// The kind and the items of a run.
fn parts(value: &Value) -> Option<(&[u8], &[Value])>
    ensures { option_map (λ p. (p.0.now, map view p.1.now)) result ≡ run_in (view value.now) }
{
    let (kind, steps) = members(value.as_object()?)?;
    Some((text(kind)?, list(steps)?))
}

fn process_run(alloc: Global, steps: &[Value]) -> Result<Run, JsonFault>
    ensures { (z : List ℕ) → IsValueOf z (run_object process_head (map view steps.now))
        → IsTold (IsJsonRead z) result }
{
    match read_steps(alloc, MOST_PROCESS_STEPS, steps) {
        Ok(steps) => Ok(Run::Process(steps)),
        Err(fault) => Err(fault),
    }
}

fn rule_run(alloc: Global, steps: &[Value]) -> Result<Run, JsonFault>
    ensures { (z : List ℕ) → IsValueOf z (run_object rule_head (map view steps.now))
        → IsTold (IsJsonRead z) result }
{
    match read_steps(alloc, MOST_RULE_STEPS, steps) {
        Ok(steps) => Ok(Run::Rules(steps)),
        Err(fault) => Err(fault),
    }
}

fn run_of(alloc: Global, kind: &[u8], steps: &[Value]) -> Result<Run, JsonFault>
    ensures { (z : List ℕ) → IsValueOf z (run_object kind.now (map view steps.now))
        → IsTold (IsJsonRead z) result }
{
    if is(kind, b"process-run") {
        process_run(alloc, steps)
    } else if is(kind, b"rule-run") {
        rule_run(alloc, steps)
    } else {
        Err(JsonFault::NotRun)
    }
}

fn run(alloc: Global, value: &Value) -> Result<Run, JsonFault>
    ensures { (z : List ℕ) → IsValueOf z (view value.now) → IsTold (IsJsonRead z) result }
{
    match parts(value) {
        None => Err(JsonFault::NotRun),
        Some((kind, steps)) => run_of(alloc, kind, steps),
    }
}

/// The run that the bytes are as JSON. Of several faults the first in the order of their list is answered, of several bad steps
/// the first. The work is linear in the bytes, but for the order of an object's keys; the value is held whole until the run is
/// read.
pub fn read_json(alloc: Global, bytes: &[u8]) -> Result<Run, JsonFault>
    ensures { IsTold (IsJsonRead bytes.now) result }
{
    match parsed(alloc, bytes)? {
        None => Err(JsonFault::NotJson),
        Some(value) => run(alloc, &value),
    }
}
