//! Runs as JSON, written.
ghost use Rattle.std.specs.Prelude.{◌≡◌, ◌++◌, OnOk, IfOk, false};
ghost use Rattle.serde_json.specs.Written.{compact_text, items_text};
ghost use Rattle.sap_run_texts.specs.declared.run.Run.TheVariants as run;
ghost use Rattle.sap_json.specs.Written.{run_data, json_text};
ghost use Rattle.sap_json.specs.code.Texts.{process_items, rule_items, head_text};

use crate::step_arrays::{push_process_step, push_rule_step};
use crate::strings::{push_comma, push_string};
use sap_run_texts::Run;
use sap_runs::{PStep, PSteps, RStep, RSteps};
use sap_terms::Mem;
use sap_text::Text;
use std::alloc::Global;

// The object up to the items of its steps.
#[tactic(auto, unfolding(json::specs::Print::escape_byte))]
fn push_head(text: &mut Text, kind: &[u8]) -> Result<(), Mem>
    ensures { OnOk result (text.new ≡ text.old ++ head_text kind.now) }
{
    text.push_bytes(b"{\"kind\":")?;
    push_string(text, kind)?;
    text.push_bytes(b",\"steps\":[")
}

// The items, and the bracket that closes the array.
fn push_process_items(alloc: Global, text: &mut Text, steps: &[PStep]) -> Result<(), Mem>
    ensures { OnOk result (text.new ≡ text.old ++ items_text false (process_items steps.now)) }
{
    let mut later = false;
    for step in steps {
        push_comma(text, later)?;
        push_process_step(alloc, text, step)?;
        later = true;
    }
    text.push_bytes(b"]")
}

fn push_rule_items(alloc: Global, text: &mut Text, steps: &[RStep]) -> Result<(), Mem>
    ensures { OnOk result (text.new ≡ text.old ++ items_text false (rule_items steps.now)) }
{
    let mut later = false;
    for step in steps {
        push_comma(text, later)?;
        push_rule_step(alloc, text, step)?;
        later = true;
    }
    text.push_bytes(b"]")
}

fn push_process_run(alloc: Global, text: &mut Text, steps: &PSteps) -> Result<(), Mem>
    ensures { OnOk result (text.new
        ≡ text.old ++ compact_text (run_data (run.Process steps.now))) }
{
    push_head(text, b"process-run")?;
    push_process_items(alloc, text, steps.as_slice())?;
    text.push_bytes(b"}")
}

fn push_rule_run(alloc: Global, text: &mut Text, steps: &RSteps) -> Result<(), Mem>
    ensures { OnOk result (text.new ≡ text.old ++ compact_text (run_data (run.Rules steps.now))) }
{
    push_head(text, b"rule-run")?;
    push_rule_items(alloc, text, steps.as_slice())?;
    text.push_bytes(b"}")
}

fn push_run(alloc: Global, text: &mut Text, run: &Run) -> Result<(), Mem>
    ensures { OnOk result (text.new ≡ text.old ++ compact_text (run_data run.now)) }
{
    match run {
        Run::Process(steps) => push_process_run(alloc, text, steps),
        Run::Rules(steps) => push_rule_run(alloc, text, steps),
    }
}

/// The run as JSON: the text of its object, without blanks, and a line feed. The work is linear in this text; beside it no more
/// is held than the text of one term.
pub fn write_json(alloc: Global, run: &Run) -> Result<Text, Mem>
    ensures { IfOk result (λ text. text ≡ json_text run.now) }
{
    let mut text = Text::new(alloc);
    push_run(alloc, &mut text, run)?;
    text.push_bytes(b"\n")?;
    Ok(text)
}
