//! Runs as text.
ghost use Rattle.std.specs.Prelude.{◌≡◌, ◌++◌, ◌∷◌, [], OnOk, IfOk};
ghost use Rattle.sap_run_lines.specs.StepLines.{process_words, rule_words};
ghost use Rattle.sap_run_lines.specs.LineText.{words_text};
ghost use Rattle.sap_run_texts.specs.RunPrinted.{Each, process_run_text, rule_run_text};
ghost use Rattle.sap_run_texts.specs.Writable.{AreNumbered};

use crate::fitting::{process_numbers_fit, rule_numbers_fit};
use crate::step_text::{push_process_step, push_rule_step};
use sap_runs::{PStep, PSteps, RStep, RSteps};
use sap_terms::Mem;
use sap_text::Text;
use std::alloc::Global;

fn push_process_line(text: &mut Text, step: &PStep) -> Result<(), Mem>
    ensures text { OnOk result (text.new
        ≡ text.old ++ (words_text (process_words step.now) ++ 10 ∷ [])) }
    ensures numbers { AreNumbered (process_words step.now) }
{
    process_numbers_fit(step);
    push_process_step(text, step)?;
    text.push_bytes(b"\n")
}

fn push_rule_line(text: &mut Text, step: &RStep) -> Result<(), Mem>
    ensures text { OnOk result (text.new
        ≡ text.old ++ (words_text (rule_words step.now) ++ 10 ∷ [])) }
    ensures numbers { AreNumbered (rule_words step.now) }
{
    rule_numbers_fit(step);
    push_rule_step(text, step)?;
    text.push_bytes(b"\n")
}

/// The text of a run of a process: its head, and a line for each step. Pairs stand in brackets, one pair for all that is paired
/// to the right.
pub fn print_prun(alloc: Global, steps: &PSteps) -> Result<Text, Mem>
    ensures text { IfOk result (λ text. text ≡ process_run_text steps.now) }
    ensures numbers { IfOk result (λ text. Each (λ s. AreNumbered (process_words s)) steps.now) }
{
    let mut text = Text::new(alloc);
    text.push_bytes(b"process-run\n")?;
    for step in steps.as_slice() {
        push_process_line(&mut text, step)?;
    }
    Ok(text)
}

/// The text of a run of rules: its head, and a line for each step.
pub fn print_rrun(alloc: Global, steps: &RSteps) -> Result<Text, Mem>
    ensures text { IfOk result (λ text. text ≡ rule_run_text steps.now) }
    ensures numbers { IfOk result (λ text. Each (λ s. AreNumbered (rule_words s)) steps.now) }
{
    let mut text = Text::new(alloc);
    text.push_bytes(b"rule-run\n")?;
    for step in steps.as_slice() {
        push_rule_line(&mut text, step)?;
    }
    Ok(text)
}
