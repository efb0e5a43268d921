//! The lines that refuse short runs.

ghost use Rattle.std.specs.Prelude.{◌≡◌, IfOk, IfSome};
ghost use Rattle.sap_intruder.specs.declared.fill_fault.FillFault.TheVariants as fill_faults;
ghost use Rattle.sap_lines.specs.declared.fault.PFault.TheVariants as process_faults;
ghost use Rattle.sap_run_texts.specs.declared.run_fault.RunFault.TheVariants as text_faults;
ghost use Rattle.sap_refusals.specs.RunFaultTexts.{at_step, run_refused_line};
ghost use Rattle.sap_refusals.specs.ShortFaultTexts.{fill_fault_text, short_fault_text};
ghost use Rattle.sap_refusals.specs.code.Words.{words_text};

use crate::run_fault_text::{no_run_line, process_words, step_line};
use crate::words::Words;
use sap_intruder::FillFault;
use sap_outside::RunRefusal;
use sap_run_texts::RunFault;
use sap_runs::MOST_SHORT_STEPS;
use sap_terms::Mem;
use sap_text::Text;
use std::alloc::Global;

/// The line that refuses bytes that are no short run, for this fault. Want of memory refuses none, and so has no line.
pub fn short_line(alloc: Global, fault: RunFault) -> Result<Text, Mem>
    ensures { IfOk result (λ line. (fault ≡ text_faults.Mem → ⊥)
        × (line ≡ run_refused_line (short_fault_text fault))) }
{
    match fault {
        RunFault::Mem => Err(Mem),
        RunFault::BadHead => no_run_line(alloc, RunRefusal::BadHead),
        RunFault::BadLine { line } => no_run_line(alloc, RunRefusal::BadLine { line }),
        RunFault::TooManySteps => no_run_line(
            alloc,
            RunRefusal::TooManySteps {
                most: MOST_SHORT_STEPS,
            },
        ),
    }
}

/// The line that refuses a short run at this step for this fault. Want of memory refuses none, and so has no line.
pub fn fill_line(alloc: Global, step: u64, fault: &FillFault) -> Result<Text, Mem>
    ensures { IfOk result (λ line. (fault.now ≡ fill_faults.Process process_faults.Mem → ⊥)
        × (line ≡ run_refused_line (at_step step (fill_fault_text fault.now)))) }
{
    match fill_words(fault) {
        None => Err(Mem),
        Some(words) => step_line(alloc, step, &words),
    }
}

// Why a step of a short run is refused. Want of memory is no such cause.
fn fill_words<'a>(fault: &'a FillFault) -> Option<Words<'a>>
    ensures { IfSome result (λ words. (fault.now ≡ fill_faults.Process process_faults.Mem → ⊥)
        × (words_text words ≡ fill_fault_text fault.now)) }
{
    match fault {
        FillFault::Process(fault) => process_words(fault),
        FillFault::BadTerm => Some(Words::Plain(b"bad term")),
        FillFault::NotDeduced => Some(Words::Plain(b"term cannot be deduced")),
    }
}
