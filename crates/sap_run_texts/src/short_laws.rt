//! What is so of the texts of short runs.
ghost use Rattle.std.specs.Prelude.{◌≡◌, ◌≤◌, ℕ, List, Result, Ok, length};
ghost use Rattle.sap_runs.specs.Short.{IsShortStep};
ghost use Rattle.sap_runs.specs.declared.limits.TheConstants.{MOST_SHORT_STEPS};
ghost use Rattle.sap_runs.specs.declared.short_step.SStep.{SStep};
ghost use Rattle.sap_run_texts.specs.declared.run_fault.RunFault.{RunFault};
ghost use Rattle.sap_run_texts.specs.RunPrinted.{Each};
ghost use Rattle.sap_run_texts.specs.ShortTexts.{IsShortRunText};

use sap_run_lines::short_lines_are_one;

/// A law: a text is one short run, or has one fault; and a short run that was read has at most 500 steps, each of which may stand
/// in one.
pub fn one_short_run()
    ensures one { (z : List ℕ) (o r : Result (List SStep) RunFault) → IsShortRunText z o
        → IsShortRunText z r → o ≡ r }
    ensures some { (z : List ℕ) → ((o : Result (List SStep) RunFault) × IsShortRunText z o) }
    ensures stands { (z : List ℕ) (ss : List SStep) → IsShortRunText z (Ok ss) → Each IsShortStep ss }
    ensures within { (z : List ℕ) (ss : List SStep) → IsShortRunText z (Ok ss)
        → length ss ≤ MOST_SHORT_STEPS }
{
    short_lines_are_one();
}
