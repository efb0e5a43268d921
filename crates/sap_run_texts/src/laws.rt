//! What is so of the texts of runs.
ghost use Rattle.std.specs.Prelude.{◌≡◌, ◌≤◌, ◌+◌, ◌*◌, ◌^◌, ℕ, codes, List, [], Result, Ok, length};
ghost use Rattle.sap_runs.specs.declared.limits.TheConstants.{MOST_SHORT_STEPS};
ghost use Rattle.sap_runs.specs.declared.process_step.PStep.{PStep};
ghost use Rattle.sap_runs.specs.declared.process_step.PStep.TheVariants as step;
ghost use Rattle.sap_runs.specs.declared.rule_step.RStep.{RStep};
ghost use Rattle.sap_run_lines.specs.StepLines.{process_words, rule_words};
ghost use Rattle.sap_run_lines.specs.Spellable.{IsWritableProcess, IsWritableRule};
ghost use Rattle.sap_run_texts.specs.declared.run_fault.RunFault.{RunFault};
ghost use Rattle.sap_run_texts.specs.declared.run.Kinds.{Kinds};
ghost use Rattle.sap_run_texts.specs.declared.run.Run.{Run};
ghost use Rattle.sap_run_texts.specs.declared.limits.TheConstants.{MOST_PROCESS_STEPS, MOST_RULE_STEPS};
ghost use Rattle.sap_run_texts.specs.RunTexts.{IsProcessRunText, IsRuleRunText, IsRunRead};
ghost use Rattle.sap_run_texts.specs.RunPrinted.{Each, process_run_text, rule_run_text};
ghost use Rattle.sap_run_texts.specs.Writable.{AreNumbered, CanBeNamed, RuleCanBeNamed};

use sap_run_lines::{lines_are_one, step_lines_are_lines, written_lines_are_read};

/// A law: a text has one answer at most, as a run of each kind and of either.
pub fn one_run()
    ensures process { (z : List ℕ) (o r : Result (List PStep) RunFault) → IsProcessRunText z o
        → IsProcessRunText z r → o ≡ r }
    ensures rule { (z : List ℕ) (o r : Result (List RStep) RunFault) → IsRuleRunText z o
        → IsRuleRunText z r → o ≡ r }
    ensures either { (k : Kinds) (z : List ℕ) (o r : Result Run RunFault) → IsRunRead k z o
        → IsRunRead k z r → o ≡ r }
{
    lines_are_one();
    step_lines_are_lines();
}

/// A law: each text has an answer.
pub fn some_run()
    ensures process { (z : List ℕ) → ((o : Result (List PStep) RunFault) × IsProcessRunText z o) }
    ensures rule { (z : List ℕ) → ((o : Result (List RStep) RunFault) × IsRuleRunText z o) }
    ensures either { (k : Kinds) (z : List ℕ) → ((o : Result Run RunFault) × IsRunRead k z o) }
{
    lines_are_one();
}

/// A law: the text that is printed of a run is this run, where each of its steps can be written and they aren't more than a run
/// may have.
pub fn printed_runs_are_read()
    ensures process { (ss : List PStep) → Each IsWritableProcess ss → length ss ≤ MOST_PROCESS_STEPS
        → IsProcessRunText (process_run_text ss) (Ok ss) }
    ensures rule { (ss : List RStep) → Each IsWritableRule ss → length ss ≤ MOST_RULE_STEPS
        → IsRuleRunText (rule_run_text ss) (Ok ss) }
{
    written_lines_are_read();
}

/// A law: a step can be written where its numbers are of 64 bits and the names and bindings in it can be written.
pub fn named_steps_can_be_written()
    ensures process { (s : PStep) → CanBeNamed s → AreNumbered (process_words s)
        → IsWritableProcess s }
    ensures rule { (s : RStep) → RuleCanBeNamed s → AreNumbered (rule_words s) → IsWritableRule s }
{}

/// A law: steps tried by hand. The greatest number of 64 bits can be written, and the number after it can't; a public name of
/// one letter can be written, and so can one of no bytes; one that closes its quotes and goes on with lines can't.
pub fn writable_by_hand()
    ensures number { AreNumbered (process_words (step.Nil 18446744073709551615)) }
    ensures no_number { AreNumbered (process_words (step.Nil (2 ^ 64))) → ⊥ }
    ensures name { CanBeNamed (step.Public (codes "a")) }
    ensures no_name { CanBeNamed (step.Public (codes "b'\nknow 0\npub 'c")) → ⊥ }
    ensures empty { CanBeNamed (step.Public []) }
{}

/// A law: each step of a run that was read can be written.
pub fn read_runs_can_be_written()
    ensures process { (z : List ℕ) (ss : List PStep) → IsProcessRunText z (Ok ss)
        → Each IsWritableProcess ss }
    ensures rule { (z : List ℕ) (ss : List RStep) → IsRuleRunText z (Ok ss)
        → Each IsWritableRule ss }
{}

/// A law: a run that was read is what its printed text is read as, however the text that was read spells its terms.
pub fn read_runs_are_read_again()
    ensures process { (z : List ℕ) (ss : List PStep) → IsProcessRunText z (Ok ss)
        → IsProcessRunText (process_run_text ss) (Ok ss) }
    ensures rule { (z : List ℕ) (ss : List RStep) → IsRuleRunText z (Ok ss)
        → IsRuleRunText (rule_run_text ss) (Ok ss) }
{
    read_runs_can_be_written();
    printed_runs_are_read();
}

/// A law: the most steps of a short run, of a run of a process, and of one of rules, and that the last are four for each of a run of a
/// process, and one for the beginning.
pub fn limits_by_hand()
    ensures short_steps { MOST_SHORT_STEPS ≡ 500 }
    ensures process_steps { MOST_PROCESS_STEPS ≡ 5000 }
    ensures rule_steps { MOST_RULE_STEPS ≡ 20001 }
    ensures opposite { MOST_RULE_STEPS ≡ 4 * MOST_PROCESS_STEPS + 1 }
{}
