//! Opposite runs, tried by hand.

ghost use Rattle.std.specs.Prelude.{ℕ, codes, List, [], ◌∷◌};
ghost use Rattle.sap_read.specs.Files.{FileContent, IsRunnable};
ghost use Rattle.sap_run_texts.specs.declared.run.Run.{Run};
ghost use Rattle.sap_run_texts.specs.declared.run.Run.TheVariants as runs;
ghost use Rattle.sap_runs.specs.declared.process_step.PStep.TheVariants as line;
ghost use Rattle.sap_runs.specs.declared.rule_step.RStep.TheVariants as rule_line;
ghost use Rattle.sap_replay.specs.Replays.{IsOppositeText};

use crate::laws::verdicts_are_kept;
use sap_restrict::restrictions_say_sentences;
use sap_run_texts::{named_steps_can_be_written, one_run, printed_runs_are_read};

/// A law: texts of opposite runs tried by hand, of any file that can run. To the run without lines the one without lines is opposite, of
/// rules too, which needn't start; and to the line by which the adversary writes down a public name that line, both ways. No text is one of
/// another run: with that line it isn't opposite to the run without lines, nor to the line with another name, nor is the text without
/// lines opposite to that line of rules; and the run's own text is of the wrong kind.
pub fn opposites_by_hand()
    ensures rules_of_none { (f : FileContent) → IsRunnable f → IsOppositeText f (runs.Process []) (codes "rule-run\n") }
    ensures process_of_none { (f : FileContent) → IsRunnable f → IsOppositeText f (runs.Rules []) (codes "process-run\n") }
    ensures rules { (f : FileContent) → IsRunnable f
        → IsOppositeText f (runs.Process (line.Public (codes "a") ∷ [])) (codes "rule-run\npub 'a'\n") }
    ensures process { (f : FileContent) → IsRunnable f
        → IsOppositeText f (runs.Rules (rule_line.Public (codes "a") ∷ [])) (codes "process-run\npub 'a'\n") }
    ensures other_rules { (f : FileContent)
        → IsOppositeText f (runs.Process []) (codes "rule-run\npub 'a'\n") → ⊥ }
    ensures other_process { (f : FileContent)
        → IsOppositeText f (runs.Rules []) (codes "process-run\npub 'a'\n") → ⊥ }
    ensures rules_of_another_name { (f : FileContent)
        → IsOppositeText f (runs.Process (line.Public (codes "b") ∷ [])) (codes "rule-run\npub 'a'\n") → ⊥ }
    ensures process_of_another_name { (f : FileContent)
        → IsOppositeText f (runs.Rules (rule_line.Public (codes "b") ∷ [])) (codes "process-run\npub 'a'\n") → ⊥ }
    ensures process_of_more { (f : FileContent)
        → IsOppositeText f (runs.Rules (rule_line.Public (codes "a") ∷ [])) (codes "process-run\n") → ⊥ }
    ensures own_text { (f : FileContent) → IsOppositeText f (runs.Process []) (codes "process-run\n") → ⊥ }
    ensures own_text_of_rules { (f : FileContent) → IsOppositeText f (runs.Rules []) (codes "rule-run\n") → ⊥ }
{
    one_run();
    printed_runs_are_read();
    named_steps_can_be_written();
    restrictions_say_sentences();
    verdicts_are_kept();
}
