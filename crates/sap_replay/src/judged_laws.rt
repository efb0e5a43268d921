//! Laws of the texts that say whether formulas are true, as contracts of functions that only call the laws below.
ghost use Rattle.std.specs.Prelude.{◌≡◌, ℕ, List, All};
ghost use Rattle.sap_read.specs.Files.{FileContent, IsRunnable};
ghost use Rattle.sap_rule.specs.WellMade.{IsWellMade};
ghost use Rattle.sap_rule.specs.declared.theory.Theory.{Theory};
ghost use Rattle.sap_run_texts.specs.declared.run.Run.{Run};
ghost use Rattle.sap_terms.specs.Signature.{HoldsBuiltins, Sig};
ghost use Rattle.sap_terms.specs.Trace.{Trace};
ghost use Rattle.sap_replay.specs.Replays.{IsCheckedText, IsJudgedText, IsSeen};
ghost use Rattle.sap_replay.specs.Verdicts.{AreVerdicts, Judged};

use crate::laws::{closed_files, process_lines, rule_lines, seen_traces_are_messages};
use sap_judge::one_verdict;
use sap_locks::annotations_are_ready;
use sap_translate::rules_are_well_made;

/// A law: of formulas on a trace one text has their verdicts at most. So one text at most is that of the restrictions and lemmas of
/// a file that can run on a run of its process or of its rules, and some text is, where the run is legal; and one text at most is
/// that of a theory whose rules can run on a run of these.
pub fn one_judged_text()
    ensures lines { (g : Sig) (tr : Trace) (xs : List Judged) (text other : List ℕ) → AreVerdicts g tr xs text
        → AreVerdicts g tr xs other → text ≡ other }
    ensures file { (f : FileContent) (r : Run) (text other : List ℕ) → IsRunnable f → IsJudgedText f r text
        → IsJudgedText f r other → text ≡ other }
    ensures some { (f : FileContent) (r : Run) (tr : Trace) → IsRunnable f → IsSeen f r tr
        → (text : List ℕ) × IsJudgedText f r text }
    ensures theory { (t : Theory) (r : Run) (text other : List ℕ) → HoldsBuiltins t.signature
        → All (IsWellMade t.signature) t.rules → IsCheckedText t r text → IsCheckedText t r other → text ≡ other }
{
    one_verdict();
    process_lines();
    rule_lines();
    annotations_are_ready();
    rules_are_well_made();
    seen_traces_are_messages();
    closed_files();
}
