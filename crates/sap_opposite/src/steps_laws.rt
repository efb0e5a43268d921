//! Laws of lines that are opposite, as contracts of functions that do nothing.
ghost use Rattle.std.specs.Prelude.{◌≡◌, ℕ, List, [], ◌∷◌, Some, length, slice_get, take};
ghost use Rattle.sap_opposite.specs.Steps.{opposite_step, opposite_steps};
ghost use Rattle.sap_opposite.specs.StepExamples.{sending_lines, sending_rule_lines, waiting_lines, waiting_rule_lines};
ghost use Rattle.sap_runs.specs.declared.process_step.PStep.{PStep};
ghost use Rattle.sap_runs.specs.declared.rule_step.RStep.{RStep};

/// A law: there are as many numbers as lines of the process, and each is that of its line, behind those before it.
pub fn each_line_has_its_step()
    ensures many { (run : List RStep) (lines : List PStep) → length (opposite_steps run lines) ≡ length lines }
    ensures each { (run : List RStep) (lines : List PStep) (k : ℕ) (step : PStep) → slice_get lines k ≡ Some step
        → slice_get (opposite_steps run lines) k ≡ Some (opposite_step run (take k lines) step) }
{}

/// A law: of two small runs which line of rules each line of the process is opposite to. A `know` that waits among lines that have none of
/// their own, until an event, until the next or until the end, has the `know` that gave its entry, not the line before which it is
/// written, and none that was taken. What starts all or a replication, a message under way, its acknowledgement, Fr and what is learned
/// have none of their own.
pub fn steps_by_hand()
    ensures waiting { opposite_steps waiting_rule_lines waiting_lines ≡ 3 ∷ 4 ∷ 5 ∷ 8 ∷ 6 ∷ 10 ∷ 12 ∷ 13 ∷ [] }
    ensures sending { opposite_steps sending_rule_lines sending_lines ≡ 2 ∷ 5 ∷ 7 ∷ 10 ∷ 11 ∷ 13 ∷ 12 ∷ 16 ∷ 15 ∷ [] }
    ensures none { opposite_steps waiting_rule_lines [] ≡ [] }
{}
