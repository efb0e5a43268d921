//! What is so of the lines of runs.
ghost use Rattle.std.specs.Prelude.{◌≡◌, ◌++◌, ℕ, List};
ghost use Rattle.sap_terms.specs.Tree.{Tree};
ghost use Rattle.sap_grammar.specs.TermText.{tree_text};
ghost use Rattle.sap_runs.specs.declared.process_step.PStep.{PStep};
ghost use Rattle.sap_runs.specs.declared.rule_step.RStep.{RStep};
ghost use Rattle.sap_run_lines.specs.RunTerms.{IsRunTerm};
ghost use Rattle.sap_run_lines.specs.StepLines.{process_words, rule_words, IsProcessStepLine, IsRuleStepLine, IsOpenLine, IsDecided};
ghost use Rattle.sap_run_lines.specs.LineText.{words_text};
ghost use Rattle.sap_run_lines.specs.Spellable.{IsWritable, IsWritableProcess, IsWritableRule};

/// A law: no line feed stands in a step's line.
pub fn step_lines_are_lines()
    ensures process { (s : PStep) (z : List ℕ) → IsProcessStepLine s z → IsOpenLine z }
    ensures rule { (s : RStep) (z : List ℕ) → IsRuleStepLine s z → IsOpenLine z }
{}

/// A law: bytes are the line of one step at most, and are some step's or none's.
pub fn lines_are_one()
    ensures process { (s u : PStep) (z : List ℕ) → IsProcessStepLine s z → IsProcessStepLine u z → s ≡ u }
    ensures rule { (s u : RStep) (z : List ℕ) → IsRuleStepLine s z → IsRuleStepLine u z → s ≡ u }
    ensures decided { (z : List ℕ) → IsDecided IsProcessStepLine z }
    ensures rule_decided { (z : List ℕ) → IsDecided IsRuleStepLine z }
{}

/// A law: what is printed of a term that can be written spells it, before any bytes; and what is printed of a step that can be
/// written is its line.
pub fn written_lines_are_read()
    ensures term { (t : Tree) (k : List ℕ) → IsWritable t → IsRunTerm t (tree_text t ++ k) k }
    ensures process { (s : PStep) → IsWritableProcess s
        → IsProcessStepLine s (words_text (process_words s)) }
    ensures rule { (s : RStep) → IsWritableRule s → IsRuleStepLine s (words_text (rule_words s)) }
{}
