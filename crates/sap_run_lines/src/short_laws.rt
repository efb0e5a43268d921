//! What is so of the lines of short runs.
ghost use Rattle.std.specs.Prelude.{◌≡◌, codes, ℕ, List};
ghost use Rattle.sap_runs.specs.Examples.{k, hashed};
ghost use Rattle.sap_runs.specs.Short.{IsShortStep};
ghost use Rattle.sap_runs.specs.declared.process_step.PStep.TheVariants as step;
ghost use Rattle.sap_runs.specs.declared.short_step.SStep.{SStep};
ghost use Rattle.sap_runs.specs.declared.short_step.SStep.TheVariants as short;
ghost use Rattle.sap_terms.specs.View.{term};
ghost use Rattle.sap_run_lines.specs.StepLines.{IsDecided, IsOpenLine};
ghost use Rattle.sap_run_lines.specs.ShortLines.{IsShortStepLine};

/// A law: no line feed stands in the line of a step of a short run; bytes are the line of one such step at most, and are some
/// step's or none's; and a step that has a line may stand in a short run.
pub fn short_lines_are_one()
    ensures opened { (s : SStep) (z : List ℕ) → IsShortStepLine s z → IsOpenLine z }
    ensures one { (s u : SStep) (z : List ℕ) → IsShortStepLine s z → IsShortStepLine u z → s ≡ u }
    ensures decided { (z : List ℕ) → IsDecided IsShortStepLine z }
    ensures stands { (s : SStep) (z : List ℕ) → IsShortStepLine s z → IsShortStep s }
{}

/// A law: lines tried by hand. An input has a term, and so has what is known; a sending has neither term nor number of an entry;
/// an output has its line as it is. Numbers of entries are no terms, and what writes down a public name or applies a symbol has no
/// line.
pub fn short_lines_by_hand()
    ensures input { IsShortStepLine (short.In 0 (term (hashed 1))) (codes "in 0 h('k')") }
    ensures sending { IsShortStepLine (short.Send 3) (codes "send 3") }
    ensures knowing { IsShortStepLine (short.Know (term k)) (codes "know 'k'") }
    ensures output { IsShortStepLine (short.Act (step.Out 0)) (codes "out 0") }
    ensures no_input { (s : SStep) → ¬ IsShortStepLine s (codes "in 0 1") }
    ensures no_sending { (s : SStep) → ¬ IsShortStepLine s (codes "send 0 1") }
    ensures no_knowing { (s : SStep) → ¬ IsShortStepLine s (codes "know 0") }
    ensures no_public { (s : SStep) → ¬ IsShortStepLine s (codes "pub 'k'") }
    ensures no_symbol { (s : SStep) → ¬ IsShortStepLine s (codes "app h 0") }
    ensures no_blank { (s : SStep) → ¬ IsShortStepLine s (codes "know  'k'") }
{}
