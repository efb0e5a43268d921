// Laws of written runs of rules and worked examples, as contracts of functions that do nothing.
ghost use Rattle.std.specs.Prelude.{◌≡◌};
ghost use Rattle.sap_steps.specs.Answers.{LinesHaveOneAnswer, LinesHaveOneOutcome, LinesHaveSomeAnswer, ReachedHaveOneAnswer, ReachedHaveOneOutcome, ReachedHaveSomeAnswer, RefusalsAreOne};
ghost use Rattle.sap_steps.specs.Inner.{inner_actions, shown_by_hand, inner_by_hand};
ghost use Rattle.sap_steps.specs.Lines.{AnySize, HasFewNodes};
ghost use Rattle.sap_steps.specs.Marks.{marks, marks_by_hand};
ghost use Rattle.sap_steps.specs.Runs.{LinesAreSteps, StepsHaveLines, LinesAreRuns, RunsCanBeWritten, SmallLinesAreLines, SmallRunsAreLegal};

use sap_rewrite::{
    each_term_has_a_normal_form, fitting_gives_messages, matching_around_is_modulo,
    normal_forms_are_unique, normal_forms_decide,
};
use sap_rule::{runs_reach_messages, taken_facts_are_messages};
use sap_terms::names_are_messages;

/// A line that is possible is a step, and legal lines are a run.
pub fn lines_are_steps()
    ensures steps { LinesAreSteps AnySize }
    ensures small_steps { LinesAreSteps HasFewNodes }
    ensures runs { LinesAreRuns AnySize }
    ensures small_runs { LinesAreRuns HasFewNodes }
{}

/// Where rules have names of their own, each step has a line, and each run can be written.
pub fn steps_have_lines()
    ensures steps { StepsHaveLines }
    ensures runs { RunsCanBeWritten }
{}

/// The limit only excludes lines and runs.
pub fn limit_excludes()
    ensures lines { SmallLinesAreLines }
    ensures runs { SmallRunsAreLegal }
{}

/// A line that is possible within the limit is refused for want of memory alone. Causes other than want of memory for which a
/// line is refused are one.
pub fn lines_have_one_answer()
    ensures held { LinesHaveOneAnswer }
    ensures reached { ReachedHaveOneAnswer }
    ensures causes { RefusalsAreOne }
{
    matching_around_is_modulo();
    normal_forms_are_unique();
    taken_facts_are_messages();
    runs_reach_messages();
}

/// A line is possible within the limit, or refused for another cause than want of memory.
pub fn lines_have_some_answer()
    ensures held { LinesHaveSomeAnswer }
    ensures reached { ReachedHaveSomeAnswer }
{
    each_term_has_a_normal_form();
    normal_forms_are_unique();
    normal_forms_decide();
    matching_around_is_modulo();
    fitting_gives_messages();
    taken_facts_are_messages();
    runs_reach_messages();
    names_are_messages();
}

/// A line is possible in one way: it shows the same and leads to the same.
pub fn lines_have_one_outcome()
    ensures held { LinesHaveOneOutcome AnySize }
    ensures small { LinesHaveOneOutcome HasFewNodes }
    ensures reached { ReachedHaveOneOutcome AnySize }
    ensures small_reached { ReachedHaveOneOutcome HasFewNodes }
{
    matching_around_is_modulo();
    normal_forms_are_unique();
    taken_facts_are_messages();
    runs_reach_messages();
}

/// The inner actions of a small full trace, one of each kind. Events and what the adversary knows are none.
pub fn inner_actions_by_hand()
    ensures { inner_actions shown_by_hand ≡ inner_by_hand }
{}

/// The marks of the same full trace: its inner actions, and the event where it stands.
pub fn marks_by_hand()
    ensures { marks shown_by_hand ≡ marks_by_hand }
{}
