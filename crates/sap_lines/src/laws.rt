// Laws of written runs of processes, as contracts of functions that do nothing.
ghost use Rattle.sap_lines.specs.Answers.{ProcessLinesHaveOneOutcome, ProcessLinesHaveOneAnswer, ProcessLinesHaveSomeAnswer, RefusalsAreOne, RunsMatchExactly};
ghost use Rattle.sap_lines.specs.Channels.{ChannelsAreOne, ChannelsHaveOneAnswer, MissingChannelsAreOne};
ghost use Rattle.sap_lines.specs.NamesPass.{NamesStandInRuns};
ghost use Rattle.sap_lines.specs.OtherEntries.{LinesThatAskTheSameDoTheSame, LinesThatAskTheSameAreRefusedTheSame};
ghost use Rattle.sap_lines.specs.Runs.{ProcessLinesAreSteps, ProcessLinesAreRuns, ProcessRunsCanBeWritten, GivenTermsCanBeEntered, SmallProcessLinesAreLines, SmallProcessRunsAreLegal};
ghost use Rattle.sap_lines.specs.Sorts.{PatternsHaveOneSort, RulesHaveOneSort};
ghost use Rattle.sap_runs.specs.Limits.{AnySize, HasFewNodes};

use sap_process::runs_stay_ground;
use sap_rewrite::{
    each_term_has_a_normal_form, equality_is_kept, matching_is_modulo, normal_forms_are_unique,
    normal_forms_decide, symbols_reduce_once,
};
use sap_terms::{destructors_head_left_sides, leaves_are_normal, names_are_messages};

/// A line that is possible is a step, or one more entry that the adversary can give; and legal lines are a run.
pub fn lines_are_steps()
    ensures steps { ProcessLinesAreSteps AnySize }
    ensures small_steps { ProcessLinesAreSteps HasFewNodes }
    ensures runs { ProcessLinesAreRuns AnySize }
    ensures small_runs { ProcessLinesAreRuns HasFewNodes }
{
    normal_forms_are_unique();
    normal_forms_decide();
    leaves_are_normal();
}

/// Each run can be written; and what the adversary can give behind it can be entered.
pub fn each_run_can_be_written()
    ensures runs { ProcessRunsCanBeWritten }
    ensures entered { GivenTermsCanBeEntered }
{
    each_term_has_a_normal_form();
    normal_forms_are_unique();
    normal_forms_decide();
}

/// The limit only excludes lines and runs.
pub fn limit_excludes()
    ensures lines { SmallProcessLinesAreLines }
    ensures runs { SmallProcessRunsAreLegal }
{}

/// Where what is matched is matched exactly, a line is possible in one way, and one that is possible within the limit is refused
/// for want of memory alone. Causes other than want of memory for which a line is refused are one.
pub fn lines_have_one_answer()
    ensures outcome { ProcessLinesHaveOneOutcome }
    ensures answer { ProcessLinesHaveOneAnswer }
    ensures cause { RefusalsAreOne }
{
    each_term_has_a_normal_form();
    normal_forms_are_unique();
    normal_forms_decide();
    equality_is_kept();
    leaves_are_normal();
    destructors_head_left_sides();
    matching_is_modulo();
}

/// Where what is matched is matched exactly, each line is possible within the limit, or refused for another cause than want of
/// memory.
pub fn lines_have_some_answer()
    ensures { ProcessLinesHaveSomeAnswer }
{
    each_term_has_a_normal_form();
    normal_forms_are_unique();
    normal_forms_decide();
    equality_is_kept();
    leaves_are_normal();
    names_are_messages();
    destructors_head_left_sides();
    matching_is_modulo();
}

/// A thread sends on one channel, or on none for one cause, want of memory aside.
pub fn channels_are_one()
    ensures one { ChannelsAreOne }
    ensures answer { ChannelsHaveOneAnswer }
    ensures cause { MissingChannelsAreOne }
{
    normal_forms_are_unique();
}

/// What a line asks of the adversary's entries is one entry's term, or nothing. So where a line is possible, the same line is
/// behind any other entries, if it may stand in a short run; and one that takes, is sent to or shows an entry is possible at any
/// number where this term stands, behind any entries. Both do the same. A refused line is refused there for the same cause.
pub fn lines_look_at_one_entry()
    ensures lines { LinesThatAskTheSameDoTheSame AnySize }
    ensures small_lines { LinesThatAskTheSameDoTheSame HasFewNodes }
    ensures refused { LinesThatAskTheSameAreRefusedTheSame }
{}

/// Wherever written runs of a ready process lead to, what lines match, they match exactly.
pub fn runs_match_exactly()
    ensures { RunsMatchExactly }
{
    lines_are_steps();
    runs_stay_ground();
    leaves_are_normal();
    destructors_head_left_sides();
}

/// A test that the public names and fresh names in a ready process pass, and those that lines bring, the names pass in all
/// that a legal run of these lines leads to: in the running processes, the store, the facts and the entries. So no name
/// comes from elsewhere.
pub fn names_stand_in_runs()
    ensures { NamesStandInRuns }
{
    each_term_has_a_normal_form();
    normal_forms_are_unique();
    normal_forms_decide();
    equality_is_kept();
    symbols_reduce_once();
    leaves_are_normal();
    destructors_head_left_sides();
    matching_is_modulo();
    runs_match_exactly();
    limit_excludes();
}

/// Where each variable has the sort of its binder, no name of a pattern or of an embedded rule has two sorts.
pub fn sorts_are_one()
    ensures pattern { PatternsHaveOneSort }
    ensures rule { RulesHaveOneSort }
{}
