//! What is so of short runs, as contracts of functions that do nothing.
ghost use Rattle.std.specs.Prelude.{[], ◌∷◌, codes};
ghost use Rattle.sap_terms.specs.Tree.{fresh};
ghost use Rattle.sap_terms.specs.View.{term};
ghost use Rattle.sap_process.specs.Configuration.{initial};
ghost use Rattle.sap_process.specs.Proc.{nil};
ghost use Rattle.sap_process.specs.StepExamples.{a};
ghost use Rattle.sap_lines.specs.declared.fault.PFault.TheVariants as fault;
ghost use Rattle.sap_intruder.specs.FilledNames.{EntriesAreFew, SparingRunsBringNoName};
ghost use Rattle.sap_intruder.specs.FilledRuns.{Fills, FilledRunsAreLegal, IsFilledRun, IsLeftOut, LegalShortRunsCanBeFilled, SmallShortRunsCanBeFilled, SparingRunsFill};
ghost use Rattle.sap_intruder.specs.NeverFilled.{RefusedStepsCannotBeFilled};
ghost use Rattle.sap_intruder.specs.OneAnswer.{FirstShortRefusalsAreOne, LegalShortRunsAreNotRefused, ShortLinesAreNotRefused, ShortRefusalsAreOne, ShortRunsHaveOneEnd};
ghost use Rattle.sap_intruder.specs.Refusals.{IsShortRefused};
ghost use Rattle.sap_intruder.specs.ShortExamples.{bare, know_a, know_a_lines, know_a_trace, unheld};
ghost use Rattle.sap_intruder.specs.ShortRuns.{IsLegalShortRun, ShortRunsAreRuns};
ghost use Rattle.sap_intruder.specs.SomeAnswer.{ShortLinesHaveSomeAnswer, ShortRunsHaveSomeAnswer};
ghost use Rattle.sap_intruder.specs.declared.fill_fault.FillFault.TheVariants as fill;
ghost use Rattle.sap_runs.specs.Limits.{AnySize, HasFewNodes};
ghost use Rattle.sap_runs.specs.declared.process_step.PStep.TheVariants as line;
ghost use Rattle.sap_runs.specs.declared.short_step.SStep.TheVariants as short;

use sap_derive::{deducibility_is_decided, derivations_stay_near};
use sap_lines::{
    channels_are_one, each_run_can_be_written, limit_excludes, lines_are_steps,
    lines_have_one_answer, lines_have_some_answer, lines_look_at_one_entry, names_stand_in_runs,
    runs_match_exactly,
};
use sap_process::runs_stay_ground;
use sap_rewrite::{
    each_term_has_a_normal_form, equality_is_kept, normal_forms_are_unique, symbols_reduce_once,
};
use sap_terms::leaves_are_normal;

/// What the steps of a legal short run lead to and show, a run of the process leads to and shows.
pub fn short_runs_are_runs()
    ensures runs { ShortRunsAreRuns AnySize }
    ensures small_runs { ShortRunsAreRuns HasFewNodes }
{
    lines_are_steps();
}

/// A run that fills a short run is legal, and so is the short run; both lead to the same, show the same and have the same marks. One
/// that fills it without idle lines fills it.
pub fn filled_runs_are_legal()
    ensures runs { FilledRunsAreLegal AnySize }
    ensures small_runs { FilledRunsAreLegal HasFewNodes }
    ensures sparing { SparingRunsFill }
{
    lines_are_steps();
    lines_look_at_one_entry();
}

/// Each legal short run is filled by some run: what the adversary gives in it, it can write down and apply first. One that is legal
/// within the limit, of steps that may stand in a short run, is filled by a run that is legal within it, over a signature that holds
/// its builtins' symbols.
pub fn short_runs_can_be_filled()
    ensures runs { LegalShortRunsCanBeFilled }
    ensures small_runs { SmallShortRunsCanBeFilled }
{
    normal_forms_are_unique();
    equality_is_kept();
    symbols_reduce_once();
    leaves_are_normal();
    derivations_stay_near();
    lines_look_at_one_entry();
}

/// Two causes for which a step of a short run is refused are one; and where what lines match is matched exactly, a step that is
/// possible within the limit isn't refused.
pub fn short_refusals_are_one()
    ensures cause { ShortRefusalsAreOne }
    ensures answer { ShortLinesAreNotRefused }
{
    normal_forms_are_unique();
    lines_have_one_answer();
    channels_are_one();
}

/// A short run of a ready process, over a signature that holds its builtins' symbols, has one answer at most: it is legal within
/// the limit, with one end, or one step of it is the first that is refused, for one cause.
pub fn one_short_answer()
    ensures end { ShortRunsHaveOneEnd }
    ensures apart { LegalShortRunsAreNotRefused }
    ensures first { FirstShortRefusalsAreOne }
{
    normal_forms_are_unique();
    channels_are_one();
    each_run_can_be_written();
    limit_excludes();
    lines_have_one_answer();
    runs_match_exactly();
    short_runs_are_runs();
    short_refusals_are_one();
}

/// A short run has one answer at least. Where what lines match is matched exactly and what was sent is normal, each step that may
/// stand in a short run is possible within the limit, or refused; so each short run of such steps, of a ready process, is legal within
/// the limit, or one step of it is the first that is refused.
pub fn some_short_answer()
    ensures steps { ShortLinesHaveSomeAnswer }
    ensures runs { ShortRunsHaveSomeAnswer }
{
    each_term_has_a_normal_form();
    normal_forms_are_unique();
    deducibility_is_decided();
    runs_stay_ground();
    lines_have_some_answer();
    each_run_can_be_written();
    runs_match_exactly();
    short_runs_are_runs();
}

/// A run that fills a short run without idle lines brings no name that stands neither in the process nor in the short run: a test
/// that the names there pass, those that its lines bring pass. A run that is legal within the limit has no more entries than lines.
pub fn sparing_runs_bring_no_name()
    ensures names { SparingRunsBringNoName }
    ensures few { EntriesAreFew HasFewNodes }
{
    normal_forms_are_unique();
    equality_is_kept();
    symbols_reduce_once();
    leaves_are_normal();
    names_stand_in_runs();
    filled_runs_are_legal();
}

/// The first step of a short run that is refused is the first that no lines `pub` and `app` make possible, whichever and wherever they
/// are put: some run fills the steps before it, and none those up to it.
pub fn refused_steps_cannot_be_filled()
    ensures { RefusedStepsCannotBeFilled }
{
    filled_runs_are_legal();
    short_runs_can_be_filled();
    one_short_answer();
    some_short_answer();
}

/// A short run and steps by hand, of a process that is nothing, over a signature without symbols. `know 'a'` is a legal short run,
/// which `pub 'a'` and `know 0` fill; no entry is cited where there is none. A term with a symbol that isn't held is bad, and `'a'`
/// isn't; an input is refused for its thread, and then for the form of that, before its term is looked at. Of `~1` and `'a'` the
/// adversary can give the second alone.
pub fn short_runs_by_hand()
    ensures legal { IsLegalShortRun bare HasFewNodes nil know_a (initial nil) know_a_trace [] }
    ensures filled { IsFilledRun bare HasFewNodes nil know_a know_a_lines (initial nil) (a ∷ []) know_a_trace [] }
    ensures no_entry { ¬ Fills bare [] (short.Know (term a)) (line.Know 0) }
    ensures left_out { IsLeftOut (line.Public (codes "a")) × ¬ IsLeftOut (line.Know 0) }
    ensures bad_term { IsShortRefused bare (initial nil) (short.Know (term unheld)) fill.BadTerm }
    ensures not_bad { ¬ IsShortRefused bare (initial nil) (short.Know (term a)) fill.BadTerm }
    ensures thread_first { IsShortRefused bare (initial nil) (short.In 1 (term unheld)) (fill.Process (fault.NoThread 1)) }
    ensures form_next { IsShortRefused bare (initial nil) (short.In 0 (term unheld)) (fill.Process (fault.WrongForm 0)) }
    ensures not_deduced { IsShortRefused bare (initial nil) (short.Know (term (fresh 1))) fill.NotDeduced }
    ensures deduced { ¬ IsShortRefused bare (initial nil) (short.Know (term a)) fill.NotDeduced }
{
    leaves_are_normal();
    normal_forms_are_unique();
}
