//! Laws of what is written of runs, of what is judged, and of why runs are refused.
ghost use Rattle.std.specs.Prelude.{◌≡◌, ◌↔◌, ℕ, List, All};
ghost use Rattle.sap_lines.specs.Answers.{ProcessLinesHaveOneAnswer, ProcessLinesHaveOneOutcome, RunsMatchExactly};
ghost use Rattle.sap_lines.specs.Runs.{ProcessLinesAreRuns, SmallProcessLinesAreLines, SmallProcessRunsAreLegal};
ghost use Rattle.sap_restrict.specs.Laws.{PrefixLaw};
ghost use Rattle.sap_rule.specs.Messages.{RunsReachMessages};
ghost use Rattle.sap_rule.specs.WellMade.{IsWellMade};
ghost use Rattle.sap_runs.specs.Limits.{HasFewNodes};
ghost use Rattle.sap_steps.specs.Answers.{ReachedHaveOneAnswer, ReachedHaveOneOutcome, RefusalsAreOne};
ghost use Rattle.sap_steps.specs.Runs.{LinesAreRuns};
ghost use Rattle.sap_terms.specs.Signature.{HoldsBuiltins};
ghost use Rattle.sap_terms.specs.Message.{IsMessageTrace};
ghost use Rattle.sap_terms.specs.Trace.{Trace};
ghost use Rattle.sap_rule.specs.declared.theory.Theory.{Theory};
ghost use Rattle.sap_formula.specs.Form.{LemmaForm, RestrictionForm};
ghost use Rattle.sap_formula.specs.Laws.{IsClosed};
ghost use Rattle.sap_formula.specs.Truth.{EachIn};
ghost use Rattle.sap_read.specs.Files.{FileContent, IsRunnable};
ghost use Rattle.sap_run_texts.specs.RunPrinted.{process_run_text};
ghost use Rattle.sap_run_texts.specs.declared.run.Run.{Run};
ghost use Rattle.sap_run_texts.specs.declared.run.Run.TheVariants as runs;
ghost use Rattle.sap_runs.specs.declared.process_step.PStep.{PStep};
ghost use Rattle.sap_runs.specs.declared.rule_step.RStep.{RStep};
ghost use Rattle.sap_replay.specs.Replays.{AreOpposite, IsJudgedAlike, IsJudgedText, IsOppositeText, IsSeen};
ghost use Rattle.sap_replay.specs.RunRefusals.{IsIllegal, IsIllegalOfTheory};
ghost use Rattle.sap_replay.specs.ToldRuns.{IsDrawnOf, IsToldOf};
ghost use Rattle.sap_replay.specs.Laws.{LegalRunsAreNotRefused, RefusedRunsHaveOneCause, TextsMeanWhatTheySay};

use sap_back::{names_stand_in_lines, one_converted_run, rule_runs_have_one_answer};
use sap_chart::drawn_runs_are_legal;
use sap_formula::faultless_formulas_are_checked;
use sap_forward::process_runs_have_one_answer;
use sap_gen::theories_are_printable;
use sap_intruder::{filled_runs_are_legal, one_short_answer, sparing_runs_bring_no_name};
use sap_json::{json_runs_can_be_written, one_json_run, written_json_is_read};
use sap_locks::annotations_are_ready;
use sap_restrict::restrictions_say_sentences;
use sap_rule::runs_reach_messages;
use sap_run_lines::spelled_terms_can_be_written;
use sap_run_texts::{
    named_steps_can_be_written, one_run, one_short_run, printed_runs_are_read,
    read_runs_can_be_written,
};
use sap_tell::legal_runs_are_told;
use sap_translate::{rules_are_well_made, rules_show_the_process, sound_processes_are_shown};

/// A law: what is written of runs means what it should. What a task writes of a run that was read, where its file can run and can
/// be printed; and of no other run than a legal one a task writes something. What is written of a run as JSON is read as this run, and
/// so is the text of the run that JSON is. Lines that fill a short run of a file that can be printed are read from their text.
pub fn texts_mean_what_they_say()
    ensures { TextsMeanWhatTheySay }
{
    theories_are_printable();
    read_runs_can_be_written();
    named_steps_can_be_written();
    printed_runs_are_read();
    names_stand_in_lines();
    verdicts_are_kept();
    legal_runs_are_told();
    drawn_runs_are_legal();
    json_runs_can_be_written();
    written_json_is_read();
    spelled_terms_can_be_written();
    sparing_runs_bring_no_name();
    filled_runs_are_legal();
    annotations_are_ready();
}

/// A law: bytes of a run are refused for one cause at most: where a file that can run says which runs are legal, or a theory whose
/// rules can, or neither; as a short run of such a file; and as JSON.
pub fn refused_runs_have_one_cause()
    ensures { RefusedRunsHaveOneCause }
{
    one_run();
    illegal_runs_have_one_cause();
    one_short_run();
    one_short_answer();
    annotations_are_ready();
    one_json_run();
}

/// A law: and where they are a legal run, for none.
pub fn legal_runs_are_not_refused()
    ensures { LegalRunsAreNotRefused }
{
    one_run();
    process_lines();
    rule_lines();
    annotations_are_ready();
    rules_are_well_made();
    one_short_run();
    one_short_answer();
    one_json_run();
}

/// A law: where a run of the process of a file that can run and one of its rules are opposite, the same is said on both of the
/// file's restrictions and lemmas.
pub fn verdicts_are_kept()
    ensures { (f : FileContent) (lines : List PStep) (rule_lines : List RStep) (text : List ℕ) → IsRunnable f
        → AreOpposite f lines rule_lines
        → IsJudgedText f (runs.Process lines) text ↔ IsJudgedText f (runs.Rules rule_lines) text }
{
    process_lines();
    rule_lines();
    annotations_are_ready();
    rules_are_well_made();
}

/// A law: of the text that `to-rules` or `to-process` writes of a run `judge` says what it says of that run, where the text has few
/// enough steps and bytes to be read.
pub fn written_runs_are_judged_alike()
    ensures { (f : FileContent) (r : Run) (text : List ℕ) → IsOppositeText f r text → IsJudgedAlike f r text }
{}

/// A law: of a run of the rules of a file that can run `to-process` writes one text, and `tell` and `chart` speak of the run of the
/// process that this is the text of.
pub fn one_run_is_written_told_and_drawn()
    ensures written { (f : FileContent) (rule_lines : List RStep) (text other : List ℕ) → IsRunnable f
        → IsOppositeText f (runs.Rules rule_lines) text → IsOppositeText f (runs.Rules rule_lines) other
        → text ≡ other }
    ensures told { (bytes : List ℕ) (f : FileContent) (rule_lines : List RStep) (text other : List ℕ) → IsRunnable f
        → IsOppositeText f (runs.Rules rule_lines) text → (told : IsToldOf bytes f (runs.Rules rule_lines) other)
        → text ≡ process_run_text told.lines }
    ensures drawn { (bytes : List ℕ) (f : FileContent) (rule_lines : List RStep) (text other : List ℕ) → IsRunnable f
        → IsOppositeText f (runs.Rules rule_lines) text → (drawn : IsDrawnOf bytes f (runs.Rules rule_lines) other)
        → text ≡ process_run_text drawn.lines }
{
    one_converted_run();
}

/// A law: what a run of a file that can run shows, a run of its process or of its rules, are messages.
pub(crate) fn seen_traces_are_messages()
    ensures { (f : FileContent) (r : Run) (tr : Trace) → IsRunnable f → IsSeen f r tr → IsMessageTrace f.signature tr }
{
    process_lines();
    rule_lines();
    rules_show_the_process();
    sound_processes_are_shown();
}

/// A law: the formulas of a file that can run are closed.
pub(crate) fn closed_files()
    ensures restrictions { (f : FileContent) → IsRunnable f
        → EachIn (λ (r : RestrictionForm). IsClosed f.signature r.formula) f.restrictions }
    ensures lemmas { (f : FileContent) → IsRunnable f
        → EachIn (λ (l : LemmaForm). IsClosed f.signature l.formula) f.lemmas }
{
    faultless_formulas_are_checked();
}

/// Laws: where what is matched is matched exactly, as it is wherever written runs of a ready process lead to, a line of the process is
/// possible in one way, and one that is possible within the limit isn't refused. Legal lines are a run.
pub(crate) fn process_lines()
    ensures outcome { ProcessLinesHaveOneOutcome }
    ensures answer { ProcessLinesHaveOneAnswer }
    ensures exactly { RunsMatchExactly }
    ensures small_lines { SmallProcessLinesAreLines }
    ensures small_runs { SmallProcessRunsAreLegal }
    ensures runs { ProcessLinesAreRuns HasFewNodes }
{
    sap_lines::lines_have_one_answer();
    sap_lines::runs_match_exactly();
    sap_lines::limit_excludes();
    sap_lines::lines_are_steps();
}

/// Laws: wherever a run of well-made rules leads to, a line that is possible within the limit is possible in one way, and isn't
/// refused; one that is refused is so for one cause. Legal lines are a run, such a run shows messages, and on its prefixes each of
/// the seven formulas is true that is true on it.
pub(crate) fn rule_lines()
    ensures outcome { ReachedHaveOneOutcome HasFewNodes }
    ensures answer { ReachedHaveOneAnswer }
    ensures causes { RefusalsAreOne }
    ensures runs { LinesAreRuns HasFewNodes }
    ensures messages { RunsReachMessages }
    ensures prefix { PrefixLaw }
{
    sap_steps::lines_have_one_outcome();
    sap_steps::lines_have_one_answer();
    sap_steps::lines_are_steps();
    runs_reach_messages();
    restrictions_say_sentences();
}

/// A law: a run is illegal for one cause at most, of a file that can run, and of a theory whose rules can.
pub(crate) fn illegal_runs_have_one_cause()
    ensures file { (f : FileContent) (r : Run) (why other : List ℕ) → IsRunnable f → IsIllegal f r why
        → IsIllegal f r other → why ≡ other }
    ensures theory { (t : Theory) (r : Run) (why other : List ℕ) → HoldsBuiltins t.signature
        → All (IsWellMade t.signature) t.rules → IsIllegalOfTheory t r why → IsIllegalOfTheory t r other
        → why ≡ other }
{
    process_runs_have_one_answer();
    rule_runs_have_one_answer();
    rule_lines();
}
