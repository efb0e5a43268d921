//! Laws of told runs, as contracts of functions that do nothing.
ghost use Rattle.std.specs.Prelude.{◌≡◌, codes, List, [], ◌∷◌};
ghost use Rattle.sap_tell.specs.ToldLaws.{ToldRunsAreLegal, LegalRunsAreTold, LinesDoOneThing, RunsAreToldByOneText, ThreadsStandAtTheirPaths};

use sap_lines::{limit_excludes, lines_are_steps, lines_have_one_answer, runs_match_exactly};
use sap_process::{instances_of_processes, runs_stay_ground};
use sap_rewrite::{each_term_has_a_normal_form, equality_is_kept, normal_forms_are_unique};

/// A law: what is told as a run is a legal run of the process within the limit, and each such run is told by some text.
pub fn legal_runs_are_told()
    ensures legal { ToldRunsAreLegal }
    ensures told { LegalRunsAreTold }
{
    each_term_has_a_normal_form();
}

/// A law: lines of a process that is ready are told by one text, and what each does, with what comes of it, is one. So a reader who
/// takes another choice for an input or an embedded rule tells the same.
pub fn one_told_text()
    ensures runs { RunsAreToldByOneText }
    ensures lines { LinesDoOneThing }
{
    lines_have_one_answer();
    runs_match_exactly();
    limit_excludes();
    normal_forms_are_unique();
    equality_is_kept();
}

/// A law: behind told lines of a well-formed process each running thread is what stands at its path in the process, with some
/// variables replaced by terms without variables. So who is told `thread 2 at 111` finds there what the thread goes on with.
pub fn threads_stand_at_their_paths()
    ensures { ThreadsStandAtTheirPaths }
{
    lines_are_steps();
    runs_stay_ground();
    instances_of_processes();
}
