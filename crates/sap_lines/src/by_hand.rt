// Marks of a small written run by hand, as a contract of a function that only calls the law below.
ghost use Rattle.std.specs.Prelude.{◌≡◌, List, []};
ghost use Rattle.sap_lines.specs.LineExamples.{lock_event, lock_event_end, lock_event_lines, lock_event_marks, lock_event_trace, turned_marks};
ghost use Rattle.sap_lines.specs.Runs.{IsLegalProcessRun};
ghost use Rattle.sap_process.specs.Configuration.{Config};
ghost use Rattle.sap_runs.specs.Limits.{AnySize};
ghost use Rattle.sap_runs.specs.Marks.{Mark};
ghost use Rattle.sap_terms.specs.Signature.{Sig};
ghost use Rattle.sap_terms.specs.Trace.{Trace};
ghost use Rattle.sap_terms.specs.Tree.{Tree};

use sap_rewrite::normal_forms_are_unique;
use sap_terms::leaves_are_normal;

/// The lines `lock 0` and `event 0` of `lock 'a'; event A('a')` are legal, and mark the lock first and then the event. No other marks
/// are those of a legal run with these lines, so not the same ones the other way round.
pub fn marks_of_runs_by_hand()
    ensures legal { (g : Sig) → IsLegalProcessRun g AnySize lock_event lock_event_lines lock_event_end [] lock_event_trace lock_event_marks }
    ensures only { (g : Sig) (d : Config) (es : List Tree) (tr : Trace) (marks : List Mark)
        → IsLegalProcessRun g AnySize lock_event lock_event_lines d es tr marks → marks ≡ lock_event_marks }
    ensures not_turned { (g : Sig) (d : Config) (es : List Tree) (tr : Trace)
        → ¬ IsLegalProcessRun g AnySize lock_event lock_event_lines d es tr turned_marks }
{
    leaves_are_normal();
    normal_forms_are_unique();
}
