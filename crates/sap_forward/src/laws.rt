//! Laws of runs of processes and of their rules, as contracts of functions that only call the laws below.
ghost use Rattle.std.specs.Prelude.{◌≡◌, ◌<◌, ◌^◌, ℕ, List};
ghost use Rattle.sap_forward.specs.Answered.{LinesAreAnswered, StartsLinked};
ghost use Rattle.sap_forward.specs.Answers.{HasOneFirst, HasOneTrace, EachIsLegalOrRefused, LegalIsNotRefused};
ghost use Rattle.sap_rule_lines.specs.Least.{names_drawn, names_made, not_drawn, AreLeast};
ghost use Rattle.sap_forward.specs.LineExamples.{lock_and_new, lock_then_new, made_early, new_then_lock, test_then_lock, with_names};
ghost use Rattle.sap_forward.specs.Opposite.{HasOppositeRuleRuns, RuleLinesStandInTurn};
ghost use Rattle.sap_locks.specs.Annotation.{IsAnnotation};
ghost use Rattle.sap_process.specs.Proc.{Proc, node_count};
ghost use Rattle.sap_process.specs.Ready.{IsReady};
ghost use Rattle.sap_runs.specs.declared.process_step.PStep.{PStep};
ghost use Rattle.sap_runs.specs.declared.rule_step.RStep.{RStep};
ghost use Rattle.sap_terms.specs.Signature.{HoldsBuiltins, Sig};

use sap_lines::{
    limit_excludes, lines_are_steps, lines_have_one_answer, lines_have_some_answer,
    names_stand_in_runs, runs_match_exactly,
};
use sap_locks::annotations_are_ready;
use sap_restrict::restrictions_say_sentences;
use sap_rewrite::{
    each_term_has_a_normal_form, equality_is_kept, matching_is_modulo, normal_forms_are_unique,
    normal_forms_decide,
};
use sap_terms::leaves_are_normal;
use sap_translate::{
    process_steps_are_answered, rule_steps_are_followed, rules_are_found_by_name, rules_leave_open,
    rules_show_the_process, terms_stand_under_choices,
};

/// A law: the rules start by `Init`, and from there on each line of a process that is possible within the limit on terms is
/// answered, where the process is the annotation of one that is ready and has fewer than 2^64 places, over a signature that holds
/// what its builtins declare: by lines of rules that are possible within the limit, whose names and numbers tables tell. Behind
/// them both sides are linked again.
pub fn lines_are_answered()
    ensures starts { (g : Sig) (p q : Proc) → IsReady g p → node_count p < 2 ^ 64 → IsAnnotation p q
        → StartsLinked g q }
    ensures lines { (g : Sig) (p q : Proc) → HoldsBuiltins g → IsReady g p → node_count p < 2 ^ 64
        → IsAnnotation p q → LinesAreAnswered g q }
{
    process_steps_are_answered();
    rule_steps_are_followed();
    rules_show_the_process();
    rules_are_found_by_name();
    rules_leave_open();
    terms_stand_under_choices();
    annotations_are_ready();
    each_term_has_a_normal_form();
    normal_forms_are_unique();
    normal_forms_decide();
    equality_is_kept();
    matching_is_modulo();
    leaves_are_normal();
}

/// A law: each written run of a process that is legal within the limit on terms has lines of its rules opposite, where the
/// process is the annotation of one that is ready and has fewer than 2^64 places, over a signature that holds what its builtins
/// declare. They are legal within the limit, and their full trace is admitted; they show the same, have the same marks, and leave the
/// adversary with the same entries. None stand opposite to none; elsewhere the first is `Init`, and behind it stand those for
/// each line in turn, exactly as many as are counted. Locks and tags get the least names that no line of the process draws, in
/// ascending order, and what a line draws stays its own.
pub fn legal_runs_have_lines_opposite()
    ensures { (g : Sig) (p q : Proc) → HoldsBuiltins g → IsReady g p → node_count p < 2 ^ 64 → IsAnnotation p q
        → HasOppositeRuleRuns g q }
{
    lines_are_answered();
    process_steps_are_answered();
    annotations_are_ready();
    lines_are_steps();
    runs_match_exactly();
    limit_excludes();
    names_stand_in_runs();
    restrictions_say_sentences();
}

/// A law: each written run of a process is legal within the limit on terms, and then it has one trace, or one line of it is the
/// first that is refused, for one cause that isn't want of memory, and not both; where the process is the annotation of one that
/// is ready.
pub fn process_runs_have_one_answer()
    ensures some { (g : Sig) (p q : Proc) → HoldsBuiltins g → IsReady g p → IsAnnotation p q → EachIsLegalOrRefused g q }
    ensures apart { (g : Sig) (p q : Proc) → HoldsBuiltins g → IsReady g p → IsAnnotation p q
        → LegalIsNotRefused g q }
    ensures trace { (g : Sig) (p q : Proc) → HoldsBuiltins g → IsReady g p → IsAnnotation p q → HasOneTrace g q }
    ensures first { (g : Sig) (p q : Proc) → HoldsBuiltins g → IsReady g p → IsAnnotation p q → HasOneFirst g q }
{
    annotations_are_ready();
    limit_excludes();
    lines_have_one_answer();
    lines_have_some_answer();
    runs_match_exactly();
}

/// A law: where lines of rules stand in turn, the names of which they have Fr made, without those that a line of the process
/// draws, are the least that none draws, in ascending order.
pub fn names_are_least()
    ensures { (lines : List PStep) (rule_lines : List RStep) → RuleLinesStandInTurn lines rule_lines
        → AreLeast (names_drawn lines) (not_drawn (names_drawn lines) (names_made rule_lines)) }
{}

/// A law: small runs tried by hand. Where a lock is taken before the name 0 is made, the lock has the name 1 and the new name is 0,
/// and it can't be otherwise; the lines of two threads don't change places; and Fr isn't made for a lock ahead of the lines of the
/// line before it.
pub fn turns_by_hand()
    ensures right { RuleLinesStandInTurn lock_and_new (with_names 1 0) }
    ensures no_other { (n m : ℕ) → RuleLinesStandInTurn lock_and_new (with_names n m) → (n ≡ 1) × (m ≡ 0) }
    ensures in_order { (n m : ℕ) → ¬ RuleLinesStandInTurn lock_then_new (new_then_lock n m) }
    ensures in_time { (n : ℕ) → ¬ RuleLinesStandInTurn test_then_lock (made_early n) }
{}
