//! Laws of runs of rules and of the process, as contracts of functions that only call the laws below.
ghost use Rattle.std.specs.Prelude.{All, ℕ, List, [], ◌∷◌, Some, None, codes, slice_get, ◌<◌, ◌^◌, ◌≡◌, ◌↔◌};
ghost use Rattle.sap_back.specs.Along.{BeginsAlong};
ghost use Rattle.sap_back.specs.Followed.{BeginsTabled, EndsTabled, LinesAreFollowed};
ghost use Rattle.sap_back.specs.Converted.{IsConvertedToProcess};
ghost use Rattle.sap_back.specs.LineExamples.{copied_lines, copied_rule_lines, copied_shown, embedded_lines, embedded_rule_lines, embedded_rules, embedded_shown, given_lines, given_rule_lines, given_shown, learned_lines, learned_rule_lines, learned_shown, sending_shown, waiting_shown};
ghost use Rattle.sap_back.specs.LinesFor.{pending_lines, uses, AreProcessLinesFor, AreProcessLinesForAll, ProcessLinesStandInTurn};
ghost use Rattle.sap_back.specs.NamedIn.{IsNamedIn};
ghost use Rattle.sap_back.specs.Opposite.{HasOppositeProcessRuns};
ghost use Rattle.sap_back.specs.Steps.{steps_in_turn};
ghost use Rattle.sap_opposite.specs.StepExamples.{sending_lines, sending_rule_lines, waiting_lines, waiting_rule_lines};
ghost use Rattle.sap_opposite.specs.Steps.{opposite_steps};
ghost use Rattle.sap_locks.specs.Annotation.{IsAnnotation};
ghost use Rattle.sap_process.specs.Proc.{Proc, node_count};
ghost use Rattle.sap_process.specs.Ready.{IsReady};
ghost use Rattle.sap_read.specs.Files.{FileContent, IsRunnable};
ghost use Rattle.sap_process_lines.specs.Tables.{ProcessTables};
ghost use Rattle.sap_rule.specs.WellMade.{IsWellMade};
ghost use Rattle.sap_rule.specs.declared.rule.Rule.{Rule};
ghost use Rattle.sap_runs.specs.declared.process_step.PStep.{PStep};
ghost use Rattle.sap_runs.specs.declared.process_step.PStep.TheVariants as line;
ghost use Rattle.sap_runs.specs.declared.rule_step.RStep.{RStep};
ghost use Rattle.sap_runs.specs.declared.rule_step.RStep.TheVariants.{Public as PublicLine, Apply as ApplyLine, Know as KnowLine};
ghost use Rattle.sap_terms.specs.Trace.{Trace};
ghost use Rattle.sap_terms.specs.declared.fact.Fact.{Fact};
ghost use Rattle.sap_terms.specs.Equations.{pair_name};
ghost use Rattle.sap_terms.specs.Signature.{HoldsBuiltins, Sig, arity_of};
ghost use Rattle.sap_back.specs.Answers.{HaveOneAnswer};
ghost use Rattle.sap_templates.specs.Templates.{rules_of};
ghost use Rattle.sap_back.specs.code.Replayed.{ShowOneReserved};

use sap_locks::annotations_are_ready;
use sap_restrict::{one_restriction_breaks, restrictions_say_sentences};
use sap_rewrite::{each_term_has_a_normal_form, normal_forms_are_unique, normal_forms_decide};
use sap_rule::runs_reach_messages;
use sap_steps::{
    lines_are_steps, lines_have_one_answer, lines_have_one_outcome, lines_have_some_answer,
};
use sap_terms::leaves_are_normal;
use sap_translate::{
    rule_steps_are_followed, rules_are_found_by_name, rules_are_well_made, rules_leave_open,
    rules_show_the_process, sound_processes_are_shown, terms_stand_under_choices,
};

/// A law: before the first line of rules no line of the process goes along, and from there on each line of the rules that is
/// possible within the limit on terms, and behind which the full trace is admitted, is followed, where the process is the annotation
/// of one that is ready and has fewer than 2^64 places, over a signature that holds what its builtins declare: by the lines of
/// the process that `IsWrittenAsProcess` tells from it and from tables, which say what the facts and the entries of the rules are in the
/// process. There are tables before the first line, and `IsWrittenAsProcess` tells those behind each. A K event is left pending until an
/// input takes it, or another, an event or the end has it written; at the end it is.
pub fn lines_are_followed()
    ensures begins { (g : Sig) (p q : Proc) → HoldsBuiltins g → IsReady g p → node_count p < 2 ^ 64 → IsAnnotation p q
        → BeginsAlong g q }
    ensures tabled { (p : Proc) → BeginsTabled p }
    ensures lines { (g : Sig) (p q : Proc) → HoldsBuiltins g → IsReady g p → node_count p < 2 ^ 64 → IsAnnotation p q
        → LinesAreFollowed g q }
    ensures ends { (g : Sig) (p q : Proc) → HoldsBuiltins g → IsReady g p → node_count p < 2 ^ 64 → IsAnnotation p q
        → EndsTabled g q }
{
    rule_steps_are_followed();
    rules_show_the_process();
    sound_processes_are_shown();
    rules_are_found_by_name();
    rules_leave_open();
    terms_stand_under_choices();
    annotations_are_ready();
    lines_are_steps();
    restrictions_say_sentences();
    each_term_has_a_normal_form();
    normal_forms_are_unique();
    normal_forms_decide();
    leaves_are_normal();
}

// A law: the rules of a file's process can be run, and of what a line of them shows one fact has a reserved name, or none.
pub(crate) fn files_are_replayed()
    ensures made { (f : FileContent) → IsRunnable f → All (IsWellMade f.signature) (rules_of f.process) }
    ensures shown { (f : FileContent) → IsRunnable f → ShowOneReserved f.signature (rules_of f.process) }
    ensures small { (f : FileContent) → (r : IsRunnable f) → node_count r.process < 2 ^ 64 }
{
    rules_are_well_made();
    rules_show_the_process();
    rules_are_found_by_name();
}

/// A law: each run of the rules of a process that is legal within the limit on terms, and whose full trace is admitted, has lines of
/// the process opposite, where the process is the annotation of one that is ready and has fewer than 2^64 places, over a
/// signature that holds what its builtins declare. They are legal within the limit, show what is seen of the full trace, have its
/// marks, and leave the adversary with all that it knows there; there are no more of them.
pub fn legal_runs_have_runs_opposite()
    ensures { (g : Sig) (p q : Proc) → HoldsBuiltins g → IsReady g p → node_count p < 2 ^ 64 → IsAnnotation p q
        → HasOppositeProcessRuns g q }
{
    rule_steps_are_followed();
    rules_show_the_process();
    sound_processes_are_shown();
    rules_are_found_by_name();
    rules_leave_open();
    terms_stand_under_choices();
    annotations_are_ready();
    lines_are_steps();
    restrictions_say_sentences();
    each_term_has_a_normal_form();
    normal_forms_are_unique();
    normal_forms_decide();
    leaves_are_normal();
}

/// A law: of the lines of a run of the rules of a process one answer is right, where the process is the annotation of one that is
/// ready and has fewer than 2^64 places, over a signature that holds pairs and what its builtins declare: they count, with one
/// state and one full trace; or one of them is the first that is refused, for one cause that isn't want of memory; or one of them
/// is the first behind which a restriction is false, and that is one restriction.
pub fn rule_runs_have_one_answer()
    ensures { (g : Sig) (p q : Proc) (rule_lines : List RStep) → arity_of g pair_name ≡ Some 2 → HoldsBuiltins g → IsReady g p
        → node_count p < 2 ^ 64 → IsAnnotation p q → HaveOneAnswer g q rule_lines }
{
    rules_are_well_made();
    lines_are_steps();
    lines_have_one_answer();
    lines_have_one_outcome();
    lines_have_some_answer();
    runs_reach_messages();
    restrictions_say_sentences();
    one_restriction_breaks();
    rules_show_the_process();
    rules_are_found_by_name();
}

/// A law: what lines name that stand in turn stands in the lines of rules: the public name that a line writes down, the symbol that
/// one applies, the bindings of an embedded rule.
pub fn names_stand_in_lines()
    ensures { (rules : List Rule) (rule_lines : List RStep) (full : Trace) (lines : List PStep)
        → ProcessLinesStandInTurn rules rule_lines full lines → All (IsNamedIn rule_lines) lines }
{}

/// A law: lines of rules are converted to at most one run of the process. Of any rules and any full trace at most one list of lines
/// stands in turn; so a run of rules has at most one that it is converted to, where the process is the annotation of one that is ready
/// and has fewer than 2^64 places, over a signature that holds pairs and what its builtins declare.
pub fn one_converted_run()
    ensures in_turn { (rules : List Rule) (rule_lines : List RStep) (full : Trace) (lines others : List PStep)
        → ProcessLinesStandInTurn rules rule_lines full lines
        → ProcessLinesStandInTurn rules rule_lines full others → lines ≡ others }
    ensures run { (g : Sig) (p q : Proc) (rule_lines : List RStep) (lines others : List PStep)
        → arity_of g pair_name ≡ Some 2 → HoldsBuiltins g → IsReady g p → node_count p < 2 ^ 64 → IsAnnotation p q
        → IsConvertedToProcess g q rule_lines lines → IsConvertedToProcess g q rule_lines others → lines ≡ others }
{
    rule_runs_have_one_answer();
}

/// A law: lines tried by hand. For `pub 'a'` alone stands the line that writes down `a`, and no other, so no name with a quote and a
/// line feed in it; for `pub 'a'` and `pub 'b'` stand the two in this order; for `app f 0` one that applies `f`, to the entry that entry
/// 0 is. What is given isn't shown at once, but where the next is given, unless an input takes it, which takes nothing where nothing is
/// pending.
pub fn turns_by_hand()
    ensures alone { (rules : List Rule) (tables : ProcessTables) (acts : List Fact) (lines : List PStep)
        (last : ProcessTables)
        → AreProcessLinesForAll rules tables (PublicLine (codes "a") ∷ []) (acts ∷ []) lines last
        → lines ≡ line.Public (codes "a") ∷ [] }
    ensures in_order { (rules : List Rule) (tables : ProcessTables) (acts others : List Fact) (lines : List PStep)
        (last : ProcessTables)
        → AreProcessLinesForAll rules tables (PublicLine (codes "a") ∷ PublicLine (codes "b") ∷ []) (acts ∷ others ∷ []) lines last
        → lines ≡ line.Public (codes "a") ∷ line.Public (codes "b") ∷ [] }
    ensures symbol { (tables next : ProcessTables) (count e : ℕ) (acts : List Fact) (lines : List PStep)
        → slice_get tables.entries 0 ≡ Some e
        → AreProcessLinesFor tables count (ApplyLine (codes "f") (0 ∷ [])) acts lines next
        → lines ≡ line.Apply (codes "f") (e ∷ []) ∷ [] }
    ensures waits { (rules : List Rule) (tables : ProcessTables) (acts others : List Fact) (lines : List PStep)
        (last : ProcessTables) → tables.pending ≡ None
        → AreProcessLinesForAll rules tables (KnowLine 0 ∷ PublicLine (codes "a") ∷ []) (acts ∷ others ∷ []) lines last
        → (lines ≡ line.Public (codes "a") ∷ []) × (last.pending ≡ slice_get tables.entries 0) }
    ensures shown_next { (rules : List Rule) (tables : ProcessTables) (acts others : List Fact) (lines : List PStep)
        (last : ProcessTables) → tables.pending ≡ None
        → AreProcessLinesForAll rules tables (KnowLine 0 ∷ KnowLine 1 ∷ []) (acts ∷ others ∷ []) lines last
        → (lines ≡ pending_lines (slice_get tables.entries 0)) × (last.pending ≡ slice_get tables.entries 1) }
    ensures taken { (rules : List Rule) (tables : ProcessTables) (acts others : List Fact) (lines : List PStep)
        (last : ProcessTables) → tables.pending ≡ None
        → AreProcessLinesForAll rules tables (KnowLine 0 ∷ uses (codes "In_") [] (0 ∷ 1 ∷ []) [] ∷ []) (acts ∷ others ∷ []) lines last
        → (t e : ℕ) × (slice_get tables.entries 0 ≡ Some e) × (lines ≡ line.In t e ∷ []) × (last.pending ≡ None) }
    ensures not_taken { (rules : List Rule) (tables : ProcessTables) (acts : List Fact) (lines : List PStep)
        (last : ProcessTables) → tables.pending ≡ None
        → AreProcessLinesForAll rules tables (uses (codes "In_") [] (0 ∷ 1 ∷ []) [] ∷ []) (acts ∷ []) lines last → ⊥ }
{}

/// A law: small runs tried by hand, each of which has these lines and no others. Eight lines with where their `know` stands; of two
/// copies that are the same, the one whose fact is cited shows the event; of two entries that are the same, a symbol is applied to the
/// one that is cited, and what was put out before them and learned behind has its number there; of two facts that are the same, a rule
/// takes the one that is cited.
pub fn numbers_by_hand()
    ensures given { (rules : List Rule) (lines : List PStep)
        → ProcessLinesStandInTurn rules given_rule_lines given_shown lines ↔ (lines ≡ given_lines) }
    ensures copied { (rules : List Rule) (lines : List PStep)
        → ProcessLinesStandInTurn rules copied_rule_lines copied_shown lines ↔ (lines ≡ copied_lines) }
    ensures learned { (rules : List Rule) (lines : List PStep)
        → ProcessLinesStandInTurn rules learned_rule_lines learned_shown lines ↔ (lines ≡ learned_lines) }
    ensures embedded { (lines : List PStep)
        → ProcessLinesStandInTurn embedded_rules embedded_rule_lines embedded_shown lines ↔ (lines ≡ embedded_lines) }
{}

/// A law: where lines of the process stand in turn, each is opposite to the line of rules that it was written for, and a `know` to the one
/// that gave its entry, as `opposite_steps` counts them from what is written alone.
pub fn steps_are_counted()
    ensures { (rules : List Rule) (rule_lines : List RStep) (full : Trace) (lines : List PStep)
        → (turns : ProcessLinesStandInTurn rules rule_lines full lines)
        → opposite_steps rule_lines lines ≡ steps_in_turn turns }
{}

/// A law: the runs by which `opposite_steps` is tried by hand have these lines, and no others.
pub fn counted_runs_by_hand()
    ensures waiting { (rules : List Rule) (lines : List PStep)
        → ProcessLinesStandInTurn rules waiting_rule_lines waiting_shown lines ↔ (lines ≡ waiting_lines) }
    ensures sending { (rules : List Rule) (lines : List PStep)
        → ProcessLinesStandInTurn rules sending_rule_lines sending_shown lines ↔ (lines ≡ sending_lines) }
{}
