//! Laws of the relation between both sides, as contracts of functions that only call the laws below: how the rules answer each
//! case of a step of the process, and how the process follows each case of a step of the rules.
ghost use Rattle.std.specs.Prelude.{◌<◌, ◌^◌};
ghost use Rattle.sap_translate.specs.relation.Answered.{
  AdversaryMakes,
  Agrees,
  CopiesFirst,
  CopiesMore,
  Deduces,
  Deletes,
  Differs,
  Embeds,
  Ends,
  Every,
  Finds,
  Inputs,
  InputsOn,
  Inserts,
  Knows,
  Locks,
  MakesName,
  Meets,
  Misses,
  Outputs,
  OutputsOn,
  Shows,
  ShowsTheSame,
  Splits,
  Starts,
  Unlocks,
  WhereAtRest,
};
ghost use Rattle.sap_translate.specs.relation.Followed.{
  Begins,
  FollowsApply,
  FollowsDelete,
  FollowsElse,
  FollowsEvent,
  FollowsEvery,
  FollowsFound,
  FollowsFresh,
  FollowsGive,
  FollowsIn,
  FollowsInAdv,
  FollowsInMsg,
  FollowsInit,
  FollowsInsert,
  FollowsLearn,
  FollowsLock,
  FollowsMissing,
  FollowsNew,
  FollowsNil,
  FollowsOut,
  FollowsOutAck,
  FollowsOutAdv,
  FollowsOutMsg,
  FollowsOwn,
  FollowsParallel,
  FollowsPublic,
  FollowsRepCopy,
  FollowsRepStart,
  FollowsRule,
  FollowsThen,
  FollowsUnlock,
  TakesBack,
  WhereTogether,
};
ghost use Rattle.sap_locks.specs.Annotation.{IsAnnotation};
ghost use Rattle.sap_process.specs.Proc.{Proc, node_count};
ghost use Rattle.sap_process.specs.Ready.{IsReady};
ghost use Rattle.sap_terms.specs.Signature.{Sig};

use sap_process::instances_of_processes;
use sap_restrict::restrictions_say_sentences;
use sap_rewrite::{
    each_term_has_a_normal_form, equality_is_kept, forms_are_messages, normal_forms_are_unique,
};
use sap_terms::leaves_are_normal;

/// A law: wherever both sides rest, the rules answer each case of a step of the process by moves after which both sides rest
/// again; the start is such a place, and where both rest they show the same and the full trace is admitted. Each clause says for its
/// case, from the number of the thread and that of its state fact, which rules are used on which facts under which choice, what
/// they show, and which threads and facts there are behind. For a lock or a tag Fr may be made of any name of which it was not
/// made. What the adversary can give, the rules first come to know (`deduces`). `every` holds these together: each step is
/// answered by some moves, of which it says neither thread nor facts.
pub fn process_steps_are_answered()
    ensures starts { (g : Sig) (p q : Proc) → IsReady g p → node_count p < 2 ^ 64 → IsAnnotation p q → Starts g q }
    ensures shows_the_same { WhereAtRest ShowsTheSame }
    ensures ends { WhereAtRest Ends }
    ensures splits { WhereAtRest Splits }
    ensures copies_first { WhereAtRest CopiesFirst }
    ensures copies_more { WhereAtRest CopiesMore }
    ensures makes_name { WhereAtRest MakesName }
    ensures outputs { WhereAtRest Outputs }
    ensures outputs_on { WhereAtRest OutputsOn }
    ensures inputs { WhereAtRest Inputs }
    ensures inputs_on { WhereAtRest InputsOn }
    ensures meets { WhereAtRest Meets }
    ensures agrees { WhereAtRest Agrees }
    ensures differs { WhereAtRest Differs }
    ensures shows { WhereAtRest Shows }
    ensures inserts { WhereAtRest Inserts }
    ensures deletes { WhereAtRest Deletes }
    ensures finds { WhereAtRest Finds }
    ensures misses { WhereAtRest Misses }
    ensures locks { WhereAtRest Locks }
    ensures unlocks { WhereAtRest Unlocks }
    ensures embeds { WhereAtRest Embeds }
    ensures adversary_makes { WhereAtRest AdversaryMakes }
    ensures knows { WhereAtRest Knows }
    ensures deduces { WhereAtRest Deduces }
    ensures every { WhereAtRest Every }
{
    leaves_are_normal();
    each_term_has_a_normal_form();
    normal_forms_are_unique();
    equality_is_kept();
    forms_are_messages();
    instances_of_processes();
    restrictions_say_sentences();
}

/// A law: wherever both sides are together, the process follows each case of a step of the rules after which the full trace is admitted:
/// a use of a rule of each template, and each step of the adversary. Each clause says for its case, from the numbers of the thread
/// and of the facts and from the choice of the rule, which moves the process makes, none or more, what they show, and which threads
/// there are behind. The rules show K before its input, so a K event may be pending, which the process has not shown yet: a step
/// that shows nothing that is seen keeps it pending, an input takes it, `Event()` and another K have the process show it first.
/// So the run of the process grows step by step, as long as what an input may take is kept pending (`waits`); elsewhere, where the
/// process has shown it as its last event, it can be taken back (`takes_back`). `follows_every` holds these together, by the
/// lemmas of the second inclusion: each step whose full trace is admitted is followed from wherever both sides are together.
pub fn rule_steps_are_followed()
    ensures begins { (g : Sig) (p q : Proc) → IsReady g p → node_count p < 2 ^ 64 → IsAnnotation p q → Begins g q }
    ensures takes_back { WhereTogether TakesBack }
    ensures follows_init { WhereTogether FollowsInit }
    ensures follows_nil { WhereTogether FollowsNil }
    ensures follows_parallel { WhereTogether FollowsParallel }
    ensures follows_rep_start { WhereTogether FollowsRepStart }
    ensures follows_rep_copy { WhereTogether FollowsRepCopy }
    ensures follows_new { WhereTogether FollowsNew }
    ensures follows_out { WhereTogether FollowsOut }
    ensures follows_out_adv { WhereTogether FollowsOutAdv }
    ensures follows_out_msg { WhereTogether FollowsOutMsg }
    ensures follows_out_ack { WhereTogether FollowsOutAck }
    ensures follows_in { WhereTogether FollowsIn }
    ensures follows_in_adv { WhereTogether FollowsInAdv }
    ensures follows_in_msg { WhereTogether FollowsInMsg }
    ensures follows_then { WhereTogether FollowsThen }
    ensures follows_else { WhereTogether FollowsElse }
    ensures follows_event { WhereTogether FollowsEvent }
    ensures follows_insert { WhereTogether FollowsInsert }
    ensures follows_delete { WhereTogether FollowsDelete }
    ensures follows_found { WhereTogether FollowsFound }
    ensures follows_missing { WhereTogether FollowsMissing }
    ensures follows_lock { WhereTogether FollowsLock }
    ensures follows_unlock { WhereTogether FollowsUnlock }
    ensures follows_rule { WhereTogether FollowsRule }
    ensures follows_fresh { WhereTogether FollowsFresh }
    ensures follows_learn { WhereTogether FollowsLearn }
    ensures follows_own { WhereTogether FollowsOwn }
    ensures follows_public { WhereTogether FollowsPublic }
    ensures follows_apply { WhereTogether FollowsApply }
    ensures follows_give { WhereTogether FollowsGive }
    ensures follows_every { WhereTogether FollowsEvery }
{
    leaves_are_normal();
    each_term_has_a_normal_form();
    normal_forms_are_unique();
    equality_is_kept();
    forms_are_messages();
    instances_of_processes();
    restrictions_say_sentences();
}
