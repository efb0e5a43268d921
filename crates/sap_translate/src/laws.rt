//! Laws of the rules of a process, as contracts of functions that only call the laws below.
ghost use Rattle.std.specs.List.{flat_map};
ghost use Rattle.std.specs.Prelude.{[], All, Contains, List, Some, ◌<◌, ◌^◌, ◌≡◌, ◌∷◌, ◌↔◌, ℕ};
ghost use Rattle.sap_locks.specs.Annotation.{IsAnnotation};
ghost use Rattle.sap_process.specs.Places.{places};
ghost use Rattle.sap_process.specs.Proc.{Proc, node_count};
ghost use Rattle.sap_process.specs.Ready.{IsReady};
ghost use Rattle.sap_restrict.specs.ReservedFacts.{init_fact};
ghost use Rattle.sap_restrict.specs.Restrictions.{needed_restrictions};
ghost use Rattle.sap_restrict.specs.Standard.{IsAdmitted};
ghost use Rattle.sap_rule.specs.Named.{HaveNamesOfTheirOwn};
ghost use Rattle.sap_rule.specs.RuleSteps.{IsFullTrace};
ghost use Rattle.sap_rule.specs.WellMade.{IsWellMade};
ghost use Rattle.sap_rule.specs.declared.rule.Rule.{Rule};
ghost use Rattle.sap_terms.specs.Equations.{pair_name};
ghost use Rattle.sap_terms.specs.Message.{IsMessageTrace};
ghost use Rattle.sap_terms.specs.Signature.{HoldsBuiltins, Sig, arity_of};
ghost use Rattle.sap_terms.specs.Trace.{Trace};
ghost use Rattle.sap_terms.specs.declared.var.Var.{Var};
ghost use Rattle.sap_translate.specs.Faithful.{AreRestrictionsTrue, ShowsAll, ShowsOnly};
ghost use Rattle.sap_translate.specs.OpenLocks.{UnlocksAreOpen};
ghost use Rattle.sap_templates.specs.Places.{ScopedPlace, scope_handed_down};
ghost use Rattle.sap_translate.specs.Settled.{HasPlainLookups, HasSmallLabels};
ghost use Rattle.sap_translate.specs.Sound.{IsSound, SoundParts};
ghost use Rattle.sap_templates.specs.Templates.{init_rule, own_rules, rules_of};
ghost use Rattle.sap_translate.specs.relation.Spelled.{IsProcessOver};

use sap_process::instances_of_processes;
use sap_restrict::restrictions_say_sentences;
use sap_rewrite::{
    each_term_has_a_normal_form, equality_is_kept, forms_are_messages, normal_forms_are_unique,
};
use sap_terms::leaves_are_normal;

/// A law: the visible traces of the admitted runs of the rules of a process are exactly the traces of the process, where it
/// is the annotation of one that is ready: over all finite runs of either side, all sixteen forms, the adversary and the
/// equations of the signature included. Admitted is a run on whose full trace all seven restrictions are true. The bound is
/// there for the variables of locks: names by number are known to differ below it.
pub fn rules_show_the_process()
    ensures sound { (g : Sig) (p q : Proc) → IsReady g p → node_count p < 2 ^ 64 → IsAnnotation p q → IsSound g q }
    ensures all { (g : Sig) (p q : Proc) → HoldsBuiltins g → IsReady g p → node_count p < 2 ^ 64 → IsAnnotation p q
        → ShowsAll g q (rules_of q) }
    ensures only { (g : Sig) (p q : Proc) → HoldsBuiltins g → IsReady g p → node_count p < 2 ^ 64 → IsAnnotation p q
        → ShowsOnly g q (rules_of q) }
{
    leaves_are_normal();
    each_term_has_a_normal_form();
    normal_forms_are_unique();
    equality_is_kept();
    forms_are_messages();
    instances_of_processes();
    restrictions_say_sentences();
}

/// A law: what the rules of a process show is what the process shows wherever it is sound and over the signature, as it is where
/// it is the annotation of one that is ready; soundness is seen place by place. Each full trace of the rules is one of messages,
/// on which all seven restrictions are true exactly where those that the process needs are; and each process starts.
pub fn sound_processes_are_shown()
    ensures parts { (g : Sig) (p : Proc) → SoundParts g [] p → UnlocksAreOpen [] p → IsSound g p }
    ensures over { (g : Sig) (p q : Proc) → IsReady g p → IsAnnotation p q → IsProcessOver g q }
    ensures all { (g : Sig) (p : Proc) → HoldsBuiltins g → IsSound g p → IsProcessOver g p → ShowsAll g p (rules_of p) }
    ensures only { (g : Sig) (p : Proc) → HoldsBuiltins g → IsSound g p → IsProcessOver g p → ShowsOnly g p (rules_of p) }
    ensures messages { (g : Sig) (p : Proc) (full : Trace) → HoldsBuiltins g → IsProcessOver g p
        → IsFullTrace g (rules_of p) full → IsMessageTrace g full }
    ensures needed { (g : Sig) (p : Proc) (full : Trace) → IsProcessOver g p → IsFullTrace g (rules_of p) full
        → AreRestrictionsTrue g (needed_restrictions p) full ↔ IsAdmitted g full }
    ensures starts { (g : Sig) (p : Proc) → IsFullTrace g (rules_of p) ((init_fact ∷ []) ∷ []) }
{
    leaves_are_normal();
    each_term_has_a_normal_form();
    normal_forms_are_unique();
    equality_is_kept();
    forms_are_messages();
    instances_of_processes();
    restrictions_say_sentences();
}

/// A law: in the annotation of a process that is ready each label is a number of the machine, and each lookup binds a plain
/// variable.
pub fn annotations_are_settled()
    ensures labels { (p q : Proc) → node_count p < 2 ^ 64 → IsAnnotation p q → HasSmallLabels q }
    ensures lookups { (g : Sig) (p q : Proc) → IsReady g p → IsAnnotation p q → HasPlainLookups q }
{}

/// A law: the rules of a process are the rule that starts it and, in preorder, those of its places, each with the variables that
/// are in scope there.
pub fn rules_go_by_places()
    ensures rules { (p : Proc) → rules_of p
        ≡ init_rule ∷ flat_map (λ (a : ScopedPlace). own_rules a.path a.above a.body) (places scope_handed_down [] p) }
{}

/// A law: rules of one name are of one place.
pub fn rules_name_their_places()
    ensures { (path other : List ℕ) (v w : List Var) (p q : Proc) (r s : Rule) → Contains (own_rules path v p) r
        → Contains (own_rules other w q) s → r.name ≡ s.name → path ≡ other }
{}

/// A law: on the full trace of a run of the rules all seven restrictions are true exactly where those that the process needs
/// are.
pub fn needed_restrictions_suffice()
    ensures { (g : Sig) (p q : Proc) (full : Trace) → IsReady g p → IsAnnotation p q → IsFullTrace g (rules_of q) full
        → AreRestrictionsTrue g (needed_restrictions q) full ↔ IsAdmitted g full }
{
    leaves_are_normal();
    each_term_has_a_normal_form();
    normal_forms_are_unique();
    equality_is_kept();
    forms_are_messages();
    instances_of_processes();
    restrictions_say_sentences();
}

/// A law: the rules of a process that is the annotation of one that is ready can be run, over a signature that holds pairs:
/// each is over the signature, each of its facts stands where it may, and no name of a variable stands in it with two sorts.
/// No two rules of a process have one name.
pub fn rules_are_well_made()
    ensures made { (g : Sig) (p q : Proc) → arity_of g pair_name ≡ Some 2 → IsReady g p → node_count p < 2 ^ 64 → IsAnnotation p q
        → All (IsWellMade g) (rules_of q) }
    ensures names { (p : Proc) → HaveNamesOfTheirOwn (rules_of p) }
{}
