//! What holds of the seven restrictions, as contracts of functions that do nothing.
ghost use Rattle.std.specs.Prelude.{◌≡◌, ℕ, [], ◌∷◌};
ghost use Rattle.sap_process.specs.Action.{input, lock, out, receive, send, unlock};
ghost use Rattle.sap_process.specs.Proc.{act, lookup, nil, parallel, replicated, test};
ghost use Rattle.sap_formula.specs.Examples.{a, b, x};
ghost use Rattle.sap_formula.specs.Truth.{IsTrueOn};
ghost use Rattle.sap_terms.specs.Signature.{Sig};
ghost use Rattle.sap_shapes.specs.Formulas.{one_start, each_equal, each_unequal, each_found, each_missed, each_lock, each_served};
ghost use Rattle.sap_restrict.specs.Examples.{started, started_twice, same_found_equal, different_found_equal, different_found_different, same_found_different, stored_found, deleted_found, replaced_found, found_before, deleted_missed, stored_missed, other_missed, locked_again, locked_while_held, known_input, unknown_input, input_twice, input_after_event, input_not_last};
ghost use Rattle.sap_restrict.specs.Needed.{needed};
ghost use Rattle.sap_restrict.specs.declared.which.Which.TheVariants as which;
ghost use Rattle.sap_restrict.specs.OneMore.{OneMoreLaw};
ghost use Rattle.sap_restrict.specs.Laws.{MeaningLaw, PrefixLaw, QuietLaw, NeededLaw, NeedsLaw, EnoughLaw, AdmittedLaw};

use sap_rewrite::normal_terms_decide;
use sap_terms::names_are_messages;

/// A law: on a trace of messages each formula is true exactly where its sentence holds, so that the trace is admitted exactly
/// where it meets all seven, if facts with reserved names are linear. What is true of such a trace is true of each of its
/// prefixes. A formula of which the trace doesn't show the first fact is true, so the restrictions that a process doesn't need
/// may be left out where the trace doesn't show theirs.
pub fn restrictions_say_sentences()
    ensures meaning { MeaningLaw }
    ensures prefix { PrefixLaw }
    ensures quiet { QuietLaw }
    ensures needed { NeededLaw }
    ensures needs { NeedsLaw }
    ensures enough { EnoughLaw }
    ensures admitted { AdmittedLaw }
{
    normal_terms_decide();
}

/// A law: behind a trace of messages on which all seven formulas are true, one time more leaves them true, or makes one of them false
/// and no other, where each time has one fact with a reserved name or none.
pub fn one_restriction_breaks()
    ensures { OneMoreLaw }
{
    normal_terms_decide();
}

/// A law: the seven formulas on small traces, by hand: each on one where it is true, and on one where it is false. What was stored
/// is found until it is deleted or replaced, and not before; where it is deleted or the key is another, nothing is found. A term
/// that is held under a name is locked again only once the unlock of that name came. What the adversary knows serves one input
/// alone, the next, of what it was last shown to know, with no event between.
pub fn restrictions_by_hand()
    ensures started { (g : Sig) → IsTrueOn g one_start started }
    ensures started_twice { (g : Sig) → ¬ IsTrueOn g one_start started_twice }
    ensures equal { (g : Sig) → IsTrueOn g each_equal same_found_equal }
    ensures not_equal { (g : Sig) → ¬ IsTrueOn g each_equal different_found_equal }
    ensures different { (g : Sig) → IsTrueOn g each_unequal different_found_different }
    ensures not_different { (g : Sig) → ¬ IsTrueOn g each_unequal same_found_different }
    ensures stored { (g : Sig) → IsTrueOn g each_found stored_found }
    ensures deleted { (g : Sig) → ¬ IsTrueOn g each_found deleted_found }
    ensures replaced { (g : Sig) → ¬ IsTrueOn g each_found replaced_found }
    ensures stored_later { (g : Sig) → ¬ IsTrueOn g each_found found_before }
    ensures missed { (g : Sig) → IsTrueOn g each_missed deleted_missed }
    ensures other_key { (g : Sig) → IsTrueOn g each_missed other_missed }
    ensures still_stored { (g : Sig) → ¬ IsTrueOn g each_missed stored_missed }
    ensures unlocked { (g : Sig) → IsTrueOn g each_lock locked_again }
    ensures other_lock { (g : Sig) → ¬ IsTrueOn g each_lock locked_while_held }
    ensures known { (g : Sig) → IsTrueOn g each_served known_input }
    ensures unknown { (g : Sig) → ¬ IsTrueOn g each_served unknown_input }
    ensures twice { (g : Sig) → ¬ IsTrueOn g each_served input_twice }
    ensures after_event { (g : Sig) → ¬ IsTrueOn g each_served input_after_event }
    ensures not_last { (g : Sig) → ¬ IsTrueOn g each_served input_not_last }
{
    names_are_messages();
    normal_terms_decide();
}

/// A law: which restrictions small processes need. Each needs that of one start; a test two more, and a lookup; a lock one, an unlock
/// none; an input one, and so does a message that is received or sent on a channel, but no output to the adversary.
pub fn needed_by_hand()
    ensures nothing { needed nil ≡ which.Init ∷ [] }
    ensures tests { needed (replicated (test a b nil nil)) ≡ which.Init ∷ which.Eq ∷ which.NotEq ∷ [] }
    ensures lookups { needed (parallel nil (lookup a x nil nil)) ≡ which.Init ∷ which.In ∷ which.NotIn ∷ [] }
    ensures locks { (k : ℕ) → needed (act (lock a k) nil) ≡ which.Init ∷ which.Lock ∷ [] }
    ensures unlocks { (k : ℕ) → needed (act (unlock a k) nil) ≡ which.Init ∷ [] }
    ensures inputs { needed (act (input a) nil) ≡ which.Init ∷ which.InEv ∷ [] }
    ensures receives { needed (act (receive a b) nil) ≡ which.Init ∷ which.InEv ∷ [] }
    ensures sends { needed (act (send a b) nil) ≡ which.Init ∷ which.InEv ∷ [] }
    ensures outputs { needed (act (out a) nil) ≡ which.Init ∷ [] }
    ensures in_order { needed (act (input a) (test a b (lookup a x nil nil) (act (lock a 0) nil)))
        ≡ which.Init ∷ which.Eq ∷ which.NotEq ∷ which.In ∷ which.NotIn ∷ which.Lock ∷ which.InEv ∷ [] }
{}
