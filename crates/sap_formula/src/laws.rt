// Laws of checked formulas and worked examples of truth, as contracts of functions that do nothing.
ghost use Rattle.std.specs.Prelude.{[], ◌∷◌, ◌≡◌, true, false, codes};
ghost use Rattle.sap_terms.specs.Signature.{Sig, pairs_alone};
ghost use Rattle.sap_terms.specs.Trace.{Trace};
ghost use Rattle.sap_formula.specs.Truth.{EachIn, IsTrueOn};
ghost use Rattle.sap_formula.specs.HoldsOf.{HoldsOf};
ghost use Rattle.sap_formula.specs.Examples.{a, b, x, fresh_x, public_x, fact, other_fact, trace_a, trace_aa, trace_ab, IsEither, only_a, some_time, two_times, some_b, two_binders, first_of_pair, first_is, one_time_alone, true_ones, false_ones};
ghost use Rattle.sap_formula.specs.CheckExamples.{IsTold, bad_functions, destructors, reserved_names, unbound, unguarded, places, two_functions, two_unbound, two_unguarded, function_before, destructor_before, reserved_before, unbound_before, faultless, sdec_declared, with_symmetric, decrypted, sorted_ones};
ghost use Rattle.sap_formula.specs.Faults.{HasNoFault, IsFirstFault};
ghost use Rattle.sap_formula.specs.Form.{negation};
ghost use Rattle.sap_formula.specs.Sorted.{with_sorts};
ghost use Rattle.sap_formula.specs.declared.fault.FormulaFlaw.TheVariants.{BadFunction, Destructor, Reserved, UnboundVar, Unguarded};
ghost use Rattle.sap_formula.specs.Laws.{SubtermLaw, HiddenBinderLaw, HideLaw, CheckLaw, CheckedArgsLaw, CheckedTermLaw, ClosedLaw, MessageFactsLaw, OneFaultLaw, NoFaultLaw, OtherBinderLaw, OwnBinderLaw, SlimClosedLaw, SlimOnceLaw, SomeFaultLaw};

use crate::Mode;
use sap_rewrite::normal_terms_decide;
use sap_terms::{destructors_head_left_sides, leaves_are_normal, names_are_messages};

/// Truth of small formulas on small traces: each connective by its table; an action atom and an equation are true up to
/// the theory, persistence isn't looked at and the number of arguments is; a time is the same as itself alone; quantifiers
/// range over terms that stand nowhere in the trace, by sort, and over the trace's times alone; the innermost binder of a
/// name counts.
pub fn truth_by_hand()
    ensures true_ones { (g : Sig) (tr : Trace) → EachIn (λ f. IsTrueOn g f tr) true_ones }
    ensures false_ones { (g : Sig) (tr : Trace) → EachIn (λ f. ¬ IsTrueOn g f tr) false_ones }
    ensures one_time { (g : Sig) → IsTrueOn g only_a trace_a }
    ensures other_time { (g : Sig) → ¬ IsTrueOn g only_a trace_ab }
    ensures up_to_theory { (g : Sig) → IsTrueOn g (some_time first_of_pair) trace_a }
    ensures equal_up_to_theory { (g : Sig) → IsTrueOn g (first_is a) [] }
    ensures equal_to_no_other { (g : Sig) → ¬ IsTrueOn g (first_is b) [] }
    ensures same_time { (g : Sig) → IsTrueOn g one_time_alone trace_ab }
    ensures another_time { (g : Sig) → ¬ IsTrueOn g one_time_alone trace_aa }
    ensures persistent { (g : Sig) → IsTrueOn g (some_time a) ((fact true (a ∷ []) ∷ []) ∷ []) }
    ensures arity { (g : Sig) → ¬ IsTrueOn g (some_time a) ((fact false (a ∷ b ∷ []) ∷ []) ∷ []) }
    ensures other_name { (g : Sig) → ¬ IsTrueOn g (some_time a) ((other_fact ∷ []) ∷ []) }
    ensures any_fact { (g : Sig) → IsTrueOn g (some_time a) ((other_fact ∷ fact false (a ∷ []) ∷ []) ∷ []) }
    ensures all_terms { (g : Sig) → IsTrueOn g (some_b x) [] }
    ensures sorts { (g : Sig) → ¬ IsTrueOn g (some_b fresh_x) [] }
    ensures public_names { (g : Sig) → IsTrueOn g (some_b public_x) [] }
    ensures innermost { (g : Sig) → IsTrueOn g two_binders trace_ab }
{
    names_are_messages();
    normal_terms_decide();
}

/// A lemma of the two traces `A('a')` and `A('a'), A('b')`: in both modes the restrictions decide of which it speaks.
pub fn lemmas_by_hand()
    ensures all_of_each { (g : Sig) → ¬ HoldsOf g IsEither [] Mode.AllTraces only_a }
    ensures all_restricted { (g : Sig) → HoldsOf g IsEither (negation two_times ∷ []) Mode.AllTraces only_a }
    ensures some_one { (g : Sig) → HoldsOf g IsEither [] Mode.ExistsTrace only_a }
    ensures some_restricted { (g : Sig) → ¬ HoldsOf g IsEither (two_times ∷ []) Mode.ExistsTrace only_a }
{
    truth_by_hand();
}

/// Faults of small formulas, and the sorts of their binders: each fault where it stands, with the name that is told, and
/// formulas near it that have none; which of two of a kind counts, and which of two kinds.
pub fn checks_by_hand()
    ensures bad_function { EachIn (IsTold BadFunction) bad_functions }
    ensures destructor { EachIn (IsTold Destructor) destructors }
    ensures reserved { EachIn (IsTold Reserved) reserved_names }
    ensures unbound { EachIn (IsTold UnboundVar) unbound }
    ensures unguarded { EachIn (IsTold Unguarded) unguarded }
    ensures everywhere { EachIn (λ f. IsTold BadFunction (f, codes "f")) places }
    ensures first_function { EachIn (IsTold BadFunction) two_functions }
    ensures first_unbound { EachIn (IsTold UnboundVar) two_unbound }
    ensures first_unguarded { EachIn (IsTold Unguarded) two_unguarded }
    ensures function_before { IsTold BadFunction (function_before, codes "f") }
    ensures destructor_before { IsTold Destructor (destructor_before, codes "fst") }
    ensures reserved_before { IsTold Reserved (reserved_before, codes "Init") }
    ensures unbound_before { IsTold UnboundVar (unbound_before, codes "y") }
    ensures none { EachIn (HasNoFault pairs_alone true) faultless }
    ensures reserved_allowed { EachIn (λ e. HasNoFault pairs_alone false e.0) reserved_names }
    ensures declared_alone { HasNoFault sdec_declared true decrypted }
    ensures with_its_equation { IsFirstFault with_symmetric true decrypted Destructor (codes "sdec") }
    ensures sorts { EachIn (λ e. with_sorts [] e.0 ≡ e.1) sorted_ones }
{}

/// The truth of a checked formula on a trace of messages stays the same where message variables range over the subterms
/// of the trace's facts alone, and where binders that later ones of their quantifier hide are left out.
pub fn variables_range_over_subterms()
    ensures subterms { SubtermLaw }
    ensures binders { HiddenBinderLaw }
{
    normal_terms_decide();
    leaves_are_normal();
    destructors_head_left_sides();
}

/// It stays the same where a trace is hidden of which the formula doesn't speak.
pub fn hiding_keeps_truth()
    ensures { HideLaw }
{
    normal_terms_decide();
    leaves_are_normal();
    destructors_head_left_sides();
}

/// A formula without a fault is a checked formula, once its message variables have the sorts of their binders; a checked
/// formula is closed.
pub fn faultless_formulas_are_checked()
    ensures checked { CheckLaw }
    ensures closed { ClosedLaw }
{}

/// A checked term is normal where its variables stand for normal terms, so that theory-equal is then the same; and what a trace of
/// messages shows has messages.
pub fn checked_terms_are_normal()
    ensures terms { CheckedTermLaw }
    ensures args { CheckedArgsLaw }
    ensures facts { MessageFactsLaw }
{
    normal_terms_decide();
    leaves_are_normal();
    destructors_head_left_sides();
}

/// Inside a quantifier that binds no name twice each of its binders is found, and for other names what is found outside; and each
/// closed formula has a closed one that binds no name twice in one quantifier.
pub fn binders_are_found()
    ensures own { OwnBinderLaw }
    ensures other { OtherBinderLaw }
    ensures closed { SlimClosedLaw }
    ensures once { SlimOnceLaw }
{}

/// Of a formula with a fault one fault counts, with one name.
pub fn one_fault()
    ensures fault { OneFaultLaw }
    ensures none { NoFaultLaw }
{}

/// A formula has no fault, or one that counts.
pub fn some_fault()
    ensures { SomeFaultLaw }
{}
