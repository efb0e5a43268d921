// Laws of verdicts, as contracts of functions that do nothing.
ghost use Rattle.std.specs.Prelude.{[], ◌≡◌, ◌^◌, ◌-◌};
ghost use Rattle.sap_formula.specs.Cost.{form_cost};
ghost use Rattle.sap_formula.specs.Form.{both, truth, negation};
ghost use Rattle.sap_formula.specs.Hide.{hide};
ghost use Rattle.sap_formula.specs.Truth.{EachIn};
ghost use Rattle.sap_judge.specs.JudgeExamples.{two_and_three, costs, many_times, at_limit, far_beyond, hidden_ones};
ghost use Rattle.sap_judge.specs.Laws.{OneVerdictLaw, SomeVerdictLaw, DecidedLaw, OneReasonLaw, ReasonsSuit, SomeReasonLaw};
ghost use Rattle.sap_judge.specs.ReasonExamples.{leak, no_reasons, reasons};
ghost use Rattle.sap_judge.specs.Reasons.{IsReason};
ghost use Rattle.sap_judge.specs.Verdict.{IsVerdict};
ghost use Rattle.sap_judge.specs.code.Answer.{PlanLaw};
ghost use Rattle.sap_judge.specs.code.Claiming.{ClaimLaw};
ghost use Rattle.sap_judge.specs.declared.verdict.Verdict.TheVariants.{Holds, Fails, TooCostly};
ghost use Rattle.sap_terms.specs.Signature.{Sig};

use sap_formula::{binders_are_found, checked_terms_are_normal, variables_range_over_subterms};
use sap_rewrite::normal_terms_decide;
use sap_terms::leaves_are_normal;

/// What judging small formulas costs, verdicts at the limit and beyond it, and what hiding leaves of small traces.
pub fn judging_by_hand()
    ensures costs { EachIn (λ e. form_cost two_and_three e.0 ≡ e.1) costs }
    ensures nothing_shown { form_cost [] at_limit ≡ 0 }
    ensures at_limit { (g : Sig) → IsVerdict g at_limit (many_times 10) Holds }
    ensures not_at_limit { (g : Sig) → IsVerdict g (negation at_limit) (many_times 10) Fails }
    ensures above_limit { (g : Sig) → IsVerdict g (both at_limit truth) (many_times 10) (TooCostly 10000001) }
    ensures far_above { (g : Sig) → IsVerdict g far_beyond (many_times 10) (TooCostly (2 ^ 64 - 1)) }
    ensures hidden { EachIn (λ e. hide e.0 ≡ e.1) hidden_ones }
{}

/// Of a formula on a trace there is at most one verdict, and of a checked closed one on a trace of messages some. That one is
/// true there or it isn't, also where judging costs too much.
pub fn one_verdict()
    ensures one { OneVerdictLaw }
    ensures some { SomeVerdictLaw }
    ensures decided { DecidedLaw }
{
    plans_decide_truth();
}

/// A checked closed formula that is true on a trace of messages, or isn't, has a reason for it, and one only; what a reason tells
/// of a binder is a message of its sort, or a time of the trace.
pub fn there_is_a_reason()
    ensures some { SomeReasonLaw }
    ensures one { OneReasonLaw }
    ensures suits { ReasonsSuit }
{
    normal_terms_decide();
    leaves_are_normal();
    checked_terms_are_normal();
    binders_are_found();
    variables_range_over_subterms();
}

/// Worked examples of reasons on a small trace, for every signature, and of lists of choices that are none.
pub fn reasons_by_hand()
    ensures are { EachIn (λ e. (g : Sig) → IsReason g e.0 leak e.1 e.2) reasons }
    ensures others { EachIn (λ e. (g : Sig) → IsReason g e.0 leak e.1 e.2 → ⊥) no_reasons }
{
    leaves_are_normal();
    claims_give_reasons();
    there_is_a_reason();
}

// What shows the claim on a closed formula made ready for a trace of messages is the reason for its truth value.
pub(crate) fn claims_give_reasons()
    ensures { ClaimLaw }
{
    normal_terms_decide();
    leaves_are_normal();
    checked_terms_are_normal();
    binders_are_found();
    variables_range_over_subterms();
}

// What a closed formula made ready for a trace of messages says is what it says.
pub(crate) fn plans_decide_truth()
    ensures { PlanLaw }
{
    normal_terms_decide();
    leaves_are_normal();
    checked_terms_are_normal();
    binders_are_found();
    variables_range_over_subterms();
}
