// Laws of traces with empty times, and worked examples, as contracts of functions that do nothing.
ghost use Rattle.std.specs.Prelude.{[], ◌∷◌, ◌≡◌};
ghost use Rattle.sap_terms.specs.Signature.{Sig};
ghost use Rattle.sap_formula.specs.Filled.{filled};
ghost use Rattle.sap_formula.specs.FilledExamples.{filled_ones, some_time_at_all};
ghost use Rattle.sap_formula.specs.Laws.{FilledLaw, HideFilledLaw};
ghost use Rattle.sap_formula.specs.Truth.{EachIn, IsTrueOn};

use sap_rewrite::normal_terms_decide;
use sap_terms::{destructors_head_left_sides, leaves_are_normal};

/// A time at which nothing is shown isn't seen: on a trace of messages a closed formula, whatever names its facts have, is
/// true exactly where it is true without the empty times; and hiding leaves the same.
pub fn empty_times_are_not_seen()
    ensures truth { FilledLaw }
    ensures hidden { HideFilledLaw }
{
    normal_terms_decide();
    leaves_are_normal();
    destructors_head_left_sides();
}

/// What is left of small traces without their empty times; and a formula without a guard, which isn't closed, sees them.
pub fn empty_times_by_hand()
    ensures filled { EachIn (λ e. filled e.0 ≡ e.1) filled_ones }
    ensures unguarded { (g : Sig) → IsTrueOn g some_time_at_all ([] ∷ []) }
    ensures unguarded_filled { (g : Sig) → ¬ IsTrueOn g some_time_at_all (filled ([] ∷ [])) }
{}
