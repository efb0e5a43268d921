// Steps of short runs, and what fills one, tried by hand, as the contract of a function that does nothing.
ghost use Rattle.sap_intruder.specs.SparingExamples.{SparingByHand};
ghost use Rattle.sap_intruder.specs.StepExamples.{LeftOutByHand, PossibleByHand, RefusedByHand};

use crate::laws::short_refusals_are_one;
use sap_rewrite::{
    equality_is_kept, normal_forms_are_unique, normal_forms_decide, symbols_reduce_once,
};
use sap_terms::{destructors_head_left_sides, leaves_are_normal, names_are_messages};

/// Steps by hand: which are possible, of a thread that ends, shows, takes a pair and sends on a channel; for which cause others are
/// refused, and for which they aren't, in the order of the tests; which step of two is the first that is refused. Which lines are left
/// out, and lines that fill a step with and without an idle one.
pub fn steps_by_hand()
    ensures possible { PossibleByHand }
    ensures refused { RefusedByHand }
    ensures left_out { LeftOutByHand }
    ensures sparing { SparingByHand }
{
    leaves_are_normal();
    names_are_messages();
    destructors_head_left_sides();
    normal_forms_are_unique();
    normal_forms_decide();
    equality_is_kept();
    symbols_reduce_once();
    short_refusals_are_one();
}
