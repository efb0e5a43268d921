// Lines and what is found, by hand, as the contract of a function that does nothing.
ghost use Rattle.sap_derive.specs.LineExamples.{LinesByHand, FoundByHand};

use sap_rewrite::normal_forms_are_unique;

/// Which lines are possible and what they give, and which lines find a goal, by hand: small lists that do, and some that don't.
pub fn lines_by_hand()
    ensures lines { LinesByHand }
    ensures found { FoundByHand }
{
    normal_forms_are_unique();
}
