//! Small processes and lines, tried by hand, as contracts of functions that do nothing.
ghost use Rattle.sap_attacks.specs.ShortRuleExamples.{LinesByHand, RefusedByHand, SettlesByHand};

use sap_restrict::{restrictions_by_hand, restrictions_say_sentences};
use sap_rewrite::normal_forms_are_unique;
use sap_terms::names_are_messages;

/// What settles: an output, and a process that ends behind it; not what isn't silent, nor what a silent rule would take beyond the limit.
pub fn settling_by_hand()
    ensures { SettlesByHand }
{
    names_are_messages();
}

/// Lines that are possible, each with the state behind it: a rule that draws a name; one that takes a message, with and without `K`
/// before it; a use that is named, also where two are alike, and that of the start; a term that is shown, a name that the adversary
/// draws.
pub fn lines_by_hand()
    ensures { LinesByHand }
{
    names_are_messages();
    restrictions_say_sentences();
    restrictions_by_hand();
}

/// Lines that are refused, each for its cause, in the order of the tests.
pub fn refused_by_hand()
    ensures { RefusedByHand }
{
    names_are_messages();
    normal_forms_are_unique();
    restrictions_say_sentences();
    restrictions_by_hand();
}
