// Laws of derivations and of entries, as the contracts of functions that do nothing.
ghost use Rattle.sap_deduce.specs.Answers.{ApplicationsHaveOneAnswer, ApplicationsHaveOneOutcome, ApplicationsHaveSomeAnswer, CausesAreOne};
ghost use Rattle.sap_deduce.specs.Deducing.{DeducedIsDeducible, DeducibleFromAll, EntriesGiveTheSame};
ghost use Rattle.sap_deduce.specs.Laws.{DerivationsCanBeEntered, NumbersStay};

use sap_rewrite::{each_term_has_a_normal_form, normal_forms_are_unique};
use sap_terms::leaves_are_normal;

/// What a derivation has can be entered term by term, with no names and outputs given but the derivation's own.
pub fn derivations_can_be_entered()
    ensures { DerivationsCanBeEntered }
{}

/// What is deducible from normal terms that are deducible is deducible; and what is deducible from names and a frame is deducible
/// from terms that have them all. So the names and the outputs that were given give what the entries give.
pub fn deducing_is_transitive()
    ensures through { DeducedIsDeducible }
    ensures from_all { DeducibleFromAll }
    ensures entries { EntriesGiveTheSame }
{
    leaves_are_normal();
    normal_forms_are_unique();
}

/// Entries keep their numbers while the table gains more.
pub fn numbers_stay()
    ensures { NumbersStay }
{}

/// A symbol on entries has one answer, want of memory aside: it adds one term, or is refused for one cause.
pub fn one_answer_of_applications()
    ensures outcome { ApplicationsHaveOneOutcome }
    ensures answer { ApplicationsHaveOneAnswer }
    ensures cause { CausesAreOne }
    ensures some { ApplicationsHaveSomeAnswer }
{
    each_term_has_a_normal_form();
    normal_forms_are_unique();
}
