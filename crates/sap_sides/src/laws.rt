// Laws of facts and their sides, as contracts of functions that do nothing.
ghost use Rattle.sap_sides.specs.Laws.{SharedFactsStay, FactsFitInTurn, PlainFactsAreMet, MessageFactsAreForms, LargeInParts, NumbersGiveTerms};

use sap_rewrite::{extensions_join, normal_forms_are_unique};

/// A fact with numbers stays what it is while the table grows.
pub fn shared_facts_stay()
    ensures { SharedFactsStay }
{}

/// What numbers give variables is what the bindings to their terms choose.
pub fn numbers_give_terms()
    ensures { NumbersGiveTerms }
{}

/// Choices for facts are found one fact after another.
pub fn facts_fit_in_turn()
    ensures { FactsFitInTurn }
{
    extensions_join();
}

/// Facts without destructors are turned into the facts that they fit.
pub fn plain_facts_are_met()
    ensures { PlainFactsAreMet }
{}

/// Facts of messages within the limit are their own normal forms, and nothing in them is large.
pub fn message_facts_are_forms()
    ensures { MessageFactsAreForms }
{
    normal_forms_are_unique();
}

/// What is large in facts is large in a part of them.
pub fn large_facts_are_in_parts()
    ensures { LargeInParts }
{}
