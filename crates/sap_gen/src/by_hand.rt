//! Short rules of small processes by hand, as contracts of a function that only calls the laws below.
ghost use Rattle.sap_gen.specs.Short.{AreShortRulesOf};
ghost use Rattle.sap_gen.specs.ShortExamples as example;
ghost use Rattle.sap_translate.specs.Examples.{copied_twice};
ghost use Rattle.sap_templates.specs.Templates.{rules_of};

use sap_translate::{rules_are_found_by_name, sound_processes_are_shown};

/// A law: the short rules of small processes, one of each form, are those written out; and not the rules as they were, rules that
/// are settled by one step alone, rules beside which the silent ones are kept, rules that lack the silent ones with nothing in
/// their place, or in which an output is dropped; not those where a replication is carried out once, or doesn't stay; where
/// outputs stand in another order, or those of the second part are left out; where two events are shown at once, or an embedded
/// rule is carried out; or where what replaces a state fact is put last.
pub fn short_rules_by_hand()
    ensures ended { AreShortRulesOf example.ended example.ended_short }
    ensures told { AreShortRulesOf example.told example.told_short }
    ensures told_first { AreShortRulesOf example.told_first example.told_first_short }
    ensures copied { AreShortRulesOf example.copied example.copied_short }
    ensures twice { AreShortRulesOf copied_twice example.copied_twice_short }
    ensures in_order { AreShortRulesOf example.in_order example.in_order_short }
    ensures two_events { AreShortRulesOf example.two_events example.two_events_short }
    ensures idle_rule { AreShortRulesOf example.idle_rule example.idle_rule_short }
    ensures adding_rule { AreShortRulesOf example.adding_rule example.adding_rule_short }
    ensures two_names { AreShortRulesOf example.two_names example.two_names_short }
    ensures channel { AreShortRulesOf example.channel example.channel_short }
    ensures tested { AreShortRulesOf example.tested example.tested_short }
    ensures looked_up { AreShortRulesOf example.looked_up example.looked_up_short }
    ensures locked { AreShortRulesOf example.locked example.locked_short }
    ensures ended_kept { ¬ AreShortRulesOf example.ended example.ended_kept }
    ensures told_as_it_was { ¬ AreShortRulesOf example.told (rules_of example.told) }
    ensures told_one_step { ¬ AreShortRulesOf example.told example.told_one_step }
    ensures told_kept { ¬ AreShortRulesOf example.told example.told_kept }
    ensures told_left_out { ¬ AreShortRulesOf example.told example.told_left_out }
    ensures told_first_dropped { ¬ AreShortRulesOf example.told_first example.told_first_dropped }
    ensures copied_once { ¬ AreShortRulesOf example.copied example.copied_once }
    ensures copied_linear { ¬ AreShortRulesOf example.copied example.copied_linear }
    ensures out_of_order { ¬ AreShortRulesOf example.in_order example.out_of_order }
    ensures first_alone { ¬ AreShortRulesOf example.in_order example.first_alone }
    ensures events_at_once { ¬ AreShortRulesOf example.two_events example.events_at_once }
    ensures idle_rule_gone { ¬ AreShortRulesOf example.idle_rule example.idle_rule_gone }
    ensures adding_rule_last { ¬ AreShortRulesOf example.adding_rule example.adding_rule_last }
{
    rules_are_found_by_name();
    sound_processes_are_shown();
}
