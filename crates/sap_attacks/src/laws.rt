//! What is so of short runs of rules, as contracts of functions that do nothing.
ghost use Rattle.sap_process.specs.Proc.{Proc};
ghost use Rattle.sap_runs.specs.Limits.{HasFewNodes};
ghost use Rattle.sap_terms.specs.Signature.{Sig};
ghost use Rattle.sap_attacks.specs.OneAnswer.{FirstRuleRefusalsAreOne, LegalShortRuleRunsAreNotRefused, OutputsAreInScope, ShortRuleLinesAreNotRefused, ShortRuleLinesHaveOneEnd, ShortRuleRefusalsAreOne, ShortRuleRunsHaveOneEnd};
ghost use Rattle.sap_attacks.specs.Pending.{GivenMessagesServe, PendingDecides};
ghost use Rattle.sap_attacks.specs.Settling.{EarlyUsesAreAmongThem, EarlyUsesDoNotMatter, IsReplacedInOneWay, OrderDoesNotMatter, SettledFactsAreOne, SettledFactsBecome};
ghost use Rattle.sap_attacks.specs.SilentUses.{IsSilentUse};

use sap_rewrite::normal_forms_are_unique;

/// An input may follow exactly where its message is pending.
pub fn pending_decides()
    ensures { PendingDecides }
{}

/// A message that is given right before its input serves it, whatever came before, and to give it breaks nothing that was served.
pub fn given_messages_serve()
    ensures { GivenMessagesServe }
{}

/// A silent rule takes a fact in one way at most. So facts settle in any order, to the same by the same uses; and whichever silent rules
/// were used before, on whichever facts and in which order, they settle to the same, by those uses and what is left of them.
pub fn settling_is_one()
    ensures way { (g : Sig) (p : Proc) → OutputsAreInScope p → IsReplacedInOneWay (IsSilentUse g HasFewNodes p) }
    ensures order { (g : Sig) (p : Proc) → OrderDoesNotMatter (IsSilentUse g HasFewNodes p) }
    ensures one { (g : Sig) (p : Proc) → SettledFactsAreOne (IsSilentUse g HasFewNodes p) }
    ensures becomes { (g : Sig) (p : Proc) → SettledFactsBecome (IsSilentUse g HasFewNodes p) }
    ensures early { (g : Sig) (p : Proc) → EarlyUsesDoNotMatter (IsSilentUse g HasFewNodes p) }
    ensures among { (g : Sig) (p : Proc) → EarlyUsesAreAmongThem (IsSilentUse g HasFewNodes p) }
{
    normal_forms_are_unique();
}

/// A short run of rules of a proper process has one answer at most. A line leads from one state to one, up to the order of facts and of
/// uses; one that is possible isn't refused, and one that is refused is so for one cause. So a legal run leads to one state, has no line
/// that is refused, and any other has one first refused line at most, for one cause.
pub fn one_short_rule_answer()
    ensures lines { ShortRuleLinesHaveOneEnd HasFewNodes }
    ensures apart { ShortRuleLinesAreNotRefused HasFewNodes }
    ensures cause { ShortRuleRefusalsAreOne HasFewNodes }
    ensures runs { ShortRuleRunsHaveOneEnd HasFewNodes }
    ensures legal { LegalShortRuleRunsAreNotRefused }
    ensures first { FirstRuleRefusalsAreOne }
{
    normal_forms_are_unique();
}
