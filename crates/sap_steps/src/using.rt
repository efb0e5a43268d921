//! A rule used on cited facts.
ghost use Rattle.std.specs.Prelude.{◌≡◌, ◌⊎◌, length, map, IfOk, IfErr, All};
ghost use Rattle.sap_steps.specs.Faults.{IsRuleFault};
ghost use Rattle.sap_facts.specs.Cited.{cited_at, AreTaken};
ghost use Rattle.sap_share.specs.Shared.{Keeps};
ghost use Rattle.sap_sides.specs.Messages.{HoldsSmallMessages, IsSmallMessageFact};
ghost use Rattle.sap_sides.specs.SharedFacts.{fact_seen, AreFactsBelow};
ghost use Rattle.sap_steps.specs.Lines.{Fires, HasFewNodes};
ghost use Rattle.sap_steps.specs.code.Piled.{table_of};
ghost use Rattle.sap_steps.specs.code.Ready.{IsReady};

use crate::RFault;
use crate::firing::fire;
use crate::pile::SharedPile;
use crate::prepared::Prepared;
use sap_facts::first_missing;
use sap_sides::Sides;
use sap_terms::{Bindings, Numbers, Signature};
use std::alloc::Global;

// What the rule shows and adds, where it takes the facts with these numbers, if they are live and enough.
#[tactic(auto, using(crate::proofs::Kept::table_laws))]
pub(crate) fn use_rule(
    alloc: Global,
    sig: &Signature,
    rule: &Prepared,
    facts: &mut SharedPile,
    numbers: &Numbers,
    b: &Bindings,
) -> Result<Sides, RFault>
    requires ready { IsReady sig.now rule.now }
    requires sig { facts.old.sig ≡ sig.now }
    requires held { HoldsSmallMessages sig.now facts.old.slots }
    ensures taken { IfOk result (λ _. AreTaken facts.old.slots numbers.now) }
    ensures fires { IfOk result (λ x. Fires sig.now HasFewNodes rule.now.rule b.now (cited_at facts.old.slots numbers.now) x.acts (map (fact_seen facts.new.trees) x.right.items)) }
    ensures held { IfOk result (λ x. All (IsSmallMessageFact sig.now) (map (fact_seen facts.new.trees) x.right.items)) }
    ensures below { IfOk result (λ x. AreFactsBelow (length facts.new.trees) x.right.items) }
    ensures keeps { Keeps (table_of facts.old) (table_of facts.new) }
    ensures refused { IfErr result (λ e. (e ≡ RFault.Mem) ⊎ IsRuleFault sig.now rule.now.rule facts.old.slots numbers.now b.now e) }
    ensures sig { facts.new.sig ≡ facts.old.sig }
    ensures slots { facts.new.slots ≡ facts.old.slots }
{
    if numbers.len() != rule.rule.left.len() {
        return Err(RFault::FactCount);
    }
    if let Some(index) = first_missing(alloc, facts, numbers)? {
        return Err(RFault::FactMissing { place: index });
    }
    fire(alloc, sig, rule, facts, numbers, b)
}
