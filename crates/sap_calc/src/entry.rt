// What the adversary learns and gives, by numbers.
ghost use Rattle.std.specs.Prelude.{◌≡◌, ◌<◌, [], ◌∷◌, length, IfOk, IfSome, IfNone, OnOk, OnErr, None, slice_get};
ghost use Rattle.sap_terms.specs.AdversaryFacts.{k_fact};
ghost use Rattle.sap_deduce.specs.Entries.{AreNumbered, Gains, terms_of};
ghost use Rattle.sap_deduce.specs.declared.origin.Origin.TheVariants.{Output as OutputOrigin};
ghost use Rattle.sap_share.specs.Shared.{tree_at};
ghost use Rattle.sap_heads.specs.Values.{IsSmallNumber};
ghost use Rattle.sap_calc.specs.code.Given.{IsEntryNumber};

use crate::adversary::known_fact;
use sap_deduce::Knowledge;
use sap_share::Table;
use sap_terms::{FactList, Mem};
use std::alloc::Global;

// Lets the adversary know the term of a number.
pub(crate) fn send(table: &Table, knowledge: &mut Knowledge, k: u64) -> Result<(), Mem>
    requires numbered { AreNumbered table.now knowledge.old }
    requires number { IsSmallNumber table.now k }
    ensures ok { OnOk result (Gains knowledge.old knowledge.new OutputOrigin (tree_at table.now.trees k)) }
    ensures numbered { AreNumbered table.now knowledge.new }
    ensures err { OnErr result (knowledge.new ≡ knowledge.old) }
{
    table.each_is_ground();
    table.each_is_over();
    knowledge.output(table, k)?;
    Ok(())
}

// The number of the term of an entry; None where no entry has it.
pub(crate) fn entry_number(table: &Table, knowledge: &Knowledge, k: u64) -> Option<u64>
    requires { AreNumbered table.now knowledge.now }
    ensures some { IfSome result (IsEntryNumber table.now knowledge.now k) }
    ensures none { IfNone result (slice_get (terms_of knowledge.now.entries) k ≡ None) }
{
    knowledge.each_is_deducible();
    knowledge.number(table, k)
}

// The fact that the adversary shows the term of a number.
pub(crate) fn shown_number(alloc: Global, table: &Table, e: u64) -> Result<FactList, Mem>
    requires { e < length table.now.trees }
    ensures { IfOk result (λ fs. fs ≡ k_fact (tree_at table.now.trees e) ∷ []) }
{
    known_fact(alloc, table.tree(alloc, e)?)
}
