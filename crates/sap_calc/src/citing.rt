// The facts that a line cites.
ghost use Rattle.std.specs.Prelude.{length, map, IfOk, IfErr};
ghost use Rattle.sap_sides.specs.SharedFacts.{fact_seen, slots_seen, AreFactsBelow, AreSlotsBelow};
ghost use Rattle.sap_calc.specs.code.Cited.{AreCited, AreUncited};

use sap_lines::PFault;
use sap_share::Table;
use sap_sides::{SharedFact, SharedPile};
use sap_terms::Numbers;
use std::alloc::Global;

// Copies of the facts with these numbers, where all can be taken in this order.
pub(crate) fn cited(
    alloc: Global,
    table: &Table,
    facts: &SharedPile,
    numbers: &Numbers,
) -> Result<Vec<SharedFact>, PFault>
    requires { AreSlotsBelow (length table.now.trees) facts.now }
    ensures ok { IfOk result (λ v. AreCited (slots_seen table.now.trees facts.now) numbers.now (map (fact_seen table.now.trees) v.items)) }
    ensures below { IfOk result (λ v. AreFactsBelow (length table.now.trees) v.items) }
    ensures refused { IfErr result (AreUncited (slots_seen table.now.trees facts.now) numbers.now) }
{
    match facts.first_missing(alloc, table, numbers) {
        Err(_) => Err(PFault::Mem),
        Ok(Some(place)) => Err(PFault::FactMissing { place }),
        Ok(None) => match facts.cited(alloc, numbers) {
            Err(_) => Err(PFault::Mem),
            Ok(fs) => Ok(fs),
        },
    }
}
