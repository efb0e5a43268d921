// What a derivation needs of what is known.
ghost use Rattle.std.specs.Prelude.{◌≡◌, ◌<◌, ◌⊎◌, ℕ, length, slice_get, Some, OnOk};
ghost use Rattle.sap_derive.specs.code.Closed.{IsClosure};
ghost use Rattle.sap_derive.specs.code.Listed.{IsListed, AreListed, StandOnce};
ghost use Rattle.sap_derive.specs.code.Needed.{StandsOn, IsNewRank, IsNewRankOf, IsCovered, AreCovered, AreNeeded};

use crate::closure::Closure;
use crate::grounds::Grounds;
use crate::listing::{Listing, list};
use sap_terms::Mem;

// Puts the rank of a number last that is no entry, unless it is there.
fn need_number(known: &Listing, entries: &Listing, ranks: &mut Listing, n: u64) -> Result<(), Mem>
    requires once { StandOnce known.now }
    requires known { IsListed known.now n }
    ensures kept { (k j : ℕ) → slice_get ranks.old k ≡ Some j → slice_get ranks.new k ≡ Some j }
    ensures only { (j : ℕ) → IsListed ranks.new j → IsListed ranks.old j ⊎ IsNewRank known.now entries.now n j }
    ensures once { StandOnce ranks.old → StandOnce ranks.new }
    ensures ok { OnOk result (IsCovered known.now entries.now ranks.new n) }
{
    if entries.place(n).is_some() {
        return Ok(());
    }
    match known.place(n) {
        Some(rank) => list(ranks, rank),
        None => unreachable!(),
    }
}

// Puts the ranks of those of these numbers last that are no entries, unless they are there.
fn need_all(
    known: &Listing,
    entries: &Listing,
    ranks: &mut Listing,
    numbers: &[u64],
) -> Result<(), Mem>
    requires once { StandOnce known.now }
    requires known { AreListed known.now numbers.now }
    ensures kept { (k j : ℕ) → slice_get ranks.old k ≡ Some j → slice_get ranks.new k ≡ Some j }
    ensures only { (j : ℕ) → IsListed ranks.new j → IsListed ranks.old j ⊎ IsNewRankOf known.now entries.now numbers.now j }
    ensures once { StandOnce ranks.old → StandOnce ranks.new }
    ensures ok { OnOk result (AreCovered known.now entries.now ranks.new numbers.now) }
{
    for n in numbers {
        need_number(known, entries, ranks, *n)?;
    }
    Ok(())
}

// Puts the ranks last that a rank stands on whose number is no entry.
fn need_below(
    closure: &Closure,
    entries: &Listing,
    ranks: &mut Listing,
    rank: u64,
) -> Result<(), Mem>
    requires closure { IsClosure closure.now }
    requires rank { rank < length closure.now.known }
    requires new { (n : ℕ) → slice_get closure.now.known rank ≡ Some n → ¬ IsListed entries.now n }
    ensures kept { (k j : ℕ) → slice_get ranks.old k ≡ Some j → slice_get ranks.new k ≡ Some j }
    ensures only { (j : ℕ) → IsListed ranks.new j → IsListed ranks.old j ⊎ (StandsOn closure.now entries.now rank j × ((n : ℕ) → slice_get closure.now.known j ≡ Some n → ¬ IsListed entries.now n)) }
    ensures once { StandOnce ranks.old → StandOnce ranks.new }
    ensures ok { OnOk result ((j n : ℕ) → StandsOn closure.now entries.now rank j → slice_get closure.now.known j ≡ Some n → IsCovered closure.now.known entries.now ranks.new n) }
{
    match closure.ways[rank as usize] {
        Grounds::Given => Ok(()),
        Grounds::By(clause) => {
            need_all(
                &closure.known,
                entries,
                ranks,
                closure.clauses.at(clause).line.premises(),
            )
        }
    }
}

// The ranks that the goal's rank needs and whose numbers are no entries, each once: itself, and what is needed to give a needed
// number. It takes time in proportion to these, whatever else is known.
pub(crate) fn need(
    closure: &Closure,
    entries: &Listing,
    ranks: &mut Listing,
    goal: u64,
) -> Result<(), Mem>
    requires closure { IsClosure closure.now }
    requires goal { goal < length closure.now.known }
    ensures needed { OnOk result (AreNeeded closure.now entries.now goal ranks.new) }
    ensures once { OnOk result (StandOnce ranks.new) }
{
    ranks.cut(0);
    need_number(&closure.known, entries, ranks, closure.known.at(goal))?;
    for k in 0..u64::MAX {
        if k >= ranks.len() {
            return Ok(());
        }
        let rank = ranks.at(k);
        need_below(closure, entries, ranks, rank)?;
    }
    let _count = ranks.len();
    Ok(())
}
