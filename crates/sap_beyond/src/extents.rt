//! How many places, or levels, what each name stands for has.
ghost use Rattle.std.specs.Prelude.{◌≡◌, ◌-◌, ◌^◌, ℕ, List, [], IfOk, MatchOption, None, Some, min, slice_get};
ghost use Rattle.sap_terms.specs.NameMap.{value_at};
ghost use Rattle.sap_macro.specs.Indexed.{AreIndexed, defined};
ghost use Rattle.sap_macro.specs.Order.{AreInOrder, UsesOnly};
ghost use Rattle.sap_macro.specs.Sources.{definitions, written};
ghost use Rattle.sap_beyond.specs.code.Shapes.{Shape, shaped, stands, two};
ghost use Rattle.sap_beyond.specs.code.Steps.{AreKept, extent, kept_at};

use crate::beyond::By;
use sap_macro::{DefinitionList, Index, Source};
use sap_terms::{Mem, Name, Numbers};
use std::alloc::Global;

// The index of the name's definition, with what is kept of it, if anything is.
pub(crate) fn kept_of(index: &Index, extents: &Numbers, name: &Name) -> Option<(u64, u64)>
    ensures { MatchOption result (kept_at extents.now (value_at index.now name.now) ≡ None)
        (λ r. (value_at index.now name.now ≡ Some r.0) × (slice_get extents.now r.0 ≡ Some r.1)) }
{
    match index.get(name) {
        None => None,
        Some(at) => match extents.get(*at) {
            None => None,
            Some(kept) => Some((*at, *kept)),
        },
    }
}

// What has two processes below it, of which these have so many; from the greatest u64 on, that number.
fn over_both(by: By, first: u64, second: u64) -> u64
    ensures { (s t : Shape) → first ≡ min (extent by s) (2 ^ 64 - 1) → second ≡ min (extent by t) (2 ^ 64 - 1)
        → result ≡ min (extent by (two s t)) (2 ^ 64 - 1) }
{
    match by {
        By::Number => first.saturating_add(second).saturating_add(1),
        By::Digits => first.max(second).saturating_add(1),
    }
}

// Of a process, where names have as many as is kept of them. It recurses as deep as the process.
fn extent_in(by: By, index: &Index, extents: &Numbers, source: &Source) -> u64
    ensures { (c : List ℕ → Shape) (names : List (List ℕ)) → AreKept by c names index.now extents.now
        → UsesOnly names (written source.now)
        → result ≡ min (extent by (shaped c (written source.now))) (2 ^ 64 - 1) }
{
    match source {
        Source::Nil(_) => 1,
        Source::Call(_, name, _) => match kept_of(index, extents, name) {
            None => 1,
            Some((_, kept)) => kept,
        },
        Source::Rep(_, p) | Source::Act(_, _, p) => {
            extent_in(by, index, extents, p).saturating_add(1)
        }
        Source::Par(_, p, q) | Source::If(_, _, _, p, q) | Source::Lookup(_, _, _, p, q) => {
            let first = extent_in(by, index, extents, p);
            over_both(by, first, extent_in(by, index, extents, q))
        }
    }
}

/// Of what each definition's name stands for, by the indices of definitions; from the greatest u64 on, that number. It takes time in
/// proportion to what is written, where each name is looked for once by its order.
pub(crate) fn extents_of(
    alloc: Global,
    by: By,
    defs: &DefinitionList,
    index: &Index,
) -> Result<Numbers, Mem>
    requires order { AreInOrder [] (definitions defs.now) }
    requires index { AreIndexed (definitions defs.now) index.now }
    ensures { IfOk result (λ xs. AreKept by (stands (definitions defs.now)) (defined (definitions defs.now)) index.now xs) }
{
    let mut extents = Numbers::with_room(alloc, defs.len())?;
    for k in 0..defs.len() {
        let kept = extent_in(by, index, &extents, &defs.at(k).body);
        extents.push(kept)?;
    }
    Ok(extents)
}
