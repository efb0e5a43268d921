// Numbers by tables.
ghost use Rattle.std.specs.Prelude.{◌≡◌, ◌-◌, ◌≤◌, ◌++◌, IfOk, OnOk, drop, slice_get};
ghost use Rattle.sap_rule_lines.specs.RuleLines.{numbers_from};
ghost use Rattle.sap_process_lines.specs.Told.{number_of, numbers_of};

use sap_terms::{Mem, Numbers};
use std::alloc::Global;

// The number in the table at place k.
pub(crate) fn number_at(table: &[u64], k: u64) -> Option<u64>
    ensures { result ≡ slice_get table.now k }
{
    match table.get(k as usize) {
        Some(n) => Some(*n),
        None => None,
    }
}

// The number in the table of what is cited at place i.
pub(crate) fn number_cited(table: &[u64], cited: &Numbers, i: u64) -> Option<u64>
    ensures { result ≡ number_of table.now (slice_get cited.now i) }
{
    match cited.get(i) {
        Some(k) => number_at(table, *k),
        None => None,
    }
}

// The numbers in the table of all that are cited; None where one isn't there.
pub(crate) fn numbers_cited(
    alloc: Global,
    table: &[u64],
    cited: &[u64],
) -> Result<Option<Numbers>, Mem>
    ensures { IfOk result (λ o. o ≡ numbers_of table.now cited.now) }
{
    let mut numbers = Numbers::with_room(alloc, cited.len() as u64)?;
    for k in cited {
        match number_at(table, *k) {
            Some(n) => numbers.push(n)?,
            None => {
                drop(numbers);
                return Ok(None);
            }
        }
    }
    Ok(Some(numbers))
}

// What stands behind the first.
pub(crate) fn behind_first(list: &[u64]) -> &[u64]
    ensures { result.now ≡ drop 1 list.now }
{
    match list.split_first() {
        Some((_, rest)) => rest,
        None => list,
    }
}

// Puts the numbers from the first to the one before the next on the list.
pub(crate) fn count_up(list: &mut Vec<u64>, first: u64, next: u64) -> Result<(), Mem>
    requires { first ≤ next }
    ensures { OnOk result (list.new.items ≡ list.old.items ++ numbers_from first (next - first)) }
{
    for k in first..next {
        list.push(k)?;
    }
    Ok(())
}
