//! The facts of a trace by their names.
ghost use Rattle.std.specs.Prelude.{◌≡◌, IfOk, OnOk, map};
ghost use Rattle.sap_judge.specs.Guards.{sights, sights_at};
ghost use Rattle.sap_judge.specs.code.Rows.{Adds, IsOf, if_named, row_of};
ghost use Rattle.sap_match.specs.View.{sight};

use sap_match::Sighted;
use sap_terms::{FactList, Items, Mem, Name, NameMap, Trace};
use std::alloc::Global;

/// The facts of a trace by their names.
pub(crate) type Rows<'t> = NameMap<Items<Sighted<'t>>>;

// Puts a fact last in the row of its name.
fn note<'t>(alloc: Global, s: Sighted<'t>, rows: &mut Rows<'t>) -> Result<(), Mem>
    ensures { OnOk result (Adds rows.old rows.new (λ n. if_named n s.entry)) }
{
    rows.push(alloc, &s.fact.name, s)
}

// Puts the facts of a time last in their rows.
fn note_facts<'t>(
    alloc: Global,
    time: u64,
    facts: &'t FactList,
    rows: &mut Rows<'t>,
) -> Result<(), Mem>
    ensures { OnOk result (Adds rows.old rows.new (λ n. sights_at n time facts.now)) }
{
    for fact in facts.as_slice() {
        note(alloc, Sighted { time, fact }, rows)?;
    }
    Ok(())
}

/// Those of the trace, in one pass over it.
pub(crate) fn rows_of<'t>(alloc: Global, trace: &'t Trace) -> Result<Rows<'t>, Mem>
    ensures { IfOk result (λ r. IsOf trace.now r) }
{
    let mut rows = NameMap::new(alloc);
    for k in 0..trace.len() {
        note_facts(alloc, k, trace.at(k), &mut rows)?;
    }
    Ok(rows)
}

/// The facts of this name, none where it has no row.
pub(crate) fn facts_in<'a, 't: 'a>(rows: &'a Rows<'t>, name: &Name) -> &'a [Sighted<'a>]
    ensures { map sight result.now ≡ row_of rows.now name.now }
{
    if let Some(row) = rows.get(name) {
        return row.as_slice();
    }
    &[]
}
