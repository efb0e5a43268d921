// The lines of a derivation.
ghost use Rattle.std.specs.Prelude.{◌≡◌, ◌<◌, ◌⊎◌, ℕ, List, [], ◌∷◌, ◌++◌, length, slice_get, Some, IfOk, OnOk};
ghost use Rattle.sap_derive.specs.code.Lines.{premises_of};
ghost use Rattle.sap_derive.specs.code.Closed.{IsClosure, IsGiven};
ghost use Rattle.sap_derive.specs.code.Listed.{IsListed, AreListed};
ghost use Rattle.sap_derive.specs.code.Needed.{ArePlaces, IsLineOver, IsWritten, Writes};
ghost use Rattle.sap_derive.specs.declared.clause.Clause.{Clause as TheClause};
ghost use Rattle.sap_derive.specs.declared.line.Line.{Line as TheLine};
ghost use Rattle.sap_derive.specs.declared.grounds.Grounds.TheVariants.{Given as IsGivenWay, By as IsByWay};

use crate::clause::Clause;
use crate::closure::Closure;
use crate::grounds::Grounds;
use crate::line::{Line, LineList};
use crate::listing::Listing;
use crate::needed::need;
use sap_terms::{Copied, Mem, Numbers};
use std::alloc::Global;

// A place of a number that stands in the list.
pub(crate) fn place_of(items: &Listing, n: u64) -> u64
    requires { IsListed items.now n }
    ensures { slice_get items.now result ≡ Some n }
{
    match items.place(n) {
        Some(place) => place,
        None => unreachable!(),
    }
}

// Places of these numbers, all of which stand in the list.
fn places_of(alloc: Global, items: &Listing, numbers: &[u64]) -> Result<Numbers, Mem>
    requires { AreListed items.now numbers.now }
    ensures { IfOk result (λ ks. ArePlaces items.now numbers.now ks) }
{
    let mut places = Numbers::new(alloc);
    for n in numbers {
        places.push(place_of(items, *n))?;
    }
    Ok(places)
}

// The line with places in the list for the numbers that it stands on.
fn line_over(alloc: Global, items: &Listing, line: &Line) -> Result<Line, Mem>
    requires { AreListed items.now (premises_of line.now) }
    ensures { IfOk result (λ l. IsLineOver items.now line.now l) }
{
    match line {
        Line::Public(a) => {
            let name = a.copy(alloc)?;
            Ok(Line::Public(name))
        }
        Line::Apply(f, numbers) => {
            let places = places_of(alloc, items, numbers.as_slice())?;
            let name = f.copy(alloc)?;
            Ok(Line::Apply(name, places))
        }
    }
}

// Writes the line of a clause, and puts the number that it gives last.
fn write_line(
    alloc: Global,
    clause: &Clause,
    items: &mut Listing,
    lines: &mut LineList,
) -> Result<(), Mem>
    requires { AreListed items.old (premises_of clause.now.line) }
    ensures more { (items.new ≡ items.old) ⊎ (items.new ≡ items.old ++ clause.now.gives ∷ []) }
    ensures items { OnOk result (items.new ≡ items.old ++ clause.now.gives ∷ []) }
    ensures lines { OnOk result ((l : TheLine) × (lines.new ≡ lines.old ++ l ∷ []) × IsLineOver items.old clause.now.line l) }
{
    let line = line_over(alloc, items, &clause.line)?;
    lines.push(line)?;
    items.push(clause.gives)
}

// Writes the line that gives what is known at a rank, if its number doesn't stand in the list.
fn write_next(
    alloc: Global,
    closure: &Closure,
    items: &mut Listing,
    lines: &mut LineList,
    rank: u64,
) -> Result<(), Mem>
    requires closure { IsClosure closure.now }
    requires rank { rank < length closure.now.known }
    requires given { (n : ℕ) → IsGiven closure.now n → IsListed items.old n }
    requires premises { (n c : ℕ) (clause : TheClause) → slice_get closure.now.known rank ≡ Some n → ¬ IsListed items.old n → slice_get closure.now.ways.items rank ≡ Some (IsByWay c) → slice_get closure.now.clauses c ≡ Some clause → AreListed items.old (premises_of clause.line) }
    ensures more { (ns : List ℕ) × (items.new ≡ items.old ++ ns) }
    ensures ok { OnOk result (Writes closure.now rank items.old lines.old items.new lines.new) }
{
    let n = closure.known.at(rank);
    if items.place(n).is_some() {
        return Ok(());
    }
    match closure.ways[rank as usize] {
        Grounds::Given => Ok(()),
        Grounds::By(clause) => write_line(alloc, closure.clauses.at(clause), items, lines),
    }
}

// Writes the lines that lead from the entries to what is known at the goal's rank, in the order in which that became known, and
// puts what they give behind the entries; the ranks are those that it needs then. Refused, some of it stands there.
pub(crate) fn write(
    alloc: Global,
    closure: &Closure,
    entries: &mut Listing,
    ranks: &mut Listing,
    goal: u64,
) -> Result<LineList, Mem>
    requires closure { IsClosure closure.now }
    requires goal { goal < length closure.now.known }
    requires given { (n : ℕ) → IsGiven closure.now n → IsListed entries.old n }
    ensures more { (ns : List ℕ) × (entries.new ≡ entries.old ++ ns) }
    ensures written { IfOk result (λ ls. (ns : List ℕ) × (entries.new ≡ entries.old ++ ns) × IsWritten closure.now entries.old goal ls ns) }
    ensures goal { IfOk result (λ ls. (n : ℕ) → slice_get closure.now.known goal ≡ Some n → IsListed entries.new n) }
{
    need(closure, entries, ranks, goal)?;
    let order = ranks.sorted()?;
    let mut lines = LineList::new(alloc);
    for k in 0..order.len() {
        write_next(alloc, closure, entries, &mut lines, order[k])?;
    }
    Ok(lines)
}
