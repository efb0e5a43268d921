//! Facts of a trace matched with patterns whose variables are slots.
ghost use Rattle.std.specs.Prelude.{◌≡◌, IfOk, OnOk, drop, map, option_map, slice_get, None, true};
ghost use Rattle.std.specs.Option.{option_copied};
ghost use Rattle.sap_match.specs.View.{atom, held, sight};
ghost use Rattle.sap_match.specs.Matched.{filled, guarded, is_held, matched, matched_all, taken, term_in, time_held};
ghost use Rattle.sap_match.specs.Atoms.{held_term, held_time};
ghost use Rattle.sap_match.specs.code.Reached.{IsReached};
ghost use Rattle.sap_match.specs.Matched.{IsMet, StaysInFront};
ghost use Rattle.sap_terms.specs.Choice.{fits_sort};
ghost use Rattle.sap_terms.specs.Tree.{trees_of};
ghost use Rattle.sap_terms.specs.View.{tree};

use crate::atom::{AtomPlan, Marks, Value};
use crate::sighted::Sighted;
use sap_terms::{Mem, Sort, Term, TermList};

// Whether the slot holds the term.
#[tactic(auto, using(crate::proofs::Slots::slot_laws))]
fn holds_term(values: &Vec<Value<'_>>, slot: u64, t: &Term) -> bool
    ensures { result ≡ is_held (slice_get (map held values.now.items) slot) (held_term (tree t.now)) }
{
    match values.get(slot as usize) {
        Some(Value::Term(u)) => u.same(t),
        _ => false,
    }
}

// Whether the slot holds the time.
#[tactic(auto, using(crate::proofs::Slots::slot_laws))]
fn holds_time(values: &Vec<Value<'_>>, slot: u64, k: u64) -> bool
    ensures { result ≡ is_held (slice_get (map held values.now.items) slot) (held_time k) }
{
    match values.get(slot as usize) {
        Some(Value::Time(j)) => *j == k,
        _ => false,
    }
}

// The term that the slot holds.
#[tactic(auto, using(crate::proofs::Slots::slot_laws))]
pub(crate) fn term_in<'a>(values: &Vec<Value<'a>>, slot: u64) -> Option<&'a Term>
    ensures { option_map tree (option_copied result) ≡ term_in (slice_get (map held values.now.items) slot) }
{
    match values.get(slot as usize) {
        Some(Value::Term(u)) => Some(*u),
        _ => None,
    }
}

// The time that the slot holds, 0 where it holds none.
#[tactic(auto, using(crate::proofs::Slots::slot_laws))]
pub(crate) fn time_in(values: &Vec<Value<'_>>, slot: u64) -> u64
    ensures { result ≡ time_held (slice_get (map held values.now.items) slot) }
{
    match values.get(slot as usize) {
        Some(Value::Time(k)) => *k,
        _ => 0,
    }
}

// Whether a term of the sort may stand there.
pub(crate) fn fits_sort(sort: Sort, t: &Term) -> bool
    ensures { result ≡ fits_sort sort (tree t.now) }
{
    match (sort, t) {
        (Sort::Msg, _) => true,
        (Sort::Fresh, Term::Fresh(_)) => true,
        (Sort::Pub, Term::Public(_)) => true,
        _ => false,
    }
}

// Fills the next slot with the term, where the sort allows it.
#[tactic(auto, using(crate::proofs::Slots::taken_laws))]
fn fills<'a>(values: &mut Vec<Value<'a>>, sort: Sort, t: &'a Term) -> Result<bool, Mem>
    ensures met { IfOk result (λ b. IsMet (map held values.new.items) b (filled None (held_term (tree t.now)) (fits_sort sort (tree t.now)) (map held values.old.items))) }
    ensures front { OnOk result (StaysInFront values.old.items values.new.items) }
{
    if !fits_sort(sort, t) {
        return Ok(false);
    }
    values.push(Value::Term(t))?;
    Ok(true)
}

// Whether the slot holds the term, or the next is filled with it where there is none.
#[tactic(auto, using(crate::proofs::Slots::taken_laws))]
fn holds_or_fills<'a>(
    values: &mut Vec<Value<'a>>,
    slot: Option<u64>,
    sort: Sort,
    t: &'a Term,
) -> Result<bool, Mem>
    ensures met { IfOk result (λ b. IsMet (map held values.new.items) b (filled slot (held_term (tree t.now)) (fits_sort sort (tree t.now)) (map held values.old.items))) }
    ensures front { OnOk result (StaysInFront values.old.items values.new.items) }
{
    match slot {
        Some(slot) => Ok(holds_term(values, slot, t)),
        None => fills(values, sort, t),
    }
}

// The occurrence of a variable of this sort at the term: the place of the next mark, where it fits.
#[tactic(auto, using(crate::proofs::Slots::mark_laws))]
fn take<'a>(
    values: &mut Vec<Value<'a>>,
    marks: &Marks,
    at: u64,
    sort: Sort,
    t: &'a Term,
) -> Result<Option<u64>, Mem>
    ensures reached { IfOk result (λ o. IsReached marks.now (map held values.new.items) o (taken (held_term (tree t.now)) (fits_sort sort (tree t.now)) (record { marks = drop at marks.now; held = map held values.old.items }))) }
    ensures front { OnOk result (StaysInFront values.old.items values.new.items) }
{
    if at >= marks.len() {
        return Ok(None);
    }
    let slot = *marks.at(at);
    if holds_or_fills(values, slot, sort, t)? {
        return Ok(Some(at + 1));
    }
    Ok(None)
}

// Where the pattern fits the term, the place of the next mark; variables that come first fill slots.
#[cycle(fits)]
#[tactic(auto, using(crate::proofs::Slots::front_laws))]
pub(crate) fn fits<'a>(
    values: &mut Vec<Value<'a>>,
    marks: &Marks,
    at: u64,
    p: &Term,
    t: &'a Term,
) -> Result<Option<u64>, Mem>
    ensures reached { IfOk result (λ o. IsReached marks.now (map held values.new.items) o (matched (tree p.now) (tree t.now) (record { marks = drop at marks.now; held = map held values.old.items }))) }
    ensures front { OnOk result (StaysInFront values.old.items values.new.items) }
{
    match p {
        Term::Var(v) => take(values, marks, at, v.sort, t),
        Term::App(f, ps) => match t {
            Term::App(g, ts) => {
                if f.same(g) {
                    return fits_each(values, marks, at, ps, ts);
                }
                Ok(None)
            }
            _ => Ok(None),
        },
        _ => {
            if p.same(t) {
                return Ok(Some(at));
            }
            Ok(None)
        }
    }
}

// The same of these, one by one.
#[cycle(fits)]
#[tactic(auto, using(crate::proofs::Slots::each_laws))]
pub(crate) fn fits_each<'a>(
    values: &mut Vec<Value<'a>>,
    marks: &Marks,
    at: u64,
    ps: &TermList,
    ts: &'a TermList,
) -> Result<Option<u64>, Mem>
    ensures reached { IfOk result (λ o. IsReached marks.now (map held values.new.items) o (matched_all (trees_of ps.now) (trees_of ts.now) (record { marks = drop at marks.now; held = map held values.old.items }))) }
    ensures front { OnOk result (StaysInFront values.old.items values.new.items) }
{
    if ps.len() != ts.len() {
        return Ok(None);
    }
    let mut place = at;
    for k in 0..ps.len() {
        match fits(values, marks, place, ps.at(k), ts.at(k))? {
            Some(next) => place = next,
            None => return Ok(None),
        }
    }
    Ok(Some(place))
}

// Whether the time of an atom fits, where it fills a slot if it comes first.
#[tactic(auto, using(crate::proofs::Slots::taken_laws))]
fn fits_time(values: &mut Vec<Value<'_>>, time: Option<u64>, k: u64) -> Result<bool, Mem>
    ensures met { IfOk result (λ b. IsMet (map held values.new.items) b (filled time (held_time k) true (map held values.old.items))) }
    ensures front { OnOk result (StaysInFront values.old.items values.new.items) }
{
    match time {
        Some(slot) => Ok(holds_time(values, slot, k)),
        None => {
            values.push(Value::Time(k))?;
            Ok(true)
        }
    }
}

/// Whether the guard fits the fact and its time; variables that come first fill slots. It recurses as deep as the terms.
#[tactic(auto, using(crate::proofs::Slots::front_laws))]
pub fn meets<'a>(
    values: &mut Vec<Value<'a>>,
    guard: &AtomPlan<'a>,
    s: &Sighted<'a>,
) -> Result<bool, Mem>
    ensures met { IfOk result (λ b. IsMet (map held values.new.items) b (guarded (atom guard.now) s.now.fact.now s.now.time (map held values.old.items))) }
    ensures front { OnOk result (StaysInFront values.old.items values.new.items) }
{
    match fits_each(values, &guard.marks, 0, &*guard.args, &s.fact.args)? {
        Some(_) => fits_time(values, guard.time, s.time),
        None => Ok(false),
    }
}
