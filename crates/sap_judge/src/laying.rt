//! Slots of variables, and the marks of their occurrences.
ghost use Rattle.std.specs.Prelude.{◌≡◌, ◌+◌, ◌++◌, ◌∷◌, [], IfOk, OnOk, map, false, true};
ghost use Rattle.std.specs.List.{list_any};
ghost use Rattle.std.specs.Str.{bytes_eq};
ghost use Rattle.sap_formula.specs.Checked.{binder_name};
ghost use Rattle.sap_formula.specs.View.{form};
ghost use Rattle.sap_judge.specs.code.Laid.{action, layers, place};
ghost use Rattle.sap_match.specs.View.{atom};
ghost use Rattle.sap_search.specs.View.{guard};
ghost use Rattle.sap_judge.specs.Guards.{guards};
ghost use Rattle.sap_judge.specs.code.Ready.{atom_of, guards_of, marked, marked_all, noted, seen_behind, seen_by, slot_at, slot_count, slot_in};
ghost use Rattle.sap_terms.specs.Tree.{trees_of};
ghost use Rattle.sap_terms.specs.View.{tree};

use crate::ReadyTrace;
use sap_formula::{Binder, Binders, Formula};
use sap_match::{AtomPlan, Marks};
use sap_search::GuardPlan;
use sap_terms::{Copied, Fact, Items, Mem, Name, NameSet, Named, Term, TermList};
use std::alloc::Global;

// The names of the slots, quantifier by quantifier, the innermost first.
#[derive(Clone, Copy)]
pub(crate) enum Levels<'a> {
    Outside,
    Inside(&'a NameSet, &'a Levels<'a>),
}

// Where an atom stands.
#[derive(Clone, Copy)]
pub(crate) enum Spot<'a> {
    // Anywhere inside these levels.
    Anywhere(&'a Levels<'a>),
    // Among the guards of a quantifier that binds these, inside these levels.
    Guards(&'a Named<Binder>, &'a Levels<'a>),
}

// An action atom as it is written.
#[derive(Clone, Copy)]
pub(crate) struct ActionAtom<'a> {
    pub(crate) fact: &'a Fact,
    pub(crate) time: &'a Name,
}

// The sum, where it is a number.
fn added(m: u64, n: u64) -> Result<u64, Mem>
    ensures { IfOk result (λ k. k ≡ m + n) }
{
    match m.checked_add(n) {
        Some(k) => Ok(k),
        None => Err(Mem),
    }
}

// How many slots there are.
fn slot_count(levels: &Levels<'_>) -> Result<u64, Mem>
    ensures { IfOk result (λ n. n ≡ slot_count (layers levels.now)) }
{
    match levels {
        Levels::Outside => Ok(0),
        Levels::Inside(names, outer) => added(slot_count(outer)?, names.len()),
    }
}

// The slot of a name, in the innermost quantifier that has one.
pub(crate) fn slot_in(levels: &Levels<'_>, n: &Name) -> Result<Option<u64>, Mem>
    ensures { IfOk result (λ k. k ≡ slot_in (layers levels.now) n.now) }
{
    match levels {
        Levels::Outside => Ok(None),
        Levels::Inside(names, outer) => match names.index_of(n) {
            Some(k) => Ok(Some(added(slot_count(outer)?, k)?)),
            None => slot_in(outer, n),
        },
    }
}

// How many slots there are outside of the quantifier.
fn slots_outside(spot: &Spot<'_>) -> Result<u64, Mem>
    ensures { IfOk result (λ n. n ≡ slot_count (place spot.now).outer) }
{
    match spot {
        Spot::Anywhere(levels) | Spot::Guards(_, levels) => slot_count(levels),
    }
}

// The levels outside of the quantifier.
fn levels_of<'a>(spot: &Spot<'a>) -> &'a Levels<'a>
    ensures { layers result.now ≡ (place spot.now).outer }
{
    match spot {
        Spot::Anywhere(levels) | Spot::Guards(_, levels) => levels,
    }
}

// Whether one of these binds the name.
fn binds(bs: &Named<Binder>, n: &Name) -> bool
    ensures { result ≡ list_any (bytes_eq n.now) (map binder_name bs.now) }
{
    bs.named(n).is_some()
}

// Whether the quantifier binds the name.
fn is_bound(spot: &Spot<'_>, n: &Name) -> bool
    ensures { result ≡ list_any (bytes_eq n.now) (place spot.now).bound }
{
    match spot {
        Spot::Anywhere(_) => false,
        Spot::Guards(bs, _) => binds(bs, n),
    }
}

// The slot of a name that the quantifier doesn't bind, where these names have slots already; none where it is to get the next.
fn slot_free(spot: &Spot<'_>, seen: &NameSet, n: &Name) -> Result<Option<u64>, Mem>
    requires { list_any (bytes_eq n.now) (place spot.now).bound ≡ false }
    ensures { IfOk result (λ k. k ≡ slot_at (place spot.now) seen.now n.now) }
{
    match seen.index_of(n) {
        Some(k) => Ok(Some(added(slots_outside(spot)?, k)?)),
        None => slot_in(levels_of(spot), n),
    }
}

// Puts a new name behind the others.
fn note(seen: &mut NameSet, n: &Name) -> Result<(), Mem>
    requires { list_any (bytes_eq n.now) seen.old ≡ false }
    ensures { OnOk result (seen.new ≡ seen.old ++ n.now ∷ []) }
{
    seen.insert(n)?;
    Ok(())
}

// The slot of an occurrence that the quantifier doesn't bind, none where it fills the next one.
fn mark_free(spot: &Spot<'_>, seen: &mut NameSet, n: &Name) -> Result<Option<u64>, Mem>
    requires { list_any (bytes_eq n.now) (place spot.now).bound ≡ false }
    ensures slot { IfOk result (λ k. k ≡ slot_at (place spot.now) seen.old n.now) }
    ensures seen { OnOk result (seen.new ≡ noted (slot_at (place spot.now) seen.old n.now) seen.old n.now) }
{
    match slot_free(spot, seen, n)? {
        Some(k) => Ok(Some(k)),
        None => {
            note(seen, n)?;
            Ok(None)
        }
    }
}

// The slot of an occurrence that the quantifier binds, none where it fills the next one: one search tells it and notes the name.
fn mark_bound(spot: &Spot<'_>, seen: &mut NameSet, n: &Name) -> Result<Option<u64>, Mem>
    requires { list_any (bytes_eq n.now) (place spot.now).bound ≡ true }
    ensures slot { IfOk result (λ k. k ≡ slot_at (place spot.now) seen.old n.now) }
    ensures seen { OnOk result (seen.new ≡ noted (slot_at (place spot.now) seen.old n.now) seen.old n.now) }
{
    let (index, new) = seen.insert(n)?;
    if new {
        return Ok(None);
    }
    Ok(Some(added(slots_outside(spot)?, index)?))
}

// The slot of an occurrence, none where it fills the next one, which is the name's from here on.
pub(crate) fn mark(spot: &Spot<'_>, seen: &mut NameSet, n: &Name) -> Result<Option<u64>, Mem>
    ensures slot { IfOk result (λ k. k ≡ slot_at (place spot.now) seen.old n.now) }
    ensures seen { OnOk result (seen.new ≡ noted (slot_at (place spot.now) seen.old n.now) seen.old n.now) }
{
    if is_bound(spot, n) {
        return mark_bound(spot, seen, n);
    }
    mark_free(spot, seen, n)
}

// Puts the slot of an occurrence behind the other marks.
fn lay_name(spot: &Spot<'_>, seen: &mut NameSet, marks: &mut Marks, n: &Name) -> Result<(), Mem>
    ensures marks { OnOk result (marks.new ≡ marks.old ++ slot_at (place spot.now) seen.old n.now ∷ []) }
    ensures seen { OnOk result (seen.new ≡ noted (slot_at (place spot.now) seen.old n.now) seen.old n.now) }
{
    let slot = mark(spot, seen, n)?;
    marks.push(slot)
}

// Puts the slots of the occurrences in a term behind the other marks.
#[cycle(lay)]
#[tactic(auto, using(crate::proofs::Marks::lay_laws))]
pub(crate) fn lay(
    spot: &Spot<'_>,
    seen: &mut NameSet,
    marks: &mut Marks,
    t: &Term,
) -> Result<(), Mem>
    ensures marks { OnOk result (marks.new ≡ marks.old ++ (marked (place spot.now) seen.old (tree t.now)).marks) }
    ensures seen { OnOk result (seen.new ≡ (marked (place spot.now) seen.old (tree t.now)).seen) }
{
    match t {
        Term::Var(v) => lay_name(spot, seen, marks, &v.name),
        Term::App(_, ts) => lay_all(spot, seen, marks, ts),
        _ => Ok(()),
    }
}

// The same for these, from the left.
#[cycle(lay)]
#[tactic(auto, using(crate::proofs::Marks::lay_laws))]
pub(crate) fn lay_all(
    spot: &Spot<'_>,
    seen: &mut NameSet,
    marks: &mut Marks,
    ts: &TermList,
) -> Result<(), Mem>
    ensures marks { OnOk result (marks.new ≡ marks.old ++ (marked_all (place spot.now) seen.old (trees_of ts.now)).marks) }
    ensures seen { OnOk result (seen.new ≡ (marked_all (place spot.now) seen.old (trees_of ts.now)).seen) }
{
    for k in 0..ts.len() {
        lay(spot, seen, marks, ts.at(k))?;
    }
    Ok(())
}

// An action atom with its slots.
pub(crate) fn lay_atom<'a>(
    alloc: Global,
    spot: &Spot<'_>,
    seen: &mut NameSet,
    a: &ActionAtom<'a>,
) -> Result<AtomPlan<'a>, Mem>
    ensures atom { IfOk result (λ r. atom r ≡ atom_of (place spot.now) seen.old (action a.now)) }
    ensures seen { OnOk result (seen.new ≡ seen_behind (place spot.now) seen.old (action a.now)) }
{
    let mut marks = Marks::new(alloc);
    lay_all(spot, seen, &mut marks, &a.fact.args)?;
    let time = mark(spot, seen, a.time)?;
    Ok(AtomPlan {
        args: &a.fact.args,
        marks,
        time,
    })
}

// Puts a guard with its slots and facts behind the others.
fn lay_guard<'a>(
    alloc: Global,
    trace: &'a ReadyTrace<'_>,
    spot: &Spot<'_>,
    seen: &mut NameSet,
    a: &ActionAtom<'a>,
    out: &mut Items<GuardPlan<'a>>,
) -> Result<(), Mem>
    ensures guards { OnOk result (map guard out.new ≡ map guard out.old ++ guards_of trace.now (place spot.now) seen.old (action a.now ∷ [])) }
    ensures seen { OnOk result (seen.new ≡ seen_behind (place spot.now) seen.old (action a.now)) }
{
    let atom = lay_atom(alloc, spot, seen, a)?;
    let facts = trace.named(&a.fact.name);
    out.push(GuardPlan { atom, facts })
}

// The guards with their slots and facts, one after another.
pub(crate) fn lay_guards<'a>(
    alloc: Global,
    trace: &'a ReadyTrace<'_>,
    spot: &Spot<'_>,
    seen: &mut NameSet,
    actions: &Items<ActionAtom<'a>>,
) -> Result<Items<GuardPlan<'a>>, Mem>
    ensures guards { IfOk result (λ gs. map guard gs ≡ guards_of trace.now (place spot.now) seen.old (map action actions.now)) }
    ensures seen { OnOk result (seen.new ≡ seen_by (place spot.now) seen.old (map action actions.now)) }
{
    let mut out = Items::new(alloc);
    for k in 0..actions.len() {
        lay_guard(alloc, trace, spot, seen, actions.at(k), &mut out)?;
    }
    Ok(out)
}

// Puts the action atoms among the conjuncts behind the others. It recurses as deep as they are nested.
pub(crate) fn collect<'a>(f: &'a Formula, out: &mut Items<ActionAtom<'a>>) -> Result<(), Mem>
    ensures { OnOk result (map action out.new ≡ map action out.old ++ guards (form f.now)) }
{
    match f {
        Formula::And(g, h) => {
            collect(g, out)?;
            collect(h, out)
        }
        Formula::Action(fact, time) => out.push(ActionAtom { fact, time }),
        _ => Ok(()),
    }
}

// The binders, with a way to find them by their names.
pub(crate) fn named_binders(alloc: Global, bs: &Binders) -> Result<Named<Binder>, Mem>
    ensures { IfOk result (λ m. m ≡ bs.now) }
{
    let mut out = Named::new(alloc);
    for b in bs.as_slice() {
        push_binder(alloc, b, &mut out)?;
    }
    Ok(out)
}

// Puts a copy of the binder last.
fn push_binder(alloc: Global, b: &Binder, out: &mut Named<Binder>) -> Result<(), Mem>
    ensures { OnOk result (out.new ≡ out.old ++ b.now ∷ []) }
{
    out.push(b.copy(alloc)?)
}
