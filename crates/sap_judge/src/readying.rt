//! Formulas made ready for a trace.
ghost use Rattle.std.specs.Prelude.{◌≡◌, ◌++◌, [], IfOk, OnOk, Ok, map};
ghost use Rattle.sap_formula.specs.Form.{action, equal};
ghost use Rattle.sap_formula.specs.View.{form};
ghost use Rattle.sap_judge.specs.code.Folded.{folded};
ghost use Rattle.sap_judge.specs.code.Laid.{action as action_of, layers};
ghost use Rattle.sap_search.specs.Plan.{search, shows};
ghost use Rattle.sap_match.specs.View.{atom};
ghost use Rattle.sap_search.specs.View.{guard, plan};
ghost use Rattle.sap_judge.specs.code.Quantifying.{beside, guards_over, left_part, quantified, related, right_part};
ghost use Rattle.sap_judge.specs.code.Ready.{atom_of, guards_of, inside, left_of_imp, marked, place_of, ready, seen_by, under_and};
ghost use Rattle.sap_judge.specs.declared.extent.Extent.TheVariants.{Whole};
ghost use Rattle.sap_terms.specs.View.{tree};

use crate::ReadyTrace;
use crate::extent::Extent;
use crate::folding::{always, are_idle, boxed, connected, not_of, search_of};
use crate::laying::{
    ActionAtom, Levels, Spot, collect, lay, lay_atom, lay_guards, named_binders, slot_in,
};
use sap_formula::{Binders, Formula, both};
use sap_match::{AtomPlan, Marks};
use sap_search::{GuardPlan, Plan};
use sap_terms::{Fact, Items, Mem, Name, NameSet, Term};
use std::alloc::Global;

/// What of the formula is left to test, made ready for the trace, inside these levels. It takes time in
/// proportion to the formula, times how deep its quantifiers are nested, and recurses as deep as the formula.
#[cycle(ready)]
pub(crate) fn ready_box<'a>(
    alloc: Global,
    trace: &'a ReadyTrace<'_>,
    extent: Extent,
    levels: &Levels<'_>,
    f: &'a Formula,
) -> Result<Box<Plan<'a>>, Mem>
    ensures { IfOk result (λ r. plan r.value ≡ folded (ready trace.now extent (layers levels.now) (form f.now))) }
{
    match f {
        Formula::True => always(alloc, true),
        Formula::False => always(alloc, false),
        Formula::Action(fact, time) => ready_action(alloc, extent, levels, fact, time),
        Formula::Equal(s, t) => ready_equal(alloc, levels, s, t),
        Formula::Same(i, j) | Formula::Less(i, j) => related(alloc, levels, f, i, j),
        Formula::Not(g) => not_of(alloc, ready_box(alloc, trace, Extent::Whole, levels, g)?),
        Formula::And(g, h) | Formula::Or(g, h) | Formula::Imp(g, h) | Formula::Iff(g, h) => {
            let two = both(
                ready_box(alloc, trace, left_part(f, extent), levels, g),
                ready_box(alloc, trace, right_part(f, extent), levels, h),
            )?;
            connected(alloc, f, two)
        }
        Formula::All(bs, g) => quantified(alloc, trace, true, levels, bs, g),
        Formula::Ex(bs, g) => quantified(alloc, trace, false, levels, bs, g),
    }
}

// A quantifier over this body, made ready; `every` where it speaks of each value.
#[cycle(ready)]
fn quantified<'a>(
    alloc: Global,
    trace: &'a ReadyTrace<'_>,
    every: bool,
    levels: &Levels<'_>,
    bs: &Binders,
    f: &'a Formula,
) -> Result<Box<Plan<'a>>, Mem>
    ensures { IfOk result (λ r. plan r.value ≡ folded (quantified trace.now every (layers levels.now) bs.now (form f.now))) }
{
    let mut names = NameSet::new(alloc);
    let guards = ready_guards(alloc, trace, every, levels, bs, f, &mut names)?;
    let inner = Levels::Inside(&names, &*levels);
    guarded(alloc, trace, every, &inner, guards, f)
}

// A search through the facts of these guards, over this body inside these levels; none where a guard has no fact.
#[cycle(ready)]
fn guarded<'a>(
    alloc: Global,
    trace: &'a ReadyTrace<'_>,
    every: bool,
    levels: &Levels<'_>,
    guards: Items<GuardPlan<'a>>,
    f: &'a Formula,
) -> Result<Box<Plan<'a>>, Mem>
    ensures { IfOk result (λ r. plan r.value ≡ folded (search every (map guard guards.entry) (ready trace.now (beside every) (layers levels.now) (form f.now)))) }
{
    if are_idle(&guards) {
        return always(alloc, every);
    }
    search_of(
        alloc,
        every,
        guards,
        ready_box(alloc, trace, beside(every), levels, f)?,
    )
}

// Its guards, and in order the names that they give slots.
#[inline(never)]
pub(crate) fn ready_guards<'a>(
    alloc: Global,
    trace: &'a ReadyTrace<'_>,
    every: bool,
    levels: &Levels<'_>,
    bs: &Binders,
    f: &'a Formula,
    names: &mut NameSet,
) -> Result<Items<GuardPlan<'a>>, Mem>
    ensures guards { IfOk result (λ gs. map guard gs ≡ guards_of trace.now (place_of bs.now (layers levels.now)) names.old (guards_over every (form f.now))) }
    ensures names { OnOk result (names.new ≡ seen_by (place_of bs.now (layers levels.now)) names.old (guards_over every (form f.now))) }
{
    let parts = both(named_binders(alloc, bs), guards_over(alloc, every, f))?;
    let spot = Spot::Guards(&parts.0, &*levels);
    lay_guards(alloc, trace, &spot, names, &parts.1)
}

// The action atoms that guard its variables.
fn guards_over<'a>(alloc: Global, every: bool, f: &'a Formula) -> Result<Items<ActionAtom<'a>>, Mem>
    ensures { IfOk result (λ xs. map action_of xs ≡ guards_over every (form f.now)) }
{
    let mut out = Items::new(alloc);
    collect_over(every, f, &mut out)?;
    Ok(out)
}

// Puts them behind the others.
fn collect_over<'a>(every: bool, f: &'a Formula, out: &mut Items<ActionAtom<'a>>) -> Result<(), Mem>
    ensures { OnOk result (map action_of out.new ≡ map action_of out.old ++ guards_over every (form f.now)) }
{
    match f {
        Formula::Imp(g, _) => {
            if every {
                return collect(g, out);
            }
            Ok(())
        }
        _ => {
            if every {
                return Ok(());
            }
            collect(f, out)
        }
    }
}

// How much of the body is left beside them.
pub(crate) fn beside(every: bool) -> Extent
    ensures { result ≡ beside every }
{
    if every {
        return Extent::Body;
    }
    Extent::Rest
}

// An action atom, unless it is a guard.
#[inline(never)]
fn ready_action<'a>(
    alloc: Global,
    extent: Extent,
    levels: &Levels<'_>,
    fact: &'a Fact,
    time: &'a Name,
) -> Result<Box<Plan<'a>>, Mem>
    ensures { IfOk result (λ r. plan r.value ≡ folded (ready [] extent (layers levels.now) (action fact.now time.now))) }
{
    match extent {
        Extent::Rest => always(alloc, true),
        _ => { shows(alloc, &fact.name, laid_anywhere(alloc, levels, fact, time)?) }
    }
}

fn shows<'a>(alloc: Global, name: &'a Name, laid: AtomPlan<'a>) -> Result<Box<Plan<'a>>, Mem>
    ensures { IfOk result (λ r. plan r.value ≡ shows name.now (atom laid.entry)) }
{
    boxed(alloc, Plan::Shows(name, laid))
}

// An action atom with its slots.
fn laid_anywhere<'a>(
    alloc: Global,
    levels: &Levels<'_>,
    fact: &'a Fact,
    time: &'a Name,
) -> Result<AtomPlan<'a>, Mem>
    ensures { IfOk result (λ r. atom r ≡ atom_of (inside (layers levels.now)) [] (record { pattern = fact.now; time = time.now })) }
{
    let spot = Spot::Anywhere(&*levels);
    let mut names = NameSet::new(alloc);
    lay_atom(alloc, &spot, &mut names, &ActionAtom { fact, time })
}

// The occurrences in a term, of variables that have slots.
fn marks_of(alloc: Global, levels: &Levels<'_>, t: &Term) -> Result<Marks, Mem>
    ensures { IfOk result (λ ms. ms ≡ (marked (inside (layers levels.now)) [] (tree t.now)).marks) }
{
    let spot = Spot::Anywhere(&*levels);
    let mut names = NameSet::new(alloc);
    let mut marks = Marks::new(alloc);
    lay(&spot, &mut names, &mut marks, t)?;
    Ok(marks)
}

// An equation.
#[inline(never)]
fn ready_equal<'a>(
    alloc: Global,
    levels: &Levels<'_>,
    s: &'a Term,
    t: &'a Term,
) -> Result<Box<Plan<'a>>, Mem>
    ensures { IfOk result (λ r. plan r.value ≡ ready [] Whole (layers levels.now) (equal (tree s.now) (tree t.now))) }
{
    let left = marks_of(alloc, levels, s)?;
    let right = marks_of(alloc, levels, t)?;
    boxed(alloc, Plan::Equals(s, t, left, right))
}

// The formula's relation between these times.
#[inline(never)]
fn related<'a>(
    alloc: Global,
    levels: &Levels<'_>,
    like: &Formula,
    i: &Name,
    j: &Name,
) -> Result<Box<Plan<'a>>, Mem>
    ensures { IfOk result (λ r. plan r.value ≡ related (layers levels.now) (form like.now) i.now j.now) }
{
    let i = slot_in(levels, i)?;
    let j = slot_in(levels, j)?;
    match like {
        Formula::Same(_, _) => boxed(alloc, Plan::AtOnce(i, j)),
        _ => boxed(alloc, Plan::Before(i, j)),
    }
}

// How much of its first part is left.
pub(crate) fn left_part(like: &Formula, extent: Extent) -> Extent
    ensures { result ≡ left_part (form like.now) extent }
{
    match like {
        Formula::And(_, _) => under_and(extent),
        Formula::Imp(_, _) => left_of_imp(extent),
        _ => Extent::Whole,
    }
}

// And of its second.
pub(crate) fn right_part(like: &Formula, extent: Extent) -> Extent
    ensures { result ≡ right_part (form like.now) extent }
{
    match like {
        Formula::And(_, _) => under_and(extent),
        _ => Extent::Whole,
    }
}

fn under_and(extent: Extent) -> Extent
    ensures { result ≡ under_and extent }
{
    match extent {
        Extent::Rest => Extent::Rest,
        _ => Extent::Whole,
    }
}

fn left_of_imp(extent: Extent) -> Extent
    ensures { result ≡ left_of_imp extent }
{
    match extent {
        Extent::Body => Extent::Rest,
        _ => Extent::Whole,
    }
}
