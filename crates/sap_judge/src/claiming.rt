//! Claims that a formula is true on a trace, or isn't, made ready for it: what choices may show stands apart from what is tested.
ghost use Rattle.std.specs.Prelude.{◌≡◌, ◌∷◌, ◌++◌, ◌||◌, [], IfOk, List, OnOk, false, map, not, true, ℕ, if◌then◌else◌};
ghost use Rattle.std.specs.List.{list_any};
ghost use Rattle.std.specs.Str.{bytes_eq};
ghost use Rattle.sap_formula.specs.Checked.{binder_name};
ghost use Rattle.sap_formula.specs.Slim.{lasts};
ghost use Rattle.sap_formula.specs.View.{form};
ghost use Rattle.sap_judge.specs.code.Claiming.{choosing_of, choosing_over, claim_of, claim_test, first_value, is_each, named_by, paired, slots_of};
ghost use Rattle.sap_judge.specs.code.Laid.{layers};
ghost use Rattle.sap_judge.specs.code.Quantifying.{beside};
ghost use Rattle.sap_judge.specs.code.Ready.{slot_in};
ghost use Rattle.sap_search.specs.Claims.{choosing, tested};
ghost use Rattle.sap_search.specs.Plan.{always};
ghost use Rattle.sap_search.specs.View.{claim, guard, plan, slotted};

use crate::ReadyTrace;
use crate::extent::Extent;
use crate::folding::{always, are_idle};
use crate::laying::{Levels, slot_in};
use crate::readying::{beside, left_part, ready_box, ready_guards, right_part};
use sap_formula::{Binder, Binders, Formula, both};
use sap_search::{Claim, GuardPlan, Plan, Slotted};
use sap_terms::{HasName, Items, Mem, NameSet};
use std::alloc::Global;

/// The claim that what is left of the formula has this truth value, made ready for the trace, inside these levels. It takes time in
/// proportion to the formula, times how deep its quantifiers are nested, and recurses as deep as the formula.
#[cycle(claimed)]
pub(crate) fn claim_box<'a>(
    alloc: Global,
    trace: &'a ReadyTrace<'_>,
    extent: Extent,
    value: bool,
    levels: &Levels<'_>,
    f: &'a Formula,
) -> Result<Box<Claim<'a>>, Mem>
    ensures { IfOk result (λ r. claim r.value ≡ claim_of trace.now extent (layers levels.now) value (form f.now)) }
{
    match f {
        Formula::Not(g) => claim_box(alloc, trace, Extent::Whole, !value, levels, g),
        Formula::And(g, h) | Formula::Or(g, h) | Formula::Imp(g, h) => {
            let two = both(
                claim_box(
                    alloc,
                    trace,
                    left_part(f, extent),
                    first_value(f, value),
                    levels,
                    g,
                ),
                claim_box(alloc, trace, right_part(f, extent), value, levels, h),
            )?;
            paired(alloc, is_each(f, value), two)
        }
        Formula::All(bs, g) => {
            if value {
                return claim_test(alloc, trace, extent, value, levels, f);
            }
            choosing_over(alloc, trace, true, levels, bs, g)
        }
        Formula::Ex(bs, g) => {
            if value {
                return choosing_over(alloc, trace, false, levels, bs, g);
            }
            claim_test(alloc, trace, extent, value, levels, f)
        }
        Formula::True
        | Formula::False
        | Formula::Action(_, _)
        | Formula::Equal(_, _)
        | Formula::Same(_, _)
        | Formula::Less(_, _)
        | Formula::Iff(_, _) => claim_test(alloc, trace, extent, value, levels, f),
    }
}

// That the test of what is left of the formula gives this.
fn claim_test<'a>(
    alloc: Global,
    trace: &'a ReadyTrace<'_>,
    extent: Extent,
    value: bool,
    levels: &Levels<'_>,
    f: &'a Formula,
) -> Result<Box<Claim<'a>>, Mem>
    ensures { IfOk result (λ r. claim r.value ≡ claim_test trace.now extent (layers levels.now) value (form f.now)) }
{
    let plan = ready_box(alloc, trace, extent, levels, f)?;
    tested(alloc, value, plan)
}

fn tested<'a>(alloc: Global, value: bool, p: Box<Plan<'a>>) -> Result<Box<Claim<'a>>, Mem>
    ensures { IfOk result (λ r. claim r.value ≡ tested value (plan p.entry.value)) }
{
    Ok(Box::new(alloc, Claim::Tested(value, p))?)
}

// What nothing shows.
fn never<'a>(alloc: Global) -> Result<Box<Claim<'a>>, Mem>
    ensures { IfOk result (λ r. claim r.value ≡ tested true (always false)) }
{
    tested(alloc, true, always(alloc, false)?)
}

// Both, or the first that holds.
fn paired<'a>(
    alloc: Global,
    each: bool,
    two: (Box<Claim<'a>>, Box<Claim<'a>>),
) -> Result<Box<Claim<'a>>, Mem>
    ensures { IfOk result (λ r. claim r.value ≡ paired each (claim two.entry.0.value) (claim two.entry.1.value)) }
{
    if each {
        return Ok(Box::new(alloc, Claim::Each(two.0, two.1))?);
    }
    Ok(Box::new(alloc, Claim::First(two.0, two.1))?)
}

// The truth value that is claimed of a connective's first part.
fn first_value(like: &Formula, value: bool) -> bool
    ensures { result ≡ first_value (form like.now) value }
{
    match like {
        Formula::Imp(_, _) => !value,
        _ => value,
    }
}

// Whether both parts have to be shown.
fn is_each(like: &Formula, value: bool) -> bool
    ensures { result ≡ is_each (form like.now) value }
{
    match like {
        Formula::And(_, _) => value,
        _ => !value,
    }
}

// That some choice shows that the quantifier over this body has the truth value that `every` isn't.
#[cycle(claimed)]
fn choosing_over<'a>(
    alloc: Global,
    trace: &'a ReadyTrace<'_>,
    every: bool,
    levels: &Levels<'_>,
    bs: &'a Binders,
    f: &'a Formula,
) -> Result<Box<Claim<'a>>, Mem>
    ensures { IfOk result (λ r. claim r.value ≡ choosing_over trace.now every (layers levels.now) bs.now (form f.now) (claim_of trace.now (beside every) (named_by every (layers levels.now) bs.now (form f.now) ∷ layers levels.now) (not every) (form f.now))) }
{
    let mut names = NameSet::new(alloc);
    let guards = ready_guards(alloc, trace, every, levels, bs, f, &mut names)?;
    let inner = Levels::Inside(&names, &*levels);
    chosen(alloc, trace, every, &inner, guards, bs, f)
}

// A search through the facts of these guards, over this body inside these levels; none where a guard has no fact.
#[cycle(claimed)]
fn chosen<'a>(
    alloc: Global,
    trace: &'a ReadyTrace<'_>,
    every: bool,
    levels: &Levels<'_>,
    guards: Items<GuardPlan<'a>>,
    bs: &'a Binders,
    f: &'a Formula,
) -> Result<Box<Claim<'a>>, Mem>
    ensures { IfOk result (λ r. claim r.value ≡ choosing_of (map guard guards.entry) (slots_of (layers levels.now) (lasts bs.now)) (claim_of trace.now (beside every) (layers levels.now) (not every) (form f.now))) }
{
    if are_idle(&guards) {
        return never(alloc);
    }
    let two = both(
        slots_of(alloc, levels, bs),
        claim_box(alloc, trace, beside(every), !every, levels, f),
    )?;
    choosing(alloc, guards, two)
}

fn choosing<'a>(
    alloc: Global,
    guards: Items<GuardPlan<'a>>,
    two: (Items<Slotted<'a>>, Box<Claim<'a>>),
) -> Result<Box<Claim<'a>>, Mem>
    ensures { IfOk result (λ r. claim r.value ≡ choosing (map guard guards.entry) (map slotted two.entry.0) (claim two.entry.1.value)) }
{
    Ok(Box::new(alloc, Claim::Choosing(guards, two.0, two.1))?)
}

// The binders that no later one hides, with the slots of their names, from the end on.
fn slots_of<'a>(
    alloc: Global,
    levels: &Levels<'_>,
    bs: &'a Binders,
) -> Result<Items<Slotted<'a>>, Mem>
    ensures { IfOk result (λ ts. map slotted ts ≡ slots_of (layers levels.now) (lasts bs.now)) }
{
    let mut later = NameSet::new(alloc);
    let mut out = Items::new(alloc);
    for k in 0..bs.len() {
        slot_last(levels, bs.at(bs.len() - 1 - k), &mut later, &mut out)?;
    }
    Ok(out)
}

// Puts the binder last, unless a later one has its name.
fn slot_last<'a>(
    levels: &Levels<'_>,
    b: &'a Binder,
    later: &mut NameSet,
    out: &mut Items<Slotted<'a>>,
) -> Result<(), Mem>
    ensures later { OnOk result ((n : List ℕ) → list_any (bytes_eq n) later.new ≡ (bytes_eq (binder_name b.now) n || list_any (bytes_eq n) later.old)) }
    ensures out { OnOk result (map slotted out.new ≡ (if list_any (bytes_eq (binder_name b.now)) later.old then map slotted out.old else map slotted out.old ++ record { binder = b.now; slot = slot_in (layers levels.now) (binder_name b.now) } ∷ [])) }
{
    let slot = slot_in(levels, b.name())?;
    let (_, new) = later.insert(b.name())?;
    if new {
        out.push(Slotted { binder: b, slot })?;
    }
    Ok(())
}
