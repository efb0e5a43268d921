//! Formulas made ready without what is true or false whatever the slots hold, so that no test of them comes to it.
ghost use Rattle.std.specs.Prelude.{◌≡◌, IfOk, map};
ghost use Rattle.sap_formula.specs.View.{form};
ghost use Rattle.sap_judge.specs.code.Folded.{and_by, are_idle, constant, iff_by, imp_by, not_of, or_by, search_by};
ghost use Rattle.sap_search.specs.View.{guard, plan};
ghost use Rattle.sap_judge.specs.code.Quantifying.{connected};
ghost use Rattle.sap_search.specs.Plan.{always};

use sap_formula::Formula;
use sap_search::{GuardPlan, Plan};
use sap_terms::{Items, Mem};
use std::alloc::Global;

// A formula made ready, in a box.
pub(crate) fn boxed<'a>(alloc: Global, p: Plan<'a>) -> Result<Box<Plan<'a>>, Mem>
    ensures { IfOk result (λ r. plan r.value ≡ plan p.entry) }
{
    Ok(Box::new(alloc, p)?)
}

// What has this truth value.
pub(crate) fn always<'a>(alloc: Global, b: bool) -> Result<Box<Plan<'a>>, Mem>
    ensures { IfOk result (λ r. plan r.value ≡ always b) }
{
    boxed(alloc, Plan::Always(b))
}

// The truth value that it has for sure.
fn constant(p: &Plan<'_>) -> Option<bool>
    ensures { result ≡ constant (plan p.now) }
{
    match p {
        Plan::Always(b) => Some(*b),
        _ => None,
    }
}

// Its negation.
pub(crate) fn not_of<'a>(alloc: Global, p: Box<Plan<'a>>) -> Result<Box<Plan<'a>>, Mem>
    ensures { IfOk result (λ r. plan r.value ≡ not_of (plan p.entry.value)) }
{
    match constant(&p) {
        Some(b) => always(alloc, !b),
        None => boxed(alloc, Plan::Not(p)),
    }
}

fn and_of<'a>(alloc: Global, p: Box<Plan<'a>>, q: Box<Plan<'a>>) -> Result<Box<Plan<'a>>, Mem>
    ensures { IfOk result (λ r. plan r.value ≡ and_by (constant (plan p.entry.value)) (constant (plan q.entry.value)) (plan p.entry.value) (plan q.entry.value)) }
{
    match (constant(&p), constant(&q)) {
        (Some(true), _) => Ok(q),
        (Some(false), _) => Ok(p),
        (None, Some(true)) => Ok(p),
        (None, Some(false)) => Ok(q),
        (None, None) => boxed(alloc, Plan::And(p, q)),
    }
}

fn or_of<'a>(alloc: Global, p: Box<Plan<'a>>, q: Box<Plan<'a>>) -> Result<Box<Plan<'a>>, Mem>
    ensures { IfOk result (λ r. plan r.value ≡ or_by (constant (plan p.entry.value)) (constant (plan q.entry.value)) (plan p.entry.value) (plan q.entry.value)) }
{
    match (constant(&p), constant(&q)) {
        (Some(true), _) => Ok(p),
        (Some(false), _) => Ok(q),
        (None, Some(true)) => Ok(q),
        (None, Some(false)) => Ok(p),
        (None, None) => boxed(alloc, Plan::Or(p, q)),
    }
}

fn imp_of<'a>(alloc: Global, p: Box<Plan<'a>>, q: Box<Plan<'a>>) -> Result<Box<Plan<'a>>, Mem>
    ensures { IfOk result (λ r. plan r.value ≡ imp_by (constant (plan p.entry.value)) (constant (plan q.entry.value)) (plan p.entry.value) (plan q.entry.value)) }
{
    match (constant(&p), constant(&q)) {
        (Some(true), _) => Ok(q),
        (Some(false), _) => always(alloc, true),
        (None, Some(true)) => Ok(q),
        (None, Some(false)) => not_of(alloc, p),
        (None, None) => boxed(alloc, Plan::Imp(p, q)),
    }
}

fn iff_of<'a>(alloc: Global, p: Box<Plan<'a>>, q: Box<Plan<'a>>) -> Result<Box<Plan<'a>>, Mem>
    ensures { IfOk result (λ r. plan r.value ≡ iff_by (constant (plan p.entry.value)) (constant (plan q.entry.value)) (plan p.entry.value) (plan q.entry.value)) }
{
    match (constant(&p), constant(&q)) {
        (Some(true), _) => Ok(q),
        (Some(false), _) => not_of(alloc, q),
        (None, Some(true)) => Ok(p),
        (None, Some(false)) => not_of(alloc, p),
        (None, None) => boxed(alloc, Plan::Iff(p, q)),
    }
}

// The connective of this formula between the two.
pub(crate) fn connected<'a>(
    alloc: Global,
    like: &Formula,
    two: (Box<Plan<'a>>, Box<Plan<'a>>),
) -> Result<Box<Plan<'a>>, Mem>
    ensures { IfOk result (λ r. plan r.value ≡ connected (form like.now) (plan two.entry.0.value) (plan two.entry.1.value)) }
{
    match like {
        Formula::And(_, _) => and_of(alloc, two.0, two.1),
        Formula::Or(_, _) => or_of(alloc, two.0, two.1),
        Formula::Imp(_, _) => imp_of(alloc, two.0, two.1),
        _ => iff_of(alloc, two.0, two.1),
    }
}

// Whether some guard has no fact.
#[tactic(auto, using(crate::proofs::FoldLaws::idle_laws))]
pub(crate) fn are_idle(guards: &Items<GuardPlan<'_>>) -> bool
    ensures { result ≡ are_idle (map guard guards.now) }
{
    for k in 0..guards.len() {
        if guards.at(k).facts.len() == 0 {
            return true;
        }
    }
    false
}

// A search through the facts of guards, unless its body is its answer for sure.
pub(crate) fn search_of<'a>(
    alloc: Global,
    d: bool,
    guards: Items<GuardPlan<'a>>,
    body: Box<Plan<'a>>,
) -> Result<Box<Plan<'a>>, Mem>
    ensures { IfOk result (λ r. plan r.value ≡ search_by (constant (plan body.entry.value)) d (map guard guards.entry) (plan body.entry.value)) }
{
    match constant(&body) {
        Some(b) => {
            if b == d {
                return always(alloc, d);
            }
        }
        None => {}
    }
    boxed(alloc, Plan::Search(d, guards, body))
}
