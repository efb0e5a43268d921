//! Formulas made anew: copied, or with the sorts of binders.
ghost use Rattle.std.specs.Prelude.{◌≡◌, IfOk, Ok};
ghost use Rattle.sap_formula.specs.View.{form};
ghost use Rattle.sap_formula.specs.code.Remade.{entered, joined, quantified, remade, timed};
ghost use Rattle.sap_formula.specs.code.Scoped.{binders};

use crate::scope::{Scope, entered};
use crate::sorting::{sorted_action, sorted_equal};
use crate::{Binders, Formula};
use sap_terms::{Copied, Mem, Name, boxed};
use std::alloc::Global;

// How a formula is made anew.
#[derive(Clone, Copy)]
pub(crate) enum How {
    // As it is.
    Same,
    // With the sorts of its binders.
    Sorted,
}

// The formula made anew inside these binders.
#[cycle(remade)]
pub(crate) fn remade(
    alloc: Global,
    how: How,
    scope: &Scope<'_>,
    f: &Formula,
) -> Result<Box<Formula>, Mem>
    ensures { IfOk result (λ r. form r.value ≡ remade how (binders scope.now) (form f.now)) }
{
    match f {
        Formula::True => boxed(alloc, Formula::True),
        Formula::False => boxed(alloc, Formula::False),
        Formula::Action(h, i) => sorted_action(alloc, scope, h, i),
        Formula::Equal(s, t) => sorted_equal(alloc, scope, s, t),
        Formula::Same(i, j) | Formula::Less(i, j) => timed(alloc, f, i, j),
        Formula::Not(g) => boxed(alloc, Formula::Not(remade(alloc, how, scope, g)?)),
        Formula::And(g, h) | Formula::Or(g, h) | Formula::Imp(g, h) | Formula::Iff(g, h) => {
            let two = both(remade(alloc, how, scope, g), remade(alloc, how, scope, h))?;
            joined(alloc, f, two)
        }
        Formula::All(bs, g) | Formula::Ex(bs, g) => {
            quantified(alloc, f, bs, below(alloc, how, scope, bs, g)?)
        }
    }
}

// What stands below a quantifier, made anew.
#[cycle(remade)]
fn below(
    alloc: Global,
    how: How,
    scope: &Scope<'_>,
    bs: &Binders,
    f: &Formula,
) -> Result<Box<Formula>, Mem>
    ensures { IfOk result (λ r. form r.value ≡ remade how (entered how bs.now (binders scope.now)) (form f.now)) }
{
    match how {
        How::Sorted => {
            let inside = entered(alloc, bs)?;
            let inner = Scope::Inside(&inside, &*scope);
            remade(alloc, how, &inner, f)
        }
        How::Same => remade(alloc, how, scope, f),
    }
}

/// Both, where both are there.
pub fn both<T: Drop, U: Drop>(left: Result<T, Mem>, right: Result<U, Mem>) -> Result<(T, U), Mem>
    ensures { IfOk result (λ two. (left ≡ Ok two.0) × (right ≡ Ok two.1)) }
{
    let left = left?;
    Ok((left, right?))
}

// The connective of this formula between the two.
fn joined(
    alloc: Global,
    like: &Formula,
    two: (Box<Formula>, Box<Formula>),
) -> Result<Box<Formula>, Mem>
    ensures { IfOk result (λ r. form r.value ≡ joined (form like.now) (form two.0.value) (form two.1.value)) }
{
    match like {
        Formula::And(_, _) => boxed(alloc, Formula::And(two.0, two.1)),
        Formula::Or(_, _) => boxed(alloc, Formula::Or(two.0, two.1)),
        Formula::Imp(_, _) => boxed(alloc, Formula::Imp(two.0, two.1)),
        _ => boxed(alloc, Formula::Iff(two.0, two.1)),
    }
}

// Its quantifier over this body.
fn quantified(
    alloc: Global,
    like: &Formula,
    bs: &Binders,
    body: Box<Formula>,
) -> Result<Box<Formula>, Mem>
    ensures { IfOk result (λ r. form r.value ≡ quantified (form like.now) bs.now (form body.value)) }
{
    let bs = bs.copy(alloc)?;
    match like {
        Formula::All(_, _) => boxed(alloc, Formula::All(bs, body)),
        _ => boxed(alloc, Formula::Ex(bs, body)),
    }
}

// Its relation between these times.
fn timed(alloc: Global, like: &Formula, i: &Name, j: &Name) -> Result<Box<Formula>, Mem>
    ensures { IfOk result (λ r. form r.value ≡ timed (form like.now) i.now j.now) }
{
    let two = both(i.copy(alloc), j.copy(alloc))?;
    match like {
        Formula::Same(_, _) => boxed(alloc, Formula::Same(two.0, two.1)),
        _ => boxed(alloc, Formula::Less(two.0, two.1)),
    }
}
