//! Formulas under restrictions that they carry themselves.
ghost use Rattle.std.specs.Prelude.{◌≡◌, IfOk};
ghost use Rattle.sap_formula.specs.Form.{both};
ghost use Rattle.sap_formula.specs.View.{form};
ghost use Rattle.sap_inline.specs.Inline.{conjunction, formulas, inlined};

use sap_formula::{Formula, Mode, RestrictionList};
use sap_terms::{Mem, boxed};
use std::alloc::Global;

/// The formula under the restrictions, which are joined leftmost first: for all traces they imply it, for some trace they are
/// true with it. Want of memory is the only error. It recurses as deep as each formula that it is given, and not as deep as
/// the answer.
pub fn inline(
    alloc: Global,
    restrictions: &RestrictionList,
    mode: Mode,
    f: &Formula,
) -> Result<Formula, Mem>
    ensures { IfOk result (λ r. form r ≡ inlined mode (formulas restrictions.now) (form f.now)) }
{
    Ok(Box::into_inner(boxed_inline(alloc, restrictions, mode, f)?))
}

/// The same in a box.
fn boxed_inline(
    alloc: Global,
    restrictions: &RestrictionList,
    mode: Mode,
    f: &Formula,
) -> Result<Box<Formula>, Mem>
    ensures { IfOk result (λ r. form r.value ≡ inlined mode (formulas restrictions.now) (form f.now)) }
{
    let all = conjunction(alloc, restrictions)?;
    let f = copied(alloc, f)?;
    match mode {
        Mode::AllTraces => boxed(alloc, Formula::Imp(all, f)),
        Mode::ExistsTrace => boxed(alloc, Formula::And(all, f)),
    }
}

/// The restrictions' formulas, joined leftmost first.
fn conjunction(alloc: Global, restrictions: &RestrictionList) -> Result<Box<Formula>, Mem>
    ensures { IfOk result (λ r. form r.value ≡ conjunction (formulas restrictions.now)) }
{
    if restrictions.len() == 0 {
        return boxed(alloc, Formula::True);
    }
    let mut joined = copied(alloc, &restrictions.at(0).formula)?;
    for k in 1..restrictions.len() {
        joined = with_copy(alloc, joined, &restrictions.at(k).formula)?;
    }
    Ok(joined)
}

fn copied(alloc: Global, f: &Formula) -> Result<Box<Formula>, Mem>
    ensures { IfOk result (λ r. form r.value ≡ form f.now) }
{
    boxed(alloc, f.copy(alloc)?)
}

/// `f & g`, with a copy of g.
fn with_copy(alloc: Global, f: Box<Formula>, g: &Formula) -> Result<Box<Formula>, Mem>
    ensures { IfOk result (λ r. form r.value ≡ both (form f.value) (form g.now)) }
{
    let g = copied(alloc, g)?;
    boxed(alloc, Formula::And(f, g))
}
