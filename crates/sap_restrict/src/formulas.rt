//! The seven restrictions as formulas.
ghost use Rattle.std.specs.Prelude.{◌≡◌, IfOk};
ghost use Rattle.sap_formula.specs.View.{form};
ghost use Rattle.sap_shapes.specs.Shapes.{says};
ghost use Rattle.sap_restrict.specs.Standard.{standard};

use crate::Which;
use crate::shape::built;
use sap_formula::Formula;
use sap_shapes::{
    Shape, each_equal, each_found, each_lock, each_missed, each_served, each_unequal, one_start,
};
use sap_terms::Mem;
use std::alloc::Global;

/// The formula of a restriction. Want of memory is the only error.
pub fn standard(alloc: Global, which: Which) -> Result<Formula, Mem>
    ensures { IfOk result (λ f. form f ≡ standard which) }
{
    Ok(Box::into_inner(boxed_standard(alloc, which)?))
}

/// The same in a box.
fn boxed_standard(alloc: Global, which: Which) -> Result<Box<Formula>, Mem>
    ensures { IfOk result (λ f. form f.value ≡ standard which) }
{
    let shape = shape_of(which);
    built(alloc, &shape)
}

/// What it says.
fn shape_of(which: Which) -> Shape<'static>
    ensures { says result ≡ standard which }
{
    match which {
        Which::Init => one_start(),
        Which::Eq => each_equal(),
        Which::NotEq => each_unequal(),
        Which::In => each_found(),
        Which::NotIn => each_missed(),
        Which::Lock => each_lock(),
        Which::InEv => each_served(),
    }
}
