//! Copies of two values.
ghost use Rattle.std.specs.Prelude.{◌≡◌, IfOk};

use sap_terms::{Copied, Mem};
use std::alloc::Global;

// A copy of each.
pub(crate) fn copies<T: Copied + Drop, U: Copied + Drop>(
    alloc: Global,
    left: &T,
    right: &U,
) -> Result<(T, U), Mem>
    ensures { IfOk result (λ two. (two.0 ≡ left.now) × (two.1 ≡ right.now)) }
{
    let left = left.copy(alloc)?;
    Ok((left, right.copy(alloc)?))
}
