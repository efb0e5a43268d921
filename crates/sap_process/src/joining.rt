//! What was made, taken together, put into lists and out of boxes.
ghost use Rattle.std.specs.Prelude.{◌≡◌, [], ◌∷◌, ◌++◌, Ok, IfOk, OnOk};
ghost use Rattle.std.specs.Box.{box_value};
ghost use Rattle.std.specs.Result.{result_map_both};

use sap_terms::{Copied, Items, Mem};
use std::alloc::Global;

// Both, where both are there.
pub(crate) fn both<T: Drop, U: Drop>(
    left: Result<T, Mem>,
    right: Result<U, Mem>,
) -> Result<(T, U), Mem>
    ensures { IfOk result (λ two. (left ≡ Ok two.0) × (right ≡ Ok two.1)) }
{
    match left {
        Ok(left) => match right {
            Ok(right) => Ok((left, right)),
            Err(e) => {
                drop(left);
                Err(e)
            }
        },
        Err(e) => {
            drop(right);
            Err(e)
        }
    }
}

// Puts a copy last.
pub(crate) fn push_copy<T: Copied + Drop>(
    alloc: Global,
    list: &mut Items<T>,
    one: &T,
) -> Result<(), Mem>
    ensures { OnOk result (list.new ≡ list.old ++ one.now ∷ []) }
{
    list.push(one.copy(alloc)?)
}

// What is in the box, where it is there.
pub(crate) fn unboxed<T: Drop, E: Drop>(made: Result<Box<T>, E>) -> Result<T, E>
    ensures { result ≡ result_map_both box_value (λ e. e) made }
{
    match made {
        Ok(one) => Ok(Box::into_inner(one)),
        Err(e) => Err(e),
    }
}
