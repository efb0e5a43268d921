//! Boxes for large values.
ghost use Rattle.std.specs.Prelude.{◌≡◌, [], ◌∷◌, ◌++◌, IfOk, OnOk};

use crate::{Items, Mem};
use std::alloc::Global;

/// The value in a box. A large value stands in one as soon as it is made. Want of memory is the only error.
pub fn boxed<T: Drop>(alloc: Global, value: T) -> Result<Box<T>, Mem>
    ensures { IfOk result (λ b. b.value ≡ value) }
{
    Ok(Box::new(alloc, value)?)
}

/// Puts what is boxed last. Want of memory is the only error.
pub fn push_boxed<T: Drop>(list: &mut Items<T>, one: Box<T>) -> Result<(), Mem>
    ensures { OnOk result (list.new ≡ list.old ++ one.value ∷ []) }
{
    list.push(Box::into_inner(one))
}
