//! A flag for each word of a file, and one behind them all.
ghost use Rattle.std.specs.Prelude.{◌≡◌, ◌<◌, Bool, List, true, false, length, replicate, set, slice_get, Some, IfOk};
ghost use Rattle.std.specs.Option.{option_copied};

use sap_terms::Mem;
use std::alloc::Global;
use std::marker::Model;

/// Flags, which contracts see as a list.
#[derive(Drop)]
pub(crate) struct Flags {
    items: Vec<bool>,
}

impl Model for Flags {
    ghost use Rattle.std.specs.Prelude.{Bool, List};

    ghost Value = { List Bool };

    ghost view = { λ a. a.items.items };
}

impl Flags {
    // So many, none of which is set.
    pub(crate) fn new(alloc: Global, count: usize) -> Result<Flags, Mem>
        ensures { IfOk result (λ f. f ≡ replicate count false) }
    {
        let items = vec![in alloc; false; count]?;
        Ok(Flags { items })
    }

    // Sets the flag of this number.
    pub(crate) fn set(&mut self, k: usize)
        requires { k < length self.old }
        ensures { self.new ≡ set self.old k true }
    {
        self.items[k] = true;
    }

    // The flags side by side.
    pub(crate) fn as_slice(&self) -> &[bool]
        ensures { result.now ≡ self.now }
    {
        self.items.as_slice()
    }
}
