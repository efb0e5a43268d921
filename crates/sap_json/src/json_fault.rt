//! Why bytes of JSON are no run.
ghost use Rattle.std.specs.Prelude.{◌≡◌};

use sap_terms::Mem;

/// Why bytes of JSON are no run. Steps are counted from 1.
#[derive(Clone, Copy)]
pub enum JsonFault {
    /// Want of memory.
    Mem,
    /// The bytes are no JSON: no UTF-8, or no value, or one that is nested deeper than 127 levels.
    NotJson,
    /// The value isn't the object of a kind of runs and of an array, under `kind` and `steps` alone.
    NotRun,
    /// This item of the array is the first that is no step's, and few enough stand before it.
    BadStep { step: u64 },
    /// An item stands behind as many steps as a run of this kind may have.
    TooManySteps { most: u64 },
}

impl From<Mem> for JsonFault {
    ghost use Rattle.sap_json.specs.declared.json_fault.JsonFault.TheVariants as fault;

    ghost from_gives = { λ _ e. e ≡ fault.Mem };

    fn from(_: Mem) -> JsonFault {
        JsonFault::Mem
    }
}
