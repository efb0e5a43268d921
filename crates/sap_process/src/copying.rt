//! Copies of processes.
ghost use Rattle.std.specs.Prelude.{◌≡◌, IfOk};
ghost use Rattle.sap_process.specs.Proc.{proc};

use crate::Process;
use crate::joining::unboxed;
use crate::substituting::replaced;
use sap_terms::{Bindings, Mem};
use std::alloc::Global;

impl Process {
    /// An equal process. Want of memory is the only error. It recurses as deep as the process and its terms.
    pub fn copy(&self, alloc: Global) -> Result<Process, Mem>
        ensures { IfOk result (λ p. proc p ≡ proc self.now) }
    {
        unboxed(copied(alloc, self))
    }
}

// The process where nothing is replaced.
fn copied(alloc: Global, p: &Process) -> Result<Box<Process>, Mem>
    ensures { IfOk result (λ q. proc q.value ≡ proc p.now) }
{
    let nothing = Bindings::new(alloc);
    replaced(alloc, p, &nothing)
}
