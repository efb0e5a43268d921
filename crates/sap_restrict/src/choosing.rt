//! Which restrictions a process needs.
ghost use Rattle.std.specs.Prelude.{◌≡◌, IfOk};
ghost use Rattle.sap_process.specs.Proc.{Proc, proc};
ghost use Rattle.sap_restrict.specs.Needed.{has, is_input, is_lock, is_lookup, is_test, needed, needs};

use crate::uses::{Uses, uses_of};
use crate::{Which, WhichList};
use sap_process::Process;
use sap_terms::Mem;
use std::alloc::Global;

/// The seven, in order.
const EVERY: [Which; 7] = [
    Which::Init,
    Which::Eq,
    Which::NotEq,
    Which::In,
    Which::NotIn,
    Which::Lock,
    Which::InEv,
];

/// The restrictions that the process needs, in their order. Want of memory is the only error. It goes through the process
/// once, and recurses as deep as the process.
pub fn needed(alloc: Global, p: &Process) -> Result<WhichList, Mem>
    ensures { IfOk result (λ ws. ws ≡ needed (proc p.now)) }
{
    let uses = uses_of(p);
    let mut all = WhichList::new(alloc);
    for k in 0..EVERY.len() {
        if is_needed(EVERY[k], uses) {
            all.push(EVERY[k])?;
        }
    }
    Ok(all)
}

/// Whether a process that has these forms, and no others of them, needs the restriction.
fn is_needed(which: Which, uses: Uses) -> bool
    ensures { (p : Proc) → uses.test ≡ has is_test p → uses.lookup ≡ has is_lookup p → uses.lock ≡ has is_lock p
        → uses.input ≡ has is_input p → result ≡ needs which p }
{
    match which {
        Which::Init => true,
        Which::Eq | Which::NotEq => uses.test,
        Which::In | Which::NotIn => uses.lookup,
        Which::Lock => uses.lock,
        Which::InEv => uses.input,
    }
}
