//! Of which place and which node a flaw speaks.
ghost use Rattle.std.specs.Prelude.{◌≡◌, ℕ, List, Some, take, slice_get, IfOk};
ghost use Rattle.sap_process.specs.Proc.{proc};
ghost use Rattle.sap_process.specs.Sites.{Site, sites_in};
ghost use Rattle.sap_nodes.specs.SpokenOf.{of_itself, IsSpoken};

use crate::{Spoken, clash_node, full_node, rebound_node, signed_node, unbound_node, word_node};
use sap_process::{Flaw, Process};
use sap_terms::{Mem, Path, Signature, Vars};
use std::alloc::Global;

/// The place and the node of which the flaw speaks that the place of this path has in the whole process, where the outer variables
/// are in scope at its root; these are in scope at the place, and this is the process there. Each flaw but that of a full scope speaks
/// of a node of its head: the first that has it, counted from 0 in the order in which the head is written, and from the greatest u64
/// on by that number; a full scope of what is the first too many on the way there. Want of memory is the only error. It takes time in
/// proportion to the scope, the head and, of facts that clash and of a full scope, to the places before or above, where names are
/// looked up by a tree, and recurses as deep as the process and its terms.
pub fn flaw_node(
    alloc: Global,
    sig: &Signature,
    outer: &Vars,
    whole: &Process,
    path: &Path,
    scope: &Vars,
    p: &Process,
    which: Flaw,
) -> Result<Option<Spoken>, Mem>
    ensures { IfOk result (λ o. (k : ℕ) (s : Site) → slice_get (sites_in outer.now (proc whole.now)) k ≡ Some s → s.path ≡ path.now
        → s.body ≡ proc p.now → s.above.scope ≡ scope.now
        → IsSpoken sig.now outer.now (proc whole.now) (take k (sites_in outer.now (proc whole.now))) s which o) }
{
    match which {
        Flaw::BadFunction => Ok(of_itself(path, word_node(sig, p, Flaw::BadFunction))),
        Flaw::ReservedVar => Ok(of_itself(path, word_node(sig, p, Flaw::ReservedVar))),
        Flaw::ReservedFact => Ok(of_itself(path, word_node(sig, p, Flaw::ReservedFact))),
        Flaw::FactClash => {
            let clash = clash_node(alloc, whole, path)?;
            Ok(of_itself(path, clash))
        }
        Flaw::PatternDestructor => {
            Ok(of_itself(path, word_node(sig, p, Flaw::PatternDestructor)))
        }
        Flaw::Unbound => {
            let unbound = unbound_node(alloc, scope, p)?;
            Ok(of_itself(path, unbound))
        }
        Flaw::Rebound => Ok(of_itself(path, rebound_node(scope, p))),
        Flaw::SortClash => {
            let signed = signed_node(alloc, scope, p)?;
            Ok(of_itself(path, signed))
        }
        Flaw::ScopeFull => full_node(alloc, outer, whole, path),
    }
}

// The node of the place of this path itself.
fn of_itself(path: &Path, node: Option<u64>) -> Option<Spoken>
    ensures { result ≡ of_itself path.now node }
{
    match node {
        None => None,
        Some(k) => Some(Spoken {
            depth: path.len(),
            node: Some(k),
        }),
    }
}
