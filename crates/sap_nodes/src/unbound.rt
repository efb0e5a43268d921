//! The first node of a head that is a variable which nothing binds.
ghost use Rattle.std.specs.Prelude.{◌≡◌, List, IfOk, OnOk};
ghost use Rattle.sap_terms.specs.Signature.{Sig};
ghost use Rattle.sap_process.specs.Proc.{proc};
ghost use Rattle.sap_process.specs.Sites.{Site};
ghost use Rattle.sap_process.specs.declared.flaw.Flaw.TheVariants.{Unbound};
ghost use Rattle.sap_nodes.specs.FlawNodes.{IsTold};
ghost use Rattle.sap_nodes.specs.code.Trails.{head_met};

use crate::Part;
use crate::finding::told;
use crate::trail::{How, Trail, at_start, in_both, in_fact, in_rule, in_term};
use sap_process::Process;
use sap_terms::{Mem, Vars};
use std::alloc::Global;

/// The node of the head of the process that is a variable which nothing binds, where these are in scope: the first one, counted
/// from 0 in the order in which the head is written; from the greatest u64 on, that number. Want of memory is the only error. It
/// takes time in proportion to the scope and the head, where names are looked up by a tree, and recurses as deep as the head's
/// terms.
pub fn unbound_node(alloc: Global, scope: &Vars, p: &Process) -> Result<Option<u64>, Mem>
    ensures { IfOk result (λ o. (g : Sig) (before : List Site) (s : Site) → s.body ≡ proc p.now → s.above.scope ≡ scope.now
        → IsTold g before s Unbound o) }
{
    let mut trail = at_start(alloc, scope)?;
    in_head(alloc, p, &mut trail)?;
    Ok(told(trail.search))
}

// What the head evaluates is met, and the whole of an embedded rule.
fn in_head(alloc: Global, p: &Process, trail: &mut Trail) -> Result<(), Mem>
    ensures { OnOk result (trail.new ≡ head_met trail.old (proc p.now)) }
{
    match p {
        Process::Nil
        | Process::Par(_, _)
        | Process::Rep(_)
        | Process::New(_, _)
        | Process::In(_, _) => Ok(()),
        Process::Out(t, _)
        | Process::Recv(t, _, _)
        | Process::Delete(t, _)
        | Process::Lookup(t, _, _, _)
        | Process::Lock(t, _, _)
        | Process::Unlock(t, _, _) => in_term(alloc, How::Used, Part::Given, t, trail),
        Process::Send(t, u, _) | Process::If(t, u, _, _) | Process::Insert(t, u, _) => {
            in_both(alloc, How::Used, t, Part::Given, u, trail)
        }
        Process::Event(f, _) => in_fact(alloc, How::Used, Part::Shown, f, trail),
        Process::Embedded(l, e, r, _) => in_rule(alloc, How::Taken, How::Ruled, l, e, r, trail),
    }
}
