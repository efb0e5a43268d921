//! The first node of a head that is a variable with another sign than its binder's sort.
ghost use Rattle.std.specs.Prelude.{◌≡◌, List, IfOk, OnOk};
ghost use Rattle.sap_terms.specs.Signature.{Sig};
ghost use Rattle.sap_process.specs.Proc.{proc};
ghost use Rattle.sap_process.specs.Sites.{Site};
ghost use Rattle.sap_process.specs.declared.flaw.Flaw.TheVariants.{SortClash};
ghost use Rattle.sap_nodes.specs.FlawNodes.{IsTold};
ghost use Rattle.sap_nodes.specs.code.Signs.{patterns_met, terms_met};

use crate::Part;
use crate::finding::{Search, told};
use crate::trail::{How, Trail, at_start, in_both, in_fact, in_rule, in_term};
use sap_process::Process;
use sap_terms::{Mem, Vars};
use std::alloc::Global;

/// The node of the head of the process that is a variable whose sign isn't the sort of its binder, where these are in scope and
/// what the head binds is too: the first one, counted from 0 in the order in which the head is written; from the greatest u64 on,
/// that number. Want of memory is the only error. It takes time in proportion to the scope and the head, where names are looked up
/// by a tree, and recurses as deep as the head's terms.
pub fn signed_node(alloc: Global, scope: &Vars, p: &Process) -> Result<Option<u64>, Mem>
    ensures { IfOk result (λ o. (g : Sig) (before : List Site) (s : Site) → s.body ≡ proc p.now → s.above.scope ≡ scope.now
        → IsTold g before s SortClash o) }
{
    let mut trail = at_start(alloc, scope)?;
    in_patterns(alloc, p, &mut trail)?;
    trail.search = Search {
        at: 0,
        found: false,
    };
    in_terms_of(alloc, p, &mut trail)?;
    Ok(told(trail.search))
}

// What the head binds is known.
fn in_patterns(alloc: Global, p: &Process, trail: &mut Trail) -> Result<(), Mem>
    ensures { OnOk result (trail.new ≡ patterns_met trail.old (proc p.now)) }
{
    match p {
        Process::In(t, _) | Process::Recv(_, t, _) => {
            in_term(alloc, How::Taken, Part::Pattern, t, trail)
        }
        Process::Embedded(l, e, r, _) => in_rule(alloc, How::Taken, How::Taken, l, e, r, trail),
        _ => Ok(()),
    }
}

// The terms of the head are met, and its facts.
fn in_terms_of(alloc: Global, p: &Process, trail: &mut Trail) -> Result<(), Mem>
    ensures { OnOk result (trail.new ≡ terms_met trail.old (proc p.now)) }
{
    match p {
        Process::Nil | Process::Par(_, _) | Process::Rep(_) | Process::New(_, _) => Ok(()),
        Process::In(t, _) => in_term(alloc, How::Signed, Part::Pattern, t, trail),
        Process::Out(t, _)
        | Process::Delete(t, _)
        | Process::Lookup(t, _, _, _)
        | Process::Lock(t, _, _)
        | Process::Unlock(t, _, _) => in_term(alloc, How::Signed, Part::Given, t, trail),
        Process::Recv(t, u, _) => in_both(alloc, How::Signed, t, Part::Pattern, u, trail),
        Process::Send(t, u, _) | Process::If(t, u, _, _) | Process::Insert(t, u, _) => {
            in_both(alloc, How::Signed, t, Part::Given, u, trail)
        }
        Process::Event(f, _) => in_fact(alloc, How::Signed, Part::Shown, f, trail),
        Process::Embedded(l, e, r, _) => in_rule(alloc, How::Signed, How::Signed, l, e, r, trail),
    }
}
