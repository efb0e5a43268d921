//! The node of a head that binds a name which is in scope already.
ghost use Rattle.std.specs.Prelude.{◌≡◌, List};
ghost use Rattle.sap_terms.specs.Signature.{Sig};
ghost use Rattle.sap_terms.specs.Variables.{is_known};
ghost use Rattle.sap_process.specs.Proc.{proc};
ghost use Rattle.sap_process.specs.Sites.{Site, var_names};
ghost use Rattle.sap_process.specs.declared.flaw.Flaw.TheVariants.{Rebound};
ghost use Rattle.sap_nodes.specs.FlawNodes.{IsTold};
ghost use Rattle.sap_nodes.specs.code.Rebound.{binder_at};

use sap_process::Process;
use sap_terms::{Name, Vars};

/// The node of the head of the process that is what `new` or `lookup` binds, where its name is one of these in scope, counted from
/// 0 in the order in which the head is written; from the greatest u64 on, that number. It takes no memory and time in proportion to
/// the scope and the head, and recurses as deep as the head's terms.
pub fn rebound_node(scope: &Vars, p: &Process) -> Option<u64>
    ensures { (g : Sig) (before : List Site) (s : Site) → s.body ≡ proc p.now → s.above.scope ≡ scope.now → IsTold g before s Rebound result }
{
    binder_node(scope, p)
}

// Where it stands, by the nodes in front of it.
fn binder_node(scope: &Vars, p: &Process) -> Option<u64>
    ensures { result ≡ binder_at scope.now (proc p.now) }
{
    match p {
        Process::New(x, _) => if is_among(scope, &x.name) {
            Some(0)
        } else {
            None
        },
        Process::Lookup(t, x, _, _) => if is_among(scope, &x.name) {
            Some(t.nodes())
        } else {
            None
        },
        _ => None,
    }
}

// Whether one of these has the name.
fn is_among(scope: &Vars, name: &Name) -> bool
    ensures { result ≡ is_known (var_names scope.now) name.now }
{
    for v in scope.as_slice() {
        if v.name.same(name) {
            return true;
        }
    }
    false
}
