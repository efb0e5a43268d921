// One more variable that is bound.
ghost use Rattle.std.specs.Prelude.{◌≡◌, ◌++◌, ◌∷◌, [], false, IfOk};
ghost use Rattle.sap_terms.specs.Equations.{equations};
ghost use Rattle.sap_terms.specs.Variables.{is_known};
ghost use Rattle.sap_share.specs.Env.{AreSmallForms};
ghost use Rattle.sap_heads.specs.Bound.{names_of, IsBoundTo};
ghost use Rattle.sap_heads.specs.Values.{IsSmallNumber};

use sap_process::instances_of_processes;
use sap_share::{Bound, Env, Table};
use sap_terms::{Copied, MOST_TERM_NODES, Mem, Var};
use std::alloc::Global;

// What is bound, and the variable bound to the number.
fn longer(alloc: Global, env: &Env, var: &Var, id: u64) -> Result<Env, Mem>
    ensures { IfOk result (λ r. r ≡ env.now ++ record { var = var.now; id = id } ∷ []) }
{
    match env.copy(alloc) {
        Err(mem) => Err(mem),
        Ok(mut new) => match var.copy(alloc) {
            Err(mem) => {
                drop(new);
                Err(mem)
            }
            Ok(var) => match new.push(Bound { var, id }) {
                Err(_) => {
                    drop(new);
                    Err(Mem)
                }
                Ok(()) => Ok(new),
            },
        },
    }
}

/// What is bound, and behind it a variable of a new name, bound to the number.
pub fn with_bound(alloc: Global, table: &Table, env: &Env, var: &Var, id: u64) -> Result<Env, Mem>
    requires env { AreSmallForms (equations table.now.sig) MOST_TERM_NODES table.now.trees env.now }
    requires number { IsSmallNumber table.now id }
    requires new { is_known (names_of env.now) var.now.name ≡ false }
    ensures { IfOk result (IsBoundTo table.now env.now var.now id) }
{
    instances_of_processes();
    table.each_is_ground();
    match longer(alloc, env, var, id) {
        Err(_) => Err(Mem),
        Ok(new) => Ok(new),
    }
}
