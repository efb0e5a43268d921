// What one thread sends on a channel, and what another takes on it.
ghost use Rattle.std.specs.Prelude.{IfOk, IfErr};
ghost use Rattle.sap_terms.specs.Destructors.{HasDestructor};
ghost use Rattle.sap_terms.specs.Equations.{equations};
ghost use Rattle.sap_terms.specs.Variables.{tree_vars};
ghost use Rattle.sap_terms.specs.View.{tree};
ghost use Rattle.sap_rewrite.specs.Match.{HaveOneSort};
ghost use Rattle.sap_share.specs.Env.{AreSmallForms};
ghost use Rattle.sap_share.specs.Shared.{Keeps};
ghost use Rattle.sap_heads.specs.Taken.{IsMet, IsUnmet};
ghost use Rattle.sap_heads.specs.Values.{CanEvaluate};

use crate::evaluating::{value, values};
use crate::taking::fitted;
use sap_lines::PFault;
use sap_rewrite::{equality_is_kept, normal_forms_decide};
use sap_share::{Env, Table};
use sap_terms::{MOST_TERM_NODES, Term};
use std::alloc::Global;

/// What is bound for the one that takes, where it takes on l what fits p, and the other sends n on m. The three terms are
/// evaluated first, then the pattern is tried, and the channels are compared last.
/// It recurses as deep as the terms that it is given.
pub fn met(
    alloc: Global,
    table: &mut Table,
    sends: &Env,
    m: &Term,
    n: &Term,
    takes: &Env,
    l: &Term,
    p: &Term,
) -> Result<Env, PFault>
    requires sends { AreSmallForms (equations table.old.sig) MOST_TERM_NODES table.old.trees sends.now }
    requires takes { AreSmallForms (equations table.old.sig) MOST_TERM_NODES table.old.trees takes.now }
    requires can_first { CanEvaluate table.old sends.now (tree m.now) }
    requires can_second { CanEvaluate table.old sends.now (tree n.now) }
    requires can_third { CanEvaluate table.old takes.now (tree l.now) }
    requires sorts { HaveOneSort (tree_vars (tree p.now)) }
    requires plain { HasDestructor table.old.sig (tree p.now) → ⊥ }
    ensures ok { IfOk result (IsMet table.new sends.now takes.now (tree m.now) (tree n.now) (tree l.now) (tree p.now)) }
    ensures refused { IfErr result (IsUnmet table.new sends.now takes.now (tree m.now) (tree n.now) (tree l.now) (tree p.now)) }
    ensures keeps { Keeps table.old table.new }
{
    normal_forms_decide();
    equality_is_kept();
    match values(alloc, table, sends, m, n) {
        Err(fault) => Err(fault),
        Ok((i, j)) => match value(alloc, table, takes, l) {
            Err(fault) => Err(fault),
            Ok(h) => {
                table.each_has_one_number();
                match fitted(alloc, table, takes, p, j) {
                    Err(fault) => Err(fault),
                    Ok(new) => {
                        if i != h {
                            drop(new);
                            return Err(PFault::Unequal);
                        }
                        Ok(new)
                    }
                }
            }
        },
    }
}
