// Terms that patterns fit, and what is received on a channel.
ghost use Rattle.std.specs.Prelude.{◌≡◌, ◌<◌, length, IfOk, IfErr, MatchOption};
ghost use Rattle.sap_terms.specs.Destructors.{HasDestructor};
ghost use Rattle.sap_terms.specs.Equations.{equations, app2, pair_name};
ghost use Rattle.sap_terms.specs.Tree.{Tree};
ghost use Rattle.sap_terms.specs.Variables.{tree_vars};
ghost use Rattle.sap_terms.specs.View.{tree};
ghost use Rattle.sap_rewrite.specs.Match.{HaveOneSort};
ghost use Rattle.sap_share.specs.Env.{AreBound, AreSmallForms};
ghost use Rattle.sap_share.specs.Shared.{tree_at, Keeps};
ghost use Rattle.sap_heads.specs.Taken.{IsTaken, IsUntaken, IsReceived, IsUnreceived};
ghost use Rattle.sap_heads.specs.Values.{CanEvaluate, IsSmallNumber};
ghost use Rattle.sap_heads.specs.code.Matches.{IsMatched};
ghost use Rattle.sap_heads.specs.code.Pairs.{IsPairOf};

use crate::evaluating::value;
use sap_lines::PFault;
use sap_process::instances_of_processes;
use sap_rewrite::{
    bindings_give_choices, equality_is_kept, matching_is_modulo, normal_forms_are_unique,
    patterns_stay, variables_named_once_stay_so,
};
use sap_share::{Env, Node, Table};
use sap_terms::{Copied, MOST_TERM_NODES, Mem, Term};
use std::alloc::Global;

// What is bound where the pattern fits the number.
fn match_of(
    alloc: Global,
    table: &Table,
    env: &Env,
    pattern: &Term,
    e: u64,
) -> Result<Option<Env>, Mem>
    requires id { e < length table.now.trees }
    requires env { AreBound (length table.now.trees) env.now }
    ensures { IfOk result (IsMatched table.now.trees env.now (tree pattern.now) (tree_at table.now.trees e)) }
{
    match env.copy(alloc) {
        Err(mem) => Err(mem),
        Ok(mut new) => match table.fits(alloc, pattern, e, &mut new) {
            Err(mem) => {
                drop(new);
                Err(mem)
            }
            Ok(fits) => {
                if fits {
                    Ok(Some(new))
                } else {
                    drop(new);
                    Ok(None)
                }
            }
        },
    }
}

/// What is bound where the pattern fits the term of the number: behind what was bound, the pattern's new variables.
/// It recurses as deep as the terms that it is given.
pub fn fitted(
    alloc: Global,
    table: &Table,
    env: &Env,
    pattern: &Term,
    e: u64,
) -> Result<Env, PFault>
    requires number { IsSmallNumber table.now e }
    requires env { AreSmallForms (equations table.now.sig) MOST_TERM_NODES table.now.trees env.now }
    requires sorts { HaveOneSort (tree_vars (tree pattern.now)) }
    requires plain { HasDestructor table.now.sig (tree pattern.now) → ⊥ }
    ensures ok { IfOk result (IsTaken table.now env.now (tree pattern.now) (tree_at table.now.trees e)) }
    ensures refused { IfErr result (IsUntaken table.now env.now (tree pattern.now) (tree_at table.now.trees e)) }
{
    instances_of_processes();
    variables_named_once_stay_so();
    bindings_give_choices();
    matching_is_modulo();
    patterns_stay();
    table.each_is_ground();
    table.each_is_over();
    match match_of(alloc, table, env, pattern, e) {
        Err(_) => Err(PFault::Mem),
        Ok(None) => Err(PFault::NoMatch),
        Ok(Some(new)) => Ok(new),
    }
}

// The numbers of the parts of a pair.
fn parts(table: &Table, e: u64) -> Option<(u64, u64)>
    requires { e < length table.now.trees }
    ensures { MatchOption result ((y z : Tree) → tree_at table.now.trees e ≡ app2 pair_name y z → ⊥) (λ r. IsPairOf table.now.trees (tree_at table.now.trees e) r.0 r.1) }
{
    match table.node(e) {
        Node::App(f, ks) => {
            if !f.is(b"pair") {
                return None;
            }
            if ks.len() != 2 {
                return None;
            }
            Some((*ks.at(0), *ks.at(1)))
        }
        Node::Public(_) | Node::Fresh(_) => None,
    }
}

/// What is bound where the term of the number is a pair of the channel m and of what the pattern n fits. The channel is
/// evaluated first, and compared last. It recurses as deep as the terms that it is given.
pub fn received(
    alloc: Global,
    table: &mut Table,
    env: &Env,
    m: &Term,
    n: &Term,
    e: u64,
) -> Result<Env, PFault>
    requires number { IsSmallNumber table.old e }
    requires env { AreSmallForms (equations table.old.sig) MOST_TERM_NODES table.old.trees env.now }
    requires can { CanEvaluate table.old env.now (tree m.now) }
    requires sorts { HaveOneSort (tree_vars (tree n.now)) }
    requires plain { HasDestructor table.old.sig (tree n.now) → ⊥ }
    ensures ok { IfOk result (IsReceived table.new env.now (tree m.now) (tree n.now) (tree_at table.new.trees e)) }
    ensures refused { IfErr result (IsUnreceived table.new env.now (tree m.now) (tree n.now) (tree_at table.new.trees e)) }
    ensures keeps { Keeps table.old table.new }
{
    normal_forms_are_unique();
    equality_is_kept();
    match value(alloc, table, env, m) {
        Err(fault) => Err(fault),
        Ok(j) => {
            table.each_has_one_number();
            match parts(table, e) {
                None => Err(PFault::NoMatch),
                Some((a, b)) => match fitted(alloc, table, env, n, b) {
                    Err(fault) => Err(fault),
                    Ok(new) => {
                        if a != j {
                            drop(new);
                            return Err(PFault::Unequal);
                        }
                        Ok(new)
                    }
                },
            }
        }
    }
}
