// Terms that are evaluated.
ghost use Rattle.std.specs.Prelude.{◌≡◌, ◌<◌, [], ◌∷◌, length, IfOk, IfErr, MatchOption};
ghost use Rattle.sap_terms.specs.Tree.{fresh};
ghost use Rattle.sap_terms.specs.Choice.{instance};
ghost use Rattle.sap_terms.specs.Equations.{equations};
ghost use Rattle.sap_terms.specs.View.{tree};
ghost use Rattle.sap_share.specs.Env.{given, AreSmallForms};
ghost use Rattle.sap_share.specs.Shared.{Keeps, tree_at};
ghost use Rattle.sap_heads.specs.Values.{IsSmallNumber};
ghost use Rattle.sap_lines.specs.Faults.{EvaluateLarge};
ghost use Rattle.sap_heads.specs.Values.{CanEvaluate, IsValue, AreValues, IsValueFault};

use sap_lines::PFault;
use sap_rewrite::Cut;
use sap_share::{Env, Table};
use sap_terms::{MOST_TERM_NODES, Mem, Term, leaves_are_normal};
use std::alloc::Global;

/// The number of the normal form of a term under what is bound; None where that of a subterm has more than 256 nodes.
/// It recurses as deep as the terms that it is given.
pub fn value_unless_large(
    alloc: Global,
    table: &mut Table,
    env: &Env,
    t: &Term,
) -> Result<Option<u64>, Mem>
    requires env { AreSmallForms (equations table.old.sig) MOST_TERM_NODES table.old.trees env.now }
    requires can { CanEvaluate table.old env.now (tree t.now) }
    ensures ok { IfOk result (λ o. MatchOption o (EvaluateLarge table.old.sig (instance (given table.old.trees env.now) (tree t.now) ∷ [])) (λ k. IsValue table.old table.new env.now (tree t.now) k)) }
    ensures keeps { Keeps table.old table.new }
{
    match table.evaluate(alloc, env, t, MOST_TERM_NODES) {
        Ok(k) => Ok(Some(k)),
        Err(Cut::Large) => Ok(None),
        Err(Cut::Mem) => Err(Mem),
    }
}

/// The number of the normal form of a term under what is bound. It recurses as deep as the terms that it is given.
pub fn value(alloc: Global, table: &mut Table, env: &Env, t: &Term) -> Result<u64, PFault>
    requires env { AreSmallForms (equations table.old.sig) MOST_TERM_NODES table.old.trees env.now }
    requires can { CanEvaluate table.old env.now (tree t.now) }
    ensures ok { IfOk result (λ k. IsValue table.old table.new env.now (tree t.now) k) }
    ensures refused { IfErr result (IsValueFault table.old.sig (instance (given table.old.trees env.now) (tree t.now) ∷ [])) }
    ensures keeps { Keeps table.old table.new }
{
    match value_unless_large(alloc, table, env, t) {
        Ok(Some(k)) => Ok(k),
        Ok(None) => Err(PFault::TermLarge),
        Err(_) => Err(PFault::Mem),
    }
}

/// The numbers of the normal forms of two terms under what is bound.
/// It recurses as deep as the terms that it is given.
pub fn values(
    alloc: Global,
    table: &mut Table,
    env: &Env,
    t: &Term,
    u: &Term,
) -> Result<(u64, u64), PFault>
    requires env { AreSmallForms (equations table.old.sig) MOST_TERM_NODES table.old.trees env.now }
    requires first { CanEvaluate table.old env.now (tree t.now) }
    requires second { CanEvaluate table.old env.now (tree u.now) }
    ensures ok { IfOk result (λ r. AreValues table.old table.new env.now (tree t.now) (tree u.now) r.0 r.1) }
    ensures refused { IfErr result (IsValueFault table.old.sig (instance (given table.old.trees env.now) (tree t.now) ∷ instance (given table.old.trees env.now) (tree u.now) ∷ [])) }
    ensures keeps { Keeps table.old table.new }
{
    match value(alloc, table, env, t) {
        Err(fault) => Err(fault),
        Ok(j) => match value(alloc, table, env, u) {
            Err(fault) => Err(fault),
            Ok(k) => Ok((j, k)),
        },
    }
}

/// The number of a fresh name.
pub fn name_value(alloc: Global, table: &mut Table, n: u64) -> Result<u64, Mem>
    ensures number { IfOk result (IsSmallNumber table.new) }
    ensures tree { IfOk result (λ k. tree_at table.new.trees k ≡ fresh n) }
    ensures keeps { Keeps table.old table.new }
{
    leaves_are_normal();
    let k = table.put(alloc, &Term::Fresh(n))?;
    Ok(k)
}
