// Normal forms of terms and facts, as terms.
ghost use Rattle.std.specs.Prelude.{map, All, IfOk, IfErr, [], ◌∷◌};
ghost use Rattle.sap_terms.specs.Choice.{instance};
ghost use Rattle.sap_terms.specs.Equations.{equations};
ghost use Rattle.sap_terms.specs.View.{tree};
ghost use Rattle.sap_share.specs.Env.{given, AreSmallForms};
ghost use Rattle.sap_share.specs.Shared.{Keeps};
ghost use Rattle.sap_heads.specs.Values.{CanEvaluate, IsShown, IsValueFault};
ghost use Rattle.sap_heads.specs.code.Forms.{IsFormed, AreFormed, IsFactFormed};

use crate::evaluating::value;
use sap_lines::PFault;
use sap_share::{Env, Table};
use sap_terms::{Copied, Fact, FactList, MOST_TERM_NODES, Term, TermList};
use std::alloc::Global;

// The normal form of a term under what is bound.
fn form(alloc: Global, table: &mut Table, env: &Env, t: &Term) -> Result<Term, PFault>
    requires env { AreSmallForms (equations table.old.sig) MOST_TERM_NODES table.old.trees env.now }
    requires can { CanEvaluate table.old env.now (tree t.now) }
    ensures ok { IfOk result (λ n. IsFormed table.old env.now (tree t.now) (tree n)) }
    ensures refused { IfErr result (IsValueFault table.old.sig (instance (given table.old.trees env.now) (tree t.now) ∷ [])) }
    ensures keeps { Keeps table.old table.new }
{
    match value(alloc, table, env, t) {
        Err(fault) => Err(fault),
        Ok(k) => {
            table.each_is_ground();
            table.each_is_over();
            match table.tree(alloc, k) {
                Err(_) => Err(PFault::Mem),
                Ok(n) => Ok(n),
            }
        }
    }
}

// Those of these terms.
fn forms(alloc: Global, table: &mut Table, env: &Env, ts: &TermList) -> Result<TermList, PFault>
    requires env { AreSmallForms (equations table.old.sig) MOST_TERM_NODES table.old.trees env.now }
    requires can { All (CanEvaluate table.old env.now) ts.now }
    ensures ok { IfOk result (AreFormed table.old env.now ts.now) }
    ensures refused { IfErr result (IsValueFault table.old.sig (map (instance (given table.old.trees env.now)) ts.now)) }
    ensures keeps { Keeps table.old table.new }
{
    let mut out = TermList::new(alloc);
    for i in 0..ts.len() {
        match form(alloc, table, env, ts.at(i)) {
            Err(fault) => return Err(fault),
            Ok(n) => out.push(n)?,
        }
    }
    Ok(out)
}

// That of a fact.
fn form_of_fact(alloc: Global, table: &mut Table, env: &Env, f: &Fact) -> Result<Fact, PFault>
    requires env { AreSmallForms (equations table.old.sig) MOST_TERM_NODES table.old.trees env.now }
    requires can { All (CanEvaluate table.old env.now) f.now.args }
    ensures ok { IfOk result (IsFactFormed table.old env.now f.now) }
    ensures refused { IfErr result (IsValueFault table.old.sig (map (instance (given table.old.trees env.now)) f.now.args)) }
    ensures keeps { Keeps table.old table.new }
{
    match forms(alloc, table, env, &f.args) {
        Err(fault) => Err(fault),
        Ok(args) => match f.name.copy(alloc) {
            Err(_) => {
                drop(args);
                Err(PFault::Mem)
            }
            Ok(name) => Ok(Fact {
                name,
                persistent: f.persistent,
                args,
            }),
        },
    }
}

/// The normal form of a fact under what is bound, alone. It recurses as deep as the terms that it is given.
pub fn shown_form(alloc: Global, table: &mut Table, env: &Env, f: &Fact) -> Result<FactList, PFault>
    requires env { AreSmallForms (equations table.old.sig) MOST_TERM_NODES table.old.trees env.now }
    requires can { All (CanEvaluate table.old env.now) f.now.args }
    ensures ok { IfOk result (IsShown table.old env.now f.now) }
    ensures refused { IfErr result (IsValueFault table.old.sig (map (instance (given table.old.trees env.now)) f.now.args)) }
    ensures keeps { Keeps table.old table.new }
{
    match form_of_fact(alloc, table, env, f) {
        Err(fault) => Err(fault),
        Ok(h) => {
            let mut facts = FactList::new(alloc);
            match facts.push(h) {
                Err(_) => {
                    drop(facts);
                    Err(PFault::Mem)
                }
                Ok(()) => Ok(facts),
            }
        }
    }
}
