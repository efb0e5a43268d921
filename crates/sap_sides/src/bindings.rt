// Bindings, and what is bound by numbers.
ghost use Rattle.std.specs.Prelude.{◌≡◌, ◌↔◌, ◌<◌, length, All, IfOk, IsTrue};
ghost use Rattle.sap_terms.specs.Equations.{equations};
ghost use Rattle.sap_terms.specs.Message.{IsMessage};
ghost use Rattle.sap_terms.specs.View.{tree};
ghost use Rattle.sap_rewrite.specs.Match.{bound_vars};
ghost use Rattle.sap_share.specs.Env.{AreBound, AreSmallForms, IsSmallForm, bindings_of};
ghost use Rattle.sap_share.specs.Shared.{Keeps};

use sap_rewrite::{is_message, normal_forms_are_unique};
use sap_share::{Bound, Env, Order, Table};
use sap_terms::{Bindings, Copied, MOST_TERM_NODES, Mem, Signature, Vars};
use std::alloc::Global;

/// The bindings with numbers for their terms, in an environment in which variables are expected to be bound in this order.
/// Refused, the table may have more numbers than before. It recurses as deep as the terms that it is given.
#[tactic(auto, using(crate::proofs::Kept::kept_laws))]
pub fn number_bindings(
    table: &mut Table,
    alloc: Global,
    order: &Order,
    b: &Bindings,
) -> Result<Env, Mem>
    requires { All (λ e. IsMessage table.old.sig e.var.sort (tree e.term)) b.now }
    ensures are { IfOk result (λ env. bindings_of table.new.trees env ≡ b.now) }
    ensures bound { IfOk result (AreBound (length table.new.trees)) }
    ensures keeps { Keeps table.old table.new }
{
    let mut env = Env::along(alloc, order)?;
    for i in 0..b.len() {
        let e = b.at(i);
        let id = match table.put(alloc, &e.term) {
            Ok(id) => id,
            Err(e) => {
                drop(env);
                return Err(e);
            }
        };
        let var = match e.var.copy(alloc) {
            Ok(var) => var,
            Err(e) => {
                drop(env);
                return Err(e);
            }
        };
        match env.push(Bound { var, id }) {
            Ok(()) => {}
            Err(e) => {
                drop(env);
                return Err(e);
            }
        }
    }
    Ok(env)
}

// Whether the term is normal and has at most 256 nodes.
fn is_small_form(table: &Table, id: u64) -> bool
    requires { id < length table.now.trees }
    ensures { IsTrue result ↔ IsSmallForm (equations table.now.sig) MOST_TERM_NODES table.now.trees id }
{
    normal_forms_are_unique();
    table.each_has_one_number();
    table.normal_of(id) == id && table.size(id) <= MOST_TERM_NODES
}

/// Whether each term that is bound is normal and has at most 256 nodes.
pub fn are_small_forms(table: &Table, env: &Env) -> bool
    requires { AreBound (length table.now.trees) env.now }
    ensures { IsTrue result ↔ AreSmallForms (equations table.now.sig) MOST_TERM_NODES table.now.trees env.now }
{
    for i in 0..env.len() {
        if !is_small_form(table, env.at(i).id) {
            return false;
        }
    }
    true
}

/// Whether the bindings are of these variables, in order.
pub fn are_of(b: &Bindings, vars: &Vars) -> bool
    ensures { IsTrue result ↔ (bound_vars b.now ≡ vars.now) }
{
    if b.len() != vars.len() {
        return false;
    }
    for k in 0..b.len() {
        if !b.at(k).var.same(vars.at(k)) {
            return false;
        }
    }
    true
}

/// Whether each is to a message of its variable's sort. It recurses as deep as the terms that it is given.
pub fn are_messages(alloc: Global, sig: &Signature, b: &Bindings) -> Result<bool, Mem>
    ensures { IfOk result (λ r. IsTrue r ↔ All (λ e. IsMessage sig.now e.var.sort (tree e.term)) b.now) }
{
    for k in 0..b.len() {
        let e = b.at(k);
        if !is_message(alloc, sig, e.var.sort, &e.term)? {
            return Ok(false);
        }
    }
    Ok(true)
}
