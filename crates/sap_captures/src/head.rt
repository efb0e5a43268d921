//! Which nodes of a head are told, and what is in scope behind it.
ghost use Rattle.std.specs.Prelude.{◌≡◌, ◌↔◌, ◌∷◌, ◌++◌, [], ℕ, List, Contains, IfOk, OnOk};
ghost use Rattle.std.specs.Option.{option_to_list};
ghost use Rattle.sap_terms.specs.Tree.{node_count};
ghost use Rattle.sap_terms.specs.View.{tree};
ghost use Rattle.sap_process.specs.Action.{embedded};
ghost use Rattle.sap_process.specs.Flaws.{scope_at};
ghost use Rattle.sap_process.specs.Places.{place};
ghost use Rattle.sap_process.specs.Proc.{proc};
ghost use Rattle.sap_process.specs.Sites.{above_of, fresh_var, message_var};
ghost use Rattle.sap_captures.specs.Patterns.{IsNodeOfKind};
ghost use Rattle.sap_captures.specs.code.Heads.{bound_head, bound_rule, compared_at, started, whole_at};

use crate::binding::{Binding, bind_facts, bind_term, knows};
use crate::kind::Kind;
use sap_nodes::Part;
use sap_process::Process;
use sap_terms::{Copied, FactList, Items, Mem, Named, Sort, Term, Var};
use std::alloc::Global;
use std::mem;

// A copy of the variable, of this sort.
fn with_sort(alloc: Global, x: &Var, sort: Sort) -> Result<Var, Mem>
    ensures { IfOk result (λ y. y ≡ record { name = x.now.name; sort = sort }) }
{
    Ok(Var {
        name: x.name.copy(alloc)?,
        sort,
    })
}

// Binds a fresh name.
fn bind_new(alloc: Global, x: &Var, scope: &mut Named<Var>) -> Result<(), Mem>
    ensures { OnOk result (scope.new ≡ scope.old ++ fresh_var x.now ∷ []) }
{
    scope.push(with_sort(alloc, x, Sort::Fresh)?)
}

/// Binds what a look-up finds.
pub(crate) fn bind_message(alloc: Global, x: &Var, scope: &mut Named<Var>) -> Result<(), Mem>
    ensures { OnOk result (scope.new ≡ scope.old ++ message_var x.now ∷ []) }
{
    scope.push(with_sort(alloc, x, Sort::Msg)?)
}

// How many nodes a term has. No memory holds a head with so many that they have no numbers.
fn count(t: &Term) -> Result<u64, Mem>
    ensures { IfOk result (λ n. n ≡ node_count (tree t.now)) }
{
    let n = t.nodes();
    if n == u64::MAX {
        return Err(Mem);
    }
    Ok(n)
}

// Begins with the node of this number.
fn start(alloc: Global, at: u64, binding: &mut Binding)
    ensures { binding.new ≡ started at binding.old }
{
    binding.at = at;
    drop(mem::replace(&mut binding.nodes, Items::new(alloc)));
}

// The three sides of an embedded rule.
fn bind_rule(
    alloc: Global,
    l: &FactList,
    e: &FactList,
    r: &FactList,
    binding: &mut Binding,
) -> Result<(), Mem>
    ensures { OnOk result (binding.new ≡ bound_rule binding.old l.now e.now r.now) }
{
    bind_facts(alloc, Part::Pattern, l, binding)?;
    bind_facts(alloc, Part::Shown, e, binding)?;
    bind_facts(alloc, Part::Given, r, binding)
}

// Binds what the head binds, and notes by which nodes of its pattern.
fn bind_head(alloc: Global, p: &Process, binding: &mut Binding) -> Result<(), Mem>
    ensures { OnOk result (binding.new ≡ bound_head binding.old (proc p.now)) }
{
    start(alloc, 0, binding);
    match p {
        Process::New(x, _) => bind_new(alloc, x, &mut binding.scope),
        Process::In(t, _) => bind_term(alloc, Part::Pattern, t, binding),
        Process::Recv(c, t, _) => {
            binding.at = count(c)?;
            bind_term(alloc, Part::Pattern, t, binding)
        }
        Process::Embedded(l, e, r, _) => bind_rule(alloc, l, e, r, binding),
        _ => Ok(()),
    }
}

// The node, if the pattern whose first node it is is a variable in scope.
fn whole_node(scope: &Named<Var>, at: u64, t: &Term) -> Option<u64>
    ensures { result ≡ whole_at scope.now at (tree t.now) }
{
    match t {
        Term::Var(v) if knows(scope, &v.name) => Some(at),
        _ => None,
    }
}

// The node that is compared, if one is.
fn compared_node(scope: &Named<Var>, p: &Process) -> Result<Option<u64>, Mem>
    ensures { IfOk result (λ o. o ≡ compared_at scope.now (proc p.now)) }
{
    match p {
        Process::In(t, _) => Ok(whole_node(scope, 0, t)),
        Process::Recv(c, t, _) => Ok(whole_node(scope, count(c)?, t)),
        _ => Ok(None),
    }
}

// Notes this node alone, if there is one.
fn keep(alloc: Global, node: Option<u64>, binding: &mut Binding) -> Result<(), Mem>
    ensures scope { OnOk result (binding.new.scope ≡ binding.old.scope) }
    ensures nodes { OnOk result (binding.new.nodes ≡ option_to_list node) }
{
    start(alloc, 0, binding);
    match node {
        None => Ok(()),
        Some(k) => binding.nodes.push(k),
    }
}

// Binds what the head binds, and notes the node that is compared, if one is.
fn compare_head(alloc: Global, p: &Process, binding: &mut Binding) -> Result<(), Mem>
    ensures scope { OnOk result (binding.new.scope ≡ (bound_head binding.old (proc p.now)).scope) }
    ensures nodes { OnOk result (binding.new.nodes ≡ option_to_list (compared_at binding.old.scope (proc p.now))) }
{
    let node = compared_node(&binding.scope, p)?;
    bind_head(alloc, p, binding)?;
    keep(alloc, node, binding)
}

/// Binds what the head binds, and notes its nodes of the kind.
pub(crate) fn meet_head(
    alloc: Global,
    kind: Kind,
    p: &Process,
    binding: &mut Binding,
) -> Result<(), Mem>
    ensures scope { OnOk result (binding.new.scope ≡ scope_at binding.old.scope (proc p.now)) }
    ensures nodes { OnOk result ((path : List ℕ) (locks k : ℕ) → Contains binding.new.nodes k
        ↔ IsNodeOfKind kind (place path (above_of binding.old.scope locks) (proc p.now)) k) }
{
    match kind {
        Kind::Captured => bind_head(alloc, p, binding),
        Kind::Compared => compare_head(alloc, p, binding),
    }
}
