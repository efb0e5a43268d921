//! A scope that grows by the variables of a pattern, and the nodes by which it does.
ghost use Rattle.std.specs.Prelude.{◌≡◌, ◌+◌, ◌∷◌, ◌++◌, [], IfOk, OnOk};
ghost use Rattle.sap_terms.specs.Tree.{trees_of};
ghost use Rattle.sap_terms.specs.Variables.{is_known};
ghost use Rattle.sap_terms.specs.View.{tree};
ghost use Rattle.sap_process.specs.Sites.{var_names};
ghost use Rattle.sap_nodes.specs.HeadNodes.{fact_nodes, facts_nodes, tree_nodes, trees_nodes, variable};
ghost use Rattle.sap_captures.specs.code.Bindings.{bound, bound_all, noted, passed, taken};

use sap_nodes::Part;
use sap_terms::{Copied, Fact, FactList, Items, Mem, Name, Named, Term, TermList, Var};
use std::alloc::Global;

/// Nodes that are gone through: what is in scope, the number of the next node, and those of a pattern that have bound a name.
#[derive(Drop)]
pub(crate) struct Binding {
    pub(crate) scope: Named<Var>,
    pub(crate) at: u64,
    pub(crate) nodes: Items<u64>,
}

/// Whether the name is in scope.
pub(crate) fn knows(scope: &Named<Var>, name: &Name) -> bool
    ensures { result ≡ is_known (var_names scope.now) name.now }
{
    scope.named(name).is_some()
}

// Notes the node, if it is one of a pattern.
fn note(part: Part, nodes: &mut Items<u64>, at: u64) -> Result<(), Mem>
    ensures { OnOk result (nodes.new ≡ noted part nodes.old at) }
{
    match part {
        Part::Pattern => nodes.push(at),
        Part::Shown | Part::Given => Ok(()),
    }
}

// One node further. No memory holds a head with so many nodes that they have no numbers.
fn pass(binding: &mut Binding) -> Result<(), Mem>
    ensures { OnOk result (binding.new ≡ passed binding.old) }
{
    match binding.at.checked_add(1) {
        Some(at) => {
            binding.at = at;
            Ok(())
        }
        None => Err(Mem),
    }
}

// A variable that isn't in scope.
fn take(alloc: Global, part: Part, v: &Var, binding: &mut Binding) -> Result<(), Mem>
    ensures { OnOk result (binding.new ≡ taken part binding.old v.now) }
{
    note(part, &mut binding.nodes, binding.at)?;
    binding.scope.push(v.copy(alloc)?)?;
    pass(binding)
}

// A variable.
fn bind_variable(alloc: Global, part: Part, v: &Var, binding: &mut Binding) -> Result<(), Mem>
    ensures { OnOk result (binding.new ≡ bound part binding.old (variable v.now)) }
{
    if knows(&binding.scope, &v.name) {
        pass(binding)
    } else {
        take(alloc, part, v, binding)
    }
}

#[cycle(nodes)]
#[tactic(auto, using(crate::proofs::BoundNodes::bound_laws))]
pub(crate) fn bind_term(
    alloc: Global,
    part: Part,
    t: &Term,
    binding: &mut Binding,
) -> Result<(), Mem>
    ensures { OnOk result (binding.new ≡ bound_all part binding.old (tree_nodes part (tree t.now))) }
{
    match t {
        Term::Var(v) => bind_variable(alloc, part, v, binding),
        Term::App(_, ts) => {
            pass(binding)?;
            bind_terms(alloc, part, ts, binding)
        }
        _ => pass(binding),
    }
}

#[cycle(nodes)]
#[tactic(auto, using(crate::proofs::BoundNodes::bound_laws))]
fn bind_terms(alloc: Global, part: Part, ts: &TermList, binding: &mut Binding) -> Result<(), Mem>
    ensures { OnOk result (binding.new ≡ bound_all part binding.old (trees_nodes part (trees_of ts.now))) }
{
    for k in 0..ts.len() {
        bind_term(alloc, part, ts.at(k), binding)?;
    }
    Ok(())
}

// A fact, in front of its arguments.
fn bind_fact(alloc: Global, part: Part, f: &Fact, binding: &mut Binding) -> Result<(), Mem>
    ensures { OnOk result (binding.new ≡ bound_all part binding.old (fact_nodes part f.now)) }
{
    pass(binding)?;
    bind_terms(alloc, part, &f.args, binding)
}

#[tactic(auto, using(crate::proofs::BoundNodes::bound_laws))]
pub(crate) fn bind_facts(
    alloc: Global,
    part: Part,
    fs: &FactList,
    binding: &mut Binding,
) -> Result<(), Mem>
    ensures { OnOk result (binding.new ≡ bound_all part binding.old (facts_nodes part fs.now)) }
{
    for f in fs.as_slice() {
        bind_fact(alloc, part, f, binding)?;
    }
    Ok(())
}
