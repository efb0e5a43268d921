//! How large expansions are.
ghost use Rattle.std.specs.Prelude.{◌≡◌, ◌+◌, ℕ, List, [], max, min, IfOk, OnOk};
ghost use Rattle.sap_terms.specs.NameMap.{value_at};
ghost use Rattle.sap_terms.specs.Tree.{Tree};
ghost use Rattle.sap_process.specs.Proc.{node_count, level_count};
ghost use Rattle.sap_macro.specs.Expansion.{expansion};
ghost use Rattle.sap_macro.specs.Order.{AreInOrder};
ghost use Rattle.sap_macro.specs.Sources.{definition_of, definitions, written};
ghost use Rattle.sap_macro.specs.Written.{call};
ghost use Rattle.sap_macro.specs.KeptSizes.{levels_kept, nodes_kept};
ghost use Rattle.sap_macro.specs.code.Sizes.{levels_in, nodes_in, levels_of, nodes_of, with_levels, with_nodes};

use crate::definition::{Definition, DefinitionList};
use crate::source::Source;
use sap_terms::{Copied, Mem, Name, NameMap};
use std::alloc::Global;

/// How many places an expansion has, and how many levels; from the greatest u64 on, that number.
#[derive(Clone, Copy)]
pub struct Size {
    pub nodes: u64,
    pub levels: u64,
}

// What has nothing below it.
fn alone() -> Size
    ensures nodes { result.nodes ≡ 1 }
    ensures levels { result.levels ≡ 1 }
{
    Size {
        nodes: 1,
        levels: 1,
    }
}

// What has one process below it.
fn over(below: Size) -> Size
    ensures nodes { result.nodes ≡ min (below.nodes + 1) u64.MAX }
    ensures levels { result.levels ≡ min (below.levels + 1) u64.MAX }
{
    Size {
        nodes: below.nodes.saturating_add(1),
        levels: below.levels.saturating_add(1),
    }
}

// What has two.
fn over_both(left: Size, right: Size) -> Size
    ensures nodes { result.nodes ≡ min (left.nodes + right.nodes + 1) u64.MAX }
    ensures levels { result.levels ≡ min (max left.levels right.levels + 1) u64.MAX }
{
    Size {
        nodes: left.nodes.saturating_add(right.nodes).saturating_add(1),
        levels: left.levels.max(right.levels).saturating_add(1),
    }
}

// What a name stands for, by what is kept of it.
fn kept(sizes: &NameMap<Size>, name: &Name) -> Size
    ensures nodes { result.nodes ≡ nodes_kept (value_at sizes.now name.now) }
    ensures levels { result.levels ≡ levels_kept (value_at sizes.now name.now) }
{
    match sizes.get(name) {
        Some(size) => *size,
        None => alone(),
    }
}

// The places and the levels of the process, where the names have as many as is kept of them. It recurses as deep as the process.
fn measured(sizes: &NameMap<Size>, source: &Source) -> Size
    ensures nodes { result.nodes ≡ min (nodes_in sizes.now (written source.now)) u64.MAX }
    ensures levels { result.levels ≡ min (levels_in sizes.now (written source.now)) u64.MAX }
{
    match source {
        Source::Nil(_) => alone(),
        Source::Call(_, f, _) => kept(sizes, f),
        Source::Par(_, p, q) | Source::If(_, _, _, p, q) | Source::Lookup(_, _, _, p, q) => {
            let left = measured(sizes, p);
            over_both(left, measured(sizes, q))
        }
        Source::Rep(_, p) | Source::Act(_, _, p) => over(measured(sizes, p)),
    }
}

// Keeps the size of the definition's body.
fn keep(alloc: Global, sizes: &mut NameMap<Size>, d: &Definition) -> Result<(), Mem>
    ensures nodes { OnOk result ((f : List ℕ) → nodes_kept (value_at sizes.new f) ≡ with_nodes (λ g. nodes_kept (value_at sizes.old g)) (definition_of d.now) f) }
    ensures levels { OnOk result ((f : List ℕ) → levels_kept (value_at sizes.new f) ≡ with_levels (λ g. levels_kept (value_at sizes.old g)) (definition_of d.now) f) }
{
    let size = measured(sizes, &d.body);
    let name = d.name.copy(alloc)?;
    sizes.insert(name, size)?;
    Ok(())
}

// The size of each definition's body, by its name.
fn sizes_of(alloc: Global, defs: &DefinitionList) -> Result<NameMap<Size>, Mem>
    ensures nodes { IfOk result (λ m. (f : List ℕ) → nodes_kept (value_at m f) ≡ nodes_of (definitions defs.now) f) }
    ensures levels { IfOk result (λ m. (f : List ℕ) → levels_kept (value_at m f) ≡ levels_of (definitions defs.now) f) }
{
    let mut sizes = NameMap::new(alloc);
    for k in 0..defs.len() {
        keep(alloc, &mut sizes, defs.at(k))?;
    }
    Ok(sizes)
}

/// How large the expansion of a use of each name is behind these definitions, whatever its arguments are and whatever names are taken: as
/// large as is kept of the name, one place where nothing is. Want of memory is the only error. It takes time in proportion to what is
/// written, where each name is looked for by its order, and recurses as deep as that.
pub fn use_sizes(alloc: Global, defs: &DefinitionList) -> Result<NameMap<Size>, Mem>
    requires { AreInOrder [] (definitions defs.now) }
    ensures nodes { IfOk result (λ m. (f : List ℕ) (ts : List Tree) (identifiers : List (List ℕ)) → nodes_kept (value_at m f)
        ≡ min (node_count (expansion (definitions defs.now) identifiers (call f ts)).process) u64.MAX) }
    ensures levels { IfOk result (λ m. (f : List ℕ) (ts : List Tree) (identifiers : List (List ℕ)) → levels_kept (value_at m f)
        ≡ min (level_count (expansion (definitions defs.now) identifiers (call f ts)).process) u64.MAX) }
{
    let sizes = sizes_of(alloc, defs)?;
    Ok(sizes)
}

/// How large the expansion of the process is behind these definitions, whatever names are taken. Want of memory is the only error. It
/// takes time in proportion to what is written, where each name is looked for by its order, and recurses as deep as that.
pub fn expanded_size(alloc: Global, defs: &DefinitionList, main: &Source) -> Result<Size, Mem>
    requires { AreInOrder [] (definitions defs.now) }
    ensures nodes { IfOk result (λ z. (identifiers : List (List ℕ)) → z.nodes
        ≡ min (node_count (expansion (definitions defs.now) identifiers (written main.now)).process) u64.MAX) }
    ensures levels { IfOk result (λ z. (identifiers : List (List ℕ)) → z.levels
        ≡ min (level_count (expansion (definitions defs.now) identifiers (written main.now)).process) u64.MAX) }
{
    let sizes = sizes_of(alloc, defs)?;
    let whole = measured(&sizes, main);
    Ok(whole)
}
