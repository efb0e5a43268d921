//! From which written node a node of a place stems.
ghost use Rattle.std.specs.Prelude.{◌≡◌, ◌++◌, ◌∷◌, ℕ, List, [], length, IfOk, OnOk};
ghost use Rattle.sap_terms.specs.View.{tree};
ghost use Rattle.sap_macro.specs.Located.{Located};
ghost use Rattle.sap_macro.specs.Sources.{located};
ghost use Rattle.sap_origin.specs.Definitions.{located_definitions};
ghost use Rattle.sap_stems.specs.StemOf.{IsStemAt};
ghost use Rattle.sap_stems.specs.StemsAt.{arguments};
ghost use Rattle.sap_origin.specs.Trails.{IsTrail};
ghost use Rattle.sap_stems.specs.code.Makings.{after_term, all_put, behind_put, params_at, put_made, puts_made};

use crate::making::{Making, Put, WrittenNode, in_head, in_term};
use sap_macro::{DefinitionList, Source};
use sap_nodes::Part;
use sap_origin::{Trail, Use};
use sap_terms::{Copied, Items, Mem, Name, NameList, Term, TermList};
use std::alloc::Global;

// Puts last what stands for a parameter: the nodes of this term, the argument, of which the first is this one. It gives the node behind.
fn push_put<'a>(
    alloc: Global,
    puts: &Items<Put<'a>>,
    at: WrittenNode<'a>,
    name: &Name,
    t: &Term,
    list: &mut Items<Put<'a>>,
) -> Result<WrittenNode<'a>, Mem>
    ensures list { OnOk result (list.new ≡ list.old ++ put_made puts.now at.entry name.now (tree t.now) ∷ []) }
    ensures at { IfOk result (λ w. w ≡ after_term puts.now at.entry (tree t.now)) }
{
    let param = name.copy(alloc)?;
    let mut making = Making {
        at,
        nodes: Items::new(alloc),
    };
    in_term(puts, Part::Given, t, &mut making)?;
    let next = making.at;
    list.push(Put {
        param,
        nodes: making.nodes,
    })?;
    Ok(next)
}

// What stands for the parameters: the arguments, of whose nodes the first is this one.
fn puts_of<'a>(
    alloc: Global,
    puts: &Items<Put<'a>>,
    at: WrittenNode<'a>,
    params: &NameList,
    args: &TermList,
) -> Result<Items<Put<'a>>, Mem>
    ensures { IfOk result (λ r. r ≡ puts_made puts.now at.entry params.now args.now) }
{
    let mut list = Items::new(alloc);
    let mut next = at;
    for k in 0..params.len().min(args.len()) {
        next = push_put(alloc, puts, next, params.at(k), args.at(k), &mut list)?;
    }
    Ok(list)
}

// What stands for parameters behind a use that so many uses are above.
fn behind_use<'a>(
    alloc: Global,
    defs: &DefinitionList,
    puts: Items<Put<'a>>,
    above: u64,
    used: Use<'a>,
) -> Result<Items<Put<'a>>, Mem>
    ensures { IfOk result (λ r. r ≡ behind_put puts.entry above used.entry (params_at defs.now used.entry.definition)) }
{
    let params = match defs.get(used.definition) {
        None => return Ok(puts),
        Some(d) => &d.params,
    };
    if params.len() == 0 {
        return Ok(puts);
    }
    let at = WrittenNode {
        source: used.source,
        index: 0,
        behind: used.behind,
        uses: above,
    };
    match used.source {
        Source::Call(_, _, args) => puts_of(alloc, &puts, at, params, args),
        _ => Ok(Items::new(alloc)),
    }
}

// What stands for parameters behind all uses on the way.
fn all_puts<'a>(
    alloc: Global,
    defs: &DefinitionList,
    uses: &Items<Use<'a>>,
) -> Result<Items<Put<'a>>, Mem>
    ensures { IfOk result (λ r. r ≡ all_put defs.now [] 0 uses.now) }
{
    let mut puts = Items::new(alloc);
    for k in 0..uses.len() {
        puts = behind_use(alloc, defs, puts, k, *uses.at(k))?;
    }
    Ok(puts)
}

/// The written node from which this node of the place stems, to which this trail leads, by its number among those of the head, once
/// arguments are put in for parameters; `None` where the head has no such node. Want of memory is the only error. It takes time and
/// memory in proportion to the arguments on the way and to the head, with arguments put in, where a parameter is looked for among those
/// of its definition; it recurses as deep as the terms that are written there.
pub fn stem_in<'a>(
    alloc: Global,
    defs: &DefinitionList,
    trail: &Trail<'a>,
    node: u64,
) -> Result<Option<WrittenNode<'a>>, Mem>
    ensures { IfOk result (λ r. (ns : List ℕ) (p : Located) (behind : ℕ) (path : List ℕ)
        → length ns ≡ length defs.now → IsTrail (located_definitions defs.now ns) p behind path trail.now
        → IsStemAt (located_definitions defs.now ns) p behind path node r) }
{
    let puts = all_puts(alloc, defs, &trail.uses)?;
    let at = WrittenNode {
        source: trail.source,
        index: 0,
        behind: trail.behind,
        uses: trail.uses.len(),
    };
    let mut making = Making {
        at,
        nodes: Items::new(alloc),
    };
    in_head(&puts, trail.source, &mut making)?;
    match making.nodes.get(node) {
        None => Ok(None),
        Some(w) => Ok(Some(*w)),
    }
}
