//! What is met where a walk comes to a process as it is written.
ghost use Rattle.std.specs.Prelude.{[]};
ghost use Rattle.sap_macro.specs.Order.{AreInOrder};
ghost use Rattle.sap_macro.specs.Sources.{definitions, written};
ghost use Rattle.sap_macro.specs.Ends.{AreEnds};
ghost use Rattle.sap_macro.specs.Indexed.{AreIndexed};
ghost use Rattle.sap_macro.specs.Written.{call};
ghost use Rattle.sap_uses.specs.code.Met.{IsMet};

use sap_macro::{Definition, DefinitionList, Ends, Index, Source, definition_with_end};
use sap_terms::{Name, TermList};

/// What is met at a process whose names without parameters are replaced.
#[derive(Clone, Copy)]
pub(crate) enum Met<'a> {
    /// nothing that goes on
    Nothing,
    /// a name without parameters, and what stands at the end of the chain of such names that begins with its body
    Plain(&'a Source),
    /// a definition with parameters, and the arguments
    Use(&'a Definition, &'a TermList),
    /// one process below
    One(&'a Source),
    /// a first and a second
    Two(&'a Source, &'a Source),
}

// What is met at a name.
fn met_name<'a>(
    defs: &'a DefinitionList,
    index: &Index,
    ends: &Ends,
    name: &Name,
    args: &'a TermList,
) -> Met<'a>
    requires order { AreInOrder [] (definitions defs.now) }
    requires index { AreIndexed (definitions defs.now) index.now }
    requires ends { AreEnds (definitions defs.now) ends.now }
    ensures { IsMet (definitions defs.now) result (call name.now args.now) }
{
    match definition_with_end(defs, index, ends, name) {
        None => Met::Nothing,
        Some((d, end)) if d.params.len() == 0 => Met::Plain(end),
        Some((d, _)) => Met::Use(d, args),
    }
}

// What is met before names without parameters are replaced.
#[tactic(auto, using(crate::proofs::Heads::head_laws))]
fn met_first<'a>(
    defs: &'a DefinitionList,
    index: &Index,
    ends: &Ends,
    source: &'a Source,
) -> Met<'a>
    requires order { AreInOrder [] (definitions defs.now) }
    requires index { AreIndexed (definitions defs.now) index.now }
    requires ends { AreEnds (definitions defs.now) ends.now }
    ensures { IsMet (definitions defs.now) result (written source.now) }
{
    match source {
        Source::Nil(_) => Met::Nothing,
        Source::Call(_, name, args) => met_name(defs, index, ends, name, args),
        Source::Rep(_, p) => Met::One(p),
        Source::Act(_, _, p) => Met::One(p),
        Source::Par(_, p, q) => Met::Two(p, q),
        Source::If(_, _, _, p, q) => Met::Two(p, q),
        Source::Lookup(_, _, _, p, q) => Met::Two(p, q),
    }
}

/// What is met there. Behind a chain of names without parameters a second name at most is looked for. It takes no memory.
pub(crate) fn met_at<'a>(
    defs: &'a DefinitionList,
    index: &Index,
    ends: &Ends,
    source: &'a Source,
) -> Met<'a>
    requires order { AreInOrder [] (definitions defs.now) }
    requires index { AreIndexed (definitions defs.now) index.now }
    requires ends { AreEnds (definitions defs.now) ends.now }
    ensures { IsMet (definitions defs.now) result (written source.now) }
{
    let mut at = met_first(defs, index, ends, source);
    while let Met::Plain(end) = at {
        at = met_first(defs, index, ends, end);
    }
    at
}
