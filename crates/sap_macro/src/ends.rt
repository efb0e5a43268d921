//! Where chains of names without parameters end.
ghost use Rattle.std.specs.Prelude.{◌≡◌, ◌<◌, ◌≤◌, false, List, [], Some, IfOk, MatchOption, length, slice_get};
ghost use Rattle.sap_terms.specs.Tree.{Tree};
ghost use Rattle.sap_terms.specs.Variables.{is_known};
ghost use Rattle.sap_macro.specs.Ends.{AreEnds, IsEnd, IsLast};
ghost use Rattle.sap_macro.specs.Expansion.{with_uses};
ghost use Rattle.sap_macro.specs.Indexed.{AreIndexed, IsDefined, defined};
ghost use Rattle.sap_macro.specs.Order.{AreInOrder};
ghost use Rattle.sap_macro.specs.Sources.{definition_of, definitions, written};
ghost use Rattle.sap_macro.specs.Walked.{steps_in};
ghost use Rattle.sap_macro.specs.Written.{Definition as Defined, call};
ghost use Rattle.sap_macro.specs.code.Ending.{AreFirstEnds, EndsAt, NamesBefore};
ghost use Rattle.sap_macro.specs.code.Steps.{IsFormed, plain_of};

use crate::definition::{Definition, DefinitionList};
use crate::index::Index;
use crate::source::Source;
use sap_terms::{Items, Mem, Name};
use std::alloc::Global;

/// For each definition the index of the one with whose body the chain of names without parameters ends that begins with its own.
pub type Ends = Items<u64>;

// The index for a name: that of its definition's end, where it has no parameters.
fn end_of_name(defs: &DefinitionList, index: &Index, ends: &Ends, name: &Name) -> Option<u64>
    requires order { AreInOrder [] (definitions defs.now) }
    requires index { AreIndexed (definitions defs.now) index.now }
    requires ends { AreFirstEnds (definitions defs.now) ends.now }
    requires before { NamesBefore (definitions defs.now) (length ends.now) (call name.now []) }
    ensures { (ts : List Tree) → MatchOption result (IsLast (definitions defs.now) (call name.now ts))
        (λ m. EndsAt (definitions defs.now) (call name.now ts) m) }
{
    match index.get(name) {
        None => None,
        Some(k) if defs.at(*k).params.len() == 0 => Some(*ends.at(*k)),
        Some(_) => None,
    }
}

// The index for a process.
fn end_from(defs: &DefinitionList, index: &Index, ends: &Ends, source: &Source) -> Option<u64>
    requires order { AreInOrder [] (definitions defs.now) }
    requires index { AreIndexed (definitions defs.now) index.now }
    requires ends { AreFirstEnds (definitions defs.now) ends.now }
    requires before { NamesBefore (definitions defs.now) (length ends.now) (written source.now) }
    ensures { MatchOption result (IsLast (definitions defs.now) (written source.now))
        (λ m. EndsAt (definitions defs.now) (written source.now) m) }
{
    match source {
        Source::Call(_, name, _) => end_of_name(defs, index, ends, name),
        _ => None,
    }
}

// The index for the definition at an index, where those for all before it are known.
fn end_at(defs: &DefinitionList, index: &Index, ends: &Ends) -> u64
    requires order { AreInOrder [] (definitions defs.now) }
    requires index { AreIndexed (definitions defs.now) index.now }
    requires ends { AreFirstEnds (definitions defs.now) ends.now }
    requires within { length ends.now < length defs.now }
    ensures { (d : Defined) → slice_get (definitions defs.now) (length ends.now) ≡ Some d → EndsAt (definitions defs.now) d.body result }
{
    let k = ends.len();
    match end_from(defs, index, ends, &defs.at(k).body) {
        None => k,
        Some(m) => m,
    }
}

/// Where the chains end that begin with bodies; `index` is what `index_of` gives of the definitions. Want of memory is the only error.
/// It takes time in proportion to the number of definitions, where each name is looked for by its order.
pub fn ends_of(alloc: Global, defs: &DefinitionList, index: &Index) -> Result<Ends, Mem>
    requires order { AreInOrder [] (definitions defs.now) }
    requires index { AreIndexed (definitions defs.now) index.now }
    ensures { IfOk result (λ ends. AreEnds (definitions defs.now) ends) }
{
    let mut ends = Items::with_room(alloc, defs.len())?;
    for _ in 0..defs.len() {
        let end = end_at(defs, index, &ends);
        ends.push(end)?;
    }
    Ok(ends)
}

/// What the process is behind names without parameters: a form of its own, or the name of a definition with parameters, or of none.
/// `index` and `ends` are what `index_of` and `ends_of` give of the definitions. It takes no memory, and looks for one name at most.
pub fn end_of<'a>(
    defs: &'a DefinitionList,
    index: &Index,
    ends: &Ends,
    source: &'a Source,
) -> &'a Source
    requires order { AreInOrder [] (definitions defs.now) }
    requires index { AreIndexed (definitions defs.now) index.now }
    requires ends { AreEnds (definitions defs.now) ends.now }
    ensures { IsEnd (definitions defs.now) (written source.now) (written result.now) }
{
    match end_from(defs, index, ends, source) {
        None => source,
        Some(m) => &defs.at(m).body,
    }
}

/// The definition of this name, with the end of the chain that begins with its body, if there is one; `index` and `ends` are what
/// `index_of` and `ends_of` give of the definitions. It takes no memory, and looks for one name.
pub fn definition_with_end<'a>(
    defs: &'a DefinitionList,
    index: &Index,
    ends: &Ends,
    name: &Name,
) -> Option<(&'a Definition, &'a Source)>
    requires index { AreIndexed (definitions defs.now) index.now }
    requires ends { AreEnds (definitions defs.now) ends.now }
    ensures { MatchOption result (is_known (defined (definitions defs.now)) name.now ≡ false)
        (λ r. IsDefined (definitions defs.now) name.now (definition_of r.0.now)
        × IsEnd (definitions defs.now) (definition_of r.0.now).body (written r.1.now)) }
{
    match index.get(name) {
        None => None,
        Some(k) => {
            let d = defs.at(*k);
            let end = defs.at(*ends.at(*k));
            Some((d, &end.body))
        }
    }
}

/// The same, as what is built behind names without parameters.
pub(crate) fn form_of<'a>(
    defs: &'a DefinitionList,
    index: &Index,
    ends: &Ends,
    source: &'a Source,
) -> &'a Source
    requires order { AreInOrder [] (definitions defs.now) }
    requires index { AreIndexed (definitions defs.now) index.now }
    requires ends { AreEnds (definitions defs.now) ends.now }
    ensures same { with_uses (plain_of (definitions defs.now)) (written result.now)
        ≡ with_uses (plain_of (definitions defs.now)) (written source.now) }
    ensures steps { steps_in (definitions defs.now) (written result.now)
        ≤ steps_in (definitions defs.now) (written source.now) }
    ensures formed { IsFormed (definitions defs.now) (written result.now) }
{
    end_of(defs, index, ends, source)
}
