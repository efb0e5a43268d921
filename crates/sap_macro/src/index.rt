//! What names of processes stand for.
ghost use Rattle.std.specs.Prelude.{◌≡◌, false, IfOk, MatchOption};
ghost use Rattle.sap_terms.specs.Variables.{is_known};
ghost use Rattle.sap_macro.specs.Sources.{definition_of, definitions};
ghost use Rattle.sap_macro.specs.Indexed.{AreIndexed, IsDefined, defined};

use crate::definition::{Definition, DefinitionList};
use sap_terms::{Copied, Mem, Name, NameMap};
use std::alloc::Global;

/// The index of each definition, by its name.
pub type Index = NameMap<u64>;

/// The index of each of the definitions. Want of memory is the only error. It takes time in proportion to their number, where each
/// is put in by the order of names.
pub fn index_of(alloc: Global, defs: &DefinitionList) -> Result<Index, Mem>
    ensures { IfOk result (λ index. AreIndexed (definitions defs.now) index) }
{
    let mut index = NameMap::new(alloc);
    for k in 0..defs.len() {
        index.insert(defs.at(k).name.copy(alloc)?, k)?;
    }
    Ok(index)
}

/// The definition of this name, if there is one; `index` is what `index_of` gives of the definitions. It takes no memory.
pub fn definition_named<'a>(
    defs: &'a DefinitionList,
    index: &Index,
    name: &Name,
) -> Option<&'a Definition>
    requires { AreIndexed (definitions defs.now) index.now }
    ensures { MatchOption result (is_known (defined (definitions defs.now)) name.now ≡ false)
        (λ d. IsDefined (definitions defs.now) name.now (definition_of d.now)) }
{
    match index.get(name) {
        None => None,
        Some(k) => Some(defs.at(*k)),
    }
}
