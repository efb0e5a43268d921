//! Parameters that stand twice, and uses with another number of arguments.
ghost use Rattle.std.specs.Prelude.{◌≡◌, ℕ, List, None, Some, IfOk, OnOk, if◌then◌else◌};
ghost use Rattle.std.specs.List.{list_any};
ghost use Rattle.std.specs.Option.{option_copied, unwrap_or};
ghost use Rattle.std.specs.Str.{bytes_eq};
ghost use Rattle.sap_terms.specs.NameMap.{value_at};
ghost use Rattle.sap_terms.specs.Variables.{is_known};
ghost use Rattle.sap_macro.specs.MacroCauses.{all_uses, first_twice, first_other, first_other_count, first_parameter_twice, parameter_count, uses};
ghost use Rattle.sap_macro.specs.Sources.{definitions, written};
ghost use Rattle.sap_uses.specs.code.Noted.{AreNoted};

use sap_macro::{DefinitionList, Source};
use sap_terms::{Copied, Mem, Name, NameList, NameMap, NameSet};
use std::alloc::Global;

// Notes the name: it, where it was noted before, else what was found.
fn noted(
    alloc: Global,
    later: &mut NameSet,
    found: Option<Name>,
    name: &Name,
) -> Result<Option<Name>, Mem>
    ensures found { IfOk result (λ o. o ≡ (if list_any (bytes_eq name.now) later.old then Some name.now else found)) }
    ensures noted { OnOk result (AreNoted later.old later.new name.now) }
{
    let (_, new) = later.insert(name)?;
    if new {
        return Ok(found);
    }
    let name = name.copy(alloc)?;
    Ok(Some(name))
}

// The first name that stands again behind itself.
fn first_twice(alloc: Global, names: &NameList) -> Result<Option<Name>, Mem>
    ensures { IfOk result (λ o. o ≡ first_twice names.now) }
{
    let mut later = NameSet::new(alloc);
    let mut found = None;
    let mut k = names.len();
    while 0 < k {
        k -= 1;
        found = noted(alloc, &mut later, found, names.at(k))?;
    }
    Ok(found)
}

/// The first parameter that its definition has twice, of the first such definition. Want of memory is the only error. It takes time
/// in proportion to the parameters, where each is looked for by its order.
pub fn first_parameter_twice(alloc: Global, defs: &DefinitionList) -> Result<Option<Name>, Mem>
    ensures { IfOk result (λ o. o ≡ first_parameter_twice (definitions defs.now)) }
{
    for k in 0..defs.len() {
        if let Some(name) = first_twice(alloc, &defs.at(k).params)? {
            return Ok(Some(name));
        }
    }
    Ok(None)
}

/// How many parameters each definition has, by its name; of definitions of one name the first counts. Want of memory is the only error.
/// It takes time in proportion to their number, where each is put in by the order of names.
pub fn counts_of(alloc: Global, defs: &DefinitionList) -> Result<NameMap<u64>, Mem>
    ensures { IfOk result (λ m. (f : List ℕ) → unwrap_or (value_at m f) 0 ≡ parameter_count (definitions defs.now) f) }
{
    let mut counts = NameMap::new(alloc);
    let mut k = defs.len();
    while 0 < k {
        k -= 1;
        let d = defs.at(k);
        counts.insert(d.name.copy(alloc)?, d.params.len())?;
    }
    Ok(counts)
}

/// How many parameters the name's definition has by these counts, none where nothing defines it.
pub fn count(counts: &NameMap<u64>, name: &Name) -> u64
    ensures { result ≡ unwrap_or (value_at counts.now name.now) 0 }
{
    match counts.get(name) {
        Some(count) => *count,
        None => 0,
    }
}

// The first use in the process with another number of arguments. It recurses as deep as the process.
#[tactic(auto, using(crate::proofs::Counted::other_laws))]
fn other_in<'a>(counts: &NameMap<u64>, source: &'a Source) -> Option<&'a Name>
    ensures { option_copied result ≡ first_other (λ f. unwrap_or (value_at counts.now f) 0) (uses (written source.now)) }
{
    match source {
        Source::Nil(_) => None,
        Source::Call(_, name, args) if args.len() == count(counts, name) => None,
        Source::Call(_, name, _) => Some(name),
        Source::Rep(_, p) | Source::Act(_, _, p) => other_in(counts, p),
        Source::Par(_, p, q) | Source::If(_, _, _, p, q) | Source::Lookup(_, _, _, p, q) => {
            match other_in(counts, p) {
                None => other_in(counts, q),
                found => found,
            }
        }
    }
}

/// A copy of the name, if there is one.
pub(crate) fn copied(alloc: Global, name: Option<&Name>) -> Result<Option<Name>, Mem>
    ensures { IfOk result (λ o. o ≡ option_copied name.entry) }
{
    match name {
        None => Ok(None),
        Some(name) => {
            let name = name.copy(alloc)?;
            Ok(Some(name))
        }
    }
}

// The first such use, in the bodies in order and then in the process.
fn other_count(
    alloc: Global,
    defs: &DefinitionList,
    main: &Source,
    counts: &NameMap<u64>,
) -> Result<Option<Name>, Mem>
    ensures { IfOk result (λ o. o ≡ first_other (λ f. unwrap_or (value_at counts.now f) 0)
        (all_uses (definitions defs.now) (written main.now))) }
{
    for k in 0..defs.len() {
        let found = other_in(counts, &defs.at(k).body);
        if let Some(name) = found {
            let name = name.copy(alloc)?;
            return Ok(Some(name));
        }
    }
    let found = copied(alloc, other_in(counts, main))?;
    Ok(found)
}

/// The name of the first use, in the bodies in order and then in the process, with another number of arguments than its definition
/// has parameters. Want of memory is the only error. It takes time in proportion to what is written, where each name is looked for
/// by its order.
pub fn first_other_count(
    alloc: Global,
    defs: &DefinitionList,
    main: &Source,
) -> Result<Option<Name>, Mem>
    ensures { IfOk result (λ o. o ≡ first_other_count (definitions defs.now) (written main.now)) }
{
    let counts = counts_of(alloc, defs)?;
    let found = other_count(alloc, defs, main, &counts)?;
    Ok(found)
}
