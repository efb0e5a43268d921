//! Names of processes that are used before they are defined.
ghost use Rattle.std.specs.Prelude.{◌≡◌, ◌||◌, ℕ, List, [], map, None, Some, IfOk, OnOk, IsErrOf};
ghost use Rattle.std.specs.List.{list_any};
ghost use Rattle.std.specs.Option.{option_map};
ghost use Rattle.std.specs.Str.{bytes_eq};
ghost use Rattle.sap_macro.specs.Sources.{located};
ghost use Rattle.sap_read.specs.declared.fault.ReadFault.{ReadFault};
ghost use Rattle.sap_read.specs.declared.fault.ReadFault.TheVariants.{Mem as OutOfMemory, UnknownProcess as IsUnknown};
ghost use Rattle.sap_read.specs.Causes.{is_among, listed, unknown_from};
ghost use Rattle.sap_read.specs.UndefinedNames.{calls_at, first_undefined};
ghost use Rattle.sap_read.specs.Entries.{body, located_body};
ghost use Rattle.sap_read.specs.code.Known.{undefined_among, used_name};

use crate::entry::Entry;
use crate::fault::ReadFault;
use sap_macro::{Source, located_is_written};
use sap_origin::FileWord;
use sap_terms::{Copied, Items, Mem, Name, NameSet};
use std::alloc::Global;

/// A name of a process that nothing before it defines, and its word.
#[derive(Clone, Copy)]
pub(crate) struct Undefined<'a> {
    pub(crate) name: &'a Name,
    pub(crate) word: FileWord,
}

// The first name in the process that isn't defined; behind its item are so many words of the file. It recurses as deep as the process.
#[tactic(auto, using(crate::proofs::Known::undefined_laws))]
fn undefined_in<'a>(names: &NameSet, source: &'a Source, behind: usize) -> Option<Undefined<'a>>
    ensures { option_map used_name result ≡ undefined_among names.now (calls_at behind (located source.now)) }
{
    match source {
        Source::Nil(_) => None,
        Source::Call(_, x, _) if names.contains(x) => None,
        Source::Call(left, x, _) => Some(Undefined {
            name: x,
            word: FileWord {
                left: *left,
                behind,
            },
        }),
        Source::Par(_, p, q) | Source::If(_, _, _, p, q) | Source::Lookup(_, _, _, p, q) => {
            match undefined_in(names, p, behind) {
                None => undefined_in(names, q, behind),
                found => found,
            }
        }
        Source::Rep(_, p) | Source::Act(_, _, p) => undefined_in(names, p, behind),
    }
}

// Keeps the name of the process, if it has one.
fn keep(names: &mut NameSet, entry: &Entry) -> Result<(), Mem>
    ensures { OnOk result ((x : List ℕ) → list_any (bytes_eq x) names.new
        ≡ (is_among (listed entry.now.label) x || list_any (bytes_eq x) names.old)) }
{
    let Some(label) = &entry.label else {
        return Ok(());
    };
    names.insert(label)?;
    Ok(())
}

// The first name in the process that isn't defined; where there is none, the process's own name is kept, if it has one.
fn enter<'a>(names: &mut NameSet, entry: &'a Entry) -> Result<Option<Undefined<'a>>, Mem>
    ensures found { IfOk result (λ o. option_map used_name o
        ≡ undefined_among names.old (calls_at entry.now.behind (located entry.now.source.value))) }
    ensures kept { IfOk result (λ o. o ≡ None → (x : List ℕ) → list_any (bytes_eq x) names.new
        ≡ (is_among (listed entry.now.label) x || list_any (bytes_eq x) names.old)) }
{
    let found = undefined_in(names, &entry.source, entry.behind);
    if found.is_some() {
        return Ok(found);
    }
    keep(names, entry)?;
    Ok(None)
}

/// The first name in the processes that none before its own defines. It takes time in proportion to the processes as they are
/// written, where each name in them is looked for by its order.
pub(crate) fn first_undefined<'a>(
    alloc: Global,
    entries: &'a Items<Entry>,
) -> Result<Option<Undefined<'a>>, Mem>
    ensures { IfOk result (λ o. option_map used_name o ≡ first_undefined [] (map located_body entries.now)) }
{
    let mut names = NameSet::new(alloc);
    for entry in entries.as_slice() {
        let found = enter(&mut names, entry)?;
        if found.is_some() {
            return Ok(found);
        }
    }
    Ok(None)
}

/// Refuses the processes where one has a name that none before it defines, in the time that `first_undefined` takes.
pub(crate) fn check_all_known(alloc: Global, entries: &Items<Entry>) -> Result<(), ReadFault>
    ensures known { OnOk result (unknown_from [] (map body entries.now) ≡ None) }
    ensures unknown { (e : ReadFault) → IsErrOf result e → (e ≡ OutOfMemory → ⊥)
        → option_map IsUnknown (unknown_from [] (map body entries.now)) ≡ Some e }
{
    located_is_written();
    match first_undefined(alloc, entries)? {
        None => Ok(()),
        Some(found) => Err(ReadFault::UnknownProcess {
            name: found.name.copy(alloc)?,
        }),
    }
}
