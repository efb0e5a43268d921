//! Which name is defined twice, and which a restriction or lemma can't have.
ghost use Rattle.std.specs.Prelude.{◌≡◌, ◌&&◌, ◌||◌, ◌++◌, ℕ, List, map, IfOk, OnOk};
ghost use Rattle.std.specs.List.{list_any};
ghost use Rattle.std.specs.Str.{bytes_eq};
ghost use Rattle.sap_restrict.specs.Restrictions.{is_generated};
ghost use Rattle.sap_statements.specs.Statements.{name_of};
ghost use Rattle.sap_read.specs.Causes.{labels, listed, first_taken, first_repeated};
ghost use Rattle.sap_read.specs.Entries.{body};
ghost use Rattle.sap_read.specs.code.Label.{name_there};

use crate::entry::Entry;
use sap_restrict::is_generated;
use sap_statements::Statement;
use sap_terms::{Copied, Items, Mem, Name, NameList, NameSet};
use std::alloc::Global;

// Puts the label last, if there is one.
fn push_label(alloc: Global, names: &mut NameList, entry: &Entry) -> Result<(), Mem>
    ensures { OnOk result (names.new ≡ names.old ++ listed entry.now.label) }
{
    let Some(label) = &entry.label else {
        return Ok(());
    };
    let name = label.copy(alloc)?;
    names.push(name)
}

// The names that processes have, in order.
fn labels(alloc: Global, entries: &Items<Entry>) -> Result<NameList, Mem>
    ensures { IfOk result (λ names. names ≡ labels (map body entries.now)) }
{
    let mut names = NameList::new(alloc);
    for entry in entries.as_slice() {
        push_label(alloc, &mut names, entry)?;
    }
    Ok(names)
}

// The names of restrictions and lemmas, in order.
fn statement_names(alloc: Global, statements: &Items<Statement>) -> Result<NameList, Mem>
    ensures { IfOk result (λ names. names ≡ map name_of statements.now) }
{
    let mut names = NameList::new(alloc);
    for statement in statements.as_slice() {
        names.push(statement.name().copy(alloc)?)?;
    }
    Ok(names)
}

// Whether the name is taken: it is one of these, or, where those count, that of a generated restriction. It is one of these now.
fn is_taken(names: &mut NameSet, name: &Name, generated: bool) -> Result<bool, Mem>
    ensures is { IfOk result (λ b. b ≡ ((generated && is_generated name.now)
        || list_any (bytes_eq name.now) names.old)) }
    ensures more { OnOk result ((x : List ℕ)
        → list_any (bytes_eq x) names.new ≡ (bytes_eq name.now x
        || list_any (bytes_eq x) names.old)) }
{
    let (_, is_new) = names.insert(name)?;
    Ok((generated && is_generated(name)) || !is_new)
}

// The index of the first of the names that is taken. It takes time in proportion to the list, where each name is looked for
// among those behind it by its order.
fn first_taken_at(alloc: Global, names: &NameList, generated: bool) -> Result<Option<u64>, Mem>
    ensures { IfOk result (λ k. first_taken (λ x. generated && is_generated x) names.now
        ≡ name_there names.now k) }
{
    let mut behind = NameSet::new(alloc);
    let mut found = None;
    let mut k = names.len();
    while k > 0 {
        k -= 1;
        if is_taken(&mut behind, names.at(k), generated)? {
            found = Some(k);
        }
    }
    Ok(found)
}

// The first of the names that another behind it is too, or, where those count, that a generated restriction has.
fn first_taken(alloc: Global, names: &NameList, generated: bool) -> Result<Option<Name>, Mem>
    ensures { IfOk result (λ name. name ≡ first_taken (λ x. generated && is_generated x) names.now) }
{
    let Some(k) = first_taken_at(alloc, names, generated)? else {
        return Ok(None);
    };
    match names.get(k) {
        Some(name) => Ok(Some(name.copy(alloc)?)),
        None => Ok(None),
    }
}

/// The first name that another process behind it has too. It takes time in proportion to the list, where each name is looked for
/// among those behind it by its order.
pub(crate) fn first_repeated(alloc: Global, entries: &Items<Entry>) -> Result<Option<Name>, Mem>
    ensures { IfOk result (λ name. name ≡ first_repeated (labels (map body entries.now))) }
{
    let names = labels(alloc, entries)?;
    first_taken(alloc, &names, false)
}

/// The first name of a restriction or lemma that another behind it has too, or a generated restriction. It takes time in
/// proportion to the list, where each name is looked for among those behind it by its order.
pub(crate) fn first_reused(
    alloc: Global,
    statements: &Items<Statement>,
) -> Result<Option<Name>, Mem>
    ensures { IfOk result (λ name. name ≡ first_taken is_generated (map name_of statements.now)) }
{
    let names = statement_names(alloc, statements)?;
    first_taken(alloc, &names, true)
}
