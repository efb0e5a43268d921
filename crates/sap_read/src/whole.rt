//! From what is written to the process of the file.
ghost use Rattle.std.specs.Prelude.{◌≡◌, ◌≤◌, ℕ, List, [], ◌∷◌, ◌++◌, length, Option, Some, None, map, IfOk, OnOk, IsErrOf};
ghost use Rattle.std.specs.Option.{option_or};
ghost use Rattle.sap_terms.specs.Signature.{Sig};
ghost use Rattle.sap_process.specs.Proc.{node_count, proc};
ghost use Rattle.sap_restrict.specs.Restrictions.{is_generated};
ghost use Rattle.sap_statements.specs.Statements.{name_of};
ghost use Rattle.sap_macro.specs.Order.{AreInOrder};
ghost use Rattle.sap_macro.specs.Sources.{definitions};
ghost use Rattle.sap_origin.specs.Definitions.{located_definitions};
ghost use Rattle.sap_read.specs.FileProcess.{definitions_of, main_of, defined_as};
ghost use Rattle.sap_read.specs.Item.{Body};
ghost use Rattle.sap_read.specs.Causes.{cause, unlabelled, labels, unknown_from, first_repeated, first_taken};
ghost use Rattle.sap_read.specs.LocatedItems.{defined_at, definitions_at, main_at};
ghost use Rattle.sap_read.specs.Entries.{body, located_body};
ghost use Rattle.sap_read.specs.code.Judged.{IsRefusedBefore, IsWhole};
ghost use Rattle.sap_read.specs.code.Parting.{AreLocatedParts, AreParts, located_main, written_main};
ghost use Rattle.sap_read.specs.declared.fault.ReadFault.{ReadFault};
ghost use Rattle.sap_statements.specs.declared.statement.Statement.{Statement};
ghost use Rattle.sap_read.specs.declared.fault.ReadFault.TheVariants.{Mem as OutOfMemory};

use crate::entry::Entry;
use crate::fault::ReadFault;
use crate::labels::check_one_process;
use crate::names::check_all_known;
use crate::taken::{first_repeated, first_reused};
use crate::written::FileProcesses;
use sap_macro::{Definition, DefinitionList, Source};
use sap_process::Process;
use sap_statements::Statement;
use sap_terms::{Copied, Items, MOST_PROCESS_PLACES, Mem, Name, NameList};
use sap_uses::expand;
use std::alloc::Global;

// Refuses names that are defined twice or taken, and functions that clash.
fn check_names(
    alloc: Global,
    entries: &Items<Entry>,
    statements: &Items<Statement>,
    clash: &Option<Name>,
) -> Result<(), ReadFault>
    requires one { (b : Body) × (unlabelled (map body entries.now) ≡ b ∷ []) }
    requires known { unknown_from [] (map body entries.now) ≡ None }
    ensures distinct { OnOk result (first_repeated (labels (map body entries.now)) ≡ None) }
    ensures free { OnOk result (first_taken is_generated (map name_of statements.now) ≡ None) }
    ensures no_clash { OnOk result (clash.now ≡ None) }
    ensures refused { (e : ReadFault) → IsErrOf result e → (e ≡ OutOfMemory → ⊥)
        → cause (map body entries.now) statements.now clash.now ≡ Some e }
{
    if let Some(name) = first_repeated(alloc, entries)? {
        return Err(ReadFault::DuplicateName { name });
    }
    if let Some(name) = first_reused(alloc, statements)? {
        return Err(ReadFault::DuplicateName { name });
    }
    match clash {
        None => Ok(()),
        Some(name) => {
            let name = name.copy(alloc)?;
            Err(ReadFault::FunctionClash { name })
        }
    }
}

/// Refuses what counts before uses are looked at.
pub(crate) fn check_before(
    alloc: Global,
    entries: &Items<Entry>,
    statements: &Items<Statement>,
    clash: &Option<Name>,
) -> Result<(), ReadFault>
    ensures accepted { OnOk result (cause (map body entries.now) statements.now clash.now ≡ None) }
    ensures refused { (e : ReadFault) → IsErrOf result e → (e ≡ OutOfMemory → ⊥)
        → cause (map body entries.now) statements.now clash.now ≡ Some e }
{
    check_one_process(entries)?;
    check_all_known(alloc, entries)?;
    check_names(alloc, entries, statements, clash)
}

/// A process of a file, and how many words of the file are behind its item.
#[derive(Drop)]
pub(crate) struct Main {
    pub(crate) source: Box<Source>,
    pub(crate) behind: usize,
}

/// The definitions of a file, how many words of it are behind each, and its own process, if it has one: the first.
#[derive(Drop)]
pub(crate) struct FileParts {
    pub(crate) defs: DefinitionList,
    pub(crate) behind: Items<usize>,
    pub(crate) main: Option<Main>,
}

// Puts the process where it belongs.
fn put(parts: &mut FileParts, entry: Entry) -> Result<(), Mem>
    requires { length parts.old.behind ≡ length parts.old.defs }
    ensures definitions { OnOk result (definitions parts.new.defs
        ≡ definitions parts.old.defs ++ defined_as entry.label (body entry)) }
    ensures main { OnOk result (written_main parts.new.main
        ≡ option_or (written_main parts.old.main) (main_of (body entry ∷ []))) }
    ensures count { OnOk result (length parts.new.behind ≡ length parts.new.defs) }
    ensures definitions_at { OnOk result (located_definitions parts.new.defs parts.new.behind
        ≡ located_definitions parts.old.defs parts.old.behind
        ++ defined_at entry.label (located_body entry)) }
    ensures main_at { OnOk result (located_main parts.new.main
        ≡ option_or (located_main parts.old.main) (main_at (located_body entry ∷ []))) }
{
    let Entry {
        label,
        params,
        source,
        behind,
        ..
    } = entry;
    match label {
        Some(name) => {
            parts.behind.push(behind)?;
            parts.defs.push(Definition {
                name,
                params,
                body: source,
            })
        }
        None => {
            if parts.main.is_none() {
                parts.main = Some(Main { source, behind });
            }
            Ok(())
        }
    }
}

// The definitions and the file's own process.
fn parted(alloc: Global, entries: Items<Entry>) -> Result<FileParts, Mem>
    ensures definitions { IfOk result (λ p. definitions p.defs ≡ definitions_of (map body entries)) }
    ensures main { IfOk result (λ p. written_main p.main ≡ main_of (map body entries)) }
    ensures count { IfOk result (λ p. length p.behind ≡ length p.defs) }
    ensures definitions_at { IfOk result (λ p. located_definitions p.defs p.behind
        ≡ definitions_at (map located_body entries)) }
    ensures main_at { IfOk result (λ p. located_main p.main ≡ main_at (map located_body entries)) }
{
    let mut all = FileParts {
        defs: DefinitionList::new(alloc),
        behind: Items::new(alloc),
        main: None,
    };
    for entry in entries.into_vec() {
        put(&mut all, entry)?;
    }
    Ok(all)
}

/// The processes of a file that has one of its own. It takes time in proportion to their number. Want of memory is the only error.
pub(crate) fn file_processes(alloc: Global, entries: Items<Entry>) -> Result<FileProcesses, Mem>
    requires { (b : Body) × (unlabelled (map body entries) ≡ b ∷ []) }
    ensures parts { (ss : List Statement) (clash : Option (List ℕ)) → cause (map body entries) ss clash ≡ None
        → IfOk result (λ p. AreParts (map body entries) ss clash p) }
    ensures places { IfOk result (λ p. AreLocatedParts (map located_body entries) p) }
{
    let FileParts { defs, behind, main } = parted(alloc, entries)?;
    match main {
        None => unreachable!(),
        Some(main) => Ok(FileProcesses {
            definitions: defs,
            behind,
            main: main.source,
            behind_main: main.behind,
        }),
    }
}

/// The file's process, expanded, or the first cause that refuses it. It takes time in proportion to the processes as they are written
/// and, where there is no cause, to the answer.
pub(crate) fn whole_process(
    alloc: Global,
    processes: &FileProcesses,
    identifiers: &NameList,
) -> Result<Box<Process>, ReadFault>
    requires { AreInOrder [] (definitions processes.now.definitions) }
    ensures accepted { (g : Sig) (bs : List Body) (ss : List Statement) (clash : Option (List ℕ))
        → AreParts bs ss clash processes.now
        → IfOk result (λ p. IsWhole g clash identifiers.now bs ss (proc p.value)) }
    ensures small { IfOk result (λ p. node_count (proc p.value) ≤ MOST_PROCESS_PLACES) }
    ensures refused { (g : Sig) (bs : List Body) (ss : List Statement) (clash : Option (List ℕ))
        (e : ReadFault) → AreParts bs ss clash processes.now → IsErrOf result e
        → (e ≡ OutOfMemory → ⊥) → IsRefusedBefore g clash bs ss e }
{
    let FileProcesses {
        definitions,
        main,
        ..
    } = processes;
    Ok(expand(alloc, definitions, main, identifiers)?)
}
