//! What the items of a file say, before anything of it is checked.
ghost use Rattle.std.specs.Prelude.{◌≡◌, ℕ, List, [], map, Err, IfOk, OnOk, IsErrOf};
ghost use Rattle.std.specs.Option.{option_map};
ghost use Rattle.sap_origin.specs.Origins.{words_left};
ghost use Rattle.sap_read.specs.Entries.{located_body};
ghost use Rattle.sap_read.specs.Files.{AreTokens, IsRead};
ghost use Rattle.sap_read.specs.SaidFiles.{IsOfItems, IsOfWords, IsSaidFile, IsUnrefused};
ghost use Rattle.sap_read.specs.UndefinedNames.{UsedName, first_undefined};
ghost use Rattle.sap_read.specs.WrittenFiles.{IsWrittenFile};
ghost use Rattle.sap_read.specs.code.Known.{used_name};
ghost use Rattle.sap_read.specs.declared.fault.ReadFault.{ReadFault};
ghost use Rattle.sap_read.specs.declared.fault.ReadFault.TheVariants.{Mem as OutOfMemory};

use crate::entry::Entry;
use crate::fault::ReadFault;
use crate::identifiers::identifiers;
use crate::items::{Contents, read_items};
use crate::names::{Undefined, first_undefined};
use crate::whole::{check_before, file_processes};
use crate::written::WrittenFile;
use sap_grammar::{Declared, beyond, header_name, item_laws, last_line, read_declarations};
use sap_origin::FileWord;
use sap_statements::Statement;
use sap_terms::{Items, Mem, Name, NameList};
use sap_text::Token;
use std::alloc::Global;

/// A file whose items are all in the grammar: its name, what it declares, its identifiers, what its items say of processes, and its
/// restrictions and lemmas.
#[derive(Drop)]
pub struct SaidFile {
    pub name: Name,
    pub declared: Declared,
    pub identifiers: NameList,
    pub entries: Items<Entry>,
    pub statements: Items<Statement>,
}

/// What the items of the file of these tokens say, or that the tokens begin with no header, or the first of them that is no item. What
/// items declare is read first, in a pass of its own, since an identifier in a term is a constant where any item, also a later one,
/// declares it so. The numbers in its processes tell their places.
pub fn said_file(alloc: Global, bytes: &[u8], tokens: &[Token]) -> Result<SaidFile, ReadFault>
    requires { AreTokens bytes.now tokens.now }
    ensures said { IfOk result (λ f. IsSaidFile bytes.now f) }
    ensures refused { (e : ReadFault) → IsErrOf result e → (e ≡ OutOfMemory → ⊥)
        → IsRead bytes.now (Err e) }
    ensures words { (e : ReadFault) → IsErrOf result e → (e ≡ OutOfMemory → ⊥) → IsOfWords e }
{
    item_laws();
    let Some(name) = header_name(bytes, tokens) else {
        return Err(ReadFault::Header);
    };
    let title = Name::from_bytes(alloc, name)?;
    let rest = beyond(3, tokens);
    let declared = read_declarations(alloc, bytes, rest)?;
    let identifiers = identifiers(alloc, bytes, tokens)?;
    let contents = read_items(alloc, &declared.signature, bytes, rest, last_line(tokens))?;
    let Contents {
        entries,
        statements,
    } = contents;
    Ok(SaidFile {
        name: title,
        declared,
        identifiers,
        entries,
        statements,
    })
}

/// Refuses a file for the first cause that is looked for in what its items say: no process, a second one, a name of a process that no
/// item before its own defines, a name that is taken, a declaration that clashes. What is said is lent, so that it is there where
/// the place of the cause is asked for. It takes time in proportion to what is said, where names are looked for by their order.
pub fn check_said(alloc: Global, file: &SaidFile) -> Result<(), ReadFault>
    ensures passed { OnOk result (IsUnrefused file.now) }
    ensures refused { (z : List ℕ) (e : ReadFault) → IsSaidFile z file.now → IsErrOf result e
        → (e ≡ OutOfMemory → ⊥) → IsRead z (Err e) }
    ensures items { (e : ReadFault) → IsErrOf result e → (e ≡ OutOfMemory → ⊥) → IsOfItems e }
{
    check_before(alloc, &file.entries, &file.statements, &file.declared.clash)
}

/// What is written in a file, where nothing that its items say refuses it. Want of memory is the only error.
pub fn written_of(alloc: Global, file: SaidFile) -> Result<WrittenFile, Mem>
    requires { IsUnrefused file }
    ensures { (z : List ℕ) → IsSaidFile z file → IfOk result (λ w. IsWrittenFile z w) }
{
    let SaidFile {
        name,
        declared,
        identifiers,
        entries,
        statements,
    } = file;
    let processes = file_processes(alloc, entries)?;
    Ok(WrittenFile {
        name,
        declared,
        identifiers,
        processes,
        statements,
    })
}

// Its word alone.
fn word_of(found: Option<Undefined>) -> Option<FileWord>
    ensures { option_map words_left result ≡ option_map (λ u. u.word) (option_map used_name found.entry) }
{
    match found {
        None => None,
        Some(found) => Some(found.word),
    }
}

/// The word of the first name of a process that the file uses and that no item before defines, if there is one. Want of memory is the
/// only error.
pub fn undefined_name(alloc: Global, file: &SaidFile) -> Result<Option<FileWord>, Mem>
    ensures { IfOk result (λ o. option_map words_left o
        ≡ option_map (λ (u : UsedName). u.word) (first_undefined [] (map located_body file.now.entries))) }
{
    let found = first_undefined(alloc, &file.entries)?;
    Ok(word_of(found))
}
