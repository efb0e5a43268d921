//! What is written in a file, whose uses aren't looked at yet.
ghost use Rattle.std.specs.Prelude.{◌≡◌, Err, IfOk, IsErrOf};
ghost use Rattle.sap_read.specs.Files.{AreTokens, IsRead};
ghost use Rattle.sap_read.specs.WrittenFiles.{IsEarly, IsWrittenFile};
ghost use Rattle.sap_read.specs.declared.fault.ReadFault.{ReadFault};
ghost use Rattle.sap_read.specs.declared.fault.ReadFault.TheVariants.{Mem as OutOfMemory};

use crate::fault::ReadFault;
use crate::said::{check_said, said_file, written_of};
use sap_grammar::Declared;
use sap_macro::{DefinitionList, Source};
use sap_statements::Statement;
use sap_terms::{Items, Name, NameList};
use sap_text::Token;
use std::alloc::Global;

/// The processes of a file as they are written: its definitions, in order, and its own process. Behind the item of each definition, and
/// behind that of the process, so many words of the file are; the numbers in them count what is left of their item.
#[derive(Drop)]
pub struct FileProcesses {
    pub definitions: DefinitionList,
    pub behind: Items<usize>,
    pub main: Box<Source>,
    pub behind_main: usize,
}

/// A file that no cause refuses before its uses are looked at: its name, what it declares, its identifiers, its processes, and its
/// restrictions and lemmas.
#[derive(Drop)]
pub struct WrittenFile {
    pub name: Name,
    pub declared: Declared,
    pub identifiers: NameList,
    pub processes: FileProcesses,
    pub statements: Items<Statement>,
}

/// What is written in the file of these tokens, or the first cause that refuses it before uses are looked at. What items declare is
/// read first, in a pass of its own, since an identifier in a term is a constant where any item, also a later one, declares it so. The
/// numbers in its processes tell their places, so that a cause that is found later can be told where it stands.
pub fn written_file(alloc: Global, bytes: &[u8], tokens: &[Token]) -> Result<WrittenFile, ReadFault>
    requires { AreTokens bytes.now tokens.now }
    ensures written { IfOk result (λ w. IsWrittenFile bytes.now w) }
    ensures refused { (e : ReadFault) → IsErrOf result e → (e ≡ OutOfMemory → ⊥)
        → IsRead bytes.now (Err e) }
    ensures early { (e : ReadFault) → IsErrOf result e → (e ≡ OutOfMemory → ⊥) → IsEarly e }
{
    let said = said_file(alloc, bytes, tokens)?;
    check_said(alloc, &said)?;
    let written = written_of(alloc, said)?;
    Ok(written)
}
