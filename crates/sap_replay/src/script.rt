//! What is written of the processes of a file, for who tells runs by it.

ghost use Rattle.std.specs.Prelude.{IfOk};
ghost use Rattle.sap_players.specs.Casts.{Cast};
ghost use Rattle.sap_read.specs.Files.{AreTokens};
ghost use Rattle.sap_replay.specs.FileRoles.{HasCast};
ghost use Rattle.sap_roles.specs.Casts.{IsCastOfScript, IsScript};

use sap_macro::located_is_written;
use sap_origin::located_definitions_are_written;
use sap_read::{FileProcesses, WrittenFile, file_tokens, written_file};
use sap_roles::{Script, casts_are_one};
use sap_terms::Mem;
use sap_text::Token;
use std::alloc::Global;

/// What is written of the processes of the file of these bytes, which is read once more up to its definitions: it wasn't kept while the
/// file was judged. Bytes that are read as a file give no fault but want of memory.
pub(crate) fn script_of(alloc: Global, bytes: &[u8]) -> Result<Script, Mem>
    ensures script { IfOk result IsScript }
    ensures cast { IfOk result (λ s. (cast : Cast) × IsCastOfScript s cast × HasCast bytes.now cast) }
{
    match file_tokens(alloc, bytes) {
        Ok(tokens) => script_written(alloc, bytes, tokens.as_slice()),
        Err(_) => Err(Mem),
    }
}

// The same from its tokens.
fn script_written(alloc: Global, bytes: &[u8], tokens: &[Token]) -> Result<Script, Mem>
    requires { AreTokens bytes.now tokens.now }
    ensures script { IfOk result IsScript }
    ensures cast { IfOk result (λ s. (cast : Cast) × IsCastOfScript s cast × HasCast bytes.now cast) }
{
    located_definitions_are_written();
    located_is_written();
    casts_are_one();
    match written_file(alloc, bytes, tokens) {
        Ok(file) => {
            let WrittenFile { processes, .. } = file;
            let FileProcesses {
                definitions,
                main,
                ..
            } = processes;
            Script::new(alloc, definitions, main)
        }
        Err(_) => Err(Mem),
    }
}
