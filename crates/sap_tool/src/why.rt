//! Why a file is refused: its cause, where this stands, and what to change; or that the file is accepted, and the notes on it.

ghost use Rattle.std.specs.Prelude.{◌≡◌, ◌≤◌, ◌++◌, ℕ, List, Err, length, IfOk};
ghost use Rattle.sap_process.specs.Proc.{proc};
ghost use Rattle.sap_read.specs.FileExpansions.{IsFileExpansion};
ghost use Rattle.sap_read.specs.FileTokens.{HasTokens};
ghost use Rattle.sap_read.specs.Files.{IsRead};
ghost use Rattle.sap_read.specs.SaidFiles.{IsSaidFile, IsUnrefused};
ghost use Rattle.sap_read.specs.WrittenFiles.{IsWrittenFile};
ghost use Rattle.sap_read.specs.declared.fault.ReadFault.TheVariants as faults;
ghost use Rattle.sap_replay.specs.AcceptedFile.{most_bytes};
ghost use Rattle.sap_tool.specs.WhyTexts.{IsWhyText, accepted_text, long_text};
ghost use Rattle.sap_notes.specs.NotesTold.{IsNotesText};
ghost use Rattle.sap_read_places.specs.Reached.{IsReached};

use sap_explain::{Reached, length_advice, push_explanation};
use sap_notes::push_notes;
use sap_process::Process;
use sap_read::{
    ReadFault, SaidFile, WrittenFile, check_said, check_written, file_process, file_tokens,
    said_file, written_of,
};
use sap_refusals::{file_line, long_file_line};
use sap_replay::MOST_BYTES;
use sap_terms::Mem;
use sap_text::{Text, Token};
use std::alloc::Global;

/// Whether the bytes are accepted, with notes on them, or why not.
pub fn why_text(alloc: Global, bytes: &[u8]) -> Result<Text, Mem>
    ensures { IfOk result (IsWhyText bytes.now) }
{
    if bytes.len() as u64 > MOST_BYTES {
        too_long(alloc)
    } else {
        read(alloc, bytes)
    }
}

/// That the bytes are too many, and what to change.
fn too_long(alloc: Global) -> Result<Text, Mem>
    ensures { IfOk result (λ text. text ≡ long_text) }
{
    let mut text = long_file_line(alloc)?;
    text.push_bytes(length_advice())?;
    text.push_bytes(b"\n")?;
    Ok(text)
}

/// Whether bytes that aren't too many are read as a file, or why not. The file is read in stages, each of which is lent to what tells
/// where a cause stands, so that nothing is read twice.
fn read(alloc: Global, bytes: &[u8]) -> Result<Text, Mem>
    requires { length bytes.now ≤ most_bytes }
    ensures { IfOk result (IsWhyText bytes.now) }
{
    match file_tokens(alloc, bytes) {
        Ok(tokens) => read_items(alloc, bytes, tokens.as_slice()),
        Err(fault) => refused(alloc, bytes, &[], Reached::Bytes, &fault),
    }
}

/// The same of the tokens of such bytes.
fn read_items(alloc: Global, bytes: &[u8], tokens: &[Token]) -> Result<Text, Mem>
    requires short { length bytes.now ≤ most_bytes }
    requires tokens { HasTokens bytes.now tokens.now }
    ensures { IfOk result (IsWhyText bytes.now) }
{
    match said_file(alloc, bytes, tokens) {
        Ok(said) => judge_items(alloc, bytes, tokens, said),
        Err(fault) => refused(alloc, bytes, tokens, Reached::Tokens, &fault),
    }
}

/// The same of what the items of such a file say.
fn judge_items(alloc: Global, bytes: &[u8], tokens: &[Token], said: SaidFile) -> Result<Text, Mem>
    requires short { length bytes.now ≤ most_bytes }
    requires tokens { HasTokens bytes.now tokens.now }
    requires said { IsSaidFile bytes.now said }
    ensures { IfOk result (IsWhyText bytes.now) }
{
    match check_said(alloc, &said) {
        Ok(()) => judge_uses(alloc, bytes, tokens, said),
        Err(fault) => refused(alloc, bytes, tokens, Reached::Items(&said), &fault),
    }
}

/// The same where nothing that they say refuses it.
fn judge_uses(alloc: Global, bytes: &[u8], tokens: &[Token], said: SaidFile) -> Result<Text, Mem>
    requires short { length bytes.now ≤ most_bytes }
    requires tokens { HasTokens bytes.now tokens.now }
    requires said { IsSaidFile bytes.now said }
    requires unrefused { IsUnrefused said }
    ensures { IfOk result (IsWhyText bytes.now) }
{
    let written = written_of(alloc, said)?;
    match file_process(alloc, &written) {
        Ok(process) => judge_process(alloc, bytes, tokens, &written, &process),
        Err(fault) => refused(alloc, bytes, tokens, Reached::Written(&written), &fault),
    }
}

/// The same of what is written in such a file and its process.
fn judge_process(
    alloc: Global,
    bytes: &[u8],
    tokens: &[Token],
    written: &WrittenFile,
    process: &Process,
) -> Result<Text, Mem>
    requires short { length bytes.now ≤ most_bytes }
    requires tokens { HasTokens bytes.now tokens.now }
    requires written { IsWrittenFile bytes.now written.now }
    requires process { IsFileExpansion written.now (proc process.now) }
    ensures { IfOk result (IsWhyText bytes.now) }
{
    match check_written(alloc, written, process) {
        Ok(()) => accepted(alloc, bytes, tokens, written, process),
        Err(fault) => refused(
            alloc,
            bytes,
            tokens,
            Reached::Expanded(written, process),
            &fault,
        ),
    }
}

/// That they are, and the notes on the file.
fn accepted(
    alloc: Global,
    bytes: &[u8],
    tokens: &[Token],
    written: &WrittenFile,
    process: &Process,
) -> Result<Text, Mem>
    requires tokens { HasTokens bytes.now tokens.now }
    requires written { IsWrittenFile bytes.now written.now }
    requires process { IsFileExpansion written.now (proc process.now) }
    ensures { IfOk result (λ text. (t : List ℕ) × (text ≡ accepted_text ++ t) × IsNotesText bytes.now t) }
{
    let mut text = Text::new(alloc);
    text.push_bytes(b"accepted\n")?;
    push_notes(alloc, &mut text, bytes, tokens, written, process)?;
    Ok(text)
}

/// The line with this cause, where it stands, and what to change. Want of memory is none, and has no such text.
fn refused(
    alloc: Global,
    bytes: &[u8],
    tokens: &[Token],
    reached: Reached<'_>,
    fault: &ReadFault,
) -> Result<Text, Mem>
    requires short { length bytes.now ≤ most_bytes }
    requires refused { (fault.now ≡ faults.Mem → ⊥) → IsRead bytes.now (Err fault.now) }
    requires reached { (fault.now ≡ faults.Mem → ⊥) → IsReached bytes.now tokens.now fault.now reached }
    ensures { IfOk result (IsWhyText bytes.now) }
{
    let mut text = file_line(alloc, fault)?;
    push_explanation(alloc, &mut text, bytes, tokens, reached, fault)?;
    Ok(text)
}
