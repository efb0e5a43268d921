//! What is told of a use of which a cause speaks.
ghost use Rattle.std.specs.Prelude.{◌≡◌, ◌≤◌, ◌↔◌, IsTrue, None, Some, IfOk, IfSome, MatchOption, ℕ, [], length, map};
ghost use Rattle.std.specs.List.{All};
ghost use Rattle.sap_text.specs.Spans.{IsWithin};
ghost use Rattle.sap_macro.specs.Order.{AreInOrder};
ghost use Rattle.sap_macro.specs.Sources.{definitions};
ghost use Rattle.sap_origin.specs.Origins.{words_left};
ghost use Rattle.sap_read.specs.FileTokens.{HasTokens};
ghost use Rattle.sap_read.specs.WrittenFiles.{IsWrittenFile};
ghost use Rattle.sap_read_places.specs.Placed.{stretch_before};
ghost use Rattle.sap_read_places.specs.UsePlaces.{IsLargeUsePlace, IsOtherUsePlace};
ghost use Rattle.sap_stretches.specs.Stretches.{IsInBytes};
ghost use Rattle.sap_read_places.specs.code.NamedUses.{IsFoundTold, IsNotNamed, IsUseWordOf, IsWordOf, large_of, other_of};
ghost use Rattle.sap_read_places.specs.declared.told.Told.{Told as ToldOf};

use crate::late::stretch_before;
use crate::laws::one_placed_file;
use crate::told::Told;
use sap_macro::{index_of, located_is_written};
use sap_origin::{FileWord, located_definitions_are_written};
use sap_read::{FileProcesses, WrittenFile};
use sap_stretches::Stretch;
use sap_terms::{Items, Mem, Name};
use sap_text::Token;
use sap_use_words::{
    UseWord, large_use, large_uses_are_named, other_use, written_uses_are_written,
};
use sap_uses::{first_large, first_other_count};
use std::alloc::Global;

// Whether it is this name.
fn is_it(found: &Option<Name>, name: &[u8]) -> bool
    ensures { IsTrue result ↔ (found.now ≡ Some name.now) }
{
    match found {
        Some(other) => other.as_bytes() == name,
        None => false,
    }
}

// The word of the first use with another number of arguments, if it has this name.
fn other_word(
    alloc: Global,
    processes: &FileProcesses,
    name: &[u8],
) -> Result<Option<FileWord>, Mem>
    requires count { length processes.now.behind ≡ length processes.now.definitions }
    ensures { IfOk result (λ o. MatchOption o (IsNotNamed name.now (other_of processes.now))
        (λ w. IsWordOf name.now (other_of processes.now) w)) }
{
    located_is_written();
    located_definitions_are_written();
    written_uses_are_written();
    let found = first_other_count(alloc, &processes.definitions, &processes.main)?;
    let named = is_it(&found, name);
    drop(found);
    if named {
        other_use(
            alloc,
            &processes.definitions,
            processes.behind.as_slice(),
            &processes.main,
            processes.behind_main,
        )
    } else {
        Ok(None)
    }
}

// The word of the first use that has a large argument, and those of the uses above it, if it has this name.
fn large_word(alloc: Global, processes: &FileProcesses, name: &[u8]) -> Result<Option<UseWord>, Mem>
    requires order { AreInOrder [] (definitions processes.now.definitions) }
    requires count { length processes.now.behind ≡ length processes.now.definitions }
    ensures { IfOk result (λ o. MatchOption o (IsNotNamed name.now (large_of processes.now))
        (λ w. IsUseWordOf name.now (large_of processes.now) w)) }
{
    located_is_written();
    located_definitions_are_written();
    large_uses_are_named();
    let found = first_large(alloc, &processes.definitions, &processes.main)?;
    let named = is_it(&found, name);
    drop(found);
    if named {
        let index = index_of(alloc, &processes.definitions)?;
        large_use(
            alloc,
            &processes.definitions,
            &index,
            processes.behind.as_slice(),
            &processes.main,
            processes.behind_main,
        )
    } else {
        Ok(None)
    }
}

// The stretches of these words, in order.
fn stretches_of(alloc: Global, tokens: &[Token], words: &[FileWord]) -> Result<Items<Stretch>, Mem>
    ensures are { IfOk result (λ us. us ≡ map (stretch_before tokens.now) (map words_left words.now)) }
    ensures inside { (size : ℕ) → All (IsWithin size) tokens.now
        → IfOk result (λ us. All (IsInBytes size) us) }
{
    let mut stretches = Items::new(alloc);
    let mut k = 0;
    while k < words.len() {
        stretches.push(stretch_before(tokens, words[k]))?;
        k += 1;
    }
    Ok(stretches)
}

// What is told of the first use with another number of arguments, if it has this name.
fn other_in(
    alloc: Global,
    tokens: &[Token],
    processes: &FileProcesses,
    name: &[u8],
) -> Result<Option<Told>, Mem>
    requires count { length processes.now.behind ≡ length processes.now.definitions }
    ensures is { IfOk result (λ o. MatchOption o (IsNotNamed name.now (other_of processes.now))
        (λ t. IsFoundTold tokens.now name.now (other_of processes.now) t)) }
    ensures inside { (size : ℕ) → All (IsWithin size) tokens.now
        → IfOk result (λ o. IfSome o (λ t. t.word.from ≤ size)) }
    ensures used { (size : ℕ) → All (IsWithin size) tokens.now
        → IfOk result (λ o. IfSome o (λ t. All (IsInBytes size) t.uses)) }
{
    match other_word(alloc, processes, name)? {
        Some(word) => Ok(Some(Told {
            word: stretch_before(tokens, word),
            uses: Items::new(alloc),
        })),
        None => Ok(None),
    }
}

// What is told of the first use that has a large argument, if it has this name.
fn large_in(
    alloc: Global,
    tokens: &[Token],
    processes: &FileProcesses,
    name: &[u8],
) -> Result<Option<Told>, Mem>
    requires order { AreInOrder [] (definitions processes.now.definitions) }
    requires count { length processes.now.behind ≡ length processes.now.definitions }
    ensures is { IfOk result (λ o. MatchOption o (IsNotNamed name.now (large_of processes.now))
        (λ t. IsFoundTold tokens.now name.now (large_of processes.now) t)) }
    ensures inside { (size : ℕ) → All (IsWithin size) tokens.now
        → IfOk result (λ o. IfSome o (λ t. t.word.from ≤ size)) }
    ensures used { (size : ℕ) → All (IsWithin size) tokens.now
        → IfOk result (λ o. IfSome o (λ t. All (IsInBytes size) t.uses)) }
{
    match large_word(alloc, processes, name)? {
        Some(found) => {
            let uses = stretches_of(alloc, tokens, found.above.as_slice())?;
            Ok(Some(Told {
                word: stretch_before(tokens, found.word),
                uses,
            }))
        }
        None => Ok(None),
    }
}

/// What is told of a use of this name with another number of arguments than its definition has parameters: its word, where it is the
/// first such use. The time is linear in the tokens, but for names, which are looked up. Want of memory is the only error.
pub(crate) fn other_use_told(
    alloc: Global,
    bytes: &[u8],
    tokens: &[Token],
    written: &WrittenFile,
    name: &[u8],
) -> Result<Option<Told>, Mem>
    requires tokens { HasTokens bytes.now tokens.now }
    requires written { IsWrittenFile bytes.now written.now }
    ensures place { IfOk result (λ o. IfSome o (λ t. IsOtherUsePlace bytes.now name.now t)) }
    ensures inside { IfOk result (λ o. IfSome o (λ t. t.word.from ≤ length bytes.now)) }
    ensures uses { IfOk result (λ o. IfSome o (λ t. All (IsInBytes (length bytes.now)) t.uses)) }
    ensures none { IfOk result (λ o. o ≡ None → (t : ToldOf) → IsOtherUsePlace bytes.now name.now t → ⊥) }
{
    one_placed_file();
    other_in(alloc, tokens, &written.processes, name)
}

/// What is told of a use of this name that has an argument that is too large: its word, where it is the first such use in the expansion,
/// and the uses through which one comes there, the innermost first. The time is linear in the tokens and in the expansion, but for names,
/// which are looked up. Want of memory is the only error.
pub(crate) fn large_use_told(
    alloc: Global,
    bytes: &[u8],
    tokens: &[Token],
    written: &WrittenFile,
    name: &[u8],
) -> Result<Option<Told>, Mem>
    requires tokens { HasTokens bytes.now tokens.now }
    requires written { IsWrittenFile bytes.now written.now }
    ensures place { IfOk result (λ o. IfSome o (λ t. IsLargeUsePlace bytes.now name.now t)) }
    ensures inside { IfOk result (λ o. IfSome o (λ t. t.word.from ≤ length bytes.now)) }
    ensures uses { IfOk result (λ o. IfSome o (λ t. All (IsInBytes (length bytes.now)) t.uses)) }
    ensures none { IfOk result (λ o. o ≡ None → (t : ToldOf) → IsLargeUsePlace bytes.now name.now t → ⊥) }
{
    one_placed_file();
    large_in(alloc, tokens, &written.processes, name)
}
