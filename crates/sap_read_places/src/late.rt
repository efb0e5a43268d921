//! Causes that are found behind the reading of a file: where their paths lead.
ghost use Rattle.std.specs.Prelude.{◌≡◌, ◌≤◌, ℕ, [], None, IfOk, IfSome, MatchOption, length, map, reverse};
ghost use Rattle.std.specs.List.{All};
ghost use Rattle.sap_text.specs.Spans.{IsWithin};
ghost use Rattle.sap_macro.specs.Indexed.{AreIndexed, defined};
ghost use Rattle.sap_macro.specs.Order.{AreInOrder, UsesOnly};
ghost use Rattle.sap_macro.specs.Sources.{definitions, written};
ghost use Rattle.sap_origin.specs.Origins.{words_left};
ghost use Rattle.sap_origin.specs.declared.origin.Origin.{Origin as OriginOf};
ghost use Rattle.sap_read.specs.FileTokens.{HasTokens};
ghost use Rattle.sap_read.specs.WrittenFiles.{IsWrittenFile};
ghost use Rattle.sap_read_places.specs.Placed.{IsAtPath, stretch_before};
ghost use Rattle.sap_stretches.specs.Stretches.{IsInBytes};
ghost use Rattle.sap_read_places.specs.code.Walked.{IsOriginTold, LeadsNowhere, LeadsTo};
ghost use Rattle.sap_read_places.specs.declared.told.Told.{Told as ToldOf};

use crate::laws::one_placed_file;
use crate::told::Told;
use sap_macro::{Index, index_of};
use sap_origin::{FileWord, Origin, origin_of};
use sap_read::{FileProcesses, WrittenFile};
use sap_stretches::{Stretch, stretch_at};
use sap_terms::{Items, Mem};
use sap_text::Token;
use std::alloc::Global;

/// The stretch of this word.
pub(crate) fn stretch_before(tokens: &[Token], word: FileWord) -> Stretch
    ensures is { result ≡ stretch_before tokens.now (words_left word) }
    ensures from { (size : ℕ) → All (IsWithin size) tokens.now → result.from ≤ size }
    ensures inside { (size : ℕ) → All (IsWithin size) tokens.now → IsInBytes size result }
{
    let k = tokens
        .len()
        .saturating_sub(word.left)
        .saturating_sub(word.behind);
    stretch_at(tokens, k)
}

/// Those of the names of uses, the last first.
pub(crate) fn stretches_back(
    alloc: Global,
    tokens: &[Token],
    uses: &[FileWord],
) -> Result<Items<Stretch>, Mem>
    ensures are { IfOk result (λ us. us
        ≡ map (stretch_before tokens.now) (reverse (map words_left uses.now))) }
    ensures inside { (size : ℕ) → All (IsWithin size) tokens.now
        → IfOk result (λ us. All (IsInBytes size) us) }
{
    let mut stretches = Items::new(alloc);
    let mut k = uses.len();
    while k > 0 {
        k -= 1;
        stretches.push(stretch_before(tokens, uses[k]))?;
    }
    Ok(stretches)
}

// What is told of a place that a walk came to.
fn told_of(alloc: Global, tokens: &[Token], origin: &Origin) -> Result<Told, Mem>
    ensures is { IfOk result (λ t. IsOriginTold tokens.now origin.now t) }
    ensures inside { (size : ℕ) → All (IsWithin size) tokens.now → IfOk result (λ t. t.word.from ≤ size) }
    ensures uses { (size : ℕ) → All (IsWithin size) tokens.now
        → IfOk result (λ t. All (IsInBytes size) t.uses) }
{
    Ok(Told {
        word: stretch_before(tokens, origin.word),
        uses: stretches_back(alloc, tokens, origin.uses.as_slice())?,
    })
}

// The place to which the path leads in these processes, if it leads to one.
fn origin_in(
    alloc: Global,
    processes: &FileProcesses,
    index: &Index,
    path: &[u8],
) -> Result<Option<Origin>, Mem>
    requires order { AreInOrder [] (definitions processes.now.definitions) }
    requires index { AreIndexed (definitions processes.now.definitions) index.now }
    requires count { length processes.now.behind ≡ length processes.now.definitions }
    requires uses { UsesOnly (defined (definitions processes.now.definitions)) (written processes.now.main.value) }
    ensures { IfOk result (λ o. MatchOption o (LeadsNowhere processes.now path.now)
        (λ origin. LeadsTo processes.now path.now origin)) }
{
    origin_of(
        alloc,
        &processes.definitions,
        index,
        processes.behind.as_slice(),
        &processes.main,
        processes.behind_main,
        path,
    )
}

// What is told of it.
pub(crate) fn told_in_processes(
    alloc: Global,
    tokens: &[Token],
    processes: &FileProcesses,
    index: &Index,
    path: &[u8],
) -> Result<Option<Told>, Mem>
    requires order { AreInOrder [] (definitions processes.now.definitions) }
    requires index { AreIndexed (definitions processes.now.definitions) index.now }
    requires count { length processes.now.behind ≡ length processes.now.definitions }
    requires uses { UsesOnly (defined (definitions processes.now.definitions)) (written processes.now.main.value) }
    ensures is { IfOk result (λ o. MatchOption o (LeadsNowhere processes.now path.now)
        (λ t. (origin : OriginOf) × LeadsTo processes.now path.now origin
        × IsOriginTold tokens.now origin t)) }
    ensures inside { (size : ℕ) → All (IsWithin size) tokens.now
        → IfOk result (λ o. IfSome o (λ t. t.word.from ≤ size)) }
    ensures used { (size : ℕ) → All (IsWithin size) tokens.now
        → IfOk result (λ o. IfSome o (λ t. All (IsInBytes size) t.uses)) }
{
    match origin_in(alloc, processes, index, path)? {
        Some(origin) => Ok(Some(told_of(alloc, tokens, &origin)?)),
        None => Ok(None),
    }
}

/// What is told of the place to which the path leads in the file of these tokens, if nothing refuses it before its uses are looked at
/// and the path leads to one. The time is linear in the tokens and in the uses on the way, but for names, which are looked up. Want of
/// memory is the only error.
pub fn path_told(
    alloc: Global,
    bytes: &[u8],
    tokens: &[Token],
    written: &WrittenFile,
    path: &[u8],
) -> Result<Option<Told>, Mem>
    requires tokens { HasTokens bytes.now tokens.now }
    requires written { IsWrittenFile bytes.now written.now }
    ensures place { IfOk result (λ o. IfSome o (λ t. IsAtPath bytes.now path.now t)) }
    ensures inside { IfOk result (λ o. IfSome o (λ t. t.word.from ≤ length bytes.now)) }
    ensures uses { IfOk result (λ o. IfSome o (λ t. All (IsInBytes (length bytes.now)) t.uses)) }
    ensures none { IfOk result (λ o. o ≡ None → (t : ToldOf) → IsAtPath bytes.now path.now t → ⊥) }
{
    one_placed_file();
    let index = index_of(alloc, &written.processes.definitions)?;
    told_in_processes(alloc, tokens, &written.processes, &index, path)
}
