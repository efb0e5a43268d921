//! What is told of the first place beyond a limit.
ghost use Rattle.std.specs.Prelude.{◌≡◌, ◌≤◌, ℕ, List, [], None, IfOk, IfSome, MatchOption, length};
ghost use Rattle.std.specs.List.{All};
ghost use Rattle.sap_text.specs.Spans.{IsWithin};
ghost use Rattle.sap_macro.specs.Indexed.{AreIndexed, defined};
ghost use Rattle.sap_macro.specs.Order.{AreInOrder, UsesOnly};
ghost use Rattle.sap_macro.specs.Sources.{definitions, written};
ghost use Rattle.sap_read.specs.FileTokens.{HasTokens};
ghost use Rattle.sap_read.specs.WrittenFiles.{IsWrittenFile};
ghost use Rattle.sap_stretches.specs.Stretches.{IsInBytes};
ghost use Rattle.sap_read_places.specs.code.Beyond.{IsBeyondTold, IsFirstBeyond, IsLimitPlace};
ghost use Rattle.sap_read_places.specs.declared.told.Told.{Told as ToldOf};

use crate::late::told_in_processes;
use crate::laws::one_placed_file;
use crate::told::Told;
use sap_beyond::{level_beyond, one_first_deep, one_numbered, place_beyond};
use sap_macro::{Index, index_of, located_is_written};
use sap_read::{FileProcesses, WrittenFile};
use sap_terms::{MOST_PROCESS_LEVELS, MOST_PROCESS_PLACES, Mem, Path};
use sap_text::Token;
use std::alloc::Global;

/// What a process may not have more of.
#[derive(Clone, Copy)]
pub(crate) enum Limit {
    Places,
    Levels,
}

// The path of the first place beyond the limit, if there is one.
fn first_beyond(
    alloc: Global,
    processes: &FileProcesses,
    index: &Index,
    limit: Limit,
) -> Result<Option<Path>, Mem>
    requires order { AreInOrder [] (definitions processes.now.definitions) }
    requires index { AreIndexed (definitions processes.now.definitions) index.now }
    requires uses { UsesOnly (defined (definitions processes.now.definitions)) (written processes.now.main.value) }
    ensures { IfOk result (λ o. MatchOption o ((path : List ℕ) → IsFirstBeyond limit processes.now path → ⊥)
        (λ path. IsFirstBeyond limit processes.now path)) }
{
    match limit {
        Limit::Places => place_beyond(
            alloc,
            &processes.definitions,
            index,
            &processes.main,
            MOST_PROCESS_PLACES,
        ),
        Limit::Levels => level_beyond(
            alloc,
            &processes.definitions,
            index,
            &processes.main,
            MOST_PROCESS_LEVELS,
        ),
    }
}

// What is told of that place.
fn told_beyond(
    alloc: Global,
    tokens: &[Token],
    processes: &FileProcesses,
    limit: Limit,
) -> Result<Option<Told>, Mem>
    requires order { AreInOrder [] (definitions processes.now.definitions) }
    requires count { length processes.now.behind ≡ length processes.now.definitions }
    requires uses { UsesOnly (defined (definitions processes.now.definitions)) (written processes.now.main.value) }
    ensures is { IfOk result (λ o. IsBeyondTold limit processes.now tokens.now o) }
    ensures inside { (size : ℕ) → All (IsWithin size) tokens.now
        → IfOk result (λ o. IfSome o (λ t. t.word.from ≤ size)) }
    ensures used { (size : ℕ) → All (IsWithin size) tokens.now
        → IfOk result (λ o. IfSome o (λ t. All (IsInBytes size) t.uses)) }
{
    one_numbered();
    one_first_deep();
    let index = index_of(alloc, &processes.definitions)?;
    match first_beyond(alloc, processes, &index, limit)? {
        Some(path) => told_in_processes(alloc, tokens, processes, &index, path.as_slice()),
        None => Ok(None),
    }
}

/// What is told of the first place beyond the limit in the file of these tokens, if nothing refuses it before its uses are looked at and
/// its process goes beyond the limit: the word that tells the place, and the uses through which one comes there. The time is linear in
/// the tokens and in the uses on the way, but for names, which are looked up. Want of memory is the only error.
pub(crate) fn limit_told(
    alloc: Global,
    bytes: &[u8],
    tokens: &[Token],
    written: &WrittenFile,
    limit: Limit,
) -> Result<Option<Told>, Mem>
    requires tokens { HasTokens bytes.now tokens.now }
    requires written { IsWrittenFile bytes.now written.now }
    ensures place { IfOk result (λ o. IfSome o (λ t. IsLimitPlace bytes.now limit t)) }
    ensures inside { IfOk result (λ o. IfSome o (λ t. t.word.from ≤ length bytes.now)) }
    ensures uses { IfOk result (λ o. IfSome o (λ t. All (IsInBytes (length bytes.now)) t.uses)) }
    ensures none { IfOk result (λ o. o ≡ None → (t : ToldOf) → IsLimitPlace bytes.now limit t → ⊥) }
{
    one_placed_file();
    located_is_written();
    told_beyond(alloc, tokens, &written.processes, limit)
}
