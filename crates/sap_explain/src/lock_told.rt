//! What is told of a lock: the place to which its path leads.
ghost use Rattle.std.specs.Prelude.{◌≡◌, ◌≤◌, None, Some, IfOk, IfSome, MatchOption, length};
ghost use Rattle.std.specs.List.{All};
ghost use Rattle.sap_read.specs.FileTokens.{HasTokens};
ghost use Rattle.sap_read.specs.WrittenFiles.{IsWrittenFile};
ghost use Rattle.sap_read.specs.declared.fault.ReadFault.TheVariants.{Lock};
ghost use Rattle.sap_read_places.specs.Placed.{path_of};
ghost use Rattle.sap_read_places.specs.Reached.{IsReached};
ghost use Rattle.sap_stretches.specs.Stretches.{IsInBytes};
ghost use Rattle.sap_read_places.specs.declared.told.Told.{Told as ToldOf};
ghost use Rattle.sap_explain.specs.Told.{IsPlaceOf};

use sap_locks::LockFault;
use sap_read::WrittenFile;
use sap_read_places::{Reached, Told, path_told};
use sap_terms::{Mem, Path};
use sap_text::Token;
use std::alloc::Global;

// The path of the place that can't be annotated.
fn lock_path(lock: &LockFault) -> Option<&Path>
    ensures { MatchOption result (path_of (Lock lock.now) ≡ None)
        (λ path. path_of (Lock lock.now) ≡ Some path.now) }
{
    match lock {
        LockFault::Mem => None,
        LockFault::UnlockWithoutLock { path } => Some(path),
        LockFault::LockOverParallel { path } => Some(path),
    }
}

// What is told of a lock in the process that is written so.
fn told_in_process(
    alloc: Global,
    bytes: &[u8],
    tokens: &[Token],
    written: &WrittenFile,
    lock: &LockFault,
) -> Result<Option<Told>, Mem>
    requires tokens { HasTokens bytes.now tokens.now }
    requires written { IsWrittenFile bytes.now written.now }
    ensures place { IfOk result (λ o. IfSome o (λ t. IsPlaceOf bytes.now (Lock lock.now) t)) }
    ensures inside { IfOk result (λ o. IfSome o (λ t. t.word.from ≤ length bytes.now)) }
    ensures uses { IfOk result (λ o. IfSome o (λ t. All (IsInBytes (length bytes.now)) t.uses)) }
    ensures none { IfOk result (λ o. o ≡ None → (t : ToldOf) → IsPlaceOf bytes.now (Lock lock.now) t → ⊥) }
{
    match lock_path(lock) {
        Some(path) => path_told(alloc, bytes, tokens, written, path.as_slice()),
        None => Ok(None),
    }
}

/// What is told of a lock: the word that tells the place that can't be annotated, and the uses through which one comes there.
pub(crate) fn lock_told(
    alloc: Global,
    bytes: &[u8],
    tokens: &[Token],
    reached: Reached<'_>,
    lock: &LockFault,
) -> Result<Option<Told>, Mem>
    requires { IsReached bytes.now tokens.now (Lock lock.now) reached }
    ensures place { IfOk result (λ o. IfSome o (λ t. IsPlaceOf bytes.now (Lock lock.now) t)) }
    ensures inside { IfOk result (λ o. IfSome o (λ t. t.word.from ≤ length bytes.now)) }
    ensures uses { IfOk result (λ o. IfSome o (λ t. All (IsInBytes (length bytes.now)) t.uses)) }
    ensures none { IfOk result (λ o. o ≡ None → (t : ToldOf) → IsPlaceOf bytes.now (Lock lock.now) t → ⊥) }
{
    match reached {
        Reached::Expanded(written, _) => told_in_process(alloc, bytes, tokens, written, lock),
        _ => Ok(None),
    }
}
