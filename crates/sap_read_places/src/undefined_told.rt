//! What is told of a name that nothing defines.
ghost use Rattle.std.specs.Prelude.{◌≡◌, ◌≤◌, None, Err, IfOk, IfSome, length};
ghost use Rattle.std.specs.List.{All};
ghost use Rattle.sap_read.specs.FileTokens.{HasTokens};
ghost use Rattle.sap_read.specs.SaidFiles.{IsSaidFile};
ghost use Rattle.sap_read.specs.Files.{IsRead};
ghost use Rattle.sap_read.specs.declared.fault.ReadFault.TheVariants.{UnknownProcess};
ghost use Rattle.sap_read_places.specs.UndefinedPlaces.{IsUndefinedPlace};
ghost use Rattle.sap_stretches.specs.Stretches.{IsInBytes};
ghost use Rattle.sap_read_places.specs.declared.told.Told.{Told as ToldOf};

use crate::late::stretch_before;
use crate::told::Told;
use crate::undefined_laws::undefined_places;
use sap_read::{SaidFile, bodies_are_one, undefined_name};
use sap_terms::{Items, Mem, Name};
use sap_text::Token;
use std::alloc::Global;

/// What is told of this name, if the file of these tokens is refused since nothing before its first use defines it: that use. The time
/// is linear in the tokens, but for names, which are looked up. Want of memory is the only error.
pub(crate) fn undefined_told(
    alloc: Global,
    bytes: &[u8],
    tokens: &[Token],
    said: &SaidFile,
    name: &Name,
) -> Result<Option<Told>, Mem>
    requires tokens { HasTokens bytes.now tokens.now }
    requires said { IsSaidFile bytes.now said.now }
    requires refused { IsRead bytes.now (Err (UnknownProcess name.now)) }
    ensures place { IfOk result (λ o. IfSome o (λ t. IsUndefinedPlace bytes.now name.now t)) }
    ensures inside { IfOk result (λ o. IfSome o (λ t. t.word.from ≤ length bytes.now)) }
    ensures uses { IfOk result (λ o. IfSome o (λ t. All (IsInBytes (length bytes.now)) t.uses)) }
    ensures none { IfOk result (λ o. o ≡ None → (t : ToldOf) → IsUndefinedPlace bytes.now name.now t → ⊥) }
{
    undefined_places();
    bodies_are_one();
    match undefined_name(alloc, said)? {
        Some(word) => Ok(Some(Told {
            word: stretch_before(tokens, word),
            uses: Items::new(alloc),
        })),
        None => Ok(None),
    }
}
