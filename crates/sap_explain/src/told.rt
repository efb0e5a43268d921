//! What is told of where a cause stands.
ghost use Rattle.std.specs.Prelude.{◌≡◌, ◌≤◌, ◌↔◌, ℕ, IsTrue, None, Err, IfOk, IfSome, length};
ghost use Rattle.std.specs.List.{All};
ghost use Rattle.sap_read.specs.FileTokens.{HasTokens};
ghost use Rattle.sap_read.specs.Files.{IsRead};
ghost use Rattle.sap_read.specs.declared.fault.ReadFault.TheVariants.{Lex as LexFault, Syntax};
ghost use Rattle.sap_grammar.specs.Words.{words_of};
ghost use Rattle.sap_expect.specs.WrongWord.{IsWrongAt};
ghost use Rattle.sap_read_places.specs.Reached.{IsReached};
ghost use Rattle.sap_text.specs.declared.fault.Lex.{Lex};
ghost use Rattle.sap_read_places.specs.Placed.{path_of};
ghost use Rattle.sap_read_places.specs.ReadPlaces.{IsReadCause};
ghost use Rattle.sap_read_places.specs.declared.told.Told.{Told as ToldOf};
ghost use Rattle.sap_stretches.specs.Stretches.{IsInBytes};
ghost use Rattle.sap_where.specs.Where.{HasStretch};
ghost use Rattle.sap_explain.specs.Told.{HasPlace, IsPlaceOf};

use crate::lock_told::lock_told;
use sap_read::ReadFault;
use sap_read_places::{Reached, Told, path_places, read_places, read_told};
use sap_terms::{Items, Mem};
use sap_text::Token;
use sap_where::cause_stretch;
use std::alloc::Global;

// Whether it is found when the items of a file have been read.
fn is_read_cause(fault: &ReadFault) -> bool
    ensures { IsTrue result ↔ IsReadCause fault.now }
{
    match fault {
        ReadFault::UnknownProcess { .. } => true,
        ReadFault::Arguments { .. } => true,
        ReadFault::TooMany => true,
        ReadFault::TooDeep => true,
        ReadFault::Large { .. } => true,
        ReadFault::Flawed { .. } => true,
        ReadFault::Ill { .. } => true,
        ReadFault::Formula { .. } => true,
        _ => false,
    }
}

// What is told of a cause that the words of the file place.
fn told_by_words(
    alloc: Global,
    bytes: &[u8],
    tokens: &[Token],
    fault: &ReadFault,
    wrong: Option<usize>,
) -> Result<Option<Told>, Mem>
    requires wrong { (line : ℕ) → fault.now ≡ Syntax line → IsWrongAt (words_of bytes.now tokens.now) wrong }
    requires tokens { ((f : Lex) → fault.now ≡ LexFault f → ⊥) → HasTokens bytes.now tokens.now }
    requires no_path { path_of fault.now ≡ None }
    requires unread { IsReadCause fault.now → ⊥ }
    ensures place { IfOk result (λ o. IfSome o (λ t. IsPlaceOf bytes.now fault.now t)) }
    ensures inside { IfOk result (λ o. IfSome o (λ t. t.word.from ≤ length bytes.now)) }
    ensures uses { IfOk result (λ o. IfSome o (λ t. All (IsInBytes (length bytes.now)) t.uses)) }
    ensures none { IfOk result (λ o. o ≡ None → (t : ToldOf) → IsPlaceOf bytes.now fault.now t → ⊥) }
    ensures told { HasStretch fault.now → IsRead bytes.now (Err fault.now)
        → IfOk result (λ o. o ≡ None → ⊥) }
{
    match cause_stretch(alloc, bytes, tokens, fault, wrong)? {
        Some(word) => Ok(Some(Told {
            word,
            uses: Items::new(alloc),
        })),
        None => Ok(None),
    }
}

/// Where in the bytes of a file the cause stands for which they are refused: what the words of the file place where they do
/// (`cause_stretch`); of a lock the word that tells its place, and the uses through which one comes there; of a cause that is found when
/// the items have been read where what is read of the file has it (`read_told`). `None`, where nothing of this is found in the bytes, and
/// for all other causes. What was read of the file is lent, and nothing of it is read again; of bytes that are no tokens none are lent. Of a
/// piece that is no item it is handed in how many words stand before the first wrong one (`sap_expect::wrong_word`).
/// The time is linear in the bytes and in what is read of them, but for names, which are looked up. Want of memory is the only error.
pub fn place_of(
    alloc: Global,
    bytes: &[u8],
    tokens: &[Token],
    reached: Reached<'_>,
    fault: &ReadFault,
    wrong: Option<usize>,
) -> Result<Option<Told>, Mem>
    requires wrong { (line : ℕ) → fault.now ≡ Syntax line → IsWrongAt (words_of bytes.now tokens.now) wrong }
    requires refused { IsRead bytes.now (Err fault.now) }
    requires reached { IsReached bytes.now tokens.now fault.now reached }
    ensures place { IfOk result (λ o. IfSome o (λ t. IsPlaceOf bytes.now fault.now t)) }
    ensures inside { IfOk result (λ o. IfSome o (λ t. t.word.from ≤ length bytes.now)) }
    ensures uses { IfOk result (λ o. IfSome o (λ t. All (IsInBytes (length bytes.now)) t.uses)) }
    ensures none { IfOk result (λ o. o ≡ None → (t : ToldOf) → IsPlaceOf bytes.now fault.now t → ⊥) }
    ensures told { HasPlace fault.now → IfOk result (λ o. o ≡ None → ⊥) }
{
    path_places();
    read_places();
    if let ReadFault::Lock(lock) = fault {
        return lock_told(alloc, bytes, tokens, reached, lock);
    }
    if is_read_cause(fault) {
        read_told(alloc, bytes, tokens, reached, fault)
    } else {
        told_by_words(alloc, bytes, tokens, fault, wrong)
    }
}
