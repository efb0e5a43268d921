//! What is told of the other place of a cause, where it has two.
ghost use Rattle.std.specs.Prelude.{◌≡◌, ◌≤◌, ◌++◌, List, Err, None, IfOk, IfSome, ℕ, OnOk, codes, length};
ghost use Rattle.sap_read.specs.Files.{IsRead};
ghost use Rattle.sap_read_places.specs.Reached.{IsReached};
ghost use Rattle.sap_stretches.specs.declared.stretch.Stretch.{Stretch as StretchOf};
ghost use Rattle.sap_explain.specs.OtherTold.{HasOtherPlace, IsOtherPlaceOf, IsOtherTold};

use sap_read::ReadFault;
use sap_read_places::{Reached, other_told};
use sap_stretches::{Stretch, push_place};
use sap_terms::Mem;
use sap_text::{Text, Token};
use sap_where::other_stretch;
use std::alloc::Global;

/// Where in the bytes of a file the other place of the cause stands for which they are refused, where it has two: where what is read of it
/// has it (`other_told`), and else what the words of the file place where they do (`other_stretch`). `None`, where there is none. What was read of the file is lent, as to `place_of`. Want of
/// memory is the only error.
pub fn other_place_of(
    alloc: Global,
    bytes: &[u8],
    tokens: &[Token],
    reached: Reached<'_>,
    fault: &ReadFault,
) -> Result<Option<Stretch>, Mem>
    requires refused { IsRead bytes.now (Err fault.now) }
    requires reached { IsReached bytes.now tokens.now fault.now reached }
    ensures place { IfOk result (λ o. IfSome o (λ s. IsOtherPlaceOf bytes.now fault.now s)) }
    ensures inside { IfOk result (λ o. IfSome o (λ s. s.from ≤ length bytes.now)) }
    ensures none { IfOk result (λ o. o ≡ None → (s : StretchOf) → IsOtherPlaceOf bytes.now fault.now s → ⊥) }
    ensures told { HasOtherPlace fault.now → IfOk result (λ o. o ≡ None → ⊥) }
{
    match other_told(alloc, bytes, tokens, reached, fault)? {
        Some(told) => Ok(Some(told.word)),
        None => other_stretch(alloc, bytes, tokens, fault),
    }
}

// Puts last what is told of this place, which is the other one.
fn push_other(text: &mut Text, bytes: &[u8], fault: &ReadFault, stretch: Stretch) -> Result<(), Mem>
    requires place { IsOtherPlaceOf bytes.now fault.now stretch }
    requires inside { stretch.from ≤ length bytes.now }
    ensures { OnOk result ((t : List ℕ) × (text.new ≡ text.old ++ t) × IsOtherTold bytes.now fault.now t) }
{
    text.push_bytes(b"and ")?;
    push_place(text, bytes, stretch)
}

/// Puts last what is told of the other place of the cause, if it has two.
pub(crate) fn push_other_told(
    alloc: Global,
    text: &mut Text,
    bytes: &[u8],
    tokens: &[Token],
    reached: Reached<'_>,
    fault: &ReadFault,
) -> Result<(), Mem>
    requires refused { IsRead bytes.now (Err fault.now) }
    requires reached { IsReached bytes.now tokens.now fault.now reached }
    ensures { OnOk result ((t : List ℕ) × (text.new ≡ text.old ++ t) × IsOtherTold bytes.now fault.now t) }
{
    match other_place_of(alloc, bytes, tokens, reached, fault)? {
        Some(stretch) => push_other(text, bytes, fault, stretch),
        None => Ok(()),
    }
}
