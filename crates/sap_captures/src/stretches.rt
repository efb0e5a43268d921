//! The stretches of the words whose flags are set.
ghost use Rattle.std.specs.Prelude.{◌≡◌, ◌<◌, ◌∷◌, ◌++◌, [], ℕ, Some, IfOk, OnOk, length, slice_get};
ghost use Rattle.std.specs.List.{All};
ghost use Rattle.sap_text.specs.Spans.{IsWithin};
ghost use Rattle.sap_stretches.specs.Stretches.{IsInBytes};
ghost use Rattle.sap_captures.specs.code.Flagged.{flagged};

use sap_stretches::{Stretch, stretch_at};
use sap_terms::{Items, Mem};
use sap_text::Token;
use std::alloc::Global;

// Puts the stretch of the word of this number last, if its flag is set.
fn push_flagged(
    tokens: &[Token],
    k: usize,
    flag: bool,
    told: &mut Items<Stretch>,
) -> Result<(), Mem>
    ensures are { OnOk result (told.new ≡ told.old ++ flagged tokens.now k (flag ∷ [])) }
    ensures inside { (size : ℕ) → All (IsWithin size) tokens.now → All (IsInBytes size) told.old
        → OnOk result (All (IsInBytes size) told.new) }
{
    if flag {
        told.push(stretch_at(tokens, k))
    } else {
        Ok(())
    }
}

// The flag of this number.
fn flag_at(flags: &[bool], k: usize) -> bool
    requires { k < length flags.now }
    ensures { slice_get flags.now k ≡ Some result }
{
    flags[k]
}

/// The stretches of the words whose flags are set, from the first on.
pub(crate) fn stretches(
    alloc: Global,
    tokens: &[Token],
    flags: &[bool],
) -> Result<Items<Stretch>, Mem>
    ensures are { IfOk result (λ ts. ts ≡ flagged tokens.now 0 flags.now) }
    ensures inside { (size : ℕ) → All (IsWithin size) tokens.now
        → IfOk result (λ ts. All (IsInBytes size) ts) }
{
    let mut told = Items::new(alloc);
    for k in 0..flags.len() {
        let flag = flag_at(flags, k);
        push_flagged(tokens, k, flag, &mut told)?;
    }
    Ok(told)
}
