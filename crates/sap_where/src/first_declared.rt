//! Where a name is declared first that is declared otherwise behind.
ghost use Rattle.std.specs.Prelude.{◌≡◌, ◌≤◌, ◌<◌, ◌+◌, ℕ, None, Some, false, codes, length, IfOk, IfSome, MatchOption};
ghost use Rattle.std.specs.Option.{option_map_or};
ghost use Rattle.sap_terms.specs.Signature.{find_symbol, pairs_alone};
ghost use Rattle.sap_grammar.specs.Signatures.{clash_from};
ghost use Rattle.sap_read.specs.FileTokens.{HasTokens};
ghost use Rattle.sap_read.specs.declared.fault.ReadFault.TheVariants.{FunctionClash};
ghost use Rattle.sap_stretches.specs.declared.stretch.Stretch.{Stretch as StretchOf};
ghost use Rattle.sap_where.specs.FileDeclarations.{declared_at, declared_before, in_item, is_next};
ghost use Rattle.sap_where.specs.OtherPlaces.{DeclaresAt, IsDeclaredFirstAt, IsOtherWhere, declares};
ghost use Rattle.sap_where.specs.Where.{IsFirst};

use crate::clash::{Before, clash_at, go_on};
use crate::declarations::{builtin_declares, symbol_declares};
use sap_grammar::beyond;
use sap_stretches::{Stretch, stretch_at};
use sap_terms::{Mem, Name};
use sap_text::Token;
use std::alloc::Global;

// Whether what is declared with this word as its first declares the name.
fn declares_at(
    alloc: Global,
    bytes: &[u8],
    tokens: &[Token],
    k: usize,
    before: Before,
    name: &[u8],
) -> Result<bool, Mem>
    requires builtins { before.builtins ≡ in_item bytes.now tokens.now (codes "builtins") k }
    requires functions { before.functions ≡ in_item bytes.now tokens.now (codes "functions") k }
    requires next { before.next ≡ is_next bytes.now tokens.now k }
    ensures { IfOk result (λ b. b
        ≡ option_map_or (declares name.now) (declared_at bytes.now tokens.now k) false) }
{
    if !before.next {
        return Ok(false);
    }
    if before.builtins {
        return Ok(builtin_declares(bytes, beyond(k, tokens), name));
    }
    if before.functions {
        return symbol_declares(alloc, bytes, beyond(k, tokens), name);
    }
    Ok(false)
}

// The first declaration of the name before this token.
fn first_before(
    alloc: Global,
    bytes: &[u8],
    tokens: &[Token],
    name: &[u8],
    end: usize,
) -> Result<Option<usize>, Mem>
    requires { end ≤ length tokens.now }
    ensures { IfOk result (λ o. MatchOption o
        ((i : ℕ) → i < end → DeclaresAt bytes.now tokens.now name.now i → ⊥)
        (λ j. (j < end) × IsFirst (DeclaresAt bytes.now tokens.now name.now) j)) }
{
    let mut before = Before {
        builtins: false,
        functions: false,
        next: false,
    };
    let mut k = 0;
    while k < end {
        if declares_at(alloc, bytes, tokens, k, before, name)? {
            return Ok(Some(k));
        }
        before = go_on(bytes, tokens, k, before);
        k += 1;
    }
    Ok(None)
}

// The first declaration of the name, before the first that clashes, where this does so at the name.
fn declared_first(
    alloc: Global,
    bytes: &[u8],
    tokens: &[Token],
    name: &[u8],
) -> Result<Option<usize>, Mem>
    ensures first { IfOk result (λ o. IfSome o (λ j. IsDeclaredFirstAt bytes.now tokens.now name.now j)) }
    ensures none { IfOk result (λ o. o ≡ None → (j : ℕ)
        → IsDeclaredFirstAt bytes.now tokens.now name.now j → ⊥) }
    ensures declared { IfOk result (λ o. find_symbol pairs_alone.symbols name.now ≡ None
        → clash_from pairs_alone (declared_before bytes.now tokens.now (length tokens.now)) ≡ Some name.now
        → o ≡ None → ⊥) }
{
    match clash_at(alloc, bytes, tokens, name)? {
        Some(k) => first_before(alloc, bytes, tokens, name, k),
        None => Ok(None),
    }
}

/// Where the name is declared first at which the first declaration clashes that does: the first word of what declares it. The time is
/// linear in the tokens, but for names, which are looked up. Want of memory is the only error.
pub(crate) fn first_declaration(
    alloc: Global,
    bytes: &[u8],
    tokens: &[Token],
    name: &Name,
) -> Result<Option<Stretch>, Mem>
    requires { HasTokens bytes.now tokens.now }
    ensures place { IfOk result (λ o. IfSome o (λ s. IsOtherWhere bytes.now (FunctionClash name.now) s)) }
    ensures inside { IfOk result (λ o. IfSome o (λ s. s.from ≤ length bytes.now)) }
    ensures none { IfOk result (λ o. o ≡ None → (s : StretchOf)
        → IsOtherWhere bytes.now (FunctionClash name.now) s → ⊥) }
    ensures declared { IfOk result (λ o. find_symbol pairs_alone.symbols name.now ≡ None
        → clash_from pairs_alone (declared_before bytes.now tokens.now (length tokens.now)) ≡ Some name.now
        → o ≡ None → ⊥) }
{
    match declared_first(alloc, bytes, tokens, name.as_bytes())? {
        Some(j) => Ok(Some(stretch_at(tokens, j))),
        None => Ok(None),
    }
}
