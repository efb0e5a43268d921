//! Where a declaration clashes with what is declared before it.
ghost use Rattle.std.specs.Prelude.{◌≡◌, ◌≤◌, ◌+◌, None, Some, codes, length, IfOk, IfSome, MatchOption, OnOk};
ghost use Rattle.sap_terms.specs.Signature.{pairs_alone};
ghost use Rattle.sap_grammar.specs.Signatures.{clash_from};
ghost use Rattle.sap_read.specs.FileTokens.{HasTokens};
ghost use Rattle.sap_read.specs.declared.fault.ReadFault.TheVariants.{FunctionClash};
ghost use Rattle.sap_where.specs.FileDeclarations.{IsClashAt, declared_at, declared_before, in_item, is_next};
ghost use Rattle.sap_where.specs.Where.{IsWhere};
ghost use Rattle.sap_where.specs.code.Declaring.{clash_of, with_given};
ghost use Rattle.sap_stretches.specs.declared.stretch.Stretch.{Stretch as StretchOf};

use crate::declarations::{add_builtin_at, add_symbol_at};
use crate::items::begins_item;
use crate::token_words::stands;
use sap_grammar::beyond;
use sap_stretches::{Stretch, stretch_at};
use sap_terms::{Mem, Name, Signature};
use sap_text::Token;
use std::alloc::Global;

// What is known before a word: whether it stands in an item of builtins, or of functions, and whether behind a colon or a comma.
#[derive(Clone, Copy)]
pub(crate) struct Before {
    pub(crate) builtins: bool,
    pub(crate) functions: bool,
    pub(crate) next: bool,
}

// What is known behind this word, by what is before it.
pub(crate) fn go_on(bytes: &[u8], tokens: &[Token], k: usize, before: Before) -> Before
    requires builtins { before.builtins ≡ in_item bytes.now tokens.now (codes "builtins") k }
    requires functions { before.functions ≡ in_item bytes.now tokens.now (codes "functions") k }
    ensures builtins { result.builtins ≡ in_item bytes.now tokens.now (codes "builtins") (k + 1) }
    ensures functions { result.functions ≡ in_item bytes.now tokens.now (codes "functions") (k + 1) }
    ensures next { result.next ≡ is_next bytes.now tokens.now (k + 1) }
{
    let next = stands(bytes, tokens, ":", k) || stands(bytes, tokens, ",", k);
    if begins_item(bytes, beyond(k, tokens)) {
        Before {
            builtins: stands(bytes, tokens, "builtins", k),
            functions: stands(bytes, tokens, "functions", k),
            next,
        }
    } else {
        Before {
            builtins: before.builtins,
            functions: before.functions,
            next,
        }
    }
}

// Adds what is declared with this word as its first, if anything is; the name at which it clashes, where it does.
fn add_at(
    alloc: Global,
    bytes: &[u8],
    tokens: &[Token],
    k: usize,
    before: Before,
    signature: &mut Signature,
) -> Result<Option<Name>, Mem>
    requires builtins { before.builtins ≡ in_item bytes.now tokens.now (codes "builtins") k }
    requires functions { before.functions ≡ in_item bytes.now tokens.now (codes "functions") k }
    requires next { before.next ≡ is_next bytes.now tokens.now k }
    ensures added { OnOk result (signature.new ≡ with_given signature.old
        (declared_at bytes.now tokens.now k)) }
    ensures clash { IfOk result (λ c. c ≡ clash_of signature.old
        (declared_at bytes.now tokens.now k)) }
{
    if !before.next {
        return Ok(None);
    }
    if before.builtins {
        return add_builtin_at(bytes, beyond(k, tokens), signature);
    }
    if before.functions {
        return add_symbol_at(alloc, bytes, beyond(k, tokens), signature);
    }
    Ok(None)
}

// A declaration that clashes: the number of its first token, and the name at which it does.
#[derive(Drop)]
struct Clash {
    at: usize,
    name: Name,
}

// The first declaration that clashes.
fn first_clash(alloc: Global, bytes: &[u8], tokens: &[Token]) -> Result<Option<Clash>, Mem>
    ensures { IfOk result (λ o. MatchOption o
        (clash_from pairs_alone (declared_before bytes.now tokens.now (length tokens.now)) ≡ None)
        (λ c. IsClashAt bytes.now tokens.now c.name c.at)) }
{
    let mut signature = Signature::new(alloc)?;
    let mut before = Before {
        builtins: false,
        functions: false,
        next: false,
    };
    let mut k = 0;
    while k < tokens.len() {
        if let Some(name) = add_at(alloc, bytes, tokens, k, before, &mut signature)? {
            return Ok(Some(Clash { at: k, name }));
        }
        before = go_on(bytes, tokens, k, before);
        k += 1;
    }
    Ok(None)
}

// The number of its first token, where it clashes at this name.
fn at_name(bytes: &[u8], tokens: &[Token], clash: &Clash, name: &[u8]) -> Option<usize>
    requires { IsClashAt bytes.now tokens.now clash.now.name clash.now.at }
    ensures { MatchOption result
        (clash_from pairs_alone (declared_before bytes.now tokens.now (length tokens.now))
        ≡ Some name.now → ⊥)
        (λ k. IsClashAt bytes.now tokens.now name.now k) }
{
    if clash.name.as_bytes() == name {
        Some(clash.at)
    } else {
        None
    }
}

// The same of the first declaration that clashes.
pub(crate) fn clash_at(
    alloc: Global,
    bytes: &[u8],
    tokens: &[Token],
    name: &[u8],
) -> Result<Option<usize>, Mem>
    ensures { IfOk result (λ o. MatchOption o
        (clash_from pairs_alone (declared_before bytes.now tokens.now (length tokens.now))
        ≡ Some name.now → ⊥)
        (λ k. IsClashAt bytes.now tokens.now name.now k)) }
{
    match first_clash(alloc, bytes, tokens)? {
        Some(clash) => Ok(at_name(bytes, tokens, &clash, name)),
        None => Ok(None),
    }
}

/// Where the declaration stands that clashes at this name: its first word, where it is the first that clashes. The time is linear in the
/// tokens, but for names, which are looked up. Want of memory is the only error.
pub(crate) fn clash_place(
    alloc: Global,
    bytes: &[u8],
    tokens: &[Token],
    name: &Name,
) -> Result<Option<Stretch>, Mem>
    requires { HasTokens bytes.now tokens.now }
    ensures place { IfOk result (λ o. IfSome o (λ s. IsWhere bytes.now (FunctionClash name.now) s)) }
    ensures inside { IfOk result (λ o. IfSome o (λ s. s.from ≤ length bytes.now)) }
    ensures clash { IfOk result (λ o. o ≡ None
        → clash_from pairs_alone (declared_before bytes.now tokens.now (length tokens.now))
        ≡ Some name.now → ⊥) }
    ensures none { IfOk result (λ o. o ≡ None → (s : StretchOf)
        → IsWhere bytes.now (FunctionClash name.now) s → ⊥) }
{
    match clash_at(alloc, bytes, tokens, name.as_bytes())? {
        Some(k) => Ok(Some(stretch_at(tokens, k))),
        None => Ok(None),
    }
}
