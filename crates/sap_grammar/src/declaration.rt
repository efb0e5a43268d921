//! Reads what items declare.
ghost use Rattle.std.specs.Prelude.{◌≡◌, ◌+◌, length, map, IfOk};
ghost use Rattle.std.specs.Option.{option_map};
ghost use Rattle.sap_terms.specs.declared.signature.Symbol.{Symbol};
ghost use Rattle.sap_grammar.specs.Words.{words_of};
ghost use Rattle.sap_grammar.specs.Reading.{Gives};
ghost use Rattle.sap_grammar.specs.ItemReading.{arity_of_digits, arity_at, is_private, with_privacy, is_joined, builtin_at, symbol_at, declaration_at, in_front, given_if, whole_list, behind_colon, declared_in};
ghost use Rattle.sap_grammar.specs.code.DeclarationView.{IsNext, declaration, declarations};

use crate::look::{beyond, is_lower, name_at, names, number_at, starts};
use sap_terms::{Builtin, MOST_ARITY, Mem, Name, Symbol};
use sap_text::Token;
use std::alloc::Global;

/// What adds to a signature. Contracts see it as a declaration, by `declaration` of the specs' `DeclarationView`.
#[derive(Drop)]
pub(crate) enum Declaration {
    Builtin(Builtin),
    Symbol(Symbol),
}

// The value of digits; None where it is above the greatest arity.
fn arity_of(digits: &[u8]) -> Option<u64>
    ensures { result ≡ arity_of_digits digits.now }
{
    let mut arity: u64 = 0;
    for digit in digits {
        arity = arity * 10 + (*digit).saturating_sub(b'0') as u64;
        if arity > MOST_ARITY {
            return None;
        }
    }
    Some(arity)
}

fn arity_at(bytes: &[u8], tokens: &[Token]) -> Option<u64>
    ensures { result ≡ arity_at (words_of bytes.now tokens.now) }
{
    match number_at(bytes, tokens) {
        Some(digits) => arity_of(digits),
        None => None,
    }
}

#[tactic(auto, using(crate::proofs::ReadingLaws::Tokens::word_steps))]
fn is_private(bytes: &[u8], tokens: &[Token]) -> bool
    ensures { result ≡ is_private (words_of bytes.now tokens.now) }
{
    starts(bytes, tokens, "[")
        && names(bytes, beyond(1, tokens), "private")
        && starts(bytes, beyond(2, tokens), "]")
}

#[tactic(auto, using(crate::proofs::ReadingLaws::Tokens::word_steps))]
fn is_joined(bytes: &[u8], tokens: &[Token], word: &str) -> bool
    ensures { result ≡ is_joined word.now (words_of bytes.now tokens.now) }
{
    starts(bytes, tokens, "-") && names(bytes, beyond(1, tokens), word)
}

#[tactic(auto, using(crate::proofs::ReadingLaws::Tokens::word_steps))]
fn read_builtin<'a>(bytes: &[u8], tokens: &'a [Token]) -> Option<(Builtin, &'a [Token])>
    ensures { option_map (λ p. (p.0, words_of bytes.now p.1.now)) result
        ≡ builtin_at (words_of bytes.now tokens.now) }
{
    if names(bytes, tokens, "hashing") {
        Some((Builtin::Hashing, beyond(1, tokens)))
    } else if names(bytes, tokens, "signing") {
        Some((Builtin::Signing, beyond(1, tokens)))
    } else if is_joined(bytes, beyond(1, tokens), "encryption") {
        if names(bytes, tokens, "symmetric") {
            Some((Builtin::Symmetric, beyond(3, tokens)))
        } else if names(bytes, tokens, "asymmetric") {
            Some((Builtin::Asymmetric, beyond(3, tokens)))
        } else {
            None
        }
    } else if is_joined(bytes, beyond(1, tokens), "signing") {
        if names(bytes, tokens, "revealing") {
            Some((Builtin::RevealingSigning, beyond(3, tokens)))
        } else {
            None
        }
    } else {
        None
    }
}

#[tactic(auto, using(crate::proofs::ReadingLaws::Tokens::word_steps))]
fn read_privacy<'a>(
    alloc: Global,
    bytes: &[u8],
    name: &[u8],
    arity: u64,
    tokens: &'a [Token],
) -> Result<Option<(Symbol, &'a [Token])>, Mem>
    ensures { Gives bytes.now (λ s. s) result (with_privacy name.now arity
        (words_of bytes.now tokens.now)) }
{
    let name = Name::from_bytes(alloc, name)?;
    if is_private(bytes, tokens) {
        let symbol = Symbol {
            name,
            arity,
            private: true,
        };
        Ok(Some((symbol, beyond(3, tokens))))
    } else {
        let symbol = Symbol {
            name,
            arity,
            private: false,
        };
        Ok(Some((symbol, tokens)))
    }
}

fn read_symbol<'a>(
    alloc: Global,
    bytes: &[u8],
    tokens: &'a [Token],
) -> Result<Option<(Symbol, &'a [Token])>, Mem>
    ensures { Gives bytes.now (λ s. s) result (symbol_at (words_of bytes.now tokens.now)) }
{
    let Some(name) = name_at(bytes, tokens) else {
        return Ok(None);
    };
    let Some(arity) = arity_at(bytes, beyond(2, tokens)) else {
        return Ok(None);
    };
    if is_lower(name) && starts(bytes, beyond(1, tokens), "/") {
        read_privacy(alloc, bytes, name, arity, beyond(3, tokens))
    } else {
        Ok(None)
    }
}

fn read_one<'a>(
    alloc: Global,
    bytes: &[u8],
    of_builtins: bool,
    tokens: &'a [Token],
) -> Result<Option<(Declaration, &'a [Token])>, Mem>
    ensures { Gives bytes.now declaration result (declaration_at of_builtins
        (words_of bytes.now tokens.now)) }
{
    if of_builtins {
        match read_builtin(bytes, tokens) {
            None => Ok(None),
            Some((builtin, rest)) => Ok(Some((Declaration::Builtin(builtin), rest))),
        }
    } else {
        match read_symbol(alloc, bytes, tokens)? {
            None => Ok(None),
            Some((symbol, rest)) => Ok(Some((Declaration::Symbol(symbol), rest))),
        }
    }
}

// Puts the declaration that stands first last in the list; the tokens behind it.
fn read_next<'a>(
    alloc: Global,
    bytes: &[u8],
    of_builtins: bool,
    list: &mut Vec<Declaration>,
    tokens: &'a [Token],
) -> Result<Option<&'a [Token]>, Mem>
    ensures { IsNext bytes.now result (declaration_at of_builtins (words_of bytes.now tokens.now))
        list.old.items list.new.items }
{
    match read_one(alloc, bytes, of_builtins, tokens)? {
        None => Ok(None),
        Some((declaration, next)) => {
            list.push(declaration)?;
            Ok(Some(next))
        }
    }
}

// Puts declarations last, one or more, with commas between them, and nothing else; false where the tokens are none.
fn read_onto(
    alloc: Global,
    bytes: &[u8],
    of_builtins: bool,
    list: &mut Vec<Declaration>,
    tokens: &[Token],
) -> Result<bool, Mem>
    ensures { IfOk result (λ b. in_front (map declaration list.old.items)
        (whole_list (declaration_at of_builtins) (length tokens.now + 1)
        (words_of bytes.now tokens.now)) ≡ given_if b (map declaration list.new.items)) }
{
    let mut rest = tokens;
    while !rest.is_empty() {
        match read_next(alloc, bytes, of_builtins, list, rest)? {
            None => return Ok(false),
            Some(next) => {
                if next.is_empty() {
                    return Ok(true);
                }
                if !starts(bytes, next, ",") {
                    return Ok(false);
                }
                rest = beyond(1, next);
            }
        }
    }
    Ok(false)
}

// Declarations, one or more, with commas between them, and nothing else.
#[tactic(auto, using(crate::proofs::Declarations::front_nothing))]
fn read_list(
    alloc: Global,
    bytes: &[u8],
    of_builtins: bool,
    tokens: &[Token],
) -> Result<Option<Vec<Declaration>>, Mem>
    ensures { IfOk result (λ o. option_map declarations o ≡ whole_list (declaration_at of_builtins)
        (length tokens.now + 1) (words_of bytes.now tokens.now)) }
{
    let mut list = Vec::new(alloc);
    if read_onto(alloc, bytes, of_builtins, &mut list, tokens)? {
        Ok(Some(list))
    } else {
        Ok(None)
    }
}

#[tactic(auto, using(crate::proofs::ReadingLaws::Tokens::word_steps))]
fn read_behind_colon(
    alloc: Global,
    bytes: &[u8],
    of_builtins: bool,
    tokens: &[Token],
) -> Result<Option<Vec<Declaration>>, Mem>
    ensures { IfOk result (λ o. option_map declarations o
        ≡ behind_colon of_builtins (words_of bytes.now tokens.now)) }
{
    if starts(bytes, tokens, ":") {
        read_list(alloc, bytes, of_builtins, beyond(1, tokens))
    } else {
        Ok(None)
    }
}

/// What an item declares; None where it is no item of builtins or functions.
#[tactic(auto, using(crate::proofs::ReadingLaws::Tokens::word_steps))]
pub(crate) fn read_declared(
    alloc: Global,
    bytes: &[u8],
    item: &[Token],
) -> Result<Option<Vec<Declaration>>, Mem>
    ensures { IfOk result (λ o. option_map declarations o
        ≡ declared_in (words_of bytes.now item.now)) }
{
    if starts(bytes, item, "builtins") {
        read_behind_colon(alloc, bytes, true, beyond(1, item))
    } else if starts(bytes, item, "functions") {
        read_behind_colon(alloc, bytes, false, beyond(1, item))
    } else {
        Ok(None)
    }
}
