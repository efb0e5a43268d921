//! What the words of a file declare, one after another.
ghost use Rattle.std.specs.Prelude.{◌≡◌, IfOk, OnOk, Some, false, true};
ghost use Rattle.sap_grammar.specs.Words.{words_of};
ghost use Rattle.sap_grammar.specs.Declarations.{of_builtin, of_symbol};
ghost use Rattle.sap_grammar.specs.ItemReading.{arity_at, arity_of_digits, builtin_at, declaration_at, is_joined, is_private, symbol_at, with_privacy};
ghost use Rattle.sap_grammar.specs.Signatures.{clash_with, with_declaration};
ghost use Rattle.sap_where.specs.FileDeclarations.{alone};
ghost use Rattle.sap_where.specs.OtherPlaces.{declares};
ghost use Rattle.std.specs.Option.{option_map_or};
ghost use Rattle.std.specs.Str.{bytes_eq};
ghost use Rattle.sap_where.specs.code.Declaring.{clash_of, with_given};

use sap_grammar::{beyond, is_lower, name_at, names, number_at, starts};
use sap_terms::{Builtin, MOST_ARITY, Mem, Name, SigFault, Signature, Symbol};
use sap_text::Token;
use std::alloc::Global;

// The value of digits; None where it is above the greatest arity.
fn arity_of(digits: &[u8]) -> Option<u64>
    ensures { result ≡ arity_of_digits digits.now }
{
    let mut arity: u64 = 0;
    for digit in digits {
        arity = arity * 10 + (*digit).saturating_sub(b'0') as u64;
        if arity > MOST_ARITY {
            return None;
        }
    }
    Some(arity)
}

fn arity_at(bytes: &[u8], tokens: &[Token]) -> Option<u64>
    ensures { result ≡ arity_at (words_of bytes.now tokens.now) }
{
    match number_at(bytes, tokens) {
        Some(digits) => arity_of(digits),
        None => None,
    }
}

#[tactic(auto, using(crate::proofs::Words::dropped))]
fn is_private(bytes: &[u8], tokens: &[Token]) -> bool
    ensures { result ≡ is_private (words_of bytes.now tokens.now) }
{
    starts(bytes, tokens, "[")
        && names(bytes, beyond(1, tokens), "private")
        && starts(bytes, beyond(2, tokens), "]")
}

#[tactic(auto, using(crate::proofs::Words::dropped))]
fn is_joined(bytes: &[u8], tokens: &[Token], word: &str) -> bool
    ensures { result ≡ is_joined word.now (words_of bytes.now tokens.now) }
{
    starts(bytes, tokens, "-") && names(bytes, beyond(1, tokens), word)
}

// The builtin whose name begins here.
#[tactic(auto, using(crate::proofs::Words::dropped))]
fn builtin_at(bytes: &[u8], tokens: &[Token]) -> Option<Builtin>
    ensures { result ≡ alone (builtin_at (words_of bytes.now tokens.now)) }
{
    if names(bytes, tokens, "hashing") {
        Some(Builtin::Hashing)
    } else if names(bytes, tokens, "signing") {
        Some(Builtin::Signing)
    } else if is_joined(bytes, beyond(1, tokens), "encryption") {
        if names(bytes, tokens, "symmetric") {
            Some(Builtin::Symmetric)
        } else if names(bytes, tokens, "asymmetric") {
            Some(Builtin::Asymmetric)
        } else {
            None
        }
    } else if is_joined(bytes, beyond(1, tokens), "signing") && names(bytes, tokens, "revealing") {
        Some(Builtin::RevealingSigning)
    } else {
        None
    }
}

// Adds the symbols of a builtin; where they clash the signature is as it was, and the name is answered.
fn add_builtin(signature: &mut Signature, builtin: Builtin) -> Result<Option<Name>, Mem>
    ensures added { OnOk result (signature.new ≡ with_declaration signature.old
        (of_builtin builtin)) }
    ensures clash { IfOk result (λ c. c ≡ clash_with signature.old (of_builtin builtin)) }
{
    match signature.add_builtin(builtin) {
        Ok(()) => Ok(None),
        Err(SigFault::Clash { name }) => Ok(Some(name)),
        Err(SigFault::Mem) => Err(Mem),
    }
}

// Adds a symbol, in the same way.
fn add_symbol(signature: &mut Signature, symbol: Symbol) -> Result<Option<Name>, Mem>
    ensures added { OnOk result (signature.new ≡ with_declaration signature.old
        (of_symbol symbol)) }
    ensures clash { IfOk result (λ c. c ≡ clash_with signature.old (of_symbol symbol)) }
{
    match signature.declare(symbol.name, symbol.arity, symbol.private) {
        Ok(()) => Ok(None),
        Err(SigFault::Clash { name }) => Ok(Some(name)),
        Err(SigFault::Mem) => Err(Mem),
    }
}

// The symbol of this name and arity, private where the words here say so.
fn with_privacy(
    alloc: Global,
    bytes: &[u8],
    name: &[u8],
    arity: u64,
    tokens: &[Token],
) -> Result<Symbol, Mem>
    ensures { IfOk result (λ s. Some s ≡ alone (with_privacy name.now arity
        (words_of bytes.now tokens.now))) }
{
    let name = Name::from_bytes(alloc, name)?;
    let private = is_private(bytes, tokens);
    Ok(Symbol {
        name,
        arity,
        private,
    })
}

// The symbol that is declared here.
fn symbol_at(alloc: Global, bytes: &[u8], tokens: &[Token]) -> Result<Option<Symbol>, Mem>
    ensures { IfOk result (λ o. o ≡ alone (symbol_at (words_of bytes.now tokens.now))) }
{
    let Some(name) = name_at(bytes, tokens) else {
        return Ok(None);
    };
    let Some(arity) = arity_at(bytes, beyond(2, tokens)) else {
        return Ok(None);
    };
    if is_lower(name) && starts(bytes, beyond(1, tokens), "/") {
        Ok(Some(with_privacy(alloc, bytes, name, arity, beyond(3, tokens))?))
    } else {
        Ok(None)
    }
}

/// Adds the builtin whose name begins here, if one does; where it clashes, its name is answered, and the signature is as it was.
pub(crate) fn add_builtin_at(
    bytes: &[u8],
    tokens: &[Token],
    signature: &mut Signature,
) -> Result<Option<Name>, Mem>
    ensures added { OnOk result (signature.new ≡ with_given signature.old
        (alone (declaration_at true (words_of bytes.now tokens.now)))) }
    ensures clash { IfOk result (λ c. c ≡ clash_of signature.old
        (alone (declaration_at true (words_of bytes.now tokens.now)))) }
{
    match builtin_at(bytes, tokens) {
        Some(builtin) => add_builtin(signature, builtin),
        None => Ok(None),
    }
}

/// The same of a symbol.
pub(crate) fn add_symbol_at(
    alloc: Global,
    bytes: &[u8],
    tokens: &[Token],
    signature: &mut Signature,
) -> Result<Option<Name>, Mem>
    ensures added { OnOk result (signature.new ≡ with_given signature.old
        (alone (declaration_at false (words_of bytes.now tokens.now)))) }
    ensures clash { IfOk result (λ c. c ≡ clash_of signature.old
        (alone (declaration_at false (words_of bytes.now tokens.now)))) }
{
    match symbol_at(alloc, bytes, tokens)? {
        Some(symbol) => add_symbol(signature, symbol),
        None => Ok(None),
    }
}

fn is(symbol: &[u8], name: &[u8]) -> bool
    ensures { result ≡ bytes_eq symbol.now name.now }
{
    symbol == name
}

// Whether the builtin has a symbol of this name.
fn has_symbol(builtin: Builtin, name: &[u8]) -> bool
    ensures { result ≡ declares name.now (of_builtin builtin) }
{
    match builtin {
        Builtin::Hashing => is(b"h", name),
        Builtin::Symmetric => is(b"senc", name) || is(b"sdec", name),
        Builtin::Asymmetric => is(b"aenc", name) || is(b"adec", name) || is(b"pk", name),
        Builtin::Signing => {
            is(b"sign", name) || is(b"verify", name) || is(b"pk", name) || is(b"true", name)
        }
        Builtin::RevealingSigning => {
            is(b"revealSign", name)
                || is(b"revealVerify", name)
                || is(b"getMessage", name)
                || is(b"pk", name)
                || is(b"true", name)
        }
    }
}

/// Whether a builtin whose name begins here has a symbol of this name.
pub(crate) fn builtin_declares(bytes: &[u8], tokens: &[Token], name: &[u8]) -> bool
    ensures { result ≡ option_map_or (declares name.now)
        (alone (declaration_at true (words_of bytes.now tokens.now))) false }
{
    match builtin_at(bytes, tokens) {
        Some(builtin) => has_symbol(builtin, name),
        None => false,
    }
}

/// Whether a symbol that is declared here has this name.
pub(crate) fn symbol_declares(
    alloc: Global,
    bytes: &[u8],
    tokens: &[Token],
    name: &[u8],
) -> Result<bool, Mem>
    ensures { IfOk result (λ b. b ≡ option_map_or (declares name.now)
        (alone (declaration_at false (words_of bytes.now tokens.now))) false) }
{
    match symbol_at(alloc, bytes, tokens)? {
        Some(symbol) => Ok(is(symbol.name.as_bytes(), name)),
        None => Ok(false),
    }
}
