//! Builtins and symbols as text.
ghost use Rattle.std.specs.Prelude.{◌≡◌, ◌++◌, IfOk, OnOk, ◌&&◌, if◌then◌else◌, not, codes, []};
ghost use Rattle.sap_terms.specs.Signature.{has_builtin, builtin_symbols, pairs_alone};
ghost use Rattle.sap_theory.specs.Pieces.{lead};
ghost use Rattle.sap_theory.specs.SignatureText.{spelling, is_among, is_brought, symbol_text, builtins_text, functions_text};

use crate::pieces::push_lead;
use sap_terms::{Builtin, Mem, Name, Signature, Symbol};
use sap_text::Text;

// How a builtin is spelled.
fn spelling(b: Builtin) -> &'static [u8]
    ensures { result.now ≡ spelling b }
{
    match b {
        Builtin::Hashing => b"hashing",
        Builtin::Symmetric => b"symmetric-encryption",
        Builtin::Asymmetric => b"asymmetric-encryption",
        Builtin::Signing => b"signing",
        Builtin::RevealingSigning => b"revealing-signing",
    }
}

/// The line of the builtins.
pub(crate) fn push_builtins(text: &mut Text, sig: &Signature) -> Result<(), Mem>
    ensures { OnOk result (text.new ≡ text.old ++ builtins_text sig.now) }
{
    let mut is_first = true;
    for b in [
        Builtin::Hashing,
        Builtin::Symmetric,
        Builtin::Asymmetric,
        Builtin::Signing,
        Builtin::RevealingSigning,
    ] {
        is_first = push_builtin(text, sig, b, is_first)?;
    }
    push_end(text, is_first)?;
    Ok(())
}

// A builtin, if it was added; true where the next one is the first of its line.
fn push_builtin(text: &mut Text, sig: &Signature, b: Builtin, is_first: bool) -> Result<bool, Mem>
    ensures first { IfOk result (λ r. r ≡ (not (has_builtin sig.now b) && is_first)) }
    ensures text { OnOk result (text.new ≡ (if has_builtin sig.now b then (text.old ++ lead is_first (codes "\nbuiltins: ")) ++ spelling b else text.old)) }
{
    if !sig.has(b) {
        return Ok(is_first);
    }
    push_lead(text, is_first, b"\nbuiltins: ")?;
    text.push_bytes(spelling(b))?;
    Ok(false)
}

// The end of a line, if there is one.
fn push_end(text: &mut Text, is_empty: bool) -> Result<(), Mem>
    ensures { OnOk result (text.new ≡ text.old ++ (if is_empty then [] else codes "\n")) }
{
    if is_empty {
        return Ok(());
    }
    text.push_bytes(b"\n")
}

// Whether the name is one of pairs.
fn is_of_pairs(name: &Name) -> bool
    ensures { result ≡ is_among pairs_alone.symbols name.now }
{
    name.is(b"pair") || name.is(b"fst") || name.is(b"snd")
}

// Whether the builtin has a symbol of this name.
fn brings(b: Builtin, name: &Name) -> bool
    ensures { result ≡ is_among (builtin_symbols b) name.now }
{
    match b {
        Builtin::Hashing => name.is(b"h"),
        Builtin::Symmetric => name.is(b"senc") || name.is(b"sdec"),
        Builtin::Asymmetric => name.is(b"aenc") || name.is(b"adec") || name.is(b"pk"),
        Builtin::Signing => {
            name.is(b"sign") || name.is(b"verify") || name.is(b"pk") || name.is(b"true")
        }
        Builtin::RevealingSigning => {
            name.is(b"revealSign")
                || name.is(b"revealVerify")
                || name.is(b"getMessage")
                || name.is(b"pk")
                || name.is(b"true")
        }
    }
}

// Whether the builtin was added and has a symbol of this name.
fn comes_with(sig: &Signature, b: Builtin, name: &Name) -> bool
    ensures { result ≡ (has_builtin sig.now b && is_among (builtin_symbols b) name.now) }
{
    sig.has(b) && brings(b, name)
}

// Whether the name is one of pairs, or a builtin that was added brings it.
fn is_brought(sig: &Signature, name: &Name) -> bool
    ensures { result ≡ is_brought sig.now name.now }
{
    is_of_pairs(name)
        || comes_with(sig, Builtin::Hashing, name)
        || comes_with(sig, Builtin::Symmetric, name)
        || comes_with(sig, Builtin::Asymmetric, name)
        || comes_with(sig, Builtin::Signing, name)
        || comes_with(sig, Builtin::RevealingSigning, name)
}

/// The line of the symbols that have to be declared.
pub(crate) fn push_functions(text: &mut Text, sig: &Signature) -> Result<(), Mem>
    ensures { OnOk result (text.new ≡ text.old ++ functions_text sig.now) }
{
    let mut is_first = true;
    for s in sig.symbols() {
        is_first = push_function(text, sig, s, is_first)?;
    }
    push_end(text, is_first)?;
    Ok(())
}

// A held symbol, unless it is brought; true where the next one is the first of its line.
fn push_function(text: &mut Text, sig: &Signature, s: &Symbol, is_first: bool) -> Result<bool, Mem>
    ensures first { IfOk result (λ b. b ≡ (is_brought sig.now s.now.name && is_first)) }
    ensures text { OnOk result (text.new ≡ (if is_brought sig.now s.now.name then text.old else (text.old ++ lead is_first (codes "\nfunctions: ")) ++ symbol_text s.now)) }
{
    if is_brought(sig, &s.name) {
        return Ok(is_first);
    }
    push_lead(text, is_first, b"\nfunctions: ")?;
    push_symbol(text, s)?;
    Ok(false)
}

// A symbol with its arity, and a mark where it is private.
fn push_symbol(text: &mut Text, s: &Symbol) -> Result<(), Mem>
    ensures { OnOk result (text.new ≡ text.old ++ symbol_text s.now) }
{
    text.push_bytes(s.name.as_bytes())?;
    text.push_bytes(b"/")?;
    text.push_number(s.arity)?;
    if !s.private {
        return Ok(());
    }
    text.push_bytes(b" [private]")
}
