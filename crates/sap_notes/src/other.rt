//! Symbols in place of those of a builtin.
ghost use Rattle.std.specs.Prelude.{◌≡◌};
ghost use Rattle.sap_notes.specs.OtherSymbols.{is_symbol, speaks_of};
ghost use Rattle.sap_notes.specs.code.Others.{is_another, is_another_of, some_added_speaks, some_speaks};

use sap_terms::{Builtin, Name, Signature};

// Whether it is this name, and so many terms.
fn is_symbol(name: &Name, symbol: &[u8], arity: u64, of: u64) -> bool
    ensures { result ≡ is_symbol name.now symbol.now arity of }
{
    name.is(symbol) && arity == of
}

// Whether an equation of the builtin speaks of the symbol of this name on so many terms.
fn speaks_of(builtin: Builtin, name: &Name, arity: u64) -> bool
    ensures { result ≡ speaks_of builtin name.now arity }
{
    match builtin {
        Builtin::Hashing => false,
        Builtin::Symmetric => is_symbol(name, b"senc", arity, 2)
            || is_symbol(name, b"sdec", arity, 2),
        Builtin::Asymmetric => is_symbol(name, b"aenc", arity, 2)
            || is_symbol(name, b"adec", arity, 2)
            || is_symbol(name, b"pk", arity, 1),
        Builtin::Signing => is_symbol(name, b"sign", arity, 2)
            || is_symbol(name, b"verify", arity, 3)
            || is_symbol(name, b"pk", arity, 1)
            || is_symbol(name, b"true", arity, 0),
        Builtin::RevealingSigning => is_symbol(name, b"revealSign", arity, 2)
            || is_symbol(name, b"revealVerify", arity, 3)
            || is_symbol(name, b"getMessage", arity, 1)
            || is_symbol(name, b"pk", arity, 1)
            || is_symbol(name, b"true", arity, 0),
    }
}

// Whether one of some builtin does.
fn some_speaks(name: &Name, arity: u64) -> bool
    ensures { result ≡ some_speaks name.now arity }
{
    speaks_of(Builtin::Symmetric, name, arity)
        || speaks_of(Builtin::Asymmetric, name, arity)
        || speaks_of(Builtin::Signing, name, arity)
        || speaks_of(Builtin::RevealingSigning, name, arity)
}

// Whether one of a builtin does that was added.
fn some_added_speaks(signature: &Signature, name: &Name, arity: u64) -> bool
    ensures { result ≡ some_added_speaks signature.now name.now arity }
{
    (signature.has(Builtin::Symmetric) && speaks_of(Builtin::Symmetric, name, arity))
        || (signature.has(Builtin::Asymmetric) && speaks_of(Builtin::Asymmetric, name, arity))
        || (signature.has(Builtin::Signing) && speaks_of(Builtin::Signing, name, arity))
        || (signature.has(Builtin::RevealingSigning)
            && speaks_of(Builtin::RevealingSigning, name, arity))
}

/// Whether equations of builtins speak of such a symbol as the signature holds under this name, and none of a builtin that was added.
pub(crate) fn is_another(signature: &Signature, name: &Name) -> bool
    ensures { result ≡ is_another signature.now name.now }
{
    match signature.arity(name) {
        Some(arity) => some_speaks(name, arity) && !some_added_speaks(signature, name, arity),
        None => false,
    }
}
