//! Why bytes have no tokens.
ghost use Rattle.std.specs.Prelude.{◌≡◌};

use std::alloc::AllocFailed;

/// Why bytes have no tokens, by the fault that stands first in them. `at` is an offset in bytes, from 0.
#[derive(Clone, Copy)]
pub enum Lex {
    /// Want of memory.
    Mem,
    /// No token, blank or comment begins here; or a quote that is closed on its line holds this byte, which may not stand
    /// in one, and none before it.
    BadByte { at: u64 },
    /// The `/*` here isn't closed.
    OpenComment { at: u64 },
    /// The `'` here isn't closed before its line or the bytes end, whatever bytes follow it.
    OpenQuote { at: u64 },
    /// The token that begins here is an identifier, a number or a quoted name that has more bytes than are allowed, quotes
    /// not counted.
    NameLong { at: u64 },
}

impl<T: Drop> From<AllocFailed<T>> for Lex {
    ghost use Rattle.sap_text.specs.declared.fault.Lex.TheVariants as fault;

    ghost from_gives = { λ _ e. e ≡ fault.Mem };

    fn from(_: AllocFailed<T>) -> Lex {
        Lex::Mem
    }
}
