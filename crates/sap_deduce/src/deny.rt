//! Why a symbol on entries is refused.
ghost use Rattle.std.specs.Prelude.{◌≡◌};
ghost use Rattle.sap_deduce.specs.declared.deny.Deny.TheVariants.{Mem as OutOfMemory};

use sap_terms::{Mem, Name};

/// Why a symbol on entries is refused. The first cause in this order is answered.
#[derive(Drop)]
pub enum Deny {
    /// Want of memory.
    Mem,
    /// The symbol isn't held, or it is private.
    NotPublic { f: Name },
    /// So many entries are not the symbol's arity.
    Arity { f: Name },
    /// The first number that isn't an entry.
    NoEntry { k: u64 },
    /// What the symbol gives is too large: its normal form passes the limit on nodes.
    TermLarge,
}

impl From<Mem> for Deny {
    ghost from_gives = { λ _ e. e ≡ OutOfMemory };

    fn from(_e: Mem) -> Deny {
        Deny::Mem
    }
}
