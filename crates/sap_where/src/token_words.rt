//! Which words are at some tokens.
ghost use Rattle.std.specs.Prelude.{◌≡◌};
ghost use Rattle.sap_where.specs.TokenWords.{is_named, stands};

use sap_grammar::{beyond, name_at, starts};
use sap_text::Token;

/// Whether this symbol or reserved word is the token of this number.
pub fn stands(bytes: &[u8], tokens: &[Token], mark: &str, k: usize) -> bool
    ensures { result ≡ stands bytes.now tokens.now mark.now k }
{
    starts(bytes, beyond(k, tokens), mark)
}

// Whether a name does.
pub(crate) fn is_named(bytes: &[u8], tokens: &[Token], k: usize) -> bool
    ensures { result ≡ is_named bytes.now tokens.now k }
{
    name_at(bytes, beyond(k, tokens)).is_some()
}
