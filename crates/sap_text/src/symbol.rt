//! Symbols of one, two and three bytes.
ghost use Rattle.std.specs.Prelude.{◌≡◌, ◌∷◌, []};
ghost use Rattle.sap_text.specs.Tokens.{is_symbol};
ghost use Rattle.sap_text.specs.code.Front.{symbol_len};

use crate::bytes::first;

fn is_one_symbol(a: u8) -> bool
    ensures { result ≡ is_symbol (a ∷ []) }
{
    match a {
        b'(' | b')' | b'[' | b']' | b'<' | b'>' | b',' | b';' | b':' | b'.' | b'|' | b'&' => true,
        b'=' | b'@' | b'#' | b'~' | b'$' | b'!' | b'/' | b'"' | b'-' => true,
        _ => false,
    }
}

fn is_three_symbol(a: u8, b: u8, c: u8) -> bool
    ensures { result ≡ is_symbol (a ∷ b ∷ c ∷ []) }
{
    match (a, b, c) {
        (b'=', b'=', b'>') | (b'<', b'=', b'>') => true,
        (b'-', b'-', b'[') | (b']', b'-', b'>') | (b'-', b'-', b'>') => true,
        _ => false,
    }
}

fn is_symbol_text(s: &[u8]) -> bool
    ensures { result ≡ is_symbol s.now }
{
    match s {
        [a] => is_one_symbol(*a),
        [a, b] => *a == b'|' && *b == b'|',
        [a, b, c] => is_three_symbol(*a, *b, *c),
        _ => false,
    }
}

/// How many bytes the longest symbol has that stands first, or 0.
pub fn symbol_length(bytes: &[u8]) -> usize
    ensures { result ≡ symbol_len bytes.now }
{
    let three = first(3, bytes);
    let two = first(2, bytes);
    let one = first(1, bytes);
    if is_symbol_text(three) {
        three.len()
    } else if is_symbol_text(two) {
        two.len()
    } else if is_symbol_text(one) {
        one.len()
    } else {
        0
    }
}
