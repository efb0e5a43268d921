//! What stands first among some bytes.
ghost use Rattle.std.specs.Prelude.{◌≡◌, ◌<◌, ◌+◌, ◌^◌, ◌∷◌, length};
ghost use Rattle.sap_text.specs.code.Front.{quote_front, front_at, Within, Stands};

use crate::bytes::{Class, behind_first, find_close, is_blank_byte, run_len, starts_with_two};
use crate::symbol::symbol_length;
use crate::{Kind, Lex};

/// What stands first among some bytes.
#[derive(Clone, Copy)]
pub enum Front {
    /// A blank or a comment of so many bytes.
    Skip(usize),
    /// A token of so many bytes.
    Taken(Kind, usize),
    /// None of them.
    Fault(Lex),
}

fn behind_quote(at: u64, bytes: &[u8]) -> Front
    requires { at + length bytes.now < 2 ^ 63 }
    ensures { result ≡ quote_front at bytes.now }
{
    let inner = run_len(Class::Inner, bytes);
    if inner < bytes.len() && bytes[inner] == b'\'' {
        let content = run_len(Class::Content, bytes);
        if content == inner {
            Front::Taken(Kind::Quoted, inner + 2)
        } else {
            Front::Fault(Lex::BadByte {
                at: at + (content as u64 + 1),
            })
        }
    } else {
        Front::Fault(Lex::OpenQuote { at })
    }
}

#[tactic(auto, unfolding(crate::specs::code::Front::front_at))]
fn front_by_byte(at: u64, b: u8, rest: &[u8], bytes: &[u8]) -> Front
    requires fits { at + length bytes.now < 2 ^ 63 }
    requires whole { bytes.now ≡ b ∷ rest.now }
    ensures { result ≡ front_at at b rest.now }
{
    if is_blank_byte(b) {
        Front::Skip(1)
    } else if starts_with_two(b'/', b'/', bytes) {
        Front::Skip(run_len(Class::Line, bytes))
    } else if starts_with_two(b'/', b'*', bytes) {
        match find_close(behind_first(rest)) {
            None => Front::Fault(Lex::OpenComment { at }),
            Some(n) => Front::Skip(n + 4),
        }
    } else if b.is_ascii_alphabetic() {
        Front::Taken(Kind::Ident, run_len(Class::Word, bytes))
    } else if b.is_ascii_digit() {
        Front::Taken(Kind::Number, run_len(Class::Digit, bytes))
    } else if b == b'\'' {
        behind_quote(at, rest)
    } else {
        let n = symbol_length(bytes);
        if n == 0 {
            Front::Fault(Lex::BadByte { at })
        } else {
            Front::Taken(Kind::Symbol, n)
        }
    }
}

/// What stands first among these bytes, the first of which stands at this offset.
pub fn front_of(at: u64, bytes: &[u8]) -> Front
    requires some { 0 < length bytes.now }
    requires fits { at + length bytes.now < 2 ^ 63 }
    ensures stands { Stands at bytes.now result }
    ensures within { Within (length bytes.now) result }
{
    front_by_byte(at, bytes[0], &bytes[1..], bytes)
}
