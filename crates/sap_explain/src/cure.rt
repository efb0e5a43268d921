//! What to write instead, where the bytes or the words round the place look like another tool's way.
ghost use Rattle.std.specs.Prelude.{◌≡◌, true, ℕ, List, MatchOption};
ghost use Rattle.sap_grammar.specs.Words.{words_of};
ghost use Rattle.sap_expect.specs.WrongWord.{IsFound};
ghost use Rattle.sap_read.specs.declared.fault.ReadFault.{ReadFault as Fault};
ghost use Rattle.sap_read.specs.FileTokens.{HasTokens};
ghost use Rattle.sap_explain.specs.Cures.{IsCure, bad_byte, bad_byte_of, is_syntax};

use sap_cures::{byte_cure, word_cure};
use sap_expect::Wrong;
use sap_read::ReadFault;
use sap_text::{Lex, Token};

fn bad_byte_of(fault: Lex) -> Option<u64>
    ensures { result ≡ bad_byte_of fault }
{
    match fault {
        Lex::BadByte { at } => Some(at),
        _ => None,
    }
}

// The byte that begins no token, where that is the cause.
fn bad_byte(fault: &ReadFault) -> Option<u64>
    ensures { result ≡ bad_byte fault.now }
{
    match fault {
        ReadFault::Lex(fault) => bad_byte_of(*fault),
        _ => None,
    }
}

// Whether the cause is a piece that is in no grammar.
fn is_syntax(fault: &ReadFault) -> bool
    ensures { result ≡ is_syntax fault.now }
{
    match fault {
        ReadFault::Syntax { .. } => true,
        _ => false,
    }
}

// What to write at the first word with which no file goes on.
fn piece_cure(bytes: &[u8], tokens: &[Token], wrong: &Option<Wrong>) -> Option<&'static str>
    requires tokens { HasTokens bytes.now tokens.now }
    requires wrong { IsFound (words_of bytes.now tokens.now) wrong.now }
    ensures { (e : Fault) → is_syntax e ≡ true
        → MatchOption result ((t : List ℕ) → IsCure bytes.now e t → ⊥) (λ t. IsCure bytes.now e t.now) }
{
    match wrong {
        Some(wrong) => word_cure(bytes, tokens, wrong.number),
        None => None,
    }
}

/// What to write where the cause stands, if a row of `sap_cures` fits there. The tokens are those of the bytes, and the word is the first
/// with which no file goes on.
pub(crate) fn cure_of(
    bytes: &[u8],
    tokens: &[Token],
    fault: &ReadFault,
    wrong: &Option<Wrong>,
) -> Option<&'static str>
    requires tokens { is_syntax fault.now ≡ true → HasTokens bytes.now tokens.now }
    requires wrong { is_syntax fault.now ≡ true → IsFound (words_of bytes.now tokens.now) wrong.now }
    ensures { MatchOption result ((t : List ℕ) → IsCure bytes.now fault.now t → ⊥)
        (λ t. IsCure bytes.now fault.now t.now) }
{
    match bad_byte(fault) {
        Some(at) => byte_cure(bytes, at as usize),
        None => if is_syntax(fault) {
            piece_cure(bytes, tokens, wrong)
        } else {
            None
        },
    }
}
