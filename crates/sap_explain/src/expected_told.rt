//! What is told of a word with which no file goes on.
ghost use Rattle.std.specs.Prelude.{◌≡◌, ◌++◌, ℕ, true, List, Some, length, IfOk, OnOk};
ghost use Rattle.std.specs.List.{All};
ghost use Rattle.sap_text.specs.Spans.{IsWithin};
ghost use Rattle.sap_grammar.specs.Words.{words_of};
ghost use Rattle.sap_read.specs.FileTokens.{HasTokens};
ghost use Rattle.sap_read.specs.declared.fault.ReadFault.{ReadFault as Fault};
ghost use Rattle.sap_expect.specs.Expected.{expected_of};
ghost use Rattle.sap_expect.specs.WrongWord.{IsFound, IsWrongWord};
ghost use Rattle.sap_stretches.specs.Stretches.{IsInBytes};
ghost use Rattle.sap_explain.specs.BytesIn.{bytes_in};
ghost use Rattle.sap_explain.specs.ExpectedTold.{IsExpectedText, IsExpectedTold, IsOpenText, is_of_words, position_text};

use sap_expect::{Expected, Wrong, push_expected, wrong_word};
use sap_read::ReadFault;
use sap_stretches::{Position, Stretch, position_of, stretch_at};
use sap_terms::Mem;
use sap_text::{Text, Token};
use std::alloc::Global;

// Whether the cause is a word with which no file goes on.
fn is_of_words(fault: &ReadFault) -> bool
    ensures { result ≡ is_of_words fault.now }
{
    match fault {
        ReadFault::Header | ReadFault::Syntax { .. } => true,
        _ => false,
    }
}

// Puts last where something stands.
fn push_position(text: &mut Text, position: Position) -> Result<(), Mem>
    ensures { OnOk result (text.new ≡ text.old ++ position_text position) }
{
    text.push_bytes(b" at line ")?;
    text.push_number(position.line)?;
    text.push_bytes(b", column ")?;
    text.push_number(position.column)?;
    text.push_bytes(b"\n")
}

// The bytes of a stretch.
fn bytes_at(bytes: &[u8], stretch: Stretch) -> &[u8]
    requires { IsInBytes (length bytes.now) stretch }
    ensures { result.now ≡ bytes_in bytes.now stretch }
{
    &bytes[stretch.from as usize..stretch.to as usize]
}

// Puts last that the token of this number is open.
fn push_open(text: &mut Text, bytes: &[u8], tokens: &[Token], k: usize) -> Result<(), Mem>
    requires { All (IsWithin (length bytes.now)) tokens.now }
    ensures { OnOk result ((t : List ℕ) × (text.new ≡ text.old ++ t) × IsOpenText bytes.now tokens.now (Some k) t) }
{
    let stretch = stretch_at(tokens, k);
    let position = position_of(bytes, stretch.from);
    text.push_bytes(b"Open is ")?;
    text.push_bytes(bytes_at(bytes, stretch))?;
    push_position(text, position)
}

// Puts last that the token of this number is open, if there is one.
fn push_innermost(
    text: &mut Text,
    bytes: &[u8],
    tokens: &[Token],
    innermost: Option<usize>,
) -> Result<(), Mem>
    requires { All (IsWithin (length bytes.now)) tokens.now }
    ensures { OnOk result ((t : List ℕ) × (text.new ≡ text.old ++ t) × IsOpenText bytes.now tokens.now innermost t) }
{
    match innermost {
        Some(number) => push_open(text, bytes, tokens, number),
        None => Ok(()),
    }
}

// Puts last what is expected at the wrong word, and what is open there.
fn push_expected_text(
    text: &mut Text,
    bytes: &[u8],
    tokens: &[Token],
    wrong: &Wrong,
) -> Result<(), Mem>
    requires within { All (IsWithin (length bytes.now)) tokens.now }
    requires wrong { IsWrongWord (words_of bytes.now tokens.now) wrong.now }
    ensures { OnOk result ((t : List ℕ) × (text.new ≡ text.old ++ t)
        × IsExpectedText bytes.now tokens.now wrong.now.number (expected_of wrong.now.expected) t) }
{
    push_expected(text, &wrong.expected)?;
    text.push_bytes(b"\n")?;
    match &wrong.expected {
        Expected::FewerLevels(_) => Ok(()),
        Expected::OneOf(_) => push_innermost(text, bytes, tokens, wrong.open),
    }
}

// What is told of these tokens at their first wrong word, if there is one.
fn push_in_tokens(
    text: &mut Text,
    bytes: &[u8],
    tokens: &[Token],
    wrong: &Option<Wrong>,
) -> Result<(), Mem>
    requires tokens { HasTokens bytes.now tokens.now }
    requires wrong { IsFound (words_of bytes.now tokens.now) wrong.now }
    ensures { OnOk result ((t : List ℕ) × (text.new ≡ text.old ++ t) × ((e : Fault) → is_of_words e ≡ true → IsExpectedTold bytes.now e t)) }
{
    match wrong {
        Some(wrong) => push_expected_text(text, bytes, tokens, wrong),
        None => Ok(()),
    }
}

/// The first word with which no file goes on, where that is the cause; of other causes nothing is looked for. The tokens are those of the
/// bytes. Want of memory is the only error.
pub(crate) fn wrong_of(
    alloc: Global,
    bytes: &[u8],
    tokens: &[Token],
    fault: &ReadFault,
) -> Result<Option<Wrong>, Mem>
    requires { is_of_words fault.now ≡ true → HasTokens bytes.now tokens.now }
    ensures { IfOk result (λ o. is_of_words fault.now ≡ true → IsFound (words_of bytes.now tokens.now) o) }
{
    if is_of_words(fault) {
        wrong_word(alloc, bytes, tokens)
    } else {
        Ok(None)
    }
}

/// Puts last what is expected where the bytes are refused for a word with which no file goes on, or for a missing header: what may stand
/// there, and which bracket or quotation mark is open, or the limit of levels that keeps the word; of other causes nothing. Want of memory
/// is the only error. The tokens are those of the bytes, and the word is what `wrong_of` has.
pub(crate) fn push_expected_told(
    text: &mut Text,
    bytes: &[u8],
    tokens: &[Token],
    fault: &ReadFault,
    wrong: &Option<Wrong>,
) -> Result<(), Mem>
    requires tokens { is_of_words fault.now ≡ true → HasTokens bytes.now tokens.now }
    requires wrong { is_of_words fault.now ≡ true → IsFound (words_of bytes.now tokens.now) wrong.now }
    ensures { OnOk result ((t : List ℕ) × (text.new ≡ text.old ++ t) × IsExpectedTold bytes.now fault.now t) }
{
    if is_of_words(fault) {
        push_in_tokens(text, bytes, tokens, wrong)
    } else {
        Ok(())
    }
}
