//! Strings of JSON, written.
ghost use Rattle.std.specs.Prelude.{◌≡◌, ◌<◌, ◌++◌, OnOk};
ghost use Rattle.std.specs.List.{flat_map};
ghost use Rattle.std.specs.Char.{digit_char};
ghost use Rattle.json.specs.Print.{escape_letter, escape_byte, quoted};
ghost use Rattle.serde_json.specs.Written.{comma_if};
ghost use Rattle.sap_terms.specs.View.{tree};
ghost use Rattle.sap_grammar.specs.TermText.{variable_text, tree_text};
ghost use Rattle.sap_run_lines.specs.LineWords.{fresh_name, public_name};
ghost use Rattle.sap_run_lines.specs.LineText.{word_text};

use sap_grammar::{push_variable, push_whole_term};
use sap_terms::{Mem, Name, Term, Var};
use sap_text::Text;
use std::alloc::Global;

// The letter that stands for the byte behind a backslash, or 0.
fn escape_letter(b: u8) -> u8
    ensures { result ≡ escape_letter b }
{
    if b == b'"' || b == b'\\' {
        b
    } else if b == 8 {
        b'b'
    } else if b == 12 {
        b'f'
    } else if b == 10 {
        b'n'
    } else if b == 13 {
        b'r'
    } else if b == 9 {
        b't'
    } else {
        0
    }
}

fn hex_digit(d: u8) -> u8
    requires { d < 16 }
    ensures { result ≡ digit_char d }
{
    if d < 10 { b'0' + d } else { b'a' - 10 + d }
}

#[tactic(auto, unfolding(json::specs::Print::escape_byte))]
fn push_escaped(text: &mut Text, b: u8) -> Result<(), Mem>
    ensures { OnOk result (text.new ≡ text.old ++ escape_byte b) }
{
    let letter = escape_letter(b);
    if letter > 0 {
        text.push_bytes(&[b'\\', letter])
    } else if b < 32 {
        text.push_bytes(&[
            b'\\',
            b'u',
            b'0',
            b'0',
            hex_digit(b / 16),
            hex_digit(b % 16),
        ])
    } else {
        text.push_bytes(&[b])
    }
}

fn push_all_escaped(text: &mut Text, bytes: &[u8]) -> Result<(), Mem>
    ensures { OnOk result (text.new ≡ text.old ++ flat_map escape_byte bytes.now) }
{
    for b in bytes {
        push_escaped(text, *b)?;
    }
    Ok(())
}

/// The string of these bytes, in quotes.
pub(crate) fn push_string(text: &mut Text, bytes: &[u8]) -> Result<(), Mem>
    ensures { OnOk result (text.new ≡ text.old ++ quoted bytes.now) }
{
    text.push_bytes(b"\"")?;
    push_all_escaped(text, bytes)?;
    text.push_bytes(b"\"")
}

/// A comma, if something stands before.
pub(crate) fn push_comma(text: &mut Text, later: bool) -> Result<(), Mem>
    ensures { OnOk result (text.new ≡ text.old ++ comma_if later) }
{
    if later { text.push_bytes(b",") } else { Ok(()) }
}

/// The string of a fresh name.
pub(crate) fn push_fresh(alloc: Global, text: &mut Text, number: u64) -> Result<(), Mem>
    ensures { OnOk result (text.new ≡ text.old ++ quoted (word_text (fresh_name number))) }
{
    let mut name = Text::new(alloc);
    name.push_bytes(b"~")?;
    name.push_number(number)?;
    push_string(text, name.as_bytes())
}

/// The string of a public name, in its own quotes.
pub(crate) fn push_public(alloc: Global, text: &mut Text, name: &Name) -> Result<(), Mem>
    ensures { OnOk result (text.new ≡ text.old ++ quoted (word_text (public_name name.now))) }
{
    let mut word = Text::new(alloc);
    word.push_bytes(b"'")?;
    word.push_bytes(name.as_bytes())?;
    word.push_bytes(b"'")?;
    push_string(text, word.as_bytes())
}

/// The string of a variable.
pub(crate) fn push_variable_string(alloc: Global, text: &mut Text, var: &Var) -> Result<(), Mem>
    ensures { OnOk result (text.new ≡ text.old ++ quoted (variable_text var.now)) }
{
    let mut word = Text::new(alloc);
    push_variable(&mut word, var)?;
    push_string(text, word.as_bytes())
}

/// The string of a term.
pub(crate) fn push_term_string(alloc: Global, text: &mut Text, term: &Term) -> Result<(), Mem>
    ensures { OnOk result (text.new ≡ text.old ++ quoted (tree_text (tree term.now))) }
{
    let mut word = Text::new(alloc);
    push_whole_term(&mut word, term)?;
    push_string(text, word.as_bytes())
}
