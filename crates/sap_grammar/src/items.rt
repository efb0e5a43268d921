//! Cuts what stands behind a header into items.
ghost use Rattle.std.specs.Prelude.{◌≡◌, ◌≤◌, ◌<◌, ◌↔◌, ℕ, List, [], ◌∷◌, length, IsTrue};
ghost use Rattle.std.specs.List.{list_any};
ghost use Rattle.std.specs.Option.{option_copied};
ghost use Rattle.std.specs.Str.{bytes_eq};
ghost use Rattle.sap_grammar.specs.Words.{words_of};
ghost use Rattle.sap_grammar.specs.Cut.{placed, first_line, last_line, begins_item, cut_words};
ghost use Rattle.sap_grammar.specs.Items.{IsEnd};
ghost use Rattle.sap_grammar.specs.ItemReading.{count_on, cut, header_of};
ghost use Rattle.sap_grammar.specs.code.DeclarationView.{placed_token};

use crate::look::{beyond, is, name_at, starts, text_at};
use sap_text::{Kind, Token};

/// The name in the header, where the tokens begin with one.
pub fn header_name<'a>(bytes: &'a [u8], tokens: &[Token]) -> Option<&'a [u8]>
    ensures { option_copied result ≡ header_of (words_of bytes.now tokens.now) }
{
    if starts(bytes, tokens, "theory") && starts(bytes, beyond(2, tokens), "begin") {
        name_at(bytes, beyond(1, tokens))
    } else {
        None
    }
}

/// The line of the last token.
#[tactic(auto, using(crate::proofs::Headers::last_lines))]
pub fn last_line(tokens: &[Token]) -> u64
    ensures { (bytes : List ℕ) → result ≡ last_line (placed bytes tokens.now) }
{
    match tokens.last() {
        Some(token) => token.line,
        None => 1,
    }
}

// Whether it is one of the words that an item begins with. Most texts differ from each of them in the first byte.
fn is_cut_word(text: &[u8]) -> bool
    ensures { result ≡ list_any (bytes_eq text.now) cut_words }
{
    match text {
        [b'b', ..] => is(text, "builtins"),
        [b'f', ..] => is(text, "functions"),
        [b'l', ..] => is(text, "let") || is(text, "lemma"),
        [b'p', ..] => is(text, "process"),
        [b'r', ..] => is(text, "restriction") || is(text, "rule"),
        [b'e', ..] => is(text, "end"),
        _ => false,
    }
}

// Whether an item begins with this token.
fn begins_item(bytes: &[u8], token: Token) -> bool
    ensures { result ≡ begins_item (placed_token bytes.now token) }
{
    match token.kind {
        Kind::Ident | Kind::Symbol => is_cut_word(text_at(bytes, token)),
        Kind::Number | Kind::Quoted => false,
    }
}

// How many of these tokens belong to the item before them.
fn count_on(bytes: &[u8], tokens: &[Token]) -> usize
    ensures counted { result ≡ count_on (placed bytes.now tokens.now) }
    ensures within { result ≤ length tokens.now }
{
    for k in 0..tokens.len() {
        if begins_item(bytes, tokens[k]) {
            return k;
        }
    }
    tokens.len()
}

/// The first item, and the tokens behind it.
pub fn split_item<'a>(bytes: &[u8], tokens: &'a [Token]) -> (&'a [Token], &'a [Token])
    requires { 0 < length tokens.now }
    ensures item { cut (placed bytes.now tokens.now) ≡ placed bytes.now result.0.now ∷ cut
        (placed bytes.now result.1.now) }
    ensures shorter { length result.1.now < length tokens.now }
{
    let count = count_on(bytes, beyond(1, tokens)) + 1;
    (&tokens[..count], beyond(count, tokens))
}

/// The line of the first token.
pub fn line_of(item: &[Token]) -> u64
    ensures { (z : List ℕ) → result ≡ first_line (placed z item.now) }
{
    match item.split_first() {
        Some((token, _)) => token.line,
        None => 1,
    }
}

fn is_end(bytes: &[u8], item: &[Token]) -> bool
    ensures { IsTrue result ↔ IsEnd (placed bytes.now item.now) }
{
    item.len() == 1 && starts(bytes, item, "end")
}

/// Whether the item is `end` alone and no token is behind it.
pub fn is_last(bytes: &[u8], item: &[Token], behind: &[Token]) -> bool
    ensures { IsTrue result ↔ (IsEnd (placed bytes.now item.now) × (behind.now ≡ [])) }
{
    behind.is_empty() && is_end(bytes, item)
}
