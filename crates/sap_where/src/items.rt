//! With which words an item begins.
ghost use Rattle.std.specs.Prelude.{◌≡◌};
ghost use Rattle.sap_grammar.specs.Reading.{names};
ghost use Rattle.sap_grammar.specs.Words.{word_of, words_of};
ghost use Rattle.sap_grammar.specs.Cut.{is_item_word};
ghost use Rattle.sap_where.specs.Beginnings.{begins_definition, begins_item, begins_statement};

use sap_grammar::{beyond, is_mark, name_at, starts};
use sap_text::Token;

// Whether it is one of the words that an item begins with.
fn is_item_word(bytes: &[u8], token: Token) -> bool
    ensures { result ≡ is_item_word (word_of bytes.now token) }
{
    is_mark(bytes, token, "builtins")
        || is_mark(bytes, token, "functions")
        || is_mark(bytes, token, "let")
        || is_mark(bytes, token, "process")
        || is_mark(bytes, token, "restriction")
        || is_mark(bytes, token, "lemma")
        || is_mark(bytes, token, "rule")
        || is_mark(bytes, token, "end")
}

/// Whether an item begins with the first of these tokens.
pub fn begins_item(bytes: &[u8], tokens: &[Token]) -> bool
    ensures { result ≡ begins_item (words_of bytes.now tokens.now) }
{
    match tokens.split_first() {
        Some((token, _)) => is_item_word(bytes, *token),
        None => false,
    }
}

/// Whether the restriction or lemma of this name begins with them.
pub(crate) fn begins_statement(bytes: &[u8], tokens: &[Token], name: &[u8]) -> bool
    ensures { result ≡ begins_statement name.now (words_of bytes.now tokens.now) }
{
    (starts(bytes, tokens, "restriction") || starts(bytes, tokens, "lemma"))
        && has_name(bytes, beyond(1, tokens), name)
}

/// Whether the definition of this name begins with them.
pub(crate) fn begins_definition(bytes: &[u8], tokens: &[Token], name: &[u8]) -> bool
    ensures { result ≡ begins_definition name.now (words_of bytes.now tokens.now) }
{
    starts(bytes, tokens, "let") && has_name(bytes, beyond(1, tokens), name)
}

/// Whether this name stands first.
pub(crate) fn has_name(bytes: &[u8], tokens: &[Token], name: &[u8]) -> bool
    ensures { result ≡ names name.now (words_of bytes.now tokens.now) }
{
    match name_at(bytes, tokens) {
        Some(text) => text == name,
        None => false,
    }
}
