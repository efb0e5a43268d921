//! What stands first among tokens.
ghost use Rattle.std.specs.Prelude.{◌≡◌, ◌-◌, drop, take, length};
ghost use Rattle.std.specs.Str.{bytes_eq};
ghost use Rattle.std.specs.List.{list_any};
ghost use Rattle.std.specs.Option.{option_copied};
ghost use Rattle.sap_text.specs.Spans.{text_of};
ghost use Rattle.sap_grammar.specs.Words.{is_grammar_word, is_mark, item_words, process_words, starts, word_of, words_of, is_lower, is_upper};
ghost use Rattle.sap_grammar.specs.Reading.{Gives, as_name, as_quoted, as_number, bare, name_at, quoted_at, number_at, names, is_zero, starts_zero};

use sap_terms::{Mem, Name};
use sap_text::{Kind, Token};
use std::alloc::Global;

// Whether the text is this word.
pub(crate) fn is(text: &[u8], word: &str) -> bool
    ensures { result ≡ bytes_eq text.now word.now }
{
    text == word.as_bytes()
}

const ITEM_WORDS: [&str; 10] = [
    "theory",
    "begin",
    "end",
    "builtins",
    "functions",
    "let",
    "process",
    "restriction",
    "lemma",
    "rule",
];

const PROCESS_WORDS: [&str; 16] = [
    "new", "out", "in", "if", "then", "else", "event", "insert", "delete", "lookup", "as", "lock",
    "unlock", "All", "Ex", "not",
];

// Whether the text is one of the words.
fn is_one(text: &[u8], words: &[&str]) -> bool
    ensures { result ≡ list_any (λ word. bytes_eq text.now word.now) words.now }
{
    for word in words {
        if is(text, word) {
            return true;
        }
    }
    false
}

fn is_item_word(text: &[u8]) -> bool
    ensures { result ≡ list_any (λ word. bytes_eq text.now word) item_words }
{
    let words: [&str; 10] = ITEM_WORDS;
    is_one(text, words.as_slice())
}

fn is_process_word(text: &[u8]) -> bool
    ensures { result ≡ list_any (λ word. bytes_eq text.now word) process_words }
{
    let words: [&str; 16] = PROCESS_WORDS;
    is_one(text, words.as_slice())
}

/// Whether it is a word of the grammar, which is no name.
pub fn is_grammar_word(text: &[u8]) -> bool
    ensures { result ≡ is_grammar_word text.now }
{
    is_item_word(text) || is_process_word(text)
}

fn part(bytes: &[u8], from: u64, to: u64) -> &[u8]
    ensures { result.now ≡ take (to - from) (drop from bytes.now) }
{
    let end = (to as usize).min(bytes.len());
    let start = (from as usize).min(end);
    &bytes[start..end]
}

// The bytes in the token's span.
pub(crate) fn text_at(bytes: &[u8], token: Token) -> &[u8]
    ensures { result.now ≡ text_of bytes.now token }
{
    part(bytes, token.from, token.to)
}

fn unquoted(text: &[u8]) -> &[u8]
    ensures { result.now ≡ take (length text.now - 2) (drop 1 text.now) }
{
    if text.len() < 2 {
        &text[text.len()..]
    } else {
        &text[1..text.len() - 1]
    }
}

/// Whether the token is this symbol or reserved word.
pub fn is_mark(bytes: &[u8], token: Token, mark: &str) -> bool
    ensures { result ≡ is_mark mark.now (word_of bytes.now token) }
{
    let text = text_at(bytes, token);
    match token.kind {
        Kind::Ident => is(text, mark) && is_grammar_word(text),
        Kind::Symbol => is(text, mark),
        Kind::Number | Kind::Quoted => false,
    }
}

fn as_name<'a>(bytes: &'a [u8], token: Token) -> Option<&'a [u8]>
    ensures { option_copied result ≡ as_name (word_of bytes.now token) }
{
    let text = text_at(bytes, token);
    match token.kind {
        Kind::Ident => if is_grammar_word(text) {
            None
        } else {
            Some(text)
        },
        Kind::Number | Kind::Quoted | Kind::Symbol => None,
    }
}

fn as_quoted<'a>(bytes: &'a [u8], token: Token) -> Option<&'a [u8]>
    ensures { option_copied result ≡ as_quoted (word_of bytes.now token) }
{
    match token.kind {
        Kind::Quoted => Some(unquoted(text_at(bytes, token))),
        Kind::Ident | Kind::Number | Kind::Symbol => None,
    }
}

fn as_number<'a>(bytes: &'a [u8], token: Token) -> Option<&'a [u8]>
    ensures { option_copied result ≡ as_number (word_of bytes.now token) }
{
    match token.kind {
        Kind::Number => Some(text_at(bytes, token)),
        Kind::Ident | Kind::Quoted | Kind::Symbol => None,
    }
}

/// Whether this symbol or reserved word stands first.
pub fn starts(bytes: &[u8], tokens: &[Token], mark: &str) -> bool
    ensures { result ≡ starts mark.now (words_of bytes.now tokens.now) }
{
    match tokens.split_first() {
        Some((token, _)) => is_mark(bytes, *token, mark),
        None => false,
    }
}

/// The identifier that stands first, if it is no reserved word.
pub fn name_at<'a>(bytes: &'a [u8], tokens: &[Token]) -> Option<&'a [u8]>
    ensures { option_copied result ≡ name_at (words_of bytes.now tokens.now) }
{
    let (token, _) = tokens.split_first()?;
    as_name(bytes, *token)
}

/// What the quoted name that stands first has between its quotes.
pub fn quoted_at<'a>(bytes: &'a [u8], tokens: &[Token]) -> Option<&'a [u8]>
    ensures { option_copied result ≡ quoted_at (words_of bytes.now tokens.now) }
{
    let (token, _) = tokens.split_first()?;
    as_quoted(bytes, *token)
}

/// The digits of the number that stands first.
pub fn number_at<'a>(bytes: &'a [u8], tokens: &[Token]) -> Option<&'a [u8]>
    ensures { option_copied result ≡ number_at (words_of bytes.now tokens.now) }
{
    let (token, _) = tokens.split_first()?;
    as_number(bytes, *token)
}

/// Whether this name stands first.
pub fn names(bytes: &[u8], tokens: &[Token], word: &str) -> bool
    ensures { result ≡ names word.now (words_of bytes.now tokens.now) }
{
    match name_at(bytes, tokens) {
        Some(name) => is(name, word),
        None => false,
    }
}

fn is_zero(bytes: &[u8], token: Token) -> bool
    ensures { result ≡ is_zero (word_of bytes.now token) }
{
    match token.kind {
        Kind::Number => is(text_at(bytes, token), "0"),
        Kind::Ident | Kind::Quoted | Kind::Symbol => false,
    }
}

/// Whether the first token is the number 0.
pub fn starts_zero(bytes: &[u8], tokens: &[Token]) -> bool
    ensures { result ≡ starts_zero (words_of bytes.now tokens.now) }
{
    match tokens.split_first() {
        Some((token, _)) => is_zero(bytes, *token),
        None => false,
    }
}

/// The tokens behind the first n.
pub fn beyond(n: usize, tokens: &[Token]) -> &[Token]
    ensures { result.now ≡ drop n tokens.now }
{
    if n < tokens.len() {
        &tokens[n..]
    } else {
        &tokens[tokens.len()..]
    }
}

/// The name that stands first, and the tokens behind it; None where none does.
#[tactic(auto, using(crate::proofs::ReadingLaws::Tokens::word_steps), unfolding(crate::specs::Reading::given))]
pub fn read_name<'a>(
    alloc: Global,
    bytes: &[u8],
    tokens: &'a [Token],
) -> Result<Option<(Name, &'a [Token])>, Mem>
    ensures { Gives bytes.now (λ x. x) result (bare (words_of bytes.now tokens.now)) }
{
    match name_at(bytes, tokens) {
        None => Ok(None),
        Some(name) => Ok(Some((Name::from_bytes(alloc, name)?, beyond(1, tokens)))),
    }
}

/// Whether the name begins with a small letter.
pub fn is_lower(name: &[u8]) -> bool
    ensures { result ≡ is_lower name.now }
{
    match name.split_first() {
        Some((b, _)) => b'a' <= *b && *b <= b'z',
        None => false,
    }
}

/// Whether the name begins with a capital letter.
pub fn is_upper(name: &[u8]) -> bool
    ensures { result ≡ is_upper name.now }
{
    match name.split_first() {
        Some((b, _)) => b'A' <= *b && *b <= b'Z',
        None => false,
    }
}
