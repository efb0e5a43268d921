//! Words of a file, as the walk over them sees them.
ghost use Rattle.std.specs.Prelude.{◌≡◌, ℕ, List, ◌∷◌, is_some};
ghost use Rattle.std.specs.List.{list_any};
ghost use Rattle.std.specs.Str.{bytes_eq};
ghost use Rattle.sap_grammar.specs.Reading.{as_name, as_number, as_quoted, is_name, is_zero};
ghost use Rattle.sap_grammar.specs.Words.{is_grammar_word, is_lower, is_mark, is_upper, word_of_text};
ghost use Rattle.sap_expect.specs.FileTable.{is_arity, is_such, is_wanted};
ghost use Rattle.sap_expect.specs.code.SeenWords.{seen as seen_of};
ghost use Rattle.sap_expect.specs.code.WantedView.{wanted as view};

use crate::wanted::Wanted;
use sap_grammar::{is_lower, is_upper};
use sap_terms::MOST_ARITY;
use sap_text::Kind;

/// A word, with the bytes of its token. Whether letters are a word of the grammar is looked up once, where it is made.
#[derive(Clone, Copy)]
pub(crate) enum Seen<'a> {
    /// A symbol or reserved word.
    Mark(&'a [u8]),
    /// Any other identifier.
    Name(&'a [u8]),
    Number(&'a [u8]),
    /// A name in quotes, with these.
    Quoted(&'a [u8]),
}

// The words of the grammar that begin with this letter.
fn words_from(letter: u8) -> &'static [&'static str]
    ensures { (rest : List ℕ) → list_any (λ word. bytes_eq (letter ∷ rest) word.now) result.now
        ≡ is_grammar_word (letter ∷ rest) }
{
    match letter {
        b'A' => &["All"],
        b'E' => &["Ex"],
        b'a' => &["as"],
        b'b' => &["begin", "builtins"],
        b'd' => &["delete"],
        b'e' => &["end", "else", "event"],
        b'f' => &["functions"],
        b'i' => &["in", "if", "insert"],
        b'l' => &["let", "lemma", "lookup", "lock"],
        b'n' => &["new", "not"],
        b'o' => &["out"],
        b'p' => &["process"],
        b'r' => &["restriction", "rule"],
        b't' => &["theory", "then"],
        b'u' => &["unlock"],
        _ => &[],
    }
}

// Whether the text is this word. That most words have another length is seen without a call.
#[tactic(auto, using(crate::proofs::SeenTokens::other_length))]
fn is_text(text: &[u8], word: &str) -> bool
    ensures { result ≡ bytes_eq text.now word.now }
{
    if text.len() != word.len() {
        return false;
    }
    text == word.as_bytes()
}

// Whether the text is one of the words.
fn is_one(text: &[u8], words: &[&str]) -> bool
    ensures { result ≡ list_any (λ word. bytes_eq text.now word.now) words.now }
{
    for word in words {
        if is_text(text, word) {
            return true;
        }
    }
    false
}

// Whether it is a word of the grammar: one of those with its first letter.
fn is_reserved(text: &[u8]) -> bool
    ensures { result ≡ is_grammar_word text.now }
{
    match text.split_first() {
        Some((letter, _)) => is_one(text, words_from(*letter)),
        None => false,
    }
}

/// The word of a token of this kind with these bytes.
pub(crate) fn look(kind: Kind, text: &[u8]) -> Seen<'_>
    ensures { seen_of result ≡ word_of_text kind text.now }
{
    match kind {
        Kind::Ident => if is_reserved(text) {
            Seen::Mark(text)
        } else {
            Seen::Name(text)
        },
        Kind::Number => Seen::Number(text),
        Kind::Quoted => Seen::Quoted(text),
        Kind::Symbol => Seen::Mark(text),
    }
}

// Whether these are the digits of an arity.
fn is_arity(digits: &[u8]) -> bool
    ensures { result ≡ is_arity digits.now }
{
    let mut arity: u64 = 0;
    for digit in digits {
        arity = arity * 10 + (*digit).saturating_sub(b'0') as u64;
        if arity > MOST_ARITY {
            return false;
        }
    }
    true
}

/// Whether it is this symbol or reserved word.
pub(crate) fn is_this_mark(word: Seen<'_>, mark: &str) -> bool
    ensures { result ≡ is_mark mark.now (seen_of word.entry) }
{
    match word {
        Seen::Mark(text) => is_text(text, mark),
        _ => false,
    }
}

// Whether it is this name.
fn is_this_name(word: Seen<'_>, name: &str) -> bool
    ensures { result ≡ is_name name.now (as_name (seen_of word.entry)) }
{
    match word {
        Seen::Name(text) => is_text(text, name),
        _ => false,
    }
}

fn is_a_name(word: Seen<'_>) -> bool
    ensures { result ≡ is_some (as_name (seen_of word.entry)) }
{
    match word {
        Seen::Name(_) => true,
        _ => false,
    }
}

fn is_a_lower_name(word: Seen<'_>) -> bool
    ensures { result ≡ is_such is_lower (as_name (seen_of word.entry)) }
{
    match word {
        Seen::Name(text) => is_lower(text),
        _ => false,
    }
}

fn is_an_upper_name(word: Seen<'_>) -> bool
    ensures { result ≡ is_such is_upper (as_name (seen_of word.entry)) }
{
    match word {
        Seen::Name(text) => is_upper(text),
        _ => false,
    }
}

fn is_in_quotes(word: Seen<'_>) -> bool
    ensures { result ≡ is_some (as_quoted (seen_of word.entry)) }
{
    match word {
        Seen::Quoted(_) => true,
        _ => false,
    }
}

fn is_the_zero(word: Seen<'_>) -> bool
    ensures { result ≡ is_zero (seen_of word.entry) }
{
    match word {
        Seen::Number(text) => text == "0".as_bytes(),
        _ => false,
    }
}

fn is_an_arity(word: Seen<'_>) -> bool
    ensures { result ≡ is_such is_arity (as_number (seen_of word.entry)) }
{
    match word {
        Seen::Number(digits) => is_arity(digits),
        _ => false,
    }
}

/// Whether the word alone is what is wanted.
pub(crate) fn is_wanted(word: Seen<'_>, wanted: Wanted) -> bool
    ensures { result ≡ is_wanted (view wanted) (seen_of word.entry) }
{
    match wanted {
        Wanted::Mark(mark) => is_this_mark(word, mark),
        Wanted::Named(name) => is_this_name(word, name),
        Wanted::Name => is_a_name(word),
        Wanted::Lower => is_a_lower_name(word),
        Wanted::Upper => is_an_upper_name(word),
        Wanted::Quoted => is_in_quotes(word),
        Wanted::Zero => is_the_zero(word),
        Wanted::Arity => is_an_arity(word),
        Wanted::A(_, _) | Wanted::Level(_) => false,
    }
}
