//! Names, numbers and contents, taken from the left of bytes.
ghost use Rattle.std.specs.Prelude.{◌≡◌, ◌≤◌, length, take, drop};
ghost use Rattle.std.specs.List.{prefix_len};
ghost use Rattle.sap_run_lines.specs.code.Taking.{starts, starts_letter, identifier_at, is_run_name, name_at, with_digit, with_digits, only_zero, number_of, number_at, content_at, Finds};
ghost use Rattle.sap_run_lines.specs.code.Kinds.{is_of};

use sap_grammar::is_grammar_word;
use sap_terms::{MOST_FILE_NAME_BYTES, MOST_THEORY_NAME_BYTES};

/// Whether this byte stands first.
pub(crate) fn starts(byte: u8, bytes: &[u8]) -> bool
    ensures { result ≡ starts byte bytes.now }
{
    match bytes.split_first() {
        Some((b, _)) => *b == byte,
        None => false,
    }
}

/// Whether a letter stands first.
pub(crate) fn starts_letter(bytes: &[u8]) -> bool
    ensures { result ≡ starts_letter bytes.now }
{
    match bytes.split_first() {
        Some((b, _)) => b.is_ascii_alphabetic(),
        None => false,
    }
}

/// The bytes behind the first n.
pub(crate) fn behind(n: usize, bytes: &[u8]) -> &[u8]
    ensures { result.now ≡ drop n bytes.now }
{
    if n < bytes.len() {
        &bytes[n..]
    } else {
        &bytes[bytes.len()..]
    }
}

fn first(n: usize, bytes: &[u8]) -> &[u8]
    ensures { result.now ≡ take n bytes.now }
{
    if n < bytes.len() { &bytes[..n] } else { bytes }
}

// Which bytes are counted.
#[derive(Clone, Copy)]
enum Kind {
    Word,
    Digit,
    Content,
}

fn is_of(kind: Kind, b: u8) -> bool
    ensures { result ≡ is_of kind b }
{
    match kind {
        Kind::Word => b.is_ascii_alphabetic() || b.is_ascii_digit() || b == b'_',
        Kind::Digit => b.is_ascii_digit(),
        Kind::Content => b >= 32 && b <= 126 && b != b'\'',
    }
}

// How many bytes of this kind stand first.
fn len_of(kind: Kind, bytes: &[u8]) -> usize
    ensures { result ≡ prefix_len (is_of kind) bytes.now }
{
    bytes.iter().take_while(|b| is_of(kind, **b)).count()
}

/// The identifier that stands first, and the bytes behind it.
#[tactic(auto, unfolding(crate::specs::code::Taking::identifier_at))]
pub(crate) fn identifier_at(bytes: &[u8]) -> Option<(&[u8], &[u8])>
    ensures { Finds (λ x. x.now) result (identifier_at bytes.now) }
{
    if starts_letter(bytes) {
        let n = len_of(Kind::Word, bytes);
        Some((first(n, bytes), behind(n, bytes)))
    } else {
        None
    }
}

/// Whether it is short, and no word of the grammar.
pub(crate) fn is_run_name(text: &[u8]) -> bool
    ensures { result ≡ is_run_name text.now }
{
    !is_grammar_word(text) && text.len() as u64 <= MOST_THEORY_NAME_BYTES
}

/// The name that stands first, and the bytes behind it.
#[tactic(auto, unfolding(crate::specs::code::Taking::name_at, crate::specs::code::Taking::after))]
pub(crate) fn name_at(bytes: &[u8]) -> Option<(&[u8], &[u8])>
    ensures { Finds (λ x. x.now) result (name_at bytes.now) }
{
    let (text, rest) = identifier_at(bytes)?;
    if is_run_name(text) {
        Some((text, rest))
    } else {
        None
    }
}

fn with_digit(value: u64, digit: u8) -> Option<u64>
    ensures { result ≡ with_digit value digit }
{
    if digit.is_ascii_digit() {
        let tens = value.checked_mul(10)?;
        tens.checked_add((digit - b'0') as u64)
    } else {
        None
    }
}

#[tactic(auto, unfolding(crate::specs::code::Taking::with_digits, crate::specs::code::Taking::given))]
fn with_digits(digits: &[u8]) -> Option<u64>
    ensures { result ≡ with_digits 0 digits.now }
{
    let mut value: u64 = 0;
    for digit in digits {
        value = with_digit(value, *digit)?;
    }
    Some(value)
}

fn only_zero(digits: &[u8]) -> Option<u64>
    ensures { result ≡ only_zero digits.now }
{
    if digits.is_empty() { Some(0) } else { None }
}

fn number_of(digits: &[u8]) -> Option<u64>
    ensures { result ≡ number_of digits.now }
{
    match digits.split_first() {
        None => None,
        Some((b, rest)) => if *b == b'0' {
            only_zero(rest)
        } else {
            with_digits(digits)
        },
    }
}

/// The number that stands first, without leading zeros and within 64 bits, and the bytes behind its digits.
#[tactic(auto, unfolding(crate::specs::code::Taking::number_at, crate::specs::code::Taking::given))]
pub(crate) fn number_at(bytes: &[u8]) -> Option<(u64, &[u8])>
    ensures { Finds (λ n. n) result (number_at bytes.now) }
{
    let n = len_of(Kind::Digit, bytes);
    let number = number_of(first(n, bytes))?;
    Some((number, behind(n, bytes)))
}

/// The content that stands first, up to a quote, and the bytes behind the quote.
#[tactic(auto, unfolding(crate::specs::code::Taking::content_at))]
pub(crate) fn content_at(bytes: &[u8]) -> Option<(&[u8], &[u8])>
    ensures { Finds (λ x. x.now) result (content_at bytes.now) }
{
    let n = len_of(Kind::Content, bytes);
    let rest = behind(n, bytes);
    if n as u64 <= MOST_FILE_NAME_BYTES && starts(b'\'', rest) {
        Some((first(n, bytes), behind(1, rest)))
    } else {
        None
    }
}
