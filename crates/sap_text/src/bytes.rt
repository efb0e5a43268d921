//! Which bytes stand in words, numbers, blanks and quotes.
ghost use Rattle.std.specs.Prelude.{◌≡◌, ◌≤◌, ◌<◌, length, take, drop, IfSome};
ghost use Rattle.std.specs.List.{prefix_len};
ghost use Rattle.sap_text.specs.Tokens.{is_word, is_blank, is_content, is_of, starts_two, line_feeds};
ghost use Rattle.sap_text.specs.code.Front.{close_at};

fn is_word_byte(b: u8) -> bool
    ensures { result ≡ is_word b }
{
    b.is_ascii_alphabetic() || b.is_ascii_digit() || b == b'_'
}

/// Whether it is a space, a tab, a carriage return or a line feed.
pub fn is_blank_byte(b: u8) -> bool
    ensures { result ≡ is_blank b }
{
    b == b' ' || b == b'\t' || b == b'\r' || b == b'\n'
}

fn is_content_byte(b: u8) -> bool
    ensures { result ≡ is_content b }
{
    b >= 32 && b <= 126 && b != b'\''
}

/// Classes of bytes.
#[derive(Clone, Copy)]
pub enum Class {
    /// Letters, digits and `_`.
    Word,
    /// Digits.
    Digit,
    /// What may stand in a quote.
    Content,
    /// All but quotes and line feeds.
    Inner,
    /// All but line feeds.
    Line,
}

// Whether the byte is of the class.
fn is_of(class: Class, b: u8) -> bool
    ensures { result ≡ is_of class b }
{
    match class {
        Class::Word => is_word_byte(b),
        Class::Digit => b.is_ascii_digit(),
        Class::Content => is_content_byte(b),
        Class::Inner => b != b'\'' && b != b'\n',
        Class::Line => b != b'\n',
    }
}

/// How many bytes of the class stand first.
pub fn run_len(class: Class, bytes: &[u8]) -> usize
    ensures is { result ≡ prefix_len (is_of class) bytes.now }
    ensures within { result ≤ length bytes.now }
{
    bytes.iter().take_while(|b| is_of(class, **b)).count()
}

/// How many line feeds there are.
pub fn feeds_in(bytes: &[u8]) -> usize
    ensures { result ≡ line_feeds bytes.now }
{
    bytes.iter().filter(|b| **b == b'\n').count()
}

/// Whether x and y stand first.
pub fn starts_with_two(x: u8, y: u8, bytes: &[u8]) -> bool
    ensures { result ≡ starts_two x y bytes.now }
{
    match bytes {
        [a, b, ..] => *a == x && *b == y,
        _ => false,
    }
}

/// How many bytes stand before the first `*/`.
pub fn find_close(bytes: &[u8]) -> Option<usize>
    ensures is { result ≡ close_at bytes.now }
    ensures within { IfSome result (λ n. n < length bytes.now) }
{
    for k in 0..bytes.len() {
        if starts_with_two(b'*', b'/', &bytes[k..]) {
            return Some(k);
        }
    }
    None
}

/// The first n bytes, or all where there are fewer.
pub fn first(n: usize, bytes: &[u8]) -> &[u8]
    ensures { result.now ≡ take n bytes.now }
{
    if n < bytes.len() { &bytes[..n] } else { bytes }
}

/// All but the first byte.
pub fn behind_first(bytes: &[u8]) -> &[u8]
    ensures { result.now ≡ drop 1 bytes.now }
{
    if bytes.is_empty() { bytes } else { &bytes[1..] }
}

/// The bytes from this offset on.
pub fn from_place(bytes: &[u8], at: usize) -> &[u8]
    requires { at ≤ length bytes.now }
    ensures { result.now ≡ drop at bytes.now }
{
    &bytes[at..]
}
