/// What kind of token some bytes are. The kinds, the symbols and the two forms of comment are those of theories and SAPIC
/// processes as the manual of the Tamarin prover writes them; names are plain ASCII here.
#[derive(Clone, Copy)]
pub enum Kind {
    /// A name as programs have it: letters of ASCII, digits and `_`, a letter first.
    Ident,
    /// One or more decimal digits.
    Number,
    /// A public name: `'`, printable ASCII bytes other than `'`, then `'`. It may be empty inside.
    Quoted,
    /// One of the 27 symbols.
    Symbol,
}

/// A token's kind, its bytes `from` up to `to`, which is the offset behind its last byte, and its line from 1.
/// The bytes of a quoted token hold both quotes.
#[derive(Clone, Copy)]
pub struct Token {
    pub kind: Kind,
    pub from: u64,
    pub to: u64,
    pub line: u64,
}
