//! Rows: what is asked of the words round a place, or of the bytes, and what to write there.

/// What is asked of one word.
#[derive(Clone, Copy)]
pub enum Test {
    /// It is this sign, reserved word or name.
    Is(&'static str),
    /// It is one of these.
    OneOf(&'static [&'static str]),
    /// It is a name.
    Name,
    /// It is a name with a small letter first.
    Small,
    /// It is a name with a capital first.
    Capital,
    /// It is a number.
    Number,
    /// It is a name in quotes.
    Quoted,
    /// It is a name, or a name in quotes.
    Simple,
    /// There is a word.
    Any,
    /// There is none: the file ends before it.
    End,
}

/// What is asked of the words before a place, the last of them last, and of those from the place on; and the sentence that says what to
/// write there.
#[derive(Clone, Copy)]
pub struct WordRow {
    pub before: &'static [Test],
    pub from: &'static [Test],
    pub cure: &'static str,
}

/// The bytes that stand right before a place, and those that stand from it on; and the sentence.
#[derive(Clone, Copy)]
pub struct ByteRow {
    pub before: &'static str,
    pub from: &'static str,
    pub cure: &'static str,
}
