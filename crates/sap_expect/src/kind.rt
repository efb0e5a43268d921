//! Kinds of words of a file.

/// A kind of words, as a text names it.
#[derive(Clone, Copy)]
pub enum WordKind {
    /// The first words of an item.
    Item,
    /// Those of a process, of a formula, of a term.
    Process,
    Formula,
    Term,
    /// A name.
    Name,
    /// A name with a small letter first.
    Lower,
    /// A name with a capital first.
    Upper,
    /// A name in quotes.
    Quoted,
    /// A number that is no greater than `MOST_ARITY`.
    Arity,
    /// The number 0.
    Zero,
    /// This sign or reserved word.
    Mark(&'static str),
    /// This name.
    Named(&'static str),
}
