//! Shapes of formulas.

/// What a formula says, where each name of a variable is a letter: of a message variable a capital, of a time variable a small
/// one. It takes no memory.
#[derive(Clone, Copy)]
pub enum Shape<'a> {
    /// `NAME(v, .., w)@t`
    Shows(&'a [u8], &'a [u8], &'a [u8]),
    /// `v = w`
    Equal(u8, u8),
    /// `#a = #b`
    Same(&'a [u8], &'a [u8]),
    /// `#a < #b`
    Less(&'a [u8], &'a [u8]),
    /// `not f`
    Not(&'a Shape<'a>),
    /// `f & g`
    And(&'a Shape<'a>, &'a Shape<'a>),
    /// `f | g`
    Or(&'a Shape<'a>, &'a Shape<'a>),
    /// `f ==> g`
    Imp(&'a Shape<'a>, &'a Shape<'a>),
    /// `All X .. #i ... f`
    All(&'a [u8], &'a Shape<'a>),
    /// `Ex X .. #i ... f`
    Ex(&'a [u8], &'a Shape<'a>),
}
