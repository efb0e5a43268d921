//! Where a part of a formula stands.
use sap_terms::Term;
use sap_text::Token;

// At the word from which on so many are left, or in the term at these words, as its part of this number.
#[derive(Clone, Copy)]
pub(crate) enum Place<'a> {
    Word(usize),
    Term(&'a Term, &'a [Token], usize),
}
