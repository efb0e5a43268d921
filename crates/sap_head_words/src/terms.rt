//! Terms at the head of a written process, beside their words.
ghost use Rattle.std.specs.Prelude.{◌≡◌, ℕ, List, [], ◌∷◌, length, slice_get};
ghost use Rattle.sap_terms.specs.Signature.{Sig};
ghost use Rattle.sap_terms.specs.View.{tree};
ghost use Rattle.sap_grammar.specs.Words.{Word, words_of};
ghost use Rattle.sap_node_words.specs.Past.{IsPast};
ghost use Rattle.sap_head_words.specs.code.Shapes.{OneTerm, TwoTerms, TermAndName, UseOf};

use sap_grammar::beyond;
use sap_node_words::{node_word, past_args, past_term};
use sap_terms::{Term, TermList};
use sap_text::Token;

// The number that a walk found, if it did.
pub(crate) fn found(walked: Result<(usize, &[Token]), usize>) -> Option<usize>
    ensures { (bytes ns : List ℕ) (node : ℕ) (behind : List Word)
        → IsPast bytes ns node behind walked.entry → result ≡ slice_get ns node }
{
    match walked {
        Ok(_) => None,
        Err(left) => Some(left),
    }
}

// The first of these tokens, as the one node.
pub(crate) fn only(tokens: &[Token], node: usize) -> Option<usize>
    ensures { result ≡ slice_get (length tokens.now ∷ []) node }
{
    if node == 0 { Some(tokens.len()) } else { None }
}

pub(crate) fn term_word(bytes: &[u8], tokens: &[Token], term: &Term, node: usize) -> Option<usize>
    ensures { (g : Sig) (ns : List ℕ)
        → OneTerm g (tree term.now) (words_of bytes.now tokens.now) ns
        → result ≡ slice_get ns node }
{
    node_word(bytes, tokens, term, node)
}

pub(crate) fn terms_word(
    bytes: &[u8],
    tokens: &[Token],
    first: &Term,
    second: &Term,
    node: usize,
) -> Option<usize>
    ensures { (g : Sig) (ns : List ℕ)
        → TwoTerms g (tree first.now) (tree second.now) (words_of bytes.now tokens.now) ns
        → result ≡ slice_get ns node }
{
    match past_term(bytes, tokens, first, node) {
        Ok((left, rest)) => term_word(bytes, beyond(1, rest), second, left),
        Err(left) => Some(left),
    }
}

// Of a term, or of the name that stands behind the word behind it.
pub(crate) fn term_or_name_word(
    bytes: &[u8],
    tokens: &[Token],
    term: &Term,
    node: usize,
) -> Option<usize>
    ensures { (g : Sig) (ns : List ℕ)
        → TermAndName g (tree term.now) (words_of bytes.now tokens.now) ns
        → result ≡ slice_get ns node }
{
    match past_term(bytes, tokens, term, node) {
        Ok((left, rest)) => only(beyond(1, rest), left),
        Err(left) => Some(left),
    }
}

// Of the arguments of a use, whose name is the first of the tokens.
pub(crate) fn use_word(
    bytes: &[u8],
    tokens: &[Token],
    terms: &TermList,
    node: usize,
) -> Option<usize>
    ensures { (g : Sig) (ns : List ℕ) → UseOf g terms.now (words_of bytes.now tokens.now) ns
        → result ≡ slice_get ns node }
{
    if terms.len() == 0 {
        return None;
    }
    found(past_args(bytes, beyond(2, tokens), terms, node))
}
