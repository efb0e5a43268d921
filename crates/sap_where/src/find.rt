//! Which tokens items begin with.
ghost use Rattle.std.specs.Prelude.{◌≡◌, ◌≤◌, ◌<◌, ℕ, MatchOption};
ghost use Rattle.sap_grammar.specs.Words.{words_of};
ghost use Rattle.sap_where.specs.Where.{BeginsAt, HoldsOnce, IsFirst, IsSecond, begins};

use crate::items::{begins_definition, begins_statement};
use sap_grammar::{beyond, starts};
use sap_text::Token;

/// What an item that is looked for begins with.
#[derive(Clone, Copy)]
pub enum Beginning {
    /// `process`.
    Process,
    /// `let` and a name.
    Definition,
    /// `restriction` or `lemma`, and a name.
    Statement,
}

// Whether such an item begins with the first of these tokens.
fn begins(bytes: &[u8], tokens: &[Token], beginning: Beginning, name: &[u8]) -> bool
    ensures { result ≡ begins beginning name.now (words_of bytes.now tokens.now) }
{
    match beginning {
        Beginning::Process => starts(bytes, tokens, "process"),
        Beginning::Definition => begins_definition(bytes, tokens, name),
        Beginning::Statement => begins_statement(bytes, tokens, name),
    }
}

// The number of the first token from this one on with which such an item begins.
fn next(
    bytes: &[u8],
    tokens: &[Token],
    beginning: Beginning,
    name: &[u8],
    from: usize,
) -> Option<usize>
    ensures { MatchOption result
        ((i : ℕ) → from ≤ i → BeginsAt bytes.now tokens.now beginning name.now i → ⊥)
        (λ k. (from ≤ k) × BeginsAt bytes.now tokens.now beginning name.now k
        × ((i : ℕ) → from ≤ i → i < k → BeginsAt bytes.now tokens.now beginning name.now i → ⊥)) }
{
    let mut k = from;
    while k < tokens.len() {
        if begins(bytes, beyond(k, tokens), beginning, name) {
            return Some(k);
        }
        k += 1;
    }
    None
}

// The number of the first token with which such an item begins.
pub(crate) fn first(
    bytes: &[u8],
    tokens: &[Token],
    beginning: Beginning,
    name: &[u8],
) -> Option<usize>
    ensures { MatchOption result
        ((i : ℕ) → BeginsAt bytes.now tokens.now beginning name.now i → ⊥)
        (λ k. IsFirst (BeginsAt bytes.now tokens.now beginning name.now) k) }
{
    next(bytes, tokens, beginning, name, 0)
}

// The number of the second one.
pub(crate) fn second(
    bytes: &[u8],
    tokens: &[Token],
    beginning: Beginning,
    name: &[u8],
) -> Option<usize>
    ensures { MatchOption result
        (HoldsOnce (BeginsAt bytes.now tokens.now beginning name.now))
        (λ k. IsSecond (BeginsAt bytes.now tokens.now beginning name.now) k) }
{
    match first(bytes, tokens, beginning, name) {
        Some(k) => next(bytes, tokens, beginning, name, k + 1),
        None => None,
    }
}

// The number of the first one, where there are two.
pub(crate) fn first_of_two(
    bytes: &[u8],
    tokens: &[Token],
    beginning: Beginning,
    name: &[u8],
) -> Option<usize>
    ensures { MatchOption result
        (HoldsOnce (BeginsAt bytes.now tokens.now beginning name.now))
        (λ j. (k : ℕ) × IsSecond (BeginsAt bytes.now tokens.now beginning name.now) k
        × IsFirst (BeginsAt bytes.now tokens.now beginning name.now) j) }
{
    match second(bytes, tokens, beginning, name) {
        Some(_) => first(bytes, tokens, beginning, name),
        None => None,
    }
}
