//! Facts at the head of a written process, beside their words.
ghost use Rattle.std.specs.Prelude.{◌≡◌, ℕ, List, slice_get, codes};
ghost use Rattle.sap_terms.specs.Signature.{Sig};
ghost use Rattle.sap_grammar.specs.Words.{starts, words_of};
ghost use Rattle.sap_head_words.specs.code.Shapes.{OneFact, RightSide, Shown, ArrowIs, ThreeSides};

use crate::terms::found;
use sap_grammar::{beyond, starts};
use sap_node_words::{past_fact, past_facts};
use sap_terms::{Fact, FactList};
use sap_text::Token;

pub(crate) fn fact_word(bytes: &[u8], tokens: &[Token], fact: &Fact, node: usize) -> Option<usize>
    ensures { (g : Sig) (ns : List ℕ) → OneFact g fact.now (words_of bytes.now tokens.now) ns
        → result ≡ slice_get ns node }
{
    found(past_fact(bytes, tokens, fact, node))
}

fn right_word(bytes: &[u8], tokens: &[Token], facts: &FactList, node: usize) -> Option<usize>
    ensures { (g : Sig) (ns : List ℕ) → RightSide g facts.now (words_of bytes.now tokens.now) ns
        → result ≡ slice_get ns node }
{
    found(past_facts(bytes, tokens, facts, node))
}

fn shown_word(
    bytes: &[u8],
    tokens: &[Token],
    shown: &FactList,
    right: &FactList,
    node: usize,
) -> Option<usize>
    ensures { (g : Sig) (ns : List ℕ)
        → Shown g shown.now right.now (words_of bytes.now tokens.now) ns
        → result ≡ slice_get ns node }
{
    match past_facts(bytes, tokens, shown, node) {
        Ok((left, rest)) => right_word(bytes, beyond(1, rest), right, left),
        Err(left) => Some(left),
    }
}

// Behind the left side of a rule.
fn arrow_word(
    bytes: &[u8],
    tokens: &[Token],
    shown: &FactList,
    right: &FactList,
    node: usize,
) -> Option<usize>
    ensures { (g : Sig) (ns : List ℕ)
        → ArrowIs (starts (codes "-->") (words_of bytes.now tokens.now)) g shown.now right.now
        (words_of bytes.now tokens.now) ns
        → result ≡ slice_get ns node }
{
    if starts(bytes, tokens, "-->") {
        right_word(bytes, beyond(2, tokens), right, node)
    } else {
        shown_word(bytes, beyond(1, tokens), shown, right, node)
    }
}

pub(crate) fn rule_word(
    bytes: &[u8],
    tokens: &[Token],
    left: &FactList,
    shown: &FactList,
    right: &FactList,
    node: usize,
) -> Option<usize>
    ensures { (g : Sig) (ns : List ℕ)
        → ThreeSides g left.now shown.now right.now (words_of bytes.now tokens.now) ns
        → result ≡ slice_get ns node }
{
    match past_facts(bytes, tokens, left, node) {
        Ok((before, rest)) => arrow_word(bytes, rest, shown, right, before),
        Err(left) => Some(left),
    }
}
