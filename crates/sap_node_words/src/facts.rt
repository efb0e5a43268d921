//! The walk through facts beside their words.
ghost use Rattle.std.specs.Prelude.{◌≡◌, List, ℕ};
ghost use Rattle.sap_grammar.specs.Words.{words_of};
ghost use Rattle.sap_node_words.specs.code.Walk.{Comes, past_node, unsigned_fact, fact_walk, facts_walk, all_facts_walk, args_walk, onward};

use crate::walk::{past_node, past_word, walk_args};
use sap_grammar::{beyond, starts};
use sap_terms::{Fact, FactList};
use sap_text::Token;

// Without the sign of a persistent fact.
fn unsigned<'a>(bytes: &[u8], tokens: &'a [Token]) -> &'a [Token]
    ensures { words_of bytes.now result.now ≡ unsigned_fact (words_of bytes.now tokens.now) }
{
    if starts(bytes, tokens, "!") {
        beyond(1, tokens)
    } else {
        tokens
    }
}

#[tactic(auto, unfolding(crate::specs::code::Walk::onward, crate::specs::code::Walk::fact_walk))]
pub(crate) fn walk_fact<'a>(
    bytes: &[u8],
    fact: &Fact,
    before: usize,
    tokens: &'a [Token],
) -> Result<(usize, &'a [Token]), usize>
    ensures { Comes bytes.now result (fact_walk fact.now.args before (words_of bytes.now tokens.now)) }
{
    let tokens = unsigned(bytes, tokens);
    let (before, tokens) = past_node(before, tokens, beyond(2, tokens))?;
    walk_args(bytes, &fact.args, before, tokens)
}

// Through facts and the mark behind the last, which stands alone where there are none.
#[tactic(auto, unfolding(crate::specs::code::Walk::onward, crate::specs::code::Walk::facts_walk))]
pub(crate) fn walk_facts<'a>(
    bytes: &[u8],
    facts: &FactList,
    before: usize,
    tokens: &'a [Token],
) -> Result<(usize, &'a [Token]), usize>
    ensures { Comes bytes.now result (all_facts_walk facts.now before (words_of bytes.now tokens.now)) }
{
    if facts.len() == 0 {
        return Ok((before, beyond(1, tokens)));
    }
    let mut before = before;
    let mut tokens = tokens;
    for k in 0..facts.len() {
        let (next, behind) = past_word(walk_fact(bytes, facts.at(k), before, tokens))?;
        before = next;
        tokens = behind;
    }
    Ok((before, tokens))
}
