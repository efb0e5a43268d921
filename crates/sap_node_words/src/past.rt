//! Past terms and facts beside their words, up to one of their nodes.
ghost use Rattle.std.specs.Prelude.{◌≡◌, ℕ, Bool, List, false, codes};
ghost use Rattle.sap_terms.specs.Signature.{Sig};
ghost use Rattle.sap_terms.specs.View.{tree};
ghost use Rattle.sap_grammar.specs.Words.{Word, starts, words_of};
ghost use Rattle.sap_grammar.specs.declared.limits.Limits.{Limits};
ghost use Rattle.sap_grammar.specs.FactGrammar.{IsFact, AreFacts};
ghost use Rattle.sap_grammar.specs.TermGrammar.{IsTerm, IsArgs};
ghost use Rattle.sap_node_words.specs.NodeWords.{term_words, args_words};
ghost use Rattle.sap_node_words.specs.FactWords.{fact_words, facts_words};
ghost use Rattle.sap_node_words.specs.Past.{IsPast};

use crate::facts::{walk_fact, walk_facts};
use crate::walk::{walk_args, walk_term};
use sap_terms::{Fact, FactList, Term, TermList};
use sap_text::Token;

/// Past the term that the tokens begin with, where no `(` follows it: `Err` has the number of the node at index `node`, as `node_word`
/// tells it. Where the term has fewer nodes, `Ok` has how many are still before that one, and the tokens behind the term.
pub fn past_term<'a>(
    bytes: &[u8],
    tokens: &'a [Token],
    term: &Term,
    node: usize,
) -> Result<(usize, &'a [Token]), usize>
    ensures { (g : Sig) (behind : List Word)
        (r : IsTerm g (tree term.now) (words_of bytes.now tokens.now) behind)
        → starts (codes "(") behind ≡ false
        → IsPast bytes.now (term_words r) node behind result }
{
    walk_term(bytes, term, node, tokens)
}

/// Past arguments and their closing parenthesis, from behind the opening one on.
pub fn past_args<'a>(
    bytes: &[u8],
    tokens: &'a [Token],
    terms: &TermList,
    node: usize,
) -> Result<(usize, &'a [Token]), usize>
    ensures { (g : Sig) (behind : List Word)
        (r : IsArgs g terms.now (words_of bytes.now tokens.now) behind)
        → IsPast bytes.now (args_words r) node behind result }
{
    walk_args(bytes, terms, node, tokens)
}

/// Past a fact.
pub fn past_fact<'a>(
    bytes: &[u8],
    tokens: &'a [Token],
    fact: &Fact,
    node: usize,
) -> Result<(usize, &'a [Token]), usize>
    ensures { (g : Sig) (behind : List Word)
        (r : IsFact g fact.now (words_of bytes.now tokens.now) behind)
        → IsPast bytes.now (fact_words r) node behind result }
{
    walk_fact(bytes, fact, node, tokens)
}

/// Past facts with commas between them, and the mark behind the last.
pub fn past_facts<'a>(
    bytes: &[u8],
    tokens: &'a [Token],
    facts: &FactList,
    node: usize,
) -> Result<(usize, &'a [Token]), usize>
    ensures { (g : Sig) (m : Limits) (allowed : Bool) (closing : List ℕ) (behind : List Word)
        (r : AreFacts g m allowed closing facts.now (words_of bytes.now tokens.now) behind)
        → IsPast bytes.now (facts_words r) node behind result }
{
    walk_facts(bytes, facts, node, tokens)
}
