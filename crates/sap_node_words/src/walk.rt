//! The walk through a term beside its words.
ghost use Rattle.std.specs.Prelude.{◌≡◌, ℕ, List, None, Some, IfNone, IfSome, slice_get};
ghost use Rattle.sap_terms.specs.Signature.{Sig};
ghost use Rattle.sap_terms.specs.Tree.{trees_of};
ghost use Rattle.sap_terms.specs.View.{tree};
ghost use Rattle.sap_grammar.specs.Words.{Word, words_of};
ghost use Rattle.sap_grammar.specs.TermGrammar.{IsTerm};
ghost use Rattle.sap_node_words.specs.NodeWords.{term_words};
ghost use Rattle.sap_node_words.specs.code.Walk.{Walk, Comes, past_node, past_word, unsigned, opened, is_parted, begins_parted, variable_walk, applied_walk, pair_walk, term_walk, args_walk, list_walk, parts_walk, rest_walk};

use sap_grammar::{beyond, starts};
use sap_terms::{Term, TermList};
use sap_text::Token;

// Past a node that stands at the first of these tokens, and on at others: it is the one that is sought, or one node less stands
// before that one.
pub(crate) fn past_node<'a>(
    before: usize,
    tokens: &[Token],
    behind: &'a [Token],
) -> Result<(usize, &'a [Token]), usize>
    ensures { (bytes : List ℕ) → Comes bytes result (past_node before (words_of bytes tokens.now)
        (words_of bytes behind.now)) }
{
    if before == 0 {
        Err(tokens.len())
    } else {
        Ok((before - 1, behind))
    }
}

// Past the mark behind what was walked through.
#[tactic(auto, unfolding(crate::specs::code::Walk::onward))]
pub(crate) fn past_word<'a>(
    walked: Result<(usize, &'a [Token]), usize>,
) -> Result<(usize, &'a [Token]), usize>
    ensures { (bytes : List ℕ) (walk : Walk) → Comes bytes walked.entry walk
        → Comes bytes result (past_word walk) }
{
    let (before, tokens) = walked?;
    Ok((before, beyond(1, tokens)))
}

fn unsigned<'a>(bytes: &[u8], tokens: &'a [Token]) -> &'a [Token]
    ensures { words_of bytes.now result.now ≡ unsigned (words_of bytes.now tokens.now) }
{
    if starts(bytes, tokens, "~") || starts(bytes, tokens, "$") {
        beyond(1, tokens)
    } else {
        tokens
    }
}

fn walk_variable<'a>(
    bytes: &[u8],
    before: usize,
    tokens: &'a [Token],
) -> Result<(usize, &'a [Token]), usize>
    ensures { Comes bytes.now result (variable_walk before (words_of bytes.now tokens.now)) }
{
    let tokens = unsigned(bytes, tokens);
    past_node(before, tokens, beyond(1, tokens))
}

// Whether the first is a tuple, or a symbol that has an argument, and the tokens behind its `<` or parenthesis.
fn opened<'a>(bytes: &[u8], tokens: &'a [Token]) -> Option<&'a [Token]>
    ensures none { IfNone result (opened (words_of bytes.now tokens.now) ≡ None) }
    ensures some { IfSome result (λ behind. opened (words_of bytes.now tokens.now)
        ≡ Some (words_of bytes.now behind.now)) }
{
    if starts(bytes, tokens, "<") {
        Some(beyond(1, tokens))
    } else if starts(bytes, beyond(1, tokens), "(") && !starts(bytes, beyond(2, tokens), ")") {
        Some(beyond(2, tokens))
    } else {
        None
    }
}

// Whether the tokens open fewer symbols and tuples than a symbol on these terms begins with.
#[cycle(parted)]
#[tactic(auto, using(crate::proofs::Steps::parted_steps))]
fn is_parted(bytes: &[u8], terms: &TermList, tokens: &[Token]) -> bool
    ensures { result ≡ is_parted (trees_of terms.now) (words_of bytes.now tokens.now) }
{
    if terms.len() == 0 {
        return false;
    }
    match opened(bytes, tokens) {
        Some(behind) => begins_parted(bytes, terms.at(0), behind),
        None => true,
    }
}

#[cycle(parted)]
fn begins_parted(bytes: &[u8], term: &Term, tokens: &[Token]) -> bool
    ensures { result ≡ begins_parted (tree term.now) (Some (words_of bytes.now tokens.now)) }
{
    match term {
        Term::App(_, terms) => is_parted(bytes, terms, tokens),
        _ => false,
    }
}

#[cycle(walk)]
#[tactic(auto, unfolding(crate::specs::code::Walk::onward, crate::specs::code::Walk::term_walk))]
pub(crate) fn walk_term<'a>(
    bytes: &[u8],
    term: &Term,
    before: usize,
    tokens: &'a [Token],
) -> Result<(usize, &'a [Token]), usize>
    ensures { Comes bytes.now result (term_walk (tree term.now) before (words_of bytes.now tokens.now)) }
{
    match term {
        Term::Var(_) => walk_variable(bytes, before, tokens),
        Term::App(_, terms) => walk_applied(bytes, terms, before, tokens),
        _ => past_node(before, tokens, beyond(1, tokens)),
    }
}

// Through a symbol on these terms, or a tuple.
#[cycle(walk)]
#[tactic(auto, unfolding(crate::specs::code::Walk::onward))]
fn walk_applied<'a>(
    bytes: &[u8],
    terms: &TermList,
    before: usize,
    tokens: &'a [Token],
) -> Result<(usize, &'a [Token]), usize>
    ensures { Comes bytes.now result (applied_walk (parts_walk (trees_of terms.now))
        (args_walk (trees_of terms.now)) before (words_of bytes.now tokens.now)) }
{
    if starts(bytes, tokens, "<") {
        let (before, tokens) = past_node(before, tokens, beyond(1, tokens))?;
        walk_parts(bytes, terms, before, tokens)
    } else if starts(bytes, beyond(1, tokens), "(") {
        let (before, tokens) = past_node(before, tokens, beyond(2, tokens))?;
        walk_args(bytes, terms, before, tokens)
    } else {
        past_node(before, tokens, beyond(1, tokens))
    }
}

#[cycle(walk)]
#[tactic(auto, unfolding(crate::specs::code::Walk::onward, crate::specs::code::Walk::args_walk))]
pub(crate) fn walk_args<'a>(
    bytes: &[u8],
    terms: &TermList,
    before: usize,
    tokens: &'a [Token],
) -> Result<(usize, &'a [Token]), usize>
    ensures { Comes bytes.now result (args_walk (trees_of terms.now) before
        (words_of bytes.now tokens.now)) }
{
    if terms.len() == 0 {
        return Ok((before, beyond(1, tokens)));
    }
    let mut before = before;
    let mut tokens = tokens;
    for k in 0..terms.len() {
        let (next, behind) = past_word(walk_term(bytes, terms.at(k), before, tokens))?;
        before = next;
        tokens = behind;
    }
    Ok((before, tokens))
}

// Through the two parts of a tuple.
#[cycle(walk)]
#[tactic(auto, unfolding(crate::specs::code::Walk::onward, crate::specs::code::Walk::parts_walk))]
fn walk_parts<'a>(
    bytes: &[u8],
    terms: &TermList,
    before: usize,
    tokens: &'a [Token],
) -> Result<(usize, &'a [Token]), usize>
    ensures { Comes bytes.now result (parts_walk (trees_of terms.now) before
        (words_of bytes.now tokens.now)) }
{
    if terms.len() != 2 {
        return Ok((before, tokens));
    }
    let (before, tokens) = past_word(walk_term(bytes, terms.at(0), before, tokens))?;
    walk_rest(bytes, terms.at(1), before, tokens)
}

// Through what stands in a tuple behind a comma, and the tuple's end.
#[cycle(walk)]
#[tactic(auto, unfolding(crate::specs::code::Walk::onward, crate::specs::code::Walk::rest_walk))]
fn walk_rest<'a>(
    bytes: &[u8],
    term: &Term,
    before: usize,
    tokens: &'a [Token],
) -> Result<(usize, &'a [Token]), usize>
    ensures { Comes bytes.now result (rest_walk (tree term.now) before
        (words_of bytes.now tokens.now)) }
{
    match term {
        Term::App(_, terms) => walk_pair(bytes, terms, before, tokens),
        _ => past_word(walk_term(bytes, term, before, tokens)),
    }
}

// So where it is a symbol on these terms.
#[cycle(walk)]
#[tactic(auto, unfolding(crate::specs::code::Walk::onward))]
fn walk_pair<'a>(
    bytes: &[u8],
    terms: &TermList,
    before: usize,
    tokens: &'a [Token],
) -> Result<(usize, &'a [Token]), usize>
    ensures { Comes bytes.now result (pair_walk (trees_of terms.now)
        (parts_walk (trees_of terms.now)) (args_walk (trees_of terms.now)) before
        (words_of bytes.now tokens.now)) }
{
    if is_parted(bytes, terms, tokens) {
        let (before, tokens) = past_node(before, tokens, tokens)?;
        walk_parts(bytes, terms, before, tokens)
    } else {
        past_word(walk_applied(bytes, terms, before, tokens))
    }
}

/// The word at which node number `node` of the term stands that the tokens begin with, by how many tokens are left from it on; nodes
/// count in preorder, from 0. None where the term has no such node. Linear in the term, it recurses as deep as the term, and
/// takes no memory.
pub fn node_word(bytes: &[u8], tokens: &[Token], term: &Term, node: usize) -> Option<usize>
    ensures { (g : Sig) (behind : List Word)
        (r : IsTerm g (tree term.now) (words_of bytes.now tokens.now) behind)
        → result ≡ slice_get (term_words r) node }
{
    match walk_term(bytes, term, node, tokens) {
        Ok(_) => None,
        Err(left) => Some(left),
    }
}
