//! The parts of terms.
ghost use Rattle.std.specs.Prelude.{◌≡◌, ◌<◌, ◌^◌, List, length, slice_get};
ghost use Rattle.sap_terms.specs.Signature.{Sig};
ghost use Rattle.sap_terms.specs.Tree.{trees_of};
ghost use Rattle.sap_terms.specs.View.{tree};
ghost use Rattle.sap_grammar.specs.Words.{Word, words_of};
ghost use Rattle.sap_grammar.specs.TermGrammar.{IsTerm};
ghost use Rattle.sap_formula_words.specs.PartWords.{term_part_words};
ghost use Rattle.sap_formula_words.specs.code.Walk.{past_part, seek, seek_all, starts_opening, starts_closing, open_behind, behind_open, behind_term};

use sap_grammar::{beyond, starts};
use sap_node_words::{node_word, nodes_and_words};
use sap_terms::{Term, TermList};
use sap_text::Token;

// How many tokens there are, which a usize counts.
pub(crate) fn count(tokens: &[Token]) -> usize
    ensures { length tokens.now < 2 ^ 64 }
{
    tokens.len()
}

// Past a node that is a part.
fn past_part(part: usize, node: usize) -> Result<(usize, usize), usize>
    ensures { result ≡ past_part part node }
{
    if part == 0 {
        Err(node)
    } else {
        Ok((part - 1, node.saturating_add(1)))
    }
}

// Which node is the part that is sought, counted on from this number; or how many parts are still sought, and the next node's number.
#[cycle(seek)]
#[tactic(auto, unfolding(crate::specs::code::Walk::go_on, crate::specs::code::Walk::seek))]
pub(crate) fn seek(term: &Term, part: usize, node: usize) -> Result<(usize, usize), usize>
    ensures { result ≡ seek (tree term.now) part node }
{
    match term {
        Term::Var(_) => past_part(part, node),
        Term::App(_, terms) => {
            let (part, node) = past_part(part, node)?;
            seek_all(terms, part, node)
        }
        _ => Ok((part, node.saturating_add(1))),
    }
}

#[cycle(seek)]
#[tactic(auto, using(crate::proofs::Steps::seek_steps))]
fn seek_all(terms: &TermList, part: usize, node: usize) -> Result<(usize, usize), usize>
    ensures { result ≡ seek_all (trees_of terms.now) part node }
{
    let mut part = part;
    let mut node = node;
    for k in 0..terms.len() {
        let (left, next) = seek(terms.at(k), part, node)?;
        part = left;
        node = next;
    }
    Ok((part, node))
}

fn opens(bytes: &[u8], tokens: &[Token]) -> bool
    ensures { result ≡ starts_opening (words_of bytes.now tokens.now) }
{
    starts(bytes, tokens, "(") || starts(bytes, tokens, "<")
}

fn closes(bytes: &[u8], tokens: &[Token]) -> bool
    ensures { result ≡ starts_closing (words_of bytes.now tokens.now) }
{
    starts(bytes, tokens, ")") || starts(bytes, tokens, ">")
}

// How many are open behind the first token, where some are before it.
#[tactic(auto, using(crate::proofs::Steps::open_steps))]
fn open_behind(bytes: &[u8], tokens: &[Token], inside: usize) -> usize
    requires some { 0 < inside }
    requires few { inside < usize.MAX }
    ensures { result ≡ open_behind (words_of bytes.now tokens.now) inside }
{
    if opens(bytes, tokens) {
        inside + 1
    } else if closes(bytes, tokens) {
        inside - 1
    } else {
        inside
    }
}

// Behind where what one opened is closed.
fn behind_open<'a>(bytes: &[u8], tokens: &'a [Token]) -> &'a [Token]
    ensures { words_of bytes.now result.now ≡ behind_open 1 (words_of bytes.now tokens.now) }
{
    let mut rest = tokens;
    let mut inside: usize = 1;
    while inside > 0 && rest.len() > 0 {
        inside = open_behind(bytes, rest, inside);
        rest = beyond(1, rest);
    }
    rest
}

/// The tokens behind a term, where no parenthesis follows it.
#[tactic(auto, using(sap_grammar::proofs::ReadingLaws::Tokens::word_steps))]
pub(crate) fn behind_term<'a>(bytes: &[u8], tokens: &'a [Token]) -> &'a [Token]
    ensures { words_of bytes.now result.now ≡ behind_term (words_of bytes.now tokens.now) }
{
    if starts(bytes, tokens, "~") || starts(bytes, tokens, "$") {
        beyond(2, tokens)
    } else if starts(bytes, tokens, "<") {
        behind_open(bytes, beyond(1, tokens))
    } else if starts(bytes, beyond(1, tokens), "(") {
        behind_open(bytes, beyond(2, tokens))
    } else {
        beyond(1, tokens)
    }
}

/// The word of part number `part` of the term that the tokens begin with, by how many tokens are left from it on.
pub(crate) fn term_part_word(
    bytes: &[u8],
    tokens: &[Token],
    term: &Term,
    part: usize,
) -> Option<usize>
    ensures { (g : Sig) (behind : List Word)
        (r : IsTerm g (tree term.now) (words_of bytes.now tokens.now) behind)
        → result ≡ slice_get (term_part_words r) part }
{
    nodes_and_words();
    // a term has no more nodes than words
    let _count = count(tokens);
    match seek(term, part, 0) {
        Ok(_) => None,
        Err(node) => node_word(bytes, tokens, term, node),
    }
}
