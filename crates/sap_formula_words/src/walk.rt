//! The walk through a formula beside its words.
ghost use Rattle.std.specs.Prelude.{◌≡◌, ℕ, List, codes, slice_get};
ghost use Rattle.sap_terms.specs.Signature.{Sig};
ghost use Rattle.sap_terms.specs.View.{tree};
ghost use Rattle.sap_formula.specs.View.{form};
ghost use Rattle.sap_grammar.specs.Words.{Word, words_of};
ghost use Rattle.sap_formula_grammar.specs.FormulaGrammar.{Reach, IsIff};
ghost use Rattle.sap_formula_words.specs.PartWords.{part_words};
ghost use Rattle.sap_formula_words.specs.code.Walk.{Walk, Comes, behind_all, unsigned, name_walk, past_words, shut, term_walk, list_walk, args_walk, signed_walk, action_walk, equal_walk, times_walk, binders_walk, both_walk, bound_walk, form_walk};

use crate::place::Place;
use crate::terms::{behind_term, seek, term_part_word};
use sap_formula::{Binders, Formula};
use sap_grammar::{beyond, starts};
use sap_node_words::nodes_and_words;
use sap_terms::{Fact, Term, TermList};
use sap_text::Token;

// Behind this mark, however often it stands first.
#[tactic(auto, using(sap_grammar::proofs::ReadingLaws::Tokens::word_steps))]
fn behind_all<'a>(bytes: &[u8], tokens: &'a [Token], mark: &str) -> &'a [Token]
    ensures { words_of bytes.now result.now ≡ behind_all mark.now (words_of bytes.now tokens.now) }
{
    let mut rest = tokens;
    while starts(bytes, rest, mark) {
        rest = beyond(1, rest);
    }
    rest
}

// Behind the sign of a variable.
#[tactic(auto, using(sap_grammar::proofs::ReadingLaws::Tokens::word_steps))]
fn unsigned<'a>(bytes: &[u8], tokens: &'a [Token]) -> &'a [Token]
    ensures { words_of bytes.now result.now ≡ unsigned (words_of bytes.now tokens.now) }
{
    if starts(bytes, tokens, "~") || starts(bytes, tokens, "$") || starts(bytes, tokens, "#") {
        beyond(1, tokens)
    } else {
        tokens
    }
}

// Past a name.
#[tactic(auto, using(sap_grammar::proofs::ReadingLaws::Tokens::word_steps))]
fn walk_name<'a>(part: usize, tokens: &'a [Token]) -> Result<(usize, &'a [Token]), Place<'a>>
    ensures { (bytes : List ℕ) → Comes bytes result (name_walk part (words_of bytes tokens.now)) }
{
    if part == 0 {
        Err(Place::Word(tokens.len()))
    } else {
        Ok((part - 1, beyond(1, tokens)))
    }
}

// Past so many words behind what was walked through.
#[tactic(auto, using(sap_grammar::proofs::ReadingLaws::Tokens::word_steps), unfolding(crate::specs::code::Walk::onward))]
fn past_words<'a>(
    count: usize,
    walked: Result<(usize, &'a [Token]), Place<'a>>,
) -> Result<(usize, &'a [Token]), Place<'a>>
    ensures { (bytes : List ℕ) (walk : Walk) → Comes bytes walked.entry walk
        → Comes bytes result (past_words count walk) }
{
    match walked {
        Ok((part, tokens)) => Ok((part, beyond(count, tokens))),
        Err(place) => Err(place),
    }
}

// Past the parentheses that close behind it.
#[tactic(auto, unfolding(crate::specs::code::Walk::onward))]
fn shut<'a>(
    bytes: &[u8],
    walked: Result<(usize, &'a [Token]), Place<'a>>,
) -> Result<(usize, &'a [Token]), Place<'a>>
    ensures { (walk : Walk) → Comes bytes.now walked.entry walk → Comes bytes.now result (shut walk) }
{
    match walked {
        Ok((part, tokens)) => Ok((part, behind_all(bytes, tokens, ")"))),
        Err(place) => Err(place),
    }
}

#[tactic(auto, unfolding(crate::specs::code::Walk::term_walk))]
fn walk_term<'a>(
    bytes: &[u8],
    term: &'a Term,
    part: usize,
    tokens: &'a [Token],
) -> Result<(usize, &'a [Token]), Place<'a>>
    ensures { Comes bytes.now result (term_walk (tree term.now) part (words_of bytes.now tokens.now)) }
{
    match seek(term, part, 0) {
        Ok((left, _)) => Ok((left, behind_term(bytes, tokens))),
        Err(_) => Err(Place::Term(term, tokens, part)),
    }
}

// Through terms, each with the mark behind it.
#[tactic(auto, using(crate::proofs::Steps::list_steps))]
fn walk_list<'a>(
    bytes: &[u8],
    terms: &'a TermList,
    part: usize,
    tokens: &'a [Token],
) -> Result<(usize, &'a [Token]), Place<'a>>
    ensures { Comes bytes.now result (list_walk terms.now part (words_of bytes.now tokens.now)) }
{
    let mut part = part;
    let mut tokens = tokens;
    for k in 0..terms.len() {
        match past_words(1, walk_term(bytes, terms.at(k), part, tokens)) {
            Ok((left, behind)) => {
                part = left;
                tokens = behind;
            }
            Err(place) => return Err(place),
        }
    }
    Ok((part, tokens))
}

#[tactic(auto, unfolding(crate::specs::code::Walk::args_walk))]
fn walk_args<'a>(
    bytes: &[u8],
    terms: &'a TermList,
    part: usize,
    tokens: &'a [Token],
) -> Result<(usize, &'a [Token]), Place<'a>>
    ensures { Comes bytes.now result (args_walk terms.now part (words_of bytes.now tokens.now)) }
{
    if terms.len() == 0 {
        Ok((part, beyond(1, tokens)))
    } else {
        walk_list(bytes, terms, part, tokens)
    }
}

// Past a name behind its sign, where it has one.
fn walk_signed<'a>(
    bytes: &[u8],
    part: usize,
    tokens: &'a [Token],
) -> Result<(usize, &'a [Token]), Place<'a>>
    ensures { Comes bytes.now result (signed_walk part (words_of bytes.now tokens.now)) }
{
    walk_name(part, unsigned(bytes, tokens))
}

#[tactic(auto, unfolding(crate::specs::code::Walk::onward))]
fn walk_action<'a>(
    bytes: &[u8],
    fact: &'a Fact,
    part: usize,
    tokens: &'a [Token],
) -> Result<(usize, &'a [Token]), Place<'a>>
    ensures { Comes bytes.now result (action_walk fact.now.args part (words_of bytes.now tokens.now)) }
{
    let (part, tokens) = past_words(1, walk_name(part, tokens))?;
    let (part, tokens) = past_words(1, walk_args(bytes, &fact.args, part, tokens))?;
    walk_signed(bytes, part, tokens)
}

#[tactic(auto, unfolding(crate::specs::code::Walk::onward))]
fn walk_equal<'a>(
    bytes: &[u8],
    left: &'a Term,
    right: &'a Term,
    part: usize,
    tokens: &'a [Token],
) -> Result<(usize, &'a [Token]), Place<'a>>
    ensures { Comes bytes.now result (equal_walk (tree left.now) (tree right.now) part
        (words_of bytes.now tokens.now)) }
{
    let (part, tokens) = past_words(1, walk_term(bytes, left, part, tokens))?;
    walk_term(bytes, right, part, tokens)
}

#[tactic(auto, unfolding(crate::specs::code::Walk::onward))]
fn walk_times<'a>(
    bytes: &[u8],
    part: usize,
    tokens: &'a [Token],
) -> Result<(usize, &'a [Token]), Place<'a>>
    ensures { Comes bytes.now result (times_walk part (words_of bytes.now tokens.now)) }
{
    let (part, tokens) = past_words(1, walk_signed(bytes, part, tokens))?;
    walk_signed(bytes, part, tokens)
}

// Through bound variables and the dot.
#[tactic(auto, using(crate::proofs::Steps::binder_steps, sap_grammar::proofs::ReadingLaws::Tokens::word_steps))]
fn walk_binders<'a>(
    bytes: &[u8],
    binders: &Binders,
    part: usize,
    tokens: &'a [Token],
) -> Result<(usize, &'a [Token]), Place<'a>>
    ensures { Comes bytes.now result (binders_walk binders.now part (words_of bytes.now tokens.now)) }
{
    let mut part = part;
    let mut tokens = tokens;
    for _k in 0..binders.len() {
        match walk_signed(bytes, part, tokens) {
            Ok((left, behind)) => {
                part = left;
                tokens = behind;
            }
            Err(place) => return Err(place),
        }
    }
    Ok((part, beyond(1, tokens)))
}

// Through two formulas with a mark between them.
#[cycle(walk)]
#[tactic(auto, unfolding(crate::specs::code::Walk::onward))]
fn walk_both<'a>(
    bytes: &[u8],
    left: &'a Formula,
    right: &'a Formula,
    part: usize,
    tokens: &'a [Token],
) -> Result<(usize, &'a [Token]), Place<'a>>
    ensures { Comes bytes.now result (both_walk (form_walk (form left.now))
        (form_walk (form right.now)) part (words_of bytes.now tokens.now)) }
{
    let (part, tokens) = past_words(1, walk_formula(bytes, left, part, tokens))?;
    walk_formula(bytes, right, part, tokens)
}

// Through bound variables, and a formula.
#[cycle(walk)]
#[tactic(auto, using(sap_grammar::proofs::ReadingLaws::Tokens::word_steps), unfolding(crate::specs::code::Walk::onward))]
fn walk_bound<'a>(
    bytes: &[u8],
    binders: &Binders,
    body: &'a Formula,
    part: usize,
    tokens: &'a [Token],
) -> Result<(usize, &'a [Token]), Place<'a>>
    ensures { Comes bytes.now result (bound_walk binders.now (form_walk (form body.now)) part
        (words_of bytes.now tokens.now)) }
{
    let tokens = beyond(1, behind_all(bytes, tokens, "("));
    let (part, tokens) = walk_binders(bytes, binders, part, tokens)?;
    walk_formula(bytes, body, part, tokens)
}

// Through a formula, and the parentheses that close behind it.
#[cycle(walk)]
#[tactic(auto, using(sap_grammar::proofs::ReadingLaws::Tokens::word_steps), unfolding(crate::specs::code::Walk::form_walk))]
fn walk_formula<'a>(
    bytes: &[u8],
    formula: &'a Formula,
    part: usize,
    tokens: &'a [Token],
) -> Result<(usize, &'a [Token]), Place<'a>>
    ensures { Comes bytes.now result (form_walk (form formula.now) part
        (words_of bytes.now tokens.now)) }
{
    let inside = behind_all(bytes, tokens, "(");
    match formula {
        Formula::True | Formula::False => { Ok((part, behind_all(bytes, beyond(1, inside), ")"))) }
        Formula::Action(fact, _) => shut(bytes, walk_action(bytes, fact, part, inside)),
        Formula::Equal(left, right) => shut(bytes, walk_equal(bytes, left, right, part, inside)),
        Formula::Same(_, _) | Formula::Less(_, _) => shut(bytes, walk_times(bytes, part, inside)),
        Formula::Not(f) => walk_formula(bytes, f, part, beyond(1, inside)),
        Formula::And(f, h) | Formula::Or(f, h) | Formula::Imp(f, h) | Formula::Iff(f, h) => {
            walk_both(bytes, f, h, part, tokens)
        }
        Formula::All(binders, f) | Formula::Ex(binders, f) => {
            walk_bound(bytes, binders, f, part, tokens)
        }
    }
}

/// The word of part number `part` of the formula that the tokens begin with, by how many tokens are left from it on; parts count
/// from 0 in reading order. None where the formula has no such part. Linear in the formula and its tokens, it recurses as deep as
/// the formula and its terms, and takes no memory.
pub fn part_word(bytes: &[u8], tokens: &[Token], formula: &Formula, part: usize) -> Option<usize>
    ensures { (g : Sig) (e : Reach) (n : ℕ) (behind : List Word)
        (r : IsIff g e (form formula.now) n (words_of bytes.now tokens.now) behind)
        → result ≡ slice_get (part_words r) part }
{
    nodes_and_words();
    match walk_formula(bytes, formula, part, tokens) {
        Ok(_) => None,
        Err(Place::Word(left)) => Some(left),
        Err(Place::Term(term, words, part)) => term_part_word(bytes, words, term, part),
    }
}
