//! By what a process chooses, read up to its first branch.
ghost use Rattle.sap_terms.specs.View.{tree};
ghost use Rattle.sap_grammar.specs.Words.{words_of};
ghost use Rattle.sap_grammar.specs.Reading.{Gives};
ghost use Rattle.sap_draft.specs.code.ProcessReading.{up_to, equality, compared, found, entry, looked_up};
ghost use Rattle.sap_draft.specs.code.ProcessView.{chosen};
ghost use Rattle.sap_draft.specs.declared.limits.TheConstants.{FILE_LIMITS};

use crate::limits::FILE_LIMITS;
use crate::process::build::{Branching, comparing, looking_up};
use sap_grammar::{beyond, name_at, read_short_term, starts};
use sap_terms::{Mem, Signature, Term};
use sap_text::Token;
use std::alloc::Global;

// By what a process chooses, where this word stands first.
#[tactic(auto, using(sap_grammar::proofs::ReadingLaws::Tokens::word_steps), unfolding(sap_grammar::specs::Reading::past))]
fn read_up_to<'a>(
    bytes: &[u8],
    choice: Box<Branching>,
    word: &str,
    tokens: &'a [Token],
) -> Result<Option<(Box<Branching>, &'a [Token])>, Mem>
    ensures { Gives bytes.now (λ p. chosen p.value) result (up_to word.now (chosen choice.value)
        (words_of bytes.now tokens.now)) }
{
    if starts(bytes, tokens, word) {
        Ok(Some((choice, beyond(1, tokens))))
    } else {
        Ok(None)
    }
}

#[tactic(auto, using(sap_grammar::proofs::ReadingLaws::Tokens::word_steps), unfolding(sap_grammar::specs::Reading::after, sap_grammar::specs::Reading::past))]
fn read_equality<'a>(
    alloc: Global,
    sig: &Signature,
    bytes: &[u8],
    left: Term,
    tokens: &'a [Token],
) -> Result<Option<(Box<Branching>, &'a [Token])>, Mem>
    ensures { Gives bytes.now (λ p. chosen p.value) result (equality sig.now FILE_LIMITS (tree left)
        (words_of bytes.now tokens.now)) }
{
    if !starts(bytes, tokens, "=") {
        drop(left);
        return Ok(None);
    }
    match read_short_term(alloc, sig, FILE_LIMITS, bytes, beyond(1, tokens)) {
        Err(mem) => {
            drop(left);
            Err(mem)
        }
        Ok(None) => {
            drop(left);
            Ok(None)
        }
        Ok(Some((right, rest))) => {
            let choice = comparing(alloc, left, right)?;
            read_up_to(bytes, choice, "then", rest)
        }
    }
}

/// The two terms that are compared behind `if`, and the tokens behind `then`.
#[tactic(auto, using(sap_grammar::proofs::ReadingLaws::Tokens::word_steps), unfolding(sap_grammar::specs::Reading::after))]
pub fn read_compared<'a>(
    alloc: Global,
    sig: &Signature,
    bytes: &[u8],
    tokens: &'a [Token],
) -> Result<Option<(Box<Branching>, &'a [Token])>, Mem>
    ensures { Gives bytes.now (λ p. chosen p.value) result (compared sig.now FILE_LIMITS
        (words_of bytes.now tokens.now)) }
{
    match read_short_term(alloc, sig, FILE_LIMITS, bytes, tokens)? {
        None => Ok(None),
        Some((left, rest)) => read_equality(alloc, sig, bytes, left, rest),
    }
}

fn read_found<'a>(
    alloc: Global,
    bytes: &[u8],
    key: Term,
    name: &[u8],
    tokens: &'a [Token],
) -> Result<Option<(Box<Branching>, &'a [Token])>, Mem>
    ensures { Gives bytes.now (λ p. chosen p.value) result (found (tree key) name.now
        (words_of bytes.now tokens.now)) }
{
    let choice = looking_up(alloc, key, name)?;
    read_up_to(bytes, choice, "in", tokens)
}

#[tactic(auto, using(sap_grammar::proofs::ReadingLaws::Tokens::word_steps), unfolding(sap_grammar::specs::Reading::given, sap_grammar::specs::Reading::past))]
fn read_entry<'a>(
    alloc: Global,
    bytes: &[u8],
    key: Term,
    tokens: &'a [Token],
) -> Result<Option<(Box<Branching>, &'a [Token])>, Mem>
    ensures { Gives bytes.now (λ p. chosen p.value) result (entry (tree key) (words_of bytes.now tokens.now)) }
{
    if !starts(bytes, tokens, "as") {
        drop(key);
        return Ok(None);
    }
    let rest = beyond(1, tokens);
    match name_at(bytes, rest) {
        None => {
            drop(key);
            Ok(None)
        }
        Some(name) => read_found(alloc, bytes, key, name, beyond(1, rest)),
    }
}

/// The term that is looked up behind `lookup` and the variable for what is found, and the tokens behind `in`.
#[tactic(auto, using(sap_grammar::proofs::ReadingLaws::Tokens::word_steps), unfolding(sap_grammar::specs::Reading::after))]
pub fn read_looked_up<'a>(
    alloc: Global,
    sig: &Signature,
    bytes: &[u8],
    tokens: &'a [Token],
) -> Result<Option<(Box<Branching>, &'a [Token])>, Mem>
    ensures { Gives bytes.now (λ p. chosen p.value) result (looked_up sig.now FILE_LIMITS
        (words_of bytes.now tokens.now)) }
{
    match read_short_term(alloc, sig, FILE_LIMITS, bytes, tokens)? {
        None => Ok(None),
        Some((key, rest)) => read_entry(alloc, bytes, key, rest),
    }
}
