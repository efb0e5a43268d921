//! Formulas without parts.
ghost use Rattle.std.specs.Prelude.{ℕ, List, Some, codes};
ghost use Rattle.sap_terms.specs.Tree.{Tree};
ghost use Rattle.sap_terms.specs.View.{tree};
ghost use Rattle.sap_formula.specs.Form.{action, equal};
ghost use Rattle.sap_formula.specs.View.{form};
ghost use Rattle.sap_grammar.specs.Words.{words_of};
ghost use Rattle.sap_grammar.specs.TermReading.{short_term};
ghost use Rattle.sap_grammar.specs.Reading.{Gives, Read, after, name_at, past};
ghost use Rattle.sap_formula_grammar.specs.FormulaReading.{time, placed, equation, later, same, timed, plainly, named, atom};

use crate::formula::build::same;
use sap_formula::Formula;
use sap_grammar::{
    Limits, beyond, is_upper, name_at, names, read_name, read_short_fact, read_short_term, starts,
};
use sap_terms::{Fact, Mem, Name, Signature, Term, boxed};
use sap_text::Token;
use std::alloc::Global;

#[tactic(auto, using(sap_grammar::proofs::ReadingLaws::Tokens::word_steps))]
fn read_time<'a>(
    alloc: Global,
    bytes: &[u8],
    tokens: &'a [Token],
) -> Result<Option<(Name, &'a [Token])>, Mem>
    ensures { Gives bytes.now (λ x. x) result (time (words_of bytes.now tokens.now)) }
{
    if starts(bytes, tokens, "#") {
        read_name(alloc, bytes, beyond(1, tokens))
    } else {
        read_name(alloc, bytes, tokens)
    }
}

#[tactic(auto, using(sap_grammar::proofs::ReadingLaws::Tokens::word_steps), unfolding(sap_grammar::specs::Reading::past))]
fn read_when<'a>(
    alloc: Global,
    bytes: &[u8],
    tokens: &'a [Token],
) -> Result<Option<(Name, &'a [Token])>, Mem>
    ensures { Gives bytes.now (λ i. i) result (past (codes "@") (words_of bytes.now tokens.now) time) }
{
    if starts(bytes, tokens, "@") {
        read_time(alloc, bytes, beyond(1, tokens))
    } else {
        Ok(None)
    }
}

// A fact at the time that was read behind it.
#[tactic(auto, unfolding(sap_grammar::specs::Reading::after))]
fn at<'a>(
    alloc: Global,
    fact: Fact,
    time: Result<Option<(Name, &'a [Token])>, Mem>,
) -> Result<Option<(Box<Formula>, &'a [Token])>, Mem>
    ensures { (bytes : List ℕ) (read : Read (List ℕ)) → Gives bytes (λ i. i) time.entry read
        → Gives bytes (λ f. form f.value) result (after read (λ i z. Some (action fact i, z))) }
{
    match time {
        Ok(Some((time, rest))) => Ok(Some((boxed(alloc, Formula::Action(fact, time))?, rest))),
        Ok(None) => {
            drop(fact);
            Ok(None)
        }
        Err(mem) => {
            drop(fact);
            Err(mem)
        }
    }
}

#[tactic(auto, unfolding(sap_grammar::specs::Reading::after))]
fn read_placed<'a>(
    alloc: Global,
    sig: &Signature,
    limits: Limits,
    bytes: &[u8],
    tokens: &'a [Token],
) -> Result<Option<(Box<Formula>, &'a [Token])>, Mem>
    ensures { Gives bytes.now (λ f. form f.value) result (placed sig.now limits
        (words_of bytes.now tokens.now)) }
{
    match read_short_fact(alloc, sig, limits, bytes, false, tokens)? {
        None => Ok(None),
        Some((fact, rest)) => at(alloc, fact, read_when(alloc, bytes, rest)),
    }
}

#[tactic(auto, using(sap_grammar::proofs::ReadingLaws::Tokens::word_steps), unfolding(sap_grammar::specs::Reading::past))]
fn read_right<'a>(
    alloc: Global,
    sig: &Signature,
    limits: Limits,
    bytes: &[u8],
    tokens: &'a [Token],
) -> Result<Option<(Term, &'a [Token])>, Mem>
    ensures { Gives bytes.now tree result (past (codes "=") (words_of bytes.now tokens.now)
        (short_term sig.now limits)) }
{
    if starts(bytes, tokens, "=") {
        read_short_term(alloc, sig, limits, bytes, beyond(1, tokens))
    } else {
        Ok(None)
    }
}

// A term, `=` and the term that was read behind it.
#[tactic(auto, unfolding(sap_grammar::specs::Reading::after))]
fn equal<'a>(
    alloc: Global,
    left: Term,
    right: Result<Option<(Term, &'a [Token])>, Mem>,
) -> Result<Option<(Box<Formula>, &'a [Token])>, Mem>
    ensures { (bytes : List ℕ) (read : Read Tree) → Gives bytes tree right.entry read
        → Gives bytes (λ f. form f.value) result (after read (λ u z. Some (equal (tree left) u, z))) }
{
    match right {
        Ok(Some((right, rest))) => Ok(Some((boxed(alloc, Formula::Equal(left, right))?, rest))),
        Ok(None) => {
            drop(left);
            Ok(None)
        }
        Err(mem) => {
            drop(left);
            Err(mem)
        }
    }
}

#[tactic(auto, unfolding(sap_grammar::specs::Reading::after))]
fn read_equation<'a>(
    alloc: Global,
    sig: &Signature,
    limits: Limits,
    bytes: &[u8],
    tokens: &'a [Token],
) -> Result<Option<(Box<Formula>, &'a [Token])>, Mem>
    ensures { Gives bytes.now (λ f. form f.value) result (equation sig.now limits
        (words_of bytes.now tokens.now)) }
{
    match read_short_term(alloc, sig, limits, bytes, tokens)? {
        None => Ok(None),
        Some((left, rest)) => equal(alloc, left, read_right(alloc, sig, limits, bytes, rest)),
    }
}

#[tactic(auto, using(sap_grammar::proofs::ReadingLaws::Tokens::word_steps), unfolding(sap_grammar::specs::Reading::after))]
fn read_later<'a>(
    alloc: Global,
    bytes: &[u8],
    first: &[u8],
    tokens: &'a [Token],
) -> Result<Option<(Box<Formula>, &'a [Token])>, Mem>
    ensures { Gives bytes.now (λ f. form f.value) result (later first.now
        (words_of bytes.now tokens.now)) }
{
    match read_time(alloc, bytes, tokens)? {
        None => Ok(None),
        Some((second, rest)) => {
            let first = Name::from_bytes(alloc, first)?;
            let formula = boxed(alloc, Formula::Less(first, second))?;
            Ok(Some((formula, rest)))
        }
    }
}

#[tactic(auto, using(sap_grammar::proofs::ReadingLaws::Tokens::word_steps), unfolding(sap_grammar::specs::Reading::after, sap_grammar::specs::Reading::given, sap_grammar::specs::Reading::past))]
fn read_same<'a>(
    alloc: Global,
    bytes: &[u8],
    left: &[u8],
    tokens: &'a [Token],
) -> Result<Option<(Box<Formula>, &'a [Token])>, Mem>
    ensures { Gives bytes.now (λ f. form f.value) result (same left.now
        (words_of bytes.now tokens.now)) }
{
    let rest = beyond(1, tokens);
    if !starts(bytes, tokens, "#") {
        return Ok(None);
    }
    match name_at(bytes, rest) {
        None => Ok(None),
        Some(right) => {
            let formula = same(alloc, left, right)?;
            Ok(Some((formula, beyond(1, rest))))
        }
    }
}

#[tactic(auto, using(sap_grammar::proofs::ReadingLaws::Tokens::word_steps), unfolding(sap_grammar::specs::Reading::after, sap_grammar::specs::Reading::given))]
fn read_timed<'a>(
    alloc: Global,
    bytes: &[u8],
    tokens: &'a [Token],
) -> Result<Option<(Box<Formula>, &'a [Token])>, Mem>
    ensures { Gives bytes.now (λ f. form f.value) result (timed
        (words_of bytes.now tokens.now)) }
{
    let Some(first) = name_at(bytes, tokens) else {
        return Ok(None);
    };
    let rest = beyond(1, tokens);
    if starts(bytes, rest, "=") {
        read_same(alloc, bytes, first, beyond(1, rest))
    } else if starts(bytes, rest, "<") {
        read_later(alloc, bytes, first, beyond(1, rest))
    } else {
        Ok(None)
    }
}

#[tactic(auto, using(sap_grammar::proofs::ReadingLaws::Tokens::word_steps))]
fn read_plainly<'a>(
    alloc: Global,
    sig: &Signature,
    limits: Limits,
    bytes: &[u8],
    name: &[u8],
    tokens: &'a [Token],
) -> Result<Option<(Box<Formula>, &'a [Token])>, Mem>
    ensures { Gives bytes.now (λ f. form f.value) result (plainly sig.now limits name.now
        (words_of bytes.now tokens.now)) }
{
    if names(bytes, tokens, "T") {
        let formula = boxed(alloc, Formula::True)?;
        Ok(Some((formula, beyond(1, tokens))))
    } else if names(bytes, tokens, "F") {
        let formula = boxed(alloc, Formula::False)?;
        Ok(Some((formula, beyond(1, tokens))))
    } else if starts(bytes, beyond(1, tokens), "<") {
        read_later(alloc, bytes, name, beyond(2, tokens))
    } else {
        read_equation(alloc, sig, limits, bytes, tokens)
    }
}

#[tactic(auto, using(sap_grammar::proofs::ReadingLaws::Tokens::word_steps))]
fn read_named<'a>(
    alloc: Global,
    sig: &Signature,
    limits: Limits,
    bytes: &[u8],
    tokens: &'a [Token],
) -> Result<Option<(Box<Formula>, &'a [Token])>, Mem>
    ensures { Gives bytes.now (λ f. form f.value) result (named sig.now limits
        (name_at (words_of bytes.now tokens.now)) (words_of bytes.now tokens.now)) }
{
    match name_at(bytes, tokens) {
        None => read_equation(alloc, sig, limits, bytes, tokens),
        Some(name) => {
            if !starts(bytes, beyond(1, tokens), "(") {
                read_plainly(alloc, sig, limits, bytes, name, tokens)
            } else if is_upper(name) {
                read_placed(alloc, sig, limits, bytes, tokens)
            } else {
                read_equation(alloc, sig, limits, bytes, tokens)
            }
        }
    }
}

/// A formula without parts, and the tokens behind it.
#[tactic(auto, using(sap_grammar::proofs::ReadingLaws::Tokens::word_steps))]
pub fn read_atom<'a>(
    alloc: Global,
    sig: &Signature,
    limits: Limits,
    bytes: &[u8],
    tokens: &'a [Token],
) -> Result<Option<(Box<Formula>, &'a [Token])>, Mem>
    ensures { Gives bytes.now (λ f. form f.value) result (atom sig.now limits
        (words_of bytes.now tokens.now)) }
{
    if starts(bytes, tokens, "#") {
        read_timed(alloc, bytes, beyond(1, tokens))
    } else {
        read_named(alloc, sig, limits, bytes, tokens)
    }
}
