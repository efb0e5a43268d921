//! Facts, read from their tokens.
ghost use Rattle.std.specs.Prelude.{◌≡◌, ℕ, length, IfOk, IfSome, IfNone};
ghost use Rattle.sap_terms.specs.declared.fact.Fact.{Fact};
ghost use Rattle.sap_grammar.specs.Words.{words_of};
ghost use Rattle.sap_grammar.specs.Sizes.{are_small};
ghost use Rattle.sap_grammar.specs.FactGrammar.{fact};
ghost use Rattle.sap_grammar.specs.Places.{IsFactAt};
ghost use Rattle.sap_grammar.specs.Reading.{Gives, list_of};
ghost use Rattle.sap_grammar.specs.TermReading.{fact_args, fact_from, fact_at, term, short_fact, facts};

use crate::limits::Limits;
use crate::look::{beyond, is_upper, name_at, starts};
use crate::term::{is_small, read_args};
use sap_terms::{Fact, FactList, Mem, Name, Signature, TermList};
use sap_text::Token;
use std::alloc::Global;

fn fact(alloc: Global, persistent: bool, name: &[u8], args: TermList) -> Result<Fact, Mem>
    ensures { IfOk result (λ f. f ≡ fact persistent name.now args) }
{
    Ok(Fact {
        name: Name::from_bytes(alloc, name)?,
        persistent,
        args,
    })
}

// Whether each term is within the limits.
fn are_small(limits: Limits, args: &TermList) -> bool
    ensures { result ≡ are_small limits args.now }
{
    for k in 0..args.len() {
        if !is_small(limits, args.at(k)) {
            return false;
        }
    }
    true
}

#[tactic(auto, using(crate::proofs::ReadingLaws::Tokens::word_steps), unfolding(crate::specs::Reading::after))]
fn read_fact_args<'a>(
    alloc: Global,
    sig: &Signature,
    bytes: &[u8],
    depth: u64,
    persistent: bool,
    name: &[u8],
    tokens: &'a [Token],
) -> Result<Option<(Fact, &'a [Token])>, Mem>
    ensures { Gives bytes.now (λ f. f) result (fact_args (term sig.now depth) persistent name.now
        (words_of bytes.now tokens.now)) }
{
    match read_args(alloc, sig, bytes, depth, tokens) {
        Ok(Some((args, rest))) => match fact(alloc, persistent, name, args) {
            Ok(fact) => Ok(Some((fact, rest))),
            Err(mem) => Err(mem),
        },
        Ok(None) => Ok(None),
        Err(mem) => Err(mem),
    }
}

#[tactic(auto, using(crate::proofs::ReadingLaws::Tokens::word_steps), unfolding(crate::specs::Reading::given))]
fn read_behind_sign<'a>(
    alloc: Global,
    sig: &Signature,
    bytes: &[u8],
    depth: u64,
    persistent: bool,
    tokens: &'a [Token],
) -> Result<Option<(Fact, &'a [Token])>, Mem>
    ensures { Gives bytes.now (λ f. f) result (fact_from (term sig.now depth) persistent
        (words_of bytes.now tokens.now)) }
{
    match name_at(bytes, tokens) {
        Some(name) => {
            if is_upper(name) && starts(bytes, beyond(1, tokens), "(") {
                let behind = beyond(2, tokens);
                read_fact_args(alloc, sig, bytes, depth, persistent, name, behind)
            } else {
                Ok(None)
            }
        }
        None => Ok(None),
    }
}

// A fact whose terms are read so deep at most, and the tokens behind it. As `read_deep` of terms.
#[tactic(auto, using(crate::proofs::ReadingLaws::Tokens::word_steps), unfolding(crate::specs::Reading::after))]
fn read_deep<'a>(
    alloc: Global,
    sig: &Signature,
    bytes: &[u8],
    depth: u64,
    tokens: &'a [Token],
) -> Result<Option<(Fact, &'a [Token])>, Mem>
    ensures { Gives bytes.now (λ f. f) result (fact_at (term sig.now depth)
        (words_of bytes.now tokens.now)) }
{
    if starts(bytes, tokens, "!") {
        read_behind_sign(alloc, sig, bytes, depth, true, beyond(1, tokens))
    } else {
        read_behind_sign(alloc, sig, bytes, depth, false, tokens)
    }
}

/// The fact that the tokens begin with, whose terms are within the limits and which is persistent only where that is allowed,
/// and the tokens behind it; None where there is none.
#[tactic(auto, using(crate::proofs::ReadingLaws::Tokens::word_steps), unfolding(crate::specs::Reading::after, crate::specs::TermReading::short_fact))]
pub fn read_short_fact<'a>(
    alloc: Global,
    sig: &Signature,
    limits: Limits,
    bytes: &[u8],
    allowed: bool,
    tokens: &'a [Token],
) -> Result<Option<(Fact, &'a [Token])>, Mem>
    ensures { Gives bytes.now (λ f. f) result (short_fact sig.now limits allowed
        (words_of bytes.now tokens.now)) }
{
    let depth = limits.term_levels as u64;
    match read_deep(alloc, sig, bytes, depth, tokens) {
        Ok(Some((fact, rest))) => {
            if !are_small(limits, &fact.args) || (fact.persistent && !allowed) {
                drop(fact);
                return Ok(None);
            }
            Ok(Some((fact, rest)))
        }
        Ok(None) => Ok(None),
        Err(mem) => Err(mem),
    }
}

#[tactic(auto, using(crate::proofs::ReadingLaws::Tokens::word_steps), unfolding(crate::specs::Reading::after))]
fn read_fact_list<'a>(
    alloc: Global,
    sig: &Signature,
    limits: Limits,
    bytes: &[u8],
    allowed: bool,
    closing: &str,
    tokens: &'a [Token],
) -> Result<Option<(FactList, &'a [Token])>, Mem>
    ensures { Gives bytes.now (λ fs. fs) result (list_of closing.now
        (short_fact sig.now limits allowed) (length tokens.now)
        (words_of bytes.now tokens.now)) }
{
    let mut facts = FactList::new(alloc);
    let mut rest = tokens;
    while !rest.is_empty() {
        match read_short_fact(alloc, sig, limits, bytes, allowed, rest) {
            Ok(Some((fact, next))) => {
                facts.push(fact)?;
                if starts(bytes, next, closing) {
                    return Ok(Some((facts, beyond(1, next))));
                }
                if !starts(bytes, next, ",") {
                    return Ok(None);
                }
                rest = beyond(1, next);
            }
            Ok(None) => return Ok(None),
            Err(mem) => return Err(mem),
        }
    }
    Ok(None)
}

/// Facts, none or more, with commas between them, up to the closing mark, each as `read_short_fact` reads it, and the
/// tokens behind the mark; None where there are none such.
#[tactic(auto, using(crate::proofs::ReadingLaws::Tokens::word_steps), unfolding(crate::specs::Reading::after, crate::specs::TermReading::facts))]
pub fn read_facts<'a>(
    alloc: Global,
    sig: &Signature,
    limits: Limits,
    bytes: &[u8],
    allowed: bool,
    closing: &str,
    tokens: &'a [Token],
) -> Result<Option<(FactList, &'a [Token])>, Mem>
    ensures { Gives bytes.now (λ fs. fs) result (facts sig.now limits allowed closing.now
        (words_of bytes.now tokens.now)) }
{
    if starts(bytes, tokens, closing) {
        Ok(Some((FactList::new(alloc), beyond(1, tokens))))
    } else {
        read_fact_list(alloc, sig, limits, bytes, allowed, closing, tokens)
    }
}

/// The fact that the tokens spell from number `at`, counted from 0, whose terms are within the limits, and the number of the
/// token behind it, which is no `(`; None where they spell none. The work is as that of `read_term`.
pub fn read_fact(
    alloc: Global,
    sig: &Signature,
    limits: Limits,
    bytes: &[u8],
    tokens: &Vec<Token>,
    at: u64,
) -> Result<Option<(Fact, u64)>, Mem>
    ensures found { IfOk result (λ o. IfSome o (λ r. IsFactAt limits sig.now
        (words_of bytes.now tokens.now.items) at r.0 r.1)) }
    ensures none { IfOk result (λ o. IfNone o ((f : Fact) (e : ℕ)
        → IsFactAt limits sig.now (words_of bytes.now tokens.now.items) at f e → ⊥)) }
{
    let all = tokens.as_slice();
    let tokens = beyond(at as usize, all);
    match read_short_fact(alloc, sig, limits, bytes, true, tokens) {
        Ok(Some((fact, rest))) => {
            if starts(bytes, rest, "(") {
                drop(fact);
                Ok(None)
            } else {
                Ok(Some((fact, (all.len() - rest.len()) as u64)))
            }
        }
        Ok(None) => Ok(None),
        Err(mem) => Err(mem),
    }
}
