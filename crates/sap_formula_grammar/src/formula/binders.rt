//! The variables of a quantifier.
ghost use Rattle.std.specs.Prelude.{length};
ghost use Rattle.sap_grammar.specs.Words.{words_of};
ghost use Rattle.sap_grammar.specs.Reading.{Gives};
ghost use Rattle.sap_formula_grammar.specs.FormulaReading.{bound_as, bound_time, binder, binders};

use sap_formula::{Binder, Binders};
use sap_grammar::{beyond, read_name, starts};
use sap_terms::{Mem, Sort, Var};
use sap_text::Token;
use std::alloc::Global;

#[tactic(auto, using(sap_grammar::proofs::ReadingLaws::Tokens::word_steps), unfolding(sap_grammar::specs::Reading::after))]
fn read_bound_as<'a>(
    alloc: Global,
    bytes: &[u8],
    sort: Sort,
    tokens: &'a [Token],
) -> Result<Option<(Binder, &'a [Token])>, Mem>
    ensures { Gives bytes.now (λ v. v) result (bound_as sort (words_of bytes.now tokens.now)) }
{
    match read_name(alloc, bytes, tokens)? {
        None => Ok(None),
        Some((name, rest)) => Ok(Some((Binder::Message(Var { name, sort }), rest))),
    }
}

#[tactic(auto, using(sap_grammar::proofs::ReadingLaws::Tokens::word_steps), unfolding(sap_grammar::specs::Reading::after))]
fn read_bound_time<'a>(
    alloc: Global,
    bytes: &[u8],
    tokens: &'a [Token],
) -> Result<Option<(Binder, &'a [Token])>, Mem>
    ensures { Gives bytes.now (λ v. v) result (bound_time (words_of bytes.now tokens.now)) }
{
    match read_name(alloc, bytes, tokens)? {
        None => Ok(None),
        Some((name, rest)) => Ok(Some((Binder::Time(name), rest))),
    }
}

#[tactic(auto, using(sap_grammar::proofs::ReadingLaws::Tokens::word_steps))]
fn read_binder<'a>(
    alloc: Global,
    bytes: &[u8],
    tokens: &'a [Token],
) -> Result<Option<(Binder, &'a [Token])>, Mem>
    ensures { Gives bytes.now (λ v. v) result (binder (words_of bytes.now tokens.now)) }
{
    if starts(bytes, tokens, "~") {
        read_bound_as(alloc, bytes, Sort::Fresh, beyond(1, tokens))
    } else if starts(bytes, tokens, "$") {
        read_bound_as(alloc, bytes, Sort::Pub, beyond(1, tokens))
    } else if starts(bytes, tokens, "#") {
        read_bound_time(alloc, bytes, beyond(1, tokens))
    } else {
        read_bound_as(alloc, bytes, Sort::Msg, tokens)
    }
}

/// Bound variables, one or more, and the tokens behind their dot.
#[tactic(auto, using(crate::proofs::Lists::binder_turns), unfolding(sap_grammar::specs::Reading::after))]
pub fn read_binders<'a>(
    alloc: Global,
    bytes: &[u8],
    tokens: &'a [Token],
) -> Result<Option<(Binders, &'a [Token])>, Mem>
    ensures { Gives bytes.now (λ vs. vs) result (binders (length tokens.now)
        (words_of bytes.now tokens.now)) }
{
    let mut binders = Binders::new(alloc);
    let mut rest = tokens;
    let mut turns = tokens.len();
    while turns > 0 {
        let Some((binder, next)) = read_binder(alloc, bytes, rest)? else {
            return Ok(None);
        };
        binders.push(binder)?;
        if starts(bytes, next, ".") {
            return Ok(Some((binders, beyond(1, next))));
        }
        rest = next;
        turns -= 1;
    }
    Ok(None)
}
