//! Formulas, read from their tokens.
ghost use Rattle.std.specs.Prelude.{◌≡◌, ◌≤◌, ◌<◌, ◌+◌, ◌^◌, length, IfOk, IfSome};
ghost use Rattle.sap_formula.specs.Form.{negation};
ghost use Rattle.sap_grammar.specs.Words.{starts, words_of};
ghost use Rattle.sap_grammar.specs.Reading.{Gives};
ghost use Rattle.sap_formula_grammar.specs.FormulaReading.{alone, atom, bodied, chain, enclosed, formula, imp, last, quantified, second, turns, un};
ghost use Rattle.sap_formula_grammar.specs.code.FormulaView.{bound, levelled, made, operand, sign_of};

use crate::formula::atom::read_atom;
use crate::formula::binders::read_binders;
use crate::formula::build::{Connective, Measured, Quantifier, join, quantified};
use sap_formula::Formula;
use sap_grammar::{Limits, beyond, starts};
use sap_levels::fits;
use sap_terms::{Mem, Signature, boxed};
use sap_text::Token;
use std::alloc::Global;

// Whether the connective's sign stands first.
fn goes_on(bytes: &[u8], connective: Connective, tokens: &[Token]) -> bool
    ensures { result ≡ starts (sign_of connective) (words_of bytes.now tokens.now) }
{
    match connective {
        Connective::And => starts(bytes, tokens, "&"),
        Connective::Or => starts(bytes, tokens, "|"),
        Connective::Imp => starts(bytes, tokens, "==>"),
        Connective::Iff => starts(bytes, tokens, "<=>"),
    }
}

#[tactic(auto, using(sap_grammar::proofs::ReadingLaws::Tokens::word_steps), unfolding(sap_grammar::specs::Reading::after))]
fn read_alone<'a>(
    alloc: Global,
    sig: &Signature,
    limits: Limits,
    bytes: &[u8],
    tokens: &'a [Token],
) -> Result<Option<(Measured, &'a [Token])>, Mem>
    ensures gives { Gives bytes.now levelled result (alone (atom sig.now limits)
        (words_of bytes.now tokens.now)) }
    ensures within { IfOk result (λ o. IfSome o (λ r. r.0.levels ≡ 1)) }
{
    match read_atom(alloc, sig, limits, bytes, tokens)? {
        None => Ok(None),
        Some((formula, rest)) => Ok(Some((Measured { formula, levels: 1 }, rest))),
    }
}

#[cycle(read)]
#[tactic(auto, using(sap_grammar::proofs::ReadingLaws::Tokens::word_steps), unfolding(sap_grammar::specs::Reading::after))]
fn read_negation<'a>(
    alloc: Global,
    sig: &Signature,
    limits: Limits,
    bytes: &[u8],
    depth: u64,
    tokens: &'a [Token],
) -> Result<Option<(Measured, &'a [Token])>, Mem>
    requires { depth < 2 ^ 40 }
    ensures gives { Gives bytes.now levelled result (bodied (un sig.now limits depth) negation
        (words_of bytes.now tokens.now)) }
    ensures within { IfOk result (λ o. IfSome o (λ r. (1 ≤ r.0.levels)
        × (r.0.levels ≤ depth + 1))) }
{
    match read_un(alloc, sig, limits, bytes, depth, tokens)? {
        None => Ok(None),
        Some((Measured { formula, levels }, rest)) => {
            let formula = boxed(alloc, Formula::Not(formula))?;
            Ok(Some((
                Measured {
                    formula,
                    levels: levels + 1,
                },
                rest,
            )))
        }
    }
}

#[cycle(read)]
#[tactic(auto, using(sap_grammar::proofs::ReadingLaws::Tokens::word_steps), unfolding(sap_grammar::specs::Reading::after))]
fn read_quantified<'a>(
    alloc: Global,
    sig: &Signature,
    limits: Limits,
    bytes: &[u8],
    depth: u64,
    quantifier: Quantifier,
    tokens: &'a [Token],
) -> Result<Option<(Measured, &'a [Token])>, Mem>
    requires { depth < 2 ^ 40 }
    ensures gives { Gives bytes.now levelled result (quantified (formula sig.now limits depth)
        (bound quantifier) (words_of bytes.now tokens.now)) }
    ensures within { IfOk result (λ o. IfSome o (λ r. (1 ≤ r.0.levels)
        × (r.0.levels ≤ depth + 1))) }
{
    match read_binders(alloc, bytes, tokens)? {
        None => Ok(None),
        Some((binders, body)) => {
            let Some((body, rest)) = read_iff(alloc, sig, limits, bytes, depth, body)? else {
                return Ok(None);
            };
            let formula = quantified(alloc, quantifier, binders, body.formula)?;
            let levels = body.levels + 1;
            Ok(Some((Measured { formula, levels }, rest)))
        }
    }
}

#[cycle(read)]
#[tactic(auto, using(sap_grammar::proofs::ReadingLaws::Tokens::word_steps), unfolding(sap_grammar::specs::Reading::after, sap_grammar::specs::Reading::past))]
fn read_enclosed<'a>(
    alloc: Global,
    sig: &Signature,
    limits: Limits,
    bytes: &[u8],
    depth: u64,
    tokens: &'a [Token],
) -> Result<Option<(Measured, &'a [Token])>, Mem>
    requires { depth < 2 ^ 40 }
    ensures gives { Gives bytes.now levelled result (enclosed (formula sig.now limits depth)
        (words_of bytes.now tokens.now)) }
    ensures within { IfOk result (λ o. IfSome o (λ r. (1 ≤ r.0.levels)
        × (r.0.levels ≤ depth + 1))) }
{
    match read_iff(alloc, sig, limits, bytes, depth, tokens)? {
        None => Ok(None),
        Some((Measured { formula, levels }, rest)) => {
            if starts(bytes, rest, ")") {
                Ok(Some((
                    Measured {
                        formula,
                        levels: levels + 1,
                    },
                    beyond(1, rest),
                )))
            } else {
                Ok(None)
            }
        }
    }
}

// A formula that no connective joins, of at most so many levels.
#[cycle(read)]
fn read_un<'a>(
    alloc: Global,
    sig: &Signature,
    limits: Limits,
    bytes: &[u8],
    depth: u64,
    tokens: &'a [Token],
) -> Result<Option<(Measured, &'a [Token])>, Mem>
    requires { depth < 2 ^ 40 }
    ensures gives { Gives bytes.now levelled result (un sig.now limits depth
        (words_of bytes.now tokens.now)) }
    ensures within { IfOk result (λ o. IfSome o (λ r. (1 ≤ r.0.levels) × (r.0.levels ≤ depth))) }
{
    if depth == 0 {
        return Ok(None);
    }
    let next = beyond(1, tokens);
    if starts(bytes, tokens, "not") {
        read_negation(alloc, sig, limits, bytes, depth - 1, next)
    } else if starts(bytes, tokens, "All") {
        read_quantified(
            alloc,
            sig,
            limits,
            bytes,
            depth - 1,
            Quantifier::Every,
            next,
        )
    } else if starts(bytes, tokens, "Ex") {
        read_quantified(
            alloc,
            sig,
            limits,
            bytes,
            depth - 1,
            Quantifier::Exists,
            next,
        )
    } else if starts(bytes, tokens, "(") {
        read_enclosed(alloc, sig, limits, bytes, depth - 1, next)
    } else {
        read_alone(alloc, sig, limits, bytes, tokens)
    }
}

// What stands behind the sign of a connective.
#[cycle(read)]
#[tactic(auto, using(sap_grammar::proofs::ReadingLaws::Tokens::word_steps))]
fn read_operand<'a>(
    alloc: Global,
    sig: &Signature,
    limits: Limits,
    bytes: &[u8],
    depth: u64,
    connective: Connective,
    tokens: &'a [Token],
) -> Result<Option<(Measured, &'a [Token])>, Mem>
    requires deep { depth < 2 ^ 40 }
    requires some { 0 < depth }
    ensures gives { Gives bytes.now levelled result (operand sig.now limits depth connective
        (words_of bytes.now tokens.now)) }
    ensures within { IfOk result (λ o. IfSome o (λ r. (1 ≤ r.0.levels) × (r.0.levels ≤ depth))) }
{
    match connective {
        Connective::And => read_un(alloc, sig, limits, bytes, depth, tokens),
        Connective::Or => read_chain(alloc, sig, limits, bytes, depth, Connective::And, tokens),
        Connective::Imp => read_imp(alloc, sig, limits, bytes, depth - 1, tokens),
        Connective::Iff => read_imp(alloc, sig, limits, bytes, depth, tokens),
    }
}

// Behind the sign: the other side, and both.
#[cycle(read)]
#[tactic(auto, using(sap_grammar::proofs::ReadingLaws::Limits::limits), unfolding(sap_grammar::specs::Reading::after))]
fn read_second<'a>(
    alloc: Global,
    sig: &Signature,
    limits: Limits,
    bytes: &[u8],
    depth: u64,
    connective: Connective,
    left: Measured,
    tokens: &'a [Token],
) -> Result<Option<(Measured, &'a [Token])>, Mem>
    requires deep { depth < 2 ^ 40 }
    requires some { 0 < depth }
    requires within { left.levels ≤ depth }
    ensures gives { Gives bytes.now levelled result (second
        (operand sig.now limits depth connective) depth (made connective) (levelled left)
        (words_of bytes.now tokens.now)) }
    ensures within { IfOk result (λ o. IfSome o (λ r. (1 ≤ r.0.levels) × (r.0.levels ≤ depth))) }
{
    match read_operand(alloc, sig, limits, bytes, depth, connective, tokens)? {
        None => Ok(None),
        Some((right, rest)) => {
            if fits(left.levels, right.levels, depth) {
                let both = join(alloc, connective, left, right)?;
                Ok(Some((both, rest)))
            } else {
                Ok(None)
            }
        }
    }
}

// Goes on while the sign stands; most bounds the turns.
#[cycle(read)]
fn read_turns<'a>(
    alloc: Global,
    sig: &Signature,
    limits: Limits,
    bytes: &[u8],
    depth: u64,
    connective: Connective,
    first: Measured,
    most: usize,
    tokens: &'a [Token],
) -> Result<Option<(Measured, &'a [Token])>, Mem>
    requires deep { depth < 2 ^ 40 }
    requires some { 0 < depth }
    requires within { (1 ≤ first.levels) × (first.levels ≤ depth) }
    ensures gives { Gives bytes.now levelled result (turns
        (operand sig.now limits depth connective) depth (made connective) (sign_of connective)
        most (levelled first) (words_of bytes.now tokens.now)) }
    ensures within { IfOk result (λ o. IfSome o (λ r. (1 ≤ r.0.levels) × (r.0.levels ≤ depth))) }
{
    let mut left = first;
    let mut rest = tokens;
    let mut turns = most;
    while turns > 0 && goes_on(bytes, connective, rest) {
        match read_second(
            alloc,
            sig,
            limits,
            bytes,
            depth,
            connective,
            left,
            beyond(1, rest),
        )? {
            None => return Ok(None),
            Some((both, next)) => {
                left = both;
                rest = next;
                turns -= 1;
            }
        }
    }
    if goes_on(bytes, connective, rest) {
        Ok(None)
    } else {
        Ok(Some((left, rest)))
    }
}

// Parts that the connective joins from the left.
#[cycle(read)]
#[tactic(auto, using(sap_grammar::proofs::ReadingLaws::Tokens::word_steps), unfolding(sap_grammar::specs::Reading::after))]
fn read_chain<'a>(
    alloc: Global,
    sig: &Signature,
    limits: Limits,
    bytes: &[u8],
    depth: u64,
    connective: Connective,
    tokens: &'a [Token],
) -> Result<Option<(Measured, &'a [Token])>, Mem>
    requires deep { depth < 2 ^ 40 }
    requires some { 0 < depth }
    ensures gives { Gives bytes.now levelled result (chain
        (operand sig.now limits depth connective) depth (made connective) (sign_of connective)
        (words_of bytes.now tokens.now)) }
    ensures within { IfOk result (λ o. IfSome o (λ r. (1 ≤ r.0.levels) × (r.0.levels ≤ depth))) }
{
    match read_operand(alloc, sig, limits, bytes, depth, connective, tokens)? {
        None => Ok(None),
        Some((first, rest)) => {
            let most = tokens.len();
            read_turns(
                alloc, sig, limits, bytes, depth, connective, first, most, rest,
            )
        }
    }
}

// A formula without `<=>` outside its parts, of at most so many levels.
#[cycle(read)]
fn read_imp<'a>(
    alloc: Global,
    sig: &Signature,
    limits: Limits,
    bytes: &[u8],
    depth: u64,
    tokens: &'a [Token],
) -> Result<Option<(Measured, &'a [Token])>, Mem>
    requires { depth < 2 ^ 40 }
    ensures gives { Gives bytes.now levelled result (imp sig.now limits depth
        (words_of bytes.now tokens.now)) }
    ensures within { IfOk result (λ o. IfSome o (λ r. (1 ≤ r.0.levels) × (r.0.levels ≤ depth))) }
{
    if depth == 0 {
        return Ok(None);
    }
    let connective = Connective::Imp;
    match read_chain(alloc, sig, limits, bytes, depth, Connective::Or, tokens)? {
        None => Ok(None),
        Some((left, rest)) => {
            if goes_on(bytes, connective, rest) {
                read_second(
                    alloc,
                    sig,
                    limits,
                    bytes,
                    depth,
                    connective,
                    left,
                    beyond(1, rest),
                )
            } else {
                Ok(Some((left, rest)))
            }
        }
    }
}

// Behind `<=>`: the other side and no `<=>` behind it.
#[cycle(read)]
#[tactic(auto, using(sap_grammar::proofs::ReadingLaws::Tokens::word_steps), unfolding(sap_grammar::specs::Reading::after))]
fn read_last<'a>(
    alloc: Global,
    sig: &Signature,
    limits: Limits,
    bytes: &[u8],
    depth: u64,
    left: Measured,
    tokens: &'a [Token],
) -> Result<Option<(Measured, &'a [Token])>, Mem>
    requires deep { depth < 2 ^ 40 }
    requires some { 0 < depth }
    requires within { left.levels ≤ depth }
    ensures gives { Gives bytes.now levelled result (last (imp sig.now limits depth) depth
        (levelled left) (words_of bytes.now tokens.now)) }
    ensures within { IfOk result (λ o. IfSome o (λ r. (1 ≤ r.0.levels) × (r.0.levels ≤ depth))) }
{
    let sign = Connective::Iff;
    match read_second(alloc, sig, limits, bytes, depth, sign, left, tokens)? {
        None => Ok(None),
        Some((both, rest)) => {
            if goes_on(bytes, sign, rest) {
                Ok(None)
            } else {
                Ok(Some((both, rest)))
            }
        }
    }
}

/// A formula of at most so many levels, their number, and the tokens behind it.
#[cycle(read)]
#[tactic(auto, using(sap_grammar::proofs::ReadingLaws::Tokens::word_steps), unfolding(sap_grammar::specs::Reading::after))]
pub fn read_iff<'a>(
    alloc: Global,
    sig: &Signature,
    limits: Limits,
    bytes: &[u8],
    depth: u64,
    tokens: &'a [Token],
) -> Result<Option<(Measured, &'a [Token])>, Mem>
    requires { depth < 2 ^ 40 }
    ensures gives { Gives bytes.now levelled result (formula sig.now limits depth
        (words_of bytes.now tokens.now)) }
    ensures within { IfOk result (λ o. IfSome o (λ r. (1 ≤ r.0.levels) × (r.0.levels ≤ depth))) }
{
    match read_imp(alloc, sig, limits, bytes, depth, tokens)? {
        None => Ok(None),
        Some((left, rest)) => {
            if goes_on(bytes, Connective::Iff, rest) {
                read_last(alloc, sig, limits, bytes, depth, left, beyond(1, rest))
            } else {
                Ok(Some((left, rest)))
            }
        }
    }
}
