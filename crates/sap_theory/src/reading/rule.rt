//! Reads rules.
ghost use Rattle.std.specs.Prelude.{◌≡◌, IfOk, IfSome, IfNone};
ghost use Rattle.sap_terms.specs.Signature.{Sig};
ghost use Rattle.sap_rule.specs.declared.rule.Rule.{Rule};
ghost use Rattle.sap_grammar.specs.Words.{words_of};
ghost use Rattle.sap_grammar.specs.Reading.{Gives};
ghost use Rattle.sap_theory.specs.TheoryGrammar.{rule, IsWrittenItem};
ghost use Rattle.sap_theory.specs.code.RuleReading.{right_side, shown_facts, left_side, a_rule};

use sap_grammar::{Limits, beyond, name_at, read_facts, starts, term_laws};
use sap_rule::Rule;
use sap_terms::{FactList, Mem, Name, Signature, boxed};
use sap_text::Token;
use std::alloc::Global;

fn made(
    alloc: Global,
    name: &[u8],
    left: FactList,
    acts: FactList,
    right: FactList,
) -> Result<Box<Rule>, Mem>
    ensures { IfOk result (λ r. r.value ≡ record { name = name.now; left = left; acts = acts; right = right }) }
{
    let name = Name::from_bytes(alloc, name)?;
    boxed(
        alloc,
        Rule {
            name,
            left,
            acts,
            right,
        },
    )
}

#[tactic(auto, using(crate::proofs::Steps::steps), unfolding(sap_grammar::specs::Reading::after, sap_grammar::specs::Reading::past))]
fn read_right_side<'a>(
    alloc: Global,
    sig: &Signature,
    limits: Limits,
    bytes: &[u8],
    name: &[u8],
    left: FactList,
    acts: FactList,
    tokens: &'a [Token],
) -> Result<Option<(Box<Rule>, &'a [Token])>, Mem>
    ensures { Gives bytes.now (λ r. r.value) result (right_side sig.now limits name.now left acts
        (words_of bytes.now tokens.now)) }
{
    if !starts(bytes, tokens, "[") {
        return Ok(None);
    }
    match read_facts(alloc, sig, limits, bytes, true, "]", beyond(1, tokens))? {
        None => Ok(None),
        Some((right, rest)) => {
            let rule = made(alloc, name, left, acts, right)?;
            Ok(Some((rule, rest)))
        }
    }
}

#[tactic(auto, using(crate::proofs::Steps::steps), unfolding(sap_grammar::specs::Reading::after, sap_grammar::specs::Reading::past))]
fn read_shown<'a>(
    alloc: Global,
    sig: &Signature,
    limits: Limits,
    bytes: &[u8],
    name: &[u8],
    left: FactList,
    tokens: &'a [Token],
) -> Result<Option<(Box<Rule>, &'a [Token])>, Mem>
    ensures { Gives bytes.now (λ r. r.value) result (shown_facts sig.now limits name.now left
        (words_of bytes.now tokens.now)) }
{
    if !starts(bytes, tokens, "--[") {
        return Ok(None);
    }
    match read_facts(alloc, sig, limits, bytes, true, "]->", beyond(1, tokens))? {
        None => Ok(None),
        Some((acts, rest)) => read_right_side(alloc, sig, limits, bytes, name, left, acts, rest),
    }
}

#[tactic(auto, using(crate::proofs::Steps::steps), unfolding(sap_grammar::specs::Reading::after))]
fn read_left_side<'a>(
    alloc: Global,
    sig: &Signature,
    limits: Limits,
    bytes: &[u8],
    name: &[u8],
    tokens: &'a [Token],
) -> Result<Option<(Box<Rule>, &'a [Token])>, Mem>
    ensures { Gives bytes.now (λ r. r.value) result (left_side sig.now limits name.now
        (words_of bytes.now tokens.now)) }
{
    match read_facts(alloc, sig, limits, bytes, true, "]", tokens)? {
        None => Ok(None),
        Some((left, rest)) => {
            if starts(bytes, rest, "-->") {
                let acts = FactList::new(alloc);
                let next = beyond(1, rest);
                read_right_side(alloc, sig, limits, bytes, name, left, acts, next)
            } else {
                read_shown(alloc, sig, limits, bytes, name, left, rest)
            }
        }
    }
}

// A rule, and the tokens behind it.
#[tactic(auto, using(crate::proofs::Steps::steps), unfolding(sap_grammar::specs::Reading::given, sap_grammar::specs::Reading::past))]
fn read_any<'a>(
    alloc: Global,
    sig: &Signature,
    limits: Limits,
    bytes: &[u8],
    tokens: &'a [Token],
) -> Result<Option<(Box<Rule>, &'a [Token])>, Mem>
    ensures { Gives bytes.now (λ r. r.value) result (a_rule sig.now limits
        (words_of bytes.now tokens.now)) }
{
    if !starts(bytes, tokens, "rule") {
        return Ok(None);
    }
    let rest = beyond(1, tokens);
    let colon = beyond(1, rest);
    let bracket = beyond(1, colon);
    match name_at(bytes, rest) {
        None => Ok(None),
        Some(name) => {
            if starts(bytes, colon, ":") && starts(bytes, bracket, "[") {
                read_left_side(alloc, sig, limits, bytes, name, beyond(1, bracket))
            } else {
                Ok(None)
            }
        }
    }
}

/// The rule that the tokens spell, all of them, with terms within the limits; `!` may stand before each of its facts. None where
/// they spell none, under any signature. The work is linear in the tokens.
pub(crate) fn read_rule(
    alloc: Global,
    sig: &Signature,
    limits: Limits,
    bytes: &[u8],
    item: &[Token],
) -> Result<Option<Box<Rule>>, Mem>
    ensures found { IfOk result (λ o. IfSome o (λ r. IsWrittenItem sig.now limits (rule r.value)
        (words_of bytes.now item.now))) }
    ensures none { IfOk result (λ o. IfNone o ((h : Sig) (r : Rule)
        → IsWrittenItem h limits (rule r) (words_of bytes.now item.now) → ⊥)) }
{
    term_laws();
    match read_any(alloc, sig, limits, bytes, item)? {
        None => Ok(None),
        Some((rule, rest)) => {
            if rest.is_empty() {
                Ok(Some(rule))
            } else {
                Ok(None)
            }
        }
    }
}
