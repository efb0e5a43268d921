//! What a process does before it goes on.
ghost use Rattle.std.specs.Prelude.{◌≡◌, codes, IfOk};
ghost use Rattle.sap_terms.specs.View.{tree};
ghost use Rattle.sap_grammar.specs.Words.{words_of};
ghost use Rattle.sap_grammar.specs.Reading.{Gives};
ghost use Rattle.sap_draft.specs.code.ProcessReading.{channel, shown_facts, shown_event, second_term, bound_as, bound, right_side, embedded_rule, inserted, on_term, state_action, action_of};
ghost use Rattle.sap_draft.specs.code.ProcessView.{to_adversary, on_channel, on_one};
ghost use Rattle.sap_macro.specs.Sources.{doing};
ghost use Rattle.sap_draft.specs.declared.limits.TheConstants.{FILE_LIMITS};

use crate::limits::FILE_LIMITS;
use sap_grammar::{beyond, name_at, read_facts, read_short_fact, read_short_term, starts};
use sap_macro::Doing;
use sap_terms::{FactList, Mem, Name, Signature, Sort, Term, Var, boxed};
use sap_text::Token;
use std::alloc::Global;

/// Which way a message goes.
#[derive(Clone, Copy)]
enum Direction {
    Out,
    In,
}

/// What is done with one term.
#[derive(Clone, Copy)]
enum Deed {
    Delete,
    Lock,
    Unlock,
}

fn alone(alloc: Global, way: Direction, message: Term) -> Result<Box<Doing>, Mem>
    ensures { IfOk result (λ d. doing d.value ≡ to_adversary way (tree message)) }
{
    match way {
        Direction::Out => boxed(alloc, Doing::Out(message)),
        Direction::In => boxed(alloc, Doing::In(message)),
    }
}

fn on_channel(
    alloc: Global,
    way: Direction,
    channel: Term,
    message: Term,
) -> Result<Box<Doing>, Mem>
    ensures { IfOk result (λ d. doing d.value ≡ on_channel way (tree channel) (tree message)) }
{
    match way {
        Direction::Out => boxed(alloc, Doing::Send(channel, message)),
        Direction::In => boxed(alloc, Doing::Recv(channel, message)),
    }
}

fn on_one(alloc: Global, deed: Deed, term: Term) -> Result<Box<Doing>, Mem>
    ensures { IfOk result (λ d. doing d.value ≡ on_one deed (tree term)) }
{
    match deed {
        Deed::Delete => boxed(alloc, Doing::Delete(term)),
        Deed::Lock => boxed(alloc, Doing::Lock(term)),
        Deed::Unlock => boxed(alloc, Doing::Unlock(term)),
    }
}

#[tactic(auto, using(sap_grammar::proofs::ReadingLaws::Tokens::word_steps), unfolding(sap_grammar::specs::Reading::after, sap_grammar::specs::Reading::past))]
fn read_message<'a>(
    alloc: Global,
    sig: &Signature,
    bytes: &[u8],
    way: Direction,
    channel: Term,
    tokens: &'a [Token],
) -> Result<Option<(Box<Doing>, &'a [Token])>, Mem>
    ensures { Gives bytes.now (λ d. doing d.value) result (second_term sig.now FILE_LIMITS (on_channel way)
        (tree channel) (words_of bytes.now tokens.now)) }
{
    if !starts(bytes, tokens, ",") {
        drop(channel);
        return Ok(None);
    }
    match read_short_term(alloc, sig, FILE_LIMITS, bytes, beyond(1, tokens)) {
        Err(mem) => {
            drop(channel);
            Err(mem)
        }
        Ok(None) => {
            drop(channel);
            Ok(None)
        }
        Ok(Some((message, rest))) => {
            if !starts(bytes, rest, ")") {
                drop(channel);
                drop(message);
                return Ok(None);
            }
            let doing = on_channel(alloc, way, channel, message)?;
            Ok(Some((doing, beyond(1, rest))))
        }
    }
}

#[tactic(auto, using(sap_grammar::proofs::ReadingLaws::Tokens::word_steps), unfolding(sap_grammar::specs::Reading::after, sap_grammar::specs::Reading::past))]
fn read_channel<'a>(
    alloc: Global,
    sig: &Signature,
    bytes: &[u8],
    way: Direction,
    tokens: &'a [Token],
) -> Result<Option<(Box<Doing>, &'a [Token])>, Mem>
    ensures { Gives bytes.now (λ d. doing d.value) result (channel sig.now FILE_LIMITS (to_adversary way)
        (on_channel way) (words_of bytes.now tokens.now)) }
{
    if !starts(bytes, tokens, "(") {
        return Ok(None);
    }
    match read_short_term(alloc, sig, FILE_LIMITS, bytes, beyond(1, tokens))? {
        None => Ok(None),
        Some((term, rest)) => {
            if starts(bytes, rest, ")") {
                let doing = alone(alloc, way, term)?;
                Ok(Some((doing, beyond(1, rest))))
            } else {
                read_message(alloc, sig, bytes, way, term, rest)
            }
        }
    }
}

#[tactic(auto, using(sap_grammar::proofs::ReadingLaws::Tokens::word_steps), unfolding(sap_grammar::specs::Reading::given))]
fn read_bound_as<'a>(
    alloc: Global,
    bytes: &[u8],
    sort: Sort,
    tokens: &'a [Token],
) -> Result<Option<(Box<Doing>, &'a [Token])>, Mem>
    ensures { Gives bytes.now (λ d. doing d.value) result (bound_as sort (words_of bytes.now tokens.now)) }
{
    match name_at(bytes, tokens) {
        None => Ok(None),
        Some(name) => {
            let name = Name::from_bytes(alloc, name)?;
            let doing = boxed(alloc, Doing::New(Var { name, sort }))?;
            Ok(Some((doing, beyond(1, tokens))))
        }
    }
}

#[tactic(auto, using(sap_grammar::proofs::ReadingLaws::Tokens::word_steps))]
fn read_bound<'a>(
    alloc: Global,
    bytes: &[u8],
    tokens: &'a [Token],
) -> Result<Option<(Box<Doing>, &'a [Token])>, Mem>
    ensures { Gives bytes.now (λ d. doing d.value) result (bound (words_of bytes.now tokens.now)) }
{
    if starts(bytes, tokens, "~") {
        read_bound_as(alloc, bytes, Sort::Fresh, beyond(1, tokens))
    } else {
        read_bound_as(alloc, bytes, Sort::Msg, tokens)
    }
}

#[tactic(auto, using(sap_grammar::proofs::ReadingLaws::Tokens::word_steps), unfolding(sap_grammar::specs::Reading::after, sap_grammar::specs::Reading::past))]
fn read_right_side<'a>(
    alloc: Global,
    sig: &Signature,
    bytes: &[u8],
    taken: FactList,
    shown: FactList,
    tokens: &'a [Token],
) -> Result<Option<(Box<Doing>, &'a [Token])>, Mem>
    ensures { Gives bytes.now (λ d. doing d.value) result (right_side sig.now FILE_LIMITS taken shown
        (words_of bytes.now tokens.now)) }
{
    if !starts(bytes, tokens, "[") {
        drop(taken);
        drop(shown);
        return Ok(None);
    }
    match read_facts(alloc, sig, FILE_LIMITS, bytes, true, "]", beyond(1, tokens)) {
        Err(mem) => {
            drop(taken);
            drop(shown);
            Err(mem)
        }
        Ok(None) => {
            drop(taken);
            drop(shown);
            Ok(None)
        }
        Ok(Some((added, rest))) => {
            let doing = boxed(alloc, Doing::Embedded(taken, shown, added))?;
            Ok(Some((doing, rest)))
        }
    }
}

#[tactic(auto, using(sap_grammar::proofs::ReadingLaws::Tokens::word_steps), unfolding(sap_grammar::specs::Reading::after, sap_grammar::specs::Reading::past))]
fn read_shown<'a>(
    alloc: Global,
    sig: &Signature,
    bytes: &[u8],
    taken: FactList,
    tokens: &'a [Token],
) -> Result<Option<(Box<Doing>, &'a [Token])>, Mem>
    ensures { Gives bytes.now (λ d. doing d.value) result (shown_facts sig.now FILE_LIMITS taken
        (words_of bytes.now tokens.now)) }
{
    if !starts(bytes, tokens, "--[") {
        return Ok(None);
    }
    match read_facts(
        alloc,
        sig,
        FILE_LIMITS,
        bytes,
        false,
        "]->",
        beyond(1, tokens),
    )? {
        None => Ok(None),
        Some((shown, rest)) => read_right_side(alloc, sig, bytes, taken, shown, rest),
    }
}

#[tactic(auto, using(sap_grammar::proofs::ReadingLaws::Tokens::word_steps), unfolding(sap_grammar::specs::Reading::after, sap_grammar::specs::Reading::past))]
fn read_rule<'a>(
    alloc: Global,
    sig: &Signature,
    bytes: &[u8],
    tokens: &'a [Token],
) -> Result<Option<(Box<Doing>, &'a [Token])>, Mem>
    ensures { Gives bytes.now (λ d. doing d.value) result (embedded_rule sig.now FILE_LIMITS
        (words_of bytes.now tokens.now)) }
{
    let Some((taken, rest)) = read_facts(alloc, sig, FILE_LIMITS, bytes, true, "]", tokens)? else {
        return Ok(None);
    };
    if starts(bytes, rest, "-->") {
        read_right_side(
            alloc,
            sig,
            bytes,
            taken,
            FactList::new(alloc),
            beyond(1, rest),
        )
    } else {
        read_shown(alloc, sig, bytes, taken, rest)
    }
}

#[tactic(auto, using(sap_grammar::proofs::ReadingLaws::Tokens::word_steps), unfolding(sap_grammar::specs::Reading::after))]
fn read_event<'a>(
    alloc: Global,
    sig: &Signature,
    bytes: &[u8],
    tokens: &'a [Token],
) -> Result<Option<(Box<Doing>, &'a [Token])>, Mem>
    ensures { Gives bytes.now (λ d. doing d.value) result (shown_event sig.now FILE_LIMITS
        (words_of bytes.now tokens.now)) }
{
    match read_short_fact(alloc, sig, FILE_LIMITS, bytes, false, tokens)? {
        None => Ok(None),
        Some((fact, rest)) => {
            let doing = boxed(alloc, Doing::Event(fact))?;
            Ok(Some((doing, rest)))
        }
    }
}

#[tactic(auto, using(sap_grammar::proofs::ReadingLaws::Tokens::word_steps), unfolding(sap_grammar::specs::Reading::after, sap_grammar::specs::Reading::past))]
fn read_insert<'a>(
    alloc: Global,
    sig: &Signature,
    bytes: &[u8],
    tokens: &'a [Token],
) -> Result<Option<(Box<Doing>, &'a [Token])>, Mem>
    ensures { Gives bytes.now (λ d. doing d.value) result (inserted sig.now FILE_LIMITS
        (words_of bytes.now tokens.now)) }
{
    match read_short_term(alloc, sig, FILE_LIMITS, bytes, tokens)? {
        None => Ok(None),
        Some((key, rest)) => {
            if !starts(bytes, rest, ",") {
                drop(key);
                return Ok(None);
            }
            match read_short_term(alloc, sig, FILE_LIMITS, bytes, beyond(1, rest)) {
                Err(mem) => {
                    drop(key);
                    Err(mem)
                }
                Ok(None) => {
                    drop(key);
                    Ok(None)
                }
                Ok(Some((value, rest))) => {
                    let doing = boxed(alloc, Doing::Insert(key, value))?;
                    Ok(Some((doing, rest)))
                }
            }
        }
    }
}

#[tactic(auto, using(sap_grammar::proofs::ReadingLaws::Tokens::word_steps), unfolding(sap_grammar::specs::Reading::after))]
fn read_deed<'a>(
    alloc: Global,
    sig: &Signature,
    bytes: &[u8],
    deed: Deed,
    tokens: &'a [Token],
) -> Result<Option<(Box<Doing>, &'a [Token])>, Mem>
    ensures { Gives bytes.now (λ d. doing d.value) result (on_term sig.now FILE_LIMITS (on_one deed)
        (words_of bytes.now tokens.now)) }
{
    match read_short_term(alloc, sig, FILE_LIMITS, bytes, tokens)? {
        None => Ok(None),
        Some((term, rest)) => {
            let doing = on_one(alloc, deed, term)?;
            Ok(Some((doing, rest)))
        }
    }
}

#[tactic(auto, using(sap_grammar::proofs::ReadingLaws::Tokens::word_steps), unfolding(sap_grammar::specs::Reading::past))]
fn read_state_action<'a>(
    alloc: Global,
    sig: &Signature,
    bytes: &[u8],
    tokens: &'a [Token],
) -> Result<Option<(Box<Doing>, &'a [Token])>, Mem>
    ensures { Gives bytes.now (λ d. doing d.value) result (state_action sig.now FILE_LIMITS
        (words_of bytes.now tokens.now)) }
{
    let next = beyond(1, tokens);
    if starts(bytes, tokens, "insert") {
        read_insert(alloc, sig, bytes, next)
    } else if starts(bytes, tokens, "delete") {
        read_deed(alloc, sig, bytes, Deed::Delete, next)
    } else if starts(bytes, tokens, "lock") {
        read_deed(alloc, sig, bytes, Deed::Lock, next)
    } else if starts(bytes, tokens, "unlock") {
        read_deed(alloc, sig, bytes, Deed::Unlock, next)
    } else if starts(bytes, tokens, "[") {
        read_rule(alloc, sig, bytes, next)
    } else {
        Ok(None)
    }
}

/// What the tokens begin with that a process does before it goes on, and the tokens behind it.
#[tactic(auto, using(sap_grammar::proofs::ReadingLaws::Tokens::word_steps))]
pub fn read_action<'a>(
    alloc: Global,
    sig: &Signature,
    bytes: &[u8],
    tokens: &'a [Token],
) -> Result<Option<(Box<Doing>, &'a [Token])>, Mem>
    ensures { Gives bytes.now (λ d. doing d.value) result (action_of sig.now FILE_LIMITS
        (words_of bytes.now tokens.now)) }
{
    let next = beyond(1, tokens);
    if starts(bytes, tokens, "new") {
        read_bound(alloc, bytes, next)
    } else if starts(bytes, tokens, "out") {
        read_channel(alloc, sig, bytes, Direction::Out, next)
    } else if starts(bytes, tokens, "in") {
        read_channel(alloc, sig, bytes, Direction::In, next)
    } else if starts(bytes, tokens, "event") {
        read_event(alloc, sig, bytes, next)
    } else {
        read_state_action(alloc, sig, bytes, tokens)
    }
}
