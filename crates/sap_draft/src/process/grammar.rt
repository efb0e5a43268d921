//! Processes, read from their tokens.
ghost use Rattle.std.specs.Prelude.{◌≡◌, ◌≤◌, ◌<◌, ◌+◌, ◌^◌, IfOk, IfSome};
ghost use Rattle.sap_grammar.specs.Words.{words_of};
ghost use Rattle.sap_grammar.specs.Reading.{Gives, name_at};
ghost use Rattle.sap_draft.specs.code.ProcessReading.{second_branch, branches, condition, looking, going_on, call_or_action, enclosed, repeated, beside, starts_bar, seq, par};
ghost use Rattle.sap_draft.specs.code.ProcessView.{chosen, levelled};
ghost use Rattle.sap_macro.specs.Sources.{doing, located};
ghost use Rattle.sap_draft.specs.declared.limits.TheConstants.{FILE_LIMITS};

use crate::process::actions::read_action;
use crate::process::build::{Branching, Measured, acting_last, choosing, choosing_one};
use crate::process::choice::{read_compared, read_looked_up};
use crate::process::uses::read_use;
use sap_grammar::{beyond, name_at, starts, starts_zero};
use sap_macro::{Doing, Source};
use sap_terms::{Mem, Signature, boxed};
use sap_text::Token;
use std::alloc::Global;

fn starts_bar(bytes: &[u8], tokens: &[Token]) -> bool
    ensures { result ≡ starts_bar (words_of bytes.now tokens.now) }
{
    starts(bytes, tokens, "|") || starts(bytes, tokens, "||")
}

#[cycle(read)]
#[tactic(auto, using(crate::proofs::ProcessSteps::tokens), unfolding(sap_grammar::specs::Reading::after))]
fn read_second_branch<'a>(
    alloc: Global,
    sig: &Signature,
    bytes: &[u8],
    depth: u32,
    at: usize,
    choice: Box<Branching>,
    yes: Box<Source>,
    levels: u32,
    tokens: &'a [Token],
) -> Result<Option<(Measured, &'a [Token])>, Mem>
    requires deep { depth < 2 ^ 30 }
    requires within { levels ≤ depth }
    ensures gives { Gives bytes.now levelled result (second_branch
        (seq sig.now FILE_LIMITS depth) at (chosen choice.value) (located yes.value, levels)
        (words_of bytes.now tokens.now)) }
    ensures within { IfOk result (λ o. IfSome o (λ r. (1 ≤ r.0.levels)
        × (r.0.levels ≤ depth + 1))) }
{
    match read_seq(alloc, sig, bytes, depth, tokens)? {
        None => Ok(None),
        Some(
            (
                Measured {
                    source: no,
                    levels: more,
                },
                rest,
            ),
        ) => {
            let process = choosing(alloc, at, choice, yes, no)?;
            Ok(Some((
                Measured {
                    source: process,
                    levels: levels.max(more) + 1,
                },
                rest,
            )))
        }
    }
}

#[cycle(read)]
#[tactic(auto, using(crate::proofs::ProcessSteps::tokens), unfolding(sap_grammar::specs::Reading::after))]
fn read_branches<'a>(
    alloc: Global,
    sig: &Signature,
    bytes: &[u8],
    depth: u32,
    at: usize,
    choice: Box<Branching>,
    tokens: &'a [Token],
) -> Result<Option<(Measured, &'a [Token])>, Mem>
    requires { depth < 2 ^ 30 }
    ensures gives { Gives bytes.now levelled result (branches (seq sig.now FILE_LIMITS depth) at
        (chosen choice.value) (words_of bytes.now tokens.now)) }
    ensures within { IfOk result (λ o. IfSome o (λ r. (1 ≤ r.0.levels)
        × (r.0.levels ≤ depth + 1))) }
{
    match read_seq(alloc, sig, bytes, depth, tokens)? {
        None => Ok(None),
        Some(
            (
                Measured {
                    source: yes,
                    levels,
                },
                rest,
            ),
        ) => {
            if starts(bytes, rest, "else") {
                let rest = beyond(1, rest);
                read_second_branch(alloc, sig, bytes, depth, at, choice, yes, levels, rest)
            } else {
                let process = choosing_one(alloc, at, choice, yes)?;
                Ok(Some((
                    Measured {
                        source: process,
                        levels: levels.max(1) + 1,
                    },
                    rest,
                )))
            }
        }
    }
}

#[cycle(read)]
#[tactic(auto, using(crate::proofs::ProcessSteps::tokens), unfolding(sap_grammar::specs::Reading::after))]
fn read_condition<'a>(
    alloc: Global,
    sig: &Signature,
    bytes: &[u8],
    depth: u32,
    at: usize,
    tokens: &'a [Token],
) -> Result<Option<(Measured, &'a [Token])>, Mem>
    requires { depth < 2 ^ 30 }
    ensures gives { Gives bytes.now levelled result (condition sig.now FILE_LIMITS
        (seq sig.now FILE_LIMITS depth) at (words_of bytes.now tokens.now)) }
    ensures within { IfOk result (λ o. IfSome o (λ r. (1 ≤ r.0.levels)
        × (r.0.levels ≤ depth + 1))) }
{
    match read_compared(alloc, sig, bytes, tokens)? {
        None => Ok(None),
        Some((choice, rest)) => read_branches(alloc, sig, bytes, depth, at, choice, rest),
    }
}

#[cycle(read)]
#[tactic(auto, using(crate::proofs::ProcessSteps::tokens), unfolding(sap_grammar::specs::Reading::after))]
fn read_lookup<'a>(
    alloc: Global,
    sig: &Signature,
    bytes: &[u8],
    depth: u32,
    at: usize,
    tokens: &'a [Token],
) -> Result<Option<(Measured, &'a [Token])>, Mem>
    requires { depth < 2 ^ 30 }
    ensures gives { Gives bytes.now levelled result (looking sig.now FILE_LIMITS
        (seq sig.now FILE_LIMITS depth) at (words_of bytes.now tokens.now)) }
    ensures within { IfOk result (λ o. IfSome o (λ r. (1 ≤ r.0.levels)
        × (r.0.levels ≤ depth + 1))) }
{
    match read_looked_up(alloc, sig, bytes, tokens)? {
        None => Ok(None),
        Some((choice, rest)) => read_branches(alloc, sig, bytes, depth, at, choice, rest),
    }
}

#[cycle(read)]
#[tactic(auto, using(crate::proofs::ProcessSteps::limits), unfolding(sap_grammar::specs::Reading::after))]
fn read_on<'a>(
    alloc: Global,
    sig: &Signature,
    bytes: &[u8],
    depth: u32,
    at: usize,
    first: Box<Doing>,
    tokens: &'a [Token],
) -> Result<Option<(Measured, &'a [Token])>, Mem>
    requires { depth < 2 ^ 30 }
    ensures gives { Gives bytes.now levelled result (going_on
        (seq sig.now FILE_LIMITS depth) depth at (doing first.value)
        (words_of bytes.now tokens.now)) }
    ensures within { IfOk result (λ o. IfSome o (λ r. (1 ≤ r.0.levels)
        × (r.0.levels ≤ depth + 1))) }
{
    if starts(bytes, tokens, ";") {
        match read_seq(alloc, sig, bytes, depth, beyond(1, tokens))? {
            None => Ok(None),
            Some(
                (
                    Measured {
                        source: then,
                        levels,
                    },
                    rest,
                ),
            ) => {
                let process = boxed(alloc, Source::Act(at, first, then))?;
                Ok(Some((
                    Measured {
                        source: process,
                        levels: levels + 1,
                    },
                    rest,
                )))
            }
        }
    } else if 1 <= depth {
        let process = acting_last(alloc, at, first)?;
        Ok(Some((
            Measured {
                source: process,
                levels: 2,
            },
            tokens,
        )))
    } else {
        Ok(None)
    }
}

#[cycle(read)]
#[tactic(auto, using(crate::proofs::ProcessSteps::tokens), unfolding(sap_grammar::specs::Reading::after))]
fn read_call_or_action<'a>(
    alloc: Global,
    sig: &Signature,
    bytes: &[u8],
    depth: u32,
    tokens: &'a [Token],
) -> Result<Option<(Measured, &'a [Token])>, Mem>
    requires { depth < 2 ^ 30 }
    ensures gives { Gives bytes.now levelled result (call_or_action sig.now FILE_LIMITS
        (seq sig.now FILE_LIMITS depth) depth (name_at (words_of bytes.now tokens.now))
        (words_of bytes.now tokens.now)) }
    ensures within { IfOk result (λ o. IfSome o (λ r. (1 ≤ r.0.levels)
        × (r.0.levels ≤ depth + 1))) }
{
    if let Some(name) = name_at(bytes, tokens) {
        return read_use(alloc, sig, bytes, tokens.len(), name, beyond(1, tokens));
    }
    match read_action(alloc, sig, bytes, tokens)? {
        None => Ok(None),
        Some((first, rest)) => read_on(alloc, sig, bytes, depth, tokens.len(), first, rest),
    }
}

#[cycle(read)]
#[tactic(auto, using(crate::proofs::ProcessSteps::tokens), unfolding(sap_grammar::specs::Reading::after, sap_grammar::specs::Reading::past))]
fn read_enclosed<'a>(
    alloc: Global,
    sig: &Signature,
    bytes: &[u8],
    depth: u32,
    tokens: &'a [Token],
) -> Result<Option<(Measured, &'a [Token])>, Mem>
    requires { depth < 2 ^ 30 }
    ensures gives { Gives bytes.now levelled result (enclosed (par sig.now FILE_LIMITS depth)
        (words_of bytes.now tokens.now)) }
    ensures within { IfOk result (λ o. IfSome o (λ r. (1 ≤ r.0.levels)
        × (r.0.levels ≤ depth + 1))) }
{
    match read_par(alloc, sig, bytes, depth, tokens)? {
        None => Ok(None),
        Some(
            (
                Measured {
                    source: process,
                    levels,
                },
                rest,
            ),
        ) => {
            if starts(bytes, rest, ")") {
                Ok(Some((
                    Measured {
                        source: process,
                        levels: levels + 1,
                    },
                    beyond(1, rest),
                )))
            } else {
                Ok(None)
            }
        }
    }
}

#[cycle(read)]
#[tactic(auto, using(crate::proofs::ProcessSteps::tokens), unfolding(sap_grammar::specs::Reading::after))]
fn read_replicated<'a>(
    alloc: Global,
    sig: &Signature,
    bytes: &[u8],
    depth: u32,
    at: usize,
    tokens: &'a [Token],
) -> Result<Option<(Measured, &'a [Token])>, Mem>
    requires { depth < 2 ^ 30 }
    ensures gives { Gives bytes.now levelled result (repeated (seq sig.now FILE_LIMITS depth) at
        (words_of bytes.now tokens.now)) }
    ensures within { IfOk result (λ o. IfSome o (λ r. (1 ≤ r.0.levels)
        × (r.0.levels ≤ depth + 1))) }
{
    match read_seq(alloc, sig, bytes, depth, tokens)? {
        None => Ok(None),
        Some(
            (
                Measured {
                    source: copy,
                    levels,
                },
                rest,
            ),
        ) => {
            let process = boxed(alloc, Source::Rep(at, copy))?;
            Ok(Some((
                Measured {
                    source: process,
                    levels: levels + 1,
                },
                rest,
            )))
        }
    }
}

#[cycle(read)]
#[tactic(auto, using(crate::proofs::ProcessSteps::seq_steps))]
fn read_seq<'a>(
    alloc: Global,
    sig: &Signature,
    bytes: &[u8],
    depth: u32,
    tokens: &'a [Token],
) -> Result<Option<(Measured, &'a [Token])>, Mem>
    requires { depth < 2 ^ 30 }
    ensures gives { Gives bytes.now levelled result (seq sig.now FILE_LIMITS depth
        (words_of bytes.now tokens.now)) }
    ensures within { IfOk result (λ o. IfSome o (λ r. (1 ≤ r.0.levels) × (r.0.levels ≤ depth))) }
{
    if depth == 0 {
        return Ok(None);
    }
    let next = beyond(1, tokens);
    if starts(bytes, tokens, "(") {
        read_enclosed(alloc, sig, bytes, depth - 1, next)
    } else if starts(bytes, tokens, "!") {
        read_replicated(alloc, sig, bytes, depth - 1, tokens.len(), next)
    } else if starts(bytes, tokens, "if") {
        read_condition(alloc, sig, bytes, depth - 1, tokens.len(), next)
    } else if starts(bytes, tokens, "lookup") {
        read_lookup(alloc, sig, bytes, depth - 1, tokens.len(), next)
    } else if starts_zero(bytes, tokens) {
        let process = boxed(alloc, Source::Nil(tokens.len()))?;
        Ok(Some((
            Measured {
                source: process,
                levels: 1,
            },
            next,
        )))
    } else {
        read_call_or_action(alloc, sig, bytes, depth - 1, tokens)
    }
}

#[cycle(read)]
#[tactic(auto, using(crate::proofs::ProcessSteps::limits), unfolding(sap_grammar::specs::Reading::after))]
fn read_beside<'a>(
    alloc: Global,
    sig: &Signature,
    bytes: &[u8],
    depth: u32,
    at: usize,
    left: Box<Source>,
    levels: u32,
    tokens: &'a [Token],
) -> Result<Option<(Measured, &'a [Token])>, Mem>
    requires deep { depth < 2 ^ 30 }
    requires within { levels ≤ depth }
    ensures gives { Gives bytes.now levelled result (beside (par sig.now FILE_LIMITS depth) at
        (located left.value, levels) (words_of bytes.now tokens.now)) }
    ensures within { IfOk result (λ o. IfSome o (λ r. (1 ≤ r.0.levels)
        × (r.0.levels ≤ depth + 1))) }
{
    match read_par(alloc, sig, bytes, depth, tokens)? {
        None => Ok(None),
        Some(
            (
                Measured {
                    source: right,
                    levels: more,
                },
                rest,
            ),
        ) => {
            let both = boxed(alloc, Source::Par(at, left, right))?;
            Ok(Some((
                Measured {
                    source: both,
                    levels: levels.max(more) + 1,
                },
                rest,
            )))
        }
    }
}

/// A process of at most so many levels, their number, and the tokens behind it.
#[cycle(read)]
#[tactic(auto, using(crate::proofs::ProcessSteps::par_steps), unfolding(sap_grammar::specs::Reading::after))]
pub fn read_par<'a>(
    alloc: Global,
    sig: &Signature,
    bytes: &[u8],
    depth: u32,
    tokens: &'a [Token],
) -> Result<Option<(Measured, &'a [Token])>, Mem>
    requires { depth < 2 ^ 30 }
    ensures gives { Gives bytes.now levelled result (par sig.now FILE_LIMITS depth
        (words_of bytes.now tokens.now)) }
    ensures within { IfOk result (λ o. IfSome o (λ r. (1 ≤ r.0.levels) × (r.0.levels ≤ depth))) }
{
    if depth == 0 {
        return Ok(None);
    }
    match read_seq(alloc, sig, bytes, depth, tokens)? {
        None => Ok(None),
        Some(
            (
                Measured {
                    source: left,
                    levels,
                },
                rest,
            ),
        ) => {
            if !starts_bar(bytes, rest) {
                Ok(Some((
                    Measured {
                        source: left,
                        levels,
                    },
                    rest,
                )))
            } else if levels < depth {
                read_beside(
                    alloc,
                    sig,
                    bytes,
                    depth - 1,
                    rest.len(),
                    left,
                    levels,
                    beyond(1, rest),
                )
            } else {
                Ok(None)
            }
        }
    }
}
