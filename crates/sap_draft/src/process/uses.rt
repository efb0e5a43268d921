//! Uses of processes by their names, with arguments.
ghost use Rattle.std.specs.Prelude.{◌≡◌, ◌≤◌, codes, length, IfOk, IfSome};
ghost use Rattle.sap_grammar.specs.Words.{words_of};
ghost use Rattle.sap_grammar.specs.Reading.{Gives, list_of};
ghost use Rattle.sap_grammar.specs.TermReading.{short_term};
ghost use Rattle.sap_macro.specs.Located.{call_at};
ghost use Rattle.sap_draft.specs.code.ProcessReading.{used};
ghost use Rattle.sap_draft.specs.code.ProcessView.{levelled};
ghost use Rattle.sap_draft.specs.declared.limits.TheConstants.{FILE_LIMITS};

use crate::limits::FILE_LIMITS;
use crate::process::build::{Measured, call};
use sap_grammar::{beyond, read_short_term, starts, term_laws};
use sap_terms::{Mem, Signature, TermList};
use sap_text::Token;
use std::alloc::Global;

// Terms, one or more, with commas between them, up to the closing parenthesis, and the tokens behind it.
#[tactic(auto, using(sap_grammar::proofs::ReadingLaws::Tokens::word_steps), unfolding(sap_grammar::specs::Reading::after))]
fn read_arguments<'a>(
    alloc: Global,
    sig: &Signature,
    bytes: &[u8],
    tokens: &'a [Token],
) -> Result<Option<(TermList, &'a [Token])>, Mem>
    ensures { Gives bytes.now (λ ts. ts) result (list_of (codes ")") (short_term sig.now FILE_LIMITS)
        (length tokens.now) (words_of bytes.now tokens.now)) }
{
    term_laws();
    let mut terms = TermList::new(alloc);
    let mut rest = tokens;
    while !rest.is_empty() {
        let Some((term, next)) = read_short_term(alloc, sig, FILE_LIMITS, bytes, rest)? else {
            return Ok(None);
        };
        terms.push(term)?;
        if starts(bytes, next, ")") {
            return Ok(Some((terms, beyond(1, next))));
        }
        if !starts(bytes, next, ",") {
            return Ok(None);
        }
        rest = beyond(1, next);
    }
    Ok(None)
}

// The use with these arguments; its name has this number.
fn use_of(alloc: Global, at: usize, name: &[u8], arguments: TermList) -> Result<Measured, Mem>
    ensures { IfOk result (λ m. levelled m ≡ (call_at at name.now arguments, 1)) }
{
    Ok(Measured {
        source: call(alloc, at, name, arguments)?,
        levels: 1,
    })
}

/// The use of a process of this name, which has this number, with the arguments that stand behind it, where a parenthesis opens
/// there, and the tokens behind it.
#[tactic(auto, using(sap_grammar::proofs::ReadingLaws::Tokens::word_steps), unfolding(sap_grammar::specs::Reading::after))]
pub fn read_use<'a>(
    alloc: Global,
    sig: &Signature,
    bytes: &[u8],
    at: usize,
    name: &[u8],
    tokens: &'a [Token],
) -> Result<Option<(Measured, &'a [Token])>, Mem>
    ensures gives { Gives bytes.now levelled result (used sig.now FILE_LIMITS at name.now
        (words_of bytes.now tokens.now)) }
    ensures within { IfOk result (λ o. IfSome o (λ r. r.0.levels ≡ 1)) }
{
    if !starts(bytes, tokens, "(") {
        let used = use_of(alloc, at, name, TermList::new(alloc))?;
        return Ok(Some((used, tokens)));
    }
    match read_arguments(alloc, sig, bytes, beyond(1, tokens))? {
        None => Ok(None),
        Some((arguments, rest)) => {
            let used = use_of(alloc, at, name, arguments)?;
            Ok(Some((used, rest)))
        }
    }
}
