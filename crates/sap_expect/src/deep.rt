//! What is expected in place of a wrong word: fewer levels, or words of other kinds.
ghost use Rattle.std.specs.Prelude.{◌+◌, IfOk, MatchOption, take};
ghost use Rattle.std.specs.Bool.{Decides};
ghost use Rattle.sap_text.specs.Spans.{AreTokens};
ghost use Rattle.sap_grammar.specs.Words.{words_of};
ghost use Rattle.sap_expect.specs.declared.nested.Nested.{Nested as Levels};
ghost use Rattle.sap_expect.specs.Expected.{IsExpected, expected_of};
ghost use Rattle.sap_expect.specs.FileTable.{all_but};
ghost use Rattle.sap_expect.specs.FileWords.{IsFileWords};
ghost use Rattle.sap_expect.specs.FirstWrong.{IsFirstWrong};
ghost use Rattle.sap_expect.specs.Levels.{IsTooDeep};
ghost use Rattle.sap_expect.specs.code.Going.{CanGoBy, StandsBehind};
ghost use Rattle.sap_expect.specs.code.SeenWords.{seen as seen_of};
ghost use Rattle.sap_expect.specs.code.WantedView.{stacked};

use crate::expected::Expected;
use crate::may_stand::named_kinds;
use crate::nested::Nested;
use crate::seen::{Seen, look};
use crate::walk::{Attempt, Walk};
use sap_terms::Mem;
use sap_text::{Token, token_bytes};
use std::alloc::Global;

// Whether the word may stand where the walk is, if these levels don't count.
#[tactic(auto, using(crate::proofs::KindRows::taken_can))]
fn goes_without(alloc: Global, walk: &Walk, word: Seen<'_>, nested: Nested) -> Result<bool, Mem>
    ensures { IfOk result (λ b. Decides b (CanGoBy (all_but nested) walk.now.levels (stacked walk.now.stack.items) (seen_of word.entry))) }
{
    let mut attempt = Attempt::new(alloc);
    let taken = attempt.goes(walk, word, Some(nested))?;
    Ok(taken)
}

// The levels without which the word might stand where the walk is, if there are such.
fn deep(alloc: Global, walk: &Walk, word: Seen<'_>) -> Result<Option<Nested>, Mem>
    ensures { IfOk result (λ o. MatchOption o ((c : Levels) → CanGoBy (all_but c) walk.now.levels (stacked walk.now.stack.items) (seen_of word.entry) → ⊥)
        (λ c. CanGoBy (all_but c) walk.now.levels (stacked walk.now.stack.items) (seen_of word.entry))) }
{
    if goes_without(alloc, walk, word, Nested::Term)? {
        return Ok(Some(Nested::Term));
    }
    if goes_without(alloc, walk, word, Nested::Process)? {
        return Ok(Some(Nested::Process));
    }
    if goes_without(alloc, walk, word, Nested::Formula)? {
        return Ok(Some(Nested::Formula));
    }
    Ok(None)
}

// Those of the token of this number, if there is one.
fn deep_at(
    alloc: Global,
    bytes: &[u8],
    walk: &Walk,
    tokens: &[Token],
    k: usize,
) -> Result<Option<Nested>, Mem>
    requires tokens { AreTokens bytes.now tokens.now }
    requires stands { StandsBehind (words_of bytes.now tokens.now) k walk.now.levels (stacked walk.now.stack.items) }
    requires wrong { IsFirstWrong IsFileWords (words_of bytes.now tokens.now) k }
    ensures { IfOk result (λ o. MatchOption o ((c : Levels) → IsTooDeep c (take (k + 1) (words_of bytes.now tokens.now)) → ⊥)
        (λ c. IsTooDeep c (take (k + 1) (words_of bytes.now tokens.now)))) }
{
    if k < tokens.len() {
        deep(
            alloc,
            walk,
            look(tokens[k].kind, token_bytes(bytes, tokens, k)),
        )
    } else {
        Ok(None)
    }
}

// What is expected in place of token number k, the first wrong one, where the walk is behind those before it.
pub(crate) fn expected_behind(
    alloc: Global,
    bytes: &[u8],
    walk: &Walk,
    tokens: &[Token],
    k: usize,
) -> Result<Expected, Mem>
    requires tokens { AreTokens bytes.now tokens.now }
    requires stands { StandsBehind (words_of bytes.now tokens.now) k walk.now.levels (stacked walk.now.stack.items) }
    requires wrong { IsFirstWrong IsFileWords (words_of bytes.now tokens.now) k }
    ensures { IfOk result (λ e. IsExpected (words_of bytes.now tokens.now) k (expected_of e)) }
{
    match deep_at(alloc, bytes, walk, tokens, k)? {
        Some(nested) => Ok(Expected::FewerLevels(nested)),
        None => {
            let kinds = named_kinds(alloc, walk)?;
            Ok(Expected::OneOf(kinds))
        }
    }
}
