//! The first wrong word of a file, and what is expected in its place.
ghost use Rattle.std.specs.Prelude.{IfOk, MatchOption};
ghost use Rattle.sap_text.specs.Spans.{AreTokens};
ghost use Rattle.sap_grammar.specs.Words.{words_of};
ghost use Rattle.sap_expect.specs.FileWords.{IsFileWords};
ghost use Rattle.sap_expect.specs.WrongWord.{IsFound};
ghost use Rattle.sap_expect.specs.code.Stops.{IsStop};

use crate::deep::expected_behind;
use crate::expected::Expected;
use crate::open_marks::last_number;
use crate::seen::look;
use crate::way::Way;
use sap_terms::Mem;
use sap_text::{Token, spans_are_tokens, token_bytes};
use std::alloc::Global;

/// The first word with which words are no file's any more, what is expected in its place, and what is open there.
#[derive(Drop)]
pub struct Wrong {
    /// How many words stand before it.
    pub number: usize,
    pub expected: Expected,
    /// How many stand before the innermost bracket or quotation mark that is open behind those, if one is.
    pub open: Option<usize>,
}

// How many words stand before the first wrong one, and a walk behind these.
#[derive(Drop)]
pub(crate) struct Stop {
    number: usize,
    way: Way,
}

// Goes over the tokens up to the first wrong one, if one is.
fn walk_up(alloc: Global, bytes: &[u8], tokens: &[Token]) -> Result<Option<Stop>, Mem>
    requires { AreTokens bytes.now tokens.now }
    ensures { IfOk result (λ o. MatchOption o (IsFileWords (words_of bytes.now tokens.now))
        (λ s. IsStop (words_of bytes.now tokens.now) s)) }
{
    spans_are_tokens();
    let mut way = Way::new(alloc)?;
    for k in 0..tokens.len() {
        if !way.pass(look(tokens[k].kind, token_bytes(bytes, tokens, k)), k)? {
            return Ok(Some(Stop { number: k, way }));
        }
    }
    if way.walk.stack.is_empty() {
        Ok(None)
    } else {
        Ok(Some(Stop {
            number: tokens.len(),
            way,
        }))
    }
}

/// The first word with which the words of the tokens begin no file's words any more, or what is behind them all, where only the end is
/// missing; what is expected there: fewer levels, where the limit of those alone keeps the word from standing there, or else the kinds of
/// words that may; and which bracket or quotation mark is open there, the innermost. `None` where they are a file's words. It goes over the
/// tokens once, and takes no more of the stack the deeper they are nested. Want of memory is the only error.
pub fn wrong_word(alloc: Global, bytes: &[u8], tokens: &[Token]) -> Result<Option<Wrong>, Mem>
    requires { AreTokens bytes.now tokens.now }
    ensures { IfOk result (λ o. IsFound (words_of bytes.now tokens.now) o) }
{
    match walk_up(alloc, bytes, tokens)? {
        None => Ok(None),
        Some(stop) => {
            let expected = expected_behind(alloc, bytes, &stop.way.walk, tokens, stop.number)?;
            Ok(Some(Wrong {
                number: stop.number,
                expected,
                open: last_number(stop.way.marks.as_slice()),
            }))
        }
    }
}
