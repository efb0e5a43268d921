//! The line of the place to which one comes along a path.
ghost use Rattle.std.specs.Prelude.{◌≡◌, ℕ, List, Option, IfOk};
ghost use Rattle.std.specs.Bool.{Decides};
ghost use Rattle.sap_text.specs.Spans.{AreTokens};
ghost use Rattle.sap_macro.specs.Sources.{located};
ghost use Rattle.sap_origin.specs.Origins.{words_left};
ghost use Rattle.sap_file_lines.specs.FileLines.{is_nothing, line_before};
ghost use Rattle.sap_file_lines.specs.Places.{ArePlaces, AreTheirLines};
ghost use Rattle.sap_file_lines.specs.code.Spots.{IsMissedIn, IsSpotIn};

use crate::laws::lines_are_one;
use sap_macro::{DefinitionList, Index, Source};
use sap_origin::{FileWord, Replaced, number_of, one_written_place, trail_of};
use sap_terms::Mem;
use sap_text::{Token, lines_are_counted};
use std::alloc::Global;

/// What is written in a file: its definitions, in order, with the index of their names, and its process; how many words of the file are
/// behind each of them; and its tokens.
#[derive(Clone, Copy)]
pub struct FilePlaces<'a> {
    pub definitions: &'a DefinitionList,
    pub index: &'a Index,
    pub main: &'a Source,
    pub behind: &'a [usize],
    pub behind_main: usize,
    pub tokens: &'a [Token],
}

// The word that tells a place, and whether it is `0`.
#[derive(Clone, Copy)]
struct Spot {
    word: FileWord,
    is_nothing: bool,
}

// Whether it is `0`.
fn is_nothing(source: &Source) -> bool
    ensures { result ≡ is_nothing (located source.now) }
{
    match source {
        Source::Nil(_) => true,
        Source::Par(_, _, _) | Source::Rep(_, _) | Source::Call(_, _, _) => false,
        Source::Act(_, _, _) | Source::If(_, _, _, _, _) | Source::Lookup(_, _, _, _, _) => false,
    }
}

// The line of a word. Each word of a file is one of its tokens; where one isn't, memory is said to be wanting.
fn line_of(tokens: &[Token], word: FileWord) -> Result<u64, Mem>
    ensures { (bytes : List ℕ) → AreTokens bytes tokens.now
        → IfOk result (λ n. n ≡ line_before bytes tokens.now (words_left word)) }
{
    lines_are_counted();
    let k = tokens
        .len()
        .saturating_sub(word.left)
        .saturating_sub(word.behind);
    if k < tokens.len() {
        Ok(tokens[k].line)
    } else {
        Err(Mem)
    }
}

// Whether it is one word.
fn is_one_word(a: FileWord, b: FileWord) -> bool
    ensures { Decides result (words_left a ≡ words_left b) }
{
    if a.left <= b.left {
        b.behind <= a.behind && a.behind - b.behind == b.left - a.left
    } else {
        a.behind <= b.behind && b.behind - a.behind == a.left - b.left
    }
}

impl FilePlaces<'_> {
    // What tells the place to which one comes along the path, if one comes to one.
    fn spot(&self, alloc: Global, path: &[u8]) -> Result<Option<Spot>, Mem>
        requires { ArePlaces self.now }
        ensures { IfOk result (IsSpotIn self.now path.now) }
    {
        let every = Replaced::Every;
        match trail_of(
            alloc,
            self.definitions,
            self.index,
            self.behind,
            self.main,
            self.behind_main,
            path,
            every,
        )? {
            None => Ok(None),
            Some(trail) => Ok(Some(Spot {
                word: FileWord {
                    left: number_of(trail.source),
                    behind: trail.behind,
                },
                is_nothing: is_nothing(trail.source),
            })),
        }
    }

    // Whether nobody wrote what is told so at the end of the path.
    fn is_missing(&self, alloc: Global, path: &[u8], spot: Spot) -> Result<bool, Mem>
        requires { ArePlaces self.now }
        ensures { IfOk result (IsMissedIn self.now path.now spot) }
    {
        one_written_place();
        if !spot.is_nothing || path.is_empty() {
            return Ok(false);
        }
        match self.spot(alloc, &path[..path.len() - 1])? {
            None => Ok(false),
            Some(above) => Ok(is_one_word(above.word, spot.word)),
        }
    }

    /// The line of the place to which one comes along the path; `None` where one comes to none that somebody wrote. Want of memory is the
    /// only error. It takes time in proportion to the path and to the uses on the way, where each name is looked for by its order, and at
    /// a `0` twice that.
    pub fn line(&self, alloc: Global, path: &[u8]) -> Result<Option<u64>, Mem>
        requires { ArePlaces self.now }
        ensures { (bytes : List ℕ) (lines : List ℕ → Option ℕ) → AreTheirLines self.now bytes lines
            → IfOk result (λ o. o ≡ lines path.now) }
    {
        lines_are_one();
        match self.spot(alloc, path)? {
            None => Ok(None),
            Some(spot) => {
                if self.is_missing(alloc, path, spot)? {
                    Ok(None)
                } else {
                    Ok(Some(line_of(self.tokens, spot.word)?))
                }
            }
        }
    }
}
