//! A word of a line, taken from the left of bytes.
ghost use Rattle.std.specs.Prelude.{◌≡◌};
ghost use Rattle.sap_run_lines.specs.code.Taking.{Takes};
ghost use Rattle.sap_run_lines.specs.code.WordTaking.{line_word, sorted, value_at, bound_at, number_word_at, tilde_at, public_word_at, letter_at, word_at};

use crate::take::{behind, content_at, identifier_at, name_at, number_at, starts, starts_letter};
use crate::take_term::small_term;
use crate::written_word::WrittenWord;
use sap_terms::{Binding, Mem, Name, Sort, Var};
use std::alloc::Global;

#[tactic(auto, unfolding(crate::specs::code::Taking::after))]
fn take_value<'a>(
    alloc: Global,
    sort: Sort,
    name: &[u8],
    bytes: &'a [u8],
) -> Result<Option<(WrittenWord, &'a [u8])>, Mem>
    ensures { Takes line_word result (value_at (sorted sort name.now) bytes.now) }
{
    if !starts(b'=', bytes) {
        return Ok(None);
    }
    match small_term(alloc, behind(1, bytes))? {
        None => Ok(None),
        Some((term, rest)) => {
            match Name::from_bytes(alloc, name) {
                Err(mem) => {
                    drop(term);
                    Err(mem)
                }
                Ok(name) => {
                    let var = Var { name, sort };
                    Ok(Some((WrittenWord::Bound(Binding { var, term }), rest)))
                }
            }
        }
    }
}

#[tactic(auto, unfolding(crate::specs::code::Taking::after))]
fn take_bound<'a>(
    alloc: Global,
    sort: Sort,
    bytes: &'a [u8],
) -> Result<Option<(WrittenWord, &'a [u8])>, Mem>
    ensures { Takes line_word result (bound_at sort bytes.now) }
{
    match name_at(bytes) {
        None => Ok(None),
        Some((name, rest)) => take_value(alloc, sort, name, rest),
    }
}

#[tactic(auto, unfolding(crate::specs::code::Taking::after))]
fn take_number<'a>(bytes: &'a [u8]) -> Result<Option<(WrittenWord, &'a [u8])>, Mem>
    ensures { Takes line_word result (number_word_at bytes.now) }
{
    match number_at(bytes) {
        None => Ok(None),
        Some((number, rest)) => Ok(Some((WrittenWord::Number(number), rest))),
    }
}

#[tactic(auto, unfolding(crate::specs::code::Taking::after))]
fn take_tilde<'a>(alloc: Global, bytes: &'a [u8]) -> Result<Option<(WrittenWord, &'a [u8])>, Mem>
    ensures { Takes line_word result (tilde_at bytes.now) }
{
    if starts_letter(bytes) {
        return take_bound(alloc, Sort::Fresh, bytes);
    }
    match number_at(bytes) {
        None => Ok(None),
        Some((number, rest)) => Ok(Some((WrittenWord::Fresh(number), rest))),
    }
}

#[tactic(auto, unfolding(crate::specs::code::Taking::after))]
fn take_public<'a>(alloc: Global, bytes: &'a [u8]) -> Result<Option<(WrittenWord, &'a [u8])>, Mem>
    ensures { Takes line_word result (public_word_at bytes.now) }
{
    match content_at(bytes) {
        None => Ok(None),
        Some((content, rest)) => {
            let name = Name::from_bytes(alloc, content)?;
            Ok(Some((WrittenWord::Public(name), rest)))
        }
    }
}

#[tactic(auto, unfolding(crate::specs::code::Taking::after))]
fn take_letter<'a>(alloc: Global, bytes: &'a [u8]) -> Result<Option<(WrittenWord, &'a [u8])>, Mem>
    ensures { Takes line_word result (letter_at bytes.now) }
{
    match identifier_at(bytes) {
        None => Ok(None),
        Some((text, rest)) => {
            if starts(b'=', rest) {
                take_bound(alloc, Sort::Msg, bytes)
            } else {
                let name = Name::from_bytes(alloc, text)?;
                Ok(Some((WrittenWord::Identifier(name), rest)))
            }
        }
    }
}

/// The word that stands first, and the bytes behind it.
#[tactic(auto, unfolding(crate::specs::code::WordTaking::word_at))]
pub(crate) fn take_word<'a>(
    alloc: Global,
    bytes: &'a [u8],
) -> Result<Option<(WrittenWord, &'a [u8])>, Mem>
    ensures { Takes line_word result (word_at bytes.now) }
{
    if starts(b'~', bytes) {
        take_tilde(alloc, behind(1, bytes))
    } else if starts(b'$', bytes) {
        take_bound(alloc, Sort::Pub, behind(1, bytes))
    } else if starts(b'\'', bytes) {
        take_public(alloc, behind(1, bytes))
    } else if starts_letter(bytes) {
        take_letter(alloc, bytes)
    } else {
        take_number(bytes)
    }
}
