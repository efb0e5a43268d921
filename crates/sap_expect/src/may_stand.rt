//! What may stand behind words of a file.
ghost use Rattle.std.specs.Prelude.{◌≡◌, List, [], ◌∷◌, ◌++◌, IfOk, OnOk, map};
ghost use Rattle.std.specs.Bool.{Decides};
ghost use Rattle.sap_expect.specs.Kinds.{kind_of, kinds as all_kinds, name_kinds, sign_kinds, wide_kinds, word_kinds};
ghost use Rattle.sap_expect.specs.code.Going.{AreRowsNamed, Behind, CanGo, Each, IsRowNamed, KindRow as Row, kind_row_of, kind_rows, many_of, wide_words, witness_of, witnesses_of};
ghost use Rattle.sap_expect.specs.code.WantedView.{stacked};

use crate::kind::WordKind;
use crate::kinds;
use crate::kinds::{KindRow, Witness};
use crate::seen::look;
use crate::walk::{Attempt, Walk};
use sap_terms::Mem;
use std::alloc::Global;

// Whether the word may stand where the walk is.
fn goes_on(alloc: Global, walk: &Walk, word: Witness) -> Result<bool, Mem>
    ensures { IfOk result (λ b. Decides b (CanGo walk.now.levels (stacked walk.now.stack.items) (witness_of word.entry))) }
{
    let mut attempt = Attempt::new(alloc);
    let taken = attempt.goes(walk, look(word.0, word.1.as_bytes()), None)?;
    Ok(taken)
}

// Whether each of the words may.
fn all_go_on(alloc: Global, walk: &Walk, words: &[Witness]) -> Result<bool, Mem>
    ensures { IfOk result (λ b. Decides b (Each (CanGo walk.now.levels (stacked walk.now.stack.items)) (witnesses_of words.now))) }
{
    for k in 0..words.len() {
        if !goes_on(alloc, walk, words[k])? {
            return Ok(false);
        }
    }
    Ok(true)
}

// The words that stand for a kind, where it has more than one.
fn words_for(kind: WordKind) -> &'static [Witness]
    ensures { witnesses_of result.now ≡ wide_words (kind_of kind) }
{
    match kind {
        WordKind::Item => kinds::ITEM,
        WordKind::Process => kinds::PROCESS,
        WordKind::Formula => kinds::FORMULA,
        WordKind::Term => kinds::TERM,
        WordKind::Name => kinds::NAME,
        WordKind::Lower => kinds::SMALL,
        WordKind::Upper => kinds::CAPITAL,
        WordKind::Quoted => kinds::QUOTED,
        WordKind::Arity => kinds::ARITY,
        WordKind::Zero => kinds::ZERO,
        WordKind::Mark(_) | WordKind::Named(_) => &[],
    }
}

// Whether all words of the kind may.
fn kind_goes_on(alloc: Global, walk: &Walk, kind: WordKind) -> Result<bool, Mem>
    ensures { IfOk result (λ b. Decides b (Each (CanGo walk.now.levels (stacked walk.now.stack.items)) (wide_words (kind_of kind)))) }
{
    all_go_on(alloc, walk, words_for(kind))
}

// Whether of each of the kinds some word mayn't.
fn none_goes_on(alloc: Global, walk: &Walk, kinds: &[WordKind]) -> Result<bool, Mem>
    ensures { IfOk result (λ b. Decides b (Each (λ ws. Each (CanGo walk.now.levels (stacked walk.now.stack.items)) ws → ⊥) (many_of kinds.now))) }
{
    for k in 0..kinds.len() {
        if kind_goes_on(alloc, walk, kinds[k])? {
            return Ok(false);
        }
    }
    Ok(true)
}

// Whether the kind is named.
fn is_named(alloc: Global, walk: &Walk, row: &KindRow) -> Result<bool, Mem>
    ensures { IfOk result (λ b. Decides b (IsRowNamed walk.now.levels (stacked walk.now.stack.items) (kind_row_of row.now))) }
{
    if all_go_on(alloc, walk, row.1)? {
        none_goes_on(alloc, walk, row.2)
    } else {
        Ok(false)
    }
}

fn wide_rows() -> &'static [KindRow]
    ensures { map kind_row_of result.now ≡ kind_rows [] wide_kinds }
{
    kinds::WIDE_KINDS
}

fn sign_rows() -> &'static [KindRow]
    ensures { map kind_row_of result.now ≡ kind_rows wide_kinds sign_kinds }
{
    kinds::SIGNS
}

fn word_rows() -> &'static [KindRow]
    ensures { map kind_row_of result.now ≡ kind_rows (wide_kinds ++ sign_kinds) word_kinds }
{
    kinds::WORDS
}

fn name_rows() -> &'static [KindRow]
    ensures { map kind_row_of result.now ≡ kind_rows ((wide_kinds ++ sign_kinds) ++ word_kinds) name_kinds }
{
    kinds::NAMES
}

// Puts last the kind of the row, if it is named.
fn push_if_named(
    alloc: Global,
    list: &mut Vec<WordKind>,
    walk: &Walk,
    row: &KindRow,
) -> Result<(), Mem>
    ensures { OnOk result ((all rest : List Row) → Behind walk.now.levels (stacked walk.now.stack.items) all (kind_row_of row.now ∷ rest) (map kind_of list.old.items)
        → Behind walk.now.levels (stacked walk.now.stack.items) all rest (map kind_of list.new.items)) }
{
    if is_named(alloc, walk, row)? {
        list.push(row.0)?;
        Ok(())
    } else {
        Ok(())
    }
}

// Puts last the kinds of the rows that are named where the walk is.
fn push_named(
    alloc: Global,
    list: &mut Vec<WordKind>,
    walk: &Walk,
    rows: &[KindRow],
) -> Result<(), Mem>
    ensures { OnOk result ((all rest : List Row) → Behind walk.now.levels (stacked walk.now.stack.items) all (map kind_row_of rows.now ++ rest) (map kind_of list.old.items)
        → Behind walk.now.levels (stacked walk.now.stack.items) all rest (map kind_of list.new.items)) }
{
    for k in 0..rows.len() {
        push_if_named(alloc, list, walk, &rows[k])?;
    }
    Ok(())
}

// The kinds that are named where the walk is.
pub(crate) fn named_kinds(alloc: Global, walk: &Walk) -> Result<Vec<WordKind>, Mem>
    ensures { IfOk result (λ v. AreRowsNamed walk.now.levels (stacked walk.now.stack.items) (kind_rows [] all_kinds) (map kind_of v.items)) }
{
    let mut list = Vec::new(alloc);
    push_named(alloc, &mut list, walk, wide_rows())?;
    push_named(alloc, &mut list, walk, sign_rows())?;
    push_named(alloc, &mut list, walk, word_rows())?;
    push_named(alloc, &mut list, walk, name_rows())?;
    Ok(list)
}
