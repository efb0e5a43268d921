//! The notes on a file, found word by word.
ghost use Rattle.std.specs.Prelude.{◌≡◌, ◌+◌, ◌++◌, codes, drop, length, IfOk, OnOk};
ghost use Rattle.sap_grammar.specs.Reading.{name_at};
ghost use Rattle.sap_grammar.specs.Words.{words_of};
ghost use Rattle.sap_stretches.specs.Stretches.{stretch_at};
ghost use Rattle.sap_where.specs.FileDeclarations.{in_item, is_next};
ghost use Rattle.sap_notes.specs.NotedWords.{is_behind_let};
ghost use Rattle.sap_notes.specs.code.Walk.{declared_name, declared_notes, defined_name, defined_notes, notes_at, notes_before, symbol_notes, with_named};
ghost use Rattle.sap_notes.specs.declared.note.Kind.TheVariants as kinds;

use crate::note::{Kind, Note};
use crate::other::is_another;
use sap_grammar::{beyond, name_at};
use sap_stretches::{Stretch, stretch_at};
use sap_terms::{Items, Mem, Name, NameSet, Signature};
use sap_text::Token;
use sap_where::{begins_item, stands};
use std::alloc::Global;

/// What is known of a file: what it declares, the symbols in its terms, and the names to which its process leads.
#[derive(Drop)]
pub(crate) struct Known<'a> {
    pub signature: &'a Signature,
    pub symbols: &'a NameSet,
    pub led: &'a NameSet,
}

// What is known before a word: whether it stands in an item of functions, whether behind a colon or a comma, and whether behind `let`.
#[derive(Clone, Copy)]
struct Before {
    functions: bool,
    next: bool,
    defines: bool,
}

// What is known behind this word, by what is before it.
fn go_on(bytes: &[u8], tokens: &[Token], k: usize, before: Before) -> Before
    requires { before.functions ≡ in_item bytes.now tokens.now (codes "functions") k }
    ensures functions { result.functions ≡ in_item bytes.now tokens.now (codes "functions") (k + 1) }
    ensures next { result.next ≡ is_next bytes.now tokens.now (k + 1) }
    ensures defines { result.defines ≡ is_behind_let bytes.now tokens.now (k + 1) }
{
    Before {
        functions: if begins_item(bytes, beyond(k, tokens)) {
            stands(bytes, tokens, "functions", k)
        } else {
            before.functions
        },
        next: stands(bytes, tokens, ":", k) || stands(bytes, tokens, ",", k),
        defines: stands(bytes, tokens, "let", k),
    }
}

/// The name that is this token, if it is one.
pub(crate) fn name_there(
    alloc: Global,
    bytes: &[u8],
    tokens: &[Token],
    k: usize,
) -> Result<Option<Name>, Mem>
    ensures { IfOk result (λ o. o ≡ name_at (words_of bytes.now (drop k tokens.now))) }
{
    match name_at(bytes, beyond(k, tokens)) {
        Some(name) => Ok(Some(Name::from_bytes(alloc, name)?)),
        None => Ok(None),
    }
}

// Puts last the notes on a function.
fn push_symbol_notes(
    notes: &mut Items<Note>,
    known: &Known<'_>,
    name: &Name,
    word: Stretch,
) -> Result<(), Mem>
    ensures { OnOk result (notes.new ≡ notes.old
        ++ symbol_notes known.now.signature.now known.now.symbols.now name.now word) }
{
    if is_another(known.signature, name) {
        notes.push(Note {
            kind: Kind::OtherSymbol,
            word,
        })?;
    }
    if !known.symbols.contains(name) {
        notes.push(Note {
            kind: Kind::UnusedSymbol,
            word,
        })?;
    }
    Ok(())
}

// Puts last the notes on a function, and its name is one of those that are declared now; where it was one before, there are none.
fn push_declared_notes(
    notes: &mut Items<Note>,
    declared: &mut NameSet,
    known: &Known<'_>,
    name: &Name,
    word: Stretch,
) -> Result<(), Mem>
    ensures notes { OnOk result (notes.new ≡ notes.old
        ++ declared_notes known.now.signature.now known.now.symbols.now declared.old (Some name.now) word) }
    ensures declared { OnOk result (declared.new ≡ with_named declared.old (Some name.now)) }
{
    let (_, is_new) = declared.insert(name)?;
    if is_new {
        push_symbol_notes(notes, known, name, word)?;
    }
    Ok(())
}

// Puts last the notes on the function that is declared at this token, if one is.
fn push_declared_at(
    alloc: Global,
    bytes: &[u8],
    tokens: &[Token],
    k: usize,
    before: Before,
    known: &Known<'_>,
    declared: &mut NameSet,
    notes: &mut Items<Note>,
) -> Result<(), Mem>
    requires functions { before.functions ≡ in_item bytes.now tokens.now (codes "functions") k }
    requires next { before.next ≡ is_next bytes.now tokens.now k }
    ensures notes { OnOk result (notes.new ≡ notes.old
        ++ declared_notes known.now.signature.now known.now.symbols.now declared.old
        (declared_name bytes.now tokens.now k) (stretch_at tokens.now k)) }
    ensures declared { OnOk result (declared.new ≡ with_named declared.old (declared_name bytes.now tokens.now k)) }
{
    if !before.next || !before.functions {
        return Ok(());
    }
    match name_there(alloc, bytes, tokens, k)? {
        Some(name) => push_declared_notes(notes, declared, known, &name, stretch_at(tokens, k)),
        None => Ok(()),
    }
}

// Puts last the note on a definition, where the process doesn't lead to it.
fn push_defined_note(
    notes: &mut Items<Note>,
    known: &Known<'_>,
    name: &Name,
    word: Stretch,
) -> Result<(), Mem>
    ensures { OnOk result (notes.new ≡ notes.old ++ defined_notes known.now.led.now (Some name.now) word) }
{
    if known.led.contains(name) {
        return Ok(());
    }
    notes.push(Note {
        kind: Kind::UnusedDefinition,
        word,
    })
}

// Puts last the note on the definition whose name is this token, if one is.
fn push_defined_at(
    alloc: Global,
    bytes: &[u8],
    tokens: &[Token],
    k: usize,
    before: Before,
    known: &Known<'_>,
    notes: &mut Items<Note>,
) -> Result<(), Mem>
    requires { before.defines ≡ is_behind_let bytes.now tokens.now k }
    ensures { OnOk result (notes.new ≡ notes.old
        ++ defined_notes known.now.led.now (defined_name bytes.now tokens.now k) (stretch_at tokens.now k)) }
{
    if !before.defines {
        return Ok(());
    }
    match name_there(alloc, bytes, tokens, k)? {
        Some(name) => push_defined_note(notes, known, &name, stretch_at(tokens, k)),
        None => Ok(()),
    }
}

/// The notes at all tokens of a file, in order. The time is linear in the tokens, but for names, which are looked up. Want of memory is
/// the only error.
pub(crate) fn found_notes(
    alloc: Global,
    bytes: &[u8],
    tokens: &[Token],
    known: &Known<'_>,
) -> Result<Items<Note>, Mem>
    ensures { IfOk result (λ notes. notes ≡ notes_before known.now.signature.now known.now.symbols.now
        known.now.led.now bytes.now tokens.now (length tokens.now)) }
{
    let mut notes = Items::new(alloc);
    let mut declared = NameSet::new(alloc);
    let mut before = Before {
        functions: false,
        next: false,
        defines: false,
    };
    let mut k = 0;
    while k < tokens.len() {
        push_declared_at(
            alloc,
            bytes,
            tokens,
            k,
            before,
            known,
            &mut declared,
            &mut notes,
        )?;
        push_defined_at(alloc, bytes, tokens, k, before, known, &mut notes)?;
        before = go_on(bytes, tokens, k, before);
        k += 1;
    }
    Ok(notes)
}
