//! The notes on a file.
ghost use Rattle.std.specs.Prelude.{Contains, [], map, ◌≡◌, ◌<◌, ◌≤◌, ◌++◌, ℕ, List, length, IfOk, OnOk};
ghost use Rattle.sap_process.specs.Proc.{proc};
ghost use Rattle.sap_read.specs.FileExpansions.{IsFileExpansion};
ghost use Rattle.sap_notes.specs.code.Ranked.{AreRanked, note_of};
ghost use Rattle.sap_notes.specs.declared.note.Note.{Note as NoteOf};
ghost use Rattle.sap_read.specs.FileTokens.{HasTokens};
ghost use Rattle.sap_read.specs.WrittenFiles.{IsWrittenFile};
ghost use Rattle.sap_stretches.specs.Stretches.{IsInBytes};
ghost use Rattle.std.specs.List.{flat_map};
ghost use Rattle.sap_macro.specs.Order.{AreInOrder};
ghost use Rattle.sap_macro.specs.Sources.{definitions, written as source_of};
ghost use Rattle.sap_statements.specs.Statements.{formula_of};
ghost use Rattle.sap_notes.specs.Symbols.{definition_symbols, formula_symbols, process_symbols};
ghost use Rattle.sap_notes.specs.code.Gathered.{gathered};
ghost use Rattle.sap_notes.specs.code.Led.{AreLedTo};
ghost use Rattle.sap_notes.specs.Notes.{AreNotes};
ghost use Rattle.sap_notes.specs.NotesTold.{IsNotesText};

use crate::fact_words::{FactNotes, Search, first_notes};
use crate::facts::{facts_of, shown_by};
use crate::find::{Known, found_notes};
use crate::led::led_to;
use crate::merge::merged;
use crate::note::{Kind, Note};
use crate::symbols::symbols_of;
use crate::told::push_told;
use sap_captures::{Kind as Taken, told_stretches};
use sap_grammar::facts_are_read;
use sap_process::Process;
use sap_read::{WrittenFile, one_list_of_items, one_parting};
use sap_stretches::Stretch;
use sap_terms::{Items, Mem, NameSet};
use sap_text::{Text, Token, spans_in_order};
use std::alloc::Global;

// The symbols in its terms.
fn symbols_in(alloc: Global, file: &WrittenFile) -> Result<NameSet, Mem>
    ensures { IfOk result (λ names. names ≡ gathered [] (flat_map definition_symbols (definitions file.now.processes.definitions)
        ++ (process_symbols (source_of file.now.processes.main.value)
        ++ flat_map formula_symbols (map formula_of file.now.statements)))) }
{
    symbols_of(
        alloc,
        &file.processes.definitions,
        &file.processes.main,
        &file.statements,
    )
}

// The names to which its process leads.
fn led_in(alloc: Global, file: &WrittenFile) -> Result<NameSet, Mem>
    requires { AreInOrder [] (definitions file.now.processes.definitions) }
    ensures { IfOk result (λ names. AreLedTo (definitions file.now.processes.definitions)
        (source_of file.now.processes.main.value) names) }
{
    led_to(alloc, &file.processes.definitions, &file.processes.main)
}

// The notes on functions and definitions.
fn word_notes(
    alloc: Global,
    bytes: &[u8],
    tokens: &[Token],
    written: &WrittenFile,
    led: &NameSet,
    process: &Process,
) -> Result<Items<Note>, Mem>
    requires tokens { HasTokens bytes.now tokens.now }
    requires written { IsWrittenFile bytes.now written.now }
    requires process { IsFileExpansion written.now (proc process.now) }
    requires led { AreLedTo (definitions written.now.processes.definitions) (source_of written.now.processes.main.value) led.now }
    ensures { IfOk result (AreRanked 0 3 bytes.now) }
{
    one_parting();
    one_list_of_items();
    spans_in_order();
    let symbols = symbols_in(alloc, written)?;
    let known = Known {
        signature: &written.declared.signature,
        symbols: &symbols,
        led,
    };
    found_notes(alloc, bytes, tokens, &known)
}

// Those on facts that were found, of events where there is a formula.
fn join_facts(
    alloc: Global,
    bytes: &[u8],
    written: &WrittenFile,
    found: &FactNotes,
) -> Result<Items<Note>, Mem>
    requires said { AreRanked 3 4 bytes.now found.now.said }
    requires shown { 0 < length written.now.statements → AreRanked 4 5 bytes.now found.now.shown }
    requires none { length written.now.statements ≡ 0 → AreRanked 4 5 bytes.now [] }
    ensures { IfOk result (AreRanked 3 5 bytes.now) }
{
    if 0 < written.statements.len() {
        merged(alloc, found.said.as_slice(), found.shown.as_slice())
    } else {
        merged(alloc, found.said.as_slice(), &[])
    }
}

// Those on facts of restrictions and lemmas that are never shown, and on events of which no formula speaks.
fn fact_notes(
    alloc: Global,
    bytes: &[u8],
    tokens: &[Token],
    written: &WrittenFile,
    led: &NameSet,
    process: &Process,
) -> Result<Items<Note>, Mem>
    requires tokens { HasTokens bytes.now tokens.now }
    requires written { IsWrittenFile bytes.now written.now }
    requires process { IsFileExpansion written.now (proc process.now) }
    requires led { AreLedTo (definitions written.now.processes.definitions) (source_of written.now.processes.main.value) led.now }
    ensures { IfOk result (AreRanked 3 5 bytes.now) }
{
    one_parting();
    one_list_of_items();
    spans_in_order();
    facts_are_read();
    let shown = shown_by(alloc, process)?;
    let spoken = facts_of(alloc, &written.statements)?;
    let search = Search {
        signature: &written.declared.signature,
        led,
    };
    let found = first_notes(alloc, bytes, tokens, &search, shown, spoken)?;
    join_facts(alloc, bytes, written, &found)
}

// Those at these stretches.
fn notes_at(alloc: Global, stretches: &[Stretch], kind: Kind) -> Result<Items<Note>, Mem>
    ensures { IfOk result (λ notes. notes ≡ map (note_of kind) stretches.now) }
{
    let mut notes = Items::new(alloc);
    for word in stretches {
        notes.push(Note { kind, word: *word })?;
    }
    Ok(notes)
}

// Those on names in arguments of uses that patterns bind.
fn captured_notes(
    alloc: Global,
    bytes: &[u8],
    tokens: &[Token],
    written: &WrittenFile,
    process: &Process,
) -> Result<Items<Note>, Mem>
    requires tokens { HasTokens bytes.now tokens.now }
    requires written { IsWrittenFile bytes.now written.now }
    requires process { IsFileExpansion written.now (proc process.now) }
    ensures { IfOk result (AreRanked 5 6 bytes.now) }
{
    let told = told_stretches(alloc, bytes, tokens, written, process, Taken::Captured)?;
    notes_at(alloc, told.as_slice(), Kind::CapturedName)
}

// Those on patterns that are compared.
fn compared_notes(
    alloc: Global,
    bytes: &[u8],
    tokens: &[Token],
    written: &WrittenFile,
    process: &Process,
) -> Result<Items<Note>, Mem>
    requires tokens { HasTokens bytes.now tokens.now }
    requires written { IsWrittenFile bytes.now written.now }
    requires process { IsFileExpansion written.now (proc process.now) }
    ensures { IfOk result (AreRanked 6 7 bytes.now) }
{
    let told = told_stretches(alloc, bytes, tokens, written, process, Taken::Compared)?;
    notes_at(alloc, told.as_slice(), Kind::ComparedName)
}

// Both lists of notes as one.
fn both(alloc: Global, ns: &Items<Note>, ms: &Items<Note>) -> Result<Items<Note>, Mem>
    ensures { (z : List ℕ) (low mid high : ℕ) → low ≤ mid → mid ≤ high → AreRanked low mid z ns.now → AreRanked mid high z ms.now
        → IfOk result (AreRanked low high z) }
{
    merged(alloc, ns.as_slice(), ms.as_slice())
}

// The notes on functions, definitions and facts.
fn notes_by_words(
    alloc: Global,
    bytes: &[u8],
    tokens: &[Token],
    written: &WrittenFile,
    process: &Process,
) -> Result<Items<Note>, Mem>
    requires tokens { HasTokens bytes.now tokens.now }
    requires written { IsWrittenFile bytes.now written.now }
    requires process { IsFileExpansion written.now (proc process.now) }
    ensures { IfOk result (AreRanked 0 5 bytes.now) }
{
    let led = led_in(alloc, written)?;
    let words = word_notes(alloc, bytes, tokens, written, &led, process)?;
    let facts = fact_notes(alloc, bytes, tokens, written, &led, process)?;
    both(alloc, &words, &facts)
}

// Those on names that patterns take.
fn notes_on_names(
    alloc: Global,
    bytes: &[u8],
    tokens: &[Token],
    written: &WrittenFile,
    process: &Process,
) -> Result<Items<Note>, Mem>
    requires tokens { HasTokens bytes.now tokens.now }
    requires written { IsWrittenFile bytes.now written.now }
    requires process { IsFileExpansion written.now (proc process.now) }
    ensures { IfOk result (AreRanked 5 7 bytes.now) }
{
    let captured = captured_notes(alloc, bytes, tokens, written, process)?;
    let compared = compared_notes(alloc, bytes, tokens, written, process)?;
    both(alloc, &captured, &compared)
}

/// The notes that are true of a file, in its order. What was read of it, and its process, are lent, and nothing of it is read again but
/// facts, each once or twice. The time is linear in the tokens, in what is written and in the process, but for names and facts, which are
/// looked up, and for what `told_stretches` of `sap_captures` says. Want of memory is the only error.
pub fn notes_on(
    alloc: Global,
    bytes: &[u8],
    tokens: &[Token],
    written: &WrittenFile,
    process: &Process,
) -> Result<Items<Note>, Mem>
    requires tokens { HasTokens bytes.now tokens.now }
    requires written { IsWrittenFile bytes.now written.now }
    requires process { IsFileExpansion written.now (proc process.now) }
    ensures notes { IfOk result (AreNotes bytes.now) }
    ensures inside { IfOk result (λ notes. (n : NoteOf) → Contains notes n → IsInBytes (length bytes.now) n.word) }
{
    let words = notes_by_words(alloc, bytes, tokens, written, process)?;
    let names = notes_on_names(alloc, bytes, tokens, written, process)?;
    both(alloc, &words, &names)
}

/// Puts last the notes that are true of a file, in its order: each with where it stands, as `push_place` tells it, and one sentence of
/// what it means and what to write; of events of which no formula speaks all in the first. Want of memory is the only error.
pub fn push_notes(
    alloc: Global,
    text: &mut Text,
    bytes: &[u8],
    tokens: &[Token],
    written: &WrittenFile,
    process: &Process,
) -> Result<(), Mem>
    requires tokens { HasTokens bytes.now tokens.now }
    requires written { IsWrittenFile bytes.now written.now }
    requires process { IsFileExpansion written.now (proc process.now) }
    ensures { OnOk result ((t : List ℕ) × (text.new ≡ text.old ++ t) × IsNotesText bytes.now t) }
{
    let notes = notes_on(alloc, bytes, tokens, written, process)?;
    push_told(alloc, text, bytes, notes.as_slice())
}
