//! What is told of notes.
ghost use Rattle.std.specs.Prelude.{Contains, ◌≡◌, ◌≤◌, ◌||◌, ◌++◌, ◌∷◌, [], ℕ, List, length, take, IfOk, OnOk};
ghost use Rattle.std.specs.List.{flat_map};
ghost use Rattle.std.specs.Str.{bytes_eq};
ghost use Rattle.sap_notes.specs.declared.note.Kind.TheVariants.{CapturedName, ComparedName, OtherSymbol, UnshownFact, UnspokenEvent, UnusedDefinition, UnusedSymbol};
ghost use Rattle.sap_notes.specs.declared.note.Note.{Note as NoteOf};
ghost use Rattle.sap_stretches.specs.Lines.{IsLineOf};
ghost use Rattle.sap_stretches.specs.Stretches.{IsInBytes, bytes_in};
ghost use Rattle.sap_notes.specs.Notes.{AreAscending};
ghost use Rattle.sap_notes.specs.code.Once.{once};
ghost use Rattle.sap_notes.specs.NotesTold.{AreNotesTold, IsNoteTold, and_more, behind_comma, builtins_with, event_list, event_names, is_of_event, sentence, with_commas, with_one_event};

use crate::note::{Kind, Note};
use sap_stretches::{Line, Stretch, line_behind, line_of, push_place_in};
use sap_terms::{Items, Mem, Name};
use sap_text::Text;
use std::alloc::Global;

/// So many events are told by their names.
const MOST_EVENTS: usize = 8;

// Whether these are the same bytes.
fn is(name: &[u8], symbol: &[u8]) -> bool
    ensures { result ≡ bytes_eq name.now symbol.now }
{
    name == symbol
}

// The builtins that have an equation that speaks of the symbol of this name.
fn builtins_with(name: &[u8]) -> &'static [u8]
    ensures { result.now ≡ builtins_with name.now }
{
    if is(name, b"senc") || is(name, b"sdec") {
        b"symmetric-encryption"
    } else if is(name, b"aenc") || is(name, b"adec") {
        b"asymmetric-encryption"
    } else if is(name, b"pk") {
        b"asymmetric-encryption, signing or revealing-signing"
    } else if is(name, b"sign") || is(name, b"verify") {
        b"signing"
    } else if is(name, b"true") {
        b"signing or revealing-signing"
    } else {
        b"revealing-signing"
    }
}

// The bytes of a stretch.
fn bytes_at(bytes: &[u8], stretch: Stretch) -> &[u8]
    requires { IsInBytes (length bytes.now) stretch }
    ensures { result.now ≡ bytes_in bytes.now stretch }
{
    &bytes[stretch.from as usize..stretch.to as usize]
}

// Whether the note is one of an event of which no formula speaks.
fn is_of_event(kind: Kind) -> bool
    ensures { result ≡ is_of_event kind }
{
    matches!(kind, Kind::UnspokenEvent)
}

// Puts last the name at which this note stands, if it is one of an event.
fn push_event(alloc: Global, names: &mut Items<Name>, bytes: &[u8], note: Note) -> Result<(), Mem>
    requires { IsInBytes (length bytes.now) note.word }
    ensures { OnOk result (names.new ≡ names.old ++ event_names bytes.now (note ∷ [])) }
{
    if is_of_event(note.kind) {
        names.push(Name::from_bytes(alloc, bytes_at(bytes, note.word))?)?;
    }
    Ok(())
}

// The names of the events of which no formula speaks.
fn events_of(alloc: Global, bytes: &[u8], notes: &[Note]) -> Result<Items<Name>, Mem>
    requires { (n : NoteOf) → Contains notes.now n → IsInBytes (length bytes.now) n.word }
    ensures { IfOk result (λ names. names ≡ event_names bytes.now notes.now) }
{
    let mut names = Items::new(alloc);
    for note in notes {
        push_event(alloc, &mut names, bytes, *note)?;
    }
    Ok(names)
}

// Puts last a note, but for one of an event where one was met; whether one is met now.
fn push_once(told: &mut Items<Note>, met: bool, note: Note) -> Result<bool, Mem>
    ensures told { OnOk result (told.new ≡ told.old ++ once met note) }
    ensures met { IfOk result (λ b. b ≡ (met || is_of_event note.kind)) }
{
    let is = is_of_event(note.kind);
    if !(met && is) {
        told.push(note)?;
    }
    Ok(met || is)
}

// The notes, of those of events the first alone.
fn one_event(alloc: Global, notes: &[Note]) -> Result<Items<Note>, Mem>
    ensures { IfOk result (λ told. told ≡ with_one_event notes.now) }
{
    let mut told = Items::new(alloc);
    let mut met = false;
    for note in notes {
        met = push_once(&mut told, met, *note)?;
    }
    Ok(told)
}

// Puts last these names, each behind a comma.
fn push_behind(text: &mut Text, names: &[Name]) -> Result<(), Mem>
    ensures { OnOk result (text.new ≡ text.old ++ flat_map behind_comma names.now) }
{
    for name in names {
        text.push_bytes(b", ")?;
        text.push_bytes(name.as_bytes())?;
    }
    Ok(())
}

// Puts last these names, with commas between them.
fn push_names(text: &mut Text, names: &[Name]) -> Result<(), Mem>
    ensures { OnOk result (text.new ≡ text.old ++ with_commas names.now) }
{
    match names.split_first() {
        None => Ok(()),
        Some((first, more)) => {
            text.push_bytes(first.as_bytes())?;
            push_behind(text, more)
        }
    }
}

// Puts last how many more than are told there are.
fn push_more(text: &mut Text, count: usize) -> Result<(), Mem>
    ensures { OnOk result (text.new ≡ text.old ++ and_more count) }
{
    if count <= MOST_EVENTS {
        return Ok(());
    }
    text.push_bytes(b" and ")?;
    text.push_number((count - MOST_EVENTS) as u64)?;
    text.push_bytes(b" more")
}

// The first of them, so many as are told.
fn first_events(names: &[Name]) -> &[Name]
    ensures { result.now ≡ take MOST_EVENTS names.now }
{
    if names.len() <= MOST_EVENTS {
        names
    } else {
        &names[..MOST_EVENTS]
    }
}

// Puts last these events.
fn push_events(text: &mut Text, names: &[Name]) -> Result<(), Mem>
    ensures { OnOk result (text.new ≡ text.old ++ event_list names.now) }
{
    push_names(text, first_events(names))?;
    push_more(text, names.len())
}

// Puts last what a note on a symbol means that isn't that of a builtin, and what to write.
fn push_other(text: &mut Text, name: &[u8]) -> Result<(), Mem>
    ensures { OnOk result (text.new ≡ text.old ++ sentence [] OtherSymbol name.now) }
{
    text.push_bytes(b"No equation speaks of this symbol, so nothing undoes it: name builtins: ")?;
    text.push_bytes(builtins_with(name))?;
    text.push_bytes(b" in place of this declaration.")
}

// Puts last what one on events means.
fn push_unspoken(text: &mut Text, events: &[Name]) -> Result<(), Mem>
    ensures { OnOk result (text.new ≡ text.old ++ sentence events.now UnspokenEvent []) }
{
    text.push_bytes(b"No restriction or lemma speaks of these events with as many arguments: ")?;
    push_events(text, events)?;
    text.push_bytes(b". Speak of them there, or leave them out.")
}

// Puts last what a note of this kind means, and what to write, where it stands at these bytes, and these are the events.
fn push_sentence(text: &mut Text, events: &[Name], kind: Kind, word: &[u8]) -> Result<(), Mem>
    ensures { OnOk result (text.new ≡ text.old ++ sentence events.now kind word.now) }
{
    match kind {
        Kind::OtherSymbol => push_other(text, word),
        Kind::UnusedSymbol => text.push_bytes(
            b"No term has this symbol: use it, or leave its declaration out.",
        ),
        Kind::UnusedDefinition => text.push_bytes(
            b"The process doesn't lead to this let: use it there, or leave it out.",
        ),
        Kind::UnshownFact => text.push_bytes(
            b"No place of the process shows this fact with as many arguments: write a fact that an event shows, or show this one.",
        ),
        Kind::UnspokenEvent => push_unspoken(text, events),
        Kind::CapturedName => text.push_bytes(
            b"This name is new to the process: what comes in is bound to it, by a pattern of the definition. To hand down a value, bind the name in front of the use; to bind a name of the definition's own, leave the parameter out.",
        ),
        Kind::ComparedName => text.push_bytes(
            b"This variable is bound already: only a message that is equal to its value comes in. For any message, write a new name.",
        ),
    }
}

// Puts last a note in this line of the bytes.
fn push_note(
    text: &mut Text,
    bytes: &[u8],
    events: &[Name],
    note: Note,
    line: Line,
) -> Result<(), Mem>
    requires line { IsLineOf bytes.now line }
    requires place { line.at ≡ note.word.from }
    requires inside { IsInBytes (length bytes.now) note.word }
    ensures { OnOk result ((t : List ℕ) × (text.new ≡ text.old ++ t) × IsNoteTold bytes.now events.now note t) }
{
    push_place_in(text, bytes, note.word, line)?;
    push_sentence(text, events, note.kind, bytes_at(bytes, note.word))?;
    text.push_bytes(b"\n")
}

// Puts last these notes, one after another.
fn push_all(text: &mut Text, bytes: &[u8], events: &[Name], notes: &[Note]) -> Result<(), Mem>
    requires order { AreAscending notes.now }
    requires inside { (n : NoteOf) → Contains notes.now n → IsInBytes (length bytes.now) n.word }
    ensures { OnOk result ((t : List ℕ) × (text.new ≡ text.old ++ t) × AreNotesTold bytes.now events.now notes.now t) }
{
    let mut line = line_of(bytes, 0);
    let mut k = 0;
    while k < notes.len() {
        line = line_behind(bytes, line, notes[k].word.from);
        push_note(text, bytes, events, notes[k], line)?;
        k += 1;
    }
    Ok(())
}

/// Puts last these notes, one after another, and events of which no formula speaks in one. The time is linear in the bytes and in what is
/// told.
pub(crate) fn push_told(
    alloc: Global,
    text: &mut Text,
    bytes: &[u8],
    notes: &[Note],
) -> Result<(), Mem>
    requires order { AreAscending notes.now }
    requires inside { (n : NoteOf) → Contains notes.now n → IsInBytes (length bytes.now) n.word }
    ensures { OnOk result ((t : List ℕ) × (text.new ≡ text.old ++ t)
        × AreNotesTold bytes.now (event_names bytes.now notes.now) (with_one_event notes.now) t) }
{
    let events = events_of(alloc, bytes, notes)?;
    let told = one_event(alloc, notes)?;
    push_all(text, bytes, events.as_slice(), told.as_slice())
}
