//! The notes on facts, found word by word.
ghost use Rattle.std.specs.Prelude.{◌≡◌, ◌<◌, ◌+◌, ◌++◌, ℕ, Some, codes, drop, length, IfOk, OnOk};
ghost use Rattle.sap_grammar.specs.Words.{words_of};
ghost use Rattle.sap_stretches.specs.Stretches.{stretch_at};
ghost use Rattle.sap_where.specs.Beginnings.{begins_item};
ghost use Rattle.sap_notes.specs.FactWords.{in_statement, is_behind_event, is_in_arrow, item_before};
ghost use Rattle.sap_notes.specs.code.FirstNotes.{fact_name, first_notes, is_run_item, new_note, said_key, shown_key};
ghost use Rattle.sap_notes.specs.code.Walk.{with_named};
ghost use Rattle.sap_notes.specs.declared.note.Kind.TheVariants as kinds;

use crate::facts::key_of;
use crate::find::name_there;
use crate::note::{Kind, Note};
use sap_grammar::{beyond, read_short_fact};
use sap_read::FILE_LIMITS;
use sap_stretches::{Stretch, stretch_at};
use sap_terms::{Items, Mem, Name, NameSet, Signature};
use sap_text::Token;
use sap_where::{begins_item, stands};
use std::alloc::Global;

/// What is known of a file: what it declares, and the names to which its process leads.
#[derive(Clone, Copy)]
pub(crate) struct Search<'a> {
    pub signature: &'a Signature,
    pub led: &'a NameSet,
}

/// The notes on facts of restrictions and lemmas, and those on events.
#[derive(Drop)]
pub(crate) struct FactNotes {
    pub said: Items<Note>,
    pub shown: Items<Note>,
}

// What is known before a word: whether it stands in a restriction or a lemma, whether in the process or a definition to which it leads,
// whether behind `event`, and whether between the signs round what a rule shows.
#[derive(Clone, Copy)]
struct Before {
    statement: bool,
    runs: bool,
    event: bool,
    arrow: bool,
}

// Whether the item that begins with this token is the process, or a definition to which it leads.
fn is_run_item(
    alloc: Global,
    bytes: &[u8],
    tokens: &[Token],
    led: &NameSet,
    k: usize,
) -> Result<bool, Mem>
    requires { k < length tokens.now }
    ensures { IfOk result (λ b. b ≡ is_run_item led.now bytes.now tokens.now (Some k)) }
{
    if stands(bytes, tokens, "process", k) {
        return Ok(true);
    }
    if !stands(bytes, tokens, "let", k) {
        return Ok(false);
    }
    match name_there(alloc, bytes, tokens, k + 1)? {
        Some(name) => Ok(led.contains(&name)),
        None => Ok(false),
    }
}

// Whether a word behind this one stands in such an item, by whether an item begins here, and whether one at this place does.
#[allow(clippy::too_many_arguments)]
fn runs_on(
    alloc: Global,
    bytes: &[u8],
    tokens: &[Token],
    led: &NameSet,
    k: usize,
    begins: bool,
    runs: bool,
) -> Result<bool, Mem>
    requires inside { k < length tokens.now }
    requires begins { begins ≡ begins_item (words_of bytes.now (drop k tokens.now)) }
    requires runs { runs ≡ is_run_item led.now bytes.now tokens.now (item_before bytes.now tokens.now k) }
    ensures { IfOk result (λ b. b ≡ is_run_item led.now bytes.now tokens.now (item_before bytes.now tokens.now (k + 1))) }
{
    if begins {
        is_run_item(alloc, bytes, tokens, led, k)
    } else {
        Ok(runs)
    }
}

// Whether one behind this one stands in a restriction or a lemma.
fn states_on(bytes: &[u8], tokens: &[Token], k: usize, begins: bool, statement: bool) -> bool
    requires begins { begins ≡ begins_item (words_of bytes.now (drop k tokens.now)) }
    requires statement { statement ≡ in_statement bytes.now tokens.now k }
    ensures { result ≡ in_statement bytes.now tokens.now (k + 1) }
{
    if begins {
        stands(bytes, tokens, "restriction", k) || stands(bytes, tokens, "lemma", k)
    } else {
        statement
    }
}

// Whether one behind this one stands between the signs round what a rule shows.
fn shows_on(bytes: &[u8], tokens: &[Token], k: usize, arrow: bool) -> bool
    requires { arrow ≡ is_in_arrow bytes.now tokens.now k }
    ensures { result ≡ is_in_arrow bytes.now tokens.now (k + 1) }
{
    stands(bytes, tokens, "--[", k) || (arrow && !stands(bytes, tokens, "]->", k))
}

// What is known behind this word, by what is before it.
fn go_on(
    alloc: Global,
    bytes: &[u8],
    tokens: &[Token],
    led: &NameSet,
    k: usize,
    before: Before,
) -> Result<Before, Mem>
    requires inside { k < length tokens.now }
    requires statement { before.statement ≡ in_statement bytes.now tokens.now k }
    requires runs { before.runs ≡ is_run_item led.now bytes.now tokens.now (item_before bytes.now tokens.now k) }
    requires arrow { before.arrow ≡ is_in_arrow bytes.now tokens.now k }
    ensures statement { IfOk result (λ b. b.statement ≡ in_statement bytes.now tokens.now (k + 1)) }
    ensures runs { IfOk result (λ b. b.runs ≡ is_run_item led.now bytes.now tokens.now (item_before bytes.now tokens.now (k + 1))) }
    ensures event { IfOk result (λ b. b.event ≡ is_behind_event bytes.now tokens.now (k + 1)) }
    ensures arrow { IfOk result (λ b. b.arrow ≡ is_in_arrow bytes.now tokens.now (k + 1)) }
{
    let begins = begins_item(bytes, beyond(k, tokens));
    let runs = runs_on(alloc, bytes, tokens, led, k, begins, before.runs)?;
    Ok(Before {
        statement: states_on(bytes, tokens, k, begins, before.statement),
        runs,
        event: stands(bytes, tokens, "event", k),
        arrow: shows_on(bytes, tokens, k, before.arrow),
    })
}

// The fact that begins with this token, if one does.
fn fact_there(
    alloc: Global,
    signature: &Signature,
    bytes: &[u8],
    tokens: &[Token],
    k: usize,
) -> Result<Option<Name>, Mem>
    ensures { IfOk result (λ o. o ≡ fact_name signature.now bytes.now tokens.now k) }
{
    match read_short_fact(
        alloc,
        signature,
        FILE_LIMITS,
        bytes,
        false,
        beyond(k, tokens),
    )? {
        Some((fact, _)) => Ok(Some(key_of(alloc, &fact)?)),
        None => Ok(None),
    }
}

// The fact of a restriction or a lemma that begins with this token, if one does.
fn said_there(
    alloc: Global,
    signature: &Signature,
    bytes: &[u8],
    tokens: &[Token],
    k: usize,
    before: Before,
) -> Result<Option<Name>, Mem>
    requires { before.statement ≡ in_statement bytes.now tokens.now k }
    ensures { IfOk result (λ o. o ≡ said_key signature.now bytes.now tokens.now k) }
{
    if before.statement {
        fact_there(alloc, signature, bytes, tokens, k)
    } else {
        Ok(None)
    }
}

// The fact that is shown and begins with this token, if one does.
fn shown_there(
    alloc: Global,
    bytes: &[u8],
    tokens: &[Token],
    search: &Search<'_>,
    k: usize,
    before: Before,
) -> Result<Option<Name>, Mem>
    requires runs { before.runs ≡ is_run_item search.now.led.now bytes.now tokens.now (item_before bytes.now tokens.now k) }
    requires event { before.event ≡ is_behind_event bytes.now tokens.now k }
    requires arrow { before.arrow ≡ is_in_arrow bytes.now tokens.now k }
    ensures { IfOk result (λ o. o ≡ shown_key search.now.signature.now search.now.led.now bytes.now tokens.now k) }
{
    if (before.event || before.arrow) && before.runs {
        fact_there(alloc, search.signature, bytes, tokens, k)
    } else {
        Ok(None)
    }
}

// Puts last the note on this fact, and it is seen now; where it was seen before, there is none.
fn push_new(
    notes: &mut Items<Note>,
    seen: &mut NameSet,
    kind: Kind,
    key: Option<Name>,
    word: Stretch,
) -> Result<(), Mem>
    ensures notes { OnOk result (notes.new ≡ notes.old ++ new_note kind seen.old key word) }
    ensures seen { OnOk result (seen.new ≡ with_named seen.old key) }
{
    match key {
        None => Ok(()),
        Some(name) => {
            let (_, is_new) = seen.insert(&name)?;
            if is_new {
                notes.push(Note { kind, word })?;
            }
            Ok(())
        }
    }
}

/// The notes on facts of restrictions and lemmas but for those that are shown, and on events but for those of which a formula speaks, each
/// at the first token that begins it. The time is linear in the tokens, but for facts and names, which are looked up. Want of memory is
/// the only error.
pub(crate) fn first_notes(
    alloc: Global,
    bytes: &[u8],
    tokens: &[Token],
    search: &Search<'_>,
    shown: NameSet,
    spoken: NameSet,
) -> Result<FactNotes, Mem>
    ensures said { IfOk result (λ f. f.said ≡ first_notes (λ k. said_key search.now.signature.now bytes.now tokens.now k)
        shown kinds.UnshownFact tokens.now (length tokens.now)) }
    ensures shown { IfOk result (λ f. f.shown ≡ first_notes (λ k. shown_key search.now.signature.now search.now.led.now bytes.now tokens.now k)
        spoken kinds.UnspokenEvent tokens.now (length tokens.now)) }
{
    let mut found = FactNotes {
        said: Items::new(alloc),
        shown: Items::new(alloc),
    };
    let mut seen = shown;
    let mut heard = spoken;
    let mut before = Before {
        statement: false,
        runs: false,
        event: false,
        arrow: false,
    };
    let mut k = 0;
    while k < tokens.len() {
        let word = stretch_at(tokens, k);
        let said = said_there(alloc, search.signature, bytes, tokens, k, before)?;
        push_new(&mut found.said, &mut seen, Kind::UnshownFact, said, word)?;
        let event = shown_there(alloc, bytes, tokens, search, k, before)?;
        push_new(
            &mut found.shown,
            &mut heard,
            Kind::UnspokenEvent,
            event,
            word,
        )?;
        before = go_on(alloc, bytes, tokens, search.led, k, before)?;
        k += 1;
    }
    Ok(found)
}
