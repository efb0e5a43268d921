//! Two lists of notes as one.
ghost use Rattle.std.specs.Prelude.{◌≡◌, ◌++◌, IfOk, OnOk};
ghost use Rattle.sap_notes.specs.Notes.{rank};
ghost use Rattle.sap_notes.specs.code.Ranked.{ahead_of, comes_before, from_there, merged};

use crate::note::{Kind, Note};
use sap_terms::{Items, Mem};
use std::alloc::Global;

// Where notes of this kind stand among those at one word.
fn rank(kind: Kind) -> u8
    ensures { result ≡ rank kind }
{
    match kind {
        Kind::OtherSymbol => 0,
        Kind::UnusedSymbol => 1,
        Kind::UnusedDefinition => 2,
        Kind::UnshownFact => 3,
        Kind::UnspokenEvent => 4,
        Kind::CapturedName => 5,
        Kind::ComparedName => 6,
    }
}

// Whether the first note stands before the second.
fn comes_before(n: Note, m: Note) -> bool
    ensures { result ≡ comes_before n m }
{
    n.word.from < m.word.from || (n.word.from == m.word.from && rank(n.kind) < rank(m.kind))
}

// Puts last those that stand before this one, and gives those that don't.
fn push_ahead<'a>(all: &mut Items<Note>, n: Note, notes: &'a [Note]) -> Result<&'a [Note], Mem>
    ensures all { OnOk result (all.new ≡ all.old ++ ahead_of n notes.now) }
    ensures rest { IfOk result (λ rest. rest.now ≡ from_there n notes.now) }
{
    let mut k = 0;
    while k < notes.len() && comes_before(notes[k], n) {
        all.push(notes[k])?;
        k += 1;
    }
    Ok(&notes[k..])
}

// Puts these last.
fn push_all(all: &mut Items<Note>, notes: &[Note]) -> Result<(), Mem>
    ensures { OnOk result (all.new ≡ all.old ++ notes.now) }
{
    for note in notes {
        all.push(*note)?;
    }
    Ok(())
}

/// Both lists as one, in order where both are. The time is linear in both. Want of memory is the only error.
pub(crate) fn merged(alloc: Global, ns: &[Note], ms: &[Note]) -> Result<Items<Note>, Mem>
    ensures { IfOk result (λ all. all ≡ merged ns.now ms.now) }
{
    let mut all = Items::new(alloc);
    let mut rest = ms;
    for n in ns {
        rest = push_ahead(&mut all, *n, rest)?;
        all.push(*n)?;
    }
    push_all(&mut all, rest)?;
    Ok(all)
}
