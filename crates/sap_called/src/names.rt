//! The names that a run has drawn.
ghost use Rattle.std.specs.Prelude.{◌≡◌, ◌+◌, ◌<◌, ◌++◌, [], ◌∷◌, IfNone, IfOk, IfSome, OnErr, OnOk, None, Some, codes, decimal, length, nat_eq, option_map, slice_get};
ghost use Rattle.indexmap.specs.IndexMap.{get, spare};
ghost use Rattle.sap_terms.specs.NameMap.{Puts};
ghost use Rattle.sap_called.specs.Names.{Draw, adversary_word, called, count_of, draw, names_text, numbered, with_draw};
ghost use Rattle.sap_called.specs.code.Kept.{IsBehind, IsLinePushed, counted};

use crate::drawn::Drawn;
use indexmap::IndexMap;
use sap_terms::{Copied, Mem, Name, NameMap};
use sap_text::Text;
use std::alloc::Global;
use std::marker::Model;

/// The names that a run has drawn so far, in the order of drawing, each with its word. A name is found by its number, and the next
/// of a word by the word, without a pass over the others.
#[derive(Drop)]
pub struct Names {
    drawn: IndexMap<u64, Drawn>,
    counts: NameMap<u64>,
}

impl Model for Names {
    ghost use Rattle.std.specs.Prelude.{List};
    ghost use Rattle.sap_called.specs.Names.{Draw};
    ghost use Rattle.sap_called.specs.code.Kept.{draws_of, IsKept};

    ghost Value = { List Draw };

    ghost view = { λ a. draws_of a.drawn.entries };

    ghost invariant = { λ a. IsKept a.drawn.entries a.counts };
}

// Puts a new name last, for which memory was found.
fn put_last(drawn: &mut IndexMap<u64, Drawn>, number: u64, word: Name, which: u64)
    requires spare { 0 < spare drawn.old }
    requires new { get nat_eq drawn.old number ≡ None }
    ensures { IsBehind drawn.old.entries number word which drawn.new.entries }
{
    match drawn.insert(number, Drawn { word, which }) {
        Ok(_) => {}
        Err(_) => unreachable!(),
    }
}

// Puts a new name last, and counts it for its word. Refused, nothing changes.
fn keep(
    alloc: Global,
    drawn: &mut IndexMap<u64, Drawn>,
    counts: &mut NameMap<u64>,
    number: u64,
    word: &Name,
    which: u64,
) -> Result<(), Mem>
    requires { get nat_eq drawn.old number ≡ None }
    ensures drawn { OnOk result (IsBehind drawn.old.entries number word.now which drawn.new.entries) }
    ensures counted { OnOk result (Puts counts.old counts.new word.now (Some which)) }
    ensures same_drawn { OnErr result (drawn.new.entries ≡ drawn.old.entries) }
    ensures same_counts { OnErr result (counts.new ≡ counts.old) }
{
    let key = word.copy(alloc)?;
    let copy = word.copy(alloc)?;
    drawn.reserve(1)?;
    counts.insert(key, which)?;
    put_last(drawn, number, copy, which);
    Ok(())
}

// Which one of the word the next name is, by how many there are.
fn next_of(counts: &NameMap<u64>, word: &Name) -> Result<u64, Mem>
    ensures { IfOk result (λ k. k ≡ counted counts.now word.now + 1) }
{
    match counts.get(word) {
        Some(count) => count.checked_add(1).ok_or(Mem),
        None => Ok(1),
    }
}

impl Names {
    /// No name was drawn. It takes no memory.
    pub fn new(alloc: Global) -> Names
        ensures { result ≡ [] }
    {
        Names {
            drawn: IndexMap::new(alloc),
            counts: NameMap::new(alloc),
        }
    }

    /// How many were drawn.
    pub fn len(&self) -> usize
        ensures { result ≡ length self.now }
    {
        self.drawn.len()
    }

    /// The name of this number is drawn by this word, unless it was drawn before. Refused, nothing changes.
    pub fn draw(&mut self, alloc: Global, number: u64, word: &Name) -> Result<(), Mem>
        ensures ok { OnOk result (self.new ≡ with_draw self.old (draw number word.now)) }
        ensures err { OnErr result (self.new ≡ self.old) }
    {
        if self.drawn.contains_key(&number) {
            return Ok(());
        }
        let which = next_of(&self.counts, word)?;
        keep(
            alloc,
            &mut self.drawn,
            &mut self.counts,
            number,
            word,
            which,
        )
    }

    /// The adversary draws the name of this number, unless it was drawn before. Refused, nothing changes.
    pub fn draw_own(&mut self, alloc: Global, number: u64) -> Result<(), Mem>
        ensures ok { OnOk result (self.new ≡ with_draw self.old (draw number adversary_word)) }
        ensures err { OnErr result (self.new ≡ self.old) }
    {
        let word = Name::from_bytes(alloc, b"adv")?;
        self.draw(alloc, number, &word)
    }

    // The number of the name that was drawn as this one, from 0.
    fn number(&self, k: usize) -> Option<u64>
        ensures { result ≡ option_map (λ (d : Draw). d.name) (slice_get self.now k) }
    {
        match self.drawn.get_index(k) {
            Some((number, _)) => Some(*number),
            None => None,
        }
    }

    // What is kept of the name of this number, if it was drawn.
    fn find(&self, number: u64) -> Option<&Drawn>
        ensures some { IfSome result (λ d. called self.now number ≡ numbered d.now.word d.now.which) }
        ensures none { IfNone result (called self.now number ≡ codes "~" ++ decimal number) }
    {
        self.drawn.get(&number)
    }
}

// A word, and which one of it.
fn push_numbered(text: &mut Text, word: &Name, which: u64) -> Result<(), Mem>
    ensures { OnOk result (text.new ≡ text.old ++ numbered word.now which) }
{
    text.push_byte(b'~')?;
    text.push_bytes(word.as_bytes())?;
    text.push_byte(b'.')?;
    text.push_number(which)
}

// A name by its number.
fn push_plain(text: &mut Text, number: u64) -> Result<(), Mem>
    ensures { OnOk result (text.new ≡ text.old ++ (codes "~" ++ decimal number)) }
{
    text.push_byte(b'~')?;
    text.push_number(number)
}

/// Puts last what a fresh name is called.
pub fn push_name(text: &mut Text, names: &Names, number: u64) -> Result<(), Mem>
    ensures { OnOk result (text.new ≡ text.old ++ called names.now number) }
{
    match names.find(number) {
        Some(d) => push_numbered(text, &d.word, d.which),
        None => push_plain(text, number),
    }
}

// What a name is called, and its number.
fn push_name_line(text: &mut Text, names: &Names, number: u64) -> Result<(), Mem>
    ensures { OnOk result (text.new
        ≡ text.old ++ (called names.now number ++ (codes " = ~" ++ (decimal number ++ codes "\n")))) }
{
    push_name(text, names, number)?;
    text.push_bytes(b" = ~")?;
    text.push_number(number)?;
    text.push_byte(b'\n')
}

// The line of the name that was drawn as this one, from 0.
fn push_nth(text: &mut Text, names: &Names, k: usize) -> Result<(), Mem>
    ensures { OnOk result (IsLinePushed names.now k text.old text.new) }
{
    match names.number(k) {
        Some(number) => push_name_line(text, names, number),
        None => Ok(()),
    }
}

/// Puts last what each drawn name is called, with its number, a line each in the order of drawing.
pub fn push_names(text: &mut Text, names: &Names) -> Result<(), Mem>
    ensures { OnOk result (text.new ≡ text.old ++ names_text names.now) }
{
    for k in 0..names.len() {
        push_nth(text, names, k)?;
    }
    Ok(())
}
