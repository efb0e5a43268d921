//! The words of a cause, before they are written, and how they are.

ghost use Rattle.std.specs.Prelude.{◌≡◌, ◌++◌, codes, decimal, IfOk, IsOk, OnOk};
ghost use Rattle.std.specs.List.{flat_map};
ghost use Rattle.sap_refusals.specs.Refusals.{at_place, between, flaw_text, formula_text, place_text};
ghost use Rattle.sap_refusals.specs.code.Words.{words_text};

use sap_formula::FormulaFault;
use sap_process::Flaw;
use sap_terms::{Mem, Name, Path};
use sap_text::Text;
use std::alloc::Global;

/// What is said of a cause.
#[derive(Clone, Copy)]
pub enum Words<'a> {
    /// A text.
    Plain(&'a [u8]),
    /// A text, and a number behind it.
    Number(&'a [u8], u64),
    /// A number between two texts.
    Numbered(&'a [u8], u64, &'a [u8]),
    /// A text, and a name behind it.
    Name(&'a [u8], &'a Name),
    /// A name between two texts.
    Named(&'a [u8], &'a Name, &'a [u8]),
    /// What is wrong at a place.
    Placed(&'a Path, &'a [u8]),
    /// What is wrong in the definition of this name.
    Flawed(&'a Name, Flaw, &'a Path),
    /// What is wrong in the formula of this name.
    Formula(&'a Name, &'a FormulaFault),
}

/// A line that begins so.
pub fn begun(alloc: Global, before: &[u8]) -> Result<Text, Mem>
    ensures { IfOk result (λ line. line ≡ before.now) }
{
    let mut line = Text::new(alloc);
    line.push_bytes(before)?;
    Ok(line)
}

/// The line with its end, where its words were written.
pub fn ended(line: Text, written: Result<(), Mem>) -> Result<Text, Mem>
    ensures { IfOk result (λ all. IsOk written × (all ≡ line ++ codes "\n")) }
{
    written?;
    let mut line = line;
    line.push_bytes(b"\n")?;
    Ok(line)
}

/// Puts the words last.
pub fn push_words(text: &mut Text, words: &Words) -> Result<(), Mem>
    ensures { OnOk result (text.new ≡ text.old ++ words_text words.now) }
{
    match words {
        Words::Plain(all) => text.push_bytes(all),
        Words::Number(before, number) => push_number_behind(text, before, *number),
        Words::Numbered(before, number, after) => push_numbered(text, before, *number, after),
        Words::Name(before, name) => push_behind(text, before, name),
        Words::Named(before, name, after) => push_named(text, before, name, after),
        Words::Placed(path, what) => push_placed(text, path, what),
        Words::Flawed(name, which, path) => push_flawed(text, name, *which, path),
        Words::Formula(name, fault) => push_of_formula(text, name, fault),
    }
}

/// Puts last what is wrong in the formula of this name.
fn push_of_formula(text: &mut Text, name: &Name, fault: &FormulaFault) -> Result<(), Mem>
    ensures { OnOk result (text.new ≡ text.old ++ (name.now ++ (codes ": " ++ formula_text fault.now))) }
{
    text.push_bytes(name.as_bytes())?;
    text.push_bytes(b": ")?;
    push_formula(text, fault)
}

/// Puts last what is wrong in a formula.
fn push_formula(text: &mut Text, fault: &FormulaFault) -> Result<(), Mem>
    ensures { OnOk result (text.new ≡ text.old ++ formula_text fault.now) }
{
    match fault {
        FormulaFault::Mem => text.push_bytes(b"out of memory"),
        FormulaFault::BadFunction { f } => push_behind(text, b"bad function ", f),
        FormulaFault::Destructor { f } => push_behind(text, b"destructor ", f),
        FormulaFault::Reserved { fact } => push_named(text, b"fact ", fact, b" is reserved"),
        FormulaFault::UnboundVar { var } => push_named(text, b"variable ", var, b" is not bound"),
        FormulaFault::Unguarded { var } => push_named(text, b"variable ", var, b" is not guarded"),
    }
}

/// The words of a flaw.
pub fn flaw_words(flaw: Flaw) -> &'static [u8]
    ensures { result.now ≡ flaw_text flaw }
{
    match flaw {
        Flaw::BadFunction => b"bad function",
        Flaw::ReservedVar => b"reserved variable",
        Flaw::ReservedFact => b"reserved fact",
        Flaw::FactClash => b"fact clash",
        Flaw::PatternDestructor => b"destructor in a pattern",
        Flaw::Unbound => b"unbound",
        Flaw::Rebound => b"rebound",
        Flaw::SortClash => b"sort clash",
        Flaw::ScopeFull => b"scope is full",
    }
}

/// Puts last what is wrong in the definition of this name.
fn push_flawed(text: &mut Text, name: &Name, which: Flaw, path: &Path) -> Result<(), Mem>
    ensures { OnOk result (text.new ≡ text.old ++ between (codes "process ") name.now (codes ": " ++ at_place path.now (flaw_text which))) }
{
    push_named(text, b"process ", name, b": ")?;
    push_placed(text, path, flaw_words(which))
}

/// Puts last a number between two texts.
pub fn push_numbered(text: &mut Text, before: &[u8], number: u64, after: &[u8]) -> Result<(), Mem>
    ensures { OnOk result (text.new ≡ text.old ++ between before.now (decimal number) after.now) }
{
    text.push_bytes(before)?;
    text.push_number(number)?;
    text.push_bytes(after)
}

/// Puts last a text, and a number behind it.
fn push_number_behind(text: &mut Text, before: &[u8], number: u64) -> Result<(), Mem>
    ensures { OnOk result (text.new ≡ text.old ++ (before.now ++ decimal number)) }
{
    text.push_bytes(before)?;
    text.push_number(number)
}

/// Puts last a name between two texts.
fn push_named(text: &mut Text, before: &[u8], name: &Name, after: &[u8]) -> Result<(), Mem>
    ensures { OnOk result (text.new ≡ text.old ++ between before.now name.now after.now) }
{
    push_behind(text, before, name)?;
    text.push_bytes(after)
}

/// Puts last a text, and a name behind it.
fn push_behind(text: &mut Text, before: &[u8], name: &Name) -> Result<(), Mem>
    ensures { OnOk result (text.new ≡ text.old ++ (before.now ++ name.now)) }
{
    text.push_bytes(before)?;
    text.push_bytes(name.as_bytes())
}

/// Puts last what is wrong at a place.
fn push_placed(text: &mut Text, path: &Path, what: &[u8]) -> Result<(), Mem>
    ensures { OnOk result (text.new ≡ text.old ++ at_place path.now what.now) }
{
    text.push_bytes(b"place ")?;
    push_place(text, path)?;
    text.push_bytes(b": ")?;
    text.push_bytes(what)
}

/// Puts last how a place is called.
fn push_place(text: &mut Text, path: &Path) -> Result<(), Mem>
    ensures { OnOk result (text.new ≡ text.old ++ place_text path.now) }
{
    let digits = path.as_slice();
    if digits.is_empty() {
        text.push_bytes(b"root")
    } else {
        push_digits(text, digits)
    }
}

fn push_digits(text: &mut Text, digits: &[u8]) -> Result<(), Mem>
    ensures { OnOk result (text.new ≡ text.old ++ flat_map decimal digits.now) }
{
    for digit in digits {
        text.push_number(*digit as u64)?;
    }
    Ok(())
}
