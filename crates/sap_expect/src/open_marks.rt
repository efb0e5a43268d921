//! Which bracket or quotation mark is open behind words.
ghost use Rattle.std.specs.Prelude.{◌≡◌, [], ◌∷◌, ◌++◌, true, OnOk, codes, if◌then◌else◌};
ghost use Rattle.sap_grammar.specs.Words.{mark, name, quoted};
ghost use Rattle.sap_expect.specs.Kinds.{is_one_of};
ghost use Rattle.sap_expect.specs.OpenMarks.{behind_word, closing_marks, is_quotation, last_of, number_of, opening_marks, without_last};
ghost use Rattle.sap_expect.specs.code.SeenWords.{seen};
ghost use Rattle.sap_expect.specs.OpenExamples.{IsOpenAt, IsOpenInFormula, NoneIsOpen, NoneIsOpenInFormula, both_closed, facts_behind, nested, one_closed, shown, shown_closed};

use crate::seen::{Seen, is_this_mark};
use sap_terms::Mem;

/// How many words stand before one that is open, and whether it is a quotation mark.
pub(crate) type OpenMark = (usize, bool);

fn opens(word: Seen<'_>) -> bool
    ensures { result ≡ is_one_of opening_marks (seen word.entry) }
{
    is_this_mark(word, "(") || is_this_mark(word, "[") || is_this_mark(word, "--[")
}

fn closes(word: Seen<'_>) -> bool
    ensures { result ≡ is_one_of closing_marks (seen word.entry) }
{
    is_this_mark(word, ")") || is_this_mark(word, "]") || is_this_mark(word, "]->")
}

// Whether the innermost is a quotation mark.
fn is_quoting(marks: &[OpenMark]) -> bool
    ensures { result ≡ is_quotation (last_of marks.now) }
{
    match marks.last() {
        Some(innermost) => innermost.1,
        None => false,
    }
}

// Closes the innermost.
fn close(marks: &mut Vec<OpenMark>)
    ensures { marks.new.items ≡ without_last marks.old.items }
{
    drop(marks.pop());
}

// Past a quotation mark.
fn pass_quotation(marks: &mut Vec<OpenMark>, k: usize) -> Result<(), Mem>
    ensures { OnOk result (marks.new.items ≡ (if is_quotation (last_of marks.old.items) then without_last marks.old.items
        else marks.old.items ++ (k, true) ∷ [])) }
{
    if is_quoting(marks.as_slice()) {
        close(marks);
    } else {
        marks.push((k, true))?;
    }
    Ok(())
}

/// Past the word, before which so many stand. A `<` isn't looked at, which may be a tuple's or a sign between times.
pub(crate) fn pass(marks: &mut Vec<OpenMark>, word: Seen<'_>, k: usize) -> Result<(), Mem>
    ensures { OnOk result (marks.new.items ≡ behind_word k (seen word.entry) marks.old.items) }
{
    if opens(word) {
        marks.push((k, false))?;
    } else if closes(word) {
        close(marks);
    } else if is_this_mark(word, "\"") {
        pass_quotation(marks, k)?;
    }
    Ok(())
}

/// How many words stand before the innermost that is open, if one is.
pub(crate) fn last_number(marks: &[OpenMark]) -> Option<usize>
    ensures { result ≡ number_of (last_of marks.now) }
{
    match marks.last() {
        Some(innermost) => Some(innermost.0),
        None => None,
    }
}

/// A law: which word of small files is the innermost that is open, each kind of bracket and the quotation mark, or that none is: behind
/// those that are closed, by whichever bracket; behind one that closes nothing; and behind a name in quotes, `<` and `>`, which are none. A
/// quotation mark closes no bracket.
pub fn open_marks_by_hand()
    ensures brackets { IsOpenAt nested 8 × IsOpenAt one_closed 6 × NoneIsOpen both_closed }
    ensures facts { IsOpenAt shown 7 × NoneIsOpen shown_closed × IsOpenAt facts_behind 9 }
    ensures quotation { IsOpenInFormula [] 6 × NoneIsOpenInFormula (mark (codes "\"") ∷ [])
        × IsOpenInFormula (mark (codes "\"") ∷ mark (codes "\"") ∷ []) 8 }
    ensures in_quotation { IsOpenInFormula (mark (codes "(") ∷ []) 7 × IsOpenInFormula (mark (codes "(") ∷ mark (codes ")") ∷ []) 6
        × IsOpenInFormula (mark (codes "(") ∷ mark (codes "\"") ∷ []) 8
        × NoneIsOpenInFormula (mark (codes "(") ∷ mark (codes ")") ∷ mark (codes "\"") ∷ []) }
    ensures whichever { NoneIsOpen (mark (codes "(") ∷ mark (codes "]") ∷ []) }
    ensures closes_nothing { NoneIsOpen (mark (codes ")") ∷ []) × IsOpenAt (mark (codes ")") ∷ mark (codes "(") ∷ []) 6 }
    ensures no_marks { NoneIsOpen [] × NoneIsOpen (quoted (codes "(") ∷ name (codes "[") ∷ mark (codes "<") ∷ [])
        × IsOpenAt (mark (codes "(") ∷ mark (codes "<") ∷ mark (codes ">") ∷ []) 5 }
{}
