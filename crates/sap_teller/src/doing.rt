//! What a line does, with its terms as they stand and evaluated, and its text.
ghost use Rattle.std.specs.Prelude.{◌≡◌, ◌++◌, OnOk, codes, decimal, map};
ghost use Rattle.sap_called.specs.NamedTerms.{named_facts};
ghost use Rattle.sap_grammar.specs.FactText.{facts_text, arrow_text};
ghost use Rattle.sap_grammar.specs.Pieces.{joined};
ghost use Rattle.sap_grammar.specs.TermText.{variable_text};
ghost use Rattle.sap_tell.specs.Said.{applied_text};
ghost use Rattle.sap_tell.specs.ToldText.{term_told};
ghost use Rattle.sap_terms.specs.Tree.{fresh};
ghost use Rattle.sap_terms.specs.View.{tree};
ghost use Rattle.sap_teller.specs.code.Doings.{action_of, event_text, taken_text};

use crate::said::{
    Two, push_compared, push_event, push_inserted, push_looked, push_sent, push_sent_on,
    push_taken_on, push_word_said,
};
use sap_called::{Names, push_arrow, push_facts, push_name, push_term};
use sap_grammar::{push_public, push_separator, push_variable};
use sap_terms::{Bindings, Fact, FactList, Mem, Name, Numbers, Term, Var};
use sap_text::Text;

/// What a line does, with its terms as they stand and then evaluated. What stands elsewhere is lent.
#[derive(Drop)]
pub(crate) enum Doing<'a> {
    /// A thread ends.
    Ends(u64),
    /// A thread begins, beside one that goes on.
    Splits(u64),
    /// A thread begins, as a copy.
    Copies(u64),
    /// A name is made for a variable.
    Makes(&'a Var, u64),
    /// An entry is put out.
    Sends(&'a Term, &'a Term),
    /// An entry is put out on the channel that another is.
    SendsOn(Two<'a>, Two<'a>),
    /// A term is sent on a channel, and what another thread binds by it.
    Meets(Two<'a>, Term, Term, Bindings),
    /// An entry is taken, whether it is a pair of a channel and what comes on it, and what is bound by it.
    Takes(&'a Term, bool, Bindings),
    /// Terms are compared, and whether they are one.
    Compares(Two<'a>, Term, Term, bool),
    /// A fact is shown.
    Shows(&'a Fact),
    /// Nothing: the line isn't possible.
    Nothing,
    /// A value is stored at a key.
    Inserts(Two<'a>, Term, Term),
    /// A key is cleared.
    Deletes(&'a Term, Term),
    /// A key is looked up, for a variable, and what is found.
    Looks(&'a Term, Term, &'a Var, Option<&'a Term>),
    /// A term is locked, or unlocked.
    Holds(&'a Term, Term, bool),
    /// A rule is used: what it takes and adds, and what its variables stand for.
    Uses(&'a FactList, FactList, Bindings, &'a Bindings),
    /// The adversary makes a name.
    Names(u64),
    /// The adversary writes a public name.
    Writes(&'a Name),
    /// The adversary shows an entry.
    Gives(&'a Term),
    /// The adversary applies a symbol.
    Applies(&'a Name, &'a Numbers, &'a Term),
}

// Two terms.
pub(crate) fn two<'a>(left: &'a Term, right: &'a Term) -> Two<'a>
    ensures left { result.left.now ≡ left.now }
    ensures right { result.right.now ≡ right.now }
{
    Two { left, right }
}

// A word, and a term behind it.
fn push_word(text: &mut Text, names: &Names, word: &[u8], x: &Term) -> Result<(), Mem>
    ensures { OnOk result (text.new ≡ text.old ++ (word.now ++ term_told names.now (tree x.now))) }
{
    text.push_bytes(word)?;
    push_term(text, names, x)
}

// A name that is made for a variable.
fn push_made(text: &mut Text, x: &Var) -> Result<(), Mem>
    ensures { OnOk result (text.new ≡ text.old ++ (codes "new " ++ variable_text x.now)) }
{
    text.push_bytes(b"new ")?;
    push_variable(text, x)
}

// What is taken, whether it is a pair of a channel and what comes on it.
fn push_taken(text: &mut Text, names: &Names, x: &Term, is_pair: bool) -> Result<(), Mem>
    ensures { OnOk result (text.new ≡ text.old ++ taken_text names.now (tree x.now) is_pair) }
{
    if is_pair {
        return push_taken_on(text, names, x);
    }
    push_word(text, names, b"in(", x)?;
    text.push_byte(b')')
}

// The fact of an event, as it stands and as it is shown.
fn push_shown(text: &mut Text, names: &Names, label: &FactList, f: &Fact) -> Result<(), Mem>
    ensures { OnOk result (text.new ≡ text.old ++ event_text names.now f.now label.now) }
{
    match label.get(0) {
        None => Ok(()),
        Some(h) => push_event(text, names, f, h),
    }
}

// A rule that is used.
fn push_used(
    text: &mut Text,
    names: &Names,
    left: &FactList,
    label: &FactList,
    right: &FactList,
) -> Result<(), Mem>
    ensures { OnOk result (text.new ≡ text.old ++ (facts_text (named_facts names.now left.now) ++ (arrow_text (named_facts names.now label.now) ++ facts_text (named_facts names.now right.now)))) }
{
    push_facts(text, names, left)?;
    push_arrow(text, names, label)?;
    push_facts(text, names, right)
}

// A fresh name that is made.
fn push_named(text: &mut Text, names: &Names, n: u64) -> Result<(), Mem>
    ensures { OnOk result (text.new ≡ text.old ++ (codes "new " ++ term_told names.now (fresh n))) }
{
    text.push_bytes(b"new ")?;
    push_name(text, names, n)
}

// Numbers with commas between them.
fn push_numbers(text: &mut Text, numbers: &Numbers) -> Result<(), Mem>
    ensures { OnOk result (text.new ≡ text.old ++ joined (codes ",") (map decimal numbers.now)) }
{
    for k in 0..numbers.len() {
        push_separator(text, k, b",")?;
        text.push_number(*numbers.at(k))?;
    }
    Ok(())
}

// A symbol on entries, and what it gives; a constant alone.
fn push_applied(
    text: &mut Text,
    names: &Names,
    f: &Name,
    numbers: &Numbers,
    x: &Term,
) -> Result<(), Mem>
    ensures { OnOk result (text.new ≡ text.old ++ applied_text names.now f.now numbers.now (tree x.now)) }
{
    text.push_bytes(f.as_bytes())?;
    if numbers.len() == 0 {
        return Ok(());
    }
    text.push_byte(b'(')?;
    push_numbers(text, numbers)?;
    push_word(text, names, b") = ", x)
}

/// Puts what is done last, where this is shown.
pub(crate) fn push_action(
    text: &mut Text,
    names: &Names,
    label: &FactList,
    doing: &Doing,
) -> Result<(), Mem>
    ensures { OnOk result (text.new ≡ text.old ++ action_of names.now label.now doing.now) }
{
    match doing {
        Doing::Ends(_) => text.push_byte(b'0'),
        Doing::Splits(_) => text.push_byte(b'|'),
        Doing::Copies(_) => text.push_byte(b'!'),
        Doing::Makes(x, _) => push_made(text, x),
        Doing::Sends(m, x) => push_sent(text, names, m, x),
        Doing::SendsOn(stands, is) => push_sent_on(text, names, *stands, *is),
        Doing::Meets(stands, x, u, _) => push_sent_on(text, names, *stands, two(x, u)),
        Doing::Takes(x, pair, _) => push_taken(text, names, x, *pair),
        Doing::Compares(stands, x, y, _) => push_compared(text, names, *stands, two(x, y)),
        Doing::Shows(f) => push_shown(text, names, label, f),
        Doing::Nothing => Ok(()),
        Doing::Inserts(stands, k, v) => push_inserted(text, names, *stands, two(k, v)),
        Doing::Deletes(m, k) => push_word_said(text, names, b"delete ", m, k),
        Doing::Looks(m, k, x, _) => push_looked(text, names, m, k, x),
        Doing::Holds(m, k, true) => push_word_said(text, names, b"lock ", m, k),
        Doing::Holds(m, k, false) => push_word_said(text, names, b"unlock ", m, k),
        Doing::Uses(left, right, _, _) => push_used(text, names, left, label, right),
        Doing::Names(n) => push_named(text, names, *n),
        Doing::Writes(a) => push_public(text, a),
        Doing::Gives(x) => push_term(text, names, x),
        Doing::Applies(f, numbers, x) => push_applied(text, names, f, numbers, x),
    }
}
