//! Terms as text.
ghost use Rattle.std.specs.Prelude.{◌≡◌, ◌++◌, OnOk, map, length, IsTrue, codes, decimal};
ghost use Rattle.sap_terms.specs.Tree.{trees_of};
ghost use Rattle.sap_terms.specs.View.{tree};
ghost use Rattle.sap_grammar.specs.Pieces.{joined};
ghost use Rattle.sap_grammar.specs.TermText.{variable_text, is_pair, term_text, pair_text, applied, tree_text, in_brackets, term_texts};

use crate::pieces::push_separator;
use sap_terms::{Mem, Name, Sort, Term, TermList, Var};
use sap_text::Text;

/// A variable behind the sign of its sort.
pub fn push_variable(text: &mut Text, v: &Var) -> Result<(), Mem>
    ensures { OnOk result (text.new ≡ text.old ++ variable_text v.now) }
{
    match v.sort {
        Sort::Msg => {}
        Sort::Fresh => text.push_byte(b'~')?,
        Sort::Pub => text.push_byte(b'$')?,
    }
    text.push_bytes(v.name.as_bytes())
}

/// A public name between its quotes.
pub fn push_public(text: &mut Text, name: &Name) -> Result<(), Mem>
    ensures { OnOk result (text.new ≡ text.old ++ (codes "'" ++ (name.now ++ codes "'"))) }
{
    text.push_byte(b'\'')?;
    text.push_bytes(name.as_bytes())?;
    text.push_byte(b'\'')
}

fn push_fresh(text: &mut Text, number: u64) -> Result<(), Mem>
    ensures { OnOk result (text.new ≡ text.old ++ (codes "~" ++ decimal number)) }
{
    text.push_byte(b'~')?;
    text.push_number(number)
}

fn is_pair(f: &Name, args: &TermList) -> bool
    ensures is { result ≡ is_pair f.now (trees_of args.now) }
    ensures two { IsTrue result → length args.now ≡ 2 }
{
    if args.len() == 2 {
        f.is(b"pair")
    } else {
        false
    }
}

/// A term on its own. It recurses as deep as the terms that it is given.
pub fn push_whole_term(text: &mut Text, t: &Term) -> Result<(), Mem>
    ensures { OnOk result (text.new ≡ text.old ++ tree_text (tree t.now)) }
{
    push_term(text, t, false)
}

// A term; an open one stands inside the brackets of a pair, as its last part.
#[cycle(push_term)]
fn push_term(text: &mut Text, t: &Term, is_open: bool) -> Result<(), Mem>
    ensures { OnOk result (text.new ≡ text.old ++ term_text is_open (tree t.now)) }
{
    match t {
        Term::Var(v) => push_variable(text, v),
        Term::Public(name) => push_public(text, name),
        Term::Fresh(number) => push_fresh(text, *number),
        Term::App(f, args) => if is_pair(f, args) {
            push_pair(text, args, is_open)
        } else {
            push_applied(text, f, args)
        },
    }
}

#[cycle(push_term)]
fn push_pair(text: &mut Text, args: &TermList, is_open: bool) -> Result<(), Mem>
    requires { length args.now ≡ 2 }
    ensures { OnOk result (text.new ≡ text.old ++ in_brackets is_open (pair_text (trees_of args.now))) }
{
    if !is_open {
        text.push_byte(b'<')?;
    }
    push_term(text, args.at(0), false)?;
    text.push_byte(b',')?;
    push_term(text, args.at(1), true)?;
    if is_open {
        Ok(())
    } else {
        text.push_byte(b'>')
    }
}

#[cycle(push_term)]
fn push_applied(text: &mut Text, f: &Name, args: &TermList) -> Result<(), Mem>
    ensures { OnOk result (text.new ≡ text.old ++ applied f.now (term_texts (trees_of args.now))) }
{
    text.push_bytes(f.as_bytes())?;
    if args.len() == 0 {
        return Ok(());
    }
    text.push_byte(b'(')?;
    push_terms(text, args)?;
    text.push_byte(b')')?;
    Ok(())
}

/// Terms with commas between them. It recurses as deep as the terms that it is given.
#[cycle(push_term)]
pub fn push_terms(text: &mut Text, terms: &TermList) -> Result<(), Mem>
    ensures { OnOk result (text.new ≡ text.old ++ joined (codes ",") (map tree_text terms.now)) }
{
    for k in 0..terms.len() {
        push_separator(text, k, b",")?;
        push_term(text, terms.at(k), false)?;
    }
    Ok(())
}
