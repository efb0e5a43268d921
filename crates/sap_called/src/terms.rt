//! Terms with their names as they are called.
ghost use Rattle.std.specs.Prelude.{◌≡◌, ◌++◌, OnOk, IsTrue, List, codes, length, map, true};
ghost use Rattle.sap_called.specs.NamedTerms.{all_named, named};
ghost use Rattle.sap_called.specs.Names.{Draw};
ghost use Rattle.sap_grammar.specs.Pieces.{joined};
ghost use Rattle.sap_grammar.specs.TermText.{applied, in_brackets, is_pair, pair_text, term_text, term_texts, tree_text};
ghost use Rattle.sap_terms.specs.Tree.{trees_of};
ghost use Rattle.sap_terms.specs.View.{tree};

use crate::names::{Names, push_name};
use sap_grammar::{push_public, push_separator, push_variable};
use sap_terms::{Mem, Name, Term, TermList};
use sap_text::Text;

// Whether the symbol makes a pair of these.
fn is_pair(f: &Name, args: &TermList) -> bool
    ensures is { (ds : List Draw) → result ≡ is_pair f.now (all_named ds (trees_of args.now)) }
    ensures two { IsTrue result → length args.now ≡ 2 }
{
    if args.len() == 2 {
        f.is(b"pair")
    } else {
        false
    }
}

/// Puts a term last, its names as they are called. It recurses as deep as the term.
pub fn push_term(text: &mut Text, names: &Names, t: &Term) -> Result<(), Mem>
    ensures { OnOk result (text.new ≡ text.old ++ tree_text (named names.now (tree t.now))) }
{
    push(text, names, t, false)
}

/// The same of a term that stands in the brackets of a pair, as its last part. It recurses as deep as the term.
pub fn push_open_term(text: &mut Text, names: &Names, t: &Term) -> Result<(), Mem>
    ensures { OnOk result (text.new ≡ text.old ++ term_text true (named names.now (tree t.now))) }
{
    push(text, names, t, true)
}

// A term; an open one stands inside the brackets of a pair, as its last part.
#[cycle(push)]
fn push(text: &mut Text, names: &Names, t: &Term, is_open: bool) -> Result<(), Mem>
    ensures { OnOk result (text.new ≡ text.old ++ term_text is_open (named names.now (tree t.now))) }
{
    match t {
        Term::Var(v) => push_variable(text, v),
        Term::Public(name) => push_public(text, name),
        Term::Fresh(number) => push_name(text, names, *number),
        Term::App(f, args) => if is_pair(f, args) {
            push_pair(text, names, args, is_open)
        } else {
            push_applied(text, names, f, args)
        },
    }
}

#[cycle(push)]
fn push_pair(text: &mut Text, names: &Names, args: &TermList, is_open: bool) -> Result<(), Mem>
    requires { length args.now ≡ 2 }
    ensures { OnOk result (text.new
        ≡ text.old ++ in_brackets is_open (pair_text (all_named names.now (trees_of args.now)))) }
{
    if !is_open {
        text.push_byte(b'<')?;
    }
    push(text, names, args.at(0), false)?;
    text.push_byte(b',')?;
    push(text, names, args.at(1), true)?;
    if is_open {
        Ok(())
    } else {
        text.push_byte(b'>')
    }
}

#[cycle(push)]
fn push_applied(text: &mut Text, names: &Names, f: &Name, args: &TermList) -> Result<(), Mem>
    ensures { OnOk result (text.new
        ≡ text.old ++ applied f.now (term_texts (all_named names.now (trees_of args.now)))) }
{
    text.push_bytes(f.as_bytes())?;
    if args.len() == 0 {
        return Ok(());
    }
    text.push_byte(b'(')?;
    push_terms(text, names, args)?;
    text.push_byte(b')')?;
    Ok(())
}

/// Puts terms last with commas between them, their names as they are called. It recurses as deep as the terms.
#[cycle(push)]
pub(crate) fn push_terms(text: &mut Text, names: &Names, terms: &TermList) -> Result<(), Mem>
    ensures { OnOk result (text.new
        ≡ text.old ++ joined (codes ",") (map (λ t. tree_text (named names.now t)) terms.now)) }
{
    for k in 0..terms.len() {
        push_separator(text, k, b",")?;
        push(text, names, terms.at(k), false)?;
    }
    Ok(())
}
