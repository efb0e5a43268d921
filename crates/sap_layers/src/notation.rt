//! What the texts of parts stand for: names, terms, facts, rules and signatures.
use sap_grammar::read_facts;
use sap_read::{FILE_LIMITS, read_term};
use sap_rows::{Page, enclosed, number, split, written};
use sap_rule::Rule;
use sap_terms::{
    Binding, Bindings, Builtin, Copied, Fact, FactList, Items, Mem, Name, SigFault, Signature,
    Sort, Term, TermList, Trace, Var, subst,
};
use sap_text::{Token, tokens};
use std::alloc::Global;
use std::str;

/// The name of these bytes; none where memory is wanting.
pub fn name(alloc: Global, text: &str) -> Option<Name> {
    Name::from_bytes(alloc, text.as_bytes()).ok()
}

/// What a text stands for.
pub trait FromText: Sized {
    /// What the text stands for under the signature; none where it stands for nothing, or memory is wanting.
    fn from_text(page: &mut Page, sig: &Signature, text: &str) -> Option<Self>;
}

/// What the texts stand for that are between the marks, without blanks around them; an empty one stands for nothing.
pub fn list<T: FromText + Drop>(
    page: &mut Page,
    sig: &Signature,
    mark: char,
    texts: &str,
) -> Items<T> {
    let mut list = Items::new(page.alloc);
    for text in texts.split(mark) {
        let text = text.trim();
        if !text.is_empty() {
            let item = T::from_text(page, sig, text);
            page.put(&mut list, item);
        }
    }
    list
}

impl FromText for u64 {
    fn from_text(page: &mut Page, _sig: &Signature, text: &str) -> Option<u64> {
        Some(number(page, text))
    }
}

impl FromText for Name {
    fn from_text(page: &mut Page, _sig: &Signature, text: &str) -> Option<Name> {
        name(page.alloc, text)
    }
}

// `x`, `~x`, `$x`.
impl FromText for Var {
    fn from_text(page: &mut Page, _sig: &Signature, text: &str) -> Option<Var> {
        let (sort, rest) = match text.as_bytes() {
            [b'~', rest @ ..] => (Sort::Fresh, rest),
            [b'$', rest @ ..] => (Sort::Pub, rest),
            rest => (Sort::Msg, rest),
        };
        let name = Name::from_bytes(page.alloc, rest).ok()?;
        Some(Var { name, sort })
    }
}

// `x = 'a'`.
impl FromText for Binding {
    fn from_text(page: &mut Page, sig: &Signature, text: &str) -> Option<Binding> {
        let (var, bound) = text.split_once('=')?;
        let var = Var::from_text(page, sig, var.trim());
        let (var, term) = var.zip(instance(page, sig, bound.trim(), Bindings::new(page.alloc)))?;
        Some(Binding { var, term })
    }
}

// With the fresh names 0 to 9 in place of the variables ~n0 to ~n9; behind `where` stand bindings, whose instance it is:
// `<x,y> where x = 'a'; y = ~n1`.
impl FromText for Term {
    fn from_text(page: &mut Page, sig: &Signature, text: &str) -> Option<Term> {
        let (text, bound) = text.split_once(" where ").unwrap_or((text, ""));
        let bound = list(page, sig, ';', bound);
        instance(page, sig, text, bound)
    }
}

// Its name, its left side, its acts and its right side, with bars between them.
impl FromText for Rule {
    fn from_text(page: &mut Page, sig: &Signature, text: &str) -> Option<Rule> {
        let name = name(page.alloc, split(text, '|', 0))?;
        Some(Rule {
            name,
            left: facts(page, sig, split(text, '|', 1)),
            acts: facts(page, sig, split(text, '|', 2)),
            right: facts(page, sig, split(text, '|', 3)),
        })
    }
}

/// What was read, without the number of the token behind it.
pub fn first<T: Drop>(read: Result<Option<(T, u64)>, Mem>) -> Option<T> {
    match read {
        Ok(Some((value, _))) => Some(value),
        _ => None,
    }
}

/// The last of the copies of what is read, in a box.
pub fn last_copy<T: Copied + Drop, E: Drop>(
    page: &mut Page,
    read: Result<Items<T>, E>,
) -> Option<Box<T>> {
    let copies = read.ok()?.copy(page.alloc).ok()?;
    page.boxed(copies.into_vec().pop())
}

/// The tokens of the bytes; none where a fault stands in them.
pub fn tokens_of(alloc: Global, bytes: &[u8]) -> Vec<Token> {
    match tokens(alloc, bytes, 64) {
        Ok(found) => found,
        Err(_) => Vec::new(alloc),
    }
}

// That a variable of this digit stands for a fresh name of this number: ~n1 for the fresh name 1.
fn fresh_name(alloc: Global, k: u8) -> Option<Binding> {
    let name = Name::from_bytes(alloc, [b'n', b'0'.wrapping_add(k)].as_slice()).ok()?;
    Some(Binding {
        var: Var {
            name,
            sort: Sort::Fresh,
        },
        term: Term::Fresh(k as u64),
    })
}

// Adds what the variables ~n0 to ~n9 of the text stand for, the fresh names 0 to 9: nothing where it has none.
fn put_fresh_names(page: &mut Page, names: &mut Bindings, text: &str) {
    if text.contains("~n") {
        for k in 0..10 {
            page.put(names, fresh_name(page.alloc, k));
        }
    }
}

// The term that the text spells as a file has it, with fresh names, and with each bound variable replaced.
fn instance(page: &mut Page, sig: &Signature, text: &str, mut bound: Bindings) -> Option<Term> {
    put_fresh_names(page, &mut bound, text);
    let bytes = written(page.alloc, text);
    let found = tokens_of(page.alloc, bytes.as_bytes());
    match first(read_term(page.alloc, sig, bytes.as_bytes(), &found, 0)) {
        Some(term) => {
            let made = subst(page.alloc, &term, &bound).ok();
            drop(term);
            made
        }
        None => None,
    }
}

// The facts that the bytes spell up to the bracket at their end.
fn spelled_facts(alloc: Global, sig: &Signature, bytes: &[u8]) -> Option<FactList> {
    let found = tokens_of(alloc, bytes);
    match read_facts(alloc, sig, FILE_LIMITS, bytes, true, "]", found.as_slice()) {
        Ok(Some((facts, []))) => Some(facts),
        _ => None,
    }
}

// The fact with each bound variable replaced.
fn named_fact(alloc: Global, fact: &Fact, names: &Bindings) -> Option<Fact> {
    let name = fact.name.copy(alloc).ok()?;
    let mut args = TermList::new(alloc);
    for arg in fact.args.as_slice() {
        args.push(subst(alloc, arg, names).ok()?).ok()?;
    }
    Some(Fact {
        name,
        persistent: fact.persistent,
        args,
    })
}

/// The facts that the text spells under the signature, with commas between them and with fresh names.
pub fn facts(page: &mut Page, sig: &Signature, text: &str) -> FactList {
    let mut list = FactList::new(page.alloc);
    let bytes = enclosed(page.alloc, "", text, " ]");
    let mut names = Bindings::new(page.alloc);
    put_fresh_names(page, &mut names, text);
    match spelled_facts(page.alloc, sig, bytes.as_bytes()) {
        Some(spelled) => {
            for fact in spelled.as_slice() {
                page.put(&mut list, named_fact(page.alloc, fact, &names));
            }
            drop(spelled);
        }
        None => page.fail(),
    }
    list
}

/// The facts of times, with bars between them.
pub fn trace(page: &mut Page, sig: &Signature, text: &str) -> Trace {
    let mut trace = Trace::new(page.alloc);
    let bytes = written(page.alloc, text);
    match str::from_utf8(bytes.as_bytes()) {
        Ok(text) if !text.is_empty() => {
            for time in text.split('|') {
                let facts = facts(page, sig, time);
                page.put(&mut trace, Some(facts));
            }
        }
        _ => {}
    }
    trace
}

/// Adds a builtin, or a symbol with its arity, behind `-` where it is private, and gives the answer.
pub fn add(page: &mut Page, sig: &mut Signature, word: &str) -> Result<(), SigFault> {
    match word {
        "hashing" => sig.add_builtin(Builtin::Hashing),
        "symmetric" => sig.add_builtin(Builtin::Symmetric),
        "asymmetric" => sig.add_builtin(Builtin::Asymmetric),
        "signing" => sig.add_builtin(Builtin::Signing),
        "revealing" => sig.add_builtin(Builtin::RevealingSigning),
        _ => declare(page, sig, word),
    }
}

fn declare(page: &mut Page, sig: &mut Signature, word: &str) -> Result<(), SigFault> {
    let symbol = word.strip_prefix('-').unwrap_or(word);
    let (f, arity) = symbol.split_once('/').unwrap_or((symbol, ""));
    let arity = number(page, arity);
    match name(page.alloc, f) {
        Some(f) => sig.declare(f, arity, word.starts_with('-')),
        None => Err(SigFault::Mem),
    }
}

/// The signature of these words, each a builtin or a symbol with its arity, behind `-` where it is private:
/// `hashing symmetric asymmetric signing revealing f/2 -k/1`.
pub fn signature(page: &mut Page, words: &str) -> Option<Signature> {
    let mut sig = Signature::new(page.alloc).ok()?;
    for word in words.split(' ') {
        if !word.is_empty() && add(page, &mut sig, word).is_err() {
            page.fail();
        }
    }
    Some(sig)
}
