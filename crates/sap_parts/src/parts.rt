// The shapes of left sides: what stands under a symbol, where it does.
ghost use Rattle.std.specs.Prelude.{◌≡◌, option_map};
ghost use Rattle.std.specs.Option.{option_copied};
ghost use Rattle.sap_terms.specs.View.{tree};
ghost use Rattle.sap_terms.specs.Tree.{trees_of};
ghost use Rattle.sap_terms.specs.Equations.{app0, true_name};
ghost use Rattle.sap_parts.specs.Parts.{args1, args2, args3, under, parts_under, owner_of, first_part, second_part, opened, opened_by_key, verified};

use sap_terms::{Term, TermList};

// The term that stands alone.
fn one(ts: &TermList) -> Option<&Term>
    ensures { option_map tree (option_copied result) ≡ args1 (trees_of ts.now) }
{
    if ts.len() == 1 { Some(ts.at(0)) } else { None }
}

// The two terms of a list of two.
fn two(ts: &TermList) -> Option<(&Term, &Term)>
    ensures { option_map (λ p. (tree p.0.now, tree p.1.now)) result ≡ args2 (trees_of ts.now) }
{
    if ts.len() == 2 {
        Some((ts.at(0), ts.at(1)))
    } else {
        None
    }
}

// The three terms of a list of three.
fn three(ts: &TermList) -> Option<(&Term, &Term, &Term)>
    ensures { option_map (λ p. (tree p.0.now, tree p.1.now, tree p.2.now)) result ≡ args3 (trees_of ts.now) }
{
    if ts.len() == 3 {
        Some((ts.at(0), ts.at(1), ts.at(2)))
    } else {
        None
    }
}

// The arguments of a symbol of this name.
fn under<'a>(name: &[u8], t: &'a Term) -> Option<&'a TermList>
    ensures { option_map trees_of (option_copied result) ≡ under name.now (tree t.now) }
{
    match t {
        Term::App(f, args) => { if f.is(name) { Some(args) } else { None } }
        _ => None,
    }
}

// The two terms under a symbol of this name.
fn parts<'a>(name: &[u8], t: &'a Term) -> Option<(&'a Term, &'a Term)>
    ensures { option_map (λ p. (tree p.0.now, tree p.1.now)) result ≡ parts_under name.now (tree t.now) }
{
    two(under(name, t)?)
}

// The key whose public key it is.
fn owner(t: &Term) -> Option<&Term>
    ensures { option_map tree (option_copied result) ≡ owner_of (tree t.now) }
{
    one(under(b"pk", t)?)
}

// The first of the two terms under a symbol of this name.
pub fn first_part<'a>(name: &[u8], ts: &'a TermList) -> Option<&'a Term>
    ensures { option_map tree (option_copied result) ≡ first_part name.now (trees_of ts.now) }
{
    let (a, _) = parts(name, one(ts)?)?;
    Some(a)
}

// The second part of a pair.
pub fn second_part(ts: &TermList) -> Option<&Term>
    ensures { option_map tree (option_copied result) ≡ second_part (trees_of ts.now) }
{
    let (_, b) = parts(b"pair", one(ts)?)?;
    Some(b)
}

// The message that was sealed with the key it is opened with.
pub fn opened(ts: &TermList) -> Option<&Term>
    ensures { option_map tree (option_copied result) ≡ opened (trees_of ts.now) }
{
    let (sealed, key) = two(ts)?;
    let (message, own) = parts(b"senc", sealed)?;
    if own.same(key) { Some(message) } else { None }
}

// The message that was sealed with the public key of the key it is opened with.
pub fn opened_by_key(ts: &TermList) -> Option<&Term>
    ensures { option_map tree (option_copied result) ≡ opened_by_key (trees_of ts.now) }
{
    let (sealed, key) = two(ts)?;
    let (message, public) = parts(b"aenc", sealed)?;
    let own = owner(public)?;
    if own.same(key) { Some(message) } else { None }
}

// Whether the signature, which a symbol of this name makes, is one of the message by the key whose public key is given.
pub fn verifies(name: &[u8], ts: &TermList) -> Option<()>
    ensures { option_map (λ _. app0 true_name) result ≡ verified name.now (trees_of ts.now) }
{
    let (signed, claimed, public) = three(ts)?;
    let (message, own) = parts(name, signed)?;
    let key = owner(public)?;
    if message.same(claimed) && own.same(key) {
        Some(())
    } else {
        None
    }
}
