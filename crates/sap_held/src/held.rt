//! The locks above a place.
ghost use Rattle.std.specs.Prelude.{◌≡◌, ◌<◌, Some, cond, length};
ghost use Rattle.sap_terms.specs.View.{tree};
ghost use Rattle.sap_held.specs.Held.{with_open, label_at, opens, found, label_of, IsLastOpen};
ghost use Rattle.sap_held.specs.code.Last.{last_open, is_open_of};

use sap_terms::Term;

/// A lock above the place: its label, its term, and whether no unlock above the place has it as its lock.
#[derive(Drop)]
pub struct Held {
    pub label: u32,
    pub term: Term,
    pub is_open: bool,
}

/// The lock that an unlock ends: its index, if there is one, and its label, or 0.
#[derive(Drop)]
pub struct Ended {
    pub index: Option<u64>,
    pub label: u32,
}

/// The last of these that is open and has the term.
pub fn last_of(held: &[Held], t: &Term) -> Ended
    ensures index { IsLastOpen (tree t.now) held.now result.index }
    ensures label { result.label ≡ label_of (found (tree t.now) (opens held.now)) }
{
    match last_open(held, t) {
        None => Ended {
            index: None,
            label: 0,
        },
        Some(k) => Ended {
            index: Some(k),
            label: label_at(held, k),
        },
    }
}

fn label_at(held: &[Held], k: u64) -> u32
    requires { k < length held.now }
    ensures { result ≡ label_at held.now k }
{
    held[k as usize].label
}

fn last_open(held: &[Held], t: &Term) -> Option<u64>
    ensures { result ≡ last_open (tree t.now) held.now }
{
    let mut last = None;
    for k in 0..held.len() as u64 {
        last = later(last, k, is_open_of(&held[k as usize], t));
    }
    last
}

// The index, where it is one, else the one before.
fn later(before: Option<u64>, k: u64, is_one: bool) -> Option<u64>
    ensures { result ≡ cond is_one (Some k) before }
{
    if is_one {
        return Some(k);
    }
    before
}

// Whether it is open and has the term.
fn is_open_of(h: &Held, t: &Term) -> bool
    ensures { result ≡ is_open_of (tree t.now) h.now }
{
    h.is_open && h.term.same(t)
}

/// The lock at the index is open from now on, or isn't.
pub fn set_open(held: &mut Vec<Held>, k: u64, is_open: bool)
    requires { k < length held.now.items }
    ensures list { held.new.items ≡ with_open held.old.items k is_open }
    ensures len { length held.new.items ≡ length held.old.items }
{
    set_in(held.as_mut_slice(), k, is_open);
}

fn set_in(held: &mut [Held], k: u64, is_open: bool)
    requires { k < length held.now }
    ensures list { held.new ≡ with_open held.old k is_open }
    ensures len { length held.new ≡ length held.old }
{
    held[k as usize].is_open = is_open;
}
