//! The first fact that differs from a fact of its name and kind.
ghost use Rattle.std.specs.Prelude.{◌≡◌, ◌<◌, ◌+◌, ◌^◌, ◌-◌, ℕ, List, [], ◌∷◌, ◌++◌, MatchOption, IfOk, OnOk, IfSome, Some, None, option_map, min};
ghost use Rattle.std.specs.List.{find};
ghost use Rattle.sap_terms.specs.Path.{IsDigit};
ghost use Rattle.sap_process.specs.Proc.{proc, node_count};
ghost use Rattle.sap_nodes.specs.declared.part.Part.TheVariants.{Pattern, Shown, Given};
ghost use Rattle.sap_other_nodes.specs.OtherFacts.{IsOtherFact};
ghost use Rattle.sap_other_nodes.specs.code.FactSearches.{at_path, differs, entry_of, fact_size, fact_with, head_facts, is_shown, is_sought, most, numbered, numbered_facts, or_else, past, place_of, process_at, seek};

use crate::other_lock::child;
use sap_nodes::Part;
use sap_process::{Children, Process, ScopeBelow, places_are_by_path, places_are_ordered};
use sap_terms::{Copied, Fact, FactList, Mem, Path};
use std::alloc::Global;

/// A fact of a process: the path to its place, and its node there.
#[derive(Drop)]
pub struct OtherFact {
    pub path: Path,
    /// The node of the head, counted from 0.
    pub node: u64,
}

// What is looked for among facts: the one with this node, or one that differs from this one of this part.
#[derive(Clone, Copy)]
enum Sought<'a> {
    Node(u64),
    Other(Part, &'a Fact),
}

// A fact of a head: how many nodes stand in front of it, from the greatest u64 on that number, and its part.
#[derive(Clone, Copy)]
struct Entry<'a> {
    node: u64,
    part: Part,
    fact: &'a Fact,
}

/// Which fact differs from the fact that is this node of the head at this path: of all facts of its name and kind that do, the first in
/// the order of places and of nodes in heads. Those that are shown differ by how many arguments they have, those that are taken or added
/// also where one is persistent and the other isn't. `None` where the path leads to no place, the node isn't a fact, or no fact differs
/// from it. It takes time in proportion to the process, and recurses as deep as the process and its terms. Want of memory is the only
/// error; no head that is in memory has a node of the greatest number.
pub fn differing_fact(
    alloc: Global,
    p: &Process,
    path: &Path,
    node: u64,
) -> Result<Option<OtherFact>, Mem>
    ensures { IfOk result (λ o. MatchOption o ((v : List ℕ) (m : ℕ) → IsOtherFact (proc p.now) path.now node v m → ⊥)
        (λ f. IsOtherFact (proc p.now) path.now node f.path f.node)) }
{
    places_are_by_path::<ScopeBelow>();
    places_are_ordered();
    if node == u64::MAX {
        return Err(Mem);
    }
    match fact_at(p, path.as_slice(), node) {
        None => Ok(None),
        Some(told) => {
            let mut trail = Path::new(alloc);
            seek(p, alloc, Sought::Other(told.part, told.fact), &mut trail)
        }
    }
}

// The fact that is this node of the head at the end of these digits, if there is one.
fn fact_at<'a>(p: &'a Process, digits: &[u8], node: u64) -> Option<Entry<'a>>
    ensures { option_map entry_of result ≡ fact_with node (process_at (Some (proc p.now)) digits.now) }
{
    match process_at(p, digits) {
        None => None,
        Some(q) => first_here(Sought::Node(node), q),
    }
}

// The process at the end of these digits, if there is one.
fn process_at<'a>(p: &'a Process, digits: &[u8]) -> Option<&'a Process>
    ensures { option_map (λ q. proc q.now) result ≡ process_at (Some (proc p.now)) digits.now }
{
    match digits.split_first() {
        None => Some(p),
        Some((digit, rest)) => match child(p, *digit) {
            None => None,
            Some(q) => process_at(q, rest),
        },
    }
}

// The first of the heads from this place on, in preorder.
#[cycle(seek)]
fn seek(
    p: &Process,
    alloc: Global,
    sought: Sought<'_>,
    trail: &mut Path,
) -> Result<Option<OtherFact>, Mem>
    ensures found { IfOk result (λ o. option_map place_of o ≡ seek (is_sought sought.entry) trail.old (proc p.now)) }
    ensures small { IfOk result (λ o. IfSome o (λ f. f.node < most)) }
    ensures same { OnOk result (trail.new ≡ trail.old) }
{
    if let Some(entry) = first_here(sought, p) {
        return told(alloc, trail, entry.node);
    }
    match p.children() {
        Children::Nothing => Ok(None),
        Children::One(q) => seek_child(q, alloc, sought, trail, 1),
        Children::Two(q, r) => match seek_child(q, alloc, sought, trail, 1)? {
            None => seek_child(r, alloc, sought, trail, 2),
            Some(f) => Ok(Some(f)),
        },
    }
}

// From the child of this digit on.
#[cycle(seek)]
fn seek_child(
    q: &Process,
    alloc: Global,
    sought: Sought<'_>,
    trail: &mut Path,
    digit: u8,
) -> Result<Option<OtherFact>, Mem>
    requires { IsDigit digit }
    ensures found { IfOk result (λ o. option_map place_of o ≡ seek (is_sought sought.entry) (trail.old ++ digit ∷ []) (proc q.now)) }
    ensures small { IfOk result (λ o. IfSome o (λ f. f.node < most)) }
    ensures same { OnOk result (trail.new ≡ trail.old) }
{
    trail.push(digit)?;
    let found = seek(q, alloc, sought, trail)?;
    trail.pop();
    Ok(found)
}

// The fact with this node at the place of this path. No head that is in memory has a node of the greatest number.
fn told(alloc: Global, path: &Path, node: u64) -> Result<Option<OtherFact>, Mem>
    ensures found { IfOk result (λ o. option_map place_of o ≡ Some (path.now, node)) }
    ensures small { IfOk result (λ o. IfSome o (λ f. f.node < most)) }
{
    if node == u64::MAX {
        return Err(Mem);
    }
    let path = path.copy(alloc)?;
    Ok(Some(OtherFact { path, node }))
}

// The first at this head.
fn first_here<'a>(sought: Sought<'_>, p: &'a Process) -> Option<Entry<'a>>
    ensures { option_map entry_of result ≡ find (is_sought sought.entry) (head_facts (proc p.now)) }
{
    match p {
        Process::Event(f, _) => first_of(sought, 0, Part::Shown, f),
        Process::Embedded(l, e, r, _) => first_of_rule(sought, l, e, r),
        _ => None,
    }
}

// The fact, where it is what is looked for.
fn first_of<'a>(sought: Sought<'_>, node: u64, part: Part, f: &'a Fact) -> Option<Entry<'a>>
    ensures { option_map entry_of result ≡ find (is_sought sought.entry) (numbered node part f.now ∷ []) }
{
    let entry = Entry {
        node,
        part,
        fact: f,
    };
    if is_sought(sought, entry) {
        return Some(entry);
    }
    None
}

// The first of those that a rule takes, shows and adds.
fn first_of_rule<'a>(
    sought: Sought<'_>,
    l: &'a FactList,
    e: &'a FactList,
    r: &'a FactList,
) -> Option<Entry<'a>>
    ensures { option_map entry_of result ≡ find (is_sought sought.entry)
        (numbered_facts 0 Pattern l.now
        ++ (numbered_facts (past 0 l.now) Shown e.now ++ numbered_facts (past (past 0 l.now) e.now) Given r.now)) }
{
    let shown = past(0, l);
    match first_in(sought, 0, Part::Pattern, l) {
        Some(entry) => Some(entry),
        None => match first_in(sought, shown, Part::Shown, e) {
            Some(entry) => Some(entry),
            None => first_in(sought, past(shown, e), Part::Given, r),
        },
    }
}

// The first of these, where so many nodes stand in front of them.
fn first_in<'a>(sought: Sought<'_>, front: u64, part: Part, fs: &'a FactList) -> Option<Entry<'a>>
    ensures { option_map entry_of result ≡ find (is_sought sought.entry) (numbered_facts front part fs.now) }
{
    let mut node = front;
    for f in fs.as_slice() {
        if let Some(entry) = first_of(sought, node, part, f) {
            return Some(entry);
        }
        node = after(node, f);
    }
    None
}

// How many nodes stand in front of what follows these facts.
fn past(front: u64, fs: &FactList) -> u64
    ensures { result ≡ past front fs.now }
{
    let mut node = front;
    for f in fs.as_slice() {
        node = after(node, f);
    }
    node
}

// How many nodes stand in front of what follows the fact.
fn after(node: u64, f: &Fact) -> u64
    ensures { result ≡ min (node + fact_size f.now) most }
{
    let mut node = node.saturating_add(1);
    for k in 0..f.args.len() {
        node = node.saturating_add(f.args.at(k).nodes());
    }
    node
}

fn is_sought(sought: Sought<'_>, entry: Entry<'_>) -> bool
    ensures { result ≡ is_sought sought.entry (entry_of entry.entry) }
{
    match sought {
        Sought::Node(node) => entry.node == node,
        Sought::Other(part, f) => differs(part, f, entry.part, entry.fact),
    }
}

// Whether the second fact has the kind and the name of the first, and differs from it.
fn differs(a: Part, f: &Fact, b: Part, h: &Fact) -> bool
    ensures { result ≡ differs a f.now b h.now }
{
    is_shown(a) == is_shown(b)
        && h.name.same(&f.name)
        && (h.args.len() != f.args.len() || !is_shown(a) && h.persistent != f.persistent)
}

fn is_shown(part: Part) -> bool
    ensures { result ≡ is_shown part }
{
    match part {
        Part::Shown => true,
        _ => false,
    }
}
