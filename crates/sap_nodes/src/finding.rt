//! The first node of a head that has a flaw which the signature and names alone decide.
ghost use Rattle.std.specs.Prelude.{◌≡◌, List, [], ◌∷◌, ◌++◌};
ghost use Rattle.sap_terms.specs.Tree.{trees_of};
ghost use Rattle.sap_terms.specs.View.{tree};
ghost use Rattle.sap_process.specs.Proc.{proc};
ghost use Rattle.sap_process.specs.Sites.{Site, message_var};
ghost use Rattle.sap_nodes.specs.FlawNodes.{IsOfWords, IsTold};
ghost use Rattle.sap_nodes.specs.HeadNodes.{binder, variable, symbol, fact, tree_nodes, trees_nodes, fact_nodes, facts_nodes, head_nodes};
ghost use Rattle.sap_nodes.specs.code.NodeTests.{is_pattern, is_such};
ghost use Rattle.sap_nodes.specs.code.Searches.{visited, after, found_at};
ghost use Rattle.sap_nodes.specs.declared.part.Part.TheVariants.{Pattern, Shown, Given};

use crate::Part;
use sap_process::{Flaw, Process};
use sap_terms::{Fact, FactList, Name, Signature, Sort, Term, TermList, Var, is_reserved};

// How many nodes stand in front of the one that is found, or were met if none is; from the greatest u64 on, that number.
#[derive(Clone, Copy)]
pub(crate) struct Search {
    pub(crate) at: u64,
    pub(crate) found: bool,
}

/// The node of the head of the process for which the flaw is told, counted from 0 in the order in which the head is written: the
/// first that has it; from the greatest u64 on, that number. It is asked for a symbol that isn't held or a constant that is bound,
/// for a destructor in a pattern and for reserved names. It takes no memory and time in proportion to the head, and recurses as deep
/// as its terms.
pub fn word_node(sig: &Signature, p: &Process, which: Flaw) -> Option<u64>
    requires { IsOfWords which }
    ensures { (before : List Site) (s : Site) → s.body ≡ proc p.now → IsTold sig.now before s which result }
{
    let mut search = Search {
        at: 0,
        found: false,
    };
    in_head(sig, which, p, &mut search);
    told(search)
}

// Where it is found.
pub(crate) fn told(search: Search) -> Option<u64>
    ensures { result ≡ found_at search }
{
    if search.found { Some(search.at) } else { None }
}

// One node more is met.
pub(crate) fn visit(search: &mut Search, is: bool)
    ensures { search.new ≡ visited is search.old }
{
    if search.found {
        return;
    }
    if is {
        search.found = true;
    } else {
        search.at = search.at.saturating_add(1);
    }
}

// Whether the symbol, on so many terms, is such.
fn is_such_symbol(sig: &Signature, which: Flaw, part: Part, f: &Name, terms: u64) -> bool
    ensures { result ≡ is_such sig.now which (symbol part f.now terms) }
{
    match which {
        Flaw::BadFunction => match sig.arity(f) {
            Some(n) => n != terms,
            None => true,
        },
        Flaw::PatternDestructor => is_pattern(part) && sig.is_destructor(f),
        _ => false,
    }
}

fn is_pattern(part: Part) -> bool
    ensures { result ≡ is_pattern part }
{
    match part {
        Part::Pattern => true,
        _ => false,
    }
}

fn is_such_var(sig: &Signature, which: Flaw, v: &Var) -> bool
    ensures { result ≡ is_such sig.now which (variable v.now) }
{
    match which {
        Flaw::ReservedVar => v.name.as_bytes().starts_with(b"sapic_"),
        _ => false,
    }
}

// Whether what is bound is such, as a variable of this sort.
fn is_such_binder(sig: &Signature, which: Flaw, x: &Var, sort: Sort) -> bool
    ensures { result ≡ is_such sig.now which (binder (record { name = x.now.name; sort = sort })) }
{
    match which {
        Flaw::BadFunction => match sig.arity(&x.name) {
            Some(n) => sort == Sort::Msg && n == 0,
            None => false,
        },
        Flaw::ReservedVar => x.name.as_bytes().starts_with(b"sapic_"),
        _ => false,
    }
}

fn is_such_fact(sig: &Signature, which: Flaw, part: Part, f: &Fact) -> bool
    ensures { result ≡ is_such sig.now which (fact part f.now) }
{
    match which {
        Flaw::ReservedFact => is_reserved(&f.name),
        _ => false,
    }
}

#[cycle(nodes)]
#[tactic(auto, using(crate::proofs::SearchLemmas::search_laws))]
fn in_term(sig: &Signature, which: Flaw, part: Part, t: &Term, search: &mut Search)
    ensures { search.new ≡ after (is_such sig.now which) search.old (tree_nodes part (tree t.now)) }
{
    match t {
        Term::Var(v) => visit(search, is_such_var(sig, which, v)),
        Term::App(f, ts) => {
            visit(search, is_such_symbol(sig, which, part, f, ts.len()));
            in_terms(sig, which, part, ts, search);
        }
        _ => visit(search, false),
    }
}

#[cycle(nodes)]
#[tactic(auto, using(crate::proofs::SearchLemmas::search_laws))]
pub(crate) fn in_terms(sig: &Signature, which: Flaw, part: Part, ts: &TermList, search: &mut Search)
    ensures { search.new ≡ after (is_such sig.now which) search.old (trees_nodes part (trees_of ts.now)) }
{
    for k in 0..ts.len() {
        in_term(sig, which, part, ts.at(k), search);
    }
}

#[tactic(auto, using(crate::proofs::SearchLemmas::search_laws))]
fn in_both(sig: &Signature, which: Flaw, t: &Term, part: Part, u: &Term, search: &mut Search)
    ensures { search.new ≡ after (is_such sig.now which) search.old (tree_nodes Given (tree t.now) ++ tree_nodes part (tree u.now)) }
{
    in_term(sig, which, Part::Given, t, search);
    in_term(sig, which, part, u, search);
}

fn in_fact(sig: &Signature, which: Flaw, part: Part, f: &Fact, search: &mut Search)
    ensures { search.new ≡ after (is_such sig.now which) search.old (fact_nodes part f.now) }
{
    visit(search, is_such_fact(sig, which, part, f));
    in_terms(sig, which, part, &f.args, search);
}

#[tactic(auto, using(crate::proofs::SearchLemmas::search_laws))]
fn in_facts(sig: &Signature, which: Flaw, part: Part, fs: &FactList, search: &mut Search)
    ensures { search.new ≡ after (is_such sig.now which) search.old (facts_nodes part fs.now) }
{
    for f in fs.as_slice() {
        in_fact(sig, which, part, f, search);
    }
}

#[tactic(auto, using(crate::proofs::SearchLemmas::search_laws))]
fn in_rule(
    sig: &Signature,
    which: Flaw,
    l: &FactList,
    e: &FactList,
    r: &FactList,
    search: &mut Search,
)
    ensures { search.new ≡ after (is_such sig.now which) search.old
        (facts_nodes Pattern l.now ++ (facts_nodes Shown e.now ++ facts_nodes Given r.now)) }
{
    in_facts(sig, which, Part::Pattern, l, search);
    in_facts(sig, which, Part::Shown, e, search);
    in_facts(sig, which, Part::Given, r, search);
}

fn in_binder(sig: &Signature, which: Flaw, x: &Var, sort: Sort, search: &mut Search)
    ensures { search.new ≡ visited (is_such sig.now which (binder (record { name = x.now.name; sort = sort }))) search.old }
{
    visit(search, is_such_binder(sig, which, x, sort));
}

#[tactic(auto, using(crate::proofs::SearchLemmas::search_laws))]
fn in_lookup(sig: &Signature, which: Flaw, t: &Term, x: &Var, search: &mut Search)
    ensures { search.new ≡ after (is_such sig.now which) search.old (tree_nodes Given (tree t.now) ++ binder (message_var x.now) ∷ []) }
{
    in_term(sig, which, Part::Given, t, search);
    in_binder(sig, which, x, Sort::Msg, search);
}

// The nodes of the head are met.
fn in_head(sig: &Signature, which: Flaw, p: &Process, search: &mut Search)
    ensures { search.new ≡ after (is_such sig.now which) search.old (head_nodes (proc p.now)) }
{
    match p {
        Process::Nil | Process::Par(_, _) | Process::Rep(_) => {}
        Process::New(x, _) => in_binder(sig, which, x, x.sort, search),
        Process::In(t, _) => in_term(sig, which, Part::Pattern, t, search),
        Process::Out(t, _)
        | Process::Delete(t, _)
        | Process::Lock(t, _, _)
        | Process::Unlock(t, _, _) => in_term(sig, which, Part::Given, t, search),
        Process::Recv(t, u, _) => in_both(sig, which, t, Part::Pattern, u, search),
        Process::Send(t, u, _) | Process::If(t, u, _, _) | Process::Insert(t, u, _) => {
            in_both(sig, which, t, Part::Given, u, search)
        }
        Process::Lookup(t, x, _, _) => in_lookup(sig, which, t, x, search),
        Process::Event(f, _) => in_fact(sig, which, Part::Shown, f, search),
        Process::Embedded(l, e, r, _) => in_rule(sig, which, l, e, r, search),
    }
}
