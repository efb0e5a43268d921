//! Walks through the terms and facts of a head that keep the variables which are known.
ghost use Rattle.std.specs.Prelude.{◌≡◌, List, ◌++◌, IfOk, OnOk, option_map};
ghost use Rattle.sap_terms.specs.Tree.{trees_of};
ghost use Rattle.sap_terms.specs.Variables.{is_known};
ghost use Rattle.sap_terms.specs.View.{tree};
ghost use Rattle.sap_process.specs.Flaws.{binder_of};
ghost use Rattle.sap_process.specs.Sites.{var_names};
ghost use Rattle.sap_process.specs.code.Tests.{has_other_sort};
ghost use Rattle.sap_nodes.specs.HeadNodes.{variable, tree_nodes, trees_nodes, fact_nodes, facts_nodes};
ghost use Rattle.sap_nodes.specs.code.Searches.{at_first};
ghost use Rattle.sap_nodes.specs.code.Trails.{is_bound, is_free, met, met_all};
ghost use Rattle.sap_nodes.specs.declared.part.Part.TheVariants.{Pattern, Shown, Given};

use crate::Part;
use crate::finding::{Search, visit};
use sap_terms::{Copied, Fact, FactList, Mem, Name, Named, Sort, Term, TermList, Var, Vars};
use std::alloc::Global;

// How variables are met: where they are taken, each binds its name for what stands behind it; on the other sides of an embedded
// rule those do that are first written `$x`, and any other that isn't known is looked for; in what is evaluated before anything is
// bound none does, and each that isn't known is looked for; of those that are signed, each that isn't of its binder's sort; and last,
// each binds its name that isn't known, and is looked for where so many are.
#[derive(Clone, Copy)]
pub(crate) enum How {
    Taken,
    Ruled,
    Used,
    Signed,
    Last(u64),
}

// The variables that are known, and where the search stands.
#[derive(Drop)]
pub(crate) struct Trail {
    pub(crate) known: Named<Var>,
    pub(crate) search: Search,
}

// Nothing is met, and these are known.
pub(crate) fn at_start(alloc: Global, scope: &Vars) -> Result<Trail, Mem>
    ensures { IfOk result (λ a. a ≡ record { known = scope.now; search = at_first }) }
{
    let mut known = Named::new(alloc);
    for v in scope.as_slice() {
        known.push(v.copy(alloc)?)?;
    }
    Ok(Trail {
        known,
        search: Search {
            at: 0,
            found: false,
        },
    })
}

// Whether the name is known.
fn knows(known: &Named<Var>, name: &Name) -> bool
    ensures { result ≡ is_known (var_names known.now) name.now }
{
    known.named(name).is_some()
}

// The sort of the name's binder.
fn sort_of(known: &Named<Var>, name: &Name) -> Option<Sort>
    ensures { result ≡ option_map (λ v. v.sort) (binder_of known.now name.now) }
{
    match known.named(name) {
        Some(v) => Some(v.sort),
        None => None,
    }
}

// Whether the variable has a sign that isn't the sort of its binder.
fn has_other_sort(known: &Named<Var>, v: &Var) -> bool
    ensures { result ≡ has_other_sort known.now v.now }
{
    if v.sort == Sort::Msg {
        return false;
    }
    match sort_of(known, &v.name) {
        Some(s) => s != v.sort,
        None => false,
    }
}

// Whether the variable binds its name for what stands behind it.
fn is_bound(how: How, v: &Var, known: &Named<Var>) -> bool
    ensures { result ≡ is_bound how v.now known.now }
{
    match how {
        How::Taken => true,
        How::Ruled => !knows(known, &v.name) && v.sort == Sort::Pub,
        How::Used | How::Signed => false,
        How::Last(_) => !knows(known, &v.name),
    }
}

// Whether it is looked for.
fn is_free(how: How, v: &Var, known: &Named<Var>) -> bool
    ensures { result ≡ is_free how v.now known.now }
{
    match how {
        How::Taken => false,
        How::Ruled => !knows(known, &v.name) && v.sort != Sort::Pub,
        How::Used => !knows(known, &v.name),
        How::Signed => has_other_sort(known, v),
        How::Last(room) => !knows(known, &v.name) && known.len() == room,
    }
}

// A variable is met.
fn meet(alloc: Global, how: How, v: &Var, trail: &mut Trail) -> Result<(), Mem>
    ensures { OnOk result (trail.new ≡ met how trail.old (variable v.now)) }
{
    let is = is_free(how, v, &trail.known);
    if is_bound(how, v, &trail.known) {
        trail.known.push(v.copy(alloc)?)?;
    }
    visit(&mut trail.search, is);
    Ok(())
}

#[cycle(nodes)]
#[tactic(auto, using(crate::proofs::UnboundLemmas::met_laws))]
pub(crate) fn in_term(
    alloc: Global,
    how: How,
    part: Part,
    t: &Term,
    trail: &mut Trail,
) -> Result<(), Mem>
    ensures { OnOk result (trail.new ≡ met_all how trail.old (tree_nodes part (tree t.now))) }
{
    match t {
        Term::Var(v) => meet(alloc, how, v, trail),
        Term::App(_, ts) => {
            visit(&mut trail.search, false);
            in_terms(alloc, how, part, ts, trail)
        }
        _ => {
            visit(&mut trail.search, false);
            Ok(())
        }
    }
}

#[cycle(nodes)]
#[tactic(auto, using(crate::proofs::UnboundLemmas::met_laws))]
fn in_terms(
    alloc: Global,
    how: How,
    part: Part,
    ts: &TermList,
    trail: &mut Trail,
) -> Result<(), Mem>
    ensures { OnOk result (trail.new ≡ met_all how trail.old (trees_nodes part (trees_of ts.now))) }
{
    for k in 0..ts.len() {
        in_term(alloc, how, part, ts.at(k), trail)?;
    }
    Ok(())
}

#[tactic(auto, using(crate::proofs::UnboundLemmas::met_laws))]
pub(crate) fn in_both(
    alloc: Global,
    how: How,
    t: &Term,
    part: Part,
    u: &Term,
    trail: &mut Trail,
) -> Result<(), Mem>
    ensures { OnOk result (trail.new ≡ met_all how trail.old (tree_nodes Given (tree t.now) ++ tree_nodes part (tree u.now))) }
{
    in_term(alloc, how, Part::Given, t, trail)?;
    in_term(alloc, how, part, u, trail)
}

pub(crate) fn in_fact(
    alloc: Global,
    how: How,
    part: Part,
    f: &Fact,
    trail: &mut Trail,
) -> Result<(), Mem>
    ensures { OnOk result (trail.new ≡ met_all how trail.old (fact_nodes part f.now)) }
{
    visit(&mut trail.search, false);
    in_terms(alloc, how, part, &f.args, trail)
}

#[tactic(auto, using(crate::proofs::UnboundLemmas::met_laws))]
fn in_facts(
    alloc: Global,
    how: How,
    part: Part,
    fs: &FactList,
    trail: &mut Trail,
) -> Result<(), Mem>
    ensures { OnOk result (trail.new ≡ met_all how trail.old (facts_nodes part fs.now)) }
{
    for f in fs.as_slice() {
        in_fact(alloc, how, part, f, trail)?;
    }
    Ok(())
}

#[tactic(auto, using(crate::proofs::UnboundLemmas::met_laws))]
pub(crate) fn in_rule(
    alloc: Global,
    left: How,
    right: How,
    l: &FactList,
    e: &FactList,
    r: &FactList,
    trail: &mut Trail,
) -> Result<(), Mem>
    ensures { OnOk result (trail.new ≡ met_all right (met_all left trail.old (facts_nodes Pattern l.now))
        (facts_nodes Shown e.now ++ facts_nodes Given r.now)) }
{
    in_facts(alloc, left, Part::Pattern, l, trail)?;
    in_facts(alloc, right, Part::Shown, e, trail)?;
    in_facts(alloc, right, Part::Given, r, trail)
}
