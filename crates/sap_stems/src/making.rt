//! Going through written nodes, with the nodes of arguments in place of parameters.
ghost use Rattle.std.specs.Prelude.{◌≡◌, ◌++◌, ◌∷◌, List, [], OnOk};
ghost use Rattle.std.specs.Option.{option_copied};
ghost use Rattle.sap_terms.specs.Tree.{trees_of};
ghost use Rattle.sap_terms.specs.View.{tree};
ghost use Rattle.sap_process.specs.Sites.{message_var};
ghost use Rattle.sap_macro.specs.Sources.{doing, located};
ghost use Rattle.sap_nodes.specs.HeadNodes.{action_nodes, binder, fact_nodes, facts_nodes, tree_nodes, trees_nodes, variable};
ghost use Rattle.sap_nodes.specs.declared.part.Part.TheVariants.{Given, Pattern, Shown};
ghost use Rattle.sap_stems.specs.WrittenNodes.{written_nodes};
ghost use Rattle.sap_stems.specs.code.Makings.{added, made, made_all, nodes_put, placed};

use sap_macro::{Doing, Source};
use sap_nodes::Part;
use sap_terms::{Fact, FactList, Items, Mem, Name, Term, TermList, Var};

/// A written node: its place, its number among the nodes there, from the greatest u64 on that, how many words of the file are behind
/// the item, and how many of the uses on the way are above it, from the outermost on.
#[derive(Clone, Copy)]
pub struct WrittenNode<'a> {
    pub source: &'a Source,
    pub index: u64,
    pub behind: usize,
    pub uses: u64,
}

/// What stands for a parameter.
#[derive(Drop)]
pub(crate) struct Put<'a> {
    pub(crate) param: Name,
    pub(crate) nodes: Items<WrittenNode<'a>>,
}

/// Written nodes that are gone through: the next one, and what stands for those in front of it.
#[derive(Drop)]
pub(crate) struct Making<'a> {
    pub(crate) at: WrittenNode<'a>,
    pub(crate) nodes: Items<WrittenNode<'a>>,
}

// The nodes that stand for the name, where it is a parameter.
fn put_nodes<'p, 'a>(puts: &'p Items<Put<'a>>, name: &Name) -> Option<&'p Items<WrittenNode<'a>>>
    ensures { option_copied result ≡ nodes_put puts.now name.now }
{
    for k in 0..puts.len() {
        if puts.at(k).param.same(name) {
            return Some(&puts.at(k).nodes);
        }
    }
    None
}

// A node that stands for itself.
fn place<'a>(making: &mut Making<'a>) -> Result<(), Mem>
    ensures { OnOk result (making.new ≡ placed making.old) }
{
    let at = making.at;
    making.nodes.push(at)?;
    making.at.index = at.index.saturating_add(1);
    Ok(())
}

// Puts these last.
fn add_all<'a>(list: &mut Items<WrittenNode<'a>>, nodes: &Items<WrittenNode<'a>>) -> Result<(), Mem>
    ensures { OnOk result (list.new ≡ list.old ++ nodes.now) }
{
    for k in 0..nodes.len() {
        list.push(*nodes.at(k))?;
    }
    Ok(())
}

// A node for which these stand.
fn place_all<'a>(making: &mut Making<'a>, nodes: &Items<WrittenNode<'a>>) -> Result<(), Mem>
    ensures { OnOk result (making.new ≡ added making.old nodes.now) }
{
    add_all(&mut making.nodes, nodes)?;
    making.at.index = making.at.index.saturating_add(1);
    Ok(())
}

// A variable.
fn place_variable<'a>(puts: &Items<Put<'a>>, v: &Var, making: &mut Making<'a>) -> Result<(), Mem>
    ensures { OnOk result (making.new ≡ made puts.now making.old (variable v.now)) }
{
    match put_nodes(puts, &v.name) {
        None => place(making),
        Some(nodes) => place_all(making, nodes),
    }
}

#[cycle(nodes)]
#[tactic(auto, using(crate::proofs::MakingLemmas::made_laws))]
pub(crate) fn in_term<'a>(
    puts: &Items<Put<'a>>,
    part: Part,
    t: &Term,
    making: &mut Making<'a>,
) -> Result<(), Mem>
    ensures { OnOk result (making.new ≡ made_all puts.now making.old (tree_nodes part (tree t.now))) }
{
    match t {
        Term::Var(v) => place_variable(puts, v, making),
        Term::App(_, ts) => {
            place(making)?;
            in_terms(puts, part, ts, making)
        }
        _ => place(making),
    }
}

#[cycle(nodes)]
#[tactic(auto, using(crate::proofs::MakingLemmas::made_laws))]
pub(crate) fn in_terms<'a>(
    puts: &Items<Put<'a>>,
    part: Part,
    ts: &TermList,
    making: &mut Making<'a>,
) -> Result<(), Mem>
    ensures { OnOk result (making.new ≡ made_all puts.now making.old (trees_nodes part (trees_of ts.now))) }
{
    for k in 0..ts.len() {
        in_term(puts, part, ts.at(k), making)?;
    }
    Ok(())
}

#[tactic(auto, using(crate::proofs::MakingLemmas::made_laws))]
fn in_both<'a>(
    puts: &Items<Put<'a>>,
    t: &Term,
    part: Part,
    u: &Term,
    making: &mut Making<'a>,
) -> Result<(), Mem>
    ensures { OnOk result (making.new
        ≡ made_all puts.now making.old (tree_nodes Given (tree t.now) ++ tree_nodes part (tree u.now))) }
{
    in_term(puts, Part::Given, t, making)?;
    in_term(puts, part, u, making)
}

fn in_fact<'a>(
    puts: &Items<Put<'a>>,
    part: Part,
    f: &Fact,
    making: &mut Making<'a>,
) -> Result<(), Mem>
    ensures { OnOk result (making.new ≡ made_all puts.now making.old (fact_nodes part f.now)) }
{
    place(making)?;
    in_terms(puts, part, &f.args, making)
}

#[tactic(auto, using(crate::proofs::MakingLemmas::made_laws))]
fn in_facts<'a>(
    puts: &Items<Put<'a>>,
    part: Part,
    fs: &FactList,
    making: &mut Making<'a>,
) -> Result<(), Mem>
    ensures { OnOk result (making.new ≡ made_all puts.now making.old (facts_nodes part fs.now)) }
{
    for f in fs.as_slice() {
        in_fact(puts, part, f, making)?;
    }
    Ok(())
}

#[tactic(auto, using(crate::proofs::MakingLemmas::made_laws))]
fn in_rule<'a>(
    puts: &Items<Put<'a>>,
    l: &FactList,
    e: &FactList,
    r: &FactList,
    making: &mut Making<'a>,
) -> Result<(), Mem>
    ensures { OnOk result (making.new ≡ made_all puts.now making.old
        (facts_nodes Pattern l.now ++ (facts_nodes Shown e.now ++ facts_nodes Given r.now))) }
{
    in_facts(puts, Part::Pattern, l, making)?;
    in_facts(puts, Part::Shown, e, making)?;
    in_facts(puts, Part::Given, r, making)
}

// What is done.
fn in_doing<'a>(puts: &Items<Put<'a>>, d: &Doing, making: &mut Making<'a>) -> Result<(), Mem>
    ensures { OnOk result (making.new ≡ made_all puts.now making.old (action_nodes (doing d.now))) }
{
    match d {
        Doing::New(_) => place(making),
        Doing::Out(t) | Doing::Delete(t) | Doing::Lock(t) | Doing::Unlock(t) => {
            in_term(puts, Part::Given, t, making)
        }
        Doing::In(t) => in_term(puts, Part::Pattern, t, making),
        Doing::Send(t, u) | Doing::Insert(t, u) => in_both(puts, t, Part::Given, u, making),
        Doing::Recv(t, u) => in_both(puts, t, Part::Pattern, u, making),
        Doing::Event(f) => in_fact(puts, Part::Shown, f, making),
        Doing::Embedded(l, e, r) => in_rule(puts, l, e, r, making),
    }
}

// A term, and behind it a variable that is bound.
#[tactic(auto, using(crate::proofs::MakingLemmas::made_laws))]
fn in_lookup<'a>(
    puts: &Items<Put<'a>>,
    t: &Term,
    x: &Var,
    making: &mut Making<'a>,
) -> Result<(), Mem>
    ensures { OnOk result (making.new
        ≡ made_all puts.now making.old (tree_nodes Given (tree t.now) ++ binder (message_var x.now) ∷ [])) }
{
    let _bound = x;
    in_term(puts, Part::Given, t, making)?;
    place(making)
}

/// All nodes that are written at the place.
pub(crate) fn in_head<'a>(
    puts: &Items<Put<'a>>,
    source: &Source,
    making: &mut Making<'a>,
) -> Result<(), Mem>
    ensures { OnOk result (making.new ≡ made_all puts.now making.old (written_nodes (located source.now))) }
{
    match source {
        Source::Nil(_) | Source::Par(_, _, _) | Source::Rep(_, _) => Ok(()),
        Source::Call(_, _, ts) => in_terms(puts, Part::Given, ts, making),
        Source::Act(_, d, _) => in_doing(puts, d, making),
        Source::If(_, t, u, _, _) => in_both(puts, t, Part::Given, u, making),
        Source::Lookup(_, t, x, _, _) => in_lookup(puts, t, x, making),
    }
}
