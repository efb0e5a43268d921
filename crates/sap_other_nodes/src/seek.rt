//! Walks through the nodes of a head that look for one of them: by its number, or by its name.
ghost use Rattle.std.specs.Prelude.{◌≡◌, ◌∷◌, ◌++◌, List, [], None, Some, IfOk, OnOk};
ghost use Rattle.sap_terms.specs.Tree.{trees_of};
ghost use Rattle.sap_terms.specs.View.{tree};
ghost use Rattle.sap_process.specs.Proc.{proc};
ghost use Rattle.sap_process.specs.Sites.{message_var};
ghost use Rattle.sap_nodes.specs.HeadNodes.{binder, variable, tree_nodes, trees_nodes, fact_nodes, facts_nodes, head_nodes};
ghost use Rattle.sap_nodes.specs.declared.part.Part.TheVariants.{Pattern, Shown, Given};
ghost use Rattle.sap_other_nodes.specs.code.Seeks.{after, bound_after, is_wanted, passed};

use sap_nodes::Part;
use sap_process::Process;
use sap_terms::{Copied, Fact, FactList, Mem, Name, Term, TermList, Var};
use std::alloc::Global;
use std::mem;

// The node of this number is looked for, or the first one that is a variable of the name that is kept.
#[derive(Clone, Copy)]
pub(crate) enum Wanted {
    Number(u64),
    Named,
}

// How many nodes stand in front of the one that is found, or were met if none is; from the greatest u64 on, that number. And the name
// that is looked for, or, once a node is found, its name, if it is a variable.
#[derive(Drop)]
pub(crate) struct Seek {
    pub(crate) at: u64,
    pub(crate) found: bool,
    pub(crate) name: Option<Name>,
}

// Whether a variable is the one.
fn is_wanted(wanted: Wanted, v: &Name, seek: &Seek) -> bool
    ensures { result ≡ is_wanted wanted seek.now (Some v.now) }
{
    match wanted {
        Wanted::Number(k) => seek.at == k,
        Wanted::Named => match &seek.name {
            Some(n) => n.same(v),
            None => false,
        },
    }
}

// A variable of this name is met.
fn meet(alloc: Global, wanted: Wanted, name: &Name, seek: &mut Seek) -> Result<(), Mem>
    ensures { OnOk result (seek.new ≡ passed wanted seek.old (Some name.now)) }
{
    if seek.found {
        return Ok(());
    }
    if is_wanted(wanted, name, seek) {
        let name = name.copy(alloc)?;
        drop(mem::replace(&mut seek.name, Some(name)));
        seek.found = true;
    } else {
        seek.at = seek.at.saturating_add(1);
    }
    Ok(())
}

// A node that is no variable is met.
fn pass(wanted: Wanted, seek: &mut Seek)
    ensures { seek.new ≡ passed wanted seek.old None }
{
    if seek.found {
        return;
    }
    match wanted {
        Wanted::Number(k) => if seek.at == k {
            drop(seek.name.take());
            seek.found = true;
            return;
        },
        Wanted::Named => {}
    }
    seek.at = seek.at.saturating_add(1);
}

#[cycle(nodes)]
#[tactic(auto, using(crate::proofs::SeekLemmas::seek_laws))]
fn in_term(alloc: Global, wanted: Wanted, part: Part, t: &Term, seek: &mut Seek) -> Result<(), Mem>
    ensures { OnOk result (seek.new ≡ after wanted seek.old (tree_nodes part (tree t.now))) }
{
    match t {
        Term::Var(v) => meet(alloc, wanted, &v.name, seek),
        Term::App(_, ts) => {
            pass(wanted, seek);
            in_terms(alloc, wanted, part, ts, seek)
        }
        _ => {
            pass(wanted, seek);
            Ok(())
        }
    }
}

#[cycle(nodes)]
#[tactic(auto, using(crate::proofs::SeekLemmas::seek_laws))]
fn in_terms(
    alloc: Global,
    wanted: Wanted,
    part: Part,
    ts: &TermList,
    seek: &mut Seek,
) -> Result<(), Mem>
    ensures { OnOk result (seek.new ≡ after wanted seek.old (trees_nodes part (trees_of ts.now))) }
{
    for k in 0..ts.len() {
        in_term(alloc, wanted, part, ts.at(k), seek)?;
    }
    Ok(())
}

#[tactic(auto, using(crate::proofs::SeekLemmas::seek_laws))]
fn in_both(
    alloc: Global,
    wanted: Wanted,
    t: &Term,
    part: Part,
    u: &Term,
    seek: &mut Seek,
) -> Result<(), Mem>
    ensures { OnOk result (seek.new ≡ after wanted seek.old (tree_nodes Given (tree t.now) ++ tree_nodes part (tree u.now))) }
{
    in_term(alloc, wanted, Part::Given, t, seek)?;
    in_term(alloc, wanted, part, u, seek)
}

fn in_fact(alloc: Global, wanted: Wanted, part: Part, f: &Fact, seek: &mut Seek) -> Result<(), Mem>
    ensures { OnOk result (seek.new ≡ after wanted seek.old (fact_nodes part f.now)) }
{
    pass(wanted, seek);
    in_terms(alloc, wanted, part, &f.args, seek)
}

#[tactic(auto, using(crate::proofs::SeekLemmas::seek_laws))]
fn in_facts(
    alloc: Global,
    wanted: Wanted,
    part: Part,
    fs: &FactList,
    seek: &mut Seek,
) -> Result<(), Mem>
    ensures { OnOk result (seek.new ≡ after wanted seek.old (facts_nodes part fs.now)) }
{
    for f in fs.as_slice() {
        in_fact(alloc, wanted, part, f, seek)?;
    }
    Ok(())
}

#[tactic(auto, using(crate::proofs::SeekLemmas::seek_laws))]
fn in_rule(
    alloc: Global,
    wanted: Wanted,
    l: &FactList,
    e: &FactList,
    r: &FactList,
    seek: &mut Seek,
) -> Result<(), Mem>
    ensures { OnOk result (seek.new ≡ after wanted seek.old
        (facts_nodes Pattern l.now ++ (facts_nodes Shown e.now ++ facts_nodes Given r.now))) }
{
    in_facts(alloc, wanted, Part::Pattern, l, seek)?;
    in_facts(alloc, wanted, Part::Shown, e, seek)?;
    in_facts(alloc, wanted, Part::Given, r, seek)
}

#[tactic(auto, using(crate::proofs::SeekLemmas::seek_laws))]
fn in_lookup(alloc: Global, wanted: Wanted, t: &Term, x: &Var, seek: &mut Seek) -> Result<(), Mem>
    ensures { OnOk result (seek.new ≡ after wanted seek.old (tree_nodes Given (tree t.now) ++ binder (message_var x.now) ∷ [])) }
{
    in_term(alloc, wanted, Part::Given, t, seek)?;
    meet(alloc, wanted, &x.name, seek)
}

/// The nodes of the head are met.
pub(crate) fn in_head(
    alloc: Global,
    wanted: Wanted,
    p: &Process,
    seek: &mut Seek,
) -> Result<(), Mem>
    ensures { OnOk result (seek.new ≡ after wanted seek.old (head_nodes (proc p.now))) }
{
    match p {
        Process::Nil | Process::Par(_, _) | Process::Rep(_) => Ok(()),
        Process::New(x, _) => meet(alloc, wanted, &x.name, seek),
        Process::In(t, _) => in_term(alloc, wanted, Part::Pattern, t, seek),
        Process::Out(t, _)
        | Process::Delete(t, _)
        | Process::Lock(t, _, _)
        | Process::Unlock(t, _, _) => in_term(alloc, wanted, Part::Given, t, seek),
        Process::Recv(t, u, _) => in_both(alloc, wanted, t, Part::Pattern, u, seek),
        Process::Send(t, u, _) | Process::If(t, u, _, _) | Process::Insert(t, u, _) => {
            in_both(alloc, wanted, t, Part::Given, u, seek)
        }
        Process::Lookup(t, x, _, _) => in_lookup(alloc, wanted, t, x, seek),
        Process::Event(f, _) => in_fact(alloc, wanted, Part::Shown, f, seek),
        Process::Embedded(l, e, r, _) => in_rule(alloc, wanted, l, e, r, seek),
    }
}

/// Of the nodes that the head binds for its child of this digit the first of this name is looked for; so many nodes stand in front of it.
pub(crate) fn in_binding(alloc: Global, p: &Process, digit: u8, name: &Name) -> Result<Seek, Mem>
    ensures { IfOk result (λ s. s ≡ bound_after name.now (proc p.now) digit) }
{
    let mut seek = Seek {
        at: 0,
        found: false,
        name: Some(name.copy(alloc)?),
    };
    match p {
        Process::New(x, _) => meet(alloc, Wanted::Named, &x.name, &mut seek)?,
        Process::In(t, _) => in_term(alloc, Wanted::Named, Part::Pattern, t, &mut seek)?,
        Process::Recv(t, u, _) => {
            seek.at = t.nodes();
            in_term(alloc, Wanted::Named, Part::Pattern, u, &mut seek)?
        }
        Process::Embedded(l, e, r, _) => in_rule(alloc, Wanted::Named, l, e, r, &mut seek)?,
        Process::Lookup(t, x, _, _) => {
            if digit == 1 {
                seek.at = t.nodes();
                meet(alloc, Wanted::Named, &x.name, &mut seek)?
            }
        }
        _ => {}
    }
    Ok(seek)
}
