//! The first fact of a head that differs from one of its name and kind before it.
ghost use Rattle.std.specs.Prelude.{◌≡◌, ℕ, true, false, List, [], ◌∷◌, ◌++◌, Some, take, slice_get, IfOk, OnOk};
ghost use Rattle.sap_terms.specs.Signature.{Sig};
ghost use Rattle.sap_terms.specs.declared.var.Var.{Var};
ghost use Rattle.sap_process.specs.Proc.{proc};
ghost use Rattle.sap_process.specs.Sites.{Site, sites_in};
ghost use Rattle.sap_process.specs.declared.flaw.Flaw.TheVariants.{FactClash};
ghost use Rattle.sap_nodes.specs.FlawNodes.{IsTold};
ghost use Rattle.sap_nodes.specs.HeadNodes.{fact_nodes, facts_nodes};
ghost use Rattle.sap_nodes.specs.code.Clashes.{noted_of, is_same, is_clash, noted, noted_all, nothing_noted, fact_clashes, fact_noted, head_noted, places_noted, clash_met_all, clash_head, clash_along};
ghost use Rattle.sap_nodes.specs.declared.part.Part.TheVariants.{Pattern, Shown, Given};

use crate::Part;
use crate::finding::{Search, in_terms, told, visit};
use sap_process::{Children, Flaw, Process};
use sap_terms::{Copied, Fact, FactList, HasName, Mem, Name, Named, Path, Signature};
use std::alloc::Global;

// The name of a fact, with what it has in common with each of its name: the number of its arguments and, where that counts,
// whether it is persistent.
#[derive(Drop)]
pub(crate) struct Noted {
    name: Name,
    arity: u64,
    persistent: bool,
}

impl HasName for Noted {
    ghost name_of = { λ x. x.name };

    fn name(&self) -> &Name {
        &self.name
    }
}

// Whether the fact has all that in common.
fn is_same(x: &Noted, both: bool, f: &Fact) -> bool
    ensures { result ≡ is_same x.now (noted_of both f.now) }
{
    x.arity == f.args.len() && x.persistent == (both && f.persistent)
}

// Of each name the first fact, and those that differ from it.
#[derive(Drop)]
pub(crate) struct Met {
    firsts: Named<Noted>,
    others: Named<Noted>,
}

impl Met {
    fn new(alloc: Global) -> Met
        ensures { result ≡ record { firsts = []; others = [] } }
    {
        Met {
            firsts: Named::new(alloc),
            others: Named::new(alloc),
        }
    }

    // Notes the fact; whether one that was noted before has its name and differs.
    fn note(&mut self, alloc: Global, both: bool, f: &Fact) -> Result<bool, Mem>
        ensures clash { IfOk result (λ b. b ≡ is_clash self.old (noted_of both f.now)) }
        ensures noted { OnOk result (self.new ≡ noted self.old (noted_of both f.now)) }
    {
        let Some(first) = self.firsts.named(&f.name) else {
            push(alloc, &mut self.firsts, both, f)?;
            return Ok(false);
        };
        if is_same(first, both, f) {
            return Ok(self.others.named(&f.name).is_some());
        }
        push(alloc, &mut self.others, both, f)?;
        Ok(true)
    }

    // Notes the facts.
    fn note_all(&mut self, alloc: Global, both: bool, fs: &FactList) -> Result<(), Mem>
        ensures { OnOk result (self.new ≡ noted_all both self.old fs.now) }
    {
        for f in fs.as_slice() {
            self.note(alloc, both, f)?;
        }
        Ok(())
    }
}

fn push(alloc: Global, facts: &mut Named<Noted>, both: bool, f: &Fact) -> Result<(), Mem>
    ensures { OnOk result (facts.new ≡ facts.old ++ noted_of both f.now ∷ []) }
{
    let name = f.name.copy(alloc)?;
    facts.push(Noted {
        name,
        arity: f.args.len(),
        persistent: both && f.persistent,
    })
}

// The facts that were met: those that are taken and added, by both, those that are shown, by their arguments; and where the search
// stands.
#[derive(Drop)]
pub(crate) struct Facts {
    stored: Met,
    shown: Met,
    search: Search,
}

impl Facts {
    fn new(alloc: Global) -> Facts
        ensures { result ≡ nothing_noted }
    {
        Facts {
            stored: Met::new(alloc),
            shown: Met::new(alloc),
            search: Search {
                at: 0,
                found: false,
            },
        }
    }

    // Notes a fact of this part; whether it differs from one before it.
    fn note(&mut self, alloc: Global, part: Part, f: &Fact) -> Result<bool, Mem>
        ensures clash { IfOk result (λ b. b ≡ fact_clashes self.old part f.now) }
        ensures noted { OnOk result (self.new ≡ fact_noted self.old part f.now) }
    {
        match part {
            Part::Shown => self.shown.note(alloc, false, f),
            Part::Pattern | Part::Given => self.stored.note(alloc, true, f),
        }
    }

    // Notes the facts of a head.
    fn note_head(&mut self, alloc: Global, p: &Process) -> Result<(), Mem>
        ensures { OnOk result (self.new ≡ head_noted self.old (proc p.now)) }
    {
        match p {
            Process::Event(f, _) => {
                self.shown.note(alloc, false, f)?;
                Ok(())
            }
            Process::Embedded(l, e, r, _) => self.note_rule(alloc, l, e, r),
            _ => Ok(()),
        }
    }

    #[tactic(auto, using(crate::proofs::MetFacts::noted_laws))]
    fn note_rule(
        &mut self,
        alloc: Global,
        l: &FactList,
        e: &FactList,
        r: &FactList,
    ) -> Result<(), Mem>
        ensures { OnOk result (self.new ≡ record self.old {
          stored = noted_all true self.old.stored (l.now ++ r.now);
          shown = noted_all false self.old.shown e.now;
        }) }
    {
        self.stored.note_all(alloc, true, l)?;
        self.stored.note_all(alloc, true, r)?;
        self.shown.note_all(alloc, false, e)
    }
}

// Notes the facts of all places from this one on.
fn note_places(alloc: Global, p: &Process, facts: &mut Facts) -> Result<(), Mem>
    ensures { OnOk result (facts.new ≡ places_noted facts.old (proc p.now)) }
{
    facts.note_head(alloc, p)?;
    match p.children() {
        Children::Nothing => Ok(()),
        Children::One(q) => note_places(alloc, q, facts),
        Children::Two(q, r) => {
            note_places(alloc, q, facts)?;
            note_places(alloc, r, facts)
        }
    }
}

/// The fact of the head of the process at this path that differs from one of its name and kind before it, at a place before this one
/// in preorder or at a node in front of it: the first one, counted from 0 in the order in which the head is written; from the greatest
/// u64 on, that number. Where no path leads there, nothing is said. Want of memory is the only error. It takes time in proportion to
/// the places before, where names are looked up by a tree, and recurses as deep as the process and the terms.
pub fn clash_node(alloc: Global, p: &Process, path: &Path) -> Result<Option<u64>, Mem>
    ensures { IfOk result (λ o. (scope : List Var) (k : ℕ) (s : Site) → slice_get (sites_in scope (proc p.now)) k ≡ Some s → s.path ≡ path.now
        → (g : Sig) → IsTold g (take k (sites_in scope (proc p.now))) s FactClash o) }
{
    let sig = Signature::new(alloc)?;
    let mut facts = Facts::new(alloc);
    along(alloc, &sig, p, path.as_slice(), &mut facts)?;
    Ok(told(facts.search))
}

// Notes the facts on the way along these digits and beside it, and looks for the one that clashes at its end.
#[cycle(way)]
fn along(
    alloc: Global,
    sig: &Signature,
    p: &Process,
    digits: &[u8],
    facts: &mut Facts,
) -> Result<(), Mem>
    ensures { OnOk result (facts.new ≡ clash_along facts.old digits.now (proc p.now)) }
{
    match digits.split_first() {
        None => in_head(alloc, sig, p, facts),
        Some((digit, rest)) => below(alloc, sig, p, *digit, rest, facts),
    }
}

// The same, where the first digit is this.
#[cycle(way)]
fn below(
    alloc: Global,
    sig: &Signature,
    p: &Process,
    digit: u8,
    rest: &[u8],
    facts: &mut Facts,
) -> Result<(), Mem>
    ensures { OnOk result (facts.new ≡ clash_along facts.old (digit ∷ rest.now) (proc p.now)) }
{
    facts.note_head(alloc, p)?;
    match p.children() {
        Children::Nothing => Ok(()),
        Children::One(q) => {
            if digit == 1 {
                along(alloc, sig, q, rest, facts)
            } else {
                Ok(())
            }
        }
        Children::Two(q, r) => {
            if digit == 1 {
                return along(alloc, sig, q, rest, facts);
            }
            note_places(alloc, q, facts)?;
            along(alloc, sig, r, rest, facts)
        }
    }
}

fn in_fact(
    alloc: Global,
    sig: &Signature,
    part: Part,
    f: &Fact,
    facts: &mut Facts,
) -> Result<(), Mem>
    ensures { OnOk result (facts.new ≡ clash_met_all facts.old (fact_nodes part f.now)) }
{
    let differs = facts.note(alloc, part, f)?;
    visit(&mut facts.search, differs);
    in_terms(sig, Flaw::FactClash, part, &f.args, &mut facts.search);
    Ok(())
}

#[tactic(auto, using(crate::proofs::MetFacts::clash_laws))]
fn in_facts(
    alloc: Global,
    sig: &Signature,
    part: Part,
    fs: &FactList,
    facts: &mut Facts,
) -> Result<(), Mem>
    ensures { OnOk result (facts.new ≡ clash_met_all facts.old (facts_nodes part fs.now)) }
{
    for f in fs.as_slice() {
        in_fact(alloc, sig, part, f, facts)?;
    }
    Ok(())
}

#[tactic(auto, using(crate::proofs::MetFacts::clash_laws))]
fn in_rule(
    alloc: Global,
    sig: &Signature,
    l: &FactList,
    e: &FactList,
    r: &FactList,
    facts: &mut Facts,
) -> Result<(), Mem>
    ensures { OnOk result (facts.new ≡ clash_met_all facts.old
        (facts_nodes Pattern l.now ++ (facts_nodes Shown e.now ++ facts_nodes Given r.now))) }
{
    in_facts(alloc, sig, Part::Pattern, l, facts)?;
    in_facts(alloc, sig, Part::Shown, e, facts)?;
    in_facts(alloc, sig, Part::Given, r, facts)
}

// The facts of the head are met; of another head than these nothing is.
fn in_head(alloc: Global, sig: &Signature, p: &Process, facts: &mut Facts) -> Result<(), Mem>
    ensures { OnOk result (facts.new ≡ clash_head facts.old (proc p.now)) }
{
    match p {
        Process::Event(f, _) => in_fact(alloc, sig, Part::Shown, f, facts),
        Process::Embedded(l, e, r, _) => in_rule(alloc, sig, l, e, r, facts),
        _ => Ok(()),
    }
}
