// Normal forms of facts of trees.
ghost use Rattle.std.specs.Prelude.{◌≡◌, ◌↔◌, length, map, IsTrue, IfOk, OnOk, IsErrOf};
ghost use Rattle.std.specs.List.{AllZip};
ghost use Rattle.sap_terms.specs.Modulo.{instance_fact, instance_facts, IsFormOfFact, AreFormsOfFacts};
ghost use Rattle.sap_terms.specs.Normal.{IsNormalForm};
ghost use Rattle.sap_terms.specs.Subst.{bound_to, subst_tree};
ghost use Rattle.sap_terms.specs.Equations.{equations};
ghost use Rattle.sap_terms.specs.View.{tree};
ghost use Rattle.sap_rewrite.specs.Large.{HasLargeSubterm};
ghost use Rattle.sap_sides.specs.Forms.{SomeLarge, args_of, HaveArgs};

use sap_rewrite::{Cut, normal_within};
use sap_terms::{
    Bindings, Copied, Fact, FactList, MOST_TERM_NODES, Signature, Term, TermList, subst,
};
use std::alloc::Global;

/// The normal forms of these facts under the bindings; Large where that of a subterm has more than 256 nodes.
/// It recurses as deep as the terms that it is given.
pub fn forms_of_facts(
    alloc: Global,
    sig: &Signature,
    fs: &FactList,
    c: &Bindings,
) -> Result<FactList, Cut>
    ensures forms { IfOk result (λ r. AreFormsOfFacts (equations sig.now) (instance_facts (bound_to c.now) fs.now) r) }
    ensures within { OnOk result (SomeLarge sig.now (map (subst_tree c.now) (args_of fs.now)) → ⊥) }
    ensures large { IsErrOf result Cut.Large → SomeLarge sig.now (map (subst_tree c.now) (args_of fs.now)) }
{
    let mut out = FactList::new(alloc);
    for k in 0..fs.len() {
        match form_of_fact(alloc, sig, fs.at(k), c) {
            Ok(f) => out.push(f)?,
            Err(cut) => return Err(cut),
        }
    }
    Ok(out)
}

// That of one fact.
fn form_of_fact(alloc: Global, sig: &Signature, f: &Fact, c: &Bindings) -> Result<Fact, Cut>
    ensures form { IfOk result (λ r. IsFormOfFact (equations sig.now) (instance_fact (bound_to c.now) f.now) r) }
    ensures within { OnOk result (SomeLarge sig.now (map (subst_tree c.now) f.now.args) → ⊥) }
    ensures large { IsErrOf result Cut.Large → SomeLarge sig.now (map (subst_tree c.now) f.now.args) }
{
    let name = f.name.copy(alloc)?;
    match forms_of_args(alloc, sig, &f.args, c) {
        Ok(args) => Ok(Fact {
            name,
            persistent: f.persistent,
            args,
        }),
        Err(cut) => {
            drop(name);
            Err(cut)
        }
    }
}

// Those of arguments.
fn forms_of_args(
    alloc: Global,
    sig: &Signature,
    ts: &TermList,
    c: &Bindings,
) -> Result<TermList, Cut>
    ensures forms { IfOk result (λ r. AllZip (IsNormalForm (equations sig.now)) (map (subst_tree c.now) ts.now) r) }
    ensures within { OnOk result (SomeLarge sig.now (map (subst_tree c.now) ts.now) → ⊥) }
    ensures large { IsErrOf result Cut.Large → SomeLarge sig.now (map (subst_tree c.now) ts.now) }
{
    let mut out = TermList::new(alloc);
    for k in 0..ts.len() {
        match form(alloc, sig, ts.at(k), c) {
            Ok(t) => out.push(t)?,
            Err(cut) => return Err(cut),
        }
    }
    Ok(out)
}

// That of one term.
fn form(alloc: Global, sig: &Signature, t: &Term, c: &Bindings) -> Result<Term, Cut>
    ensures form { IfOk result (λ r. IsNormalForm (equations sig.now) (subst_tree c.now (tree t.now)) (tree r)) }
    ensures within { OnOk result (HasLargeSubterm (equations sig.now) MOST_TERM_NODES (subst_tree c.now (tree t.now)) → ⊥) }
    ensures large { IsErrOf result Cut.Large → HasLargeSubterm (equations sig.now) MOST_TERM_NODES (subst_tree c.now (tree t.now)) }
{
    let u = subst(alloc, t, c)?;
    normal_within(alloc, sig, &u, MOST_TERM_NODES)
}

/// Whether the facts have the same arguments.
pub fn have_args(fs: &FactList, hs: &FactList) -> bool
    requires { length hs.now ≡ length fs.now }
    ensures { IsTrue result ↔ HaveArgs fs.now hs.now }
{
    for k in 0..fs.len() {
        if !are_same(&fs.at(k).args, &hs.at(k).args) {
            return false;
        }
    }
    true
}

// Whether the terms are the same, one by one.
fn are_same(ts: &TermList, us: &TermList) -> bool
    ensures { IsTrue result ↔ (ts.now ≡ us.now) }
{
    if ts.len() != us.len() {
        return false;
    }
    for k in 0..ts.len() {
        if !ts.at(k).same(us.at(k)) {
            return false;
        }
    }
    true
}
