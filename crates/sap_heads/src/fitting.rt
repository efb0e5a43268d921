// The left side of a rule, and the facts that it takes.
ghost use Rattle.std.specs.Prelude.{◌≡◌, ◌↔◌, ◌++◌, length, map, IfOk, IfErr, OnOk, IsTrue, All};
ghost use Rattle.sap_terms.specs.Message.{IsMessage};
ghost use Rattle.sap_terms.specs.View.{tree};
ghost use Rattle.sap_process.specs.Heads.{facts_terms};
ghost use Rattle.sap_share.specs.Env.{AreBound, bindings_of};
ghost use Rattle.sap_share.specs.Shared.{AreBelow, Keeps};
ghost use Rattle.sap_sides.specs.SharedFacts.{fact_seen, AreFactsBelow};
ghost use Rattle.sap_heads.specs.code.Rules.{shape_of, shapes_of, shapes_shared, args_numbers, IsFit, IsFound, IsNotFound, IsBound, IsNotBound};

use crate::bindings::some_large;
use sap_lines::PFault;
use sap_share::{Bound, Env, Table};
use sap_sides::SharedFact;
use sap_terms::{Bindings, Copied, Fact, FactList, Mem, Numbers, TermList};
use std::alloc::Global;

// Whether the facts have one name, persistence and count of arguments.
fn is_alike(f: &Fact, s: &SharedFact) -> bool
    ensures { IsTrue result ↔ (shape_of f.now ≡ (s.now.name, (s.now.persistent, length s.now.args))) }
{
    f.name.same(&s.name) && f.persistent == s.persistent && f.args.len() == s.args.len()
}

// Whether facts are so, one by one.
fn are_alike(fs: &FactList, ss: &[SharedFact]) -> bool
    ensures { IsTrue result ↔ (shapes_of fs.now ≡ shapes_shared ss.now) }
{
    if fs.len() != ss.len() as u64 {
        return false;
    }
    for k in 0..fs.len() {
        if !is_alike(fs.at(k), &ss[k as usize]) {
            return false;
        }
    }
    true
}

// Puts terms last.
fn push_terms(alloc: Global, ts: &TermList, out: &mut TermList) -> Result<(), Mem>
    ensures { OnOk result (out.new ≡ out.old ++ ts.now) }
{
    for k in 0..ts.len() {
        out.push(ts.at(k).copy(alloc)?)?;
    }
    Ok(())
}

/// The arguments of facts, one fact after another.
pub fn terms_of_facts(alloc: Global, fs: &FactList) -> Result<TermList, Mem>
    ensures { IfOk result (λ ts. ts ≡ facts_terms fs.now) }
{
    let mut out = TermList::new(alloc);
    for f in fs.as_slice() {
        push_terms(alloc, &f.args, &mut out)?;
    }
    Ok(out)
}

// Puts numbers last.
fn push_numbers(ks: &Numbers, out: &mut Numbers) -> Result<(), Mem>
    ensures { OnOk result (out.new ≡ out.old ++ ks.now) }
{
    for k in ks.as_slice() {
        out.push(*k)?;
    }
    Ok(())
}

// The numbers in facts, one fact after another.
fn numbers_of(alloc: Global, ss: &[SharedFact]) -> Result<Numbers, Mem>
    ensures { IfOk result (λ ks. ks ≡ args_numbers ss.now) }
{
    let mut out = Numbers::new(alloc);
    for s in ss {
        push_numbers(&s.args, &mut out)?;
    }
    Ok(out)
}

// What is bound where the arguments of the facts fit the numbers.
fn fit_terms(
    alloc: Global,
    table: &Table,
    env: &Env,
    l: &FactList,
    ks: &Numbers,
) -> Result<Option<Env>, Mem>
    requires below { AreBelow (length table.now.trees) ks.now }
    requires env { AreBound (length table.now.trees) env.now }
    ensures { IfOk result (IsFit table.now.trees env.now l.now ks.now) }
{
    let ps = terms_of_facts(alloc, l)?;
    let mut found = env.copy(alloc)?;
    match table.fits_each(alloc, &ps, ks, &mut found) {
        Err(_) => {
            drop(found);
            Err(Mem)
        }
        Ok(fits) => {
            if fits {
                Ok(Some(found))
            } else {
                drop(found);
                Ok(None)
            }
        }
    }
}

// What is bound where the left side is matched with the cited facts.
pub(crate) fn found(
    alloc: Global,
    table: &Table,
    env: &Env,
    l: &FactList,
    cited: &[SharedFact],
) -> Result<Env, PFault>
    requires env { AreBound (length table.now.trees) env.now }
    requires below { AreFactsBelow (length table.now.trees) cited.now }
    ensures ok { IfOk result (IsFound table.now.trees env.now l.now (map (fact_seen table.now.trees) cited.now)) }
    ensures refused { IfErr result (IsNotFound table.now.trees env.now l.now (map (fact_seen table.now.trees) cited.now)) }
{
    if !are_alike(l, cited) {
        return Err(PFault::NoMatch);
    }
    match numbers_of(alloc, cited) {
        Err(_) => Err(PFault::Mem),
        Ok(ks) => match fit_terms(alloc, table, env, l, &ks) {
            Err(_) => Err(PFault::Mem),
            Ok(None) => Err(PFault::NoMatch),
            Ok(Some(found)) => Ok(found),
        },
    }
}

// Binds the variables of bindings to numbers of their terms.
fn bind_each(alloc: Global, table: &mut Table, env: &mut Env, b: &Bindings) -> Result<(), Mem>
    requires env { AreBound (length table.old.trees) env.old }
    requires messages { All (λ e. IsMessage table.old.sig e.var.sort (tree e.term)) b.now }
    ensures is { OnOk result (bindings_of table.new.trees env.new ≡ bindings_of table.old.trees env.old ++ b.now) }
    ensures below { OnOk result (AreBound (length table.new.trees) env.new) }
    ensures keeps { Keeps table.old table.new }
{
    for i in 0..b.len() {
        let e = b.at(i);
        let id = table.put(alloc, &e.term)?;
        let var = e.var.copy(alloc)?;
        env.push(Bound { var, id })?;
    }
    Ok(())
}

// What is bound, and then the same of bindings to terms of at most 256 nodes.
pub(crate) fn bind_small(
    alloc: Global,
    table: &mut Table,
    found: Env,
    b: &Bindings,
) -> Result<Env, PFault>
    requires env { AreBound (length table.old.trees) found }
    requires messages { All (λ e. IsMessage table.old.sig e.var.sort (tree e.term)) b.now }
    ensures ok { IfOk result (IsBound table.old.trees table.new.trees found b.now) }
    ensures refused { IfErr result (IsNotBound b.now) }
    ensures keeps { Keeps table.old table.new }
{
    let mut env = found;
    if some_large(b) {
        drop(env);
        return Err(PFault::TermLarge);
    }
    match bind_each(alloc, table, &mut env, b) {
        Err(_) => {
            drop(env);
            Err(PFault::Mem)
        }
        Ok(()) => Ok(env),
    }
}
