// Facts matched with facts of trees, around destructors.
ghost use Rattle.std.specs.Prelude.{◌≡◌, length, IfOk, MatchOption};
ghost use Rattle.sap_terms.specs.Tree.{trees_of};
ghost use Rattle.sap_rewrite.specs.Around.{all_outer_vars};
ghost use Rattle.sap_sides.specs.Fitting.{facts_outer_vars, IsOnlyChoice, HasNoChoice, ArgsFit, FactFit, FactsFit};

use crate::laws::facts_fit_in_turn;
use sap_rewrite::{extensions_join, match_around};
use sap_terms::{Bindings, Fact, FactList, Mem, Signature, TermList};
use std::alloc::Global;

/// The bindings b and then terms for the variables of these facts outside destructors, which turn the facts into the
/// others around destructors; None where there are none. It recurses as deep as the terms that it is given.
pub fn match_facts(
    alloc: Global,
    sig: &Signature,
    fs: &FactList,
    cited: &FactList,
    b: Bindings,
) -> Result<Option<Bindings>, Mem>
    requires count { length cited.now ≡ length fs.now }
    ensures { IfOk result (λ o. MatchOption o
        (HasNoChoice (FactsFit sig.now fs.now cited.now) (facts_outer_vars sig.now fs.now) b)
        (λ c. IsOnlyChoice (FactsFit sig.now fs.now cited.now) (facts_outer_vars sig.now fs.now) b c)) }
{
    facts_fit_in_turn();
    let mut c = b;
    for k in 0..fs.len() {
        match match_fact(alloc, sig, fs.at(k), cited.at(k), c) {
            Ok(Some(d)) => c = d,
            Ok(None) => return Ok(None),
            Err(e) => return Err(e),
        }
    }
    Ok(Some(c))
}

// The same of one fact.
fn match_fact(
    alloc: Global,
    sig: &Signature,
    f: &Fact,
    h: &Fact,
    b: Bindings,
) -> Result<Option<Bindings>, Mem>
    ensures { IfOk result (λ o. MatchOption o
        (HasNoChoice (FactFit sig.now f.now h.now) (all_outer_vars sig.now (trees_of f.now.args)) b)
        (λ c. IsOnlyChoice (FactFit sig.now f.now h.now) (all_outer_vars sig.now (trees_of f.now.args)) b c)) }
{
    if !h.name.same(&f.name) {
        return Ok(None);
    }
    if h.persistent != f.persistent {
        return Ok(None);
    }
    match_args(alloc, sig, &f.args, &h.args, b)
}

// The same of arguments.
fn match_args(
    alloc: Global,
    sig: &Signature,
    ps: &TermList,
    ts: &TermList,
    b: Bindings,
) -> Result<Option<Bindings>, Mem>
    ensures { IfOk result (λ o. MatchOption o
        (HasNoChoice (ArgsFit sig.now ps.now ts.now) (all_outer_vars sig.now (trees_of ps.now)) b)
        (λ c. IsOnlyChoice (ArgsFit sig.now ps.now ts.now) (all_outer_vars sig.now (trees_of ps.now)) b c)) }
{
    extensions_join();
    if ps.len() != ts.len() {
        return Ok(None);
    }
    let mut c = b;
    for k in 0..ps.len() {
        match match_around(alloc, sig, ps.at(k), ts.at(k), c) {
            Ok(Some(d)) => c = d,
            Ok(None) => return Ok(None),
            Err(e) => return Err(e),
        }
    }
    Ok(Some(c))
}
