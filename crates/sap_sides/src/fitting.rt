// Facts matched with numbers, where no destructor stands in them.
ghost use Rattle.std.specs.Prelude.{◌≡◌, true, false, length, IfOk};
ghost use Rattle.sap_terms.specs.Destructors.{AnyHasDestructor};
ghost use Rattle.sap_terms.specs.Tree.{trees_of};
ghost use Rattle.sap_rewrite.specs.Around.{all_outer_vars};
ghost use Rattle.sap_share.specs.Env.{AreBound, bindings_of};
ghost use Rattle.sap_share.specs.Shared.{trees_at, AreBelow};
ghost use Rattle.sap_sides.specs.Fitting.{IsOnlyChoice, HasNoChoice, ArgsFit, FactFit};
ghost use Rattle.sap_sides.specs.Messages.{HasNoDestructor};
ghost use Rattle.sap_sides.specs.SharedFacts.{fact_seen};

use crate::SharedFact;
use sap_rewrite::{agreeing_choices_substitute, extensions_join};
use sap_share::{Env, Table};
use sap_terms::{Fact, Mem, Numbers, TermList};
use std::alloc::Global;

// Whether patterns without destructors fit what has these numbers, under what is bound and what is bound then.
fn fit_args(
    table: &Table,
    alloc: Global,
    ps: &TermList,
    ks: &Numbers,
    env: &mut Env,
) -> Result<bool, Mem>
    requires plain { AnyHasDestructor table.now.sig (trees_of ps.now) → ⊥ }
    requires below { AreBelow (length table.now.trees) ks.now }
    requires env { AreBound (length table.now.trees) env.old }
    ensures yes { IfOk result (λ r. r ≡ true → IsOnlyChoice (ArgsFit table.now.sig ps.now (trees_at table.now.trees ks.now)) (all_outer_vars table.now.sig (trees_of ps.now)) (bindings_of table.now.trees env.old) (bindings_of table.now.trees env.new)) }
    ensures not { IfOk result (λ r. r ≡ false → HasNoChoice (ArgsFit table.now.sig ps.now (trees_at table.now.trees ks.now)) (all_outer_vars table.now.sig (trees_of ps.now)) (bindings_of table.now.trees env.old)) }
    ensures bound { IfOk result (λ _. AreBound (length table.now.trees) env.new) }
{
    extensions_join();
    agreeing_choices_substitute();
    if ps.len() != ks.len() {
        return Ok(false);
    }
    for i in 0..ps.len() {
        if !table.fits(alloc, ps.at(i), *ks.at(i), env)? {
            return Ok(false);
        }
    }
    Ok(true)
}

/// Whether a fact without destructors fits a fact with numbers, under what is bound and what is bound then: a number for
/// each of its variables that wasn't bound. Where it is false or fails, more may be bound than before.
/// It recurses as deep as the terms that it is given.
pub fn fit_fact(
    table: &Table,
    alloc: Global,
    f: &Fact,
    s: &SharedFact,
    env: &mut Env,
) -> Result<bool, Mem>
    requires plain { HasNoDestructor table.now.sig f.now }
    requires below { AreBelow (length table.now.trees) s.now.args }
    requires env { AreBound (length table.now.trees) env.old }
    ensures yes { IfOk result (λ r. r ≡ true → IsOnlyChoice (FactFit table.now.sig f.now (fact_seen table.now.trees s.now)) (all_outer_vars table.now.sig (trees_of f.now.args)) (bindings_of table.now.trees env.old) (bindings_of table.now.trees env.new)) }
    ensures not { IfOk result (λ r. r ≡ false → HasNoChoice (FactFit table.now.sig f.now (fact_seen table.now.trees s.now)) (all_outer_vars table.now.sig (trees_of f.now.args)) (bindings_of table.now.trees env.old)) }
    ensures bound { IfOk result (λ _. AreBound (length table.now.trees) env.new) }
{
    if !s.name.same(&f.name) {
        return Ok(false);
    }
    if s.persistent != f.persistent {
        return Ok(false);
    }
    fit_args(table, alloc, &f.args, &s.args, env)
}
