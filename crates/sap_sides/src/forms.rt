// Normal forms of facts by numbers, and the sides of a rule.
ghost use Rattle.std.specs.Prelude.{◌<◌, length, map, All, IfOk, OnOk, IsErrOf};
ghost use Rattle.sap_terms.specs.Choice.{instance};
ghost use Rattle.sap_terms.specs.Equations.{equations};
ghost use Rattle.sap_terms.specs.Modulo.{instance_fact, instance_facts, IsFormOfFact, AreFormsOfFacts};
ghost use Rattle.sap_terms.specs.Message.{IsFactOver};
ghost use Rattle.sap_share.specs.Env.{given, AreSmallForms};
ghost use Rattle.sap_share.specs.Shared.{AreBelow, Keeps};
ghost use Rattle.sap_sides.specs.Forms.{SomeLarge, args_of, AreSides, HasLargeSide};
ghost use Rattle.sap_sides.specs.Messages.{IsGroundFact};
ghost use Rattle.sap_sides.specs.SharedFacts.{fact_seen, AreFactsBelow};

use crate::SharedFact;
use crate::shared_fact::{built_facts, push_fact};
use sap_rewrite::Cut;
use sap_share::{Env, Table};
use sap_terms::{Copied, Fact, FactList, MOST_TERM_NODES};
use std::alloc::Global;

/// What a rule shows, and what it adds, with numbers for its arguments.
#[derive(Drop)]
pub struct Sides {
    pub acts: FactList,
    pub right: Vec<SharedFact>,
}

// The normal form of a fact under what is bound, with numbers for its arguments; Large where that of a subterm has more than
// 256 nodes. Refused, there may be more numbers than before.
fn form_fact(table: &mut Table, alloc: Global, env: &Env, f: &Fact) -> Result<SharedFact, Cut>
    requires env { AreSmallForms (equations table.old.sig) MOST_TERM_NODES table.old.trees env.now }
    requires ground { IsGroundFact (instance_fact (given table.old.trees env.now) f.now) }
    requires over { IsFactOver table.old.sig f.now }
    ensures below { IfOk result (λ s. AreBelow (length table.new.trees) s.args) }
    ensures form { IfOk result (λ s. IsFormOfFact (equations table.old.sig) (instance_fact (given table.old.trees env.now) f.now) (fact_seen table.new.trees s)) }
    ensures within { OnOk result (SomeLarge table.old.sig (map (instance (given table.old.trees env.now)) f.now.args) → ⊥) }
    ensures large { IsErrOf result Cut.Large → SomeLarge table.old.sig (map (instance (given table.old.trees env.now)) f.now.args) }
    ensures keeps { Keeps table.old table.new }
{
    let name = f.name.copy(alloc)?;
    match table.evaluate_all(alloc, env, &f.args, MOST_TERM_NODES) {
        Ok(args) => Ok(SharedFact {
            name,
            persistent: f.persistent,
            args,
        }),
        Err(cut) => {
            drop(name);
            Err(cut)
        }
    }
}

/// The normal forms of these facts under what is bound, with numbers for their arguments; Large where that of a subterm
/// has more than 256 nodes. Refused, the table may have more numbers than before.
/// It recurses as deep as the terms that it is given.
#[tactic(auto, using(crate::proofs::ByNumbers::side_laws))]
pub fn form_facts(
    table: &mut Table,
    alloc: Global,
    env: &Env,
    fs: &FactList,
) -> Result<Vec<SharedFact>, Cut>
    requires env { AreSmallForms (equations table.old.sig) MOST_TERM_NODES table.old.trees env.now }
    requires ground { All IsGroundFact (instance_facts (given table.old.trees env.now) fs.now) }
    requires over { All (IsFactOver table.old.sig) fs.now }
    ensures below { IfOk result (λ v. AreFactsBelow (length table.new.trees) v.items) }
    ensures forms { IfOk result (λ v. AreFormsOfFacts (equations table.old.sig) (instance_facts (given table.old.trees env.now) fs.now) (map (fact_seen table.new.trees) v.items)) }
    ensures within { OnOk result (SomeLarge table.old.sig (map (instance (given table.old.trees env.now)) (args_of fs.now)) → ⊥) }
    ensures large { IsErrOf result Cut.Large → SomeLarge table.old.sig (map (instance (given table.old.trees env.now)) (args_of fs.now)) }
    ensures keeps { Keeps table.old table.new }
{
    let mut shared = Vec::new(alloc);
    for k in 0..fs.len() {
        match form_fact(table, alloc, env, fs.at(k)) {
            Ok(f) => push_fact(&mut shared, f)?,
            Err(cut) => return Err(cut),
        }
    }
    Ok(shared)
}

// The same, built.
fn form_acts(table: &mut Table, alloc: Global, env: &Env, fs: &FactList) -> Result<FactList, Cut>
    requires env { AreSmallForms (equations table.old.sig) MOST_TERM_NODES table.old.trees env.now }
    requires ground { All IsGroundFact (instance_facts (given table.old.trees env.now) fs.now) }
    requires over { All (IsFactOver table.old.sig) fs.now }
    ensures forms { IfOk result (AreFormsOfFacts (equations table.old.sig) (instance_facts (given table.old.trees env.now) fs.now)) }
    ensures within { OnOk result (SomeLarge table.old.sig (map (instance (given table.old.trees env.now)) (args_of fs.now)) → ⊥) }
    ensures large { IsErrOf result Cut.Large → SomeLarge table.old.sig (map (instance (given table.old.trees env.now)) (args_of fs.now)) }
    ensures keeps { Keeps table.old table.new }
{
    let shared = form_facts(table, alloc, env, fs)?;
    let built = built_facts(table, alloc, shared.as_slice());
    drop(shared);
    match built {
        Ok(acts) => Ok(acts),
        Err(_) => Err(Cut::Mem),
    }
}

/// What a rule with these acts and this right side shows and adds under what is bound; Large where the normal form of a
/// subterm has more than 256 nodes. Refused, the table may have more numbers than before.
/// It recurses as deep as the terms that it is given.
pub fn form_sides(
    table: &mut Table,
    alloc: Global,
    env: &Env,
    acts: &FactList,
    right: &FactList,
) -> Result<Sides, Cut>
    requires env { AreSmallForms (equations table.old.sig) MOST_TERM_NODES table.old.trees env.now }
    requires ground_acts { All IsGroundFact (instance_facts (given table.old.trees env.now) acts.now) }
    requires ground_right { All IsGroundFact (instance_facts (given table.old.trees env.now) right.now) }
    requires over_acts { All (IsFactOver table.old.sig) acts.now }
    requires over_right { All (IsFactOver table.old.sig) right.now }
    ensures sides { IfOk result (λ x. AreSides table.old.sig (given table.old.trees env.now) acts.now right.now table.new.trees x.acts x.right.items) }
    ensures large { IsErrOf result Cut.Large → HasLargeSide table.old.sig (given table.old.trees env.now) acts.now right.now }
    ensures keeps { Keeps table.old table.new }
{
    let acts = form_acts(table, alloc, env, acts)?;
    match form_facts(table, alloc, env, right) {
        Ok(right) => Ok(Sides { acts, right }),
        Err(cut) => {
            drop(acts);
            Err(cut)
        }
    }
}
