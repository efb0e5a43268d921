//! Written steps of rules.
ghost use Rattle.std.specs.Prelude.{◌≡◌, IfOk};

use crate::copies::copies;
use sap_terms::{Bindings, Copied, Items, Mem, Name, Numbers};
use std::alloc::Global;

/// A written step of rules. Facts and knowledge entries are named by their numbers, each counted from 0 in order of
/// coming; fresh names by theirs.
#[derive(Drop)]
pub enum RStep {
    /// The fresh name with this number is made.
    Fresh(u64),
    /// The adversary learns what the fact with this number put out.
    Learn(u64),
    /// The adversary takes the fresh name of the fact with this number.
    Own(u64),
    /// The adversary writes down a public name.
    Public(Name),
    /// The adversary applies a symbol to these entries.
    Apply(Name, Numbers),
    /// The adversary shows that it knows this entry, and gives it in.
    Know(u64),
    /// The rule of this name is used on the facts with these numbers, its open variables standing for these terms.
    Rule(Name, Numbers, Bindings),
}

/// Steps of rules, in order.
pub type RSteps = Items<RStep>;

impl Copied for RStep {
    fn copy(&self, alloc: Global) -> Result<RStep, Mem> {
        match self {
            RStep::Fresh(n) => Ok(RStep::Fresh(*n)),
            RStep::Learn(f) => Ok(RStep::Learn(*f)),
            RStep::Own(f) => Ok(RStep::Own(*f)),
            RStep::Public(name) => Ok(RStep::Public(name.copy(alloc)?)),
            RStep::Apply(symbol, entries) => {
                let (symbol, entries) = copies(alloc, symbol, entries)?;
                Ok(RStep::Apply(symbol, entries))
            }
            RStep::Know(k) => Ok(RStep::Know(*k)),
            RStep::Rule(name, facts, bindings) => copy_rule(alloc, name, facts, bindings),
        }
    }
}

fn copy_rule(alloc: Global, name: &Name, facts: &Numbers, bindings: &Bindings) -> Result<RStep, Mem>
    ensures { IfOk result (λ step. step ≡ RStep.Rule name.now facts.now bindings.now) }
{
    let (name, facts) = copies(alloc, name, facts)?;
    Ok(RStep::Rule(name, facts, bindings.copy(alloc)?))
}
