// Facts whose arguments are numbers of shared terms.
ghost use Rattle.std.specs.Prelude.{◌≡◌, [], ◌∷◌, ◌++◌, length, map, All, IfOk, OnOk};
ghost use Rattle.sap_share.specs.Shared.{AreBelow, Keeps};
ghost use Rattle.sap_sides.specs.Messages.{IsSmallMessageFact};
ghost use Rattle.sap_sides.specs.SharedFacts.{fact_seen, AreFactsBelow, IsShared, AreShared};

use sap_share::Table;
use sap_terms::{Copied, Fact, FactList, Mem, Name, Numbers};
use std::alloc::Global;

/// A fact whose arguments are numbers of a table.
#[derive(Drop)]
pub struct SharedFact {
    pub name: Name,
    pub persistent: bool,
    pub args: Numbers,
}

impl Copied for SharedFact {
    fn copy(&self, alloc: Global) -> Result<SharedFact, Mem> {
        let name = self.name.copy(alloc)?;
        match self.args.copy(alloc) {
            Ok(args) => Ok(SharedFact {
                name,
                persistent: self.persistent,
                args,
            }),
            Err(e) => {
                drop(name);
                Err(e)
            }
        }
    }
}

/// The fact with numbers for its arguments. Refused, the table may have more numbers than before.
/// It recurses as deep as the terms that it is given.
pub fn share_fact(table: &mut Table, alloc: Global, f: &Fact) -> Result<SharedFact, Mem>
    requires { IsSmallMessageFact table.old.sig f.now }
    ensures shared { IfOk result (IsShared table.new.trees f.now) }
    ensures keeps { Keeps table.old table.new }
{
    let name = f.name.copy(alloc)?;
    let persistent = f.persistent;
    match table.put_all(alloc, &f.args) {
        Ok(args) => Ok(SharedFact {
            name,
            persistent,
            args,
        }),
        Err(e) => {
            drop(name);
            Err(e)
        }
    }
}

// Puts a fact last.
pub(crate) fn push_fact(shared: &mut Vec<SharedFact>, f: SharedFact) -> Result<(), Mem>
    ensures { OnOk result (shared.new.items ≡ shared.old.items ++ f ∷ []) }
{
    shared.push(f)?;
    Ok(())
}

/// The facts with numbers for their arguments. Refused, the table may have more numbers than before.
/// It recurses as deep as the terms that it is given.
#[tactic(auto, using(crate::proofs::Kept::kept_laws))]
pub fn share_facts(table: &mut Table, alloc: Global, fs: &FactList) -> Result<Vec<SharedFact>, Mem>
    requires { All (IsSmallMessageFact table.old.sig) fs.now }
    ensures shared { IfOk result (λ v. AreShared table.new.trees fs.now v.items) }
    ensures keeps { Keeps table.old table.new }
{
    let mut shared = Vec::new(alloc);
    for k in 0..fs.len() {
        match share_fact(table, alloc, fs.at(k)) {
            Ok(f) => push_fact(&mut shared, f)?,
            Err(e) => return Err(e),
        }
    }
    Ok(shared)
}

/// The fact with trees for its numbers.
pub fn built_fact(table: &Table, alloc: Global, s: &SharedFact) -> Result<Fact, Mem>
    requires { AreBelow (length table.now.trees) s.now.args }
    ensures { IfOk result (λ f. f ≡ fact_seen table.now.trees s.now) }
{
    let name = s.name.copy(alloc)?;
    match table.terms_of(alloc, &s.args) {
        Ok(args) => Ok(Fact {
            name,
            persistent: s.persistent,
            args,
        }),
        Err(e) => {
            drop(name);
            Err(e)
        }
    }
}

/// The facts with trees for their numbers.
pub fn built_facts(table: &Table, alloc: Global, shared: &[SharedFact]) -> Result<FactList, Mem>
    requires { AreFactsBelow (length table.now.trees) shared.now }
    ensures { IfOk result (λ fs. fs ≡ map (fact_seen table.now.trees) shared.now) }
{
    let mut fs = FactList::new(alloc);
    for s in shared {
        match built_fact(table, alloc, s) {
            Ok(f) => fs.push(f)?,
            Err(e) => return Err(e),
        }
    }
    Ok(fs)
}
