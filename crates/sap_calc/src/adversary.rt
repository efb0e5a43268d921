// What the adversary does by itself.
ghost use Rattle.std.specs.Prelude.{◌≡◌, ◌↔◌, ◌∷◌, [], IfOk, IfErr, OnOk, OnErr, IsTrue, Contains, option_map, slice_get};
ghost use Rattle.std.specs.Option.{option_copied};
ghost use Rattle.sap_terms.specs.AdversaryFacts.{k_fact};
ghost use Rattle.sap_terms.specs.View.{tree};
ghost use Rattle.sap_deduce.specs.Entries.{terms_of};
ghost use Rattle.sap_runs.specs.declared.process_step.PStep.TheVariants.{Name as NameLine, Public as PublicLine, Apply as ApplyLine, Know as KnowLine};
ghost use Rattle.sap_calc.specs.Running.{IsDone, IsDenied};
ghost use Rattle.sap_calc.specs.code.Denied.{denied_fault};

use crate::Config;
use sap_deduce::Deny;
use sap_lines::PFault;
use sap_sides::{find_room, is_among, put_last};
use sap_terms::{Copied, Fact, FactList, Mem, Name, Numbers, Term, TermList};
use std::alloc::Global;

// The fact `K` of the term, alone.
pub(crate) fn known_fact(alloc: Global, t: Term) -> Result<FactList, Mem>
    ensures { IfOk result (λ fs. fs ≡ k_fact (tree t) ∷ []) }
{
    let mut args = TermList::new(alloc);
    args.push(t)?;
    let name = Name::from_bytes(alloc, b"K")?;
    let mut facts = FactList::new(alloc);
    facts.push(Fact {
        name,
        persistent: false,
        args,
    })?;
    Ok(facts)
}

// Why a symbol on entries is refused, as the fault of a line.
fn fault_of(d: Deny) -> PFault
    ensures { result ≡ denied_fault d }
{
    match d {
        Deny::Mem => PFault::Mem,
        Deny::NotPublic { f } => PFault::NotPublic { f },
        Deny::Arity { f } => PFault::Arity { f },
        Deny::NoEntry { k } => PFault::NoEntry { k },
        Deny::TermLarge => PFault::TermLarge,
    }
}

// The fact `K` of a term that is lent, alone.
fn shown(alloc: Global, t: &Term) -> Result<FactList, Mem>
    ensures { IfOk result (λ fs. fs ≡ k_fact (tree t.now) ∷ []) }
{
    known_fact(alloc, t.copy(alloc)?)
}

impl Config {
    /// The term of the adversary's entry with this number, lent; None where no entry has it. It takes no memory.
    pub fn entry(&self, k: u64) -> Option<&Term>
        ensures { option_map tree (option_copied result) ≡ slice_get (terms_of self.now.known) k }
    {
        self.knowledge.at(k)
    }

    /// Lets the adversary write down a public name. Refused, nothing changes.
    pub(crate) fn public(&mut self, alloc: Global, a: &Name) -> Result<FactList, PFault>
        ensures ok { IfOk result (IsDone self.old self.new (PublicLine a.now)) }
        ensures refused { IfErr result (IsDenied self.old (PublicLine a.now)) }
        ensures err { OnErr result (self.new ≡ self.old) }
    {
        let name = a.copy(alloc)?;
        self.knowledge.public(&mut self.table, name)?;
        Ok(FactList::new(alloc))
    }

    /// Lets the adversary apply a symbol to entries. Refused, nothing changes.
    pub(crate) fn apply(
        &mut self,
        alloc: Global,
        f: &Name,
        entries: &Numbers,
    ) -> Result<FactList, PFault>
        ensures ok { IfOk result (IsDone self.old self.new (ApplyLine f.now entries.now)) }
        ensures refused { IfErr result (IsDenied self.old (ApplyLine f.now entries.now)) }
        ensures err { OnErr result (self.new ≡ self.old) }
    {
        match self.knowledge.apply(&mut self.table, f, entries) {
            Err(d) => Err(fault_of(d)),
            Ok(_) => Ok(FactList::new(alloc)),
        }
    }

    /// Lets the adversary show an entry. Refused, nothing changes.
    pub(crate) fn know(&mut self, alloc: Global, k: u64) -> Result<FactList, PFault>
        ensures ok { IfOk result (IsDone self.old self.new (KnowLine k)) }
        ensures refused { IfErr result (IsDenied self.old (KnowLine k)) }
        ensures err { OnErr result (self.new ≡ self.old) }
    {
        let Some(t) = self.knowledge.at(k) else {
            return Err(PFault::NoEntry { k });
        };
        Ok(shown(alloc, t)?)
    }

    /// Lets the adversary make a fresh name. Refused, nothing changes.
    pub(crate) fn name(&mut self, alloc: Global, n: u64) -> Result<FactList, PFault>
        ensures ok { IfOk result (IsDone self.old self.new (NameLine n)) }
        ensures refused { IfErr result (IsDenied self.old (NameLine n)) }
        ensures err { OnErr result (self.new ≡ self.old) }
    {
        if is_among(&self.made, n) {
            return Err(PFault::UsedName { n });
        }
        if is_among(&self.own, n) {
            return Err(PFault::UsedName { n });
        }
        match find_room(&mut self.own) {
            Err(_) => Err(PFault::Mem),
            Ok(()) => match self.knowledge.name(&mut self.table, n) {
                Err(_) => Err(PFault::Mem),
                Ok(_) => {
                    put_last(&mut self.own, n);
                    Ok(FactList::new(alloc))
                }
            },
        }
    }
}
