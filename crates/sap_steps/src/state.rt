//! Where a run of rules stands, and each line done on it.
ghost use Rattle.std.specs.Prelude.{◌≡◌, ◌<◌, IfOk, OnErr, IfErr, All, length};
ghost use Rattle.sap_terms.specs.Message.{AreMessageFacts};
ghost use Rattle.sap_rule.specs.RuleSteps.{empty_state};
ghost use Rattle.sap_rule.specs.WellMade.{IsWellMade};
ghost use Rattle.sap_runs.specs.declared.rule_step.RStep.TheVariants.{Fresh as FreshLine, Learn as LearnLine, Own as OwnLine, Public as PublicLine, Apply as ApplyLine, Know as KnowLine, Rule as RuleLine};
ghost use Rattle.sap_steps.specs.Faults.{IsLineFault};
ghost use Rattle.sap_steps.specs.Lines.{IsLine, HasFewNodes};
ghost use Rattle.sap_steps.specs.code.Ready.{IsReady, rules_of};

use crate::RFault;
use crate::adversary::{give, name_made, put_out};
use crate::laws::lines_are_steps;
use crate::pile::SharedPile;
use crate::prepared::{Prepared, ready_rule};
use crate::taking::carry_out;
use crate::using::use_rule;
use indexmap::IndexSet;
use sap_deduce::{Knowledge, numbers_stay};
use sap_rule::{RuleList, Theory, steps_keep_messages};
use sap_runs::RStep;
use sap_sides::{find_room, is_among, put_last};
use sap_terms::{
    Bindings, Copied, FactList, Mem, Name, Named, Numbers, Signature, names_are_messages,
};
use std::alloc::Global;
use std::marker::Model;

/// Where a run of rules stands: the facts, what the adversary knows, and the names that were made.
#[derive(Drop)]
pub struct RuleState {
    rules: Named<Prepared>,
    facts: SharedPile,
    knowledge: Knowledge,
    made: IndexSet<u64>,
}

impl Model for RuleState {
    ghost use Rattle.std.specs.Coded.{codes};
    ghost use Rattle.sap_terms.specs.Codes.{tree_code};
    ghost use Rattle.sap_steps.specs.State.{State};

    ghost Value = { State };

    ghost coded = { Prim.hlevel (codes, tree_code) };

    ghost use Rattle.sap_deduce.specs.Entries.{terms_of};
    ghost use Rattle.sap_steps.specs.code.Ready.{rules_of};
    ghost use Rattle.sap_steps.specs.code.Tied.{IsTied};

    ghost view = { λ a. record {
      sig = a.knowledge.sig;
      rules = rules_of a.rules;
      at = record { facts = a.facts.slots; known = terms_of a.knowledge.entries; made = a.made.keys };
    } };

    ghost invariant = { λ a. IsTied a.rules a.facts a.knowledge };
}

// The rules, ready to be used.
fn made_ready(alloc: Global, sig: &Signature, rules: &RuleList) -> Result<Named<Prepared>, Mem>
    requires { All (IsWellMade sig.now) rules.now }
    ensures ready { IfOk result (All (IsReady sig.now)) }
    ensures rules { IfOk result (λ rs. rules_of rs ≡ rules.now) }
{
    let mut ready = Named::new(alloc);
    for r in rules.as_slice() {
        ready.push(ready_rule(alloc, sig, r)?)?;
    }
    Ok(ready)
}

impl RuleState {
    /// Where each run of the theory's rules starts. It recurses as deep as the terms of the rules.
    pub fn start(alloc: Global, t: &Theory) -> Result<RuleState, Mem>
        requires { All (IsWellMade t.now.signature) t.now.rules }
        ensures sig { IfOk result (λ s. s.sig ≡ t.now.signature) }
        ensures rules { IfOk result (λ s. s.rules ≡ t.now.rules) }
        ensures at { IfOk result (λ s. s.at ≡ empty_state) }
    {
        let knowledge = Knowledge::new(alloc, &t.signature).ok();
        let rules = made_ready(alloc, &t.signature, &t.rules).ok();
        let facts = SharedPile::new(alloc, &t.signature).ok();
        let ((knowledge, rules), facts) = knowledge.zip(rules).zip(facts).ok_or(Mem)?;
        Ok(RuleState {
            rules,
            facts,
            knowledge,
            made: IndexSet::new(alloc),
        })
    }

    /// The number that the next fact gets.
    pub fn fact_count(&self) -> u64
        ensures { result ≡ length self.now.at.facts }
    {
        self.facts.count()
    }

    /// Takes one step, and gives what it shows, which are facts of messages. Refused, the state is as it was; the fault is
    /// want of memory, or the first test of the step that fails. Lines of the adversary look at the numbers of their terms
    /// alone, however large the terms are; only a rule walks through terms, those of the rule and of the line's bindings,
    /// and those of the cited facts where a destructor stands in its left side. It recurses as deep as these terms.
    pub fn step(&mut self, alloc: Global, s: &RStep) -> Result<FactList, RFault>
        ensures ok { IfOk result (λ acts. IsLine self.old.sig self.old.rules HasFewNodes self.old.at s.now acts self.new.at) }
        ensures refused { IfErr result (IsLineFault self.old.sig self.old.rules self.old.at s.now) }
        ensures err { OnErr result (self.new ≡ self.old) }
        ensures sig { self.new.sig ≡ self.old.sig }
        ensures rules { self.new.rules ≡ self.old.rules }
        ensures shown { IfOk result (AreMessageFacts self.old.sig) }
    {
        lines_are_steps();
        steps_keep_messages();
        self.knowledge.signature().builtins_are_held();
        self.knowledge.each_is_deducible();
        self.advance(alloc, s)
    }

    // Takes one step.
    fn advance(&mut self, alloc: Global, s: &RStep) -> Result<FactList, RFault>
        ensures ok { IfOk result (λ acts. IsLine self.old.sig self.old.rules HasFewNodes self.old.at s.now acts self.new.at) }
        ensures refused { IfErr result (IsLineFault self.old.sig self.old.rules self.old.at s.now) }
        ensures err { OnErr result (self.new ≡ self.old) }
        ensures sig { self.new.sig ≡ self.old.sig }
        ensures rules { self.new.rules ≡ self.old.rules }
    {
        match s {
            RStep::Fresh(n) => self.fresh(alloc, *n),
            RStep::Learn(k) => self.learn(alloc, *k),
            RStep::Own(k) => self.own(alloc, *k),
            RStep::Public(a) => self.public(alloc, a),
            RStep::Apply(f, entries) => self.apply(alloc, f, entries),
            RStep::Know(k) => self.know(alloc, *k),
            RStep::Rule(name, facts, b) => self.rule(alloc, name, facts, b),
        }
    }

    // Makes a fresh name.
    fn fresh(&mut self, alloc: Global, n: u64) -> Result<FactList, RFault>
        ensures ok { IfOk result (λ acts. IsLine self.old.sig self.old.rules HasFewNodes self.old.at (FreshLine n) acts self.new.at) }
        ensures refused { IfErr result (IsLineFault self.old.sig self.old.rules self.old.at (FreshLine n)) }
        ensures err { OnErr result (self.new ≡ self.old) }
        ensures sig { self.new.sig ≡ self.old.sig }
        ensures rules { self.new.rules ≡ self.old.rules }
    {
        numbers_stay();
        names_are_messages();
        if is_among(&self.made, n) {
            return Err(RFault::UsedName { n });
        }
        find_room(&mut self.made)?;
        self.facts.put_fresh(alloc, n)?;
        put_last(&mut self.made, n);
        Ok(FactList::new(alloc))
    }

    // Lets the adversary know what a fact put out.
    fn learn(&mut self, alloc: Global, k: u64) -> Result<FactList, RFault>
        ensures ok { IfOk result (λ acts. IsLine self.old.sig self.old.rules HasFewNodes self.old.at (LearnLine k) acts self.new.at) }
        ensures refused { IfErr result (IsLineFault self.old.sig self.old.rules self.old.at (LearnLine k)) }
        ensures err { OnErr result (self.new ≡ self.old) }
        ensures sig { self.new.sig ≡ self.old.sig }
        ensures rules { self.new.rules ≡ self.old.rules }
    {
        let number = put_out(&self.facts, k)?;
        self.knowledge.output(self.facts.table(), number)?;
        self.facts.remove(k);
        Ok(FactList::new(alloc))
    }

    // Lets the adversary have a fresh name.
    fn own(&mut self, alloc: Global, k: u64) -> Result<FactList, RFault>
        ensures ok { IfOk result (λ acts. IsLine self.old.sig self.old.rules HasFewNodes self.old.at (OwnLine k) acts self.new.at) }
        ensures refused { IfErr result (IsLineFault self.old.sig self.old.rules self.old.at (OwnLine k)) }
        ensures err { OnErr result (self.new ≡ self.old) }
        ensures sig { self.new.sig ≡ self.old.sig }
        ensures rules { self.new.rules ≡ self.old.rules }
    {
        let Some(n) = name_made(&self.facts, k) else {
            return Err(RFault::WrongFact { f: k });
        };
        self.facts.know_name(&mut self.knowledge, n)?;
        self.facts.remove(k);
        Ok(FactList::new(alloc))
    }

    // Lets the adversary know a public name.
    fn public(&mut self, alloc: Global, a: &Name) -> Result<FactList, RFault>
        ensures ok { IfOk result (λ acts. IsLine self.old.sig self.old.rules HasFewNodes self.old.at (PublicLine a.now) acts self.new.at) }
        ensures refused { IfErr result (IsLineFault self.old.sig self.old.rules self.old.at (PublicLine a.now)) }
        ensures err { OnErr result (self.new ≡ self.old) }
        ensures sig { self.new.sig ≡ self.old.sig }
        ensures rules { self.new.rules ≡ self.old.rules }
    {
        let name = a.copy(alloc)?;
        self.facts.know_public(&mut self.knowledge, name)?;
        Ok(FactList::new(alloc))
    }

    // Lets the adversary apply a symbol to entries.
    fn apply(&mut self, alloc: Global, f: &Name, entries: &Numbers) -> Result<FactList, RFault>
        ensures ok { IfOk result (λ acts. IsLine self.old.sig self.old.rules HasFewNodes self.old.at (ApplyLine f.now entries.now) acts self.new.at) }
        ensures refused { IfErr result (IsLineFault self.old.sig self.old.rules self.old.at (ApplyLine f.now entries.now)) }
        ensures err { OnErr result (self.new ≡ self.old) }
        ensures sig { self.new.sig ≡ self.old.sig }
        ensures rules { self.new.rules ≡ self.old.rules }
    {
        self.facts.know_applied(&mut self.knowledge, f, entries)?;
        Ok(FactList::new(alloc))
    }

    // Lets the adversary give an entry.
    fn know(&mut self, alloc: Global, k: u64) -> Result<FactList, RFault>
        ensures ok { IfOk result (λ acts. IsLine self.old.sig self.old.rules HasFewNodes self.old.at (KnowLine k) acts self.new.at) }
        ensures refused { IfErr result (IsLineFault self.old.sig self.old.rules self.old.at (KnowLine k)) }
        ensures err { OnErr result (self.new ≡ self.old) }
        ensures sig { self.new.sig ≡ self.old.sig }
        ensures rules { self.new.rules ≡ self.old.rules }
    {
        self.knowledge.each_is_deducible();
        let Some(number) = self.knowledge.number(self.facts.table(), k) else {
            return Err(RFault::NoEntry { k });
        };
        let acts = give(&mut self.facts, alloc, number)?;
        Ok(acts)
    }

    // Uses a rule.
    fn rule(
        &mut self,
        alloc: Global,
        name: &Name,
        numbers: &Numbers,
        b: &Bindings,
    ) -> Result<FactList, RFault>
        ensures ok { IfOk result (λ acts. IsLine self.old.sig self.old.rules HasFewNodes self.old.at (RuleLine name.now numbers.now b.now) acts self.new.at) }
        ensures refused { IfErr result (IsLineFault self.old.sig self.old.rules self.old.at (RuleLine name.now numbers.now b.now)) }
        ensures err { OnErr result (self.new ≡ self.old) }
        ensures sig { self.new.sig ≡ self.old.sig }
        ensures rules { self.new.rules ≡ self.old.rules }
    {
        numbers_stay();
        let Some(rule) = self.rules.named(name) else {
            return Err(RFault::NoRule);
        };
        let sig = self.knowledge.signature();
        let fired = use_rule(alloc, sig, rule, &mut self.facts, numbers, b)?;
        let acts = carry_out(&mut self.facts, numbers, fired)?;
        Ok(acts)
    }
}
