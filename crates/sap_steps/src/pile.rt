// Facts by their numbers, whose arguments are numbers of shared terms.
ghost use Rattle.std.specs.Prelude.{◌≡◌, ◌+◌, ◌<◌, ◌≤◌, [], ◌∷◌, ◌++◌, length, true, false, All, IsSome, MatchOption, IfOk, IfErr, IsErrOf, OnErr, OnOk, None, Some, slice_set, vec_capacity};
ghost use Rattle.sap_deduce.specs.Entries.{AreNumbered, Gains, Applies, IsCause};
ghost use Rattle.sap_deduce.specs.declared.origin.Origin.TheVariants.{Name as NameOrigin, Public as PublicOrigin};
ghost use Rattle.sap_facts.specs.Cited.{cited_at};
ghost use Rattle.sap_facts.specs.Facts.{fact_at, slots_without};
ghost use Rattle.sap_rewrite.specs.Around.{all_outer_vars};
ghost use Rattle.sap_rule.specs.Variables.{facts_outer_vars};
ghost use Rattle.sap_rule.specs.WellMade.{IsRuleOver};
ghost use Rattle.sap_share.specs.Env.{given, AreBound, AreSmallForms, bindings_of};
ghost use Rattle.sap_share.specs.Shared.{tree_at, AreBelow, Keeps};
ghost use Rattle.sap_sides.specs.Fitting.{IsOnlyChoice, HasNoChoice, FactFit, FactsFit};
ghost use Rattle.sap_sides.specs.Forms.{AreSides, HasLargeSide};
ghost use Rattle.sap_sides.specs.Messages.{IsSmallMessageFact, HasNoDestructor, IsGroundFact};
ghost use Rattle.sap_sides.specs.SharedFacts.{fact_seen, slots_seen, AreShared, AreSlotsBelow};
ghost use Rattle.sap_steps.specs.code.Piled.{table_of};
ghost use Rattle.sap_terms.specs.AdversaryFacts.{linear, fr_fact};
ghost use Rattle.sap_terms.specs.Equations.{equations};
ghost use Rattle.sap_terms.specs.Message.{IsMessage};
ghost use Rattle.sap_terms.specs.Modulo.{instance_facts};
ghost use Rattle.sap_terms.specs.Tree.{Tree, fresh, public, trees_of};
ghost use Rattle.sap_terms.specs.View.{tree};
ghost use Rattle.sap_terms.specs.declared.fact.Fact.{Fact as Held};

use crate::single::{argument, single_shared};
use sap_deduce::{Deny, Knowledge};
use sap_facts::HasFacts;
use sap_rewrite::Cut;
use sap_rule::Rule;
use sap_share::{Env, Node, Order, Table};
use sap_sides::{
    SharedFact, Sides, are_small_forms, built_fact, facts_fit_in_turn, fit_fact, form_sides,
    number_bindings, share_facts, shared_facts_stay,
};
use sap_terms::{Bindings, Fact, FactList, MOST_TERM_NODES, Mem, Name, Numbers, Signature};
use std::alloc::Global;
use std::marker::Model;

// Facts that were put on one after another and have numbers from 0, in order, and the table of the run, in which their
// arguments and the adversary's entries have theirs. A linear fact stays until it is taken, a persistent one for good.
#[derive(Drop)]
pub(crate) struct SharedPile {
    table: Table,
    slots: Vec<Option<SharedFact>>,
}

impl Model for SharedPile {
    ghost use Rattle.std.specs.Prelude.{◌-◌, length, vec_len, vec_capacity};
    ghost use Rattle.std.specs.Coded.{codes};
    ghost use Rattle.sap_terms.specs.Codes.{tree_code};
    ghost use Rattle.sap_steps.specs.code.Piled.{Piled};

    ghost Value = { Piled };

    ghost coded = { Prim.hlevel (codes, tree_code) };

    ghost use Rattle.sap_sides.specs.SharedFacts.{slots_seen, AreSlotsBelow};

    ghost view = { λ a. record {
      sig = a.table.sig;
      trees = a.table.trees;
      slots = slots_seen a.table.trees a.slots.items;
      spare = vec_capacity a.slots - vec_len a.slots;
    } };

    ghost invariant = { λ a. AreSlotsBelow (length a.table.trees) a.slots.items };
}

// Empties a slot.
fn clear(slots: &mut Vec<Option<SharedFact>>, k: u64)
    requires { k < length slots.old.items }
    ensures items { slots.new.items ≡ slice_set slots.old.items k None }
    ensures capacity { vec_capacity slots.new ≡ vec_capacity slots.old }
{
    drop(slots[k as usize].take());
}

impl HasFacts for SharedPile {
    ghost facts_of = { λ p. p.slots };

    fn persistence(&self, k: u64) -> Option<bool> {
        match self.standing(k) {
            Some(h) => Some(h.persistent),
            None => None,
        }
    }
}

impl SharedPile {
    // The number that the next fact gets.
    pub(crate) fn count(&self) -> u64
        ensures { result ≡ length self.now.slots }
    {
        self.slots.len() as u64
    }

    // The pile without facts, of terms over a signature.
    pub(crate) fn new(alloc: Global, sig: &Signature) -> Result<SharedPile, Mem>
        ensures sig { IfOk result (λ p. p.sig ≡ sig.now) }
        ensures slots { IfOk result (λ p. p.slots ≡ []) }
    {
        Ok(SharedPile {
            table: Table::new(alloc, sig)?,
            slots: Vec::new(alloc),
        })
    }

    // Finds memory for n more facts.
    pub(crate) fn reserve(&mut self, n: u64) -> Result<(), Mem>
        ensures ok { OnOk result (n ≤ self.new.spare) }
        ensures sig { self.new.sig ≡ self.old.sig }
        ensures trees { self.new.trees ≡ self.old.trees }
        ensures slots { self.new.slots ≡ self.old.slots }
    {
        self.slots.reserve(n as usize)?;
        Ok(())
    }

    // The facts with numbers for their arguments. Refused, there may be more numbers than before.
    pub(crate) fn share_all(&mut self, alloc: Global, fs: &FactList) -> Result<Vec<SharedFact>, Mem>
        requires { All (IsSmallMessageFact self.old.sig) fs.now }
        ensures shared { IfOk result (λ v. AreShared self.new.trees fs.now v.items) }
        ensures sig { self.new.sig ≡ self.old.sig }
        ensures keeps { Keeps (table_of self.old) (table_of self.new) }
        ensures slots { self.new.slots ≡ self.old.slots }
    {
        shared_facts_stay();
        share_facts(&mut self.table, alloc, fs)
    }

    // The bindings with numbers for their terms, in an environment in which variables are expected to be bound in this order.
    // Refused, there may be more numbers than before.
    pub(crate) fn number(&mut self, alloc: Global, order: &Order, b: &Bindings) -> Result<Env, Mem>
        requires { All (λ e. IsMessage self.old.sig e.var.sort (tree e.term)) b.now }
        ensures are { IfOk result (λ env. bindings_of self.new.trees env ≡ b.now) }
        ensures bound { IfOk result (AreBound (length self.new.trees)) }
        ensures sig { self.new.sig ≡ self.old.sig }
        ensures keeps { Keeps (table_of self.old) (table_of self.new) }
        ensures slots { self.new.slots ≡ self.old.slots }
    {
        shared_facts_stay();
        number_bindings(&mut self.table, alloc, order, b)
    }

    // What a rule with these acts and this right side shows and adds under what is bound; Large where the normal form of a
    // subterm has more than 256 nodes. Refused, there may be more numbers than before.
    pub(crate) fn form(&mut self, alloc: Global, env: &Env, rule: &Rule) -> Result<Sides, Cut>
        requires env { AreSmallForms (equations self.old.sig) MOST_TERM_NODES self.old.trees env.now }
        requires ground_acts { All IsGroundFact (instance_facts (given self.old.trees env.now) rule.now.acts) }
        requires ground_right { All IsGroundFact (instance_facts (given self.old.trees env.now) rule.now.right) }
        requires over { IsRuleOver self.old.sig rule.now }
        ensures sides { IfOk result (λ x. AreSides self.old.sig (given self.old.trees env.now) rule.now.acts rule.now.right self.new.trees x.acts x.right.items) }
        ensures large { IsErrOf result Cut.Large → HasLargeSide self.old.sig (given self.old.trees env.now) rule.now.acts rule.now.right }
        ensures sig { self.new.sig ≡ self.old.sig }
        ensures keeps { Keeps (table_of self.old) (table_of self.new) }
        ensures slots { self.new.slots ≡ self.old.slots }
    {
        shared_facts_stay();
        form_sides(&mut self.table, alloc, env, &rule.acts, &rule.right)
    }

    // Puts a fact on, for which memory was found.
    pub(crate) fn add(&mut self, f: SharedFact)
        requires room { 0 < self.old.spare }
        requires below { AreBelow (length self.old.trees) f.args }
        ensures sig { self.new.sig ≡ self.old.sig }
        ensures trees { self.new.trees ≡ self.old.trees }
        ensures slots { self.new.slots ≡ self.old.slots ++ Some (fact_seen self.old.trees f) ∷ [] }
        ensures spare { self.old.spare ≤ self.new.spare + 1 }
    {
        match self.slots.push(Some(f)) {
            Ok(_) => {}
            Err(_) => unreachable!(),
        }
    }

    // Puts the linear fact of this name on whose one argument has this number.
    pub(crate) fn put_single(&mut self, alloc: Global, name: &[u8], number: u64) -> Result<(), Mem>
        requires { number < length self.old.trees }
        ensures ok { OnOk result (self.new.slots ≡ self.old.slots ++ Some (linear name.now (tree_at self.old.trees number ∷ [])) ∷ []) }
        ensures err { OnErr result (self.new.slots ≡ self.old.slots) }
        ensures sig { self.new.sig ≡ self.old.sig }
        ensures trees { self.new.trees ≡ self.old.trees }
    {
        self.reserve(1)?;
        let f = single_shared(alloc, name, number)?;
        self.add(f);
        Ok(())
    }

    // The number of a fresh name.
    #[tactic(auto, using(crate::proofs::Kept::table_laws))]
    fn fresh_number(&mut self, alloc: Global, n: u64) -> Result<u64, Mem>
        ensures below { IfOk result (λ k. k < length self.new.trees) }
        ensures tree { IfOk result (λ k. tree_at self.new.trees k ≡ fresh n) }
        ensures keeps { Keeps (table_of self.old) (table_of self.new) }
        ensures slots { self.new.slots ≡ self.old.slots }
    {
        shared_facts_stay();
        let number = self.table.intern(alloc, Node::Fresh(n))?;
        Ok(number)
    }

    // Puts the fact on that makes a fresh name. Refused, there may be more numbers than before.
    pub(crate) fn put_fresh(&mut self, alloc: Global, n: u64) -> Result<(), Mem>
        ensures ok { OnOk result (self.new.slots ≡ self.old.slots ++ Some (fr_fact n) ∷ []) }
        ensures err { OnErr result (self.new.slots ≡ self.old.slots) }
        ensures keeps { Keeps (table_of self.old) (table_of self.new) }
    {
        let number = self.fresh_number(alloc, n)?;
        self.put_single(alloc, b"Fr", number)
    }

    // The table in which the arguments have their numbers.
    pub(crate) fn table(&self) -> &Table
        ensures { result.now ≡ table_of self.now }
    {
        &self.table
    }

    // Lets the adversary know a name that it made. Refused, there may be more numbers than before.
    pub(crate) fn know_name(&mut self, knowledge: &mut Knowledge, n: u64) -> Result<u64, Mem>
        requires { AreNumbered (table_of self.old) knowledge.old }
        ensures ok { OnOk result (Gains knowledge.old knowledge.new (NameOrigin n) (fresh n)) }
        ensures numbered { AreNumbered (table_of self.new) knowledge.new }
        ensures slots { self.new.slots ≡ self.old.slots }
        ensures err { OnErr result (knowledge.new ≡ knowledge.old) }
    {
        shared_facts_stay();
        knowledge.name(&mut self.table, n)
    }

    // Lets the adversary know a public name. Refused, there may be more numbers than before.
    pub(crate) fn know_public(&mut self, knowledge: &mut Knowledge, a: Name) -> Result<u64, Mem>
        requires { AreNumbered (table_of self.old) knowledge.old }
        ensures ok { OnOk result (Gains knowledge.old knowledge.new PublicOrigin (public a)) }
        ensures numbered { AreNumbered (table_of self.new) knowledge.new }
        ensures slots { self.new.slots ≡ self.old.slots }
        ensures err { OnErr result (knowledge.new ≡ knowledge.old) }
    {
        shared_facts_stay();
        knowledge.public(&mut self.table, a)
    }

    // Lets the adversary apply a symbol to entries. Refused, there may be more numbers than before.
    pub(crate) fn know_applied(
        &mut self,
        knowledge: &mut Knowledge,
        f: &Name,
        entries: &Numbers,
    ) -> Result<u64, Deny>
        requires { AreNumbered (table_of self.old) knowledge.old }
        ensures ok { OnOk result (Applies knowledge.old knowledge.new f.now entries.now) }
        ensures numbered { AreNumbered (table_of self.new) knowledge.new }
        ensures denied { IfErr result (IsCause knowledge.old f.now entries.now) }
        ensures slots { self.new.slots ≡ self.old.slots }
        ensures err { OnErr result (knowledge.new ≡ knowledge.old) }
    {
        shared_facts_stay();
        knowledge.apply(&mut self.table, f, entries)
    }

    // The fact of this number, built anew; None where no fact has the number, or it was taken.
    pub(crate) fn fact(&self, alloc: Global, k: u64) -> Result<Option<Fact>, Mem>
        ensures { IfOk result (λ o. o ≡ fact_at self.now.slots k) }
    {
        match self.standing(k) {
            Some(h) => Ok(Some(built_fact(&self.table, alloc, h)?)),
            None => Ok(None),
        }
    }

    // The fact of this number with numbers for its arguments; None where no fact has the number, or it was taken.
    fn standing(&self, k: u64) -> Option<&SharedFact>
        ensures { MatchOption result (fact_at self.now.slots k ≡ None) (λ h. (fact_at self.now.slots k ≡ Some (fact_seen self.now.trees h.now)) × AreBelow (length self.now.trees) h.now.args) }
    {
        match self.slots.get(k as usize) {
            Some(Some(h)) => Some(h),
            Some(None) => None,
            None => None,
        }
    }

    // The number of the argument of the fact of this number, if it is linear, has this name and one argument.
    pub(crate) fn argument(&self, k: u64, name: &[u8]) -> Option<u64>
        ensures { MatchOption result ((t : Tree) → ¬ (fact_at self.now.slots k ≡ Some (linear name.now (t ∷ [])))) (λ n. (n < length self.now.trees) × (fact_at self.now.slots k ≡ Some (linear name.now (tree_at self.now.trees n ∷ [])))) }
    {
        match self.standing(k) {
            Some(h) => argument(h, name),
            None => None,
        }
    }

    // Whether a fact without destructors fits the fact of this number, under what is bound and what is bound then.
    pub(crate) fn fit(&self, alloc: Global, f: &Fact, k: u64, env: &mut Env) -> Result<bool, Mem>
        requires plain { HasNoDestructor self.now.sig f.now }
        requires env { AreBound (length self.now.trees) env.old }
        ensures yes { IfOk result (λ r. r ≡ true → (h : Held) → fact_at self.now.slots k ≡ Some h → IsOnlyChoice (FactFit self.now.sig f.now h) (all_outer_vars self.now.sig (trees_of f.now.args)) (bindings_of self.now.trees env.old) (bindings_of self.now.trees env.new)) }
        ensures not { IfOk result (λ r. r ≡ false → (h : Held) → fact_at self.now.slots k ≡ Some h → HasNoChoice (FactFit self.now.sig f.now h) (all_outer_vars self.now.sig (trees_of f.now.args)) (bindings_of self.now.trees env.old)) }
        ensures bound { IfOk result (λ _. AreBound (length self.now.trees) env.new) }
    {
        match self.standing(k) {
            Some(h) => fit_fact(&self.table, alloc, f, h, env),
            None => Ok(false),
        }
    }

    // Whether each term that is bound is normal and has at most 256 nodes.
    pub(crate) fn binds_small_forms(&self, env: &Env) -> bool
        requires { AreBound (length self.now.trees) env.now }
        ensures { result ≡ true → AreSmallForms (equations self.now.sig) MOST_TERM_NODES self.now.trees env.now }
    {
        are_small_forms(&self.table, env)
    }

    // Takes the linear fact of this number, which is dropped.
    pub(crate) fn remove(&mut self, k: u64)
        ensures sig { self.new.sig ≡ self.old.sig }
        ensures trees { self.new.trees ≡ self.old.trees }
        ensures slots { self.new.slots ≡ slots_without self.old.slots k }
        ensures spare { self.new.spare ≡ self.old.spare }
    {
        if self.persistence(k) == Some(false) {
            clear(&mut self.slots, k);
        }
    }
}

// Whether facts without destructors fit those that are cited, under what is bound and what is bound then.
pub(crate) fn fit_facts(
    alloc: Global,
    fs: &FactList,
    facts: &SharedPile,
    numbers: &Numbers,
    env: &mut Env,
) -> Result<bool, Mem>
    requires plain { All (HasNoDestructor facts.now.sig) fs.now }
    requires live { All (λ n. IsSome (fact_at facts.now.slots n)) numbers.now }
    requires count { length numbers.now ≡ length fs.now }
    requires env { AreBound (length facts.now.trees) env.old }
    ensures yes { IfOk result (λ r. r ≡ true → IsOnlyChoice (FactsFit facts.now.sig fs.now (cited_at facts.now.slots numbers.now)) (facts_outer_vars facts.now.sig fs.now) (bindings_of facts.now.trees env.old) (bindings_of facts.now.trees env.new)) }
    ensures not { IfOk result (λ r. r ≡ false → HasNoChoice (FactsFit facts.now.sig fs.now (cited_at facts.now.slots numbers.now)) (facts_outer_vars facts.now.sig fs.now) (bindings_of facts.now.trees env.old)) }
    ensures bound { IfOk result (λ _. AreBound (length facts.now.trees) env.new) }
{
    facts_fit_in_turn();
    for i in 0..fs.len() {
        if !facts.fit(alloc, fs.at(i), *numbers.at(i), env)? {
            return Ok(false);
        }
    }
    Ok(true)
}
