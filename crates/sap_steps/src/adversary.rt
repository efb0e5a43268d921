//! Facts that the adversary puts out, takes and shows.
ghost use Rattle.std.specs.Prelude.{codes, ◌≡◌, ℕ, List, ◌<◌, [], ◌∷◌, Some, length, IfOk, IfErr, OnOk, OnErr, MatchOption, ◌++◌};
ghost use Rattle.sap_terms.specs.AdversaryFacts.{linear, out_fact, fr_fact};
ghost use Rattle.sap_terms.specs.Tree.{Tree, fresh};
ghost use Rattle.sap_terms.specs.View.{tree};
ghost use Rattle.sap_facts.specs.Facts.{fact_at};
ghost use Rattle.sap_share.specs.Shared.{tree_at, node_tree};

use crate::RFault;
use crate::pile::SharedPile;
use sap_share::Node;
use sap_terms::{Fact, FactList, Mem, Name, Term, TermList};
use std::alloc::Global;

// The fact `K` of the term.
fn known(alloc: Global, t: Term) -> Result<Fact, Mem>
    ensures { IfOk result (λ f. f ≡ linear (codes "K") (tree t ∷ [])) }
{
    let name = Name::from_bytes(alloc, b"K")?;
    let mut args = TermList::new(alloc);
    args.push(t)?;
    Ok(Fact {
        name,
        persistent: false,
        args,
    })
}

// The fact `K` of the term, alone.
fn shown_alone(alloc: Global, t: Term) -> Result<FactList, Mem>
    ensures { IfOk result (λ fs. fs ≡ linear (codes "K") (tree t ∷ []) ∷ []) }
{
    let mut facts = FactList::new(alloc);
    facts.push(known(alloc, t)?)?;
    Ok(facts)
}

// Puts on what the adversary gives when it shows that it knows the term of this number, and gives what it shows.
pub(crate) fn give(facts: &mut SharedPile, alloc: Global, number: u64) -> Result<FactList, Mem>
    requires { number < length facts.old.trees }
    ensures ok { OnOk result (facts.new.slots ≡ facts.old.slots ++ Some (linear (codes "In") (tree_at facts.old.trees number ∷ [])) ∷ []) }
    ensures shown { IfOk result (λ fs. fs ≡ linear (codes "K") (tree_at facts.old.trees number ∷ []) ∷ []) }
    ensures err { OnErr result (facts.new.slots ≡ facts.old.slots) }
    ensures sig { facts.new.sig ≡ facts.old.sig }
    ensures trees { facts.new.trees ≡ facts.old.trees }
{
    let t = facts.table().tree(alloc, number)?;
    let shown = shown_alone(alloc, t)?;
    match facts.put_single(alloc, b"In", number) {
        Err(_) => {
            drop(shown);
            Err(Mem)
        }
        Ok(()) => Ok(shown),
    }
}

// The number of what the fact of this number puts out.
pub(crate) fn put_out(facts: &SharedPile, k: u64) -> Result<u64, RFault>
    ensures below { IfOk result (λ n. n < length facts.now.trees) }
    ensures out { IfOk result (λ n. fact_at facts.now.slots k ≡ Some (out_fact (tree_at facts.now.trees n))) }
    ensures wrong { IfErr result (λ e. (e ≡ RFault.WrongFact k) × ((t : Tree) → ¬ (fact_at facts.now.slots k ≡ Some (out_fact t)))) }
{
    match facts.argument(k, b"Out") {
        Some(n) => Ok(n),
        None => Err(RFault::WrongFact { f: k }),
    }
}

// The number of a fresh name; None of another node.
fn number_of_fresh(node: &Node) -> Option<u64>
    ensures { (ts : List Tree) → MatchOption result ((n : ℕ) → ¬ (node_tree ts node.now ≡ fresh n)) (λ n. node_tree ts node.now ≡ fresh n) }
{
    match node {
        Node::Fresh(n) => Some(*n),
        Node::Public(_) | Node::App(_, _) => None,
    }
}

// The name that the fact of this number was made of; None where it is no such fact.
pub(crate) fn name_made(facts: &SharedPile, k: u64) -> Option<u64>
    ensures { MatchOption result ((n : ℕ) → ¬ (fact_at facts.now.slots k ≡ Some (fr_fact n))) (λ n. fact_at facts.now.slots k ≡ Some (fr_fact n)) }
{
    match facts.argument(k, b"Fr") {
        Some(number) => number_of_fresh(facts.table().node(number)),
        None => None,
    }
}
