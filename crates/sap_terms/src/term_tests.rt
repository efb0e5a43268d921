//! Tests of terms: over a signature, without variables, with a destructor. Each recurses as deep as the term.
ghost use Rattle.std.specs.Prelude.{◌≡◌, ◌↔◌, IsTrue};
ghost use Rattle.sap_terms.specs.Destructors.{HasDestructor, AnyHasDestructor};
ghost use Rattle.sap_terms.specs.Ground.{IsGround};
ghost use Rattle.sap_terms.specs.Message.{IsOver, AreOver};
ghost use Rattle.sap_terms.specs.Tree.{trees_of};
ghost use Rattle.sap_terms.specs.View.{tree};
ghost use Rattle.sap_terms.specs.TermTests.{is_over, are_over, is_ground, are_ground, has_destructor, any_has_destructor};

use crate::{Signature, Term, TermList};

impl Signature {
    /// Whether each symbol of the term is held with its arity.
    #[tactic(auto, using(crate::proofs::TermTestLemmas::test_answers))]
    pub fn is_over(&self, t: &Term) -> bool
        ensures over { IsTrue result ↔ IsOver self.now (tree t.now) }
        ensures test { result ≡ is_over self.now (tree t.now) }
    {
        applies_held(self, t)
    }

    /// Whether that is so in each of these terms.
    #[tactic(auto, using(crate::proofs::TermTestLemmas::test_answers))]
    pub fn are_over(&self, ts: &TermList) -> bool
        ensures over { IsTrue result ↔ AreOver self.now (trees_of ts.now) }
        ensures test { result ≡ are_over self.now (trees_of ts.now) }
    {
        all_apply_held(self, ts)
    }

    /// Whether a destructor stands in the term: a symbol that heads the left side of an equation that is switched on.
    #[tactic(auto, using(crate::proofs::TermTestLemmas::test_answers))]
    pub fn has_destructor(&self, t: &Term) -> bool
        ensures has { IsTrue result ↔ HasDestructor self.now (tree t.now) }
        ensures test { result ≡ has_destructor self.now (tree t.now) }
    {
        applies_destructor(self, t)
    }

    /// Whether one stands in one of these terms.
    #[tactic(auto, using(crate::proofs::TermTestLemmas::test_answers))]
    pub fn any_has_destructor(&self, ts: &TermList) -> bool
        ensures has { IsTrue result ↔ AnyHasDestructor self.now (trees_of ts.now) }
        ensures test { result ≡ any_has_destructor self.now (trees_of ts.now) }
    {
        one_applies_destructor(self, ts)
    }
}

impl Term {
    /// Whether no variable stands in the term.
    #[tactic(auto, using(crate::proofs::TermTestLemmas::test_answers))]
    pub fn is_ground(&self) -> bool
        ensures ground { IsTrue result ↔ IsGround (tree self.now) }
        ensures test { result ≡ is_ground (tree self.now) }
    {
        lacks_variables(self)
    }
}

#[cycle(over)]
#[tactic(auto, using(crate::proofs::TermTestLemmas::test_laws))]
fn applies_held(sig: &Signature, t: &Term) -> bool
    ensures { result ≡ is_over sig.now (tree t.now) }
{
    match t {
        Term::App(f, ts) => match sig.arity(f) {
            Some(n) => n == ts.len() && all_apply_held(sig, ts),
            None => false,
        },
        _ => true,
    }
}

#[cycle(over)]
#[tactic(auto, using(crate::proofs::TermTestLemmas::test_laws))]
fn all_apply_held(sig: &Signature, ts: &TermList) -> bool
    ensures { result ≡ are_over sig.now (trees_of ts.now) }
{
    for k in 0..ts.len() {
        if !applies_held(sig, ts.at(k)) {
            return false;
        }
    }
    true
}

#[cycle(ground)]
#[tactic(auto, using(crate::proofs::TermTestLemmas::test_laws))]
fn lacks_variables(t: &Term) -> bool
    ensures { result ≡ is_ground (tree t.now) }
{
    match t {
        Term::Var(_) => false,
        Term::App(_, ts) => all_lack_variables(ts),
        _ => true,
    }
}

#[cycle(ground)]
#[tactic(auto, using(crate::proofs::TermTestLemmas::test_laws))]
fn all_lack_variables(ts: &TermList) -> bool
    ensures { result ≡ are_ground (trees_of ts.now) }
{
    for k in 0..ts.len() {
        if !lacks_variables(ts.at(k)) {
            return false;
        }
    }
    true
}

#[cycle(destructor)]
#[tactic(auto, using(crate::proofs::TermTestLemmas::test_laws))]
fn applies_destructor(sig: &Signature, t: &Term) -> bool
    ensures { result ≡ has_destructor sig.now (tree t.now) }
{
    match t {
        Term::App(f, ts) => sig.is_destructor(f) || one_applies_destructor(sig, ts),
        _ => false,
    }
}

#[cycle(destructor)]
#[tactic(auto, using(crate::proofs::TermTestLemmas::test_laws))]
fn one_applies_destructor(sig: &Signature, ts: &TermList) -> bool
    ensures { result ≡ any_has_destructor sig.now (trees_of ts.now) }
{
    for k in 0..ts.len() {
        if applies_destructor(sig, ts.at(k)) {
            return true;
        }
    }
    false
}
