//! Formulas over traces.
ghost use Rattle.std.specs.Prelude.{◌≡◌, IfOk};
ghost use Rattle.sap_formula.specs.View.{form};

use crate::Binders;
use crate::remaking::{How, remade};
use crate::scope::Scope;
use sap_terms::{Fact, Mem, Name, Term};
use std::alloc::Global;

/// A formula over a trace, in first-order logic with message variables and time variables. Contracts see it as a plain
/// tree, by `form` of the specs' `View`.
pub enum Formula {
    True,
    False,
    /// `F(s)@i`: the time i shows the fact.
    Action(Fact, Name),
    /// `s = t`
    Equal(Term, Term),
    /// `#i = #j`
    Same(Name, Name),
    /// `#i < #j`
    Less(Name, Name),
    Not(Box<Formula>),
    And(Box<Formula>, Box<Formula>),
    Or(Box<Formula>, Box<Formula>),
    /// `f ==> g`
    Imp(Box<Formula>, Box<Formula>),
    /// `f <=> g`
    Iff(Box<Formula>, Box<Formula>),
    All(Binders, Box<Formula>),
    Ex(Binders, Box<Formula>),
}

impl Drop for Formula {
    // Along first parts it goes in a loop, so that a conjunction of many formulas, leftmost first, takes no more of the stack
    // than one of two.
    fn drop(mut self) {
        loop {
            match self {
                Formula::And(first, _second)
                | Formula::Or(first, _second)
                | Formula::Imp(first, _second)
                | Formula::Iff(first, _second) => self = Box::into_inner(first),
                Formula::Not(only) => self = Box::into_inner(only),
                Formula::All(_binders, body) | Formula::Ex(_binders, body) => {
                    self = Box::into_inner(body)
                }
                Formula::Action(_fact, _time) => return,
                Formula::Equal(_left, _right) => return,
                Formula::Same(_left, _right) | Formula::Less(_left, _right) => return,
                Formula::True | Formula::False => return,
            }
        }
    }
}

impl Formula {
    /// An equal formula. Want of memory is the only error. It recurses as deep as the formula.
    #[tactic(auto, using(crate::proofs::Remakes::remade_laws))]
    pub fn copy(&self, alloc: Global) -> Result<Formula, Mem>
        ensures { IfOk result (λ f. form f ≡ form self.now) }
    {
        let outside = Scope::Outside;
        Ok(Box::into_inner(remade(alloc, How::Same, &outside, self)?))
    }
}
