//! Restrictions and lemmas side by side.
ghost use Rattle.std.specs.Prelude.{◌≡◌};
ghost use Rattle.sap_formula.specs.View.{form};
ghost use Rattle.sap_statements.specs.Statements.{formula_of, name_of};

use sap_formula::{Formula, Lemma, Restriction};
use sap_terms::Name;

/// What is said of traces.
#[derive(Drop)]
pub enum Statement {
    /// Those count on which the formula is true.
    Restriction(Restriction),
    /// The formula holds of those that count, of all or of some.
    Lemma(Lemma),
}

impl Statement {
    /// Its name.
    pub fn name(&self) -> &Name
        ensures { result.now ≡ name_of self.now }
    {
        match self {
            Statement::Restriction(restriction) => &restriction.name,
            Statement::Lemma(lemma) => &lemma.name,
        }
    }

    /// Its formula.
    pub fn formula(&self) -> &Formula
        ensures { form result.now ≡ formula_of self.now }
    {
        match self {
            Statement::Restriction(restriction) => &restriction.formula,
            Statement::Lemma(lemma) => &lemma.formula,
        }
    }
}
