//! Restrictions: formulas that say which traces count.
use crate::{Formula, both};
use sap_terms::{Copied, Items, Mem, Name};
use std::alloc::Global;
use std::marker::Model;

/// A formula that each trace that counts has to make true, and its name. Contracts see it as the plain value
/// `RestrictionForm`.
#[derive(Drop)]
pub struct Restriction {
    pub name: Name,
    pub formula: Formula,
}

impl Model for Restriction {
    ghost use Rattle.sap_formula.specs.Form.{RestrictionForm};
    ghost use Rattle.sap_formula.specs.code.Codes.{restriction_code};

    ghost Value = { RestrictionForm };

    ghost coded = { restriction_code };

    ghost use Rattle.sap_formula.specs.View.{form};

    ghost view = { λ r. record { name = r.name; formula = form r.formula } };
}

impl Copied for Restriction {
    fn copy(&self, alloc: Global) -> Result<Restriction, Mem> {
        let (name, formula) = both(self.name.copy(alloc), self.formula.copy(alloc))?;
        Ok(Restriction { name, formula })
    }
}

/// Restrictions, in order.
pub type RestrictionList = Items<Restriction>;
