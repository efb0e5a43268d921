//! Lemmas: formulas that are said of all traces, or of some one.
use crate::{Formula, both};
use sap_terms::{Copied, Items, Mem, Name, NameList};
use std::alloc::Global;
use std::marker::Model;

/// Which traces a lemma speaks of: each, or some one.
#[derive(Clone, Copy)]
pub enum Mode {
    AllTraces,
    ExistsTrace,
}

/// A formula that is said of the traces, its name, and words for the prover that reads it. Contracts see it as the plain
/// value `LemmaForm`.
#[derive(Drop)]
pub struct Lemma {
    pub name: Name,
    pub attributes: NameList,
    pub mode: Mode,
    pub formula: Formula,
}

impl Model for Lemma {
    ghost use Rattle.sap_formula.specs.Form.{LemmaForm};
    ghost use Rattle.sap_formula.specs.code.Codes.{lemma_code};

    ghost Value = { LemmaForm };

    ghost coded = { lemma_code };

    ghost use Rattle.sap_formula.specs.View.{form};

    ghost view = { λ l. record { name = l.name; attributes = l.attributes; mode = l.mode; formula = form l.formula } };
}

impl Copied for Lemma {
    fn copy(&self, alloc: Global) -> Result<Lemma, Mem> {
        let names = both(self.name.copy(alloc), self.attributes.copy(alloc));
        let (names, formula) = both(names, self.formula.copy(alloc))?;
        Ok(Lemma {
            name: names.0,
            attributes: names.1,
            mode: self.mode,
            formula,
        })
    }
}

/// Lemmas, in order.
pub type LemmaList = Items<Lemma>;
