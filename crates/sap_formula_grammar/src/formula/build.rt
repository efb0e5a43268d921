//! Formulas made of their parts.
ghost use Rattle.std.specs.Prelude.{◌≡◌, ◌≤◌, ◌<◌, ◌+◌, ◌^◌, max, IfOk};
ghost use Rattle.sap_formula.specs.Form.{same_time};
ghost use Rattle.sap_formula.specs.View.{form};
ghost use Rattle.sap_formula_grammar.specs.code.FormulaView.{made, bound, levelled};

use sap_formula::{Binders, Formula};
use sap_terms::{Mem, Name, boxed};
use std::alloc::Global;

/// What joins two formulas.
#[derive(Clone, Copy)]
pub enum Connective {
    And,
    Or,
    Imp,
    Iff,
}

/// Of how many values of its variables a quantifier speaks.
#[derive(Clone, Copy)]
pub enum Quantifier {
    Every,
    Exists,
}

/// A formula as it is read, and how many levels its text has.
#[derive(Drop)]
pub struct Measured {
    pub formula: Box<Formula>,
    pub levels: u64,
}

pub fn same(alloc: Global, left: &[u8], right: &[u8]) -> Result<Box<Formula>, Mem>
    ensures { IfOk result (λ f. form f.value ≡ same_time left.now right.now) }
{
    let left = Name::from_bytes(alloc, left)?;
    let right = Name::from_bytes(alloc, right)?;
    boxed(alloc, Formula::Same(left, right))
}

pub fn quantified(
    alloc: Global,
    quantifier: Quantifier,
    binders: Binders,
    body: Box<Formula>,
) -> Result<Box<Formula>, Mem>
    ensures { IfOk result (λ f. form f.value ≡ bound quantifier binders (form body.value)) }
{
    match quantifier {
        Quantifier::Every => boxed(alloc, Formula::All(binders, body)),
        Quantifier::Exists => boxed(alloc, Formula::Ex(binders, body)),
    }
}

fn joined(
    alloc: Global,
    connective: Connective,
    left: Box<Formula>,
    right: Box<Formula>,
) -> Result<Box<Formula>, Mem>
    ensures { IfOk result (λ f. form f.value
        ≡ made connective (form left.value) (form right.value)) }
{
    match connective {
        Connective::And => boxed(alloc, Formula::And(left, right)),
        Connective::Or => boxed(alloc, Formula::Or(left, right)),
        Connective::Imp => boxed(alloc, Formula::Imp(left, right)),
        Connective::Iff => boxed(alloc, Formula::Iff(left, right)),
    }
}

/// Both with the connective between them, one level above the deeper.
pub fn join(
    alloc: Global,
    connective: Connective,
    left: Measured,
    right: Measured,
) -> Result<Measured, Mem>
    requires left { left.levels < 2 ^ 40 }
    requires right { right.levels < 2 ^ 40 }
    ensures { IfOk result (λ m. levelled m ≡ (
      made connective (form left.formula.value)
          (form right.formula.value),
      max left.levels right.levels + 1,
    )) }
{
    let levels = left.levels.max(right.levels) + 1;
    let formula = joined(alloc, connective, left.formula, right.formula)?;
    Ok(Measured { formula, levels })
}
