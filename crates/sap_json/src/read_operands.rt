//! What stands behind the first word of a step, read.
ghost use Rattle.std.specs.Prelude.{ℕ, List, IfOk, [], ◌∷◌, map};
ghost use Rattle.serde_json.specs.Data.{Data};
ghost use Rattle.serde_json.specs.View.{view};
ghost use Rattle.sap_run_lines.specs.WholeWords.{IsReadAs};
ghost use Rattle.sap_json.specs.code.Operands.{AreOperands};
ghost use Rattle.sap_json.specs.code.Reading.{IsNumberData, AreUses};

use crate::listed::read_list;
use crate::operands::Operands;
use crate::values::{fresh, name, number, public};
use sap_terms::{Bindings, Mem, Numbers};
use serde_json::Value;
use std::alloc::Global;

fn one_operand(alloc: Global, a: &Value) -> Result<Option<Operands>, Mem>
    ensures { IfOk result (IsReadAs AreOperands (view a.now ∷ [])) }
{
    match number(a) {
        Some(n) => Ok(Some(Operands::Number(n))),
        None => match fresh(a) {
            Some(n) => Ok(Some(Operands::Fresh(n))),
            None => match public(alloc, a)? {
                None => Ok(None),
                Some(name) => Ok(Some(Operands::Public(name))),
            },
        },
    }
}

// Behind a number.
fn number_operands(number_first: u64, b: &Value) -> Option<Operands>
    ensures { (a : Data) → IsNumberData number_first a
        → IsReadAs AreOperands (a ∷ view b.now ∷ []) result }
{
    match number(b) {
        Some(n) => Some(Operands::Numbers(number_first, n)),
        None => match fresh(b) {
            Some(n) => Some(Operands::NumberAndFresh(number_first, n)),
            None => None,
        },
    }
}

// A name, and numbers, where no number stands first.
fn applied(alloc: Global, a: &Value, b: &Value) -> Result<Option<Operands>, Mem>
    ensures { IfOk result (λ o. ((n : ℕ) → IsNumberData n (view a.now) → ⊥)
        → IsReadAs AreOperands (view a.now ∷ view b.now ∷ []) o) }
{
    match name(alloc, a)? {
        None => Ok(None),
        Some(symbol) => match read_list(alloc, b)? {
            None => Ok(None),
            Some(entries) => Ok(Some(Operands::Applied(symbol, entries))),
        },
    }
}

fn two_operands(alloc: Global, a: &Value, b: &Value) -> Result<Option<Operands>, Mem>
    ensures { IfOk result (IsReadAs AreOperands (view a.now ∷ view b.now ∷ [])) }
{
    match number(a) {
        Some(n) => Ok(number_operands(n, b)),
        None => applied(alloc, a, b),
    }
}

// Numbers, and bindings.
fn uses(alloc: Global, b: &Value, c: &Value) -> Result<Option<(Numbers, Bindings)>, Mem>
    ensures { IfOk result (IsReadAs AreUses (view b.now, view c.now)) }
{
    match read_list(alloc, b)? {
        None => Ok(None),
        Some(facts) => match read_list(alloc, c)? {
            None => Ok(None),
            Some(bindings) => Ok(Some((facts, bindings))),
        },
    }
}

fn three_operands(alloc: Global, a: &Value, b: &Value, c: &Value) -> Result<Option<Operands>, Mem>
    ensures { IfOk result (IsReadAs AreOperands (view a.now ∷ view b.now ∷ view c.now ∷ [])) }
{
    match uses(alloc, b, c)? {
        None => Ok(None),
        Some((facts, bindings)) => match number(a) {
            Some(n) => Ok(Some(Operands::Embedded(n, facts, bindings))),
            None => match name(alloc, a)? {
                None => Ok(None),
                Some(name) => Ok(Some(Operands::Named(name, facts, bindings))),
            },
        },
    }
}

/// What the values are behind the first word of a step.
pub(crate) fn read_operands(alloc: Global, values: &[Value]) -> Result<Option<Operands>, Mem>
    ensures { IfOk result (IsReadAs AreOperands (map view values.now)) }
{
    match values {
        [a] => one_operand(alloc, a),
        [a, b] => two_operands(alloc, a, b),
        [a, b, c] => three_operands(alloc, a, b, c),
        _ => Ok(None),
    }
}
