//! What is read from the items of an array.
ghost use Rattle.std.specs.Prelude.{IfOk, map};
ghost use Rattle.serde_json.specs.Data.{Data};
ghost use Rattle.serde_json.specs.View.{view};
ghost use Rattle.sap_run_lines.specs.WholeWords.{IsReadAs};
ghost use Rattle.sap_json.specs.Arrays.{AreEach};
ghost use Rattle.sap_json.specs.RunValues.{AreSteps, IsTold};
ghost use Rattle.sap_json.specs.code.Reading.{IsListOf};

use crate::JsonFault;
use crate::values::{binding, list, number};
use sap_terms::{Binding, Items, Mem};
use serde_json::Value;
use std::alloc::Global;

/// What an item of an array may be.
pub(crate) trait Listed: Sized {
    ghost is: { Self → Data → Type 0 };

    /// The value, as such a thing; `None` exactly where it is none.
    fn read(alloc: Global, value: &Value) -> Result<Option<Self>, Mem>
        ensures { IfOk result (IsReadAs is (view value.now)) };
}

impl Listed for u64 {
    ghost use Rattle.sap_json.specs.code.Reading.{IsNumberData};

    ghost is = { IsNumberData };

    fn read(_alloc: Global, value: &Value) -> Result<Option<u64>, Mem> {
        Ok(number(value))
    }
}

impl Listed for Binding {
    ghost use Rattle.sap_json.specs.code.Reading.{IsBindingData};

    ghost is = { IsBindingData };

    fn read(alloc: Global, value: &Value) -> Result<Option<Binding>, Mem> {
        binding(alloc, value)
    }
}

fn read_each<T: Listed + Drop>(alloc: Global, values: &[Value]) -> Result<Option<Items<T>>, Mem>
    ensures { IfOk result (IsReadAs (AreEach T.is) (map view values.now)) }
{
    let mut items = Items::new(alloc);
    for value in values {
        match T::read(alloc, value)? {
            None => return Ok(None),
            Some(item) => items.push(item)?,
        }
    }
    Ok(Some(items))
}

/// The things that an array lists.
pub(crate) fn read_list<T: Listed + Drop>(
    alloc: Global,
    value: &Value,
) -> Result<Option<Items<T>>, Mem>
    ensures { IfOk result (IsReadAs (IsListOf T.is) (view value.now)) }
{
    match list(value) {
        None => Ok(None),
        Some(values) => read_each(alloc, values),
    }
}

/// The steps that the values are, of which there may be so many.
pub(crate) fn read_steps<T: Listed + Drop>(
    alloc: Global,
    most: u64,
    values: &[Value],
) -> Result<Items<T>, JsonFault>
    ensures { IsTold (AreSteps T.is most (map view values.now)) result }
{
    let mut steps = Items::new(alloc);
    for value in values {
        if steps.len() >= most {
            return Err(JsonFault::TooManySteps { most });
        }
        match T::read(alloc, value)? {
            None => {
                return Err(JsonFault::BadStep {
                    step: steps.len() + 1,
                });
            }
            Some(step) => steps.push(step)?,
        }
    }
    Ok(steps)
}
