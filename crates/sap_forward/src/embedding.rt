// The line of a process by which an embedded rule is used.
ghost use Rattle.std.specs.Prelude.{◌≡◌, ◌∷◌, IfOk, OnOk, filter_map, slice_get};
ghost use Rattle.sap_forward.specs.code.Steps as spec;
ghost use Rattle.sap_forward.specs.code.Steps.{Embeds, piles};

use crate::desk::Desk;
use sap_lines::Form;
use sap_rule_lines::{later, push_rule};
use sap_runs::RSteps;
use sap_terms::{Bindings, Copied, Mem, Numbers};
use std::alloc::Global;

// How many facts an embedded rule has on its right side.
fn right_count(form: &Form) -> u64
    ensures { result ≡ spec.right_count form.now }
{
    match form {
        Form::Embedded(_, _, right) => right.len(),
        _ => 0,
    }
}

// This number, and then those that the table has at these places.
fn looked_up(alloc: Global, first: u64, table: &Numbers, places: &Numbers) -> Result<Numbers, Mem>
    ensures { IfOk result (λ ns. ns ≡ first ∷ filter_map (slice_get table.now) places.now) }
{
    let mut numbers = Numbers::new(alloc);
    numbers.push(first)?;
    for place in places.as_slice() {
        if let Some(number) = table.get(*place) {
            numbers.push(*number)?;
        }
    }
    Ok(numbers)
}

impl Desk {
    // So many facts of the process come.
    fn pile(&mut self, come: u64) -> Result<(), Mem>
        ensures { OnOk result (self.new ≡ piles self.old come) }
    {
        for _ in 0..come {
            let next = later(self.count, 1)?;
            self.facts.push(self.count)?;
            self.count = next;
        }
        Ok(())
    }

    /// The rule of a thread is used on the facts with these numbers, and those of its right side come.
    pub(crate) fn embed(
        &mut self,
        alloc: Global,
        t: u64,
        facts: &Numbers,
        b: &Bindings,
        lines: &mut RSteps,
    ) -> Result<(), Mem>
        ensures { OnOk result (Embeds self.old self.new t facts.now b.now lines.old lines.new) }
    {
        let Some((seat, place)) = self.at(t) else {
            return Ok(());
        };
        let next = place.first;
        let come = right_count(&place.form);
        let numbers = looked_up(alloc, seat.number, &self.facts, facts)?;
        let bindings = b.copy(alloc)?;
        push_rule(alloc, b"Rule_", &seat.path, numbers, bindings, lines)?;
        self.go(t, 1, next, 0)?;
        self.pile(come)
    }
}
