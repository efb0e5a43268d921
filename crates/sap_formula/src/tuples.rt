//! What judging a formula costs.
ghost use Rattle.std.specs.Prelude.{◌≡◌, ◌+◌, ◌^◌, ◌-◌, min};
ghost use Rattle.sap_formula.specs.View.{form};
ghost use Rattle.sap_formula.specs.Cost.{time_facts, trace_facts, tuples, form_cost};
ghost use Rattle.sap_formula.specs.Checked.{premise};
ghost use Rattle.sap_terms.specs.Trace.{Trace as AnyTrace};

use crate::Formula;
use sap_terms::{FactList, Name, Trace};

/// What can say how many facts of a name a trace has.
pub trait CountsFacts {
    ghost counted: { Self → AnyTrace };

    /// How many of this name, as far as they fit.
    fn count(&self, name: &Name) -> u64
        ensures { result ≡ min (trace_facts name.now (counted self.now)) (2 ^ 64 - 1) };
}

fn count_time(name: &Name, time: &FactList) -> u64
    ensures { result ≡ min (time_facts name.now time.now) (2 ^ 64 - 1) }
{
    let mut total: u64 = 0;
    for f in time.as_slice() {
        if f.name.same(name) {
            total = total.saturating_add(1);
        }
    }
    total
}

fn count_facts(name: &Name, trace: &Trace) -> u64
    ensures { result ≡ min (trace_facts name.now trace.now) (2 ^ 64 - 1) }
{
    let mut total: u64 = 0;
    for p in trace.as_slice() {
        total = total.saturating_add(count_time(name, p));
    }
    total
}

// They are counted, in one pass over the trace.
impl CountsFacts for Trace {
    ghost counted = { λ tr. tr };

    fn count(&self, name: &Name) -> u64 {
        count_facts(name, self)
    }
}

fn guard_tuples<T: CountsFacts>(f: &Formula, trace: &T) -> u64
    ensures { result ≡ min (tuples (T.counted trace.now) (form f.now)) (2 ^ 64 - 1) }
{
    match f {
        Formula::And(f, g) => guard_tuples(f, trace).saturating_mul(guard_tuples(g, trace)),
        Formula::Action(f, _) => trace.count(&f.name),
        _ => 1,
    }
}

fn premise_tuples<T: CountsFacts>(f: &Formula, trace: &T) -> u64
    ensures { result ≡ min (tuples (T.counted trace.now) (premise (form f.now))) (2 ^ 64 - 1) }
{
    match f {
        Formula::Imp(f, _) => guard_tuples(f, trace),
        _ => 1,
    }
}

/// What judging the formula on the trace costs, as `cost` says it, where something else can count its facts. It recurses as deep as
/// the formula.
pub fn cost_on<T: CountsFacts>(f: &Formula, trace: &T) -> u64
    ensures { result ≡ min (form_cost (T.counted trace.now) (form f.now)) (2 ^ 64 - 1) }
{
    match f {
        Formula::Not(f) => cost_on(f, trace),
        Formula::And(f, g) | Formula::Or(f, g) | Formula::Imp(f, g) | Formula::Iff(f, g) => {
            cost_on(f, trace).saturating_add(cost_on(g, trace))
        }
        Formula::All(_, f) => premise_tuples(f, trace).saturating_mul(cost_on(
            f, trace,
        ).saturating_add(1)),
        Formula::Ex(_, f) => guard_tuples(f, trace).saturating_mul(cost_on(f, trace).saturating_add(
            1,
        )),
        _ => 1,
    }
}

/// What judging the formula on the trace costs; sums and products stop at the type's last value. It takes no memory. It
/// goes over the trace once for each action that guards a quantifier, which the cost of a trace made ready doesn't.
/// It recurses as deep as the formula.
pub fn cost(f: &Formula, trace: &Trace) -> u64
    ensures { result ≡ min (form_cost trace.now (form f.now)) (2 ^ 64 - 1) }
{
    cost_on(f, trace)
}
