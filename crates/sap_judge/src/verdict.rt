//! What the judge answers.
ghost use Rattle.std.specs.Prelude.{◌≡◌, IfOk};
ghost use Rattle.sap_formula.specs.Laws.{IsClosed};
ghost use Rattle.sap_judge.specs.Verdict.{IsVerdict};
ghost use Rattle.sap_formula.specs.View.{form};
ghost use Rattle.sap_terms.specs.Message.{IsMessageTrace};
ghost use Rattle.sap_terms.specs.Signature.{Sig};

use crate::ReadyTrace;
use sap_formula::Formula;
use sap_terms::{Mem, Trace};
use std::alloc::Global;

/// The most that a formula may cost to judge on a trace, by `cost`.
pub const MOST_COST: u64 = 10_000_000;

/// What the judge says of a formula on a trace.
#[derive(Clone, Copy)]
pub enum Verdict {
    Holds,
    Fails,
    /// The cost is above `MOST_COST`; nothing was tried.
    TooCostly { cost: u64 },
}

/// Whether a checked closed formula is true on a trace of messages, where that doesn't cost more than `MOST_COST` by
/// `cost`. It takes time in proportion to the trace, the formula and the cost. It recurses as deep as the formula is
/// nested, conjunctions and terms included, and with each guard whose name has two facts or more, of which the cost lets
/// 23 stand inside one another. It makes the trace ready: where several formulas are judged on one trace, `ReadyTrace` does
/// that once.
pub fn judge(alloc: Global, f: &Formula, trace: &Trace) -> Result<Verdict, Mem>
    ensures { (g : Sig) → IsMessageTrace g trace.now → IsClosed g (form f.now) → IfOk result (λ v. IsVerdict g (form f.now) trace.now v) }
{
    let ready = ReadyTrace::of(alloc, trace)?;
    ready.judge(alloc, f)
}
