//! Traces made ready for judging.
ghost use Rattle.std.specs.Prelude.{◌≡◌, ◌^◌, ◌-◌, [], IfOk, map, min};
ghost use Rattle.sap_formula.specs.Cost.{form_cost};
ghost use Rattle.sap_formula.specs.Laws.{IsClosed};
ghost use Rattle.sap_judge.specs.Reasons.{Explains};
ghost use Rattle.sap_judge.specs.Verdict.{IsVerdict};
ghost use Rattle.sap_formula.specs.View.{form};
ghost use Rattle.sap_judge.specs.code.Answer.{IsAnswer};
ghost use Rattle.sap_judge.specs.code.Claiming.{claim_of};
ghost use Rattle.sap_judge.specs.code.Folded.{judged};
ghost use Rattle.sap_judge.specs.declared.extent.Extent.TheVariants.{Whole};
ghost use Rattle.sap_search.specs.Explained.{explained};
ghost use Rattle.sap_search.specs.View.{reason_of};
ghost use Rattle.sap_match.specs.View.{sight};
ghost use Rattle.sap_judge.specs.Guards.{sights};
ghost use Rattle.sap_terms.specs.Message.{IsMessageTrace};
ghost use Rattle.sap_terms.specs.Signature.{Sig};

use crate::claiming::claim_box;
use crate::extent::Extent;
use crate::laws::{claims_give_reasons, plans_decide_truth};
use crate::laying::Levels;
use crate::readying::ready_box;
use crate::rows::{Rows, facts_in, rows_of};
use crate::{MOST_COST, Verdict};
use sap_formula::{CountsFacts, Formula, cost_on};
use sap_match::{Moments, Sighted, moments_of};
use sap_search::{Chosen, is_true, reason_by};
use sap_terms::{Mem, Name, Trace};
use std::alloc::Global;
use std::marker::Model;

/// A trace made ready for judging formulas on it, which contracts see as the trace. It lends the trace, and holds where
/// the facts of each name stand, and where those of each digest do at a time that has many.
#[derive(Drop)]
pub struct ReadyTrace<'t> {
    moments: Moments<'t>,
    rows: Rows<'t>,
}

impl<'t> Model for ReadyTrace<'t> {
    ghost use Rattle.std.specs.Coded.{codes};
    ghost use Rattle.sap_judge.specs.code.Rows.{IsOf};
    ghost use Rattle.sap_terms.specs.Codes.{tree_code};
    ghost use Rattle.sap_terms.specs.Trace.{Trace};

    ghost Value = { Trace };

    ghost coded = { Prim.hlevel (codes, tree_code) };

    ghost view = { λ a. a.moments };

    ghost invariant = { λ a. IsOf a.moments a.rows };
}

impl<'t> ReadyTrace<'t> {
    /// The trace made ready. It takes time in proportion to the number of its times and facts and to the lengths of the
    /// facts' names; terms are looked at where a time has more than eight facts alone, and no fact is copied.
    pub fn of(alloc: Global, trace: &'t Trace) -> Result<ReadyTrace<'t>, Mem>
        ensures { IfOk result (λ r. r ≡ trace.now) }
    {
        let moments = moments_of(alloc, trace)?;
        let rows = rows_of(alloc, trace)?;
        Ok(ReadyTrace { moments, rows })
    }

    // Its facts of this name, in order.
    pub(crate) fn named<'a>(&'a self, name: &Name) -> &'a [Sighted<'a>]
        ensures { map sight result.now ≡ sights name.now self.now }
    {
        facts_in(&self.rows, name)
    }

    /// What judging the formula on the trace costs, as `cost` says it. It takes no memory, and time in proportion to the
    /// formula: how many facts have a name is known, and isn't counted. It recurses as deep as the formula.
    pub fn cost(&self, f: &Formula) -> u64
        ensures { result ≡ min (form_cost self.now (form f.now)) (2 ^ 64 - 1) }
    {
        cost_on(f, self)
    }

    /// What the function `judge` says of the formula on the trace.
    pub fn judge(&self, alloc: Global, f: &Formula) -> Result<Verdict, Mem>
        ensures { (g : Sig) → IsMessageTrace g self.now → IsClosed g (form f.now) → IfOk result (λ v. IsVerdict g (form f.now) self.now v) }
    {
        plans_decide_truth();
        answer(alloc, f, self)
    }

    /// The reason why the formula is true on the trace, where `value` is true, or why it isn't; none where it has the other truth value.
    /// It judges the formula once more, also where that costs more than `MOST_COST`: ask `judge` first. Want of memory is the
    /// only error. It takes time and recurses as `judge` does.
    pub fn reason<'a>(
        &'a self,
        alloc: Global,
        f: &'a Formula,
        value: bool,
    ) -> Result<Option<Vec<Chosen<'a>>>, Mem>
        ensures { (g : Sig) → IsMessageTrace g self.now → IsClosed g (form f.now) → IfOk result (λ r. Explains g (form f.now) self.now value (reason_of r)) }
    {
        claims_give_reasons();
        found_reason(alloc, f, self, value)
    }
}

// They are looked up.
impl<'t> CountsFacts for ReadyTrace<'t> {
    ghost counted = { λ tr. tr };

    #[tactic(auto, using(crate::proofs::RowLaws::counted))]
    fn count(&self, name: &Name) -> u64 {
        self.named(name).len() as u64
    }
}

// Whether the formula is true on the trace.
fn is_found(alloc: Global, f: &Formula, trace: &ReadyTrace<'_>) -> Result<bool, Mem>
    ensures { IfOk result (λ v. v ≡ judged (form f.now) trace.now) }
{
    let outside = Levels::Outside;
    let plan = ready_box(alloc, trace, Extent::Whole, &outside, f)?;
    is_true(alloc, &trace.moments, &plan)
}

// The choices that show the claim that its truth value is this.
fn found_reason<'a>(
    alloc: Global,
    f: &'a Formula,
    trace: &'a ReadyTrace<'_>,
    value: bool,
) -> Result<Option<Vec<Chosen<'a>>>, Mem>
    ensures { IfOk result (λ r. reason_of r ≡ explained trace.now (claim_of trace.now Whole [] value (form f.now)) []) }
{
    let outside = Levels::Outside;
    let claim = claim_box(alloc, trace, Extent::Whole, value, &outside, f)?;
    reason_by(alloc, &trace.moments, &claim)
}

fn answer(alloc: Global, f: &Formula, trace: &ReadyTrace<'_>) -> Result<Verdict, Mem>
    ensures { IfOk result (λ v. IsAnswer (form f.now) trace.now v) }
{
    let spent = trace.cost(f);
    if spent > MOST_COST {
        return Ok(Verdict::TooCostly { cost: spent });
    }
    if is_found(alloc, f, trace)? {
        return Ok(Verdict::Holds);
    }
    Ok(Verdict::Fails)
}
