//! Whether a run counts.
ghost use Rattle.std.specs.Prelude.{◌≡◌, map};
ghost use Rattle.sap_verdicts.specs.Standing.{standing, with_verdict};
ghost use Rattle.sap_verdicts.specs.View.{found};

use crate::finding::Finding;
use crate::statement::Statement;
use sap_judge::Verdict;

/// Whether a run counts, by the verdicts on the restrictions.
#[derive(Clone, Copy)]
pub enum Standing {
    /// Each restriction is true on it.
    Counts,
    /// One isn't.
    Excluded,
    /// One is too costly, and none isn't true.
    Undecided,
}

// One verdict more.
fn with_verdict(what: Statement, verdict: Verdict, standing: Standing) -> Standing
    ensures { result ≡ with_verdict what verdict standing }
{
    match (what, verdict, standing) {
        (Statement::Lemma(_), _, s) => s,
        (Statement::Restriction, Verdict::Holds, s) => s,
        (Statement::Restriction, Verdict::Fails, _) => Standing::Excluded,
        (Statement::Restriction, Verdict::TooCostly { .. }, Standing::Excluded) =>
            Standing::Excluded,
        (Statement::Restriction, Verdict::TooCostly { .. }, _) => Standing::Undecided,
    }
}

// Whether a run counts on which this is found of a file's formulas.
#[tactic(auto, using(crate::proofs::Standings::standing_laws))]
pub(crate) fn standing_of(findings: &[Finding<'_>]) -> Standing
    ensures { result ≡ standing (map found findings.now) }
{
    let mut so_far = Standing::Counts;
    for k in 0..findings.len() {
        let y = &findings[findings.len() - 1 - k];
        so_far = with_verdict(y.what, y.verdict, so_far);
    }
    so_far
}
