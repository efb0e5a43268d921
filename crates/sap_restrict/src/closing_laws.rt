//! That the seven formulas are closed, and what follows, as a contract of a function that does nothing.
ghost use Rattle.sap_restrict.specs.Laws.{StandardClosedLaw, AdmittedFilledLaw};

use sap_formula::empty_times_are_not_seen;

/// A law: each of the seven formulas is closed, over each signature; so they don't see empty times: a full trace of messages is
/// admitted exactly where it is without them.
pub fn restrictions_are_closed()
    ensures closed { StandardClosedLaw }
    ensures filled { AdmittedFilledLaw }
{
    empty_times_are_not_seen();
}
