//! The test of messages.
ghost use Rattle.std.specs.Prelude.{◌≡◌, ◌↔◌, IfOk, IsTrue};
ghost use Rattle.sap_terms.specs.Message.{IsMessage};
ghost use Rattle.sap_terms.specs.View.{tree};

use crate::matching::fits;
use crate::normal_form::normal;
use sap_terms::{Mem, Signature, Sort, Term};
use std::alloc::Global;

/// Whether the term is a message that a variable of this sort may stand for: ground, over the signature, normal, and of
/// the sort. It recurses as deep as the term.
pub fn is_message(alloc: Global, sig: &Signature, sort: Sort, t: &Term) -> Result<bool, Mem>
    ensures { IfOk result (λ r. IsTrue r ↔ IsMessage sig.now sort (tree t.now)) }
{
    if !fits(sort, t) {
        return Ok(false);
    }
    if !t.is_ground() {
        return Ok(false);
    }
    if !sig.is_over(t) {
        return Ok(false);
    }
    let form = normal(alloc, sig, t)?;
    Ok(form.same(t))
}
