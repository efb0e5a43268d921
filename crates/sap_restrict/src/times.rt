//! The facts of a time that have reserved names.
ghost use Rattle.std.specs.Prelude.{◌≡◌, ◌↔◌, All, IsTrue};
ghost use Rattle.std.specs.Option.{option_copied};
ghost use Rattle.sap_restrict.specs.Stands.{HasOneReserved};
ghost use Rattle.sap_restrict.specs.code.Deeds.{IsOnlyReserved, reserved_in};

use sap_terms::{Fact, FactList, is_reserved};

/// Whether a guard may be asked for a time with these facts: those with a reserved name are all one fact.
#[tactic(auto, using(crate::proofs::Singles::none_reserved))]
pub fn has_one_reserved(acts: &FactList) -> bool
    ensures { IsTrue result ↔ HasOneReserved acts.now }
{
    match reserved_fact(acts) {
        Some(first) => is_only_reserved(first, acts),
        None => true,
    }
}

/// The first fact that has a reserved name.
pub(crate) fn reserved_fact(acts: &FactList) -> Option<&Fact>
    ensures { option_copied result ≡ reserved_in acts.now }
{
    for f in acts.as_slice() {
        if is_reserved(&f.name) {
            return Some(f);
        }
    }
    None
}

fn is_only_reserved(first: &Fact, acts: &FactList) -> bool
    ensures { IsTrue result ↔ All (IsOnlyReserved first.now) acts.now }
{
    acts.as_slice().iter().all(|f| is_plain_or(first, f))
}

fn is_plain_or(first: &Fact, f: &Fact) -> bool
    ensures { IsTrue result ↔ IsOnlyReserved first.now f.now }
{
    !is_reserved(&f.name) || is_same(f, first)
}

#[tactic(auto, using(crate::proofs::Singles::parts_laws))]
fn is_same(f: &Fact, h: &Fact) -> bool
    ensures { IsTrue result ↔ (f.now ≡ h.now) }
{
    if !has_same_sign(f, h) {
        return false;
    }
    if !f.name.same(&h.name) {
        return false;
    }
    has_same_args(f, h)
}

fn has_same_sign(f: &Fact, h: &Fact) -> bool
    ensures { IsTrue result ↔ (f.now.persistent ≡ h.now.persistent) }
{
    f.persistent == h.persistent
}

#[tactic(auto, using(crate::proofs::Singles::same_laws))]
fn has_same_args(f: &Fact, h: &Fact) -> bool
    ensures { IsTrue result ↔ (f.now.args ≡ h.now.args) }
{
    f.args == h.args
}
