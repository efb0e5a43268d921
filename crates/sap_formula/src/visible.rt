//! Traces without their hidden facts.
ghost use Rattle.std.specs.Prelude.{◌≡◌, ◌++◌, ◌∷◌, [], IfOk, OnOk};
ghost use Rattle.sap_formula.specs.Hide.{is_hidden, visible, hide};
ghost use Rattle.sap_terms.specs.Trace.{shown};

use sap_terms::{Copied, Fact, FactList, Mem, Name, Trace, is_reserved};
use std::alloc::Global;

pub(crate) fn is_hidden(name: &Name) -> bool
    ensures { result ≡ is_hidden name.now }
{
    is_reserved(name) && !name.is(b"K")
}

// Puts a copy of the fact last.
fn push_fact(alloc: Global, f: &Fact, out: &mut FactList) -> Result<(), Mem>
    ensures { OnOk result (out.new ≡ out.old ++ f.now ∷ []) }
{
    out.push(f.copy(alloc)?)
}

fn visible_facts(alloc: Global, time: &FactList) -> Result<FactList, Mem>
    ensures { IfOk result (λ p. p ≡ visible time.now) }
{
    let mut out = FactList::new(alloc);
    for f in time.as_slice() {
        if !is_hidden(&f.name) {
            push_fact(alloc, f, &mut out)?;
        }
    }
    Ok(out)
}

// Puts what is visible of the time last, unless nothing is.
fn push_time(alloc: Global, time: &FactList, out: &mut Trace) -> Result<(), Mem>
    ensures { OnOk result (out.new ≡ out.old ++ shown (visible time.now)) }
{
    let left = visible_facts(alloc, time)?;
    if left.len() == 0 {
        return Ok(());
    }
    out.push(left)
}

/// The trace without the facts that have a reserved name other than `K`, and then without the empty times.
pub fn hide(alloc: Global, trace: &Trace) -> Result<Trace, Mem>
    ensures { IfOk result (λ tr. tr ≡ hide trace.now) }
{
    let mut out = Trace::new(alloc);
    for p in trace.as_slice() {
        push_time(alloc, p, &mut out)?;
    }
    Ok(out)
}
