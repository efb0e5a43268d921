//! The restrictions under their names.
ghost use Rattle.std.specs.Prelude.{◌≡◌, ◌++◌, ◌∷◌, [], map, IfOk, OnOk};
ghost use Rattle.sap_process.specs.Proc.{proc};
ghost use Rattle.sap_restrict.specs.Restrictions.{is_generated, restriction_name, named, needed_restrictions};

use crate::{Which, WhichList, needed, standard};
use sap_formula::{Restriction, RestrictionList};
use sap_process::Process;
use sap_terms::{Mem, Name};
use std::alloc::Global;

/// The restriction with its formula and its name. Want of memory is the only error.
pub fn restriction(alloc: Global, which: Which) -> Result<Restriction, Mem>
    ensures { IfOk result (λ r. r ≡ named which) }
{
    let name = Name::from_bytes(alloc, name_of(which).as_bytes())?;
    Ok(Restriction {
        name,
        formula: standard(alloc, which)?,
    })
}

fn name_of(which: Which) -> &'static str
    ensures { result.now ≡ restriction_name which }
{
    match which {
        Which::Init => "sapic_init",
        Which::Eq => "sapic_eq",
        Which::NotEq => "sapic_noteq",
        Which::In => "sapic_in",
        Which::NotIn => "sapic_notin",
        Which::Lock => "sapic_lock",
        Which::InEv => "sapic_inev",
    }
}

/// The restrictions that the process needs, in their order. Want of memory is the only error.
/// It recurses as deep as the process.
pub fn needed_restrictions(alloc: Global, p: &Process) -> Result<RestrictionList, Mem>
    ensures { IfOk result (λ rs. rs ≡ needed_restrictions (proc p.now)) }
{
    restrictions(alloc, &needed(alloc, p)?)
}

fn restrictions(alloc: Global, which: &WhichList) -> Result<RestrictionList, Mem>
    ensures { IfOk result (λ rs. rs ≡ map named which.now) }
{
    let mut all = RestrictionList::new(alloc);
    for one in which.as_slice() {
        push_restriction(alloc, *one, &mut all)?;
    }
    Ok(all)
}

fn push_restriction(alloc: Global, which: Which, all: &mut RestrictionList) -> Result<(), Mem>
    ensures { OnOk result (all.new ≡ all.old ++ named which ∷ []) }
{
    all.push(restriction(alloc, which)?)
}

/// Whether it is the name of one of the seven, be it needed or not.
pub fn is_generated(name: &Name) -> bool
    ensures { result ≡ is_generated name.now }
{
    name.is(b"sapic_init")
        || name.is(b"sapic_eq")
        || name.is(b"sapic_noteq")
        || name.is(b"sapic_in")
        || name.is(b"sapic_notin")
        || name.is(b"sapic_lock")
        || name.is(b"sapic_inev")
}
