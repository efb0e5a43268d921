// The places of a process, by numbers.
ghost use Rattle.std.specs.Prelude.{◌≡◌, IfOk};
ghost use Rattle.sap_process.specs.Proc.{Proc, proc};
ghost use Rattle.sap_lines.specs.Places.{form_proc, with_children, ArePlaces, AddsForm, AddsProcess, IsRooted};

use crate::form::{Form, form_of};
use sap_process::{Children, Process};
use sap_terms::{Items, Mem};
use std::alloc::Global;

/// A place of a process: what stands there, and the numbers of the places at which it goes on. Where there is one, it stands
/// twice.
#[derive(Drop)]
pub struct Place {
    pub form: Form,
    pub first: u64,
    pub second: u64,
}

/// The places of a process by their numbers, each behind those at which it goes on.
pub type Places = Items<Place>;

// Adds a place with the form of the process.
fn add_form(
    alloc: Global,
    places: &mut Places,
    p: &Process,
    first: u64,
    second: u64,
) -> Result<u64, Mem>
    ensures { IfOk result (λ k. AddsForm places.old places.new (proc p.now) k first second) }
{
    let form = form_of(alloc, p)?;
    let number = places.len();
    places.push(Place {
        form,
        first,
        second,
    })?;
    Ok(number)
}

// Adds the places of a process, and gives the number of its root.
fn add_process(alloc: Global, places: &mut Places, p: &Process) -> Result<u64, Mem>
    requires { ArePlaces places.old }
    ensures { IfOk result (λ k. AddsProcess places.old places.new k (proc p.now)) }
{
    match p.children() {
        Children::Nothing => add_form(alloc, places, p, 0, 0),
        Children::One(q) => {
            let first = add_process(alloc, places, q)?;
            add_form(alloc, places, p, first, first)
        }
        Children::Two(q, r) => {
            let first = add_process(alloc, places, q)?;
            let second = add_process(alloc, places, r)?;
            add_form(alloc, places, p, first, second)
        }
    }
}

/// The places of a process, and the number of its root. Want of memory is the only error. It recurses as deep as the process.
pub fn places_of(alloc: Global, p: &Process) -> Result<(Places, u64), Mem>
    ensures { IfOk result (λ r. IsRooted r.0 r.1 (proc p.now)) }
{
    let mut places = Places::new(alloc);
    let root = add_process(alloc, &mut places, p)?;
    Ok((places, root))
}
