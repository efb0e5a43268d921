// Lines of a thread that evaluate the terms at the head of its place, test or write, and go on.
ghost use Rattle.std.specs.Prelude.{◌≡◌, ◌⊎◌, ℕ, IfOk, IfErr, OnOk, OnErr, Some, MatchOption, slice_get};
ghost use Rattle.sap_share.specs.Shared.{Keeps};
ghost use Rattle.sap_lines.specs.Faults.{has_form};
ghost use Rattle.sap_lines.specs.Heads.{Lacks};
ghost use Rattle.sap_lines.specs.Places.{ArePlaced};
ghost use Rattle.sap_calc.specs.Running.{IsDone, IsDenied};
ghost use Rattle.sap_calc.specs.code.HeadLines.{line_of, next_of, HasOne, HasTwo, IsAsked, IsUnasked, Passes, Fails, values_after, marks_after};
ghost use Rattle.sap_calc.specs.code.Threads.{IsThread};
ghost use Rattle.sap_calc.specs.declared.thread.Thread.{Thread as ThreadType};

use crate::Config;
use crate::stored::{is_marked, put_mark, put_value, value_at};
use crate::thread::{Threads, go_on, thread_at};
use indexmap::IndexMap;
use sap_heads::{value, values};
use sap_lines::{Form, PFault, Place, Places};
use sap_rewrite::normal_forms_decide;
use sap_share::Table;
use sap_terms::{FactList, Term};
use std::alloc::Global;

// What such a line does: terms agree or differ; a value is stored, a key is cleared, or has no value; a lock is held or released.
#[derive(Clone, Copy)]
pub(crate) enum HeadLine {
    Agree,
    Differ,
    Store,
    Clear,
    Miss,
    Hold,
    Release,
}

// The numbers of the terms at the head, twice the same where one term stands there, and where the thread goes on.
#[derive(Clone, Copy)]
struct Asked {
    first: u64,
    second: u64,
    next: u64,
}

// The one or two terms that the line evaluates, where the form is the line's.
fn terms_at(form: &Form, line: HeadLine) -> Option<(&Term, Option<&Term>)>
    ensures { MatchOption result ((t : ℕ) → Lacks (has_form (line_of line t)) form.now) (λ r. MatchOption r.1 (HasOne line form.now r.0.now) (λ n. HasTwo line form.now r.0.now n.now)) }
{
    match line {
        HeadLine::Agree => match form.test() {
            Some((m, n)) => Some((m, Some(n))),
            None => None,
        },
        HeadLine::Differ => match form.test() {
            Some((m, n)) => Some((m, Some(n))),
            None => None,
        },
        HeadLine::Store => match form.insertion() {
            Some((m, n)) => Some((m, Some(n))),
            None => None,
        },
        HeadLine::Clear => match form.deletion() {
            Some(m) => Some((m, None)),
            None => None,
        },
        HeadLine::Miss => match form.lookup() {
            Some((m, _)) => Some((m, None)),
            None => None,
        },
        HeadLine::Hold => match form.locking() {
            Some((m, _)) => Some((m, None)),
            None => None,
        },
        HeadLine::Release => match form.unlocking() {
            Some((m, _)) => Some((m, None)),
            None => None,
        },
    }
}

// Where the thread goes on.
fn next_of(place: &Place, line: HeadLine) -> u64
    ensures { result ≡ next_of line place.now }
{
    match line {
        HeadLine::Differ | HeadLine::Miss => place.second,
        HeadLine::Agree | HeadLine::Store | HeadLine::Clear | HeadLine::Hold | HeadLine::Release =>
            place.first,
    }
}

// What the line asks of the thread: the terms at the head of its place, evaluated.
fn ask(
    alloc: Global,
    table: &mut Table,
    places: &Places,
    threads: &Threads,
    t: u64,
    line: HeadLine,
) -> Result<Asked, PFault>
    requires places { ArePlaced places.now }
    requires threads { (k : ℕ) (th : ThreadType) → slice_get threads.now.items k ≡ Some (Some th) → IsThread table.old places.now th }
    ensures ok { IfOk result (IsAsked table.old table.new places.now threads.now.items t line) }
    ensures refused { IfErr result (IsUnasked table.old places.now threads.now.items t line) }
    ensures keeps { Keeps table.old table.new }
{
    table.each_is_ground();
    let Some(th) = thread_at(threads, t) else {
        return Err(PFault::NoThread { t });
    };
    let place = places.at(th.place);
    let Some((m, other)) = terms_at(&place.form, line) else {
        return Err(PFault::WrongForm { t });
    };
    let next = next_of(place, line);
    match other {
        None => match value(alloc, table, &th.env, m) {
            Err(fault) => Err(fault),
            Ok(k) => Ok(Asked {
                first: k,
                second: k,
                next,
            }),
        },
        Some(n) => match values(alloc, table, &th.env, m, n) {
            Err(fault) => Err(fault),
            Ok((j, k)) => Ok(Asked {
                first: j,
                second: k,
                next,
            }),
        },
    }
}

// Tests and writes what the line tests and writes.
fn carry_out(
    store: &mut IndexMap<u64, Option<u64>>,
    held: &mut IndexMap<u64, bool>,
    line: HeadLine,
    asked: Asked,
) -> Result<(), PFault>
    ensures passes { OnOk result (Passes line asked store.old.entries held.old.entries) }
    ensures store { OnOk result (store.new.entries ≡ values_after line asked store.old.entries) }
    ensures held { OnOk result (held.new.entries ≡ marks_after line asked held.old.entries) }
    ensures refused { IfErr result (λ f. (f ≡ PFault.Mem) ⊎ Fails line asked store.old.entries held.old.entries f) }
    ensures store_err { OnErr result (store.new.entries ≡ store.old.entries) }
    ensures held_err { OnErr result (held.new.entries ≡ held.old.entries) }
{
    match line {
        HeadLine::Agree => {
            if asked.first == asked.second {
                Ok(())
            } else {
                Err(PFault::Unequal)
            }
        }
        HeadLine::Differ => {
            if asked.first == asked.second {
                Err(PFault::Equal)
            } else {
                Ok(())
            }
        }
        HeadLine::Store => Ok(put_value(store, asked.first, Some(asked.second))?),
        HeadLine::Clear => Ok(put_value(store, asked.first, None)?),
        HeadLine::Miss => match value_at(store, asked.first) {
            Some(_) => Err(PFault::Set),
            None => Ok(()),
        },
        HeadLine::Hold => {
            if is_marked(held, asked.first) {
                return Err(PFault::Held);
            }
            Ok(put_mark(held, asked.first, true)?)
        }
        HeadLine::Release => Ok(put_mark(held, asked.first, false)?),
    }
}

impl Config {
    /// Lets a thread do such a line. Refused, nothing changes.
    pub(crate) fn head_line(
        &mut self,
        alloc: Global,
        t: u64,
        line: HeadLine,
    ) -> Result<FactList, PFault>
        ensures ok { IfOk result (IsDone self.old self.new (line_of line t)) }
        ensures refused { IfErr result (IsDenied self.old (line_of line t)) }
        ensures err { OnErr result (self.new ≡ self.old) }
    {
        normal_forms_decide();
        match ask(alloc, &mut self.table, &self.places, &self.threads, t, line) {
            Err(fault) => Err(fault),
            Ok(asked) => {
                self.table.each_has_one_number();
                match carry_out(&mut self.store, &mut self.held, line, asked) {
                    Err(fault) => Err(fault),
                    Ok(()) => {
                        go_on(&mut self.threads, t, asked.next);
                        Ok(FactList::new(alloc))
                    }
                }
            }
        }
    }
}
