//! The guard, which keeps a trace within the seven restrictions as it grows.
ghost use Rattle.std.specs.Prelude.{◌≡◌, [], IfOk, OnErr, OnOk, Ok, Some, option_map};
ghost use Rattle.std.specs.Option.{option_copied};
ghost use Rattle.sap_terms.specs.View.{tree};
ghost use Rattle.sap_term_map.specs.Values.{value_at, with_at};
ghost use Rattle.sap_restrict.specs.Answer.{Answers};
ghost use Rattle.sap_restrict.specs.Stands.{HasOneReserved, KeepsTrace};
ghost use Rattle.sap_restrict.specs.View.{machine};
ghost use Rattle.sap_restrict.specs.code.Deeds.{deed, deed_by, deed_none, deed_one, deed_two, reserved_in, starts, happens, knows, takes, deletes, misses, equals, differs, inserts, finds, locks, unlocks};
ghost use Rattle.sap_restrict.specs.code.Machines.{Does, fresh_machine, is_the};

use crate::Which;
use crate::times::reserved_fact;
use sap_formula::both;
use sap_rewrite::normal_terms_decide;
use sap_term_map::{TermMap, unset};
use sap_terms::{Copied, Fact, FactList, Mem, Term};
use std::alloc::Global;

/// What the guard says of a time.
#[derive(Clone, Copy)]
pub enum Admit {
    /// All restrictions stay true, and the time was taken up.
    Kept,
    /// This restriction becomes false.
    Broken { which: Which },
}

/// What is kept of a trace so that the restrictions can be told of the trace with one more time: whether it started, what the
/// store has, what is held under which name, and what an input may take next. The trace itself isn't kept.
#[derive(Drop)]
pub struct Guard {
    alloc: Global,
    started: bool,
    stored: TermMap,
    held: TermMap,
    usable: Option<Term>,
}

impl Guard {
    /// The guard that stands for the empty trace. It takes no memory.
    pub fn new(alloc: Global) -> Guard
        ensures { KeepsTrace (machine result) [] }
    {
        normal_terms_decide();
        Guard::fresh(alloc)
    }

    fn fresh(alloc: Global) -> Guard
        ensures { machine result ≡ fresh_machine }
    {
        Guard {
            alloc,
            started: false,
            stored: TermMap::new(alloc),
            held: TermMap::new(alloc),
            usable: None,
        }
    }

    /// Takes up a time with these facts, unless a restriction becomes false, and then says which: the others stay true, so it is
    /// the first. Kept, the guard stands for each trace for which it stood, with the time behind it, and all seven formulas are
    /// true there, for every signature for which that is a trace of messages. Broken or refused for want of memory, it keeps
    /// what it kept. It takes time in the size of the facts on average, however long the trace is.
    /// It recurses as deep as the facts' terms.
    pub fn admit(&mut self, acts: &FactList) -> Result<Admit, Mem>
        requires { HasOneReserved acts.now }
        ensures ok { IfOk result (λ a. Answers a (machine self.old) (machine self.new) acts.now) }
        ensures err { OnErr result (machine self.new ≡ machine self.old) }
    {
        normal_terms_decide();
        self.admit_time(acts)
    }

    fn admit_time(&mut self, acts: &FactList) -> Result<Admit, Mem>
        ensures { Does (deed_by (reserved_in acts.now)) result (machine self.old) (machine self.new) }
    {
        match reserved_fact(acts) {
            Some(f) => self.admit_fact(f),
            None => Ok(Admit::Kept),
        }
    }

    fn admit_fact(&mut self, f: &Fact) -> Result<Admit, Mem>
        ensures { Does (deed f.now) result (machine self.old) (machine self.new) }
    {
        let n = f.args.len();
        if n == 0 {
            Ok(self.admit_none(f))
        } else if n == 1 {
            self.admit_one(f, f.args.at(0))
        } else if n == 2 {
            self.admit_two(f, f.args.at(0), f.args.at(1))
        } else {
            Ok(Admit::Kept)
        }
    }

    fn admit_none(&mut self, f: &Fact) -> Admit
        ensures { Does (deed_none f.now.name) (Ok result) (machine self.old) (machine self.new) }
    {
        if f.name.is(b"Init") {
            self.start()
        } else if f.name.is(b"Event") {
            self.happen()
        } else {
            Admit::Kept
        }
    }

    fn admit_one(&mut self, f: &Fact, x: &Term) -> Result<Admit, Mem>
        ensures { Does (deed_one f.now.name (tree x.now)) result (machine self.old) (machine self.new) }
    {
        if f.name.is(b"K") {
            self.know(x)
        } else if f.name.is(b"InEvent") {
            Ok(self.take(x))
        } else if f.name.is(b"Delete") {
            Ok(self.delete(x))
        } else if f.name.is(b"IsNotSet") {
            Ok(self.miss(x))
        } else {
            Ok(Admit::Kept)
        }
    }

    fn admit_two(&mut self, f: &Fact, x: &Term, y: &Term) -> Result<Admit, Mem>
        ensures { Does (deed_two f.now.name (tree x.now) (tree y.now)) result (machine self.old) (machine self.new) }
    {
        if f.name.is(b"Eq") {
            Ok(self.equal(x, y))
        } else if f.name.is(b"NotEq") {
            Ok(self.differ(x, y))
        } else if f.name.is(b"Insert") {
            self.insert(x, y)
        } else if f.name.is(b"IsIn") {
            Ok(self.find(x, y))
        } else if f.name.is(b"Lock") {
            self.lock(x, y)
        } else if f.name.is(b"Unlock") {
            Ok(self.unlock(x, y))
        } else {
            Ok(Admit::Kept)
        }
    }

    fn start(&mut self) -> Admit
        ensures { Does starts (Ok result) (machine self.old) (machine self.new) }
    {
        if self.started {
            return Admit::Broken { which: Which::Init };
        }
        self.started = true;
        Admit::Kept
    }

    fn happen(&mut self) -> Admit
        ensures { Does happens (Ok result) (machine self.old) (machine self.new) }
    {
        self.usable = None;
        Admit::Kept
    }

    fn know(&mut self, x: &Term) -> Result<Admit, Mem>
        ensures { Does (knows (tree x.now)) result (machine self.old) (machine self.new) }
    {
        let known = x.copy(self.alloc)?;
        self.usable = Some(known);
        Ok(Admit::Kept)
    }

    fn take(&mut self, x: &Term) -> Admit
        ensures { Does (takes (tree x.now)) (Ok result) (machine self.old) (machine self.new) }
    {
        if !is_the(self.usable.as_ref(), x) {
            return Admit::Broken { which: Which::InEv };
        }
        self.usable = None;
        Admit::Kept
    }

    fn delete(&mut self, x: &Term) -> Admit
        ensures { Does (deletes (tree x.now)) (Ok result) (machine self.old) (machine self.new) }
    {
        unset(&mut self.stored, x);
        Admit::Kept
    }

    fn miss(&self, x: &Term) -> Admit
        ensures { Does (misses (tree x.now)) (Ok result) (machine self.now) (machine self.now) }
    {
        if self.stored.get(x).is_some() {
            return Admit::Broken {
                which: Which::NotIn,
            };
        }
        Admit::Kept
    }

    fn equal(&self, x: &Term, y: &Term) -> Admit
        ensures { Does (equals (tree x.now) (tree y.now)) (Ok result) (machine self.now) (machine self.now) }
    {
        if x.same(y) {
            return Admit::Kept;
        }
        Admit::Broken { which: Which::Eq }
    }

    fn differ(&self, x: &Term, y: &Term) -> Admit
        ensures { Does (differs (tree x.now) (tree y.now)) (Ok result) (machine self.now) (machine self.now) }
    {
        if x.same(y) {
            return Admit::Broken {
                which: Which::NotEq,
            };
        }
        Admit::Kept
    }

    fn insert(&mut self, x: &Term, v: &Term) -> Result<Admit, Mem>
        ensures { Does (inserts (tree x.now) (tree v.now)) result (machine self.old) (machine self.new) }
    {
        put_copies(self.alloc, x, v, &mut self.stored)?;
        Ok(Admit::Kept)
    }

    fn find(&self, x: &Term, v: &Term) -> Admit
        ensures { Does (finds (tree x.now) (tree v.now)) (Ok result) (machine self.now) (machine self.now) }
    {
        if is_the(self.stored.get(x), v) {
            return Admit::Kept;
        }
        Admit::Broken { which: Which::In }
    }

    fn lock(&mut self, l: &Term, x: &Term) -> Result<Admit, Mem>
        ensures { Does (locks (tree l.now) (tree x.now)) result (machine self.old) (machine self.new) }
    {
        if self.held.get(x).is_some() {
            return Ok(Admit::Broken { which: Which::Lock });
        }
        put_copies(self.alloc, x, l, &mut self.held)?;
        Ok(Admit::Kept)
    }

    fn unlock(&mut self, l: &Term, x: &Term) -> Admit
        ensures { Does (unlocks (tree l.now) (tree x.now)) (Ok result) (machine self.old) (machine self.new) }
    {
        if is_the(self.held.get(x), l) {
            self.held.remove(x);
        }
        Admit::Kept
    }
}

/// Puts copies of the two into the map. Refused, it has what it had.
fn put_copies(alloc: Global, key: &Term, value: &Term, terms: &mut TermMap) -> Result<(), Mem>
    ensures ok { OnOk result (value_at terms.new ≡ with_at (value_at terms.old) (tree key.now) (Some (tree value.now))) }
    ensures err { OnErr result (value_at terms.new ≡ value_at terms.old) }
{
    let two = both(key.copy(alloc), value.copy(alloc))?;
    terms.put(two.0, two.1)
}

/// Whether it is this term.
fn is_the(term: Option<&Term>, x: &Term) -> bool
    ensures { result ≡ is_the (option_map tree (option_copied term.entry)) (tree x.now) }
{
    match term {
        Some(t) => t.same(x),
        None => false,
    }
}
