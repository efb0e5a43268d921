//! Facts that a walk through a process has met, by name.
ghost use Rattle.std.specs.Prelude.{◌≡◌, true, false, ◌||◌, [], ◌++◌, IfOk, OnOk};
ghost use Rattle.sap_process.specs.Heads.{stored_facts, shown_facts};
ghost use Rattle.sap_process.specs.Proc.{proc};
ghost use Rattle.sap_process.specs.code.Tests.{is_shape, is_other_shape, noted_shape, noted, noted_all, has_clash, shape_of};
ghost use Rattle.sap_process.specs.code.Walks.{seen_at};

use crate::Process;
use sap_terms::{Copied, Fact, FactList, HasName, Mem, Name, Named};
use std::alloc::Global;
use std::marker::Model;

// What a fact has in common with each of its name: the number of its arguments and, where that counts, whether it is
// persistent.
#[derive(Clone, Copy)]
pub(crate) struct Shape {
    arity: u64,
    persistent: bool,
}

impl Shape {
    fn is(self, other: Shape) -> bool
        ensures { result ≡ is_shape self other }
    {
        self.arity == other.arity && self.persistent == other.persistent
    }
}

fn shape_of(both: bool, f: &Fact) -> Shape
    ensures { result ≡ shape_of both f.now }
{
    Shape {
        arity: f.args.len(),
        persistent: both && f.persistent,
    }
}

// The name of a fact, with its shape.
#[derive(Drop)]
pub(crate) struct Noted {
    name: Name,
    shape: Shape,
}

impl HasName for Noted {
    ghost name_of = { λ x. x.name };

    fn name(&self) -> &Name {
        &self.name
    }
}

// The shapes of the first facts of their names.
#[derive(Drop)]
pub(crate) struct Met {
    facts: Named<Noted>,
}

impl Model for Met {
    ghost use Rattle.std.specs.Prelude.{List};
    ghost use Rattle.sap_process.specs.declared.met.Noted.{Noted};

    ghost Value = { List Noted };

    ghost view = { λ a. a.facts };
}

impl Met {
    // No facts. It takes no memory.
    fn new(alloc: Global) -> Met
        ensures { result ≡ [] }
    {
        Met {
            facts: Named::new(alloc),
        }
    }

    // Notes the shape, where none is noted for the name; whether another one is noted.
    fn note(&mut self, alloc: Global, name: &Name, shape: Shape) -> Result<bool, Mem>
        ensures other { IfOk result (λ b. b ≡ is_other_shape (noted_shape self.old name.now) shape) }
        ensures noted { OnOk result (self.new ≡ noted self.old name.now shape) }
    {
        if let Some(first) = self.facts.named(name) {
            return Ok(!first.shape.is(shape));
        }
        let name = name.copy(alloc)?;
        self.facts.push(Noted { name, shape })?;
        Ok(false)
    }

    // Notes the shapes of the facts; whether another one is noted for the name of one.
    fn note_all(&mut self, alloc: Global, both: bool, fs: &FactList) -> Result<bool, Mem>
        ensures clash { IfOk result (λ b. b ≡ has_clash both self.old fs.now) }
        ensures noted { OnOk result (self.new ≡ noted_all both self.old fs.now) }
    {
        let mut clash = false;
        for f in fs.as_slice() {
            let other = self.note(alloc, &f.name, shape_of(both, f))?;
            clash = clash || other;
        }
        Ok(clash)
    }

    // The same of two lists of facts.
    #[tactic(auto, using(crate::proofs::Clashing::clash_lists))]
    fn note_both(
        &mut self,
        alloc: Global,
        both: bool,
        fs: &FactList,
        hs: &FactList,
    ) -> Result<bool, Mem>
        ensures clash { IfOk result (λ b. b ≡ has_clash both self.old (fs.now ++ hs.now)) }
        ensures noted { OnOk result (self.new ≡ noted_all both self.old (fs.now ++ hs.now)) }
    {
        let first = self.note_all(alloc, both, fs)?;
        let second = self.note_all(alloc, both, hs)?;
        Ok(first || second)
    }
}

// The facts that were met: those that are taken and added, by arity and persistence, and those that are shown, by arity.
#[derive(Drop)]
pub(crate) struct Seen {
    stored: Met,
    shown: Met,
}

impl Seen {
    pub(crate) fn new(alloc: Global) -> Seen
        ensures { result ≡ record { stored = []; shown = [] } }
    {
        Seen {
            stored: Met::new(alloc),
            shown: Met::new(alloc),
        }
    }

    // Notes the facts at the head of the process; whether one clashes with an earlier one.
    pub(crate) fn note(&mut self, alloc: Global, p: &Process) -> Result<bool, Mem>
        ensures clash { IfOk result (λ b. b ≡ (has_clash true self.old.stored (stored_facts (proc p.now))
            || has_clash false self.old.shown (shown_facts (proc p.now)))) }
        ensures noted { OnOk result (self.new ≡ seen_at self.old (proc p.now)) }
    {
        match p {
            Process::Event(f, _) => self.shown.note(alloc, &f.name, shape_of(false, f)),
            Process::Embedded(l, e, r, _) => self.note_rule(alloc, l, e, r),
            _ => Ok(false),
        }
    }

    fn note_rule(
        &mut self,
        alloc: Global,
        l: &FactList,
        e: &FactList,
        r: &FactList,
    ) -> Result<bool, Mem>
        ensures clash { IfOk result (λ b. b ≡ (has_clash true self.old.stored (l.now ++ r.now)
            || has_clash false self.old.shown e.now)) }
        ensures noted { OnOk result (self.new ≡ record {
          stored = noted_all true self.old.stored (l.now ++ r.now);
          shown = noted_all false self.old.shown e.now;
        }) }
    {
        let stored = self.stored.note_both(alloc, true, l, r)?;
        let shown = self.shown.note_all(alloc, false, e)?;
        Ok(stored || shown)
    }
}
