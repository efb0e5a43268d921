//! Flaws that a walk through a process looks for, and the first of each that it found.
ghost use Rattle.std.specs.Prelude.{◌≡◌, length, take, IfOk, OnOk};
ghost use Rattle.sap_process.specs.code.Walks.{settled, unmet, answer};

use crate::Flaw;
use crate::met::Seen;
use sap_terms::{Copied, Mem, Path};
use std::alloc::Global;
use std::marker::Model;

// Flaws that a walk looks for, in the order in which they count.
#[derive(Drop)]
pub(crate) struct Sought {
    flaws: Vec<Flaw>,
}

impl Model for Sought {
    ghost use Rattle.std.specs.Prelude.{List};
    ghost use Rattle.sap_process.specs.declared.flaw.Flaw.{Flaw};

    ghost Value = { List Flaw };

    ghost view = { λ a. a.flaws.items };
}

impl Sought {
    // These flaws.
    fn from_slice(alloc: Global, flaws: &[Flaw]) -> Result<Sought, Mem>
        ensures { IfOk result (λ s. s ≡ flaws.now) }
    {
        let flaws = Vec::from_slice(alloc, flaws)?;
        Ok(Sought { flaws })
    }

    // The flaws side by side.
    pub(crate) fn as_slice(&self) -> &[Flaw]
        ensures { result.now ≡ self.now }
    {
        self.flaws.as_slice()
    }

    // Their number.
    fn len(&self) -> u64
        ensures { result ≡ length self.now }
    {
        self.flaws.len() as u64
    }

    // Looks for the first `len` of them only.
    fn cut(&mut self, len: u64)
        ensures { self.new ≡ take len self.old }
    {
        self.flaws.truncate(len as usize);
    }
}

// What a walk has found among the places that it has met: their facts; the flaws that would count before the one found, and
// the path of the first place that has that one. Where none is found, each flaw is looked for.
#[derive(Drop)]
pub(crate) struct Found {
    pub(crate) seen: Seen,
    pub(crate) sought: Sought,
    path: Path,
}

impl Found {
    // Before any place is met.
    pub(crate) fn nothing(alloc: Global, flaws: &[Flaw]) -> Result<Found, Mem>
        ensures { IfOk result (λ f. f ≡ unmet flaws.now) }
    {
        let sought = Sought::from_slice(alloc, flaws)?;
        Ok(Found {
            seen: Seen::new(alloc),
            sought,
            path: Path::new(alloc),
        })
    }

    // So many of the flaws that were looked for count before the one that the place of this trail has, if it has one.
    pub(crate) fn settle(&mut self, alloc: Global, free: u64, trail: &Path) -> Result<(), Mem>
        ensures { OnOk result (self.new ≡ settled self.old free trail.now) }
    {
        if free < self.sought.len() {
            self.path = trail.copy(alloc)?;
            self.sought.cut(free);
        }
        Ok(())
    }

    // The first of these flaws that isn't looked for any more, with its path.
    pub(crate) fn answer(&self, alloc: Global, flaws: &[Flaw]) -> Result<Option<(Flaw, Path)>, Mem>
        ensures { IfOk result (λ o. o ≡ answer flaws.now self.now) }
    {
        match flaws.get(self.sought.len() as usize) {
            Some(which) => Ok(Some((*which, self.path.copy(alloc)?))),
            None => Ok(None),
        }
    }
}
