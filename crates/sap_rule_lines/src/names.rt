//! The names that a run draws.
ghost use Rattle.std.specs.Prelude.{◌≡◌, ℕ, [], ◌∷◌, ◌++◌, IfOk, OnOk};
ghost use Rattle.sap_rule_lines.specs.Least.{is_among, drawn_by, names_drawn, IsNext};

use indexmap::IndexSet;
use sap_runs::{PStep, PSteps};
use sap_terms::Mem;
use std::alloc::Global;
use std::marker::Model;

/// Names, found without a pass over them.
#[derive(Drop)]
pub struct Names {
    keys: IndexSet<u64>,
}

impl Model for Names {
    ghost use Rattle.std.specs.Prelude.{ℕ, List};

    ghost Value = { List ℕ };

    ghost view = { λ a. a.keys.keys };
}

impl Names {
    // No names. It takes no memory.
    fn new(alloc: Global) -> Names
        ensures { result ≡ [] }
    {
        Names {
            keys: IndexSet::new(alloc),
        }
    }

    // One more.
    fn add(&mut self, n: u64) -> Result<(), Mem>
        ensures { OnOk result ((m : ℕ) → is_among self.new m ≡ is_among (n ∷ self.old) m) }
    {
        self.keys.insert(n)?;
        Ok(())
    }

    // Whether the name is among these.
    fn has(&self, n: u64) -> bool
        ensures { result ≡ is_among self.now n }
    {
        self.keys.contains(&n)
    }

    /// The least number from this one on that isn't among these; beyond the greatest u64 it is want of memory.
    pub fn free_from(&self, from: u64) -> Result<u64, Mem>
        ensures { IfOk result (IsNext self.now from) }
    {
        let mut n = from;
        while self.has(n) {
            n = n.checked_add(1).ok_or(Mem)?;
        }
        Ok(n)
    }
}

// Those that the line draws, with these.
fn draw(names: &mut Names, step: &PStep) -> Result<(), Mem>
    ensures { OnOk result ((m : ℕ) → is_among names.new m ≡ is_among (drawn_by step.now ++ names.old) m) }
{
    match step {
        PStep::New(_, n) => names.add(*n),
        PStep::Name(n) => names.add(*n),
        _ => Ok(()),
    }
}

/// Those that the lines draw.
pub fn names_of(alloc: Global, run: &PSteps) -> Result<Names, Mem>
    ensures { IfOk result (λ names. (n : ℕ) → is_among names n ≡ is_among (names_drawn run.now) n) }
{
    let mut names = Names::new(alloc);
    for step in run.as_slice() {
        draw(&mut names, step)?;
    }
    Ok(names)
}
