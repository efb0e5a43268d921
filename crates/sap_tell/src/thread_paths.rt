//! Where threads stand, as lines lead them on.
ghost use Rattle.std.specs.Prelude.{◌≡◌, [], ◌∷◌, ◌++◌, IfOk, OnOk, OnErr};
ghost use Rattle.sap_terms.specs.Path.{IsDigit};
ghost use Rattle.sap_tell.specs.ThreadPaths.{path_of, goes_on, paths_after};

use sap_runs::PStep;
use sap_terms::{Copied, Mem, Path};
use std::alloc::Global;
use std::marker::Model;

/// The paths of the places of threads, by the threads' numbers.
#[derive(Drop)]
pub struct ThreadPaths {
    items: Vec<Path>,
}

impl Model for ThreadPaths {
    ghost use Rattle.std.specs.Prelude.{List, ℕ};

    ghost Value = { List (List ℕ) };

    ghost view = { λ a. a.items.items };
}

impl ThreadPaths {
    /// Thread 0 alone, at the root.
    pub fn first(alloc: Global) -> Result<ThreadPaths, Mem>
        ensures { IfOk result (λ paths. paths ≡ [] ∷ []) }
    {
        let mut items = Vec::new(alloc);
        items.push(Path::new(alloc))?;
        Ok(ThreadPaths { items })
    }

    /// The digits of a thread's path, none for a thread that there isn't.
    pub fn digits(&self, t: u64) -> &[u8]
        ensures { result.now ≡ path_of self.now t }
    {
        match self.items.get(t as usize) {
            Some(path) => path.as_slice(),
            None => &[],
        }
    }

    // The thread goes on at the child of this digit.
    fn go_on(&mut self, t: u64, digit: u8) -> Result<(), Mem>
        requires { IsDigit digit }
        ensures ok { OnOk result (self.new ≡ goes_on self.old t digit) }
        ensures err { OnErr result (self.new ≡ self.old) }
    {
        if (t as usize) < self.items.len() {
            self.items[t as usize].push(digit)?;
        }
        Ok(())
    }

    // The path of this child of a thread's place.
    fn child(&self, alloc: Global, t: u64, digit: u8) -> Result<Path, Mem>
        requires { IsDigit digit }
        ensures { IfOk result (λ path. path ≡ path_of self.now t ++ digit ∷ []) }
    {
        let mut path = match self.items.get(t as usize) {
            Some(path) => path.copy(alloc)?,
            None => Path::new(alloc),
        };
        path.push(digit)?;
        Ok(path)
    }

    // The thread becomes two.
    fn split(&mut self, alloc: Global, t: u64) -> Result<(), Mem>
        ensures { OnOk result (self.new ≡ goes_on self.old t 1 ++ (path_of self.old t ++ 2 ∷ []) ∷ []) }
    {
        let path = self.child(alloc, t, 2)?;
        self.go_on(t, 1)?;
        self.items.push(path)?;
        Ok(())
    }

    // There is one more copy.
    fn add_copy(&mut self, alloc: Global, t: u64) -> Result<(), Mem>
        ensures { OnOk result (self.new ≡ self.old ++ (path_of self.old t ++ 1 ∷ []) ∷ []) }
    {
        let path = self.child(alloc, t, 1)?;
        self.items.push(path)?;
        Ok(())
    }

    // Both threads go on.
    fn meet(&mut self, s: u64, t: u64) -> Result<(), Mem>
        ensures { OnOk result (self.new ≡ goes_on (goes_on self.old s 1) t 1) }
    {
        self.go_on(s, 1)?;
        self.go_on(t, 1)
    }

    /// Leads the threads on by a line. Where memory is wanting, paths may be as before the line or in between.
    pub fn follow(&mut self, alloc: Global, step: &PStep) -> Result<(), Mem>
        ensures { OnOk result (self.new ≡ paths_after self.old step.now) }
    {
        match step {
            PStep::Par(t) => self.split(alloc, *t),
            PStep::Rep(t) => self.add_copy(alloc, *t),
            PStep::Sync(s, t) => self.meet(*s, *t),
            PStep::Else(t) | PStep::Missing(t) => self.go_on(*t, 2),
            PStep::New(t, _) | PStep::Send(t, _) | PStep::In(t, _) => self.go_on(*t, 1),
            PStep::Embedded(t, _, _) => self.go_on(*t, 1),
            PStep::Out(t)
            | PStep::Then(t)
            | PStep::Event(t)
            | PStep::Insert(t)
            | PStep::Delete(t)
            | PStep::Found(t)
            | PStep::Lock(t)
            | PStep::Unlock(t) => self.go_on(*t, 1),
            PStep::Nil(_)
            | PStep::Name(_)
            | PStep::Public(_)
            | PStep::Apply(_, _)
            | PStep::Know(_) => Ok(()),
        }
    }
}
