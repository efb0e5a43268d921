//! Paths of places.
ghost use Rattle.std.specs.Prelude.{◌≡◌, ◌<◌, [], ◌∷◌, ◌++◌, ◌-◌, length, take, OnOk, OnErr, slice_get};
ghost use Rattle.std.specs.Option.{option_copied};

use crate::{Copied, Mem};
use std::alloc::Global;
use std::marker::Model;

/// The way from a root to a place: each digit, 1 or 2, chooses the child to go on at.
#[derive(Drop)]
pub struct Path {
    digits: Vec<u8>,
}

impl Model for Path {
    ghost use Rattle.std.specs.Prelude.{ℕ, List};

    ghost Value = { List ℕ };

    ghost use Rattle.sap_terms.specs.Path.{AreDigits};

    ghost view = { λ a. a.digits.items };

    ghost invariant = { λ a. AreDigits a.digits.items };
}

impl Path {
    ghost use Rattle.sap_terms.specs.Path.{AreDigits, IsDigit};

    /// The root's path, which has no digit. It takes no memory.
    pub fn new(alloc: Global) -> Path
        ensures { result ≡ [] }
    {
        Path {
            digits: Vec::new(alloc),
        }
    }

    /// Goes on to the child of this digit; refused, the path is as it was.
    pub fn push(&mut self, digit: u8) -> Result<(), Mem>
        requires { IsDigit digit }
        ensures ok { OnOk result (self.new ≡ self.old ++ digit ∷ []) }
        ensures err { OnErr result (self.new ≡ self.old) }
    {
        self.digits.push(digit)?;
        Ok(())
    }

    /// Goes back to the parent, where there is one.
    pub fn pop(&mut self)
        ensures { self.new ≡ take (length self.old - 1) self.old }
    {
        self.digits.pop();
    }

    /// The number of digits.
    pub fn len(&self) -> u64
        ensures { result ≡ length self.now }
    {
        self.digits.len() as u64
    }

    /// The digit at index k, from 0.
    pub fn get(&self, k: u64) -> Option<&u8>
        ensures { option_copied result ≡ slice_get self.now k }
    {
        self.digits.get(k as usize)
    }

    /// The digits side by side.
    pub fn as_slice(&self) -> &[u8]
        ensures is { result.now ≡ self.now }
        ensures digits { AreDigits result.now }
    {
        self.digits.as_slice()
    }
}

impl Copied for Path {
    fn copy(&self, alloc: Global) -> Result<Path, Mem> {
        let digits = Vec::from_slice(alloc, self.digits.as_slice())?;
        Ok(Path { digits })
    }
}
