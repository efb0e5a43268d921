//! What is left of an open file in memory.
ghost use Rattle.std.specs.Prelude.{◌≡◌, ◌++◌, [], length, min, IfOk, OnErr};

use std::alloc::{AllocError, Global};
use std::marker::Model;

/// The bytes of a file that weren't given yet, which contracts see as the list of them. To give some takes time in their number,
/// however many are left.
#[derive(Drop)]
pub struct Rest {
    bytes: Vec<u8>,
    // How many of them were given.
    given: usize,
}

impl Model for Rest {
    ghost use Rattle.std.specs.Prelude.{◌≤◌, ℕ, List, drop, length};

    ghost Value = { List ℕ };

    ghost view = { λ r. drop r.given r.bytes.items };

    ghost invariant = { λ r. r.given ≤ length r.bytes.items };
}

impl Rest {
    /// No bytes. It takes no memory.
    pub fn new(alloc: Global) -> Rest
        ensures { result ≡ [] }
    {
        Rest {
            bytes: Vec::new(alloc),
            given: 0,
        }
    }

    // All of these bytes.
    pub(crate) fn of(bytes: Vec<u8>) -> Rest
        ensures { result ≡ bytes.items }
    {
        Rest { bytes, given: 0 }
    }

    // Loses all bytes.
    pub(crate) fn clear(&mut self)
        ensures { self.new ≡ [] }
    {
        self.bytes.clear();
        self.given = 0;
    }

    // The first bytes, `most` at most, which it loses.
    pub(crate) fn cut(&mut self, alloc: Global, most: u64) -> Result<Vec<u8>, AllocError>
        ensures length { IfOk result (λ v. length v.items ≡ min most (length self.old)) }
        ensures parts { IfOk result (λ v. self.old ≡ v.items ++ self.new) }
        ensures mem { OnErr result (self.new ≡ self.old) }
    {
        let left = &self.bytes[self.given..];
        let count = most.min(left.len() as u64) as usize;
        let part = left[..count].to_vec(alloc)?;
        self.given += count;
        Ok(part)
    }
}
