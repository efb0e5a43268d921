//! A walk over words of a file, with what is open behind them.
ghost use Rattle.std.specs.Prelude.{◌≡◌, [], IfOk};
ghost use Rattle.sap_expect.specs.FileTable.{file};
ghost use Rattle.sap_expect.specs.code.SeenWords.{seen};
ghost use Rattle.sap_expect.specs.code.WantedView.{stacked};
ghost use Rattle.sap_expect.specs.code.Ways.{Passed};

use crate::open_marks::{OpenMark, pass};
use crate::seen::Seen;
use crate::walk::{Attempt, Walk};
use sap_terms::Mem;
use std::alloc::Global;

// What is wanted behind some words, what is open there, and a word that is tried.
#[derive(Drop)]
pub(crate) struct Way {
    pub(crate) walk: Walk,
    pub(crate) marks: Vec<OpenMark>,
    attempt: Attempt,
}

impl Way {
    // At the first word of a file.
    pub(crate) fn new(alloc: Global) -> Result<Way, Mem>
        ensures { IfOk result (λ v. (v.walk.levels ≡ 0) × (stacked v.walk.stack.items ≡ file) × (v.marks.items ≡ [])) }
    {
        let walk = Walk::new(alloc)?;
        Ok(Way {
            walk,
            marks: Vec::new(alloc),
            attempt: Attempt::new(alloc),
        })
    }

    // Goes past the word, before which so many stand, if it may stand there, and else nowhere.
    pub(crate) fn pass(&mut self, word: Seen<'_>, k: usize) -> Result<bool, Mem>
        ensures { IfOk result (λ b. Passed (seen word.entry) k self.old self.new b) }
    {
        if !self.attempt.goes(&self.walk, word, None)? {
            return Ok(false);
        }
        self.walk.follow(&self.attempt)?;
        pass(&mut self.marks, word, k)?;
        Ok(true)
    }
}
