// What stands at the heads of threads, the facts, and how many threads and entries there are.
ghost use Rattle.std.specs.Prelude.{◌≡◌, length, IfOk, MatchOption};
ghost use Rattle.sap_facts.specs.Cited.{cited_at};
ghost use Rattle.sap_calc.specs.Running.{configuration};
ghost use Rattle.sap_calc.specs.ThreadHeads.{HasHead, IsNobody};

use crate::Config;
use crate::thread::thread_at;
use crate::under::boxed_under;
use sap_lines::{Form, sorts_are_one};
use sap_sides::built_facts;
use sap_terms::{FactList, Mem, Numbers};
use std::alloc::Global;

impl Config {
    /// What stands at the head of a thread, with its variables replaced by what is bound there; None where no thread that runs
    /// has the number. Terms are not evaluated. Each variable at the head costs a scan of what is bound.
    /// It recurses as deep as the terms at the head.
    pub fn head(&self, alloc: Global, t: u64) -> Result<Option<Box<Form>>, Mem>
        ensures { IfOk result (λ o. MatchOption o (IsNobody (configuration self.now) t) (λ f. HasHead (configuration self.now) t f.value)) }
    {
        sorts_are_one();
        self.table.each_is_ground();
        let Some(th) = thread_at(&self.threads, t) else {
            return Ok(None);
        };
        let place = self.places.at(th.place);
        let form = boxed_under(alloc, &self.table, &th.env, &place.form)?;
        Ok(Some(form))
    }

    /// The facts of embedded rules with these numbers that stand, in order.
    pub fn cited(&self, alloc: Global, numbers: &Numbers) -> Result<FactList, Mem>
        ensures { IfOk result (λ fs. fs ≡ cited_at self.now.facts numbers.now) }
    {
        let cited = self.facts.cited(alloc, numbers)?;
        built_facts(&self.table, alloc, cited.as_slice())
    }

    /// How many threads there ever were, those that have ended among them.
    pub fn thread_count(&self) -> u64
        ensures { result ≡ length self.now.threads }
    {
        self.threads.len() as u64
    }

    /// How many entries the adversary has.
    pub fn entry_count(&self) -> u64
        ensures { result ≡ length self.now.known }
    {
        self.knowledge.len()
    }
}
