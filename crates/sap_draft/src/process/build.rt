//! Processes made of their parts.
ghost use Rattle.std.specs.Prelude.{◌≡◌, IfOk};
ghost use Rattle.sap_macro.specs.Located.{nil_at, call_at, act_at};
ghost use Rattle.sap_terms.specs.View.{tree};
ghost use Rattle.sap_terms.specs.declared.var.Sort.TheVariants.{Msg};
ghost use Rattle.sap_draft.specs.ProcessGrammar.{var};
ghost use Rattle.sap_draft.specs.code.ProcessReading.{by_test, by_lookup};
ghost use Rattle.sap_draft.specs.code.ProcessView.{chosen};
ghost use Rattle.sap_macro.specs.Sources.{doing, located};

use sap_macro::{Doing, Source};
use sap_terms::{Mem, Name, Sort, Term, TermList, Var, boxed};
use std::alloc::Global;

/// By what a process chooses between two branches.
#[derive(Drop)]
pub enum Branching {
    /// Whether two terms are equal.
    Equality(Term, Term),
    /// Whether the store has something at the key, which the variable then stands for.
    Lookup(Term, Var),
}

/// A process as it is read, and how many levels its text has.
#[derive(Drop)]
pub struct Measured {
    pub source: Box<Source>,
    pub levels: u32,
}

/// The comparison of these terms.
pub fn comparing(alloc: Global, left: Term, right: Term) -> Result<Box<Branching>, Mem>
    ensures { IfOk result (λ p. chosen p.value ≡ by_test (tree left) (tree right)) }
{
    boxed(alloc, Branching::Equality(left, right))
}

/// The lookup of this key, where what is found gets this name.
pub fn looking_up(alloc: Global, key: Term, name: &[u8]) -> Result<Box<Branching>, Mem>
    ensures { IfOk result (λ p. chosen p.value ≡ by_lookup (tree key) (var Msg name.now)) }
{
    match Name::from_bytes(alloc, name) {
        Err(_) => {
            drop(key);
            Err(Mem)
        }
        Ok(name) => {
            let sort = Sort::Msg;
            boxed(alloc, Branching::Lookup(key, Var { name, sort }))
        }
    }
}

/// The use of this process with these arguments; its name has this number.
pub fn call(alloc: Global, at: usize, name: &[u8], arguments: TermList) -> Result<Box<Source>, Mem>
    ensures { IfOk result (λ p. located p.value ≡ call_at at name.now arguments) }
{
    let name = Name::from_bytes(alloc, name)?;
    boxed(alloc, Source::Call(at, name, arguments))
}

/// What does this, whose first word has this number, and nothing behind it.
pub fn acting_last(alloc: Global, at: usize, first: Box<Doing>) -> Result<Box<Source>, Mem>
    ensures { IfOk result (λ p. located p.value ≡ act_at at (doing first.value) (nil_at at)) }
{
    let then = boxed(alloc, Source::Nil(at))?;
    boxed(alloc, Source::Act(at, first, then))
}

/// What chooses between these two; its first word has this number.
pub fn choosing(
    alloc: Global,
    at: usize,
    choice: Box<Branching>,
    yes: Box<Source>,
    no: Box<Source>,
) -> Result<Box<Source>, Mem>
    ensures { IfOk result (λ p. located p.value ≡ chosen choice.value at (located yes.value)
        (located no.value)) }
{
    match Box::into_inner(choice) {
        Branching::Equality(left, right) => boxed(alloc, Source::If(at, left, right, yes, no)),
        Branching::Lookup(key, var) => boxed(alloc, Source::Lookup(at, key, var, yes, no)),
    }
}

/// The same with nothing in the second branch.
pub fn choosing_one(
    alloc: Global,
    at: usize,
    choice: Box<Branching>,
    yes: Box<Source>,
) -> Result<Box<Source>, Mem>
    ensures { IfOk result (λ p. located p.value ≡ chosen choice.value at (located yes.value)
        (nil_at at)) }
{
    let no = boxed(alloc, Source::Nil(at))?;
    choosing(alloc, at, choice, yes, no)
}
