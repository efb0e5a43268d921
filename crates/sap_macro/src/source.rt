//! Processes as they are written, before names are replaced by what they stand for.
use sap_terms::{Fact, FactList, Name, Term, TermList, Var};

/// What a process does before it goes on.
#[derive(Drop)]
pub enum Doing {
    New(Var),
    Out(Term),
    Send(Term, Term),
    In(Term),
    Recv(Term, Term),
    Event(Fact),
    Insert(Term, Term),
    Delete(Term),
    Lock(Term),
    Unlock(Term),
    Embedded(FactList, FactList, FactList),
}

/// A process as it is written. Each form begins with a number: how many words of the item are left from the word that tells its
/// place. That is the first word of the form, of a parallel its sign; what is missing, a `0` that nobody wrote, has the number of
/// the form behind which it is missing. Contracts see it as a plain tree, by `written` of the specs' `Sources`, and with its
/// numbers by `located` there.
#[derive(Drop)]
pub enum Source {
    Nil(usize),
    /// The name of a process, with its arguments.
    Call(usize, Name, TermList),
    Par(usize, Box<Source>, Box<Source>),
    Rep(usize, Box<Source>),
    Act(usize, Box<Doing>, Box<Source>),
    If(usize, Term, Term, Box<Source>, Box<Source>),
    Lookup(usize, Term, Var, Box<Source>, Box<Source>),
}

/// What stands directly below a process as it is written.
pub(crate) enum Below<'a> {
    /// nothing: it is `Nil`
    Nothing,
    /// the name of a process, with its arguments
    Use(&'a Name, &'a TermList),
    /// one process
    One(&'a Source),
    /// a first and a second: both sides of `|`, or both branches
    Two(&'a Source, &'a Source),
}
