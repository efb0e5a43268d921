//! Processes.
ghost use Rattle.std.specs.Prelude.{◌≡◌, min};
ghost use Rattle.sap_process.specs.Proc.{proc, node_count, level_count};
ghost use Rattle.sap_process.specs.Places.{first_child, second_child};
ghost use Rattle.sap_process.specs.Children.{first_of_children, second_of_children, HaveFewerPlaces};

use sap_terms::{Fact, FactList, Term, Var};

/// A process of the applied pi calculus with a global store, locks, and embedded multiset rewrite rules (the calculus of
/// Kremer and Künnemann). Contracts see it as a plain tree, by `proc` of the specs' `Proc`.
///
/// Before sorts are set, a variable has the sort of its sign as it is written, and `Msg` where it has none. Letting a process go
/// recurses as deep as second parts and terms nest.
pub enum Process {
    /// `0`: nothing more.
    Nil,
    /// `P | Q`
    Par(Box<Process>, Box<Process>),
    /// `! P`
    Rep(Box<Process>),
    /// `new x; P`
    New(Var, Box<Process>),
    /// `out(N); P`, to the adversary.
    Out(Term, Box<Process>),
    /// `out(M, N); P`: the message N on the channel M.
    Send(Term, Term, Box<Process>),
    /// `in(N); P`, from the adversary; N is a pattern.
    In(Term, Box<Process>),
    /// `in(M, N); P`: on the channel M, by the pattern N.
    Recv(Term, Term, Box<Process>),
    /// `if M = N then P else Q`
    If(Term, Term, Box<Process>, Box<Process>),
    /// `event F; P`
    Event(Fact, Box<Process>),
    /// `insert M, N; P`: the store has N at the key M.
    Insert(Term, Term, Box<Process>),
    /// `delete M; P`
    Delete(Term, Box<Process>),
    /// `lookup M as x in P else Q`
    Lookup(Term, Var, Box<Process>, Box<Process>),
    /// `lock M; P`. The number is the lock's label, 0 before locks are annotated.
    Lock(Term, u32, Box<Process>),
    /// `unlock M; P`. The number is its lock's label, 0 before locks are annotated.
    Unlock(Term, u32, Box<Process>),
    /// `[ L ] --[ A ]-> [ R ]; P`: the facts that are taken, shown and added.
    Embedded(FactList, FactList, FactList, Box<Process>),
}

impl Drop for Process {
    // Along first continuations it goes in a loop, so that only a second one takes more of the stack.
    fn drop(mut self) {
        loop {
            match self {
                Process::Nil => return,
                Process::Par(first, second) => {
                    drop(second);
                    self = Box::into_inner(first);
                }
                Process::If(left, right, first, second) => {
                    drop((left, right, second));
                    self = Box::into_inner(first);
                }
                Process::Lookup(key, var, first, second) => {
                    drop((key, var, second));
                    self = Box::into_inner(first);
                }
                Process::Rep(next) => self = Box::into_inner(next),
                Process::New(var, next) => {
                    drop(var);
                    self = Box::into_inner(next);
                }
                Process::Event(fact, next) => {
                    drop(fact);
                    self = Box::into_inner(next);
                }
                Process::Out(term, next)
                | Process::In(term, next)
                | Process::Delete(term, next)
                | Process::Lock(term, _, next)
                | Process::Unlock(term, _, next) => {
                    drop(term);
                    self = Box::into_inner(next);
                }
                Process::Send(left, right, next)
                | Process::Recv(left, right, next)
                | Process::Insert(left, right, next) => {
                    drop((left, right));
                    self = Box::into_inner(next);
                }
                Process::Embedded(taken, shown, added, next) => {
                    drop((taken, shown, added));
                    self = Box::into_inner(next);
                }
            }
        }
    }
}

/// What stands directly below a process.
pub enum Children<'a> {
    /// nothing: it is `Nil`
    Nothing,
    /// one process
    One(&'a Process),
    /// a first and a second: both sides of `|`, or both branches
    Two(&'a Process, &'a Process),
}

impl Process {
    /// The processes directly below, in order. It takes no memory. Who walks through a process goes on by this, so that a form
    /// more is told here alone.
    pub fn children(&self) -> Children<'_>
        ensures first { first_of_children result ≡ first_child (proc self.now) }
        ensures second { second_of_children result ≡ second_child (proc self.now) }
        ensures fewer { HaveFewerPlaces (node_count (proc self.now)) result }
    {
        match self {
            Process::Nil => Children::Nothing,
            Process::Par(p, q) | Process::If(_, _, p, q) | Process::Lookup(_, _, p, q) => {
                Children::Two(p, q)
            }
            Process::Rep(p)
            | Process::New(_, p)
            | Process::Out(_, p)
            | Process::Send(_, _, p)
            | Process::In(_, p)
            | Process::Recv(_, _, p)
            | Process::Event(_, p)
            | Process::Insert(_, _, p)
            | Process::Delete(_, p)
            | Process::Lock(_, _, p)
            | Process::Unlock(_, _, p)
            | Process::Embedded(_, _, _, p) => Children::One(p),
        }
    }

    /// The places of the process; from the greatest u64 on, that number. It takes no memory, and recurses as deep as the
    /// process.
    pub fn nodes(&self) -> u64
        ensures { result ≡ min (node_count (proc self.now)) u64.MAX }
    {
        match self.children() {
            Children::Nothing => 1,
            Children::One(p) => p.nodes().saturating_add(1),
            Children::Two(p, q) => p.nodes().saturating_add(q.nodes()).saturating_add(1),
        }
    }

    /// The depth of its tree, 1 for `Nil`; from the greatest u64 on, that number. It takes no memory, and recurses as deep
    /// as the process.
    pub fn levels(&self) -> u64
        ensures { result ≡ min (level_count (proc self.now)) u64.MAX }
    {
        match self.children() {
            Children::Nothing => 1,
            Children::One(p) => p.levels().saturating_add(1),
            Children::Two(p, q) => p.levels().max(q.levels()).saturating_add(1),
        }
    }
}
