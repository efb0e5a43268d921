//! Heads of processes with their variables replaced: a function for each form, over what stands below it.
ghost use Rattle.std.specs.Prelude.{◌≡◌, [], ◌∷◌, ◌++◌, IfOk, OnOk, map};
ghost use Rattle.sap_terms.specs.Choice.{Choice, instance};
ghost use Rattle.sap_terms.specs.Modulo.{instance_fact, instance_facts};
ghost use Rattle.sap_terms.specs.Tree.{Tree};
ghost use Rattle.sap_terms.specs.View.{tree};
ghost use Rattle.sap_terms.specs.declared.var.Var.{Var};
ghost use Rattle.sap_process.specs.Action.{new, event, embedded};
ghost use Rattle.sap_process.specs.Deeds.{on_term, on_terms};
ghost use Rattle.sap_process.specs.code.Headed.{headed, forked};
ghost use Rattle.sap_process.specs.Proc.{proc, nil, parallel, replicated, act, test, lookup};

use crate::Process;
use crate::joining::both;
use sap_terms::{Copied, Fact, FactList, Mem, Term, TermList, Var, boxed};
use std::alloc::Global;

/// What has a term for each variable, and another variable for what `new` binds.
pub trait Replacing {
    ghost choice: { Self → Choice };

    ghost bound: { Self → Var → Var };

    /// The term for the variable. Want of memory is the only error.
    fn at(&self, alloc: Global, x: &Var) -> Result<Term, Mem>
        ensures { IfOk result (λ t. tree t ≡ choice self.now x.now) };

    /// What `new` binds in place of this. Want of memory is the only error.
    fn bound(&self, alloc: Global, x: &Var) -> Result<Var, Mem>
        ensures { IfOk result (λ y. y ≡ bound self.now x.now) };
}

/// What is done with one term; a lock and an unlock have their label.
#[derive(Clone, Copy)]
pub enum Deed {
    Out,
    In,
    Delete,
    Lock(u32),
    Unlock(u32),
}

/// What is done with two terms.
#[derive(Clone, Copy)]
pub enum Transfer {
    Send,
    Recv,
    Insert,
}

/// The term with each of its variables replaced. Want of memory is the only error. It recurses as deep as the term.
#[cycle(replaced_term)]
#[tactic(auto, using(crate::proofs::Instances::instance_laws))]
pub fn replaced_term<R: Replacing>(alloc: Global, r: &R, t: &Term) -> Result<Term, Mem>
    ensures { IfOk result (λ u. tree u ≡ instance (R.choice r.now) (tree t.now)) }
{
    match t {
        Term::Var(x) => r.at(alloc, x),
        Term::Public(n) => Ok(Term::Public(n.copy(alloc)?)),
        Term::Fresh(k) => Ok(Term::Fresh(*k)),
        Term::App(f, ts) => {
            let (f, ts) = both(f.copy(alloc), replaced_terms(alloc, r, ts))?;
            Ok(Term::App(f, ts))
        }
    }
}

/// The same of each of these.
#[cycle(replaced_term)]
#[tactic(auto, using(crate::proofs::Instances::instance_laws))]
pub fn replaced_terms<R: Replacing>(alloc: Global, r: &R, ts: &TermList) -> Result<TermList, Mem>
    ensures { IfOk result (λ us. us ≡ map (instance (R.choice r.now)) ts.now) }
{
    let mut made = TermList::with_room(alloc, ts.len())?;
    for k in 0..ts.len() {
        push_term(&mut made, replaced_term(alloc, r, ts.at(k)))?;
    }
    Ok(made)
}

// Puts the term last, where it is there.
fn push_term(terms: &mut TermList, t: Result<Term, Mem>) -> Result<(), Mem>
    ensures { (u : Tree) → IfOk t (λ v. tree v ≡ u) → OnOk result (terms.new ≡ terms.old ++ u ∷ []) }
{
    terms.push(t?)
}

// The same of two.
fn both_replaced<R: Replacing>(
    alloc: Global,
    r: &R,
    t: &Term,
    u: &Term,
) -> Result<(Term, Term), Mem>
    ensures { IfOk result (λ b. (tree b.0 ≡ instance (R.choice r.now) (tree t.now))
        × (tree b.1 ≡ instance (R.choice r.now) (tree u.now))) }
{
    both(replaced_term(alloc, r, t), replaced_term(alloc, r, u))
}

fn replaced_fact<R: Replacing>(alloc: Global, r: &R, f: &Fact) -> Result<Fact, Mem>
    ensures { IfOk result (λ h. h ≡ instance_fact (R.choice r.now) f.now) }
{
    let (name, args) = both(f.name.copy(alloc), replaced_terms(alloc, r, &f.args))?;
    let persistent = f.persistent;
    Ok(Fact {
        name,
        persistent,
        args,
    })
}

#[tactic(auto, using(crate::proofs::Instances::instance_laws))]
fn replaced_facts<R: Replacing>(alloc: Global, r: &R, fs: &FactList) -> Result<FactList, Mem>
    ensures { IfOk result (λ hs. hs ≡ instance_facts (R.choice r.now) fs.now) }
{
    let mut made = FactList::new(alloc);
    for k in 0..fs.len() {
        made.push(replaced_fact(alloc, r, fs.at(k))?)?;
    }
    Ok(made)
}

// The head of the process, where one process follows it, over this one.
pub(crate) fn over<R: Replacing>(
    alloc: Global,
    r: &R,
    p: &Process,
    below: Box<Process>,
) -> Result<Box<Process>, Mem>
    ensures { IfOk result (λ q. proc q.value ≡ headed (R.choice r.now) (R.bound r.now) (proc p.now) (proc below.value)) }
{
    match p {
        Process::Nil | Process::Par(_, _) | Process::If(_, _, _, _) | Process::Lookup(_, _, _, _) =>
            Ok(below),
        Process::Rep(_) => repeated(alloc, below),
        Process::New(x, _) => creating(alloc, r, x, below),
        Process::Out(t, _) => over_term(alloc, r, Deed::Out, t, below),
        Process::In(t, _) => over_term(alloc, r, Deed::In, t, below),
        Process::Delete(t, _) => over_term(alloc, r, Deed::Delete, t, below),
        Process::Lock(t, n, _) => over_term(alloc, r, Deed::Lock(*n), t, below),
        Process::Unlock(t, n, _) => over_term(alloc, r, Deed::Unlock(*n), t, below),
        Process::Send(t, u, _) => over_terms(alloc, r, Transfer::Send, t, u, below),
        Process::Recv(t, u, _) => over_terms(alloc, r, Transfer::Recv, t, u, below),
        Process::Insert(t, u, _) => over_terms(alloc, r, Transfer::Insert, t, u, below),
        Process::Event(f, _) => showing(alloc, r, f, below),
        Process::Embedded(l, e, s, _) => embedding(alloc, r, l, e, s, below),
    }
}

// The head of a parallel or of a test over these two.
pub(crate) fn over_both<R: Replacing>(
    alloc: Global,
    r: &R,
    p: &Process,
    first: Box<Process>,
    second: Box<Process>,
) -> Result<Box<Process>, Mem>
    ensures { IfOk result (λ q. proc q.value
        ≡ forked (R.choice r.now) (proc p.now) (proc first.value) (proc second.value)) }
{
    match p {
        Process::Par(_, _) => side_by_side(alloc, first, second),
        Process::If(t, u, _, _) => testing(alloc, r, t, u, first, second),
        _ => Ok(first),
    }
}

/// `0`. Want of memory is the only error, of this and of all that follow.
pub fn ended(alloc: Global) -> Result<Box<Process>, Mem>
    ensures { IfOk result (λ q. proc q.value ≡ nil) }
{
    boxed(alloc, Process::Nil)
}

/// `P | Q`
pub fn side_by_side(alloc: Global, p: Box<Process>, q: Box<Process>) -> Result<Box<Process>, Mem>
    ensures { IfOk result (λ made. proc made.value ≡ parallel (proc p.value) (proc q.value)) }
{
    boxed(alloc, Process::Par(p, q))
}

/// `! P`
pub fn repeated(alloc: Global, p: Box<Process>) -> Result<Box<Process>, Mem>
    ensures { IfOk result (λ q. proc q.value ≡ replicated (proc p.value)) }
{
    boxed(alloc, Process::Rep(p))
}

/// `if M = N` with the variables of its terms replaced, over both branches.
pub fn testing<R: Replacing>(
    alloc: Global,
    r: &R,
    t: &Term,
    u: &Term,
    p: Box<Process>,
    q: Box<Process>,
) -> Result<Box<Process>, Mem>
    ensures { IfOk result (λ made. proc made.value ≡ test
        (instance (R.choice r.now) (tree t.now)) (instance (R.choice r.now) (tree u.now))
        (proc p.value) (proc q.value)) }
{
    let (t, u) = both_replaced(alloc, r, t, u)?;
    boxed(alloc, Process::If(t, u, p, q))
}

/// `lookup M as x` with the variables of its term replaced, over both branches.
pub fn looking_up<R: Replacing>(
    alloc: Global,
    r: &R,
    t: &Term,
    x: Var,
    p: Box<Process>,
    q: Box<Process>,
) -> Result<Box<Process>, Mem>
    ensures { IfOk result (λ made. proc made.value ≡ lookup
        (instance (R.choice r.now) (tree t.now)) x (proc p.value) (proc q.value)) }
{
    let t = replaced_term(alloc, r, t)?;
    boxed(alloc, Process::Lookup(t, x, p, q))
}

/// `new` of what is bound in place of this variable, over this process.
pub fn creating<R: Replacing>(
    alloc: Global,
    r: &R,
    x: &Var,
    p: Box<Process>,
) -> Result<Box<Process>, Mem>
    ensures { IfOk result (λ q. proc q.value ≡ act (new (R.bound r.now x.now)) (proc p.value)) }
{
    let x = r.bound(alloc, x)?;
    boxed(alloc, Process::New(x, p))
}

// What is done with this term.
fn with_term(deed: Deed, t: Term, below: Box<Process>) -> Process
    ensures { proc result ≡ act (on_term deed (tree t)) (proc below.value) }
{
    match deed {
        Deed::Out => Process::Out(t, below),
        Deed::In => Process::In(t, below),
        Deed::Delete => Process::Delete(t, below),
        Deed::Lock(n) => Process::Lock(t, n, below),
        Deed::Unlock(n) => Process::Unlock(t, n, below),
    }
}

// What is done with these two.
fn with_terms(transfer: Transfer, t: Term, u: Term, below: Box<Process>) -> Process
    ensures { proc result ≡ act (on_terms transfer (tree t) (tree u)) (proc below.value) }
{
    match transfer {
        Transfer::Send => Process::Send(t, u, below),
        Transfer::Recv => Process::Recv(t, u, below),
        Transfer::Insert => Process::Insert(t, u, below),
    }
}

/// What is done with one term, with its variables replaced, over this process.
pub fn over_term<R: Replacing>(
    alloc: Global,
    r: &R,
    deed: Deed,
    t: &Term,
    below: Box<Process>,
) -> Result<Box<Process>, Mem>
    ensures { IfOk result (λ q. proc q.value
        ≡ act (on_term deed (instance (R.choice r.now) (tree t.now))) (proc below.value)) }
{
    match replaced_term(alloc, r, t) {
        Ok(t) => boxed(alloc, with_term(deed, t, below)),
        Err(e) => {
            drop(below);
            Err(e)
        }
    }
}

/// The same with two.
pub fn over_terms<R: Replacing>(
    alloc: Global,
    r: &R,
    transfer: Transfer,
    t: &Term,
    u: &Term,
    below: Box<Process>,
) -> Result<Box<Process>, Mem>
    ensures { IfOk result (λ q. proc q.value
        ≡ act (on_terms transfer (instance (R.choice r.now) (tree t.now)) (instance (R.choice r.now) (tree u.now)))
        (proc below.value)) }
{
    match both_replaced(alloc, r, t, u) {
        Ok((t, u)) => boxed(alloc, with_terms(transfer, t, u, below)),
        Err(e) => {
            drop(below);
            Err(e)
        }
    }
}

/// The event of the fact, with its variables replaced, over this process.
pub fn showing<R: Replacing>(
    alloc: Global,
    r: &R,
    f: &Fact,
    p: Box<Process>,
) -> Result<Box<Process>, Mem>
    ensures { IfOk result (λ q. proc q.value ≡ act
        (event (instance_fact (R.choice r.now) f.now)) (proc p.value)) }
{
    let f = replaced_fact(alloc, r, f)?;
    boxed(alloc, Process::Event(f, p))
}

/// The embedded rule, with its variables replaced, over this process.
pub fn embedding<R: Replacing>(
    alloc: Global,
    r: &R,
    left: &FactList,
    shown: &FactList,
    right: &FactList,
    p: Box<Process>,
) -> Result<Box<Process>, Mem>
    ensures { IfOk result (λ q. proc q.value ≡ act
        (embedded (instance_facts (R.choice r.now) left.now) (instance_facts (R.choice r.now) shown.now)
        (instance_facts (R.choice r.now) right.now))
        (proc p.value)) }
{
    let left = replaced_facts(alloc, r, left);
    let made = both(
        replaced_facts(alloc, r, shown),
        replaced_facts(alloc, r, right),
    );
    let (left, (shown, right)) = both(left, made)?;
    boxed(alloc, Process::Embedded(left, shown, right, p))
}
