// What stands at the head of a process.
ghost use Rattle.std.specs.Prelude.{◌≡◌, ℕ, List, true, false, IfOk, MatchOption};
ghost use Rattle.sap_terms.specs.declared.binding.Binding.{Binding};
ghost use Rattle.sap_process.specs.Proc.{Proc, proc};
ghost use Rattle.sap_runs.specs.declared.process_step.PStep.TheVariants.{Nil as NilLine, Par as ParLine, Rep as RepLine, New as NewLine, Out as OutLine, Send as SendLine, In as InLine, Event as EventLine, Then as ThenLine, Else as ElseLine, Found as FoundLine, Missing as MissingLine, Insert as InsertLine, Delete as DeleteLine, Lock as LockLine, Unlock as UnlockLine, Embedded as EmbeddedLine};
ghost use Rattle.sap_lines.specs.Faults.{has_form, is_send, is_receive};
ghost use Rattle.sap_lines.specs.Heads.{Lacks};
ghost use Rattle.sap_lines.specs.Places.{form_proc, with_children};

use sap_process::Process;
use sap_terms::{Copied, Fact, FactList, Mem, Term, Var};
use std::alloc::Global;

/// A process without what it goes on as.
#[derive(Drop)]
pub enum Form {
    Nil,
    Par,
    Rep,
    New(Var),
    Out(Term),
    Send(Term, Term),
    In(Term),
    Recv(Term, Term),
    If(Term, Term),
    Event(Fact),
    Insert(Term, Term),
    Delete(Term),
    Lookup(Term, Var),
    Lock(Term, u32),
    Unlock(Term, u32),
    Embedded(FactList, FactList, FactList),
}

// Two copies.
fn two<T: Copied + Drop, U: Copied + Drop>(alloc: Global, x: &T, y: &U) -> Result<(T, U), Mem>
    ensures { IfOk result (λ r. (r.0 ≡ x.now) × (r.1 ≡ y.now)) }
{
    match x.copy(alloc) {
        Err(mem) => Err(mem),
        Ok(x) => match y.copy(alloc) {
            Err(mem) => {
                drop(x);
                Err(mem)
            }
            Ok(y) => Ok((x, y)),
        },
    }
}

// The three sides of a rule.
fn sides(
    alloc: Global,
    l: &FactList,
    e: &FactList,
    r: &FactList,
) -> Result<(FactList, FactList, FactList), Mem>
    ensures { IfOk result (λ s. (s.0 ≡ l.now) × (s.1 ≡ e.now) × (s.2 ≡ r.now)) }
{
    let l = l.copy(alloc)?;
    let e = e.copy(alloc)?;
    Ok((l, e, r.copy(alloc)?))
}

/// The form of a process. Want of memory is the only error. It recurses as deep as the process.
pub fn form_of(alloc: Global, p: &Process) -> Result<Form, Mem>
    ensures { IfOk result (λ f. (q r : Proc) → form_proc f q r ≡ with_children (proc p.now) q r) }
{
    match p {
        Process::Nil => Ok(Form::Nil),
        Process::Par(_, _) => Ok(Form::Par),
        Process::Rep(_) => Ok(Form::Rep),
        Process::New(x, _) => Ok(Form::New(x.copy(alloc)?)),
        Process::Out(t, _) => Ok(Form::Out(t.copy(alloc)?)),
        Process::Send(t, u, _) => {
            let (t, u) = two(alloc, t, u)?;
            Ok(Form::Send(t, u))
        }
        Process::In(t, _) => Ok(Form::In(t.copy(alloc)?)),
        Process::Recv(t, u, _) => {
            let (t, u) = two(alloc, t, u)?;
            Ok(Form::Recv(t, u))
        }
        Process::If(t, u, _, _) => {
            let (t, u) = two(alloc, t, u)?;
            Ok(Form::If(t, u))
        }
        Process::Event(f, _) => Ok(Form::Event(f.copy(alloc)?)),
        Process::Insert(t, u, _) => {
            let (t, u) = two(alloc, t, u)?;
            Ok(Form::Insert(t, u))
        }
        Process::Delete(t, _) => Ok(Form::Delete(t.copy(alloc)?)),
        Process::Lookup(t, x, _, _) => {
            let (t, x) = two(alloc, t, x)?;
            Ok(Form::Lookup(t, x))
        }
        Process::Lock(t, n, _) => Ok(Form::Lock(t.copy(alloc)?, *n)),
        Process::Unlock(t, n, _) => Ok(Form::Unlock(t.copy(alloc)?, *n)),
        Process::Embedded(l, e, r, _) => {
            let (l, e, r) = sides(alloc, l, e, r)?;
            Ok(Form::Embedded(l, e, r))
        }
    }
}

impl Form {
    /// Whether nothing is there.
    pub fn is_nil(&self) -> bool
        ensures yes { result ≡ true → self.now ≡ Form.Nil }
        ensures not { result ≡ false → (t : ℕ) → Lacks (has_form (NilLine t)) self.now }
    {
        match self {
            Form::Nil => true,
            _ => false,
        }
    }

    /// Whether it is a parallel.
    pub fn is_par(&self) -> bool
        ensures yes { result ≡ true → self.now ≡ Form.Par }
        ensures not { result ≡ false → (t : ℕ) → Lacks (has_form (ParLine t)) self.now }
    {
        match self {
            Form::Par => true,
            _ => false,
        }
    }

    /// Whether it is a replication.
    pub fn is_rep(&self) -> bool
        ensures yes { result ≡ true → self.now ≡ Form.Rep }
        ensures not { result ≡ false → (t : ℕ) → Lacks (has_form (RepLine t)) self.now }
    {
        match self {
            Form::Rep => true,
            _ => false,
        }
    }

    /// The variable that a name is made for.
    pub fn creation(&self) -> Option<&Var>
        ensures { MatchOption result ((t n : ℕ) → Lacks (has_form (NewLine t n)) self.now) (λ x. self.now ≡ Form.New x.now) }
    {
        match self {
            Form::New(x) => Some(x),
            _ => None,
        }
    }

    /// The channel, and what is sent on it.
    pub fn sending(&self) -> Option<(&Term, &Term)>
        ensures { MatchOption result (((t k : ℕ) → Lacks (has_form (SendLine t k)) self.now) × Lacks is_send self.now) (λ m. self.now ≡ Form.Send m.0.now m.1.now) }
    {
        match self {
            Form::Send(m, n) => Some((m, n)),
            _ => None,
        }
    }

    /// The fact that is shown.
    pub fn event(&self) -> Option<&Fact>
        ensures { MatchOption result ((t : ℕ) → Lacks (has_form (EventLine t)) self.now) (λ f. self.now ≡ Form.Event f.now) }
    {
        match self {
            Form::Event(f) => Some(f),
            _ => None,
        }
    }

    /// The channel, if there is one, and the pattern of what is taken.
    pub fn taking(&self) -> Option<(Option<&Term>, &Term)>
        ensures { MatchOption result ((t k : ℕ) → Lacks (has_form (InLine t k)) self.now) (λ r. MatchOption r.0 (self.now ≡ Form.In r.1.now) (λ m. self.now ≡ Form.Recv m.now r.1.now)) }
    {
        match self {
            Form::In(n) => Some((None, n)),
            Form::Recv(m, n) => Some((Some(m), n)),
            _ => None,
        }
    }

    /// The channel and the pattern of what is taken there.
    pub fn receiving(&self) -> Option<(&Term, &Term)>
        ensures { MatchOption result (Lacks is_receive self.now) (λ m. self.now ≡ Form.Recv m.0.now m.1.now) }
    {
        match self {
            Form::Recv(m, n) => Some((m, n)),
            _ => None,
        }
    }

    /// What is sent to the adversary.
    pub fn output(&self) -> Option<&Term>
        ensures { MatchOption result ((t : ℕ) → Lacks (has_form (OutLine t)) self.now) (λ m. self.now ≡ Form.Out m.now) }
    {
        match self {
            Form::Out(m) => Some(m),
            _ => None,
        }
    }

    /// The terms that are compared.
    pub fn test(&self) -> Option<(&Term, &Term)>
        ensures { MatchOption result (((t : ℕ) → Lacks (has_form (ThenLine t)) self.now) × ((t : ℕ) → Lacks (has_form (ElseLine t)) self.now)) (λ m. self.now ≡ Form.If m.0.now m.1.now) }
    {
        match self {
            Form::If(m, n) => Some((m, n)),
            _ => None,
        }
    }

    /// The key and the value that is put there.
    pub fn insertion(&self) -> Option<(&Term, &Term)>
        ensures { MatchOption result (((t : ℕ) → Lacks (has_form (InsertLine t)) self.now)) (λ m. self.now ≡ Form.Insert m.0.now m.1.now) }
    {
        match self {
            Form::Insert(m, n) => Some((m, n)),
            _ => None,
        }
    }

    /// The key that is cleared.
    pub fn deletion(&self) -> Option<&Term>
        ensures { MatchOption result (((t : ℕ) → Lacks (has_form (DeleteLine t)) self.now)) (λ m. self.now ≡ Form.Delete m.now) }
    {
        match self {
            Form::Delete(m) => Some(m),
            _ => None,
        }
    }

    /// The key that is looked up, and what is bound where it is set.
    pub fn lookup(&self) -> Option<(&Term, &Var)>
        ensures { MatchOption result (((t : ℕ) → Lacks (has_form (FoundLine t)) self.now) × ((t : ℕ) → Lacks (has_form (MissingLine t)) self.now)) (λ m. self.now ≡ Form.Lookup m.0.now m.1.now) }
    {
        match self {
            Form::Lookup(m, x) => Some((m, x)),
            _ => None,
        }
    }

    /// The term that is locked, and the label.
    pub fn locking(&self) -> Option<(&Term, u32)>
        ensures { MatchOption result (((t : ℕ) → Lacks (has_form (LockLine t)) self.now)) (λ m. self.now ≡ Form.Lock m.0.now m.1) }
    {
        match self {
            Form::Lock(m, n) => Some((m, *n)),
            _ => None,
        }
    }

    /// The term that is unlocked, and the label.
    pub fn unlocking(&self) -> Option<(&Term, u32)>
        ensures { MatchOption result (((t : ℕ) → Lacks (has_form (UnlockLine t)) self.now)) (λ m. self.now ≡ Form.Unlock m.0.now m.1) }
    {
        match self {
            Form::Unlock(m, n) => Some((m, *n)),
            _ => None,
        }
    }

    /// The three sides of an embedded rule: left, acts and right.
    pub fn rule(&self) -> Option<(&FactList, &FactList, &FactList)>
        ensures { MatchOption result ((t : ℕ) (ks : List ℕ) (b : List Binding) → Lacks (has_form (EmbeddedLine t ks b)) self.now) (λ s. self.now ≡ Form.Embedded s.0.now s.1.now s.2.now) }
    {
        match self {
            Form::Embedded(l, e, r) => Some((l, e, r)),
            _ => None,
        }
    }
}
