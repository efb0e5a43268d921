//! What lines do, found from what was kept of them.
ghost use Rattle.std.specs.Prelude.{◌≡◌, [], IfOk, IfSome, IfNone, MatchOption};
ghost use Rattle.sap_rewrite.specs.Match.{IsOnlyMatch, HasNoMatch};
ghost use Rattle.sap_terms.specs.Equations.{equations, app2, pair_name};
ghost use Rattle.sap_terms.specs.Normal.{IsNormalForm};
ghost use Rattle.sap_terms.specs.Tree.{Tree};
ghost use Rattle.sap_terms.specs.View.{tree};
ghost use Rattle.sap_teller.specs.code.Heads.{form_of, IsCompared, IsDeleted, IsFitted, IsInserted, IsLocked, IsLooked, IsMade, IsMetBy, IsShownBy, IsTakenBy, IsUnlocked, IsUsedBy, together};
ghost use Rattle.sap_teller.specs.declared.doing.Doing.TheVariants as does;

use crate::doing::{Doing, two};
use crate::said::Two;
use sap_heads::terms_of_facts;
use sap_lines::Form;
use sap_rewrite::{match_pattern, normal};
use sap_terms::{
    Bindings, Copied, FactList, Mem, Name, Signature, Term, boxed, destructors_head_left_sides,
    leaves_are_normal,
};
use std::alloc::Global;

// What stands for a line that isn't possible.
pub(crate) fn nothing<'a>(alloc: Global) -> Result<Box<Doing<'a>>, Mem> {
    boxed(alloc, Doing::Nothing)
}

// The normal form of a term, which it is itself where no destructor stands in it.
fn evaluated(alloc: Global, sig: &Signature, m: &Term) -> Result<Term, Mem>
    ensures { IfOk result (λ r. IsNormalForm (equations sig.now) (tree m.now) (tree r)) }
{
    leaves_are_normal();
    destructors_head_left_sides();
    if sig.has_destructor(m) {
        normal(alloc, sig, m)
    } else {
        m.copy(alloc)
    }
}

// The normal forms of two terms.
fn two_forms(alloc: Global, sig: &Signature, m: &Term, n: &Term) -> Result<(Term, Term), Mem>
    ensures first { IfOk result (λ r. IsNormalForm (equations sig.now) (tree m.now) (tree r.0)) }
    ensures second { IfOk result (λ r. IsNormalForm (equations sig.now) (tree n.now) (tree r.1)) }
{
    let first = evaluated(alloc, sig, m)?;
    match evaluated(alloc, sig, n) {
        Ok(second) => Ok((first, second)),
        Err(fault) => {
            drop(first);
            Err(fault)
        }
    }
}

// A name is made for the variable at the head.
pub(crate) fn made<'a>(alloc: Global, n: u64, form: Option<&'a Form>) -> Result<Box<Doing<'a>>, Mem>
    ensures { IfOk result (λ x. IsMade n (form_of form.entry) x.value) }
{
    match form {
        Some(Form::New(v)) => boxed(alloc, Doing::Makes(v, n)),
        _ => nothing(alloc),
    }
}

// The terms at the head are compared, and are one or aren't.
pub(crate) fn compared<'a>(
    alloc: Global,
    sig: &Signature,
    form: Option<&'a Form>,
    same: bool,
) -> Result<Box<Doing<'a>>, Mem>
    ensures { IfOk result (λ x. IsCompared (equations sig.now) same (form_of form.entry) x.value) }
{
    match form {
        Some(Form::If(m, n)) => {
            let (a, b) = two_forms(alloc, sig, m, n)?;
            boxed(alloc, Doing::Compares(two(m, n), a, b, same))
        }
        _ => nothing(alloc),
    }
}

// The value at the head is stored at the key.
pub(crate) fn inserted<'a>(
    alloc: Global,
    sig: &Signature,
    form: Option<&'a Form>,
) -> Result<Box<Doing<'a>>, Mem>
    ensures { IfOk result (λ x. IsInserted (equations sig.now) (form_of form.entry) x.value) }
{
    match form {
        Some(Form::Insert(m, n)) => {
            let (a, b) = two_forms(alloc, sig, m, n)?;
            boxed(alloc, Doing::Inserts(two(m, n), a, b))
        }
        _ => nothing(alloc),
    }
}

// The key at the head is cleared.
pub(crate) fn deleted<'a>(
    alloc: Global,
    sig: &Signature,
    form: Option<&'a Form>,
) -> Result<Box<Doing<'a>>, Mem>
    ensures { IfOk result (λ x. IsDeleted (equations sig.now) (form_of form.entry) x.value) }
{
    match form {
        Some(Form::Delete(m)) => boxed(alloc, Doing::Deletes(m, evaluated(alloc, sig, m)?)),
        _ => nothing(alloc),
    }
}

// The key at the head is looked up, and this is found.
pub(crate) fn looked<'a>(
    alloc: Global,
    sig: &Signature,
    form: Option<&'a Form>,
    found: Option<&'a Term>,
) -> Result<Box<Doing<'a>>, Mem>
    ensures { IfOk result (λ x. IsLooked (equations sig.now) found.entry (form_of form.entry) x.value) }
{
    match form {
        Some(Form::Lookup(m, v)) => {
            let key = evaluated(alloc, sig, m)?;
            boxed(alloc, Doing::Looks(m, key, v, found))
        }
        _ => nothing(alloc),
    }
}

// The term at the head is locked.
pub(crate) fn locked<'a>(
    alloc: Global,
    sig: &Signature,
    form: Option<&'a Form>,
) -> Result<Box<Doing<'a>>, Mem>
    ensures { IfOk result (λ x. IsLocked (equations sig.now) (form_of form.entry) x.value) }
{
    match form {
        Some(Form::Lock(m, _)) => boxed(alloc, Doing::Holds(m, evaluated(alloc, sig, m)?, true)),
        _ => nothing(alloc),
    }
}

// It is unlocked.
pub(crate) fn unlocked<'a>(
    alloc: Global,
    sig: &Signature,
    form: Option<&'a Form>,
) -> Result<Box<Doing<'a>>, Mem>
    ensures { IfOk result (λ x. IsUnlocked (equations sig.now) (form_of form.entry) x.value) }
{
    match form {
        Some(Form::Unlock(m, _)) => boxed(alloc, Doing::Holds(m, evaluated(alloc, sig, m)?, false)),
        _ => nothing(alloc),
    }
}

// What a pattern binds by a term, if the term fits it.
fn bound_to(alloc: Global, p: &Term, t: &Term) -> Result<Option<Bindings>, Mem>
    ensures { IfOk result (λ o. MatchOption o (HasNoMatch (tree p.now) (tree t.now) []) (λ b. IsOnlyMatch (tree p.now) (tree t.now) [] b)) }
{
    match_pattern(alloc, p, t, &Bindings::new(alloc))
}

// An entry is taken, of which this part fits the pattern: the entry itself, or the second part of a pair.
fn taken_part<'a>(
    alloc: Global,
    n: &Term,
    x: &'a Term,
    part: &Term,
    is_pair: bool,
) -> Result<Box<Doing<'a>>, Mem>
    ensures { IfOk result (λ r. IsFitted (tree n.now) (tree part.now) (does.Takes x.entry is_pair) r.value) }
{
    match bound_to(alloc, n, part)? {
        None => nothing(alloc),
        Some(b) => boxed(alloc, Doing::Takes(x, is_pair, b)),
    }
}

// The second part of a pair.
fn second_of(x: &Term) -> Option<&Term>
    ensures some { IfSome result (λ b. (a : Tree) × (tree x.now ≡ app2 pair_name a (tree b.now))) }
    ensures none { IfNone result ((a b : Tree) → tree x.now ≡ app2 pair_name a b → ⊥) }
{
    match x {
        Term::App(f, args) => if f.is(b"pair") && args.len() == 2 {
            Some(args.at(1))
        } else {
            None
        },
        _ => None,
    }
}

// An entry is taken, and this is what it binds.
pub(crate) fn taken<'a>(
    alloc: Global,
    form: Option<&Form>,
    x: &'a Term,
) -> Result<Box<Doing<'a>>, Mem>
    ensures { IfOk result (λ r. IsTakenBy x.entry (form_of form.entry) r.value) }
{
    match form {
        Some(Form::In(n)) => taken_part(alloc, n, x, x, false),
        Some(Form::Recv(_, n)) => match second_of(x) {
            None => nothing(alloc),
            Some(second) => taken_part(alloc, n, x, second, true),
        },
        _ => nothing(alloc),
    }
}

// What is sent, behind its channel, and what binds who takes it by the pattern.
fn met_by<'a>(
    alloc: Global,
    p: &Term,
    stands: Two<'a>,
    sent: Box<(Term, Term)>,
) -> Result<Box<Doing<'a>>, Mem>
    ensures { IfOk result (λ r. IsFitted (tree p.now) (tree sent.value.1) (does.Meets stands.entry sent.value.0 sent.value.1) r.value) }
{
    match bound_to(alloc, p, &sent.1)? {
        None => nothing(alloc),
        Some(b) => {
            let (channel, message) = Box::into_inner(sent);
            boxed(alloc, Doing::Meets(stands, channel, message, b))
        }
    }
}

// One thread sends to another.
pub(crate) fn met<'a>(
    alloc: Global,
    sig: &Signature,
    sender: Option<&'a Form>,
    form: Option<&Form>,
) -> Result<Box<Doing<'a>>, Mem>
    ensures { IfOk result (λ r. IsMetBy (equations sig.now) (form_of sender.entry) (form_of form.entry) r.value) }
{
    match sender {
        Some(Form::Send(m, n)) => match form {
            Some(Form::Recv(_, p)) => {
                let sent = boxed(alloc, two_forms(alloc, sig, m, n)?)?;
                met_by(alloc, p, two(m, n), sent)
            }
            _ => nothing(alloc),
        },
        _ => nothing(alloc),
    }
}

// An event is shown.
pub(crate) fn shown<'a>(alloc: Global, form: Option<&'a Form>) -> Result<Box<Doing<'a>>, Mem>
    ensures { IfOk result (λ x. IsShownBy (form_of form.entry) x.value) }
{
    match form {
        Some(Form::Event(f)) => boxed(alloc, Doing::Shows(f)),
        _ => nothing(alloc),
    }
}

// The arguments of facts, as one term.
fn term_of(alloc: Global, fs: &FactList) -> Result<Box<Term>, Mem>
    ensures { IfOk result (λ t. tree t.value ≡ together fs.now) }
{
    let args = terms_of_facts(alloc, fs)?;
    let name = Name::from_bytes(alloc, b"")?;
    boxed(alloc, Term::App(name, args))
}

// What the left side of a rule binds by the facts that are cited.
fn bound_by(alloc: Global, l: &FactList, left: &FactList) -> Result<Option<Bindings>, Mem>
    ensures { IfOk result (λ o. MatchOption o (HasNoMatch (together l.now) (together left.now) [])
        (λ b. IsOnlyMatch (together l.now) (together left.now) [] b)) }
{
    let pattern = term_of(alloc, l)?;
    let term = term_of(alloc, left)?;
    bound_to(alloc, &*pattern, &*term)
}

// A rule is used on the facts that are cited, adds these, and leaves variables open that stand for these terms.
pub(crate) fn used<'a>(
    alloc: Global,
    form: Option<&Form>,
    left: &'a FactList,
    right: FactList,
    chosen: &'a Bindings,
) -> Result<Box<Doing<'a>>, Mem>
    ensures { IfOk result (λ r. IsUsedBy left.entry right chosen.entry (form_of form.entry) r.value) }
{
    match form {
        Some(Form::Embedded(l, _, _)) => match bound_by(alloc, l, left)? {
            None => nothing(alloc),
            Some(b) => boxed(alloc, Doing::Uses(left, right, b, chosen)),
        },
        _ => nothing(alloc),
    }
}
