// Forms with their variables replaced by what is bound.
ghost use Rattle.std.specs.Prelude.{◌≡◌, length, map, IfOk};
ghost use Rattle.sap_terms.specs.Choice.{instance};
ghost use Rattle.sap_terms.specs.Modulo.{instance_fact, instance_facts};
ghost use Rattle.sap_terms.specs.View.{tree};
ghost use Rattle.sap_share.specs.Env.{AreBound, given};
ghost use Rattle.sap_calc.specs.code.Under.{IsFormUnder};

use sap_lines::Form;
use sap_share::{Env, Table};
use sap_terms::{Copied, Fact, FactList, Mem, Term, TermList, Var};
use std::alloc::Global;

// The term of the first number that is bound to the variable's name, and the variable itself where there is none.
fn given_term(alloc: Global, table: &Table, env: &Env, v: &Var) -> Result<Term, Mem>
    requires { AreBound (length table.now.trees) env.now }
    ensures { IfOk result (λ r. tree r ≡ given table.now.trees env.now v.now) }
{
    for k in 0..env.len() {
        let bound = env.at(k);
        if bound.var.name.same(&v.name) {
            return table.tree(alloc, bound.id);
        }
    }
    Ok(Term::Var(v.copy(alloc)?))
}

// A term with its variables replaced.
#[cycle(term_under)]
#[tactic(auto, using(crate::proofs::Replaced::instances_listed))]
fn term_under(alloc: Global, table: &Table, env: &Env, t: &Term) -> Result<Term, Mem>
    requires { AreBound (length table.now.trees) env.now }
    ensures { IfOk result (λ r. tree r ≡ instance (given table.now.trees env.now) (tree t.now)) }
{
    match t {
        Term::Var(v) => given_term(alloc, table, env, v),
        Term::Public(n) => match n.copy(alloc) {
            Err(mem) => Err(mem),
            Ok(n) => Ok(Term::Public(n)),
        },
        Term::Fresh(k) => Ok(Term::Fresh(*k)),
        Term::App(f, ts) => match terms_under(alloc, table, env, ts) {
            Err(mem) => Err(mem),
            Ok(ts) => match f.copy(alloc) {
                Err(mem) => {
                    drop(ts);
                    Err(mem)
                }
                Ok(f) => Ok(Term::App(f, ts)),
            },
        },
    }
}

// Terms with their variables replaced.
#[cycle(term_under)]
fn terms_under(alloc: Global, table: &Table, env: &Env, ts: &TermList) -> Result<TermList, Mem>
    requires { AreBound (length table.now.trees) env.now }
    ensures { IfOk result (λ us. us ≡ map (instance (given table.now.trees env.now)) ts.now) }
{
    let mut made = TermList::with_room(alloc, ts.len())?;
    for k in 0..ts.len() {
        match term_under(alloc, table, env, ts.at(k)) {
            Err(mem) => {
                drop(made);
                return Err(mem);
            }
            Ok(t) => made.push(t)?,
        }
    }
    Ok(made)
}

// A fact.
fn fact_under(alloc: Global, table: &Table, env: &Env, f: &Fact) -> Result<Fact, Mem>
    requires { AreBound (length table.now.trees) env.now }
    ensures { IfOk result (λ h. h ≡ instance_fact (given table.now.trees env.now) f.now) }
{
    match terms_under(alloc, table, env, &f.args) {
        Err(mem) => Err(mem),
        Ok(args) => match f.name.copy(alloc) {
            Err(mem) => {
                drop(args);
                Err(mem)
            }
            Ok(name) => Ok(Fact {
                name,
                persistent: f.persistent,
                args,
            }),
        },
    }
}

// Facts.
fn facts_under(alloc: Global, table: &Table, env: &Env, fs: &FactList) -> Result<FactList, Mem>
    requires { AreBound (length table.now.trees) env.now }
    ensures { IfOk result (λ hs. hs ≡ instance_facts (given table.now.trees env.now) fs.now) }
{
    let mut made = FactList::new(alloc);
    for k in 0..fs.len() {
        match fact_under(alloc, table, env, fs.at(k)) {
            Err(mem) => {
                drop(made);
                return Err(mem);
            }
            Ok(f) => made.push(f)?,
        }
    }
    Ok(made)
}

// Two terms.
fn two_under(
    alloc: Global,
    table: &Table,
    env: &Env,
    t: &Term,
    u: &Term,
) -> Result<(Term, Term), Mem>
    requires { AreBound (length table.now.trees) env.now }
    ensures { IfOk result (λ r. (tree r.0 ≡ instance (given table.now.trees env.now) (tree t.now)) × (tree r.1 ≡ instance (given table.now.trees env.now) (tree u.now))) }
{
    match term_under(alloc, table, env, t) {
        Err(mem) => Err(mem),
        Ok(first) => match term_under(alloc, table, env, u) {
            Err(mem) => {
                drop(first);
                Err(mem)
            }
            Ok(second) => Ok((first, second)),
        },
    }
}

// A term, and the variable beside it as it is.
fn looked_under(
    alloc: Global,
    table: &Table,
    env: &Env,
    t: &Term,
    x: &Var,
) -> Result<(Term, Var), Mem>
    requires { AreBound (length table.now.trees) env.now }
    ensures { IfOk result (λ r. (tree r.0 ≡ instance (given table.now.trees env.now) (tree t.now)) × (r.1 ≡ x.now)) }
{
    match term_under(alloc, table, env, t) {
        Err(mem) => Err(mem),
        Ok(term) => match x.copy(alloc) {
            Err(mem) => {
                drop(term);
                Err(mem)
            }
            Ok(var) => Ok((term, var)),
        },
    }
}

// The three sides of a rule.
fn sides_under(
    alloc: Global,
    table: &Table,
    env: &Env,
    l: &FactList,
    e: &FactList,
    r: &FactList,
) -> Result<(FactList, FactList, FactList), Mem>
    requires { AreBound (length table.now.trees) env.now }
    ensures { IfOk result (λ s. (s.0 ≡ instance_facts (given table.now.trees env.now) l.now) × (s.1 ≡ instance_facts (given table.now.trees env.now) e.now) × (s.2 ≡ instance_facts (given table.now.trees env.now) r.now)) }
{
    match facts_under(alloc, table, env, l) {
        Err(mem) => Err(mem),
        Ok(left) => match facts_under(alloc, table, env, e) {
            Err(mem) => {
                drop(left);
                Err(mem)
            }
            Ok(acts) => match facts_under(alloc, table, env, r) {
                Err(mem) => {
                    drop((left, acts));
                    Err(mem)
                }
                Ok(right) => Ok((left, acts, right)),
            },
        },
    }
}

// A form with its variables replaced.
fn form_under(alloc: Global, table: &Table, env: &Env, form: &Form) -> Result<Form, Mem>
    requires { AreBound (length table.now.trees) env.now }
    ensures { IfOk result (IsFormUnder (given table.now.trees env.now) form.now) }
{
    match form {
        Form::Nil => Ok(Form::Nil),
        Form::Par => Ok(Form::Par),
        Form::Rep => Ok(Form::Rep),
        Form::New(x) => Ok(Form::New(x.copy(alloc)?)),
        Form::Out(t) => Ok(Form::Out(term_under(alloc, table, env, t)?)),
        Form::Send(t, u) => {
            let (t, u) = two_under(alloc, table, env, t, u)?;
            Ok(Form::Send(t, u))
        }
        Form::In(t) => Ok(Form::In(term_under(alloc, table, env, t)?)),
        Form::Recv(t, u) => {
            let (t, u) = two_under(alloc, table, env, t, u)?;
            Ok(Form::Recv(t, u))
        }
        Form::If(t, u) => {
            let (t, u) = two_under(alloc, table, env, t, u)?;
            Ok(Form::If(t, u))
        }
        Form::Event(f) => Ok(Form::Event(fact_under(alloc, table, env, f)?)),
        Form::Insert(t, u) => {
            let (t, u) = two_under(alloc, table, env, t, u)?;
            Ok(Form::Insert(t, u))
        }
        Form::Delete(t) => Ok(Form::Delete(term_under(alloc, table, env, t)?)),
        Form::Lookup(t, x) => {
            let (t, x) = looked_under(alloc, table, env, t, x)?;
            Ok(Form::Lookup(t, x))
        }
        Form::Lock(t, n) => Ok(Form::Lock(term_under(alloc, table, env, t)?, *n)),
        Form::Unlock(t, n) => Ok(Form::Unlock(term_under(alloc, table, env, t)?, *n)),
        Form::Embedded(l, e, r) => {
            let (l, e, r) = sides_under(alloc, table, env, l, e, r)?;
            Ok(Form::Embedded(l, e, r))
        }
    }
}

/// The form with its variables replaced by what is bound, in a box.
pub(crate) fn boxed_under(
    alloc: Global,
    table: &Table,
    env: &Env,
    form: &Form,
) -> Result<Box<Form>, Mem>
    requires { AreBound (length table.now.trees) env.now }
    ensures { IfOk result (λ f. IsFormUnder (given table.now.trees env.now) form.now f.value) }
{
    Ok(Box::new(alloc, form_under(alloc, table, env, form)?)?)
}
