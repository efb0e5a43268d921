//! The search for the first part that has a fault.
ghost use Rattle.std.specs.Prelude.{◌≡◌, ◌++◌, [], ◌∷◌, map, IfOk};
ghost use Rattle.std.specs.Option.{option_copied};
ghost use Rattle.sap_formula.specs.Parts.{symbol, fact_name, message, time, bound, term_parts, terms_parts, form_parts};
ghost use Rattle.sap_formula.specs.code.Scoped.{binders};
ghost use Rattle.sap_formula.specs.code.Tests.{has_fault, first_name, first_outside};
ghost use Rattle.sap_formula.specs.Form.{action, truth as truth_form};
ghost use Rattle.sap_formula.specs.View.{form};
ghost use Rattle.sap_terms.specs.Tree.{trees_of};
ghost use Rattle.sap_terms.specs.View.{tree};
ghost use Rattle.sap_formula.specs.Checked.{enter, premise};

use crate::guards::guard_names;
use crate::remaking::both;
use crate::scope::{Scope, binds_message, binds_time, entered};
use crate::visible::is_hidden;
use crate::{Binders, Formula, FormulaFlaw};
use sap_terms::{Fact, HasName, Mem, Name, NameSet, Signature, Term, TermList, Var};
use std::alloc::Global;

// What is looked for: a fault under a signature.
#[derive(Clone, Copy)]
pub(crate) struct Aim<'s> {
    pub(crate) sig: &'s Signature,
    pub(crate) reserved: bool,
    pub(crate) which: FormulaFlaw,
}

fn symbol_has(aim: &Aim<'_>, f: &Name, n: u64) -> bool
    ensures { result ≡ has_fault aim.now.sig.now aim.now.reserved aim.now.which (symbol f.now n) }
{
    match aim.which {
        FormulaFlaw::BadFunction => match aim.sig.arity(f) {
            Some(k) => k != n,
            None => true,
        },
        FormulaFlaw::Destructor => aim.sig.is_destructor(f),
        _ => false,
    }
}

fn fact_has(aim: &Aim<'_>, n: &Name) -> bool
    ensures { result ≡ has_fault aim.now.sig.now aim.now.reserved aim.now.which (fact_name n.now) }
{
    match aim.which {
        FormulaFlaw::Reserved => aim.reserved && is_hidden(n),
        _ => false,
    }
}

fn message_has(aim: &Aim<'_>, scope: &Scope<'_>, v: &Var) -> bool
    ensures { result ≡ has_fault aim.now.sig.now aim.now.reserved aim.now.which (message (binders scope.now) v.now) }
{
    match aim.which {
        FormulaFlaw::UnboundVar => !binds_message(scope, v),
        _ => false,
    }
}

fn time_has(aim: &Aim<'_>, scope: &Scope<'_>, n: &Name) -> bool
    ensures { result ≡ has_fault aim.now.sig.now aim.now.reserved aim.now.which (time (binders scope.now) n.now) }
{
    match aim.which {
        FormulaFlaw::UnboundVar => !binds_time(scope, n),
        _ => false,
    }
}

#[cycle(in_term)]
#[tactic(auto, using(crate::proofs::Firsts::first_laws))]
fn in_term<'a>(aim: &Aim<'_>, scope: &Scope<'_>, t: &'a Term) -> Option<&'a Name>
    ensures { option_copied result ≡ first_name aim.now.sig.now aim.now.reserved aim.now.which (term_parts (binders scope.now) (tree t.now)) }
{
    match t {
        Term::Var(v) => {
            if message_has(aim, scope, v) {
                return Some(&v.name);
            }
            None
        }
        Term::App(f, ts) => {
            if symbol_has(aim, f, ts.len()) {
                return Some(f);
            }
            in_terms(aim, scope, ts)
        }
        _ => None,
    }
}

#[cycle(in_term)]
#[tactic(auto, using(crate::proofs::Firsts::first_laws))]
fn in_terms<'a>(aim: &Aim<'_>, scope: &Scope<'_>, ts: &'a TermList) -> Option<&'a Name>
    ensures { option_copied result ≡ first_name aim.now.sig.now aim.now.reserved aim.now.which (terms_parts (binders scope.now) (trees_of ts.now)) }
{
    for k in 0..ts.len() {
        match in_term(aim, scope, ts.at(k)) {
            Some(n) => return Some(n),
            None => {}
        }
    }
    None
}

#[tactic(auto, using(crate::proofs::Firsts::first_laws))]
fn in_action<'a>(aim: &Aim<'_>, scope: &Scope<'_>, f: &'a Fact, i: &'a Name) -> Option<&'a Name>
    ensures { option_copied result ≡ first_name aim.now.sig.now aim.now.reserved aim.now.which (form_parts (binders scope.now) (action f.now i.now)) }
{
    if fact_has(aim, &f.name) {
        return Some(&f.name);
    }
    match in_terms(aim, scope, &f.args) {
        Some(n) => return Some(n),
        None => {}
    }
    in_time(aim, scope, i)
}

fn in_time<'a>(aim: &Aim<'_>, scope: &Scope<'_>, i: &'a Name) -> Option<&'a Name>
    ensures { option_copied result ≡ first_name aim.now.sig.now aim.now.reserved aim.now.which (time (binders scope.now) i.now ∷ []) }
{
    if time_has(aim, scope, i) {
        return Some(i);
    }
    None
}

#[tactic(auto, using(crate::proofs::Firsts::first_laws))]
fn in_times<'a>(aim: &Aim<'_>, scope: &Scope<'_>, i: &'a Name, j: &'a Name) -> Option<&'a Name>
    ensures { option_copied result ≡ first_name aim.now.sig.now aim.now.reserved aim.now.which (time (binders scope.now) i.now ∷ time (binders scope.now) j.now ∷ []) }
{
    if time_has(aim, scope, i) {
        return Some(i);
    }
    in_time(aim, scope, j)
}

// The name of the first binder that isn't among these.
fn first_outside<'a>(names: &NameSet, bs: &'a Binders) -> Option<&'a Name>
    ensures { option_copied result ≡ first_outside names.now bs.now }
{
    for b in bs.as_slice() {
        let name = b.name();
        if !names.contains(name) {
            return Some(name);
        }
    }
    None
}

// The name of the first binder that has the fault, where its guards are looked for in f.
fn in_binders<'a>(
    alloc: Global,
    aim: &Aim<'_>,
    f: &Formula,
    bs: &'a Binders,
) -> Result<Option<&'a Name>, Mem>
    ensures { IfOk result (λ o. option_copied o ≡ first_name aim.now.sig.now aim.now.reserved aim.now.which (map (bound (form f.now)) bs.now)) }
{
    match aim.which {
        FormulaFlaw::Unguarded => {
            let names = guard_names(alloc, f)?;
            Ok(first_outside(&names, bs))
        }
        _ => Ok(None),
    }
}

// Where the guards of an `All` over f are looked for; without `==>` in this truth, which has none.
fn premise<'a>(f: &'a Formula, truth: &'a Formula) -> &'a Formula
    requires { form truth.now ≡ truth_form }
    ensures { form result.now ≡ premise (form f.now) }
{
    match f {
        Formula::Imp(g, _) => g,
        _ => truth,
    }
}

// The same below an `All` over f.
fn in_binders_of_all<'a>(
    alloc: Global,
    aim: &Aim<'_>,
    f: &Formula,
    bs: &'a Binders,
) -> Result<Option<&'a Name>, Mem>
    ensures { IfOk result (λ o. option_copied o ≡ first_name aim.now.sig.now aim.now.reserved aim.now.which (map (bound (premise (form f.now))) bs.now)) }
{
    in_binders(alloc, aim, premise(f, &Formula::True), bs)
}

#[tactic(auto, using(crate::proofs::Firsts::first_laws))]
fn in_equal<'a>(aim: &Aim<'_>, scope: &Scope<'_>, s: &'a Term, t: &'a Term) -> Option<&'a Name>
    ensures { option_copied result ≡ first_name aim.now.sig.now aim.now.reserved aim.now.which (term_parts (binders scope.now) (tree s.now) ++ term_parts (binders scope.now) (tree t.now)) }
{
    match in_term(aim, scope, s) {
        Some(n) => Some(n),
        None => in_term(aim, scope, t),
    }
}

// The name of the first part of the formula that has the fault; the parts behind it are gone over too. It takes time in
// proportion to the formula, times the quantifiers round its parts where these count.
#[cycle(in_form)]
#[tactic(auto, using(crate::proofs::Firsts::form_laws))]
pub(crate) fn in_form<'a>(
    alloc: Global,
    aim: &Aim<'_>,
    scope: &Scope<'_>,
    f: &'a Formula,
) -> Result<Option<&'a Name>, Mem>
    ensures { IfOk result (λ o. option_copied o ≡ first_name aim.now.sig.now aim.now.reserved aim.now.which (form_parts (binders scope.now) (form f.now))) }
{
    match f {
        Formula::True | Formula::False => Ok(None),
        Formula::Action(h, i) => Ok(in_action(aim, scope, h, i)),
        Formula::Equal(s, t) => Ok(in_equal(aim, scope, s, t)),
        Formula::Same(i, j) | Formula::Less(i, j) => Ok(in_times(aim, scope, i, j)),
        Formula::Not(g) => in_form(alloc, aim, scope, g),
        Formula::And(g, h) | Formula::Or(g, h) | Formula::Imp(g, h) | Formula::Iff(g, h) => {
            let two = both(in_form(alloc, aim, scope, g), in_form(alloc, aim, scope, h))?;
            Ok(two.0.or(two.1))
        }
        Formula::All(bs, g) => {
            let two = both(
                in_binders_of_all(alloc, aim, g, bs),
                in_body(alloc, aim, scope, bs, g),
            )?;
            Ok(two.0.or(two.1))
        }
        Formula::Ex(bs, g) => {
            let two = both(
                in_binders(alloc, aim, g, bs),
                in_body(alloc, aim, scope, bs, g),
            )?;
            Ok(two.0.or(two.1))
        }
    }
}

// What stands below these binders. They count only where an occurrence of a variable can have the fault.
#[cycle(in_form)]
fn in_body<'a>(
    alloc: Global,
    aim: &Aim<'_>,
    scope: &Scope<'_>,
    bs: &Binders,
    f: &'a Formula,
) -> Result<Option<&'a Name>, Mem>
    ensures { IfOk result (λ o. option_copied o ≡ first_name aim.now.sig.now aim.now.reserved aim.now.which (form_parts (enter bs.now (binders scope.now)) (form f.now))) }
{
    match aim.which {
        FormulaFlaw::UnboundVar => {
            let inside = entered(alloc, bs)?;
            let inner = Scope::Inside(&inside, &*scope);
            in_form(alloc, aim, &inner, f)
        }
        _ => in_form(alloc, aim, scope, f),
    }
}
