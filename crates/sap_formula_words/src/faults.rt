//! Which part of a formula a fault names.
ghost use Rattle.std.specs.Prelude.{◌≡◌, ◌∷◌, ◌++◌, ℕ, Bool, List, Some, [], length, min, IsSomeAnd, if◌then◌else◌};
ghost use Rattle.std.specs.Option.{option_copied};
ghost use Rattle.std.specs.Str.{bytes_eq};
ghost use Rattle.sap_terms.specs.Tree.{trees_of};
ghost use Rattle.sap_terms.specs.View.{tree};
ghost use Rattle.sap_formula.specs.Checked.{binder_name, enter, find_binder, premise};
ghost use Rattle.sap_formula.specs.Faults.{IsFirstFault, told};
ghost use Rattle.sap_formula.specs.Form.{action, truth as truth_form};
ghost use Rattle.sap_formula.specs.Parts.{symbol, fact_name, message, time, bound, term_parts, terms_parts, form_parts};
ghost use Rattle.sap_formula.specs.View.{form};
ghost use Rattle.sap_formula.specs.declared.fault.FormulaFlaw.{FormulaFlaw};
ghost use Rattle.sap_formula_words.specs.code.Faulty.{bounds, binds_message, binds_time, stands, stands_in, stands_in_any, is_faulty, past, first_of_all, scope_of, innermost};

use sap_formula::{Binder, Binders, Formula, FormulaFault, FormulaFlaw};
use sap_terms::{Fact, HasName, Name, Signature, Sort, Term, TermList, Var};

// What is looked for: the fault of this name, under a signature.
#[derive(Clone, Copy)]
struct Aim<'s> {
    sig: &'s Signature,
    which: FormulaFlaw,
    name: &'s Name,
}

fn is_name(aim: &Aim<'_>, name: &Name) -> bool
    ensures { result ≡ bytes_eq name.now aim.now.name.now }
{
    name.as_bytes() == aim.name.as_bytes()
}

fn binds_message(inner: Option<&Binder>, v: &Var) -> bool
    ensures { result ≡ binds_message (option_copied inner.entry) v.now.sort }
{
    match inner {
        Some(Binder::Message(b)) => v.sort == Sort::Msg || v.sort == b.sort,
        _ => false,
    }
}

fn binds_time(inner: Option<&Binder>) -> bool
    ensures { result ≡ binds_time (option_copied inner.entry) }
{
    match inner {
        Some(Binder::Time(_)) => true,
        _ => false,
    }
}

#[cycle(stands_in)]
fn stands_in(name: &Name, term: &Term) -> bool
    ensures { result ≡ stands_in name.now (tree term.now) }
{
    match term {
        Term::Var(v) => v.name.as_bytes() == name.as_bytes(),
        Term::App(_, terms) => stands_in_any(name, terms),
        _ => false,
    }
}

#[cycle(stands_in)]
fn stands_in_any(name: &Name, terms: &TermList) -> bool
    ensures { result ≡ stands_in_any name.now (trees_of terms.now) }
{
    for k in 0..terms.len() {
        if stands_in(name, terms.at(k)) {
            return true;
        }
    }
    false
}

// Whether a variable of this name stands in an action among the conjuncts.
fn stands(name: &Name, f: &Formula) -> bool
    ensures { result ≡ stands name.now (form f.now) }
{
    match f {
        Formula::And(f, h) => stands(name, f) || stands(name, h),
        Formula::Action(fact, time) => {
            time.as_bytes() == name.as_bytes() || stands_in_any(name, &fact.args)
        }
        _ => false,
    }
}

fn is_symbol(aim: &Aim<'_>, f: &Name, n: u64) -> bool
    ensures { result ≡ is_faulty aim.now.sig.now aim.now.which aim.now.name.now (symbol f.now n) }
{
    match aim.which {
        FormulaFlaw::BadFunction => {
            is_name(aim, f)
                && match aim.sig.arity(f) {
                    Some(k) => k != n,
                    None => true,
                }
        }
        FormulaFlaw::Destructor => is_name(aim, f),
        _ => false,
    }
}

fn is_fact(aim: &Aim<'_>, n: &Name) -> bool
    ensures { result ≡ is_faulty aim.now.sig.now aim.now.which aim.now.name.now (fact_name n.now) }
{
    match aim.which {
        FormulaFlaw::Reserved => is_name(aim, n),
        _ => false,
    }
}

// The binder round a part, where it has the name.
fn named<'a>(aim: &Aim<'_>, inner: Option<&'a Binder>) -> Option<&'a Binder>
    ensures { option_copied result ≡ find_binder (scope_of (option_copied inner.entry)) aim.now.name.now }
{
    match inner {
        Some(b) => if is_name(aim, b.name()) {
            Some(b)
        } else {
            None
        },
        None => None,
    }
}

fn is_message(aim: &Aim<'_>, inner: Option<&Binder>, v: &Var) -> bool
    ensures { result ≡ is_faulty aim.now.sig.now aim.now.which aim.now.name.now
        (message (scope_of (option_copied inner.entry)) v.now) }
{
    match aim.which {
        FormulaFlaw::UnboundVar => is_name(aim, &v.name) && !binds_message(named(aim, inner), v),
        _ => false,
    }
}

fn is_time(aim: &Aim<'_>, inner: Option<&Binder>, n: &Name) -> bool
    ensures { result ≡ is_faulty aim.now.sig.now aim.now.which aim.now.name.now
        (time (scope_of (option_copied inner.entry)) n.now) }
{
    match aim.which {
        FormulaFlaw::UnboundVar => is_name(aim, n) && !binds_time(named(aim, inner)),
        _ => false,
    }
}

// Past a part: how many stand before it, where it is the one that is sought; or how many stand before the next.
fn past(is: bool, before: usize) -> Result<usize, usize>
    ensures { result ≡ past is before }
{
    if is {
        Err(before)
    } else {
        Ok(before.saturating_add(1))
    }
}

fn past_symbol(aim: &Aim<'_>, f: &Name, ts: &TermList, before: usize) -> Result<usize, usize>
    ensures { result ≡ past (is_faulty aim.now.sig.now aim.now.which aim.now.name.now
        (symbol f.now (length ts.now))) before }
{
    past(is_symbol(aim, f, ts.len()), before)
}

fn past_fact(aim: &Aim<'_>, n: &Name, before: usize) -> Result<usize, usize>
    ensures { result ≡ past (is_faulty aim.now.sig.now aim.now.which aim.now.name.now
        (fact_name n.now)) before }
{
    past(is_fact(aim, n), before)
}

#[tactic(auto, using(crate::proofs::Near::term_steps))]
fn in_variable(
    aim: &Aim<'_>,
    inner: Option<&Binder>,
    v: &Var,
    before: usize,
) -> Result<usize, usize>
    ensures { result ≡ first_of_all (is_faulty aim.now.sig.now aim.now.which aim.now.name.now)
        (message (scope_of (option_copied inner.entry)) v.now ∷ []) before }
{
    past(is_message(aim, inner, v), before)
}

#[cycle(in_term)]
#[tactic(auto, using(crate::proofs::Near::term_steps), unfolding(crate::specs::code::Faulty::unless_found, crate::specs::code::Faulty::first_of_all))]
fn in_term(aim: &Aim<'_>, inner: Option<&Binder>, t: &Term, before: usize) -> Result<usize, usize>
    ensures { result ≡ first_of_all (is_faulty aim.now.sig.now aim.now.which aim.now.name.now)
        (term_parts (scope_of (option_copied inner.entry)) (tree t.now)) before }
{
    match t {
        Term::Var(v) => in_variable(aim, inner, v, before),
        Term::App(f, ts) => {
            let before = past_symbol(aim, f, ts, before)?;
            in_terms(aim, inner, ts, before)
        }
        _ => Ok(before),
    }
}

#[cycle(in_term)]
#[tactic(auto, using(crate::proofs::Near::term_steps), unfolding(crate::specs::code::Faulty::unless_found, crate::specs::code::Faulty::first_of_all))]
fn in_terms(
    aim: &Aim<'_>,
    inner: Option<&Binder>,
    ts: &TermList,
    before: usize,
) -> Result<usize, usize>
    ensures { result ≡ first_of_all (is_faulty aim.now.sig.now aim.now.which aim.now.name.now)
        (terms_parts (scope_of (option_copied inner.entry)) (trees_of ts.now)) before }
{
    let mut before = before;
    for k in 0..ts.len() {
        before = in_term(aim, inner, ts.at(k), before)?;
    }
    Ok(before)
}

#[tactic(auto, using(crate::proofs::Near::form_steps), unfolding(crate::specs::code::Faulty::unless_found, crate::specs::code::Faulty::first_of_all))]
fn in_time(aim: &Aim<'_>, inner: Option<&Binder>, i: &Name, before: usize) -> Result<usize, usize>
    ensures { result ≡ first_of_all (is_faulty aim.now.sig.now aim.now.which aim.now.name.now)
        (time (scope_of (option_copied inner.entry)) i.now ∷ []) before }
{
    past(is_time(aim, inner, i), before)
}

#[tactic(auto, using(crate::proofs::Near::form_steps), unfolding(crate::specs::code::Faulty::unless_found, crate::specs::code::Faulty::first_of_all))]
fn in_action(
    aim: &Aim<'_>,
    inner: Option<&Binder>,
    f: &Fact,
    i: &Name,
    before: usize,
) -> Result<usize, usize>
    ensures { result ≡ first_of_all (is_faulty aim.now.sig.now aim.now.which aim.now.name.now)
        (form_parts (scope_of (option_copied inner.entry)) (action f.now i.now)) before }
{
    let before = past_fact(aim, &f.name, before)?;
    let before = in_terms(aim, inner, &f.args, before)?;
    in_time(aim, inner, i, before)
}

#[tactic(auto, using(crate::proofs::Near::form_steps), unfolding(crate::specs::code::Faulty::unless_found, crate::specs::code::Faulty::first_of_all))]
fn in_times(
    aim: &Aim<'_>,
    inner: Option<&Binder>,
    i: &Name,
    j: &Name,
    before: usize,
) -> Result<usize, usize>
    ensures { result ≡ first_of_all (is_faulty aim.now.sig.now aim.now.which aim.now.name.now)
        (time (scope_of (option_copied inner.entry)) i.now ∷ time (scope_of (option_copied inner.entry)) j.now
        ∷ []) before }
{
    let before = in_time(aim, inner, i, before)?;
    in_time(aim, inner, j, before)
}

#[tactic(auto, using(crate::proofs::Near::form_steps), unfolding(crate::specs::code::Faulty::unless_found, crate::specs::code::Faulty::first_of_all))]
fn in_equal(
    aim: &Aim<'_>,
    inner: Option<&Binder>,
    s: &Term,
    t: &Term,
    before: usize,
) -> Result<usize, usize>
    ensures { result ≡ first_of_all (is_faulty aim.now.sig.now aim.now.which aim.now.name.now)
        (term_parts (scope_of (option_copied inner.entry)) (tree s.now)
        ++ term_parts (scope_of (option_copied inner.entry)) (tree t.now)) before }
{
    let before = in_term(aim, inner, s, before)?;
    in_term(aim, inner, t, before)
}

// Whether this binder has the name, and nothing guards it in f.
fn is_binder(aim: &Aim<'_>, f: &Formula, b: &Binder) -> bool
    ensures { result ≡ is_faulty aim.now.sig.now aim.now.which aim.now.name.now
        (bound (form f.now) b.now) }
{
    match aim.which {
        FormulaFlaw::Unguarded => is_name(aim, b.name()) && !stands(aim.name, f),
        _ => false,
    }
}

fn past_binder(aim: &Aim<'_>, f: &Formula, b: &Binder, before: usize) -> Result<usize, usize>
    ensures { result ≡ past (is_faulty aim.now.sig.now aim.now.which aim.now.name.now
        (bound (form f.now) b.now)) before }
{
    past(is_binder(aim, f, b), before)
}

// Through the variables of a quantifier, whose guards are looked for in f.
#[tactic(auto, using(crate::proofs::Near::bound_steps))]
fn in_binders(aim: &Aim<'_>, f: &Formula, bs: &Binders, before: usize) -> Result<usize, usize>
    ensures { result ≡ first_of_all (is_faulty aim.now.sig.now aim.now.which aim.now.name.now)
        (bounds (form f.now) bs.now) before }
{
    let mut before = before;
    for k in 0..bs.len() {
        before = past_binder(aim, f, bs.at(k), before)?;
    }
    Ok(before)
}

// Where the guards of an `All` over f are looked for; without `==>` in this truth, which has none.
fn premise<'a>(f: &'a Formula, truth: &'a Formula) -> &'a Formula
    requires { form truth.now ≡ truth_form }
    ensures { form result.now ≡ premise (form f.now) }
{
    match f {
        Formula::Imp(g, _) => g,
        _ => truth,
    }
}

// The same below an `All` over f.
fn in_binders_of_all(
    aim: &Aim<'_>,
    f: &Formula,
    bs: &Binders,
    before: usize,
) -> Result<usize, usize>
    ensures { result ≡ first_of_all (is_faulty aim.now.sig.now aim.now.which aim.now.name.now)
        (bounds (premise (form f.now)) bs.now) before }
{
    in_binders(aim, premise(f, &Formula::True), bs, before)
}

// The binder, where it has the name, or the one outside.
fn nearer<'a>(name: &Name, b: &'a Binder, outside: Option<&'a Binder>) -> Option<&'a Binder>
    ensures { option_copied result ≡ (if bytes_eq (binder_name b.now) name.now then Some b.now
        else option_copied outside.entry) }
{
    if b.name().as_bytes() == name.as_bytes() {
        Some(b)
    } else {
        outside
    }
}

// The last of the binders that has the name, or the one outside.
#[tactic(auto, using(crate::proofs::Near::inner_steps))]
fn innermost<'a>(name: &Name, bs: &'a Binders, inner: Option<&'a Binder>) -> Option<&'a Binder>
    ensures { option_copied result ≡ innermost name.now bs.now (option_copied inner.entry) }
{
    let mut found = inner;
    for k in 0..bs.len() {
        found = nearer(name, bs.at(k), found);
    }
    found
}

// Through a formula inside this binder of the name, if there is one.
#[cycle(in_form)]
#[tactic(auto, using(crate::proofs::Near::form_steps), unfolding(crate::specs::code::Faulty::unless_found, crate::specs::code::Faulty::first_of_all))]
fn in_form(
    aim: &Aim<'_>,
    inner: Option<&Binder>,
    f: &Formula,
    before: usize,
) -> Result<usize, usize>
    ensures { result ≡ first_of_all (is_faulty aim.now.sig.now aim.now.which aim.now.name.now)
        (form_parts (scope_of (option_copied inner.entry)) (form f.now)) before }
{
    match f {
        Formula::True | Formula::False => Ok(before),
        Formula::Action(fact, i) => in_action(aim, inner, fact, i, before),
        Formula::Equal(s, t) => in_equal(aim, inner, s, t, before),
        Formula::Same(i, j) | Formula::Less(i, j) => in_times(aim, inner, i, j, before),
        Formula::Not(g) => in_form(aim, inner, g, before),
        Formula::And(g, h) | Formula::Or(g, h) | Formula::Imp(g, h) | Formula::Iff(g, h) => {
            in_both(aim, inner, g, h, before)
        }
        Formula::All(bs, g) => {
            let before = in_binders_of_all(aim, g, bs, before)?;
            in_body(aim, inner, bs, g, before)
        }
        Formula::Ex(bs, g) => {
            let before = in_binders(aim, g, bs, before)?;
            in_body(aim, inner, bs, g, before)
        }
    }
}

#[cycle(in_form)]
#[tactic(auto, using(crate::proofs::Near::form_steps), unfolding(crate::specs::code::Faulty::unless_found, crate::specs::code::Faulty::first_of_all))]
fn in_both(
    aim: &Aim<'_>,
    inner: Option<&Binder>,
    f: &Formula,
    h: &Formula,
    before: usize,
) -> Result<usize, usize>
    ensures { result ≡ first_of_all (is_faulty aim.now.sig.now aim.now.which aim.now.name.now)
        (form_parts (scope_of (option_copied inner.entry)) (form f.now)
        ++ form_parts (scope_of (option_copied inner.entry)) (form h.now)) before }
{
    let before = in_form(aim, inner, f, before)?;
    in_form(aim, inner, h, before)
}

// What stands below these binders.
#[cycle(in_form)]
#[tactic(auto, using(crate::proofs::Near::form_steps), unfolding(crate::specs::code::Faulty::unless_found, crate::specs::code::Faulty::first_of_all))]
fn in_body(
    aim: &Aim<'_>,
    inner: Option<&Binder>,
    bs: &Binders,
    f: &Formula,
    before: usize,
) -> Result<usize, usize>
    ensures { result ≡ first_of_all (is_faulty aim.now.sig.now aim.now.which aim.now.name.now)
        (form_parts (enter bs.now (scope_of (option_copied inner.entry))) (form f.now)) before }
{
    in_form(aim, innermost(aim.name, bs, inner), f, before)
}

fn aim_of<'s>(sig: &'s Signature, fault: &'s FormulaFault) -> Option<Aim<'s>>
    ensures { (w : FormulaFlaw) (n : List ℕ) → fault.now ≡ told w n
        → IsSomeAnd result (λ a. (a.sig.now ≡ sig.now) × (a.which ≡ w) × (a.name.now ≡ n)) }
{
    match fault {
        FormulaFault::Mem => None,
        FormulaFault::BadFunction { f } => Some(Aim {
            sig,
            which: FormulaFlaw::BadFunction,
            name: f,
        }),
        FormulaFault::Destructor { f } => Some(Aim {
            sig,
            which: FormulaFlaw::Destructor,
            name: f,
        }),
        FormulaFault::Reserved { fact } => Some(Aim {
            sig,
            which: FormulaFlaw::Reserved,
            name: fact,
        }),
        FormulaFault::UnboundVar { var } => Some(Aim {
            sig,
            which: FormulaFlaw::UnboundVar,
            name: var,
        }),
        FormulaFault::Unguarded { var } => Some(Aim {
            sig,
            which: FormulaFlaw::Unguarded,
            name: var,
        }),
    }
}

// The number of the part that has this fault of this name.
fn part_of(aim: &Aim<'_>, f: &Formula) -> Option<usize>
    ensures { (reserved : Bool) (first : IsFirstFault aim.now.sig.now reserved (form f.now)
        aim.now.which aim.now.name.now)
        → result ≡ Some (min first.at usize.MAX) }
{
    match in_form(aim, None, f, 0) {
        Ok(_) => None,
        Err(before) => Some(before),
    }
}

/// The number of the part that has the fault, where it is the one that counts in the formula under this signature; parts count from
/// 0 in reading order, and from the greatest usize on it is that number, which no text comes to. It takes no memory, recurses as
/// deep as the formula and its terms, and takes time in proportion to the formula, times the quantifiers round its parts that bind the
/// fault's name.
pub fn faulty_part(sig: &Signature, f: &Formula, fault: &FormulaFault) -> Option<usize>
    ensures { (reserved : Bool) (w : FormulaFlaw) (n : List ℕ) → fault.now ≡ told w n
        → (first : IsFirstFault sig.now reserved (form f.now) w n)
        → result ≡ Some (min first.at usize.MAX) }
{
    match aim_of(sig, fault) {
        Some(aim) => part_of(&aim, f),
        None => None,
    }
}
