//! What a line did, found from what was kept of it and from where it led.
ghost use Rattle.std.specs.Prelude.{◌≡◌, [], IfOk, option_map, slice_get};
ghost use Rattle.std.specs.List.{range_with_len};
ghost use Rattle.sap_deduce.specs.Entries.{terms_of};
ghost use Rattle.sap_facts.specs.Cited.{cited_at};
ghost use Rattle.sap_terms.specs.Equations.{equations};
ghost use Rattle.sap_terms.specs.View.{tree};
ghost use Rattle.sap_terms.specs.declared.term.Term.TheVariants as term;
ghost use Rattle.sap_teller.specs.code.Heads.{count_added, form_of, IsFoundOut, IsLooked, IsOfEntry, IsSentBy, IsSentOnBy, IsTakenAt, IsUsedAt};
ghost use Rattle.sap_teller.specs.code.LawsBelow.{Laws};
ghost use Rattle.sap_teller.specs.declared.doing.Doing.TheVariants as does;

use crate::before::{Before, lent};
use crate::doing::{Doing, two};
use crate::finding::{
    compared, deleted, inserted, locked, looked, made, met, nothing, shown, taken, unlocked, used,
};
use sap_calc::Config;
use sap_lines::{Form, lines_have_one_answer};
use sap_rewrite::{
    each_term_has_a_normal_form, equality_is_kept, matching_is_modulo, normal_forms_are_unique,
};
use sap_runs::PStep;
use sap_terms::{
    Bindings, Copied, FactList, Mem, Name, Numbers, Signature, Term, boxed,
    destructors_head_left_sides, leaves_are_normal,
};
use std::alloc::Global;

// What is at the head is put out, as the last entry.
fn sent<'a>(
    alloc: Global,
    config: &'a Config,
    form: Option<&'a Form>,
    k: u64,
) -> Result<Box<Doing<'a>>, Mem>
    ensures { IfOk result (λ x. IsSentBy (terms_of config.now.known) k (form_of form.entry) x.value) }
{
    match form {
        Some(Form::Out(m)) => match config.entry(k) {
            None => nothing(alloc),
            Some(t) => boxed(alloc, Doing::Sends(m, t)),
        },
        _ => nothing(alloc),
    }
}

// An entry is shown.
fn given<'a>(alloc: Global, config: &'a Config, k: u64) -> Result<Box<Doing<'a>>, Mem>
    ensures { IfOk result (λ x. IsOfEntry (terms_of config.now.known) k does.Gives x.value) }
{
    match config.entry(k) {
        None => nothing(alloc),
        Some(t) => boxed(alloc, Doing::Gives(t)),
    }
}

// A public name is written down.
fn written<'a>(alloc: Global, a: &'a Name) -> Result<Box<Doing<'a>>, Mem>
    ensures { IfOk result (λ x. x.value ≡ does.Writes a.entry) }
{
    boxed(alloc, Doing::Writes(a))
}

// What is at the head is put out, as the last entry, on the channel that another is.
fn sent_on<'a>(
    alloc: Global,
    config: &'a Config,
    form: Option<&'a Form>,
    k: u64,
    last: u64,
) -> Result<Box<Doing<'a>>, Mem>
    ensures { IfOk result (λ x. IsSentOnBy (terms_of config.now.known) k last (form_of form.entry) x.value) }
{
    match form {
        Some(Form::Send(m, n)) => match config.entry(k) {
            None => nothing(alloc),
            Some(channel) => match config.entry(last) {
                None => nothing(alloc),
                Some(t) => boxed(alloc, Doing::SendsOn(two(m, n), two(channel, t))),
            },
        },
        _ => nothing(alloc),
    }
}

// A symbol on entries gives the last one.
fn applied<'a>(
    alloc: Global,
    config: &'a Config,
    f: &'a Name,
    numbers: &'a Numbers,
    last: u64,
) -> Result<Box<Doing<'a>>, Mem>
    ensures { IfOk result (λ x. IsOfEntry (terms_of config.now.known) last (does.Applies f.entry numbers.entry) x.value) }
{
    match config.entry(last) {
        None => nothing(alloc),
        Some(t) => boxed(alloc, Doing::Applies(f, numbers, t)),
    }
}

// An entry is taken.
fn taken_at<'a>(
    alloc: Global,
    config: &'a Config,
    form: Option<&Form>,
    k: u64,
) -> Result<Box<Doing<'a>>, Mem>
    ensures { IfOk result (λ x. IsTakenAt (terms_of config.now.known) k (form_of form.entry) x.value) }
{
    match config.entry(k) {
        None => nothing(alloc),
        Some(x) => taken(alloc, form, x),
    }
}

// So many numbers, from the first on.
fn numbers_from(alloc: Global, first: u64, count: u64) -> Result<Numbers, Mem>
    ensures { IfOk result (λ ns. ns ≡ range_with_len first count) }
{
    let mut numbers = Numbers::new(alloc);
    for k in 0..count {
        match first.checked_add(k) {
            None => return Err(Mem),
            Some(n) => numbers.push(n)?,
        }
    }
    Ok(numbers)
}

// How many facts the rule at the head adds.
pub(crate) fn added_count(form: Option<&Form>) -> u64
    ensures { result ≡ count_added (form_of form.entry) }
{
    match form {
        Some(Form::Embedded(_, _, r)) => r.len(),
        _ => 0,
    }
}

// The facts that a rule adds, where so many ever were before.
fn added(alloc: Global, config: &Config, first: u64, count: u64) -> Result<FactList, Mem>
    ensures { IfOk result (λ fs. fs ≡ cited_at config.now.facts (range_with_len first count)) }
{
    let numbers = numbers_from(alloc, first, count)?;
    config.cited(alloc, &numbers)
}

// A rule is used.
fn used_at<'a>(
    alloc: Global,
    config: &Config,
    before: &'a Before,
    form: Option<&Form>,
    chosen: &'a Bindings,
) -> Result<Box<Doing<'a>>, Mem>
    ensures { IfOk result (λ x. IsUsedAt before.now.cited config.now.facts before.now.facts chosen.entry (form_of form.entry) x.value) }
{
    let right = added(alloc, config, before.facts, added_count(form))?;
    used(alloc, form, &before.cited, right, chosen)
}

// What the layers below say of normal forms, matching and lines.
fn laws_below()
    ensures { Laws }
{
    each_term_has_a_normal_form();
    normal_forms_are_unique();
    equality_is_kept();
    leaves_are_normal();
    destructors_head_left_sides();
    matching_is_modulo();
    lines_have_one_answer();
}

/// What a line did that led here, by what was kept of it before.
pub(crate) fn found_out<'a>(
    alloc: Global,
    sig: &Signature,
    config: &'a Config,
    before: &'a Before,
    step: &'a PStep,
) -> Result<Box<Doing<'a>>, Mem>
    requires { config.now.sig ≡ sig.now }
    ensures { IfOk result (λ x. IsFoundOut before.now config.now step.now x.value) }
{
    laws_below();
    let head = lent(&before.head);
    match step {
        PStep::Nil(t) => boxed(alloc, Doing::Ends(*t)),
        PStep::Par(_) => boxed(alloc, Doing::Splits(before.threads)),
        PStep::Rep(_) => boxed(alloc, Doing::Copies(before.threads)),
        PStep::New(_, n) => made(alloc, *n, head),
        PStep::Out(_) => sent(alloc, config, head, before.entries),
        PStep::Send(_, k) => sent_on(alloc, config, head, *k, before.entries),
        PStep::In(_, k) => taken_at(alloc, config, head, *k),
        PStep::Sync(_, _) => met(alloc, sig, lent(&before.sender), head),
        PStep::Then(_) => compared(alloc, sig, head, true),
        PStep::Else(_) => compared(alloc, sig, head, false),
        PStep::Event(_) => shown(alloc, head),
        PStep::Insert(_) => inserted(alloc, sig, head),
        PStep::Delete(_) => deleted(alloc, sig, head),
        PStep::Found(_) => looked(alloc, sig, head, before.stored.as_ref()),
        PStep::Missing(_) => looked(alloc, sig, head, None),
        PStep::Lock(_) => locked(alloc, sig, head),
        PStep::Unlock(_) => unlocked(alloc, sig, head),
        PStep::Embedded(_, _, chosen) => used_at(alloc, config, before, head, chosen),
        PStep::Name(n) => boxed(alloc, Doing::Names(*n)),
        PStep::Public(a) => written(alloc, a),
        PStep::Apply(f, numbers) => applied(alloc, config, f, numbers, before.entries),
        PStep::Know(k) => given(alloc, config, *k),
    }
}
