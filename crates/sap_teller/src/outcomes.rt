//! What comes of a line.
ghost use Rattle.std.specs.Prelude.{◌≡◌, ◌&&◌, ◌++◌, IfOk, OnOk, codes, decimal, map, nat_eq, true, slice_get};
ghost use Rattle.sap_deduce.specs.Entries.{terms_of};
ghost use Rattle.sap_terms.specs.View.{tree};
ghost use Rattle.sap_terms.specs.Tree.{fresh};
ghost use Rattle.sap_tell.specs.ToldText.{shows_text, knows_text, bound_text, term_told};
ghost use Rattle.sap_teller.specs.code.Doings.{binding_texts, outcomes_of};
ghost use Rattle.sap_teller.specs.code.Outcomes.{before_outcome, outcomes_from, still_first, shown_texts};

use crate::doing::Doing;
use sap_calc::Config;
use sap_called::{Names, push_fact, push_name, push_term};
use sap_grammar::push_variable;
use sap_terms::{Bindings, Fact, FactList, Mem, Term, Var};
use sap_text::Text;

// What stands before an outcome.
fn push_before(text: &mut Text, first: bool) -> Result<(), Mem>
    ensures { OnOk result (text.new ≡ text.old ++ before_outcome first) }
{
    if first {
        text.push_bytes(b" -- ")
    } else {
        text.push_bytes(b", ")
    }
}

// Whether an outcome is the first of the line, where so many are before it in a list.
fn is_first(first: bool, k: u64) -> bool
    ensures { result ≡ (first && nat_eq k 0) }
{
    first && k == 0
}

// A fact that is shown.
fn push_show(text: &mut Text, names: &Names, first: bool, f: &Fact) -> Result<(), Mem>
    ensures { OnOk result (text.new ≡ text.old ++ (before_outcome first ++ shows_text names.now f.now)) }
{
    push_before(text, first)?;
    text.push_bytes(b"shows ")?;
    push_fact(text, names, f)
}

// The facts that are shown.
fn push_shows(text: &mut Text, names: &Names, label: &FactList) -> Result<(), Mem>
    ensures { OnOk result (text.new ≡ text.old ++ outcomes_from true (map (shows_text names.now) label.now)) }
{
    for k in 0..label.len() {
        push_show(text, names, k == 0, label.at(k))?;
    }
    Ok(())
}

// An entry that is known from now on.
fn push_known(text: &mut Text, names: &Names, first: bool, k: u64, x: &Term) -> Result<(), Mem>
    ensures { OnOk result (text.new ≡ text.old ++ (before_outcome first ++ knows_text names.now k (tree x.now))) }
{
    push_before(text, first)?;
    text.push_bytes(b"knows ")?;
    text.push_number(k)?;
    text.push_bytes(b": ")?;
    push_term(text, names, x)
}

/// Puts last what is shown, and the entry of this number, if there is one; gives whether nothing was.
pub(crate) fn push_seen(
    text: &mut Text,
    names: &Names,
    label: &FactList,
    config: &Config,
    number: u64,
) -> Result<bool, Mem>
    ensures text { OnOk result (text.new ≡ text.old
        ++ outcomes_from true (shown_texts names.now label.now number (slice_get (terms_of config.now.known) number))) }
    ensures first { IfOk result (λ b. b
        ≡ still_first true (shown_texts names.now label.now number (slice_get (terms_of config.now.known) number))) }
{
    let none = label.len() == 0;
    push_shows(text, names, label)?;
    match config.entry(number) {
        None => Ok(none),
        Some(x) => {
            push_known(text, names, none, number, x)?;
            Ok(false)
        }
    }
}

// What a variable stands for.
fn push_bound(text: &mut Text, names: &Names, first: bool, x: &Var, v: &Term) -> Result<(), Mem>
    ensures { OnOk result (text.new ≡ text.old ++ (before_outcome first ++ bound_text names.now (x.now, tree v.now))) }
{
    push_before(text, first)?;
    push_variable(text, x)?;
    text.push_bytes(b" = ")?;
    push_term(text, names, v)
}

// What each variable of the bindings stands for.
fn push_bindings(text: &mut Text, names: &Names, first: bool, b: &Bindings) -> Result<(), Mem>
    ensures { OnOk result (text.new ≡ text.old ++ outcomes_from first (binding_texts names.now b.now)) }
{
    for k in 0..b.len() {
        let e = b.at(k);
        push_bound(text, names, is_first(first, k), &e.var, &e.term)?;
    }
    Ok(())
}

// The same of bindings, and then of others.
fn push_all_bindings(
    text: &mut Text,
    names: &Names,
    first: bool,
    b: &Bindings,
    d: &Bindings,
) -> Result<(), Mem>
    ensures { OnOk result (text.new ≡ text.old ++ outcomes_from first (binding_texts names.now b.now ++ binding_texts names.now d.now)) }
{
    push_bindings(text, names, first, b)?;
    push_bindings(text, names, is_first(first, b.len()), d)
}

// The name that a variable stands for.
fn push_made(text: &mut Text, names: &Names, first: bool, x: &Var, n: u64) -> Result<(), Mem>
    ensures { OnOk result (text.new ≡ text.old ++ (before_outcome first ++ bound_text names.now (x.now, fresh n))) }
{
    push_before(text, first)?;
    push_variable(text, x)?;
    text.push_bytes(b" = ")?;
    push_name(text, names, n)
}

// What becomes of a thread.
fn push_thread(text: &mut Text, first: bool, t: u64, words: &[u8]) -> Result<(), Mem>
    ensures { OnOk result (text.new ≡ text.old
        ++ (before_outcome first ++ (codes "thread " ++ (decimal t ++ words.now)))) }
{
    push_before(text, first)?;
    text.push_bytes(b"thread ")?;
    text.push_number(t)?;
    text.push_bytes(words)
}

// An outcome in words.
fn push_words(text: &mut Text, first: bool, words: &[u8]) -> Result<(), Mem>
    ensures { OnOk result (text.new ≡ text.old ++ (before_outcome first ++ words.now)) }
{
    push_before(text, first)?;
    text.push_bytes(words)
}

// What a term is from now on.
fn push_state(
    text: &mut Text,
    names: &Names,
    first: bool,
    k: &Term,
    words: &[u8],
) -> Result<(), Mem>
    ensures { OnOk result (text.new ≡ text.old ++ (before_outcome first ++ (term_told names.now (tree k.now) ++ words.now))) }
{
    push_before(text, first)?;
    push_term(text, names, k)?;
    text.push_bytes(words)
}

/// Puts what comes of it last, beside what is shown and known.
#[tactic(auto, using(crate::proofs::Pieces::one_outcome))]
pub(crate) fn push_outcomes(
    text: &mut Text,
    names: &Names,
    first: bool,
    doing: &Doing,
) -> Result<(), Mem>
    ensures { OnOk result (text.new ≡ text.old ++ outcomes_from first (outcomes_of names.now doing.now)) }
{
    match doing {
        Doing::Ends(t) => push_thread(text, first, *t, b" ends"),
        Doing::Splits(t) | Doing::Copies(t) => push_thread(text, first, *t, b" begins"),
        Doing::Makes(x, n) => push_made(text, names, first, x, *n),
        Doing::Meets(_, _, _, b) | Doing::Takes(_, _, b) => push_bindings(text, names, first, b),
        Doing::Compares(_, _, _, true) => push_words(text, first, b"then"),
        Doing::Compares(_, _, _, false) => push_words(text, first, b"else"),
        Doing::Looks(_, _, _, None) => push_words(text, first, b"nothing there"),
        Doing::Looks(_, _, x, Some(v)) => push_bound(text, names, first, x, v),
        Doing::Holds(_, k, true) => push_state(text, names, first, k, b" is held"),
        Doing::Holds(_, k, false) => push_state(text, names, first, k, b" is free"),
        Doing::Uses(_, _, b, d) => push_all_bindings(text, names, first, b, d),
        Doing::Sends(_, _)
        | Doing::SendsOn(_, _)
        | Doing::Shows(_)
        | Doing::Nothing
        | Doing::Inserts(_, _, _)
        | Doing::Deletes(_, _)
        | Doing::Names(_)
        | Doing::Writes(_)
        | Doing::Gives(_)
        | Doing::Applies(_, _, _) => Ok(()),
    }
}
