//! What may stand, put in words.
ghost use Rattle.std.specs.Prelude.{◌≡◌, [], ◌∷◌, ◌++◌, OnOk, codes, map};
ghost use Rattle.sap_expect.specs.Kinds.{a_formula, a_name, a_process, a_term, a_zero, an_arity, an_item, capital_name, kind_of, quoted_name, small_name, this_mark, this_name};
ghost use Rattle.sap_expect.specs.Expected.{expected_of};
ghost use Rattle.sap_expect.specs.ExpectedText.{expected_text, limit_text};
ghost use Rattle.sap_expect.specs.KindText.{between, kind_text, others_text, wanted_text};

use crate::expected::Expected;
use crate::kind::WordKind;
use crate::nested::Nested;
use sap_terms::Mem;
use sap_text::Text;

fn kind_text(kind: WordKind) -> &'static str
    ensures { result.now ≡ kind_text (kind_of kind) }
{
    match kind {
        WordKind::Item => "an item",
        WordKind::Process => "a process",
        WordKind::Formula => "a formula",
        WordKind::Term => "a term",
        WordKind::Name => "a name",
        WordKind::Lower => "a name with a small letter first",
        WordKind::Upper => "a name with a capital first",
        WordKind::Quoted => "a name in quotes",
        WordKind::Arity => "a number up to 64",
        WordKind::Zero => "0",
        WordKind::Mark(mark) => mark,
        WordKind::Named(name) => name,
    }
}

// Puts last a kind.
fn push_kind(text: &mut Text, kind: WordKind) -> Result<(), Mem>
    ensures { OnOk result (text.new ≡ text.old ++ kind_text (kind_of kind)) }
{
    text.push_bytes(kind_text(kind).as_bytes())
}

fn between(last: bool) -> &'static str
    ensures { result.now ≡ between last }
{
    if last { " or " } else { ", " }
}

// Puts last a kind that isn't the first.
fn push_other(text: &mut Text, kind: WordKind, last: bool) -> Result<(), Mem>
    ensures { OnOk result (text.new ≡ text.old ++ (between last ++ kind_text (kind_of kind))) }
{
    text.push_bytes(between(last).as_bytes())?;
    push_kind(text, kind)
}

// Puts last the kinds behind the first.
fn push_others(text: &mut Text, kinds: &[WordKind]) -> Result<(), Mem>
    ensures { OnOk result (text.new ≡ text.old ++ others_text (map kind_of kinds.now)) }
{
    for k in 0..kinds.len() {
        push_other(text, kinds[k], k + 1 == kinds.len())?;
    }
    Ok(())
}

// Puts last the first and the others.
fn push_kinds(text: &mut Text, first: WordKind, others: &[WordKind]) -> Result<(), Mem>
    ensures { OnOk result (text.new ≡ text.old ++ (codes "Here may stand: "
        ++ (kind_text (kind_of first) ++ others_text (map kind_of others.now)))) }
{
    text.push_bytes(b"Here may stand: ")?;
    push_kind(text, first)?;
    push_others(text, others)?;
    Ok(())
}

// Puts last what may stand, with a comma between kinds, and before the last `or`.
#[tactic(auto, using(crate::proofs::KindTexts::whole_put))]
fn push_wanted(text: &mut Text, kinds: &[WordKind]) -> Result<(), Mem>
    ensures { OnOk result (text.new ≡ text.old ++ wanted_text (map kind_of kinds.now)) }
{
    match kinds.split_first() {
        None => text.push_bytes(b"Nothing may stand here"),
        Some((first, others)) => {
            push_kinds(text, *first, others)?;
            Ok(())
        }
    }
}

fn limit_text(nested: Nested) -> &'static str
    ensures { result.now ≡ limit_text nested }
{
    match nested {
        Nested::Term => "No term has more than 100 levels",
        Nested::Process => "No process has more than 300 levels",
        Nested::Formula => "No formula has more than 100 levels",
    }
}

/// Puts last what is expected: what may stand, as `Here may stand: , or )`, or the limit of levels, as `No term has more than 100 levels`.
/// Want of memory is the only error.
pub fn push_expected(text: &mut Text, expected: &Expected) -> Result<(), Mem>
    ensures { OnOk result (text.new ≡ text.old ++ expected_text (expected_of expected.now)) }
{
    match expected {
        Expected::OneOf(kinds) => push_wanted(text, kinds.as_slice()),
        Expected::FewerLevels(nested) => text.push_bytes(limit_text(*nested).as_bytes()),
    }
}

/// A law: how some kinds are put: none, one, two, three, and one of each.
pub fn wanted_texts_by_hand()
    ensures none { wanted_text [] ≡ codes "Nothing may stand here" }
    ensures one { wanted_text (a_term ∷ []) ≡ codes "Here may stand: a term" }
    ensures two { wanted_text (an_item ∷ this_mark (codes "end") ∷ []) ≡ codes "Here may stand: an item or end" }
    ensures three { wanted_text (this_mark (codes ",") ∷ this_mark (codes "(") ∷ this_mark (codes ")") ∷ [])
        ≡ codes "Here may stand: ,, ( or )" }
    ensures firsts { wanted_text (an_item ∷ a_process ∷ a_formula ∷ a_term ∷ a_name ∷ small_name ∷ [])
        ≡ codes "Here may stand: an item, a process, a formula, a term, a name or a name with a small letter first" }
    ensures others { wanted_text (capital_name ∷ quoted_name ∷ an_arity ∷ a_zero ∷ this_name (codes "all") ∷ [])
        ≡ codes "Here may stand: a name with a capital first, a name in quotes, a number up to 64, 0 or all" }
{}
