//! Numbered facts.
use crate::notation::facts;
use crate::show::show_value;
use sap_facts::Pile;
use sap_rows::{Page, number, part};
use sap_terms::Signature;

/// `reserve`, and whether there is memory for so many facts; `add`, a fact and its number; `take` and `get`, a number, and the fact that
/// is taken or that stands there, or `none`; `count`, and how many facts there are.
pub fn piles_row(page: &mut Page, sig: &Signature, pile: &mut Pile, row: &str) {
    match part(row, 0) {
        "add" => match facts(page, sig, part(row, 1)).into_vec().pop() {
            Some(fact) => show_value(pile.add(fact), page),
            None => page.fail(),
        },
        "count" => page.numbered("", pile.count()),
        kind => show_at(page, pile, kind, part(row, 1)),
    }
}

// What the kind asks for of the facts of this number.
fn show_at(page: &mut Page, pile: &mut Pile, kind: &str, text: &str) {
    let n = number(page, text);
    match kind {
        "reserve" => show_value(pile.reserve(n).is_ok(), page),
        "take" => show_value(pile.take(n), page),
        _ => show_value(pile.get(n), page),
    }
}
