//! Lists, and their copies.
use crate::notation::{list, trace};
use crate::show::show_copy;
use sap_rows::{Page, part};
use sap_terms::{Binding, Items, Name, Signature, Var};

/// A kind of list, what it holds, and what its copy holds: `names`, `numbers`, `trace`, `bindings`, `variables`.
pub fn copies_row(page: &mut Page, sig: &Signature, row: &str) {
    let text = part(row, 1);
    match part(row, 0) {
        "names" => {
            let names: Items<Name> = list(page, sig, ' ', text);
            show_copy(names, page);
        }
        "numbers" => {
            let numbers: Items<u64> = list(page, sig, ' ', text);
            show_copy(numbers, page);
        }
        "variables" => {
            let variables: Items<Var> = list(page, sig, ' ', text);
            show_copy(variables, page);
        }
        "bindings" => {
            let bindings: Items<Binding> = list(page, sig, ';', text);
            show_copy(bindings, page);
        }
        _ => {
            let trace = trace(page, sig, text);
            show_copy(trace, page);
        }
    }
}
