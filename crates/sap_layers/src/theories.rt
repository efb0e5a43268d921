//! Theories that rows make or spell, and how they are printed; rules.
use crate::desk::empty_theory;
use crate::notation::{FromText, list};
use crate::show::show_value;
use sap_refusals::theory_line;
use sap_rows::{Page, file_bytes, part};
use sap_rule::{Rule, Theory, is_well_made, open_vars};
use sap_terms::{Copied, Items, Name, Signature};
use sap_theory::{print, read_theory};

/// Begins a theory of these symbols anew, in which nothing stands yet.
pub fn begin(page: &mut Page, t: &mut Theory, symbols: &str) {
    let theory = empty_theory(page, symbols);
    page.set(t, theory);
}

// What the kind asks for of the rule.
fn show_rule(page: &mut Page, sig: &Signature, kind: &str, r: &Rule) {
    match kind {
        "runs" => show_value(is_well_made(page.alloc, sig, r), page),
        "open" => show_value(open_vars(page.alloc, sig, r), page),
        _ => show_value(r.copy(page.alloc), page),
    }
}

// The same of a rule, or the first rule of the name.
fn show_kind(page: &mut Page, t: &Theory, kind: &str, text: &str) {
    if kind == "first" {
        let names: Items<Name> = list(page, &t.signature, ' ', text);
        for name in names.as_slice() {
            show_value(t.rule_named(name), page);
        }
    } else {
        let rules: Items<Rule> = list(page, &t.signature, '\n', text);
        for rule in rules.as_slice() {
            show_rule(page, &t.signature, kind, rule);
        }
    }
}

/// `theory` and symbols begins a theory anew, `rule` adds a rule, each with how many rules there are; `runs`, a rule, and whether it can
/// be run; `open`, a rule, and the variables that a line has to bind; `copied`, a rule, and its copy; `first`, a name, and the first rule of
/// the theory that has it, or `none`.
pub fn rules_row(page: &mut Page, t: &mut Theory, row: &str) {
    match part(row, 0) {
        "theory" => {
            begin(page, t, part(row, 1));
            page.numbered("", t.rules.len());
        }
        "rule" => {
            let rule = Rule::from_text(page, &t.signature, part(row, 1));
            page.put(&mut t.rules, rule);
            page.numbered("", t.rules.len());
        }
        kind => show_kind(page, t, kind, part(row, 1)),
    }
}

/// A theory, and its text as it is printed, or why it is refused.
pub fn read_row(page: &mut Page, row: &str) {
    let bytes = file_bytes(page.alloc, part(row, 0));
    match read_theory(page.alloc, bytes.as_bytes()) {
        Ok(theory) => {
            page.text(print(page.alloc, &theory), "", "");
            drop(theory);
        }
        Err(fault) => {
            page.text(theory_line(page.alloc, &fault), "file refused: ", "\n");
            drop(fault);
        }
    }
}
