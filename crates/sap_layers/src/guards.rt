//! Traces through a guard, one time after another.
use crate::notation::trace;
use crate::show::{Show, show_value};
use crate::theories::begin;
use sap_refusals::broken_line;
use sap_restrict::{Admit, Guard, has_one_reserved};
use sap_rows::{Page, part};
use sap_rule::Theory;
use sap_terms::FactList;

impl Show for Admit {
    fn show_on(&self, page: &mut Page) {
        match self {
            Admit::Kept => page.word("+"),
            Admit::Broken { which } => {
                let line = broken_line(page.alloc, 0, *which);
                page.text(line, "run refused: step 0: breaks sapic_", "\n");
            }
        }
    }
}

// What the guard says of the time; not written as a row is where two of its facts have reserved names.
fn show_time(page: &mut Page, guard: &mut Guard, time: &FactList) {
    if has_one_reserved(time) {
        show_value(guard.admit(time), page);
    } else {
        page.fail();
    }
}

/// Symbols, the facts of times with bars between them, and for each time `+` where a guard takes it up, else the restriction that
/// it breaks; the guard goes on as if that time had not come.
pub fn guards_row(page: &mut Page, t: &mut Theory, row: &str) {
    begin(page, t, part(row, 0));
    let mut guard = Guard::new(page.alloc);
    let mut before = "";
    for time in trace(page, &t.signature, part(row, 1)).as_slice() {
        page.word(before);
        show_time(page, &mut guard, time);
        before = " ";
    }
}
