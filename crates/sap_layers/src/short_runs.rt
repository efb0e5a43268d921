//! Texts of short runs as they are read.
use crate::show::{Show, show_made};
use sap_rows::{Page, enclosed, part};
use sap_run_texts::{RunFault, print_prun, read_srun};
use sap_runs::{PStep, PSteps, SStep};
use sap_terms::{Copied, Mem};
use sap_text::Text;
use std::alloc::Global;

// The text of a run of this step alone.
fn text_of(alloc: Global, line: &PStep) -> Result<Text, Mem> {
    let mut steps = PSteps::new(alloc);
    steps.push(line.copy(alloc)?)?;
    print_prun(alloc, &steps)
}

// A step's line; a term at its end is shown as its tree.
impl Show for SStep {
    fn show_on(&self, page: &mut Page) {
        match self {
            SStep::Act(line) => page.text(text_of(page.alloc, line), "process-run\n", "\n"),
            SStep::In(t, term) => {
                page.numbered("in ", *t);
                page.word(" ");
                term.show_on(page);
            }
            SStep::Send(t) => page.numbered("send ", *t),
            SStep::Know(term) => {
                page.word("know ");
                term.show_on(page);
            }
        }
    }
}

// Why a text is no run.
impl Show for RunFault {
    fn show_on(&self, page: &mut Page) {
        match self {
            RunFault::Mem => page.fail(),
            RunFault::BadHead => page.word("bad head"),
            RunFault::BadLine { line } => page.numbered("bad line ", *line),
            RunFault::TooManySteps => page.word("too many steps"),
        }
    }
}

/// As `text` a text, as `step` a line alone: a copy of the steps that it is read as, or the fault.
pub fn short_runs_row(page: &mut Page, row: &str) {
    let (before, behind) = match part(row, 0) {
        "step" => ("short-run\n", "\n"),
        _ => ("", ""),
    };
    let text = enclosed(page.alloc, before, part(row, 1), behind);
    show_made(read_srun(page.alloc, text.as_bytes()), page);
}
