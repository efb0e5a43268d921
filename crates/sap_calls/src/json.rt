//! Runs as JSON: what `to-json` and `from-json` make of bytes.
use crate::calls::answered;
use crate::program::Program;
use sap_outside::MemShelf;
use sap_rows::{Page, between, enclosed, part};

/// The words of `to-json`.
pub const TO_JSON: &str = "to-json b.run";

/// The words of `from-json`.
pub const FROM_JSON: &str = "from-json b.run";

// What stands before the arrays of steps.
const PROCESS: &str = "{\"kind\":\"process-run\",\"steps\":[";

const RULES: &str = "{\"kind\":\"rule-run\",\"steps\":[";

/// Why the run is refused, or what stands between these two in the text, or all.
pub fn show_inside(page: &mut Page, text: &[u8], before: &str, behind: &str) {
    let cause = between(text, "2 err run refused: ", "\n");
    page.bytes(cause.or(between(text, before, behind)).unwrap_or(text));
}

/// `to` or `from`, the bytes, and what `to-json` or `from-json` writes, or why it refuses them. As `step` and `rule-step` a line of a run
/// of one step, and the step's array; as `from-step` and `from-rule-step` an array, and the line. What is written as JSON is read again:
/// where that doesn't give the bytes, what it gives stands behind a bar.
pub fn json_row<P: Program>(page: &mut Page, row: &str) {
    let kind = part(row, 0);
    let (before, behind, first, last) = match kind {
        "step" => ("process-run\n", "\n", PROCESS, "]}\n"),
        "rule-step" => ("rule-run\n", "\n", RULES, "]}\n"),
        "from-step" => (PROCESS, "]}", "process-run\n", "\n"),
        "from-rule-step" => (RULES, "]}", "rule-run\n", "\n"),
        _ => ("", "", "", ""),
    };
    let words = if kind.starts_with("from") {
        FROM_JSON
    } else {
        TO_JSON
    };
    let bytes = enclosed(page.alloc, before, part(row, 1), behind);
    let text = answered::<P>(page, words, b"", bytes.as_bytes(), 4096);
    show_inside(page, text.as_bytes(), first, last);
    if text.as_bytes().starts_with(b"{") {
        let again = answered::<P>(page, FROM_JSON, b"", text.as_bytes(), 4096);
        if again.as_bytes() != bytes.as_bytes() {
            page.word(" | ");
            show_inside(page, again.as_bytes(), before, behind);
        }
    }
}

/// What the run of this file is as JSON, and that read again.
pub fn example_json<P: Program>(page: &mut Page, shelf: &MemShelf, name: &str) {
    match shelf.files.get(name) {
        Some(run) => {
            let text = answered::<P>(page, TO_JSON, b"", run.as_slice(), 4096);
            let again = answered::<P>(page, FROM_JSON, b"", text.as_bytes(), 4096);
            page.bytes(again.as_bytes());
        }
        None => page.fail(),
    }
}
