//! The tables of calls by their names.
use crate::calls::{calls_row, command, conversions_row, examples_row, statements_row};
use crate::json::json_row;
use crate::program::Program;
use crate::refused::{cut_row, failing_row, prefixes_row};
use crate::run_texts::run_texts_row;
use sap_outside::MemShelf;
use sap_rows::{Page, part};

/// Puts last what is found for a row, where runs of examples are called over this shelf; false if rows of the table of this name are no
/// calls. The page isn't whole where the row isn't written as the table's rows are.
pub fn show_of_calls<P: Program>(
    page: &mut Page,
    shelf: &mut MemShelf,
    table: &str,
    row: &str,
) -> bool {
    match table {
        "run-texts" => run_texts_row::<P>(page, row),
        "conversions" | "fillings" | "told" => conversions_row::<P>(page, row),
        "runs-of-examples" => examples_row::<P>(page, shelf, row),
        "statements" => statements_row::<P>(page, row),
        "calls" | "requests" => calls_row::<P>(page, table, row),
        "json" => json_row::<P>(page, row),
        "failing" => failing_row::<P>(page, row),
        "cut" => cut_row::<P>(page, row),
        "prefixes" => prefixes_row::<P>(page, row),
        _ => return show_of_file::<P>(page, table, row),
    }
    true
}

// The same of commands on the one file of the row.
fn show_of_file<P: Program>(page: &mut Page, table: &str, row: &str) -> bool {
    match table {
        "refusals" => command::<P>(page, "refusal", "compile a.spthy", part(row, 0)),
        "why" => command::<P>(page, "text", "why a.spthy", part(row, 0)),
        "written-theories" => command::<P>(page, "back", part(row, 0), part(row, 1)),
        "generated" | "parameters" => {
            command::<P>(page, part(row, 0), "compile a.spthy", part(row, 1));
        }
        "short-theories" => {
            command::<P>(page, part(row, 0), "compile-short a.spthy", part(row, 1));
        }
        _ => return false,
    }
    true
}
