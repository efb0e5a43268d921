//! Texts of runs as commands read them, in pieces, and write them again.
ghost use Rattle.std.specs.Prelude.{◌<◌};

use crate::calls::answered;
use crate::json::{FROM_JSON, TO_JSON, show_inside};
use crate::program::Program;
use sap_rows::{Page, enclosed, part};

// The commands that read a run of one kind alone.
const TO_RULES: &str = "to-rules a.spthy b.run";

const TO_PROCESS: &str = "to-process a.spthy b.run";

// Whether a run is refused as a text, not for one of its steps.
fn is_no_run(answer: &[u8]) -> bool {
    answer.starts_with(b"2 err run refused: ") && !answer.starts_with(b"2 err run refused: step ")
}

// Why the command takes no text of these bytes, which come in pieces of so many; or the run as JSON.
fn read<P: Program>(page: &mut Page, words: &str, text: &[u8], piece: u64) -> Page
    requires { 0 < piece }
{
    let file = b"theory T begin process: 0 end";
    let answer = answered::<P>(page, words, file, text, piece);
    if is_no_run(answer.as_bytes()) {
        return answer;
    }
    answered::<P>(page, TO_JSON, b"", text, piece)
}

// The bytes of a long text, which is read in pieces of 7 bytes alone.
const LONG: usize = 4_096;

/// Which runs are asked for, the text, or a line alone behind `step` or `rule-step`, and why it is none of these runs; or the text that
/// is written of the run, once it is JSON. Runs of a process are read by `to-rules`, runs of rules by `to-process`, either and all of them
/// by `to-json`: whole and in pieces of 1, 2, 3 and 7 bytes, a long text in pieces of 7 alone. Where these don't give the same, there is no
/// answer.
pub fn run_texts_row<P: Program>(page: &mut Page, row: &str) {
    let (words, before, behind) = match part(row, 0) {
        "process" => (TO_RULES, "", ""),
        "rules" => (TO_PROCESS, "", ""),
        "step" => (TO_RULES, "process-run\n", "\n"),
        "rule-step" => (TO_PROCESS, "rule-run\n", "\n"),
        _ => (TO_JSON, "", ""),
    };
    let text = enclosed(page.alloc, before, part(row, 1), behind);
    let all = read::<P>(page, words, text.as_bytes(), 4096);
    for piece in 1..8 {
        if piece == 7 || piece < 4 && text.as_bytes().len() < LONG {
            let found = read::<P>(page, words, text.as_bytes(), piece);
            if found.as_bytes() != all.as_bytes() {
                page.fail();
            }
        }
    }
    if all.as_bytes().starts_with(b"{") {
        let again = answered::<P>(page, FROM_JSON, b"", all.as_bytes(), 4096);
        show_inside(page, again.as_bytes(), before, behind);
    } else {
        show_inside(page, all.as_bytes(), before, behind);
    }
}
