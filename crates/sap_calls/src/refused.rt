//! Calls of the program over a shelf and an out that fail in turn, and prefixes of files.
use crate::calls::{call_on, calls_row};
use crate::program::Program;
use sap_rows::{Page, number, part, written};
use std::alloc::Global;
use std::str;

// The text of what is on the page.
fn text(page: &Page) -> &str {
    str::from_utf8(page.as_bytes()).unwrap_or("")
}

// What is seen of a call with the words, the file and the run of the row, where the shelf fails at its call of this number, and out
// at its put of this number behind so many bytes: none where the number is 0.
fn seen<P: Program>(alloc: Global, row: &str, failing: u64, put: u64, taken: u64) -> Page {
    let mut call = Page::new(alloc);
    for k in 0..3 {
        call.word(part(row, k));
        call.word("%");
    }
    call.numbered("", failing);
    call.numbered("% 4096 %", put);
    call.numbered(" ", taken);
    let mut found = Page::new(alloc);
    calls_row::<P>(&mut found, "calls", text(&call));
    found
}

// How often the shelf is asked, how often out is written to, and the text that it takes, of a call with status 0.
fn good_call(seen: &str) -> Option<(&str, &str, &str)> {
    let (counts, out) = seen.split_once(" 0, 0 out ")?;
    let (asked, puts) = counts.split_once(' ')?;
    Some((asked, puts, out))
}

/// The words, the bytes of a.spthy and of b.run, and how often the shelf is asked by a call with status 0 over these. A call over a shelf
/// that fails at one of these has status 4 and the text of a read fault, asks no further, and writes nothing to out.
pub fn failing_row<P: Program>(page: &mut Page, row: &str) {
    let good = seen::<P>(page.alloc, row, 0, 0, 0);
    let (asked, _, _) = good_call(text(&good)).unwrap_or(("", "", ""));
    let asked = number(page, asked);
    for k in 0..asked {
        let k = k.saturating_add(1);
        let found = seen::<P>(page.alloc, row, k, 0, 0);
        let mut want = Page::new(page.alloc);
        want.numbered("", k);
        want.word(" 0 1, 4 err read fault\n");
        if found.as_bytes() != want.as_bytes() {
            page.fail();
        }
    }
    page.numbered("", asked);
}

// What is to be seen where out fails at the put behind so many others, behind so many bytes of it.
fn cut_call(alloc: Global, asked: &str, good: &[u8], others: u64, taken: u64) -> Page {
    let mut want = Page::new(alloc);
    let before = others.saturating_mul(4096).saturating_add(taken);
    let length = before.min(good.len() as u64) as usize;
    want.word(asked);
    want.numbered(" ", others.saturating_add(1));
    want.word(" 1, 5");
    if length > 0 {
        want.word(" out ");
        want.bytes(&good[..length]);
    }
    want.word(" err write fault\n");
    want
}

// Whether that is seen, where that put takes none, one, or all of its bytes.
fn is_cut<P: Program>(alloc: Global, row: &str, asked: &str, good: &[u8], others: u64) -> bool {
    for taken in [0, 1, 4096] {
        let found = seen::<P>(alloc, row, 0, others.saturating_add(1), taken);
        let want = cut_call(alloc, asked, good, others, taken);
        if found.as_bytes() != want.as_bytes() {
            return false;
        }
    }
    true
}

/// The words, the bytes of a.spthy and of b.run, and how many bytes out takes of a call with status 0 over these. A call over an out that
/// fails at one of its puts, and takes none, one or all of the bytes of that, has status 5, and out holds what it took up to there.
pub fn cut_row<P: Program>(page: &mut Page, row: &str) {
    let good = seen::<P>(page.alloc, row, 0, 0, 0);
    let (asked, puts, out) = good_call(text(&good)).unwrap_or(("", "", ""));
    for k in 0..number(page, puts) {
        if !is_cut::<P>(page.alloc, row, asked, out.as_bytes(), k) {
            page.fail();
        }
    }
    page.numbered("", out.len() as u64);
}

/// The bytes of a file, and how many of its proper prefixes `compile` refuses with status 1 and nothing on out, and how many it compiles.
pub fn prefixes_row<P: Program>(page: &mut Page, row: &str) {
    let file = written(page.alloc, part(row, 0));
    let bytes = file.as_bytes();
    let mut refused: u64 = 0;
    let mut compiled: u64 = 0;
    for length in 0..bytes.len() {
        let mut found = Page::new(page.alloc);
        call_on::<P>(
            &mut found,
            "theory",
            "compile a.spthy",
            &bytes[..length],
            b"",
        );
        let is_refused = found.as_bytes().starts_with(b"1 err file refused: ");
        let is_compiled = found.as_bytes().starts_with(b"0 out theory ");
        refused = refused.saturating_add(is_refused as u64);
        compiled = compiled.saturating_add(is_compiled as u64);
    }
    page.numbered("", refused);
    page.numbered(", ", compiled);
}
