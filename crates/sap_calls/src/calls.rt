//! Calls of the program over files and streams in memory, which may fail.
ghost use Rattle.std.specs.Prelude.{◌<◌};

use crate::json::{example_json, show_inside};
use crate::program::Program;
use crate::shown::{show_call, show_requests};
use crate::streams::{shelf_of, sink, words_of};
use sap_outside::MemShelf;
use sap_rows::{Page, enclosed, file_bytes, number, part, parted, written};
use std::str;

/// Calls the program with these words over the shelf and over sinks with these failures, and shows of it what the kind asks for: as
/// `requests` what the shelf was asked for.
fn call<P: Program>(
    page: &mut Page,
    kind: &str,
    words: &str,
    shelf: &mut MemShelf,
    out: &str,
    err: &str,
) {
    let words = words_of(page, words);
    let mut out = sink(page, out);
    let mut err = sink(page, err);
    let status = P::call(page.alloc, &words, shelf, &mut out, &mut err);
    match (kind, &shelf.requests) {
        ("requests", Some(requests)) => show_requests(page, requests.as_slice()),
        _ => show_call(page, kind, status, shelf.calls, &out, &err),
    }
}

/// The same over a shelf that doesn't fail, of a file and a run of these bytes.
pub fn call_on<P: Program>(page: &mut Page, kind: &str, words: &str, file: &[u8], run: &[u8]) {
    let mut shelf = shelf_of(page, file, run, 0, 4096);
    call::<P>(page, kind, words, &mut shelf, "", "");
}

/// The words; the bytes of a.spthy and of b.run; the number of the call at which the shelf fails, or 0, and behind it how many faults it
/// had before, if any; how many bytes of a run it gives at once; the failures of out and those of err; and of the table `calls` how often
/// the shelf is asked and out and err are written to, the status, and what out and err took, of `requests` what the shelf was asked for.
pub fn calls_row<P: Program>(page: &mut Page, table: &str, row: &str) {
    let piece = number(page, part(row, 4));
    if piece == 0 {
        return page.fail();
    }
    let file = written(page.alloc, part(row, 1));
    let run = written(page.alloc, part(row, 2));
    let (failing, faults) = parted(part(row, 3));
    let failing = number(page, failing);
    let mut shelf = shelf_of(page, file.as_bytes(), run.as_bytes(), failing, piece);
    if !faults.is_empty() {
        shelf.count = number(page, faults);
    }
    call::<P>(
        page,
        table,
        part(row, 0),
        &mut shelf,
        part(row, 5),
        part(row, 6),
    );
}

/// Calls a command on the file, and shows of it what the kind asks for.
pub fn command<P: Program>(page: &mut Page, kind: &str, words: &str, file: &str) {
    let bytes = file_bytes(page.alloc, file);
    call_on::<P>(page, kind, words, bytes.as_bytes(), b"");
}

/// What a file of the process `0` with the symbols c and f says of traces, a `formula` or `items`, and how the theory has it, or why
/// the file is refused: as `inlined` the theory of `compile-inline`. As `inlined-theory` a file, and the status and text of that
/// command.
pub fn statements_row<P: Program>(page: &mut Page, row: &str) {
    let symbols = "theory T begin functions: c/0, f/1 process: 0 ";
    let lemma = "theory T begin functions: c/0, f/1 process: 0 lemma l: \"";
    let (before, behind, words) = match part(row, 0) {
        "inlined-theory" => return command::<P>(
            page,
            "theory",
            "compile-inline a.spthy",
            part(row, 1),
        ),
        "inlined" => (symbols, " end", "compile-inline a.spthy"),
        "formula" => (lemma, "\" end", "compile a.spthy"),
        _ => (symbols, " end", "compile a.spthy"),
    };
    let bytes = enclosed(page.alloc, before, part(row, 1), behind);
    call_on::<P>(page, part(row, 0), words, bytes.as_bytes(), b"");
}

// The lines of a run without its head, or why it is refused.
fn show_lines(page: &mut Page, text: &[u8]) {
    let text = str::from_utf8(text).unwrap_or("");
    match text.split_once(" err run refused: ") {
        Some((_, cause)) => page.word(cause.trim()),
        None => {
            let (_, lines) = text.split_once('\n').unwrap_or(("", text));
            page.word(lines.trim());
        }
    }
}

/// What out takes of a command on a file and a run, which the shelf gives in pieces of so many bytes; or the status and the texts.
pub fn answered<P: Program>(
    page: &mut Page,
    words: &str,
    file: &[u8],
    run: &[u8],
    piece: u64,
) -> Page
    requires { 0 < piece }
{
    let mut text = Page::new(page.alloc);
    let mut shelf = shelf_of(page, file, run, 0, piece);
    call::<P>(&mut text, "text", words, &mut shelf, "", "");
    if !text.is_whole {
        page.fail();
    }
    text
}

/// `process`, a file, the lines of a run of its process, and those of the run of its rules opposite, or the first illegal line with its
/// fault; and where these don't convert back to the first, what they convert back to, behind a bar. `rules`, a file, the lines of a run of
/// its rules, and those of the run of its process opposite, or the first line that is refused or breaks a restriction. `fill`, a file, the
/// lines of a short run of its process, and those of the run that it stands for, or the first step that is refused. `tell`, a file, the
/// lines of a run of its process, and what is told of them, whole, or the first illegal line.
pub fn conversions_row<P: Program>(page: &mut Page, row: &str) {
    let (head, words) = match part(row, 0) {
        "process" => ("process-run\n", "to-rules a.spthy b.run"),
        "fill" => ("short-run\n", "fill a.spthy b.run"),
        "tell" => ("process-run\n", "tell a.spthy b.run"),
        _ => ("rule-run\n", "to-process a.spthy b.run"),
    };
    let behind = if part(row, 2).is_empty() { "" } else { "\n" };
    let file = file_bytes(page.alloc, part(row, 1));
    let run = enclosed(page.alloc, head, part(row, 2), behind);
    let there = answered::<P>(page, words, file.as_bytes(), run.as_bytes(), 4096);
    if part(row, 0) == "tell" {
        show_inside(page, there.as_bytes(), "", "");
    } else {
        show_lines(page, there.as_bytes());
    }
    if there.as_bytes().starts_with(b"rule-run\n") {
        let words = "to-process a.spthy b.run";
        let back = answered::<P>(page, words, file.as_bytes(), there.as_bytes(), 4096);
        if back.as_bytes() != run.as_bytes() {
            page.word(" | ");
            show_lines(page, back.as_bytes());
        }
    }
}

/// The words of a command on example files, or `json` and the name of a run, and the text that out takes, for `json` where the run is
/// written as JSON and that is read again; or `= NAME` where that is the text of the file of this name.
pub fn examples_row<P: Program>(page: &mut Page, shelf: &mut MemShelf, row: &str) {
    let mut text = Page::new(page.alloc);
    match part(row, 0).strip_prefix("json ") {
        Some(name) => example_json::<P>(&mut text, shelf, name),
        None => call::<P>(&mut text, "text", part(row, 0), shelf, "", ""),
    }
    if !text.is_whole {
        page.fail();
    }
    let want = part(row, 1);
    match shelf.files.get(want.strip_prefix("= ").unwrap_or("")) {
        Some(file) if file.as_slice() == text.as_bytes() => page.word(want),
        _ => page.bytes(text.as_bytes()),
    }
}
