//! Rows without one that is refused.
use crate::desk::Desk;
use crate::tables::show_found;
use sap_rows::Page;
use std::{mem, str};

// The text of what is on the page.
fn text(page: &Page) -> &str {
    str::from_utf8(page.as_bytes()).unwrap_or("")
}

// What is found for the last of the table's rows, which go on from one another. Of guards each row but the first is a further time.
fn last_found(page: &mut Page, desk: &mut Desk, table: &str, rows: &str) -> Page {
    let mut found = Page::new(page.alloc);
    let mut line = Page::new(page.alloc);
    for row in rows.split('&') {
        if table == "guards" && !line.as_bytes().is_empty() {
            line.word("|");
        } else {
            drop(mem::replace(&mut line, Page::new(page.alloc)));
        }
        line.word(row);
        drop(mem::replace(&mut found, Page::new(page.alloc)));
        show_found(&mut found, desk, table, text(&line));
        if !found.is_whole {
            page.fail();
        }
    }
    found
}

// What is said of the last time by a guard; of another table all.
fn last_answer<'a>(table: &str, found: &'a str) -> &'a str {
    match found.rsplit_once(' ') {
        Some((_, last)) if table == "guards" => last,
        _ => found,
    }
}

/// The name of a table and rows of it without what they expect, of guards further times, all with `&` between them: what is found for
/// the last but one, which is refused, and for the last. The same is found for the last without the one before it.
pub fn undisturbed_row(page: &mut Page, desk: &mut Desk, row: &str) {
    let (rows, _) = row.rsplit_once('%').unwrap_or((row, ""));
    let (table, rows) = rows.split_once('&').unwrap_or(("", ""));
    let (start, next) = rows.rsplit_once('&').unwrap_or(("", ""));
    let (before, _) = start.rsplit_once('&').unwrap_or(("", ""));
    let table = table.trim();
    let mut others = Page::new(page.alloc);
    others.word(before);
    others.word("&");
    others.word(next);
    let refused = last_found(page, desk, table, start);
    let with = last_found(page, desk, table, rows);
    let without = last_found(page, desk, table, text(&others));
    let answer = last_answer(table, text(&with));
    if answer != last_answer(table, text(&without)) {
        page.fail();
    }
    page.word(last_answer(table, text(&refused)));
    page.word("; ");
    page.word(answer);
}
