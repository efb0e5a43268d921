//! Words, files and streams of a call, in memory.
ghost use Rattle.std.specs.Prelude.{◌<◌};

use sap_outside::{MemShelf, MemSink, Rest};
use sap_rows::{Page, number, parted};
use sap_terms::Items;
use std::collections::BTreeMap;

/// The words, with a blank between each two.
pub fn words_of(page: &mut Page, text: &str) -> Vec<String> {
    let mut words = Items::new(page.alloc);
    for word in text.split_whitespace() {
        page.put(&mut words, String::from_str(page.alloc, word).ok());
    }
    words.into_vec()
}

/// A sink with these failures, parted by commas: `1 5` where the first call fails after five bytes.
pub fn sink(page: &mut Page, failures: &str) -> MemSink {
    let mut fail_on = Items::new(page.alloc);
    for failure in failures.split(',') {
        if !failure.is_empty() {
            let (call, taken) = parted(failure.trim());
            let failure = (number(page, call), number(page, taken));
            page.put(&mut fail_on, Some(failure));
        }
    }
    MemSink {
        bytes: Vec::new(page.alloc),
        fail_on: fail_on.into_vec(),
        calls: 0,
        count: 0,
        wants: 0,
    }
}

/// Puts a file of this name to the others.
pub fn put_file(page: &mut Page, files: &mut BTreeMap<String, Vec<u8>>, name: &str, bytes: &[u8]) {
    let name = String::from_str(page.alloc, name).ok();
    match name.zip(bytes.to_vec(page.alloc).ok()) {
        Some((name, bytes)) => page.note(files.insert(name, bytes)),
        None => page.fail(),
    }
}

/// A shelf with the files a.spthy and b.run, whose call of this number fails, none where that is 0, and which gives so many bytes of a
/// run at once.
pub fn shelf_of(page: &mut Page, file: &[u8], run: &[u8], failing: u64, piece: u64) -> MemShelf
    requires { 0 < piece }
{
    let mut files = BTreeMap::new(page.alloc);
    put_file(page, &mut files, "a.spthy", file);
    put_file(page, &mut files, "b.run", run);
    shelf_with(page, files, failing, piece)
}

/// A shelf with these files, in the same way.
pub fn shelf_with(
    page: &mut Page,
    files: BTreeMap<String, Vec<u8>>,
    failing: u64,
    piece: u64,
) -> MemShelf
    requires { 0 < piece }
{
    let mut fail_on = Vec::new(page.alloc);
    page.note(fail_on.push(failing));
    MemShelf {
        files,
        fail_on,
        requests: Some(Vec::new(page.alloc)),
        calls: 0,
        count: 0,
        rest: Rest::new(page.alloc),
        name: None,
        piece,
    }
}
