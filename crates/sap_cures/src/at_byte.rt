//! What to write at a byte, by the bytes round it.
ghost use Rattle.std.specs.Prelude.{◌≡◌, ◌-◌, drop, length, map, take};
ghost use Rattle.std.specs.Option.{option_copied, option_or};
ghost use Rattle.sap_cures.specs.ByteCures.{byte_cure, first_cure, fits, is_in_quotes, is_open_behind, stands_first, stands_last};
ghost use Rattle.sap_cures.specs.ByteRows.{mark_rows, sign_rows};
ghost use Rattle.sap_cures.specs.code.Views.{byte_row_of};

use crate::byte_rows::{MARK_ROWS, SIGN_BYTE_ROWS};
use crate::test::ByteRow;

// The first n bytes.
fn first(bytes: &[u8], n: usize) -> &[u8]
    ensures { result.now ≡ take n bytes.now }
{
    if n < bytes.len() { &bytes[..n] } else { bytes }
}

// Those behind the first n.
fn behind(bytes: &[u8], n: usize) -> &[u8]
    ensures { result.now ≡ drop n bytes.now }
{
    if n < bytes.len() {
        &bytes[n..]
    } else {
        &bytes[bytes.len()..]
    }
}

// Whether a quote is open behind this byte, where one was open before it, or none.
fn is_open_behind(quoted: bool, byte: u8) -> bool
    ensures { result ≡ is_open_behind quoted byte }
{
    if byte == b'\n' {
        false
    } else if byte == b'\'' {
        !quoted
    } else {
        quoted
    }
}

// Whether a quote is open behind these bytes.
fn is_in_quotes(bytes: &[u8]) -> bool
    ensures { result ≡ is_in_quotes bytes.now }
{
    let mut quoted = false;
    for byte in bytes {
        quoted = is_open_behind(quoted, *byte);
    }
    quoted
}

fn stands_first(part: &[u8], bytes: &[u8]) -> bool
    ensures { result ≡ stands_first part.now bytes.now }
{
    first(bytes, part.len()) == part
}

fn stands_last(part: &[u8], bytes: &[u8]) -> bool
    ensures { result ≡ stands_last part.now bytes.now }
{
    behind(bytes, bytes.len().saturating_sub(part.len())) == part
}

// Whether a row fits between these bytes.
fn fits(before: &[u8], from: &[u8], row: &ByteRow) -> bool
    ensures { result ≡ fits before.now from.now (byte_row_of row.now) }
{
    stands_last(row.before.as_bytes(), before) && stands_first(row.from.as_bytes(), from)
}

// What the first of the rows says that fits.
fn first_cure(before: &[u8], from: &[u8], rows: &'static [ByteRow]) -> Option<&'static str>
    ensures { option_copied result ≡ first_cure before.now from.now (map byte_row_of rows.now) }
{
    for row in rows {
        if fits(before, from, row) {
            return Some(row.cure);
        }
    }
    None
}

#[tactic(auto, unfolding(crate::specs::ByteRows::mark_rows))]
fn all_mark_rows() -> &'static [ByteRow]
    ensures { map byte_row_of result.now ≡ mark_rows }
{
    MARK_ROWS
}

#[tactic(auto, unfolding(crate::specs::ByteRows::sign_rows))]
fn all_sign_rows() -> &'static [ByteRow]
    ensures { map byte_row_of result.now ≡ sign_rows }
{
    SIGN_BYTE_ROWS
}

// The rows of signs of ASCII before those of others.
fn either_cure(before: &[u8], from: &[u8]) -> Option<&'static str>
    ensures { option_copied result ≡ option_or (first_cure before.now from.now mark_rows) (first_cure before.now from.now sign_rows) }
{
    match first_cure(before, from, all_mark_rows()) {
        Some(cure) => Some(cure),
        None => first_cure(before, from, all_sign_rows()),
    }
}

/// What to write at this offset, where no token begins: what the first row says that fits there. Where a quote is open there, none does.
pub fn byte_cure(bytes: &[u8], at: usize) -> Option<&'static str>
    ensures { option_copied result ≡ byte_cure bytes.now at }
{
    let before = first(bytes, at);
    if is_in_quotes(before) {
        None
    } else {
        either_cure(before, behind(bytes, at))
    }
}
