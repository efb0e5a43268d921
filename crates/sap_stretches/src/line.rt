//! The line in which something stands, found from one that stands before it.
ghost use Rattle.std.specs.Prelude.{◌≡◌, ◌≤◌, length};
ghost use Rattle.sap_stretches.specs.Lines.{IsLineOf};

use crate::position::{feeds_in, line_begin, line_end};

/// The line in which an offset stands: the offset, the line's number, from 1, and where it begins and ends, without its line feed.
#[derive(Clone, Copy)]
pub struct Line {
    pub at: u64,
    pub number: u64,
    pub from: u64,
    pub to: u64,
}

/// The line of this offset, in time linear in the bytes up to its end.
pub fn line_of(bytes: &[u8], at: u64) -> Line
    requires { at ≤ length bytes.now }
    ensures is { IsLineOf bytes.now result }
    ensures at { result.at ≡ at }
{
    let feeds = feeds_in(&bytes[..at as usize]);
    Line {
        at,
        number: feeds as u64 + 1,
        from: line_begin(bytes, at as usize) as u64,
        to: line_end(bytes, at as usize) as u64,
    }
}

/// The line of an offset that doesn't stand before one whose line is known. The time is linear in the bytes between the two, and, where
/// the line is another, in those up to its end; so lines of offsets that ascend are found in time linear in the bytes.
pub fn line_behind(bytes: &[u8], known: Line, at: u64) -> Line
    requires known { IsLineOf bytes.now known }
    requires behind { known.at ≤ at }
    requires inside { at ≤ length bytes.now }
    ensures is { IsLineOf bytes.now result }
    ensures at { result.at ≡ at }
{
    let feeds = feeds_in(&bytes[known.at as usize..at as usize]);
    let number = known.number + feeds as u64;
    if at <= known.to {
        return Line {
            at,
            number,
            from: known.from,
            to: known.to,
        };
    }
    Line {
        at,
        number,
        from: line_begin(bytes, at as usize) as u64,
        to: line_end(bytes, at as usize) as u64,
    }
}
