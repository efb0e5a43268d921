//! Places in the bytes of a file: their line and column.
ghost use Rattle.std.specs.Prelude.{◌≡◌, ◌≤◌, length};
ghost use Rattle.sap_text.specs.Tokens.{line_feeds};
ghost use Rattle.sap_stretches.specs.Positions.{IsPosition, LineBegins, LineEnds};

/// A line and a column, in bytes, both counted from 1.
#[derive(Clone, Copy)]
pub struct Position {
    pub line: u64,
    pub column: u64,
}

// Where the line begins in which this offset stands.
pub(crate) fn line_begin(bytes: &[u8], at: usize) -> usize
    requires { at ≤ length bytes.now }
    ensures { LineBegins bytes.now at result }
{
    let mut begin = at;
    while begin > 0 && bytes[begin - 1] != b'\n' {
        begin -= 1;
    }
    begin
}

// Where that line ends: at its line feed, or at the end of the bytes.
pub(crate) fn line_end(bytes: &[u8], at: usize) -> usize
    requires { at ≤ length bytes.now }
    ensures { LineEnds bytes.now at result }
{
    let mut end = at;
    while end < bytes.len() && bytes[end] != b'\n' {
        end += 1;
    }
    end
}

// How many line feeds there are.
pub(crate) fn feeds_in(bytes: &[u8]) -> usize
    ensures counts { result ≡ line_feeds bytes.now }
    ensures few { result ≤ length bytes.now }
{
    bytes.iter().filter(|b| **b == b'\n').count()
}

/// The line and the column of this offset, in time linear in it. A line feed stands in the line that it ends.
pub fn position_of(bytes: &[u8], at: u64) -> Position
    requires { at ≤ length bytes.now }
    ensures { IsPosition bytes.now at result }
{
    let begin = line_begin(bytes, at as usize);
    let feeds = feeds_in(&bytes[..at as usize]);
    Position {
        line: feeds as u64 + 1,
        column: at - begin as u64 + 1,
    }
}
