//! What is shown of a place: its line and column, the line of the file, and carets below the word.
ghost use Rattle.std.specs.Prelude.{◌≡◌, ◌≤◌, ◌++◌, ◌-◌, ℕ, List, [], ◌∷◌, codes, decimal, length, map, OnOk};
ghost use Rattle.std.proofs.Math.ListN.{replicate};
ghost use Rattle.sap_stretches.specs.Lines.{IsLineOf};
ghost use Rattle.sap_stretches.specs.Positions.{IsPlaceText, IsPosition, LineBegins, LineEnds, carets, picture, shown, shown_from, shown_to};

use crate::line::{Line, line_of};
use crate::position::Position;
use crate::stretch::Stretch;
use sap_terms::Mem;
use sap_text::Text;

// The longest line that is shown whole, in bytes.
const WHOLE_LINE: u64 = 120;

// How many bytes of a longer one are shown on each side of the place.
const EACH_SIDE: u64 = 60;

// What is shown of a byte.
fn shown(b: u8) -> u8
    ensures { result ≡ shown b }
{
    if b >= 32 && b <= 126 { b } else { b' ' }
}

fn push_shown(text: &mut Text, bytes: &[u8]) -> Result<(), Mem>
    ensures { OnOk result (text.new ≡ text.old ++ map shown bytes.now) }
{
    for b in bytes {
        text.push_bytes(&[shown(*b)])?;
    }
    Ok(())
}

#[tactic(auto, using(std::proofs::lemmas::Grind::replicate_next, std::proofs::lemmas::Grind::common_steps))]
fn push_repeated(text: &mut Text, byte: u8, count: u64) -> Result<(), Mem>
    ensures { OnOk result (text.new ≡ text.old ++ replicate count byte) }
{
    for _ in 0..count {
        text.push_bytes(&[byte])?;
    }
    Ok(())
}

// What is shown of a line, where the place is at this offset.
fn part_shown(line: Stretch, at: u64) -> Stretch
    requires before { line.from ≤ at }
    requires behind { at ≤ line.to }
    ensures from { result.from ≡ shown_from line.from line.to at }
    ensures to { result.to ≡ shown_to line.from line.to at }
    ensures within { (line.from ≤ result.from) × (result.from ≤ at) × (at ≤ result.to)
        × (result.to ≤ line.to) }
{
    if line.to - line.from <= WHOLE_LINE {
        return line;
    }
    Stretch {
        from: if at - line.from <= EACH_SIDE {
            line.from
        } else {
            at - EACH_SIDE
        },
        to: if line.to - at <= EACH_SIDE {
            line.to
        } else {
            at + EACH_SIDE
        },
    }
}

// How many carets stand below the stretch, where what is shown ends here.
fn carets(word: Stretch, end: u64) -> u64
    ensures { result ≡ carets word end }
{
    if end <= word.from || word.to <= word.from {
        1
    } else if word.to <= end {
        word.to - word.from
    } else {
        end - word.from
    }
}

// The bytes of this part as they are shown, and carets below those of the word.
fn push_picture(text: &mut Text, bytes: &[u8], word: Stretch, part: Stretch) -> Result<(), Mem>
    requires order { part.from ≤ word.from }
    requires around { word.from ≤ part.to }
    requires inside { part.to ≤ length bytes.now }
    ensures { OnOk result (text.new ≡ text.old ++ picture bytes.now word part.from part.to) }
{
    push_shown(text, &bytes[part.from as usize..part.to as usize])?;
    text.push_bytes(b"\n")?;
    push_repeated(text, b' ', word.from - part.from)?;
    push_repeated(text, b'^', carets(word, part.to))?;
    text.push_bytes(b"\n")
}

// Line and column in words, and a line feed.
fn push_position(text: &mut Text, position: Position) -> Result<(), Mem>
    ensures { OnOk result (text.new ≡ text.old ++ codes "line " ++ decimal position.line
        ++ codes ", column " ++ decimal position.column ++ (10 ∷ [])) }
{
    text.push_bytes(b"line ")?;
    text.push_number(position.line)?;
    text.push_bytes(b", column ")?;
    text.push_number(position.column)?;
    text.push_bytes(b"\n")
}

// The position of an offset whose line this is.
fn position_in(bytes: &[u8], line: Line, at: u64) -> Position
    requires line { IsLineOf bytes.now line }
    requires at { line.at ≡ at }
    ensures { IsPosition bytes.now at result }
{
    let _bytes = bytes.len();
    Position {
        line: line.number,
        column: line.at - line.from + 1,
    }
}

// The bytes of an offset's line.
fn line_around(bytes: &[u8], line: Line, at: u64) -> Stretch
    requires line { IsLineOf bytes.now line }
    requires at { line.at ≡ at }
    ensures begins { LineBegins bytes.now at result.from }
    ensures ends { LineEnds bytes.now at result.to }
{
    Stretch {
        from: line.from,
        to: line.to,
    }
}

/// The same as `push_place`, where the line of the stretch's first byte is known. It takes time in proportion to what is put there.
pub fn push_place_in(text: &mut Text, bytes: &[u8], word: Stretch, line: Line) -> Result<(), Mem>
    requires line { IsLineOf bytes.now line }
    requires word { line.at ≡ word.from }
    ensures { OnOk result ((t : List ℕ) × (text.new ≡ text.old ++ t)
        × IsPlaceText bytes.now word t) }
{
    let position = position_in(bytes, line, word.from);
    let whole = line_around(bytes, line, word.from);
    let part = part_shown(whole, word.from);
    push_position(text, position)?;
    push_picture(text, bytes, word, part)
}

/// Puts last where this stretch of the file stands: `line L, column C`, the line of the file, with a blank for each byte that is
/// no printable ASCII, and a line with a caret below each byte of the stretch that stands in that line, one at least. A line of
/// more than 120 bytes is shown from 60 before the stretch's first byte to 60 from it on. Want of memory is the only error.
pub fn push_place(text: &mut Text, bytes: &[u8], word: Stretch) -> Result<(), Mem>
    requires { word.from ≤ length bytes.now }
    ensures { OnOk result ((t : List ℕ) × (text.new ≡ text.old ++ t)
        × IsPlaceText bytes.now word t) }
{
    push_place_in(text, bytes, word, line_of(bytes, word.from))
}
