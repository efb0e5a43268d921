//! Laws of stretches and of their lines and columns, as contracts of functions that do nothing.
ghost use Rattle.std.specs.Prelude.{◌≡◌, ℕ, List, []};
ghost use Rattle.sap_stretches.specs.Positions.{IsPlaceText, IsPosition, carets, shown, shown_from, shown_to};
ghost use Rattle.sap_stretches.specs.PositionExamples.{at, second_byte, second_line, two_lines};
ghost use Rattle.sap_stretches.specs.StretchExamples.{stretch, three_lines_tokens};
ghost use Rattle.sap_stretches.specs.Stretches.{stretch_at};
ghost use Rattle.sap_stretches.specs.declared.position.Position.{Position};
ghost use Rattle.sap_stretches.specs.declared.stretch.Stretch.{Stretch};

/// A law: an offset of some bytes has one line and one column, and of a stretch one text is shown.
pub fn one_place_text()
    ensures positions { (z : List ℕ) (at : ℕ) (p q : Position) → IsPosition z at p → IsPosition z at q → p ≡ q }
    ensures texts { (z : List ℕ) (s : Stretch) (t u : List ℕ) → IsPlaceText z s t → IsPlaceText z s u → t ≡ u }
{}

/// A law: small files, tried by hand: which stretches are those of tokens, and which stands behind all of them; lines and columns, and
/// what they aren't; and what is shown of a line, of a byte and of a long line.
pub fn positions_by_hand()
    ensures stretches { (stretch_at three_lines_tokens 3 ≡ stretch 15 18)
        × (stretch_at three_lines_tokens 9 ≡ stretch 27 27) × (stretch_at [] 0 ≡ stretch 0 0) }
    ensures lines { IsPosition two_lines 3 (at 2 1) × IsPosition two_lines 2 (at 1 3)
        × IsPosition two_lines 5 (at 2 3) }
    ensures not_there { (IsPosition two_lines 3 (at 1 4) → ⊥) × (IsPosition two_lines 3 (at 2 0) → ⊥) }
    ensures text { IsPlaceText two_lines (stretch 3 5) second_line
        × IsPlaceText two_lines (stretch 4 5) second_byte }
    ensures long_lines { (shown_from 0 121 100 ≡ 40) × (shown_to 0 121 100 ≡ 121)
        × (shown_to 0 200 100 ≡ 160) × (shown_from 0 120 100 ≡ 0) }
    ensures ends_of_lines { (shown_from 0 121 60 ≡ 0) × (shown_from 0 121 61 ≡ 1)
        × (shown_from 10 130 100 ≡ 10) × (shown_from 10 131 100 ≡ 40)
        × (shown_to 10 131 70 ≡ 130) × (shown_to 10 131 71 ≡ 131) × (shown_to 10 130 11 ≡ 130) }
    ensures bytes { (shown 9 ≡ 32) × (shown 31 ≡ 32) × (shown 33 ≡ 33) × (shown 126 ≡ 126)
        × (shown 127 ≡ 32) × (shown 195 ≡ 32) }
    ensures carets { (carets (stretch 3 9) 5 ≡ 2) × (carets (stretch 3 3) 5 ≡ 1)
        × (carets (stretch 3 5) 9 ≡ 2) × (carets (stretch 5 7) 5 ≡ 1) }
{}
