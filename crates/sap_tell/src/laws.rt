//! Laws, as contracts of functions that do nothing.
ghost use Rattle.std.specs.Prelude.{◌≡◌, ℕ, true, codes, List, [], ◌∷◌};
ghost use Rattle.std.specs.List.{list_all};
ghost use Rattle.sap_tell.specs.Escaped.{escaped, StandsFor, is_no_mark};

/// A law: what is written for bytes stands for these bytes, and a text stands for no two lists of bytes; and whatever the bytes are,
/// none of `"`, `'`, `<` and `>` stands in it.
pub fn escaped_stands_for_one()
    ensures read_back { (z : List ℕ) → StandsFor (escaped z) z }
    ensures one { (t y z : List ℕ) → StandsFor t y → StandsFor t z → y ≡ z }
    ensures no_marks { (z : List ℕ) → list_all is_no_mark (escaped z) ≡ true }
{}

/// A law: bytes tried by hand: what is written for them, and text that stands for no bytes: a mark, a quotation mark, `&` alone and
/// without its semicolon.
pub fn escaped_by_hand()
    ensures pair { escaped (codes "<'hi',~1>") ≡ codes "&lt;&apos;hi&apos;,~1&gt;" }
    ensures others { escaped (codes "a&b\"") ≡ codes "a&amp;b&quot;" }
    ensures reference { escaped (codes "&lt;") ≡ codes "&amp;lt;" }
    ensures mark { (z : List ℕ) → ¬ StandsFor (codes "a<b") z }
    ensures quotation { (z : List ℕ) → ¬ StandsFor (codes "\"") z }
    ensures alone { (z : List ℕ) → ¬ StandsFor (codes "a & b") z }
    ensures open { (z : List ℕ) → ¬ StandsFor (codes "&lt") z }
{}
