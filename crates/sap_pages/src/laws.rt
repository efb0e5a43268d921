//! Laws of pages.
ghost use Rattle.std.specs.Prelude.{◌≡◌, ℕ, List, codes, [], ◌∷◌, ◌++◌};
ghost use Rattle.sap_pages.specs.Texts.{commands_text, compile_page, judge_page, lines_text, version_text, why_page};
ghost use Rattle.sap_pages.specs.Pages.{IsPageOf};

/// A law: a word has one page at most.
pub fn one_page()
    ensures { (word t u : List ℕ) → IsPageOf word t → IsPageOf word u → t ≡ u }
{}

/// A law: pages tried by hand. Which is one and which isn't; words that have none, among them those that no command has, and a command's
/// with another first letter; how lines make a text, and two texts.
pub fn pages_by_hand()
    ensures page { IsPageOf (codes "compile") compile_page × IsPageOf (codes "judge") judge_page }
    ensures other_page { (IsPageOf (codes "why") judge_page → ⊥) × (IsPageOf (codes "judge") why_page → ⊥)
        × (IsPageOf (codes "compile") commands_text → ⊥) }
    ensures none { (text : List ℕ) → (IsPageOf (codes "nothing") text → ⊥)
        × (IsPageOf (codes "Compile") text → ⊥) × (IsPageOf (codes "--help") text → ⊥)
        × (IsPageOf [] text → ⊥) }
    ensures lines { (lines_text [] ≡ []) × (lines_text (codes "a" ∷ [] ∷ codes "b" ∷ []) ≡ codes "a\n\nb\n") }
    ensures why { why_page ≡ codes "sapic why FILE\n\nWrites    accepted; or the line with which compile refuses FILE, where the\n          cause stands, and what to change.\nReads     FILE, of at most 1048576 bytes.\nRefuses   nothing: the status is 0 whether FILE is accepted or not.\nExample   sapic why examples/answer.spthy\nPages     docs/files.md\n" }
    ensures version { version_text ≡ codes "sapic 1.0.0\nproved with rattle-kit-13f logic dac8208d650f15bf\n" }
{}
