//! Laws of what is told without reading anything.

ghost use Rattle.std.specs.Prelude.{◌≡◌, ◌⊎◌, ℕ, codes, List, [], ◌∷◌};
ghost use Rattle.sap_outside.specs.Pieces.{pieces};
ghost use Rattle.sap_outside.specs.Stream.{Failed, Gained};
ghost use Rattle.sap_pages.specs.Texts.{commands_text, compile_page, judge_page, version_text};
ghost use Rattle.sap_replay.specs.Sample.{IsSample, sample_text};
ghost use Rattle.sap_tool.specs.Call.{Call};
ghost use Rattle.sap_tool.specs.Commands.{IsUnknown};
ghost use Rattle.sap_tool.specs.Promises.{GivenAtOnce, Promises};
ghost use Rattle.sap_tool.specs.ToldAtOnce.{IsHelp, IsToldAtOnce};

use sap_pages::{one_page, pages_by_hand};

/// A law: words ask for one text at most that is told at once.
pub fn one_text_at_once()
    ensures { (words : List (List ℕ)) (t u : List ℕ) → IsToldAtOnce words t → IsToldAtOnce words u → t ≡ u }
{
    one_page();
}

/// A law: what is promised of texts that are told at once, of samples and of help: where out gained the one that is asked for, it is
/// what is told of the sample, or the help; and each must be told.
pub fn samples_and_help_are_told()
    ensures sample { (c : Call) (n : ℕ) → IsSample c.words n → GivenAtOnce c
        → Gained c.out (pieces (sample_text n)) (sample_text n) }
    ensures help { (c : Call) (text : List ℕ) → IsHelp c.words text → GivenAtOnce c
        → Gained c.out (pieces text) text }
    ensures must_sample { (c : Call) (status n : ℕ) → Promises c status → IsSample c.words n
        → (Failed c.out → ⊥)
        → ((status ≡ 0) × Gained c.out (pieces (sample_text n)) (sample_text n)) ⊎ (status ≡ 6) }
    ensures must_help { (c : Call) (status : ℕ) (text : List ℕ) → Promises c status
        → IsHelp c.words text → (Failed c.out → ⊥)
        → ((status ≡ 0) × Gained c.out (pieces text) text) ⊎ (status ≡ 6) }
{
    one_text_at_once();
}

/// A law: words that ask for help tried by hand. Which text they ask for and which they don't; the list of commands comes by two words, a
/// page by the name of a command; with a word more, or with one that is no command's, the words are unknown; and a sample is no help.
pub fn help_by_hand()
    ensures commands { IsHelp (codes "--help" ∷ []) commands_text
        × IsHelp (codes "help" ∷ []) commands_text }
    ensures page { IsHelp (codes "help" ∷ codes "judge" ∷ []) judge_page }
    ensures version { IsHelp (codes "--version" ∷ []) version_text }
    ensures other_page { IsToldAtOnce (codes "help" ∷ codes "judge" ∷ []) compile_page → ⊥ }
    ensures no_list { IsToldAtOnce (codes "--version" ∷ []) commands_text → ⊥ }
    ensures no_page { (IsUnknown (codes "help" ∷ codes "nothing" ∷ []))
        × (IsUnknown (codes "help" ∷ codes "--help" ∷ [])) }
    ensures no_more { (IsUnknown (codes "--help" ∷ codes "x" ∷ []))
        × (IsUnknown (codes "--version" ∷ codes "x" ∷ []))
        × (IsUnknown (codes "help" ∷ codes "judge" ∷ codes "x" ∷ [])) }
    ensures others { (IsUnknown []) × (IsUnknown (codes "Help" ∷ []))
        × (IsUnknown (codes "judge" ∷ [])) }
    ensures sample { (words : List (List ℕ)) (n : ℕ) (text : List ℕ) → IsSample words n
        → IsHelp words text → ⊥ }
{
    one_page();
    pages_by_hand();
}
