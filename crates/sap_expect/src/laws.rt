//! Laws of the table, as contracts of functions that do nothing.
ghost use Rattle.std.specs.Prelude.{◌≡◌, ℕ, List};
ghost use Rattle.sap_grammar.specs.Words.{Word};
ghost use Rattle.sap_expect.specs.FileTable.{Open, Reads, Takes, file};
ghost use Rattle.sap_expect.specs.FileWords.{IsFileWords};
ghost use Rattle.sap_expect.specs.FirstWrong.{IsFirstWrong};
ghost use Rattle.sap_expect.specs.Levels.{AreTaken};
ghost use Rattle.sap_expect.specs.ItemExamples.{another_attribute, another_builtin, another_privacy, behind_nil, capital_symbol, empty_use, endless, large_arity, last_comma, name_apart, no_binders, no_time, one_else, one_inserted, one_part, persistent_act, reserved_name, signed_entry, small_event, three_terms, two_elses, two_equivalences, two_times, unclosed, with_arguments, with_comma};

/// A law: by the table of a file's words one thing at most is wanted behind a word, with some levels, and whatever is wanted behind words
/// that were taken one by one, some words are it. So such words go on to a file's words, and one that isn't taken is wrong.
pub fn table_goes_on()
    ensures one_next { (n : ℕ) (vs : List Open) (w : Word) (j k : ℕ) (us ss : List Open) → Takes n vs w j us → Takes n vs w k ss
        → (j ≡ k) × (us ≡ ss) }
    ensures ends { (us : List Word) (n : ℕ) (vs : List Open) → AreTaken 0 file us n vs → (ws : List Word) × Reads n vs ws }
{}

/// A law: small files by their words: which word is the first with which no file goes on, and which isn't; files in which none is.
pub fn items_by_hand()
    ensures wrong { IsFirstWrong IsFileWords unclosed 7 × IsFirstWrong IsFileWords endless 6
        × IsFirstWrong IsFileWords with_comma 9 × IsFirstWrong IsFileWords two_elses 13
        × IsFirstWrong IsFileWords large_arity 7 × IsFirstWrong IsFileWords two_equivalences 10
        × IsFirstWrong IsFileWords empty_use 7 × IsFirstWrong IsFileWords name_apart 8
        × IsFirstWrong IsFileWords last_comma 8 }
    ensures wrong_words { IsFirstWrong IsFileWords another_builtin 5 × IsFirstWrong IsFileWords capital_symbol 5
        × IsFirstWrong IsFileWords another_privacy 9 × IsFirstWrong IsFileWords small_event 6
        × IsFirstWrong IsFileWords reserved_name 6 × IsFirstWrong IsFileWords three_terms 10
        × IsFirstWrong IsFileWords persistent_act 8 × IsFirstWrong IsFileWords signed_entry 8
        × IsFirstWrong IsFileWords one_inserted 7 × IsFirstWrong IsFileWords one_part 9
        × IsFirstWrong IsFileWords behind_nil 6 × IsFirstWrong IsFileWords another_attribute 6
        × IsFirstWrong IsFileWords two_times 10 × IsFirstWrong IsFileWords no_time 10
        × IsFirstWrong IsFileWords no_binders 8 }
    ensures not_there { (IsFirstWrong IsFileWords unclosed 5 → ⊥)
        × (IsFirstWrong IsFileWords with_comma 10 → ⊥)
        × (IsFirstWrong IsFileWords two_elses 11 → ⊥)
        × (IsFirstWrong IsFileWords name_apart 5 → ⊥)
        × (IsFirstWrong IsFileWords endless 7 → ⊥) }
    ensures right { IsFileWords one_else × IsFileWords with_arguments × ((k : ℕ) → IsFirstWrong IsFileWords one_else k → ⊥) }
{}
