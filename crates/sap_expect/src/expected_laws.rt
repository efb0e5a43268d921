//! Laws of levels that count, and of what is expected, as contracts of functions that do nothing.
ghost use Rattle.std.specs.Prelude.{◌≡◌, ◌++◌, ℕ, codes, List, [], ◌∷◌};
ghost use Rattle.sap_grammar.specs.Words.{Word, mark, name};
ghost use Rattle.sap_expect.specs.declared.nested.Nested.{Nested};
ghost use Rattle.sap_expect.specs.declared.nested.Nested.TheVariants.{Formula as AFormula, Process as AProcess, Term as ATerm};
ghost use Rattle.sap_expect.specs.Expected.{Expected, IsExpected, fewer_levels, one_of};
ghost use Rattle.sap_expect.specs.ExpectedText.{expected_text};
ghost use Rattle.sap_expect.specs.FileTable.{Counting, all_but, every_level, no_level};
ghost use Rattle.sap_expect.specs.FileWords.{IsFileWords};
ghost use Rattle.sap_expect.specs.FirstWrong.{GoOn, IsFirstWrong};
ghost use Rattle.sap_expect.specs.KindExamples.{deep_formula, deep_process, deep_term};
ghost use Rattle.sap_expect.specs.Kinds.{an_item, this_mark};
ghost use Rattle.sap_expect.specs.Letters.{AreLettered};
ghost use Rattle.sap_expect.specs.Levels.{GoesBy, IsTooDeep};

/// A law: where all levels count, the words that go on by the table are those that go on to a file's; and what goes on where more count
/// goes on where fewer do. Where the words alone would go on with a word, and no file does, one limit alone keeps it from that.
pub fn levels_that_count()
    ensures file { (ws : List Word) → AreLettered ws → GoesBy every_level ws → GoOn IsFileWords ws }
    ensures goes { (ws : List Word) → GoOn IsFileWords ws → GoesBy every_level ws }
    ensures more { (s : Counting) (ws : List Word) → GoesBy every_level ws → GoesBy s ws }
    ensures alone { (c : Nested) (ws : List Word) → GoesBy (all_but c) ws → GoesBy no_level ws }
    ensures kept { (ws : List Word) (w : Word) → AreLettered (ws ++ w ∷ []) → GoOn IsFileWords ws → GoesBy no_level (ws ++ w ∷ [])
        → (GoOn IsFileWords (ws ++ w ∷ []) → ⊥) → (c : Nested) × IsTooDeep c (ws ++ w ∷ []) }
{}

/// A law: one word is the first with which words are no file's any more, and one thing is expected in its place, where names begin with
/// letters, as those of tokens do: fewer levels of one kind, or words of other kinds.
pub fn one_expected()
    ensures word { (ws : List Word) (j k : ℕ) → IsFirstWrong IsFileWords ws j → IsFirstWrong IsFileWords ws k → j ≡ k }
    ensures one { (ws : List Word) (k : ℕ) (e f : Expected) → AreLettered ws → IsExpected ws k e → IsExpected ws k f
        → e ≡ f }
{}

/// A law: words at the limits of levels: `<` and arguments in the hundredth level of a term, `!` in the three hundredth of a process, `not`
/// in the hundredth of a formula, each kept by its own levels alone; and words that levels don't keep.
pub fn too_deep_by_hand()
    ensures term { IsTooDeep ATerm (deep_term 99 ++ mark (codes "<") ∷ [])
        × IsTooDeep ATerm (deep_term 99 ++ name (codes "f") ∷ mark (codes "(") ∷ name (codes "x") ∷ []) }
    ensures process { IsTooDeep AProcess (deep_process 299 ++ mark (codes "!") ∷ []) }
    ensures formula { IsTooDeep AFormula (deep_formula 99 ++ mark (codes "not") ∷ []) }
    ensures another { (IsTooDeep AProcess (deep_term 99 ++ mark (codes "<") ∷ []) → ⊥)
        × (IsTooDeep ATerm (deep_process 299 ++ mark (codes "!") ∷ []) → ⊥)
        × (IsTooDeep ATerm (deep_formula 99 ++ mark (codes "not") ∷ []) → ⊥) }
    ensures not_these { (IsTooDeep ATerm (deep_term 99 ++ mark (codes "!") ∷ []) → ⊥)
        × (IsTooDeep ATerm (deep_term 98 ++ mark (codes "<") ∷ []) → ⊥)
        × (IsTooDeep AProcess (deep_process 299 ++ mark (codes "end") ∷ []) → ⊥) }
{}

/// A law: how it is put what is expected: each limit, and kinds.
pub fn expected_texts_by_hand()
    ensures terms { expected_text (fewer_levels ATerm) ≡ codes "No term has more than 100 levels" }
    ensures processes { expected_text (fewer_levels AProcess) ≡ codes "No process has more than 300 levels" }
    ensures formulas { expected_text (fewer_levels AFormula) ≡ codes "No formula has more than 100 levels" }
    ensures kinds { expected_text (one_of (an_item ∷ this_mark (codes "end") ∷ [])) ≡ codes "Here may stand: an item or end" }
    ensures none { expected_text (one_of []) ≡ codes "Nothing may stand here" }
{}
