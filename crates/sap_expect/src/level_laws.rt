//! Examples of words that are taken with the levels that are left.
ghost use Rattle.sap_expect.specs.declared.wanted.Part.TheVariants.{Conjunction, Equivalence, Formula, Implication, Process, Sequence, Term};
ghost use Rattle.sap_expect.specs.LevelExamples.{MayBegin, behind_replicated, deep_branch, deep_second, no_terms, not_group, one_term, symbol_first, three_in_body, three_parts, three_sides, three_terms, two_actions, two_ands, two_bars, two_implications, two_parts, two_sides};

/// A law: small words that may begin a term, a process or a formula of at most so many levels, and words that may not.
pub fn levels_by_hand()
    ensures terms { MayBegin Term 2 two_parts × MayBegin Term 3 three_parts × MayBegin Term 2 symbol_first
        × MayBegin Term 1 no_terms × MayBegin Term 2 one_term × MayBegin Term 2 three_terms }
    ensures not_terms { (MayBegin Term 1 two_parts → ⊥) × (MayBegin Term 2 three_parts → ⊥) × (MayBegin Term 1 symbol_first → ⊥)
        × (MayBegin Term 1 one_term → ⊥) × (MayBegin Term 1 three_terms → ⊥) }
    ensures processes { MayBegin Process 3 behind_replicated × MayBegin Process 3 two_bars
        × MayBegin Sequence 3 two_actions × MayBegin Sequence 3 deep_branch }
    ensures not_processes { (MayBegin Process 2 behind_replicated → ⊥) × (MayBegin Process 2 two_bars → ⊥)
        × (MayBegin Sequence 2 two_actions → ⊥) × (MayBegin Sequence 2 deep_branch → ⊥) }
    ensures formulas { MayBegin Conjunction 3 two_ands × MayBegin Conjunction 3 deep_second × MayBegin Implication 3 two_implications
        × MayBegin Equivalence 2 two_sides × MayBegin Formula 3 not_group }
    ensures not_formulas { (MayBegin Conjunction 2 two_ands → ⊥) × (MayBegin Conjunction 2 deep_second → ⊥) × (MayBegin Implication 2 two_implications → ⊥)
        × (MayBegin Equivalence 1 two_sides → ⊥) × (MayBegin Formula 2 not_group → ⊥)
        × (MayBegin Equivalence 100 three_sides → ⊥) × (MayBegin Equivalence 100 three_in_body → ⊥) }
{}
