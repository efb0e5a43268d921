//! Marks of steps, the limit on terms and steps of short runs by hand, as contracts of functions that do nothing.
ghost use Rattle.std.specs.Prelude.{◌≡◌, [], ◌∷◌, codes};
ghost use Rattle.sap_terms.specs.AdversaryFacts.{k_fact};
ghost use Rattle.sap_terms.specs.View.{term};
ghost use Rattle.sap_runs.specs.Examples.{k, v, x, a_fact, b_fact, hashed};
ghost use Rattle.sap_runs.specs.Inner.{locked, unlocked, found};
ghost use Rattle.sap_runs.specs.Limits.{AnySize, HasFewNodes};
ghost use Rattle.sap_runs.specs.Marks.{inside, showing, marks_of};
ghost use Rattle.sap_runs.specs.Short.{IsShortStep};
ghost use Rattle.sap_runs.specs.declared.process_step.PStep.TheVariants as step;
ghost use Rattle.sap_runs.specs.declared.short_step.SStep.TheVariants as short;

/// A law: the marks of single steps. What a step does inside comes first, one mark for each action and in their order; then, as
/// one mark, the facts that are seen, in their order, without what the adversary knows. A step that shows nothing else has no
/// mark of what is seen. No other order is that of the marks, and no fact of a step has a mark of its own.
pub fn marks_of_steps_by_hand()
    ensures none { marks_of [] [] ≡ [] }
    ensures known { marks_of [] (k_fact k ∷ []) ≡ [] }
    ensures inner { marks_of (locked k ∷ unlocked k ∷ []) [] ≡ inside (locked k) ∷ inside (unlocked k) ∷ [] }
    ensures seen { marks_of [] (a_fact ∷ k_fact k ∷ b_fact ∷ []) ≡ showing (a_fact ∷ b_fact ∷ []) ∷ [] }
    ensures both { marks_of (locked k ∷ found k v ∷ []) (a_fact ∷ []) ≡ inside (locked k) ∷ inside (found k v) ∷ showing (a_fact ∷ []) ∷ [] }
    ensures not_turned { ¬ (marks_of (locked k ∷ unlocked k ∷ []) [] ≡ inside (unlocked k) ∷ inside (locked k) ∷ []) }
    ensures not_seen_first { ¬ (marks_of (locked k ∷ []) (a_fact ∷ []) ≡ showing (a_fact ∷ []) ∷ inside (locked k) ∷ []) }
    ensures facts_not_turned { ¬ (marks_of [] (a_fact ∷ b_fact ∷ []) ≡ showing (b_fact ∷ a_fact ∷ []) ∷ []) }
    ensures not_apart { ¬ (marks_of [] (a_fact ∷ b_fact ∷ []) ≡ showing (a_fact ∷ []) ∷ showing (b_fact ∷ []) ∷ []) }
    ensures not_known { ¬ (marks_of [] (k_fact k ∷ []) ≡ showing (k_fact k ∷ []) ∷ []) }
{}

/// A law: a term of 256 nodes is within the limit, one of 257 isn't, and one of any size is of any size.
pub fn limit_by_hand()
    ensures at_limit { HasFewNodes (hashed 255) }
    ensures above_limit { ¬ HasFewNodes (hashed 256) }
    ensures any { AnySize (hashed 256) }
{}

/// A law: which steps may stand in a short run. An output, a branch and a new name of the adversary may, as they are; a public
/// name that is written down, a symbol that is applied, and an input, a sending and a knowing that cite an entry may not. What is
/// taken and what is known is ground, and has at most 256 nodes.
pub fn short_steps_by_hand()
    ensures output { IsShortStep (short.Act (step.Out 0)) }
    ensures branch { IsShortStep (short.Act (step.Then 0)) }
    ensures meeting { IsShortStep (short.Act (step.Sync 0 1)) }
    ensures name { IsShortStep (short.Act (step.Name 5)) }
    ensures no_public { ¬ IsShortStep (short.Act (step.Public (codes "a"))) }
    ensures no_symbol { ¬ IsShortStep (short.Act (step.Apply (codes "h") (0 ∷ []))) }
    ensures no_input { ¬ IsShortStep (short.Act (step.In 0 1)) }
    ensures no_sending { ¬ IsShortStep (short.Act (step.Send 0 1)) }
    ensures no_knowing { ¬ IsShortStep (short.Act (step.Know 1)) }
    ensures sending { IsShortStep (short.Send 0) }
    ensures input { IsShortStep (short.In 0 (term (hashed 255))) }
    ensures knowing { IsShortStep (short.Know (term k)) }
    ensures large_input { ¬ IsShortStep (short.In 0 (term (hashed 256))) }
    ensures large_knowing { ¬ IsShortStep (short.Know (term (hashed 256))) }
    ensures open_input { ¬ IsShortStep (short.In 0 (term x)) }
    ensures open_knowing { ¬ IsShortStep (short.Know (term x)) }
{}
