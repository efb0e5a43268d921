// What runs of rules reach, and small runs by hand, as contracts of functions that only call the laws below.
ghost use Rattle.std.specs.List.{AllZip};
ghost use Rattle.std.specs.Prelude.{◌≡◌, ◌⊎◌, ℕ, false, codes, List, [], ◌∷◌, ◌++◌, Option, Some, None, Contains, slice_get, slice_set};
ghost use Rattle.sap_terms.specs.AdversaryFacts.{k_fact, in_fact, out_fact, fr_fact};
ghost use Rattle.sap_terms.specs.Equal.{IsTheoryEqual};
ghost use Rattle.sap_terms.specs.Equations.{equations};
ghost use Rattle.sap_terms.specs.Message.{IsMessage};
ghost use Rattle.sap_terms.specs.Piles.{Pile};
ghost use Rattle.sap_terms.specs.Signature.{Sig, IsPublic, arity_of, pairs_alone};
ghost use Rattle.sap_terms.specs.Trace.{Trace};
ghost use Rattle.sap_terms.specs.Tree.{Tree, public, fresh, apply, none, more};
ghost use Rattle.sap_terms.specs.declared.fact.Fact.{Fact};
ghost use Rattle.sap_terms.specs.declared.var.Sort.{Sort};
ghost use Rattle.sap_terms.specs.declared.var.Sort.TheVariants.{Msg};
ghost use Rattle.sap_rule.specs.Messages.{TakenAreMessages, StepsKeepMessages, RunsReachMessages};
ghost use Rattle.sap_rule.specs.Named.{rule_named, HaveNamesOfTheirOwn};
ghost use Rattle.sap_rule.specs.RuleSteps.{IsFullTrace, RuleState, RuleStep, empty_state};
ghost use Rattle.sap_rule.specs.StepExamples.{a, b, first_of, lasting_fact, left_fact, moving, named, opening, pair, right_fact, shown_fact, state, taking_lasting, taking_twice, telling};
ghost use Rattle.sap_rule.specs.declared.rule.Rule.{Rule};

use sap_rewrite::{forms_are_messages, normal_forms_are_unique};
use sap_terms::names_are_messages;

/// What can be taken from a state that holds messages are facts of messages.
pub fn taken_facts_are_messages()
    ensures { TakenAreMessages }
{}

/// Where a state holds messages, a step of well-made rules shows messages and leads to a state that holds messages.
pub fn steps_keep_messages()
    ensures { StepsKeepMessages }
{
    names_are_messages();
    forms_are_messages();
}

/// What runs of well-made rules show, and the states that they reach, hold messages alone.
pub fn runs_reach_messages()
    ensures { RunsReachMessages }
{
    steps_keep_messages();
}

/// Names of rules: of two rules of one name the first is found; one that stands second is found by its own name; and rules
/// have names of their own where no two share one, wherever these stand.
pub fn names_by_hand()
    ensures first { rule_named (named (codes "P") a ∷ named (codes "P") b ∷ []) (codes "P") ≡ Some (named (codes "P") a) }
    ensures second { rule_named (named (codes "P") a ∷ named (codes "Q") b ∷ []) (codes "Q") ≡ Some (named (codes "Q") b) }
    ensures no_other { rule_named (named (codes "P") a ∷ named (codes "Q") b ∷ []) (codes "R") ≡ None }
    ensures own { HaveNamesOfTheirOwn (named (codes "P") a ∷ named (codes "Q") a ∷ named (codes "R") a ∷ []) }
    ensures shared { ¬ HaveNamesOfTheirOwn (named (codes "P") a ∷ named (codes "P") b ∷ []) }
    ensures shared_apart { ¬ HaveNamesOfTheirOwn (named (codes "P") a ∷ named (codes "Q") a ∷ named (codes "P") b ∷ []) }
    ensures shared_later { ¬ HaveNamesOfTheirOwn (named (codes "Q") a ∷ named (codes "P") a ∷ named (codes "P") b ∷ []) }
{}

/// A step of each kind, from one state to the next: a name comes last and is nobody's yet; what was put out and what is owned
/// is taken and comes last among what is known; what the adversary applies a symbol to stays known, and it gets the normal
/// form; a term that it gives stays known. A rule takes facts that its left side is equal to under the theory, and shows
/// and adds normal forms; what it takes is gone, but a persistent fact, which it takes as often as it likes.
pub fn steps_by_hand()
    ensures makes_name { (g : Sig) (rules : List Rule) → RuleStep g rules (state (Some (left_fact a) ∷ []) (a ∷ []) (4 ∷ [])) []
        (state (Some (left_fact a) ∷ Some (fr_fact 5) ∷ []) (a ∷ []) (4 ∷ 5 ∷ [])) }
    ensures learns { (g : Sig) (rules : List Rule) → RuleStep g rules
        (state (Some (left_fact a) ∷ Some (out_fact b) ∷ []) (a ∷ []) (4 ∷ [])) []
        (state (Some (left_fact a) ∷ None ∷ []) (a ∷ b ∷ []) (4 ∷ [])) }
    ensures owns { (g : Sig) (rules : List Rule) → RuleStep g rules (state (Some (fr_fact 4) ∷ []) (a ∷ []) (4 ∷ [])) []
        (state (None ∷ []) (a ∷ fresh 4 ∷ []) (4 ∷ [])) }
    ensures knows_public { (g : Sig) (rules : List Rule) → RuleStep g rules (state [] (a ∷ []) []) [] (state [] (a ∷ b ∷ []) []) }
    ensures applies { (rules : List Rule) → RuleStep pairs_alone rules (state [] (a ∷ b ∷ []) []) []
        (state [] (a ∷ b ∷ pair b a ∷ []) []) }
    ensures applies_normal { (rules : List Rule) → RuleStep pairs_alone rules (state [] (pair (fresh 4) b ∷ []) []) []
        (state [] (pair (fresh 4) b ∷ fresh 4 ∷ []) []) }
    ensures gives { (g : Sig) (rules : List Rule) → RuleStep g rules (state (None ∷ []) (a ∷ b ∷ []) []) (k_fact b ∷ [])
        (state (None ∷ Some (in_fact b) ∷ []) (a ∷ b ∷ []) []) }
    ensures uses { (g : Sig) → RuleStep g (telling ∷ moving Msg ∷ [])
        (state (Some (left_fact b) ∷ Some (left_fact a) ∷ []) (a ∷ []) (4 ∷ [])) (shown_fact a ∷ [])
        (state (Some (left_fact b) ∷ None ∷ Some (right_fact a) ∷ []) (a ∷ []) (4 ∷ [])) }
    ensures uses_equal { (g : Sig) → RuleStep g (opening ∷ []) (state (Some (left_fact a) ∷ []) [] [])
        (shown_fact a ∷ shown_fact b ∷ []) (state (None ∷ Some (right_fact a) ∷ Some (left_fact b) ∷ []) [] []) }
    ensures uses_lasting { (g : Sig) → RuleStep g (taking_lasting ∷ []) (state (Some (lasting_fact a) ∷ []) [] []) (shown_fact a ∷ [])
        (state (Some (lasting_fact a) ∷ []) [] []) }
{
    names_are_messages();
}

/// Where a state goes on, this is what happened, and nothing else. Fr is made of a name that it was not made of, and comes in
/// no other way. A fresh name comes to the adversary out of a fact that stands, Out or Fr, which is gone then. From nothing it
/// knows a public name, or what a public symbol without arguments gives; to a term it applies a public symbol of the arity, and
/// to no term that it doesn't know; what it gets is normal. Without rules it alone shows something, which is what it gives and
/// knows, and In comes in no other way.
pub fn exact_steps_by_hand()
    ensures makes_name { (g : Sig) (rules : List Rule) (s z : RuleState) (acts : List Fact) (n : ℕ) → RuleStep g rules s acts z
        → z.made ≡ s.made ++ n ∷ []
        → (¬ Contains s.made n) × (acts ≡ []) × (z.facts ≡ s.facts ++ Some (fr_fact n) ∷ []) × (z.known ≡ s.known) }
    ensures makes_name_alone { (g : Sig) (s z : RuleState) (acts : List Fact) (n : ℕ) → RuleStep g [] s acts z
        → z.facts ≡ s.facts ++ Some (fr_fact n) ∷ [] → z.made ≡ s.made ++ n ∷ [] }
    ensures knows_fresh { (g : Sig) (rules : List Rule) (facts : Pile) (made : List ℕ) (n : ℕ) (acts : List Fact) (z : RuleState)
        → RuleStep g rules (state facts [] made) acts z → z.known ≡ fresh n ∷ []
        → (acts ≡ []) × (z.made ≡ made) × ((k : ℕ) × (z.facts ≡ slice_set facts k None)
        × ((slice_get facts k ≡ Some (Some (out_fact (fresh n)))) ⊎ (slice_get facts k ≡ Some (Some (fr_fact n))))) }
    ensures knows_first { (g : Sig) (rules : List Rule) (t : Tree) (acts : List Fact) (z : RuleState)
        → RuleStep g rules empty_state acts z → z.known ≡ t ∷ []
        → (acts ≡ []) × (z.facts ≡ []) × (z.made ≡ []) × (((n : List ℕ) × (t ≡ public n))
        ⊎ ((f : List ℕ) × (t ≡ apply f none) × IsPublic g f × (arity_of g f ≡ Some 0))) }
    ensures applies { (g : Sig) (rules : List Rule) (f : List ℕ) (t : Tree) (acts : List Fact) (z : RuleState)
        → RuleStep g rules (state [] (a ∷ []) []) acts z → z.known ≡ a ∷ apply f (more t none) ∷ []
        → (acts ≡ []) × (z.facts ≡ []) × (z.made ≡ []) × (t ≡ a) × IsPublic g f × (arity_of g f ≡ Some 1) }
    ensures applies_normal { (g : Sig) (rules : List Rule) (acts : List Fact) (z : RuleState)
        → RuleStep g rules (state [] (pair a b ∷ []) []) acts z → ¬ (z.known ≡ pair a b ∷ first_of (pair a b) ∷ []) }
    ensures gives { (g : Sig) (s z : RuleState) (acts fs : List Fact) (f : Fact) → RuleStep g [] s acts z → acts ≡ f ∷ fs
        → (t : Tree) × Contains s.known t × (acts ≡ k_fact t ∷ []) × (z.facts ≡ s.facts ++ Some (in_fact t) ∷ [])
        × (z.known ≡ s.known) × (z.made ≡ s.made) }
    ensures gives_alone { (g : Sig) (s z : RuleState) (acts : List Fact) (t : Tree) → RuleStep g [] s acts z
        → z.facts ≡ s.facts ++ Some (in_fact t) ∷ [] → acts ≡ k_fact t ∷ [] }
{
    normal_forms_are_unique();
}

/// Uses of a rule, exactly. It takes a fact that stands, of its name and its persistence, with what its variable stands for up
/// to the theory, which is a message of the variable's sort; it shows and adds the normal form of its sides, and leaves what
/// the adversary knows and the names as they are. And it doesn't take one linear fact twice.
pub fn exact_uses_by_hand()
    ensures uses { (g : Sig) (s : Sort) (slot : Option Fact) (made : List ℕ) (u : Tree) (acts : List Fact) (z : RuleState)
        → RuleStep g (moving s ∷ []) (state (slot ∷ []) [] made) acts z → acts ≡ shown_fact u ∷ []
        → IsMessage g s u × (z.facts ≡ None ∷ Some (right_fact u) ∷ []) × (z.known ≡ []) × (z.made ≡ made)
        × ((f : Fact) × (slot ≡ Some f) × (f.name ≡ codes "L") × (f.persistent ≡ false)
        × AllZip (IsTheoryEqual (equations g)) (u ∷ []) f.args) }
    ensures twice { (g : Sig) (acts : List Fact) (z : RuleState)
        → RuleStep g (taking_twice ∷ []) (state (Some (left_fact a) ∷ []) [] []) acts z → ¬ (acts ≡ shown_fact a ∷ []) }
{
    normal_forms_are_unique();
}

/// Names that the adversary took. Once it took Fr(~3), `Fr(~x) --[ A(~x) ]-> Out(~x)` shows no name of it, nor any other where no
/// other was drawn; where Fr(~4) stands beside, it shows that one and no other.
pub fn owned_names_by_hand()
    ensures taken { (g : Sig) (t : Tree) (acts : List Fact) (z : RuleState)
        → RuleStep g (telling ∷ []) (state (None ∷ []) (fresh 3 ∷ []) (3 ∷ [])) acts z → ¬ (acts ≡ shown_fact t ∷ []) }
    ensures other { (g : Sig) → RuleStep g (telling ∷ []) (state (None ∷ Some (fr_fact 4) ∷ []) (fresh 3 ∷ []) (3 ∷ 4 ∷ []))
        (shown_fact (fresh 4) ∷ []) (state (None ∷ None ∷ Some (out_fact (fresh 4)) ∷ []) (fresh 3 ∷ []) (3 ∷ 4 ∷ [])) }
{
    names_are_messages();
}

/// Runs: they start where nothing stands and nothing is known, and a full trace has a time for each step, the first one first,
/// also where nothing is shown. `Fr(~x) --[ A(~x) ]-> Out(~x)` shows the name that was made, and then the adversary gives it.
pub fn runs_by_hand()
    ensures starts { (g : Sig) (rules : List Rule) → IsFullTrace g rules [] }
    ensures tells { (g : Sig) → IsFullTrace g (telling ∷ [])
        ([] ∷ (shown_fact (fresh 3) ∷ []) ∷ [] ∷ (k_fact (fresh 3) ∷ []) ∷ []) }
    ensures silent_first { (g : Sig) (acts : List Fact) (later : Trace) → IsFullTrace g (telling ∷ []) (acts ∷ later) → acts ≡ [] }
{
    names_are_messages();
}
